//! What widgets hold, within the limits.
ghost use Rattle.std.specs.Prelude.{◌≡◌};
ghost use Rattle.tks_cmd.specs.Contents.{may_hold, holds_within};

use tks_state::Widget;
use tks_text::Limits;

// Whether a list of so many passes no limit.
fn may_hold(count: usize, limits: &Limits) -> bool
    ensures { result ≡ may_hold limits.now count }
{
    count <= limits.items as usize
}

/// Whether the items of a listbox, and the characters, tags and marks of a text widget, pass no limit. Other widgets
/// hold no more than a text.
#[tactic(auto, unfolding(crate::specs::Contents::holds_within))]
pub fn holds_within(widget: &Widget, limits: &Limits) -> bool
    ensures { result ≡ holds_within limits.now widget.now }
{
    match widget {
        Widget::Frame(_) | Widget::Caption(_) | Widget::Entry(_) => true,
        Widget::Listbox(listbox) => may_hold(listbox.items().len(), limits),
        Widget::Text(lines) => {
            lines.len() <= limits.text as usize
                && may_hold(lines.tags().len(), limits)
                && may_hold(lines.marks().len(), limits)
        }
    }
}
