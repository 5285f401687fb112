//! The states that `-state` names.
ghost use Rattle.std.specs.Prelude.{◌≡◌};
ghost use Rattle.tks_opt.specs.Values.{state_named};

use tks_text::Txt;

/// Whether a window may be used, as `-state` says (button(n), entry(n), listbox(n), text(n)).
#[derive(Clone, Copy, Debug, PartialEq, Eq)]
pub enum State {
    Normal,
    /// As normal, and shown as pressed.
    Active,
    Disabled,
    /// Changed by no script, but used otherwise.
    ReadOnly,
}

impl State {
    /// The state that a text names: `normal`, `active`, `disabled` or `readonly`.
    pub fn named(text: &Txt) -> Option<State>
        ensures { result ≡ state_named text.now }
    {
        let text = text.as_bytes();
        if text == b"normal".as_slice() {
            Some(State::Normal)
        } else if text == b"active".as_slice() {
            Some(State::Active)
        } else if text == b"disabled".as_slice() {
            Some(State::Disabled)
        } else if text == b"readonly".as_slice() {
            Some(State::ReadOnly)
        } else {
            None
        }
    }
}
