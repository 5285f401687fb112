//! The names of options.
ghost use Rattle.std.specs.Prelude.{◌≡◌};
ghost use Rattle.tks_opt.specs.Values.{named_in};
ghost use Rattle.tks_opt.specs.Table.{common_names, shown_names, done_names, option_named};

/// An option of windows.
#[derive(Clone, Copy, Debug, PartialEq, Eq, Hash)]
pub enum OptionName {
    Background,
    Foreground,
    Font,
    Relief,
    BorderWidth,
    TakeFocus,
    Text,
    TextVariable,
    Width,
    Height,
    Anchor,
    Command,
    State,
    Variable,
    OnValue,
    OffValue,
    Show,
    SelectMode,
    Wrap,
}

// An option of all windows.
fn common_named(text: &[u8]) -> Option<OptionName>
    ensures { result ≡ named_in common_names text.now }
{
    if text == b"-background".as_slice() {
        Some(OptionName::Background)
    } else if text == b"-bg".as_slice() {
        Some(OptionName::Background)
    } else if text == b"-foreground".as_slice() {
        Some(OptionName::Foreground)
    } else if text == b"-fg".as_slice() {
        Some(OptionName::Foreground)
    } else if text == b"-font".as_slice() {
        Some(OptionName::Font)
    } else if text == b"-relief".as_slice() {
        Some(OptionName::Relief)
    } else if text == b"-borderwidth".as_slice() {
        Some(OptionName::BorderWidth)
    } else if text == b"-bd".as_slice() {
        Some(OptionName::BorderWidth)
    } else if text == b"-takefocus".as_slice() {
        Some(OptionName::TakeFocus)
    } else {
        None
    }
}

// An option of what a window shows.
fn shown_named(text: &[u8]) -> Option<OptionName>
    ensures { result ≡ named_in shown_names text.now }
{
    if text == b"-text".as_slice() {
        Some(OptionName::Text)
    } else if text == b"-textvariable".as_slice() {
        Some(OptionName::TextVariable)
    } else if text == b"-width".as_slice() {
        Some(OptionName::Width)
    } else if text == b"-height".as_slice() {
        Some(OptionName::Height)
    } else if text == b"-anchor".as_slice() {
        Some(OptionName::Anchor)
    } else if text == b"-show".as_slice() {
        Some(OptionName::Show)
    } else if text == b"-wrap".as_slice() {
        Some(OptionName::Wrap)
    } else {
        None
    }
}

// An option of what a window does.
fn done_named(text: &[u8]) -> Option<OptionName>
    ensures { result ≡ named_in done_names text.now }
{
    if text == b"-command".as_slice() {
        Some(OptionName::Command)
    } else if text == b"-state".as_slice() {
        Some(OptionName::State)
    } else if text == b"-variable".as_slice() {
        Some(OptionName::Variable)
    } else if text == b"-onvalue".as_slice() {
        Some(OptionName::OnValue)
    } else if text == b"-offvalue".as_slice() {
        Some(OptionName::OffValue)
    } else if text == b"-selectmode".as_slice() {
        Some(OptionName::SelectMode)
    } else {
        None
    }
}

impl OptionName {
    /// The option that a text names, by its whole name, or by the short one of three: `-bg`, `-fg`, `-bd`.
    pub fn named(text: &[u8]) -> Option<OptionName>
        ensures { result ≡ option_named text.now }
    {
        if let Some(name) = common_named(text) {
            return Some(name);
        }
        if let Some(name) = shown_named(text) {
            return Some(name);
        }
        done_named(text)
    }
}
