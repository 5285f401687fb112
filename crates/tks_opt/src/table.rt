//! Which options the classes have, what their values may be, and what they are at first.
ghost use Rattle.std.specs.Prelude.{◌≡◌, is_some};
ghost use Rattle.tks_text.specs.Text.{IsText};
ghost use Rattle.tks_opt.specs.Values.{number_within, state_named};
ghost use Rattle.tks_opt.specs.Table.{options_of, max_size, least_size, has_state, is_state_of, is_flag, is_select_mode, accepts, takes_focus, first_width, first_height, last_part, first_value};

use crate::anchor::Anchor;
use crate::name::OptionName;
use crate::number::number_within;
use crate::state::State;
use tks_text::{Class, Txt};

/// The greatest size that `-width` and `-height` take.
pub const MAX_SIZE: u16 = 10_000;

const OF_FRAME: &[OptionName] = &[
    OptionName::Background,
    OptionName::Foreground,
    OptionName::Font,
    OptionName::Relief,
    OptionName::BorderWidth,
    OptionName::TakeFocus,
    OptionName::Width,
    OptionName::Height,
];

const OF_LABEL: &[OptionName] = &[
    OptionName::Background,
    OptionName::Foreground,
    OptionName::Font,
    OptionName::Relief,
    OptionName::BorderWidth,
    OptionName::TakeFocus,
    OptionName::Text,
    OptionName::TextVariable,
    OptionName::Width,
    OptionName::Anchor,
];

const OF_BUTTON: &[OptionName] = &[
    OptionName::Background,
    OptionName::Foreground,
    OptionName::Font,
    OptionName::Relief,
    OptionName::BorderWidth,
    OptionName::TakeFocus,
    OptionName::Text,
    OptionName::TextVariable,
    OptionName::Width,
    OptionName::Anchor,
    OptionName::Command,
    OptionName::State,
];

const OF_CHECKBUTTON: &[OptionName] = &[
    OptionName::Background,
    OptionName::Foreground,
    OptionName::Font,
    OptionName::Relief,
    OptionName::BorderWidth,
    OptionName::TakeFocus,
    OptionName::Text,
    OptionName::TextVariable,
    OptionName::Width,
    OptionName::Anchor,
    OptionName::Command,
    OptionName::State,
    OptionName::Variable,
    OptionName::OnValue,
    OptionName::OffValue,
];

const OF_ENTRY: &[OptionName] = &[
    OptionName::Background,
    OptionName::Foreground,
    OptionName::Font,
    OptionName::Relief,
    OptionName::BorderWidth,
    OptionName::TakeFocus,
    OptionName::TextVariable,
    OptionName::Show,
    OptionName::Width,
    OptionName::State,
];

const OF_LISTBOX: &[OptionName] = &[
    OptionName::Background,
    OptionName::Foreground,
    OptionName::Font,
    OptionName::Relief,
    OptionName::BorderWidth,
    OptionName::TakeFocus,
    OptionName::Width,
    OptionName::Height,
    OptionName::State,
    OptionName::SelectMode,
];

const OF_TEXT: &[OptionName] = &[
    OptionName::Background,
    OptionName::Foreground,
    OptionName::Font,
    OptionName::Relief,
    OptionName::BorderWidth,
    OptionName::TakeFocus,
    OptionName::Width,
    OptionName::Height,
    OptionName::State,
    OptionName::Wrap,
];

/// The options of a class, in the order in which they are kept.
pub fn options_of(class: Class) -> &'static [OptionName]
    ensures { result.now ≡ options_of class }
{
    match class {
        Class::Root => OF_FRAME,
        Class::Frame => OF_FRAME,
        Class::Label => OF_LABEL,
        Class::Button => OF_BUTTON,
        Class::Checkbutton => OF_CHECKBUTTON,
        Class::Entry => OF_ENTRY,
        Class::Listbox => OF_LISTBOX,
        Class::Text => OF_TEXT,
    }
}

// The least size that a window of the class may have.
fn least_size(class: Class) -> u16
    ensures { result ≡ least_size class }
{
    match class {
        Class::Text => 1,
        _ => 0,
    }
}

// Whether a window of the class may be in the state.
fn has_state(class: Class, state: State) -> bool
    ensures { result ≡ has_state class state }
{
    match (class, state) {
        (_, State::Normal) => true,
        (_, State::Disabled) => true,
        (Class::Entry, State::ReadOnly) => true,
        (_, State::ReadOnly) => false,
        (Class::Entry, State::Active) => false,
        (Class::Listbox, State::Active) => false,
        (Class::Text, State::Active) => false,
        (_, State::Active) => true,
    }
}

// Whether a text names a state that a window of the class may be in.
fn is_state_of(class: Class, text: &Txt) -> bool
    ensures { result ≡ is_state_of class (state_named text.now) }
{
    match State::named(text) {
        Some(state) => has_state(class, state),
        None => false,
    }
}

// Whether a text is `0` or `1`.
fn is_flag(text: &[u8]) -> bool
    ensures { result ≡ is_flag text.now }
{
    text == b"0".as_slice() || text == b"1".as_slice()
}

// Whether a text is a way of selecting in a listbox.
fn is_select_mode(text: &[u8]) -> bool
    ensures { result ≡ is_select_mode text.now }
{
    text == b"browse".as_slice()
        || text == b"single".as_slice()
        || text == b"multiple".as_slice()
        || text == b"extended".as_slice()
}

// Whether a text is a size that a window of the class may have.
fn is_size(class: Class, text: &Txt) -> bool
    ensures { result ≡ is_some (number_within (least_size class) max_size text.now) }
{
    number_within(least_size(class), MAX_SIZE, text).is_some()
}

/// Whether a text may be the value of an option in a window of the class.
pub fn accepts(class: Class, name: OptionName, text: &Txt) -> bool
    ensures { result ≡ accepts class name text.now }
{
    match name {
        OptionName::TakeFocus => is_flag(text.as_bytes()),
        OptionName::Width => is_size(class, text),
        OptionName::Height => is_size(class, text),
        OptionName::Anchor => Anchor::named(text).is_some(),
        OptionName::State => is_state_of(class, text),
        OptionName::SelectMode => is_select_mode(text.as_bytes()),
        _ => true,
    }
}

// Whether a window of the class takes the focus by itself, as `-takefocus` has it.
fn takes_focus(class: Class) -> &'static [u8]
    ensures value { result.now ≡ takes_focus class }
    ensures text { IsText result.now }
{
    match class {
        Class::Root => b"0",
        Class::Frame => b"0",
        Class::Label => b"0",
        _ => b"1",
    }
}

// The width that a window of the class has at first.
fn first_width(class: Class) -> &'static [u8]
    ensures value { result.now ≡ first_width class }
    ensures text { IsText result.now }
{
    match class {
        Class::Entry => b"20",
        Class::Listbox => b"20",
        Class::Text => b"80",
        _ => b"0",
    }
}

// The height that a window of the class has at first.
fn first_height(class: Class) -> &'static [u8]
    ensures value { result.now ≡ first_height class }
    ensures text { IsText result.now }
{
    match class {
        Class::Listbox => b"10",
        Class::Text => b"24",
        _ => b"0",
    }
}

// What stands behind the last dot of a path.
fn last_part(path: &[u8]) -> &[u8]
    requires { IsText path.now }
    ensures value { result.now ≡ last_part path.now }
    ensures text { IsText result.now }
{
    let len = path.iter().rev().take_while(|byte| **byte != b'.').count();
    path.split_at(path.len() - len).1
}

/// The value that an option has at first, in a window of the class and the path.
pub fn first_value<'a>(class: Class, path: &'a [u8], name: OptionName) -> &'a [u8]
    requires { IsText path.now }
    ensures value { result.now ≡ first_value class path.now name }
    ensures text { IsText result.now }
{
    match name {
        OptionName::TakeFocus => takes_focus(class),
        OptionName::Width => first_width(class),
        OptionName::Height => first_height(class),
        OptionName::Anchor => b"center",
        OptionName::State => b"normal",
        OptionName::Variable => last_part(path),
        OptionName::OnValue => b"1",
        OptionName::OffValue => b"0",
        OptionName::SelectMode => b"browse",
        OptionName::Wrap => b"char",
        _ => b"",
    }
}
