//! Kinds of events.
ghost use Rattle.std.specs.Prelude.{◌≡◌};
ghost use Rattle.tks_event.specs.Kinds.{kind_named, kind_name, same_kind, is_button, is_detail, is_of_key, is_of_button, is_virtual};
ghost use Rattle.tks_event.specs.Numbers.{kind_number, kind_numbered};

use crate::keysym::is_keysym;

/// What kind of event it is.
#[derive(Clone, Copy, Debug, PartialEq, Eq)]
pub enum Kind {
    /// A key goes down. Its detail is a keysym.
    KeyPress,
    /// A key goes up. Its detail is a keysym.
    KeyRelease,
    /// A button goes down. Its detail is the button's number, 1 to 5.
    ButtonPress,
    /// A button goes up. Its detail is the button's number, 1 to 5.
    ButtonRelease,
    /// A window gets the focus. There is no detail.
    FocusIn,
    /// A window loses the focus. There is no detail.
    FocusOut,
    /// An event that scripts make up. Its detail is its name, without the brackets.
    Virtual,
}

impl Kind {
    /// The kind that a word of a pattern names: one of the first six by its name, or `Key` or `Button`.
    pub fn named(word: &[u8]) -> Option<Kind>
        ensures { result ≡ kind_named word.now }
    {
        if word == b"KeyPress".as_slice() {
            Some(Kind::KeyPress)
        } else if word == b"Key".as_slice() {
            Some(Kind::KeyPress)
        } else if word == b"KeyRelease".as_slice() {
            Some(Kind::KeyRelease)
        } else if word == b"ButtonPress".as_slice() {
            Some(Kind::ButtonPress)
        } else if word == b"Button".as_slice() {
            Some(Kind::ButtonPress)
        } else if word == b"ButtonRelease".as_slice() {
            Some(Kind::ButtonRelease)
        } else if word == b"FocusIn".as_slice() {
            Some(Kind::FocusIn)
        } else if word == b"FocusOut".as_slice() {
            Some(Kind::FocusOut)
        } else {
            None
        }
    }

    /// Its name, by which patterns are spelled. It is empty for a virtual event, which has a name of its own.
    pub fn name(self) -> &'static [u8]
        ensures { result.now ≡ kind_name self }
    {
        match self {
            Kind::KeyPress => b"KeyPress",
            Kind::KeyRelease => b"KeyRelease",
            Kind::ButtonPress => b"ButtonPress",
            Kind::ButtonRelease => b"ButtonRelease",
            Kind::FocusIn => b"FocusIn",
            Kind::FocusOut => b"FocusOut",
            Kind::Virtual => b"",
        }
    }

    /// Whether two are the same.
    pub fn is(self, other: Kind) -> bool
        ensures { result ≡ same_kind self other }
    {
        matches!(
            (self, other),
            (Kind::KeyPress, Kind::KeyPress)
                | (Kind::KeyRelease, Kind::KeyRelease)
                | (Kind::ButtonPress, Kind::ButtonPress)
                | (Kind::ButtonRelease, Kind::ButtonRelease)
                | (Kind::FocusIn, Kind::FocusIn)
                | (Kind::FocusOut, Kind::FocusOut)
                | (Kind::Virtual, Kind::Virtual)
        )
    }

    /// Whether a text is a detail of physical events of this kind: a keysym, or a button's number.
    pub fn has_detail(self, text: &[u8]) -> bool
        ensures { result ≡ is_detail self text.now }
    {
        match self {
            Kind::KeyPress | Kind::KeyRelease => is_keysym(text),
            Kind::ButtonPress | Kind::ButtonRelease => is_button(text),
            Kind::FocusIn | Kind::FocusOut | Kind::Virtual => false,
        }
    }

    /// The number by which bytes tell it.
    pub fn number(self) -> u8
        ensures { result ≡ kind_number self }
    {
        match self {
            Kind::KeyPress => 1,
            Kind::KeyRelease => 2,
            Kind::ButtonPress => 3,
            Kind::ButtonRelease => 4,
            Kind::FocusIn => 5,
            Kind::FocusOut => 6,
            Kind::Virtual => 7,
        }
    }

    /// The kind of a number.
    pub fn numbered(number: u8) -> Option<Kind>
        ensures { result ≡ kind_numbered number }
    {
        match number {
            1 => Some(Kind::KeyPress),
            2 => Some(Kind::KeyRelease),
            3 => Some(Kind::ButtonPress),
            4 => Some(Kind::ButtonRelease),
            5 => Some(Kind::FocusIn),
            6 => Some(Kind::FocusOut),
            7 => Some(Kind::Virtual),
            _ => None,
        }
    }
}

/// Whether a text is the number of a button: `1` to `5`.
pub fn is_button(text: &[u8]) -> bool
    ensures { result ≡ is_button text.now }
{
    match text {
        [c] => (b'1'..=b'5').contains(c),
        _ => false,
    }
}

/// Whether it is that of a key that goes down or up.
pub fn is_of_key(kind: Kind) -> bool
    ensures { result ≡ is_of_key kind }
{
    matches!(kind, Kind::KeyPress | Kind::KeyRelease)
}

/// Whether it is that of a button that goes down or up.
pub fn is_of_button(kind: Kind) -> bool
    ensures { result ≡ is_of_button kind }
{
    matches!(kind, Kind::ButtonPress | Kind::ButtonRelease)
}

/// Whether it is that of an event with a name of its own, `<<name>>`.
pub fn is_virtual(kind: Kind) -> bool
    ensures { result ≡ is_virtual kind }
{
    matches!(kind, Kind::Virtual)
}
