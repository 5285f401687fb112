//! The fields of events that scripts name.
ghost use Rattle.std.specs.Prelude.{◌≡◌};
ghost use Rattle.tks_bind.specs.Percents.{field_named, has_field};

use tks_event::{Kind, is_of_button, is_of_key, is_virtual};

/// A field of an event, by which its value is put into a script.
#[derive(Clone, Copy, Debug)]
pub enum Field {
    /// `%A`, the printing character of a key, or nothing.
    Character,
    /// `%d`, the data of a virtual event.
    Data,
    /// `%K`, the keysym of a key.
    Keysym,
    /// `%W`, the path of the window.
    Window,
    /// `%b`, the number of a button.
    Button,
    /// `%s`, the modifiers that were held.
    State,
    /// `%t`, the time in milliseconds.
    Time,
    /// `%x`, the column in the window.
    Column,
    /// `%y`, the row in the window.
    Row,
    /// `%X`, the column on the screen.
    RootColumn,
    /// `%Y`, the row on the screen.
    RootRow,
}

impl Field {
    /// The field that a letter names behind a percent sign.
    pub fn named(letter: u8) -> Option<Field>
        ensures { result ≡ field_named letter }
    {
        match letter {
            b'A' => Some(Field::Character),
            b'd' => Some(Field::Data),
            b'K' => Some(Field::Keysym),
            b'W' => Some(Field::Window),
            b'b' => Some(Field::Button),
            b's' => Some(Field::State),
            b't' => Some(Field::Time),
            b'x' => Some(Field::Column),
            b'y' => Some(Field::Row),
            b'X' => Some(Field::RootColumn),
            b'Y' => Some(Field::RootRow),
            _ => None,
        }
    }

    /// Whether events of a kind have it.
    pub fn is_of(self, kind: Kind) -> bool
        ensures { result ≡ has_field kind self }
    {
        match self {
            Field::Window => true,
            Field::Character | Field::Keysym => is_of_key(kind),
            Field::Button => is_of_button(kind),
            Field::Data => is_virtual(kind),
            Field::State | Field::Time => {
                is_of_key(kind) || is_of_button(kind) || is_virtual(kind)
            }
            Field::Column | Field::Row | Field::RootColumn | Field::RootRow => {
                is_of_button(kind) || is_virtual(kind)
            }
        }
    }
}
