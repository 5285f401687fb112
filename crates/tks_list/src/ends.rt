//! Where the characters of an element end.
ghost use Rattle.std.specs.Prelude.{◌≡◌};
ghost use Rattle.tks_list.specs.ListText.{ends_at};

use tks_text::is_space;

/// Where the characters of an element end.
#[derive(Clone, Copy)]
pub enum Ends {
    /// At white space, where the element is bare.
    Space,
    /// At a quote, where it is in quotes.
    Quote,
}

impl Ends {
    /// Whether the characters end before this one.
    pub fn at(self, c: u8) -> bool
        ensures { result ≡ ends_at self c }
    {
        match self {
            Ends::Space => is_space(c),
            Ends::Quote => c == b'"',
        }
    }
}
