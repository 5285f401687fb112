//! Where in a script a word stands, and what ends it there.
ghost use Rattle.std.specs.Prelude.{◌≡◌};
ghost use Rattle.tks_parse.specs.Class.{ends_script, ends_command, ends_word, ends_word_at, ends_parts};
ghost use Rattle.tks_parse.specs.Fault.{syntax_of};

use crate::class::{is_fold, is_separator};
use crate::syntax::Syntax;
use tks_text::is_blank;

/// Where a script stands.
#[derive(Clone, Copy)]
pub enum Place {
    /// In a text of its own.
    Alone,
    /// Between brackets.
    Brackets,
}

impl Place {
    /// Whether the script ends before this character.
    pub fn ends_script(self, c: u8) -> bool
        ensures { result ≡ ends_script self c }
    {
        match self {
            Place::Alone => false,
            Place::Brackets => c == b']',
        }
    }

    /// Whether a command ends before this character.
    pub fn ends_command(self, c: u8) -> bool
        ensures { result ≡ ends_command self c }
    {
        is_separator(c) || self.ends_script(c)
    }

    /// Whether a bare word ends before this character.
    pub fn ends_word(self, c: u8) -> bool
        ensures { result ≡ ends_word self c }
    {
        is_blank(c) || is_separator(c) || self.ends_script(c)
    }

    /// Whether a word may end before this text.
    pub fn ends_word_at(self, text: &[u8]) -> bool
        ensures { result ≡ ends_word_at self text.now }
    {
        match text {
            [] => true,
            [c, rest @ ..] => self.ends_word(*c) || is_fold(*c, rest),
        }
    }
}

/// In what kind of text parts stand.
#[derive(Clone, Copy)]
pub enum Mode {
    /// In a word without quotes.
    Bare(Place),
    /// Between quotes.
    Quoted(Syntax),
    /// In the index of an array's element.
    Index(Syntax),
}

impl Mode {
    /// Whose syntax the parts are of.
    pub fn syntax(self) -> Syntax
        ensures { result ≡ syntax_of self }
    {
        match self {
            Mode::Bare(_) => Syntax::Scripts,
            Mode::Quoted(syntax) => syntax,
            Mode::Index(syntax) => syntax,
        }
    }

    /// Whether the parts end before this character, with this text behind it.
    pub fn ends_parts(self, c: u8, rest: &[u8]) -> bool
        ensures { result ≡ ends_parts self c rest.now }
    {
        match self {
            Mode::Bare(place) => place.ends_word(c) || is_fold(c, rest),
            Mode::Quoted(_) => c == b'"',
            Mode::Index(_) => c == b')',
        }
    }
}
