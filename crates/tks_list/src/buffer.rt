//! A buffer in which the characters of elements are made.
ghost use Rattle.std.specs.Prelude.{◌≡◌, ◌++◌, [], ◌∷◌, OnOk, true};
ghost use Rattle.tks_text.specs.Text.{is_text_byte, IsText};

use std::alloc::{AllocError, Global};
use std::marker::Model;

/// Where the characters of one element after the other are made. Contracts see those of the last.
pub struct CharBuffer {
    bytes: Vec<u8>,
}

// Written out, so that to let go of it is one step for whoever owns it.
impl Drop for CharBuffer {
    fn drop(self) {
        let CharBuffer { bytes: _ } = self;
    }
}

impl Model for CharBuffer {
    ghost use Rattle.std.specs.Prelude.{List, ℕ};
    ghost use Rattle.tks_text.specs.Text.{IsText};

    ghost Value = { List ℕ };

    ghost view = { λ b. b.bytes.items };

    ghost invariant = { λ b. IsText b.bytes.items };
}

impl CharBuffer {
    /// No characters.
    pub fn new(alloc: Global) -> CharBuffer
        ensures { result ≡ [] }
    {
        CharBuffer {
            bytes: Vec::new(alloc),
        }
    }

    /// The characters.
    pub fn as_bytes(&self) -> &[u8]
        ensures value { result.now ≡ self.now }
        ensures text { IsText self.now }
    {
        &self.bytes
    }

    /// Begins another element.
    pub fn clear(&mut self)
        ensures { self.new ≡ [] }
    {
        self.bytes.clear();
    }

    /// Adds a character.
    #[tactic(auto, using(tks_text::proofs::Texts::text_push))]
    pub fn push(&mut self, byte: u8) -> Result<(), AllocError>
        requires { is_text_byte byte ≡ true }
        ensures { OnOk result (self.new ≡ self.old ++ byte ∷ []) }
    {
        self.bytes.push(byte)?;
        Ok(())
    }
}
