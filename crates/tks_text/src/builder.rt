//! Texts that are built piece by piece.
ghost use Rattle.std.specs.Prelude.{◌≡◌, ◌++◌, [], ◌∷◌, ◌==◌, length, true, IfOk, OnOk, OnErr};
ghost use Rattle.tks_text.specs.Text.{is_text_byte, IsText};

use crate::bytes::{Bytes, Held};
use crate::text::Txt;
use std::alloc::{AllocError, Global};
use std::marker::Model;

/// A text that is being built, in a place of its own: nothing else holds its bytes yet, so that no count of holders is
/// looked at where one is added. What would be too long for a text is refused as memory is. Contracts see the list of its
/// bytes.
#[derive(Drop)]
pub struct TextBuilder {
    alloc: Global,
    held: Held,
}

impl Model for TextBuilder {
    ghost use Rattle.std.specs.Prelude.{List, ℕ};
    ghost use Rattle.tks_text.specs.Short.{IsShort};
    ghost use Rattle.tks_text.specs.Text.{IsText};

    ghost Value = { List ℕ };

    ghost view = { λ b. b.held };

    ghost invariant = { λ b. IsText b.held × IsShort b.held };
}

impl TextBuilder {
    /// No bytes.
    pub fn new(alloc: Global) -> TextBuilder
        ensures { result ≡ [] }
    {
        TextBuilder {
            alloc,
            held: Held::new(),
        }
    }

    /// Adds a byte that the caller knows to stand in texts.
    #[tactic(auto, using(crate::proofs::Texts::text_push))]
    pub fn push_byte(&mut self, byte: u8) -> Result<(), AllocError>
        requires { is_text_byte byte ≡ true }
        ensures ok { OnOk result (self.new ≡ self.old ++ byte ∷ []) }
        ensures err { OnErr result (self.new ≡ self.old) }
    {
        self.held.push(self.alloc, byte)
    }

    /// Adds bytes, which are a text, at the end.
    #[tactic(auto, using(crate::proofs::Texts::text_append))]
    pub fn push_bytes(&mut self, bytes: &[u8]) -> Result<(), AllocError>
        requires { IsText bytes.now }
        ensures ok { OnOk result (self.new ≡ self.old ++ bytes.now) }
        ensures err { OnErr result (self.new ≡ self.old) }
    {
        self.held.append(self.alloc, bytes)
    }

    /// How many bytes there are.
    pub fn len(&self) -> usize
        ensures { result ≡ length self.now }
    {
        self.held.as_slice().len()
    }

    /// Whether there is no byte.
    pub fn is_empty(&self) -> bool
        ensures { result ≡ (length self.now == 0) }
    {
        self.len() == 0
    }

    /// The text of these bytes. Where there are none it takes no memory.
    pub fn into_text(self) -> Result<Txt, AllocError>
        ensures { IfOk result (λ t. t ≡ self) }
    {
        let TextBuilder { alloc, held } = self;
        Ok(Txt::of(Bytes::of_held(alloc, held)?))
    }
}
