//! The parts of a word while they are read.
ghost use Rattle.std.specs.Prelude.{◌≡◌, IfOk};
ghost use Rattle.tks_parse.specs.Gives.{IsTextPiece, parts_of_piece};

use crate::tree::{Part, Parts};
use std::alloc::{AllocError, Global};
use std::marker::Model;
use std::mem;
use tks_text::{TextBuilder, Txt};

/// What stands at the front of a word.
#[derive(Drop)]
pub enum Piece {
    /// A character that stands for itself.
    Char(u8),
    /// A variable, or a script in brackets.
    Whole(Part),
}

impl Piece {
    /// The parts that the piece is.
    pub fn into_parts(self, alloc: Global) -> Result<Parts, AllocError>
        requires { IsTextPiece self }
        ensures { IfOk result (λ parts. parts ≡ parts_of_piece self) }
    {
        let part = match self {
            Piece::Char(c) => Part::Text(Txt::from_text(alloc, &[c])?),
            Piece::Whole(part) => part,
        };
        let mut parts = Vec::new(alloc);
        parts.push(part)?;
        Parts::new(alloc, parts)
    }
}

/// The parts of a word while it is read: whole parts, and characters behind them.
#[derive(Drop)]
pub struct Builder {
    alloc: Global,
    parts: Vec<Part>,
    text: TextBuilder,
}

impl Model for Builder {
    ghost use Rattle.tks_parse.specs.Tree.{Parts, parts_code, join_parts, chars, no_part};
    ghost use Rattle.tks_parse.specs.View.{parts_of};

    ghost Value = { Parts };

    ghost coded = { parts_code };

    ghost view = { λ b. join_parts (parts_of b.parts.items) (chars b.text no_part) };
}

impl Builder {
    ghost use Rattle.std.specs.Prelude.{true, OnOk, [], ◌∷◌};
    ghost use Rattle.tks_text.specs.Text.{is_text_byte};
    ghost use Rattle.tks_parse.specs.Gives.{parts_of_piece};
    ghost use Rattle.tks_parse.specs.Tree.{no_part, char, join_parts};
    ghost use Rattle.tks_parse.specs.View.{parts_of};

    /// No part.
    pub fn new(alloc: Global) -> Builder
        ensures { result ≡ no_part }
    {
        Builder {
            alloc,
            parts: Vec::new(alloc),
            text: TextBuilder::new(alloc),
        }
    }

    // Adds a character that stands for itself.
    #[tactic(auto, using(crate::proofs::Building::built_char))]
    fn push_char(&mut self, c: u8) -> Result<(), AllocError>
        requires { is_text_byte c ≡ true }
        ensures { OnOk result (self.new ≡ join_parts self.old (char c no_part)) }
    {
        self.text.push_byte(c)?;
        Ok(())
    }

    /// The parts as a list, the characters behind them as one part.
    #[tactic(auto, using(crate::proofs::Building::built_none, crate::proofs::Building::built_text))]
    pub fn into_parts(self) -> Result<Vec<Part>, AllocError>
        ensures { IfOk result (λ v. parts_of v.items ≡ self) }
    {
        let Builder {
            alloc: _,
            mut parts,
            text,
        } = self;
        if !text.is_empty() {
            parts.push(Part::Text(text.into_text()?))?;
        }
        Ok(parts)
    }

    // Adds a part.
    #[tactic(auto, using(crate::proofs::Building::built_part))]
    fn push(&mut self, part: Part) -> Result<(), AllocError>
        ensures { OnOk result (self.new ≡ join_parts self.old (parts_of (part ∷ []))) }
    {
        let alloc = self.alloc;
        let before = mem::replace(self, Builder::new(alloc));
        let mut parts = before.into_parts()?;
        parts.push(part)?;
        *self = Builder {
            alloc,
            parts,
            text: TextBuilder::new(alloc),
        };
        Ok(())
    }

    /// Adds what stands at the front of a word.
    pub fn add(&mut self, piece: Piece) -> Result<(), AllocError>
        requires { IsTextPiece piece }
        ensures { OnOk result (self.new ≡ join_parts self.old (parts_of_piece piece)) }
    {
        match piece {
            Piece::Char(c) => self.push_char(c),
            Piece::Whole(part) => self.push(part),
        }
    }
}
