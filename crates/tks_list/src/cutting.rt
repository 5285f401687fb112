//! A text that is being cut into elements.
ghost use Rattle.std.specs.Prelude.{◌≡◌, ◌≤◌, ◌++◌, [], ◌∷◌, length, IfOk, OnOk};
ghost use Rattle.tks_text.specs.Text.{IsText};
ghost use Rattle.tks_list.specs.Cuts.{cut, CutSoFar};

use crate::elements::{Elements, MAX_LEN, Span};
use std::alloc::{AllocError, Global};
use std::marker::Model;

/// The most characters that room is made for before any are made.
const MOST_MADE: usize = 32;

/// A text that is being cut into elements: spans of a copy of it, and of characters that were made behind it.
/// Contracts see the text, and the elements so far.
pub struct CutText {
    bytes: Vec<u8>,
    len: usize,
    spans: Vec<Span>,
}

// Written out, so that to let go of it is one step for whoever owns it.
impl Drop for CutText {
    fn drop(self) {
        let CutText {
            bytes: _,
            len: _,
            spans: _,
        } = self;
    }
}

impl Model for CutText {
    ghost use Rattle.std.specs.Prelude.{◌≤◌, length, map, take};
    ghost use Rattle.tks_text.specs.Short.{IsShort};
    ghost use Rattle.tks_text.specs.Text.{IsText};
    ghost use Rattle.tks_list.specs.Cuts.{cut, AllEnd, CutSoFar};

    ghost Value = { CutSoFar };

    ghost view = { λ c. record { text = take c.len c.bytes.items; list = map (cut c.bytes.items) c.spans.items } };

    ghost invariant = { λ c. IsText c.bytes.items × ((c.len ≤ length c.bytes.items) × (AllEnd (length c.bytes.items) c.spans.items × IsShort c.spans.items)) };
}

impl CutText {
    /// A text with no elements yet, with room for so many.
    pub fn of(alloc: Global, text: &[u8], count: usize) -> Result<CutText, AllocError>
        requires { IsText text.now }
        ensures { IfOk result (λ c. c ≡ record { text = text.now; list = [] }) }
    {
        let len = text.len();
        let mut bytes = Vec::with_capacity(alloc, len + len.min(MOST_MADE))?;
        bytes.extend_from_slice(text)?;
        Ok(CutText {
            bytes,
            len,
            spans: Vec::with_capacity(alloc, count)?,
        })
    }

    /// Adds what stands in a span of the text. One element too many is refused as memory is.
    pub fn add_span(&mut self, span: Span) -> Result<(), AllocError>
        requires { span.end ≤ length self.old.text }
        ensures { OnOk result (self.new ≡ record { text = self.old.text; list = self.old.list ++ cut self.old.text span ∷ [] }) }
    {
        if self.spans.len() >= MAX_LEN {
            return Err(AllocError);
        }
        self.spans.push(span)?;
        Ok(())
    }

    /// Adds characters that were made.
    pub fn add_chars(&mut self, chars: &[u8]) -> Result<(), AllocError>
        requires { IsText chars.now }
        ensures { OnOk result (self.new ≡ record { text = self.old.text; list = self.old.list ++ chars.now ∷ [] }) }
    {
        if self.spans.len() >= MAX_LEN {
            return Err(AllocError);
        }
        let start = self.bytes.len();
        self.bytes.extend_from_slice(chars)?;
        let end = self.bytes.len();
        self.spans.push(Span { start, end })?;
        Ok(())
    }

    /// The elements.
    pub fn into_elements(self) -> Elements
        ensures { result ≡ self.list }
    {
        let CutText {
            bytes,
            len: _,
            spans,
        } = self;
        Elements::of_spans(bytes, spans)
    }
}
