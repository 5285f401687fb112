//! The elements of a list, as spans of one buffer.
ghost use Rattle.std.specs.Prelude.{◌≡◌, ◌<◌, ◌≤◌, ◌++◌, [], ◌∷◌, length, map, take, drop, get_or, position, IfOk, IfSome, OnOk, OnErr};
ghost use Rattle.tks_text.specs.Short.{IsShort};
ghost use Rattle.tks_text.specs.Text.{IsText, same_text};
ghost use Rattle.tks_list.specs.Cuts.{cut, AllEnd};
ghost use Rattle.tks_list.specs.Quoting.{joined, spaced};

use crate::writing::push_quoted;
use std::alloc::{AllocError, Global};
use std::marker::Model;
use tks_share::Copied;
use tks_text::{Seq, TextBuilder, Txt};

/// Where bytes stand in a text: from a place on, and before another.
#[derive(Clone, Copy)]
pub struct Span {
    pub start: usize,
    pub end: usize,
}

/// The bytes of a text that stand in a span.
pub fn cut(text: &[u8], span: Span) -> &[u8]
    ensures { result.now ≡ cut text.now span }
{
    let front = text.split_at(span.end.min(text.len())).0;
    front.split_at(span.start.min(front.len())).1
}

/// The most elements of a list.
pub(crate) const MAX_LEN: usize = 4_294_967_295;

/// Texts that lie one behind the other in one buffer, fewer than 2^32. Contracts see the list of them.
pub struct Elements {
    bytes: Vec<u8>,
    spans: Vec<Span>,
}

// Written out, so that to let go of it is one step for whoever owns it.
impl Drop for Elements {
    fn drop(self) {
        let Elements { bytes: _, spans: _ } = self;
    }
}

impl Model for Elements {
    ghost use Rattle.std.specs.Prelude.{List, ℕ, length, map};
    ghost use Rattle.tks_text.specs.Short.{IsShort};
    ghost use Rattle.tks_text.specs.Text.{IsText};
    ghost use Rattle.tks_list.specs.Cuts.{cut, AllEnd};

    ghost Value = { List (List ℕ) };

    ghost view = { λ e. map (cut e.bytes.items) e.spans.items };

    ghost invariant = { λ e. IsText e.bytes.items × (AllEnd (length e.bytes.items) e.spans.items × IsShort e.spans.items) };
}

impl Elements {
    /// No elements, with room for so many, and for so many bytes of them.
    pub fn with_room(alloc: Global, count: usize, len: usize) -> Result<Elements, AllocError>
        ensures { IfOk result (λ e. e ≡ []) }
    {
        Ok(Elements {
            bytes: Vec::with_capacity(alloc, len)?,
            spans: Vec::with_capacity(alloc, count)?,
        })
    }

    // What stands in these spans of these bytes.
    pub(crate) fn of_spans(bytes: Vec<u8>, spans: Vec<Span>) -> Elements
        requires text { IsText bytes.items }
        requires ends { AllEnd (length bytes.items) spans.items }
        requires short { IsShort spans.items }
        ensures { result ≡ map (cut bytes.items) spans.items }
    {
        Elements { bytes, spans }
    }

    /// How many elements there are.
    pub fn len(&self) -> usize
        ensures value { result ≡ length self.now }
        ensures short { IsShort self.now }
    {
        self.spans.len()
    }

    /// The element at an index, counted from 0.
    pub fn at(&self, index: usize) -> &[u8]
        requires { index < length self.now }
        ensures value { result.now ≡ get_or self.now index result.now }
        ensures text { IsText result.now }
    {
        cut(&self.bytes, self.spans[index])
    }

    /// Adds an element at the end. One too many is refused as memory is.
    pub fn push(&mut self, element: &[u8]) -> Result<(), AllocError>
        requires { IsText element.now }
        ensures ok { OnOk result (self.new ≡ self.old ++ element.now ∷ []) }
        ensures err { OnErr result (self.new ≡ self.old) }
    {
        if self.spans.len() >= MAX_LEN {
            return Err(AllocError);
        }
        let start = self.bytes.len();
        self.bytes.extend_from_slice(element)?;
        let end = self.bytes.len();
        self.spans.push(Span { start, end })?;
        Ok(())
    }

    // Adds the elements of another list at the end. Where memory is refused, some of them may be there.
    pub(crate) fn append(&mut self, more: &Elements) -> Result<(), AllocError>
        ensures { OnOk result (self.new ≡ self.old ++ more.now) }
    {
        for index in 0..more.len() {
            self.push(more.at(index))?;
        }
        Ok(())
    }

    /// The place of the first element with this value.
    pub fn position(&self, value: &Txt) -> Option<usize>
        ensures bound { IfSome result (λ n. n < length self.now) }
        ensures value { result ≡ position (λ element. same_text element value.now) self.now }
        ensures short { IsShort self.now }
    {
        place(&self.bytes, &self.spans, value.as_bytes())
    }

    /// Each element as a text of its own.
    pub fn to_texts(&self, alloc: Global) -> Result<Seq<Txt>, AllocError>
        ensures { IfOk result (λ l. l ≡ self.now) }
    {
        let mut texts = Seq::new(alloc);
        for index in 0..self.len() {
            texts.push(Txt::from_text(alloc, self.at(index))?)?;
        }
        Ok(texts)
    }

    /// The text of a list of the elements from an index on and before another.
    pub fn joined(&self, alloc: Global, front: usize, behind: usize) -> Result<Txt, AllocError>
        requires order { front ≤ behind }
        requires bound { behind ≤ length self.now }
        ensures { IfOk result (λ t. t ≡ joined (drop front (take behind self.now))) }
    {
        if front == behind {
            return Ok(Txt::new(alloc));
        }
        let mut text = TextBuilder::new(alloc);
        push_quoted(&mut text, self.at(front))?;
        self.push_spaced(&mut text, front + 1, behind)?;
        text.into_text()
    }

    // Adds the elements from an index on and before another, each with a space before it.
    fn push_spaced(
        &self,
        text: &mut TextBuilder,
        front: usize,
        behind: usize,
    ) -> Result<(), AllocError>
        requires order { front ≤ behind }
        requires bound { behind ≤ length self.now }
        ensures { OnOk result (text.new ≡ text.old ++ spaced (drop front (take behind self.now))) }
    {
        for index in front..behind {
            text.push_byte(b' ')?;
            push_quoted(text, self.at(index))?;
        }
        Ok(())
    }
}

impl Copied for Elements {
    fn copied(&self, alloc: Global) -> Result<Elements, AllocError> {
        let mut copy = Elements::with_room(alloc, self.spans.len(), self.bytes.len())?;
        copy.append(self)?;
        Ok(copy)
    }
}

// The place of the first span with these bytes.
fn place(bytes: &[u8], spans: &[Span], value: &[u8]) -> Option<usize>
    ensures bound { IfSome result (λ n. n < length spans.now) }
    ensures value { result ≡ position (λ span. same_text (cut bytes.now span) value.now) spans.now }
{
    spans.iter().position(|span| cut(bytes, *span) == value)
}
