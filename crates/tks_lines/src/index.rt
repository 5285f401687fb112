//! Indices: a base, and modifiers behind it.
ghost use Rattle.std.specs.Prelude.{◌≡◌, ◌+◌, ◌-◌, ◌<◌, ◌≤◌, ◌^◌, length, IfSome, IfOk, option_and_then};
ghost use Rattle.tks_text.specs.Fault.{Gives};
ghost use Rattle.tks_lines.specs.Places.{end_place};
ghost use Rattle.tks_lines.specs.Indices.{numbered, named, base_at, is_one_of_three, unit_named, edge_named, unit_at, counted, modifier_at, step_at, moved, based, index_place, place_in, if_at_end};

use crate::lined_text::LinedText;
use crate::lines::TextWidget;
use crate::marks::mark_named;
use crate::modifier::{Modifier, Step};
use crate::numbers::{count_at, is_minus, is_sign, line_column, turned_back, word_at, word_len};
use crate::places::{changed, place_of_line};
use tks_text::{ErrorNumber, Failure, Txt, is_space, space_len};

// The place that a line and a column at the front name, and how many bytes they take.
fn numbered(text: &LinedText, word: &[u8]) -> Option<(usize, usize)>
    ensures value { result ≡ numbered text.now word.now }
    ensures inside { IfSome result (λ x. x.0 ≤ end_place text.now) }
    ensures bound { IfSome result (λ x. x.1 ≤ length word.now) }
{
    match word {
        [] => None,
        [first, rest @ ..] => {
            if is_minus(*first) {
                let (_, _, taken) = line_column(rest)?;
                return Some((0, taken + 1));
            }
            let (line, column, taken) = line_column(word)?;
            Some((place_of_line(text, line, column), taken))
        }
    }
}

// Whether a word is one of three.
fn is_one_of_three(a: &[u8], b: &[u8], c: &[u8], word: &[u8]) -> bool
    ensures { result ≡ is_one_of_three a.now b.now c.now word.now }
{
    word == a || word == b || word == c
}

// The modifier that a unit makes of a count.
fn unit_named(word: &[u8], step: Step) -> Option<Modifier>
    ensures { result ≡ unit_named word.now step }
{
    if is_one_of_three(b"c", b"char", b"chars", word) {
        Some(Modifier::Chars(step))
    } else if is_one_of_three(b"l", b"line", b"lines", word) {
        Some(Modifier::Lines(step))
    } else {
        None
    }
}

// The modifier without a count.
fn edge_named(word: &[u8]) -> Option<Modifier>
    ensures { result ≡ edge_named word.now }
{
    if word == b"linestart".as_slice() {
        Some(Modifier::LineStart)
    } else if word == b"lineend".as_slice() {
        Some(Modifier::LineEnd)
    } else {
        None
    }
}

// The unit behind a count, and how many bytes it takes.
fn unit_at(step: Step, text: &[u8]) -> Option<(Modifier, usize)>
    ensures value { result ≡ unit_at step text.now }
    ensures bound { IfSome result (λ x. x.1 ≤ length text.now) }
{
    let space = space_len(text);
    let word = text.split_at(space).1;
    let modifier = unit_named(word_at(word), step)?;
    Some((modifier, space + word_len(word)))
}

// The count and the unit behind a sign, and how many bytes they take.
#[tactic(auto, unfolding(crate::specs::Indices::counted))]
fn counted(back: bool, text: &[u8]) -> Option<(Modifier, usize)>
    ensures value { result ≡ counted back text.now }
    ensures bound { IfSome result (λ x. x.1 ≤ length text.now) }
{
    let space = space_len(text);
    let number = text.split_at(space).1;
    let (step, count) = count_at(number)?;
    let (modifier, unit) = unit_at(turned_back(back, step), number.split_at(count).1)?;
    Some((modifier, space + count + unit))
}

// The modifier at the front, and how many bytes it takes behind its first.
#[tactic(auto, unfolding(crate::specs::Indices::modifier_at))]
fn modifier_at(text: &[u8]) -> Option<(Modifier, usize)>
    ensures value { result ≡ modifier_at text.now }
    ensures bound { IfSome result (λ x. x.1 < length text.now) }
{
    match text {
        [] => None,
        [first, rest @ ..] => {
            if is_sign(*first) {
                return counted(is_minus(*first), rest);
            }
            let modifier = edge_named(word_at(text))?;
            Some((modifier, word_len(text).saturating_sub(1)))
        }
    }
}

// What the front of a text makes of a place, and how many bytes it takes behind its first.
fn step_at(text: &LinedText, place: usize, front: &[u8]) -> Option<(usize, usize)>
    requires { place ≤ end_place text.now }
    ensures value { result ≡ step_at text.now place front.now }
    ensures place { IfSome result (λ x. x.0 ≤ end_place text.now) }
    ensures bound { IfSome result (λ x. x.1 < length front.now) }
{
    match front {
        [] => None,
        [first, ..] => {
            if is_space(*first) {
                return Some((place, 0));
            }
            let (modifier, taken) = modifier_at(front)?;
            Some((changed(text, place, modifier), taken))
        }
    }
}

// The place that the modifiers in a text make of another.
fn moved(text: &LinedText, place: usize, modifiers: &[u8]) -> Option<usize>
    requires { place ≤ end_place text.now }
    ensures value { result ≡ moved text.now place 0 modifiers.now }
    ensures bound { IfSome result (λ p. p ≤ end_place text.now) }
{
    let mut place = place;
    let mut rest = modifiers;
    'modifiers: while !rest.is_empty() {
        let (next, taken) = step_at(text, place, rest)?;
        place = next;
        rest = rest.split_at(1 + taken).1;
    }
    Some(place)
}

impl TextWidget {
    // The place that a name stands for: `end`, or a mark.
    fn named(&self, name: &[u8]) -> Option<usize>
        ensures value { result ≡ named self.now name.now }
        ensures inside { IfSome result (λ p. p ≤ end_place self.now.text) }
    {
        if name == b"end".as_slice() {
            return Some(self.text.len() + 1);
        }
        let mark = mark_named(name, self.marks.as_slice())?;
        Some(mark.place)
    }

    // The place of the base at the front, and how many bytes it takes.
    #[tactic(auto, unfolding(crate::specs::Indices::base_at))]
    fn base_at(&self, word: &[u8]) -> Option<(usize, usize)>
        ensures value { result ≡ base_at self.now word.now }
        ensures inside { IfSome result (λ x. x.0 ≤ end_place self.now.text) }
        ensures bound { IfSome result (λ x. x.1 ≤ length word.now) }
    {
        if let Some(base) = numbered(&self.text, word) {
            return Some(base);
        }
        let place = self.named(word_at(word))?;
        Some((place, word_len(word)))
    }

    // The place that a base and the modifiers behind it name.
    fn based(&self, word: &[u8]) -> Option<usize>
        ensures value { result ≡ based self.now word.now }
        ensures inside { IfSome result (λ p. p ≤ end_place self.now.text) }
    {
        let (place, taken) = self.base_at(word)?;
        moved(&self.text, place, word.split_at(taken).1)
    }

    // The place that an index names.
    #[tactic(auto, unfolding(crate::specs::Indices::index_place))]
    fn index_place(&self, word: &[u8]) -> Option<usize>
        ensures value { result ≡ index_place self.now word.now }
        ensures inside { IfSome result (λ p. p ≤ end_place self.now.text) }
    {
        match numbered(&self.text, word) {
            Some((place, taken)) if taken == word.len() => return Some(place),
            _ => {}
        }
        if let Some(place) = self.named(word) {
            return Some(place);
        }
        self.based(word.split_at(space_len(word)).1)
    }

    /// The place that an index names. A word that is none is an error about it.
    pub(crate) fn place_in(&self, word: &Txt) -> Result<usize, Failure>
        ensures value { Gives (λ p. p) result (place_in self.now word.now) }
        ensures inside { IfOk result (λ p. p ≤ end_place self.now.text) }
        ensures bound { IfOk result (λ p. p ≤ 2 ^ 63) }
    {
        let _len = self.text.len();
        match self.index_place(word.as_bytes()) {
            Some(place) => Ok(place),
            None => Err(Failure::about(ErrorNumber::BadIndex, word)),
        }
    }
}
