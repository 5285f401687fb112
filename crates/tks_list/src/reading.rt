//! Reading a list from its text.
ghost use Rattle.std.specs.Prelude.{◌≡◌, ◌<◌, ◌≤◌, ◌+◌, ◌-◌, ◌++◌, [], ◌∷◌, List, ℕ, length, take, drop, IfOk, IfSome, OnOk, true};
ghost use Rattle.std.specs.List.{prefix_len};
ghost use Rattle.tks_text.specs.Text.{IsText, is_text_byte};
ghost use Rattle.tks_text.specs.Run.{takes};
ghost use Rattle.tks_list.specs.Cuts.{cut};
ghost use Rattle.tks_list.specs.Gives.{GivesStep, GivesRun, ListGoes, ListRead, SplitsSo, taken_char, run_of_chars, run_found, taken_element, chars_found, element_found};
ghost use Rattle.tks_list.specs.Reading.{char_step, chars_at, stands_for_itself, no_braces, closing_brace, may_end, braced_element, quoted_step, element_step, list_of};

use crate::braces::closing_brace;
use crate::buffer::CharBuffer;
use crate::cutting::CutText;
use crate::elements::{Elements, Span, cut};
use crate::ends::Ends;
use crate::fault::ListFault;
use std::alloc::{AllocError, Global};
use tks_text::{Seq, Txt, escape, is_space};

/// The most elements that room is made for before a text is read.
const MOST_ROOM: usize = 16;

/// Where the characters of an element are.
#[derive(Clone, Copy)]
pub enum Found {
    /// In the text.
    In(Span),
    /// In the buffer, since escapes stand for some of them.
    Made,
}

// The next character of an element, and how many bytes it takes behind its first.
#[tactic(auto, unfolding(crate::specs::Reading::char_step))]
fn read_char(text: &[u8], ends: Ends) -> Result<Option<(u8, usize)>, ListFault>
    requires { IsText text.now }
    ensures gives { GivesStep taken_char result (char_step ends text.now) }
    ensures bound { IfOk result (λ o. IfSome o (λ x. x.1 < length text.now)) }
    ensures text { IfOk result (λ o. IfSome o (λ x. is_text_byte x.0 ≡ true)) }
{
    match text {
        [] => Ok(None),
        [first, rest @ ..] => {
            let c = *first;
            if ends.at(c) {
                return Ok(None);
            }
            if c != b'\\' {
                return Ok(Some((c, 0)));
            }
            match escape(rest) {
                Some(escape) => Ok(Some(escape)),
                None => Err(ListFault::NotAList),
            }
        }
    }
}

// Makes the characters that a text begins with, and tells how many bytes they take.
fn read_chars(made: &mut CharBuffer, text: &[u8], ends: Ends) -> Result<usize, ListFault>
    requires { IsText text.now }
    ensures gives { GivesRun (run_of_chars made.new) result (chars_at ends text.now) }
    ensures bound { IfOk result (λ n. n ≤ length text.now) }
{
    made.clear();
    let mut taken = 0;
    let mut rest = text;
    'chars: while let Some((c, more)) = read_char(rest, ends)? {
        made.push(c)?;
        taken += 1 + more;
        rest = rest.split_at(1 + more).1;
    }
    Ok(taken)
}

// How many characters a text begins with that stand for themselves.
fn plain_len(text: &[u8], ends: Ends) -> usize
    ensures value { result ≡ prefix_len (stands_for_itself ends) text.now }
    ensures bound { result ≤ length text.now }
{
    text.iter()
        .take_while(|c| !ends.at(**c) && **c != b'\\')
        .count()
}

// The characters from a place on, and how many bytes they take. They are made only where there is an escape.
#[tactic(auto, using(crate::proofs::Plain::plain_found, tks_text::proofs::Texts::text_drop))]
fn find_chars(
    made: &mut CharBuffer,
    text: &[u8],
    start: usize,
    ends: Ends,
) -> Result<(Found, usize), ListFault>
    requires text { IsText text.now }
    requires bound { start ≤ length text.now }
    ensures gives { GivesRun (run_found made.new text.now) result (chars_at ends (drop start text.now)) }
    ensures bound { IfOk result (λ x. x.1 ≤ length (drop start text.now)) }
{
    let rest = text.split_at(start).1;
    let len = plain_len(rest, ends);
    match rest.split_at(len).1 {
        [b'\\', ..] => {
            let taken = read_chars(made, rest, ends)?;
            Ok((Found::Made, taken))
        }
        _ => {
            let end = start + len;
            Ok((Found::In(Span { start, end }), len))
        }
    }
}

// Whether an element in braces or quotes may end before this text.
fn may_end(text: &[u8]) -> bool
    ensures { result ≡ may_end text.now }
{
    match text {
        [c, ..] => is_space(*c),
        [] => true,
    }
}

// The element in braces that a text begins with.
fn read_braced(text: &[u8]) -> Result<Option<(Option<Found>, usize)>, ListFault>
    requires { 1 ≤ length text.now }
    ensures gives { (made : List ℕ) → GivesStep (taken_element made text.now) result (braced_element (closing_brace 0 no_braces (drop 1 text.now)) (drop 1 text.now)) }
    ensures bound { IfOk result (λ o. IfSome o (λ x. x.1 < length text.now)) }
{
    let rest = text.split_at(1).1;
    match closing_brace(rest) {
        Some(len) => {
            let taken = len + 1;
            if !may_end(rest.split_at(taken).1) {
                return Err(ListFault::NotAList);
            }
            let element = Found::In(Span {
                start: 1,
                end: taken,
            });
            Ok(Some((Some(element), taken)))
        }
        None => Err(ListFault::NotAList),
    }
}

// The element in quotes that a text begins with.
#[tactic(auto, unfolding(crate::specs::Reading::quoted_step))]
fn read_quoted(
    made: &mut CharBuffer,
    text: &[u8],
) -> Result<Option<(Option<Found>, usize)>, ListFault>
    requires text { IsText text.now }
    requires bound { 1 ≤ length text.now }
    ensures gives { GivesStep (taken_element made.new text.now) result (quoted_step (drop 1 text.now)) }
    ensures bound { IfOk result (λ o. IfSome o (λ x. x.1 < length text.now)) }
{
    let (element, taken) = find_chars(made, text, 1, Ends::Quote)?;
    match text.split_at(1).1.split_at(taken).1 {
        [] => Err(ListFault::NotAList),
        [_, behind @ ..] => {
            if !may_end(behind) {
                return Err(ListFault::NotAList);
            }
            Ok(Some((Some(element), taken + 1)))
        }
    }
}

// The next element, or white space before it, and how many bytes it takes behind its first.
#[tactic(auto, unfolding(crate::specs::Reading::element_step, crate::specs::Reading::bare_step))]
fn read_element(
    made: &mut CharBuffer,
    text: &[u8],
) -> Result<Option<(Option<Found>, usize)>, ListFault>
    requires { IsText text.now }
    ensures gives { GivesStep (taken_element made.new text.now) result (element_step text.now) }
    ensures bound { IfOk result (λ o. IfSome o (λ x. x.1 < length text.now)) }
{
    match text {
        [] => Ok(None),
        [first, ..] => {
            let c = *first;
            if is_space(c) {
                return Ok(Some((None, 0)));
            }
            if c == b'{' {
                return read_braced(text);
            }
            if c == b'"' {
                return read_quoted(made, text);
            }
            let (element, taken) = find_chars(made, text, 0, Ends::Space)?;
            Ok(Some((Some(element), taken.saturating_sub(1))))
        }
    }
}

// The characters that were found in a text, or made.
#[tactic(auto, using(crate::proofs::Cuts::text_cut))]
fn chars_of<'a>(made: &'a CharBuffer, text: &'a [u8], found: Found) -> &'a [u8]
    requires { IsText text.now }
    ensures value { result.now ≡ chars_found made.now text.now found }
    ensures text { IsText result.now }
{
    match found {
        Found::In(span) => cut(text, span),
        Found::Made => made.as_bytes(),
    }
}

// Adds an element that was found in a text, as a text of its own.
fn add_text(
    alloc: Global,
    list: &mut Seq<Txt>,
    made: &CharBuffer,
    text: &[u8],
    found: Option<Found>,
) -> Result<(), AllocError>
    requires { IsText text.now }
    ensures { OnOk result (list.new ≡ list.old ++ element_found made.now text.now found) }
{
    match found {
        Some(found) => list.push(Txt::from_text(alloc, chars_of(made, text, found))?),
        None => Ok(()),
    }
}

// How many elements room is made for before a text is read: as many as it may have, or some where it is long.
fn first_room(text: &Txt) -> usize {
    text.len().div_ceil(2).min(MOST_ROOM)
}

// How many bytes of white space a text begins with, at most one.
#[tactic(auto, using(crate::proofs::Loops::space_passed))]
fn first_space(text: &[u8]) -> usize
    ensures same { list_of (drop result text.now) ≡ list_of text.now }
    ensures bound { result ≤ length text.now }
{
    match text {
        [] => 0,
        [first, ..] => {
            if is_space(*first) {
                return 1;
            }
            0
        }
    }
}

// How many bytes a bare element takes that a text begins with and that stands for itself, or 0 where there is none.
fn bare_len(text: &[u8]) -> usize
    ensures step { 1 ≤ result → element_step text.now ≡ takes (λ l. (take result text.now ∷ []) ++ l) (result - 1) }
    ensures bound { result ≤ length text.now }
{
    match text {
        [] => 0,
        [first, ..] => {
            let c = *first;
            if c == b'{' || c == b'"' {
                return 0;
            }
            let len = plain_len(text, Ends::Space);
            match text.split_at(len).1 {
                [b'\\', ..] => 0,
                _ => len,
            }
        }
    }
}

// A span of what stands behind the front of a text, as a span of the text.
#[tactic(auto, using(crate::proofs::Cuts::cut_behind))]
fn span_behind(text: &[u8], start: usize, span: Span) -> Span
    requires { start ≤ length text.now }
    ensures value { cut text.now result ≡ cut (drop start text.now) span }
    ensures bound { result.end ≤ length text.now }
{
    let end = span.end.min(text.len() - start);
    Span {
        start: start + span.start.min(end),
        end: start + end,
    }
}

// Adds an element that was found behind the front of a text.
fn add_found(
    list: &mut CutText,
    made: &CharBuffer,
    text: &[u8],
    start: usize,
    found: Option<Found>,
) -> Result<(), AllocError>
    requires same { list.old.text ≡ text.now }
    requires bound { start ≤ length text.now }
    ensures { OnOk result (list.new ≡ record { text = text.now; list = list.old.list ++ element_found made.now (drop start text.now) found }) }
{
    match found {
        Some(Found::In(span)) => list.add_span(span_behind(text, start, span)),
        Some(Found::Made) => list.add_chars(made.as_bytes()),
        None => Ok(()),
    }
}

// Adds the next element of a text, if one stands there, and tells how many bytes that took.
fn add_next(
    list: &mut CutText,
    made: &mut CharBuffer,
    text: &[u8],
    start: usize,
) -> Result<Option<usize>, ListFault>
    requires same { list.old.text ≡ text.now }
    requires text { IsText text.now }
    requires bound { start ≤ length text.now }
    ensures gives { ListGoes (drop start text.now) list.old.list list.new.list result }
    ensures same { OnOk result (list.new.text ≡ text.now) }
    ensures bound { IfOk result (λ o. IfSome o (λ n. (1 ≤ n) × (start + n ≤ length text.now))) }
{
    match read_element(made, text.split_at(start).1)? {
        Some((element, more)) => {
            add_found(list, made, text, start, element)?;
            Ok(Some(1 + more))
        }
        None => Ok(None),
    }
}

// The same. The end, white space and bare elements that stand for themselves are told without a further call.
fn take_next(
    list: &mut CutText,
    made: &mut CharBuffer,
    text: &[u8],
    start: usize,
) -> Result<Option<usize>, ListFault>
    requires same { list.old.text ≡ text.now }
    requires text { IsText text.now }
    requires bound { start ≤ length text.now }
    ensures gives { ListGoes (drop start text.now) list.old.list list.new.list result }
    ensures same { OnOk result (list.new.text ≡ text.now) }
    ensures bound { IfOk result (λ o. IfSome o (λ n. (1 ≤ n) × (start + n ≤ length text.now))) }
{
    if start == text.len() {
        return Ok(None);
    }
    let rest = text.split_at(start).1;
    let space = first_space(rest);
    if space > 0 {
        return Ok(Some(space));
    }
    let len = bare_len(rest);
    if len == 0 {
        return add_next(list, made, text, start);
    }
    let end = start + len;
    list.add_span(Span { start, end })?;
    Ok(Some(len + first_space(text.split_at(end).1)))
}

// The elements of a text, up to its end.
fn read_list(alloc: Global, text: &Txt) -> Result<Elements, ListFault>
    ensures { ListRead result (list_of text.now) }
{
    let bytes = text.as_bytes();
    let mut list = CutText::of(alloc, bytes, first_room(text))?;
    let mut made = CharBuffer::new(alloc);
    let mut start = 0;
    'elements: while let Some(taken) = take_next(&mut list, &mut made, bytes, start)? {
        start += taken;
    }
    Ok(list.into_elements())
}

// The same, each as a text of its own.
fn split_list(alloc: Global, text: &Txt) -> Result<Seq<Txt>, ListFault>
    ensures { ListRead result (list_of text.now) }
{
    let mut list = Seq::new(alloc);
    let mut made = CharBuffer::new(alloc);
    let mut rest = text.as_bytes();
    'elements: while let Some((element, more)) = read_element(&mut made, rest)? {
        add_text(alloc, &mut list, &made, rest, element)?;
        rest = rest.split_at(1 + more).1;
    }
    Ok(list)
}

/// The list that a text splits into: elements between white space, each in braces, in quotes or bare.
/// `NotAList` where it splits into none.
#[tactic(auto, using(crate::proofs::Told::reads_so))]
pub fn read(alloc: Global, text: &Txt) -> Result<Elements, ListFault>
    ensures list { ListRead result (list_of text.now) }
    ensures splits { SplitsSo result text.now }
{
    read_list(alloc, text)
}

/// The same, with a text of its own for each element.
#[tactic(auto, using(crate::proofs::Told::reads_so))]
pub fn split(alloc: Global, text: &Txt) -> Result<Seq<Txt>, ListFault>
    ensures list { ListRead result (list_of text.now) }
    ensures splits { SplitsSo result text.now }
{
    split_list(alloc, text)
}
