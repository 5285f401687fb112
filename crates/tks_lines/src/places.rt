//! Places in a text: before so many of its characters; behind the last newline is the end.
ghost use Rattle.std.specs.Prelude.{◌≡◌, ◌+◌, ◌-◌, ◌<◌, ◌≤◌, ◌^◌, length, min};
ghost use Rattle.std.specs.List.{prefix_len};
ghost use Rattle.tks_lines.specs.Places.{is_newline, is_inner, end_place, lines_before, column_of, line_start, line_end, within_line, place_at, place_of_line, along, changed};

use crate::lined_text::LinedText;
use crate::modifier::{Modifier, Step};

/// How many lines end before a place.
pub(crate) fn lines_before(text: &LinedText, place: usize) -> usize
    ensures value { result ≡ lines_before text.now place }
    ensures bound { result < 2 ^ 63 }
{
    if place <= text.len() {
        text.newlines_before(place)
    } else {
        text.newlines() + 1
    }
}

/// How many characters stand before a place on its line.
#[tactic(auto, using(crate::proofs::Breaking::column_is))]
pub(crate) fn column_of(text: &LinedText, place: usize) -> usize
    ensures value { result ≡ column_of text.now place }
    ensures bound { result ≤ length text.now }
{
    if place <= text.len() {
        place.saturating_sub(text.line_begin(text.newlines_before(place)))
    } else {
        0
    }
}

// The place at which a line begins.
fn line_start(text: &LinedText, place: usize) -> usize
    ensures { result ≡ line_start text.now place }
{
    place.saturating_sub(column_of(text, place))
}

/// The place of the newline that ends a line.
#[tactic(auto, using(crate::proofs::Breaking::line_ends))]
pub(crate) fn line_end(text: &LinedText, place: usize) -> usize
    requires { place ≤ end_place text.now }
    ensures value { result ≡ line_end text.now place }
    ensures bound { result ≤ end_place text.now }
    ensures inside { place ≤ length text.now → result ≤ length text.now }
{
    if place <= text.len() {
        text.line_break(text.newlines_before(place))
    } else {
        place
    }
}

// A column of a line of so many characters, or its end.
fn within_line(column: Option<usize>, len: usize) -> usize
    ensures value { result ≡ within_line column len }
    ensures bound { result ≤ len }
{
    match column {
        None => len,
        Some(column) => column.min(len),
    }
}

/// The place of a column of the line that comes behind so many others.
#[tactic(auto, using(crate::proofs::Breaking::found_line))]
pub(crate) fn place_at(text: &LinedText, lines: usize, column: Option<usize>) -> usize
    ensures value { result ≡ place_at text.now lines column }
    ensures bound { result ≤ end_place text.now }
{
    let begin = text.line_begin(lines);
    begin + within_line(column, text.line_break(lines).saturating_sub(begin))
}

/// The place of a column of a line, counted from 1; a line below that is the first place.
pub(crate) fn place_of_line(text: &LinedText, line: usize, column: Option<usize>) -> usize
    ensures value { result ≡ place_of_line text.now line column }
    ensures bound { result ≤ end_place text.now }
{
    if line == 0 {
        0
    } else {
        place_at(text, line - 1, column)
    }
}

// So far on, or back; as far as 64 bits go.
fn along(step: Step, from: usize) -> usize
    ensures { result ≡ min (along step from) (2 ^ 64 - 1) }
{
    if step.back {
        from.saturating_sub(step.count)
    } else {
        from.saturating_add(step.count)
    }
}

/// The place that a modifier makes of another.
#[tactic(auto, using(crate::proofs::Far::kept_line))]
pub(crate) fn changed(text: &LinedText, place: usize, modifier: Modifier) -> usize
    requires { place ≤ end_place text.now }
    ensures value { result ≡ changed text.now place modifier }
    ensures bound { result ≤ end_place text.now }
{
    let len = text.len();
    match modifier {
        Modifier::Chars(step) => along(step, place).min(len + 1),
        Modifier::Lines(step) => {
            let lines = along(step, lines_before(text, place));
            place_at(text, lines, Some(column_of(text, place)))
        }
        Modifier::LineStart => line_start(text, place),
        Modifier::LineEnd => line_end(text, place),
    }
}
