//! Random commands, given to a text widget and to plain lists.

use crate::plain_lines::{PlainLines, PlainMark, PlainTag, is_on};
use crate::texts::text;
use std::alloc::Global;
use tests_disk::Dice;
use tks_lines::{Mark, Subcommand, Tag, TextWidget};
use tks_list::split;
use tks_opt::Said;
use tks_text::{Failure, Txt};

// What a text widget answers to a command.
fn answer(alloc: Global, widget: &mut TextWidget, command: &str) -> Option<Result<Said, Failure>> {
    let words = split(alloc, &text(alloc, command)?).ok()?;
    Some(widget.call(words.as_slice()))
}

// Whether it answers the empty text.
fn changes(alloc: Global, widget: &mut TextWidget, command: &str) -> Option<bool> {
    match answer(alloc, widget, command)? {
        Ok(Said::Text(text)) => Some(text.is_empty()),
        _ => Some(false),
    }
}

// Whether words ask a text widget something that it answers, as it is, with this.
fn is_told(widget: &TextWidget, words: &[Txt], expected: &[u8]) -> bool {
    match widget.read(words) {
        Ok(Subcommand::Asks(question)) => match widget.answer(question) {
            Ok(Said::Text(told)) => told.as_bytes() == expected,
            _ => false,
        },
        _ => false,
    }
}

// Whether both what it tells as it is and what it answers to a call are this.
fn tells(alloc: Global, widget: &mut TextWidget, command: &str, expected: &[u8]) -> Option<bool> {
    let words = split(alloc, &text(alloc, command)?).ok()?;
    let told = is_told(widget, words.as_slice(), expected);
    match answer(alloc, widget, command)? {
        Ok(Said::Text(text)) => Some(told && text.as_bytes() == expected),
        _ => Some(false),
    }
}

fn mark_name(name: u8) -> &'static str {
    match name {
        b'i' => "insert",
        b'm' => "m",
        b'n' => "n",
        _ => "o",
    }
}

fn any_mark(dice: &mut Dice) -> u8 {
    match dice.roll(4) {
        0 => b'i',
        1 => b'm',
        2 => b'n',
        _ => b'o',
    }
}

fn tag_name(name: u8) -> &'static str {
    match name {
        b'a' => "a",
        b'b' => "b",
        _ => "c",
    }
}

fn any_tag(dice: &mut Dice) -> u8 {
    match dice.roll(3) {
        0 => b'a',
        1 => b'b',
        _ => b'c',
    }
}

// A few characters or none, and now and then so many that a text of some hundreds has to grow.
fn any_chars(dice: &mut Dice) -> &'static str {
    match dice.roll(9) {
        0 => "",
        1 => "x",
        2 => "yz",
        3 => "\n",
        4 => "p\nq",
        5 => "\n\n",
        6 => "0123456789abcdef0123456789\nabcdef0123456789abcdef0123456789abcdef",
        _ => "u",
    }
}

// A place near the last edit, or anywhere up to the one behind the last newline.
fn any_place(plain: &PlainLines, near: usize, dice: &mut Dice) -> usize {
    let end = plain.chars.len().saturating_add(1);
    match dice.roll(3) {
        0 => near.saturating_add(dice.roll(4)).saturating_sub(2).min(end),
        1 => near.min(end),
        _ => dice.roll(end.saturating_add(1)),
    }
}

// Characters come in.
fn inserts(
    alloc: Global,
    widget: &mut TextWidget,
    plain: &mut PlainLines,
    place: usize,
    dice: &mut Dice,
) -> Option<bool> {
    let chars = any_chars(dice);
    if dice.roll(2) == 0 {
        plain.insert(place, chars.as_bytes())?;
        let command = format!(in alloc; ".t insert {{1.0 +{place}c}} {{{chars}}}").ok()?;
        return changes(alloc, widget, command.as_str());
    }
    let (first, second) = (any_tag(dice), any_tag(dice));
    plain.insert_with(place, chars.as_bytes(), &[first, second])?;
    let (first, second) = (tag_name(first), tag_name(second));
    let command = format!(in alloc;
        ".t insert {{1.0 +{place}c}} {{{chars}}} {{{first} {second}}}"
    ).ok()?;
    changes(alloc, widget, command.as_str())
}

// Characters go out.
fn deletes(
    alloc: Global,
    widget: &mut TextWidget,
    plain: &mut PlainLines,
    place: usize,
    dice: &mut Dice,
) -> Option<bool> {
    let last = place.saturating_add(dice.roll(12));
    plain.delete(place, last);
    let command = format!(in alloc; ".t delete {{1.0 +{place}c}} {{1.0 +{last}c}}").ok()?;
    changes(alloc, widget, command.as_str())
}

// A tag is put on characters, taken off them or deleted.
fn tags(
    alloc: Global,
    widget: &mut TextWidget,
    plain: &mut PlainLines,
    place: usize,
    dice: &mut Dice,
) -> Option<bool> {
    let name = any_tag(dice);
    let tag = tag_name(name);
    let last = place.saturating_add(dice.roll(20));
    let command = match dice.roll(8) {
        0 => {
            plain.delete_tag(name);
            format!(in alloc; ".t tag delete {tag}").ok()?
        }
        1 | 2 => {
            plain.set_tag(name, place, last, false);
            format!(in alloc; ".t tag remove {tag} {{1.0 +{place}c}} {{1.0 +{last}c}}").ok()?
        }
        _ => {
            plain.put_tag(name, place, last)?;
            format!(in alloc; ".t tag add {tag} {{1.0 +{place}c}} {{1.0 +{last}c}}").ok()?
        }
    };
    changes(alloc, widget, command.as_str())
}

// A mark is put at a place, taken away, or gets a gravity.
fn marks(
    alloc: Global,
    widget: &mut TextWidget,
    plain: &mut PlainLines,
    place: usize,
    dice: &mut Dice,
) -> Option<bool> {
    let name = any_mark(dice);
    let mark = mark_name(name);
    match dice.roll(4) {
        0 => {
            plain.unset_mark(name);
            let command = format!(in alloc; ".t mark unset {mark}").ok()?;
            changes(alloc, widget, command.as_str())
        }
        1 => {
            let left = dice.roll(2) == 0;
            let word = if left { "left" } else { "right" };
            let is_there = plain.turn_mark(name, left);
            let command = format!(in alloc; ".t mark gravity {mark} {word}").ok()?;
            Some(is_there == answer(alloc, widget, command.as_str())?.is_ok())
        }
        _ => {
            plain.set_mark(name, place)?;
            let command = format!(in alloc; ".t mark set {mark} {{1.0 +{place}c}}").ok()?;
            changes(alloc, widget, command.as_str())
        }
    }
}

// The characters between two places, the last newline too.
fn cut(alloc: Global, chars: &[u8], first: usize, last: usize) -> Option<Vec<u8>> {
    let mut cut = Vec::new(alloc);
    for place in first..last {
        if let Some(byte) = chars.get(place) {
            cut.push(*byte).ok()?;
        } else if place == chars.len() {
            cut.push(b'\n').ok()?;
        }
    }
    Some(cut)
}

// How many lines end before a place, and how many characters stand before it on its line.
fn line_and_column(chars: &[u8], place: usize) -> (usize, usize) {
    let (mut lines, mut column) = (0usize, 0usize);
    for at in 0..place {
        let is_newline = match chars.get(at) {
            Some(byte) => *byte == b'\n',
            None => at == chars.len(),
        };
        if is_newline {
            lines = lines.saturating_add(1);
            column = 0;
        } else {
            column = column.saturating_add(1);
        }
    }
    (lines, column)
}

// What the widget tells of characters and of an index.
fn told_alike(
    alloc: Global,
    widget: &mut TextWidget,
    plain: &PlainLines,
    place: usize,
    dice: &mut Dice,
) -> Option<bool> {
    let last = place.saturating_add(dice.roll(9));
    let chars = cut(alloc, &plain.chars, place, last)?;
    let command = format!(in alloc; ".t get {{1.0 +{place}c}} {{1.0 +{last}c}}").ok()?;
    let same = tells(alloc, widget, command.as_str(), &chars)?;
    let (lines, column) = line_and_column(&plain.chars, place);
    let line = lines.saturating_add(1);
    let index = format!(in alloc; "{line}.{column}").ok()?;
    let command = format!(in alloc; ".t index {{1.0 +{place}c}}").ok()?;
    Some(same && tells(alloc, widget, command.as_str(), index.as_bytes())?)
}

fn chars_agree(widget: &TextWidget, plain: &PlainLines) -> bool {
    let (front, typed, behind) = widget.pieces();
    let mut place = 0usize;
    for byte in front.iter().chain(typed).chain(behind) {
        if plain.chars.get(place) != Some(byte) {
            return false;
        }
        place = place.saturating_add(1);
    }
    place == plain.chars.len() && place == widget.len()
}

// Whether a tag is on a character, by its ranges.
fn is_in_range(tag: &Tag, place: usize) -> bool {
    for range in tag.on.ranges() {
        if range.first <= place && place < range.last {
            return true;
        }
    }
    false
}

fn tag_agrees(tag: &Tag, plain: &PlainTag) -> bool {
    for place in 0..plain.on.len() {
        if is_in_range(tag, place) != is_on(&plain.on, place) {
            return false;
        }
    }
    tag.name.as_bytes() == [plain.name].as_slice() && tag.on.len() == plain.on.len()
}

fn tags_agree(widget: &TextWidget, plain: &PlainLines) -> bool {
    let mut at = 0usize;
    for tag in widget.tags() {
        match plain.tags.get(at) {
            Some(other) if tag_agrees(tag, other) => {}
            _ => return false,
        }
        at = at.saturating_add(1);
    }
    at == plain.tags.len()
}

fn mark_agrees(mark: &Mark, plain: &PlainMark) -> bool {
    mark.name.as_bytes() == mark_name(plain.name).as_bytes()
        && mark.place == plain.place
        && mark.left == plain.left
}

fn marks_agree(widget: &TextWidget, plain: &PlainLines) -> bool {
    let mut at = 0usize;
    for mark in widget.marks() {
        match plain.marks.get(at) {
            Some(other) if mark_agrees(mark, other) => {}
            _ => return false,
        }
        at = at.saturating_add(1);
    }
    at == plain.marks.len()
}

/// Gives both a random command, near the place of the last one, and says whether they agree then; the place comes with it.
pub fn command_agrees(
    alloc: Global,
    widget: &mut TextWidget,
    plain: &mut PlainLines,
    near: usize,
    dice: &mut Dice,
) -> Option<(bool, usize)> {
    let place = any_place(plain, near, dice);
    let answered = match dice.roll(10) {
        0..=4 => inserts(alloc, widget, plain, place, dice)?,
        5 | 6 => deletes(alloc, widget, plain, place, dice)?,
        7 | 8 => tags(alloc, widget, plain, place, dice)?,
        _ => marks(alloc, widget, plain, place, dice)?,
    };
    let told = told_alike(alloc, widget, plain, place, dice)?;
    let same = chars_agree(widget, plain)
        && tags_agree(widget, plain)
        && marks_agree(widget, plain);
    Some((answered && told && same, place))
}
