//! What a text widget tells: places as indices, characters, names, ranges.
ghost use Rattle.std.specs.Prelude.{◌≡◌, ◌≤◌, ◌<◌, ◌^◌, ◌+◌, length, map, false, IfOk};
ghost use Rattle.std.specs.Fmt.{decimal};
ghost use Rattle.tks_lines.specs.Commands.{gravity_name, names_on, spelled, between, edges, flags_of};
ghost use Rattle.tks_lines.specs.Ranges.{ranges_of, ends_of};

use crate::lined_text::LinedText;
use crate::parts::{Mark, Tag};
use crate::places::{column_of, lines_before};
use crate::range::Range;
use itoa::Buffer;
use std::alloc::{AllocError, Global};
use tks_text::{Seq, Txt};

// A count in decimal digits.
#[tactic(auto, using(crate::proofs::Decimals::count_is_text))]
fn decimal_of_count(alloc: Global, count: usize) -> Result<Txt, AllocError>
    ensures { IfOk result (λ t. t ≡ decimal count) }
{
    let mut digits = Buffer::new();
    Txt::from_text(alloc, digits.format(count).as_bytes())
}

/// A place as an index.
pub(crate) fn spelled(alloc: Global, text: &LinedText, place: usize) -> Result<Txt, AllocError>
    ensures { IfOk result (λ t. t ≡ spelled text.now place) }
{
    let mut index = decimal_of_count(alloc, lines_before(text, place) + 1)?;
    index.push_byte(b'.')?;
    index.append(&decimal_of_count(alloc, column_of(text, place))?)?;
    Ok(index)
}

/// The characters between two places, the last newline too.
pub(crate) fn between(
    alloc: Global,
    text: &LinedText,
    first: usize,
    last: usize,
) -> Result<Txt, AllocError>
    ensures { IfOk result (λ t. t ≡ between first last text.now) }
{
    let len = text.len();
    let end = last.min(len);
    let mut cut = text.part(alloc, first.min(end), end)?;
    if end < last && first <= len {
        cut.push_byte(b'\n')?;
        return Ok(cut);
    }
    Ok(cut)
}

/// The word for a gravity.
pub(crate) fn gravity_name(alloc: Global, left: bool) -> Result<Txt, AllocError>
    ensures { IfOk result (λ t. t ≡ gravity_name left) }
{
    let name: &[u8] = if left { b"left" } else { b"right" };
    Txt::from_text(alloc, name)
}

/// The names of all marks.
pub(crate) fn mark_names(alloc: Global, marks: &[Mark]) -> Result<Seq<Txt>, AllocError>
    ensures { IfOk result (λ names. names ≡ map (λ m. m.name) marks.now) }
{
    let mut names = Seq::new(alloc);
    for mark in marks {
        names.push(mark.name.try_clone()?)?;
    }
    Ok(names)
}

/// The names of all tags.
pub(crate) fn tag_names(alloc: Global, tags: &[Tag]) -> Result<Seq<Txt>, AllocError>
    ensures { IfOk result (λ names. names ≡ map (λ g. g.name) tags.now) }
{
    let mut names = Seq::new(alloc);
    for tag in tags {
        names.push(tag.name.try_clone()?)?;
    }
    Ok(names)
}

/// The names of the tags on the character behind a place.
#[tactic(auto, unfolding(crate::specs::Commands::names_on))]
pub(crate) fn tags_on(alloc: Global, tags: &[Tag], place: usize) -> Result<Seq<Txt>, AllocError>
    ensures { IfOk result (λ names. names ≡ names_on place tags.now) }
{
    let mut names = Seq::new(alloc);
    for tag in tags {
        if tag.on.is_on(place) {
            names.push(tag.name.try_clone()?)?;
        }
    }
    Ok(names)
}

// The ranges of the characters that have a tag, where there is one of the name.
fn ranges_named<'a>(name: &Txt, tags: &'a [Tag]) -> &'a [Range]
    ensures { result.now ≡ ranges_of (flags_of name.now tags.now) }
{
    for tag in tags {
        if tag.name.as_bytes() == name.as_bytes() {
            return tag.on.ranges();
        }
    }
    &[]
}

// The places at which ranges begin and end, in turn.
fn ends_of(alloc: Global, ranges: &[Range]) -> Result<Seq<usize>, AllocError>
    ensures { IfOk result (λ places. places ≡ ends_of ranges.now) }
{
    let mut places = Seq::new(alloc);
    for range in ranges {
        places.push(range.first)?;
        places.push(range.last)?;
    }
    Ok(places)
}

/// The places at which the tag of a name begins and ends, in turn.
#[tactic(auto, using(crate::proofs::Edges::ends_are_edges))]
pub(crate) fn edges(alloc: Global, name: &Txt, tags: &[Tag]) -> Result<Seq<usize>, AllocError>
    ensures { IfOk result (λ places. places ≡ edges false 0 (flags_of name.now tags.now)) }
{
    let places = ends_of(alloc, ranges_named(name, tags))?;
    Ok(places)
}

/// Places as indices.
pub(crate) fn all_spelled(
    alloc: Global,
    text: &LinedText,
    places: &[usize],
) -> Result<Seq<Txt>, AllocError>
    ensures { IfOk result (λ all. all ≡ map (spelled text.now) places.now) }
{
    let mut all = Seq::new(alloc);
    for place in places {
        all.push(spelled(alloc, text, *place)?)?;
    }
    Ok(all)
}
