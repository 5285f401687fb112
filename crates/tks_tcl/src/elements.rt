//! What commands make of the elements of a list that was read.
ghost use Rattle.std.specs.Prelude.{◌≡◌, ◌++◌, drop, length, nat_le, IfOk, OnOk};
ghost use Rattle.std.specs.Fmt.{decimal};
ghost use Rattle.tks_list.specs.Quoting.{joined};
ghost use Rattle.tks_tcl.specs.Cause.{within};
ghost use Rattle.tks_text.specs.Limits.{fits};
ghost use Rattle.tks_tcl.specs.Index.{range};
ghost use Rattle.tks_tcl.specs.Lists.{first_or_empty, indexed, ranged, separated, joined_by};
ghost use Rattle.tks_tcl.specs.Meets.{GivesSo};
ghost use Rattle.tks_tcl.specs.Room.{room_of};
ghost use Rattle.tks_tcl.specs.View.{index_of};

use crate::index::{Index, bounds, index_in};
use crate::interrupt::Interrupt;
use crate::room::room_behind;
use crate::words::count_text;
use std::alloc::{AllocError, Global};
use tks_list::Elements;
use tks_text::{Limits, Txt};

/// How many elements there are: what `llength` answers of a text that splits into this list.
pub fn llength_of(alloc: Global, list: &Elements) -> Result<Txt, AllocError>
    ensures { IfOk result (λ t. t ≡ decimal (length list.now)) }
{
    count_text(alloc, list.len())
}

// The element at an index, or the empty text where there is none.
fn element_at(alloc: Global, list: &Elements, index: Index) -> Result<Txt, AllocError>
    ensures { IfOk result (λ t. t ≡ first_or_empty (range (index_of index) (index_of index) list.now)) }
{
    let (front, behind) = bounds(list.len(), index, index);
    if front == behind {
        return Ok(Txt::new(alloc));
    }
    Txt::from_text(alloc, list.at(front))
}

/// What `lindex` answers of a text that splits into this list, and this index.
pub fn lindex_of(alloc: Global, list: &Elements, index: &Txt) -> Result<Txt, Interrupt>
    ensures { GivesSo (λ t. t) result (indexed list.now index.now) }
{
    let index = index_in(alloc, index)?;
    Ok(element_at(alloc, list, index)?)
}

// The text of a list of those from one index to another.
fn joined_range(
    alloc: Global,
    list: &Elements,
    first: Index,
    last: Index,
) -> Result<Txt, AllocError>
    ensures { IfOk result (λ t. t ≡ joined (range (index_of first) (index_of last) list.now)) }
{
    let (front, behind) = bounds(list.len(), first, last);
    list.joined(alloc, front, behind)
}

/// What `lrange` answers of a text that splits into this list, and these indices.
pub fn lrange_of(alloc: Global, list: &Elements, first: &Txt, last: &Txt) -> Result<Txt, Interrupt>
    ensures { GivesSo (λ t. t) result (ranged list.now first.now last.now) }
{
    let first = index_in(alloc, first)?;
    let last = index_in(alloc, last)?;
    Ok(joined_range(alloc, list, first, last)?)
}

// Whether the elements, and so many bytes more with each, are no more than this room.
fn have_room(list: &Elements, more: usize, room: usize) -> bool
    ensures { result ≡ nat_le (room_of more list.now) room }
{
    let mut left = room;
    for index in 0..list.len() {
        match room_behind(left, list.at(index).len(), more) {
            Some(room) => left = room,
            None => return false,
        }
    }
    true
}

// Adds the elements from an index on, each with a separator before it.
fn push_separated(
    text: &mut Txt,
    list: &Elements,
    front: usize,
    separator: &Txt,
) -> Result<(), AllocError>
    ensures { OnOk result (text.new ≡ text.old ++ separated separator.now (drop front list.now)) }
{
    for index in front..list.len() {
        text.append(separator)?;
        text.push_bytes(list.at(index))?;
    }
    Ok(())
}

// The elements with a separator between them.
fn joined_by(alloc: Global, list: &Elements, separator: &Txt) -> Result<Txt, AllocError>
    ensures { IfOk result (λ t. t ≡ joined_by separator.now list.now) }
{
    let mut text = Txt::new(alloc);
    if list.len() == 0 {
        return Ok(text);
    }
    text.push_bytes(list.at(0))?;
    push_separated(&mut text, list, 1, separator)?;
    Ok(text)
}

// Whether the elements with a separator between them pass no limit.
fn joined_fits(list: &Elements, separator: &Txt, limits: &Limits) -> bool
    ensures { result ≡ fits limits.now (joined_by separator.now list.now) }
{
    let between = separator.as_bytes().len();
    have_room(list, between, limits.text as usize + between)
}

/// The elements with a separator between them, where they pass no limit. Where they would, nothing is made.
pub fn elements_joined(
    alloc: Global,
    list: &Elements,
    separator: &Txt,
    limits: &Limits,
) -> Result<Txt, Interrupt>
    ensures { GivesSo (λ t. t) result (within limits.now (joined_by separator.now list.now)) }
{
    if !joined_fits(list, separator, limits) {
        return Err(Interrupt::TooLarge);
    }
    Ok(joined_by(alloc, list, separator)?)
}
