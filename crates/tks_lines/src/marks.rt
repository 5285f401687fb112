//! Marks, and what becomes of them.
ghost use Rattle.std.specs.Prelude.{◌≡◌, ◌+◌, ◌<◌, ◌≤◌, ◌^◌, map, option_copied, IfOk, OnOk, OnErr};
ghost use Rattle.std.specs.List.{AllByRecursion, list_any};
ghost use Rattle.tks_text.specs.Short.{IsShort};
ghost use Rattle.tks_lines.specs.Lines.{is_listed, is_mark, mark_named, goes_on, moved_on, moved_back, put_at, with_mark, without_marks, turned, turned_marks, cursor_name};

use crate::lined_text::MAX_LEN;
use crate::parts::Mark;
use std::alloc::{AllocError, Global};
use std::marker::Model;
use tks_text::{Seq, Txt};

/// The marks of a text, fewer than 2^32, in the order in which they were made. They are moved where they stand.
#[derive(Drop)]
pub(crate) struct Marks {
    marks: Vec<Mark>,
}

impl Model for Marks {
    ghost use Rattle.std.specs.Prelude.{List};
    ghost use Rattle.tks_text.specs.Short.{IsShort};
    ghost use Rattle.tks_lines.specs.declared.parts.Mark.{Mark};

    ghost Value = { List Mark };

    ghost view = { λ m. m.marks.items };

    ghost invariant = { λ m. IsShort m.marks.items };
}

/// Whether a name is among others.
pub(crate) fn is_listed(name: &Txt, names: &[Txt]) -> bool
    ensures { result ≡ is_listed name.now names.now }
{
    for other in names {
        if name.as_bytes() == other.as_bytes() {
            return true;
        }
    }
    false
}

/// The mark of a name.
pub(crate) fn mark_named<'a>(name: &[u8], marks: &'a [Mark]) -> Option<&'a Mark>
    ensures { option_copied result ≡ mark_named name.now marks.now }
{
    for mark in marks {
        if mark.name.as_bytes() == name {
            return Some(mark);
        }
    }
    None
}

// Whether there is a mark of a name.
fn has_mark(name: &Txt, marks: &[Mark]) -> bool
    ensures { result ≡ list_any (is_mark name.now) marks.now }
{
    for mark in marks {
        if mark.name.as_bytes() == name.as_bytes() {
            return true;
        }
    }
    false
}

// Whether a mark goes on where characters come in at a place.
fn goes_on(place: usize, mark: &Mark) -> bool
    ensures { result ≡ goes_on place mark.now }
{
    place < mark.place || (place == mark.place && !mark.left)
}

// Moves a mark where so many characters come in at a place.
fn move_on(mark: &mut Mark, place: usize, count: usize)
    requires { mark.old.place + count < 2 ^ 64 }
    ensures { mark.new ≡ moved_on place count mark.old }
{
    if goes_on(place, mark) {
        mark.place += count;
    }
}

// Moves a mark where the characters between two places go out.
fn move_back(mark: &mut Mark, first: usize, last: usize)
    ensures { mark.new ≡ moved_back first last mark.old }
{
    if mark.place <= first {
        return;
    }
    mark.place -= mark.place.min(last).saturating_sub(first);
}

// Puts a mark at a place where it has the name.
fn put_at(mark: &mut Mark, name: &Txt, place: usize)
    ensures { mark.new ≡ put_at name.now place mark.old }
{
    if mark.name.as_bytes() == name.as_bytes() {
        mark.place = place;
    }
}

// Gives a mark another gravity where it has the name.
fn turn(mark: &mut Mark, name: &Txt, left: bool)
    ensures { mark.new ≡ turned name.now left mark.old }
{
    if mark.name.as_bytes() == name.as_bytes() {
        mark.left = left;
    }
}

// Moves each mark where so many characters come in at a place.
fn move_each_on(marks: &mut [Mark], place: usize, count: usize)
    requires { AllByRecursion (λ m. m.place + count < 2 ^ 64) marks.old }
    ensures { marks.new ≡ map (moved_on place count) marks.old }
{
    for mark in marks.iter_mut() {
        move_on(mark, place, count);
    }
}

// Moves each mark where the characters between two places go out.
fn move_each_back(marks: &mut [Mark], first: usize, last: usize)
    ensures { marks.new ≡ map (moved_back first last) marks.old }
{
    for mark in marks.iter_mut() {
        move_back(mark, first, last);
    }
}

// Puts the marks of a name at a place.
fn put_each_at(marks: &mut [Mark], name: &Txt, place: usize)
    ensures { marks.new ≡ map (put_at name.now place) marks.old }
{
    for mark in marks.iter_mut() {
        put_at(mark, name, place);
    }
}

// Gives the marks of a name another gravity.
fn turn_each(marks: &mut [Mark], name: &Txt, left: bool)
    ensures { marks.new ≡ turned_marks name.now left marks.old }
{
    for mark in marks.iter_mut() {
        turn(mark, name, left);
    }
}

// An equal mark.
fn copy(mark: &Mark) -> Result<Mark, AllocError>
    ensures { IfOk result (λ m. m ≡ mark.now) }
{
    Ok(Mark {
        name: mark.name.try_clone()?,
        place: mark.place,
        left: mark.left,
    })
}

impl Marks {
    /// These marks.
    pub(crate) fn of(marks: Seq<Mark>) -> Marks
        ensures { result ≡ marks }
    {
        let _len = marks.len();
        Marks {
            marks: marks.into_items(),
        }
    }

    /// The marks, in order.
    pub(crate) fn as_slice(&self) -> &[Mark]
        ensures value { result.now ≡ self.now }
        ensures short { IsShort self.now }
    {
        self.marks.as_slice()
    }

    /// Moves them where so many characters come in at a place.
    pub(crate) fn move_on(&mut self, place: usize, count: usize)
        requires { AllByRecursion (λ m. m.place + count < 2 ^ 64) self.old }
        ensures { self.new ≡ map (moved_on place count) self.old }
    {
        move_each_on(&mut self.marks, place, count);
    }

    /// Moves them where the characters between two places go out.
    pub(crate) fn move_back(&mut self, first: usize, last: usize)
        ensures { self.new ≡ map (moved_back first last) self.old }
    {
        move_each_back(&mut self.marks, first, last);
    }

    /// Puts the mark of a name at a place; a new one comes last. One too many is refused as memory is.
    pub(crate) fn set(&mut self, name: &Txt, place: usize) -> Result<(), AllocError>
        ensures ok { OnOk result (self.new ≡ with_mark name.now place self.old) }
        ensures err { OnErr result (self.new ≡ self.old) }
    {
        if has_mark(name, self.marks.as_slice()) {
            put_each_at(&mut self.marks, name, place);
            return Ok(());
        }
        if self.marks.len() >= MAX_LEN {
            return Err(AllocError);
        }
        self.marks.push(Mark {
            name: name.try_clone()?,
            place,
            left: false,
        })?;
        Ok(())
    }

    /// Those without the ones of some names; `insert` stays.
    pub(crate) fn without(&self, alloc: Global, names: &[Txt]) -> Result<Marks, AllocError>
        ensures { IfOk result (λ all. all ≡ without_marks names.now self.now) }
    {
        let left = without_marks(alloc, self.marks.as_slice(), names)?;
        Ok(Marks::of(left))
    }

    /// Gives those of a name another gravity.
    pub(crate) fn turn(&mut self, name: &Txt, left: bool)
        ensures { self.new ≡ turned_marks name.now left self.old }
    {
        turn_each(&mut self.marks, name, left);
    }

    /// Equal marks.
    pub(crate) fn try_clone(&self, alloc: Global) -> Result<Marks, AllocError>
        ensures { IfOk result (λ all. all ≡ self.now) }
    {
        let all = copied(alloc, self.marks.as_slice())?;
        Ok(Marks::of(all))
    }
}

// The marks without those of some names; `insert` stays.
fn without_marks(alloc: Global, marks: &[Mark], names: &[Txt]) -> Result<Seq<Mark>, AllocError>
    ensures { IfOk result (λ all. all ≡ without_marks names.now marks.now) }
{
    let mut all = Seq::new(alloc);
    for mark in marks {
        if mark.name.as_bytes() == b"insert".as_slice() || !is_listed(&mark.name, names) {
            all.push(copy(mark)?)?;
        }
    }
    Ok(all)
}

// Equal marks.
fn copied(alloc: Global, marks: &[Mark]) -> Result<Seq<Mark>, AllocError>
    ensures { IfOk result (λ all. all ≡ marks.now) }
{
    let mut all = Seq::new(alloc);
    for mark in marks {
        all.push(copy(mark)?)?;
    }
    Ok(all)
}
