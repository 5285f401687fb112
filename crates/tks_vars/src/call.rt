//! The arguments of a procedure's call, and its frame.
ghost use Rattle.std.specs.Prelude.{◌≡◌, nat_le, [], ◌∷◌, ◌++◌, length, IfOk, OnOk, OnErr};
ghost use Rattle.std.specs.FinMap as map;
ghost use Rattle.std.specs.List.{list_all};
ghost use Rattle.tks_vars.specs.Few.{put_behind, value_held};
ghost use Rattle.tks_vars.specs.Variables.{frame_of};
ghost use Rattle.tks_vars.specs.declared.content.Content.TheVariants.{Scalar};
ghost use Rattle.tks_vars.specs.declared.content.Local.TheVariants.{Own};

use crate::content::{Content, Local};
use crate::few::{FEW, Few};
use crate::frame::Frame;
use std::alloc::{AllocError, Global};
use std::marker::Model;
use tks_list::ListText;
use tks_text::Txt;

/// The arguments of a call, kept as the call's frame will hold them. Contracts see the list.
#[derive(Drop)]
pub struct Arguments {
    entries: Few,
}

impl Model for Arguments {
    ghost use Rattle.std.specs.Prelude.{◌≡◌, List, map};
    ghost use Rattle.std.specs.Coded.{coded_list};
    ghost use Rattle.tks_vars.specs.declared.procedure.Argument.{Argument};
    ghost use Rattle.tks_vars.specs.contracts.procedure.Argument as argument;
    ghost use Rattle.tks_vars.specs.Few.{argument_of, entry_of};

    ghost Value = { List Argument };

    ghost coded = { coded_list argument.the_row.coded };

    ghost view = { λ a. map argument_of a.entries };

    ghost invariant = { λ a. a.entries ≡ map entry_of (map argument_of a.entries) };
}

impl Arguments {
    /// None, with room for a few.
    pub(crate) fn new(alloc: Global) -> Result<Arguments, AllocError>
        ensures { IfOk result (λ a. a ≡ []) }
    {
        Ok(Arguments {
            entries: Few::with_room(alloc, FEW)?,
        })
    }

    /// None, with the room that others had.
    pub(crate) fn in_room(room: Few) -> Arguments
        ensures { result ≡ [] }
    {
        let mut entries = room;
        entries.truncate(0);
        Arguments { entries }
    }

    /// Adds the value that a call gives to the parameter of this name.
    #[inline(always)]
    pub fn push(&mut self, name: &Txt, value: Txt) -> Result<(), AllocError>
        ensures ok { OnOk result (self.new ≡ self.old ++ record { name = name.now; value = value } ∷ []) }
        ensures err { OnErr result (self.new ≡ self.old) }
    {
        self.entries.push(name.try_clone()?, scalar(value))
    }

    /// Whether no value has more bytes than this.
    pub fn all_within(&self, most: usize) -> bool
        ensures { result ≡ list_all (λ x. nat_le (length x.value) most) self.now }
    {
        are_within(self.entries.as_slice(), most)
    }

    // The arguments as entries of a frame.
    fn into_entries(self) -> Few
        ensures { put_behind map.empty result ≡ frame_of self }
    {
        let Arguments { entries } = self;
        entries
    }
}

// Whether a scalar's value has no more bytes than this.
fn is_within(local: &Local, most: usize) -> bool
    ensures { result ≡ nat_le (length (value_held local.now)) most }
{
    match local {
        Local::Own(Content::Scalar(value)) => value.as_text().len() <= most,
        _ => true,
    }
}

// Whether none of these scalars' values has more bytes than this.
fn are_within(entries: &[(Txt, Local)], most: usize) -> bool
    ensures { result ≡ list_all (λ e. nat_le (length (value_held e.1)) most) entries.now }
{
    entries.iter().all(|entry| is_within(&entry.1, most))
}

/// The frame of a call with these arguments. Of two with one name the first stays.
pub fn frame_of(alloc: Global, arguments: Arguments) -> Result<Frame, AllocError>
    ensures { IfOk result (λ frame. frame ≡ frame_of arguments) }
{
    let entries = arguments.into_entries();
    if entries.are_few_apart() {
        return Frame::of(alloc, entries);
    }
    frame_one_by_one(alloc, entries)
}

// The frame with these entries, however many they are, where some may have one name.
fn frame_one_by_one(alloc: Global, entries: Few) -> Result<Frame, AllocError>
    ensures { IfOk result (λ frame. frame ≡ put_behind map.empty entries) }
{
    let mut frame = Frame::new(alloc)?;
    let mut entries = entries;
    while let Some((name, value)) = entries.pop() {
        frame.insert_named(name, value)?;
    }
    Ok(frame)
}

// A variable of the procedure's own with this value.
fn scalar(value: Txt) -> Local
    ensures { result ≡ Own (Scalar value) }
{
    Local::Own(Content::Scalar(ListText::of(value)))
}
