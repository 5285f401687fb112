//! Virtual events.
ghost use Rattle.std.specs.Prelude.{◌≡◌, length, None, IfOk, OnOk};
ghost use Rattle.tks_spelling.specs.Reading.{Gives};
ghost use Rattle.tks_spelling.specs.Writing.{PutsSo, flattened};
ghost use Rattle.tks_spelling.specs.Lengths.{counted};
ghost use Rattle.tks_bind.specs.WellFormed.{is_some, are_virtuals};
ghost use Rattle.tks_codec_events.specs.Virtuals as tables;
ghost use Rattle.tks_bind.specs.WellFormed.{are_physical, is_virtual_event};
ghost use Rattle.tks_codec_events.specs.Virtuals.{named_parts, virtual_event_at, virtuals_at};

use crate::distinct::{Key, all_differ};
use crate::sequence::{Sequences, put_sequence};
use std::alloc::{AllocError, Global};
use tks_bind::{VirtualEvent, Virtuals, is_of_name};
use tks_event::{Sequence, is_name};
use tks_spelling::reading::text_of;
use tks_spelling::writing::put_text;
use tks_spelling::{
    Members, Unread, items_length, list_length, list_of, put_items, put_list, text_length,
};
use tks_text::Txt;

// Sequences by themselves.
struct BySequence;

impl Key<Sequence> for BySequence {
    ghost use Rattle.tks_bind.specs.WellFormed.{sequences_differ};
    ghost use Rattle.tks_codec_events.specs.Sequence.{sequence};

    ghost differ = { λ key. sequences_differ };

    ghost bytes = { λ key. sequence.write };

    ghost IsTold = { λ key. sequence.Legal };

    fn put(&self, out: &mut Vec<u8>, sequence: &Sequence) -> Result<(), AllocError> {
        put_sequence(out, sequence)
    }
}

// Whether there are sequences.
fn is_some(sequences: &[Sequence]) -> bool
    ensures { result ≡ is_some sequences.now }
{
    match sequences {
        [] => false,
        _ => true,
    }
}

// Whether none is the sequence of a virtual event.
fn are_physical(sequences: &[Sequence]) -> bool
    ensures { result ≡ are_physical sequences.now }
{
    sequences.iter().all(|sequence| !is_of_name(sequence))
}

// Whether a virtual event may have this name and these sequences.
fn is_virtual_event(alloc: Global, name: &Txt, sequences: &[Sequence]) -> Result<bool, AllocError>
    ensures { IfOk result (λ b. b ≡ is_virtual_event (record { name = name.now; sequences = sequences.now })) }
{
    Ok(
        is_name(name.as_bytes())
            && are_physical(sequences)
            && is_some(sequences)
            && all_differ(alloc, &BySequence, sequences)?,
    )
}

// A virtual event.
#[tactic(auto, unfolding(crate::specs::Virtuals::virtual_event_at))]
fn virtual_event_of(alloc: Global, bytes: &[u8]) -> Result<(VirtualEvent, &[u8]), Unread>
    ensures { Gives (λ x. (x.0, x.1.now)) result (virtual_event_at bytes.now) }
{
    let (name, rest) = text_of(alloc, bytes)?;
    let (sequences, rest) = list_of(alloc, Sequences, rest)?;
    if !is_virtual_event(alloc, &name, sequences.as_slice())? {
        return Err(Unread::Left(rest.len() + 1));
    }
    let event = VirtualEvent::restore(alloc, name, sequences.into_items())?;
    Ok((event, rest))
}

// Adds the parts of a virtual event.
#[tactic(auto, using(tks_spelling::proofs::Puts::flattened_puts))]
fn put_parts(out: &mut Vec<u8>, event: &VirtualEvent) -> Result<(), AllocError>
    ensures puts { PutsSo result out.old.items out.new.items (flattened (named_parts event.now)) }
    ensures legal { OnOk result (tables.named.Legal event.now) }
{
    put_text(out, &event.name)?;
    put_list(out, Sequences, event.sequences.as_slice())
}

/// Virtual events.
#[derive(Clone, Copy)]
pub struct VirtualMembers;

impl Members<VirtualEvent> for VirtualMembers {
    ghost use Rattle.std.specs.Prelude.{◌≡◌, true};
    ghost use Rattle.tks_bind.specs.WellFormed.{is_virtual_event};
    ghost use Rattle.tks_codec_events.specs.Virtuals.{virtual_event};

    ghost spelling = { λ events. virtual_event };

    ghost IsSound = { λ events v. is_virtual_event v ≡ true };

    #[tactic(auto, unfolding(crate::specs::Virtuals::virtual_event_at))]
    fn read<'a>(&self, alloc: Global, bytes: &'a [u8]) -> Result<(VirtualEvent, &'a [u8]), Unread> {
        virtual_event_of(alloc, bytes)
    }

    #[tactic(auto, unfolding(tks_spelling::specs::Writing::flattened))]
    fn put(&self, out: &mut Vec<u8>, event: &VirtualEvent) -> Result<(), AllocError> {
        put_parts(out, event)
    }

    #[tactic(auto, using(tks_spelling::proofs::Counting::lengths))]
    fn spelled_length(&self, event: &VirtualEvent) -> u64 {
        text_length(&event.name).saturating_add(list_length(&Sequences, event.sequences.as_slice()))
    }
}

// Virtual events by their names.
struct ByName;

impl Key<VirtualEvent> for ByName {
    ghost use Rattle.tks_bind.specs.WellFormed.{names_differ};
    ghost use Rattle.tks_spelling.specs.Spelling.{text};

    ghost differ = { λ key. names_differ };

    ghost bytes = { λ key v. text.write v.name };

    ghost IsTold = { λ key v. text.Legal v.name };

    fn put(&self, out: &mut Vec<u8>, event: &VirtualEvent) -> Result<(), AllocError> {
        put_text(out, &event.name)
    }
}

// Whether names differ.
fn are_virtuals(alloc: Global, events: &[VirtualEvent]) -> Result<bool, AllocError>
    ensures { IfOk result (λ b. b ≡ are_virtuals events.now) }
{
    all_differ(alloc, &ByName, events)
}

/// Virtual events.
#[tactic(auto, unfolding(crate::specs::Virtuals::virtuals_at))]
pub fn virtuals_of(alloc: Global, bytes: &[u8]) -> Result<(Virtuals, &[u8]), Unread>
    ensures { Gives (λ x. (x.0, x.1.now)) result (virtuals_at bytes.now) }
{
    let (events, rest) = list_of(alloc, VirtualMembers, bytes)?;
    if !are_virtuals(alloc, events.as_slice())? {
        return Err(Unread::Left(rest.len() + 1));
    }
    let virtuals = Virtuals::restore(alloc, events.into_items())?;
    Ok((virtuals, rest))
}

/// Adds virtual events.
pub fn put_virtuals(out: &mut Vec<u8>, virtuals: &Virtuals) -> Result<(), AllocError>
    ensures puts { PutsSo result out.old.items out.new.items (tables.virtuals.write virtuals.now) }
    ensures legal { OnOk result (tables.virtuals.Legal virtuals.now) }
{
    put_items(out, VirtualMembers, virtuals.events(), virtuals.len())
}

/// The length of the spelling of virtual events, in bytes.
pub fn virtuals_length(virtuals: &Virtuals) -> u64
    ensures { result ≡ counted (length (tables.virtuals.write virtuals.now)) }
{
    items_length(&VirtualMembers, virtuals.events())
}
