//! One virtual event.
ghost use Rattle.std.specs.Prelude.{◌≡◌, [], ◌∷◌, ◌++◌, IfOk};
ghost use Rattle.tks_bind.specs.VirtualEvents.{has_sequence, is_of_name, other_sequences};

use std::alloc::{AllocError, Global};
use tks_event::{Sequence, are_equal, is_virtual};
use tks_text::{Seq, Txt};

/// An event that scripts make up, and the sequences by which it is met as well.
#[derive(Drop)]
pub struct VirtualEvent {
    pub name: Txt,
    pub sequences: Seq<Sequence>,
}

impl VirtualEvent {
    /// The one of this name and these sequences, in order, so that it is made again from what it had.
    pub fn restore(
        alloc: Global,
        name: Txt,
        sequences: Vec<Sequence>,
    ) -> Result<VirtualEvent, AllocError>
        ensures { IfOk result (λ v. v ≡ record { name = name; sequences = sequences.items }) }
    {
        let mut kept = Seq::new(alloc);
        for sequence in sequences {
            kept.push(sequence)?;
        }
        Ok(VirtualEvent {
            name,
            sequences: kept,
        })
    }
}

/// Whether it is the sequence of a virtual event.
pub fn is_of_name(sequence: &Sequence) -> bool
    ensures { result ≡ is_of_name sequence.now }
{
    match sequence.as_slice() {
        [pattern, ..] => is_virtual(pattern.kind),
        [] => false,
    }
}

/// Whether a sequence is among others.
pub fn has_sequence(sequences: &[Sequence], sequence: &Sequence) -> bool
    ensures { result ≡ has_sequence sequence.now sequences.now }
{
    for found in sequences {
        if are_equal(found.as_slice(), sequence.as_slice()) {
            return true;
        }
    }
    false
}

// Equal sequences.
fn copied(alloc: Global, sequences: &[Sequence]) -> Result<Seq<Sequence>, AllocError>
    ensures { IfOk result (λ copy. copy ≡ sequences.now) }
{
    let mut copy = Seq::new(alloc);
    for sequence in sequences {
        copy.push(sequence.try_clone(alloc)?)?;
    }
    Ok(copy)
}

/// Equal sequences, and one more.
pub fn with_one_more(
    alloc: Global,
    sequences: &[Sequence],
    sequence: &Sequence,
) -> Result<Seq<Sequence>, AllocError>
    ensures { IfOk result (λ more. more ≡ sequences.now ++ sequence.now ∷ []) }
{
    let mut more = copied(alloc, sequences)?;
    more.push(sequence.try_clone(alloc)?)?;
    Ok(more)
}

/// The sequences but one.
pub fn others(
    alloc: Global,
    sequences: &[Sequence],
    sequence: &Sequence,
) -> Result<Seq<Sequence>, AllocError>
    ensures { IfOk result (λ left. left ≡ other_sequences sequence.now sequences.now) }
{
    let mut left = Seq::new(alloc);
    for found in sequences {
        if !are_equal(found.as_slice(), sequence.as_slice()) {
            left.push(found.try_clone(alloc)?)?;
        }
    }
    Ok(left)
}
