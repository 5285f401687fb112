//! Patterns and sequences of events.
ghost use Rattle.std.specs.Prelude.{◌≡◌, length, OnOk};
ghost use Rattle.tks_spelling.specs.Reading.{Gives};
ghost use Rattle.tks_spelling.specs.Writing.{PutsSo, flattened};
ghost use Rattle.tks_spelling.specs.Lengths.{counted};
ghost use Rattle.tks_codec_events.specs.Sequence as sequences;
ghost use Rattle.tks_codec_events.specs.Sequence.{pattern, pattern_at, pattern_parts, sequence_at};

use crate::kind::{kind_of, put_kind};
use std::alloc::{AllocError, Global};
use tks_event::{Modifiers, Pattern, Sequence};
use tks_spelling::reading::{flag_of, text_of, u16_of};
use tks_spelling::writing::{put_flag, put_text, put_u16};
use tks_spelling::{Members, Unread, list_length, list_of, put_list, text_length};

// A pattern.
#[tactic(auto, unfolding(crate::specs::Sequence::pattern_at))]
fn pattern_of(alloc: Global, bytes: &[u8]) -> Result<(Pattern, &[u8]), Unread>
    ensures { Gives (λ x. (x.0, x.1.now)) result (pattern_at bytes.now) }
{
    let (near, rest) = flag_of(bytes)?;
    let (kind, rest) = kind_of(rest)?;
    let (bits, rest) = u16_of(rest)?;
    let Some(modifiers) = Modifiers::from_bits(bits) else {
        return Err(Unread::Left(rest.len() + 1));
    };
    let (detail, rest) = text_of(alloc, rest)?;
    let pattern = Pattern {
        near,
        kind,
        modifiers,
        detail,
    };
    Ok((pattern, rest))
}

/// A sequence.
#[tactic(auto, unfolding(crate::specs::Sequence::sequence_at))]
pub fn sequence_of(alloc: Global, bytes: &[u8]) -> Result<(Sequence, &[u8]), Unread>
    ensures { Gives (λ x. (x.0, x.1.now)) result (sequence_at bytes.now) }
{
    let (patterns, rest) = list_of(alloc, Patterns, bytes)?;
    match Sequence::restore(patterns.into_items()) {
        Some(sequence) => Ok((sequence, rest)),
        None => Err(Unread::Left(rest.len() + 1)),
    }
}

// Adds the parts of a pattern.
#[tactic(auto, using(tks_spelling::proofs::Puts::flattened_puts, crate::proofs::Sequencing::pattern_legal))]
fn put_parts(out: &mut Vec<u8>, pattern: &Pattern) -> Result<(), AllocError>
    ensures puts { PutsSo result out.old.items out.new.items (flattened (pattern_parts pattern.now)) }
    ensures legal { OnOk result (sequences.pattern.Legal pattern.now) }
{
    put_flag(out, pattern.near)?;
    put_kind(out, pattern.kind)?;
    put_u16(out, pattern.modifiers.bits())?;
    put_text(out, &pattern.detail)
}

/// Patterns.
#[derive(Clone, Copy)]
pub struct Patterns;

impl Members<Pattern> for Patterns {
    ghost use Rattle.tks_codec_events.specs.Sequence.{pattern};

    ghost spelling = { λ patterns. pattern };

    ghost IsSound = { λ patterns p. Unit {0} };

    #[tactic(auto, unfolding(crate::specs::Sequence::pattern_at))]
    fn read<'a>(&self, alloc: Global, bytes: &'a [u8]) -> Result<(Pattern, &'a [u8]), Unread> {
        pattern_of(alloc, bytes)
    }

    #[tactic(auto, unfolding(tks_spelling::specs::Writing::flattened))]
    fn put(&self, out: &mut Vec<u8>, pattern: &Pattern) -> Result<(), AllocError> {
        put_parts(out, pattern)
    }

    #[tactic(auto, using(tks_spelling::proofs::Counting::lengths))]
    fn spelled_length(&self, pattern: &Pattern) -> u64 {
        text_length(&pattern.detail).saturating_add(4)
    }
}

/// Adds a sequence.
pub fn put_sequence(out: &mut Vec<u8>, sequence: &Sequence) -> Result<(), AllocError>
    ensures puts { PutsSo result out.old.items out.new.items (sequences.sequence.write sequence.now) }
    ensures legal { OnOk result (sequences.sequence.Legal sequence.now) }
{
    put_list(out, Patterns, sequence.patterns())
}

/// The length of a sequence's spelling, in bytes.
pub(crate) fn sequence_length(sequence: &Sequence) -> u64
    ensures { result ≡ counted (length (sequences.sequence.write sequence.now)) }
{
    list_length(&Patterns, sequence.patterns())
}

/// Sequences.
#[derive(Clone, Copy)]
pub struct Sequences;

impl Members<Sequence> for Sequences {
    ghost use Rattle.tks_codec_events.specs.Sequence.{sequence};

    ghost spelling = { λ sequences. sequence };

    ghost IsSound = { λ sequences s. Unit {0} };

    #[tactic(auto, unfolding(crate::specs::Sequence::sequence_at))]
    fn read<'a>(&self, alloc: Global, bytes: &'a [u8]) -> Result<(Sequence, &'a [u8]), Unread> {
        sequence_of(alloc, bytes)
    }

    fn put(&self, out: &mut Vec<u8>, sequence: &Sequence) -> Result<(), AllocError> {
        put_sequence(out, sequence)
    }

    fn spelled_length(&self, sequence: &Sequence) -> u64 {
        sequence_length(sequence)
    }
}
