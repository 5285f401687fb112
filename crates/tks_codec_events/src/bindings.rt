//! Bindings.
ghost use Rattle.std.specs.Prelude.{◌≡◌, ◌≤◌, ◌^◌, length, nat_lt, None, IfOk, OnOk};
ghost use Rattle.std.specs.List.{list_all};
ghost use Rattle.tks_bind.specs.Distinct.{all_differ};
ghost use Rattle.tks_bind.specs.WellFormed.{differ, are_bindings};
ghost use Rattle.tks_spelling.specs.Reading.{Gives};
ghost use Rattle.tks_spelling.specs.Writing.{PutsSo, flattened};
ghost use Rattle.tks_spelling.specs.Lengths.{counted};
ghost use Rattle.tks_codec_events.specs.Bindings as tables;
ghost use Rattle.tks_codec_events.specs.Bindings.{binding_at, binding_parts, bindings_at};

use crate::distinct::{Key, all_differ};
use crate::sequence::{put_sequence, sequence_length, sequence_of};
use std::alloc::{AllocError, Global};
use tks_bind::{Binding, Bindings};
use tks_spelling::reading::{text_of, u64_of};
use tks_spelling::writing::{put_text, put_u64};
use tks_spelling::{Members, Unread, items_length, list_of, put_items, text_length};

// A binding.
#[tactic(auto, unfolding(crate::specs::Bindings::binding_at, crate::specs::Sequence::sequence_at))]
fn binding_of(alloc: Global, bytes: &[u8]) -> Result<(Binding, &[u8]), Unread>
    ensures { Gives (λ x. (x.0, x.1.now)) result (binding_at bytes.now) }
{
    let (number, rest) = u64_of(bytes)?;
    let (tag, rest) = text_of(alloc, rest)?;
    let (sequence, rest) = sequence_of(alloc, rest)?;
    let (script, rest) = text_of(alloc, rest)?;
    let binding = Binding {
        number,
        tag,
        sequence,
        script,
    };
    Ok((binding, rest))
}

// Adds the parts of a binding.
#[tactic(auto, using(tks_spelling::proofs::Puts::flattened_puts))]
fn put_parts(out: &mut Vec<u8>, binding: &Binding) -> Result<(), AllocError>
    ensures puts { PutsSo result out.old.items out.new.items (flattened (binding_parts binding.now)) }
    ensures legal { OnOk result (tables.binding.Legal binding.now) }
{
    put_u64(out, binding.number)?;
    put_text(out, &binding.tag)?;
    put_sequence(out, &binding.sequence)?;
    put_text(out, &binding.script)
}

/// Bindings.
#[derive(Clone, Copy)]
pub struct BindingMembers;

impl Members<Binding> for BindingMembers {
    ghost use Rattle.tks_codec_events.specs.Bindings.{binding};

    ghost spelling = { λ bindings. binding };

    ghost IsSound = { λ bindings b. Unit {0} };

    #[tactic(auto, unfolding(crate::specs::Bindings::binding_at))]
    fn read<'a>(&self, alloc: Global, bytes: &'a [u8]) -> Result<(Binding, &'a [u8]), Unread> {
        binding_of(alloc, bytes)
    }

    #[tactic(auto, unfolding(tks_spelling::specs::Writing::flattened))]
    fn put(&self, out: &mut Vec<u8>, binding: &Binding) -> Result<(), AllocError> {
        put_parts(out, binding)
    }

    #[tactic(auto, using(tks_spelling::proofs::Counting::lengths))]
    fn spelled_length(&self, binding: &Binding) -> u64 {
        text_length(&binding.tag)
            .saturating_add(sequence_length(&binding.sequence))
            .saturating_add(text_length(&binding.script))
            .saturating_add(8)
    }
}

// Bindings by their numbers.
struct ByNumber;

impl Key<Binding> for ByNumber {
    ghost use Rattle.std.specs.Int.{w64};
    ghost use Rattle.tks_spelling.specs.Spelling.{number};
    ghost use Rattle.tks_codec_events.specs.Bindings.{numbers_differ};

    ghost differ = { λ key. numbers_differ };

    ghost bytes = { λ key b. (number w64).write b.number };

    ghost IsTold = { λ key b. (number w64).Legal b.number };

    fn put(&self, out: &mut Vec<u8>, binding: &Binding) -> Result<(), AllocError> {
        put_u64(out, binding.number)
    }
}

// Bindings by their tags and sequences.
struct ByTagAndSequence;

impl Key<Binding> for ByTagAndSequence {
    ghost use Rattle.tks_codec_events.specs.Bindings.{tag_and_sequence, tags_or_sequences_differ};

    ghost differ = { λ key. tags_or_sequences_differ };

    ghost bytes = { λ key b. tag_and_sequence.write (b.tag, b.sequence) };

    ghost IsTold = { λ key b. tag_and_sequence.Legal (b.tag, b.sequence) };

    fn put(&self, out: &mut Vec<u8>, binding: &Binding) -> Result<(), AllocError> {
        put_text(out, &binding.tag)?;
        put_sequence(out, &binding.sequence)
    }
}

// Whether numbers are below the next one.
fn are_below(bindings: &[Binding], next: u64) -> bool
    ensures { result ≡ list_all (λ b. nat_lt b.number next) bindings.now }
{
    bindings.iter().all(|binding| binding.number < next)
}

// Whether bindings differ in their numbers, and in their tags or their sequences.
fn bindings_differ(alloc: Global, bindings: &[Binding]) -> Result<bool, AllocError>
    ensures { IfOk result (λ b. b ≡ all_differ differ bindings.now) }
{
    Ok(all_differ(alloc, &ByNumber, bindings)? && all_differ(alloc, &ByTagAndSequence, bindings)?)
}

// Whether numbers are below the next one, and bindings differ.
fn are_bindings(alloc: Global, bindings: &[Binding], next: u64) -> Result<bool, AllocError>
    ensures { IfOk result (λ b. b ≡ are_bindings next bindings.now) }
{
    Ok(are_below(bindings, next) && bindings_differ(alloc, bindings)?)
}

/// Bindings with this next number.
#[tactic(auto, unfolding(crate::specs::Bindings::bindings_at))]
pub fn bindings_of(alloc: Global, next: u64, bytes: &[u8]) -> Result<(Bindings, &[u8]), Unread>
    requires { next ≤ 2 ^ 62 }
    ensures reads { Gives (λ x. (x.0.bindings, x.1.now)) result (bindings_at next bytes.now) }
    ensures next { IfOk result (λ x. x.0.next ≡ next) }
{
    let (bindings, rest) = list_of(alloc, BindingMembers, bytes)?;
    if !are_bindings(alloc, bindings.as_slice(), next)? {
        return Err(Unread::Left(rest.len() + 1));
    }
    let bindings = Bindings::restore(alloc, bindings.into_items(), next)?;
    Ok((bindings, rest))
}

/// Adds bindings, but not the next number.
pub fn put_bindings(out: &mut Vec<u8>, bindings: &Bindings) -> Result<(), AllocError>
    ensures puts { PutsSo result out.old.items out.new.items ((tables.bindings bindings.now.next).write bindings.now.bindings) }
    ensures legal { OnOk result ((tables.bindings bindings.now.next).Legal bindings.now.bindings) }
{
    // What holds of all bindings is asked for here.
    let _ = bindings.next();
    put_items(out, BindingMembers, bindings.bindings(), bindings.len())
}

/// The length of the spelling of bindings, in bytes.
pub fn bindings_length(bindings: &Bindings) -> u64
    ensures { result ≡ counted (length ((tables.bindings bindings.now.next).write bindings.now.bindings)) }
{
    items_length(&BindingMembers, bindings.bindings())
}
