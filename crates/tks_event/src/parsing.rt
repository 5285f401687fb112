//! The sequence that a text spells, and the pattern that a text spells alone.
ghost use Rattle.std.specs.Prelude.{◌≡◌, ◌∷◌, [], drop, IfOk, true};
ghost use Rattle.std.specs.List.{prefix_len};
ghost use Rattle.std.specs.Option.{option_map};
ghost use Rattle.tks_text.specs.Fault.{Gives};
ghost use Rattle.tks_text.specs.Integer.{is_space};
ghost use Rattle.tks_text.specs.Text.{IsText};
ghost use Rattle.tks_event.specs.Reading.{is_blank_text, is_end, named_before, virtual_at, pattern_at, alone, pattern_of, one_pattern_of, patterns_in, sequence_of};
ghost use Rattle.tks_event.specs.Sequences.{is_name};
ghost use Rattle.tks_event.specs.Spelling.{virtual_one};
ghost use Rattle.tks_event.specs.View.{bytes_seen, kept, none_kept, kept_after, SpellsSo, SpellsPatternSo};

use crate::collected::{Collected, pattern_of};
use crate::kind::Kind;
use crate::modifiers::Modifiers;
use crate::pattern::{Pattern, Repeated};
use crate::reading::{read_pattern, read_virtual};
use crate::sequence::Sequence;
use smallvec::SmallVec;
use std::alloc::{AllocError, Global};
use tks_text::{ErrorNumber, Failure, Txt, is_space, space_len};

// What stands behind the white space that the text begins with.
fn behind_spaces(text: &[u8]) -> &[u8]
    ensures { result.now ≡ drop (prefix_len is_space text.now) text.now }
{
    text.split_at(space_len(text)).1
}

// The patterns of physical events that a text is. `None` where it is something else.
fn read_patterns(alloc: Global, text: &[u8]) -> Result<Option<Collected>, AllocError>
    requires { IsText text.now }
    ensures { IfOk result (λ o. option_map kept o ≡ kept_after none_kept (patterns_in text.now)) }
{
    let mut found = Collected::new(alloc);
    let mut rest = behind_spaces(text);
    'patterns: while let Some((written, behind)) = read_pattern(rest) {
        found.add(alloc, &written)?;
        rest = behind_spaces(behind);
    }
    if !rest.is_empty() {
        return Ok(None);
    }
    Ok(Some(found))
}

// The name of the virtual event that a text spells, with white space behind it.
fn name_of(text: &[u8]) -> Option<&[u8]>
    ensures { bytes_seen result ≡ named_before is_blank_text (virtual_at text.now) }
{
    let (name, rest) = read_virtual(text)?;
    if !is_blank_text(rest) {
        return None;
    }
    Some(name)
}

// Whether there is nothing but white space.
fn is_blank_text(text: &[u8]) -> bool
    ensures { result ≡ is_blank_text text.now }
{
    text.iter().all(|c| is_space(*c))
}

// The pattern of a virtual event.
fn virtual_one(alloc: Global, name: &[u8]) -> Result<Pattern, AllocError>
    requires { IsText name.now }
    ensures { IfOk result (λ p. p ≡ virtual_one name.now) }
{
    Ok(Pattern {
        near: false,
        kind: Kind::Virtual,
        modifiers: Modifiers::none(),
        detail: Txt::from_text(alloc, name)?,
    })
}

// The sequence of a virtual event alone.
#[tactic(auto, using(crate::proofs::Answering::named_legal, crate::proofs::Answering::name_text))]
fn virtual_sequence(alloc: Global, name: &[u8]) -> Result<Sequence, AllocError>
    requires { is_name name.now ≡ true }
    ensures { IfOk result (λ s. s ≡ virtual_one name.now ∷ []) }
{
    let pattern = virtual_one(alloc, name)?;
    let mut patterns = SmallVec::new(alloc);
    patterns.push(pattern)?;
    Ok(Sequence { patterns })
}

// The sequence that a text spells, up to the most events.
fn read_sequence(alloc: Global, text: &Txt) -> Result<Sequence, Failure>
    ensures { Gives (λ s. s) result (sequence_of text.now) }
{
    let bytes = text.as_bytes();
    if let Some(name) = name_of(behind_spaces(bytes)) {
        let sequence = virtual_sequence(alloc, name)?;
        return Ok(sequence);
    }
    let Some(found) = read_patterns(alloc, bytes)? else {
        return Err(Failure::about(ErrorNumber::BadSequence, text));
    };
    if found.is_too_long {
        return Err(Failure::about(ErrorNumber::TooManyEvents, text));
    }
    if found.patterns.is_empty() {
        return Err(Failure::about(ErrorNumber::BadSequence, text));
    }
    Ok(Sequence {
        patterns: found.patterns,
    })
}

/// The sequence that a text spells: one or more patterns with white space around them, or that of a virtual event
/// alone. `TooManyEvents` where it spells one of more than eight events, repeats counted; `BadSequence` where it spells
/// none. Both are about the whole text.
#[tactic(auto, using(crate::proofs::Answering::sequence_so))]
pub fn parse_sequence(alloc: Global, text: &Txt) -> Result<Sequence, Failure>
    ensures value { Gives (λ s. s) result (sequence_of text.now) }
    ensures spells { SpellsSo result text.now }
{
    read_sequence(alloc, text)
}

// The name of the virtual event that a text spells, with nothing behind it.
fn name_alone(text: &[u8]) -> Option<&[u8]>
    ensures { bytes_seen result ≡ named_before is_end (virtual_at text.now) }
{
    let (name, rest) = read_virtual(text)?;
    match rest {
        [] => Some(name),
        _ => None,
    }
}

// The pattern of physical events that a text is, with nothing behind it.
fn pattern_alone(alloc: Global, text: &[u8]) -> Result<Option<Repeated>, AllocError>
    requires { IsText text.now }
    ensures { IfOk result (λ o. o ≡ alone (pattern_at text.now)) }
{
    let Some((written, behind)) = read_pattern(text) else {
        return Ok(None);
    };
    if !behind.is_empty() {
        return Ok(None);
    }
    let pattern = pattern_of(alloc, &written, false)?;
    let times = written.times;
    Ok(Some(Repeated { pattern, times }))
}

// The pattern that a text spells alone. `None` where it spells none.
#[tactic(auto, unfolding(crate::specs::Reading::pattern_of))]
fn read_one(alloc: Global, text: &[u8]) -> Result<Option<Repeated>, AllocError>
    requires { IsText text.now }
    ensures { IfOk result (λ o. o ≡ pattern_of text.now) }
{
    if let Some(name) = name_alone(text) {
        let pattern = virtual_one(alloc, name)?;
        return Ok(Some(Repeated { pattern, times: 1 }));
    }
    let found = pattern_alone(alloc, text)?;
    Ok(found)
}

// The same, and the error where there is none.
#[tactic(auto, unfolding(crate::specs::Reading::one_pattern_of))]
fn read_alone(alloc: Global, text: &Txt) -> Result<Repeated, Failure>
    ensures { Gives (λ r. r) result (one_pattern_of text.now) }
{
    let Some(pattern) = read_one(alloc, text.as_bytes())? else {
        return Err(Failure::about(ErrorNumber::BadSequence, text));
    };
    Ok(pattern)
}

/// The pattern that a text spells alone, without white space around it, and how often its repeat word lets it come.
/// `BadSequence`, about the whole text, where it spells none.
#[tactic(auto, using(crate::proofs::Answering::pattern_so))]
pub fn parse_pattern(alloc: Global, text: &Txt) -> Result<Repeated, Failure>
    ensures value { Gives (λ r. r) result (one_pattern_of text.now) }
    ensures spells { SpellsPatternSo result text.now }
{
    read_alone(alloc, text)
}
