//! `event add`, `event delete` and `event info`.
ghost use Rattle.std.specs.Prelude.{◌≡◌, IfOk, OnOk};
ghost use Rattle.tks_tcl.specs.Cause.{about};
ghost use Rattle.tks_tcl.specs.Meets.{GivesSo, TellsSo};
ghost use Rattle.tks_event.specs.Canonical.{virtual_text};
ghost use Rattle.tks_cmd.specs.VirtualEvents.{name_in, name_read, physical_in, physical_read, all_read, with_all, virtuals_within, added, add_does, without_all, deleted, delete_does, names, spelled, names_text, sequences_text, info_does};
ghost use Rattle.tks_cmd.specs.Meets.{KeepsSo};
ghost use Rattle.tks_limits.specs.Within.{sequences_fit};

use std::alloc::{AllocError, Global};
use tks_bind::{PhysicalSequence, Virtuals};
use tks_event::{Repeated, Sequence, VirtualName, is_virtual, parse_pattern, parse_sequence};
use tks_limits::patterns_fit;
use tks_list::join;
use tks_state::World;
use tks_tcl::{Interrupt, error_about, wrong_words};
use tks_text::{ErrorNumber, Limits, Seq, Txt};

// The error about a text that is no sequence where one is wanted.
fn bad_sequence(text: &Txt) -> Interrupt
    ensures { TellsSo (about ErrorNumber.BadSequence text.now) result }
{
    error_about(ErrorNumber::BadSequence, text)
}

// The name of a virtual event, where the pattern is one.
#[tactic(auto, using(tks_tcl::proofs::Causes::tells))]
fn name_in(text: &Txt, repeated: Repeated) -> Result<Txt, Interrupt>
    ensures { GivesSo (λ t. t) result (name_in text.now repeated) }
{
    if is_virtual(repeated.pattern.kind) {
        Ok(repeated.pattern.detail)
    } else {
        Err(bad_sequence(text))
    }
}

// The name that a text has between double brackets.
fn name_read(alloc: Global, text: &Txt) -> Result<VirtualName, Interrupt>
    ensures { GivesSo (λ name. name) result (name_read text.now) }
{
    let repeated = parse_pattern(alloc, text)?;
    let name = name_in(text, repeated)?;
    Ok(VirtualName::new(name))
}

// The sequence of physical events that a text spells.
#[tactic(auto, using(tks_tcl::proofs::Causes::tells))]
fn physical_read(alloc: Global, text: &Txt) -> Result<PhysicalSequence, Interrupt>
    ensures { GivesSo (λ s. s) result (physical_read text.now) }
{
    let sequence = parse_sequence(alloc, text)?;
    match PhysicalSequence::of(sequence) {
        Some(sequence) => Ok(sequence),
        None => Err(bad_sequence(text)),
    }
}

// Those of texts, in order.
#[tactic(auto, using(crate::proofs::Each::begins, crate::proofs::Each::ends, crate::proofs::Each::goes, crate::proofs::Each::fails))]
fn all_read(alloc: Global, texts: &[Txt]) -> Result<Seq<PhysicalSequence>, Interrupt>
    ensures { GivesSo (λ sequences. sequences) result (all_read texts.now) }
{
    let mut sequences = Seq::new(alloc);
    for text in texts {
        sequences.push(physical_read(alloc, text)?)?;
    }
    Ok(sequences)
}

// Adds sequences to a virtual event, one after the other.
fn add_all(
    world: &mut World,
    name: &VirtualName,
    sequences: &[PhysicalSequence],
) -> Result<(), AllocError>
    ensures { OnOk result (world.new ≡ with_all name.now sequences.now world.old) }
{
    for sequence in sequences {
        world.add_virtual(name, sequence)?;
    }
    Ok(())
}

// Whether the details of sequences pass no limit.
fn details_fit(sequences: &[PhysicalSequence], limits: &Limits) -> bool
    ensures { result ≡ sequences_fit limits.now sequences.now }
{
    for sequence in sequences {
        if !patterns_fit(sequence.sequence().patterns(), limits) {
            return false;
        }
    }
    true
}

// Whether neither the list of virtual events nor that of the sequences of one passes a limit.
fn check_virtuals(world: &World, name: &Txt, limits: &Limits) -> Result<(), Interrupt>
    ensures { GivesSo (λ _. world.now) result (virtuals_within limits.now name.now world.now) }
{
    let virtuals = world.virtuals();
    let most = limits.items as usize;
    if virtuals.len() <= most && virtuals.sequences(name).len() <= most {
        Ok(())
    } else {
        Err(Interrupt::TooLarge)
    }
}

// Adds sequences to the virtual event of a name.
fn add(
    alloc: Global,
    name: &Txt,
    texts: &[Txt],
    world: &mut World,
    limits: &Limits,
) -> Result<(), Interrupt>
    ensures value { GivesSo (λ _. world.new) result (added limits.now name.now texts.now world.old) }
    ensures kept { KeepsSo result world.old world.new }
{
    let name = name_read(alloc, name)?;
    let sequences = all_read(alloc, texts)?;
    if !details_fit(sequences.as_slice(), limits) {
        return Err(Interrupt::TooLarge);
    }
    add_all(world, &name, sequences.as_slice())?;
    check_virtuals(world, name.text(), limits)
}

/// event add name sequence ..
#[tactic(auto, using(tks_tcl::proofs::Causes::tells))]
pub fn run_add(
    alloc: Global,
    command: &Txt,
    words: &[Txt],
    world: &mut World,
    limits: &Limits,
) -> Result<Txt, Interrupt>
    ensures value { GivesSo (λ t. (t, world.new)) result (add_does limits.now command.now words.now world.old) }
    ensures kept { KeepsSo result world.old world.new }
{
    let Some((name, texts)) = words.split_first() else {
        return Err(wrong_words(command));
    };
    if texts.is_empty() {
        return Err(wrong_words(command));
    }
    add(alloc, name, texts, world, limits)?;
    Ok(Txt::new(alloc))
}

// Takes sequences of a virtual event away.
fn remove_all(
    world: &mut World,
    name: &Txt,
    sequences: &[PhysicalSequence],
) -> Result<(), AllocError>
    ensures { OnOk result (world.new ≡ without_all name.now sequences.now world.old) }
{
    for sequence in sequences {
        world.remove_virtual_sequence(name, sequence.sequence())?;
    }
    Ok(())
}

// Takes all sequences of the virtual event of a name away, or those that are given.
fn delete(alloc: Global, name: &Txt, texts: &[Txt], world: &mut World) -> Result<(), Interrupt>
    ensures value { GivesSo (λ _. world.new) result (deleted name.now texts.now world.old) }
    ensures kept { KeepsSo result world.old world.new }
{
    let name = name_read(alloc, name)?;
    if texts.is_empty() {
        world.remove_virtual(name.text())?;
        return Ok(());
    }
    let sequences = all_read(alloc, texts)?;
    remove_all(world, name.text(), sequences.as_slice())?;
    Ok(())
}

/// event delete name ?sequence ..?
#[tactic(auto, using(tks_tcl::proofs::Causes::tells))]
pub fn run_delete(
    alloc: Global,
    command: &Txt,
    words: &[Txt],
    world: &mut World,
) -> Result<Txt, Interrupt>
    ensures value { GivesSo (λ t. (t, world.new)) result (delete_does command.now words.now world.old) }
    ensures kept { KeepsSo result world.old world.new }
{
    let Some((name, texts)) = words.split_first() else {
        return Err(wrong_words(command));
    };
    delete(alloc, name, texts, world)?;
    Ok(Txt::new(alloc))
}

// A name in double brackets.
fn bracketed(alloc: Global, name: &Txt) -> Result<Txt, AllocError>
    ensures { IfOk result (λ t. t ≡ virtual_text name.now) }
{
    let mut text = Txt::from_text(alloc, b"<<")?;
    text.append(name)?;
    text.append(&Txt::from_text(alloc, b">>")?)?;
    Ok(text)
}

// The virtual events, by their names in double brackets.
fn names(alloc: Global, virtuals: &Virtuals) -> Result<Seq<Txt>, AllocError>
    ensures { IfOk result (λ l. l ≡ names virtuals.now) }
{
    let mut names = Seq::new(alloc);
    for event in virtuals.events() {
        names.push(bracketed(alloc, &event.name)?)?;
    }
    Ok(names)
}

// Sequences in canonical spelling.
fn spelled(alloc: Global, sequences: &[Sequence]) -> Result<Seq<Txt>, AllocError>
    ensures { IfOk result (λ l. l ≡ spelled sequences.now) }
{
    let mut texts = Seq::new(alloc);
    for sequence in sequences {
        texts.push(sequence.canonical(alloc)?)?;
    }
    Ok(texts)
}

// The list of the virtual events.
fn names_text(alloc: Global, world: &World) -> Result<Txt, AllocError>
    ensures { IfOk result (λ t. t ≡ names_text world.now.virtuals) }
{
    let names = names(alloc, world.virtuals())?;
    let text = join(alloc, names.as_slice())?;
    Ok(text)
}

// The list of the sequences of one.
fn sequences_text(alloc: Global, world: &World, name: &Txt) -> Result<Txt, AllocError>
    ensures { IfOk result (λ t. t ≡ sequences_text name.now world.now.virtuals) }
{
    let sequences = spelled(alloc, world.virtuals().sequences(name))?;
    let text = join(alloc, sequences.as_slice())?;
    Ok(text)
}

/// event info ?name?
#[tactic(auto, using(tks_tcl::proofs::Causes::tells))]
pub fn run_info(
    alloc: Global,
    command: &Txt,
    words: &[Txt],
    world: &World,
) -> Result<Txt, Interrupt>
    ensures { GivesSo (λ t. (t, world.now)) result (info_does command.now words.now world.now) }
{
    match words {
        [] => {
            let text = names_text(alloc, world)?;
            Ok(text)
        }
        [name] => {
            let name = name_read(alloc, name)?;
            let text = sequences_text(alloc, world, name.text())?;
            Ok(text)
        }
        _ => Err(wrong_words(command)),
    }
}
