//! `bind` and `bindtags`.
ghost use Rattle.std.specs.Prelude.{◌≡◌, IfOk};
ghost use Rattle.tks_tcl.specs.Meets.{GivesSo};
ghost use Rattle.tks_list.specs.Quoting.{joined};
ghost use Rattle.tks_bind.specs.Binding.{script_for, spelled};
ghost use Rattle.tks_cmd.specs.Bindings.{tag_read, sequence_read, or_empty, script_fits, details_fit, bindings_within, bound_within, bind_does, tags_at, given_tags, tags_read, bindtags_does};
ghost use Rattle.tks_cmd.specs.Meets.{KeepsSo};

use crate::dispatch::tags_of;
use crate::packing::window_of;
use std::alloc::{AllocError, Global};
use tks_bind::BindFault;
use tks_event::{Sequence, parse_sequence};
use tks_limits::patterns_fit;
use tks_list::join;
use tks_state::World;
use tks_tcl::{Interrupt, list_in, wrong_words};
use tks_text::{Limits, Seq, Txt, begins_dot};
use tks_tree::WindowId;

// Whether scripts may be bound for a tag: one that begins with a dot must be the path of a window.
fn check_tag(world: &World, tag: &Txt) -> Result<(), Interrupt>
    ensures { GivesSo (λ x. x) result (tag_read world.now tag.now) }
{
    if begins_dot(tag.as_bytes()) {
        window_of(world, tag)?;
    }
    Ok(())
}

// The sequence that a text spells.
fn sequence_in(alloc: Global, text: &Txt) -> Result<Sequence, Interrupt>
    ensures { GivesSo (λ s. s) result (sequence_read text.now) }
{
    let sequence = parse_sequence(alloc, text)?;
    Ok(sequence)
}

// The list of the sequences of a tag.
fn sequences_text(alloc: Global, world: &World, tag: &Txt) -> Result<Txt, AllocError>
    ensures { IfOk result (λ t. t ≡ joined (spelled tag.now world.now.bindings.bindings)) }
{
    let sequences = world.bindings().sequences(tag)?;
    let text = join(alloc, sequences.as_slice())?;
    Ok(text)
}

// The script that a tag has for a sequence, or the empty text.
fn script_text(
    alloc: Global,
    world: &World,
    tag: &Txt,
    sequence: &Sequence,
) -> Result<Txt, AllocError>
    ensures { IfOk result (λ t. t ≡ or_empty (script_for tag.now sequence.now world.now.bindings.bindings)) }
{
    match world.bindings().script(tag, sequence) {
        Some(script) => script.try_clone(),
        None => Ok(Txt::new(alloc)),
    }
}

// Whether the script that is set passes no limit.
fn script_fits(world: &World, tag: &Txt, sequence: &Sequence, script: &Txt, limits: &Limits) -> bool
    ensures { result ≡ script_fits limits.now tag.now sequence.now script.now world.now.bindings }
{
    world.bindings().script_len(tag, sequence, script) <= limits.text as usize
}

// Whether the details of the sequence to which a script is set pass no limit.
fn details_fit(sequence: &Sequence, script: &Txt, limits: &Limits) -> bool
    ensures { result ≡ details_fit limits.now sequence.now script.now }
{
    script.is_empty() || patterns_fit(sequence.patterns(), limits)
}

// Whether the list of bindings passes no limit.
fn check_bindings(world: &World, limits: &Limits) -> Result<(), Interrupt>
    ensures { GivesSo (λ _. world.now) result (bindings_within limits.now world.now) }
{
    if world.bindings().len() <= limits.items as usize {
        Ok(())
    } else {
        Err(Interrupt::TooLarge)
    }
}

// Binds a script to a sequence; an empty one is taken away.
fn bind(
    world: &mut World,
    tag: &Txt,
    sequence: Sequence,
    script: &Txt,
    limits: &Limits,
) -> Result<(), Interrupt>
    ensures value { GivesSo (λ _. world.new) result (bound_within limits.now tag.now sequence script.now world.old) }
    ensures kept { KeepsSo result world.old world.new }
{
    if !details_fit(&sequence, script, limits)
        || !script_fits(world, tag, &sequence, script, limits)
    {
        return Err(Interrupt::TooLarge);
    }
    match world.bind(tag.try_clone()?, sequence, script) {
        Ok(()) => check_bindings(world, limits),
        Err(BindFault::OutOfNumbers) => Err(Interrupt::TooLarge),
        Err(BindFault::NoMemory) => Err(Interrupt::NoMemory),
    }
}

/// bind tag ?sequence? ?script?
#[tactic(auto, using(tks_tcl::proofs::Causes::tells))]
pub fn run_bind(
    alloc: Global,
    command: &Txt,
    words: &[Txt],
    world: &mut World,
    limits: &Limits,
) -> Result<Txt, Interrupt>
    ensures value { GivesSo (λ t. (t, world.new)) result (bind_does limits.now command.now words.now world.old) }
    ensures kept { KeepsSo result world.old world.new }
{
    match words {
        [tag] => {
            check_tag(world, tag)?;
            let text = sequences_text(alloc, world, tag)?;
            Ok(text)
        }
        [tag, sequence] => {
            check_tag(world, tag)?;
            let sequence = sequence_in(alloc, sequence)?;
            let text = script_text(alloc, world, tag, &sequence)?;
            Ok(text)
        }
        [tag, sequence, script] => {
            check_tag(world, tag)?;
            let sequence = sequence_in(alloc, sequence)?;
            bind(world, tag, sequence, script, limits)?;
            Ok(Txt::new(alloc))
        }
        _ => Err(wrong_words(command)),
    }
}

// The list of the tags of a window.
fn tags_text(alloc: Global, world: &World, window: WindowId) -> Result<Txt, AllocError>
    ensures { IfOk result (λ t. t ≡ joined (tags_at world.now window)) }
{
    let Some(window) = world.tree().window(window) else {
        return Ok(Txt::new(alloc));
    };
    let tags = tags_of(alloc, world, &window)?;
    let text = join(alloc, tags.as_slice())?;
    Ok(text)
}

// The list of tags that a text is, which passes no limit.
fn tags_in(alloc: Global, text: &Txt, limits: &Limits) -> Result<Seq<Txt>, Interrupt>
    ensures { GivesSo (λ tags. tags) result (tags_read limits.now text.now) }
{
    let tags = list_in(alloc, text)?;
    if tags.len() > limits.items as usize {
        return Err(Interrupt::TooLarge);
    }
    Ok(tags)
}

// The empty list stands for the tags that a window has where none were set.
fn given_tags(tags: Seq<Txt>) -> Option<Seq<Txt>>
    ensures { result ≡ given_tags tags }
{
    if tags.is_empty() { None } else { Some(tags) }
}

/// bindtags window ?list?
#[tactic(auto, using(tks_tcl::proofs::Causes::tells))]
pub fn run_bindtags(
    alloc: Global,
    command: &Txt,
    words: &[Txt],
    world: &mut World,
    limits: &Limits,
) -> Result<Txt, Interrupt>
    ensures value { GivesSo (λ t. (t, world.new)) result (bindtags_does limits.now command.now words.now world.old) }
    ensures kept { KeepsSo result world.old world.new }
{
    match words {
        [path] => {
            let window = window_of(world, path)?;
            let text = tags_text(alloc, world, window)?;
            Ok(text)
        }
        [path, list] => {
            let window = window_of(world, path)?;
            let tags = tags_in(alloc, list, limits)?;
            world.set_tags(window, given_tags(tags))?;
            Ok(Txt::new(alloc))
        }
        _ => Err(wrong_words(command)),
    }
}
