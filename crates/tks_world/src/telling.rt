//! What is told of a thing that a turn does.
ghost use Rattle.std.specs.Prelude.{◌≡◌, ◌++◌, decimal, IfOk, OnOk};
ghost use Rattle.tks_cmd.specs.Dispatch.{delivered};
ghost use Rattle.tks_world.specs.Telling.{kind_told, path_of, told};
ghost use Rattle.tks_world.specs.declared.things.Thing.TheVariants as thing;

use crate::things::Thing;
use itoa::Buffer;
use std::alloc::{AllocError, Global};
use tks_event::{Event, is_of_key, is_virtual};
use tks_state::World;
use tks_text::Txt;
use tks_tree::WindowId;

// What is told of the kind of an event: its name, or a virtual event's own in brackets.
#[tactic(auto, using(crate::proofs::Names::name_is_text))]
fn kind_told(alloc: Global, event: &Event) -> Result<Txt, AllocError>
    ensures { IfOk result (λ text. text ≡ kind_told event.now) }
{
    if is_virtual(event.kind) {
        let mut text = Txt::from_text(alloc, b"<<")?;
        text.append(&event.detail)?;
        text.append(&Txt::from_text(alloc, b">>")?)?;
        return Ok(text);
    }
    Txt::from_text(alloc, event.kind.name())
}

// The number of the window that an event is delivered to.
fn receiver(world: &World, event: &Event) -> WindowId
    ensures { result ≡ (delivered world.now event.now).window }
{
    if is_of_key(event.kind) {
        world.focus()
    } else {
        WindowId::of(event.window)
    }
}

// Adds the path of a window.
fn append_path(world: &World, window: WindowId, text: &mut Txt) -> Result<(), AllocError>
    ensures { OnOk result (text.new ≡ text.old ++ path_of world.now window) }
{
    if let Some(window) = world.tree().window(window) {
        text.append(window.path)?;
    }
    Ok(())
}

// What is told of an event.
fn event_told(alloc: Global, world: &World, event: &Event) -> Result<Txt, AllocError>
    ensures { IfOk result (λ text. text ≡ told world.now (thing.Event event.now)) }
{
    let mut text = Txt::from_text(alloc, b"event ")?;
    text.append(&kind_told(alloc, event)?)?;
    text.push_byte(b' ')?;
    append_path(world, receiver(world, event), &mut text)?;
    Ok(text)
}

// What is told of a script with its id, behind these words.
#[tactic(auto, using(crate::proofs::Names::count_is_text))]
fn script_told(alloc: Global, words: Txt, id: u64) -> Result<Txt, AllocError>
    ensures { IfOk result (λ text. text ≡ words ++ decimal id) }
{
    let mut digits = Buffer::new();
    let mut text = words;
    text.append(&Txt::from_text(alloc, digits.format(id).as_bytes())?)?;
    Ok(text)
}

/// What is told of a thing, before anything of it is done.
pub fn told(alloc: Global, world: &World, thing: &Thing) -> Result<Txt, AllocError>
    ensures { IfOk result (λ text. text ≡ told world.now thing.now) }
{
    match thing {
        Thing::Event(event) => event_told(alloc, world, event),
        Thing::Timer(id, _) => script_told(alloc, Txt::from_text(alloc, b"timer after#")?, *id),
        Thing::Idle(id, _) => script_told(alloc, Txt::from_text(alloc, b"idle after#")?, *id),
    }
}
