//! Keys that go down and up.
ghost use Rattle.std.specs.Prelude.{◌≡◌, true, IfOk, IfErr, OnErr};
ghost use Rattle.tks_event.specs.Kinds.{is_of_key};
ghost use Rattle.tks_event.specs.Keysyms.{is_keysym};
ghost use Rattle.tks_world.specs.Meets.{RefusedSo};
ghost use Rattle.tks_world.specs.Stepped.{Accepts};
ghost use Rattle.tks_world.specs.Keys.{key_event, key_step, key_press_step, key_release_step};

use crate::gestures::{Gesture, accept_gesture};
use std::alloc::{AllocError, Global};
use tks_event::{Event, EventFields, Held, Kind, is_keysym};
use tks_input::{Refused, Reply};
use tks_state::World;
use tks_text::{Limits, Txt};
use tks_tree::WindowId;

// The event of a key, which waits under `.`: a key goes to the window that has the focus when it is delivered.
#[tactic(auto, using(crate::proofs::Legal::key_legal))]
fn key_event(alloc: Global, world: &World, kind: Kind, key: &Txt) -> Result<Event, AllocError>
    requires kind { is_of_key kind ≡ true }
    requires key { is_keysym key.now ≡ true }
    ensures { IfOk result (λ e. e ≡ key_event kind key.now world.now) }
{
    Ok(Event::new(EventFields {
        window: WindowId::root().number(),
        kind,
        detail: key.try_clone()?,
        state: world.held().state(),
        time: world.clock(),
        x: 0,
        y: 0,
        root_x: 0,
        root_y: 0,
        payload: Txt::new(alloc),
    }))
}

// A key does this, and then so much is held.
fn step_key(
    alloc: Global,
    world: &mut World,
    kind: Kind,
    key: &Txt,
    held: Held,
    limits: &Limits,
) -> Result<Reply, Refused>
    requires { is_of_key kind ≡ true }
    ensures accepted { IfOk result (λ reply. key_step limits.now kind key.now held world.old ≡ Accepts world.new reply) }
    ensures refused { IfErr result (λ why. RefusedSo why (key_step limits.now kind key.now held world.old)) }
    ensures unchanged { OnErr result (world.new ≡ world.old) }
{
    if !is_keysym(key.as_bytes()) {
        return Err(Refused::BadInput);
    }
    let gesture = Gesture {
        event: key_event(alloc, world, kind, key)?,
        held,
        took: None,
    };
    let reply = accept_gesture(alloc, world, gesture, limits)?;
    Ok(reply)
}

/// A key goes down.
pub fn press_key(
    alloc: Global,
    world: &mut World,
    key: &Txt,
    limits: &Limits,
) -> Result<Reply, Refused>
    ensures accepted { IfOk result (λ reply. key_press_step limits.now key.now world.old ≡ Accepts world.new reply) }
    ensures refused { IfErr result (λ why. RefusedSo why (key_press_step limits.now key.now world.old)) }
    ensures unchanged { OnErr result (world.new ≡ world.old) }
{
    let mut held = world.held();
    held.press_key(key.as_bytes());
    let reply = step_key(alloc, world, Kind::KeyPress, key, held, limits)?;
    Ok(reply)
}

/// A key goes up.
pub fn release_key(
    alloc: Global,
    world: &mut World,
    key: &Txt,
    limits: &Limits,
) -> Result<Reply, Refused>
    ensures accepted { IfOk result (λ reply. key_release_step limits.now key.now world.old ≡ Accepts world.new reply) }
    ensures refused { IfErr result (λ why. RefusedSo why (key_release_step limits.now key.now world.old)) }
    ensures unchanged { OnErr result (world.new ≡ world.old) }
{
    let mut held = world.held();
    held.release_key(key.as_bytes());
    let reply = step_key(alloc, world, Kind::KeyRelease, key, held, limits)?;
    Ok(reply)
}
