//! What a key or a button that goes down or up does at once.
ghost use Rattle.std.specs.Prelude.{◌≡◌, IfOk, IfErr, OnErr};
ghost use Rattle.tks_world.specs.Meets.{RefusedSo, JoinsSo};
ghost use Rattle.tks_world.specs.Stepped.{Accepts};
ghost use Rattle.tks_world.specs.Gestures.{has_room, remembering, gesture_step};

use crate::counting::{is_full, keep};
use std::alloc::Global;
use tks_event::{Event, Held};
use tks_input::{Refused, Reply};
use tks_queue::Place;
use tks_state::World;
use tks_text::{Limits, fits};
use tks_tree::WindowId;

/// A key or a button that goes down or up.
#[derive(Drop)]
pub struct Gesture {
    /// The event that waits for it.
    pub event: Event,
    /// What is held down behind it.
    pub held: Held,
    /// The window that took it, if it is a press of a button.
    pub took: Option<WindowId>,
}

// Whether an event may join those that wait.
fn has_room(world: &World, event: &Event, limits: &Limits) -> bool
    ensures { result ≡ has_room limits.now event.now world.now }
{
    fits(&event.detail, limits) && world.queue().len() < limits.items as usize
}

// Puts an event behind all that wait, where there is room for it and for one input more.
fn join_queue(world: &mut World, event: Event, limits: &Limits) -> Result<(), Refused>
    ensures joins { JoinsSo limits.now event result world.old world.new }
    ensures unchanged { OnErr result (world.new ≡ world.old) }
{
    if !has_room(world, &event, limits) || is_full(world) {
        return Err(Refused::TooLarge);
    }
    world.put_event(Place::Tail, event)?;
    Ok(())
}

// Remembers the window that took a press.
fn remember_press(world: &mut World, took: Option<WindowId>)
    ensures { world.new ≡ remembering took world.old }
{
    if took.is_some() {
        world.set_pressed(took);
    }
}

/// Puts the event of a gesture behind all that wait, says what is held down behind it, and remembers a press.
#[tactic(auto, using(crate::proofs::Counts::left_by_counts))]
pub fn accept_gesture(
    alloc: Global,
    world: &mut World,
    gesture: Gesture,
    limits: &Limits,
) -> Result<Reply, Refused>
    ensures accepted { IfOk result (λ reply. gesture_step limits.now gesture world.old ≡ Accepts world.new reply) }
    ensures refused { IfErr result (λ why. RefusedSo why (gesture_step limits.now gesture world.old)) }
    ensures unchanged { OnErr result (world.new ≡ world.old) }
{
    let Gesture { event, held, took } = gesture;
    join_queue(world, event, limits)?;
    world.set_held(held);
    remember_press(world, took);
    Ok(keep(alloc, world))
}
