//! Which of the things that wait is done next, and what it wants done.
ghost use Rattle.std.specs.Prelude.{◌≡◌, None, IfOk};
ghost use Rattle.std.specs.Bool.{Decides};
ghost use Rattle.tks_timer.specs.After.{due_at, first_idle};
ghost use Rattle.tks_cmd.specs.Meets.{LimitsSo};
ghost use Rattle.tks_world.specs.Hosting.{stripped};
ghost use Rattle.tks_world.specs.Things.{timer_or_idle, idle_or_none, next_thing, next_due, planned};
ghost use Rattle.tks_world.specs.Meets.{TakenSo};

use std::alloc::{AllocError, Global};
use tks_cmd::begin;
use tks_eval::{Due, Plan};
use tks_event::Event;
use tks_state::World;
use tks_tcl::Stop;
use tks_text::{Limits, Txt};

/// What waits, and is done by a turn or by `update`.
#[derive(Drop)]
pub enum Thing {
    /// An event is delivered.
    Event(Event),
    /// A script runs whose time has come. It has this id.
    Timer(u64, Txt),
    /// A script runs that waited for nothing else to be done. It has this id.
    Idle(u64, Txt),
}

/// Whether there is nothing to do.
pub fn is_quiet(world: &World) -> bool
    ensures { Decides result (next_thing (stripped world.now) ≡ None) }
{
    world.queue().len() == 0
        && world.timers().due(world.clock()).is_none()
        && world.timers().oldest_idle().is_none()
}

// Takes out the oldest idle script, if there is one.
fn take_idle(world: &mut World) -> Result<Option<Thing>, AllocError>
    ensures { IfOk result (λ thing. TakenSo (idle_or_none (first_idle world.old.timers.idles) world.old) thing world.old world.new) }
{
    let Some(id) = world.timers().oldest_idle() else {
        return Ok(None);
    };
    match world.take_script(id)? {
        Some(script) => Ok(Some(Thing::Idle(id, script))),
        None => Ok(None),
    }
}

// Takes out the script that is due first, or else the oldest idle script.
fn take_script(world: &mut World) -> Result<Option<Thing>, AllocError>
    ensures { IfOk result (λ thing. TakenSo (timer_or_idle (due_at world.old.clock world.old.timers) world.old) thing world.old world.new) }
{
    let Some(id) = world.timers().due(world.clock()) else {
        let idle = take_idle(world)?;
        return Ok(idle);
    };
    match world.take_script(id)? {
        Some(script) => Ok(Some(Thing::Timer(id, script))),
        None => Ok(None),
    }
}

// Takes out what a turn does next, if there is anything to do.
fn take_thing(world: &mut World) -> Result<Option<Thing>, AllocError>
    ensures { IfOk result (λ thing. TakenSo (next_thing world.old) thing world.old world.new) }
{
    match world.take_event()? {
        Some(event) => Ok(Some(Thing::Event(event))),
        None => {
            let script = take_script(world)?;
            Ok(script)
        }
    }
}

/// Takes out the next of the things that are meant, if there is one.
pub fn take_due(world: &mut World, due: Due) -> Result<Option<Thing>, AllocError>
    ensures { IfOk result (λ thing. TakenSo (next_due due world.old) thing world.old world.new) }
{
    match due {
        Due::All => {
            let thing = take_thing(world)?;
            Ok(thing)
        }
        Due::Idle => {
            let thing = take_idle(world)?;
            Ok(thing)
        }
    }
}

/// What a thing wants done that was taken out: an event is delivered, a script runs at global level.
pub fn planned(
    alloc: Global,
    world: &mut World,
    thing: Thing,
    limits: &Limits,
) -> Result<Plan, Stop>
    ensures { LimitsSo (λ p. (p, world.new)) result (planned limits.now thing world.old) }
{
    match thing {
        Thing::Event(event) => {
            let plan = begin(alloc, world, event, limits)?;
            Ok(plan)
        }
        Thing::Timer(_, script) | Thing::Idle(_, script) => Ok(Plan::Eval(script)),
    }
}
