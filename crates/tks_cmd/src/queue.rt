//! Events that are put into the queue.
ghost use Rattle.std.specs.Prelude.{◌≡◌};
ghost use Rattle.tks_tcl.specs.Meets.{GivesSo};
ghost use Rattle.tks_cmd.specs.Queue.{queue_within, put_within};
ghost use Rattle.tks_cmd.specs.Meets.{KeepsSo};

use tks_event::Event;
use tks_queue::Place;
use tks_state::World;
use tks_tcl::Interrupt;
use tks_text::Limits;

// Whether the queue passes no limit.
fn check_queue(world: &World, limits: &Limits) -> Result<(), Interrupt>
    ensures { GivesSo (λ _. world.now) result (queue_within limits.now world.now) }
{
    if world.queue().len() <= limits.items as usize {
        Ok(())
    } else {
        Err(Interrupt::TooLarge)
    }
}

/// Puts an event into its place in the queue. One of a key waits under `.`. No error comes of it.
pub fn put(world: &mut World, place: Place, event: Event, limits: &Limits) -> Result<(), Interrupt>
    ensures value { GivesSo (λ _. world.new) result (put_within limits.now place event world.old) }
    ensures kept { KeepsSo result world.old world.new }
{
    world.put_event(place, event)?;
    check_queue(world, limits)
}
