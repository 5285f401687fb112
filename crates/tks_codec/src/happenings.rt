//! What scripts bound to events rest on.
ghost use Rattle.std.specs.Prelude.{◌≡◌, ◌≤◌, ◌^◌, length, OnOk};
ghost use Rattle.tks_spelling.specs.Reading.{Gives};
ghost use Rattle.tks_spelling.specs.Writing.{PutsSo, flattened};
ghost use Rattle.tks_spelling.specs.Lengths.{counted};
ghost use Rattle.tks_codec.specs.Happenings as kinds;
ghost use Rattle.tks_codec.specs.Happenings.{happenings_at, happenings_parts, happenings_seen};
ghost use Rattle.tks_codec.specs.World.{happenings_of};

use std::alloc::{AllocError, Global};
use tks_bind::{Bindings, History, Virtuals};
use tks_codec_events::{
    bindings_length, bindings_of, history_length, history_of, put_bindings, put_history,
    put_virtuals, virtuals_length, virtuals_of,
};
use tks_spelling::Unread;
use tks_state::World;

/// Bindings, virtual events, and the history.
#[derive(Drop)]
pub struct Happenings {
    pub bindings: Bindings,
    pub virtuals: Virtuals,
    pub history: History,
}

/// Bindings with this next number, virtual events, and the history.
#[tactic(auto, unfolding(crate::specs::Happenings::happenings_at, tks_codec_events::specs::Bindings::bindings_at, tks_codec_events::specs::Virtuals::virtuals_at, tks_codec_events::specs::History::history_at))]
pub fn happenings_of(alloc: Global, next: u64, bytes: &[u8]) -> Result<(Happenings, &[u8]), Unread>
    requires { next ≤ 2 ^ 62 }
    ensures { Gives (λ x. (happenings_seen x.0, x.1.now)) result (happenings_at next bytes.now) }
{
    let (bindings, rest) = bindings_of(alloc, next, bytes)?;
    let (virtuals, rest) = virtuals_of(alloc, rest)?;
    let (history, rest) = history_of(alloc, rest)?;
    let happenings = Happenings {
        bindings,
        virtuals,
        history,
    };
    Ok((happenings, rest))
}

// Adds the parts.
#[tactic(auto, using(tks_spelling::proofs::Puts::flattened_puts))]
fn put_parts(out: &mut Vec<u8>, world: &World) -> Result<(), AllocError>
    ensures puts { PutsSo result out.old.items out.new.items (flattened (happenings_parts (happenings_of world.now))) }
    ensures legal { OnOk result ((kinds.happenings world.now.bindings.next).Legal (happenings_of world.now)) }
{
    put_bindings(out, world.bindings())?;
    put_virtuals(out, world.virtuals())?;
    put_history(out, world.history())
}

/// Adds what a world's scripts bound to events rest on, but not the number of the next binding.
#[tactic(auto, unfolding(tks_spelling::specs::Writing::flattened))]
pub fn put_happenings(out: &mut Vec<u8>, world: &World) -> Result<(), AllocError>
    ensures puts { PutsSo result out.old.items out.new.items ((kinds.happenings world.now.bindings.next).write (happenings_of world.now)) }
    ensures legal { OnOk result ((kinds.happenings world.now.bindings.next).Legal (happenings_of world.now)) }
{
    put_parts(out, world)
}

/// The length of the spelling of what a world's scripts bound to events rest on, in bytes.
#[tactic(auto, using(tks_spelling::proofs::Counting::lengths))]
pub fn happenings_length(world: &World) -> u64
    ensures { result ≡ counted (length ((kinds.happenings world.now.bindings.next).write (happenings_of world.now))) }
{
    bindings_length(world.bindings())
        .saturating_add(virtuals_length(world.virtuals()))
        .saturating_add(history_length(world.history()))
}
