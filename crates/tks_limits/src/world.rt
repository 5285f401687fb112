//! Worlds.
ghost use Rattle.std.specs.Prelude.{◌≡◌, ◌&&◌};
ghost use Rattle.std.specs.List.{list_all};
ghost use Rattle.tks_limits.specs.Within as kinds;
ghost use Rattle.tks_limits.specs.Within.{within};

use crate::events::{bindings_fit, history_fits, queue_fits, timers_fit, virtuals_fit};
use crate::texts::{fits, may_hold};
use crate::variables::variables_fit;
use crate::windows::{all_kept_fit, paths_fit};
use tks_app::Memories;
use tks_share::SharedList;
use tks_state::World;
use tks_text::{Limits, Txt};
use tks_vars::Iter;

// Whether the names and texts of memories fit.
fn each_memory_fits(memories: Iter<'_, Txt>, limits: &Limits) -> bool
    ensures { result ≡ list_all (λ e. kinds.fits limits.now e.0 && kinds.fits limits.now e.1) memories.entry }
{
    for (name, text) in memories {
        if !fits(name, limits) || !fits(text.as_bytes(), limits) {
            return false;
        }
    }
    true
}

// Whether memories fit.
fn memories_fit(memories: &Memories, limits: &Limits) -> bool
    ensures { result ≡ kinds.memories_fit limits.now memories.now }
{
    may_hold(memories.texts().len(), limits) && each_memory_fits(memories.texts().iter(), limits)
}

// Whether the windows fit.
fn windows_fit(world: &World, limits: &Limits) -> bool
    ensures { result ≡ kinds.windows_fit limits.now world.now }
{
    paths_fit(world.tree(), limits) && all_kept_fit(world.all_kept(), limits)
}

// Whether what scripts bound to events rest on, and what waits, fit.
fn events_fit(world: &World, limits: &Limits) -> bool
    ensures { result ≡ kinds.events_fit limits.now world.now }
{
    bindings_fit(world.bindings(), limits)
        && virtuals_fit(world.virtuals(), limits)
        && history_fits(world.history(), limits)
        && queue_fits(world.queue(), limits)
        && timers_fit(world.timers(), limits)
}

// Whether no fault's text passes a limit.
fn faults_fit(faults: &SharedList<Txt>, limits: &Limits) -> bool
    ensures { result ≡ kinds.texts_fit limits.now faults.now }
{
    for text in faults.iter() {
        if !fits(text.as_bytes(), limits) {
            return false;
        }
    }
    true
}

/// Whether a world keeps within limits: no text that stands in it is longer than `text` bytes, and none of its lists that grow
/// with scripts has more than `items` members.
#[tactic(auto, unfolding(crate::specs::Within::within))]
pub fn is_within(world: &World, limits: &Limits) -> bool
    ensures { result ≡ within limits.now world.now }
{
    windows_fit(world, limits)
        && variables_fit(world.variables(), limits)
        && events_fit(world, limits)
        && memories_fit(world.memories(), limits)
        && faults_fit(world.faults(), limits)
}
