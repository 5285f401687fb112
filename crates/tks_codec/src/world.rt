//! Worlds.
ghost use Rattle.std.specs.Prelude.{◌≡◌, ◌++◌, ℕ, List, length, take, Ok, Err, IfOk, OnOk, OnErr};
ghost use Rattle.tks_spelling.specs.Reading.{Gives, FindsSo, StopsAt};
ghost use Rattle.tks_spelling.specs.Writing.{PutsSo, flattened};
ghost use Rattle.tks_spelling.specs.Lengths.{counted, within_side};
ghost use Rattle.tks_spelling.specs.declared.fault.CodecFault.TheVariants as CodecFault;
ghost use Rattle.tks_spelling.specs.declared.format.Format.TheVariants as Format;
ghost use Rattle.tks_codec.specs.World as kinds;
ghost use Rattle.tks_codec.specs.World.{counts_of, fields_parts, waits_parts, WaitsAreLegal, fields_at, world_at};
ghost use Rattle.tks_state.specs.Restoring as restoring;
ghost use Rattle.tks_state.specs.World.{World};
ghost use Rattle.tks_state.specs.declared.rules.Rules.TheVariants as Rules;

use crate::counts::{Counts, counts_of, put_counts};
use crate::ends::{ends_length, ends_of, put_ends};
use crate::happenings::{happenings_length, happenings_of, put_happenings};
use crate::windows::{put_windows, windows_length, windows_of};
use std::alloc::{AllocError, Global};
use tks_codec_events::{
    put_queue, put_waiting, queue_length, queue_of, waiting_length, waiting_of,
};
use tks_codec_variables::{put_variables, variables_length, variables_of};
use tks_spelling::{CodecFault, Format, Unread, within_side};
use tks_state::{World, WorldParts};
use tks_text::Size;

// The parts of a world in a side of this format, on this grid.
#[tactic(auto, unfolding(crate::specs::World::fields_at, crate::specs::Counts::counts_at, crate::specs::Windows::windows_at, tks_codec_variables::specs::Variables::variables_at, crate::specs::Happenings::happenings_at, tks_codec_events::specs::Timers::waiting_at, crate::specs::Ends::ends_at))]
fn parts_of(
    alloc: Global,
    format: Format,
    grid: Size,
    bytes: &[u8],
) -> Result<(WorldParts, &[u8]), Unread>
    ensures { Gives (λ x. (restoring.world_of x.0, x.1.now)) result (fields_at format grid bytes.now) }
{
    let (counts, rest) = counts_of(bytes)?;
    let (windows, rest) = windows_of(alloc, counts.window, rest)?;
    let (variables, rest) = variables_of(alloc, rest)?;
    let (happenings, rest) = happenings_of(alloc, counts.binding, rest)?;
    let (queue, rest) = queue_of(alloc, rest)?;
    let (timers, rest) = waiting_of(alloc, counts.timer, rest)?;
    let (ends, rest) = ends_of(alloc, format, rest)?;
    let parts = WorldParts {
        accepted: counts.accepted,
        clock: counts.clock,
        tree: windows.tree,
        windows: windows.parts,
        variables,
        bindings: happenings.bindings,
        virtuals: happenings.virtuals,
        history: happenings.history,
        queue,
        timers,
        focus: ends.focus,
        held: ends.held,
        pressed: ends.pressed,
        memories: ends.memories,
        faults: ends.faults,
        rules: ends.rules,
        grid,
    };
    Ok((parts, rest))
}

// A world in a side of this format, on this grid.
#[tactic(auto, unfolding(crate::specs::World::world_at, crate::specs::World::fields_at))]
fn world_of(
    alloc: Global,
    format: Format,
    grid: Size,
    bytes: &[u8],
) -> Result<(World, &[u8]), Unread>
    ensures { Gives (λ x. (x.0, x.1.now)) result (world_at format grid bytes.now) }
{
    let (parts, rest) = parts_of(alloc, format, grid, bytes)?;
    match World::restore(alloc, parts)? {
        Some(world) => Ok((world, rest)),
        None => Err(Unread::Left(rest.len() + 1)),
    }
}

// The world, and the length of its spelling.
fn world_found(
    alloc: Global,
    format: Format,
    grid: Size,
    bytes: &[u8],
) -> Result<(World, usize), CodecFault>
    ensures { FindsSo result bytes.now (world_at format grid bytes.now) }
{
    match world_of(alloc, format, grid, bytes) {
        Ok((world, rest)) => Ok((world, bytes.len() - rest.len())),
        Err(Unread::Left(left)) => Err(CodecFault::Bad(bytes.len() - left)),
        Err(Unread::NoMemory) => Err(CodecFault::NoMemory),
    }
}

/// The world at the front, in a side of this format and on a grid of this size, and the length of its spelling; other bytes may
/// follow. Memory is taken for each part once its bytes are there.
pub fn read_world(
    alloc: Global,
    format: Format,
    grid: Size,
    bytes: &[u8],
) -> Result<(World, usize), CodecFault>
    // What is read is spelled so.
    ensures found { IfOk result (λ x. (kinds.world format grid).Legal x.0 × (take x.1 bytes.now ≡ (kinds.world format grid).write x.0)) }
    // What is spelled so is read, unless memory is refused.
    ensures only { (w : World) (rest : List ℕ) → (kinds.world format grid).Legal w → bytes.now ≡ (kinds.world format grid).write w ++ rest → FindsSo result bytes.now (Ok (w, rest)) }
    // Where the fault is.
    ensures bad { (p : ℕ) → result ≡ Err (CodecFault.Bad p) → StopsAt (kinds.world format grid) bytes.now p }
    // All this at once.
    ensures exact { FindsSo result bytes.now (world_at format grid bytes.now) }
{
    world_found(alloc, format, grid, bytes)
}

// The numbers in front of a world.
fn numbers_of(world: &World) -> Counts
    ensures { result ≡ counts_of world.now }
{
    Counts {
        accepted: world.accepted(),
        clock: world.clock(),
        window: world.tree().next(),
        binding: world.bindings().next(),
        timer: world.timers().next(),
    }
}

// Adds what waits, and what stands at the end.
#[tactic(auto, using(tks_spelling::proofs::Puts::flattened_puts))]
fn put_waits(out: &mut Vec<u8>, world: &World) -> Result<(), AllocError>
    ensures puts { PutsSo result out.old.items out.new.items (flattened (waits_parts world.now)) }
    ensures legal { OnOk result (WaitsAreLegal world.now) }
{
    put_queue(out, world.queue())?;
    put_waiting(out, world.timers())?;
    put_ends(out, world)
}

// Adds the parts of a world; where memory is refused, perhaps a front of them.
#[tactic(auto, using(tks_spelling::proofs::Puts::flattened_puts))]
fn put_parts(alloc: Global, out: &mut Vec<u8>, world: &World) -> Result<(), AllocError>
    ensures puts { PutsSo result out.old.items out.new.items (flattened (fields_parts world.now)) }
    ensures legal { OnOk result ((kinds.fields Format.Two world.now.grid).Legal world.now) }
{
    world.stands();
    put_counts(out, &numbers_of(world))?;
    put_windows(alloc, out, world)?;
    put_variables(out, world.variables())?;
    put_happenings(out, world)?;
    put_waits(out, world)
}

// Adds a world.
#[tactic(auto, unfolding(tks_spelling::specs::Writing::flattened), using(tks_state::proofs::Possible::possible))]
fn put_world(alloc: Global, out: &mut Vec<u8>, world: &World) -> Result<(), AllocError>
    ensures puts { PutsSo result out.old.items out.new.items ((kinds.world Format.Two world.now.grid).write world.now) }
    ensures legal { OnOk result ((kinds.world Format.Two world.now.grid).Legal world.now) }
{
    world.stands();
    put_parts(alloc, out, world)
}

/// Adds the world's spelling at the end, which is the same in each format. Each world has one in a side of the second format, and one
/// that goes by the first rules in a side of the first too, and is read back on its grid. Where memory is refused, the bytes are as
/// they were.
#[tactic(auto, using(crate::proofs::Formats::legal_in_first))]
pub fn write_world(alloc: Global, world: &World, out: &mut Vec<u8>) -> Result<(), AllocError>
    ensures ok { OnOk result (out.new.items ≡ out.old.items ++ (kinds.world Format.Two world.now.grid).write world.now) }
    ensures legal { OnOk result ((kinds.world Format.Two world.now.grid).Legal world.now) }
    ensures first { OnOk result (world.now.rules ≡ Rules.One → (kinds.world Format.One world.now.grid).Legal world.now) }
    ensures err { OnErr result (out.new.items ≡ out.old.items) }
{
    let before = out.len();
    match put_world(alloc, out, world) {
        Ok(()) => Ok(()),
        Err(refused) => {
            out.truncate(before);
            Err(refused)
        }
    }
}

// The length of what waits, and of what stands at the end.
#[tactic(auto, unfolding(tks_spelling::specs::Writing::flattened), using(tks_spelling::proofs::Counting::lengths))]
fn waits_length(world: &World) -> u64
    ensures { result ≡ counted (length (flattened (waits_parts world.now))) }
{
    queue_length(world.queue())
        .saturating_add(waiting_length(world.timers()))
        .saturating_add(ends_length(world))
}

// The length of a world.
#[tactic(auto, unfolding(tks_spelling::specs::Writing::flattened), using(tks_spelling::proofs::Counting::lengths))]
fn parts_length(world: &World) -> u64
    ensures { result ≡ counted (length ((kinds.world Format.Two world.now.grid).write world.now)) }
{
    windows_length(world)
        .saturating_add(variables_length(world.variables()))
        .saturating_add(happenings_length(world))
        .saturating_add(waits_length(world))
        .saturating_add(40)
}

/// The length of the world's spelling, in bytes, and none where it passes 2^40 (`MAX_SIDE`). It takes no memory.
pub fn world_length(world: &World) -> Option<u64>
    ensures { result ≡ within_side (length ((kinds.world Format.Two world.now.grid).write world.now)) }
{
    within_side(parts_length(world))
}
