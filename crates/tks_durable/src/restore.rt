//! What a store holds, stepped again.
ghost use Rattle.std.specs.Prelude.{◌≡◌, ◌↔◌, ◌<◌, ◌≤◌, ◌+◌, ◌^◌, [], ℕ, true, false, IfOk, IfErr, MatchResult, Ok, Err, None, Some, length};
ghost use Rattle.tks_spelling.specs.declared.header.Header.{Header};
ghost use Rattle.tks_disk.specs.declared.disk.Side.{Side};
ghost use Rattle.tks_journal.specs.Loading.{behind};
ghost use Rattle.tks_journal.specs.Opening.{NoSideFault, Tells, Unwritten};
ghost use Rattle.tks_journal.specs.Sides.{frames, kept};
ghost use Rattle.tks_durable.specs.Crash.{OfBytes};
ghost use Rattle.tks_durable.specs.Opening.{IsOwn, admitted, opened, same_grid, same_names, with_bodies};

use crate::fault::SessionFault;
use crate::machine::Machine;
use crate::replay::replay;
use std::alloc::Global;
use tks_disk::Disk;
use tks_journal::{Frames, OpenError};
use tks_spelling::Header;

// Whether a side was made for this grid and these commands, and its world keeps within the limits.
fn admit<M: Machine>(
    machine: &M,
    header: &Header,
    world: M::World,
) -> Result<M::World, SessionFault>
    requires own { same_grid header.now.grid (M.meaning machine.now).grid ≡ true → same_names header.now.names (M.meaning machine.now).names ≡ true
        → (M.meaning machine.now).within world ≡ true → (M.meaning machine.now).own world ≡ true }
    ensures value { result ≡ admitted (M.meaning machine.now) header.now world }
    ensures own { IsOwn (M.meaning machine.now) result }
    ensures bytes { IfErr result OfBytes }
{
    let grid = machine.grid();
    if header.grid.width() != grid.width() || header.grid.height() != grid.height() {
        return Err(SessionFault::OtherGrid);
    }
    if !machine.has_names(header.names.as_slice()) {
        return Err(SessionFault::OtherCommands);
    }
    if !machine.is_within(&world) {
        return Err(SessionFault::SmallerLimits);
    }
    Ok(world)
}

// The next frame's inputs, stepped; and whether that was the end of the frames.
#[tactic(auto, using(crate::proofs::Opens::bytes_fault))]
fn replay_next<D: Disk, M: Machine>(
    alloc: Global,
    machine: &M,
    left: &mut Frames<D>,
    so_far: Result<M::World, SessionFault>,
) -> Result<(Result<M::World, SessionFault>, bool), OpenError>
    ensures more { IfOk result (λ x. x.1 ≡ false → (left.old.at < left.new.at) × (left.new.at ≤ left.old.len)
        × (D.honest left.old.disk → with_bodies (M.meaning machine.now) left.old.format x.0 (frames (behind left.new.live left.new.at (D.view left.new.disk).reads))
        ≡ with_bodies (M.meaning machine.now) left.old.format so_far (frames (behind left.old.live left.old.at (D.view left.old.disk).reads)))) }
    ensures done { IfOk result (λ x. x.1 ≡ true → IfOk x.0 (λ _. left.new.ended ≡ true)
        × (D.honest left.old.disk → x.0 ≡ with_bodies (M.meaning machine.now) left.old.format so_far (frames (behind left.old.live left.old.at (D.view left.old.disk).reads)))) }
    ensures own { IsOwn (M.meaning machine.now) so_far → IfOk result (λ x. IsOwn (M.meaning machine.now) x.0) }
    ensures bytes { IfErr so_far OfBytes → IfOk result (λ x. IfErr x.0 OfBytes) }
    ensures side { (left.new.live ≡ left.old.live) × (left.new.format ≡ left.old.format) × (left.new.generation ≡ left.old.generation) × (left.new.len ≡ left.old.len) }
    ensures ours { NoSideFault result }
    ensures unwritten { D.honest left.old.disk → Unwritten (D.view left.old.disk) (D.view left.new.disk) }
    ensures honesty { D.honest left.old.disk ↔ D.honest left.new.disk }
    ensures tells { Tells result (D.failures left.old.disk) (D.failures left.new.disk) }
{
    match left.next(alloc) {
        Ok(Some(body)) => {
            let so_far = replay(alloc, machine, left.format(), so_far, &body)?;
            Ok((so_far, false))
        }
        Ok(None) => Ok((so_far, true)),
        Err(OpenError::Sides(_)) => Ok((Err(SessionFault::Damaged), true)),
        Err(OpenError::NoMemory) => Err(OpenError::NoMemory),
        Err(OpenError::Device) => Err(OpenError::Device),
    }
}

// The inputs of all frames, stepped one after the other.
fn replay_all<D: Disk, M: Machine>(
    alloc: Global,
    machine: &M,
    left: &mut Frames<D>,
    start: Result<M::World, SessionFault>,
) -> Result<Result<M::World, SessionFault>, OpenError>
    ensures ran { IfOk result (λ end. D.honest left.old.disk → end ≡ with_bodies (M.meaning machine.now) left.old.format start (frames (behind left.old.live left.old.at (D.view left.old.disk).reads))) }
    ensures ended { IfOk result (λ end. IfOk end (λ _. left.new.ended ≡ true)) }
    ensures own { IsOwn (M.meaning machine.now) start → IfOk result (IsOwn (M.meaning machine.now)) }
    ensures bytes { IfErr start OfBytes → IfOk result (λ end. IfErr end OfBytes) }
    ensures side { (left.new.live ≡ left.old.live) × (left.new.format ≡ left.old.format) × (left.new.generation ≡ left.old.generation) }
    ensures ours { NoSideFault result }
    ensures unwritten { D.honest left.old.disk → Unwritten (D.view left.old.disk) (D.view left.new.disk) }
    ensures honesty { D.honest left.old.disk ↔ D.honest left.new.disk }
    ensures tells { Tells result (D.failures left.old.disk) (D.failures left.new.disk) }
{
    let mut so_far = start;
    loop {
        let (next, done) = replay_next(alloc, machine, left, so_far)?;
        if done {
            return Ok(next);
        }
        so_far = next;
    }
}

/// What a stored world and the frames behind it leave.
#[tactic(auto, using(crate::proofs::Opens::stored_opens, crate::proofs::Opens::none_opens))]
pub fn replay_stored<D: Disk, M: Machine>(
    alloc: Global,
    machine: &M,
    header: &Header,
    bytes: &[u8],
    left: &mut Frames<D>,
) -> Result<Result<M::World, SessionFault>, OpenError>
    ensures ran { IfOk result (λ end. D.honest left.old.disk → (live : Side)
        → opened (M.meaning machine.now) (kept live left.old.format header.now bytes.now (frames (behind left.old.live left.old.at (D.view left.old.disk).reads))) ≡ end) }
    ensures ended { IfOk result (λ end. IfOk end (λ _. left.new.ended ≡ true)) }
    ensures own { IfOk result (IsOwn (M.meaning machine.now)) }
    ensures bytes { IfOk result (λ end. IfErr end OfBytes) }
    ensures side { (left.new.live ≡ left.old.live) × (left.new.format ≡ left.old.format) × (left.new.generation ≡ left.old.generation) }
    ensures ours { NoSideFault result }
    ensures unwritten { D.honest left.old.disk → Unwritten (D.view left.old.disk) (D.view left.new.disk) }
    ensures honesty { D.honest left.old.disk ↔ D.honest left.new.disk }
    ensures tells { Tells result (D.failures left.old.disk) (D.failures left.new.disk) }
{
    match machine.stored(alloc, left.format(), header, bytes)? {
        Some(world) => {
            let start = admit(machine, header, world);
            replay_all(alloc, machine, left, start)
        }
        None => Ok(Err(SessionFault::Damaged)),
    }
}
