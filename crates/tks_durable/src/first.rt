//! What a side holds that is begun: the first one, or that of a checkpoint.
ghost use Rattle.std.specs.Prelude.{◌≡◌, ◌≤◌, ◌<◌, ◌+◌, ◌^◌, ℕ, [], true, false, IfOk, IfErr, Ok, Err, length};
ghost use Rattle.tks_disk.specs.declared.disk.Side.{Side};
ghost use Rattle.tks_disk.specs.declared.disk.Side.TheVariants.{A};
ghost use Rattle.tks_journal.specs.Journal.{SpelledAs};
ghost use Rattle.tks_journal.specs.Resting.{begun_as};
ghost use Rattle.tks_durable.specs.Opening.{begun, opened};
ghost use Rattle.tks_durable.specs.declared.fault.SessionFault.{SessionFault};
ghost use Rattle.tks_durable.specs.Machine.{header_of};
ghost use Rattle.tks_durable.specs.Starting.{StartFails, SideFails};
ghost use Rattle.tks_spelling.specs.Header as headers;

use crate::fault::SessionFault;
use crate::machine::Machine;
use std::alloc::Global;
use tks_journal::spell;
use tks_spelling::Header;

/// What a side holds that is begun: its header, that header's bytes, and those of a state.
#[derive(Drop)]
pub struct NewSide {
    pub header: Header,
    pub head: Vec<u8>,
    pub bytes: Vec<u8>,
}

/// What a side of this generation holds, which begins with this state.
pub fn new_side<M: Machine>(
    alloc: Global,
    machine: &M,
    world: &M::World,
    generation: u64,
) -> Result<NewSide, SessionFault>
    ensures header { IfOk result (λ s. s.header ≡ header_of (M.meaning machine.now) generation world.now) }
    ensures bytes { IfOk result (λ s. s.bytes.items ≡ (M.meaning machine.now).bytes world.now) }
    ensures head { IfOk result (λ s. s.head.items ≡ headers.header.write s.header) }
    ensures spelled { IfOk result (λ s. SpelledAs s.head.items s.header) }
    ensures room { IfOk result (λ s. length s.head.items + length s.bytes.items < 2 ^ 61) }
    ensures short { IfOk result (λ s. length ((M.meaning machine.now).bytes world.now) ≤ 2 ^ 40) }
    ensures opens { IfOk result (λ s. (M.meaning machine.now).own world.now ≡ true → (live : Side) → opened (M.meaning machine.now) (begun_as live s.header s.bytes.items) ≡ Ok world.now) }
    ensures fault { IfErr result (SideFails (M.meaning machine.now) world.now) }
{
    let _ = machine.is_within(world);
    let Some(world_length) = machine.length(world) else {
        return Err(SessionFault::TooLarge);
    };
    let bytes = machine.bytes(alloc, world)?;
    let header = machine.header(alloc, generation, world_length)?;
    let head = spell(alloc, &header)?;
    Ok(NewSide {
        header,
        head,
        bytes,
    })
}

/// The state before any input, and what a first side holds that begins with it.
pub fn first_side<M: Machine>(
    alloc: Global,
    machine: &M,
) -> Result<(M::World, NewSide), SessionFault>
    ensures first { IfOk result (λ f. f.1.header.generation ≡ 1) }
    ensures spelled { IfOk result (λ f. SpelledAs f.1.head.items f.1.header) }
    ensures measured { IfOk result (λ f. f.1.header.world_length ≡ length f.1.bytes.items) }
    ensures room { IfOk result (λ f. length f.1.head.items + length f.1.bytes.items < 2 ^ 61) }
    ensures opens { IfOk result (λ f. opened (M.meaning machine.now) (begun_as A f.1.header f.1.bytes.items) ≡ Ok f.0) }
    ensures world { IfOk result (λ f. begun (M.meaning machine.now) ≡ Ok f.0) }
    ensures own { IfOk result (λ f. (M.meaning machine.now).own f.0 ≡ true) }
    ensures fault { IfErr result (StartFails (M.meaning machine.now)) }
{
    let world = machine.first(alloc)?;
    if !machine.is_within(&world) {
        return Err(SessionFault::SmallerLimits);
    }
    match new_side(alloc, machine, &world, 1) {
        Ok(side) => Ok((world, side)),
        Err(fault) => Err(fault),
    }
}
