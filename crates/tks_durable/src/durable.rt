//! A machine on a disk, between its calls.
ghost use Rattle.std.specs.Prelude.{◌≡◌, ◌↔◌, ◌<◌, ◌≤◌, ◌++◌, ◌+◌, ◌^◌, ◌∷◌, [], ℕ, true, false, OnOk, OnErr, IfOk, IfErr, Ok, Err, length};
ghost use Rattle.tks_durable.specs.Durable.{has_room_at};
ghost use Rattle.tks_durable.specs.Machine.{accepts};
ghost use Rattle.tks_durable.specs.Refusing.{RoomRefused};

use crate::fault::SessionFault;
use crate::first::new_side;
use crate::frame::{append_inputs, has_room};
use crate::machine::Machine;
use std::alloc::Global;
use std::marker::Model;
use tks_disk::Disk;
use tks_input::{Input, Refused, Reply};
use tks_journal::Journal;
use tks_spelling::write_input;

/// The last generation of a side.
const LAST_GENERATION: u64 = 1 << 62;

/// A machine on a disk: each input that is accepted changes the machine's state, and a commit puts all of them on the disk.
pub struct Durable<D: Disk, M: Machine> {
    alloc: Global,
    journal: Journal<D>,
    machine: M,
    world: M::World,
    // The inputs that wait for a commit, as bytes, and how many they are.
    body: Vec<u8>,
    waiting: usize,
    acknowledged: u64,
}

// Written out, so that to let go of it is one step for whoever owns it.
impl<D: Disk + Drop, M: Machine + Drop> Drop for Durable<D, M> {
    fn drop(self) {
        let Durable {
            alloc: _,
            journal: _,
            machine: _,
            world: _,
            body: _,
            waiting: _,
            acknowledged: _,
        } = self;
    }
}

impl<D: Disk, M: Machine> Model for Durable<D, M> {
    ghost use Rattle.std.specs.Prelude.{◌≡◌, true, false, Ok, Some, length};
    ghost use Rattle.tks_durable.specs.Inputs.{inputs_in};
    ghost use Rattle.tks_durable.specs.Durable.{DurableState, HasRoom, IsPending, or_none};
    ghost use Rattle.tks_durable.specs.Crash.{OpensToCount, Stands};

    ghost Value = { DurableState D M M.World };

    ghost view = { λ s. record { journal = s.journal; machine = s.machine; world = s.world; waiting = or_none (inputs_in s.body.items); acknowledged = s.acknowledged } };

    ghost invariant = { λ s. IsPending s.body.items s.waiting
        × HasRoom s.journal s.waiting (length s.body.items)
        × (s.journal.failed ≡ false → D.honest s.journal.disk → Stands (M.meaning s.machine) (D.view s.journal.disk) (or_none (inputs_in s.body.items)) s.world)
        × (s.journal.failed ≡ false → D.honest s.journal.disk → OpensToCount (M.meaning s.machine) (D.view s.journal.disk).reads s.acknowledged)
        × ((M.meaning s.machine).own s.world ≡ true) };
}

impl<D: Disk, M: Machine> Durable<D, M> {
    ghost use Rattle.tks_durable.specs.Crash.{AllOpenTo, OpensToCount, OpensToPrefix, Stands};
    ghost use Rattle.tks_durable.specs.Opening.{opens};
    ghost use Rattle.tks_durable.specs.Refusing.{PostRefused};
    ghost use Rattle.tks_durable.specs.Durable.{CheckpointFails, CommitFails, DurableState, checkpointed, committed, is_full};
    ghost use Rattle.tks_durable.specs.Machine.{header_of};
    ghost use Rattle.tks_journal.specs.Resting.{AllHold, begun_as};
    ghost use Rattle.tks_journal.specs.Sides.{other_of};
    ghost use Rattle.tks_journal.specs.Moments.{LeavesOnly};

    /// A machine over a journal that stands for this state.
    pub(crate) fn over(
        alloc: Global,
        journal: Journal<D>,
        machine: M,
        world: M::World,
    ) -> Durable<D, M>
        requires working { journal.failed ≡ false }
        requires stands { D.honest journal.disk → opens (M.meaning machine) (D.view journal.disk).reads ≡ Ok world }
        requires own { (M.meaning machine).own world ≡ true }
        ensures { result ≡ record { journal = journal; machine = machine; world = world; waiting = []; acknowledged = (M.meaning machine).count world } }
    {
        let acknowledged = machine.count(&world);
        Durable {
            alloc,
            journal,
            machine,
            world,
            body: Vec::new(alloc),
            waiting: 0,
            acknowledged,
        }
    }

    /// While no call has failed, the inputs that wait leave the world, behind what the disk opens to; all that a crash may leave
    /// opens so; that is a state to which just the acknowledged inputs led; and as long as no call of the disk is made, a crash
    /// leaves what opens to what a prefix of the inputs leaves that wait.
    pub fn stands(&self)
        ensures world { self.now.journal.failed ≡ false → D.honest self.now.journal.disk
            → Stands (M.meaning self.now.machine) (D.view self.now.journal.disk) self.now.waiting self.now.world }
        ensures images { self.now.journal.failed ≡ false → D.honest self.now.journal.disk
            → AllOpenTo (M.meaning self.now.machine) (D.view self.now.journal.disk) (opens (M.meaning self.now.machine) (D.view self.now.journal.disk).reads) }
        ensures acknowledged { self.now.journal.failed ≡ false → D.honest self.now.journal.disk
            → OpensToCount (M.meaning self.now.machine) (D.view self.now.journal.disk).reads self.now.acknowledged }
        ensures moments { self.now.journal.failed ≡ false → D.honest self.now.journal.disk
            → LeavesOnly (D.view self.now.journal.disk) (D.view self.now.journal.disk)
            (OpensToPrefix (M.meaning self.now.machine) (opens (M.meaning self.now.machine) (D.view self.now.journal.disk).reads) self.now.waiting) }
    {
        self.journal.stands();
    }

    /// What the accepted inputs leave.
    pub fn world(&self) -> &M::World
        ensures { result.now ≡ self.now.world }
    {
        &self.world
    }

    /// Finds what reading the state would find anew each time, and keeps it there, where memory serves. Nothing changes.
    pub fn prepare(&mut self)
        ensures stays { self.new ≡ self.old }
    {
        self.machine.prepare(&mut self.world);
    }

    /// Whether a call of the disk failed. From then on nothing more is taken or put on the disk.
    pub fn has_failed(&self) -> bool
        ensures { result ≡ self.now.journal.failed }
    {
        self.journal.has_failed()
    }

    /// How many inputs were accepted.
    pub fn posted(&self) -> u64
        ensures { result ≡ (M.meaning self.now.machine).count self.now.world }
    {
        self.machine.count(&self.world)
    }

    /// How many inputs were acknowledged: counted by a commit, or found by opening.
    pub fn acknowledged(&self) -> u64
        ensures { result ≡ self.now.acknowledged }
    {
        self.acknowledged
    }

    /// Gives the disk and the machine back, and writes nothing: what waits is lost.
    pub fn close(self) -> (D, M)
        ensures back { (result.0 ≡ self.journal.disk) × (result.1 ≡ self.machine) }

        // A crash at any moment of the call leaves what opens to what a prefix of the inputs leaves.
        ensures any_moment { self.journal.failed ≡ false → D.honest self.journal.disk
            → LeavesOnly (D.view self.journal.disk) (D.view result.0)
            (OpensToPrefix (M.meaning self.machine) (opens (M.meaning self.machine) (D.view self.journal.disk).reads) self.waiting) }
    {
        self.journal.stands();
        let Durable {
            alloc: _,
            journal,
            machine,
            world: _,
            body: _,
            waiting: _,
            acknowledged: _,
        } = self;
        (journal.into_disk(), machine)
    }

    /// Steps an input, which then waits for a commit. A refused one changes nothing. It makes no call of the disk.
    pub fn post(&mut self, input: &Input) -> Result<Reply, Refused>
        ensures accepted { IfOk result (λ reply. (M.meaning self.old.machine).step self.old.world input.now ≡ accepts self.new.world reply) }
        ensures ok { OnOk result ((self.old.journal.failed ≡ false)
            × (is_full (M.meaning self.old.machine).pending self.old.journal self.old.waiting input.now ≡ false)
            × (self.new ≡ record self.old { world = self.new.world; waiting = self.old.waiting ++ input.now ∷ [] })) }
        ensures refused { IfErr result (λ why. PostRefused (M.meaning self.old.machine) self.old input.now why) }
        ensures unchanged { OnErr result (self.new ≡ self.old) }

        // A crash at any moment of the call leaves what opens to what a prefix of the inputs leaves that waited.
        ensures any_moment { self.old.journal.failed ≡ false → D.honest self.old.journal.disk
            → LeavesOnly (D.view self.old.journal.disk) (D.view self.new.journal.disk)
            (OpensToPrefix (M.meaning self.old.machine) (opens (M.meaning self.old.machine) (D.view self.old.journal.disk).reads) self.old.waiting) }
    {
        if self.journal.has_failed() {
            return Err(Refused::Failed);
        }
        self.journal.stands();
        if self.machine.pending() <= self.waiting {
            return Err(Refused::PendingFull);
        }
        let before = self.body.len();
        write_input(input, &mut self.body)?;
        let stepped = step_in_room(
            self.alloc,
            &self.journal,
            &self.machine,
            &mut self.world,
            self.body.len(),
            input,
        );
        match stepped {
            Ok(reply) => {
                self.waiting += 1;
                Ok(reply)
            }
            Err(refused) => {
                self.body.truncate(before);
                Err(refused)
            }
        }
    }

    /// Puts the inputs that wait on the disk, and answers how many are acknowledged by then. It takes no memory. Where none
    /// waits it makes no call of the disk.
    pub fn commit(&mut self) -> Result<u64, SessionFault>
        ensures ok { IfOk result (λ count. (self.old.journal.failed ≡ false) × (count ≡ (M.meaning self.old.machine).count self.old.world)
            × (self.new ≡ record self.old { journal = committed self.old.journal self.new.journal.disk self.old.waiting; waiting = []; acknowledged = count })) }
        ensures idle { self.old.waiting ≡ [] → self.new.journal ≡ self.old.journal }

        // At Ok, all that a crash may leave opens to the world.
        ensures acknowledged { OnOk result (D.honest self.old.journal.disk → AllOpenTo (M.meaning self.old.machine) (D.view self.new.journal.disk) (Ok self.new.world)) }

        // A crash at any moment of the call leaves what opens to what a prefix of the inputs leaves.
        ensures any_moment { self.old.journal.failed ≡ false → D.honest self.old.journal.disk
            → LeavesOnly (D.view self.old.journal.disk) (D.view self.new.journal.disk)
            (OpensToPrefix (M.meaning self.old.machine) (opens (M.meaning self.old.machine) (D.view self.old.journal.disk).reads) self.old.waiting) }

        ensures err { IfErr result (CommitFails self.old self.new (D.failures self.old.journal.disk) (D.failures self.new.journal.disk)) }
        ensures steady { OnOk result (D.failures self.new.journal.disk ≡ D.failures self.old.journal.disk) }
        ensures honesty { D.honest self.old.journal.disk ↔ D.honest self.new.journal.disk }
    {
        if self.journal.has_failed() {
            return Err(SessionFault::Failed);
        }
        self.journal.stands();
        if self.waiting == 0 {
            self.acknowledged = self.machine.count(&self.world);
            return Ok(self.acknowledged);
        }
        match append_inputs(&mut self.journal, self.waiting, &self.body) {
            Ok(()) => {
                self.body.clear();
                self.waiting = 0;
                self.acknowledged = self.machine.count(&self.world);
                Ok(self.acknowledged)
            }
            Err(_) => Err(SessionFault::Disk),
        }
    }

    /// Begins the other side with the state, which is live then, with no frame behind it; and answers how many inputs are
    /// acknowledged by then, all of them. It takes its memory before its first call of the disk.
    pub fn checkpoint(&mut self) -> Result<u64, SessionFault>
        ensures ok { IfOk result (λ count. (self.old.journal.failed ≡ false) × (count ≡ (M.meaning self.old.machine).count self.old.world)
            × (self.new ≡ record self.old { journal = checkpointed (M.meaning self.old.machine) self.old.journal self.new.journal.disk self.old.world; waiting = []; acknowledged = count })) }

        // At Ok, what is read, and all that a crash may leave, holds the state alone, on the other side.
        ensures stored { OnOk result (D.honest self.old.journal.disk → AllHold (D.view self.new.journal.disk)
            (begun_as (other_of self.old.journal.live) (header_of (M.meaning self.old.machine) (self.old.journal.generation + 1) self.old.world) ((M.meaning self.old.machine).bytes self.old.world))) }

        // So all of it opens to the state.
        ensures acknowledged { OnOk result (D.honest self.old.journal.disk → AllOpenTo (M.meaning self.old.machine) (D.view self.new.journal.disk) (Ok self.new.world)) }

        // A crash at any moment of the call leaves what opens to what a prefix of the inputs leaves.
        ensures any_moment { self.old.journal.failed ≡ false → D.honest self.old.journal.disk
            → LeavesOnly (D.view self.old.journal.disk) (D.view self.new.journal.disk)
            (OpensToPrefix (M.meaning self.old.machine) (opens (M.meaning self.old.machine) (D.view self.old.journal.disk).reads) self.old.waiting) }

        // It is refused as too large just where the spelling of the state, or the number of the side, is.
        ensures err { IfErr result (CheckpointFails (M.meaning self.old.machine) self.old self.new (D.failures self.old.journal.disk) (D.failures self.new.journal.disk)) }
        ensures fits { OnOk result ((length ((M.meaning self.old.machine).bytes self.old.world) ≤ 2 ^ 40) × (self.old.journal.generation < 2 ^ 62)) }
        ensures steady { OnOk result (D.failures self.new.journal.disk ≡ D.failures self.old.journal.disk) }
        ensures honesty { D.honest self.old.journal.disk ↔ D.honest self.new.journal.disk }
    {
        if self.journal.has_failed() {
            return Err(SessionFault::Failed);
        }
        self.journal.stands();
        let generation = self.journal.generation();
        if generation >= LAST_GENERATION {
            return Err(SessionFault::TooLarge);
        }
        match new_side(self.alloc, &self.machine, &self.world, generation + 1) {
            Ok(side) => match self
                .journal
                .checkpoint(&side.header, &side.head, &side.bytes)
            {
                Ok(()) => {
                    self.body.clear();
                    self.waiting = 0;
                    self.acknowledged = self.machine.count(&self.world);
                    Ok(self.acknowledged)
                }
                Err(_) => Err(SessionFault::Disk),
            },
            Err(fault) => Err(fault),
        }
    }
}

// Steps an input, where a frame of inputs of so many bytes finds room.
fn step_in_room<D: Disk, M: Machine>(
    alloc: Global,
    journal: &Journal<D>,
    machine: &M,
    world: &mut M::World,
    size: usize,
    input: &Input,
) -> Result<Reply, Refused>
    ensures accepted { IfOk result (λ reply. (has_room_at journal.now.format journal.now.gate size ≡ true) × ((M.meaning machine.now).step world.old input.now ≡ accepts world.new reply)) }
    ensures own { OnOk result ((M.meaning machine.now).own world.old ≡ true → (M.meaning machine.now).own world.new ≡ true) }
    ensures refused { IfErr result (λ why. RoomRefused why (has_room_at journal.now.format journal.now.gate size) ((M.meaning machine.now).step world.old input.now)) }
    ensures unchanged { OnErr result (world.new ≡ world.old) }
{
    if !has_room(journal, size) {
        return Err(Refused::PendingFull);
    }
    match machine.step(alloc, world, input) {
        Ok(reply) => Ok(reply),
        Err(refused) => Err(refused),
    }
}
