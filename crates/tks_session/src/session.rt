//! A session, between its calls.
ghost use Rattle.std.specs.Prelude.{◌≡◌, ◌≢◌, ◌↔◌, ◌<◌, ◌≤◌, ◌+◌, ◌^◌, ◌++◌, ◌∷◌, [], length, false, OnOk, OnErr, IfOk, IfErr, MatchResult, Ok};
ghost use Rattle.tks_journal.specs.Moments.{LeavesOnly};
ghost use Rattle.tks_journal.specs.Opening.{Unwritten};
ghost use Rattle.tks_journal.specs.Resting.{AllHold, begun_as};
ghost use Rattle.tks_journal.specs.Sides.{other_of};
ghost use Rattle.tks_durable.specs.Durable.{CheckpointFails, CommitFails, checkpointed, committed, is_full};
ghost use Rattle.tks_durable.specs.Machine.{header_of};
ghost use Rattle.tks_durable.specs.declared.fault.SessionFault.TheVariants.{Disk as DeviceFailed};
ghost use Rattle.tks_world.specs.Step.{Accepts, step};
ghost use Rattle.tks_session.specs.Crash.{AllOpenTo, LeadsOn, Makes, OpenFails, OpensAsOneOf, OpensToCount, OpensToPrefix, Stands, opens};
ghost use Rattle.tks_session.specs.Draining.{DrainsSo};
ghost use Rattle.tks_session.specs.Refusing.{PostRefused};
ghost use Rattle.tks_session.specs.Sessions.{IsFresh, setting, setting_of, terminal_in};
ghost use Rattle.tks_session.specs.Terminals.{spelled};

use crate::fault::OpenFault;
use crate::stepper::Stepper;
use std::alloc::Global;
use std::marker::Model;
use tks_app::{AppBody, AppClosure, AppMeaning, Apps};
use tks_disk::Disk;
use tks_durable::{Call, Drained, Durable, SessionFault, make_calls};
use tks_input::{Input, Refused, Reply};
use tks_state::World;
use tks_text::{Limits, Size};

/// A world on a disk: each input that is accepted is a step of the world within limits, with an application's commands, and a
/// commit puts all of them on the disk.
pub struct Session<D: Disk, T: AppMeaning, B: AppBody = AppClosure> {
    durable: Durable<D, Stepper<T, B>>,
}

// Written out, so that to let go of it is one step for whoever owns it.
impl<D: Disk + Drop, T: AppMeaning, B: AppBody> Drop for Session<D, T, B> {
    fn drop(self) {
        let Session { durable: _ } = self;
    }
}

impl<D: Disk, T: AppMeaning, B: AppBody> Model for Session<D, T, B> {
    ghost use Rattle.std.specs.Coded.{codes};
    ghost use Rattle.tks_state.specs.contracts.world.World.{the_row};
    ghost use Rattle.tks_session.specs.Sessions.{SessionState, seen_as};

    ghost Value = { SessionState D };

    ghost coded = { Prim.hlevel (codes, the_row.coded) };

    ghost view = { λ s. seen_as (record { names = s.durable.machine.apps; limits = s.durable.machine.limits; grid = s.durable.machine.grid }) s.durable };
}

impl<D: Disk, T: AppMeaning, B: AppBody> Session<D, T, B> {
    /// Opens what the disk holds, or begins a first side where it holds nothing. On a fault it gives the disk and the commands
    /// back.
    pub fn open(
        alloc: Global,
        disk: D,
        apps: Apps<T, B>,
        grid: Size,
        limits: Limits,
    ) -> Result<Session<D, T, B>, OpenFault<D, T, B>>
        // The world is what the bytes of the two sides open to, and nothing waits.
        ensures opens { IfOk result (λ s. D.honest disk → opens (setting T.meaning apps limits grid) (D.view disk).reads ≡ Ok s.world) }
        ensures fresh { IfOk result (λ s. IsFresh (record { names = apps; limits = limits; grid = grid }) s) }

        // All that a crash may leave now opens to it.
        ensures now { IfOk result (λ s. D.honest disk → AllOpenTo (setting T.meaning apps limits grid) (D.view s.journal.disk) (Ok s.world)) }

        // A crash at any moment of the call leaves what opens as something that a crash before the call might have left.
        ensures any_moment { D.honest disk → MatchResult result
            (λ s. LeavesOnly (D.view disk) (D.view s.journal.disk) (OpensAsOneOf (setting T.meaning apps limits grid) (D.view disk).may_leave))
            (λ x. LeavesOnly (D.view disk) (D.view x.disk) (OpensAsOneOf (setting T.meaning apps limits grid) (D.view disk).may_leave)) }

        // A fault is the bytes' own, or the device failed, or memory was refused. Nothing was written but where the device failed.
        ensures fault { IfErr result (λ x. OpenFails (setting T.meaning apps limits grid) (D.honest disk) (opens (setting T.meaning apps limits grid) (D.view disk).reads) (D.failures disk) (D.failures x.disk) x.fault) }
        ensures unwritten { D.honest disk → IfErr result (λ x. x.fault ≢ DeviceFailed → Unwritten (D.view disk) (D.view x.disk)) }
        ensures apps { IfErr result (λ x. x.apps ≡ apps) }
        ensures honesty { MatchResult result (λ s. D.honest disk ↔ D.honest s.journal.disk) (λ x. D.honest disk ↔ D.honest x.disk) }
    {
        let stepper = Stepper { limits, grid, apps };
        match Durable::open(alloc, disk, stepper) {
            Ok(durable) => Ok(Session { durable }),
            Err(refused) => Err(OpenFault {
                disk: refused.disk,
                apps: refused.machine.apps,
                fault: refused.fault,
            }),
        }
    }

    /// While no call has failed, the inputs that wait lead to the world from what the disk opens to; all that a crash may leave
    /// opens so; that is a world that accepted just the acknowledged inputs; and as long as no call of the disk is made, a crash
    /// leaves what opens to what a prefix of the inputs leaves that wait. It does nothing: it is called for what it promises.
    pub fn stands(&self)
        ensures world { self.now.journal.failed ≡ false → D.honest self.now.journal.disk
            → Stands (setting_of T.meaning self.now.machine) (D.view self.now.journal.disk) self.now.waiting self.now.world }
        ensures leads { self.now.journal.failed ≡ false → D.honest self.now.journal.disk
            → LeadsOn (setting_of T.meaning self.now.machine) (D.view self.now.journal.disk).reads self.now.waiting self.now.world }
        ensures images { self.now.journal.failed ≡ false → D.honest self.now.journal.disk
            → AllOpenTo (setting_of T.meaning self.now.machine) (D.view self.now.journal.disk) (opens (setting_of T.meaning self.now.machine) (D.view self.now.journal.disk).reads) }
        ensures acknowledged { self.now.journal.failed ≡ false → D.honest self.now.journal.disk
            → OpensToCount (setting_of T.meaning self.now.machine) (D.view self.now.journal.disk).reads self.now.acknowledged }
        ensures moments { self.now.journal.failed ≡ false → D.honest self.now.journal.disk
            → LeavesOnly (D.view self.now.journal.disk) (D.view self.now.journal.disk)
            (OpensToPrefix (setting_of T.meaning self.now.machine) (opens (setting_of T.meaning self.now.machine) (D.view self.now.journal.disk).reads) self.now.waiting) }
    {
        self.durable.stands();
    }

    /// The world, which the accepted inputs leave.
    pub fn world(&self) -> &World
        ensures { result.now ≡ self.now.world }
    {
        self.durable.world()
    }

    /// Finds where the windows lie, where that isn't known, and keeps it for whoever reads the world next, where memory serves.
    /// Nothing changes.
    pub fn prepare(&mut self)
        ensures stays { self.new ≡ self.old }
    {
        self.durable.prepare();
    }

    /// Whether a call of the disk failed. From then on nothing more is taken or put on the disk.
    pub fn has_failed(&self) -> bool
        ensures { result ≡ self.now.journal.failed }
    {
        self.durable.has_failed()
    }

    /// How many inputs were accepted.
    pub fn posted(&self) -> u64
        ensures { result ≡ self.now.world.accepted }
    {
        self.durable.posted()
    }

    /// How many inputs were acknowledged: counted by a commit, or found by opening.
    pub fn acknowledged(&self) -> u64
        ensures { result ≡ self.now.acknowledged }
    {
        self.durable.acknowledged()
    }

    /// Gives the disk and the commands back, and writes nothing: what waits is lost.
    pub fn close(self) -> (D, Apps<T, B>)
        ensures back { (result.0 ≡ self.journal.disk) × (result.1 ≡ self.machine.names) }

        // A crash at any moment of the call leaves what opens to what a prefix of the inputs leaves.
        ensures any_moment { self.journal.failed ≡ false → D.honest self.journal.disk
            → LeavesOnly (D.view self.journal.disk) (D.view result.0)
            (OpensToPrefix (setting_of T.meaning self.machine) (opens (setting_of T.meaning self.machine) (D.view self.journal.disk).reads) self.waiting) }
    {
        let Session { durable } = self;
        let (disk, stepper) = durable.close();
        (disk, stepper.apps)
    }

    /// Steps an input, which then waits for a commit. A refused one changes nothing. It makes no call of the disk.
    #[tactic(auto, using(crate::proofs::Surface::accepted_so))]
    pub fn post(&mut self, input: &Input) -> Result<Reply, Refused>
        ensures accepted { IfOk result (λ reply. step (setting_of T.meaning self.old.machine).app self.old.world input.now self.old.machine.limits ≡ Accepts self.new.world reply) }
        ensures ok { OnOk result ((self.old.journal.failed ≡ false)
            × (is_full self.old.machine.limits.pending self.old.journal self.old.waiting input.now ≡ false)
            × (self.new ≡ record self.old { world = self.new.world; waiting = self.old.waiting ++ input.now ∷ [] })) }
        ensures refused { IfErr result (λ why. PostRefused (setting_of T.meaning self.old.machine) self.old input.now why) }
        ensures unchanged { OnErr result (self.new ≡ self.old) }

        // A crash at any moment of the call leaves what opens to what a prefix of the inputs leaves that waited.
        ensures any_moment { self.old.journal.failed ≡ false → D.honest self.old.journal.disk
            → LeavesOnly (D.view self.old.journal.disk) (D.view self.new.journal.disk)
            (OpensToPrefix (setting_of T.meaning self.old.machine) (opens (setting_of T.meaning self.old.machine) (D.view self.old.journal.disk).reads) self.old.waiting) }
    {
        match self.durable.post(input) {
            Ok(reply) => Ok(reply),
            Err(refused) => Err(refused),
        }
    }

    /// Posts turns until so many are run or one is refused, and tells the reply of each. A session that has failed runs none,
    /// however many are asked for.
    pub fn drain<F: FnMut(&Reply)>(&mut self, turns: u64, tell: &mut F) -> Drained
        requires { F.IsAlwaysCallable tell.old }
        ensures drained { DrainsSo (λ p reply q. (r : _) × (r.now ≡ reply) × F.step p r tt q) (setting_of T.meaning self.old.machine) self.old self.new tell.old tell.new turns result.turns result.ended }

        // A crash at any moment of the call leaves what opens to what a prefix of the inputs leaves that waited.
        ensures any_moment { self.old.journal.failed ≡ false → D.honest self.old.journal.disk
            → LeavesOnly (D.view self.old.journal.disk) (D.view self.new.journal.disk)
            (OpensToPrefix (setting_of T.meaning self.old.machine) (opens (setting_of T.meaning self.old.machine) (D.view self.old.journal.disk).reads) self.old.waiting) }
    {
        self.durable.drain(turns, tell)
    }

    /// Puts the inputs that wait on the disk, and answers how many are acknowledged by then. It takes no memory. Where none
    /// waits it makes no call of the disk.
    pub fn commit(&mut self) -> Result<u64, SessionFault>
        ensures ok { IfOk result (λ count. (self.old.journal.failed ≡ false) × (count ≡ self.old.world.accepted)
            × (self.new ≡ record self.old { journal = committed self.old.journal self.new.journal.disk self.old.waiting; waiting = []; acknowledged = count })) }
        ensures idle { self.old.waiting ≡ [] → self.new.journal ≡ self.old.journal }

        // At Ok, all that a crash may leave opens to the world.
        ensures acknowledged { OnOk result (D.honest self.old.journal.disk → AllOpenTo (setting_of T.meaning self.old.machine) (D.view self.new.journal.disk) (Ok self.new.world)) }

        // A crash at any moment of the call leaves what opens to what a prefix of the inputs leaves.
        ensures any_moment { self.old.journal.failed ≡ false → D.honest self.old.journal.disk
            → LeavesOnly (D.view self.old.journal.disk) (D.view self.new.journal.disk)
            (OpensToPrefix (setting_of T.meaning self.old.machine) (opens (setting_of T.meaning self.old.machine) (D.view self.old.journal.disk).reads) self.old.waiting) }

        ensures err { IfErr result (CommitFails self.old self.new (D.failures self.old.journal.disk) (D.failures self.new.journal.disk)) }
        ensures steady { OnOk result (D.failures self.new.journal.disk ≡ D.failures self.old.journal.disk) }
        ensures honesty { D.honest self.old.journal.disk ↔ D.honest self.new.journal.disk }
    {
        self.durable.commit()
    }

    // Calls one after the other.
    pub(crate) fn make_calls(&mut self, calls: &[Call]) -> Result<(), SessionFault>
        ensures machine { self.new.machine ≡ self.old.machine }
        ensures working { OnOk result (self.new.journal.failed ≡ self.old.journal.failed) }
        ensures honesty { D.honest self.old.journal.disk ↔ D.honest self.new.journal.disk }
        ensures makes { self.old.journal.failed ≡ false → D.honest self.old.journal.disk
            → Makes (setting_of T.meaning self.old.machine) D.failures D.view calls.now self.old self.new result }
    {
        make_calls(&mut self.durable, calls)
    }

    /// Begins the other side of the disk with the world, which is live then, with no frame behind it; and answers how many inputs
    /// are acknowledged by then, all of them. It takes its memory before its first call of the disk.
    pub fn checkpoint(&mut self) -> Result<u64, SessionFault>
        ensures ok { IfOk result (λ count. (self.old.journal.failed ≡ false) × (count ≡ self.old.world.accepted)
            × (self.new ≡ record self.old { journal = checkpointed (terminal_in (setting_of T.meaning self.old.machine)) self.old.journal self.new.journal.disk self.old.world; waiting = []; acknowledged = count })) }

        // At Ok, what is read, and all that a crash may leave, holds the world alone, on the other side.
        ensures stored { OnOk result (D.honest self.old.journal.disk → AllHold (D.view self.new.journal.disk)
            (begun_as (other_of self.old.journal.live) (header_of (terminal_in (setting_of T.meaning self.old.machine)) (self.old.journal.generation + 1) self.old.world) (spelled self.old.world))) }

        // So all of it opens to the world.
        ensures acknowledged { OnOk result (D.honest self.old.journal.disk → AllOpenTo (setting_of T.meaning self.old.machine) (D.view self.new.journal.disk) (Ok self.new.world)) }

        // A crash at any moment of the call leaves what opens to what a prefix of the inputs leaves.
        ensures any_moment { self.old.journal.failed ≡ false → D.honest self.old.journal.disk
            → LeavesOnly (D.view self.old.journal.disk) (D.view self.new.journal.disk)
            (OpensToPrefix (setting_of T.meaning self.old.machine) (opens (setting_of T.meaning self.old.machine) (D.view self.old.journal.disk).reads) self.old.waiting) }

        // It is refused as too large just where the world's spelling passes 2^40 bytes, or the side's number 2^62.
        ensures err { IfErr result (CheckpointFails (terminal_in (setting_of T.meaning self.old.machine)) self.old self.new (D.failures self.old.journal.disk) (D.failures self.new.journal.disk)) }
        ensures fits { OnOk result ((length (spelled self.old.world) ≤ 2 ^ 40) × (self.old.journal.generation < 2 ^ 62)) }
        ensures steady { OnOk result (D.failures self.new.journal.disk ≡ D.failures self.old.journal.disk) }
        ensures honesty { D.honest self.old.journal.disk ↔ D.honest self.new.journal.disk }
    {
        self.durable.checkpoint()
    }
}
