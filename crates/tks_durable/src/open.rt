//! Opening a durable machine: what the disk holds, or a first side.
ghost use Rattle.std.specs.Prelude.{◌≡◌, ◌≢◌, ◌↔◌, [], false, IfOk, IfErr, MatchResult, Ok};
ghost use Rattle.tks_journal.specs.Moments.{LeavesOnly};
ghost use Rattle.tks_journal.specs.Opening.{Unwritten};
ghost use Rattle.tks_durable.specs.Crash.{AllOpenTo, IsFresh, OpenFails, OpensAsOneOf, OpensSo};
ghost use Rattle.tks_durable.specs.Opening as opening;
ghost use Rattle.tks_durable.specs.Opening.{begun, opens};
ghost use Rattle.tks_durable.specs.declared.fault.SessionFault.TheVariants.{Disk as DeviceFailed};

use crate::durable::Durable;
use crate::fault::SessionFault;
use crate::first::first_side;
use crate::machine::Machine;
use crate::restore::replay_stored;
use std::alloc::Global;
use tks_disk::Disk;
use tks_journal::{Blank, OpenError, Opened, SideFault, Stored};

/// Why a machine wasn't opened, with what was handed in.
#[derive(Drop)]
pub struct OpenFault<D, M> {
    pub disk: D,
    pub machine: M,
    pub fault: SessionFault,
}

// The fault of a durable machine, of one in reading the disk.
fn fault_of(error: OpenError) -> SessionFault
    ensures { result ≡ opening.fault_in_reading error }
{
    match error {
        OpenError::NoMemory => SessionFault::NoMemory,
        OpenError::Device => SessionFault::Disk,
        OpenError::Sides(SideFault::UnknownFormat) => SessionFault::Version,
        OpenError::Sides(SideFault::Damaged) => SessionFault::Damaged,
    }
}

// A machine over a first side.
fn begin<D: Disk, M: Machine>(
    alloc: Global,
    blank: Blank<D>,
    machine: M,
) -> Result<Durable<D, M>, OpenFault<D, M>>
    ensures fresh { IfOk result (λ s. IsFresh (M.meaning machine) machine s) }
    ensures opens { IfOk result (λ s. begun (M.meaning machine) ≡ Ok s.world) }
    ensures now { IfOk result (λ s. D.honest blank → AllOpenTo (M.meaning machine) (D.view s.journal.disk) (Ok s.world)) }
    ensures any_moment { D.honest blank → MatchResult result
        (λ s. LeavesOnly (D.view blank) (D.view s.journal.disk) (OpensSo (M.meaning machine) (begun (M.meaning machine))))
        (λ x. LeavesOnly (D.view blank) (D.view x.disk) (OpensSo (M.meaning machine) (begun (M.meaning machine)))) }
    ensures unwritten { IfErr result (λ x. x.fault ≢ DeviceFailed → x.disk ≡ blank) }
    ensures fault { IfErr result (λ x. OpenFails (M.meaning machine) (D.honest blank) (begun (M.meaning machine)) (D.failures blank) (D.failures x.disk) x.fault) }
    ensures machine { IfErr result (λ x. x.machine ≡ machine) }
    ensures honesty { MatchResult result (λ s. D.honest blank ↔ D.honest s.journal.disk) (λ x. D.honest blank ↔ D.honest x.disk) }
{
    blank.is_blank();
    match first_side(alloc, &machine) {
        Ok((world, side)) => match blank.start(&side.header, &side.head, &side.bytes) {
            Ok(journal) => Ok(Durable::over(alloc, journal, machine, world)),
            Err(disk) => Err(OpenFault {
                disk,
                machine,
                fault: SessionFault::Disk,
            }),
        },
        Err(fault) => Err(OpenFault {
            disk: blank.into_disk(),
            machine,
            fault,
        }),
    }
}

// A machine over what is stored.
fn restore<D: Disk, M: Machine>(
    alloc: Global,
    stored: Stored<D>,
    machine: M,
) -> Result<Durable<D, M>, OpenFault<D, M>>
    ensures fresh { IfOk result (λ s. IsFresh (M.meaning machine) machine s) }
    ensures opens { IfOk result (λ s. D.honest stored.disk → opens (M.meaning machine) (D.view stored.disk).reads ≡ Ok s.world) }
    ensures unwritten { D.honest stored.disk → MatchResult result
        (λ s. Unwritten (D.view stored.disk) (D.view s.journal.disk))
        (λ x. Unwritten (D.view stored.disk) (D.view x.disk)) }
    ensures fault { IfErr result (λ x. OpenFails (M.meaning machine) (D.honest stored.disk) (opens (M.meaning machine) (D.view stored.disk).reads) (D.failures stored.disk) (D.failures x.disk) x.fault) }
    ensures machine { IfErr result (λ x. x.machine ≡ machine) }
    ensures honesty { MatchResult result (λ s. D.honest stored.disk ↔ D.honest s.journal.disk) (λ x. D.honest stored.disk ↔ D.honest x.disk) }
{
    let (header, bytes, left) = match stored.world(alloc) {
        Ok(read) => read,
        Err(fault) => {
            return Err(OpenFault {
                disk: fault.disk,
                machine,
                fault: fault_of(fault.error),
            });
        }
    };
    let mut left = left;
    match replay_stored(alloc, &machine, &header, &bytes, &mut left) {
        Ok(Ok(world)) => Ok(Durable::over(alloc, left.into_journal(), machine, world)),
        Ok(Err(fault)) => Err(OpenFault {
            disk: left.into_disk(),
            machine,
            fault,
        }),
        Err(error) => Err(OpenFault {
            disk: left.into_disk(),
            machine,
            fault: fault_of(error),
        }),
    }
}

impl<D: Disk, M: Machine> Durable<D, M> {
    /// Opens what the disk holds, or begins a first side where it holds nothing. On a fault it gives the disk and the machine
    /// back.
    pub fn open(alloc: Global, disk: D, machine: M) -> Result<Durable<D, M>, OpenFault<D, M>>
        // What is opened is what the bytes of the two sides open to, and nothing waits.
        ensures opens { IfOk result (λ s. D.honest disk → opens (M.meaning machine) (D.view disk).reads ≡ Ok s.world) }
        ensures fresh { IfOk result (λ s. IsFresh (M.meaning machine) machine s) }

        // All that a crash may leave now opens to it.
        ensures now { IfOk result (λ s. D.honest disk → AllOpenTo (M.meaning machine) (D.view s.journal.disk) (Ok s.world)) }

        // A crash at any moment of the call leaves what opens as something that a crash before the call might have left.
        ensures any_moment { D.honest disk → MatchResult result
            (λ s. LeavesOnly (D.view disk) (D.view s.journal.disk) (OpensAsOneOf (M.meaning machine) (D.view disk).may_leave))
            (λ x. LeavesOnly (D.view disk) (D.view x.disk) (OpensAsOneOf (M.meaning machine) (D.view disk).may_leave)) }

        // A fault is the bytes' own, or the device failed, or memory was refused. Nothing was written but where the device failed.
        ensures fault { IfErr result (λ x. OpenFails (M.meaning machine) (D.honest disk) (opens (M.meaning machine) (D.view disk).reads) (D.failures disk) (D.failures x.disk) x.fault) }
        ensures unwritten { D.honest disk → IfErr result (λ x. x.fault ≢ DeviceFailed → Unwritten (D.view disk) (D.view x.disk)) }
        ensures machine { IfErr result (λ x. x.machine ≡ machine) }
        ensures honesty { MatchResult result (λ s. D.honest disk ↔ D.honest s.journal.disk) (λ x. D.honest disk ↔ D.honest x.disk) }
    {
        match tks_journal::open(alloc, disk) {
            Ok(Opened::Nothing(blank)) => begin(alloc, blank, machine),
            Ok(Opened::Something(stored)) => restore(alloc, stored, machine),
            Err(fault) => Err(OpenFault {
                disk: fault.disk,
                machine,
                fault: fault_of(fault.error),
            }),
        }
    }
}
