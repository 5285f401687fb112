//! What a session's faults are called.
ghost use Rattle.std.specs.Prelude.{◌≡◌};
ghost use Rattle.tks_desk.specs.Faults.{fault_line, fault_name, fault_status};
ghost use Rattle.tks_desk.specs.Writing.{WritesSo};

use crate::ending::RunFault;
use crate::output::{put, put_last};
use std::io::Write;
use tks_session::SessionFault;

/// The word for a fault.
pub fn name_of(fault: &SessionFault) -> &'static str
    ensures { result.now ≡ fault_name fault.now }
{
    match fault {
        SessionFault::TooLarge => "large",
        SessionFault::NoMemory => "memory",
        SessionFault::Disk => "disk",
        SessionFault::Failed => "failed",
        SessionFault::Damaged => "damaged",
        SessionFault::OtherCommands => "commands",
        SessionFault::OtherGrid => "grid",
        SessionFault::SmallerLimits => "limits",
        SessionFault::Version => "version",
    }
}

/// The status that the program ends with for a fault: 5 for want of memory, else 1.
pub fn status_of(fault: &SessionFault) -> u8
    ensures { result ≡ fault_status fault.now }
{
    match fault {
        SessionFault::NoMemory => 5,
        _ => 1,
    }
}

/// Writes the line of a fault.
#[tactic(auto, using(crate::proofs::Writes::flattened_writes))]
pub fn put_fault<W: Write>(writer: &mut W, fault: &SessionFault) -> Result<(), RunFault>
    ensures { WritesSo result (W.contents writer.old) (W.contents writer.new) (fault_line fault.now) }
{
    put(writer, b"fault ")?;
    put(writer, name_of(fault).as_bytes())?;
    put_last(writer, b"\n")
}
