//! Any calls of a durable machine, one after the other, and what a crash leaves of them.
ghost use Rattle.std.specs.Prelude.{◌≡◌, ◌↔◌, ◌∷◌, [], false, OnOk};
ghost use Rattle.tks_durable.specs.Calls.{Makes};

use crate::durable::Durable;
use crate::fault::SessionFault;
use crate::machine::Machine;
use tks_disk::Disk;
use tks_input::{Input, Reply};

/// A call of a durable machine, or of a session, that may change it.
#[derive(Debug, Drop)]
pub enum Call {
    /// An input is posted.
    Post(Input),
    /// So many turns are posted, or fewer.
    Drain(u64),
    /// What waits is committed.
    Commit,
    /// A checkpoint is made.
    Checkpoint,
}

// Makes a call. A refusal, and a checkpoint that isn't made, is no fault.
fn make_call<D: Disk, M: Machine>(
    durable: &mut Durable<D, M>,
    call: &Call,
) -> Result<(), SessionFault>
    ensures machine { durable.new.machine ≡ durable.old.machine }
    ensures working { OnOk result (durable.new.journal.failed ≡ durable.old.journal.failed) }
    ensures honesty { D.honest durable.old.journal.disk ↔ D.honest durable.new.journal.disk }
    ensures makes { durable.old.journal.failed ≡ false → D.honest durable.old.journal.disk
        → Makes (M.meaning durable.old.machine) D.failures D.view (call.now ∷ []) durable.old durable.new result }
{
    durable.stands();
    match call {
        Call::Post(input) => {
            let _ = durable.post(input);
            Ok(())
        }
        Call::Drain(turns) => {
            durable.drain(*turns, &mut |_: &Reply| {});
            Ok(())
        }
        Call::Commit => match durable.commit() {
            Ok(_) => Ok(()),
            Err(fault) => Err(fault),
        },
        Call::Checkpoint => match durable.checkpoint() {
            Ok(_) => Ok(()),
            Err(SessionFault::TooLarge) => Ok(()),
            Err(SessionFault::NoMemory) => Ok(()),
            Err(fault) => Err(fault),
        },
    }
}

/// Makes calls one after the other, up to the first at which the device fails, or had failed. Refusals, and checkpoints that
/// aren't made, are passed over.
pub fn make_calls<D: Disk, M: Machine>(
    durable: &mut Durable<D, M>,
    calls: &[Call],
) -> Result<(), SessionFault>
    ensures machine { durable.new.machine ≡ durable.old.machine }
    ensures working { OnOk result (durable.new.journal.failed ≡ durable.old.journal.failed) }
    ensures honesty { D.honest durable.old.journal.disk ↔ D.honest durable.new.journal.disk }
    ensures makes { durable.old.journal.failed ≡ false → D.honest durable.old.journal.disk
        → Makes (M.meaning durable.old.machine) D.failures D.view calls.now durable.old durable.new result }
{
    durable.stands();
    match calls.split_first() {
        Some((call, others)) => {
            make_call(durable, call)?;
            make_calls(durable, others)
        }
        None => Ok(()),
    }
}
