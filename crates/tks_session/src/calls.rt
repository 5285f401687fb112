//! Any calls of a session, one after the other.
ghost use Rattle.std.specs.Prelude.{◌≡◌, ◌↔◌, false, OnOk};
ghost use Rattle.tks_session.specs.Crash.{Makes};
ghost use Rattle.tks_session.specs.Sessions.{setting_of};

use crate::session::Session;
use tks_app::{AppBody, AppMeaning};
use tks_disk::Disk;
use tks_durable::{Call, SessionFault};

/// Makes calls one after the other, up to the first at which the device fails, or had failed. Refusals, and checkpoints that
/// aren't made, are passed over.
pub fn make_calls<D: Disk, T: AppMeaning, B: AppBody>(
    session: &mut Session<D, T, B>,
    calls: &[Call],
) -> Result<(), SessionFault>
    ensures machine { session.new.machine ≡ session.old.machine }
    ensures working { OnOk result (session.new.journal.failed ≡ session.old.journal.failed) }
    ensures honesty { D.honest session.old.journal.disk ↔ D.honest session.new.journal.disk }

    // A crash at any moment leaves what opens to what a prefix of the inputs leaves: of those that waited, and those that these
    // calls accepted.
    ensures makes { session.old.journal.failed ≡ false → D.honest session.old.journal.disk
        → Makes (setting_of T.meaning session.old.machine) D.failures D.view calls.now session.old session.new result }
{
    session.make_calls(calls)
}
