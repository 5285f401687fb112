//! Laws of runs and of crashes.
ghost use Rattle.std.specs.Prelude.{◌≡◌, ◌++◌, ℕ, List, Result, Some, Ok, false};
ghost use Rattle.tks_disk.specs.DiskModel.{Images};
ghost use Rattle.tks_input.specs.declared.input.Input.{Input};
ghost use Rattle.tks_durable.specs.Crash.{HoldsAcknowledged, IsRunOfPrefix, OpensToPrefix};
ghost use Rattle.tks_durable.specs.Opening.{opens, run};
ghost use Rattle.tks_durable.specs.declared.fault.SessionFault.{SessionFault};
ghost use Rattle.tks_spelling.specs.declared.format.Format.TheVariants.{One, Two};
ghost use Rattle.tks_spelling.specs.declared.header.Header.{Header};
ghost use Rattle.tks_disk.specs.declared.disk.Side.{Side};
ghost use Rattle.tks_journal.specs.Sides.{AllShort, kept};
ghost use Rattle.tks_durable.specs.Inputs.{counted};
ghost use Rattle.tks_durable.specs.Opening.{opened};

use crate::durable::Durable;
use crate::machine::Machine;
use tks_disk::Disk;

/// Inputs run one after the other: a run over two lists is a run over the second from where the first one ends.
#[tactic(auto, using(crate::proofs::Runs::run_on))]
pub fn runs_join<M: Machine>(machine: &M)
    ensures { (start : Result M.World SessionFault) (first second : List Input)
        → run (M.meaning machine.now) start (first ++ second) ≡ run (M.meaning machine.now) (run (M.meaning machine.now) start first) second }
{
    let _ = machine;
}

/// What a store of the first format opens to, it opens to in the second as well, where its world is spelled alike in both and each
/// of its frames stands behind the number of its inputs.
pub fn formats_open_alike<M: Machine>(machine: &M)
    ensures { (live : Side) (header : Header) (world : List ℕ) (bodies : List (List ℕ)) (state : M.World) → AllShort bodies
        → ((w : M.World) → (M.meaning machine.now).stored One header world ≡ Some w → (M.meaning machine.now).stored Two header world ≡ Some w)
        → opened (M.meaning machine.now) (kept live One header world (Some bodies)) ≡ Ok state
        → opened (M.meaning machine.now) (kept live Two header world (Some (counted bodies))) ≡ Ok state }
{
    let _ = machine;
}

/// What opening answers after a crash: where the images that it left open to what a prefix of the inputs leaves, a world that is
/// opened is what some first inputs leave, each of them whole.
pub fn a_crash_leaves_a_prefix<M: Machine>(machine: &M)
    ensures { (start : Result M.World SessionFault) (inputs : List Input) (images : Images) (world : M.World)
        → OpensToPrefix (M.meaning machine.now) start inputs images → opens (M.meaning machine.now) images ≡ Ok world
        → IsRunOfPrefix (M.meaning machine.now) start inputs world }
{
    let _ = machine;
}

/// What opening answers after a crash: where the images that it left open to what a prefix of the inputs that wait leaves, as they
/// do at every moment of a durable machine's calls, a world that is opened is what the first of these inputs leave behind those that
/// were acknowledged, all of them and nothing else; each input is there whole or not at all.
pub fn a_crash_keeps_what_was_acknowledged<D: Disk, M: Machine>(durable: &Durable<D, M>)
    ensures { (images : Images) (world : M.World) → durable.now.journal.failed ≡ false → D.honest durable.now.journal.disk
        → OpensToPrefix (M.meaning durable.now.machine) (opens (M.meaning durable.now.machine) (D.view durable.now.journal.disk).reads) durable.now.waiting images
        → opens (M.meaning durable.now.machine) images ≡ Ok world
        → HoldsAcknowledged (M.meaning durable.now.machine) (D.view durable.now.journal.disk).reads durable.now.acknowledged durable.now.waiting world }
{
    durable.stands();
}
