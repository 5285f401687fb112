//! `update`.
ghost use Rattle.std.specs.Prelude.{◌≡◌};
ghost use Rattle.tks_tcl.specs.Meets.{GivesSo};
ghost use Rattle.tks_cmd.specs.Update.{update_does};

use tks_eval::{Due, Plan};
use tks_tcl::{Interrupt, wrong_words};
use tks_text::Txt;

/// What `update` wants done, given its first word and the others.
#[tactic(auto, using(tks_tcl::proofs::Causes::tells))]
pub fn run_update(command: &Txt, words: &[Txt]) -> Result<Plan, Interrupt>
    ensures { GivesSo (λ p. p) result (update_does command.now words.now) }
{
    match words {
        [] => Ok(Plan::Update(Due::All)),
        [form] => {
            if form.as_bytes() == b"idletasks".as_slice() {
                Ok(Plan::Update(Due::Idle))
            } else {
                Err(wrong_words(command))
            }
        }
        _ => Err(wrong_words(command)),
    }
}
