//! Several turns of a durable machine.
ghost use Rattle.std.specs.Prelude.{◌≡◌, false};
ghost use Rattle.tks_journal.specs.Moments.{LeavesOnly};
ghost use Rattle.tks_durable.specs.Crash.{OpensToPrefix};
ghost use Rattle.tks_durable.specs.Draining.{DrainsSo};
ghost use Rattle.tks_durable.specs.Opening.{opens};

use crate::durable::Durable;
use crate::machine::Machine;
use tks_disk::Disk;
use tks_input::{Input, Refused, Reply};

/// What came of several turns.
#[derive(Clone, Copy, Debug, PartialEq, Eq)]
pub struct Drained {
    /// How many were run.
    pub turns: u64,
    /// The refusal by which they ended, if they did before so many were run as were asked for.
    pub ended: Option<Refused>,
}

impl<D: Disk, M: Machine> Durable<D, M> {
    /// Posts turns until so many are run or one is refused, and tells the reply of each. A machine that has failed runs none,
    /// however many are asked for.
    pub fn drain<F: FnMut(&Reply)>(&mut self, turns: u64, tell: &mut F) -> Drained
        requires { F.IsAlwaysCallable tell.old }
        ensures drained { DrainsSo (λ p reply q. (r : _) × (r.now ≡ reply) × F.step p r tt q) (M.meaning self.old.machine) self.old self.new tell.old tell.new turns result.turns result.ended }

        // A crash at any moment of the call leaves what opens to what a prefix of the inputs leaves that waited.
        ensures any_moment { self.old.journal.failed ≡ false → D.honest self.old.journal.disk
            → LeavesOnly (D.view self.old.journal.disk) (D.view self.new.journal.disk)
            (OpensToPrefix (M.meaning self.old.machine) (opens (M.meaning self.old.machine) (D.view self.old.journal.disk).reads) self.old.waiting) }
    {
        self.stands();
        self.run_turns(turns, tell)
    }

    // The same, turn by turn.
    fn run_turns<F: FnMut(&Reply)>(&mut self, turns: u64, tell: &mut F) -> Drained
        requires { F.IsAlwaysCallable tell.old }
        ensures { DrainsSo (λ p reply q. (r : _) × (r.now ≡ reply) × F.step p r tt q) (M.meaning self.old.machine) self.old self.new tell.old tell.new turns result.turns result.ended }
    {
        if self.has_failed() {
            return Drained {
                turns: 0,
                ended: Some(Refused::Failed),
            };
        }
        let mut done = 0;
        'turns: while done < turns {
            match self.post(&Input::Turn) {
                Ok(reply) => {
                    tell(&reply);
                    done += 1;
                }
                Err(why) => {
                    return Drained {
                        turns: done,
                        ended: Some(why),
                    };
                }
            }
        }
        Drained {
            turns: done,
            ended: None,
        }
    }
}
