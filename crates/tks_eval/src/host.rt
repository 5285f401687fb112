//! The host of scripts: what has the commands that the language lacks, and what these plan.
ghost use Rattle.std.specs.Prelude.{◌≡◌};
ghost use Rattle.tks_eval.specs.Outcome.{Meaning};
ghost use Rattle.tks_eval.specs.Meets.{AnswersSo, FaultsSo, TakesSo};

use tks_tcl::Stop;
use tks_text::{Seq, Txt};
use tks_vars::Vars;

/// Which of the things that wait are meant.
#[derive(Clone, Copy)]
pub enum Due {
    /// All that a turn would do.
    All,
    /// The scripts that wait for nothing else to be done, and those alone.
    Idle,
}

/// What a command of a host comes to, or a thing that waited in it.
#[derive(Drop)]
pub enum Plan {
    /// A code, 0 ok, 1 error, 2 return, 3 break or 4 continue, and the result or the error's text.
    Answer(u8, Txt),
    /// A script to run at global level: the command ends as this does, `return` counting as code 0.
    Eval(Txt),
    /// Scripts to run at global level one after the other, each a step, as long as the window of this number is
    /// there: `break` ends them, an error joins the faults and ends them, `return` and `continue` go on. The command
    /// ends with code 0 and the empty text.
    Dispatch(u64, Seq<Txt>),
    /// What waits in the host is done as turns do it, one thing after the other, until none is left; each is a step before it
    /// runs. The command ends with code 0 and the empty text.
    Update(Due),
}

/// What runs the commands that the language doesn't have: a state, and commands that change it and the
/// variables. Contracts see `state` and `meaning` alone.
pub trait Host {
    type State;

    /// The state now.
    ghost state: { Self → Self.State };

    /// What names a place that is lent to the host, if one is.
    ghost Place: { Type 0 };

    /// The place in which the state is kept. It stays.
    ghost place: { Self → Place };

    /// What the host does and says in each state.
    ghost meaning: { Meaning Self.State };

    /// Runs a command, whose name is the first word. `None` where the host has none of this name; nothing
    /// has changed then. It stops by `TooLarge` and `NoMemory` alone.
    fn call(&mut self, variables: &mut Vars, words: &[Txt]) -> Result<Option<Plan>, Stop>
        ensures same_place { place self.new ≡ place self.old }
        ensures answers { AnswersSo (meaning.commands (state self.old) variables.old words.now) result (state self.old) (state self.new) variables.old variables.new };

    /// Whether no procedure may have this name.
    fn owns(&self, name: &Txt) -> bool
        ensures owns { result ≡ meaning.owns (state self.now) name.now };

    /// Whether the window of this number is there.
    fn alive(&self, window: u64) -> bool
        ensures alive { result ≡ meaning.alive (state self.now) window };

    /// Joins an error's text to the faults. It stops by `NoMemory` alone.
    fn fault(&mut self, text: &Txt) -> Result<(), Stop>
        ensures same_place { place self.new ≡ place self.old }
        ensures faulted { FaultsSo result (state self.new) (meaning.faulted (state self.old) text.now) };

    /// Takes out the next of the things that wait, and tells what it wants done. `None` where none does; nothing has
    /// changed then. It stops by `TooLarge` and `NoMemory` alone.
    fn next(&mut self, due: Due) -> Result<Option<Plan>, Stop>
        ensures same_place { place self.new ≡ place self.old }
        ensures takes { TakesSo (meaning.next due (state self.old)) result (state self.old) (state self.new) };
}
