//! A command that runs no script, given its words.
ghost use Rattle.std.specs.Prelude.{◌≡◌, OnErr};
ghost use Rattle.tks_tcl.specs.Plain.{errs, plain};
ghost use Rattle.tks_tcl.specs.View.{command_of};
ghost use Rattle.tks_tcl.specs.Meets.{GivesSo, ErrsSo, AnswersSo};

use crate::command::Command;
use crate::interrupt::{Interrupt, within};
use crate::stop::Stop;
use crate::strings::run_string;
use crate::table::ListTable;
use std::alloc::Global;
use tks_text::{Limits, ScriptFault, Txt};
use tks_vars::Vars;

/// What a command comes to, given its first word and the others.
pub(crate) fn run_command(
    alloc: Global,
    lists: &mut ListTable,
    command: Command,
    name: &Txt,
    words: &[Txt],
    variables: &mut Vars,
    limits: &Limits,
) -> Result<(u8, Txt), Interrupt>
    ensures value { GivesSo (λ x. (x, variables.new)) result (command_of command limits.now name.now words.now variables.old) }
    ensures err { OnErr result (variables.new ≡ variables.old) }
{
    match command {
        Command::OfCode(command) => {
            let ended = command.run(alloc, name, words, limits)?;
            Ok(ended)
        }
        Command::OfLists(command) => {
            let text = command.run(alloc, lists, name, words, limits)?;
            Ok((0, text))
        }
        Command::OfStrings => {
            let text = within(run_string(alloc, name, words)?, limits)?;
            Ok((0, text))
        }
        Command::OfVariables(command) => {
            let text = command.run(alloc, name, words, variables, limits)?;
            Ok((0, text))
        }
    }
}

/// The end by an error.
pub(crate) fn err(alloc: Global, fault: &ScriptFault, limits: &Limits) -> Result<(u8, Txt), Stop>
    ensures { ErrsSo limits.now fault.now result }
{
    let text = fault.text(alloc)?;
    if text.len() > limits.text as usize {
        return Err(Stop::TooLarge);
    }
    Ok((1, text))
}

/// What a command that runs no script comes to: its code, 0 ok, 1 error, 2 return, 3 break or 4 continue,
/// and its text. The first word names it; `None` where no such command has this name. An error of the
/// command's own, a stop and `None` leave the variables as they were. The stops are `TooLarge`, where a
/// value, a text or the list of variables would pass its limit, and `NoMemory`.
pub fn plain(
    alloc: Global,
    lists: &mut ListTable,
    variables: &mut Vars,
    words: &[Txt],
    limits: &Limits,
) -> Result<Option<(u8, Txt)>, Stop>
    ensures { AnswersSo result variables.old variables.new (plain limits.now words.now variables.old) }
{
    let [name, rest @ ..] = words else {
        return Ok(None);
    };
    let Some(command) = Command::named(name) else {
        return Ok(None);
    };
    match run_command(alloc, lists, command, name, rest, variables, limits) {
        Ok(ended) => Ok(Some(ended)),
        Err(Interrupt::Script(fault)) => {
            let ended = err(alloc, &fault, limits)?;
            Ok(Some(ended))
        }
        Err(Interrupt::TooLarge) => Err(Stop::TooLarge),
        Err(Interrupt::NoMemory) => Err(Stop::NoMemory),
    }
}
