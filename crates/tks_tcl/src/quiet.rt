//! Commands where nobody asks for the text that they answer, as in a body of several commands.
ghost use Rattle.std.specs.Prelude.{◌≡◌, OnErr};
ghost use Rattle.tks_tcl.specs.Plain.{plain};
ghost use Rattle.tks_tcl.specs.Variables.{left};
ghost use Rattle.tks_tcl.specs.View.{variable_command_of, command_of};
ghost use Rattle.tks_tcl.specs.Meets.{GivesSo, EndsSo, QuietlySo};

use crate::calls::{err, run_command};
use crate::command::Command;
use crate::growing::{MoreElements, MoreTexts};
use crate::interrupt::Interrupt;
use crate::making::make_quietly;
use crate::stop::Stop;
use crate::table::ListTable;
use crate::variables::{Increase, VariableCommand, store_quietly};
use std::alloc::Global;
use tks_text::{Limits, Txt};
use tks_vars::Vars;

/// How a command ended.
#[derive(Drop)]
pub enum Quiet {
    /// By code 0, with a text that wasn't made.
    Done,
    /// By this code, with this text.
    Ended(u8, Txt),
}

impl VariableCommand {
    // The same as `run`, where nobody asks for the answer: what a variable is given isn't copied for it. What gives none
    // a value runs as it does.
    fn run_quietly(
        self,
        alloc: Global,
        command: &Txt,
        words: &[Txt],
        variables: &mut Vars,
        limits: &Limits,
    ) -> Result<(), Interrupt>
        ensures value { GivesSo (λ _. variables.new) result (left (variable_command_of self limits.now command.now words.now variables.old)) }
        ensures err { OnErr result (variables.new ≡ variables.old) }
    {
        match (self, words) {
            (VariableCommand::Append, [name, texts @ ..]) if !texts.is_empty() => {
                make_quietly(alloc, variables, name, MoreTexts(texts), b"", limits)?;
            }
            (VariableCommand::Incr, [name]) => {
                make_quietly(alloc, variables, name, Increase(None), b"0", limits)?;
            }
            (VariableCommand::Incr, [name, amount]) => {
                make_quietly(alloc, variables, name, Increase(Some(amount)), b"0", limits)?;
            }
            (VariableCommand::Lappend, [name, elements @ ..]) if !elements.is_empty() => {
                make_quietly(alloc, variables, name, MoreElements(elements), b"", limits)?;
            }
            (VariableCommand::Set, [name, value]) => {
                store_quietly(variables, name, value, limits)?;
            }
            _ => {
                self.run(alloc, command, words, variables, limits)?;
            }
        }
        Ok(())
    }
}

// What a command comes to, given its first word and the others.
fn run_command_quietly(
    alloc: Global,
    lists: &mut ListTable,
    command: Command,
    name: &Txt,
    words: &[Txt],
    variables: &mut Vars,
    limits: &Limits,
) -> Result<Quiet, Interrupt>
    ensures value { EndsSo result variables.new (command_of command limits.now name.now words.now variables.old) }
    ensures err { OnErr result (variables.new ≡ variables.old) }
{
    match command {
        Command::OfVariables(command) => {
            command.run_quietly(alloc, name, words, variables, limits)?;
            Ok(Quiet::Done)
        }
        _ => {
            let (code, text) = run_command(alloc, lists, command, name, words, variables, limits)?;
            Ok(Quiet::Ended(code, text))
        }
    }
}

/// The same as `plain`, where nobody asks for the text of an end by code 0: what a command gives a variable isn't
/// copied to be answered.
pub fn plain_quietly(
    alloc: Global,
    lists: &mut ListTable,
    variables: &mut Vars,
    words: &[Txt],
    limits: &Limits,
) -> Result<Option<Quiet>, Stop>
    ensures { QuietlySo result variables.old variables.new (plain limits.now words.now variables.old) }
{
    let [name, rest @ ..] = words else {
        return Ok(None);
    };
    let Some(command) = Command::named(name) else {
        return Ok(None);
    };
    match run_command_quietly(alloc, lists, command, name, rest, variables, limits) {
        Ok(quiet) => Ok(Some(quiet)),
        Err(Interrupt::Script(fault)) => {
            let (code, text) = err(alloc, &fault, limits)?;
            Ok(Some(Quiet::Ended(code, text)))
        }
        Err(Interrupt::TooLarge) => Err(Stop::TooLarge),
        Err(Interrupt::NoMemory) => Err(Stop::NoMemory),
    }
}
