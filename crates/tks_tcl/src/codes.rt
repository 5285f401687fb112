//! The commands that end with a code of their own.
ghost use Rattle.tks_tcl.specs.Codes.{bare_code, says, returns, raises};
ghost use Rattle.tks_tcl.specs.View.{code_command_of};
ghost use Rattle.tks_tcl.specs.Meets.{GivesSo};

use crate::interrupt::{Interrupt, within, wrong_words};
use std::alloc::Global;
use tks_text::{Limits, Txt};

/// The commands that end with a code of their own.
#[derive(Clone, Copy)]
pub enum CodeCommand {
    Break,
    Continue,
    Error,
    Return,
}

impl CodeCommand {
    /// The code and the text that the command ends with, given its first word and the others.
    pub fn run(
        self,
        alloc: Global,
        command: &Txt,
        words: &[Txt],
        limits: &Limits,
    ) -> Result<(u8, Txt), Interrupt>
        ensures { GivesSo (λ x. x) result (code_command_of self limits.now command.now words.now) }
    {
        match self {
            CodeCommand::Break => bare_code(alloc, 3, command, words),
            CodeCommand::Continue => bare_code(alloc, 4, command, words),
            CodeCommand::Error => run_error(command, words, limits),
            CodeCommand::Return => run_return(alloc, command, words, limits),
        }
    }
}

// A code, without words.
#[tactic(auto, using(crate::proofs::Causes::tells))]
fn bare_code(alloc: Global, code: u8, command: &Txt, words: &[Txt]) -> Result<(u8, Txt), Interrupt>
    ensures { GivesSo (λ x. x) result (bare_code code command.now words.now) }
{
    if words.is_empty() {
        Ok((code, Txt::new(alloc)))
    } else {
        Err(wrong_words(command))
    }
}

// A code and a text.
fn says(code: u8, text: &Txt, limits: &Limits) -> Result<(u8, Txt), Interrupt>
    ensures { GivesSo (λ x. x) result (says limits.now code text.now) }
{
    let text = within(text.try_clone()?, limits)?;
    Ok((code, text))
}

// return ?v?
#[tactic(auto, using(crate::proofs::Causes::tells))]
fn run_return(
    alloc: Global,
    command: &Txt,
    words: &[Txt],
    limits: &Limits,
) -> Result<(u8, Txt), Interrupt>
    ensures { GivesSo (λ x. x) result (returns limits.now command.now words.now) }
{
    match words {
        [] => Ok((2, Txt::new(alloc))),
        [value] => says(2, value, limits),
        _ => Err(wrong_words(command)),
    }
}

// error t
#[tactic(auto, using(crate::proofs::Causes::tells))]
fn run_error(command: &Txt, words: &[Txt], limits: &Limits) -> Result<(u8, Txt), Interrupt>
    ensures { GivesSo (λ x. x) result (raises limits.now command.now words.now) }
{
    match words {
        [text] => says(1, text, limits),
        _ => Err(wrong_words(command)),
    }
}
