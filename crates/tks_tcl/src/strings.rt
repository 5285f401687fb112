//! The command `string`.
ghost use Rattle.std.specs.Prelude.{◌≡◌, IfOk};
ghost use Rattle.tks_tcl.specs.Index.{range};
ghost use Rattle.tks_tcl.specs.Meets.{GivesSo};
ghost use Rattle.tks_tcl.specs.View.{index_of};
ghost use Rattle.tks_tcl.specs.Strings.{length_does, index_does, range_does, equal_does, subcommand_does, string_does};

use crate::index::{Index, index_in, range};
use crate::interrupt::{Interrupt, wrong_words};
use crate::words::{count_text, truth_text};
use std::alloc::{AllocError, Global};
use tks_text::Txt;

/// What `string` answers, given its first word and the others.
#[tactic(auto, using(crate::proofs::Causes::tells))]
pub fn run_string(alloc: Global, command: &Txt, words: &[Txt]) -> Result<Txt, Interrupt>
    ensures { GivesSo (λ t. t) result (string_does command.now words.now) }
{
    match words {
        [] => Err(wrong_words(command)),
        [subcommand, rest @ ..] => run_subcommand(alloc, command, subcommand, rest),
    }
}

// What a subcommand answers.
#[tactic(auto, using(crate::proofs::Causes::tells))]
fn run_subcommand(
    alloc: Global,
    command: &Txt,
    subcommand: &Txt,
    words: &[Txt],
) -> Result<Txt, Interrupt>
    ensures { GivesSo (λ t. t) result (subcommand_does command.now subcommand.now words.now) }
{
    let name = subcommand.as_bytes();
    if name == b"length".as_slice() {
        return run_length(alloc, command, words);
    }
    if name == b"index".as_slice() {
        return run_index(alloc, command, words);
    }
    if name == b"range".as_slice() {
        return run_range(alloc, command, words);
    }
    if name == b"equal".as_slice() {
        return run_equal(alloc, command, words);
    }
    Err(wrong_words(command))
}

// string length t
#[tactic(auto, using(crate::proofs::Causes::tells))]
fn run_length(alloc: Global, command: &Txt, words: &[Txt]) -> Result<Txt, Interrupt>
    ensures { GivesSo (λ t. t) result (length_does command.now words.now) }
{
    match words {
        [text] => Ok(count_text(alloc, text.as_bytes().len())?),
        _ => Err(wrong_words(command)),
    }
}

// The part of a text from one index to another.
#[tactic(auto, using(crate::proofs::Parts::range_is_text))]
fn part(alloc: Global, text: &Txt, first: Index, last: Index) -> Result<Txt, AllocError>
    ensures { IfOk result (λ t. t ≡ range (index_of first) (index_of last) text.now) }
{
    Txt::from_text(alloc, range(text.as_bytes(), first, last))
}

// string index t i
#[tactic(auto, using(crate::proofs::Causes::tells))]
fn run_index(alloc: Global, command: &Txt, words: &[Txt]) -> Result<Txt, Interrupt>
    ensures { GivesSo (λ t. t) result (index_does command.now words.now) }
{
    match words {
        [text, index] => {
            let index = index_in(alloc, index)?;
            Ok(part(alloc, text, index, index)?)
        }
        _ => Err(wrong_words(command)),
    }
}

// string range t a b
#[tactic(auto, using(crate::proofs::Causes::tells))]
fn run_range(alloc: Global, command: &Txt, words: &[Txt]) -> Result<Txt, Interrupt>
    ensures { GivesSo (λ t. t) result (range_does command.now words.now) }
{
    match words {
        [text, first, last] => {
            let first = index_in(alloc, first)?;
            let last = index_in(alloc, last)?;
            Ok(part(alloc, text, first, last)?)
        }
        _ => Err(wrong_words(command)),
    }
}

// string equal a b
#[tactic(auto, using(crate::proofs::Causes::tells))]
fn run_equal(alloc: Global, command: &Txt, words: &[Txt]) -> Result<Txt, Interrupt>
    ensures { GivesSo (λ t. t) result (equal_does command.now words.now) }
{
    match words {
        [a, b] => Ok(truth_text(alloc, a == b)?),
        _ => Err(wrong_words(command)),
    }
}
