//! The commands on variables.
ghost use Rattle.std.specs.Prelude.{◌≡◌, ◌+ℤ◌, OnErr};
ghost use Rattle.tks_tcl.specs.Making.{amount_text};
ghost use Rattle.tks_tcl.specs.Meets.{GivesSo};
ghost use Rattle.tks_tcl.specs.Variables.{value_in, is_missing, decimal_within, without_all, may_grow, stores, stores_global, link_within, with_global_links, left, set_does, unset_does, incr_does, append_does, lappend_does, global_does, info_does};
ghost use Rattle.tks_tcl.specs.View.{variable_command_of};
ghost use Rattle.tks_tcl.specs.Words.{integer_in};

use crate::growing::{MoreElements, MoreTexts};
use crate::interrupt::{Interrupt, error, within, wrong_words};
use crate::making::{Making, make};
use crate::words::{integer_in, truth_text};
use std::alloc::{AllocError, Global};
use tks_list::ListText;
use tks_share::{Change, Share};
use tks_text::{ErrorNumber, Limits, Txt, decimal_of, fits};
use tks_vars::Vars;

/// The commands on variables.
#[derive(Clone, Copy)]
pub enum VariableCommand {
    Append,
    Global,
    Incr,
    Info,
    Lappend,
    Set,
    Unset,
}

impl VariableCommand {
    /// What the command answers, given its first word and the others.
    pub fn run(
        self,
        alloc: Global,
        command: &Txt,
        words: &[Txt],
        variables: &mut Vars,
        limits: &Limits,
    ) -> Result<Txt, Interrupt>
        ensures value { GivesSo (λ t. (t, variables.new)) result (variable_command_of self limits.now command.now words.now variables.old) }
        ensures err { OnErr result (variables.new ≡ variables.old) }
    {
        match self {
            VariableCommand::Append => run_append(alloc, command, words, variables, limits),
            VariableCommand::Global => run_global(alloc, command, words, variables, limits),
            VariableCommand::Incr => run_incr(alloc, command, words, variables, limits),
            VariableCommand::Info => run_info(alloc, command, words, variables, limits),
            VariableCommand::Lappend => run_lappend(alloc, command, words, variables, limits),
            VariableCommand::Set => run_set(command, words, variables, limits),
            VariableCommand::Unset => run_unset(alloc, command, words, variables),
        }
    }
}

/// The value of a variable.
pub(crate) fn value_in(variables: &Vars, name: &Txt) -> Result<Txt, Interrupt>
    ensures { GivesSo (λ t. t) result (value_in variables.now name.now) }
{
    let value = variables.get(name)?;
    Ok(value.try_clone()?)
}

/// Whether an error says that a variable is missing.
pub fn is_missing(number: ErrorNumber) -> bool
    ensures { result ≡ is_missing number }
{
    matches!(number, ErrorNumber::NoSuchVariable)
}

/// Whether a list that would grow may have one member more.
pub(crate) fn may_grow(members: Option<usize>, limits: &Limits) -> bool
    ensures { result ≡ may_grow limits.now members }
{
    match members {
        Some(members) => members < limits.items as usize,
        None => true,
    }
}

/// Gives a name a value, which is answered. `TooLarge` where the value, or the list that it joins, would
/// pass its limit.
#[tactic(auto, using(crate::proofs::Leaving::stored))]
pub fn store(
    variables: &mut Vars,
    name: &Txt,
    value: Txt,
    limits: &Limits,
) -> Result<Txt, Interrupt>
    ensures value { GivesSo (λ t. (t, variables.new)) result (stores limits.now name.now variables.old value) }
    ensures err { OnErr result (variables.new ≡ variables.old) }
{
    store_quietly(variables, name, &value, limits)?;
    Ok(value)
}

/// The same, where nobody asks for the answer.
pub(crate) fn store_quietly(
    variables: &mut Vars,
    name: &Txt,
    value: &Txt,
    limits: &Limits,
) -> Result<(), Interrupt>
    ensures value { GivesSo (λ _. variables.new) result (left (stores limits.now name.now variables.old value.now)) }
    ensures err { OnErr result (variables.new ≡ variables.old) }
{
    if !fits(value, limits) {
        return Err(Interrupt::TooLarge);
    }
    match variables.change(name, Put { value })? {
        Some(put) => Ok(put?),
        None => {
            let value = ListText::of(value.try_clone()?);
            store_new(variables, name, value, limits)?;
            Ok(())
        }
    }
}

// A value that is put where another stands.
#[derive(Clone, Copy)]
struct Put<'a> {
    value: &'a Txt,
}

impl Change<ListText> for Put<'_> {
    ghost use Rattle.tks_tcl.specs.Making.{PutsSo};

    type Answer = Result<(), AllocError>;

    ghost gives = { λ put. PutsSo put.value.now };

    #[inline(always)]
    fn change(&mut self, value: &mut ListText) -> Result<(), AllocError> {
        *value = ListText::of(self.value.try_clone()?);
        Ok(())
    }
}

/// Gives a name a value, whether it has one or not. `TooLarge` where the value, or the list that it joins, would pass its limit.
pub(crate) fn store_new(
    variables: &mut Vars,
    name: &Txt,
    value: ListText,
    limits: &Limits,
) -> Result<(), Interrupt>
    ensures value { GivesSo (λ _. variables.new) result (left (stores limits.now name.now variables.old value)) }
    ensures err { OnErr result (variables.new ≡ variables.old) }
{
    if !fits(value.as_text(), limits) || !may_grow(variables.grown_by_value(name), limits) {
        return Err(Interrupt::TooLarge);
    }
    variables.set_list(name, value)?;
    Ok(())
}

/// The same as `store`, of a global, whatever the present frame is.
pub fn store_global(
    variables: &mut Vars,
    name: &Txt,
    value: Txt,
    limits: &Limits,
) -> Result<Txt, Interrupt>
    ensures value { GivesSo (λ t. (t, variables.new)) result (stores_global limits.now name.now variables.old value) }
    ensures err { OnErr result (variables.new ≡ variables.old) }
{
    if !fits(&value, limits) {
        return Err(Interrupt::TooLarge);
    }
    if !may_grow(variables.grown_by_global_value(name), limits) {
        return Err(Interrupt::TooLarge);
    }
    variables.set_global(name, &value)?;
    Ok(value)
}

// set name ?value?
#[tactic(auto, using(crate::proofs::Causes::tells))]
fn run_set(
    command: &Txt,
    words: &[Txt],
    variables: &mut Vars,
    limits: &Limits,
) -> Result<Txt, Interrupt>
    ensures value { GivesSo (λ t. (t, variables.new)) result (set_does limits.now command.now words.now variables.old) }
    ensures err { OnErr result (variables.new ≡ variables.old) }
{
    match words {
        [name] => {
            let value = within(value_in(variables, name)?, limits)?;
            Ok(value)
        }
        [name, value] => {
            let value = store(variables, name, value.try_clone()?, limits)?;
            Ok(value)
        }
        _ => Err(wrong_words(command)),
    }
}

// Takes names out one after the other.
fn take_all(variables: &mut Vars, names: &[Txt]) -> Result<(), Interrupt>
    ensures { GivesSo (λ _. variables.new) result (without_all names.now variables.old) }
{
    for name in names {
        variables.unset(name)?;
    }
    Ok(())
}

// The same, where an error leaves the variables as they were.
fn take_each(variables: &mut Vars, names: &[Txt]) -> Result<(), Interrupt>
    ensures value { GivesSo (λ _. variables.new) result (without_all names.now variables.old) }
    ensures err { OnErr result (variables.new ≡ variables.old) }
{
    if let [name] = names {
        variables.unset(name)?;
        return Ok(());
    }
    let mut left = variables.share()?;
    take_all(&mut left, names)?;
    *variables = left;
    Ok(())
}

// unset name ..
#[tactic(auto, using(crate::proofs::Causes::tells))]
fn run_unset(
    alloc: Global,
    command: &Txt,
    words: &[Txt],
    variables: &mut Vars,
) -> Result<Txt, Interrupt>
    ensures value { GivesSo (λ t. (t, variables.new)) result (unset_does command.now words.now variables.old) }
    ensures err { OnErr result (variables.new ≡ variables.old) }
{
    if words.is_empty() {
        return Err(wrong_words(command));
    }
    take_each(variables, words)?;
    Ok(Txt::new(alloc))
}

// The decimal of a sum.
fn sum(alloc: Global, a: i64, b: i64) -> Result<Txt, Interrupt>
    ensures { GivesSo (λ t. t) result (decimal_within (a +ℤ b)) }
{
    match a.checked_add(b) {
        Some(sum) => Ok(decimal_of(alloc, sum)?),
        None => Err(error(ErrorNumber::OutOfRange)),
    }
}

// The integer that a word spells, or 1 where there is none.
fn amount_in(amount: Option<&Txt>) -> Result<i64, Interrupt>
    ensures { GivesSo (λ z. z) result (integer_in (amount_text amount.entry)) }
{
    match amount {
        Some(amount) => integer_in(amount),
        None => Ok(1),
    }
}

/// An integer that is added to the one in a value: what a word spells, or 1 where there is none.
#[derive(Clone, Copy)]
pub(crate) struct Increase<'a>(pub Option<&'a Txt>);

impl Making for Increase<'_> {
    ghost use Rattle.tks_tcl.specs.Making.{amount_text};
    ghost use Rattle.tks_tcl.specs.Variables.{sum_of};

    ghost makes = { λ it. sum_of (amount_text it.0) };

    fn make(self, alloc: Global, value: &mut ListText, limits: &Limits) -> Result<(), Interrupt> {
        let integer = integer_in(value.as_text())?;
        let amount = amount_in(self.0)?;
        let sum = within(sum(alloc, integer, amount)?, limits)?;
        *value = ListText::of(sum);
        Ok(())
    }
}

// incr name ?n?
#[tactic(auto, using(crate::proofs::Causes::tells))]
fn run_incr(
    alloc: Global,
    command: &Txt,
    words: &[Txt],
    variables: &mut Vars,
    limits: &Limits,
) -> Result<Txt, Interrupt>
    ensures value { GivesSo (λ t. (t, variables.new)) result (incr_does limits.now command.now words.now variables.old) }
    ensures err { OnErr result (variables.new ≡ variables.old) }
{
    match words {
        [name] => {
            let value = make(alloc, variables, name, Increase(None), b"0", limits)?;
            Ok(value)
        }
        [name, amount] => {
            let value = make(alloc, variables, name, Increase(Some(amount)), b"0", limits)?;
            Ok(value)
        }
        _ => Err(wrong_words(command)),
    }
}

// append name value ..
#[tactic(auto, using(crate::proofs::Causes::tells))]
fn run_append(
    alloc: Global,
    command: &Txt,
    words: &[Txt],
    variables: &mut Vars,
    limits: &Limits,
) -> Result<Txt, Interrupt>
    ensures value { GivesSo (λ t. (t, variables.new)) result (append_does limits.now command.now words.now variables.old) }
    ensures err { OnErr result (variables.new ≡ variables.old) }
{
    match words {
        [name, texts @ ..] if !texts.is_empty() => {
            let value = make(alloc, variables, name, MoreTexts(texts), b"", limits)?;
            Ok(value)
        }
        _ => Err(wrong_words(command)),
    }
}

// lappend name value ..
#[tactic(auto, using(crate::proofs::Causes::tells))]
fn run_lappend(
    alloc: Global,
    command: &Txt,
    words: &[Txt],
    variables: &mut Vars,
    limits: &Limits,
) -> Result<Txt, Interrupt>
    ensures value { GivesSo (λ t. (t, variables.new)) result (lappend_does limits.now command.now words.now variables.old) }
    ensures err { OnErr result (variables.new ≡ variables.old) }
{
    match words {
        [name, elements @ ..] if !elements.is_empty() => {
            let value = make(alloc, variables, name, MoreElements(elements), b"", limits)?;
            Ok(value)
        }
        _ => Err(wrong_words(command)),
    }
}

// Makes a name a link.
fn link(variables: &mut Vars, name: &Txt, limits: &Limits) -> Result<(), Interrupt>
    ensures value { GivesSo (λ _. variables.new) result (link_within limits.now name.now variables.old) }
    ensures err { OnErr result (variables.new ≡ variables.old) }
{
    if !may_grow(variables.grown_by_link(name), limits) {
        return Err(Interrupt::TooLarge);
    }
    variables.link_global(name)?;
    Ok(())
}

// Makes names links one after the other.
fn link_all(variables: &mut Vars, names: &[Txt], limits: &Limits) -> Result<(), Interrupt>
    ensures { GivesSo (λ _. variables.new) result (with_global_links limits.now names.now variables.old) }
{
    for name in names {
        link(variables, name, limits)?;
    }
    Ok(())
}

// The same, where an error leaves the variables as they were.
fn link_each(variables: &mut Vars, names: &[Txt], limits: &Limits) -> Result<(), Interrupt>
    ensures value { GivesSo (λ _. variables.new) result (with_global_links limits.now names.now variables.old) }
    ensures err { OnErr result (variables.new ≡ variables.old) }
{
    if let [name] = names {
        link(variables, name, limits)?;
        return Ok(());
    }
    if variables.link_new(names, limits.items as usize)? {
        return Ok(());
    }
    let mut left = variables.share()?;
    link_all(&mut left, names, limits)?;
    *variables = left;
    Ok(())
}

// global name ..
#[tactic(auto, using(crate::proofs::Causes::tells))]
fn run_global(
    alloc: Global,
    command: &Txt,
    words: &[Txt],
    variables: &mut Vars,
    limits: &Limits,
) -> Result<Txt, Interrupt>
    ensures value { GivesSo (λ t. (t, variables.new)) result (global_does limits.now command.now words.now variables.old) }
    ensures err { OnErr result (variables.new ≡ variables.old) }
{
    if words.is_empty() {
        return Err(wrong_words(command));
    }
    link_each(variables, words, limits)?;
    Ok(Txt::new(alloc))
}

// info exists name
#[tactic(auto, using(crate::proofs::Causes::tells))]
fn run_info(
    alloc: Global,
    command: &Txt,
    words: &[Txt],
    variables: &Vars,
    limits: &Limits,
) -> Result<Txt, Interrupt>
    ensures { GivesSo (λ t. (t, variables.now)) result (info_does limits.now command.now words.now variables.now) }
{
    match words {
        [subcommand, name] if subcommand.as_bytes() == b"exists".as_slice() => {
            let there = truth_text(alloc, variables.exists(name)?)?;
            let there = within(there, limits)?;
            Ok(there)
        }
        _ => Err(wrong_words(command)),
    }
}
