//! Values that grow: texts and elements are put behind them.
ghost use Rattle.std.specs.Prelude.{◌≡◌, ◌++◌, Ok, IfOk, OnOk, true};
ghost use Rattle.tks_list.specs.Growing.{TakesElements};
ghost use Rattle.tks_tcl.specs.Cause.{within};
ghost use Rattle.tks_tcl.specs.Making.{MakesSo, list_with};
ghost use Rattle.tks_tcl.specs.Meets.{GivesSo};
ghost use Rattle.tks_tcl.specs.Variables.{flat, with_elements};

use crate::interrupt::Interrupt;
use crate::making::Making;
use crate::room::{have_room, room_behind};
use crate::words::list_in;
use std::alloc::{AllocError, Global};
use tks_list::{ListText, Suffix};
use tks_text::{Limits, Seq, Txt, fits};

// Puts a text behind a value.
fn put_behind(value: &mut ListText, more: &Suffix, limits: &Limits) -> Result<(), Interrupt>
    ensures { MakesSo limits.now (Ok (value.old ++ more.now)) value.old value.new result }
{
    if room_behind(limits.text as usize, value.len(), more.as_text().len()).is_none() {
        return Err(Interrupt::TooLarge);
    }
    value.append(more)?;
    Ok(())
}

// Adds texts at the end of a text.
fn push_all(text: &mut Txt, more: &[Txt]) -> Result<(), AllocError>
    ensures { OnOk result (text.new ≡ text.old ++ flat more.now) }
{
    for next in more {
        text.append(next)?;
    }
    Ok(())
}

// Texts one after the other.
fn flat(alloc: Global, texts: &[Txt]) -> Result<Txt, AllocError>
    ensures { IfOk result (λ t. t ≡ flat texts.now) }
{
    let mut text = Txt::new(alloc);
    push_all(&mut text, texts)?;
    Ok(text)
}

// The same, where they pass no limit. Where they would, nothing is made.
#[tactic(auto, using(crate::proofs::Lengths::flat_room))]
fn flat_within(alloc: Global, texts: &[Txt], limits: &Limits) -> Result<Txt, Interrupt>
    ensures { GivesSo (λ t. t) result (within limits.now (flat texts.now)) }
{
    if !have_room(texts, 0, limits.text as usize) {
        return Err(Interrupt::TooLarge);
    }
    Ok(flat(alloc, texts)?)
}

/// Texts that are put behind a value.
#[derive(Clone, Copy)]
pub(crate) struct MoreTexts<'a>(pub &'a [Txt]);

impl Making for MoreTexts<'_> {
    ghost use Rattle.tks_tcl.specs.Variables.{with_texts};

    ghost makes = { λ it. with_texts it.0.now };

    fn make(self, alloc: Global, value: &mut ListText, limits: &Limits) -> Result<(), Interrupt> {
        let more = flat_within(alloc, self.0, limits)?;
        put_behind(value, &Suffix::of(more), limits)
    }
}

// Adds elements at the end of a list.
fn push_elements(list: &mut Seq<Txt>, elements: &[Txt]) -> Result<(), AllocError>
    ensures { OnOk result (list.new ≡ list.old ++ elements.now) }
{
    for element in elements {
        list.push(element.try_clone()?)?;
    }
    Ok(())
}

// The list that a text splits into, and elements behind it, where these alone pass no limit.
fn list_with(
    alloc: Global,
    text: &Txt,
    elements: &[Txt],
    limits: &Limits,
) -> Result<ListText, Interrupt>
    ensures { GivesSo (λ t. t) result (list_with limits.now text.now elements.now) }
{
    let mut list = list_in(alloc, text)?;
    if !have_room(elements, 1, limits.text as usize + 1) {
        return Err(Interrupt::TooLarge);
    }
    push_elements(&mut list, elements)?;
    Ok(ListText::of_list(alloc, list.as_slice())?)
}

// Puts elements behind a value that takes them as they are spelled.
fn put_elements(
    alloc: Global,
    value: &mut ListText,
    elements: &[Txt],
    limits: &Limits,
) -> Result<(), Interrupt>
    requires { TakesElements value.old }
    ensures { MakesSo limits.now (with_elements elements.now value.old) value.old value.new result }
{
    if !have_room(elements, 1, limits.text as usize) {
        return Err(Interrupt::TooLarge);
    }
    put_behind(value, &Suffix::of_elements(alloc, elements)?, limits)
}

// Puts elements behind the list that a value splits into, which is spelled anew.
fn join_elements(
    alloc: Global,
    value: &mut ListText,
    elements: &[Txt],
    limits: &Limits,
) -> Result<(), Interrupt>
    ensures { MakesSo limits.now (with_elements elements.now value.old) value.old value.new result }
{
    let list = list_with(alloc, value.as_text(), elements, limits)?;
    if !fits(list.as_text(), limits) {
        return Err(Interrupt::TooLarge);
    }
    *value = list;
    Ok(())
}

/// Elements that are put behind the list in a value.
#[derive(Clone, Copy)]
pub(crate) struct MoreElements<'a>(pub &'a [Txt]);

impl Making for MoreElements<'_> {
    ghost use Rattle.tks_tcl.specs.Variables.{with_elements};

    ghost makes = { λ it. with_elements it.0.now };

    fn make(self, alloc: Global, value: &mut ListText, limits: &Limits) -> Result<(), Interrupt> {
        if value.takes_elements() {
            return put_elements(alloc, value, self.0, limits);
        }
        join_elements(alloc, value, self.0, limits)
    }
}
