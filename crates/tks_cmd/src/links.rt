//! Widgets that are linked to globals.
ghost use Rattle.std.specs.Prelude.{◌≡◌, Ok, Some, OnErr, IfOk};
ghost use Rattle.tks_text.specs.Text.{same_text};
ghost use Rattle.tks_tcl.specs.Cause.{within};
ghost use Rattle.tks_tcl.specs.Meets.{GivesSo};
ghost use Rattle.tks_vars.specs.Variables.{global_value_of};
ghost use Rattle.tks_state.specs.Widget.{class_of};
ghost use Rattle.tks_state.specs.Links.{link_of, text_of, seen, with_text};
ghost use Rattle.tks_cmd.specs.Links.{is_lacking, global_set, made_global, told, stored, settled, first_value};

use crate::contents::holds_within;
use std::alloc::{AllocError, Global};
use tks_button::Assignment;
use tks_state::Widget;
use tks_tcl::{Interrupt, is_missing, store_global};
use tks_text::{Failure, Limits, Txt, fits};
use tks_vars::Vars;

/// Gives a global a value.
pub fn set_global(
    variables: &mut Vars,
    name: &Txt,
    text: Txt,
    limits: &Limits,
) -> Result<(), Interrupt>
    ensures value { GivesSo (λ _. variables.new) result (global_set limits.now name.now text variables.old) }
    ensures err { OnErr result (variables.new ≡ variables.old) }
{
    store_global(variables, name, text, limits)?;
    Ok(())
}

// Whether a global is missing.
fn lacks_global(variables: &Vars, name: &Txt) -> Result<bool, Interrupt>
    ensures { GivesSo (λ b. b) result (Ok (is_lacking (global_value_of variables.now name.now))) }
{
    match variables.get_global(name) {
        Ok(_) => Ok(false),
        Err(Failure::Script(fault)) => Ok(is_missing(fault.number)),
        Err(Failure::NoMemory) => Err(Interrupt::NoMemory),
    }
}

// Makes a global that is missing.
fn make_global(
    variables: &mut Vars,
    name: &Txt,
    text: Txt,
    limits: &Limits,
) -> Result<(), Interrupt>
    ensures value { GivesSo (λ _. variables.new) result (made_global limits.now name.now text variables.old) }
    ensures err { OnErr result (variables.new ≡ variables.old) }
{
    if lacks_global(variables, name)? {
        set_global(variables, name, text, limits)?;
    }
    Ok(())
}

// Whether two texts are the same.
fn is_same(text: &Txt, other: &Txt) -> bool
    ensures { result ≡ same_text text.now other.now }
{
    text.as_bytes() == other.as_bytes()
}

// The text of a widget as it is seen.
fn seen_text(alloc: Global, widget: &Widget, variables: &Vars) -> Result<Txt, AllocError>
    ensures { IfOk result (λ t. t ≡ text_of (seen variables.now widget.now)) }
{
    let seen = widget.seen(alloc, variables)?;
    let text = seen.copied_text(alloc)?;
    Ok(text)
}

// Tells a global what became of the text of a widget that is linked to it, and makes it where the link is set.
fn tell(
    alloc: Global,
    sets_link: bool,
    widget: &Widget,
    name: &Txt,
    text: Txt,
    variables: &mut Vars,
    limits: &Limits,
) -> Result<(), Interrupt>
    ensures value { GivesSo (λ _. variables.new) result (told limits.now sets_link (link_of widget.now) name.now (text_of (seen variables.old widget.now)) text variables.old) }
    ensures err { OnErr result (variables.new ≡ variables.old) }
{
    let Some(link) = widget.link() else {
        make_global(variables, name, text, limits)?;
        return Ok(());
    };
    if sets_link || !is_same(link, name) {
        make_global(variables, name, text, limits)?;
        return Ok(());
    }
    let before = seen_text(alloc, widget, variables)?;
    if !is_same(&before, &text) {
        set_global(variables, name, text, limits)?;
    }
    Ok(())
}

// What the globals are told of a widget that became another, and the widget that is stored in its place.
fn store(
    alloc: Global,
    sets_link: bool,
    widget: &Widget,
    next: &Widget,
    name: &Txt,
    text: Txt,
    variables: &mut Vars,
    limits: &Limits,
) -> Result<Widget, Interrupt>
    requires text { text ≡ text_of next.now }
    ensures value { GivesSo (λ w. (w, variables.new)) result (stored limits.now sets_link (Some name.now) widget.now next.now variables.old) }
    ensures err { OnErr result (variables.new ≡ variables.old) }
    ensures class { IfOk result (λ w. class_of w ≡ class_of next.now) }
{
    let stored = next.with_text(&widget.copied_text(alloc)?)?;
    tell(alloc, sets_link, widget, name, text, variables, limits)?;
    Ok(stored)
}

// Puts what is stored of a widget that became another in the other's place.
fn put_stored(
    alloc: Global,
    sets_link: bool,
    widget: &Widget,
    next: &mut Widget,
    name: &Txt,
    text: Txt,
    variables: &mut Vars,
    limits: &Limits,
) -> Result<(), Interrupt>
    requires text { text ≡ text_of next.old }
    ensures value { GivesSo (λ _. (next.new, variables.new)) result (stored limits.now sets_link (Some name.now) widget.now next.old variables.old) }
    ensures err { OnErr result (variables.new ≡ variables.old) }
    ensures class { class_of next.new ≡ class_of next.old }
{
    let stored = store(
        alloc, sets_link, widget, next, name, text, variables, limits,
    )?;
    *next = stored;
    Ok(())
}

// The text of a widget, which passes no limit.
fn text_within(alloc: Global, widget: &Widget, limits: &Limits) -> Result<Txt, Interrupt>
    ensures { GivesSo (λ t. t) result (within limits.now (text_of widget.now)) }
{
    let text = widget.copied_text(alloc)?;
    if !fits(&text, limits) {
        return Err(Interrupt::TooLarge);
    }
    Ok(text)
}

/// What is kept of a widget after the one that was seen became another, and whether its link was set.
#[tactic(auto, unfolding(crate::specs::Links::settled))]
pub fn settle(
    alloc: Global,
    sets_link: bool,
    widget: &Widget,
    next: &mut Widget,
    variables: &mut Vars,
    limits: &Limits,
) -> Result<(), Interrupt>
    ensures value { GivesSo (λ _. (next.new, variables.new)) result (settled limits.now sets_link widget.now next.old variables.old) }
    ensures err { OnErr result (variables.new ≡ variables.old) }
    ensures class { class_of next.new ≡ class_of next.old }
{
    let text = text_within(alloc, next, limits)?;
    if !holds_within(next, limits) {
        return Err(Interrupt::TooLarge);
    }
    if let Some(name) = next.copied_link()? {
        put_stored(
            alloc, sets_link, widget, next, &name, text, variables, limits,
        )?;
    }
    Ok(())
}

/// Sets the variable of a checkbutton that is made, where it is missing.
#[tactic(auto, unfolding(crate::specs::Links::first_value))]
pub fn set_first_value(
    widget: &Widget,
    variables: &mut Vars,
    limits: &Limits,
) -> Result<(), Interrupt>
    ensures value { GivesSo (λ _. (widget.now, variables.new)) result (first_value limits.now (widget.now, variables.old)) }
    ensures err { OnErr result (variables.new ≡ variables.old) }
{
    if let Some(first) = widget.first_assigned()? {
        let Assignment { variable, value } = first;
        make_global(variables, &variable, value, limits)?;
    }
    Ok(())
}
