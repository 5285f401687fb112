//! Changes of variables, given what their names say.
ghost use Rattle.std.specs.Prelude.{◌≡◌, OnErr, false};
ghost use Rattle.std.specs.FinMap as map;
ghost use Rattle.tks_text.specs.Fault.{Gives};
ghost use Rattle.tks_vars.specs.View.{name_seen};
ghost use Rattle.tks_vars.specs.Variables.{about, is_link, with_link};
ghost use Rattle.tks_vars.specs.Parts.{put_global, without_name, take_global, take_local};
ghost use Rattle.tks_vars.specs.Names.{element, IsSpelled};
ghost use Rattle.tks_vars.specs.Table.{IsName};

use crate::changing::Setting;
use crate::content::{Content, Local};
use crate::frame::Frame;
use crate::name::{Name, named};
use crate::table::Table;
use std::alloc::Global;
use tks_list::ListText;
use tks_text::{ErrorNumber, Failure, Txt};

/// Gives a global, or an element of one, a value. The error tells the name.
pub fn write_global(
    alloc: Global,
    globals: &mut Table<Content>,
    name: &Txt,
    part: Name<'_>,
    value: ListText,
) -> Result<(), Failure>
    requires { IsSpelled (name_seen part) }
    ensures value { Gives (λ _. globals.new) result (about name.now (put_global globals.old (name_seen part.entry) value)) }
    ensures err { OnErr result (globals.new ≡ globals.old) }
{
    let mut setting = Setting {
        name,
        index: part.index,
        value: &value,
    };
    match globals.change(part.variable, &mut setting)? {
        Some(answer) => answer,
        None => {
            let content = Content::of(alloc, part.index, value)?;
            globals.insert(part.variable, content)?;
            Ok(())
        }
    }
}

/// Takes a global, or an element of one, out. The error tells the name.
pub fn take_global(globals: &mut Table<Content>, name: &Txt, part: Name<'_>) -> Result<(), Failure>
    requires { IsSpelled (name_seen part) }
    ensures value { Gives (λ _. globals.new) result (about name.now (take_global globals.old (name_seen part.entry))) }
    ensures err { OnErr result (globals.new ≡ globals.old) }
{
    match part.index {
        Some(index) => take_global_element(globals, name, part.variable, index),
        None => take_whole(globals, name, part.variable),
    }
}

/// The same of a procedure's own variable.
pub fn take_local(frame: &mut Frame, name: &Txt, part: Name<'_>) -> Result<(), Failure>
    requires own { is_link (map.get frame.old part.variable.now) ≡ false }
    requires spelled { IsSpelled (name_seen part) }
    ensures value { Gives (λ _. frame.new) result (about name.now (take_local frame.old (name_seen part.entry))) }
    ensures err { OnErr result (frame.new ≡ frame.old) }
{
    match part.index {
        Some(index) => take_local_element(frame, name, part.variable, index),
        None => take_own(frame, name, part.variable),
    }
}

// Takes a global out, with all its elements.
fn take_whole(globals: &mut Table<Content>, name: &Txt, variable: &[u8]) -> Result<(), Failure>
    ensures value { Gives (λ _. globals.new) result (about name.now (without_name globals.old variable.now)) }
    ensures err { OnErr result (globals.new ≡ globals.old) }
{
    if !globals.contains(variable) {
        return Err(Failure::about(ErrorNumber::NoSuchVariable, name));
    }
    globals.remove(variable)?;
    Ok(())
}

// The same of a procedure's own variable.
fn take_own(frame: &mut Frame, name: &Txt, variable: &[u8]) -> Result<(), Failure>
    ensures value { Gives (λ _. frame.new) result (about name.now (without_name frame.old variable.now)) }
    ensures err { OnErr result (frame.new ≡ frame.old) }
{
    if !frame.contains(variable) {
        return Err(Failure::about(ErrorNumber::NoSuchVariable, name));
    }
    frame.remove(variable)?;
    Ok(())
}

// Takes an element of a global out.
fn take_global_element(
    globals: &mut Table<Content>,
    name: &Txt,
    variable: &[u8],
    index: &[u8],
) -> Result<(), Failure>
    requires { IsName variable.now }
    ensures value { Gives (λ _. globals.new) result (about name.now (take_global globals.old (element variable.now index.now))) }
    ensures err { OnErr result (globals.new ≡ globals.old) }
{
    match globals.get(variable) {
        Some(content) => {
            let left = content.left(name, index)?;
            globals.insert(variable, left)?;
            Ok(())
        }
        None => Err(Failure::about(ErrorNumber::NoSuchVariable, name)),
    }
}

// The same of a procedure's own variable.
fn take_local_element(
    frame: &mut Frame,
    name: &Txt,
    variable: &[u8],
    index: &[u8],
) -> Result<(), Failure>
    requires own { is_link (map.get frame.old variable.now) ≡ false }
    requires spelled { IsName variable.now }
    ensures value { Gives (λ _. frame.new) result (about name.now (take_local frame.old (element variable.now index.now))) }
    ensures err { OnErr result (frame.new ≡ frame.old) }
{
    match frame.get(variable) {
        Some(Local::Own(content)) => {
            let left = content.left(name, index)?;
            frame.insert(variable, Local::Own(left))?;
            Ok(())
        }
        _ => Err(Failure::about(ErrorNumber::NoSuchVariable, name)),
    }
}

/// Makes a name of a procedure's frame a link.
pub fn link(frame: &mut Frame, name: &Txt) -> Result<(), Failure>
    ensures value { Gives (λ _. frame.new) result (about name.now (with_link frame.old name.now)) }
    ensures err { OnErr result (frame.new ≡ frame.old) }
{
    let Some(
        Name {
            variable,
            index: None,
        },
    ) = named(name.as_bytes())
    else {
        return Err(Failure::about(ErrorNumber::BadName, name));
    };
    match frame.get(variable) {
        None => {
            frame.insert(variable, Local::Link)?;
            Ok(())
        }
        Some(Local::Link) => Ok(()),
        Some(Local::Own(_)) => Err(Failure::about(ErrorNumber::BadName, name)),
    }
}
