//! Calls on variables, in frames that begin and end.

use crate::text::{push_fault, push_text};
use std::alloc::Global;
use tks_share::Share;
use tks_text::{Failure, Seq, Txt, decimal_of};
use tks_vars::{Parameter, Procedure, Vars};

/// Variables, and a copy that was made of them.
#[derive(Drop)]
pub struct Calls {
    variables: Vars,
    copy: Vars,
}

// A number, or nothing.
fn number(alloc: Global, number: Option<usize>) -> Result<Txt, Failure> {
    match number {
        None => Ok(Txt::new(alloc)),
        Some(number) => Ok(decimal_of(alloc, i64::try_from(number).unwrap_or(-1))?),
    }
}

// Puts a procedure with this body and one parameter, whose default is 1.
fn define(alloc: Global, variables: &mut Vars, name: &Txt, body: Txt) -> Result<(), Failure> {
    let mut params = Seq::new(alloc);
    let number = Txt::from_text(alloc, b"n")?;
    let one = decimal_of(alloc, 1)?;
    params.push(Parameter {
        name: number,
        default: Some(one),
    })?;
    variables.set_procedure(name, Procedure { params, body })?;
    Ok(())
}

// How many parameters a procedure has, and its body; nothing where there is none.
fn procedure(alloc: Global, variables: &Vars, name: &Txt) -> Result<Txt, Failure> {
    match variables.procedure(name) {
        None => Ok(Txt::new(alloc)),
        Some(procedure) => {
            let mut shown = number(alloc, Some(procedure.params.len()))?;
            shown.append(&procedure.body)?;
            Ok(shown)
        }
    }
}

// What a call answers that changes nothing.
fn asked(alloc: Global, variables: &Vars, call: &str, name: &Txt) -> Result<Txt, Failure> {
    match call {
        "get" => Ok(variables.get(name)?.try_clone()?),
        "get global" => Ok(variables.get_global(name)?.try_clone()?),
        "exists" => number(alloc, Some(usize::from(variables.exists(name)?))),
        "grown by value" => number(alloc, variables.grown_by_value(name)),
        "grown by global value" => number(alloc, variables.grown_by_global_value(name)),
        "grown by link" => number(alloc, variables.grown_by_link(name)),
        "depth" => number(alloc, Some(variables.depth())),
        "length" => number(alloc, Some(variables.frame_len())),
        "procedures" => number(alloc, Some(variables.procedures())),
        "procedure" => procedure(alloc, variables, name),
        _ => Ok(Txt::from_text(alloc, b"no such call")?),
    }
}

impl Calls {
    /// No variables.
    pub fn new(alloc: Global) -> Calls {
        Calls {
            variables: Vars::new(alloc),
            copy: Vars::new(alloc),
        }
    }

    // Makes a call that changes the variables, and says whether there is such a call.
    fn change(
        &mut self,
        alloc: Global,
        call: &str,
        name: &Txt,
        value: Txt,
    ) -> Result<bool, Failure> {
        match call {
            "new" => self.variables = Vars::new(alloc),
            "copy" => self.copy = self.variables.share()?,
            "back" => self.variables = self.copy.share()?,
            "set" => self.variables.set(name, &value)?,
            "set global" => self.variables.set_global(name, &value)?,
            "unset" => self.variables.unset(name)?,
            "global" => self.variables.link_global(name)?,
            "push" => self.variables.push_frame()?,
            "push global" => self.variables.push_global()?,
            "pop" => self.variables.pop_frame(),
            "define" => define(alloc, &mut self.variables, name, value)?,
            _ => return Ok(false),
        }
        Ok(true)
    }

    // What a call answers: where it changes the variables, its value.
    fn called(
        &mut self,
        alloc: Global,
        call: &str,
        name: &Txt,
        value: &Txt,
    ) -> Result<Txt, Failure> {
        if self.change(alloc, call, name, value.try_clone()?)? {
            Ok(value.try_clone()?)
        } else {
            asked(alloc, &self.variables, call, name)
        }
    }

    /// What the call of a row answers: its name, the variable's and a value, with bars between them.
    pub fn shown(&mut self, alloc: Global, row: &str) -> Option<String> {
        let (call, rest) = row.split_once('|')?;
        let (name, value) = rest.split_once('|')?;
        let name = Txt::from_bytes(alloc, name.as_bytes()).ok()?;
        let value = Txt::from_bytes(alloc, value.as_bytes()).ok()?;
        let mut shown = String::new(alloc);
        match self.called(alloc, call, &name, &value) {
            Ok(text) => push_text(&mut shown, &text)?,
            Err(Failure::Script(fault)) => push_fault(alloc, &mut shown, &fault)?,
            Err(Failure::NoMemory) => return None,
        }
        Some(shown)
    }
}
