//! `proc`, and calls of procedures.
ghost use Rattle.std.specs.Prelude.{◌≡◌, ◌||◌, is_some, nat_lt, Ok, IfOk, OnErr};
ghost use Rattle.std.specs.FinMap as map;
ghost use Rattle.std.specs.List.{list_all};
ghost use Rattle.tks_tcl.specs.Cause.{after};
ghost use Rattle.tks_text.specs.Limits.{fits};
ghost use Rattle.tks_tcl.specs.Meets.{GivesSo};
ghost use Rattle.tks_eval.specs.Procedures.{parameter_named, parameter, parameters_in, takes_rest, arguments, with_arguments, entered, script_in, defined, is_taken, proc_form};

use crate::host::Host;
use std::alloc::{AllocError, Global};
use tks_list::join;
use tks_parse::Script;
use tks_parse_table::ParseTable;
use tks_tcl::{Interrupt, error_about, is_built_in, list_in, wrong_words};
use tks_text::{ErrorNumber, Limits, Seq, Txt, fits};
use tks_vars::{Arguments, Parameter, Procedure, Vars, names_whole};

// A parameter of this name.
#[tactic(auto, using(tks_tcl::proofs::Causes::tells))]
fn parameter_named(
    procedure: &Txt,
    name: &Txt,
    default: Option<Txt>,
) -> Result<Parameter, Interrupt>
    ensures { GivesSo (λ p. p) result (parameter_named procedure.now name.now default) }
{
    if name.is_empty() || !names_whole(name) {
        return Err(error_about(ErrorNumber::BadName, procedure));
    }
    Ok(Parameter {
        name: name.try_clone()?,
        default,
    })
}

// A parameter: a name, or a name and a default.
#[tactic(auto, using(tks_tcl::proofs::Causes::tells))]
fn parameter(procedure: &Txt, fields: &[Txt]) -> Result<Parameter, Interrupt>
    ensures { GivesSo (λ p. p) result (parameter procedure.now fields.now) }
{
    match fields {
        [name] => parameter_named(procedure, name, None),
        [name, default] => parameter_named(procedure, name, Some(default.try_clone()?)),
        _ => Err(error_about(ErrorNumber::BadName, procedure)),
    }
}

// The parameters that a text says, of a procedure of this name.
fn parameters_in(alloc: Global, procedure: &Txt, text: &Txt) -> Result<Seq<Parameter>, Interrupt>
    ensures { GivesSo (λ ps. ps) result (parameters_in procedure.now text.now) }
{
    let words = list_in(alloc, text)?;
    let mut parameters = Seq::new(alloc);
    for word in words.as_slice() {
        let fields = list_in(alloc, word)?;
        parameters.push(parameter(procedure, fields.as_slice())?)?;
    }
    Ok(parameters)
}

// Whether a parameter takes all words that are left.
fn takes_rest(parameter: &Parameter, behind: &[Parameter]) -> bool
    ensures { result ≡ takes_rest parameter.now behind.now }
{
    behind.is_empty() && parameter.name.as_bytes() == b"args".as_slice()
}

// The values that the words of a call give to parameters, behind those that are given, or none where the number of words is
// wrong.
fn arguments(
    alloc: Global,
    given: Arguments,
    parameters: &[Parameter],
    words: &[Txt],
) -> Result<Option<Arguments>, AllocError>
    ensures { IfOk result (λ all. all ≡ arguments given parameters.now words.now) }
{
    let mut given = given;
    let mut parameters = parameters;
    let mut words = words;
    'parameter: while let Some((parameter, behind)) = parameters.split_first() {
        if takes_rest(parameter, behind) {
            given.push(&parameter.name, join(alloc, words)?)?;
            return Ok(Some(given));
        }
        parameters = behind;
        if let Some((word, more)) = words.split_first() {
            given.push(&parameter.name, word.try_clone()?)?;
            words = more;
            continue 'parameter;
        }
        let Some(default) = &parameter.default else {
            return Ok(None);
        };
        given.push(&parameter.name, default.try_clone()?)?;
    }
    if words.is_empty() {
        Ok(Some(given))
    } else {
        Ok(None)
    }
}

// Begins a frame with these arguments, where they pass no limit.
fn push_frame(variables: &mut Vars, arguments: Arguments, limits: &Limits) -> Result<(), Interrupt>
    ensures value { GivesSo (λ _. variables.new) result (with_arguments limits.now arguments variables.old) }
    ensures err { OnErr result (variables.new ≡ variables.old) }
{
    if !arguments.all_within(limits.text as usize) {
        return Err(Interrupt::TooLarge);
    }
    variables.push_frame_with(arguments)?;
    if variables.frame_len() > limits.items as usize {
        variables.pop_frame();
        return Err(Interrupt::TooLarge);
    }
    Ok(())
}

/// Begins a call of the procedure of this name, and gives the script that its body spells. An error leaves the variables as
/// they were.
#[tactic(auto, using(tks_tcl::proofs::Causes::tells))]
pub fn enter(
    alloc: Global,
    table: &mut ParseTable,
    variables: &mut Vars,
    command: &Txt,
    words: &[Txt],
    limits: &Limits,
) -> Result<Script, Interrupt>
    ensures err { OnErr result (variables.new ≡ variables.old) }
    ensures value { GivesSo (λ script. (script, variables.new)) result (after (entered limits.now command.now words.now variables.old (map.get variables.old.procedures command.now)) (λ x. Ok (script_in x))) }
{
    let given = variables.no_arguments()?;
    let Some(procedure) = variables.procedure(command) else {
        return Err(error_about(ErrorNumber::NoSuchCommand, command));
    };
    let Some(arguments) = arguments(alloc, given, procedure.params.as_slice(), words)? else {
        return Err(error_about(ErrorNumber::WrongWords, command));
    };
    let script = table.script(alloc, &procedure.body)?;
    push_frame(variables, arguments, limits)?;
    Ok(script)
}

// Whether a procedure of this name may be defined.
fn has_room(variables: &Vars, name: &Txt, limits: &Limits) -> bool
    ensures { result ≡ (is_some (map.get variables.now.procedures name.now) || nat_lt (map.len variables.now.procedures) limits.now.items) }
{
    variables.procedure(name).is_some() || variables.procedures() < limits.items as usize
}

// Defines a procedure. An error leaves the variables as they were.
fn define(
    alloc: Global,
    variables: &mut Vars,
    name: &Txt,
    params: &Txt,
    body: &Txt,
    limits: &Limits,
) -> Result<(), Interrupt>
    ensures value { GivesSo (λ _. variables.new) result (defined limits.now name.now params.now body.now variables.old) }
    ensures err { OnErr result (variables.new ≡ variables.old) }
{
    let params = parameters_in(alloc, name, params)?;
    let body = body.try_clone()?;
    if !has_room(variables, name, limits) {
        return Err(Interrupt::TooLarge);
    }
    variables.set_procedure(name, Procedure { params, body })?;
    Ok(())
}

// Whether no procedure may have this name.
fn is_taken<H: Host>(host: &H, name: &Txt) -> bool
    ensures { result ≡ is_taken H.meaning (H.state host.now) name.now }
{
    is_built_in(name) || host.owns(name) || name.as_bytes().starts_with(b".")
}

/// Defines the procedure that the words of a `proc` say. An error leaves the variables as they were.
#[tactic(auto, using(tks_tcl::proofs::Causes::tells))]
pub fn run_proc<H: Host>(
    alloc: Global,
    host: &H,
    variables: &mut Vars,
    command: &Txt,
    words: &[Txt],
    limits: &Limits,
) -> Result<(), Interrupt>
    ensures value { GivesSo (λ _. variables.new) result (proc_form H.meaning limits.now command.now words.now (H.state host.now) variables.old) }
    ensures err { OnErr result (variables.new ≡ variables.old) }
{
    match words {
        [name, params, body] => {
            if is_taken(host, name) {
                return Err(error_about(ErrorNumber::BadName, name));
            }
            define(alloc, variables, name, params, body, limits)?;
            Ok(())
        }
        _ => Err(wrong_words(command)),
    }
}
