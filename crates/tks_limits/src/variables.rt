//! Variables and procedures.
ghost use Rattle.std.specs.Prelude.{◌≡◌, ◌&&◌, option_map};
ghost use Rattle.std.specs.List.{list_all};
ghost use Rattle.tks_limits.specs.Within as kinds;

use crate::texts::{fits, may_hold};
use tks_list::ListText;
use tks_text::{Limits, Txt};
use tks_vars::{Content, Iter, Parameter, Procedure, Table, Vars};

// Whether the names and values of elements fit.
fn each_element_fits(elements: Iter<'_, ListText>, limits: &Limits) -> bool
    ensures { result ≡ list_all (λ e. kinds.fits limits.now e.0 && kinds.fits limits.now e.1) elements.entry }
{
    for (name, value) in elements {
        if !fits(name, limits) || !fits(value.as_bytes(), limits) {
            return false;
        }
    }
    true
}

// Whether an array fits.
fn elements_fit(elements: &Table<ListText>, limits: &Limits) -> bool
    ensures { result ≡ kinds.elements_fit limits.now elements.now }
{
    may_hold(elements.len(), limits) && each_element_fits(elements.iter(), limits)
}

// Whether a variable fits.
fn global_fits(content: &Content, limits: &Limits) -> bool
    ensures { result ≡ kinds.global_fits limits.now content.now }
{
    match content {
        Content::Scalar(value) => fits(value.as_bytes(), limits),
        Content::Array(elements) => elements_fit(elements, limits),
    }
}

// Whether the names of variables, and the variables, fit.
fn each_global_fits(globals: Iter<'_, Content>, limits: &Limits) -> bool
    ensures { result ≡ list_all (λ e. kinds.fits limits.now e.0 && kinds.global_fits limits.now e.1) globals.entry }
{
    for (name, content) in globals {
        if !fits(name, limits) || !global_fits(content, limits) {
            return false;
        }
    }
    true
}

// Whether a parameter's default fits.
fn default_fits(default: Option<&Txt>, limits: &Limits) -> bool
    ensures { result ≡ kinds.default_fits limits.now (option_map (λ t. t.now) default.entry) }
{
    match default {
        None => true,
        Some(value) => fits(value.as_bytes(), limits),
    }
}

// Whether parameters fit.
fn params_fit(params: &[Parameter], limits: &Limits) -> bool
    ensures { result ≡ list_all (λ a. kinds.fits limits.now a.name && kinds.default_fits limits.now a.default) params.now }
{
    for param in params {
        if !fits(param.name.as_bytes(), limits) || !default_fits(param.default.as_ref(), limits) {
            return false;
        }
    }
    true
}

// Whether a procedure fits.
fn procedure_fits(procedure: &Procedure, limits: &Limits) -> bool
    ensures { result ≡ kinds.procedure_fits limits.now procedure.now }
{
    params_fit(procedure.params.as_slice(), limits) && fits(procedure.body.as_bytes(), limits)
}

// Whether the names of procedures, and the procedures, fit.
fn each_procedure_fits(procedures: Iter<'_, Procedure>, limits: &Limits) -> bool
    ensures { result ≡ list_all (λ e. kinds.fits limits.now e.0 && kinds.procedure_fits limits.now e.1) procedures.entry }
{
    for (name, procedure) in procedures {
        if !fits(name, limits) || !procedure_fits(procedure, limits) {
            return false;
        }
    }
    true
}

// Whether the variables at global level fit.
fn globals_fit(globals: &Table<Content>, limits: &Limits) -> bool
    ensures { result ≡ kinds.globals_fit limits.now globals.now }
{
    may_hold(globals.len(), limits) && each_global_fits(globals.iter(), limits)
}

// Whether procedures fit.
fn procedures_fit(procedures: &Table<Procedure>, limits: &Limits) -> bool
    ensures { result ≡ kinds.procedures_fit limits.now procedures.now }
{
    may_hold(procedures.len(), limits) && each_procedure_fits(procedures.iter(), limits)
}

/// Whether variables and procedures fit.
pub fn variables_fit(variables: &Vars, limits: &Limits) -> bool
    ensures { result ≡ kinds.variables_fit limits.now variables.now }
{
    globals_fit(variables.globals(), limits) && procedures_fit(variables.named_procedures(), limits)
}
