//! Parameters of procedures.
ghost use Rattle.std.specs.Prelude.{◌≡◌, length, OnOk};
ghost use Rattle.tks_spelling.specs.Spelling.{text, option};
ghost use Rattle.tks_spelling.specs.Reading.{Gives};
ghost use Rattle.tks_spelling.specs.Writing.{PutsSo, flattened};
ghost use Rattle.tks_spelling.specs.Lengths.{counted};
ghost use Rattle.tks_codec_variables.specs.Procedures as kinds;
ghost use Rattle.tks_codec_variables.specs.Procedures.{parameter_at, parameter_parts};

use std::alloc::{AllocError, Global};
use tks_spelling::reading::{presence_of, text_of};
use tks_spelling::writing::{put_presence, put_text};
use tks_spelling::{Members, Unread, text_length};
use tks_text::Txt;
use tks_vars::Parameter;

// A default, if there is one.
fn default_of(alloc: Global, bytes: &[u8]) -> Result<(Option<Txt>, &[u8]), Unread>
    ensures { Gives (λ x. (x.0, x.1.now)) result ((option text).read bytes.now) }
{
    let (is_there, rest) = presence_of(bytes)?;
    if !is_there {
        return Ok((None, rest));
    }
    let (value, rest) = text_of(alloc, rest)?;
    Ok((Some(value), rest))
}

// A parameter.
#[tactic(auto, unfolding(crate::specs::Procedures::parameter_at))]
fn parameter_of(alloc: Global, bytes: &[u8]) -> Result<(Parameter, &[u8]), Unread>
    ensures { Gives (λ x. (x.0, x.1.now)) result (parameter_at bytes.now) }
{
    let (name, rest) = text_of(alloc, bytes)?;
    let (default, rest) = default_of(alloc, rest)?;
    Ok((Parameter { name, default }, rest))
}

// Adds a default, if there is one.
#[tactic(auto, using(tks_spelling::proofs::Puts::put_behind))]
fn put_default(out: &mut Vec<u8>, default: &Option<Txt>) -> Result<(), AllocError>
    ensures puts { PutsSo result out.old.items out.new.items ((option text).write default.now) }
    ensures legal { OnOk result ((option text).Legal default.now) }
{
    match default {
        None => put_presence(out, false),
        Some(value) => {
            put_presence(out, true)?;
            put_text(out, value)
        }
    }
}

// The length of a default, if there is one.
fn default_length(default: &Option<Txt>) -> u64
    ensures { result ≡ counted (length ((option text).write default.now)) }
{
    match default {
        None => 1,
        Some(value) => text_length(value).saturating_add(1),
    }
}

// Adds the parts of a parameter.
#[tactic(auto, using(tks_spelling::proofs::Puts::flattened_puts))]
fn put_parts(out: &mut Vec<u8>, parameter: &Parameter) -> Result<(), AllocError>
    ensures puts { PutsSo result out.old.items out.new.items (flattened (parameter_parts parameter.now)) }
    ensures legal { OnOk result (kinds.parameter.Legal parameter.now) }
{
    put_text(out, &parameter.name)?;
    put_default(out, &parameter.default)
}

/// Parameters.
#[derive(Clone, Copy)]
pub struct Parameters;

impl Members<Parameter> for Parameters {
    ghost use Rattle.tks_codec_variables.specs.Procedures.{parameter};

    ghost spelling = { λ parameters. parameter };

    ghost IsSound = { λ parameters p. Unit {0} };

    #[tactic(auto, unfolding(crate::specs::Procedures::parameter_at))]
    fn read<'a>(&self, alloc: Global, bytes: &'a [u8]) -> Result<(Parameter, &'a [u8]), Unread> {
        parameter_of(alloc, bytes)
    }

    #[tactic(auto, unfolding(tks_spelling::specs::Writing::flattened))]
    fn put(&self, out: &mut Vec<u8>, parameter: &Parameter) -> Result<(), AllocError> {
        put_parts(out, parameter)
    }

    #[tactic(auto, using(tks_spelling::proofs::Counting::lengths))]
    fn spelled_length(&self, parameter: &Parameter) -> u64 {
        text_length(&parameter.name).saturating_add(default_length(&parameter.default))
    }
}
