//! Variables and procedures.
ghost use Rattle.std.specs.Prelude.{◌≡◌, length, [], OnOk};
ghost use Rattle.tks_spelling.specs.Reading.{Gives};
ghost use Rattle.tks_spelling.specs.Writing.{PutsSo, flattened};
ghost use Rattle.tks_spelling.specs.Lengths.{counted};
ghost use Rattle.tks_codec_variables.specs.Variables as kinds;
ghost use Rattle.tks_codec_variables.specs.Variables.{variables_at, variables_parts};

use crate::globals::Contents;
use crate::procedure::Procedures;
use crate::table::{put_table, table_length, table_of};
use std::alloc::{AllocError, Global};
use tks_spelling::Unread;
use tks_vars::Vars;

/// Globals and procedures, at global level.
#[tactic(auto, unfolding(crate::specs::Table::table_at, crate::specs::Variables::variables_at))]
pub fn variables_of(alloc: Global, bytes: &[u8]) -> Result<(Vars, &[u8]), Unread>
    ensures { Gives (λ x. (x.0, x.1.now)) result (variables_at bytes.now) }
{
    let (globals, rest) = table_of(alloc, Contents, bytes)?;
    let (procedures, rest) = table_of(alloc, Procedures, rest)?;
    Ok((Vars::restore(alloc, globals, procedures), rest))
}

// Adds the parts of variables.
#[tactic(auto, using(tks_spelling::proofs::Puts::flattened_puts))]
fn put_parts(out: &mut Vec<u8>, variables: &Vars) -> Result<(), AllocError>
    ensures puts { PutsSo result out.old.items out.new.items (flattened (variables_parts variables.now)) }
    ensures legal { OnOk result (variables.now.locals ≡ [] → kinds.variables.Legal variables.now) }
{
    put_table(out, Contents, variables.globals())?;
    put_table(out, Procedures, variables.named_procedures())
}

/// Adds the globals and the procedures. They are read back where no frame was begun.
#[tactic(auto, unfolding(tks_spelling::specs::Writing::flattened))]
pub fn put_variables(out: &mut Vec<u8>, variables: &Vars) -> Result<(), AllocError>
    ensures puts { PutsSo result out.old.items out.new.items (kinds.variables.write variables.now) }
    ensures legal { OnOk result (variables.now.locals ≡ [] → kinds.variables.Legal variables.now) }
{
    put_parts(out, variables)
}

/// The length of the spelling of the globals and the procedures, in bytes.
#[tactic(auto, using(tks_spelling::proofs::Counting::lengths))]
pub fn variables_length(variables: &Vars) -> u64
    ensures { result ≡ counted (length (kinds.variables.write variables.now)) }
{
    table_length(&Contents, variables.globals()).saturating_add(table_length(
        &Procedures,
        variables.named_procedures(),
    ))
}
