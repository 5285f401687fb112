//! Procedures.
ghost use Rattle.std.specs.Prelude.{OnOk};
ghost use Rattle.tks_spelling.specs.Writing.{PutsSo, flattened};
ghost use Rattle.tks_codec_variables.specs.Procedures as kinds;
ghost use Rattle.tks_codec_variables.specs.Procedures.{procedure_parts};

use crate::parameter::Parameters;
use crate::table::Named;
use std::alloc::{AllocError, Global};
use tks_spelling::reading::text_of;
use tks_spelling::writing::put_text;
use tks_spelling::{Members, Unread, list_length, list_of, put_list, text_length};
use tks_vars::Procedure;

// Adds the parts of a procedure.
#[tactic(auto, using(tks_spelling::proofs::Puts::flattened_puts))]
fn put_parts(out: &mut Vec<u8>, procedure: &Procedure) -> Result<(), AllocError>
    ensures puts { PutsSo result out.old.items out.new.items (flattened (procedure_parts procedure.now)) }
    ensures legal { OnOk result (kinds.procedure.Legal procedure.now) }
{
    put_list(out, Parameters, procedure.params.as_slice())?;
    put_text(out, &procedure.body)
}

/// Procedures.
#[derive(Clone, Copy)]
pub struct Procedures;

impl Members<Procedure> for Procedures {
    ghost use Rattle.tks_codec_variables.specs.Procedures.{procedure};

    ghost spelling = { λ procedures. procedure };

    ghost IsSound = { λ procedures p. Unit {0} };

    fn read<'a>(&self, alloc: Global, bytes: &'a [u8]) -> Result<(Procedure, &'a [u8]), Unread> {
        let (params, rest) = list_of(alloc, Parameters, bytes)?;
        let (body, rest) = text_of(alloc, rest)?;
        Ok((Procedure { params, body }, rest))
    }

    #[tactic(auto, unfolding(tks_spelling::specs::Writing::flattened))]
    fn put(&self, out: &mut Vec<u8>, procedure: &Procedure) -> Result<(), AllocError> {
        put_parts(out, procedure)
    }

    #[tactic(auto, using(tks_spelling::proofs::Counting::lengths))]
    fn spelled_length(&self, procedure: &Procedure) -> u64 {
        list_length(&Parameters, procedure.params.as_slice()).saturating_add(text_length(
            &procedure.body,
        ))
    }
}

impl Named<Procedure> for Procedures {
    ghost all_are_sound = { λ procedures p. tt };
}
