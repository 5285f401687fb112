//! An application without commands.
ghost use Rattle.std.proofs.Props.{props};

use std::alloc::AllocError;
use tks_app::{AppAnswer, AppBody, AppMeaning};
use tks_text::Txt;

/// What its commands would run, if there were any: it is refused memory.
#[derive(Drop)]
pub struct Nothing;

impl AppMeaning for Nothing {
    ghost use Rattle.std.specs.Prelude.{[]};
    ghost use Rattle.tks_app.specs.declared.answer.AppCode.TheVariants.{Error};

    ghost meaning = { λ name memory words. record { code = Error; text = []; memory = memory } };
}

impl AppBody for Nothing {
    ghost callable = { λ b. Unit {0} };

    ghost callable_is_fact = { λ b. Prim.hlevel props };

    ghost may_answer = { λ b memory words answer. ⊥ };

    fn run(&self, _memory: &Txt, _words: &[Txt]) -> Result<AppAnswer, AllocError> {
        Err(AllocError)
    }
}
