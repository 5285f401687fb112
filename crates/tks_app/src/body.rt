//! What a command runs.
ghost use Rattle.std.specs.Prelude.{◌≡◌, ℕ, List, IfOk, Ok};
ghost use Rattle.std.proofs.Props.{props};
ghost use Rattle.tks_app.specs.declared.answer.AppAnswer.{AppAnswer};

use crate::AppAnswer;
use std::alloc::AllocError;
use tks_text::Txt;

/// What a command runs, from its memory and the words behind its name.
pub trait AppBody: Drop {
    /// It may be run on any memory and words.
    ghost callable: { Self → Type 0 };

    ghost callable_is_fact: { (b : Self) → IsProp (callable b) };

    /// What it may answer, from memory and words.
    ghost may_answer: { Self → List ℕ → List (List ℕ) → AppAnswer → Type 0 };

    /// Runs it.
    fn run(&self, memory: &Txt, words: &[Txt]) -> Result<AppAnswer, AllocError>
        requires callable { callable self.now }
        ensures answer { IfOk result (λ a. may_answer self.now memory.now words.now a) };
}

/// A closure that is kept on the heap.
pub type AppClosure = Box<dyn Fn(&Txt, &[Txt]) -> Result<AppAnswer, AllocError>>;

impl AppBody for AppClosure {
    ghost callable = { λ b. IsAlwaysCallable b };

    ghost callable_is_fact = { λ b. Prim.hlevel props };

    ghost may_answer = { λ b memory words answer. (m : _) × (ws : _) × post b m ws (Ok answer) × (m.now ≡ memory) × (ws.now ≡ words) };

    fn run(&self, memory: &Txt, words: &[Txt]) -> Result<AppAnswer, AllocError> {
        (*self)(memory, words)
    }
}
