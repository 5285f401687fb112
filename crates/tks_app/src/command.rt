//! One command.
ghost use Rattle.std.specs.Prelude.{◌≡◌, ℕ, List, IfOk};
ghost use Rattle.std.proofs.Props.{props};
ghost use Rattle.tks_app.specs.Applications.{Meaning};
ghost use Rattle.tks_app.specs.declared.answer.AppAnswer.{AppAnswer};

use crate::{AppAnswer, AppBody, AppClosure};
use std::alloc::AllocError;
use std::marker::{Model, PhantomData};
use tks_text::Txt;

/// What the commands of an application mean. A type that says so is never made: it names the application.
pub trait AppMeaning {
    /// What each answers, from its name, its memory and the words behind the name.
    ghost meaning: { Meaning };
}

/// A command: its name, and what it runs. Contracts see both.
#[derive(Drop)]
pub struct AppCommand<T: AppMeaning, B: AppBody = AppClosure> {
    name: Txt,
    body: B,
    of: PhantomData<T>,
    ghost callable: { B.callable body } by { B.callable_is_fact body },
    ghost answers: { (memory : List ℕ) (words : List (List ℕ)) (a : AppAnswer) → B.may_answer body memory words a → a ≡ T.meaning name memory words } by { Prim.hlevel props },
}

impl<T: AppMeaning, B: AppBody> Model for AppCommand<T, B> {
    ghost use Rattle.tks_app.specs.Applications.{Command, command_code};

    ghost Value = { Command B };

    ghost coded = { command_code B.code };

    ghost view = { λ c. record { name = c.name; body = c.body } };
}

impl<T: AppMeaning, B: AppBody> AppCommand<T, B> {
    /// A command, of a body that may be run on any memory and words and, where it answers, answers as `T` states.
    pub fn new(name: Txt, body: B) -> AppCommand<T, B>
        requires callable { B.callable body }
        requires answers { (memory : List ℕ) (words : List (List ℕ)) (a : AppAnswer) → B.may_answer body memory words a → a ≡ T.meaning name memory words }
        ensures { result ≡ record { name = name; body = body } }
    {
        AppCommand {
            name,
            body,
            of: PhantomData,
        }
    }

    /// Its name.
    pub fn name(&self) -> &Txt
        ensures { result.now ≡ self.now.name }
    {
        &self.name
    }

    /// What it answers. Memory is refused where its body is refused it.
    pub fn call(&self, memory: &Txt, words: &[Txt]) -> Result<AppAnswer, AllocError>
        ensures answer { IfOk result (λ a. a ≡ T.meaning self.now.name memory.now words.now) }
    {
        self.body.run(memory, words)
    }
}
