//! An application with one command, which counts how often it was called.
ghost use Rattle.std.specs.Prelude.{◌≡◌, IfOk};
ghost use Rattle.std.proofs.Props.{props};
ghost use Rattle.tests_world.specs.Counting.{count_behind};

use std::alloc::{AllocError, Global};
use tks_app::{AppAnswer, AppBody, AppCode, AppCommand, AppMeaning, Apps};
use tks_text::Txt;

/// What the command means.
#[derive(Drop)]
pub struct Counting;

impl AppMeaning for Counting {
    ghost use Rattle.tests_world.specs.Counting.{counted};

    ghost meaning = { λ name memory words. counted memory };
}

/// What the command runs.
#[derive(Drop)]
pub struct Counter {
    alloc: Global,
}

// The count behind the calls that left this memory.
fn count_behind(alloc: Global, memory: &Txt) -> Result<Txt, AllocError>
    ensures { IfOk result (λ t. t ≡ count_behind memory.now) }
{
    match memory.as_bytes() {
        [] => Txt::from_text(alloc, b"1"),
        [_] => Txt::from_text(alloc, b"2"),
        _ => Txt::from_text(alloc, b"3"),
    }
}

impl AppBody for Counter {
    ghost use Rattle.std.specs.Prelude.{◌≡◌};
    ghost use Rattle.tests_world.specs.Counting.{counted};

    ghost callable = { λ b. Unit {0} };

    ghost callable_is_fact = { λ b. Prim.hlevel props };

    ghost may_answer = { λ b memory words answer. answer ≡ counted memory };

    fn run(&self, memory: &Txt, _words: &[Txt]) -> Result<AppAnswer, AllocError> {
        let text = count_behind(self.alloc, memory)?;
        let mut more = memory.try_clone()?;
        more.append(&Txt::from_text(self.alloc, b"x")?)?;
        Ok(AppAnswer {
            code: AppCode::Value,
            text,
            memory: more,
        })
    }
}

/// An application whose command `app.next` counts.
pub fn with_counter(alloc: Global) -> Option<Apps<Counting, Counter>> {
    let mut apps = Apps::new(alloc);
    let name = Txt::from_text(alloc, b"app.next").ok()?;
    let command = AppCommand::new(name, Counter { alloc });
    apps.add(command).ok()?;
    Some(apps)
}
