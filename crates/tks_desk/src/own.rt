//! The program's own commands: a counter, and a place that keeps a word.
ghost use Rattle.std.specs.Prelude.{◌≡◌, ◌∷◌, [], ℕ, ◌+◌, ◌<◌, ◌≤◌, ◌^◌, List, codes, decimal, IfOk, OnOk};
ghost use Rattle.tks_app.specs.Applications.{with_name};
ghost use Rattle.tks_app.specs.declared.answer.AppAnswer.{AppAnswer};
ghost use Rattle.tks_desk.specs.Own.{counted_to, max_number, next_name, next_of, numbered, swap_name, swap_of, unchanged};

use crate::words::number_in;
use itoa::Buffer;
use std::alloc::{AllocError, Global};
use tks_app::{AppAnswer, AppBody, AppCode, AppCommand, AppMeaning, Apps};
use tks_text::Txt;

/// The greatest number that is counted to.
const MAX_NUMBER: u64 = (1 << 63) - 1;

/// The application whose commands they are.
pub struct Own;

impl AppMeaning for Own {
    ghost use Rattle.tks_desk.specs.Own.{own};

    ghost meaning = { own };
}

// An error, behind which the memory is as it was.
fn unchanged(memory: &Txt, text: Txt) -> Result<AppAnswer, AllocError>
    ensures { IfOk result (λ a. a ≡ unchanged memory.now text) }
{
    Ok(AppAnswer {
        code: AppCode::Error,
        text,
        memory: memory.try_clone()?,
    })
}

// How far a memory has counted.
fn counted_to(memory: &Txt) -> u64
    ensures value { result ≡ counted_to memory.now }
    ensures bound { result ≤ max_number }
{
    match number_in(memory.as_bytes()) {
        Some(number) if number <= MAX_NUMBER => number,
        _ => 0,
    }
}

// A number is answered, and kept.
#[tactic(auto, using(crate::proofs::Numbers::number_is_text))]
fn numbered(alloc: Global, number: u64) -> Result<AppAnswer, AllocError>
    ensures { IfOk result (λ a. a ≡ numbered number) }
{
    let mut digits = Buffer::new();
    let text = Txt::from_text(alloc, digits.format(number).as_bytes())?;
    let memory = text.try_clone()?;
    Ok(AppAnswer {
        code: AppCode::Value,
        text,
        memory,
    })
}

/// What `app.next` answers: the number behind the one that its memory tells, which it keeps; from 1 on. At
/// 9,223,372,036,854,775,807 it is the error `full`, and with words `usage`.
pub fn next_number(alloc: Global, memory: &Txt, words: &[Txt]) -> Result<AppAnswer, AllocError>
    ensures { IfOk result (λ a. a ≡ next_of memory.now words.now) }
{
    if !words.is_empty() {
        return unchanged(memory, Txt::from_text(alloc, b"usage")?);
    }
    let number = counted_to(memory);
    if number == MAX_NUMBER {
        return unchanged(memory, Txt::from_text(alloc, b"full")?);
    }
    numbered(alloc, number + 1)
}

/// What `app.swap WORD` answers: the word that was kept before, empty at first, and it keeps this one. With another number
/// of words it is the error `usage`.
pub fn swap_word(alloc: Global, memory: &Txt, words: &[Txt]) -> Result<AppAnswer, AllocError>
    ensures { IfOk result (λ a. a ≡ swap_of memory.now words.now) }
{
    let [word] = words else {
        return unchanged(memory, Txt::from_text(alloc, b"usage")?);
    };
    Ok(AppAnswer {
        code: AppCode::Value,
        text: memory.try_clone()?,
        memory: word.try_clone()?,
    })
}

// Adds a command, which has to be one that may join the others.
fn add<B: AppBody>(apps: &mut Apps<Own, B>, command: AppCommand<Own, B>) -> Result<(), AllocError>
    ensures { OnOk result (apps.new ≡ with_name command apps.old) }
{
    match apps.add(command) {
        Ok(()) => Ok(()),
        Err(_) => Err(AllocError),
    }
}

/// The program's commands, of closures that answer so.
pub fn own_apps<B: AppBody>(alloc: Global, next: B, swap: B) -> Result<Apps<Own, B>, AllocError>
    requires next { B.callable next × ((memory : List ℕ) (words : List (List ℕ)) (a : AppAnswer) → B.may_answer next memory words a → a ≡ next_of memory words) }
    requires swap { B.callable swap × ((memory : List ℕ) (words : List (List ℕ)) (a : AppAnswer) → B.may_answer swap memory words a → a ≡ swap_of memory words) }
    ensures { IfOk result (λ apps. apps ≡ next_name ∷ swap_name ∷ []) }
{
    let mut apps: Apps<Own, B> = Apps::new(alloc);
    add(
        &mut apps,
        AppCommand::new(Txt::from_text(alloc, b"app.next")?, next),
    )?;
    add(
        &mut apps,
        AppCommand::new(Txt::from_text(alloc, b"app.swap")?, swap),
    )?;
    Ok(apps)
}
