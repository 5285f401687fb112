//! Which commands of an application join others, and what they are called with.
ghost use Rattle.std.specs.Prelude.{◌≡◌, ℕ, List, IfOk};
ghost use Rattle.tests_parts.specs.Swap.{swapped};
ghost use Rattle.tks_app.specs.declared.answer.AppAnswer.{AppAnswer};

use crate::swap::{Swap, swapped};
use crate::texts::text_of_bytes as text;
use std::alloc::{AllocError, Global};
use tks_app::{AddFault, AddRefusal, AppAnswer, AppBody, AppClosure, AppCode, AppCommand, Apps};
use tks_text::Txt;

// Whether a command answers this text to the word, and keeps the word.
fn answers<B: AppBody>(alloc: Global, command: &AppCommand<Swap, B>, word: &[u8]) -> Option<bool> {
    let words = [text(alloc, word)?];
    let answer = command.call(&text(alloc, b"old")?, &words).ok()?;
    Some(
        answer.code == AppCode::Value
            && answer.text.as_bytes() == b"old".as_slice()
            && answer.memory.as_bytes() == word,
    )
}

// Whether a command is handed back for this reason, and can be called then.
fn is_handed_back<B: AppBody>(
    alloc: Global,
    added: Result<(), AddFault<Swap, B>>,
    name: &[u8],
    why: AddRefusal,
) -> Option<bool> {
    let fault = added.err()?;
    Some(
        fault.why == why
            && fault.command.name().as_bytes() == name
            && answers(alloc, &fault.command, b"new")?,
    )
}

// What adding a command of this name comes to.
fn added<B: AppBody>(
    alloc: Global,
    apps: &mut Apps<Swap, B>,
    name: &[u8],
    body: B,
) -> Option<Result<(), AddFault<Swap, B>>>
    requires body { B.callable body × ((memory : List ℕ) (words : List (List ℕ)) (a : AppAnswer) → B.may_answer body memory words a → a ≡ swapped memory words) }
{
    let name = text(alloc, name)?;
    Some(apps.add(AppCommand::new(name, body)))
}

// Whether a command of this name joins.
fn joins<B: AppBody>(alloc: Global, apps: &mut Apps<Swap, B>, name: &[u8], body: B) -> bool
    requires body { B.callable body × ((memory : List ℕ) (words : List (List ℕ)) (a : AppAnswer) → B.may_answer body memory words a → a ≡ swapped memory words) }
{
    match added(alloc, apps, name, body) {
        Some(Ok(())) => true,
        _ => false,
    }
}

// Whether one of this name doesn't join, and is handed back for this reason.
fn stays_out<B: AppBody>(
    alloc: Global,
    apps: &mut Apps<Swap, B>,
    name: &[u8],
    body: B,
    why: AddRefusal,
) -> Option<bool>
    requires body { B.callable body × ((memory : List ℕ) (words : List (List ℕ)) (a : AppAnswer) → B.may_answer body memory words a → a ≡ swapped memory words) }
{
    let added = added(alloc, apps, name, body)?;
    is_handed_back(alloc, added, name, why)
}

// Whether just one command has joined, one of this name and not of the other.
fn has_one<B: AppBody>(
    alloc: Global,
    apps: &Apps<Swap, B>,
    name: &[u8],
    other: &[u8],
) -> Option<bool> {
    Some(
        apps.commands().len() == 1
            && apps.has(&text(alloc, name)?)
            && !apps.has(&text(alloc, other)?),
    )
}

// One command joins; a second of its name, and one of this name, don't.
fn one_joins<B: AppBody>(alloc: Global, bad_name: &[u8], one: B, again: B, other: B) -> bool
    requires one { B.callable one × ((memory : List ℕ) (words : List (List ℕ)) (a : AppAnswer) → B.may_answer one memory words a → a ≡ swapped memory words) }
    requires again { B.callable again × ((memory : List ℕ) (words : List (List ℕ)) (a : AppAnswer) → B.may_answer again memory words a → a ≡ swapped memory words) }
    requires other { B.callable other × ((memory : List ℕ) (words : List (List ℕ)) (a : AppAnswer) → B.may_answer other memory words a → a ≡ swapped memory words) }
{
    let name = b"app.swap";
    let mut apps: Apps<Swap, B> = Apps::new(alloc);
    let first = joins(alloc, &mut apps, name, one);
    let second = stays_out(alloc, &mut apps, name, again, AddRefusal::Twice);
    let third = stays_out(alloc, &mut apps, bad_name, other, AddRefusal::BadName);
    first
        && second == Some(true)
        && third == Some(true)
        && has_one(alloc, &apps, name, bad_name) == Some(true)
}

#[test]
fn commands_join_or_are_handed_back(rt: HostRuntime) {
    let alloc = rt.alloc();
    let long = [b'a'; 65];
    let bad_names: [&[u8]; 6] = [b"set", b"pack", b".x", b"", b"a b", &long];
    for bad_name in bad_names {
        let one = Box::new(
            alloc,
            move |memory: &Txt, words: &[Txt]| -> Result<AppAnswer, AllocError>
                ensures { IfOk result (λ a. a ≡ swapped memory.now words.now) }
            { swapped(alloc, memory, words) },
        );
        let again = Box::new(
            alloc,
            move |memory: &Txt, words: &[Txt]| -> Result<AppAnswer, AllocError>
                ensures { IfOk result (λ a. a ≡ swapped memory.now words.now) }
            { swapped(alloc, memory, words) },
        );
        let other = Box::new(
            alloc,
            move |memory: &Txt, words: &[Txt]| -> Result<AppAnswer, AllocError>
                ensures { IfOk result (λ a. a ≡ swapped memory.now words.now) }
            { swapped(alloc, memory, words) },
        );
        let joined = match (one, again, other) {
            (Ok(one), Ok(again), Ok(other)) => {
                let one: AppClosure = one;
                let again: AppClosure = again;
                let other: AppClosure = other;
                one_joins(alloc, bad_name, one, again, other)
            }
            _ => false,
        };
        assert!(rt; joined);
    }
}

// Whether a refusal of memory in a command's body is told, and nothing else.
fn is_refused<B: AppBody>(alloc: Global, body: B) -> Option<bool>
    requires body { B.callable body × ((memory : List ℕ) (words : List (List ℕ)) (a : AppAnswer) → B.may_answer body memory words a → a ≡ swapped memory words) }
{
    let mut apps: Apps<Swap, B> = Apps::new(alloc);
    let name = text(alloc, b"app.swap")?;
    let joined = apps.add(AppCommand::new(name.try_clone().ok()?, body));
    if joined.is_err() || !apps.has(&name) {
        return None;
    }
    let answer = apps.call(&name, &text(alloc, b"old")?, &[]);
    Some(answer.is_err())
}

#[test]
fn a_body_that_is_refused_memory_refuses_the_call(rt: HostRuntime) {
    let alloc = rt.alloc();
    let body = Box::new(
        alloc,
        move |_memory: &Txt, _words: &[Txt]| -> Result<AppAnswer, AllocError>
            ensures { IfOk result (λ a. a ≡ swapped _memory.now _words.now) }
        { Err(AllocError) },
    );
    let refused = match body {
        Ok(body) => {
            let body: AppClosure = body;
            is_refused(alloc, body) == Some(true)
        }
        Err(_) => false,
    };
    assert!(rt; refused);
}
