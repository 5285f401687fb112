//! `if`: its tests, and which of its bodies runs.
ghost use Rattle.std.specs.Prelude.{true, ◌≡◌, ◌≤◌, ◌<◌, ◌+◌, ◌||◌, ◌∷◌, List, [], length, Some, IfOk, IfSome, MatchOption, option_copied};
ghost use Rattle.tks_eval.specs.Branches.{Test, Condition, BehindBody, is_keyword, with_last, with_test, branches, no_branches};
ghost use Rattle.tks_eval.specs.Evaluation.{script_does, branches_do, if_does};
ghost use Rattle.tks_eval.specs.Machine.{after_frame, ended, level_of, done_by, frame_weight, optional_weight, ComesSo, DoesSo, FallsTo, FallsBelow};
ghost use Rattle.tks_eval.specs.declared.frame.Frame.TheVariants as frame;

use crate::expressions::Valued;
use crate::frame::{Came, Ending, Frame};
use crate::halt::{Halt, error_about};
use crate::host::Host;
use crate::machine::{Machine, NEAR, before};
use crate::rest::Rest;
use std::alloc::{AllocError, Global};
use std::marker::Model;
use tks_expr::truth_of;
use tks_tcl::is_word;
use tks_text::{ErrorNumber, Txt};

/// A condition of an `if`, and the body that runs where it is the first that holds.
#[derive(Drop)]
pub struct Test {
    pub condition: Txt,
    pub body: Txt,
}

impl Model for Test {
    ghost use Rattle.tks_eval.specs.Branches.{Test};

    ghost Value = { Test };

    ghost view = { λ t. record { condition = t.condition; body = t.body } };
}

/// What an `if` may yet run: its tests, and the body for where none holds.
#[derive(Drop)]
pub struct Branches {
    pub tests: Rest<Test>,
    pub otherwise: Option<Txt>,
}

impl Model for Branches {
    ghost use Rattle.tks_eval.specs.Branches.{Branches};

    ghost Value = { Branches };

    ghost view = { λ b. record { tests = b.tests; otherwise = b.otherwise } };
}

// Whether a word is one of those that part the others. Most aren't, by their first byte.
fn is_keyword(word: &Txt) -> bool
    ensures { result ≡ is_keyword word.now }
{
    let word = word.as_bytes();
    let [first, ..] = word else {
        return false;
    };
    match *first {
        b't' => is_word(word, b"then"),
        b'e' => is_word(word, b"elseif") || is_word(word, b"else"),
        _ => false,
    }
}

// The condition and the body at the front of these words, and the words behind them.
fn test_at(words: &[Txt]) -> Option<(&Txt, &Txt, &[Txt])>
    ensures shorter { IfSome result (λ x. length x.2.now < length words.now) }
    ensures reads { MatchOption result ((tests : List Test) → branches Condition tests words.now ≡ no_branches) (λ x. (tests : List Test) → branches Condition tests words.now ≡ branches BehindBody (with_test tests x.0.now x.1.now) x.2.now) }
{
    let (condition, behind) = words.split_first()?;
    let (word, behind) = behind.split_first()?;
    if is_keyword(condition) {
        return None;
    }
    if is_word(word.as_bytes(), b"then") {
        let (body, behind) = behind.split_first()?;
        if is_keyword(body) {
            return None;
        }
        return Some((condition, body, behind));
    }
    if is_keyword(word) {
        return None;
    }
    Some((condition, word, behind))
}

// These tests, with the last body that the words are.
fn with_last(tests: Vec<Test>, words: &[Txt]) -> Result<Option<Branches>, AllocError>
    ensures { IfOk result (λ b. b ≡ with_last tests.items words.now) }
{
    match words {
        [body] if !is_keyword(body) => Ok(Some(Branches {
            tests: Rest::of(tests),
            otherwise: Some(body.try_clone()?),
        })),
        _ => Ok(None),
    }
}

// What the words of an `if` say.
#[inline(never)]
fn read_branches(alloc: Global, words: &[Txt]) -> Result<Option<Branches>, AllocError>
    ensures { IfOk result (λ b. b ≡ branches Condition [] words.now) }
{
    let mut tests = Vec::new(alloc);
    let mut rest = words;
    'test: loop {
        let Some((condition, body, behind)) = test_at(rest) else {
            return Ok(None);
        };
        tests.push(Test {
            condition: condition.try_clone()?,
            body: body.try_clone()?,
        })?;
        let Some((word, more)) = behind.split_first() else {
            return Ok(Some(Branches {
                tests: Rest::of(tests),
                otherwise: None,
            }));
        };
        if is_word(word.as_bytes(), b"elseif") {
            rest = more;
            continue 'test;
        }
        if is_word(word.as_bytes(), b"else") {
            return with_last(tests, more);
        }
        return with_last(tests, behind);
    }
}

/// The condition, the body, and the body for where it doesn't hold, of an `if` with one condition.
pub fn one_test(words: &[Txt]) -> Option<(&Txt, &Txt, Option<&Txt>)>
    ensures { IfSome result (λ x. branches Condition [] words.now ≡ Some (record { tests = record { condition = x.0.now; body = x.1.now } ∷ []; otherwise = option_copied x.2 })) }
{
    let (condition, body, behind) = test_at(words)?;
    match behind {
        [] => Some((condition, body, None)),
        [word, last] if is_word(word.as_bytes(), b"else") && !is_keyword(last) => {
            Some((condition, body, Some(last)))
        }
        _ => None,
    }
}

// A body that may be left out.
fn body_again(body: Option<&Txt>) -> Result<Option<Txt>, AllocError>
    ensures { IfOk result (λ b. b ≡ option_copied body.entry) }
{
    match body {
        None => Ok(None),
        Some(body) => Ok(Some(body.try_clone()?)),
    }
}

impl Machine {
    // if c ?then? b ?elseif c ?then? b ..? ?else? ?b?
    #[cycle(run)]
    pub fn run_if<H: Host>(
        &mut self,
        alloc: Global,
        host: &mut H,
        command: &Txt,
        words: &[Txt],
        asked: bool,
        near: u32,
    ) -> Result<Came, Halt>
        ensures same_place { H.place host.new ≡ H.place host.old }
        ensures same_limits { self.new.limits ≡ self.old.limits }
        ensures spends { self.new.fuel ≤ self.old.fuel }
        ensures comes { DoesSo H.meaning asked (if_does self.old.limits (level_of H.meaning self.old) command.now words.now) (H.state host.old) self.old result (H.state host.new) self.new }
    {
        if let Some((condition, body, otherwise)) = one_test(words) {
            return self.run_test(alloc, host, condition, body, otherwise, asked, near);
        }
        let Some(branches) = read_branches(alloc, words)? else {
            return Err(error_about(ErrorNumber::WrongWords, command));
        };
        self.next_branches(alloc, host, branches, asked, near)
    }

    // An `if` with one condition. Nothing is copied where that is decided where it stands.
    #[cycle(run)]
    #[inline(always)]
    fn run_test<H: Host>(
        &mut self,
        alloc: Global,
        host: &mut H,
        condition: &Txt,
        body: &Txt,
        otherwise: Option<&Txt>,
        asked: bool,
        near: u32,
    ) -> Result<Came, Halt>
        ensures same_place { H.place host.new ≡ H.place host.old }
        ensures same_limits { self.new.limits ≡ self.old.limits }
        ensures spends { self.new.fuel ≤ self.old.fuel }
        ensures comes { DoesSo H.meaning asked (branches_do self.old.limits (level_of H.meaning self.old) (option_copied otherwise.entry) (record { condition = condition.now; body = body.now } ∷ [])) (H.state host.old) self.old result (H.state host.new) self.new }
    {
        self.take_step()?;
        let items = self.table.parsed().expr(alloc, condition)?;
        match self.value(alloc, host, &items, near)? {
            Valued::Value(value) => {
                let chosen = if value.holds()? {
                    Some(body)
                } else {
                    otherwise
                };
                self.run_body(alloc, host, chosen, asked, near)
            }
            Valued::Ended(end) => Ok(Came::Ended(end)),
            Valued::Waits(waiting) => {
                let body = body.try_clone()?;
                let rest = Branches {
                    tests: Rest::new(alloc),
                    otherwise: body_again(otherwise)?,
                };
                Ok(Came::Waits(before(waiting, Frame::Branch { body, rest })?))
            }
        }
    }

    // Runs a body that may be left out.
    #[cycle(run)]
    #[inline(always)]
    fn run_body<H: Host>(
        &mut self,
        alloc: Global,
        host: &mut H,
        body: Option<&Txt>,
        asked: bool,
        near: u32,
    ) -> Result<Came, Halt>
        ensures same_place { H.place host.new ≡ H.place host.old }
        ensures same_limits { self.new.limits ≡ self.old.limits }
        ensures falls { FallsTo result (optional_weight (option_copied body.entry)) self.old.fuel self.new.fuel }
        ensures opened { 0 < near → FallsBelow result (optional_weight (option_copied body.entry)) self.old.fuel self.new.fuel }
        ensures comes { DoesSo H.meaning asked (script_does (level_of H.meaning self.old) (option_copied body.entry)) (H.state host.old) self.old result (H.state host.new) self.new }
    {
        let Some(body) = body else {
            return Ok(Came::Ended(Ending::silent(alloc)));
        };
        let script = self.table.parsed().script(alloc, body)?;
        let came = self.run_script(alloc, host, &script, asked, near)?;
        Ok(came)
    }

    // Goes on with the branches that are left of an `if`.
    #[cycle(run)]
    #[inline(never)]
    fn next_branches<H: Host>(
        &mut self,
        alloc: Global,
        host: &mut H,
        branches: Branches,
        asked: bool,
        near: u32,
    ) -> Result<Came, Halt>
        ensures same_place { H.place host.new ≡ H.place host.old }
        ensures same_limits { self.new.limits ≡ self.old.limits }
        ensures falls { FallsTo result (optional_weight branches.otherwise) self.old.fuel self.new.fuel }
        ensures opened { 0 < near → FallsBelow result (optional_weight branches.otherwise + 1) self.old.fuel self.new.fuel }
        ensures comes { DoesSo H.meaning asked (branches_do self.old.limits (level_of H.meaning self.old) branches.otherwise branches.tests) (H.state host.old) self.old result (H.state host.new) self.new }
    {
        let Branches { tests, otherwise } = branches;
        let mut tests = tests;
        'test: while let Some(test) = tests.next() {
            let Test { condition, body } = test;
            self.take_step()?;
            let items = self.table.parsed().expr(alloc, &condition)?;
            match self.value(alloc, host, &items, near)? {
                Valued::Value(value) => {
                    if value.holds()? {
                        return self.run_body(alloc, host, Some(&body), asked, near);
                    }
                }
                Valued::Ended(end) => return Ok(Came::Ended(end)),
                Valued::Waits(waiting) => {
                    let rest = Branches { tests, otherwise };
                    return Ok(Came::Waits(before(waiting, Frame::Branch { body, rest })?));
                }
            }
        }
        self.run_body(alloc, host, otherwise.as_ref(), asked, near)
    }

    /// Goes on with an `if` behind a condition.
    pub fn after_branch<H: Host>(
        &mut self,
        alloc: Global,
        host: &mut H,
        body: Txt,
        rest: Branches,
        end: Ending,
    ) -> Result<Came, Halt>
        ensures same_place { H.place host.new ≡ H.place host.old }
        ensures same_limits { self.new.limits ≡ self.old.limits }
        ensures falls { FallsBelow result (frame_weight (frame.Branch body rest)) self.old.fuel self.new.fuel }
        ensures comes { ComesSo H.meaning true self.old.left (after_frame H.meaning self.old.limits self.old.left (frame.Branch body rest) (done_by (ended end) (H.state host.old) self.old)) result self.new (H.state host.new) }
    {
        if end.code != 0 {
            return Ok(Came::Ended(end));
        }
        if truth_of(&end.text)? {
            return self.run_body(alloc, host, Some(&body), true, NEAR);
        }
        self.next_branches(alloc, host, rest, true, NEAR)
    }
}
