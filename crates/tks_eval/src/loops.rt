//! `while`, `for` and `foreach`.
ghost use Rattle.std.specs.Prelude.{true, ◌≡◌, ◌≤◌, Some, IfOk, option_copied};
ghost use Rattle.tks_tcl.specs.Meets.{GivesSo};
ghost use Rattle.tks_eval.specs.Evaluation.{behind_body, turn_does, loop_does, while_does, for_does, foreach_form, foreach_does, each};
ghost use Rattle.tks_eval.specs.Loops as loops;
ghost use Rattle.tks_eval.specs.Machine.{after_frame, ended, level_of, done_by, frame_weight, loop_weight, ComesSo, DoesSo, FallsTo, FallsBelow};
ghost use Rattle.tks_eval.specs.declared.frame.Frame.TheVariants as frame;
ghost use Rattle.tks_eval.specs.declared.loops.Stage.TheVariants as stages;

use crate::expressions::Valued;
use crate::frame::{Came, Ending, Frame};
use crate::halt::{Halt, error_about};
use crate::host::Host;
use crate::machine::{Machine, NEAR, before};
use crate::rest::Rest;
use std::alloc::{AllocError, Global};
use std::marker::Model;
use std::rc::Rc;
use tks_expr::truth_of;
use tks_parse_table::{KnownExpr, KnownScript};
use tks_tcl::{Interrupt, ListTable, store, wrong_words};
use tks_text::{ErrorNumber, Txt};

/// A loop: its condition, its body, and the script that a `for` runs behind that.
#[derive(Drop)]
struct LoopParts {
    condition: KnownExpr,
    body: KnownScript,
    next: Option<KnownScript>,
}

/// A loop, whose parts are read once for all its turns, and which is small to move.
#[derive(Drop)]
pub struct Loop {
    parts: Rc<LoopParts>,
}

impl Model for Loop {
    ghost use Rattle.tks_eval.specs.Evaluation.{Loop};

    ghost Value = { Loop };

    ghost view = { λ l. record { condition = l.parts.value.condition; body = l.parts.value.body; next = l.parts.value.next } };
}

impl Loop {
    // The loop of these parts.
    fn new(
        alloc: Global,
        condition: KnownExpr,
        body: KnownScript,
        next: Option<KnownScript>,
    ) -> Result<Loop, AllocError>
        ensures { IfOk result (λ l. l ≡ record { condition = condition; body = body; next = next }) }
    {
        let parts = LoopParts {
            condition,
            body,
            next,
        };
        match Rc::new(alloc, parts) {
            Ok(parts) => Ok(Loop { parts }),
            Err(_) => Err(AllocError),
        }
    }

    // The condition.
    fn condition(&self) -> &KnownExpr
        ensures { result.now ≡ self.now.condition }
    {
        &self.parts.as_ref().condition
    }

    // The body.
    fn body(&self) -> &KnownScript
        ensures { result.now ≡ self.now.body }
    {
        &self.parts.as_ref().body
    }

    // The script behind the body.
    fn next(&self) -> Option<&KnownScript>
        ensures { option_copied result ≡ self.now.next }
    {
        self.parts.as_ref().next.as_ref()
    }
}

/// What a loop waits for.
#[derive(Clone, Copy)]
pub enum Stage {
    /// The script that a `for` runs first.
    Start,
    Condition,
    Body,
    /// The script behind the body.
    Next,
}

// The variable's name, the body and the elements of a `foreach`.
#[tactic(auto, using(tks_tcl::proofs::Causes::tells))]
fn foreach_form(
    alloc: Global,
    lists: &ListTable,
    command: &Txt,
    words: &[Txt],
) -> Result<(Txt, Txt, Rest<Txt>), Interrupt>
    ensures { GivesSo (λ x. x) result (foreach_form command.now words.now) }
{
    let [name, list, body] = words else {
        return Err(wrong_words(command));
    };
    let elements = lists.own_list(alloc, list)?;
    Ok((
        name.try_clone()?,
        body.try_clone()?,
        Rest::of(elements.into_items()),
    ))
}

impl Machine {
    // while c b
    #[cycle(run)]
    #[inline(never)]
    pub fn run_while<H: Host>(
        &mut self,
        alloc: Global,
        host: &mut H,
        command: &Txt,
        words: &[Txt],
        near: u32,
    ) -> Result<Came, Halt>
        ensures same_place { H.place host.new ≡ H.place host.old }
        ensures same_limits { self.new.limits ≡ self.old.limits }
        ensures spends { self.new.fuel ≤ self.old.fuel }
        ensures comes { DoesSo H.meaning true (while_does self.old.limits (level_of H.meaning self.old) command.now words.now) (H.state host.old) self.old result (H.state host.new) self.new }
    {
        let [condition, body] = words else {
            return Err(error_about(ErrorNumber::WrongWords, command));
        };
        let condition = self.table.parsed().known_expr(alloc, condition)?;
        let body = self.table.parsed().known_script(alloc, body)?;
        let turns = Loop::new(alloc, condition, body, None)?;
        self.make_turns(alloc, host, turns, near)
    }

    // for s c n b
    #[cycle(run)]
    #[inline(never)]
    pub fn run_for<H: Host>(
        &mut self,
        alloc: Global,
        host: &mut H,
        command: &Txt,
        words: &[Txt],
        near: u32,
    ) -> Result<Came, Halt>
        ensures same_place { H.place host.new ≡ H.place host.old }
        ensures same_limits { self.new.limits ≡ self.old.limits }
        ensures spends { self.new.fuel ≤ self.old.fuel }
        ensures comes { DoesSo H.meaning true (for_does self.old.limits (level_of H.meaning self.old) command.now words.now) (H.state host.old) self.old result (H.state host.new) self.new }
    {
        let [start, condition, next, body] = words else {
            return Err(error_about(ErrorNumber::WrongWords, command));
        };
        let start = self.table.parsed().script(alloc, start)?;
        let condition = self.table.parsed().known_expr(alloc, condition)?;
        let body = self.table.parsed().known_script(alloc, body)?;
        let next = self.table.parsed().known_script(alloc, next)?;
        let turns = Loop::new(alloc, condition, body, Some(next))?;
        match self.run_script(alloc, host, &start, false, near)? {
            Came::Ended(end) => {
                if end.code != 0 {
                    return Ok(Came::Ended(end));
                }
                self.make_turns(alloc, host, turns, near)
            }
            Came::Waits(waiting) => {
                let frame = Frame::Turns(Stage::Start, turns);
                Ok(Came::Waits(before(waiting, frame)?))
            }
        }
    }

    // Makes the turns of a loop that are left, each with a step.
    #[cycle(run)]
    fn make_turns<H: Host>(
        &mut self,
        alloc: Global,
        host: &mut H,
        turns: Loop,
        near: u32,
    ) -> Result<Came, Halt>
        ensures same_place { H.place host.new ≡ H.place host.old }
        ensures same_limits { self.new.limits ≡ self.old.limits }
        ensures falls { FallsTo result 0 self.old.fuel self.new.fuel }
        ensures comes { DoesSo H.meaning true (loop_does self.old.limits (level_of H.meaning self.old) turns) (H.state host.old) self.old result (H.state host.new) self.new }
    {
        'turn: loop {
            self.take_step()?;
            let items = turns.condition().items(alloc)?;
            match self.value(alloc, host, &items, near)? {
                Valued::Value(value) => {
                    if !value.holds()? {
                        return Ok(Came::Ended(Ending::silent(alloc)));
                    }
                }
                Valued::Ended(end) => return Ok(Came::Ended(end)),
                Valued::Waits(waiting) => {
                    let frame = Frame::Turns(Stage::Condition, turns);
                    return Ok(Came::Waits(before(waiting, frame)?));
                }
            }
            match self.run_script(alloc, host, turns.body().script(), false, near)? {
                Came::Ended(end) => match end.code {
                    0 | 4 => {}
                    3 => return Ok(Came::Ended(Ending::silent(alloc))),
                    _ => return Ok(Came::Ended(end)),
                },
                Came::Waits(waiting) => {
                    let frame = Frame::Turns(Stage::Body, turns);
                    return Ok(Came::Waits(before(waiting, frame)?));
                }
            }
            let Some(next) = turns.next() else {
                continue 'turn;
            };
            match self.run_script(alloc, host, next.script(), false, near)? {
                Came::Ended(end) => match end.code {
                    0 => {}
                    3 => return Ok(Came::Ended(Ending::silent(alloc))),
                    _ => return Ok(Came::Ended(end)),
                },
                Came::Waits(waiting) => {
                    let frame = Frame::Turns(Stage::Next, turns);
                    return Ok(Came::Waits(before(waiting, frame)?));
                }
            }
        }
    }

    /// Goes on with a loop behind what it waited for.
    pub fn after_stage<H: Host>(
        &mut self,
        alloc: Global,
        host: &mut H,
        stage: Stage,
        turns: Loop,
        end: Ending,
    ) -> Result<Came, Halt>
        ensures same_place { H.place host.new ≡ H.place host.old }
        ensures same_limits { self.new.limits ≡ self.old.limits }
        ensures falls { FallsBelow result (loop_weight stage turns) self.old.fuel self.new.fuel }
        ensures comes { ComesSo H.meaning true self.old.left (loops.after_stage self.old.limits (level_of H.meaning self.old) stage turns (done_by (ended end) (H.state host.old) self.old)) result self.new (H.state host.new) }
    {
        match (stage, end.code) {
            (Stage::Start | Stage::Next, 0) => self.make_turns(alloc, host, turns, NEAR),
            (Stage::Condition, 0) => {
                if truth_of(&end.text)? {
                    self.run_turn(alloc, host, turns)
                } else {
                    Ok(Came::Ended(Ending::silent(alloc)))
                }
            }
            (Stage::Body, 0 | 4) => self.run_next(alloc, host, turns),
            (Stage::Body | Stage::Next, 3) => Ok(Came::Ended(Ending::silent(alloc))),
            _ => Ok(Came::Ended(end)),
        }
    }

    // Goes on with a loop at a body.
    fn run_turn<H: Host>(&mut self, alloc: Global, host: &mut H, turns: Loop) -> Result<Came, Halt>
        ensures same_place { H.place host.new ≡ H.place host.old }
        ensures same_limits { self.new.limits ≡ self.old.limits }
        ensures falls { FallsBelow result (loop_weight stages.Condition turns) self.old.fuel self.new.fuel }
        ensures comes { DoesSo H.meaning true (turn_does (level_of H.meaning self.old) turns (loop_does self.old.limits (level_of H.meaning self.old) turns)) (H.state host.old) self.old result (H.state host.new) self.new }
    {
        match self.run_script(alloc, host, turns.body().script(), false, NEAR)? {
            Came::Ended(end) => self.after_stage_body(alloc, host, turns, end),
            Came::Waits(waiting) => {
                let frame = Frame::Turns(Stage::Body, turns);
                Ok(Came::Waits(before(waiting, frame)?))
            }
        }
    }

    // Goes on with a loop behind a body.
    fn after_stage_body<H: Host>(
        &mut self,
        alloc: Global,
        host: &mut H,
        turns: Loop,
        end: Ending,
    ) -> Result<Came, Halt>
        ensures same_place { H.place host.new ≡ H.place host.old }
        ensures same_limits { self.new.limits ≡ self.old.limits }
        ensures falls { FallsBelow result (loop_weight stages.Body turns) self.old.fuel self.new.fuel }
        ensures comes { ComesSo H.meaning true self.old.left (loops.after_stage self.old.limits (level_of H.meaning self.old) stages.Body turns (done_by (ended end) (H.state host.old) self.old)) result self.new (H.state host.new) }
    {
        match end.code {
            0 | 4 => self.run_next(alloc, host, turns),
            3 => Ok(Came::Ended(Ending::silent(alloc))),
            _ => Ok(Came::Ended(end)),
        }
    }

    // Goes on with a loop at the script behind its body.
    fn run_next<H: Host>(&mut self, alloc: Global, host: &mut H, turns: Loop) -> Result<Came, Halt>
        ensures same_place { H.place host.new ≡ H.place host.old }
        ensures same_limits { self.new.limits ≡ self.old.limits }
        ensures falls { FallsBelow result (loop_weight stages.Body turns) self.old.fuel self.new.fuel }
        ensures comes { DoesSo H.meaning true (behind_body (level_of H.meaning self.old) turns (loop_does self.old.limits (level_of H.meaning self.old) turns)) (H.state host.old) self.old result (H.state host.new) self.new }
    {
        let Some(next) = turns.next() else {
            return self.make_turns(alloc, host, turns, NEAR);
        };
        match self.run_script(alloc, host, next.script(), false, NEAR)? {
            Came::Ended(end) => match end.code {
                0 => self.make_turns(alloc, host, turns, NEAR),
                3 => Ok(Came::Ended(Ending::silent(alloc))),
                _ => Ok(Came::Ended(end)),
            },
            Came::Waits(waiting) => {
                let frame = Frame::Turns(Stage::Next, turns);
                Ok(Came::Waits(before(waiting, frame)?))
            }
        }
    }

    // foreach name l b
    #[cycle(run)]
    pub fn run_foreach<H: Host>(
        &mut self,
        alloc: Global,
        host: &mut H,
        command: &Txt,
        words: &[Txt],
        near: u32,
    ) -> Result<Came, Halt>
        ensures same_place { H.place host.new ≡ H.place host.old }
        ensures same_limits { self.new.limits ≡ self.old.limits }
        ensures spends { self.new.fuel ≤ self.old.fuel }
        ensures comes { DoesSo H.meaning true (foreach_does self.old.limits (level_of H.meaning self.old) command.now words.now) (H.state host.old) self.old result (H.state host.new) self.new }
    {
        let (name, body, elements) = foreach_form(alloc, self.table.lists(), command, words)?;
        self.next_elements(alloc, host, name, body, elements, near)
    }

    // Goes on with the elements that are left of a `foreach`.
    #[cycle(run)]
    fn next_elements<H: Host>(
        &mut self,
        alloc: Global,
        host: &mut H,
        name: Txt,
        body: Txt,
        elements: Rest<Txt>,
        near: u32,
    ) -> Result<Came, Halt>
        ensures same_place { H.place host.new ≡ H.place host.old }
        ensures same_limits { self.new.limits ≡ self.old.limits }
        ensures falls { FallsTo result 0 self.old.fuel self.new.fuel }
        ensures comes { DoesSo H.meaning true (each self.old.limits (level_of H.meaning self.old) name body elements) (H.state host.old) self.old result (H.state host.new) self.new }
    {
        let script = self.table.parsed().script(alloc, &body)?;
        let mut elements = elements;
        'element: while let Some(element) = elements.next() {
            self.take_step()?;
            store(&mut self.variables, &name, element, &self.limits)?;
            match self.run_script(alloc, host, &script, false, near)? {
                Came::Ended(end) => match end.code {
                    0 | 4 => {}
                    3 => break 'element,
                    _ => return Ok(Came::Ended(end)),
                },
                Came::Waits(waiting) => {
                    let frame = Frame::Each {
                        name,
                        body,
                        elements,
                    };
                    return Ok(Came::Waits(before(waiting, frame)?));
                }
            }
        }
        Ok(Came::Ended(Ending::silent(alloc)))
    }

    /// Goes on with a `foreach` behind its body.
    pub fn after_element<H: Host>(
        &mut self,
        alloc: Global,
        host: &mut H,
        name: Txt,
        body: Txt,
        elements: Rest<Txt>,
        end: Ending,
    ) -> Result<Came, Halt>
        ensures same_place { H.place host.new ≡ H.place host.old }
        ensures same_limits { self.new.limits ≡ self.old.limits }
        ensures falls { FallsBelow result 1 self.old.fuel self.new.fuel }
        ensures comes { ComesSo H.meaning true self.old.left (after_frame H.meaning self.old.limits self.old.left (frame.Each name body elements) (done_by (ended end) (H.state host.old) self.old)) result self.new (H.state host.new) }
    {
        match end.code {
            0 | 4 => self.next_elements(alloc, host, name, body, elements, NEAR),
            3 => Ok(Came::Ended(Ending::silent(alloc))),
            _ => Ok(Came::Ended(end)),
        }
    }
}
