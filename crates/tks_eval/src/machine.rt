//! The machine: it runs a script or a plan, and keeps what waits in it.
ghost use Rattle.std.specs.Prelude.{true, ◌≡◌, [], ◌∷◌, ◌++◌, IfOk, OnOk};
ghost use Rattle.tks_eval.specs.Outcome.{Outcome};
ghost use Rattle.tks_eval.specs.Evaluation.{evaluate, thing_does};
ghost use Rattle.tks_eval.specs.Meets.{EndsSo, FailsSo, TakesStep};
ghost use Rattle.tks_eval.specs.Machine.{after_frame, left_below, opens_do, ended, done_by, frame_weight, opens_weight, ComesSo, DoesSo, FallsBelow, GoesSo, ToldSo, halted};

use crate::boxed::boxed;
use crate::ended::Ended;
use crate::frame::{Came, Ending, Frame, Opens, Waiting};
use crate::halt::Halt;
use crate::host::{Host, Plan};
use crate::rest::Rest;
use crate::table::Tables;
use std::alloc::{AllocError, Global};
use std::mem;
use tks_parse::Script;
use tks_parse_table::ParseTable;
use tks_tcl::Stop;
use tks_text::{Limits, ScriptFault, Txt};
use tks_vars::Vars;

/// So many things are run in one another where they stand. What lies deeper waits, and is opened anew.
pub const NEAR: u32 = 64;

/// A run under way: how many scripts may yet be opened in one another, the steps that are left, and the variables.
#[derive(Drop)]
pub struct Machine {
    pub left: u32,
    pub fuel: u64,
    pub variables: Vars,
    pub limits: Limits,
    /// What was read so far.
    pub table: Tables,
}

/// Runs a script. What it parses joins what was parsed before, which is looked for first.
pub fn eval<H: Host>(
    alloc: Global,
    host: &mut H,
    variables: &mut Vars,
    parsed: &mut ParseTable,
    script: Script,
    limits: &Limits,
) -> Result<Ended, Stop>
    ensures same_place { H.place host.new ≡ H.place host.old }
    ensures ends { EndsSo (evaluate H.meaning limits.now limits.now.depth script (H.state host.old) variables.old limits.now.fuel) result (H.state host.new) variables.new }
{
    let mut machine = Machine::at_rest(alloc, variables, parsed, limits);
    let first = machine.run_script(alloc, host, &script, true, NEAR);
    let ended = machine.run(alloc, host, Rest::new(alloc), stopped(first));
    machine.give_back(variables, parsed);
    ended
}

/// Does a thing that waited, by its plan, with all the steps that an input has. It ends with code 0 and the empty text: no
/// script sees how it ended, so an error joins the faults. It parses as `eval` does.
pub fn eval_plan<H: Host>(
    alloc: Global,
    host: &mut H,
    variables: &mut Vars,
    parsed: &mut ParseTable,
    plan: Plan,
    limits: &Limits,
) -> Result<Ended, Stop>
    ensures same_place { H.place host.new ≡ H.place host.old }
    ensures ends { EndsSo (thing_does H.meaning limits.now (evaluate H.meaning limits.now limits.now.depth) plan (H.state host.old) variables.old limits.now.fuel) result (H.state host.new) variables.new }
{
    let mut machine = Machine::at_rest(alloc, variables, parsed, limits);
    let first = machine.do_thing(alloc, host, plan, NEAR);
    let ended = machine.run(alloc, host, Rest::new(alloc), stopped(first));
    machine.give_back(variables, parsed);
    ended
}

// How far a thing came that no error ends.
fn stopped(came: Result<Came, Stop>) -> Result<Came, Halt>
    ensures { result ≡ halted came }
{
    match came {
        Ok(came) => Ok(came),
        Err(why) => Err(Halt::Stop(why)),
    }
}

/// How far a thing came, where an error is an end.
#[inline(always)]
pub fn told(alloc: Global, came: Result<Came, Halt>, limits: &Limits) -> Result<Came, Stop>
    ensures { ToldSo limits.now came result }
{
    match came {
        Ok(came) => Ok(came),
        Err(Halt::Fault(fault)) => Ok(Came::Ended(failed(alloc, &fault, limits)?)),
        Err(Halt::Stop(why)) => Err(why),
    }
}

/// What waits for this to be opened, with nothing behind it.
#[inline(never)]
pub fn waiting(alloc: Global, opens: Opens) -> Result<Box<Waiting>, AllocError>
    ensures { IfOk result (λ w. (w.value.opens ≡ opens) × (w.value.frames.items ≡ [])) }
{
    boxed(
        alloc,
        Waiting {
            opens,
            frames: Vec::new(alloc),
        },
    )
}

/// The same waiting, with a frame behind it.
#[inline(never)]
pub fn before(waiting: Box<Waiting>, frame: Frame) -> Result<Box<Waiting>, AllocError>
    ensures { IfOk result (λ w. (w.value.opens ≡ waiting.value.opens) × (w.value.frames.items ≡ waiting.value.frames.items ++ frame ∷ [])) }
{
    let mut waiting = waiting;
    match waiting.as_mut().frames.push(frame) {
        Ok(()) => Ok(waiting),
        Err(_) => Err(AllocError),
    }
}

impl Machine {
    // A machine with these variables, and what was parsed before, in place of which nothing is kept.
    fn at_rest(
        alloc: Global,
        variables: &mut Vars,
        parsed: &mut ParseTable,
        limits: &Limits,
    ) -> Machine
        ensures { result ≡ record { left = limits.now.depth; fuel = limits.now.fuel; variables = variables.old; limits = limits.now; table = tt } }
    {
        let parsed = mem::replace(parsed, ParseTable::new(alloc));
        Machine {
            left: limits.depth,
            fuel: limits.fuel,
            variables: mem::replace(variables, Vars::new(alloc)),
            limits: *limits,
            table: Tables::of(alloc, parsed),
        }
    }

    // Gives the variables back, and what was parsed so far.
    fn give_back(self, variables: &mut Vars, parsed: &mut ParseTable)
        ensures { variables.new ≡ self.variables }
    {
        let Machine {
            variables: held,
            table,
            ..
        } = self;
        *variables = held;
        *parsed = table.into_parsed();
    }

    // Goes on up to the end of the whole.
    fn run<H: Host>(
        &mut self,
        alloc: Global,
        host: &mut H,
        stack: Rest<Frame>,
        first: Result<Came, Halt>,
    ) -> Result<Ended, Stop>
        ensures same_place { H.place host.new ≡ H.place host.old }
        ensures ends { (whole : Outcome H.State) → GoesSo H.meaning whole stack first self.old (H.state host.old) → EndsSo whole result (H.state host.new) self.new.variables }
    {
        let mut stack = stack;
        let mut came = first;
        'steps: loop {
            let before = self.fuel;
            'turns: loop {
                let reached = told(alloc, came, &self.limits)?;
                came = match reached {
                    Came::Ended(end) => match stack.next() {
                        None => {
                            return Ok(Ended {
                                code: end.code,
                                text: end.text,
                                fuel: self.fuel,
                            });
                        }
                        Some(frame) => self.resume(alloc, host, frame, end),
                    },
                    Came::Waits(waiting) => {
                        let Waiting { opens, frames } = Box::into_inner(waiting);
                        put_on(&mut stack, frames)?;
                        self.open(alloc, host, opens)
                    }
                };
                if self.fuel != before {
                    continue 'steps;
                }
            }
        }
    }

    // Opens what waits.
    fn open<H: Host>(&mut self, alloc: Global, host: &mut H, opens: Opens) -> Result<Came, Halt>
        ensures same_place { H.place host.new ≡ H.place host.old }
        ensures same_limits { self.new.limits ≡ self.old.limits }
        ensures falls { FallsBelow result (opens_weight opens) self.old.fuel self.new.fuel }
        ensures comes { ComesSo H.meaning true self.old.left (done_by (opens_do H.meaning self.old.limits self.old.left opens) (H.state host.old) self.old) result self.new (H.state host.new) }
    {
        match opens {
            Opens::Script(script) => Ok(self.run_script(alloc, host, &script, true, NEAR)?),
            Opens::Index(parts) => self.make_text(alloc, host, Txt::new(alloc), parts, NEAR),
            Opens::Things(due) => Ok(self.next_things(alloc, host, due, NEAR)?),
        }
    }

    // Goes on with what waited for an end.
    fn resume<H: Host>(
        &mut self,
        alloc: Global,
        host: &mut H,
        frame: Frame,
        end: Ending,
    ) -> Result<Came, Halt>
        ensures same_place { H.place host.new ≡ H.place host.old }
        ensures same_limits { self.new.limits ≡ self.old.limits }
        ensures falls { FallsBelow result (frame_weight frame) self.old.fuel self.new.fuel }
        ensures comes { ComesSo H.meaning true (left_below self.old.left frame) (after_frame H.meaning self.old.limits self.old.left frame (done_by (ended end) (H.state host.old) self.old)) result self.new (H.state host.new) }
    {
        match frame {
            Frame::Commands { rest, levels } => {
                Ok(self.run_commands(alloc, host, rest, levels, end, true, NEAR)?)
            }
            Frame::Command {
                words,
                expand,
                rest,
            } => self.after_word(alloc, host, words, expand, rest, end),
            Frame::Nested { made, parts } => self.after_nested(alloc, host, made, parts, end),
            Frame::Element { name, made, parts } => {
                self.after_index(alloc, host, name, made, parts, end)
            }
            Frame::Catch { name } => self.after_caught(alloc, host, name, end),
            Frame::Each {
                name,
                body,
                elements,
            } => self.after_element(alloc, host, name, body, elements, end),
            Frame::Value(counting) => self.after_value(alloc, host, counting, end),
            Frame::Whole => self.after_whole(alloc, host, end),
            Frame::Branch { body, rest } => self.after_branch(alloc, host, body, rest, end),
            Frame::Turns(stage, turns) => self.after_stage(alloc, host, stage, turns, end),
            Frame::Procedure => self.after_procedure(host, end),
            Frame::Global => Ok(self.after_global(host, end)?),
            Frame::Scripts { window, scripts } => {
                Ok(self.after_script(alloc, host, window, scripts, end)?)
            }
            Frame::Thing => Ok(self.after_thing(alloc, host, end)?),
            Frame::Update { due } => Ok(self.next_things(alloc, host, due, NEAR)?),
        }
    }

    /// Takes a step.
    pub fn take_step(&mut self) -> Result<(), Stop>
        ensures step { TakesStep result self.old.fuel self.new.fuel }
        ensures kept { self.new ≡ record self.old { fuel = self.new.fuel } }
    {
        if self.fuel == 0 {
            return Err(Stop::Budget);
        }
        self.fuel -= 1;
        Ok(())
    }
}

// Puts frames on a stack, the innermost first.
fn put_on(stack: &mut Rest<Frame>, frames: Vec<Frame>) -> Result<(), AllocError>
    ensures { OnOk result (stack.new ≡ frames.items ++ stack.old) }
{
    let mut frames = frames;
    while let Some(frame) = frames.pop() {
        stack.push(frame)?;
    }
    Ok(())
}

/// The end by an error.
pub fn failed(alloc: Global, fault: &ScriptFault, limits: &Limits) -> Result<Ending, Stop>
    ensures { FailsSo limits.now fault.now result }
{
    let text = fault.text(alloc)?;
    if text.len() > limits.text as usize {
        return Err(Stop::TooLarge);
    }
    Ok(Ending { code: 1, text })
}
