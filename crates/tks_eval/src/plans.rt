//! What a host planned: a script, the scripts of an event, or what waits in it.
ghost use Rattle.std.specs.Prelude.{true, ◌≡◌, ◌≤◌, ◌<◌};
ghost use Rattle.tks_eval.specs.Evaluation.{plan_does, thing_does, global_does, scripts_do, update_does};
ghost use Rattle.tks_eval.specs.Machine.{after_frame, ended, level_of, done_by, RunsSo, FallsTo, FallsBelow};
ghost use Rattle.tks_eval.specs.declared.frame.Frame.TheVariants as frame;

use crate::frame::{Came, Ending, Frame, Opens};
use crate::host::{Due, Host, Plan};
use crate::machine::{Machine, NEAR, before, failed, waiting};
use crate::rest::Rest;
use std::alloc::Global;
use tks_tcl::Stop;
use tks_text::{ErrorNumber, ScriptFault, Txt};

impl Machine {
    /// Does what a plan says.
    #[cycle(run)]
    #[inline(never)]
    pub fn run_plan<H: Host>(
        &mut self,
        alloc: Global,
        host: &mut H,
        plan: Plan,
        near: u32,
    ) -> Result<Came, Stop>
        ensures same_place { H.place host.new ≡ H.place host.old }
        ensures same_limits { self.new.limits ≡ self.old.limits }
        ensures spends { self.new.fuel ≤ self.old.fuel }
        ensures comes { RunsSo H.meaning true self.old.left (done_by (plan_does H.meaning self.old.limits (level_of H.meaning self.old) plan) (H.state host.old) self.old) result self.new (H.state host.new) }
    {
        match plan {
            Plan::Answer(code, text) => Ok(Came::Ended(Ending { code, text })),
            Plan::Eval(script) => self.run_global(alloc, host, &script, near),
            Plan::Dispatch(window, scripts) => {
                let scripts = Rest::of(scripts.into_items());
                self.next_scripts(alloc, host, window, scripts, near)
            }
            Plan::Update(due) => self.next_things(alloc, host, due, near),
        }
    }

    // Runs a script with the globals as the present frame.
    #[cycle(run)]
    fn run_global<H: Host>(
        &mut self,
        alloc: Global,
        host: &mut H,
        script: &Txt,
        near: u32,
    ) -> Result<Came, Stop>
        ensures same_place { H.place host.new ≡ H.place host.old }
        ensures same_limits { self.new.limits ≡ self.old.limits }
        ensures spends { self.new.fuel ≤ self.old.fuel }
        ensures comes { RunsSo H.meaning true self.old.left (done_by (global_does (level_of H.meaning self.old) script.now) (H.state host.old) self.old) result self.new (H.state host.new) }
    {
        self.variables.push_global()?;
        let script = self.table.parsed().script(alloc, script)?;
        match self.run_script(alloc, host, &script, true, near)? {
            Came::Ended(end) => self.after_global(host, end),
            Came::Waits(waiting) => Ok(Came::Waits(before(waiting, Frame::Global)?)),
        }
    }

    /// Ends a script at global level: the present frame is again the one that it was run from.
    pub fn after_global<H: Host>(&mut self, host: &H, end: Ending) -> Result<Came, Stop>
        ensures same_limits { self.new.limits ≡ self.old.limits }
        ensures falls { FallsBelow result 1 self.old.fuel self.new.fuel }
        ensures comes { RunsSo H.meaning true self.old.left (after_frame H.meaning self.old.limits self.old.left frame.Global (done_by (ended end) (H.state host.now) self.old)) result self.new (H.state host.now) }
    {
        self.variables.pop_frame();
        match end.code {
            2 => Ok(Came::Ended(Ending::with(end.text))),
            _ => Ok(Came::Ended(end)),
        }
    }

    // Goes on with the scripts of an event.
    #[cycle(run)]
    fn next_scripts<H: Host>(
        &mut self,
        alloc: Global,
        host: &mut H,
        window: u64,
        scripts: Rest<Txt>,
        near: u32,
    ) -> Result<Came, Stop>
        ensures same_place { H.place host.new ≡ H.place host.old }
        ensures same_limits { self.new.limits ≡ self.old.limits }
        ensures falls { FallsTo result 0 self.old.fuel self.new.fuel }
        ensures comes { RunsSo H.meaning true self.old.left (done_by (scripts_do H.meaning (level_of H.meaning self.old) window scripts) (H.state host.old) self.old) result self.new (H.state host.new) }
    {
        let mut scripts = scripts;
        'script: while let Some(script) = scripts.next() {
            if !host.alive(window) {
                break 'script;
            }
            self.take_step()?;
            self.variables.push_global()?;
            let script = self.table.parsed().script(alloc, &script)?;
            match self.run_script(alloc, host, &script, true, near)? {
                Came::Waits(waiting) => {
                    return Ok(Came::Waits(before(waiting, Frame::Scripts { window, scripts })?));
                }
                Came::Ended(end) => {
                    self.variables.pop_frame();
                    if end.code == 1 {
                        host.fault(&end.text)?;
                        break 'script;
                    }
                    if end.code == 3 {
                        break 'script;
                    }
                }
            }
        }
        Ok(Came::Ended(Ending::silent(alloc)))
    }

    /// Goes on with the scripts of an event behind one of them.
    pub fn after_script<H: Host>(
        &mut self,
        alloc: Global,
        host: &mut H,
        window: u64,
        scripts: Rest<Txt>,
        end: Ending,
    ) -> Result<Came, Stop>
        ensures same_place { H.place host.new ≡ H.place host.old }
        ensures same_limits { self.new.limits ≡ self.old.limits }
        ensures falls { FallsBelow result 1 self.old.fuel self.new.fuel }
        ensures comes { RunsSo H.meaning true self.old.left (after_frame H.meaning self.old.limits self.old.left (frame.Scripts window scripts) (done_by (ended end) (H.state host.old) self.old)) result self.new (H.state host.new) }
    {
        self.variables.pop_frame();
        match end.code {
            1 => {
                host.fault(&end.text)?;
                Ok(Came::Ended(Ending::silent(alloc)))
            }
            3 => Ok(Came::Ended(Ending::silent(alloc))),
            _ => self.next_scripts(alloc, host, window, scripts, NEAR),
        }
    }

    /// Goes on with `update`: what waits in the host is done, one thing after the other, and a step before each.
    #[cycle(run)]
    pub fn next_things<H: Host>(
        &mut self,
        alloc: Global,
        host: &mut H,
        due: Due,
        near: u32,
    ) -> Result<Came, Stop>
        ensures same_place { H.place host.new ≡ H.place host.old }
        ensures same_limits { self.new.limits ≡ self.old.limits }
        ensures spends { self.new.fuel ≤ self.old.fuel }
        ensures opened { 0 < near → FallsTo result 0 self.old.fuel self.new.fuel }
        ensures comes { RunsSo H.meaning true self.old.left (done_by (update_does H.meaning self.old.limits (level_of H.meaning self.old) due) (H.state host.old) self.old) result self.new (H.state host.new) }
    {
        if near == 0 {
            return Ok(Came::Waits(waiting(alloc, Opens::Things(due))?));
        }
        'thing: while let Some(plan) = host.next(due)? {
            self.take_step()?;
            if let Came::Waits(waiting) = self.do_thing(alloc, host, plan, near - 1)? {
                return Ok(Came::Waits(before(waiting, Frame::Update { due })?));
            }
        }
        Ok(Came::Ended(Ending::silent(alloc)))
    }

    /// Does a thing that waited, by its plan.
    #[cycle(run)]
    pub fn do_thing<H: Host>(
        &mut self,
        alloc: Global,
        host: &mut H,
        plan: Plan,
        near: u32,
    ) -> Result<Came, Stop>
        ensures same_place { H.place host.new ≡ H.place host.old }
        ensures same_limits { self.new.limits ≡ self.old.limits }
        ensures spends { self.new.fuel ≤ self.old.fuel }
        ensures comes { RunsSo H.meaning true self.old.left (done_by (thing_does H.meaning self.old.limits (level_of H.meaning self.old) plan) (H.state host.old) self.old) result self.new (H.state host.new) }
    {
        match self.run_plan(alloc, host, plan, near)? {
            Came::Ended(end) => self.after_thing(alloc, host, end),
            Came::Waits(waiting) => Ok(Came::Waits(before(waiting, Frame::Thing)?)),
        }
    }

    /// Ends a thing that waited, of which no script sees how it ended: an error joins the faults, and so does a `break` or a
    /// `continue` outside a loop.
    pub fn after_thing<H: Host>(
        &mut self,
        alloc: Global,
        host: &mut H,
        end: Ending,
    ) -> Result<Came, Stop>
        ensures same_place { H.place host.new ≡ H.place host.old }
        ensures same_limits { self.new.limits ≡ self.old.limits }
        ensures falls { FallsBelow result 1 self.old.fuel self.new.fuel }
        ensures comes { RunsSo H.meaning true self.old.left (after_frame H.meaning self.old.limits self.old.left frame.Thing (done_by (ended end) (H.state host.old) self.old)) result self.new (H.state host.new) }
    {
        match end.code {
            0 | 2 => {}
            3 | 4 => {
                let outside = ScriptFault {
                    number: ErrorNumber::OutsideLoop,
                    subject: None,
                };
                let told = failed(alloc, &outside, &self.limits)?;
                host.fault(&told.text)?;
            }
            _ => host.fault(&end.text)?,
        }
        Ok(Came::Ended(Ending::silent(alloc)))
    }
}
