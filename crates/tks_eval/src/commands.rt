//! Scripts and their commands, and the commands that run scripts.
ghost use Rattle.std.specs.Prelude.{true, ◌≡◌, ◌≤◌, ◌<◌, ◌*◌, ◌+◌, [], ◌∷◌, IfSome};
ghost use Rattle.std.specs.FinMap as map;
ghost use Rattle.std.specs.List.{list_all};
ghost use Rattle.tks_parse.specs.Tree.{command, no_command, script_size, words_size};
ghost use Rattle.tks_parse.specs.View.{words_of, words_of_command};
ghost use Rattle.tks_text.specs.Limits.{fits};
ghost use Rattle.tks_eval.specs.Evaluation.{words_do, call, control_does, catch_does, eval_does, procedure_does};
ghost use Rattle.tks_eval.specs.Machine.{control_of, after_frame, ended, level_of, done_by, frame_weight, RunsSo, ComesSo, DoesSo, FallsTo, FallsBelow};
ghost use Rattle.tks_eval.specs.declared.frame.Frame.TheVariants as frame;

use crate::at_once::{answer_at_once, plain_end};
use crate::control::Control;
use crate::frame::{Came, Ending, Frame, Opens};
use crate::halt::{Halt, error_about};
use crate::host::Host;
use crate::machine::{Machine, before, failed, told, waiting};
use crate::procedures::{enter, run_proc};
use std::alloc::Global;
use tks_parse::{Command, Remaining, RemainingScript, Script};
use tks_tcl::{Stop, concatenated_within, store};
use tks_text::{ErrorNumber, Limits, ScriptFault, Txt, decimal_of, fits};

/// Whether no text passes the limit.
pub fn all_fit(texts: &[Txt], limits: &Limits) -> bool
    ensures { result ≡ list_all (λ t. fits limits.now t) texts.now }
{
    texts.iter().all(|text| fits(text, limits))
}

// The command that is all of a script.
fn lone_command(script: &Script) -> Option<&Command>
    ensures { IfSome result (λ c. script.now ≡ command (words_of_command c.now) no_command) }
{
    match script.contents() {
        ([command], None) => Some(command),
        _ => None,
    }
}

impl Machine {
    /// Runs a script. Where no more may be run where they stand, it waits to be opened.
    #[cycle(run)]
    pub fn run_script<H: Host>(
        &mut self,
        alloc: Global,
        host: &mut H,
        script: &Script,
        asked: bool,
        near: u32,
    ) -> Result<Came, Stop>
        ensures same_place { H.place host.new ≡ H.place host.old }
        ensures same_limits { self.new.limits ≡ self.old.limits }
        ensures falls { FallsTo result (4 * script_size script.now + 2) self.old.fuel self.new.fuel }
        ensures opened { 0 < near → FallsTo result (4 * script_size script.now) self.old.fuel self.new.fuel }
        ensures comes { RunsSo H.meaning asked self.old.left (done_by (level_of H.meaning self.old script.now) (H.state host.old) self.old) result self.new (H.state host.new) }
    {
        if near == 0 {
            let script = script.share()?;
            return Ok(Came::Waits(waiting(alloc, Opens::Script(script))?));
        }
        let levels = self.left;
        if levels == 0 {
            return Err(Stop::Depth);
        }
        self.left = levels - 1;
        let Some(command) = lone_command(script) else {
            let rest = script.share()?.into_remaining();
            let begun = Ending::silent(alloc);
            return self.run_commands(alloc, host, rest, levels, begun, asked, near - 1);
        };
        let came = self.run_command(alloc, host, command, asked, near - 1);
        match told(alloc, came, &self.limits)? {
            Came::Ended(end) => {
                self.left = levels;
                Ok(Came::Ended(end))
            }
            Came::Waits(waiting) => {
                let mut rest = script.share()?.into_remaining();
                rest.skip();
                Ok(Came::Waits(before(waiting, Frame::Commands { rest, levels })?))
            }
        }
    }

    /// Runs the commands that are left of a script behind such an end.
    #[cycle(run)]
    pub fn run_commands<H: Host>(
        &mut self,
        alloc: Global,
        host: &mut H,
        rest: RemainingScript,
        levels: u32,
        end: Ending,
        asked: bool,
        near: u32,
    ) -> Result<Came, Stop>
        ensures same_place { H.place host.new ≡ H.place host.old }
        ensures same_limits { self.new.limits ≡ self.old.limits }
        ensures falls { FallsTo result (4 * script_size rest) self.old.fuel self.new.fuel }
        ensures comes { RunsSo H.meaning asked levels (after_frame H.meaning self.old.limits self.old.left (frame.Commands rest levels) (done_by (ended end) (H.state host.old) self.old)) result self.new (H.state host.new) }
    {
        let mut rest = rest;
        let mut end = end;
        'command: while end.code == 0 {
            let Some(command) = rest.first() else {
                if let Some(fault) = rest.fault()? {
                    end = failed(alloc, &fault, &self.limits)?;
                }
                break 'command;
            };
            let asked = asked && rest.is_last();
            let came = self.run_command(alloc, host, command, asked, near);
            rest.skip();
            match told(alloc, came, &self.limits)? {
                Came::Ended(next) => end = next,
                Came::Waits(waiting) => {
                    return Ok(Came::Waits(before(waiting, Frame::Commands { rest, levels })?));
                }
            }
        }
        self.left = levels;
        Ok(Came::Ended(end))
    }

    // Makes the words of a command, and runs it.
    #[cycle(run)]
    #[inline(always)]
    fn run_command<H: Host>(
        &mut self,
        alloc: Global,
        host: &mut H,
        command: &Command,
        asked: bool,
        near: u32,
    ) -> Result<Came, Halt>
        ensures same_place { H.place host.new ≡ H.place host.old }
        ensures same_limits { self.new.limits ≡ self.old.limits }
        ensures falls { FallsTo result (4 * words_size (words_of_command command.now)) self.old.fuel self.new.fuel }
        ensures comes { DoesSo H.meaning asked (words_do H.meaning self.old.limits (level_of H.meaning self.old) (words_of_command command.now) []) (H.state host.old) self.old result (H.state host.new) self.new }
    {
        match command {
            Command::Ready(words) => {
                let words = words.as_ref().as_slice();
                if !all_fit(words, &self.limits) {
                    return Err(Halt::Stop(Stop::TooLarge));
                }
                self.do_command(alloc, host, words, asked, near)
            }
            Command::Made(words) => {
                if self.fuel != 0 {
                    let lent = words.as_ref().as_slice();
                    let end = answer_at_once(alloc, lent, &mut self.variables, &self.limits);
                    if let Some(end) = end {
                        self.fuel -= 1;
                        return Ok(Came::Ended(end));
                    }
                }
                let words = Remaining::all(words.clone()?);
                let made = self.table.no_words(alloc);
                self.make_words(alloc, host, made, words, asked, near)
            }
        }
    }

    /// Runs a command of these words. Without words it does nothing.
    #[cycle(run)]
    pub fn do_command<H: Host>(
        &mut self,
        alloc: Global,
        host: &mut H,
        words: &[Txt],
        asked: bool,
        near: u32,
    ) -> Result<Came, Halt>
        ensures same_place { H.place host.new ≡ H.place host.old }
        ensures same_limits { self.new.limits ≡ self.old.limits }
        ensures falls { FallsTo result 0 self.old.fuel self.new.fuel }
        ensures comes { DoesSo H.meaning asked (call H.meaning self.old.limits (level_of H.meaning self.old) words.now) (H.state host.old) self.old result (H.state host.new) self.new }
    {
        let Some((command, rest)) = words.split_first() else {
            return Ok(Came::Ended(Ending::silent(alloc)));
        };
        self.take_step()?;
        if let Some(control) = Control::named(command) {
            return self.run_control(alloc, host, control, command, rest, asked, near);
        }
        let lists = self.table.lists();
        let end = plain_end(
            alloc,
            lists,
            &mut self.variables,
            words,
            asked,
            &self.limits,
        )?;
        if let Some(end) = end {
            return Ok(Came::Ended(end));
        }
        match host.call(&mut self.variables, words)? {
            Some(plan) => Ok(self.run_plan(alloc, host, plan, near)?),
            None => self.run_procedure(alloc, host, command, rest, near),
        }
    }

    // Runs a command that runs scripts, behind its step.
    #[cycle(run)]
    fn run_control<H: Host>(
        &mut self,
        alloc: Global,
        host: &mut H,
        control: Control,
        command: &Txt,
        words: &[Txt],
        asked: bool,
        near: u32,
    ) -> Result<Came, Halt>
        ensures same_place { H.place host.new ≡ H.place host.old }
        ensures same_limits { self.new.limits ≡ self.old.limits }
        ensures spends { self.new.fuel ≤ self.old.fuel }
        ensures comes { DoesSo H.meaning asked (control_does H.meaning self.old.limits (level_of H.meaning self.old) (control_of control) command.now words.now) (H.state host.old) self.old result (H.state host.new) self.new }
    {
        match control {
            Control::Catch => self.run_catch(alloc, host, command, words, near),
            Control::Eval => self.run_eval(alloc, host, words, asked, near),
            Control::Expr => self.run_expr(alloc, host, command, words, near),
            Control::For => self.run_for(alloc, host, command, words, near),
            Control::Foreach => self.run_foreach(alloc, host, command, words, near),
            Control::If => self.run_if(alloc, host, command, words, asked, near),
            Control::Proc => {
                run_proc(
                    alloc,
                    host,
                    &mut self.variables,
                    command,
                    words,
                    &self.limits,
                )?;
                Ok(Came::Ended(Ending::silent(alloc)))
            }
            Control::While => self.run_while(alloc, host, command, words, near),
        }
    }

    // catch s ?name?
    #[cycle(run)]
    #[inline(never)]
    fn run_catch<H: Host>(
        &mut self,
        alloc: Global,
        host: &mut H,
        command: &Txt,
        words: &[Txt],
        near: u32,
    ) -> Result<Came, Halt>
        ensures same_place { H.place host.new ≡ H.place host.old }
        ensures same_limits { self.new.limits ≡ self.old.limits }
        ensures spends { self.new.fuel ≤ self.old.fuel }
        ensures comes { DoesSo H.meaning true (catch_does self.old.limits (level_of H.meaning self.old) command.now words.now) (H.state host.old) self.old result (H.state host.new) self.new }
    {
        let (script, name) = match words {
            [script] => (script, None),
            [script, name] => (script, Some(name.try_clone()?)),
            _ => return Err(error_about(ErrorNumber::WrongWords, command)),
        };
        let script = self.table.parsed().script(alloc, script)?;
        match self.run_script(alloc, host, &script, true, near)? {
            Came::Ended(end) => self.after_caught(alloc, host, name, end),
            Came::Waits(waiting) => Ok(Came::Waits(before(waiting, Frame::Catch { name })?)),
        }
    }

    /// Goes on with a `catch` behind its script.
    pub fn after_caught<H: Host>(
        &mut self,
        alloc: Global,
        host: &H,
        name: Option<Txt>,
        end: Ending,
    ) -> Result<Came, Halt>
        ensures same_limits { self.new.limits ≡ self.old.limits }
        ensures falls { FallsBelow result 1 self.old.fuel self.new.fuel }
        ensures comes { ComesSo H.meaning true self.old.left (after_frame H.meaning self.old.limits self.old.left (frame.Catch name) (done_by (ended end) (H.state host.now) self.old)) result self.new (H.state host.now) }
    {
        let Ending { code, text } = end;
        if let Some(name) = name {
            store(&mut self.variables, &name, text, &self.limits)?;
        }
        Ok(Came::Ended(Ending::with(decimal_of(alloc, code as i64)?)))
    }

    // eval ..
    #[cycle(run)]
    #[inline(never)]
    fn run_eval<H: Host>(
        &mut self,
        alloc: Global,
        host: &mut H,
        words: &[Txt],
        asked: bool,
        near: u32,
    ) -> Result<Came, Halt>
        ensures same_place { H.place host.new ≡ H.place host.old }
        ensures same_limits { self.new.limits ≡ self.old.limits }
        ensures spends { self.new.fuel ≤ self.old.fuel }
        ensures comes { DoesSo H.meaning asked (eval_does self.old.limits (level_of H.meaning self.old) words.now) (H.state host.old) self.old result (H.state host.new) self.new }
    {
        let text = concatenated_within(alloc, words, &self.limits)?;
        let script = self.table.parsed().script(alloc, &text)?;
        let came = self.run_script(alloc, host, &script, asked, near)?;
        Ok(came)
    }

    // Calls a procedure.
    #[cycle(run)]
    #[inline(never)]
    fn run_procedure<H: Host>(
        &mut self,
        alloc: Global,
        host: &mut H,
        command: &Txt,
        words: &[Txt],
        near: u32,
    ) -> Result<Came, Halt>
        ensures same_place { H.place host.new ≡ H.place host.old }
        ensures same_limits { self.new.limits ≡ self.old.limits }
        ensures spends { self.new.fuel ≤ self.old.fuel }
        ensures comes { DoesSo H.meaning true (procedure_does self.old.limits (level_of H.meaning self.old) command.now words.now (map.get self.old.variables.procedures command.now)) (H.state host.old) self.old result (H.state host.new) self.new }
    {
        let parsed = self.table.parsed();
        let script = enter(
            alloc,
            parsed,
            &mut self.variables,
            command,
            words,
            &self.limits,
        )?;
        match self.run_script(alloc, host, &script, true, near)? {
            Came::Ended(end) => self.after_procedure(host, end),
            Came::Waits(waiting) => Ok(Came::Waits(before(waiting, Frame::Procedure)?)),
        }
    }

    /// Ends a procedure, and its frame with it.
    #[inline(always)]
    pub fn after_procedure<H: Host>(&mut self, host: &H, end: Ending) -> Result<Came, Halt>
        ensures same_limits { self.new.limits ≡ self.old.limits }
        ensures falls { FallsBelow result 1 self.old.fuel self.new.fuel }
        ensures comes { ComesSo H.meaning true self.old.left (after_frame H.meaning self.old.limits self.old.left frame.Procedure (done_by (ended end) (H.state host.now) self.old)) result self.new (H.state host.now) }
    {
        self.variables.pop_frame();
        match end.code {
            2 => Ok(Came::Ended(Ending::with(end.text))),
            3 | 4 => Err(Halt::Fault(ScriptFault {
                number: ErrorNumber::OutsideLoop,
                subject: None,
            })),
            _ => Ok(Came::Ended(end)),
        }
    }
}
