//! A command on windows, given its words: the one that its first word names.
ghost use Rattle.std.specs.Prelude.{◌≡◌};
ghost use Rattle.tks_eval.specs.Meets.{AnswersSo};
ghost use Rattle.tks_cmd.specs.Commands.{words_do, may_come, does};
ghost use Rattle.tks_cmd.specs.Meets.{RunsSo, ErrsSo};

use crate::commands::Command;
use crate::widgets::run_window;
use std::alloc::Global;
use tks_eval::Plan;
use tks_state::World;
use tks_tcl::{Interrupt, Stop};
use tks_text::{Limits, ScriptFault, Txt, fits};
use tks_vars::Vars;

// What words come to; none where the first is neither a command's name nor a window's path.
fn run(
    alloc: Global,
    world: &mut World,
    variables: &mut Vars,
    words: &[Txt],
    limits: &Limits,
) -> Result<Option<Plan>, Interrupt>
    ensures { RunsSo result world.old world.new variables.old variables.new (words_do limits.now words.now world.old variables.old) }
{
    let Some((name, rest)) = words.split_first() else {
        return Ok(None);
    };
    if let Some(command) = Command::named(world.rules(), name) {
        let plan = command.run(alloc, name, rest, world, variables, limits)?;
        return Ok(Some(plan));
    }
    let Some(window) = world.tree().find(name) else {
        return Ok(None);
    };
    let id = window.id;
    let plan = run_window(alloc, world, variables, id, words, limits)?;
    Ok(Some(plan))
}

// Whether an answer's text passes no limit.
fn may_come(plan: &Plan, limits: &Limits) -> bool
    ensures { result ≡ may_come limits.now plan.now }
{
    match plan {
        Plan::Answer(_, text) => fits(text, limits),
        _ => true,
    }
}

// The end by an error.
fn err(alloc: Global, fault: &ScriptFault, limits: &Limits) -> Result<Plan, Stop>
    ensures { ErrsSo limits.now fault.now result }
{
    let text = fault.text(alloc)?;
    if !fits(&text, limits) {
        return Err(Stop::TooLarge);
    }
    Ok(Plan::Answer(1, text))
}

/// What a command on windows comes to: `frame`, `label`, `button`, `checkbutton`, `entry`, `listbox`, `text`, `destroy`,
/// `pack`, `bind`, `bindtags`, `event`, `focus`, `tk_focusNext`, `tk_focusPrev`, `after`, by the second rules of a world
/// `update`, or one of a window, whose name is its path. The first word names it; `None` where there is none of this name,
/// and then nothing has changed. An error of the command's own leaves the world and the variables as they were. The stops
/// are `TooLarge`, where a text, or a list of windows, bindings, tags, virtual events, waiting events or scripts, or
/// variables, or one that a widget or a virtual event holds, would pass its limit or numbers have run out, and `NoMemory`;
/// after them nothing is said of either. The variables are those handed in: the world's own aren't looked at.
pub fn command(
    alloc: Global,
    world: &mut World,
    variables: &mut Vars,
    words: &[Txt],
    limits: &Limits,
) -> Result<Option<Plan>, Stop>
    ensures { AnswersSo (does limits.now world.old variables.old words.now) result world.old world.new variables.old variables.new }
{
    match run(alloc, world, variables, words, limits) {
        Ok(None) => Ok(None),
        Ok(Some(plan)) => {
            if may_come(&plan, limits) {
                Ok(Some(plan))
            } else {
                Err(Stop::TooLarge)
            }
        }
        Err(Interrupt::Script(fault)) => {
            let plan = err(alloc, &fault, limits)?;
            Ok(Some(plan))
        }
        Err(Interrupt::TooLarge) => Err(Stop::TooLarge),
        Err(Interrupt::NoMemory) => Err(Stop::NoMemory),
    }
}
