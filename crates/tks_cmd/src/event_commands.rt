//! The commands on bindings, events, the focus and scripts that wait.
ghost use Rattle.std.specs.Prelude.{◌≡◌};
ghost use Rattle.tks_tcl.specs.Meets.{GivesSo};
ghost use Rattle.tks_cmd.specs.EventCommands.{named_by, is_built_in_by, event_command_named, event_form_does, event_does, event_command_does};
ghost use Rattle.tks_cmd.specs.Meets.{KeepsSo};

use crate::after::run_after;
use crate::bindings::{run_bind, run_bindtags};
use crate::events::run_generate;
use crate::focus::{run_focus, run_focus_next, run_focus_previous};
use crate::update::run_update;
use crate::virtual_events::{run_add, run_delete, run_info};
use std::alloc::Global;
use tks_eval::Plan;
use tks_state::{Rules, World};
use tks_tcl::{Interrupt, wrong_words};
use tks_text::{Limits, Txt};

/// A command on bindings, events, the focus or scripts that wait.
#[derive(Clone, Copy)]
pub enum EventCommand {
    Bind,
    Bindtags,
    Event,
    Focus,
    FocusNext,
    FocusPrev,
    After,
    Update,
}

impl EventCommand {
    // The command of this name that not all rules have.
    fn named_by(rules: Rules, name: &[u8]) -> Option<EventCommand>
        ensures { result ≡ named_by rules name.now }
    {
        match rules {
            Rules::One => None,
            Rules::Two => {
                if name == b"update".as_slice() {
                    Some(EventCommand::Update)
                } else {
                    None
                }
            }
        }
    }

    /// The command of this name, by these rules.
    pub fn named(rules: Rules, name: &[u8]) -> Option<EventCommand>
        ensures { result ≡ event_command_named rules name.now }
    {
        if name == b"bind".as_slice() {
            Some(EventCommand::Bind)
        } else if name == b"bindtags".as_slice() {
            Some(EventCommand::Bindtags)
        } else if name == b"event".as_slice() {
            Some(EventCommand::Event)
        } else if name == b"focus".as_slice() {
            Some(EventCommand::Focus)
        } else if name == b"tk_focusNext".as_slice() {
            Some(EventCommand::FocusNext)
        } else if name == b"tk_focusPrev".as_slice() {
            Some(EventCommand::FocusPrev)
        } else if name == b"after".as_slice() {
            Some(EventCommand::After)
        } else {
            EventCommand::named_by(rules, name)
        }
    }

    /// What the command comes to, given its first word and the others.
    pub fn run(
        self,
        alloc: Global,
        name: &Txt,
        words: &[Txt],
        world: &mut World,
        limits: &Limits,
    ) -> Result<Plan, Interrupt>
        ensures value { GivesSo (λ p. (p, world.new)) result (event_command_does limits.now self name.now words.now world.old) }
        ensures kept { KeepsSo result world.old world.new }
    {
        match self {
            EventCommand::Bind => {
                let text = run_bind(alloc, name, words, world, limits)?;
                Ok(Plan::Answer(0, text))
            }
            EventCommand::Bindtags => {
                let text = run_bindtags(alloc, name, words, world, limits)?;
                Ok(Plan::Answer(0, text))
            }
            EventCommand::Event => {
                let plan = run_event(alloc, name, words, world, limits)?;
                Ok(plan)
            }
            EventCommand::Focus => {
                let text = run_focus(alloc, name, words, world, limits)?;
                Ok(Plan::Answer(0, text))
            }
            EventCommand::FocusNext => {
                let text = run_focus_next(alloc, name, words, world)?;
                Ok(Plan::Answer(0, text))
            }
            EventCommand::FocusPrev => {
                let text = run_focus_previous(alloc, name, words, world)?;
                Ok(Plan::Answer(0, text))
            }
            EventCommand::After => {
                let text = run_after(alloc, name, words, world, limits)?;
                Ok(Plan::Answer(0, text))
            }
            EventCommand::Update => {
                let plan = run_update(name, words)?;
                Ok(plan)
            }
        }
    }
}

/// Whether a name is that of a built-in command that not all rules have, beside those that are always there. No procedure has
/// it while a world goes by these rules.
pub fn is_built_in_by(rules: Rules, name: &Txt) -> bool
    ensures { result ≡ is_built_in_by rules name.now }
{
    EventCommand::named_by(rules, name.as_bytes()).is_some()
}

// The forms of `event`: those on virtual events, and the one that makes events.
#[tactic(auto, using(tks_tcl::proofs::Causes::tells))]
fn run_form(
    alloc: Global,
    command: &Txt,
    form: &Txt,
    words: &[Txt],
    world: &mut World,
    limits: &Limits,
) -> Result<Plan, Interrupt>
    ensures value { GivesSo (λ p. (p, world.new)) result (event_form_does limits.now command.now form.now words.now world.old) }
    ensures kept { KeepsSo result world.old world.new }
{
    let form = form.as_bytes();
    if form == b"generate".as_slice() {
        let plan = run_generate(alloc, command, words, world, limits)?;
        Ok(plan)
    } else if form == b"add".as_slice() {
        let text = run_add(alloc, command, words, world, limits)?;
        Ok(Plan::Answer(0, text))
    } else if form == b"delete".as_slice() {
        let text = run_delete(alloc, command, words, world)?;
        Ok(Plan::Answer(0, text))
    } else if form == b"info".as_slice() {
        let text = run_info(alloc, command, words, world)?;
        Ok(Plan::Answer(0, text))
    } else {
        Err(wrong_words(command))
    }
}

// event add, event delete, event generate, event info
#[tactic(auto, using(tks_tcl::proofs::Causes::tells))]
fn run_event(
    alloc: Global,
    command: &Txt,
    words: &[Txt],
    world: &mut World,
    limits: &Limits,
) -> Result<Plan, Interrupt>
    ensures value { GivesSo (λ p. (p, world.new)) result (event_does limits.now command.now words.now world.old) }
    ensures kept { KeepsSo result world.old world.new }
{
    let Some((form, rest)) = words.split_first() else {
        return Err(wrong_words(command));
    };
    let plan = run_form(alloc, command, form, rest, world, limits)?;
    Ok(plan)
}
