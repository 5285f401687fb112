//! The commands on windows that have a name.
ghost use Rattle.std.specs.Prelude.{◌≡◌};
ghost use Rattle.tks_tcl.specs.Meets.{GivesSo};
ghost use Rattle.tks_cmd.specs.Changes.{outcome};
ghost use Rattle.tks_cmd.specs.Commands.{other_named, command_named, command_does};
ghost use Rattle.tks_cmd.specs.Meets.{KeepsSo};

use crate::event_commands::EventCommand;
use crate::packing::run_pack;
use crate::windows::{WindowKind, run_destroy, run_make};
use std::alloc::Global;
use tks_eval::Plan;
use tks_state::{Rules, World};
use tks_tcl::Interrupt;
use tks_text::{Limits, Txt};
use tks_vars::Vars;

/// The commands on windows that have a name.
#[derive(Clone, Copy)]
pub enum Command {
    /// The one that makes windows of a kind.
    Make(WindowKind),
    Destroy,
    Pack,
    /// One on bindings and events.
    Events(EventCommand),
}

impl Command {
    /// The command of this name, by these rules.
    pub fn named(rules: Rules, name: &Txt) -> Option<Command>
        ensures { result ≡ command_named rules name.now }
    {
        match WindowKind::named(name) {
            Some(kind) => Some(Command::Make(kind)),
            None => Command::other_named(rules, name),
        }
    }

    // The command of this name that makes no windows.
    fn other_named(rules: Rules, name: &Txt) -> Option<Command>
        ensures { result ≡ other_named rules name.now }
    {
        let name = name.as_bytes();
        if name == b"destroy".as_slice() {
            Some(Command::Destroy)
        } else if name == b"pack".as_slice() {
            Some(Command::Pack)
        } else {
            match EventCommand::named(rules, name) {
                Some(command) => Some(Command::Events(command)),
                None => None,
            }
        }
    }

    /// What the command comes to, given its first word and the others.
    pub fn run(
        self,
        alloc: Global,
        name: &Txt,
        words: &[Txt],
        world: &mut World,
        variables: &mut Vars,
        limits: &Limits,
    ) -> Result<Plan, Interrupt>
        ensures value { GivesSo (λ p. outcome p world.new variables.new) result (command_does limits.now self name.now words.now world.old variables.old) }
        ensures world { KeepsSo result world.old world.new }
        ensures variables { KeepsSo result variables.old variables.new }
    {
        match self {
            Command::Make(kind) => {
                let plan = run_make(alloc, kind, name, words, world, variables, limits)?;
                Ok(plan)
            }
            Command::Destroy => {
                let text = run_destroy(alloc, name, words, world)?;
                Ok(Plan::Answer(0, text))
            }
            Command::Pack => {
                let text = run_pack(alloc, name, words, world)?;
                Ok(Plan::Answer(0, text))
            }
            Command::Events(command) => {
                let plan = command.run(alloc, name, words, world, limits)?;
                Ok(plan)
            }
        }
    }
}
