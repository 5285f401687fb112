//! The commands of a script.
ghost use Rattle.std.specs.Prelude.{◌≡◌, None, OnOk};
ghost use Rattle.tks_parse.specs.Gives.{script_of_option};
ghost use Rattle.tks_parse.specs.Tree.{join_scripts};
ghost use Rattle.tks_parse.specs.View.{script_of_commands};

use crate::tree::Command;
use std::alloc::AllocError;
use tks_text::ScriptFault;

/// The commands of a script, up to its end or its first fault, and how many bytes they take.
#[derive(Drop)]
pub struct Found {
    pub commands: Vec<Command>,
    pub fault: Option<ScriptFault>,
    pub taken: usize,
}

/// Adds a command that is there.
#[tactic(auto, using(crate::proofs::Joins::commands_push, crate::proofs::Joins::join_scripts_none))]
pub fn add_command(commands: &mut Vec<Command>, command: Option<Command>) -> Result<(), AllocError>
    ensures { OnOk result (script_of_commands commands.new.items None ≡ join_scripts (script_of_commands commands.old.items None) (script_of_option command)) }
{
    if let Some(command) = command {
        commands.push(command)?;
    }
    Ok(())
}
