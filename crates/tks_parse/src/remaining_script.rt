//! What is left of a script that others may hold too, from a command on.
ghost use Rattle.std.specs.Prelude.{◌≡◌, ◌↔◌, [], true, None, option_map, IfOk};
ghost use Rattle.tks_parse.specs.Tree.{no_command};
ghost use Rattle.tks_parse.specs.View.{script_of_commands, words_of_command, first_words, behind};

use crate::tree::{Command, Contents};
use std::alloc::AllocError;
use std::marker::Model;
use std::rc::Rc;
use tks_text::{ScriptFault, Txt};

/// What is left of a script that others may hold too: its commands, and the fault behind them. To go on takes nothing apart. Contracts see the script that it is.
#[derive(Drop)]
pub struct RemainingScript {
    contents: Rc<Contents>,
    at: usize,
}

impl Model for RemainingScript {
    ghost use Rattle.std.specs.Prelude.{drop, length, ◌≤◌};
    ghost use Rattle.tks_parse.specs.Tree.{Script, script_code};

    ghost Value = { Script };

    ghost coded = { script_code };

    ghost use Rattle.tks_parse.specs.View.{script_of_commands};

    ghost view = { λ l. script_of_commands (drop l.at l.contents.value.commands.items) l.contents.value.fault };

    ghost invariant = { λ l. l.at ≤ length l.contents.value.commands.items };
}

// A fault once more.
fn fault_again(fault: &Option<ScriptFault>) -> Result<Option<ScriptFault>, AllocError>
    ensures { IfOk result (λ f. f ≡ fault.now) }
{
    match fault {
        None => Ok(None),
        Some(fault) => Ok(Some(ScriptFault {
            number: fault.number,
            subject: subject_again(&fault.subject)?,
        })),
    }
}

// A fault's subject once more.
fn subject_again(subject: &Option<Txt>) -> Result<Option<Txt>, AllocError>
    ensures { IfOk result (λ s. s ≡ subject.now) }
{
    match subject {
        None => Ok(None),
        Some(text) => Ok(Some(text.try_clone()?)),
    }
}

impl RemainingScript {
    /// All of a script.
    pub(crate) fn all(contents: Rc<Contents>) -> RemainingScript
        ensures { result ≡ script_of_commands contents.value.commands.items contents.value.fault }
    {
        RemainingScript { contents, at: 0 }
    }

    /// The first command.
    pub fn first(&self) -> Option<&Command>
        ensures { option_map (λ c. words_of_command c.now) result ≡ first_words self.now }
    {
        self.contents.as_ref().commands.as_slice().get(self.at)
    }

    /// Goes on behind the first command, where there is one.
    #[tactic(auto, using(crate::proofs::Drops::drop_next, crate::proofs::Fronts::behind_first))]
    pub fn skip(&mut self)
        ensures { self.new ≡ behind self.old }
    {
        if self.at < self.contents.as_ref().commands.len() {
            self.at += 1;
        }
    }

    /// Whether neither a command nor a fault is left.
    #[tactic(auto, using(crate::proofs::Fronts::at_end_of_empty))]
    pub fn is_empty(&self) -> bool
        ensures { result ≡ true ↔ self.now ≡ no_command }
    {
        let contents = self.contents.as_ref();
        self.at == contents.commands.len() && contents.fault.is_none()
    }

    /// Whether neither a command nor a fault is left behind the first command.
    #[tactic(auto, using(crate::proofs::Fronts::none_behind, crate::proofs::Fronts::behind_none))]
    pub fn is_last(&self) -> bool
        ensures { result ≡ true ↔ behind self.now ≡ no_command }
    {
        let contents = self.contents.as_ref();
        contents.commands.len() - self.at <= 1 && contents.fault.is_none()
    }

    /// The fault behind the commands that are left, copied.
    #[tactic(auto, using(crate::proofs::Fronts::fault_alone))]
    pub fn fault(&self) -> Result<Option<ScriptFault>, AllocError>
        ensures { IfOk result (λ o. first_words self.now ≡ None → script_of_commands [] o ≡ self.now) }
    {
        fault_again(&self.contents.as_ref().fault)
    }
}
