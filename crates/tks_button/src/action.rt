//! What buttons can be told to do.
ghost use Rattle.std.specs.Prelude.{◌≡◌, true, IfOk};
ghost use Rattle.tks_opt.specs.Options.{has_option};
ghost use Rattle.tks_opt.specs.Values.{named_in};
ghost use Rattle.tks_button.specs.Action.{actions, action_of, is_disabled, invoked};

use std::alloc::{AllocError, Global};
use tks_opt::{OptionName, Options, Said, State};
use tks_text::Txt;

/// What a button can be told to do. All but the first are a checkbutton's.
#[derive(Clone, Copy, Debug, PartialEq, Eq)]
pub enum Action {
    /// Run its script; a checkbutton is toggled before.
    Invoke,
    /// Be on.
    Select,
    /// Be off.
    Deselect,
    /// Be off where it is on, and on where it is off.
    Toggle,
}

// The action that a text names.
fn action_named(text: &[u8]) -> Option<Action>
    ensures { result ≡ named_in actions text.now }
{
    if text == b"invoke".as_slice() {
        Some(Action::Invoke)
    } else if text == b"select".as_slice() {
        Some(Action::Select)
    } else if text == b"deselect".as_slice() {
        Some(Action::Deselect)
    } else if text == b"toggle".as_slice() {
        Some(Action::Toggle)
    } else {
        None
    }
}

impl Action {
    /// The action that the words of a whole command name, the window's path first.
    pub fn of(words: &[Txt]) -> Option<Action>
        ensures { result ≡ action_of words.now }
    {
        match words {
            [_path, name] => action_named(name.as_bytes()),
            _ => None,
        }
    }
}

/// Whether `-state` is `disabled`.
pub fn is_disabled(options: &Options) -> bool
    ensures { result ≡ is_disabled options.now }
{
    match options.state() {
        Some(State::Disabled) => true,
        _ => false,
    }
}

/// What `invoke` comes to: the script that `-command` says, or, for a disabled button, the empty text.
pub fn invoked(alloc: Global, options: &Options) -> Result<Said, AllocError>
    requires { has_option options.now.class OptionName.Command ≡ true }
    ensures { IfOk result (λ said. said ≡ invoked options.now) }
{
    if is_disabled(options) {
        return Ok(Said::Text(Txt::new(alloc)));
    }
    let script = options.own_value(OptionName::Command).try_clone()?;
    Ok(Said::Run(script))
}
