//! What a button answers (button(n)).
ghost use Rattle.std.specs.Prelude.{◌≡◌, OnErr};
ghost use Rattle.tks_text.specs.Fault.{Gives};
ghost use Rattle.tks_text.specs.declared.class.Class.TheVariants as class;
ghost use Rattle.tks_button.specs.Button.{called};

use crate::action::{Action, invoked};
use std::alloc::Global;
use tks_opt::{Options, Said};
use tks_text::{Failure, Txt};

/// What the words of a whole command come to, the button's path first.
pub fn call(alloc: Global, options: &mut Options, words: &[Txt]) -> Result<Said, Failure>
    requires { options.old.class ≡ class.Button }
    ensures value { Gives (λ said. (said, options.new)) result (called options.old words.now) }
    ensures err { OnErr result (options.new ≡ options.old) }
    ensures class { options.new.class ≡ options.old.class }
{
    match Action::of(words) {
        Some(Action::Invoke) => {
            let said = invoked(alloc, options)?;
            Ok(said)
        }
        _ => {
            let said = options.call(words)?;
            Ok(said)
        }
    }
}
