//! What a checkbutton answers and shows, and what its variable says (checkbutton(n)).
ghost use Rattle.std.specs.Prelude.{◌≡◌, IfOk, OnErr, option_map};
ghost use Rattle.tks_text.specs.Fault.{Gives};
ghost use Rattle.tks_text.specs.declared.class.Class.TheVariants as class;
ghost use Rattle.tks_button.specs.Checkbutton.{variable_of, value_when, is_on, turned, called, shown};

use crate::action::{Action, invoked, is_disabled};
use crate::block::block_rows;
use crate::label;
use crate::mark::marked_text;
use std::alloc::{AllocError, Global};
use tks_opt::{OptionName, Options, Said};
use tks_text::{Failure, Seq, Txt};

/// The name of its variable, a global one.
pub fn variable(options: &Options) -> &Txt
    requires { options.now.class ≡ class.Checkbutton }
    ensures { result.now ≡ variable_of options.now }
{
    options.own_value(OptionName::Variable)
}

/// The value that its variable has when it is on, or when it is off.
pub fn value_when(options: &Options, on: bool) -> &Txt
    requires { options.now.class ≡ class.Checkbutton }
    ensures { result.now ≡ value_when options.now on }
{
    if on {
        options.own_value(OptionName::OnValue)
    } else {
        options.own_value(OptionName::OffValue)
    }
}

/// Whether it is on where its variable has this value, or none: the value is that of `-onvalue`.
pub fn is_on(options: &Options, value: Option<&Txt>) -> bool
    requires { options.now.class ≡ class.Checkbutton }
    ensures { result ≡ is_on options.now (option_map (λ v. v.now) value.entry) }
{
    match value {
        Some(value) => value.as_bytes() == value_when(options, true).as_bytes(),
        None => false,
    }
}

/// Whether it is to be on after the words of a whole command, where they make something of that, and by whether it
/// is on before.
pub fn turned(options: &Options, words: &[Txt], on: bool) -> Option<bool>
    ensures { result ≡ turned options.now words.now on }
{
    match Action::of(words)? {
        Action::Select => Some(true),
        Action::Deselect => Some(false),
        Action::Toggle => Some(!on),
        Action::Invoke if is_disabled(options) => None,
        Action::Invoke => Some(!on),
    }
}

/// The characters of its area, row by row: a label's block with `[x] ` or `[ ] ` before the first line, as it is on or
/// off, and four spaces before the others.
pub fn shown(
    alloc: Global,
    options: &Options,
    width: usize,
    height: usize,
    on: bool,
) -> Result<Seq<Seq<u8>>, AllocError>
    ensures { IfOk result (λ cells. cells ≡ shown options.now width height on) }
{
    let block = marked_text(alloc, label::text_of(options), on)?;
    let anchor = label::anchor_of(options);
    let cells = block_rows(alloc, block.as_slice(), anchor, width, height)?;
    Ok(cells)
}

/// What the words of a whole command come to, the checkbutton's path first. What they make of its being on is
/// `turned`'s.
pub fn call(alloc: Global, options: &mut Options, words: &[Txt]) -> Result<Said, Failure>
    requires { options.old.class ≡ class.Checkbutton }
    ensures value { Gives (λ said. (said, options.new)) result (called options.old words.now) }
    ensures err { OnErr result (options.new ≡ options.old) }
    ensures class { options.new.class ≡ options.old.class }
{
    match Action::of(words) {
        None => {
            let said = options.call(words)?;
            Ok(said)
        }
        Some(Action::Invoke) => {
            let said = invoked(alloc, options)?;
            Ok(said)
        }
        Some(_) => Ok(Said::Text(Txt::new(alloc))),
    }
}
