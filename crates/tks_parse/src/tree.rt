//! The tree of a script.
ghost use Rattle.std.specs.Prelude.{◌≡◌, IfOk, IfSome, false, option_copied};
ghost use Rattle.tks_text.specs.Text.{IsText};
ghost use Rattle.tks_parse.specs.Tree.{chars, no_part};
ghost use Rattle.tks_parse.specs.View.{script_of_commands, words_of, ready_words, words_of_command, parts_of};

use crate::remaining::Remaining;
use crate::remaining_script::RemainingScript;
use std::alloc::{AllocError, Global};
use std::marker::Model;
use std::rc::Rc;
use tks_text::{ScriptFault, Txt};

/// A script: its commands, up to the first fault if there is one. Contracts see it as a tree of
/// commands, words and parts.
#[cycle(tree)]
#[derive(Drop)]
pub struct Script {
    contents: Rc<Contents>,
}

/// What a script is made of: its commands, and the fault behind them if there is one.
#[cycle(tree)]
#[derive(Drop)]
pub(crate) struct Contents {
    pub(crate) commands: Vec<Command>,
    pub(crate) fault: Option<ScriptFault>,
}

/// A command: its words, the name first.
#[cycle(tree)]
#[derive(Drop)]
pub enum Command {
    /// Words that stand for themselves, as they are passed.
    Ready(Rc<Vec<Txt>>),
    /// Words that are made each time.
    Made(Rc<Vec<Word>>),
}

/// A word: the joined values of its parts.
#[cycle(tree)]
#[derive(Drop)]
pub struct Word {
    /// Whether the value is split as a list, whose elements are the words.
    pub expand: bool,
    pub parts: Parts,
}

/// The parts of a word, in order.
#[cycle(tree)]
#[derive(Drop)]
pub struct Parts {
    parts: Rc<Vec<Part>>,
}

/// A part of a word.
#[cycle(tree)]
#[derive(Drop)]
pub enum Part {
    /// Characters that stand for themselves.
    Text(Txt),
    /// The value of a variable: a scalar, or the element of an array at the index of these parts.
    Variable(Txt, Option<Parts>),
    /// The result of a script.
    Nested(Script),
}

impl Model for Script {
    ghost use Rattle.tks_parse.specs.Tree.{Script, script_code, script_size};

    ghost Value = { Script };

    ghost coded = { script_code };

    ghost use Rattle.tks_parse.specs.View.{script_of_commands};

    ghost view = { λ s. script_of_commands s.contents.value.commands.items s.contents.value.fault };

    ghost size = { script_size };

    ghost use Rattle.std.proofs.Common.{arith};
    ghost use Rattle.tks_parse.specs.Falls.{commands_fall};

    ghost size_decreases = { λ s h. Prim.omega (arith, commands_fall s.contents.value.commands.items s.contents.value.fault) };
}

impl Model for Parts {
    ghost use Rattle.tks_parse.specs.Tree.{Parts, parts_code, parts_size};

    ghost Value = { Parts };

    ghost coded = { parts_code };

    ghost use Rattle.tks_parse.specs.View.{parts_of};

    ghost view = { λ p. parts_of p.parts.value.items };

    ghost size = { parts_size };

    ghost use Rattle.std.proofs.Common.{arith};
    ghost use Rattle.tks_parse.specs.Falls.{parts_fall};

    ghost size_decreases = { λ p h. Prim.omega (arith, parts_fall p.parts.value.items) };
}

impl Script {
    /// The script of these commands, with a fault behind them or none.
    pub(crate) fn new(
        alloc: Global,
        commands: Vec<Command>,
        fault: Option<ScriptFault>,
    ) -> Result<Script, AllocError>
        ensures { IfOk result (λ s. s ≡ script_of_commands commands.items fault) }
    {
        match Rc::new(alloc, Contents { commands, fault }) {
            Ok(contents) => Ok(Script { contents }),
            Err(_) => Err(AllocError),
        }
    }

    /// The same script, held once more: nothing of it is copied.
    pub fn share(&self) -> Result<Script, AllocError>
        ensures { IfOk result (λ s. s ≡ self.now) }
    {
        Ok(Script {
            contents: self.contents.clone()?,
        })
    }

    /// The commands, in order, and the fault behind them.
    pub fn contents(&self) -> (&[Command], Option<&ScriptFault>)
        ensures { script_of_commands result.0.now (option_copied result.1) ≡ self.now }
    {
        let contents = self.contents.as_ref();
        (contents.commands.as_slice(), contents.fault.as_ref())
    }

    /// The same, to go on in.
    pub fn into_remaining(self) -> RemainingScript
        ensures { result ≡ self }
    {
        RemainingScript::all(self.contents)
    }
}

// The characters of a word that stands for itself.
fn literal(word: &Word) -> Option<&[u8]>
    ensures literal { IfSome result (λ text. (word.now.expand ≡ false) × (word.now.parts ≡ chars text.now no_part)) }
    ensures text { IfSome result (λ text. IsText text.now) }
{
    if word.expand {
        return None;
    }
    match word.parts.as_slice() {
        [] => Some(b"".as_slice()),
        [Part::Text(text)] => Some(text.as_bytes()),
        _ => None,
    }
}

// The words as texts, where all stand for themselves.
fn ready(alloc: Global, words: &[Word]) -> Result<Option<Vec<Txt>>, AllocError>
    ensures { IfOk result (λ o. IfSome o (λ texts. ready_words texts.items ≡ words_of words.now)) }
{
    // Asked first, so that nothing is copied in vain.
    if !words.iter().all(|word| literal(word).is_some()) {
        return Ok(None);
    }
    let mut texts = Vec::new(alloc);
    let mut rest = words;
    'word: while let Some((word, behind)) = rest.split_first() {
        let Some(text) = literal(word) else {
            return Ok(None);
        };
        texts.push(Txt::from_text(alloc, text)?)?;
        rest = behind;
    }
    Ok(Some(texts))
}

impl Command {
    /// The command of words that stand for themselves.
    pub(crate) fn ready(alloc: Global, texts: Vec<Txt>) -> Result<Command, AllocError>
        ensures { IfOk result (λ c. words_of_command c ≡ ready_words texts.items) }
    {
        match Rc::new(alloc, texts) {
            Ok(texts) => Ok(Command::Ready(texts)),
            Err(_) => Err(AllocError),
        }
    }

    /// The command of these words.
    pub(crate) fn new(alloc: Global, words: Vec<Word>) -> Result<Command, AllocError>
        ensures { IfOk result (λ c. words_of_command c ≡ words_of words.items) }
    {
        match ready(alloc, words.as_slice())? {
            Some(texts) => Command::ready(alloc, texts),
            None => match Rc::new(alloc, words) {
                Ok(words) => Ok(Command::Made(words)),
                Err(_) => Err(AllocError),
            },
        }
    }
}

impl Parts {
    /// The word's parts.
    pub(crate) fn new(alloc: Global, parts: Vec<Part>) -> Result<Parts, AllocError>
        ensures { IfOk result (λ p. p ≡ parts_of parts.items) }
    {
        match Rc::new(alloc, parts) {
            Ok(parts) => Ok(Parts { parts }),
            Err(_) => Err(AllocError),
        }
    }

    /// The same parts, held once more.
    pub fn share(&self) -> Result<Parts, AllocError>
        ensures { IfOk result (λ p. p ≡ self.now) }
    {
        Ok(Parts {
            parts: self.parts.clone()?,
        })
    }

    /// The parts, to go on in.
    pub fn remaining(&self) -> Result<Remaining<Part>, AllocError>
        ensures { IfOk result (λ parts. parts_of parts ≡ self.now) }
    {
        Ok(Remaining::all(self.parts.clone()?))
    }

    /// The parts, in order.
    pub fn as_slice(&self) -> &[Part]
        ensures { parts_of result.now ≡ self.now }
    {
        self.parts.as_ref().as_slice()
    }
}
