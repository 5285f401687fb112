//! Errors of scripts: their numbers and their texts.
ghost use Rattle.std.specs.Prelude.{◌≡◌, ◌<◌, ◌+◌, ◌++◌, ◌∷◌, [], take, length, IfOk, OnOk};

use crate::text::Txt;
use std::alloc::{AllocError, AllocFailed, Global};
use thiserror::Error;

/// What went wrong in a script. The numbers are those of the errors' texts, as `E09`.
#[derive(Clone, Copy, Debug)]
pub enum ErrorNumber {
    MissingCloseBrace = 1,
    MissingCloseQuote = 2,
    MissingCloseBracket = 3,
    TextAfterCloseQuote = 4,
    TextAfterCloseBrace = 5,
    /// An escape whose value stands in no text.
    BadEscape = 6,
    /// More than 32 brackets, parentheses or `?:` in one another.
    TooDeeplyNested = 7,
    /// A variable without its `}` or `)`.
    MissingCloseOfVariable = 8,
    NoSuchCommand = 9,
    /// A wrong number of words, or an unknown subcommand.
    WrongWords = 10,
    NoSuchVariable = 11,
    /// An array used as a scalar, or a scalar as an array.
    WrongKindOfVariable = 12,
    /// Neither an integer nor, where one may stand, a truth value.
    NotAnInteger = 13,
    OutOfRange = 14,
    NotAList = 15,
    DivisionByZero = 16,
    /// A bad name of a variable or a procedure, or a bad list of parameters.
    BadName = 17,
    /// `break` or `continue` outside a loop.
    OutsideLoop = 18,
    BadIndex = 19,
    ExpressionSyntax = 20,
    BadPath = 30,
    WindowExists = 31,
    NoSuchWindow = 32,
    NotAllowedOnRoot = 33,
    UnknownOption = 34,
    BadValue = 35,
    NoSuchMark = 36,
    BadSequence = 40,
    TooManyEvents = 41,
    CannotBeGenerated = 42,
    NoSuchAfterId = 45,
}

impl ErrorNumber {
    ghost use Rattle.tks_text.specs.Fault.{number_of};

    /// The number: 1 to 45.
    pub fn number(self) -> u8
        ensures number { result ≡ number_of self }
        ensures digits { result < 100 }
    {
        self as u8
    }
}

/// An error of a script, and what it is about, as a variable's name.
#[derive(Debug, Drop, Error)]
#[error("an error of a script: {number:?}")]
pub struct ScriptFault {
    pub number: ErrorNumber,
    pub subject: Option<Txt>,
}

impl ScriptFault {
    ghost use Rattle.tks_text.specs.Fault.{fault_about, fault_text};

    /// An error that is about a text.
    pub fn about(number: ErrorNumber, subject: &Txt) -> Result<ScriptFault, AllocError>
        ensures { IfOk result (λ f. f ≡ fault_about number subject.now) }
    {
        Ok(ScriptFault {
            number,
            subject: Some(subject.try_clone()?),
        })
    }

    /// The text that a script sees: `E`, two digits, and, where there is a subject, a space and its
    /// first 64 bytes.
    pub fn text(&self, alloc: Global) -> Result<Txt, AllocError>
        ensures { IfOk result (λ t. t ≡ fault_text self.now) }
    {
        let mut text = Txt::new(alloc);
        let number = self.number.number();
        text.push_byte(b'E')?;
        text.push_byte(b'0' + number / 10)?;
        text.push_byte(b'0' + number % 10)?;
        if let Some(subject) = &self.subject {
            add_subject(&mut text, subject)?;
        }
        Ok(text)
    }
}

/// How many bytes of a subject are shown.
const SUBJECT_LEN: usize = 64;

// Adds a space and the front of the subject.
fn add_subject(text: &mut Txt, subject: &Txt) -> Result<(), AllocError>
    ensures { OnOk result (text.new ≡ text.old ++ 32 ∷ take 64 subject.now) }
{
    text.push_byte(b' ')?;
    text.append_front(subject, SUBJECT_LEN)
}

/// Why a call gave no value.
#[derive(Debug, Drop, Error)]
pub enum Failure {
    /// An error of the script's own.
    #[error("an error of the script")]
    Script(ScriptFault),
    /// An allocation was refused.
    #[error("out of memory")]
    NoMemory,
}

impl Failure {
    ghost use Rattle.tks_text.specs.Fault.{fault_about, TellsSo};

    /// The failure by an error that is about a text.
    pub fn about(number: ErrorNumber, subject: &Txt) -> Failure
        ensures { TellsSo (fault_about number subject.now) result }
    {
        match ScriptFault::about(number, subject) {
            Ok(fault) => Failure::Script(fault),
            Err(_) => Failure::NoMemory,
        }
    }
}

impl From<AllocError> for Failure {
    ghost use Rattle.std.specs.Prelude.{◌≡◌};
    ghost use Rattle.tks_text.specs.declared.fault.Failure.TheVariants.{NoMemory};

    ghost from_gives = { λ _ e. e ≡ NoMemory };

    fn from(_e: AllocError) -> Failure {
        Failure::NoMemory
    }
}

impl<T: Drop> From<AllocFailed<T>> for Failure {
    ghost use Rattle.std.specs.Prelude.{◌≡◌};
    ghost use Rattle.tks_text.specs.declared.fault.Failure.TheVariants.{NoMemory};

    ghost from_gives = { λ _ e. e ≡ NoMemory };

    fn from(_e: AllocFailed<T>) -> Failure {
        Failure::NoMemory
    }
}
