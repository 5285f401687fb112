//! Frames: what is left to do behind the end of a script, a command or a word.
ghost use Rattle.std.specs.Prelude.{◌≡◌, []};

use crate::branches::Branches;
use crate::expressions::Counting;
use crate::host::Due;
use crate::loops::{Loop, Stage};
use crate::made::MadeWords;
use crate::rest::Rest;
use std::alloc::Global;
use tks_parse::{Part, Remaining, RemainingScript, Script, Word};
use tks_text::Txt;

/// How a script, a command or a word ended: its code, and its result or its error's text.
#[derive(Drop)]
pub struct Ending {
    pub code: u8,
    pub text: Txt,
}

impl Ending {
    /// The end with nothing to say.
    pub fn silent(alloc: Global) -> Ending
        ensures { result ≡ record { code = 0; text = [] } }
    {
        Ending {
            code: 0,
            text: Txt::new(alloc),
        }
    }

    /// The end by code 0 with this text.
    pub fn with(text: Txt) -> Ending
        ensures { result ≡ record { code = 0; text = text } }
    {
        Ending { code: 0, text }
    }
}

/// What waits for an end.
#[derive(Drop)]
pub enum Frame {
    /// What is left of a script, which was opened where so many might be open.
    Commands {
        rest: RemainingScript,
        levels: u32,
    },
    /// A command, whose next word is being made.
    Command {
        words: MadeWords,
        expand: bool,
        rest: Remaining<Word>,
    },
    /// A word, at a script in it.
    Nested {
        made: Txt,
        parts: Remaining<Part>,
    },
    /// A word, at the index of an element.
    Element {
        name: Txt,
        made: Txt,
        parts: Remaining<Part>,
    },
    /// `catch`, with the variable for the text.
    Catch {
        name: Option<Txt>,
    },
    /// `foreach`, at its body.
    Each {
        name: Txt,
        body: Txt,
        elements: Rest<Txt>,
    },
    /// An expression, at a text.
    Value(Counting),
    /// `expr`, at its expression.
    Whole,
    /// `if`, at a condition, with its body and the branches behind it.
    Branch {
        body: Txt,
        rest: Branches,
    },
    /// `while` or `for`.
    Turns(Stage, Loop),
    /// A procedure.
    Procedure,
    /// A script at global level.
    Global,
    /// One of the scripts of an event in a window, with those behind it.
    Scripts {
        window: u64,
        scripts: Rest<Txt>,
    },
    /// A thing that waited, of which no script sees how it ends.
    Thing,
    /// `update`, at one of the things that waited, behind which the host is asked for the next one.
    Update {
        due: Due,
    },
}

/// What is to be opened.
#[derive(Drop)]
pub enum Opens {
    Script(Script),
    /// The index of an element.
    Index(Remaining<Part>),
    /// The things that wait in the host, for `update`.
    Things(Due),
}

/// What waits: what is to be opened, and what is left to do behind that, the innermost first.
#[derive(Drop)]
pub struct Waiting {
    pub opens: Opens,
    pub frames: Vec<Frame>,
}

/// How far a thing came.
#[derive(Drop)]
pub enum Came {
    /// It ended.
    Ended(Ending),
    /// It waits for what has to be opened.
    Waits(Box<Waiting>),
}
