//! The names of built-in commands.
ghost use Rattle.std.specs.Prelude.{◌≡◌, if◌then◌else◌, Some, None, option_map};
ghost use Rattle.tks_text.specs.Text.{same_text};
ghost use Rattle.tks_tcl.specs.Codes.{code_named};
ghost use Rattle.tks_tcl.specs.Lists.{list_named};
ghost use Rattle.tks_tcl.specs.Variables.{variable_named};
ghost use Rattle.tks_tcl.specs.Plain.{command_named};
ghost use Rattle.tks_tcl.specs.Names.{runs_scripts, makes_window, acts_on_windows, is_built_in};
ghost use Rattle.tks_tcl.specs.View.{code_command_of, list_command_of, variable_command_of, command_of};

use crate::codes::CodeCommand;
use crate::lists::ListCommand;
use crate::variables::VariableCommand;
use tks_text::Txt;

/// The commands that run no script.
#[derive(Clone, Copy)]
pub enum Command {
    OfCode(CodeCommand),
    OfLists(ListCommand),
    OfStrings,
    OfVariables(VariableCommand),
}

/// Whether a name is this word. Most words differ in their first byte already.
pub fn is_word(name: &[u8], word: &[u8]) -> bool
    ensures { result ≡ same_text name.now word.now }
{
    match (name, word) {
        ([c, ..], [d, ..]) if c != d => false,
        _ => name == word,
    }
}

// What a word stands for, where a name is this word.
fn if_word<T: Drop>(name: &[u8], word: &[u8], meant: T) -> Option<T>
    ensures { result ≡ (if same_text name.now word.now then Some meant else None) }
{
    if is_word(name, word) {
        Some(meant)
    } else {
        None
    }
}

// The command with a code of its own, of this name.
fn code_named(name: &[u8]) -> Option<CodeCommand>
    ensures { option_map code_command_of result ≡ code_named name.now }
{
    let [first, ..] = name else {
        return None;
    };
    match *first {
        b'b' => if_word(name, b"break", CodeCommand::Break),
        b'c' => if_word(name, b"continue", CodeCommand::Continue),
        b'e' => if_word(name, b"error", CodeCommand::Error),
        b'r' => if_word(name, b"return", CodeCommand::Return),
        _ => None,
    }
}

// The command on lists of this name.
fn list_named(name: &[u8]) -> Option<ListCommand>
    ensures { option_map list_command_of result ≡ list_named name.now }
{
    let [first, ..] = name else {
        return None;
    };
    match *first {
        b'c' => if_word(name, b"concat", ListCommand::Concat),
        b'j' => if_word(name, b"join", ListCommand::Join),
        b'l' => {
            if is_word(name, b"lindex") {
                Some(ListCommand::Lindex)
            } else if is_word(name, b"llength") {
                Some(ListCommand::Llength)
            } else if is_word(name, b"list") {
                Some(ListCommand::List)
            } else if is_word(name, b"lrange") {
                Some(ListCommand::Lrange)
            } else {
                if_word(name, b"lsearch", ListCommand::Lsearch)
            }
        }
        b's' => if_word(name, b"split", ListCommand::Split),
        _ => None,
    }
}

// The command on variables of this name.
fn variable_named(name: &[u8]) -> Option<VariableCommand>
    ensures { option_map variable_command_of result ≡ variable_named name.now }
{
    let [first, ..] = name else {
        return None;
    };
    match *first {
        b'a' => if_word(name, b"append", VariableCommand::Append),
        b'g' => if_word(name, b"global", VariableCommand::Global),
        b'i' => {
            if is_word(name, b"incr") {
                Some(VariableCommand::Incr)
            } else {
                if_word(name, b"info", VariableCommand::Info)
            }
        }
        b'l' => if_word(name, b"lappend", VariableCommand::Lappend),
        b's' => if_word(name, b"set", VariableCommand::Set),
        b'u' => if_word(name, b"unset", VariableCommand::Unset),
        _ => None,
    }
}

impl Command {
    /// The command of this name that runs no script. The first byte of a name leaves few words that it may be.
    pub fn named(name: &Txt) -> Option<Command>
        ensures { option_map command_of result ≡ command_named name.now }
    {
        let name = name.as_bytes();
        if is_word(name, b"string") {
            return Some(Command::OfStrings);
        }
        if let Some(command) = variable_named(name) {
            return Some(Command::OfVariables(command));
        }
        if let Some(command) = list_named(name) {
            return Some(Command::OfLists(command));
        }
        match code_named(name) {
            Some(command) => Some(Command::OfCode(command)),
            None => None,
        }
    }
}

// Whether a command of this name runs scripts.
fn runs_scripts(name: &[u8]) -> bool
    ensures { result ≡ runs_scripts name.now }
{
    is_word(name, b"catch")
        || is_word(name, b"eval")
        || is_word(name, b"expr")
        || is_word(name, b"for")
        || is_word(name, b"foreach")
        || is_word(name, b"if")
        || is_word(name, b"proc")
        || is_word(name, b"while")
}

// Whether a command of this name makes windows.
fn makes_window(name: &[u8]) -> bool
    ensures { result ≡ makes_window name.now }
{
    is_word(name, b"button")
        || is_word(name, b"checkbutton")
        || is_word(name, b"entry")
        || is_word(name, b"frame")
        || is_word(name, b"label")
        || is_word(name, b"listbox")
        || is_word(name, b"text")
}

// Whether a command of this name acts on windows or events.
fn acts_on_windows(name: &[u8]) -> bool
    ensures { result ≡ acts_on_windows name.now }
{
    is_word(name, b"after")
        || is_word(name, b"bind")
        || is_word(name, b"bindtags")
        || is_word(name, b"destroy")
        || is_word(name, b"event")
        || is_word(name, b"focus")
        || is_word(name, b"pack")
        || is_word(name, b"tk_focusNext")
        || is_word(name, b"tk_focusPrev")
}

/// Whether a name is that of a built-in command, also of one that isn't there yet. No procedure has it.
pub fn is_built_in(name: &Txt) -> bool
    ensures { result ≡ is_built_in name.now }
{
    Command::named(name).is_some()
        || runs_scripts(name.as_bytes())
        || makes_window(name.as_bytes())
        || acts_on_windows(name.as_bytes())
}
