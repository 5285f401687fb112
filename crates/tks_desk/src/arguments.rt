//! The words that the program is started with.

use clap::builder::ValueParser;
use clap::error::ErrorKind;
use clap::{Arg, ArgMatches, Command, Error, value_parser};
use std::alloc::{AllocError, Global};
use std::env::args;
use std::io;
use std::process::ExitCode;
use std::rt::Env;
use tks_text::Size;

/// The status for a command line that is refused.
const BAD_USE: u8 = 2;

/// The status for want of memory.
const NO_MEMORY: u8 = 5;

/// What `--version` tells.
const VERSION: &str = "0.1.0";

/// What `--help` ends with.
const LINES: &str = "
Lines that it reads, and answers one by one:
  cmd SCRIPT     runs a script: what stands behind one space
  load N         runs a script with newlines: the next N bytes
  key NAME       a key goes down; its event waits for a turn
  keyup NAME     a key goes up
  press B X Y    button B goes down in the cell of column X, row Y
  release B X Y  button B goes up there
  clock MS       sets the clock, in milliseconds
  rules N        says by which rules scripts run: 1, as from the start
  turn           runs one thing that waits
  drain N        runs N turns, or fewer where nothing more waits
  screen         shows the rows of the grid, each between bars
  faults         shows the errors of scripts that ran by themselves
  commit         puts what was accepted on the disk
  checkpoint     puts the whole state there, so that opening runs nothing before it again
  quit           ends the session, without a commit

For example the lines
  cmd label .title -text \"Order 7\"; pack .title
  cmd foo
  commit
are answered
  ok 1
  error 2 E09 foo
  committed 2
";

/// What the command line asks for.
#[derive(Drop)]
pub struct CommandLine {
    /// The path of the store, without the endings of its two files.
    pub store: String,
    /// The size of the grid.
    pub grid: Size,
}

/// What the command line asks for. Where it asks for help, or for what there is not, that is told, and the answer is
/// the status to end with.
pub fn command_line<R: Env + AllocGlobal + Print + Eprint>(
    rt: &R,
    alloc: Global,
) -> Result<CommandLine, ExitCode> {
    let words = match args(rt) {
        Ok(words) => words,
        Err(error) if error.kind() == io::ErrorKind::OutOfMemory => {
            return Err(ExitCode::from(NO_MEMORY));
        }
        Err(_) => {
            let _ = rt.eprintln("desk: a word of the command line is no text");
            return Err(ExitCode::from(BAD_USE));
        }
    };
    let Ok(words) = words.collect::<Vec<String>>(alloc) else {
        return Err(ExitCode::from(NO_MEMORY));
    };
    let Ok(command) = desk_command(alloc) else {
        return Err(ExitCode::from(NO_MEMORY));
    };
    match command.try_get_matches_from(words.as_slice()) {
        Ok(matches) => asked(alloc, &matches),
        Err(error) => Err(told(rt, error)),
    }
}

// What these words of the command line ask for.
fn asked(alloc: Global, matches: &ArgMatches<'_>) -> Result<CommandLine, ExitCode> {
    let width = matches.get_one::<u16>("width").unwrap_or(0);
    let height = matches.get_one::<u16>("height").unwrap_or(0);
    let Some(grid) = Size::new(width, height) else {
        return Err(ExitCode::from(BAD_USE));
    };
    let Some(path) = matches.get_str("store") else {
        return Err(ExitCode::from(BAD_USE));
    };
    let mut store = String::new(alloc);
    match store.push_str(path) {
        Ok(()) => Ok(CommandLine { store, grid }),
        Err(_) => Err(ExitCode::from(NO_MEMORY)),
    }
}

// The command line of the program.
fn desk_command<'a>(alloc: Global) -> Result<Command<'a>, AllocError> {
    let width = Arg::new(alloc, "width")
        .long("width")
        .value_name("W")
        .help("How many cells a row of the grid has: 1 to 200")
        .value_parser(value_parser!(u16).range(1..=200))
        .default_value("40");
    let height = Arg::new(alloc, "height")
        .long("height")
        .value_name("H")
        .help("How many rows the grid has: 1 to 100")
        .value_parser(value_parser!(u16).range(1..=100))
        .default_value("12");
    let store = Arg::new(alloc, "store")
        .long("store")
        .value_name("PATH")
        .help("Where the state is kept: in the files PATH.a and PATH.b")
        .value_parser(ValueParser::NonEmptyString)
        .required(true);
    Command::new(alloc, "desk")
        .version(VERSION)
        .about("A headless Tk session that keeps its state: reads lines and answers them")
        .arg(store)?
        .arg(width)?
        .arg(height)
}

// Tells why there is no size, and gives the status for it.
fn told<R: Print + Eprint>(rt: &R, error: Error) -> ExitCode {
    let status = match error.kind() {
        ErrorKind::OutOfMemory => NO_MEMORY,
        _ if error.use_stderr() => BAD_USE,
        _ => 0,
    };
    let _ = error.print(rt);
    if error.kind() == ErrorKind::DisplayHelp {
        let _ = rt.print(LINES);
    }
    ExitCode::from(status)
}
