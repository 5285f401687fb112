//! Runs each session of its input from fresh, and writes what it comes to.
//!
//! A session is a line `== WIDTH HEIGHT TITLE`, with the size of its grid, and then its own lines, up to the next such line. The
//! line with the size is repeated, and the answers follow it. Behind a line `== world WIDTH HEIGHT TITLE` nothing of the answers
//! is written, but the bytes of the world that the lines leave, in hex, and whether they are sound: they are read back, no cut of
//! them is a world, and with a byte changed they are another world or none. (`tools/rows/worlds.py` makes the bytes that are
//! wanted from the table of docs/FORMAT.md.) What stands before the first session is passed over.
//!
//! Behind a line `== again WIDTH HEIGHT TITLE` a line `--` parts the lines of a session from those of the next, which is opened on
//! what a crash leaves of the first one's disk, in whose answers it stands too.
//!
//! Behind a line `== crash WIDTH HEIGHT TITLE` stand three runs of lines with a line `--` between them. The first is answered. The
//! second is stopped after each number of calls of the disk, up to the one with which it comes to its end; each time a word is
//! written, `stopped` or `told`, and then what the third is answered behind six crashes: what wasn't synced is as it was, as it was
//! written, or the byte 0, 1, 7 or 255. What is the same for several numbers in turn is written once.
//!
//! Behind a line `== stored WIDTH HEIGHT TITLE` stand the bytes of a store's two sides, in hex, and then runs of lines, with a line
//! `--` between each two of these. The first run is answered by a session that is opened on the store, each other one by a session
//! on what the one before it left, within the limits of format 2. Behind each it is written what became of either side: `same`; or
//! `more`, and the bytes that stand now from the last gate on, where those before it are the same; or else `front`, and its gate,
//! its format and its generation.
//!
//! With the words `damage COUNT SEED` it draws so many damaged spellings of each world instead of changing its bytes in turn, and
//! writes how many are worlds still, where each of them is sound: `tools/damaged_worlds` runs it so.
#![tactic(auto)]

mod crashes;
mod damage;
mod setup;
mod sound;
mod stores;
mod worlds;

ghost use Rattle.std.specs.Prelude.{◌≡◌, ℕ, List, IfOk};
ghost use Rattle.tks_app.specs.declared.answer.AppAnswer.{AppAnswer};
ghost use Rattle.tks_desk.specs.Own.{next_of, swap_of};

use crashes::{put_again, put_stops};
use setup::{Setup, answered, put_answers};
use std::alloc::{AllocError, Global};
use std::env;
use std::io::{Read, Write};
use std::process::ExitCode;
use stores::put_stored;
use tks_app::{AppAnswer, AppBody, AppClosure};
use tks_desk::{Own, next_number, own_apps, swap_word};
use tks_disk::{Disk, MemoryDisk};
use tks_session::Session;
use tks_text::{Limits, Size, Txt};
use worlds::{Task, put_world};

/// What begins a session, behind a newline.
const HEADING: &str = "\n== ";

/// How many inputs may wait for a commit: more than any session has.
const PENDING: u32 = 10_000;

/// What is written of a session.
#[derive(Clone, Copy)]
enum Wanted {
    Answers,
    World,
    Again,
    Crashes,
    Stored,
}

fn main(rt: HostRuntime) -> ExitCode {
    let alloc = rt.alloc();
    let mut read = Vec::new(alloc);
    if rt.stdin().read_to_end(&mut read).is_err() {
        return ExitCode::FAILURE;
    }
    let Ok(sessions) = String::from_utf8(read) else {
        return ExitCode::FAILURE;
    };
    let task = task_of(&rt);
    let mut written = Vec::new(alloc);
    for session in sessions.as_str().split(HEADING).skip(1) {
        let next = Box::new(
            alloc,
            move |memory: &Txt, words: &[Txt]| -> Result<AppAnswer, AllocError>
                ensures { IfOk result (λ a. a ≡ next_of memory.now words.now) }
            { next_number(alloc, memory, words) },
        );
        let swap = Box::new(
            alloc,
            move |memory: &Txt, words: &[Txt]| -> Result<AppAnswer, AllocError>
                ensures { IfOk result (λ a. a ≡ swap_of memory.now words.now) }
            { swap_word(alloc, memory, words) },
        );
        let is_put = match (next, swap) {
            (Ok(next), Ok(swap)) => {
                let next: AppClosure = next;
                let swap: AppClosure = swap;
                put_session(alloc, session, next, swap, &task, &mut written).is_some()
            }
            _ => false,
        };
        if !is_put {
            return ExitCode::FAILURE;
        }
    }
    match rt.stdout().write_all(written.as_slice()) {
        Ok(()) => ExitCode::SUCCESS,
        Err(_) => ExitCode::FAILURE,
    }
}

// The task that the words name, if they do.
fn task_of(rt: &HostRuntime) -> Option<Task> {
    let mut words = env::args(rt).ok()?.skip(1);
    if words.next()?.as_str() != "damage" {
        return None;
    }
    let count = words.next()?.parse::<u64>().ok()?;
    let seed = words.next()?.parse::<u64>().ok()?;
    Some(Task { count, seed })
}

// Adds the heading of a session, and what it comes to on an empty disk, with commands of these closures.
fn put_session<B: AppBody>(
    alloc: Global,
    session: &str,
    next: B,
    swap: B,
    task: &Option<Task>,
    written: &mut Vec<u8>,
) -> Option<()>
    requires next { B.callable next × ((memory : List ℕ) (words : List (List ℕ)) (a : AppAnswer) → B.may_answer next memory words a → a ≡ next_of memory words) }
    requires swap { B.callable swap × ((memory : List ℕ) (words : List (List ℕ)) (a : AppAnswer) → B.may_answer swap memory words a → a ≡ swap_of memory words) }
{
    let (heading, lines) = session.split_once('\n').unwrap_or((session, ""));
    put_heading(heading, written)?;
    let (wanted, rest) = wanted_by(heading);
    let setup = Setup {
        grid: grid_of(rest)?,
        apps: own_apps(alloc, next, swap).ok()?,
        limits: limits_of(wanted),
    };
    match wanted {
        Wanted::Answers => put_told(alloc, MemoryDisk::new(alloc), setup, lines, written),
        Wanted::World => put_left(alloc, MemoryDisk::new(alloc), setup, lines, task, written),
        Wanted::Again => put_again(alloc, setup, lines, written),
        Wanted::Crashes => put_stops(alloc, setup, lines, written),
        Wanted::Stored => put_stored(alloc, setup, lines, written),
    }
}

// The limits of a session.
fn limits_of(wanted: Wanted) -> Limits {
    match wanted {
        Wanted::Stored => Limits::format2(),
        _ => Limits {
            pending: PENDING,
            ..Limits::format1()
        },
    }
}

// What a heading asks for, and what stands behind the word for it.
fn wanted_by(heading: &str) -> (Wanted, &str) {
    if let Some(rest) = heading.strip_prefix("world ") {
        (Wanted::World, rest)
    } else if let Some(rest) = heading.strip_prefix("again ") {
        (Wanted::Again, rest)
    } else if let Some(rest) = heading.strip_prefix("crash ") {
        (Wanted::Crashes, rest)
    } else if let Some(rest) = heading.strip_prefix("stored ") {
        (Wanted::Stored, rest)
    } else {
        (Wanted::Answers, heading)
    }
}

// Adds the line that a session begins with.
fn put_heading(heading: &str, written: &mut Vec<u8>) -> Option<()> {
    written.extend_from_slice(b"== ").ok()?;
    written.extend_from_slice(heading.as_bytes()).ok()?;
    written.push(b'\n').ok()
}

// The size of the grid at the front of a heading.
fn grid_of(heading: &str) -> Option<Size> {
    let mut words = heading.split(' ');
    let width = words.next()?.parse::<u16>().ok()?;
    let height = words.next()?.parse::<u16>().ok()?;
    Size::new(width, height)
}

// Adds what a session answers to lines, where it comes to their end.
fn put_told<D: Disk + Drop, B: AppBody>(
    alloc: Global,
    disk: D,
    setup: Setup<B>,
    lines: &str,
    written: &mut Vec<u8>,
) -> Option<()> {
    let (is_told, _, _) = answered(alloc, disk, setup, lines, written);
    is_told.then_some(())
}

// Adds the bytes of the world that lines leave, and what is told of them.
fn put_left<D: Disk + Drop, B: AppBody>(
    alloc: Global,
    disk: D,
    setup: Setup<B>,
    lines: &str,
    task: &Option<Task>,
    written: &mut Vec<u8>,
) -> Option<()> {
    match setup.open(alloc, disk) {
        Ok(mut session) => put_world_left(alloc, &mut session, lines, task, written),
        Err(_) => None,
    }
}

// The same of a session that is open.
fn put_world_left<D: Disk, B: AppBody>(
    alloc: Global,
    session: &mut Session<D, Own, B>,
    lines: &str,
    task: &Option<Task>,
    written: &mut Vec<u8>,
) -> Option<()> {
    let mut answers = Vec::new(alloc);
    if put_answers(alloc, session, lines, &mut answers) {
        put_world(alloc, session.world(), task, written)
    } else {
        None
    }
}
