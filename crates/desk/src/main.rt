//! The program: it serves the standard streams, over the session in the store that its words name.
#![tactic(auto)]

ghost use Rattle.std.specs.Prelude.{◌≡◌, ℕ, List, IfOk};
ghost use Rattle.tks_app.specs.declared.answer.AppAnswer.{AppAnswer};
ghost use Rattle.tks_desk.specs.Own.{next_of, swap_of};

use std::alloc::{AllocError, Global};
use std::fs::{Files, OpenOptions};
use std::io;
use std::io::{BufRead, BufReader, BufWriter, ErrorKind, Write};
use std::process::ExitCode;
use tks_app::{AppAnswer, AppBody, AppClosure};
use tks_desk::{
    CommandLine, RunEnd, RunFault, command_line, next_number, own_apps, put_fault, run, status_of,
    swap_word,
};
use tks_disk::{Disk, FileDisk, FileDiskFault};
use tks_session::{Session, SessionFault};
use tks_text::{Limits, Size, Txt};

/// The status where reading or writing a standard stream failed.
const BAD_STREAM: u8 = 3;

/// The status for want of memory.
const NO_MEMORY: u8 = 5;

fn main(rt: HostRuntime) -> ExitCode {
    let alloc = rt.alloc();
    let words = match command_line(&rt, alloc) {
        Ok(words) => words,
        Err(status) => return status,
    };
    let next = Box::new(
        alloc,
        move |memory: &Txt, words: &[Txt]| -> Result<AppAnswer, AllocError>
            ensures { IfOk result (λ a. a ≡ next_of memory.now words.now) }
        { next_number(alloc, memory, words) },
    );
    let swap = Box::new(
        alloc,
        move |memory: &Txt, words: &[Txt]| -> Result<AppAnswer, AllocError>
            ensures { IfOk result (λ a. a ≡ swap_of memory.now words.now) }
        { swap_word(alloc, memory, words) },
    );
    match (next, swap) {
        (Ok(next), Ok(swap)) => {
            let next: AppClosure = next;
            let swap: AppClosure = swap;
            serve(rt, &words, next, swap)
        }
        _ => without_memory(&rt),
    }
}

// Tells that memory is wanting, and answers the status for it.
fn without_memory<R: Print>(rt: &R) -> ExitCode {
    let _ = rt.print("fault memory\n");
    ExitCode::from(NO_MEMORY)
}

// Three files of nothing. Where standard streams were closed they have their places, so that no file of the store takes one.
fn held_streams<R: Files>(rt: &R) -> io::Result<[R::File; 3]> {
    Ok([nothing(rt)?, nothing(rt)?, nothing(rt)?])
}

// A file of nothing.
fn nothing<R: Files>(rt: &R) -> io::Result<R::File> {
    OpenOptions::new()
        .read(true)
        .write(true)
        .open(rt, "/dev/null")
}

// Serves the standard streams, none of which a file of the store has taken, over the session in this store, with commands of these
// closures.
fn serve<B: AppBody>(rt: HostRuntime, words: &CommandLine, next: B, swap: B) -> ExitCode
    requires next { B.callable next × ((memory : List ℕ) (words : List (List ℕ)) (a : AppAnswer) → B.may_answer next memory words a → a ≡ next_of memory words) }
    requires swap { B.callable swap × ((memory : List ℕ) (words : List (List ℕ)) (a : AppAnswer) → B.may_answer swap memory words a → a ≡ swap_of memory words) }
{
    match held_streams(&rt) {
        Err(error) if error.kind() == ErrorKind::OutOfMemory => without_memory(&rt),
        _held => serve_streams(rt, words, next, swap),
    }
}

// The same, where no file of the store can take a stream's place.
fn serve_streams<B: AppBody>(rt: HostRuntime, words: &CommandLine, next: B, swap: B) -> ExitCode
    requires next { B.callable next × ((memory : List ℕ) (words : List (List ℕ)) (a : AppAnswer) → B.may_answer next memory words a → a ≡ next_of memory words) }
    requires swap { B.callable swap × ((memory : List ℕ) (words : List (List ℕ)) (a : AppAnswer) → B.may_answer swap memory words a → a ≡ swap_of memory words) }
{
    let alloc = rt.alloc();
    let Ok(mut reader) = BufReader::new(alloc, rt.stdin()) else {
        return without_memory(&rt);
    };
    let Ok(mut writer) = BufWriter::new(alloc, rt.stdout()) else {
        return without_memory(&rt);
    };
    match FileDisk::open(&rt, alloc, words.store.as_str()) {
        Ok(disk) => {
            let (status, disk) = serve_on(
                alloc,
                &mut reader,
                &mut writer,
                disk,
                words.grid,
                next,
                swap,
            );
            if let Some(error) = disk.refusal() {
                tell_refusal(&rt, words.store.as_str(), error);
            }
            status
        }
        Err(FileDiskFault::NoMemory) => ended_by(&mut writer, &SessionFault::NoMemory),
        Err(FileDiskFault::Device(error)) => {
            tell_refusal(&rt, words.store.as_str(), error);
            ended_by(&mut writer, &SessionFault::Disk)
        }
    }
}

// Tells on standard error with what the system refused a call on the store's files.
fn tell_refusal<R: Eprint>(rt: &R, store: &str, error: io::Error) {
    let _ = rt.eprint("desk: the store ");
    let _ = rt.eprint(store);
    let _ = rt.eprint(": ");
    let _ = rt.eprintln(error);
}

// Serves a reader and a writer, over the session on this disk, within the limits of format 2. The disk comes back.
fn serve_on<R: BufRead, W: Write, D: Disk + Drop, B: AppBody>(
    alloc: Global,
    reader: &mut R,
    writer: &mut W,
    disk: D,
    grid: Size,
    next: B,
    swap: B,
) -> (ExitCode, D)
    requires next { B.callable next × ((memory : List ℕ) (words : List (List ℕ)) (a : AppAnswer) → B.may_answer next memory words a → a ≡ next_of memory words) }
    requires swap { B.callable swap × ((memory : List ℕ) (words : List (List ℕ)) (a : AppAnswer) → B.may_answer swap memory words a → a ≡ swap_of memory words) }
{
    let Ok(apps) = own_apps(alloc, next, swap) else {
        return (ended_by(writer, &SessionFault::NoMemory), disk);
    };
    match Session::open(alloc, disk, apps, grid, Limits::format2()) {
        Ok(mut session) => {
            let end = run(alloc, reader, writer, &mut session);
            let (disk, _apps) = session.close();
            (status_behind(writer, &end), disk)
        }
        Err(refused) => (ended_by(writer, &refused.fault), refused.disk),
    }
}

// The status behind a run; a fault of the session's own is written as the last line.
fn status_behind<W: Write>(writer: &mut W, end: &Result<RunEnd, RunFault>) -> ExitCode {
    match end {
        Ok(_) => ExitCode::SUCCESS,
        Err(RunFault::Read | RunFault::Write) => ExitCode::from(BAD_STREAM),
        Err(RunFault::Memory) => ended_by(writer, &SessionFault::NoMemory),
        Err(RunFault::Session(fault)) => ended_by(writer, fault),
    }
}

// Writes a fault as the last line, and answers its status.
fn ended_by<W: Write>(writer: &mut W, fault: &SessionFault) -> ExitCode {
    let _ = put_fault(writer, fault);
    ExitCode::from(status_of(fault))
}
