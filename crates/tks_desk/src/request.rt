//! What a line asks for.
ghost use Rattle.std.specs.Prelude.{ℕ, List, ◌≡◌, ◌<◌, ◌≤◌, IfOk, IfSome, IfErr, OnSome, length};
ghost use Rattle.tks_input.specs.declared.input.Input.TheVariants.{KeyPress, KeyRelease, Press, Release};
ghost use Rattle.tks_text.specs.Text.{IsText};
ghost use Rattle.tks_desk.specs.Reading.{max_line, InReading, IsLine, Pays, unread};
ghost use Rattle.tks_desk.specs.Requests.{asked_of, asked_of_text, button_asks, clock_asks, drain_asks, key_asks, loads, rules_asks, script_in, word_asks, words_ask, LoadsSo, ReadsRequest};

use crate::ending::RunFault;
use crate::input::{Line, next_line};
use crate::loading::{Intake, pass_newline, read_bytes};
use crate::words::{Pointed, is_word, number_in, pointed_in, split_word};
use std::alloc::{AllocError, Global};
use std::io::BufRead;
use tks_session::Input;
use tks_text::{Txt, is_text};

/// What is asked for.
#[derive(Drop)]
pub enum Request {
    /// An input for the world.
    Post(Input),
    /// A button or a cell that no input can hold.
    Unfit,
    /// So many turns, or as many as find something to do.
    Drain(u64),
    /// What the screen shows.
    Screen,
    /// The errors that no script was there to see.
    Faults,
    /// To put what was accepted on the disk.
    Commit,
    /// To begin the other side of the disk with the world.
    Checkpoint,
    /// The end.
    Quit,
    /// Nothing that is known.
    Bad,
}

/// What a line asks for.
#[derive(Drop)]
pub enum Asked {
    /// This, by itself.
    Alone(Request),
    /// To run the script in so many bytes behind it: at most 1,048,576.
    Load(u32),
}

/// The most bytes that a script has which is loaded.
const MAX_LOAD: u64 = 1_048_576;

/// The greatest number of rules that an input can hold.
const MAX_RULES: u64 = 255;

/// The most turns that are drained.
const MAX_TURNS: u64 = 10_000;

/// Reads the next request, or `None` at the end of the input. The fault is `Read` where the reader fails or no
/// more may be read, and `Memory` where a line or a script can't be held.
pub fn next_request<R: BufRead>(
    alloc: Global,
    reader: &mut R,
    intake: &mut Intake,
) -> Result<Option<Request>, RunFault>
    ensures request { IfOk result (λ request. IfSome (unread intake.old.skips_newline (R.remaining reader.old)) (λ bytes. ReadsRequest bytes request (unread intake.new.skips_newline (R.remaining reader.new)))) }
    ensures spends { IfOk result (λ request. OnSome request (intake.new.left < intake.old.left)) }
    ensures pays { Pays (R.remaining reader.old) (R.remaining reader.new) intake.old.left intake.new.left }
    ensures fault { IfErr result (λ e. InReading e) }
{
    pass_newline(reader, intake)?;
    let Some(line) = next_line(alloc, reader, &mut intake.left)? else {
        return Ok(None);
    };
    match line_asks(alloc, &line)? {
        Asked::Alone(request) => Ok(Some(request)),
        Asked::Load(length) => {
            let request = load(alloc, reader, length, intake)?;
            Ok(Some(request))
        }
    }
}

// Reads a script of so many bytes. A newline behind it goes with it.
fn load<R: BufRead>(
    alloc: Global,
    reader: &mut R,
    length: u32,
    intake: &mut Intake,
) -> Result<Request, RunFault>
    ensures request { IfOk result (λ request. IfSome (R.remaining reader.old) (λ bytes. LoadsSo length bytes request (unread intake.new.skips_newline (R.remaining reader.new)))) }
    ensures pays { Pays (R.remaining reader.old) (R.remaining reader.new) intake.old.left intake.new.left }
    ensures fault { IfErr result (λ e. InReading e) }
{
    let held = read_bytes(alloc, reader, length as usize, &mut intake.left)?;
    intake.skips_newline = true;
    match held {
        None => Ok(Request::Bad),
        Some(bytes) => {
            let request = script_in(alloc, bytes.as_slice())?;
            Ok(request)
        }
    }
}

// The script in these bytes.
fn script_in(alloc: Global, bytes: &[u8]) -> Result<Request, RunFault>
    ensures request { IfOk result (λ request. request ≡ script_in bytes.now) }
    ensures fault { IfErr result (λ e. e ≡ RunFault.Memory) }
{
    if !is_text(bytes) {
        return Ok(Request::Bad);
    }
    let script = Txt::from_text(alloc, bytes)?;
    Ok(Request::Post(Input::Script(script)))
}

// What a line asks for.
fn line_asks(alloc: Global, line: &Line) -> Result<Asked, RunFault>
    ensures asked { (bytes : List ℕ) → IsLine line.now bytes → IfOk result (λ asked. asked ≡ asked_of bytes) }
    ensures fault { IfErr result (λ e. e ≡ RunFault.Memory) }
{
    match line {
        Line::Overlong => Ok(Asked::Alone(Request::Bad)),
        Line::Held(bytes) => {
            let asked = held_line_asks(alloc, bytes.as_slice())?;
            Ok(asked)
        }
    }
}

// What a line asks for that is held.
#[tactic(auto, using(crate::proofs::Asked::asks))]
fn held_line_asks(alloc: Global, line: &[u8]) -> Result<Asked, AllocError>
    ensures { length line.now ≤ max_line → IfOk result (λ asked. asked ≡ asked_of line.now) }
{
    if !is_text(line) {
        return Ok(Asked::Alone(Request::Bad));
    }
    let asked = text_asks(alloc, line)?;
    Ok(asked)
}

// What a text asks for.
#[tactic(auto, using(tks_text::proofs::Texts::text_drop))]
fn text_asks(alloc: Global, line: &[u8]) -> Result<Asked, AllocError>
    requires { IsText line.now }
    ensures { IfOk result (λ asked. asked ≡ asked_of_text line.now) }
{
    match split_word(line) {
        Some((name, rest)) => words_ask(alloc, name, rest),
        None => Ok(word_asks(alloc, line)),
    }
}

// What a line asks for that is one word.
fn word_asks(alloc: Global, line: &[u8]) -> Asked
    ensures { result ≡ word_asks line.now }
{
    if line == b"quit".as_slice() {
        Asked::Alone(Request::Quit)
    } else if line == b"screen".as_slice() {
        Asked::Alone(Request::Screen)
    } else if line == b"faults".as_slice() {
        Asked::Alone(Request::Faults)
    } else if line == b"commit".as_slice() {
        Asked::Alone(Request::Commit)
    } else if line == b"checkpoint".as_slice() {
        Asked::Alone(Request::Checkpoint)
    } else if line == b"turn".as_slice() {
        Asked::Alone(Request::Post(Input::Turn))
    } else if line == b"cmd".as_slice() {
        Asked::Alone(Request::Post(Input::Script(Txt::new(alloc))))
    } else {
        Asked::Alone(Request::Bad)
    }
}

// What a line asks for by its first word and what stands behind the space.
fn words_ask(alloc: Global, name: &[u8], rest: &[u8]) -> Result<Asked, AllocError>
    requires { IsText rest.now }
    ensures { IfOk result (λ asked. asked ≡ words_ask name.now rest.now) }
{
    if name == b"cmd".as_slice() {
        let script = Txt::from_text(alloc, rest)?;
        Ok(Asked::Alone(Request::Post(Input::Script(script))))
    } else if name == b"load".as_slice() {
        Ok(loads(number_in(rest)))
    } else if name == b"key".as_slice() {
        key_asks(alloc, rest)
    } else if name == b"keyup".as_slice() {
        keyup_asks(alloc, rest)
    } else if name == b"press".as_slice() {
        Ok(press_asks(pointed_in(rest)))
    } else if name == b"release".as_slice() {
        Ok(release_asks(pointed_in(rest)))
    } else if name == b"clock".as_slice() {
        Ok(clock_asks(number_in(rest)))
    } else if name == b"rules".as_slice() {
        Ok(rules_asks(number_in(rest)))
    } else if name == b"drain".as_slice() {
        Ok(drain_asks(number_in(rest)))
    } else {
        Ok(Asked::Alone(Request::Bad))
    }
}

// What a `load` of so many bytes asks for.
fn loads(length: Option<u64>) -> Asked
    ensures { result ≡ loads length }
{
    match length {
        Some(length) if length <= MAX_LOAD => Asked::Load(length as u32),
        _ => Asked::Alone(Request::Bad),
    }
}

// What the press of a key asks for.
fn key_asks(alloc: Global, name: &[u8]) -> Result<Asked, AllocError>
    requires { IsText name.now }
    ensures { IfOk result (λ asked. asked ≡ key_asks (λ key. KeyPress key) name.now) }
{
    if !is_word(name) {
        return Ok(Asked::Alone(Request::Bad));
    }
    let key = Txt::from_text(alloc, name)?;
    Ok(Asked::Alone(Request::Post(Input::KeyPress(key))))
}

// What the release of a key asks for.
fn keyup_asks(alloc: Global, name: &[u8]) -> Result<Asked, AllocError>
    requires { IsText name.now }
    ensures { IfOk result (λ asked. asked ≡ key_asks (λ key. KeyRelease key) name.now) }
{
    if !is_word(name) {
        return Ok(Asked::Alone(Request::Bad));
    }
    let key = Txt::from_text(alloc, name)?;
    Ok(Asked::Alone(Request::Post(Input::KeyRelease(key))))
}

// What the press of a button asks for.
fn press_asks(pointed: Pointed) -> Asked
    ensures { result ≡ button_asks (λ button x y. Press button x y) pointed }
{
    match pointed {
        Pointed::Unread => Asked::Alone(Request::Bad),
        Pointed::Beyond => Asked::Alone(Request::Unfit),
        Pointed::At(button, x, y) => Asked::Alone(Request::Post(Input::Press { button, x, y })),
    }
}

// What the release of a button asks for.
fn release_asks(pointed: Pointed) -> Asked
    ensures { result ≡ button_asks (λ button x y. Release button x y) pointed }
{
    match pointed {
        Pointed::Unread => Asked::Alone(Request::Bad),
        Pointed::Beyond => Asked::Alone(Request::Unfit),
        Pointed::At(button, x, y) => Asked::Alone(Request::Post(Input::Release { button, x, y })),
    }
}

// What a time asks for.
fn clock_asks(time: Option<u64>) -> Asked
    ensures { result ≡ clock_asks time }
{
    match time {
        Some(time) => Asked::Alone(Request::Post(Input::Clock(time))),
        None => Asked::Alone(Request::Bad),
    }
}

// What rules of a number ask for.
fn rules_asks(number: Option<u64>) -> Asked
    ensures { result ≡ rules_asks number }
{
    match number {
        Some(number) if number <= MAX_RULES => {
            Asked::Alone(Request::Post(Input::Rules(number as u8)))
        }
        _ => Asked::Alone(Request::Bad),
    }
}

// What a `drain` of so many turns asks for.
fn drain_asks(turns: Option<u64>) -> Asked
    ensures { result ≡ drain_asks turns }
{
    match turns {
        Some(turns) if turns <= MAX_TURNS => Asked::Alone(Request::Drain(turns)),
        _ => Asked::Alone(Request::Bad),
    }
}
