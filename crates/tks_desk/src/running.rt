//! The run: lines are read and answered, up to the end.
ghost use Rattle.std.specs.Prelude.{◌≡◌, ◌<◌, ◌^◌, [], false, IfOk, IfSome};
ghost use Rattle.tks_screen.specs.Screen.{shown};
ghost use Rattle.tks_session.specs.Sessions.{setting_of};
ghost use Rattle.tks_desk.specs.declared.request.Request.TheVariants.{Checkpoint, Commit, Drain, Post, Screen};
ghost use Rattle.tks_desk.specs.Answers.{Answered, AnswersSo, CheckpointFaultSo, RefusalSo, Told, TurnsSo, end_by, reply_line, standing};
ghost use Rattle.tks_desk.specs.Draining.{WritesOn};
ghost use Rattle.tks_desk.specs.Reading.{ReadsAtMost, Pays, unread};
ghost use Rattle.tks_desk.specs.Running.{Rests, Runs};

use crate::answer::{
    end_drain, put_count, put_faults, put_refusal, put_reply, put_screen, tell_reply,
};
use crate::ending::{RunEnd, RunFault};
use crate::loading::Intake;
use crate::output::put_last;
use crate::request::{Request, next_request};
use std::alloc::{AllocError, Global};
use std::io::{BufRead, Write};
use tks_app::{AppBody, AppMeaning};
use tks_disk::Disk;
use tks_screen::{Grid, dump};
use tks_session::{Input, Refused, Reply, Session, SessionFault};
use tks_state::World;

/// The most bytes that a run reads.
const MAX_READ: u64 = 1 << 40;

/// Answers the lines of the reader, one by one, up to `quit` or the end of the input. It reads no
/// more than 2^40 bytes, and each answer is flushed. When it ends, all that was committed is on the disk, and what was accepted
/// since isn't.
pub fn run<D: Disk, T: AppMeaning, B: AppBody, R: BufRead, W: Write>(
    alloc: Global,
    reader: &mut R,
    writer: &mut W,
    session: &mut Session<D, T, B>,
) -> Result<RunEnd, RunFault>
    ensures runs { Runs T.meaning D.honest D.view D.failures result session.old session.new (λ accepted. IfSome (R.remaining reader.old)
        (λ input. Told (setting_of T.meaning session.old.machine) result input accepted (standing session.old) (standing session.new) (W.contents writer.old) (W.contents writer.new))) }
    ensures bound { ReadsAtMost (2 ^ 40) (R.remaining reader.old) (R.remaining reader.new) }

    // A crash behind it leaves the world of all that was committed.
    ensures exit { session.new.journal.failed ≡ false → D.honest session.new.journal.disk → Rests (setting_of T.meaning session.new.machine) D.view session.new }
{
    let ended = answer_lines(alloc, reader, writer, session);
    session.stands();
    ended
}

// Answers the lines, up to the end.
fn answer_lines<D: Disk, T: AppMeaning, B: AppBody, R: BufRead, W: Write>(
    alloc: Global,
    reader: &mut R,
    writer: &mut W,
    session: &mut Session<D, T, B>,
) -> Result<RunEnd, RunFault>
    ensures runs { Runs T.meaning D.honest D.view D.failures result session.old session.new (λ accepted. IfSome (R.remaining reader.old)
        (λ input. Told (setting_of T.meaning session.old.machine) result input accepted (standing session.old) (standing session.new) (W.contents writer.old) (W.contents writer.new))) }
    ensures bound { ReadsAtMost (2 ^ 40) (R.remaining reader.old) (R.remaining reader.new) }
{
    session.stands();
    let mut intake = Intake {
        left: MAX_READ,
        skips_newline: false,
    };
    'lines: loop {
        if let Some(end) = answer_line(alloc, reader, writer, session, &mut intake)? {
            return Ok(end);
        }
    }
}

// Reads a line and answers it, or says how the run ends.
fn answer_line<D: Disk, T: AppMeaning, B: AppBody, R: BufRead, W: Write>(
    alloc: Global,
    reader: &mut R,
    writer: &mut W,
    session: &mut Session<D, T, B>,
    intake: &mut Intake,
) -> Result<Option<RunEnd>, RunFault>
    ensures turn { Runs T.meaning D.honest D.view D.failures result session.old session.new (λ accepted. IfSome (unread intake.old.skips_newline (R.remaining reader.old))
        (λ input. TurnsSo (setting_of T.meaning session.old.machine) result input (unread intake.new.skips_newline (R.remaining reader.new)) accepted (standing session.old) (standing session.new) (W.contents writer.old) (W.contents writer.new))) }
    ensures spends { result ≡ Ok None → intake.new.left < intake.old.left }
    ensures pays { Pays (R.remaining reader.old) (R.remaining reader.new) intake.old.left intake.new.left }
{
    session.stands();
    let Some(request) = next_request(alloc, reader, intake)? else {
        return Ok(Some(RunEnd::EndOfInput));
    };
    answer(alloc, writer, session, &request)?;
    Ok(end_by(&request))
}

// Whether a request ends the run.
fn end_by(request: &Request) -> Option<RunEnd>
    ensures { result ≡ end_by request.now }
{
    match request {
        Request::Quit => Some(RunEnd::Quit),
        _ => None,
    }
}

// Answers a request.
fn answer<D: Disk, T: AppMeaning, B: AppBody, W: Write>(
    alloc: Global,
    writer: &mut W,
    session: &mut Session<D, T, B>,
    request: &Request,
) -> Result<(), RunFault>
    ensures { Runs T.meaning D.honest D.view D.failures result session.old session.new
        (λ accepted. AnswersSo (setting_of T.meaning session.old.machine) result request.now accepted (standing session.old) (standing session.new) (W.contents writer.old) (W.contents writer.new)) }
{
    session.stands();
    match request {
        Request::Quit => put_last(writer, b"bye\n"),
        Request::Bad => put_last(writer, b"bad line\n"),
        Request::Unfit => put_refusal(writer, Refused::BadInput),
        Request::Screen => {
            session.prepare();
            answer_screen(alloc, writer, session)
        }
        Request::Faults => put_faults(writer, session.world().faults()),
        Request::Commit => answer_commit(writer, session),
        Request::Checkpoint => answer_checkpoint(writer, session),
        Request::Post(input) => answer_input(writer, session, input),
        Request::Drain(turns) => answer_drain(writer, session, *turns),
    }
}

// Writes what the screen shows, or that memory was refused.
fn answer_screen<D: Disk, T: AppMeaning, B: AppBody, W: Write>(
    alloc: Global,
    writer: &mut W,
    session: &Session<D, T, B>,
) -> Result<(), RunFault>
    ensures { Answered (setting_of T.meaning session.now.machine) result Screen [] (standing session.now) (standing session.now) (W.contents writer.old) (W.contents writer.new) }
{
    match picture(alloc, session.world()) {
        Ok(grid) => put_screen(writer, &grid),
        Err(_) => put_last(writer, b"fault memory\n"),
    }
}

// What the screen shows.
fn picture(alloc: Global, world: &World) -> Result<Grid, AllocError>
    ensures { IfOk result (λ grid. grid.rows ≡ shown world.now) }
{
    let mut grid = Grid::new(alloc, world.grid())?;
    dump(alloc, world, &mut grid)?;
    Ok(grid)
}

// Commits, and writes how many inputs are acknowledged.
fn answer_commit<D: Disk, T: AppMeaning, B: AppBody, W: Write>(
    writer: &mut W,
    session: &mut Session<D, T, B>,
) -> Result<(), RunFault>
    ensures { Runs T.meaning D.honest D.view D.failures result session.old session.new
        (λ accepted. AnswersSo (setting_of T.meaning session.old.machine) result Commit accepted (standing session.old) (standing session.new) (W.contents writer.old) (W.contents writer.new)) }
{
    session.stands();
    match session.commit() {
        Ok(count) => put_count(writer, b"committed ", count),
        Err(fault) => Err(RunFault::Session(fault)),
    }
}

// Makes a checkpoint, and writes how many inputs are acknowledged, or why none was made.
fn answer_checkpoint<D: Disk, T: AppMeaning, B: AppBody, W: Write>(
    writer: &mut W,
    session: &mut Session<D, T, B>,
) -> Result<(), RunFault>
    ensures { Runs T.meaning D.honest D.view D.failures result session.old session.new
        (λ accepted. AnswersSo (setting_of T.meaning session.old.machine) result Checkpoint accepted (standing session.old) (standing session.new) (W.contents writer.old) (W.contents writer.new)) }
{
    session.stands();
    match session.checkpoint() {
        Ok(count) => put_count(writer, b"checkpointed ", count),
        Err(fault) => answer_fault(writer, fault),
    }
}

// Writes why no checkpoint was made. That of a session that had failed, or failed now, ends the run.
fn answer_fault<W: Write>(writer: &mut W, fault: SessionFault) -> Result<(), RunFault>
    ensures { CheckpointFaultSo fault result (W.contents writer.old) (W.contents writer.new) }
{
    match fault {
        SessionFault::TooLarge => put_last(writer, b"fault large\n"),
        SessionFault::NoMemory => put_last(writer, b"fault memory\n"),
        _ => Err(RunFault::Session(fault)),
    }
}

// Gives an input to the session and writes its answer.
fn answer_input<D: Disk, T: AppMeaning, B: AppBody, W: Write>(
    writer: &mut W,
    session: &mut Session<D, T, B>,
    input: &Input,
) -> Result<(), RunFault>
    ensures { Runs T.meaning D.honest D.view D.failures result session.old session.new
        (λ accepted. AnswersSo (setting_of T.meaning session.old.machine) result (Post input.now) accepted (standing session.old) (standing session.new) (W.contents writer.old) (W.contents writer.new)) }
{
    session.stands();
    match session.post(input) {
        Ok(reply) => put_reply(writer, &reply),
        Err(why) => answer_refusal(writer, why),
    }
}

// Runs so many turns, up to one that is refused, and writes their answers. Where writing fails, nothing more is written, and
// the turns go on.
fn answer_drain<D: Disk, T: AppMeaning, B: AppBody, W: Write>(
    writer: &mut W,
    session: &mut Session<D, T, B>,
    turns: u64,
) -> Result<(), RunFault>
    ensures { Runs T.meaning D.honest D.view D.failures result session.old session.new
        (λ accepted. AnswersSo (setting_of T.meaning session.old.machine) result (Drain turns) accepted (standing session.old) (standing session.new) (W.contents writer.old) (W.contents writer.new)) }
{
    session.stands();
    if session.has_failed() {
        return Err(RunFault::Session(SessionFault::Failed));
    }
    let mut writing = Ok(());
    let drained = session.drain(
        turns,
        &mut |reply: &Reply|
            ensures { WritesOn writing.entry writing.exit (W.contents writer.entry.now) (W.contents writer.exit.now) (reply_line reply.now) }
        { tell_reply(writer, &mut writing, reply) },
    );
    end_drain(writer, writing, drained.ended, drained.turns)
}

// Writes the line of a refusal. That of a session that had failed ends the run.
fn answer_refusal<W: Write>(writer: &mut W, why: Refused) -> Result<(), RunFault>
    ensures { RefusalSo why result (W.contents writer.old) (W.contents writer.new) }
{
    match why {
        Refused::Failed => Err(RunFault::Session(SessionFault::Failed)),
        _ => put_refusal(writer, why),
    }
}
