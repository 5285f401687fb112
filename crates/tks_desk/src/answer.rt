//! The answers to lines, as text.
ghost use Rattle.std.specs.Prelude.{◌≡◌, codes, decimal};
ghost use Rattle.tks_desk.specs.Writing.{WritesSo};
ghost use Rattle.tks_desk.specs.Answers.{after_space, count_line, drain_ended, fault_told, faults_lines, faults_told, refusal_line, refusal_name, reply_line, row_line, rows_lines, turn_refused, verdict};
ghost use Rattle.tks_desk.specs.Draining.{WritesOn};

use crate::ending::RunFault;
use crate::output::{put, put_escaped, put_last};
use itoa::Buffer;
use std::io::Write;
use tks_screen::Grid;
use tks_session::{Refused, Reply};
use tks_share::{Items, SharedList};
use tks_text::{Seq, Txt};

#[tactic(auto, using(crate::proofs::Writes::flattened_writes))]
/// Writes the line of a reply: `ok` or `error`, the number, and the text where it isn't empty.
pub fn put_reply<W: Write>(writer: &mut W, reply: &Reply) -> Result<(), RunFault>
    ensures { WritesSo result (W.contents writer.old) (W.contents writer.new) (reply_line reply.now) }
{
    let verdict = if reply.code == 0 { "ok " } else { "error " };
    put(writer, verdict.as_bytes())?;
    put_number(writer, reply.number)?;
    put_after_space(writer, reply.text.as_bytes())?;
    put_last(writer, b"\n")
}

#[tactic(auto, using(crate::proofs::Writes::flattened_writes))]
// Writes a space and the text, or nothing where that is empty.
fn put_after_space<W: Write>(writer: &mut W, text: &[u8]) -> Result<(), RunFault>
    ensures { WritesSo result (W.contents writer.old) (W.contents writer.new) (after_space text.now) }
{
    if text.is_empty() {
        return Ok(());
    }
    put(writer, b" ")?;
    put_escaped(writer, text)
}

#[tactic(auto, using(crate::proofs::Writes::flattened_writes))]
/// Writes a line that ends in a number, behind this front of it.
pub fn put_count<W: Write>(writer: &mut W, front: &[u8], count: u64) -> Result<(), RunFault>
    ensures { WritesSo result (W.contents writer.old) (W.contents writer.new) (count_line front.now count) }
{
    put(writer, front)?;
    put_number(writer, count)?;
    put_last(writer, b"\n")
}

/// Writes more of what answers turns, unless writing failed before: the line of a reply.
pub fn tell_reply<W: Write>(writer: &mut W, writing: &mut Result<(), RunFault>, reply: &Reply)
    ensures { WritesOn writing.old writing.new (W.contents writer.old) (W.contents writer.new) (reply_line reply.now) }
{
    match *writing {
        Ok(()) => *writing = put_reply(writer, reply),
        Err(_) => {}
    }
}

/// Writes the end of what answers turns, unless writing failed before: the refusal that ended them, if it says that something
/// was to be done, and how many were run.
pub fn end_drain<W: Write>(
    writer: &mut W,
    writing: Result<(), RunFault>,
    why: Option<Refused>,
    done: u64,
) -> Result<(), RunFault>
    ensures { WritesOn writing result (W.contents writer.old) (W.contents writer.new) (drain_ended why done) }
{
    match writing {
        Ok(()) => put_drain_ended(writer, why, done),
        Err(fault) => Err(fault),
    }
}

// Writes the same.
#[tactic(auto, using(crate::proofs::Writes::writes))]
fn put_drain_ended<W: Write>(
    writer: &mut W,
    why: Option<Refused>,
    done: u64,
) -> Result<(), RunFault>
    ensures { WritesSo result (W.contents writer.old) (W.contents writer.new) (drain_ended why done) }
{
    let Some(why) = why else {
        return put_count(writer, b"drained ", done);
    };
    put_turn_refused(writer, why)?;
    put_count(writer, b"drained ", done)
}

// Writes the line of a refusal that ended turns, where something was to be done.
fn put_turn_refused<W: Write>(writer: &mut W, why: Refused) -> Result<(), RunFault>
    ensures { WritesSo result (W.contents writer.old) (W.contents writer.new) (turn_refused why) }
{
    match why {
        Refused::Quiet => put(writer, b""),
        _ => put_refusal(writer, why),
    }
}

// Writes a number in decimal.
fn put_number<W: Write>(writer: &mut W, number: u64) -> Result<(), RunFault>
    ensures { WritesSo result (W.contents writer.old) (W.contents writer.new) (decimal number) }
{
    let mut digits = Buffer::new();
    put(writer, digits.format(number).as_bytes())
}

#[tactic(auto, using(crate::proofs::Writes::flattened_writes))]
/// Writes the line of a refusal.
pub fn put_refusal<W: Write>(writer: &mut W, why: Refused) -> Result<(), RunFault>
    ensures { WritesSo result (W.contents writer.old) (W.contents writer.new) (refusal_line why) }
{
    put(writer, name_of(why).as_bytes())?;
    put_last(writer, b"\n")
}

// What a refusal is called.
fn name_of(why: Refused) -> &'static str
    ensures { result.now ≡ refusal_name why }
{
    match why {
        Refused::BadInput => "refused bad",
        Refused::ClockBack => "refused clock",
        Refused::PendingFull => "refused pending",
        Refused::Budget => "refused budget",
        Refused::Depth => "refused depth",
        Refused::TooLarge => "refused large",
        Refused::NoMemory => "refused memory",
        Refused::Quiet => "quiet",
        Refused::Failed => "refused failed",
    }
}

/// Writes errors that no script was there to see, a line each, and the end of them.
#[tactic(auto, using(crate::proofs::Writes::flattened_writes))]
pub fn put_faults<W: Write>(writer: &mut W, faults: &SharedList<Txt>) -> Result<(), RunFault>
    ensures { WritesSo result (W.contents writer.old) (W.contents writer.new) (faults_lines faults.now) }
{
    put_told_faults(writer, faults.iter())?;
    put_last(writer, b"end\n")
}

// Writes errors that no script was there to see, a line each.
fn put_told_faults<W: Write>(writer: &mut W, faults: Items<'_, Txt>) -> Result<(), RunFault>
    ensures { WritesSo result (W.contents writer.old) (W.contents writer.new) (faults_told faults.entry) }
{
    for fault in faults {
        put_told_fault(writer, fault)?;
    }
    Ok(())
}

// Writes one of them.
#[tactic(auto, using(crate::proofs::Writes::flattened_writes))]
fn put_told_fault<W: Write>(writer: &mut W, fault: &Txt) -> Result<(), RunFault>
    ensures { WritesSo result (W.contents writer.old) (W.contents writer.new) (fault_told fault.now) }
{
    put(writer, b"fault ")?;
    put_escaped(writer, fault.as_bytes())?;
    put(writer, b"\n")
}

/// Writes the rows of the screen, each between bars.
pub fn put_screen<W: Write>(writer: &mut W, grid: &Grid) -> Result<(), RunFault>
    ensures { WritesSo result (W.contents writer.old) (W.contents writer.new) (rows_lines grid.now.rows) }
{
    put_rows(writer, grid.rows())?;
    put_last(writer, b"")
}

// Writes rows, each between bars.
fn put_rows<W: Write>(writer: &mut W, rows: &[Seq<u8>]) -> Result<(), RunFault>
    ensures { WritesSo result (W.contents writer.old) (W.contents writer.new) (rows_lines rows.now) }
{
    for row in rows {
        put_row(writer, row)?;
    }
    Ok(())
}

// Writes a row of the screen.
#[tactic(auto, using(crate::proofs::Writes::flattened_writes))]
fn put_row<W: Write>(writer: &mut W, row: &Seq<u8>) -> Result<(), RunFault>
    ensures { WritesSo result (W.contents writer.old) (W.contents writer.new) (row_line row.now) }
{
    put(writer, b"|")?;
    put(writer, row.as_slice())?;
    put(writer, b"|\n")
}
