//! Lines that are read.
ghost use Rattle.std.specs.Prelude.{◌≡◌, ◌≢◌, ◌==◌, ◌+◌, ◌<◌, ◌≤◌, ℕ, List, true, All, IfOk, IfSome, IfErr, OnOk, OnSome, length, slice_index, take};
ghost use Rattle.tks_desk.specs.Reading.{InReading, ReadsLine, IsLine, LineGrows, TakesPiece, piece_cost, Pays};

use crate::ending::RunFault;
use std::alloc::Global;
use std::io::{BufRead, ErrorKind};

const MAX_LINE: usize = 65_600;

/// A line that was read, without its newline.
#[derive(Drop)]
pub enum Line {
    /// Its bytes: at most 65,600.
    Held(Vec<u8>),
    /// A longer one, of which nothing is kept.
    Overlong,
}

impl Line {
    // Puts these bytes at the end of a line that is being read.
    fn grow(&mut self, bytes: &[u8]) -> Result<(), RunFault>
        ensures grows { OnOk result (LineGrows self.old self.new bytes.now) }
        ensures fault { IfErr result (λ e. e ≡ RunFault.Memory) }
    {
        match self {
            Line::Held(held) if held.len().saturating_add(bytes.len()) <= MAX_LINE => {
                held.extend_from_slice(bytes).map_err(|_| RunFault::Memory)
            }
            _ => {
                *self = Line::Overlong;
                Ok(())
            }
        }
    }

    fn is_empty(&self) -> bool
        ensures { (bytes : List ℕ) → IsLine self.now bytes → result ≡ (length bytes == 0) }
    {
        match self {
            Line::Held(held) => held.is_empty(),
            Line::Overlong => false,
        }
    }
}

// How a line goes on after the bytes that were taken of it.
enum Piece {
    GoesOn,
    EndsAtNewline,
    EndsWithInput,
}

/// Reads the next line, or `None` at the end of the input. `left` is how many bytes may still be
/// read; it falls by one for each byte, and for each try that a signal interrupts. The fault is
/// `Read` where the reader fails or `left` is used up, and `Memory` where a line can't be held.
#[tactic(auto, using(crate::proofs::Lines::paying))]
pub fn next_line<R: BufRead>(
    alloc: Global,
    reader: &mut R,
    left: &mut u64,
) -> Result<Option<Line>, RunFault>
    ensures line { IfOk result (λ line. IfSome (R.remaining reader.old) (λ bytes. ReadsLine bytes line (R.remaining reader.new))) }
    ensures spends { IfOk result (λ line. OnSome line (left.new < left.old)) }
    ensures pays { Pays (R.remaining reader.old) (R.remaining reader.new) left.old left.new }
    ensures fault { IfErr result (λ e. InReading e) }
{
    let mut line = Line::Held(Vec::new(alloc));
    while *left > 0 {
        match take_piece(reader, &mut line, left)? {
            Piece::GoesOn => {}
            Piece::EndsAtNewline => return Ok(Some(line)),
            Piece::EndsWithInput if line.is_empty() => return Ok(None),
            Piece::EndsWithInput => return Ok(Some(line)),
        }
    }
    Err(RunFault::Read)
}

// Takes of the bytes that the reader has at hand those of the line, and its newline. A try that a
// signal interrupts takes none, and costs one of `left`.
#[tactic(auto, using(crate::proofs::Lines::paying))]
fn take_piece<R: BufRead>(
    reader: &mut R,
    line: &mut Line,
    left: &mut u64,
) -> Result<Piece, RunFault>
    requires { 0 < left.old }
    ensures taken { IfOk result (λ piece. (part : List ℕ) × LineGrows line.old line.new part × All (λ b. b ≢ 10) part
        × TakesPiece piece (R.remaining reader.old) (R.remaining reader.new) part
        × (length part + piece_cost piece + left.new ≤ left.old)) }
    ensures pays { IfErr result (λ _. Pays (R.remaining reader.old) (R.remaining reader.new) left.old left.new) }
    ensures falls { result ≡ Ok Piece.GoesOn → left.new < left.old }
    ensures fault { IfErr result (λ e. InReading e) }
{
    let shown = match reader.fill_buf() {
        Ok(shown) => shown,
        Err(e) if e.kind() == ErrorKind::Interrupted => {
            *left -= 1;
            return Ok(Piece::GoesOn);
        }
        Err(_) => return Err(RunFault::Read),
    };
    if shown.is_empty() {
        return Ok(Piece::EndsWithInput);
    }
    let (length, is_ended) = front_of_line(shown, *left);
    line.grow(&shown[..length])?;
    if is_ended {
        reader.consume(length + 1);
        *left -= length as u64 + 1;
        return Ok(Piece::EndsAtNewline);
    }
    reader.consume(length);
    *left -= length as u64;
    Ok(Piece::GoesOn)
}

// How many of these bytes, and of the first `most`, stand before a newline, and whether one follows.
fn front_of_line(bytes: &[u8], most: u64) -> (usize, bool)
    ensures within { result.0 ≤ length bytes.now }
    ensures most { result.0 ≤ most }
    ensures before { All (λ b. b ≢ 10) (take result.0 bytes.now) }
    ensures newline { result.1 ≡ true → (result.0 < length bytes.now) × (result.0 < most) × (slice_index bytes.now result.0 ≡ 10) }
    ensures some { 0 < length bytes.now → 0 < most → result.1 ≢ true → 0 < result.0 }
{
    for (length, byte) in bytes.iter().enumerate() {
        if length as u64 == most {
            return (length, false);
        }
        if *byte == b'\n' {
            return (length, true);
        }
    }
    (bytes.len(), false)
}
