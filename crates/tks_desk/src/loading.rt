//! Scripts that are loaded behind a line.
ghost use Rattle.std.specs.Prelude.{◌≡◌, ◌<◌, ◌≤◌, true, false, length, Ok, Some, IfOk, IfErr, IfSome, OnOk};
ghost use Rattle.std.specs.Option.{option_map};
ghost use Rattle.tks_desk.specs.Reading.{HoldsBytes, InReading, PassesSo, Pays, TakesBytes, unread};

use crate::ending::RunFault;
use std::alloc::Global;
use std::io::{BufRead, ErrorKind};

/// How far a run has read.
#[derive(Clone, Copy)]
pub struct Intake {
    /// How many bytes may still be read. It falls by one for each byte, and for each try that a signal
    /// interrupts.
    pub left: u64,
    /// Whether a newline at the front belongs to a script that was loaded. It is passed over before the next
    /// line is read, so that the script's answer doesn't wait for it.
    pub skips_newline: bool,
}

/// Passes over a newline that belongs to what was read before. The fault is `Read` where the reader fails or
/// no more may be read.
#[tactic(auto, using(crate::proofs::Lines::paying))]
pub fn pass_newline<R: BufRead>(reader: &mut R, intake: &mut Intake) -> Result<(), RunFault>
    ensures passed { IfOk result (λ _. IfSome (unread intake.old.skips_newline (R.remaining reader.old)) (λ bytes. R.remaining reader.new ≡ Some bytes)) }
    ensures done { OnOk result (intake.new.skips_newline ≡ false) }
    ensures pays { Pays (R.remaining reader.old) (R.remaining reader.new) intake.old.left intake.new.left }
    ensures fault { IfErr result (λ e. e ≡ RunFault.Read) }
{
    if !intake.skips_newline {
        return Ok(());
    }
    while intake.left > 0 {
        if try_newline(reader, &mut intake.left)? {
            intake.skips_newline = false;
            return Ok(());
        }
    }
    Err(RunFault::Read)
}

// Passes over a newline at the front, unless a signal interrupts the try, and says which.
#[tactic(auto, using(crate::proofs::Lines::paying))]
fn try_newline<R: BufRead>(reader: &mut R, left: &mut u64) -> Result<bool, RunFault>
    requires { 0 < left.old }
    ensures passes { IfOk result (λ is_done. PassesSo is_done (R.remaining reader.old) (R.remaining reader.new)) }
    ensures pays { Pays (R.remaining reader.old) (R.remaining reader.new) left.old left.new }
    ensures falls { result ≡ Ok false → left.new < left.old }
    ensures fault { IfErr result (λ e. e ≡ RunFault.Read) }
{
    let shown = match reader.fill_buf() {
        Ok(shown) => shown,
        Err(e) if e.kind() == ErrorKind::Interrupted => {
            *left -= 1;
            return Ok(false);
        }
        Err(_) => return Err(RunFault::Read),
    };
    if shown.first() == Some(&b'\n') {
        reader.consume(1);
        *left -= 1;
    }
    Ok(true)
}

/// Reads so many bytes, or `None` where the input ends before. The fault is `Read` where the reader fails or
/// no more may be read, and `Memory` where the bytes can't be held.
#[tactic(auto, using(crate::proofs::Lines::paying))]
pub fn read_bytes<R: BufRead>(
    alloc: Global,
    reader: &mut R,
    length: usize,
    left: &mut u64,
) -> Result<Option<Vec<u8>>, RunFault>
    ensures held { IfOk result (λ held. IfSome (R.remaining reader.old) (λ bytes. HoldsBytes length bytes (option_map (λ v. v.items) held) (R.remaining reader.new))) }
    ensures pays { Pays (R.remaining reader.old) (R.remaining reader.new) left.old left.new }
    ensures fault { IfErr result (λ e. InReading e) }
{
    let mut held = Vec::new(alloc);
    while held.len() < length {
        if *left == 0 {
            return Err(RunFault::Read);
        }
        if !take_bytes(reader, &mut held, length, left)? {
            return Ok(None);
        }
    }
    Ok(Some(held))
}

// Holds of the bytes at hand those that are still wanted, and says whether the input goes on.
#[tactic(auto, using(crate::proofs::Lines::paying))]
fn take_bytes<R: BufRead>(
    reader: &mut R,
    held: &mut Vec<u8>,
    wanted: usize,
    left: &mut u64,
) -> Result<bool, RunFault>
    requires unfilled { length held.old.items < wanted }
    requires allowed { 0 < left.old }
    ensures taken { IfOk result (λ goes_on. TakesBytes goes_on (R.remaining reader.old) (R.remaining reader.new) held.old.items held.new.items) }
    ensures within { OnOk result (length held.new.items ≤ wanted) }
    ensures pays { Pays (R.remaining reader.old) (R.remaining reader.new) left.old left.new }
    ensures falls { result ≡ Ok true → left.new < left.old }
    ensures fault { IfErr result (λ e. InReading e) }
{
    let shown = match reader.fill_buf() {
        Ok(shown) => shown,
        Err(e) if e.kind() == ErrorKind::Interrupted => {
            *left -= 1;
            return Ok(true);
        }
        Err(_) => return Err(RunFault::Read),
    };
    if shown.is_empty() {
        return Ok(false);
    }
    let taken = shown
        .len()
        .min(wanted - held.len())
        .min(usize::try_from(*left).unwrap_or(usize::MAX));
    held.extend_from_slice(&shown[..taken])
        .map_err(|_| RunFault::Memory)?;
    reader.consume(taken);
    *left -= taken as u64;
    Ok(true)
}
