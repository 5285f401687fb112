//! The numbers in front of a world.
ghost use Rattle.tks_spelling.specs.Reading.{Gives};
ghost use Rattle.tks_spelling.specs.Writing.{PutsSo, flattened};
ghost use Rattle.tks_codec.specs.Counts as kinds;
ghost use Rattle.tks_codec.specs.Counts.{count, time, counts_at, counts_parts};

use std::alloc::AllocError;
use tks_spelling::Unread;
use tks_spelling::reading::u64_of;
use tks_spelling::writing::put_u64;
use tks_text::{MAX_NUMBER, MAX_TIME};

/// How many inputs were accepted, the clock in milliseconds, and the numbers of the next window, binding and timer.
#[derive(Clone, Copy)]
pub struct Counts {
    pub accepted: u64,
    pub clock: u64,
    pub window: u64,
    pub binding: u64,
    pub timer: u64,
}

// A number that a world may have.
fn count_of(bytes: &[u8]) -> Result<(u64, &[u8]), Unread>
    ensures { Gives (λ x. (x.0, x.1.now)) result (count.read bytes.now) }
{
    let (number, rest) = u64_of(bytes)?;
    if MAX_NUMBER < number {
        return Err(Unread::Left(rest.len() + 1));
    }
    Ok((number, rest))
}

// A time that the clock may stand at.
fn time_of(bytes: &[u8]) -> Result<(u64, &[u8]), Unread>
    ensures { Gives (λ x. (x.0, x.1.now)) result (time.read bytes.now) }
{
    let (number, rest) = u64_of(bytes)?;
    if MAX_TIME < number {
        return Err(Unread::Left(rest.len() + 1));
    }
    Ok((number, rest))
}

/// The numbers.
#[tactic(auto, unfolding(crate::specs::Counts::counts_at))]
pub fn counts_of(bytes: &[u8]) -> Result<(Counts, &[u8]), Unread>
    ensures { Gives (λ x. (x.0, x.1.now)) result (counts_at bytes.now) }
{
    let (accepted, rest) = count_of(bytes)?;
    let (clock, rest) = time_of(rest)?;
    let (window, rest) = count_of(rest)?;
    let (binding, rest) = count_of(rest)?;
    let (timer, rest) = count_of(rest)?;
    let counts = Counts {
        accepted,
        clock,
        window,
        binding,
        timer,
    };
    Ok((counts, rest))
}

// Adds a number.
fn put_count(out: &mut Vec<u8>, number: u64) -> Result<(), AllocError>
    ensures { PutsSo result out.old.items out.new.items (count.write number) }
{
    put_u64(out, number)
}

// Adds the numbers of the next window, binding and timer.
#[tactic(auto, using(tks_spelling::proofs::Puts::flattened_puts))]
fn put_next(out: &mut Vec<u8>, counts: &Counts) -> Result<(), AllocError>
    ensures { PutsSo result out.old.items out.new.items (flattened (kinds.next_parts counts.now)) }
{
    put_count(out, counts.window)?;
    put_count(out, counts.binding)?;
    put_count(out, counts.timer)
}

// Adds the parts.
#[tactic(auto, using(tks_spelling::proofs::Puts::flattened_puts))]
fn put_parts(out: &mut Vec<u8>, counts: &Counts) -> Result<(), AllocError>
    ensures { PutsSo result out.old.items out.new.items (flattened (counts_parts counts.now)) }
{
    put_count(out, counts.accepted)?;
    put_count(out, counts.clock)?;
    put_next(out, counts)
}

/// Adds the numbers. They are read back where none is above 2^62, and the clock is below it.
#[tactic(auto, unfolding(tks_spelling::specs::Writing::flattened))]
pub fn put_counts(out: &mut Vec<u8>, counts: &Counts) -> Result<(), AllocError>
    ensures { PutsSo result out.old.items out.new.items (kinds.counts.write counts.now) }
{
    put_parts(out, counts)
}
