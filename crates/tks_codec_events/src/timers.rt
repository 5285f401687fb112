//! Timers and idle scripts.
ghost use Rattle.std.specs.Prelude.{◌≡◌, ◌≤◌, ◌^◌, length, OnOk};
ghost use Rattle.tks_spelling.specs.Reading.{Gives};
ghost use Rattle.tks_spelling.specs.Writing.{PutsSo, flattened};
ghost use Rattle.tks_spelling.specs.Lengths.{counted};
ghost use Rattle.tks_codec_events.specs.Timers as waits;
ghost use Rattle.tks_codec_events.specs.Timers.{timer_at, timer_parts, idle_at, idle_parts, waiting, waiting_at};
ghost use Rattle.tks_timer.specs.WellFormed.{rise_below, is_apart, are_apart, are_due, are_waiting};

use std::alloc::{AllocError, Global};
use tks_share::Numbered;
use tks_spelling::reading::{text_of, u64_of};
use tks_spelling::writing::{put_text, put_u64};
use tks_spelling::{Members, Unread, items_length, list_of, put_items, text_length};
use tks_text::MAX_TIME;
use tks_timer::{Idle, Timer, Timers};

// A timer.
#[tactic(auto, unfolding(crate::specs::Timers::timer_at))]
fn timer_of(alloc: Global, bytes: &[u8]) -> Result<(Timer, &[u8]), Unread>
    ensures { Gives (λ x. (x.0, x.1.now)) result (timer_at bytes.now) }
{
    let (id, rest) = u64_of(bytes)?;
    let (due, rest) = u64_of(rest)?;
    let (script, rest) = text_of(alloc, rest)?;
    Ok((Timer { id, due, script }, rest))
}

// An idle script.
#[tactic(auto, unfolding(crate::specs::Timers::idle_at))]
fn idle_of(alloc: Global, bytes: &[u8]) -> Result<(Idle, &[u8]), Unread>
    ensures { Gives (λ x. (x.0, x.1.now)) result (idle_at bytes.now) }
{
    let (id, rest) = u64_of(bytes)?;
    let (script, rest) = text_of(alloc, rest)?;
    Ok((Idle { id, script }, rest))
}

// Adds the parts of a timer.
#[tactic(auto, using(tks_spelling::proofs::Puts::flattened_puts))]
fn put_timer_parts(out: &mut Vec<u8>, timer: &Timer) -> Result<(), AllocError>
    ensures puts { PutsSo result out.old.items out.new.items (flattened (timer_parts timer.now)) }
    ensures legal { OnOk result (waits.timer.Legal timer.now) }
{
    put_u64(out, timer.id)?;
    put_u64(out, timer.due)?;
    put_text(out, &timer.script)
}

// Adds the parts of an idle script.
#[tactic(auto, using(tks_spelling::proofs::Puts::flattened_puts))]
fn put_idle_parts(out: &mut Vec<u8>, idle: &Idle) -> Result<(), AllocError>
    ensures puts { PutsSo result out.old.items out.new.items (flattened (idle_parts idle.now)) }
    ensures legal { OnOk result (waits.idle.Legal idle.now) }
{
    put_u64(out, idle.id)?;
    put_text(out, &idle.script)
}

/// Timers.
#[derive(Clone, Copy)]
pub struct TimerMembers;

impl Members<Timer> for TimerMembers {
    ghost use Rattle.tks_codec_events.specs.Timers.{timer};

    ghost spelling = { λ timers. timer };

    ghost IsSound = { λ timers t. Unit {0} };

    #[tactic(auto, unfolding(crate::specs::Timers::timer_at))]
    fn read<'a>(&self, alloc: Global, bytes: &'a [u8]) -> Result<(Timer, &'a [u8]), Unread> {
        timer_of(alloc, bytes)
    }

    #[tactic(auto, unfolding(tks_spelling::specs::Writing::flattened))]
    fn put(&self, out: &mut Vec<u8>, timer: &Timer) -> Result<(), AllocError> {
        put_timer_parts(out, timer)
    }

    #[tactic(auto, using(tks_spelling::proofs::Counting::lengths))]
    fn spelled_length(&self, timer: &Timer) -> u64 {
        text_length(&timer.script).saturating_add(16)
    }
}

/// Idle scripts.
#[derive(Clone, Copy)]
pub struct IdleMembers;

impl Members<Idle> for IdleMembers {
    ghost use Rattle.tks_codec_events.specs.Timers.{idle};

    ghost spelling = { λ idles. idle };

    ghost IsSound = { λ idles i. Unit {0} };

    #[tactic(auto, unfolding(crate::specs::Timers::idle_at))]
    fn read<'a>(&self, alloc: Global, bytes: &'a [u8]) -> Result<(Idle, &'a [u8]), Unread> {
        idle_of(alloc, bytes)
    }

    #[tactic(auto, unfolding(tks_spelling::specs::Writing::flattened))]
    fn put(&self, out: &mut Vec<u8>, idle: &Idle) -> Result<(), AllocError> {
        put_idle_parts(out, idle)
    }

    #[tactic(auto, using(tks_spelling::proofs::Counting::lengths))]
    fn spelled_length(&self, idle: &Idle) -> u64 {
        text_length(&idle.script).saturating_add(8)
    }
}

// Whether numbers rise, below the next one.
fn rise_below<T: Numbered>(items: &[T], next: u64) -> bool
    ensures { result ≡ rise_below T.number_of 0 next items.now }
{
    let mut least = 0;
    for item in items {
        let number = item.number();
        if number < least || next <= number {
            return false;
        }
        least = number + 1;
    }
    true
}

// Whether no idle script has an id.
fn is_apart(id: u64, idles: &[Idle]) -> bool
    ensures { result ≡ is_apart id idles.now }
{
    idles.iter().all(|idle| idle.id != id)
}

// Whether no timer has the id of an idle script.
fn are_apart(idles: &[Idle], timers: &[Timer]) -> bool
    ensures { result ≡ are_apart idles.now timers.now }
{
    for timer in timers {
        if !is_apart(timer.id, idles) {
            return false;
        }
    }
    true
}

// Whether each timer is due when there is a time.
fn are_due(timers: &[Timer]) -> bool
    ensures { result ≡ are_due timers.now }
{
    timers.iter().all(|timer| timer.due <= MAX_TIME)
}

// Whether ids rise and differ, below the next one, and each timer is due when there is a time.
fn are_waiting(timers: &[Timer], idles: &[Idle], next: u64) -> bool
    ensures { result ≡ are_waiting (record { timers = timers.now; idles = idles.now; next = next }) }
{
    rise_below(timers, next)
        && rise_below(idles, next)
        && are_apart(idles, timers)
        && are_due(timers)
}

/// Timers and idle scripts with this next id.
#[tactic(auto, unfolding(crate::specs::Timers::waiting_at))]
pub fn waiting_of(alloc: Global, next: u64, bytes: &[u8]) -> Result<(Timers, &[u8]), Unread>
    requires { next ≤ 2 ^ 62 }
    ensures { Gives (λ x. (x.0, x.1.now)) result (waiting_at next bytes.now) }
{
    let (timers, rest) = list_of(alloc, TimerMembers, bytes)?;
    let (idles, rest) = list_of(alloc, IdleMembers, rest)?;
    if !are_waiting(timers.as_slice(), idles.as_slice(), next) {
        return Err(Unread::Left(rest.len() + 1));
    }
    let timers = Timers::restore(alloc, timers.into_items(), idles.into_items(), next)?;
    Ok((timers, rest))
}

/// Adds timers and idle scripts, but not the next id.
pub fn put_waiting(out: &mut Vec<u8>, timers: &Timers) -> Result<(), AllocError>
    ensures puts { PutsSo result out.old.items out.new.items ((waiting timers.now.next).write timers.now) }
    ensures legal { OnOk result ((waiting timers.now.next).Legal timers.now) }
{
    // What holds of all timers is asked for here.
    let _ = timers.next();
    put_items(out, TimerMembers, timers.timers(), timers.timer_count())?;
    put_items(out, IdleMembers, timers.idles(), timers.idle_count())
}

/// The length of the spelling of timers and idle scripts, in bytes.
#[tactic(auto, using(tks_spelling::proofs::Counting::lengths))]
pub fn waiting_length(timers: &Timers) -> u64
    ensures { result ≡ counted (length ((waiting timers.now.next).write timers.now)) }
{
    items_length(&TimerMembers, timers.timers()).saturating_add(items_length(
        &IdleMembers,
        timers.idles(),
    ))
}
