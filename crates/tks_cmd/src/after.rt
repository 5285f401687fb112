//! `after`.
ghost use Rattle.std.specs.Prelude.{◌≡◌, ◌+◌, [], ◌∷◌, decimal, map, IfOk, OnOk};
ghost use Rattle.tks_text.specs.Integer.{integer_of};
ghost use Rattle.tks_tcl.specs.Cause.{bare};
ghost use Rattle.tks_tcl.specs.Meets.{GivesSo, TellsSo};
ghost use Rattle.tks_list.specs.Quoting.{joined};
ghost use Rattle.tks_timer.specs.After.{ids, no_later};
ghost use Rattle.tks_timer.specs.Waits.{waiting_seen};
ghost use Rattle.tks_cmd.specs.After.{id_text, number_among, id_of, delay_of, delay_read, timers_within, idles_within, timer_kept, idle_kept, script_read, delay_does, idle_does, id_alone, cancelled_id, cancelled, cancel_does, in_order, ids_text, kept_text, kept_told, info_does, form_does, after_does};
ghost use Rattle.tks_cmd.specs.Meets.{KeepsSo};

use itoa::Buffer;
use std::alloc::{AllocError, Global};
use tks_list::join;
use tks_state::World;
use tks_tcl::{Interrupt, concatenated_within, error_about, integer_in, wrong_words};
use tks_text::{ErrorNumber, Limits, ScriptFault, Seq, Txt, decimal_of, integer_of};
use tks_timer::{AfterFault, Timers, Waiting};

/// The most milliseconds that may be waited for.
const MAX_DELAY: i64 = 2_147_483_647;

// A number in decimal.
#[tactic(auto, using(crate::proofs::Digits::count_is_text))]
fn count_text(alloc: Global, count: u64) -> Result<Txt, AllocError>
    ensures { IfOk result (λ t. t ≡ decimal count) }
{
    let mut digits = Buffer::new();
    Txt::from_text(alloc, digits.format(count).as_bytes())
}

// How an id is written.
fn id_text(alloc: Global, id: u64) -> Result<Txt, AllocError>
    ensures { IfOk result (λ t. t ≡ id_text id) }
{
    let mut text = Txt::from_text(alloc, b"after#")?;
    text.append(&count_text(alloc, id)?)?;
    Ok(text)
}

// The number that a decimal writes, in just these digits.
fn number_among(alloc: Global, digits: &Txt) -> Result<Option<u64>, AllocError>
    ensures { IfOk result (λ n. n ≡ number_among (integer_of digits.now) digits.now) }
{
    let number = match integer_of(digits) {
        Ok(Some(number)) if 0 <= number => number,
        _ => return Ok(None),
    };
    let written = decimal_of(alloc, number)?;
    if digits.as_bytes() == written.as_bytes() {
        Ok(Some(number as u64))
    } else {
        Ok(None)
    }
}

// The number of the id that a text is.
#[tactic(auto, using(tks_text::proofs::Texts::text_drop))]
fn id_of(alloc: Global, text: &Txt) -> Result<Option<u64>, AllocError>
    ensures { IfOk result (λ id. id ≡ id_of text.now) }
{
    let Some(digits) = text.as_bytes().strip_prefix(b"after#".as_slice()) else {
        return Ok(None);
    };
    let digits = Txt::from_text(alloc, digits)?;
    number_among(alloc, &digits)
}

// The error about an integer that is too large.
fn out_of_range() -> Interrupt
    ensures { TellsSo (bare ErrorNumber.OutOfRange) result }
{
    Interrupt::Script(ScriptFault {
        number: ErrorNumber::OutOfRange,
        subject: None,
    })
}

// So many milliseconds; less than none is none.
#[tactic(auto, using(tks_tcl::proofs::Causes::tells))]
fn delay_of(delay: i64) -> Result<u64, Interrupt>
    ensures { GivesSo (λ d. d) result (delay_of delay) }
{
    if delay > MAX_DELAY {
        return Err(out_of_range());
    }
    if delay < 0 {
        return Ok(0);
    }
    Ok(delay as u64)
}

// The milliseconds that a text says.
fn delay_read(text: &Txt) -> Result<u64, Interrupt>
    ensures { GivesSo (λ d. d) result (delay_read text.now) }
{
    let delay = integer_in(text)?;
    delay_of(delay)
}

// So many milliseconds from a time on, or as late as can be told.
fn due_after(time: u64, delay: u64) -> u64
    ensures { no_later result ≡ no_later (time + delay) }
{
    time.saturating_add(delay)
}

// The script that words make, which passes no limit.
fn script_read(alloc: Global, words: &[Txt], limits: &Limits) -> Result<Txt, Interrupt>
    ensures { GivesSo (λ t. t) result (script_read limits.now words.now) }
{
    concatenated_within(alloc, words, limits)
}

// Whether the list of timers passes no limit.
fn check_timers(world: &World, limits: &Limits) -> Result<(), Interrupt>
    ensures { GivesSo (λ _. world.now) result (timers_within limits.now world.now) }
{
    if world.timers().timer_count() <= limits.items as usize {
        Ok(())
    } else {
        Err(Interrupt::TooLarge)
    }
}

// Whether the list of idle scripts passes no limit.
fn check_idles(world: &World, limits: &Limits) -> Result<(), Interrupt>
    ensures { GivesSo (λ _. world.now) result (idles_within limits.now world.now) }
{
    if world.timers().idle_count() <= limits.items as usize {
        Ok(())
    } else {
        Err(Interrupt::TooLarge)
    }
}

// Keeps a script for so many milliseconds. It answers the id.
fn keep_timer(world: &mut World, delay: u64, script: Txt, limits: &Limits) -> Result<u64, Interrupt>
    ensures value { GivesSo (λ id. (id, world.new)) result (timer_kept limits.now delay script world.old) }
    ensures kept { KeepsSo result world.old world.new }
{
    match world.keep_timer(due_after(world.clock(), delay), script) {
        Ok(id) => {
            check_timers(world, limits)?;
            Ok(id)
        }
        Err(AfterFault::OutOfNumbers) => Err(Interrupt::TooLarge),
        Err(AfterFault::NoMemory) => Err(Interrupt::NoMemory),
    }
}

// Keeps a script until nothing else is to be done. It answers the id.
fn keep_idle(world: &mut World, script: Txt, limits: &Limits) -> Result<u64, Interrupt>
    ensures value { GivesSo (λ id. (id, world.new)) result (idle_kept limits.now script world.old) }
    ensures kept { KeepsSo result world.old world.new }
{
    match world.keep_idle(script) {
        Ok(id) => {
            check_idles(world, limits)?;
            Ok(id)
        }
        Err(AfterFault::OutOfNumbers) => Err(Interrupt::TooLarge),
        Err(AfterFault::NoMemory) => Err(Interrupt::NoMemory),
    }
}

// after milliseconds script ..
fn run_delay(
    alloc: Global,
    delay: &Txt,
    words: &[Txt],
    world: &mut World,
    limits: &Limits,
) -> Result<Txt, Interrupt>
    ensures value { GivesSo (λ t. (t, world.new)) result (delay_does limits.now delay.now words.now world.old) }
    ensures kept { KeepsSo result world.old world.new }
{
    let delay = delay_read(delay)?;
    let script = script_read(alloc, words, limits)?;
    let id = keep_timer(world, delay, script, limits)?;
    let text = id_text(alloc, id)?;
    Ok(text)
}

// after idle script ..
fn run_idle(
    alloc: Global,
    words: &[Txt],
    world: &mut World,
    limits: &Limits,
) -> Result<Txt, Interrupt>
    ensures value { GivesSo (λ t. (t, world.new)) result (idle_does limits.now words.now world.old) }
    ensures kept { KeepsSo result world.old world.new }
{
    let script = script_read(alloc, words, limits)?;
    let id = keep_idle(world, script, limits)?;
    let text = id_text(alloc, id)?;
    Ok(text)
}

// The id that a word alone is.
fn id_alone(alloc: Global, words: &[Txt]) -> Result<Option<u64>, AllocError>
    ensures { IfOk result (λ id. id ≡ id_alone words.now) }
{
    match words {
        [word] => id_of(alloc, word),
        _ => Ok(None),
    }
}

// The id of what words cancel: that of the script that they make, or else the one that a word alone is.
fn cancelled_id(
    alloc: Global,
    script: &Txt,
    words: &[Txt],
    timers: &Timers,
) -> Result<Option<u64>, AllocError>
    ensures { IfOk result (λ id. id ≡ cancelled_id script.now words.now timers.now) }
{
    match timers.find(script) {
        Some(id) => Ok(Some(id)),
        None => id_alone(alloc, words),
    }
}

// Takes out the script of an id, where there is one.
fn cancel(world: &mut World, id: Option<u64>) -> Result<(), AllocError>
    ensures { OnOk result (world.new ≡ cancelled id world.old) }
{
    if let Some(id) = id {
        world.cancel(id)?;
    }
    Ok(())
}

// after cancel id, after cancel script ..
fn run_cancel(
    alloc: Global,
    words: &[Txt],
    world: &mut World,
    limits: &Limits,
) -> Result<Txt, Interrupt>
    ensures value { GivesSo (λ t. (t, world.new)) result (cancel_does limits.now words.now world.old) }
    ensures kept { KeepsSo result world.old world.new }
{
    let script = script_read(alloc, words, limits)?;
    let id = cancelled_id(alloc, &script, words, world.timers())?;
    cancel(world, id)?;
    Ok(Txt::new(alloc))
}

// The ids of all scripts that wait, rising.
fn sorted_ids(timers: &Timers) -> Result<Vec<u64>, AllocError>
    ensures { IfOk result (λ found. found.items ≡ in_order (ids timers.now)) }
{
    let found = timers.ids()?;
    Ok(found)
}

// How ids are written.
fn id_texts(alloc: Global, ids: &[u64]) -> Result<Seq<Txt>, AllocError>
    ensures { IfOk result (λ l. l ≡ map id_text ids.now) }
{
    let mut texts = Seq::new(alloc);
    for id in ids {
        texts.push(id_text(alloc, *id)?)?;
    }
    Ok(texts)
}

// The list of the ids of all scripts that wait.
fn ids_text(alloc: Global, timers: &Timers) -> Result<Txt, AllocError>
    ensures { IfOk result (λ t. t ≡ ids_text timers.now) }
{
    let ids = sorted_ids(timers)?;
    let texts = id_texts(alloc, ids.as_slice())?;
    let text = join(alloc, texts.as_slice())?;
    Ok(text)
}

// The list of a script and what it waits for.
fn pair_text(alloc: Global, script: &Txt, reason: Txt) -> Result<Txt, AllocError>
    ensures { IfOk result (λ t. t ≡ joined (script.now ∷ reason ∷ [])) }
{
    let mut words = Seq::new(alloc);
    words.push(script.try_clone()?)?;
    words.push(reason)?;
    let text = join(alloc, words.as_slice())?;
    Ok(text)
}

// The same of a script that waits.
fn waiting_text(alloc: Global, waiting: Waiting<'_>) -> Result<Txt, AllocError>
    ensures { IfOk result (λ t. t ≡ kept_text (waiting_seen waiting.entry)) }
{
    match waiting {
        Waiting::Timer(script) => pair_text(alloc, script, Txt::from_text(alloc, b"timer")?),
        Waiting::Idle(script) => pair_text(alloc, script, Txt::from_text(alloc, b"idle")?),
    }
}

// The script that a text names by its id, and what it waits for.
#[tactic(auto, using(tks_tcl::proofs::Causes::tells))]
fn about(alloc: Global, text: &Txt, timers: &Timers) -> Result<Txt, Interrupt>
    ensures { GivesSo (λ t. t) result (kept_told text.now timers.now) }
{
    let Some(id) = id_of(alloc, text)? else {
        return Err(error_about(ErrorNumber::NoSuchAfterId, text));
    };
    match timers.info(id, text) {
        Ok(waiting) => {
            let text = waiting_text(alloc, waiting)?;
            Ok(text)
        }
        Err(failure) => Err(failure.into()),
    }
}

// after info ?id?
#[tactic(auto, using(tks_tcl::proofs::Causes::tells))]
fn run_info(alloc: Global, command: &Txt, words: &[Txt], world: &World) -> Result<Txt, Interrupt>
    ensures { GivesSo (λ t. (t, world.now)) result (info_does command.now words.now world.now) }
{
    match words {
        [] => {
            let text = ids_text(alloc, world.timers())?;
            Ok(text)
        }
        [id] => {
            let text = about(alloc, id, world.timers())?;
            Ok(text)
        }
        _ => Err(wrong_words(command)),
    }
}

// The forms that take one word or more.
fn run_form(
    alloc: Global,
    form: &Txt,
    words: &[Txt],
    world: &mut World,
    limits: &Limits,
) -> Result<Txt, Interrupt>
    ensures value { GivesSo (λ t. (t, world.new)) result (form_does limits.now form.now words.now world.old) }
    ensures kept { KeepsSo result world.old world.new }
{
    let name = form.as_bytes();
    if name == b"cancel".as_slice() {
        let text = run_cancel(alloc, words, world, limits)?;
        Ok(text)
    } else if name == b"idle".as_slice() {
        let text = run_idle(alloc, words, world, limits)?;
        Ok(text)
    } else {
        let text = run_delay(alloc, form, words, world, limits)?;
        Ok(text)
    }
}

/// after milliseconds script .., after idle script .., after cancel id, after cancel script .., after info ?id?
#[tactic(auto, using(tks_tcl::proofs::Causes::tells))]
pub fn run_after(
    alloc: Global,
    command: &Txt,
    words: &[Txt],
    world: &mut World,
    limits: &Limits,
) -> Result<Txt, Interrupt>
    ensures value { GivesSo (λ t. (t, world.new)) result (after_does limits.now command.now words.now world.old) }
    ensures kept { KeepsSo result world.old world.new }
{
    let Some((form, rest)) = words.split_first() else {
        return Err(wrong_words(command));
    };
    if form.as_bytes() == b"info".as_slice() {
        let text = run_info(alloc, command, rest, world)?;
        return Ok(text);
    }
    if rest.is_empty() {
        return Err(wrong_words(command));
    }
    let text = run_form(alloc, form, rest, world, limits)?;
    Ok(text)
}
