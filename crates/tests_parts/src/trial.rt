//! One random call, made on both.
use crate::plain::Plain;
use std::alloc::Global;
use tests_disk::Dice;
use tks_text::Txt;
use tks_timer::Timers;

/// The script of one letter.
pub fn script_of(alloc: Global, letter: u8) -> Option<Txt> {
    Txt::from_bytes(alloc, &[letter]).ok()
}

fn any_letter(dice: &mut Dice) -> u8 {
    match dice.roll(4) {
        0 => b'a',
        1 => b'b',
        2 => b'c',
        _ => b'd',
    }
}

// Keeps a timer or an idle script on both.
fn keeps(alloc: Global, timers: &mut Timers, plain: &mut Plain, dice: &mut Dice) -> Option<bool> {
    let letter = any_letter(dice);
    let script = script_of(alloc, letter)?;
    if dice.roll(3) == 0 {
        return Some(timers.idle(script).ok()? == plain.keep(None, letter)?);
    }
    let due = dice.roll(50) as u64;
    Some(timers.after(due, script).ok()? == plain.keep(Some(due), letter)?)
}

// Takes one out by its script, by its id, or as the next to be run.
fn takes(alloc: Global, timers: &mut Timers, plain: &mut Plain, dice: &mut Dice) -> Option<bool> {
    let letter = any_letter(dice);
    let id = match dice.roll(4) {
        0 => plain.with_letter(letter),
        1 => plain.oldest_idle(),
        2 => plain.due(dice.roll(60) as u64),
        _ => Some(dice.roll(400) as u64),
    };
    if dice.roll(4) == 0 {
        timers.cancel_script(&script_of(alloc, letter)?).ok()?;
        if let Some(id) = plain.with_letter(letter) {
            plain.take_out(id);
        }
        return Some(true);
    }
    let Some(id) = id else {
        return Some(true);
    };
    let taken = timers.take(id).ok()?;
    let letter = plain.letter_of(id);
    plain.take_out(id);
    Some(is_letter(&taken, letter))
}

fn is_letter(script: &Option<Txt>, letter: Option<u8>) -> bool {
    match (script, letter) {
        (Some(script), Some(letter)) => script.as_bytes() == [letter].as_slice(),
        (None, None) => true,
        _ => false,
    }
}

// Whether both answer the same.
fn answer_alike(timers: &Timers, plain: &Plain, dice: &mut Dice) -> Option<bool> {
    let now = dice.roll(60) as u64;
    let ids = timers.ids().ok()?;
    let mut place = 0;
    for kept in &plain.kept {
        if ids.get(place) != Some(&kept.id) {
            return Some(false);
        }
        place += 1;
    }
    Some(
        ids.len() == place
            && timers.due(now) == plain.due(now)
            && timers.oldest_idle() == plain.oldest_idle(),
    )
}

/// Makes a random call on both.
pub fn call_agrees(
    alloc: Global,
    timers: &mut Timers,
    plain: &mut Plain,
    dice: &mut Dice,
) -> Option<bool> {
    let agrees = match dice.roll(20) {
        0..=9 => keeps(alloc, timers, plain, dice)?,
        _ => takes(alloc, timers, plain, dice)?,
    };
    Some(agrees && answer_alike(timers, plain, dice)?)
}
