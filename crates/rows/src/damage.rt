//! Damaged spellings, drawn at random.

use crate::sound::{Reading, read};
use std::alloc::Global;
use tests_disk::Dice;
use tks_text::Size;

/// The most bytes that are taken out or put in at once.
const SPAN: usize = 12;

// What a byte is changed by, often in its lowest bits alone.
fn change(dice: &mut Dice) -> u8 {
    let below = if dice.roll(2) == 0 { 3 } else { 255 };
    ((dice.roll(below) & 255) as u8).saturating_add(1)
}

// So many bytes from the front of these, at least one where there is one.
fn span<'a>(dice: &mut Dice, bytes: &'a [u8]) -> Option<(&'a [u8], &'a [u8])> {
    let count = dice.roll(SPAN).saturating_add(1);
    bytes.split_at_checked(count.min(bytes.len()))
}

// The bytes with one change: another value, bytes taken out, or bytes of another place put in.
fn changed(alloc: Global, dice: &mut Dice, bytes: &[u8]) -> Option<Vec<u8>> {
    let (front, rest) = bytes.split_at_checked(dice.roll(bytes.len()))?;
    let mut made = front.to_vec(alloc).ok()?;
    match dice.roll(3) {
        0 => {
            let (byte, behind) = rest.split_first()?;
            made.push(*byte ^ change(dice)).ok()?;
            made.extend_from_slice(behind).ok()?;
        }
        1 => {
            let (_, behind) = span(dice, rest)?;
            made.extend_from_slice(behind).ok()?;
        }
        _ => {
            let (_, other) = bytes.split_at_checked(dice.roll(bytes.len()))?;
            let (copied, _) = span(dice, other)?;
            made.extend_from_slice(copied).ok()?;
            made.extend_from_slice(rest).ok()?;
        }
    }
    Some(made)
}

// The bytes with one to three changes.
fn damaged(alloc: Global, dice: &mut Dice, bytes: &[u8]) -> Option<Vec<u8>> {
    let mut made = changed(alloc, dice, bytes)?;
    for _ in 0..dice.roll(3) {
        made = changed(alloc, dice, made.as_slice())?;
    }
    Some(made)
}

/// What is told of so many damaged spellings.
pub fn told(alloc: Global, grid: Size, bytes: &[u8], count: u64, mut dice: Dice) -> Option<String> {
    let mut worlds: u64 = 0;
    for number in 0..count {
        let damaged = damaged(alloc, &mut dice, bytes)?;
        match read(alloc, grid, damaged.as_slice())? {
            Reading::Sound => worlds = worlds.saturating_add(1),
            Reading::Refused => {}
            Reading::Unsound => {
                return format!(in alloc; "damaged spelling {number} is not sound").ok();
            }
        }
    }
    format!(in alloc; "{count} damaged spellings, sound; {worlds} of them are worlds").ok()
}
