//! Whether bytes are read as they should be.

use crate::worlds::spelled;
use std::alloc::Global;
use tks_codec::{Format, read_world};
use tks_spelling::CodecFault;
use tks_text::Size;

/// What bytes are read as.
#[derive(Clone, Copy, PartialEq, Eq)]
pub enum Reading {
    /// A world that has just these bytes.
    Sound,
    /// None, and a byte is told.
    Refused,
    /// A world that has other bytes, or none and no byte of them is told.
    Unsound,
}

/// What bytes are read as; nothing where memory is wanting.
pub fn read(alloc: Global, grid: Size, bytes: &[u8]) -> Option<Reading> {
    match read_world(alloc, Format::Two, grid, bytes) {
        Ok((world, length)) => {
            let (front, _) = bytes.split_at_checked(length)?;
            if spelled(alloc, &world)?.as_slice() == front {
                Some(Reading::Sound)
            } else {
                Some(Reading::Unsound)
            }
        }
        Err(CodecFault::Bad(place)) if place <= bytes.len() => Some(Reading::Refused),
        Err(CodecFault::Bad(_)) => Some(Reading::Unsound),
        Err(CodecFault::NoMemory) => None,
    }
}

// Whether a world is read back, behind which another byte stands.
fn is_read_back(alloc: Global, grid: Size, bytes: &[u8]) -> Option<bool> {
    let mut longer = bytes.to_vec(alloc).ok()?;
    longer.push(7).ok()?;
    let (world, length) = read_world(alloc, Format::Two, grid, longer.as_slice()).ok()?;
    Some(length == bytes.len() && spelled(alloc, &world)?.as_slice() == bytes)
}

// The first cut that isn't refused at its end.
fn unseen_cut(alloc: Global, grid: Size, bytes: &[u8]) -> Option<usize> {
    for end in 0..bytes.len() {
        match read_world(alloc, Format::Two, grid, &bytes[..end]) {
            Err(CodecFault::Bad(place)) if place == end => {}
            _ => return Some(end),
        }
    }
    None
}

// What a byte is changed by, bit by bit: each of them alone, and all of them.
const CHANGES: [u8; 9] = [1, 2, 4, 8, 16, 32, 64, 128, 255];

// Whether a place that is changed in each of these ways is read soundly.
fn changes_are_sound(alloc: Global, grid: Size, bytes: &mut Vec<u8>, place: usize) -> Option<bool> {
    for change in CHANGES {
        *bytes.get_mut(place)? ^= change;
        let reading = read(alloc, grid, bytes.as_slice())?;
        *bytes.get_mut(place)? ^= change;
        if reading == Reading::Unsound {
            return Some(false);
        }
    }
    Some(true)
}

// The first place at which a change isn't read soundly.
fn unsound_change(alloc: Global, grid: Size, bytes: &[u8]) -> Option<Option<usize>> {
    let mut changed = bytes.to_vec(alloc).ok()?;
    for place in 0..bytes.len() {
        if !changes_are_sound(alloc, grid, &mut changed, place)? {
            return Some(Some(place));
        }
    }
    Some(None)
}

/// What is told of a world's bytes.
pub fn told(alloc: Global, grid: Size, bytes: &[u8]) -> Option<String> {
    let count = bytes.len();
    if !is_read_back(alloc, grid, bytes)? {
        return format!(in alloc; "{count} bytes are not read back").ok();
    }
    if let Some(end) = unseen_cut(alloc, grid, bytes) {
        return format!(in alloc; "{count} bytes cut at {end} are not refused there").ok();
    }
    if let Some(place) = unsound_change(alloc, grid, bytes)? {
        return format!(in alloc; "{count} bytes changed at {place} are not sound").ok();
    }
    format!(in alloc; "{count} bytes, sound").ok()
}
