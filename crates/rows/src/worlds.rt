//! Worlds as bytes: those of a world, and whether they are sound.

use crate::{damage, sound};
use std::alloc::Global;
use tests_disk::Dice;
use tks_codec::write_world;
use tks_state::World;
use tks_text::Size;

/// How many bytes a line of hex has.
const WIDTH: usize = 32;

/// How many damaged spellings are wanted of each world, and the seed that they are drawn by.
#[derive(Drop)]
pub struct Task {
    pub count: u64,
    pub seed: u64,
}

/// A world's bytes.
pub fn spelled(alloc: Global, world: &World) -> Option<Vec<u8>> {
    let mut bytes = Vec::new(alloc);
    write_world(alloc, world, &mut bytes).ok()?;
    Some(bytes)
}

/// Adds bytes in hex, in lines.
pub fn put_hex(bytes: &[u8], written: &mut Vec<u8>) -> Option<()> {
    const DIGITS: [u8; 16] = *b"0123456789abcdef";
    for (place, byte) in bytes.iter().enumerate() {
        if place > 0 && place % WIDTH == 0 {
            written.push(b'\n').ok()?;
        }
        written.push(DIGITS[usize::from(*byte >> 4)]).ok()?;
        written.push(DIGITS[usize::from(*byte & 15)]).ok()?;
    }
    written.push(b'\n').ok()
}

// What is told of a world's bytes.
fn told(alloc: Global, grid: Size, bytes: &[u8], task: &Option<Task>) -> Option<String> {
    match task {
        Some(task) => damage::told(alloc, grid, bytes, task.count, Dice::new(task.seed)),
        None => sound::told(alloc, grid, bytes),
    }
}

/// Adds a world's bytes, and what is told of them.
pub fn put_world(
    alloc: Global,
    world: &World,
    task: &Option<Task>,
    written: &mut Vec<u8>,
) -> Option<()> {
    let bytes = spelled(alloc, world)?;
    put_hex(bytes.as_slice(), written)?;
    let told = told(alloc, world.grid(), bytes.as_slice(), task)?;
    written.extend_from_slice(told.as_bytes()).ok()?;
    written.push(b'\n').ok()
}
