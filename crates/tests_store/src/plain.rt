//! What two sides hold, as a plain program reads it.

use std::alloc::Global;

fn number(bytes: &[u8]) -> u64 {
    let mut n: u64 = 0;
    for byte in bytes {
        n = n.wrapping_mul(256).wrapping_add(*byte as u64);
    }
    n
}

// So many bytes at the front, and the rest.
fn taken(bytes: &[u8], count: u64) -> Option<(&[u8], &[u8])> {
    bytes.split_at_checked(count as usize)
}

// What stands behind a list of names.
fn behind_names(bytes: &[u8]) -> Option<&[u8]> {
    let (count, rest) = taken(bytes, 4)?;
    let mut rest = rest;
    for _ in 0..number(count) {
        let (size, more) = taken(rest, 4)?;
        let (_, behind) = taken(more, number(size))?;
        rest = behind;
    }
    Some(rest)
}

// What the front of an open side tells, and what stands behind its header.
#[derive(Clone, Copy)]
struct Head<'a> {
    format: u8,
    generation: u64,
    world_length: u64,
    rest: &'a [u8],
}

fn read_head(bytes: &[u8]) -> Option<Head<'_>> {
    let format = *bytes.get(1)?;
    let (_, rest) = taken(bytes, 2)?;
    let (generation, rest) = taken(rest, 8)?;
    let (_, rest) = taken(rest, 4)?;
    let rest = behind_names(rest)?;
    let (world_length, rest) = taken(rest, 8)?;
    Some(Head {
        format,
        generation: number(generation),
        world_length: number(world_length),
        rest,
    })
}

// Adds the bodies of the frames from this gate on, each behind a byte 255. None where one is cut.
fn add_frames(text: &mut Vec<u8>, bytes: &[u8]) -> Option<bool> {
    let mut rest = bytes;
    for _ in 0..bytes.len() {
        let (gate, behind) = taken(rest, 1)?;
        if gate != [1].as_slice() {
            return Some(true);
        }
        let (size, behind) = taken(behind, 4)?;
        let (body, behind) = taken(behind, number(size))?;
        text.push(255).ok()?;
        text.extend_from_slice(body).ok()?;
        rest = behind;
    }
    None
}

// The text of a live side.
fn live_text(alloc: Global, side: Head) -> Option<Vec<u8>> {
    let mut text = Vec::new(alloc);
    text.push((side.generation % 256) as u8).ok()?;
    text.push(side.format).ok()?;
    let Some((world, frames)) = taken(side.rest, side.world_length) else {
        return b"damaged".to_vec(alloc).ok();
    };
    text.extend_from_slice(world).ok()?;
    if add_frames(&mut text, frames) == Some(true) {
        Some(text)
    } else {
        b"damaged".to_vec(alloc).ok()
    }
}

fn is_open(side: &[u8]) -> bool {
    side.len() >= 2 && side.first() == Some(&1)
}

fn is_unknown(side: &[u8]) -> bool {
    is_open(side) && !matches!(side.get(1), Some(&1) | Some(&2))
}

/// What two sides hold, as a text: the generation and the format as bytes, the world, and each frame behind a byte 255; or a word.
/// None where memory is refused.
pub fn plain_text(alloc: Global, a: &[u8], b: &[u8]) -> Option<Vec<u8>> {
    if is_unknown(a) || is_unknown(b) {
        return b"unknown".to_vec(alloc).ok();
    }
    match (is_open(a), is_open(b)) {
        (false, false) => b"nothing".to_vec(alloc).ok(),
        (true, false) => one_text(alloc, read_head(a)),
        (false, true) => one_text(alloc, read_head(b)),
        (true, true) => both_text(alloc, read_head(a), read_head(b)),
    }
}

fn is_given(generation: u64) -> bool {
    1 <= generation && generation <= 1 << 62
}

fn one_text(alloc: Global, side: Option<Head>) -> Option<Vec<u8>> {
    match side {
        Some(side) if is_given(side.generation) => live_text(alloc, side),
        _ => b"damaged".to_vec(alloc).ok(),
    }
}

// Whether two sides can be told apart.
fn differ(a: &Head, b: &Head) -> bool {
    is_given(a.generation) && is_given(b.generation) && a.generation != b.generation
}

fn both_text(alloc: Global, a: Option<Head>, b: Option<Head>) -> Option<Vec<u8>> {
    match (a, b) {
        (Some(a), Some(b)) if differ(&a, &b) => {
            live_text(alloc, if b.generation < a.generation { a } else { b })
        }
        _ => b"damaged".to_vec(alloc).ok(),
    }
}
