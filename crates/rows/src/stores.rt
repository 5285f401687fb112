//! Sessions on a store whose bytes are given, and what each of them makes of its sides.

use crate::crashes::BETWEEN;
use crate::setup::{Setup, answered};
use crate::worlds::put_hex;
use std::alloc::Global;
use tks_app::AppBody;
use tks_disk::{Disk, MemoryDisk, Side};

/// How many bytes a side's gate, format and generation have.
const FRONT: usize = 10;

// The bytes that lines of hex tell.
fn bytes_in(alloc: Global, hex: &str) -> Option<Vec<u8>> {
    let mut bytes = Vec::new(alloc);
    let mut high = None;
    for sign in hex.as_bytes() {
        if *sign == b'\n' {
            continue;
        }
        let digit = ((*sign as char).to_digit(16)? % 16) as u8;
        high = match high {
            Some(high) => {
                bytes.push((high << 4) | digit).ok()?;
                None
            }
            None => Some(digit),
        };
    }
    Some(bytes)
}

// The bytes of a side.
fn bytes_of(alloc: Global, disk: &mut MemoryDisk, side: Side) -> Option<Vec<u8>> {
    let length = disk.len(side).ok()?;
    let mut bytes = Vec::new(alloc);
    bytes.resize(length, 0).ok()?;
    let _read = disk.read_at(side, 0, &mut bytes).ok()?;
    Some(bytes)
}

// A disk with these bytes on its sides.
fn disk_with(alloc: Global, a: &[u8], b: &[u8]) -> Option<MemoryDisk> {
    let mut disk = MemoryDisk::new(alloc);
    disk.write_at(Side::A, 0, a).ok()?;
    disk.write_at(Side::B, 0, b).ok()?;
    Some(disk)
}

// Adds what became of a side.
fn put_change(name: &str, before: &[u8], now: &[u8], written: &mut Vec<u8>) -> Option<()> {
    written.extend_from_slice(name.as_bytes()).ok()?;
    if before == now {
        return written.extend_from_slice(b" same\n").ok();
    }
    let (_gate, front) = before.split_last().unwrap_or((&0, b""));
    match now.strip_prefix(front) {
        Some(more) if !front.is_empty() => {
            written.extend_from_slice(b" more ").ok()?;
            put_hex(more, written)
        }
        _ => {
            written.extend_from_slice(b" front ").ok()?;
            put_hex(now.split_at_checked(FRONT)?.0, written)
        }
    }
}

/// Adds what sessions answer that are opened on a store one behind the other, and what becomes of its sides.
pub fn put_stored<B: AppBody>(
    alloc: Global,
    setup: Setup<B>,
    lines: &str,
    written: &mut Vec<u8>,
) -> Option<()> {
    let (a, rest) = lines.split_once(BETWEEN)?;
    let (b, rest) = rest.split_once(BETWEEN)?;
    let mut a = bytes_in(alloc, a)?;
    let mut b = bytes_in(alloc, b)?;
    let mut disk = disk_with(alloc, a.as_slice(), b.as_slice())?;
    let mut setup = setup;
    for session in rest.split(BETWEEN) {
        let (_, left, back) = answered(alloc, disk, setup, session, written);
        (disk, setup) = (left, back);
        let now = bytes_of(alloc, &mut disk, Side::A)?;
        put_change("a", a.as_slice(), now.as_slice(), written)?;
        a = now;
        let now = bytes_of(alloc, &mut disk, Side::B)?;
        put_change("b", b.as_slice(), now.as_slice(), written)?;
        b = now;
    }
    Some(())
}
