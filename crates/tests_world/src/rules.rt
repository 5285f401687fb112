//! By which rules a world goes, as its last byte tells, in a side of either format.

use crate::worlds::first_world;
use std::alloc::Global;
use tks_codec::{CodecFault, Format, read_world, write_world};
use tks_state::Rules;
use tks_world::World;

// The world's bytes.
fn bytes_of(alloc: Global, world: &World) -> Option<Vec<u8>> {
    let mut bytes = Vec::new(alloc);
    write_world(alloc, world, &mut bytes).ok()?;
    Some(bytes)
}

// The first world's bytes with another last byte.
fn ending_in(alloc: Global, last: u8) -> Option<Vec<u8>> {
    let mut bytes = bytes_of(alloc, &first_world(alloc, 20, 3)?)?;
    bytes.pop()?;
    bytes.push(last).ok()?;
    Some(bytes)
}

// Whether bytes are a world that goes by these rules, and is written as they are.
fn is_by(alloc: Global, format: Format, rules: Rules, bytes: &[u8]) -> Option<bool> {
    let grid = first_world(alloc, 20, 3)?.grid();
    let (world, length) = read_world(alloc, format, grid, bytes).ok()?;
    let again = bytes_of(alloc, &world)?;
    Some(world.rules() == rules && length == bytes.len() && again.as_slice() == bytes)
}

// Whether the last byte is at fault.
fn is_refused(alloc: Global, format: Format, bytes: &[u8]) -> Option<bool> {
    let grid = first_world(alloc, 20, 3)?.grid();
    match read_world(alloc, format, grid, bytes) {
        Err(CodecFault::Bad(place)) => Some(place + 1 == bytes.len()),
        _ => Some(false),
    }
}

// Whether a world goes by these rules in a side of the format, where it does by any, and is refused else.
fn is_so(alloc: Global, format: Format, last: u8, rules: Option<Rules>) -> Option<bool> {
    let bytes = ending_in(alloc, last)?;
    match rules {
        Some(rules) => is_by(alloc, format, rules, bytes.as_slice()),
        None => is_refused(alloc, format, bytes.as_slice()),
    }
}

#[test]
fn the_first_format_has_the_first_rules_alone(rt: HostRuntime) {
    let alloc = rt.alloc();
    assert!(rt; is_so(alloc, Format::One, 1, Some(Rules::One)) == Some(true));
    assert!(rt; is_so(alloc, Format::One, 2, None) == Some(true));
    assert!(rt; is_so(alloc, Format::One, 0, None) == Some(true));
}

#[test]
fn the_second_format_has_both(rt: HostRuntime) {
    let alloc = rt.alloc();
    assert!(rt; is_so(alloc, Format::Two, 1, Some(Rules::One)) == Some(true));
    assert!(rt; is_so(alloc, Format::Two, 2, Some(Rules::Two)) == Some(true));
    assert!(rt; is_so(alloc, Format::Two, 0, None) == Some(true));
    assert!(rt; is_so(alloc, Format::Two, 3, None) == Some(true));
}
