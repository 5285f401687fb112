//! What texts spell of events.

use crate::text::{push_fault, push_text};
use std::alloc::Global;
use tks_event::{Repeated, is_keysym, keysym_char, parse_pattern, parse_sequence};
use tks_text::{Failure, Txt};

// The text of a fault.
fn fault(alloc: Global, failure: &Failure) -> Option<String> {
    let mut shown = String::new(alloc);
    match failure {
        Failure::Script(fault) => push_fault(alloc, &mut shown, fault)?,
        Failure::NoMemory => return None,
    }
    Some(shown)
}

// The text as rows show it.
fn plain(alloc: Global, text: &Txt) -> Option<String> {
    let mut shown = String::new(alloc);
    push_text(&mut shown, text)?;
    Some(shown)
}

/// The canonical spelling of the sequence that a row's text spells, or its fault's text.
pub fn sequence(alloc: Global, row: &str) -> Option<String> {
    match parse_sequence(alloc, &Txt::from_bytes(alloc, row.as_bytes()).ok()?) {
        Ok(sequence) => plain(alloc, &sequence.canonical(alloc).ok()?),
        Err(failure) => fault(alloc, &failure),
    }
}

// How often a pattern comes, and its fields.
fn fields(alloc: Global, found: &Repeated) -> Option<String> {
    let times = found.times;
    let kind = found.pattern.kind;
    let bits = found.pattern.modifiers.bits();
    let mut shown = format!(in alloc; "{times} {kind:?} {bits} ").ok()?;
    push_text(&mut shown, &found.pattern.detail)?;
    Some(shown)
}

/// How often the pattern that a row's text spells alone comes, and its fields; or its fault's text.
pub fn pattern(alloc: Global, row: &str) -> Option<String> {
    match parse_pattern(alloc, &Txt::from_bytes(alloc, row.as_bytes()).ok()?) {
        Ok(found) => fields(alloc, &found),
        Err(failure) => fault(alloc, &failure),
    }
}

/// The character of the keysym that a row's text is.
pub fn character(alloc: Global, row: &str) -> Option<String> {
    if !is_keysym(row.as_bytes()) {
        return "no keysym".to_string(alloc).ok();
    }
    match keysym_char(&Txt::from_bytes(alloc, row.as_bytes()).ok()?) {
        Some(character) => format!(in alloc; "{character}").ok(),
        None => "none".to_string(alloc).ok(),
    }
}
