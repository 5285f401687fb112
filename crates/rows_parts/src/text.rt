//! Texts as rows write them.

use std::alloc::Global;
use tks_text::{ScriptFault, Txt};

// The byte that stands for another in a row: `~` for a newline, `^` for a tab.
fn meant(byte: u8) -> u8 {
    match byte {
        b'~' => b'\n',
        b'^' => b'\t',
        _ => byte,
    }
}

/// The text that a row writes with `~` and `^`.
pub fn decoded(alloc: Global, row: &str) -> Option<Txt> {
    let mut text = Txt::new(alloc);
    for byte in row.as_bytes() {
        text.push(meant(*byte)).ok()?;
    }
    Some(text)
}

/// Adds a text, as rows write it.
pub fn push_encoded(shown: &mut String, text: &Txt) -> Option<()> {
    for byte in text.as_bytes() {
        let sign = match *byte {
            b'\n' => '~',
            b'\t' => '^',
            byte => byte as char,
        };
        shown.push(sign).ok()?;
    }
    Some(())
}

/// Adds a text as it is.
pub fn push_text(shown: &mut String, text: &Txt) -> Option<()> {
    for byte in text.as_bytes() {
        shown.push(*byte as char).ok()?;
    }
    Some(())
}

/// Adds a fault's text.
pub fn push_fault(alloc: Global, shown: &mut String, fault: &ScriptFault) -> Option<()> {
    push_text(shown, &fault.text(alloc).ok()?)
}
