//! What scripts are read as.

use crate::text::{decoded, push_encoded, push_fault};
use std::alloc::Global;
use tks_parse::{Command, Part, Script, parse};

// Adds the value of parts: a variable's is `<name>` or `<name(index)>`, and a script's is `r`. The commands in
// brackets are shown before. What lies deeper than `depth` scripts and indexes is left out.
#[cycle(show)]
fn show_parts(
    alloc: Global,
    shown: &mut String,
    value: &mut String,
    parts: &[Part],
    depth: u32,
) -> Option<()> {
    for part in parts {
        match part {
            Part::Text(text) => push_encoded(value, text)?,
            Part::Variable(name, index) => {
                value.push('<').ok()?;
                push_encoded(value, name)?;
                if let Some(index) = index {
                    value.push('(').ok()?;
                    if depth > 0 {
                        show_parts(alloc, shown, value, index.as_slice(), depth - 1)?;
                    }
                    value.push(')').ok()?;
                }
                value.push('>').ok()?;
            }
            Part::Nested(script) => {
                if depth > 0 {
                    show_script(alloc, shown, script, depth - 1)?;
                }
                if !script.contents().0.is_empty() {
                    value.push('r').ok()?;
                }
            }
        }
    }
    Some(())
}

// Adds a command: each word behind a bar, and a bar at the end. A `*` stands before a word that is split.
#[cycle(show)]
fn show_command(alloc: Global, shown: &mut String, command: &Command, depth: u32) -> Option<()> {
    let mut words = String::new(alloc);
    match command {
        Command::Ready(texts) => {
            for text in texts.as_ref() {
                words.push('|').ok()?;
                push_encoded(&mut words, text)?;
            }
        }
        Command::Made(made) => {
            for word in made.as_ref() {
                words.push('|').ok()?;
                if word.expand {
                    words.push('*').ok()?;
                }
                show_parts(alloc, shown, &mut words, word.parts.as_slice(), depth)?;
            }
        }
    }
    shown.push_str(&words).ok()?;
    shown.push('|').ok()
}

// Adds a script: its commands, and its fault's text.
#[cycle(show)]
fn show_script(alloc: Global, shown: &mut String, script: &Script, depth: u32) -> Option<()> {
    let (commands, fault) = script.contents();
    for command in commands {
        show_command(alloc, shown, command, depth)?;
    }
    match fault {
        Some(fault) => push_fault(alloc, shown, fault),
        None => Some(()),
    }
}

/// The script that a row's text spells.
pub fn shown(alloc: Global, row: &str) -> Option<String> {
    let mut shown = String::new(alloc);
    let script = parse(alloc, &decoded(alloc, row)?).ok()?;
    show_script(alloc, &mut shown, &script, 40)?;
    Some(shown)
}
