//! Rows of what no line of the program shows: reads a row a line, and writes a line for each.
//!
//! Most rows are a kind, a space and a text: `script`, the tree that the text spells; `expr`, the tree of an expression;
//! `vars`, a call on variables, which go from row to row; `bind`, the sequence of events that the text spells; `generate`, the
//! one pattern of an event; `key`, the character of a keysym; `layout`, a container with its windows (`layout.rt`). All other
//! rows are of options (`options.rt`).
#![tactic(auto)]

mod events;
mod expressions;
mod layout;
mod options;
mod scripts;
mod text;
mod variables;

use std::alloc::Global;
use std::io;
use tks_opt::Options;
use variables::Calls;

// What is shown of a row, or nothing where memory is wanting.
fn shown(alloc: Global, calls: &mut Calls, options: &mut Options, row: &str) -> Option<String> {
    match row.split_once(' ') {
        Some(("script", text)) => scripts::shown(alloc, text),
        Some(("expr", text)) => expressions::shown(alloc, text),
        Some(("vars", text)) => calls.shown(alloc, text),
        Some(("bind", text)) => events::sequence(alloc, text),
        Some(("generate", text)) => events::pattern(alloc, text),
        Some(("key", text)) => events::character(alloc, text),
        Some(("layout", text)) => layout::shown(alloc, text),
        _ => options::shown(alloc, options, row),
    }
}

// Writes what is shown of each row.
fn answer(rt: &HostRuntime, calls: &mut Calls, options: &mut Options) -> io::Result<()> {
    for row in rt.lines(rt.alloc()) {
        let row = row?;
        match shown(rt.alloc(), calls, options, row.as_str()) {
            Some(text) => println!(rt; "{text}")?,
            None => println!(rt; "no answer")?,
        }
    }
    Ok(())
}

fn main(rt: HostRuntime) -> io::Result<()> {
    let mut calls = Calls::new(rt.alloc());
    match options::first(rt.alloc(), "frame") {
        Some(mut options) => answer(&rt, &mut calls, &mut options),
        None => println!(rt; "no options"),
    }
}
