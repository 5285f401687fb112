//! Options of classes.
//!
//! `new CLASS` makes the options of a window of the path `.f.w`, and is repeated, as is a remark behind `#`. A line that
//! begins with the path is the words of a command, a list: `configure` or `cget`. It is answered by what that answers,
//! or by an error's text.

use crate::text::{push_fault, push_text};
use std::alloc::Global;
use tks_list::split;
use tks_opt::{Options, Said};
use tks_text::{Class, Failure, Txt};

fn class_named(name: &str) -> Option<Class> {
    match name {
        "root" => Some(Class::Root),
        "frame" => Some(Class::Frame),
        "label" => Some(Class::Label),
        "button" => Some(Class::Button),
        "checkbutton" => Some(Class::Checkbutton),
        "entry" => Some(Class::Entry),
        "listbox" => Some(Class::Listbox),
        "text" => Some(Class::Text),
        _ => None,
    }
}

/// The options that a class has at first.
pub fn first(alloc: Global, class: &str) -> Option<Options> {
    let path = Txt::from_bytes(alloc, b".f.w").ok()?;
    Options::new(alloc, class_named(class)?, &path).ok()
}

// What the words of a command are answered by.
fn answer(alloc: Global, options: &mut Options, line: &str) -> Option<String> {
    let words = split(alloc, &Txt::from_bytes(alloc, line.as_bytes()).ok()?).ok()?;
    let mut shown = String::new(alloc);
    match options.call(words.as_slice()) {
        Ok(Said::Text(text)) => push_text(&mut shown, &text)?,
        Ok(Said::Run(_)) => return None,
        Err(Failure::Script(fault)) => push_fault(alloc, &mut shown, &fault)?,
        Err(Failure::NoMemory) => return None,
    }
    Some(shown)
}

/// What a row is answered by.
pub fn shown(alloc: Global, options: &mut Options, row: &str) -> Option<String> {
    if let Some(class) = row.strip_prefix("new ") {
        *options = first(alloc, class)?;
    }
    if row.starts_with('.') {
        answer(alloc, options, row)
    } else {
        row.to_string(alloc).ok()
    }
}
