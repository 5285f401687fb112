//! A listbox as a plain list, and random commands given to both.

use crate::texts::text;
use std::alloc::Global;
use tests_disk::Dice;
use tks_list::split;
use tks_listbox::{ListWidget, Subcommand};
use tks_opt::Said;
use tks_text::Txt;

/// An item of one letter.
#[derive(Clone, Copy)]
pub struct PlainItem {
    pub letter: u8,
    pub is_selected: bool,
}

/// Items, and the place of the active one.
#[derive(Drop)]
pub struct PlainItems {
    pub items: Vec<PlainItem>,
    pub active: usize,
}

impl PlainItems {
    pub fn new(alloc: Global) -> PlainItems {
        PlainItems {
            items: Vec::new(alloc),
            active: 0,
        }
    }

    /// Items of these letters come in before one.
    pub fn insert(&mut self, place: usize, letters: &[u8]) -> Option<()> {
        let place = place.min(self.items.len());
        if !self.items.is_empty() && place <= self.active {
            self.active = self.active.saturating_add(letters.len());
        }
        let mut next = place;
        for letter in letters {
            let item = PlainItem {
                letter: *letter,
                is_selected: false,
            };
            let at = next.min(self.items.len());
            self.items.insert(at, item).ok()?;
            next = next.saturating_add(1);
        }
        Some(())
    }

    /// The items from one place to another go out.
    pub fn delete(&mut self, first: usize, last: usize) {
        for _ in first..=last {
            if first < self.items.len() {
                self.items.remove(first);
                if first < self.active {
                    self.active = self.active.saturating_sub(1);
                }
            }
        }
        self.active = self.active.min(self.items.len().saturating_sub(1));
    }

    /// The items between two places are selected, or taken out of the selection.
    pub fn select(&mut self, on: bool, one: usize, other: usize) {
        for place in one.min(other)..=one.max(other) {
            if let Some(item) = self.items.get_mut(place) {
                item.is_selected = on;
            }
        }
    }

    /// No item is selected any more.
    pub fn clear(&mut self) {
        let len = self.items.len();
        self.select(false, 0, len);
    }

    pub fn activate(&mut self, place: usize) {
        self.active = place.min(self.items.len().saturating_sub(1));
    }
}

// Whether a listbox answers the empty text to a command.
fn changes(alloc: Global, listbox: &mut ListWidget, command: &str) -> Option<bool> {
    let words = split(alloc, &text(alloc, command)?).ok()?;
    match listbox.call(words.as_slice()) {
        Ok(Said::Text(text)) => Some(text.is_empty()),
        _ => Some(false),
    }
}

// Whether words ask a listbox something that it answers, as it is, with this.
fn is_told(listbox: &ListWidget, words: &[Txt], expected: &[u8]) -> bool {
    match listbox.read(words) {
        Ok(Subcommand::Asks(question)) => match listbox.answer(question) {
            Ok(Said::Text(told)) => told.as_bytes() == expected,
            _ => false,
        },
        _ => false,
    }
}

// Whether both what it tells as it is and what it answers to a call are this.
fn tells(alloc: Global, listbox: &mut ListWidget, command: &str, expected: &[u8]) -> Option<bool> {
    let words = split(alloc, &text(alloc, command)?).ok()?;
    let told = is_told(listbox, words.as_slice(), expected);
    match listbox.call(words.as_slice()) {
        Ok(Said::Text(text)) => Some(told && text.as_bytes() == expected),
        _ => Some(false),
    }
}

fn any_letters(dice: &mut Dice) -> &'static str {
    match dice.roll(4) {
        0 => "a",
        1 => "b c",
        2 => "d",
        _ => "e f g",
    }
}

// Items come in before a place.
fn inserts(
    alloc: Global,
    listbox: &mut ListWidget,
    plain: &mut PlainItems,
    place: usize,
    dice: &mut Dice,
) -> Option<bool> {
    let letters = any_letters(dice);
    let mut bytes = Vec::new(alloc);
    for letter in letters.as_bytes() {
        if *letter != b' ' {
            bytes.push(*letter).ok()?;
        }
    }
    plain.insert(place, &bytes)?;
    let command = format!(in alloc; ".l insert {place} {letters}").ok()?;
    changes(alloc, listbox, command.as_str())
}

// A command on the items between two places.
fn between(
    alloc: Global,
    listbox: &mut ListWidget,
    plain: &mut PlainItems,
    one: usize,
    other: usize,
    dice: &mut Dice,
) -> Option<bool> {
    let command = match dice.roll(8) {
        0 | 1 => {
            plain.delete(one, other);
            format!(in alloc; ".l delete {one} {other}").ok()?
        }
        2 => {
            plain.activate(one);
            format!(in alloc; ".l activate {one}").ok()?
        }
        3 => {
            plain.select(false, one, other);
            format!(in alloc; ".l selection clear {one} {other}").ok()?
        }
        4 => {
            plain.clear();
            format!(in alloc; ".l selection clear 0 end").ok()?
        }
        5 => {
            plain.select(true, one, one);
            format!(in alloc; ".l selection set {one}").ok()?
        }
        _ => {
            plain.select(true, one, other);
            format!(in alloc; ".l selection set {one} {other}").ok()?
        }
    };
    changes(alloc, listbox, command.as_str())
}

// Whether both hold the same items, of which the same are selected, and the same one is active.
fn items_agree(listbox: &ListWidget, plain: &PlainItems) -> bool {
    let mut at = 0usize;
    for item in listbox.items().iter() {
        match plain.items.get(at) {
            Some(other) => {
                if item.text.as_bytes() != [other.letter].as_slice()
                    || item.is_selected != other.is_selected
                {
                    return false;
                }
            }
            None => return false,
        }
        at = at.saturating_add(1);
    }
    at == plain.items.len() && listbox.active() == plain.active
}

// Adds an element, with a space before it where it isn't the first one.
fn add(list: &mut Vec<u8>, element: &[u8]) -> Option<()> {
    if !list.is_empty() {
        list.push(b' ').ok()?;
    }
    list.extend_from_slice(element).ok()
}

// The places of selected items as a list.
fn selected(alloc: Global, plain: &PlainItems) -> Option<Vec<u8>> {
    let mut places = Vec::new(alloc);
    for (place, item) in plain.items.iter().enumerate() {
        if item.is_selected {
            let text = format!(in alloc; "{place}").ok()?;
            add(&mut places, text.as_bytes())?;
        }
    }
    Some(places)
}

// The letters from one place to another as a list.
fn letters(alloc: Global, plain: &PlainItems, first: usize, last: usize) -> Option<Vec<u8>> {
    let mut letters = Vec::new(alloc);
    for place in first..=last {
        if let Some(item) = plain.items.get(place) {
            add(&mut letters, &[item.letter])?;
        }
    }
    Some(letters)
}

/// Gives both a random command, and says whether they agree then.
pub fn items_command_agrees(
    alloc: Global,
    listbox: &mut ListWidget,
    plain: &mut PlainItems,
    dice: &mut Dice,
) -> Option<bool> {
    let len = plain.items.len().saturating_add(2);
    let (one, other) = (dice.roll(len), dice.roll(len));
    let changed = if dice.roll(3) == 0 {
        inserts(alloc, listbox, plain, one, dice)?
    } else {
        between(alloc, listbox, plain, one, other, dice)?
    };
    let chosen = selected(alloc, plain)?;
    let given = letters(alloc, plain, one, other)?;
    let command = format!(in alloc; ".l get {one} {other}").ok()?;
    let told = tells(alloc, listbox, ".l curselection", &chosen)?
        && tells(alloc, listbox, command.as_str(), &given)?;
    Some(changed && told && items_agree(listbox, plain))
}
