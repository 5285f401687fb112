//! A text widget as plain lists: each character by itself, with a flag for each tag.

use std::alloc::Global;

/// A tag, with whether it is on each of the characters.
#[derive(Drop)]
pub struct PlainTag {
    pub name: u8,
    pub on: Vec<bool>,
}

/// A mark; `i` stands for `insert`.
#[derive(Clone, Copy)]
pub struct PlainMark {
    pub name: u8,
    pub place: usize,
    pub left: bool,
}

/// The characters but the last newline, the tags, and the marks.
#[derive(Drop)]
pub struct PlainLines {
    alloc: Global,
    pub chars: Vec<u8>,
    pub tags: Vec<PlainTag>,
    pub marks: Vec<PlainMark>,
}

fn put_flags(flags: &mut Vec<bool>, place: usize, count: usize, value: bool) -> Option<()> {
    for _ in 0..count {
        let at = place.min(flags.len());
        flags.insert(at, value).ok()?;
    }
    Some(())
}

fn put_bytes(bytes: &mut Vec<u8>, place: usize, more: &[u8]) -> Option<()> {
    let mut next = place;
    for byte in more {
        let at = next.min(bytes.len());
        bytes.insert(at, *byte).ok()?;
        next = next.saturating_add(1);
    }
    Some(())
}

fn take_flags(flags: &mut Vec<bool>, first: usize, last: usize) {
    for _ in first..last.min(flags.len()) {
        if first < flags.len() {
            flags.remove(first);
        }
    }
}

fn take_bytes(bytes: &mut Vec<u8>, first: usize, last: usize) {
    for _ in first..last.min(bytes.len()) {
        if first < bytes.len() {
            bytes.remove(first);
        }
    }
}

fn set_flags(flags: &mut Vec<bool>, first: usize, last: usize, value: bool) {
    for place in first..last.min(flags.len()) {
        if let Some(flag) = flags.get_mut(place) {
            *flag = value;
        }
    }
}

/// Whether the flag of a place is on; behind the last one none is.
pub fn is_on(flags: &[bool], place: usize) -> bool {
    match flags.get(place) {
        Some(flag) => *flag,
        None => false,
    }
}

fn is_around(flags: &[bool], place: usize) -> bool {
    place != 0 && is_on(flags, place - 1) && is_on(flags, place)
}

impl PlainLines {
    /// No characters, no tags, and the mark `insert`.
    pub fn new(alloc: Global) -> Option<PlainLines> {
        let mut marks = Vec::new(alloc);
        let insert = PlainMark {
            name: b'i',
            place: 0,
            left: false,
        };
        marks.push(insert).ok()?;
        Some(PlainLines {
            alloc,
            chars: Vec::new(alloc),
            tags: Vec::new(alloc),
            marks,
        })
    }

    fn make_tag(&mut self, name: u8) -> Option<()> {
        for tag in &self.tags {
            if tag.name == name {
                return Some(());
            }
        }
        let mut on = Vec::new(self.alloc);
        put_flags(&mut on, 0, self.chars.len(), false)?;
        self.tags.push(PlainTag { name, on }).ok()
    }

    fn put_chars(&mut self, place: usize, more: &[u8]) -> Option<()> {
        for mark in &mut self.marks {
            if place < mark.place || (place == mark.place && !mark.left) {
                mark.place = mark.place.saturating_add(more.len());
            }
        }
        put_bytes(&mut self.chars, place, more)
    }

    /// Characters come in, with the tags on both sides.
    pub fn insert(&mut self, place: usize, more: &[u8]) -> Option<()> {
        let place = place.min(self.chars.len());
        for tag in &mut self.tags {
            let value = is_around(&tag.on, place);
            put_flags(&mut tag.on, place, more.len(), value)?;
        }
        self.put_chars(place, more)
    }

    /// Characters come in, with these tags.
    pub fn insert_with(&mut self, place: usize, more: &[u8], names: &[u8]) -> Option<()> {
        let place = place.min(self.chars.len());
        for name in names {
            self.make_tag(*name)?;
        }
        for tag in &mut self.tags {
            let value = names.contains(&tag.name);
            put_flags(&mut tag.on, place, more.len(), value)?;
        }
        self.put_chars(place, more)
    }

    /// The characters between two places go out.
    pub fn delete(&mut self, first: usize, last: usize) {
        let last = last.min(self.chars.len());
        for tag in &mut self.tags {
            take_flags(&mut tag.on, first, last);
        }
        for mark in &mut self.marks {
            if first < mark.place {
                mark.place = if mark.place < last {
                    first
                } else {
                    mark.place.saturating_sub(last.saturating_sub(first))
                };
            }
        }
        take_bytes(&mut self.chars, first, last);
    }

    /// A tag is put on the characters between two places.
    pub fn put_tag(&mut self, name: u8, first: usize, last: usize) -> Option<()> {
        self.make_tag(name)?;
        self.set_tag(name, first, last, true);
        Some(())
    }

    /// A tag is put on the characters between two places, or taken off them, where there is one of the name.
    pub fn set_tag(&mut self, name: u8, first: usize, last: usize, value: bool) {
        for tag in &mut self.tags {
            if tag.name == name {
                set_flags(&mut tag.on, first, last, value);
            }
        }
    }

    pub fn delete_tag(&mut self, name: u8) {
        self.tags.retain(|tag| tag.name != name);
    }

    pub fn set_mark(&mut self, name: u8, place: usize) -> Option<()> {
        let place = place.min(self.chars.len());
        for mark in &mut self.marks {
            if mark.name == name {
                mark.place = place;
                return Some(());
            }
        }
        let mark = PlainMark {
            name,
            place,
            left: false,
        };
        self.marks.push(mark).ok()
    }

    pub fn unset_mark(&mut self, name: u8) {
        self.marks
            .retain(|mark| mark.name == b'i' || mark.name != name);
    }

    /// Whether there was a mark of the name, which now has this gravity.
    pub fn turn_mark(&mut self, name: u8, left: bool) -> bool {
        for mark in &mut self.marks {
            if mark.name == name {
                mark.left = left;
                return true;
            }
        }
        false
    }
}
