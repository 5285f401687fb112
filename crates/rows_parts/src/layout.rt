//! Layouts by the packer. Numbers are written in base 36. A row has the container's width and height, of
//! two digits each, or `----` where it is as large as it asks to be; then each window as ten characters:
//! its requested width and height; its side by its first letter; -fill by its first letter; -expand;
//! -anchor by where it is among the keys 1 to 9 (7 is nw, 3 is se); -padx, -pady, -ipadx and -ipady, with
//! `.` for an option that isn't given. It is answered by what the container asks for, and each window's x,
//! y, width and height, of two digits each, or `-` where it isn't mapped.

use std::alloc::Global;
use std::char::from_digit;
use std::str::Bytes;
use tks_pack::{Area, Extent, Packing, Requests};
use tks_text::Txt;
use tks_tree::WindowId;

const OPTIONS: &[&str] = &[
    "-side", "-fill", "-expand", "-anchor", "-padx", "-pady", "-ipadx", "-ipady",
];

// Requested sizes by the windows' numbers.
#[derive(Drop)]
struct Sizes {
    sizes: Vec<Extent>,
}

impl Requests for Sizes {
    ghost use Rattle.std.specs.Prelude.{slice_index_or};

    ghost size = { λ s w. slice_index_or s.sizes.items w (record { width = 0; height = 0 }) };

    fn requested(&self, window: WindowId) -> Extent {
        let nothing = Extent {
            width: 0,
            height: 0,
        };
        match self.sizes.get(window.number() as usize) {
            Some(size) => *size,
            None => nothing,
        }
    }
}

// The next character as a digit of base 36.
fn digit(word: &mut Bytes) -> Option<u32> {
    (word.next()? as char).to_digit(36)
}

// The next two characters as a number.
fn number(word: &mut Bytes) -> Option<u32> {
    let high = digit(word)?;
    let low = digit(word)?;
    high.checked_mul(36)?.checked_add(low)
}

fn side_word(character: u8) -> &'static str {
    match character {
        b't' => "top",
        b'b' => "bottom",
        b'l' => "left",
        _ => "right",
    }
}

fn fill_word(character: u8) -> &'static str {
    match character {
        b'n' => "none",
        b'x' => "x",
        b'y' => "y",
        _ => "both",
    }
}

// By the keys of a number pad.
fn anchor_word(character: u8) -> &'static str {
    match character {
        b'1' => "sw",
        b'2' => "s",
        b'3' => "se",
        b'4' => "w",
        b'5' => "center",
        b'6' => "e",
        b'7' => "nw",
        b'8' => "n",
        _ => "ne",
    }
}

// The value of an option by its character.
fn value(alloc: Global, option: &str, character: u8) -> Option<Txt> {
    let word = match option {
        "-side" => side_word(character),
        "-fill" => fill_word(character),
        "-anchor" => anchor_word(character),
        _ => return Txt::from_bytes(alloc, &[character]).ok(),
    };
    Txt::from_bytes(alloc, word.as_bytes()).ok()
}

// The options that a word of a row gives.
fn options(alloc: Global, word: &mut Bytes) -> Option<Vec<Txt>> {
    let mut options = Vec::new(alloc);
    for option in OPTIONS {
        let character = word.next()?;
        if character != b'.' {
            options
                .push(Txt::from_bytes(alloc, option.as_bytes()).ok()?)
                .ok()?;
            options.push(value(alloc, option, character)?).ok()?;
        }
    }
    Some(options)
}

// Packs a window as a word of a row has it, and gives its size.
fn packed(alloc: Global, packing: &mut Packing, window: WindowId, word: &str) -> Option<Extent> {
    let mut word = word.bytes();
    let width = digit(&mut word)?;
    let height = digit(&mut word)?;
    packing.pack(window, &options(alloc, &mut word)?).ok()?;
    Some(Extent { width, height })
}

// The size of the container that a word of a row gives; without one, the container is as large as it asks
// to be. One that doesn't go by its windows asks for nothing.
fn container(packing: &mut Packing, sizes: &Sizes, request: Extent, word: &str) -> Option<Extent> {
    if word == "----" {
        return Some(request);
    }
    packing.set_propagates(false);
    if packing.requested(sizes).is_some() {
        return None;
    }
    let mut word = word.bytes();
    let width = number(&mut word)?;
    let height = number(&mut word)?;
    Some(Extent { width, height })
}

// Adds a number to a row, as two digits of base 36.
fn put_number(row: &mut String, number: u32) -> Option<()> {
    row.push(from_digit(number / 36, 36)?).ok()?;
    row.push(from_digit(number % 36, 36)?).ok()
}

// Adds a window's cells to a row, or `-` where it isn't mapped.
fn put_area(row: &mut String, area: Option<Area>) -> Option<()> {
    row.push(' ').ok()?;
    let Some(area) = area else {
        return row.push('-').ok();
    };
    put_number(row, area.x)?;
    put_number(row, area.y)?;
    put_number(row, area.width)?;
    put_number(row, area.height)
}

/// What comes of the layout of a row.
pub fn shown(alloc: Global, layout: &str) -> Option<String> {
    let mut words = layout.split(' ');
    let first = words.next()?;
    let mut packing = Packing::new(alloc);
    let mut sizes = Vec::new(alloc);
    sizes
        .push(Extent {
            width: 0,
            height: 0,
        })
        .ok()?;
    for word in words {
        let window = WindowId::of(sizes.len() as u64);
        sizes.push(packed(alloc, &mut packing, window, word)?).ok()?;
    }
    let sizes = Sizes { sizes };
    let request = packing.requested(&sizes)?;
    let mut shown = String::new(alloc);
    put_number(&mut shown, request.width)?;
    put_number(&mut shown, request.height)?;
    let container = container(&mut packing, &sizes, request, first)?;
    for area in packing.place(&sizes, container).ok()? {
        put_area(&mut shown, area)?;
    }
    Some(shown)
}
