//! Windows made again of their places.
use std::alloc::Global;
use tks_codec_windows::{Place, placed};
use tks_pack::{Packing, Padding, Settings};
use tks_text::{Class, Seq, Txt};
use tks_tree::{Tree, WindowId};

// A place in which these windows are packed.
fn place(
    alloc: Global,
    number: u64,
    path: &[u8],
    contents: &[u64],
    packing: Option<Settings>,
) -> Option<Place> {
    let mut numbers = Seq::new(alloc);
    for number in contents {
        numbers.push(*number).ok()?;
    }
    let class = if number == 0 {
        Class::Root
    } else {
        Class::Frame
    };
    Some(Place {
        window: WindowId::of(number),
        path: Txt::from_bytes(alloc, path).ok()?,
        class,
        propagates: number == 0,
        contents: numbers,
        packing,
    })
}

// Settings with so much space at the left and at the right.
fn padded(padx: Padding) -> Settings {
    let mut settings = Settings::new();
    settings.padx = padx;
    settings
}

// `.`, in which a window is packed, and one with this number and path, packed so.
fn two(
    alloc: Global,
    packed: u64,
    number: u64,
    path: &[u8],
    packing: Option<Settings>,
) -> Option<Vec<Place>> {
    let mut places = Vec::new(alloc);
    places.push(place(alloc, 0, b".", &[packed], None)?).ok()?;
    places.push(place(alloc, number, path, &[], packing)?).ok()?;
    Some(places)
}

// Whether the window `.a` has the number 3, and stands in `.` with this padding.
fn is_packed(alloc: Global, tree: &Tree, packings: &[Packing], padx: u16) -> Option<bool> {
    let path = Txt::from_bytes(alloc, b".a").ok()?;
    let window = tree.resolve(&path).ok()?;
    if packings.len() != 2 || packings[0].len() != 1 {
        return None;
    }
    let content = packings[0].contents().next()?;
    let asks = packings[0].propagates() && !packings[1].propagates();
    let is_that = window.number() == 3 && content.window.number() == 3;
    Some(is_that && content.settings.padx.cells() == padx && asks)
}

// Whether these are places of windows, of which `.a` is packed in `.` with a padding of 2.
fn are_made(alloc: Global, places: Option<Vec<Place>>, next: u64) -> Option<bool> {
    let Some((tree, packings)) = placed(alloc, &places?, next).ok()? else {
        return Some(false);
    };
    Some(tree.next() == next && is_packed(alloc, &tree, &packings, 2)?)
}

#[test]
fn places_make_windows(rt: HostRuntime) {
    let alloc = rt.alloc();
    assert_eq!(rt;
        are_made(
            alloc,
            two(alloc, 3, 3, b".a", Some(padded(Padding::of(2)))),
            4
        ),
        Some(true)
    );
    assert_eq!(rt;
        are_made(
            alloc,
            two(alloc, 3, 3, b".a", Some(padded(Padding::of(2)))),
            9
        ),
        Some(true)
    );
}

#[test]
fn other_places_make_none(rt: HostRuntime) {
    let alloc = rt.alloc();
    // The next number was given out.
    assert_eq!(rt;
        are_made(
            alloc,
            two(alloc, 3, 3, b".a", Some(padded(Padding::of(2)))),
            3
        ),
        Some(false)
    );
    // It is packed, but has no settings; it has settings, but isn't packed.
    assert_eq!(rt;
        are_made(alloc, two(alloc, 3, 3, b".a", None), 4),
        Some(false)
    );
    assert_eq!(rt;
        are_made(
            alloc,
            two(alloc, 5, 3, b".a", Some(padded(Padding::of(2)))),
            4
        ),
        Some(false)
    );
    // There is `.` already, its number is given out, and there is no `.b`.
    assert_eq!(rt;
        are_made(
            alloc,
            two(alloc, 3, 3, b".", Some(padded(Padding::of(2)))),
            4
        ),
        Some(false)
    );
    assert_eq!(rt;
        are_made(alloc, two(alloc, 0, 0, b".a", None), 4),
        Some(false)
    );
    assert_eq!(rt;
        are_made(
            alloc,
            two(alloc, 3, 3, b".b.a", Some(padded(Padding::of(2)))),
            4
        ),
        Some(false)
    );
}
