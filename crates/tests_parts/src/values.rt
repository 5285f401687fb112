//! Faults, sizes, classes, limits and lists.

use std::alloc::{AllocError, AllocFailed, Global};
use tks_text::{Class, ErrorNumber, Failure, Limits, ScriptFault, Seq, Size, Txt};

// Whether a fault has this text.
fn has_text(alloc: Global, fault: &ScriptFault, want: &[u8]) -> Option<bool> {
    Some(fault.text(alloc).ok()?.as_bytes() == want)
}

// Whether an error about a subject has this text.
fn tells(alloc: Global, number: ErrorNumber, subject: &[u8], want: &[u8]) -> Option<bool> {
    let subject = Txt::from_bytes(alloc, subject).ok()?;
    has_text(alloc, &ScriptFault::about(number, &subject).ok()?, want)
}

#[test]
fn faults_have_numbers_and_texts(rt: HostRuntime) {
    for (number, want) in [
        (ErrorNumber::MissingCloseBrace, 1),
        (ErrorNumber::NoSuchVariable, 11),
        (ErrorNumber::BadPath, 30),
        (ErrorNumber::NoSuchAfterId, 45),
    ] {
        assert!(rt; number.number() == want, "number {want}");
    }
    let fault = ScriptFault {
        number: ErrorNumber::TextAfterCloseQuote,
        subject: None,
    };
    assert_eq!(rt; has_text(rt.alloc(), &fault, b"E04"), Some(true));
    assert_eq!(rt;
        tells(rt.alloc(), ErrorNumber::NoSuchVariable, b"x y", b"E11 x y"),
        Some(true)
    );
    assert_eq!(rt;
        tells(rt.alloc(), ErrorNumber::NoSuchAfterId, b"", b"E45 "),
        Some(true)
    );
    assert!(rt; matches!(&Failure::from(AllocError), Failure::NoMemory));
    assert!(rt;
        matches!(
            &Failure::from(AllocFailed { value: 7_u8 }),
            Failure::NoMemory
        )
    );
}

// Whether a grid has this width and height, where it may have them.
fn is_size(width: u16, height: u16) -> bool {
    match Size::new(width, height) {
        Some(size) => size.width() == width && size.height() == height,
        None => false,
    }
}

#[test]
fn grids_have_one_to_200_by_100_cells(rt: HostRuntime) {
    for (width, height) in [(20, 3), (1, 1), (200, 100)] {
        assert!(rt; is_size(width, height), "{width} by {height}");
    }
    for (width, height) in [(0, 1), (1, 0), (201, 100), (200, 101)] {
        assert!(rt; Size::new(width, height).is_none(), "{width} by {height}");
    }
}

#[test]
fn classes_have_their_names(rt: HostRuntime) {
    for (class, name) in [
        (Class::Root, b"Tk".as_slice()),
        (Class::Frame, b"Frame"),
        (Class::Label, b"Label"),
        (Class::Button, b"Button"),
        (Class::Checkbutton, b"Checkbutton"),
        (Class::Entry, b"Entry"),
        (Class::Listbox, b"Listbox"),
        (Class::Text, b"Text"),
    ] {
        assert!(rt; class.name() == name, "{name:?}");
    }
}

#[test]
fn format1_has_its_limits(rt: HostRuntime) {
    let limits = Limits::format1();
    assert_eq!(rt; (limits.fuel, limits.depth), (10_000, 32));
    assert_eq!(rt;
        (limits.text, limits.items, limits.pending),
        (65_536, 4_096, 64)
    );
}

#[test]
fn format2_has_its_limits(rt: HostRuntime) {
    let limits = Limits::format2();
    assert_eq!(rt; (limits.fuel, limits.depth), (100_000, 64));
    assert_eq!(rt;
        (limits.text, limits.items, limits.pending),
        (1_048_576, 65_536, 256)
    );
}

// Whether a list keeps its items in order.
fn keeps_items(alloc: Global) -> Option<bool> {
    let mut list = Seq::new(alloc);
    let empty = list.is_empty();
    for item in [7_u32, 8, 9] {
        list.push(item).ok()?;
    }
    if list.len() != 3 {
        return Some(false);
    }
    list.set(1, 5);
    Some(empty && list.as_slice() == [7, 5, 9].as_slice() && list.into_items().len() == 3)
}

#[test]
fn lists_keep_items_in_order(rt: HostRuntime) {
    assert_eq!(rt; keeps_items(rt.alloc()), Some(true));
}
