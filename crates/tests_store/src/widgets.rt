//! What widgets hold.
use crate::spelling::is;
use std::alloc::Global;
use tks_codec_windows::{entry_of, lines_of, listbox_of, put_entry, put_lines, put_listbox};
use tks_opt::Options;
use tks_text::{Class, Txt};

// The text `ab`, and a cursor behind it.
const ENTRY: &[u8] = b"\x00\x00\x00\x02ab\x00\x00\x00\x07";

// The items `a` and, selected and active, `b`.
const LISTBOX: &[u8] =
    b"\x00\x00\x00\x02\x00\x00\x00\x01a\x00\x00\x00\x00\x01b\x01\x00\x00\x00\x01";

// The text `abc`, a tag `t` on its first two characters, the mark `insert` at its end.
const LINES: &[u8] =
    b"\x00\x00\x00\x03abc\x00\x00\x00\x01\x00\x00\x00\x01t\x00\x00\x00\x01\x00\x00\x00\x00\x00\x00\x00\x02\x00\x00\x00\x01\x00\x00\x00\x06insert\x00\x00\x00\x03\x00";

// The first options of a class.
fn first(alloc: Global, class: Class) -> Option<Options> {
    let path = Txt::from_bytes(alloc, b".a").ok()?;
    Options::new(alloc, class, &path).ok()
}

// What an entry holds, read, as bytes again.
fn entry_again(alloc: Global, bytes: &[u8]) -> Option<Vec<u8>> {
    let options = first(alloc, Class::Entry)?;
    let Class::Entry = options.class() else {
        return None;
    };
    let (entry, _) = entry_of(alloc, options, bytes).ok()?;
    let mut out = Vec::new(alloc);
    put_entry(&mut out, &entry).ok()?;
    Some(out)
}

// What a listbox holds, read, as bytes again.
fn listbox_again(alloc: Global, bytes: &[u8]) -> Option<Vec<u8>> {
    let options = first(alloc, Class::Listbox)?;
    let Class::Listbox = options.class() else {
        return None;
    };
    let (listbox, _) = listbox_of(alloc, options, bytes).ok()?;
    let mut out = Vec::new(alloc);
    put_listbox(&mut out, &listbox).ok()?;
    Some(out)
}

// What a text widget holds, read, as bytes again.
fn lines_again(alloc: Global, bytes: &[u8]) -> Option<Vec<u8>> {
    let options = first(alloc, Class::Text)?;
    let Class::Text = options.class() else {
        return None;
    };
    let (widget, _) = lines_of(alloc, options, bytes).ok()?;
    let mut out = Vec::new(alloc);
    put_lines(&mut out, &widget).ok()?;
    Some(out)
}

// The bytes, with another one in a place.
fn changed(alloc: Global, bytes: &[u8], place: usize, byte: u8) -> Option<Vec<u8>> {
    let mut all = Vec::from_slice(alloc, bytes).ok()?;
    if all.len() <= place {
        return None;
    }
    all[place] = byte;
    Some(all)
}

// Whether what a text widget holds is read with another byte in a place.
fn is_read(alloc: Global, place: usize, byte: u8) -> Option<bool> {
    let bytes = changed(alloc, LINES, place, byte)?;
    Some(lines_again(alloc, bytes.as_slice()).is_some())
}

#[test]
fn entries(rt: HostRuntime) {
    assert!(rt; is(entry_again(rt.alloc(), ENTRY), ENTRY));
}

#[test]
fn listboxes(rt: HostRuntime) {
    assert!(rt; is(listbox_again(rt.alloc(), LISTBOX), LISTBOX));
    assert!(rt;
        is(
            listbox_again(rt.alloc(), b"\x00\x00\x00\x00\x00\x00\x00\x00"),
            b"\x00\x00\x00\x00\x00\x00\x00\x00"
        )
    );
    assert!(rt; listbox_again(rt.alloc(), b"\x00\x00\x00\x00\x00\x00\x00\x01").is_none());
}

#[test]
fn text_widgets(rt: HostRuntime) {
    assert!(rt; is(lines_again(rt.alloc(), LINES), LINES));
    // The range ends behind the text, or where it begins.
    assert_eq!(rt; is_read(rt.alloc(), 27, 4), Some(false));
    assert_eq!(rt; is_read(rt.alloc(), 27, 0), Some(false));
    // The mark is behind the text, or another one.
    assert_eq!(rt; is_read(rt.alloc(), 45, 4), Some(false));
    assert_eq!(rt; is_read(rt.alloc(), 36, b'o'), Some(false));
    // At another place in it.
    assert_eq!(rt; is_read(rt.alloc(), 45, 1), Some(true));
}
