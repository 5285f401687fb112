//! Texts, the bytes that stand in them, and elements in backslash form.

use std::alloc::Global;
use tks_list::backslash_form;
use tks_text::{TextBuilder, Txt, TxtFault, is_text, is_text_byte};

// A text that grew by its calls.
fn grown(alloc: Global) -> Option<Txt> {
    let mut text = Txt::from_bytes(alloc, b"a\n").ok()?;
    text.append(&Txt::from_bytes(alloc, b"bc").ok()?).ok()?;
    let more = Txt::from_bytes(alloc, b"defg").ok()?;
    text.append_front(&more, 2).ok()?;
    text.append_front(&more, 5).ok()?;
    text.append_behind(&more, 2).ok()?;
    text.append_behind(&more, 5).ok()?;
    Some(text)
}

// Whether a text has the bytes that were added, and a copy is equal until it grows.
fn grows_and_compares(alloc: Global) -> Option<bool> {
    let text = grown(alloc)?;
    let mut copy = text.try_clone().ok()?;
    let same = copy == text;
    copy.push_byte(b' ').ok()?;
    Some(
        same && copy != text
            && text.as_bytes() == b"a\nbcdedefgfg".as_slice()
            && text.len() == 12
            && !text.is_empty(),
    )
}

#[test]
fn texts_grow_and_compare(rt: HostRuntime) {
    assert!(rt; Txt::new(rt.alloc()).is_empty());
    assert_eq!(rt; grows_and_compares(rt.alloc()), Some(true));
}

// The text that is built of bytes one by one, and of a text behind them.
fn built(alloc: Global, bytes: &[u8], more: &Txt) -> Option<Txt> {
    let mut text = TextBuilder::new(alloc);
    for byte in bytes {
        if !is_text_byte(*byte) {
            return None;
        }
        text.push_byte(*byte).ok()?;
    }
    text.push_bytes(more.as_bytes()).ok()?;
    if text.len() != bytes.len() + more.as_bytes().len() || text.is_empty() {
        return None;
    }
    text.into_text().ok()
}

// Whether a text that is built of so many letters and ten digits has both, in their order.
fn has_what_was_put_in(alloc: Global, count: usize) -> Option<bool> {
    let letters = b"abcdefghijklmnopqrstuvwxyz".get(..count)?;
    let text = built(alloc, letters, &Txt::from_bytes(alloc, b"0123456789").ok()?)?;
    let bytes = text.as_bytes();
    Some(bytes.get(..count)? == letters && bytes.get(count..)? == b"0123456789".as_slice())
}

// Up to 24 bytes lie in one place and more in another: in some rows a letter moves them there, in others the digits do.
#[test]
fn texts_are_built(rt: HostRuntime) {
    for count in 0..=26 {
        assert_eq!(rt;
            has_what_was_put_in(rt.alloc(), count),
            Some(true),
            "{count} letters"
        );
    }
    let none = TextBuilder::new(rt.alloc());
    assert!(rt; none.is_empty());
    assert!(rt; none.into_text().is_ok_and(|text| text.is_empty()));
}

// Whether three calls say that a byte stands in texts.
fn stands(alloc: Global, byte: u8) -> bool {
    is_text_byte(byte) && is_text(&[b'a', byte]) && Txt::from_bytes(alloc, &[b'a', byte]).is_ok()
}

// Whether the same say that it stands in none.
fn is_refused(alloc: Global, byte: u8) -> bool {
    let text = Txt::from_bytes(alloc, &[b'a', byte]);
    !is_text_byte(byte) && !is_text(&[b'a', byte]) && matches!(&text, Err(TxtFault::Byte(1)))
}

// Whether a byte that stands in no text is named by its place, and leaves the text as it was.
fn names_bad_bytes(alloc: Global) -> Option<bool> {
    let refused = Txt::from_bytes(alloc, b"ab\x07c\x7f");
    let mut text = Txt::from_bytes(alloc, b"ab").ok()?;
    let pushed = text.push(0x7f);
    Some(
        matches!(&refused, Err(TxtFault::Byte(2)))
            && matches!(&pushed, Err(TxtFault::Byte(2)))
            && text.as_bytes() == b"ab".as_slice(),
    )
}

#[test]
fn bytes_that_stand_in_texts(rt: HostRuntime) {
    for byte in b"\t\n ~" {
        assert!(rt; stands(rt.alloc(), *byte), "byte {byte}");
    }
    for byte in b"\x08\x0b\x0d\x1f\x7f\xff" {
        assert!(rt; is_refused(rt.alloc(), *byte), "byte {byte}");
    }
    assert_eq!(rt; names_bad_bytes(rt.alloc()), Some(true));
}

// Whether the element of a row, before its `=`, has what stands behind that as its backslash form.
fn is_form(alloc: Global, row: &str) -> Option<bool> {
    let (element, form) = row.split_once('=')?;
    let text = backslash_form(alloc, &Txt::from_bytes(alloc, element.as_bytes()).ok()?).ok()?;
    Some(text.as_bytes() == form.as_bytes())
}

#[test]
fn elements_in_backslash_form(rt: HostRuntime) {
    let rows =
        "={}!a=a!a#=a#!#a#=\\#a#!a b=a\\ b!a{b}c=a\\{b\\}c!}{=\\}\\{!{a=\\{a!a\\b c=a\\\\b\\ c!#{=\\#\\{!\
         $x;[y]\"=\\$x\\;\\[y\\]\\\"!a\tb\n=a\\tb\\n!\t\n}=\\t\\n\\}";
    for row in rows.split('!') {
        assert_eq!(rt; is_form(rt.alloc(), row), Some(true), "at {row}");
    }
}
