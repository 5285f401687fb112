//! Options, tags, and how windows are packed.
use crate::spelling::is;
use std::alloc::Global;
use tks_codec_windows::{options_of, packing_of, put_options, put_packing, put_tags, tags_of};
use tks_opt::Options;
use tks_text::{Class, Txt};

// The first options of a frame.
const FRAME: &[u8] =
    b"\x00\x00\x00\x08\x00\x00\x00\x00\x00\x00\x00\x00\x00\x00\x00\x00\x00\x00\x00\x00\x00\x00\x00\x00\x00\x00\x00\x010\x00\x00\x00\x010\x00\x00\x00\x010";

// Packed on the left, filling both ways, expanding, to the south, with a padding of 1000 at last.
const PACKED: &[u8] = b"\x01\x02\x03\x01\x05\x00\x00\x00\x01\x00\x02\x03\xe8";

// The tags `a` and `bc`.
const TAGS: &[u8] = b"\x01\x00\x00\x00\x02\x00\x00\x00\x01a\x00\x00\x00\x02bc";

// The first options of a frame, as bytes.
fn frame_spelled(alloc: Global) -> Option<Vec<u8>> {
    let path = Txt::from_bytes(alloc, b".a").ok()?;
    let options = Options::new(alloc, Class::Frame, &path).ok()?;
    let mut out = Vec::new(alloc);
    put_options(&mut out, &options).ok()?;
    Some(out)
}

// Options of a class that are read, as bytes again.
fn options_again(alloc: Global, class: Class, bytes: &[u8]) -> Option<Vec<u8>> {
    let (options, rest) = options_of(alloc, class, bytes).ok()?;
    if !rest.is_empty() {
        return None;
    }
    let mut out = Vec::new(alloc);
    put_options(&mut out, &options).ok()?;
    Some(out)
}

// How a window is packed, read, as bytes again.
fn packing_again(alloc: Global, bytes: &[u8]) -> Option<Vec<u8>> {
    let mut out = Vec::new(alloc);
    match packing_of(bytes) {
        Ok((packing, rest)) if rest.is_empty() => {
            put_packing(&mut out, packing).ok()?;
            Some(out)
        }
        _ => None,
    }
}

// Tags that are read, as bytes again.
fn tags_again(alloc: Global, bytes: &[u8]) -> Option<Vec<u8>> {
    let (tags, rest) = tags_of(alloc, bytes).ok()?;
    let tags = tags?;
    if !rest.is_empty() {
        return None;
    }
    let mut out = Vec::new(alloc);
    put_tags(&mut out, Some(&tags)).ok()?;
    Some(out)
}

#[test]
fn options(rt: HostRuntime) {
    assert!(rt; is(frame_spelled(rt.alloc()), FRAME));
    assert!(rt; is(options_again(rt.alloc(), Class::Frame, FRAME), FRAME));
    assert!(rt; options_again(rt.alloc(), Class::Label, FRAME).is_none());
}

#[test]
fn packings(rt: HostRuntime) {
    assert!(rt; is(packing_again(rt.alloc(), PACKED), PACKED));
    assert!(rt; is(packing_again(rt.alloc(), b"\x00"), b"\x00"));
    assert!(rt;
        packing_again(
            rt.alloc(),
            b"\x01\x04\x03\x01\x05\x00\x00\x00\x01\x00\x02\x03\xe8"
        )
        .is_none()
    );
    assert!(rt;
        packing_again(
            rt.alloc(),
            b"\x01\x02\x03\x01\x05\x00\x00\x00\x01\x00\x02\x03\xe9"
        )
        .is_none()
    );
}

#[test]
fn tags(rt: HostRuntime) {
    assert!(rt; is(tags_again(rt.alloc(), TAGS), TAGS));
    assert!(rt; tags_again(rt.alloc(), b"\x02").is_none());
}
