//! Inputs and headers, each byte of them changed and each cut of them.

use crate::spelling::{Read, header_of, header_spelled, input_of, input_spelled, text};
use std::alloc::Global;
use tks_input::Input;
use tks_spelling::Header;
use tks_text::{Seq, Size};

const SCRIPT: &[u8] = b"\x01\x00\x00\x00\x07set x 5";

const KEY_PRESS: &[u8] = b"\x02\x00\x00\x00\x05Right";

const KEY_RELEASE: &[u8] = b"\x03\x00\x00\x00\x01a";

const PRESS: &[u8] = b"\x04\x01\x00\x03\x00\x02";

const RELEASE: &[u8] = b"\x05\xff\xff\xfe\x01\x02";

const CLOCK: &[u8] = b"\x06\x01\x02\x03\x04\x05\x06\x07\x08";

const TURN: &[u8] = b"\x07";

const RULES: &[u8] = b"\x08\x02";

const HEADER: &[u8] =
    b"\x00\x00\x00\x00\x00\x00\x00\x02\x00\x50\x00\x18\x00\x00\x00\x02\x00\x00\x00\x01a\x00\x00\x00\x02ab\x00\x00\x00\x00\x00\x01\x00\x07";

fn input(alloc: Global, tag: u8) -> Option<Input> {
    match tag {
        1 => Some(Input::Script(text(alloc, b"set x 5")?)),
        2 => Some(Input::KeyPress(text(alloc, b"Right")?)),
        3 => Some(Input::KeyRelease(text(alloc, b"a")?)),
        4 => Some(Input::Press {
            button: 1,
            x: 3,
            y: 2,
        }),
        5 => Some(Input::Release {
            button: 255,
            x: 65534,
            y: 258,
        }),
        6 => Some(Input::Clock(72623859790382856)),
        7 => Some(Input::Turn),
        _ => Some(Input::Rules(2)),
    }
}

fn input_bytes(tag: u8) -> &'static [u8] {
    match tag {
        1 => SCRIPT,
        2 => KEY_PRESS,
        3 => KEY_RELEASE,
        4 => PRESS,
        5 => RELEASE,
        6 => CLOCK,
        7 => TURN,
        _ => RULES,
    }
}

fn header(alloc: Global) -> Option<Header> {
    let mut names = Seq::new(alloc);
    names.push(text(alloc, b"a")?).ok()?;
    names.push(text(alloc, b"ab")?).ok()?;
    Some(Header {
        generation: 2,
        grid: Size::new(80, 24)?,
        names,
        world_length: 65543,
    })
}

fn is_input_written(alloc: Global, tag: u8) -> Option<bool> {
    let input = input(alloc, tag)?;
    let copy = input.try_clone().ok()?;
    let spelled = input_spelled(alloc, &input)?;
    let again = input_spelled(alloc, &copy)?;
    Some(spelled.as_slice() == input_bytes(tag) && again == spelled)
}

#[test]
fn inputs_are_written_as_the_table_says(rt: HostRuntime) {
    for tag in 1..9 {
        assert!(rt;
            is_input_written(rt.alloc(), tag) == Some(true),
            "tag {tag}"
        );
    }
}

#[test]
fn a_header_is_written_as_the_table_says(rt: HostRuntime) {
    let spelled = match header(rt.alloc()) {
        Some(header) => header_spelled(rt.alloc(), &header),
        None => None,
    };
    let is_so = match &spelled {
        Some(spelled) => spelled.as_slice() == HEADER,
        None => false,
    };
    assert!(rt; is_so);
}

// Whether what is read is this spelling.
fn is_spelled(read: Option<Read>, spelling: &[u8]) -> bool {
    match read {
        Some(Read::Spelled(spelled)) => spelled.as_slice() == spelling,
        _ => false,
    }
}

// Whether the fault is here.
fn is_bad_at(read: Option<Read>, position: usize) -> bool {
    match read {
        Some(Read::Bad(at)) => at == position,
        _ => false,
    }
}

// Whether what is read isn't this spelling: another one, or a fault within the bytes or at their end.
fn is_other(read: Option<Read>, spelling: &[u8], len: usize) -> bool {
    match read {
        Some(Read::Spelled(spelled)) => spelled.as_slice() != spelling,
        Some(Read::Bad(at)) => at <= len,
        None => false,
    }
}

fn read_as(alloc: Global, is_header: bool, bytes: &[u8]) -> Option<Read> {
    if is_header {
        header_of(alloc, bytes)
    } else {
        input_of(alloc, bytes)
    }
}

// Whether each cut of a spelling is told as one.
fn cuts_are_told(alloc: Global, is_header: bool, spelling: &[u8]) -> bool {
    for len in 0..spelling.len() {
        let (front, _) = spelling.split_at(len);
        if !is_bad_at(read_as(alloc, is_header, front), len) {
            return false;
        }
    }
    true
}

// Whether the spelling with this byte changed, in each way, is no longer it.
fn byte_matters(alloc: Global, is_header: bool, spelling: &[u8], at: usize) -> Option<bool> {
    let mut bytes = Vec::from_slice(alloc, spelling).ok()?;
    let byte = *spelling.get(at)?;
    for change in 1..256u16 {
        *bytes.get_mut(at)? = byte ^ (change as u8);
        if !is_other(read_as(alloc, is_header, &bytes), spelling, bytes.len()) {
            return Some(false);
        }
    }
    Some(true)
}

fn each_byte_matters(alloc: Global, is_header: bool, spelling: &[u8]) -> bool {
    for at in 0..spelling.len() {
        if byte_matters(alloc, is_header, spelling, at) != Some(true) {
            return false;
        }
    }
    true
}

// Whether a spelling is read with other bytes behind it.
fn is_read(alloc: Global, is_header: bool, spelling: &[u8]) -> Option<bool> {
    let mut bytes = Vec::from_slice(alloc, spelling).ok()?;
    let alone = is_spelled(read_as(alloc, is_header, &bytes), spelling);
    bytes.extend_from_slice(b"\x07more").ok()?;
    Some(alone && is_spelled(read_as(alloc, is_header, &bytes), spelling))
}

#[test]
fn each_byte_of_an_input_matters(rt: HostRuntime) {
    for tag in 1..9 {
        let bytes = input_bytes(tag);
        let alloc = rt.alloc();
        let all = is_read(alloc, false, bytes) == Some(true)
            && cuts_are_told(alloc, false, bytes)
            && each_byte_matters(alloc, false, bytes);
        assert!(rt; all, "tag {tag}");
    }
}

#[test]
fn each_byte_of_a_header_matters(rt: HostRuntime) {
    let alloc = rt.alloc();
    let all = is_read(alloc, true, HEADER) == Some(true)
        && cuts_are_told(alloc, true, HEADER)
        && each_byte_matters(alloc, true, HEADER);
    assert!(rt; all);
}

fn bad_inputs(alloc: Global) -> bool {
    is_bad_at(input_of(alloc, b"\x00"), 0)
        && is_bad_at(input_of(alloc, b"\x09\x01"), 0)
        && is_bad_at(input_of(alloc, b"\x01\x00\x00\x00\x03a\x80c"), 6)
        && is_bad_at(input_of(alloc, b"\x01\xff\xff\xff\xffa\x00"), 6)
        && is_bad_at(input_of(alloc, b"\x01\xff\xff\xff\xffab"), 7)
        && is_bad_at(input_of(alloc, b"\x02\x07\x00\x00\x00"), 5)
}

#[test]
fn the_first_byte_at_fault_is_named(rt: HostRuntime) {
    assert!(rt; bad_inputs(rt.alloc()));
}

// A header of generation 1 and this grid, and the bytes behind its count of names.
fn headed(alloc: Global, width: u8, height: u8, names: &[u8]) -> Option<Read> {
    let mut bytes = Vec::from_slice(alloc, b"\x00\x00\x00\x00\x00\x00\x00\x01\x00").ok()?;
    bytes.push(width).ok()?;
    bytes.push(0).ok()?;
    bytes.push(height).ok()?;
    bytes.extend_from_slice(names).ok()?;
    header_of(alloc, &bytes)
}

fn bad_headers(alloc: Global) -> bool {
    let none = b"\x00\x00\x00\x00\x00\x00\x00\x00\x00\x00\x00\x00";
    is_bad_at(headed(alloc, 0, 1, none), 9)
        && is_bad_at(headed(alloc, 201, 1, none), 9)
        && is_bad_at(headed(alloc, 200, 0, none), 11)
        && is_bad_at(headed(alloc, 200, 101, none), 11)
        && is_bad_at(
            headed(
                alloc,
                1,
                1,
                b"\x00\x00\x00\x02\x00\x00\x00\x02ab\x00\x00\x00\x01b",
            ),
            27,
        )
}

fn bad_names(alloc: Global) -> bool {
    is_bad_at(
        headed(
            alloc,
            1,
            1,
            b"\x00\x00\x00\x02\x00\x00\x00\x01b\x00\x00\x00\x01a\x00",
        ),
        25,
    ) && is_bad_at(
        headed(
            alloc,
            1,
            1,
            b"\x00\x00\x00\x02\x00\x00\x00\x01a\x00\x00\x00\x01a\x00",
        ),
        25,
    ) && is_bad_at(
        headed(
            alloc,
            1,
            1,
            b"\x00\x00\x00\x02\x00\x00\x00\x01a\x00\x00\x00\x00\x00",
        ),
        24,
    ) && is_bad_at(
        headed(
            alloc,
            1,
            1,
            b"\x00\x00\x00\x02\x00\x00\x00\x02ab\x00\x00\x00\x01a\x00",
        ),
        26,
    ) && is_bad_at(
        headed(alloc, 1, 1, b"\xff\xff\xff\xff\x00\x00\x00\x01a"),
        21,
    )
}

#[test]
fn what_no_header_has_is_named(rt: HostRuntime) {
    assert!(rt; bad_headers(rt.alloc()));
    assert!(rt; bad_names(rt.alloc()));
}
