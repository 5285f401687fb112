//! Inputs and headers, read and written again.
use std::alloc::Global;
use tks_input::Input;
use tks_spelling::{CodecFault, Header, read_header, read_input, write_header, write_input};
use tks_text::Txt;

/// What reading comes to: the value's spelling, as it is written again, or where the fault is.
#[derive(Drop)]
pub enum Read {
    Spelled(Vec<u8>),
    Bad(usize),
}

/// A text of these bytes.
pub fn text(alloc: Global, bytes: &[u8]) -> Option<Txt> {
    Txt::from_bytes(alloc, bytes).ok()
}

/// Whether bytes came of it, just these.
pub fn is(spelled: Option<Vec<u8>>, bytes: &[u8]) -> bool {
    match spelled {
        Some(spelled) => spelled.as_slice() == bytes,
        None => false,
    }
}

/// An input's spelling behind other bytes, which stay.
pub fn input_spelled(alloc: Global, input: &Input) -> Option<Vec<u8>> {
    let mut out = Vec::from_slice(alloc, b"!").ok()?;
    write_input(input, &mut out).ok()?;
    if out.remove(0) != b'!' {
        return None;
    }
    Some(out)
}

/// The input at the front, written again, where its length is that of its spelling.
pub fn input_of(alloc: Global, bytes: &[u8]) -> Option<Read> {
    match read_input(alloc, bytes) {
        Ok((input, length)) => {
            let spelled = input_spelled(alloc, &input)?;
            if spelled.len() != length {
                return None;
            }
            Some(Read::Spelled(spelled))
        }
        Err(CodecFault::Bad(position)) => Some(Read::Bad(position)),
        Err(CodecFault::NoMemory) => None,
    }
}

/// A header's spelling behind other bytes, which stay.
pub fn header_spelled(alloc: Global, header: &Header) -> Option<Vec<u8>> {
    let mut out = Vec::from_slice(alloc, b"!").ok()?;
    if !header.has_spelling() {
        return None;
    }
    write_header(header, &mut out).ok()?;
    if out.remove(0) != b'!' {
        return None;
    }
    Some(out)
}

/// The header at the front, written again, where its length is that of its spelling.
pub fn header_of(alloc: Global, bytes: &[u8]) -> Option<Read> {
    match read_header(alloc, bytes) {
        Ok((header, length)) => {
            let spelled = header_spelled(alloc, &header)?;
            if spelled.len() != length {
                return None;
            }
            Some(Read::Spelled(spelled))
        }
        Err(CodecFault::Bad(position)) => Some(Read::Bad(position)),
        Err(CodecFault::NoMemory) => None,
    }
}
