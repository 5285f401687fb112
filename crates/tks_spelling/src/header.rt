//! Headers as bytes.
ghost use Rattle.std.specs.Prelude.{◌≡◌, ℕ, ◌++◌, ◌↔◌, true, List, take, Ok, Err, IfOk, OnOk, OnErr};
ghost use Rattle.tks_text.specs.Size.{IsGridSize};
ghost use Rattle.tks_spelling.specs.declared.header.Header.{Header};
ghost use Rattle.tks_spelling.specs.Header as headers;
ghost use Rattle.tks_spelling.specs.Header.{width, height, header_at, AreNames};
ghost use Rattle.tks_spelling.specs.Reading.{Gives, FindsSo, StopsAt};
ghost use Rattle.tks_spelling.specs.Writing.{PutsSo};

use crate::fault::CodecFault;
use crate::names::{are_names, names_of, put_names};
use crate::reading::{u16_of, u64_of};
use crate::unread::Unread;
use crate::writing::{put_u16, put_u64};
use std::alloc::{AllocError, Global};
use tks_text::{Seq, Size, Txt};

/// What stands at the front of a side, behind its format.
#[derive(Drop)]
pub struct Header {
    /// How many sides were begun by then, this one counted.
    pub generation: u64,
    /// The grid that the world was made for.
    pub grid: Size,
    /// The application commands' names, rising by their bytes.
    pub names: Seq<Txt>,
    /// How many bytes spell the world behind the header.
    pub world_length: u64,
}

impl Header {
    /// Whether it has a spelling: the names rise by their bytes.
    pub fn has_spelling(&self) -> bool
        ensures { (result ≡ true) ↔ AreNames self.now.names }
    {
        are_names(self.names.as_slice())
    }
}

// A grid's width.
fn width_of(bytes: &[u8]) -> Result<(u16, &[u8]), Unread>
    ensures { Gives (λ x. (x.0, x.1.now)) result (width.read bytes.now) }
{
    let (width, rest) = u16_of(bytes)?;
    if width < 1 || Size::MAX_WIDTH < width {
        return Err(Unread::Left(rest.len() + 1));
    }
    Ok((width, rest))
}

// A grid's height.
fn height_of(bytes: &[u8]) -> Result<(u16, &[u8]), Unread>
    ensures { Gives (λ x. (x.0, x.1.now)) result (height.read bytes.now) }
{
    let (height, rest) = u16_of(bytes)?;
    if height < 1 || Size::MAX_HEIGHT < height {
        return Err(Unread::Left(rest.len() + 1));
    }
    Ok((height, rest))
}

// The header, and the bytes behind it.
#[tactic(auto, unfolding(crate::specs::Header::header_at))]
fn header_of(alloc: Global, bytes: &[u8]) -> Result<(Header, &[u8]), Unread>
    ensures { Gives (λ x. (x.0, x.1.now)) result (header_at bytes.now) }
{
    let (generation, rest) = u64_of(bytes)?;
    let (width, rest) = width_of(rest)?;
    let (height, rest) = height_of(rest)?;
    let Some(grid) = Size::new(width, height) else {
        unreachable!()
    };
    let (names, rest) = names_of(alloc, rest)?;
    let (world_length, rest) = u64_of(rest)?;
    let header = Header {
        generation,
        grid,
        names,
        world_length,
    };
    Ok((header, rest))
}

// The header, and the length of its spelling.
fn header_found(alloc: Global, bytes: &[u8]) -> Result<(Header, usize), CodecFault>
    ensures { FindsSo result bytes.now (header_at bytes.now) }
{
    match header_of(alloc, bytes) {
        Ok((header, rest)) => Ok((header, bytes.len() - rest.len())),
        Err(Unread::Left(left)) => Err(CodecFault::Bad(bytes.len() - left)),
        Err(Unread::NoMemory) => Err(CodecFault::NoMemory),
    }
}

/// The header at the front, and the length of its spelling; other bytes may follow. Memory is taken for a
/// name once its bytes are there.
pub fn read_header(alloc: Global, bytes: &[u8]) -> Result<(Header, usize), CodecFault>
    // What is read is spelled so.
    ensures found { IfOk result (λ x. headers.header.Legal x.0 × (take x.1 bytes.now ≡ headers.header.write x.0)) }
    // What is spelled so is read, unless memory is refused.
    ensures only { (h : Header) (rest : List ℕ) → headers.header.Legal h → bytes.now ≡ headers.header.write h ++ rest → FindsSo result bytes.now (Ok (h, rest)) }
    // Where the fault is.
    ensures bad { (p : ℕ) → result ≡ Err (CodecFault.Bad p) → StopsAt headers.header bytes.now p }
    // All this at once.
    ensures exact { FindsSo result bytes.now (header_at bytes.now) }
{
    header_found(alloc, bytes)
}

// Adds the spelling; where memory is refused, perhaps a front of it.
fn put_header(header: &Header, out: &mut Vec<u8>) -> Result<(), AllocError>
    requires { AreNames header.now.names }
    ensures puts { PutsSo result out.old.items out.new.items (headers.header.write header.now) }
    ensures legal { OnOk result (IsGridSize header.now.grid.width header.now.grid.height → headers.header.Legal header.now) }
{
    put_u64(out, header.generation)?;
    put_u16(out, header.grid.width())?;
    put_u16(out, header.grid.height())?;
    put_names(out, &header.names)?;
    put_u64(out, header.world_length)?;
    Ok(())
}

/// Adds the header's spelling at the end, which it has to have (`Header::has_spelling`). Where memory is
/// refused, the bytes are as they were.
pub fn write_header(header: &Header, out: &mut Vec<u8>) -> Result<(), AllocError>
    requires { AreNames header.now.names }
    ensures ok { OnOk result (out.new.items ≡ out.old.items ++ headers.header.write header.now) }
    // It is read back, by the law of headers, since each size of a grid is in the grid's range.
    ensures legal { OnOk result (IsGridSize header.now.grid.width header.now.grid.height → headers.header.Legal header.now) }
    ensures err { OnErr result (out.new.items ≡ out.old.items) }
{
    let before = out.len();
    match put_header(header, out) {
        Ok(()) => Ok(()),
        Err(refused) => {
            out.truncate(before);
            Err(refused)
        }
    }
}
