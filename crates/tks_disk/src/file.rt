//! Single files, read and written at any place.
ghost use Rattle.std.specs.Prelude.{◌≤◌, length, IfOk, IfSome};

use std::fs::OpenFile;
use std::io;
use std::io::{ErrorKind, Read, Seek, SeekFrom, Write};

/// How many bytes the file has.
pub fn length<F: OpenFile>(file: &F) -> io::Result<usize> {
    Ok(file.metadata()?.len() as usize)
}

/// Reads some bytes, none only at the file's end or where a signal came between.
fn read_some<F: Read>(file: &mut F, buf: &mut [u8]) -> io::Result<Option<usize>>
    ensures { IfOk result (λ n. IfSome n (λ k. k ≤ length buf.old)) }
{
    match file.read(buf) {
        Ok(n) => Ok(Some(n)),
        Err(e) if e.kind() == ErrorKind::Interrupted => Ok(None),
        Err(e) => Err(e),
    }
}

/// Reads the bytes from `at` on that are there and fit, and answers how many.
pub fn read_at<F: Read + Seek>(file: &mut F, at: usize, buf: &mut [u8]) -> io::Result<usize>
    ensures { IfOk result (λ n. n ≤ length buf.old) }
{
    file.seek(SeekFrom::Start(at as u64))?;
    let mut filled = 0;
    for _ in 0..u64::MAX {
        if filled == buf.len() {
            return Ok(filled);
        }
        match read_some(file, &mut buf[filled..])? {
            Some(0) => return Ok(filled),
            Some(n) => filled += n,
            None => {}
        }
    }
    Err(io::Error::from(ErrorKind::Interrupted))
}

/// Writes the bytes from `at` on. A file that ends before `at` is filled up with 0, also where there are no bytes.
pub fn write_at<F: Write + Seek + OpenFile>(
    file: &mut F,
    at: usize,
    bytes: &[u8],
) -> io::Result<()> {
    if bytes.is_empty() {
        return grow(file, at);
    }
    file.seek(SeekFrom::Start(at as u64))?;
    file.write_all(bytes)
}

/// Fills a file that is shorter up with 0.
fn grow<F: OpenFile>(file: &F, len: usize) -> io::Result<()> {
    if length(file)? < len {
        file.set_len(len as u64)?;
    }
    Ok(())
}
