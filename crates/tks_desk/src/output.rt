//! Writing: all of it, or a front.
ghost use Rattle.std.specs.Prelude.{◌≡◌, ◌≤◌, length, take, IfOk, IfErr};
ghost use Rattle.std.specs.Io.KnownBytes.{Appends, Keeps};
ghost use Rattle.tks_desk.specs.Writing.{WritesSo, escaped, escaped_byte};

use crate::ending::RunFault;
use std::io::{ErrorKind, Write};

/// Writes all of the bytes, by as many writes as it takes. The fault is `Write`, where the writer
/// fails or takes none of them.
pub fn put<W: Write>(writer: &mut W, bytes: &[u8]) -> Result<(), RunFault>
    ensures { WritesSo result (W.contents writer.old) (W.contents writer.new) bytes.now }
{
    let mut done = 0;
    for _ in 0..u64::MAX {
        if done == bytes.len() {
            return Ok(());
        }
        done += write_some(writer, &bytes[done..])?;
    }
    Err(RunFault::Write)
}

/// Writes the end of an answer, and hands the whole answer on.
pub fn put_last<W: Write>(writer: &mut W, bytes: &[u8]) -> Result<(), RunFault>
    ensures { WritesSo result (W.contents writer.old) (W.contents writer.new) bytes.now }
{
    put(writer, bytes)?;
    match writer.flush() {
        Ok(()) => Ok(()),
        Err(_) => Err(RunFault::Write),
    }
}

// One write, of none of the bytes where a signal interrupts it.
fn write_some<W: Write>(writer: &mut W, bytes: &[u8]) -> Result<usize, RunFault>
    ensures bound { IfOk result (λ n. n ≤ length bytes.now) }
    ensures ok { IfOk result (λ n. Appends (W.contents writer.old) (W.contents writer.new) (take n bytes.now)) }
    ensures err { IfErr result (λ e. (e ≡ RunFault.Write) × Keeps (W.contents writer.old) (W.contents writer.new)) }
{
    match writer.write(bytes) {
        Ok(0) => Err(RunFault::Write),
        Ok(n) => Ok(n),
        Err(e) if e.kind() == ErrorKind::Interrupted => Ok(0),
        Err(_) => Err(RunFault::Write),
    }
}

/// Writes the text with each backslash, newline and tab as a backslash and a sign: `\\`, `\n`, `\t`.
/// The fault is that of `put`.
pub fn put_escaped<W: Write>(writer: &mut W, text: &[u8]) -> Result<(), RunFault>
    ensures { WritesSo result (W.contents writer.old) (W.contents writer.new) (escaped text.now) }
{
    for byte in text {
        put_escaped_byte(writer, *byte)?;
    }
    Ok(())
}

fn put_escaped_byte<W: Write>(writer: &mut W, byte: u8) -> Result<(), RunFault>
    ensures { WritesSo result (W.contents writer.old) (W.contents writer.new) (escaped_byte byte) }
{
    match byte {
        b'\\' => put(writer, b"\\\\"),
        b'\n' => put(writer, b"\\n"),
        b'\t' => put(writer, b"\\t"),
        _ => put(writer, &[byte]),
    }
}
