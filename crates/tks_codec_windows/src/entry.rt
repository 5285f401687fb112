//! What an entry holds.
ghost use Rattle.std.specs.Prelude.{◌≡◌, length, OnOk};
ghost use Rattle.tks_text.specs.declared.class.Class.TheVariants as class;
ghost use Rattle.tks_spelling.specs.Reading.{Gives};
ghost use Rattle.tks_spelling.specs.Writing.{PutsSo};
ghost use Rattle.tks_spelling.specs.Lengths.{counted};
ghost use Rattle.tks_codec_windows.specs.Entry as kinds;

use std::alloc::{AllocError, Global};
use tks_entry::EntryWidget;
use tks_opt::Options;
use tks_spelling::reading::{text_of, u32_of};
use tks_spelling::writing::{put_text, put_u32};
use tks_spelling::{Unread, text_length};

/// An entry with these options, by its text and its cursor.
pub fn entry_of(
    alloc: Global,
    options: Options,
    bytes: &[u8],
) -> Result<(EntryWidget, &[u8]), Unread>
    requires { options.class ≡ class.Entry }
    ensures { Gives (λ x. (x.0, x.1.now)) result ((kinds.entry options).read bytes.now) }
{
    let (text, rest) = text_of(alloc, bytes)?;
    let (cursor, rest) = u32_of(rest)?;
    match EntryWidget::restore(alloc, options, text, cursor) {
        Some(entry) => Ok((entry, rest)),
        None => unreachable!(),
    }
}

/// Adds an entry's text and its cursor.
pub fn put_entry(out: &mut Vec<u8>, entry: &EntryWidget) -> Result<(), AllocError>
    ensures puts { PutsSo result out.old.items out.new.items ((kinds.entry entry.now.options).write entry.now) }
    ensures legal { OnOk result ((kinds.entry entry.now.options).Legal entry.now) }
{
    put_text(out, entry.text())?;
    put_u32(out, entry.cursor())
}

/// The length of the spelling of an entry's text and its cursor, in bytes.
#[tactic(auto, using(tks_spelling::proofs::Counting::lengths))]
pub fn entry_length(entry: &EntryWidget) -> u64
    ensures { result ≡ counted (length ((kinds.entry entry.now.options).write entry.now)) }
{
    text_length(entry.text()).saturating_add(4)
}
