//! The tags of a window.
ghost use Rattle.std.specs.Prelude.{◌≡◌, length, option_map, OnOk};
ghost use Rattle.tks_spelling.specs.Reading.{Gives};
ghost use Rattle.tks_spelling.specs.Writing.{PutsSo};
ghost use Rattle.tks_spelling.specs.Lengths.{counted};
ghost use Rattle.tks_codec_windows.specs.Bindtags as kinds;

use std::alloc::{AllocError, Global};
use tks_spelling::reading::presence_of;
use tks_spelling::writing::put_presence;
use tks_spelling::{Texts, Unread, list_length, list_of, put_list};
use tks_text::{Seq, Txt};

/// A window's tags, if it has some of its own.
pub fn tags_of(alloc: Global, bytes: &[u8]) -> Result<(Option<Seq<Txt>>, &[u8]), Unread>
    ensures { Gives (λ x. (x.0, x.1.now)) result (kinds.tags.read bytes.now) }
{
    let (is_there, rest) = presence_of(bytes)?;
    if !is_there {
        return Ok((None, rest));
    }
    let (tags, rest) = list_of(alloc, Texts, rest)?;
    Ok((Some(tags), rest))
}

/// Adds a window's tags, if it has some of its own.
pub fn put_tags(out: &mut Vec<u8>, tags: Option<&Seq<Txt>>) -> Result<(), AllocError>
    ensures puts { PutsSo result out.old.items out.new.items (kinds.tags.write (option_map (λ t. t.now) tags.entry)) }
    ensures legal { OnOk result (kinds.tags.Legal (option_map (λ t. t.now) tags.entry)) }
{
    match tags {
        None => put_presence(out, false),
        Some(texts) => {
            put_presence(out, true)?;
            put_list(out, Texts, texts.as_slice())
        }
    }
}

/// The length of the spelling of a window's tags, if it has some of its own, in bytes.
pub fn tags_length(tags: Option<&Seq<Txt>>) -> u64
    ensures { result ≡ counted (length (kinds.tags.write (option_map (λ t. t.now) tags.entry))) }
{
    match tags {
        None => 1,
        Some(texts) => list_length(&Texts, texts.as_slice()).saturating_add(1),
    }
}
