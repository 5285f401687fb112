//! Kinds of events.
ghost use Rattle.tks_spelling.specs.Reading.{Gives};
ghost use Rattle.tks_spelling.specs.Writing.{PutsSo};
ghost use Rattle.tks_codec_events.specs.Kind as kinds;

use std::alloc::AllocError;
use tks_event::Kind;
use tks_spelling::Unread;
use tks_spelling::reading::u8_of;
use tks_spelling::writing::put_u8;

/// A kind of events.
pub fn kind_of(bytes: &[u8]) -> Result<(Kind, &[u8]), Unread>
    ensures { Gives (λ x. (x.0, x.1.now)) result (kinds.kind.read bytes.now) }
{
    let (number, rest) = u8_of(bytes)?;
    match Kind::numbered(number) {
        Some(kind) => Ok((kind, rest)),
        None => Err(Unread::Left(rest.len() + 1)),
    }
}

/// Adds a kind of events.
pub fn put_kind(out: &mut Vec<u8>, kind: Kind) -> Result<(), AllocError>
    ensures { PutsSo result out.old.items out.new.items (kinds.kind.write kind) }
{
    put_u8(out, kind.number())?;
    Ok(())
}
