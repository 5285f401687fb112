//! How a window is packed, if it is.
ghost use Rattle.std.specs.Prelude.{◌≡◌, length, OnOk};
ghost use Rattle.tks_spelling.specs.Reading.{Gives};
ghost use Rattle.tks_spelling.specs.Writing.{PutsSo};
ghost use Rattle.tks_spelling.specs.Lengths.{counted};
ghost use Rattle.tks_codec_windows.specs.Packing as kinds;
ghost use Rattle.tks_codec_windows.specs.Packing.{packing_at};

use crate::settings::{put_settings, settings_of};
use std::alloc::AllocError;
use tks_pack::Settings;
use tks_spelling::Unread;
use tks_spelling::reading::presence_of;
use tks_spelling::writing::put_presence;

/// How a window is packed, if it is.
#[tactic(auto, unfolding(crate::specs::Packing::packing_at, crate::specs::Packing::settings_at))]
pub fn packing_of(bytes: &[u8]) -> Result<(Option<Settings>, &[u8]), Unread>
    ensures { Gives (λ x. (x.0, x.1.now)) result (packing_at bytes.now) }
{
    let (is_packed, rest) = presence_of(bytes)?;
    if !is_packed {
        return Ok((None, rest));
    }
    match settings_of(rest) {
        Ok((settings, rest)) => Ok((Some(settings), rest)),
        Err(unread) => Err(unread),
    }
}

/// Adds how a window is packed, if it is.
pub fn put_packing(out: &mut Vec<u8>, packing: Option<Settings>) -> Result<(), AllocError>
    ensures puts { PutsSo result out.old.items out.new.items (kinds.packing.write packing) }
    ensures legal { OnOk result (kinds.packing.Legal packing) }
{
    match packing {
        None => put_presence(out, false),
        Some(settings) => {
            put_presence(out, true)?;
            put_settings(out, &settings)
        }
    }
}

/// The length of the spelling of how a window is packed, if it is, in bytes.
#[tactic(auto, using(crate::proofs::Sizes::settings_size))]
pub fn packing_length(packing: Option<Settings>) -> u64
    ensures { result ≡ counted (length (kinds.packing.write packing)) }
{
    match packing {
        None => 1,
        Some(_) => 13,
    }
}
