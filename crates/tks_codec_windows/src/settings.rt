//! How a window is packed.
ghost use Rattle.std.specs.Prelude.{OnOk};
ghost use Rattle.tks_spelling.specs.Reading.{Gives};
ghost use Rattle.tks_spelling.specs.Writing.{PutsSo, flattened};
ghost use Rattle.tks_codec_windows.specs.Packing as kinds;
ghost use Rattle.tks_codec_windows.specs.Packing.{settings_at, settings_parts};

use std::alloc::AllocError;
use tks_opt::Anchor;
use tks_pack::{Fill, Padding, Settings, Side};
use tks_spelling::Unread;
use tks_spelling::reading::{flag_of, u8_of, u16_of};
use tks_spelling::writing::{put_flag, put_u8, put_u16};

// A side.
fn side_of(bytes: &[u8]) -> Result<(Side, &[u8]), Unread>
    ensures { Gives (λ x. (x.0, x.1.now)) result (kinds.side.read bytes.now) }
{
    let (number, rest) = u8_of(bytes)?;
    match Side::numbered(number) {
        Some(side) => Ok((side, rest)),
        None => Err(Unread::Left(rest.len() + 1)),
    }
}

// A way of filling.
fn fill_of(bytes: &[u8]) -> Result<(Fill, &[u8]), Unread>
    ensures { Gives (λ x. (x.0, x.1.now)) result (kinds.fill.read bytes.now) }
{
    let (number, rest) = u8_of(bytes)?;
    match Fill::numbered(number) {
        Some(fill) => Ok((fill, rest)),
        None => Err(Unread::Left(rest.len() + 1)),
    }
}

// An anchor.
fn anchor_of(bytes: &[u8]) -> Result<(Anchor, &[u8]), Unread>
    ensures { Gives (λ x. (x.0, x.1.now)) result (kinds.anchor.read bytes.now) }
{
    let (number, rest) = u8_of(bytes)?;
    match Anchor::numbered(number) {
        Some(anchor) => Ok((anchor, rest)),
        None => Err(Unread::Left(rest.len() + 1)),
    }
}

// The cells of a padding.
fn padding_of(bytes: &[u8]) -> Result<(u16, &[u8]), Unread>
    ensures { Gives (λ x. (x.0, x.1.now)) result (kinds.padding.read bytes.now) }
{
    let (cells, rest) = u16_of(bytes)?;
    if Padding::MAX < cells {
        return Err(Unread::Left(rest.len() + 1));
    }
    Ok((cells, rest))
}

/// Settings.
#[tactic(auto, unfolding(crate::specs::Packing::settings_at))]
pub fn settings_of(bytes: &[u8]) -> Result<(Settings, &[u8]), Unread>
    ensures { Gives (λ x. (x.0, x.1.now)) result (settings_at bytes.now) }
{
    let (side, rest) = side_of(bytes)?;
    let (fill, rest) = fill_of(rest)?;
    let (expand, rest) = flag_of(rest)?;
    let (anchor, rest) = anchor_of(rest)?;
    let (padx, rest) = padding_of(rest)?;
    let (pady, rest) = padding_of(rest)?;
    let (ipadx, rest) = padding_of(rest)?;
    let (ipady, rest) = padding_of(rest)?;
    let settings = Settings {
        side,
        fill,
        expand,
        anchor,
        padx: Padding::of(padx),
        pady: Padding::of(pady),
        ipadx: Padding::of(ipadx),
        ipady: Padding::of(ipady),
    };
    Ok((settings, rest))
}

// Adds the parts of settings.
#[tactic(auto, using(tks_spelling::proofs::Puts::flattened_puts, crate::proofs::OfPacking::settings_legal))]
fn put_parts(out: &mut Vec<u8>, settings: &Settings) -> Result<(), AllocError>
    ensures puts { PutsSo result out.old.items out.new.items (flattened (settings_parts settings.now)) }
    ensures legal { OnOk result (kinds.settings.Legal settings.now) }
{
    put_u8(out, settings.side.number())?;
    put_u8(out, settings.fill.number())?;
    put_flag(out, settings.expand)?;
    put_u8(out, settings.anchor.number())?;
    put_u16(out, settings.padx.cells())?;
    put_u16(out, settings.pady.cells())?;
    put_u16(out, settings.ipadx.cells())?;
    put_u16(out, settings.ipady.cells())
}

/// Adds settings.
#[tactic(auto, unfolding(tks_spelling::specs::Writing::flattened))]
pub fn put_settings(out: &mut Vec<u8>, settings: &Settings) -> Result<(), AllocError>
    ensures puts { PutsSo result out.old.items out.new.items (kinds.settings.write settings.now) }
    ensures legal { OnOk result (kinds.settings.Legal settings.now) }
{
    put_parts(out, settings)
}
