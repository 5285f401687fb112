//! How windows are packed, found by their numbers.
ghost use Rattle.std.specs.Prelude.{◌≡◌, ℕ, ◌==◌, if◌then◌else◌, Some, None, IfOk, OnOk};
ghost use Rattle.std.specs.BTreeMap.{get};
ghost use Rattle.std.specs.Ordering.{nat_cmp};
ghost use Rattle.tks_codec_windows.specs.Places.{or_else, packed_as, settings_in, Says};

use crate::place::Place;
use std::alloc::{AllocError, Global};
use std::collections::BTreeMap;
use tks_pack::{Content, Packing, Settings};
use tks_share::Items;

// Adds how the window of this number is packed, unless that is there already.
fn add_packed(
    packed: &mut BTreeMap<u64, Settings>,
    number: u64,
    settings: Settings,
) -> Result<(), AllocError>
    ensures { OnOk result ((n : ℕ) → get nat_cmp packed.new n ≡ or_else (get nat_cmp packed.old n) (if number == n then Some settings else None)) }
{
    if !packed.contains_key(&number) {
        packed.insert(number, settings)?;
    }
    Ok(())
}

/// Adds how windows are packed among contents, but for those that are there already.
pub fn add_contents(
    packed: &mut BTreeMap<u64, Settings>,
    contents: Items<'_, Content>,
) -> Result<(), AllocError>
    ensures { OnOk result ((n : ℕ) → get nat_cmp packed.new n ≡ or_else (get nat_cmp packed.old n) (settings_in contents.entry n)) }
{
    for content in contents {
        add_packed(packed, content.window.number(), content.settings)?;
    }
    Ok(())
}

/// How windows are packed, each in the first of these that it is packed in.
pub(crate) fn packed_by_number(
    alloc: Global,
    packings: &[Packing],
) -> Result<BTreeMap<u64, Settings>, AllocError>
    ensures { IfOk result (λ packed. (n : ℕ) → get nat_cmp packed n ≡ packed_as packings.now n) }
{
    let mut packed = BTreeMap::new(alloc);
    for packing in packings {
        add_contents(&mut packed, packing.contents())?;
    }
    Ok(packed)
}

/// How windows are packed as their places say, the first of each.
pub(crate) fn settings_by_number(
    alloc: Global,
    places: &[Place],
) -> Result<BTreeMap<u64, Settings>, AllocError>
    ensures { IfOk result (λ settings. Says settings places.now) }
{
    let mut settings = BTreeMap::new(alloc);
    for place in places {
        let one = place.packing.unwrap_or(Settings::new());
        add_packed(&mut settings, place.window.number(), one)?;
    }
    Ok(settings)
}
