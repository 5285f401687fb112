//! The tree of windows, and what is packed in each, made again of their places.
ghost use Rattle.std.specs.Prelude.{◌≡◌, true, map, if◌then◌else◌, Some, None, option_map, IfOk};
ghost use Rattle.tks_tree.specs.WellFormed.{is_widget_class};
ghost use Rattle.tks_codec_windows.specs.Places as kinds;
ghost use Rattle.tks_codec_windows.specs.Places.{with_number, with_place, with_places, is_first, tree_of, packed_by, packings_in, are_packed};

use crate::packed::{packed_by_number, settings_by_number};
use crate::place::{Place, same_packing};
use std::alloc::{AllocError, Global};
use std::collections::BTreeMap;
use tks_pack::{Content, Packing, Settings};
use tks_tree::{CreateFault, Tree, WindowId, is_widget_class};

// Adds a window with its own number, and says whether it may be.
fn add_numbered(tree: &mut Tree, place: &Place) -> Result<bool, AllocError>
    requires { is_widget_class place.now.class ≡ true }
    ensures { IfOk result (λ made. with_number tree.old place.now ≡ (if made then Some tree.new else None)) }
{
    if !tree.skip_to(place.window.number()) {
        return Ok(false);
    }
    match tree.create(&place.path, place.class) {
        Ok(_) => Ok(true),
        Err(CreateFault::NoMemory) => Err(AllocError),
        Err(_) => Ok(false),
    }
}

// Adds a window other than `.`, and says whether it may be.
fn add_place(tree: &mut Tree, place: &Place) -> Result<bool, AllocError>
    ensures { IfOk result (λ made. with_place tree.old place.now ≡ (if made then Some tree.new else None)) }
{
    if !is_widget_class(place.class) {
        return Ok(false);
    }
    add_numbered(tree, place)
}

// Adds windows, and says whether all may be.
fn add_places(tree: &mut Tree, places: &[Place]) -> Result<bool, AllocError>
    ensures { IfOk result (λ made. with_places tree.old places.now ≡ (if made then Some tree.new else None)) }
{
    for place in places {
        if !add_place(tree, place)? {
            return Ok(false);
        }
    }
    Ok(true)
}

// Whether this is the place of `.`.
fn is_first(place: &Place) -> bool
    ensures { result ≡ is_first place.now }
{
    place.window.is_root()
        && place.path.as_bytes() == b".".as_slice()
        && !is_widget_class(place.class)
}

// The tree, of which `.` comes first.
fn tree_of(alloc: Global, next: u64, places: &[Place]) -> Result<Option<Tree>, AllocError>
    ensures { IfOk result (λ tree. tree ≡ tree_of next places.now) }
{
    let Some((first, others)) = places.split_first() else {
        return Ok(None);
    };
    if !is_first(first) {
        return Ok(None);
    }
    let mut tree = Tree::new(alloc)?;
    if add_places(&mut tree, others)? && tree.skip_to(next) {
        Ok(Some(tree))
    } else {
        Ok(None)
    }
}

// What is packed in the window of a place, each as the settings say.
fn packed_in(
    alloc: Global,
    settings: &BTreeMap<u64, Settings>,
    place: &Place,
) -> Result<Packing, AllocError>
    ensures { IfOk result (λ p. p ≡ packed_by settings.now place.now) }
{
    let mut contents = Vec::with_capacity(alloc, place.contents.len())?;
    for number in place.contents.as_slice() {
        contents.push(Content {
            window: WindowId::of(*number),
            settings: settings.get(number).copied().unwrap_or(Settings::new()),
        })?;
    }
    Packing::restore(alloc, contents, place.propagates)
}

// What is packed in the window of each place.
fn packings_in(alloc: Global, places: &[Place]) -> Result<Vec<Packing>, AllocError>
    ensures { IfOk result (λ ps. ps.items ≡ packings_in places.now) }
{
    let settings = settings_by_number(alloc, places)?;
    let mut packings = Vec::with_capacity(alloc, places.len())?;
    for place in places {
        packings.push(packed_in(alloc, &settings, place)?)?;
    }
    Ok(packings)
}

// Whether each window is packed as its place says.
fn are_packed(alloc: Global, packings: &[Packing], places: &[Place]) -> Result<bool, AllocError>
    ensures { IfOk result (λ are. are ≡ are_packed packings.now places.now) }
{
    let packed = packed_by_number(alloc, packings)?;
    for place in places {
        let found = packed.get(&place.window.number()).copied();
        if !same_packing(found, place.packing) {
            return Ok(false);
        }
    }
    Ok(true)
}

/// The tree of windows with these places, where the next window gets this number, and what is packed in each of its windows;
/// none where these are no places of windows. That what is packed in a window are windows that are there, and stand right in
/// it, is not asked here.
pub fn placed(
    alloc: Global,
    places: &[Place],
    next: u64,
) -> Result<Option<(Tree, Vec<Packing>)>, AllocError>
    ensures { IfOk result (λ found. option_map (λ x. (x.0, x.1.items)) found ≡ kinds.placed next places.now) }
{
    let Some(tree) = tree_of(alloc, next, places)? else {
        return Ok(None);
    };
    let packings = packings_in(alloc, places)?;
    if !are_packed(alloc, &packings, places)? {
        return Ok(None);
    }
    Ok(Some((tree, packings)))
}
