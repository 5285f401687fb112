//! The windows.
ghost use Rattle.std.specs.Prelude.{◌≡◌, ◌++◌, [], ◌∷◌, length, map, None, option_map, IfOk, OnOk};
ghost use Rattle.std.specs.List.{AllByRecursion};
ghost use Rattle.tks_spelling.specs.Spelling.{members};
ghost use Rattle.tks_spelling.specs.Reading.{Gives};
ghost use Rattle.tks_spelling.specs.Writing.{PutsSo};
ghost use Rattle.tks_spelling.specs.Lengths.{counted};
ghost use Rattle.tks_codec.specs.Line.{line};
ghost use Rattle.tks_codec.specs.Windows as kinds;
ghost use Rattle.tks_codec.specs.Windows.{packings_of, lines_from, packed_count, ArePacked, held_of, part_of, parts_from, windows_seen, windows_at};
ghost use Rattle.tks_state.specs.WellFormed.{InStep};
ghost use Rattle.tks_state.specs.World.{windows_of};

use crate::line::{Line, Lines, line_length, put_line};
use std::alloc::{AllocError, Global};
use std::collections::BTreeMap;
use tks_codec_windows::{Place, add_contents, placed};
use tks_pack::{Packing, Settings};
use tks_share::SharedList;
use tks_spelling::writing::put_u32;
use tks_spelling::{Unread, list_by};
use tks_state::{Kept, Widget, WindowParts, World};
use tks_text::{Seq, Txt};
use tks_tree::Tree;

// What is read of a window besides its place.
#[derive(Drop)]
struct Held {
    widget: Widget,
    tags: Option<Seq<Txt>>,
}

// Adds a line's place, and what there is besides.
fn part(line: Line, places: &mut Vec<Place>, others: &mut Vec<Held>) -> Result<(), AllocError>
    ensures places { OnOk result (places.new.items ≡ places.old.items ++ line.place ∷ []) }
    ensures others { OnOk result (others.new.items ≡ others.old.items ++ held_of line ∷ []) }
{
    let Line {
        place,
        tags,
        widget,
    } = line;
    others.push(Held { widget, tags })?;
    places.push(place)?;
    Ok(())
}

// Lines as places, and what there is besides.
fn split(alloc: Global, lines: Vec<Line>) -> Result<(Vec<Place>, Vec<Held>), AllocError>
    ensures places { IfOk result (λ x. x.0.items ≡ map (λ l. l.place) lines.items) }
    ensures others { IfOk result (λ x. x.1.items ≡ map held_of lines.items) }
{
    let mut places = Vec::with_capacity(alloc, lines.len())?;
    let mut others = Vec::with_capacity(alloc, lines.len())?;
    for line in lines {
        part(line, &mut places, &mut others)?;
    }
    Ok((places, others))
}

// What a window holds, with how others are packed in it.
fn with_packing(one: Held, packing: Packing) -> WindowParts
    ensures { result ≡ part_of one packing }
{
    let Held { widget, tags } = one;
    WindowParts {
        widget,
        tags,
        packing,
    }
}

// What windows hold, with how others are packed in each.
fn join(
    alloc: Global,
    held: Vec<Held>,
    packings: Vec<Packing>,
) -> Result<Vec<WindowParts>, AllocError>
    ensures { IfOk result (λ parts. parts.items ≡ parts_from held.items packings.items) }
{
    let mut parts = Vec::with_capacity(alloc, held.len())?;
    let mut packings = packings.into_iter();
    for one in held {
        let Some(packing) = packings.next() else {
            return Ok(parts);
        };
        parts.push(with_packing(one, packing))?;
    }
    Ok(parts)
}

/// Windows that were read: the tree, and what there is of each window besides.
#[derive(Drop)]
pub struct WindowsRead {
    pub tree: Tree,
    pub parts: Vec<WindowParts>,
}

// The windows that lines are, with this number for the next one.
fn windows_made(
    alloc: Global,
    next: u64,
    lines: Vec<Line>,
) -> Result<Option<WindowsRead>, AllocError>
    ensures { IfOk result (λ found. option_map windows_seen found ≡ kinds.windows_made next lines.items) }
{
    let (places, held) = split(alloc, lines)?;
    let Some((tree, packings)) = placed(alloc, places.as_slice(), next)? else {
        return Ok(None);
    };
    let parts = join(alloc, held, packings)?;
    Ok(Some(WindowsRead { tree, parts }))
}

/// Windows, with this number for the next one.
#[tactic(auto, unfolding(crate::specs::Windows::windows_at))]
pub fn windows_of(alloc: Global, next: u64, bytes: &[u8]) -> Result<(WindowsRead, &[u8]), Unread>
    ensures { Gives (λ x. (windows_seen x.0, x.1.now)) result (windows_at next bytes.now) }
{
    let (lines, rest) = list_by(alloc, &Lines, bytes)?;
    match windows_made(alloc, next, lines.into_items())? {
        Some(windows) => Ok((windows, rest)),
        None => Err(Unread::Left(rest.len() + 1)),
    }
}

// How each window that is packed is so, by its number.
fn packed_by_number(
    alloc: Global,
    kept: &SharedList<Kept>,
) -> Result<BTreeMap<u64, Settings>, AllocError>
    ensures { IfOk result (λ packed. ArePacked packed kept.now) }
{
    let mut packed = BTreeMap::new(alloc);
    for one in kept.iter() {
        add_contents(&mut packed, one.packing.contents())?;
    }
    Ok(packed)
}

// Adds a line for each window.
fn put_each(
    alloc: Global,
    out: &mut Vec<u8>,
    tree: &Tree,
    kept: &SharedList<Kept>,
) -> Result<(), AllocError>
    requires { InStep tree.now.windows kept.now }
    ensures puts { PutsSo result out.old.items out.new.items (members (λ before. line) None (lines_from (packings_of kept.now) tree.now.windows kept.now)) }
    ensures legal { OnOk result (AllByRecursion line.Legal (lines_from (packings_of kept.now) tree.now.windows kept.now)) }
{
    let packed = packed_by_number(alloc, kept)?;
    for index in 0..kept.len() {
        let Some(window) = tree.nth(index) else {
            unreachable!()
        };
        let Some(one) = kept.get(index) else {
            unreachable!()
        };
        let packing = packed.get(&window.id.number()).copied();
        put_line(out, &window, one, packing)?;
    }
    Ok(())
}

/// Adds the windows of a world, but not the number of the next one.
pub fn put_windows(alloc: Global, out: &mut Vec<u8>, world: &World) -> Result<(), AllocError>
    ensures puts { PutsSo result out.old.items out.new.items ((kinds.windows world.now.tree.next).write (windows_of world.now)) }
    ensures legal { OnOk result ((kinds.windows world.now.tree.next).Legal (windows_of world.now)) }
{
    world.stands();
    let kept = world.all_kept();
    put_u32(out, kept.len() as u32)?;
    put_each(alloc, out, world.tree(), kept)
}

// The length of a line for each window, were none packed, one behind the other.
fn each_length(tree: &Tree, kept: &SharedList<Kept>) -> u64
    requires { InStep tree.now.windows kept.now }
    ensures { result ≡ counted (length (members (λ before. line) None (lines_from [] tree.now.windows kept.now))) }
{
    let mut sum: u64 = 0;
    for index in 0..kept.len() {
        let Some(window) = tree.nth(index) else {
            unreachable!()
        };
        let Some(one) = kept.get(index) else {
            unreachable!()
        };
        sum = sum.saturating_add(line_length(&window, one, None));
    }
    sum
}

// How many windows are packed in windows.
fn packed_count(kept: &SharedList<Kept>) -> u64
    ensures { result ≡ counted (packed_count kept.now) }
{
    let mut sum: u64 = 0;
    for one in kept.iter() {
        sum = sum.saturating_add(one.packing.len() as u64);
    }
    sum
}

/// The length of the spelling of the windows of a world, in bytes. A window that is packed takes 12 bytes more than one that
/// isn't, and each is packed once at most.
pub fn windows_length(world: &World) -> u64
    ensures { result ≡ counted (length ((kinds.windows world.now.tree.next).write (windows_of world.now))) }
{
    world.stands();
    let kept = world.all_kept();
    each_length(world.tree(), kept)
        .saturating_add(packed_count(kept).saturating_mul(12))
        .saturating_add(4)
}
