//! Lists of items.
ghost use Rattle.std.specs.Prelude.{◌≡◌, ◌≤◌, ◌<◌, ◌+◌, ◌++◌, length, take, drop, map, IfOk, OnOk};
ghost use Rattle.std.specs.Fmt.{decimal};
ghost use Rattle.tks_listbox.specs.Bounds.{Encloses};
ghost use Rattle.tks_listbox.specs.Listbox.{new_item, among, turned_in, selected_from};
ghost use Rattle.tks_listbox.specs.Shown.{longest};
ghost use Rattle.tks_list.specs.Quoting.{joined};

use crate::bounds::Bounds;
use crate::item::Item;
use std::alloc::{AllocError, Global};
use tks_list::Elements;
use tks_share::SharedList;
use tks_text::{Txt, decimal_of};

/// Puts new items with these texts in at a place.
pub fn insert_new(
    items: &mut SharedList<Item>,
    place: usize,
    texts: &[Txt],
) -> Result<(), AllocError>
    requires { place ≤ length items.old }
    ensures { OnOk result (items.new ≡ take place items.old ++ (map new_item texts.now ++ drop place items.old)) }
{
    let _len = items.len();
    for (index, text) in texts.iter().enumerate() {
        items.insert(place + index, Item::new(text)?)?;
    }
    Ok(())
}

// Takes the items from one place up to another out, one by one.
fn remove_each(items: &mut SharedList<Item>, front: usize, behind: usize) -> Result<(), AllocError>
    requires { (front ≤ behind) × (behind ≤ length items.old) }
    ensures { OnOk result (items.new ≡ take front items.old ++ drop behind items.old) }
{
    for _place in front..behind {
        let _item = items.remove(front)?;
    }
    Ok(())
}

/// Takes the items from one place up to another out.
pub fn remove_among(
    alloc: Global,
    items: &mut SharedList<Item>,
    front: usize,
    behind: usize,
) -> Result<(), AllocError>
    requires { (front ≤ behind) × (behind ≤ length items.old) }
    ensures { OnOk result (items.new ≡ take front items.old ++ drop behind items.old) }
{
    if front == 0 && behind == items.len() {
        *items = SharedList::new(alloc);
        return Ok(());
    }
    remove_each(items, front, behind)
}

// Selects the item in a place, or takes it out of the selection.
fn turn_at(items: &mut SharedList<Item>, on: bool, place: usize) -> Result<(), AllocError>
    requires { place < length items.old }
    ensures { OnOk result (items.new ≡ turned_in on place (place + 1) items.old) }
{
    let Some(item) = items.get(place) else {
        unreachable!()
    };
    if item.is_selected == on {
        return Ok(());
    }
    let turned = item.turned(on)?;
    items.set(place, turned)?;
    Ok(())
}

// Selects the items from one place up to another, or takes them out of the selection, one by one.
fn turn_each(
    items: &mut SharedList<Item>,
    on: bool,
    front: usize,
    behind: usize,
) -> Result<(), AllocError>
    requires { behind ≤ length items.old }
    ensures { OnOk result (items.new ≡ turned_in on front behind items.old) }
{
    for place in front..behind {
        turn_at(items, on, place)?;
    }
    Ok(())
}

/// Selects the items from one place up to another, or takes them out of the selection, in which no item outside these bounds is.
#[tactic(auto, using(crate::proofs::Enclosing::turned_off_within))]
pub fn turn_among(
    items: &mut SharedList<Item>,
    on: bool,
    front: usize,
    behind: usize,
    bounds: Bounds,
) -> Result<(), AllocError>
    requires within { behind ≤ length items.old }
    requires enclosed { Encloses bounds items.old }
    ensures { OnOk result (items.new ≡ turned_in on front behind items.old) }
{
    if on {
        turn_each(items, true, front, behind)
    } else {
        turn_each(
            items,
            false,
            front.max(bounds.front),
            behind.min(bounds.behind),
        )
    }
}

/// The texts of the items from one place up to another; none where the first isn't below.
pub fn texts_among(
    alloc: Global,
    items: &SharedList<Item>,
    front: usize,
    behind: usize,
) -> Result<Elements, AllocError>
    requires { behind ≤ length items.now }
    ensures { IfOk result (λ texts. texts ≡ map (λ item. item.text) (among front behind items.now)) }
{
    let mut texts = Elements::with_room(alloc, behind.saturating_sub(front), 0)?;
    for place in front..behind {
        let Some(item) = items.get(place) else {
            unreachable!()
        };
        texts.push(item.text.as_bytes())?;
    }
    Ok(texts)
}

/// The places of selected items, which all stand between these bounds, as decimals.
pub fn selected_texts(
    alloc: Global,
    items: &SharedList<Item>,
    bounds: Bounds,
) -> Result<Elements, AllocError>
    requires { Encloses bounds items.now }
    ensures { IfOk result (λ texts. texts ≡ map decimal (selected_from 0 items.now)) }
{
    let _len = items.len();
    let mut texts = Elements::with_room(alloc, 0, 0)?;
    for place in bounds.front..bounds.behind {
        let Some(item) = items.get(place) else {
            unreachable!()
        };
        if item.is_selected {
            let text = decimal_of(alloc, place as i64)?;
            texts.push(text.as_bytes())?;
        }
    }
    Ok(texts)
}

/// The list of all elements.
pub fn joined(alloc: Global, elements: &Elements) -> Result<Txt, AllocError>
    ensures { IfOk result (λ t. t ≡ joined elements.now) }
{
    let len = elements.len();
    elements.joined(alloc, 0, len)
}

/// The length of the longest.
pub fn longest(items: &SharedList<Item>) -> usize
    ensures { result ≡ longest items.now }
{
    let mut most = 0;
    for item in items.iter() {
        most = most.max(item.text.len());
    }
    most
}
