//! Lists of shared items by endings. Copies share what they have in common.
ghost use Rattle.std.specs.Prelude.{ℕ, ◌≡◌, List, ◌++◌, ◌&&◌, if◌then◌else◌, IfOk, OnOk};
ghost use Rattle.tks_text.specs.Text.{same_text};
ghost use Rattle.tks_bind.specs.Endings.{Key, ending_seen, same_ending};
ghost use Rattle.tks_bind.specs.Groups.{items_in, map_in, group_in};
ghost use Rattle.tks_bind.specs.Tagged.{all_listed, all_in};

use crate::ending::Ending;
use std::alloc::{AllocError, Global};
use tks_share::{Iter, Shared, SharedMap};
use tks_text::Seq;

/// Lists by details, or by the names of virtual events.
pub type Lists<T> = SharedMap<Seq<Shared<T>>>;

/// Lists by kinds, and then by details. None of them is empty.
pub type Groups<T> = SharedMap<Lists<T>>;

/// The list by an ending.
#[tactic(auto, using(crate::proofs::Grouping::no_group))]
pub fn group<'a, T: Drop>(groups: &'a Groups<T>, ending: Ending<'_>) -> &'a [Shared<T>]
    ensures { result.now ≡ group_in groups.now (ending_seen ending.entry) }
{
    let Some(lists) = groups.get(ending.kind) else {
        return &[];
    };
    match lists.get(ending.detail) {
        Some(list) => list.as_slice(),
        None => &[],
    }
}

// Adds items, each held once more.
fn push_held<T: Drop>(found: &mut Seq<Shared<T>>, items: &[Shared<T>]) -> Result<(), AllocError>
    ensures { OnOk result (found.new ≡ found.old ++ items.now) }
{
    for item in items {
        found.push(item.share()?)?;
    }
    Ok(())
}

/// Items, each held once more.
pub fn held<T: Drop>(alloc: Global, items: &[Shared<T>]) -> Result<Seq<Shared<T>>, AllocError>
    ensures { IfOk result (λ copy. copy ≡ items.now) }
{
    let mut copy = Seq::new(alloc);
    push_held(&mut copy, items)?;
    Ok(copy)
}

// Adds the items of lists.
fn push_lists<T: Drop>(
    found: &mut Seq<Shared<T>>,
    lists: Iter<'_, Seq<Shared<T>>>,
) -> Result<(), AllocError>
    ensures { OnOk result (found.new ≡ found.old ++ all_listed lists.entry) }
{
    for (_detail, list) in lists {
        push_held(found, list.as_slice())?;
    }
    Ok(())
}

/// All items, each held once more.
pub fn all_of<T: Drop>(alloc: Global, groups: &Groups<T>) -> Result<Seq<Shared<T>>, AllocError>
    ensures { IfOk result (λ found. found ≡ all_in groups.now) }
{
    let mut found = Seq::new(alloc);
    for (_kind, lists) in groups.iter() {
        push_lists(&mut found, lists.iter())?;
    }
    Ok(found)
}

/// With this list under a detail or a name.
#[tactic(auto, using(crate::proofs::Grouping::item_put, crate::proofs::Grouping::item_taken))]
pub fn with_list<T: Drop>(
    lists: &Lists<T>,
    name: &[u8],
    list: Seq<Shared<T>>,
) -> Result<Lists<T>, AllocError>
    ensures { IfOk result (λ made. (other : List ℕ) → items_in made other ≡ (if same_text other name.now then list else items_in lists.now other)) }
{
    let mut made = lists.share()?;
    if list.is_empty() {
        made.remove(name)?;
    } else {
        made.insert(name, list)?;
    }
    Ok(made)
}

/// The map under a name, or one without names.
pub fn map_in<V: Drop>(
    alloc: Global,
    maps: &SharedMap<SharedMap<V>>,
    name: &[u8],
) -> Result<SharedMap<V>, AllocError>
    ensures { IfOk result (λ map. map ≡ map_in maps.now name.now) }
{
    match maps.get(name) {
        Some(map) => map.share(),
        None => Ok(SharedMap::new(alloc)),
    }
}

/// With this map under a name.
#[tactic(auto, using(crate::proofs::Grouping::map_put, crate::proofs::Grouping::map_taken))]
pub fn with_map<V: Drop>(
    maps: &SharedMap<SharedMap<V>>,
    name: &[u8],
    map: SharedMap<V>,
) -> Result<SharedMap<SharedMap<V>>, AllocError>
    ensures { IfOk result (λ made. (other : List ℕ) → map_in made other ≡ (if same_text other name.now then map else map_in maps.now other)) }
{
    let mut made = maps.share()?;
    if map.len() == 0 {
        made.remove(name)?;
    } else {
        made.insert(name, map)?;
    }
    Ok(made)
}

/// With this list by an ending.
pub fn with_group<T: Drop>(
    alloc: Global,
    groups: &Groups<T>,
    ending: Ending<'_>,
    list: Seq<Shared<T>>,
) -> Result<Groups<T>, AllocError>
    ensures { IfOk result (λ made. (e : Key) → group_in made e ≡ (if same_ending e (ending_seen ending.entry) then list else group_in groups.now e)) }
{
    let lists = map_in(alloc, groups, ending.kind)?;
    let lists = with_list(&lists, ending.detail, list)?;
    with_map(groups, ending.kind, lists)
}
