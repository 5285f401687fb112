//! The sequences by which virtual events are met, by their endings, and then by the events' names.
ghost use Rattle.std.specs.Prelude.{◌≡◌, [], ◌∷◌, if◌then◌else◌, IfOk, option_copied};
ghost use Rattle.std.specs.List.{filter};
ghost use Rattle.tks_bind.specs.Endings.{ending_seen};
ghost use Rattle.tks_bind.specs.Groups.{mapped, names_in, Spot, same_spot, list_at, is_other};
ghost use Rattle.tks_bind.specs.Throughs.{Gains, Drops, ArePlaced};

use crate::ending::Ending;
use crate::groups::{Lists, held, map_in, with_list, with_map};
use std::alloc::{AllocError, Global};
use tks_event::{Sequence, are_equal};
use tks_share::{Shared, SharedMap};
use tks_text::{Seq, Txt};

/// A sequence by which a virtual event is met.
#[derive(Drop)]
pub struct Through {
    /// The virtual event's name.
    pub name: Txt,
    pub sequence: Sequence,
}

/// Sequences by kinds, by details, and then by names. What a name has is short, however many virtual events end alike.
pub type Throughs = SharedMap<SharedMap<Lists<Through>>>;

/// The sequences that end so, by the names of their virtual events.
pub fn names<'a>(groups: &'a Throughs, ending: Ending<'_>) -> Option<&'a Lists<Through>>
    ensures { mapped (option_copied result) ≡ names_in groups.now (ending_seen ending.entry) }
{
    match groups.get(ending.kind) {
        Some(details) => details.get(ending.detail),
        None => None,
    }
}

// The sequences of a virtual event that end so.
fn list<'a>(groups: &'a Throughs, ending: Ending<'_>, name: &Txt) -> &'a [Shared<Through>]
    ensures { result.now ≡ list_at groups.now (record { ending = ending_seen ending.entry; name = name.now }) }
{
    let Some(lists) = names(groups, ending) else {
        return &[];
    };
    match lists.get(name.as_bytes()) {
        Some(list) => list.as_slice(),
        None => &[],
    }
}

// With this list of a virtual event by an ending.
fn with_list_at(
    alloc: Global,
    groups: &Throughs,
    ending: Ending<'_>,
    name: &Txt,
    list: Seq<Shared<Through>>,
) -> Result<Throughs, AllocError>
    ensures { IfOk result (λ made. (s : Spot) → list_at made s ≡ (if same_spot s (record { ending = ending_seen ending.entry; name = name.now }) then list else list_at groups.now s)) }
{
    let details = map_in(alloc, groups, ending.kind)?;
    let lists = map_in(alloc, &details, ending.detail)?;
    let lists = with_list(&lists, name.as_bytes(), list)?;
    let details = with_map(&details, ending.detail, lists)?;
    let groups = with_map(groups, ending.kind, details)?;
    Ok(groups)
}

// With a sequence of a virtual event, which goes behind those of it that end so.
#[tactic(auto, using(crate::proofs::Leading::gains_one))]
fn with_one(
    alloc: Global,
    groups: &Throughs,
    name: &Txt,
    sequence: &Sequence,
) -> Result<Throughs, AllocError>
    ensures { IfOk result (λ made. Gains name.now (sequence.now ∷ []) groups.now made) }
{
    let through = Through {
        name: name.try_clone()?,
        sequence: sequence.try_clone(alloc)?,
    };
    let ending = Ending::of_last(sequence);
    let mut list = held(alloc, list(groups, ending, name))?;
    list.push(Shared::new(alloc, through)?)?;
    with_list_at(alloc, groups, ending, name, list)
}

/// With sequences of a virtual event.
pub fn with_sequences(
    alloc: Global,
    groups: &Throughs,
    name: &Txt,
    sequences: &[Sequence],
) -> Result<Throughs, AllocError>
    ensures { IfOk result (λ made. Gains name.now sequences.now groups.now made) }
{
    let mut made = groups.share()?;
    for sequence in sequences {
        made = with_one(alloc, &made, name, sequence)?;
    }
    Ok(made)
}

// Those but one.
fn others(
    alloc: Global,
    list: &[Shared<Through>],
    name: &Txt,
    sequence: &Sequence,
) -> Result<Seq<Shared<Through>>, AllocError>
    ensures { IfOk result (λ left. left ≡ filter (is_other name.now sequence.now) list.now) }
{
    let mut left = Seq::new(alloc);
    for held in list {
        let through = held.get();
        let is_it = through.name == *name
            && are_equal(through.sequence.as_slice(), sequence.as_slice());
        if !is_it {
            left.push(held.share()?)?;
        }
    }
    Ok(left)
}

// Without a sequence of a virtual event.
#[tactic(auto, using(crate::proofs::Leading::drops_one))]
fn without_one(
    alloc: Global,
    groups: &Throughs,
    name: &Txt,
    sequence: &Sequence,
) -> Result<Throughs, AllocError>
    ensures { IfOk result (λ made. ArePlaced groups.now → Drops name.now (sequence.now ∷ []) groups.now made) }
{
    let ending = Ending::of_last(sequence);
    let list = others(alloc, list(groups, ending, name), name, sequence)?;
    with_list_at(alloc, groups, ending, name, list)
}

/// Without sequences of a virtual event.
pub fn without_sequences(
    alloc: Global,
    groups: &Throughs,
    name: &Txt,
    sequences: &[Sequence],
) -> Result<Throughs, AllocError>
    ensures { IfOk result (λ made. ArePlaced groups.now → Drops name.now sequences.now groups.now made) }
{
    let mut made = groups.share()?;
    for sequence in sequences {
        made = without_one(alloc, &made, name, sequence)?;
    }
    Ok(made)
}
