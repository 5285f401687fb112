//! Bindings by their tags and by the endings of their sequences.
ghost use Rattle.std.specs.Prelude.{ℕ, ◌≡◌, List, ◌&&◌, if◌then◌else◌, IfOk, option_copied};
ghost use Rattle.std.specs.List.{find};
ghost use Rattle.tks_text.specs.Text.{same_text};
ghost use Rattle.tks_bind.specs.declared.binding.Binding.{Binding};
ghost use Rattle.tks_bind.specs.Binding.{is_for, placed, without};
ghost use Rattle.tks_bind.specs.Indexes.{index_of};
ghost use Rattle.tks_bind.specs.Endings.{Key, ending_seen, same_ending};
ghost use Rattle.tks_bind.specs.Groups.{group_of, Groups};
ghost use Rattle.tks_bind.specs.Tagged.{AreOf};

use crate::binding::Binding;
use crate::ending::Ending;
use crate::groups::{Groups, all_of, group, held, map_in, with_group, with_map};
use std::alloc::{AllocError, Global};
use tks_event::Sequence;
use tks_share::{Shared, SharedMap};
use tks_text::{Seq, Txt};

/// Bindings by tags, and then by endings.
pub type TagGroups = SharedMap<Groups<Binding>>;

/// The bindings of a tag whose sequences end so, in the order in which they were made.
#[tactic(auto, using(crate::proofs::Grouping::no_groups))]
pub fn group_of<'a>(tags: &'a TagGroups, tag: &Txt, ending: Ending<'_>) -> &'a [Shared<Binding>]
    ensures { result.now ≡ group_of tags.now tag.now (ending_seen ending.entry) }
{
    match tags.get(tag.as_bytes()) {
        Some(groups) => group(groups, ending),
        None => &[],
    }
}

/// The bindings of a tag, each held once more.
pub fn bindings_of(
    alloc: Global,
    tags: &TagGroups,
    tag: &Txt,
) -> Result<Seq<Shared<Binding>>, AllocError>
    ensures { IfOk result (λ found. (bs : List Binding) → Groups tags.now bs → AreOf tag.now bs found) }
{
    let Some(groups) = tags.get(tag.as_bytes()) else {
        return Ok(Seq::new(alloc));
    };
    let found = all_of(alloc, groups)?;
    Ok(found)
}

// With this list by a tag and an ending.
#[tactic(auto, using(crate::proofs::Grouping::group_put_of))]
fn with_group_of(
    alloc: Global,
    tags: &TagGroups,
    tag: &Txt,
    ending: Ending<'_>,
    list: Seq<Shared<Binding>>,
) -> Result<TagGroups, AllocError>
    ensures { IfOk result (λ made. (other : List ℕ) (e : Key) → group_of made other e ≡ (if same_text other tag.now && same_ending e (ending_seen ending.entry) then list else group_of tags.now other e)) }
{
    let groups = map_in(alloc, tags, tag.as_bytes())?;
    let groups = with_group(alloc, &groups, ending, list)?;
    with_map(tags, tag.as_bytes(), groups)
}

// The place of the binding of a tag and a sequence, or the end.
fn place_of(list: &[Shared<Binding>], tag: &Txt, sequence: &Sequence) -> usize
    ensures { result ≡ index_of tag.now sequence.now list.now }
{
    for (place, binding) in list.iter().enumerate() {
        if binding.get().is_for(tag, sequence) {
            return place;
        }
    }
    list.len()
}

/// The binding of a tag and a sequence.
pub fn held_for<'a>(
    tags: &'a TagGroups,
    tag: &Txt,
    sequence: &Sequence,
) -> Option<&'a Shared<Binding>>
    ensures { (bs : List Binding) → Groups tags.now bs → option_copied result ≡ find (is_for tag.now sequence.now) bs }
{
    let list = group_of(tags, tag, Ending::of(sequence));
    list.get(place_of(list, tag, sequence))
}

// With a binding in the place of the one of its tag and sequence, or at the end.
#[tactic(auto, using(crate::proofs::Placing::placed_there, crate::proofs::Placing::placed_last))]
fn placed(
    alloc: Global,
    list: &[Shared<Binding>],
    binding: &Shared<Binding>,
) -> Result<Seq<Shared<Binding>>, AllocError>
    ensures { IfOk result (λ made. made ≡ placed binding.now list.now) }
{
    let mut made = held(alloc, list)?;
    let place = place_of(list, &binding.get().tag, &binding.get().sequence);
    if place < made.len() {
        made.set(place, binding.share()?);
    } else {
        made.push(binding.share()?)?;
    }
    Ok(made)
}

// Without the binding of a tag and a sequence.
#[tactic(auto, using(crate::proofs::Placing::taken_there, crate::proofs::Placing::none_taken))]
fn without(
    alloc: Global,
    list: &[Shared<Binding>],
    tag: &Txt,
    sequence: &Sequence,
) -> Result<Seq<Shared<Binding>>, AllocError>
    ensures { IfOk result (λ made. made ≡ without tag.now sequence.now list.now) }
{
    let mut made = held(alloc, list)?;
    let place = place_of(list, tag, sequence);
    if place < made.len() {
        made.remove(place);
    }
    Ok(made)
}

/// With a binding in the place of the one of its tag and sequence, or at the end.
pub fn with_binding(
    alloc: Global,
    tags: &TagGroups,
    binding: &Shared<Binding>,
) -> Result<TagGroups, AllocError>
    ensures { IfOk result (λ made. (bs : List Binding) → Groups tags.now bs → Groups made (placed binding.now bs)) }
{
    let (tag, ending) = (&binding.get().tag, Ending::of(&binding.get().sequence));
    let list = placed(alloc, group_of(tags, tag, ending), binding)?;
    let tags = with_group_of(alloc, tags, tag, ending, list)?;
    Ok(tags)
}

/// Without the binding of a tag and a sequence.
pub fn without_binding(
    alloc: Global,
    tags: &TagGroups,
    tag: &Txt,
    sequence: &Sequence,
) -> Result<TagGroups, AllocError>
    ensures { IfOk result (λ made. (bs : List Binding) → Groups tags.now bs → Groups made (without tag.now sequence.now bs)) }
{
    let ending = Ending::of(sequence);
    let list = without(alloc, group_of(tags, tag, ending), tag, sequence)?;
    let tags = with_group_of(alloc, tags, tag, ending, list)?;
    Ok(tags)
}
