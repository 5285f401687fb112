//! Which note overtakes another, and from which share on.
ghost use Rattle.std.specs.Prelude.{◌≡◌, ◌<◌, ◌≤◌, ◌+◌, length, IfOk};
ghost use Rattle.tks_pack.specs.Notes.{Rise, Overtaken, AreOvertaken};

use crate::note::{Note, TOO_LONG};
use std::alloc::{AllocError, Global};

/// From how many cells on a note asks for less than a later one, and which that is.
#[derive(Clone, Copy)]
pub struct Overtaking {
    pub from: u64,
    pub by: usize,
}

// Which note overtakes the one at this index first, where this is known of those behind it. A note that is overtaken
// itself before it overtakes this one is passed over.
fn first_overtaking(notes: &[Note], known: &[Overtaking], index: usize) -> Overtaking
    requires index { index + 1 < length notes.now }
    requires rise { Rise notes.now }
    requires known { AreOvertaken (index + 1) notes.now known.now }
    ensures { Overtaken index notes.now result }
{
    let mut by = index + 1;
    let mut from = notes[index].overtaken(notes[by]);
    while known[by].from < from {
        by = known[by].by;
        from = notes[index].overtaken(notes[by]);
    }
    Overtaking { from, by }
}

/// Which note overtakes each one first. A note that is passed over on the way is passed over for all before it too,
/// so each is passed over once.
pub fn overtakings(alloc: Global, notes: &[Note]) -> Result<Vec<Overtaking>, AllocError>
    requires some { 1 ≤ length notes.now }
    requires rise { Rise notes.now }
    ensures { IfOk result (λ v. AreOvertaken 0 notes.now v.items) }
{
    let last = notes.len() - 1;
    let never = Overtaking {
        from: TOO_LONG,
        by: last,
    };
    let mut overtakings = vec![in alloc; never; notes.len()]?;
    for behind in 0..last {
        let index = last - 1 - behind;
        overtakings[index] = first_overtaking(notes, &overtakings, index);
    }
    Ok(overtakings)
}
