//! A side that is begun: its header and world, behind a gate that is opened last.
ghost use Rattle.std.specs.Prelude.{◌≡◌, ◌↔◌, ◌<◌, ◌^◌, ◌+◌, ◌++◌, ◌∷◌, [], ℕ, true, List, OnOk, IfOk, length, take, Ok};
ghost use Rattle.tks_spelling.specs.Header as headers;
ghost use Rattle.tks_spelling.specs.Header.{AreNames};
ghost use Rattle.tks_disk.specs.DiskModel.{View, Images, on, beside, Counts};
ghost use Rattle.tks_journal.specs.Journal.{SpelledAs};
ghost use Rattle.tks_journal.specs.Moments.{LeavesOnly, IsSettled};
ghost use Rattle.tks_journal.specs.Staging.{Begins, Staged};
ghost use Rattle.tks_journal.specs.Resting.{AtRest, OneOf, Vacant, begun_as};
ghost use Rattle.tks_journal.specs.Sides.{holds, is_given, other_of};

use crate::gate::{close_gate, open_gate};
use crate::pieces::write_pieces;
use std::alloc::{AllocError, Global};
use tks_disk::{DeviceFault, Disk, Side};
use tks_spelling::{Format, Header, write_header};

/// The format in which sides are begun.
pub const NEWEST: Format = Format::Two;

/// The side beside this one.
pub fn other(side: Side) -> Side
    ensures { result ≡ other_of side }
{
    match side {
        Side::A => Side::B,
        Side::B => Side::A,
    }
}

/// The spelling of a header, as a side is begun with it. The names have to rise by their bytes, and there are fewer than 2^32
/// of them, each of fewer than 2^32 bytes.
pub fn spell(alloc: Global, header: &Header) -> Result<Vec<u8>, AllocError>
    requires names { AreNames header.now.names }
    requires legal { headers.header.Legal header.now }
    ensures reads { IfOk result (λ head. SpelledAs head.items header.now) }
    ensures spelled { IfOk result (λ head. head.items ≡ headers.header.write header.now) }
{
    let mut head = Vec::new(alloc);
    write_header(header, &mut head)?;
    Ok(head)
}

/// Writes the format, the header, the world and a closed gate behind the gate at the front, which stays closed, and syncs the
/// side.
fn stage_side<D: Disk>(
    disk: &mut D,
    side: Side,
    head: &[u8],
    world: &[u8],
) -> Result<(), DeviceFault>
    requires room { length head.now + length world.now < 2 ^ 61 }
    requires some { D.honest disk.old → 0 < length (on side (D.view disk.old).reads) }
    requires settled { D.honest disk.old → IsSettled (D.view disk.old) }
    ensures any_moment { D.honest disk.old → LeavesOnly (D.view disk.old) (D.view disk.new)
        (Begins side (take 1 (on side (D.view disk.old).reads)) (beside side (D.view disk.old).reads)) }
    ensures staged { OnOk result (D.honest disk.old
        → Staged side 1 (2 ∷ head.now ++ (world.now ++ 0 ∷ [])) (D.view disk.old) (D.view disk.new)) }
    ensures honesty { D.honest disk.old ↔ D.honest disk.new }
    ensures counts { Counts result (D.failures disk.old) (D.failures disk.new) }
{
    write_pieces(disk, side, 1, &[NEWEST.byte()])?;
    write_pieces(disk, side, 2, head)?;
    write_pieces(disk, side, 2 + head.len(), world)?;
    write_pieces(disk, side, 2 + head.len() + world.len(), &[0])?;
    disk.sync(side)?;
    Ok(())
}

/// Begins a side with this header, spelled as `head`, and this world: closes its gate, writes what stands behind it, and opens
/// it.
pub fn start_side<D: Disk>(
    disk: &mut D,
    side: Side,
    header: &Header,
    head: &[u8],
    world: &[u8],
) -> Result<(), DeviceFault>
    requires spelled { SpelledAs head.now header.now }
    requires given { is_given header.now.generation ≡ true }
    requires measured { header.now.world_length ≡ length world.now }
    requires room { length head.now + length world.now < 2 ^ 61 }
    requires settled { D.honest disk.old → IsSettled (D.view disk.old) }
    requires vacant { D.honest disk.old → Vacant side header.now.generation (D.view disk.old).reads }
    ensures at_rest { OnOk result (D.honest disk.old → AtRest (D.view disk.new) side (2 + length head.now + length world.now)) }
    ensures holds { OnOk result (D.honest disk.old → holds (D.view disk.new).reads ≡ begun_as side header.now world.now) }
    ensures any_moment { D.honest disk.old → LeavesOnly (D.view disk.old) (D.view disk.new)
        (OneOf (holds (D.view disk.old).reads) (begun_as side header.now world.now)) }
    ensures honesty { D.honest disk.old ↔ D.honest disk.new }
    ensures counts { Counts result (D.failures disk.old) (D.failures disk.new) }
{
    close_gate(disk, side)?;
    stage_side(disk, side, head, world)?;
    open_gate(disk, side, 0)?;
    Ok(())
}
