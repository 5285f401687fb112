//! Bytes that are written in pieces.
ghost use Rattle.std.specs.Prelude.{◌≡◌, ◌↔◌, ◌<◌, ◌≤◌, ◌^◌, ◌+◌, ◌++◌, ℕ, List, OnOk, OnErr, length, take};
ghost use Rattle.tks_disk.specs.DiskModel.{on, Counts};
ghost use Rattle.tks_journal.specs.Staging.{AllBegin, KeepsFront};

use tks_disk::{DeviceFault, Disk, Side};

/// The most bytes that are written in one call.
const PIECE: usize = 65536;

/// Writes the bytes in pieces. Whatever stands before them stays, in each image since.
pub fn write_pieces<D: Disk>(
    disk: &mut D,
    side: Side,
    at: usize,
    bytes: &[u8],
) -> Result<(), DeviceFault>
    requires { at + length bytes.now < 2 ^ 62 }
    ensures front { (stem other : List ℕ) → D.honest disk.old → length stem ≤ at
        → AllBegin side stem other (D.view disk.old) → KeepsFront side stem other (D.view disk.old) (D.view disk.new) }
    ensures written { OnOk result (D.honest disk.old → at ≤ length (on side (D.view disk.old).reads)
        → take (at + length bytes.now) (on side (D.view disk.new).reads) ≡ take at (on side (D.view disk.old).reads) ++ bytes.now) }
    ensures honesty { D.honest disk.old ↔ D.honest disk.new }
    ensures counts { Counts result (D.failures disk.old) (D.failures disk.new) }
{
    let mut done = 0;
    while done < bytes.len() {
        let n = PIECE.min(bytes.len() - done);
        disk.write_at(side, at + done, &bytes[done..done + n])?;
        done += n;
    }
    Ok(())
}
