//! Frames: inputs that are put on the disk together.
ghost use Rattle.std.specs.Prelude.{◌≡◌, ◌↔◌, ◌<◌, ◌+◌, ◌^◌, ◌∷◌, [], false, true, OnOk, OnErr, length};
ghost use Rattle.std.specs.Int.{w32, to_be_bytes};
ghost use Rattle.tks_disk.specs.DiskModel.{Counts};
ghost use Rattle.tks_journal.specs.Moments.{LeavesOnly};
ghost use Rattle.tks_journal.specs.Resting.{AllHold, OneOf};
ghost use Rattle.tks_journal.specs.Sides.{holds, with_frames};
ghost use Rattle.tks_durable.specs.Durable.{has_room_at};
ghost use Rattle.tks_durable.specs.Inputs as inputs;
ghost use Rattle.tks_durable.specs.Inputs.{frame_of};

use byteorder::{BigEndian, ByteOrder};
use tks_disk::{DeviceFault, Disk};
use tks_journal::Journal;
use tks_spelling::Format;

// How many bytes stand before the inputs of a frame.
fn lead_length(format: Format) -> usize
    ensures { result ≡ inputs.lead_length format }
{
    match format {
        Format::One => 0,
        Format::Two => 4,
    }
}

/// Whether a frame of inputs of so many bytes finds room.
pub fn has_room<D: Disk>(journal: &Journal<D>, size: usize) -> bool
    ensures { result ≡ has_room_at journal.now.format journal.now.gate size }
{
    size < 1 << 32 && journal.has_room(lead_length(journal.format()) + size)
}

// A number in four bytes.
fn four_bytes(number: u32) -> [u8; 4]
    ensures { result ≡ to_be_bytes w32 number }
{
    let mut bytes = [0; 4];
    BigEndian::write_u32(&mut bytes, number);
    bytes
}

/// Puts a frame of so many inputs, which these bytes are, behind the others. It takes no memory.
pub fn append_inputs<D: Disk>(
    journal: &mut Journal<D>,
    count: usize,
    bytes: &[u8],
) -> Result<(), DeviceFault>
    requires working { journal.old.failed ≡ false }
    requires room { has_room_at journal.old.format journal.old.gate (length bytes.now) ≡ true }
    requires short { count < 2 ^ 32 }

    // At Ok, what is read, and all that a crash may leave, holds the frame too.
    ensures added { OnOk result (D.honest journal.old.disk
        → AllHold (D.view journal.new.disk) (with_frames (frame_of journal.old.format count bytes.now ∷ []) (holds (D.view journal.old.disk).reads))) }

    // A crash at any moment of the call leaves what was held, with the frame or without.
    ensures any_moment { D.honest journal.old.disk → LeavesOnly (D.view journal.old.disk) (D.view journal.new.disk)
        (OneOf (holds (D.view journal.old.disk).reads) (with_frames (frame_of journal.old.format count bytes.now ∷ []) (holds (D.view journal.old.disk).reads))) }

    ensures ok { OnOk result (journal.new ≡ record journal.old { disk = journal.new.disk; gate = journal.old.gate + 5 + (inputs.lead_length journal.old.format + length bytes.now) }) }
    ensures err { OnErr result (journal.new ≡ record journal.old { disk = journal.new.disk; failed = true }) }
    ensures honesty { D.honest journal.old.disk ↔ D.honest journal.new.disk }
    ensures counts { Counts result (D.failures journal.old.disk) (D.failures journal.new.disk) }
{
    let number = four_bytes(count as u32);
    match journal.format() {
        Format::One => journal.append(&[], bytes),
        Format::Two => journal.append(&number, bytes),
    }
}
