//! What is asked of a disk.
ghost use Rattle.std.specs.Prelude.{◌≡◌, ◌↔◌, ◌≤◌, ℕ, length, IfOk};
ghost use Rattle.tks_disk.specs.DiskModel.{View, Images, on, Rests, Writes, Syncs, ReadsAt, Counts};

use thiserror::Error;

/// One of the two sides of a disk.
#[derive(Clone, Copy, Debug, PartialEq, Eq)]
pub enum Side {
    A,
    B,
}

/// The device failed in this call.
#[derive(Clone, Copy, Debug, PartialEq, Eq, Error)]
#[error("the device failed")]
pub struct DeviceFault;

/// A device of two sides, each a file of bytes that may lose power at any moment.
///
/// Places and lengths are in bytes. A call that fails answers `DeviceFault` and raises the count of failures. What a call
/// promises of bytes holds of an honest disk: what is written is read again at once, and stands for good after a sync.
pub trait Disk {
    /// It keeps to the laws below. No call changes it.
    ghost honest: { Self → Type 0 };

    /// What contracts see of it.
    ghost view: { Self → View };

    /// How many calls have failed.
    ghost failures: { Self → ℕ };

    /// How many bytes the side has.
    fn len(&mut self, side: Side) -> Result<usize, DeviceFault>
        ensures honesty { honest self.old ↔ honest self.new }
        ensures counts { Counts result (failures self.old) (failures self.new) }
        ensures len { honest self.old → IfOk result (λ n. n ≡ length (on side (view self.old).reads)) }
        ensures rests { honest self.old → Rests (view self.old) (view self.new) };

    /// Reads the bytes from `at` on that are there and fit into `buf`, and answers how many.
    fn read_at(&mut self, side: Side, at: usize, buf: &mut [u8]) -> Result<usize, DeviceFault>
        ensures honesty { honest self.old ↔ honest self.new }
        ensures counts { Counts result (failures self.old) (failures self.new) }
        ensures fits { IfOk result (λ n. n ≤ length buf.old) }
        ensures read { honest self.old → IfOk result (λ n. ReadsAt at n (on side (view self.old).reads) buf.old buf.new) }
        ensures rests { honest self.old → Rests (view self.old) (view self.new) };

    /// Writes over what is there, and past the end. A gap before `at` reads 0.
    ///
    /// Until the side is synced, a crash may leave any bytes in the range and past the old end, and any length between.
    fn write_at(&mut self, side: Side, at: usize, bytes: &[u8]) -> Result<(), DeviceFault>
        ensures honesty { honest self.old ↔ honest self.new }
        ensures counts { Counts result (failures self.old) (failures self.new) }
        ensures writes { honest self.old → Writes side at bytes.now result (view self.old) (view self.new) };

    /// After it, a crash leaves of this side what is read of it.
    fn sync(&mut self, side: Side) -> Result<(), DeviceFault>
        ensures honesty { honest self.old ↔ honest self.new }
        ensures counts { Counts result (failures self.old) (failures self.new) }
        ensures syncs { honest self.old → Syncs side result (view self.old) (view self.new) };

    /// What it reads as is one of its images.
    ghost reads_may_stay: { (d : Self) → honest d → (view d).may_leave (view d).reads };

    /// This moment is one of those since an earlier one.
    ghost counts_now: { (d : Self) (t : ℕ) (i : Images) → honest d → t ≤ (view d).clock → (view d).may_leave i → (view d).left_since t i };

    /// Since this moment there is no other.
    ghost only_now: { (d : Self) (i : Images) → honest d → (view d).left_since (view d).clock i → (view d).may_leave i };

    /// The moments since a later one are among those since an earlier one.
    ghost since_earlier: { (d : Self) (t u : ℕ) (i : Images) → honest d → t ≤ u → (view d).left_since u i → (view d).left_since t i };
}
