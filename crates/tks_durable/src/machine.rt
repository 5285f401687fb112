//! What is made durable: a machine.
ghost use Rattle.std.specs.Prelude.{◌≡◌, ◌<◌, ◌+◌, ◌^◌, List, ℕ, length, true, IfOk, IfErr, IfSome, OnOk, OnErr, Some};
ghost use Rattle.tks_spelling.specs.Header.{AreNames, header};
ghost use Rattle.tks_spelling.specs.Lengths.{within_side};
ghost use Rattle.tks_spelling.specs.declared.format.Format.TheVariants.{Two};
ghost use Rattle.tks_spelling.specs.declared.header.Header.{Header};
ghost use Rattle.tks_durable.specs.Machine.{Meaning, accepts};
ghost use Rattle.tks_durable.specs.Opening.{same_grid, same_names};
ghost use Rattle.tks_durable.specs.Refusing.{RefusedAs};

use std::alloc::{AllocError, Global};
use tks_input::{Input, Refused, Reply};
use tks_spelling::{Format, Header};
use tks_text::{Size, Txt};

/// What is made durable: states, and what inputs do to them. Contracts see `meaning` alone, and states by their values.
pub trait Machine {
    /// A state: what stands between inputs.
    type World: Drop;

    /// What inputs do, and how states are kept.
    ghost meaning: { Self → Meaning Self.World };

    /// What an input does. An accepted one adds one to the count of inputs, a refused one changes nothing.
    fn step(&self, alloc: Global, world: &mut Self::World, input: &Input) -> Result<Reply, Refused>
        ensures accepted { IfOk result (λ reply. (meaning self.now).step world.old input.now ≡ accepts world.new reply) }
        ensures counted { OnOk result ((meaning self.now).count world.new ≡ (meaning self.now).count world.old + 1) }
        ensures own { OnOk result ((meaning self.now).own world.old ≡ true → (meaning self.now).own world.new ≡ true) }
        ensures refused { IfErr result (λ why. RefusedAs why ((meaning self.now).step world.old input.now)) }
        ensures unchanged { OnErr result (world.new ≡ world.old) };

    /// Finds what reading a state would find anew each time, and keeps it there, where memory serves. The state stays.
    fn prepare(&self, world: &mut Self::World)
        ensures stays { world.new ≡ world.old };

    /// The state before any input. Its spelling is shorter than 2^40 bytes.
    fn first(&self, alloc: Global) -> Result<Self::World, AllocError>
        ensures value { IfOk result (λ world. world ≡ (meaning self.now).first) }
        ensures own { IfOk result (λ world. (meaning self.now).within world ≡ true → (meaning self.now).own world ≡ true) }
        ensures short { IfOk result (λ world. length ((meaning self.now).bytes world) < 2 ^ 40) };

    /// The state that these bytes spell behind this header, in this format; none where they spell none.
    fn stored(
        &self,
        alloc: Global,
        format: Format,
        header: &Header,
        bytes: &[u8],
    ) -> Result<Option<Self::World>, AllocError>
        ensures value { IfOk result (λ found. found ≡ (meaning self.now).stored format header.now bytes.now) }
        ensures own { IfOk result (λ found. IfSome found (λ world. same_grid header.now.grid (meaning self.now).grid ≡ true
            → same_names header.now.names (meaning self.now).names ≡ true → (meaning self.now).within world ≡ true → (meaning self.now).own world ≡ true)) };

    /// The bytes that spell a state. One that is the machine's own is read back from them, in the newest format,
    /// behind any header of this machine.
    fn bytes(&self, alloc: Global, world: &Self::World) -> Result<Vec<u8>, AllocError>
        ensures value { IfOk result (λ bytes. bytes.items ≡ (meaning self.now).bytes world.now) }
        ensures stored { IfOk result (λ bytes. (meaning self.now).own world.now ≡ true
            → (h : Header) → h.grid ≡ (meaning self.now).grid → h.names ≡ (meaning self.now).names → (meaning self.now).stored Two h bytes.items ≡ Some world.now) };

    /// How many bytes spell a state, and none where these are more than 2^40. It takes no memory.
    fn length(&self, world: &Self::World) -> Option<u64>
        ensures value { result ≡ within_side (length ((meaning self.now).bytes world.now)) };

    /// The header of a side of this generation, behind which a world of so many bytes stands. It has a spelling, of fewer than
    /// 2^40 bytes.
    fn header(
        &self,
        alloc: Global,
        generation: u64,
        world_length: u64,
    ) -> Result<Header, AllocError>
        ensures value { IfOk result (λ h. h ≡ record { generation = generation; grid = (meaning self.now).grid; names = (meaning self.now).names; world_length = world_length }) }
        ensures names { IfOk result (λ h. AreNames h.names) }
        ensures legal { IfOk result (λ h. header.Legal h) }
        ensures short { IfOk result (λ h. length (header.write h) < 2 ^ 40) };

    /// Whether a state keeps within the limits, as each of the machine's own does.
    fn is_within(&self, world: &Self::World) -> bool
        ensures value { result ≡ (meaning self.now).within world.now }
        ensures own { (meaning self.now).own world.now ≡ true → (meaning self.now).within world.now ≡ true };

    /// How many inputs a state accepted.
    fn count(&self, world: &Self::World) -> u64
        ensures { result ≡ (meaning self.now).count world.now };

    /// The grid that it is made for.
    fn grid(&self) -> Size
        ensures { result ≡ (meaning self.now).grid };

    /// Whether these are the application commands' names.
    fn has_names(&self, names: &[Txt]) -> bool
        ensures { result ≡ same_names names.now (meaning self.now).names };

    /// How many inputs may wait for a commit.
    fn pending(&self) -> usize
        ensures { result ≡ (meaning self.now).pending };
}
