//! What is held once more with no copy.
ghost use Rattle.std.specs.Prelude.{◌≡◌, IfOk};

use std::alloc::AllocError;

/// What can be held once more, with no copy of what it holds.
pub trait Share: Drop {
    /// The same, held once more. It takes next to no memory and no time that grows, whatever it holds.
    fn share(&self) -> Result<Self, AllocError>
        ensures { IfOk result (λ same. same ≡ self.now) };
}
