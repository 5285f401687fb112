//! What has a number.
/// What has a number.
pub trait Numbered: Drop {
    ghost use Rattle.std.specs.Prelude.{◌≡◌, ℕ};

    ghost number_of: { Self → ℕ };

    /// The number.
    fn number(&self) -> u64
        ensures { result ≡ number_of self.now };
}
