//! Padding, in cells.
ghost use Rattle.std.specs.Prelude.{◌≡◌, ◌≤◌};
ghost use Rattle.tks_pack.specs.Padding.{max_padding};

use std::marker::Model;

/// A padding: 0 to 1000 cells.
#[derive(Clone, Copy, Debug)]
pub struct Padding {
    cells: u16,
}

impl Model for Padding {
    ghost use Rattle.std.specs.Prelude.{ℕ, ◌≤◌};
    ghost use Rattle.tks_pack.specs.Padding.{max_padding};

    ghost Value = { ℕ };

    ghost view = { λ p. p.cells };

    ghost invariant = { λ p. p.cells ≤ max_padding };

    ghost inverse = { λ n. record { cells = n } };
}

impl Padding {
    /// The greatest padding, in cells.
    pub const MAX: u16 = 1_000;

    /// A padding of so many cells, which are no more than `MAX`.
    pub fn of(cells: u16) -> Padding
        requires { cells ≤ max_padding }
        ensures { result ≡ cells }
    {
        Padding { cells }
    }

    /// How many cells it is.
    pub fn cells(&self) -> u16
        ensures value { result ≡ self.now }
        ensures most { result ≤ max_padding }
    {
        self.cells
    }
}
