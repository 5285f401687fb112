//! Where something is put along one axis.
ghost use Rattle.std.specs.Prelude.{◌≡◌, ◌≤◌};
ghost use Rattle.tks_opt.specs.Alignment.{horizontal, vertical, gap};

use crate::anchor::Anchor;

/// Where something is put along one axis.
#[derive(Clone, Copy, Debug, PartialEq, Eq)]
pub enum Alignment {
    /// At the left or the top.
    Start,
    Middle,
    /// At the right or the bottom.
    End,
}

impl Alignment {
    /// How many of the free cells stand before it; a half is rounded down.
    pub fn gap(self, free: usize) -> usize
        ensures value { result ≡ gap self free }
        ensures small { result ≤ free }
    {
        match self {
            Alignment::Start => 0,
            Alignment::Middle => free / 2,
            Alignment::End => free,
        }
    }
}

impl Anchor {
    /// Where it puts something from left to right.
    pub fn horizontal(self) -> Alignment
        ensures { result ≡ horizontal self }
    {
        match self {
            Anchor::Center => Alignment::Middle,
            Anchor::North => Alignment::Middle,
            Anchor::NorthEast => Alignment::End,
            Anchor::East => Alignment::End,
            Anchor::SouthEast => Alignment::End,
            Anchor::South => Alignment::Middle,
            Anchor::SouthWest => Alignment::Start,
            Anchor::West => Alignment::Start,
            Anchor::NorthWest => Alignment::Start,
        }
    }

    /// Where it puts something from top to bottom.
    pub fn vertical(self) -> Alignment
        ensures { result ≡ vertical self }
    {
        match self {
            Anchor::Center => Alignment::Middle,
            Anchor::North => Alignment::Start,
            Anchor::NorthEast => Alignment::Start,
            Anchor::East => Alignment::Middle,
            Anchor::SouthEast => Alignment::End,
            Anchor::South => Alignment::End,
            Anchor::SouthWest => Alignment::End,
            Anchor::West => Alignment::Middle,
            Anchor::NorthWest => Alignment::Start,
        }
    }
}
