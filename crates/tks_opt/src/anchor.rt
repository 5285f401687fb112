//! Anchors (options(n), `-anchor`).
ghost use Rattle.std.specs.Prelude.{◌≡◌};
ghost use Rattle.tks_opt.specs.Numbers.{anchor_number, anchor_numbered};
ghost use Rattle.tks_opt.specs.Values.{anchor_named};

use tks_text::Txt;

/// Where something is put in what is larger: in the middle, or at a side or a corner (options(n), `-anchor`).
#[derive(Clone, Copy, Debug, PartialEq, Eq)]
pub enum Anchor {
    Center,
    North,
    NorthEast,
    East,
    SouthEast,
    South,
    SouthWest,
    West,
    NorthWest,
}

impl Anchor {
    /// The anchor that a text names: `center`, `n`, `ne`, `e`, `se`, `s`, `sw`, `w` or `nw`.
    pub fn named(text: &Txt) -> Option<Anchor>
        ensures { result ≡ anchor_named text.now }
    {
        let text = text.as_bytes();
        if text == b"center".as_slice() {
            Some(Anchor::Center)
        } else if text == b"n".as_slice() {
            Some(Anchor::North)
        } else if text == b"ne".as_slice() {
            Some(Anchor::NorthEast)
        } else if text == b"e".as_slice() {
            Some(Anchor::East)
        } else if text == b"se".as_slice() {
            Some(Anchor::SouthEast)
        } else if text == b"s".as_slice() {
            Some(Anchor::South)
        } else if text == b"sw".as_slice() {
            Some(Anchor::SouthWest)
        } else if text == b"w".as_slice() {
            Some(Anchor::West)
        } else if text == b"nw".as_slice() {
            Some(Anchor::NorthWest)
        } else {
            None
        }
    }

    /// The number by which bytes tell it.
    pub fn number(self) -> u8
        ensures { result ≡ anchor_number self }
    {
        match self {
            Anchor::Center => 0,
            Anchor::North => 1,
            Anchor::NorthEast => 2,
            Anchor::East => 3,
            Anchor::SouthEast => 4,
            Anchor::South => 5,
            Anchor::SouthWest => 6,
            Anchor::West => 7,
            Anchor::NorthWest => 8,
        }
    }

    /// The anchor of a number.
    pub fn numbered(number: u8) -> Option<Anchor>
        ensures { result ≡ anchor_numbered number }
    {
        match number {
            0 => Some(Anchor::Center),
            1 => Some(Anchor::North),
            2 => Some(Anchor::NorthEast),
            3 => Some(Anchor::East),
            4 => Some(Anchor::SouthEast),
            5 => Some(Anchor::South),
            6 => Some(Anchor::SouthWest),
            7 => Some(Anchor::West),
            8 => Some(Anchor::NorthWest),
            _ => None,
        }
    }
}
