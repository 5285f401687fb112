//! Formats of a side of the disk.
ghost use Rattle.std.specs.Prelude.{◌≡◌};
ghost use Rattle.tks_spelling.specs.Format.{byte_of, of_byte};

/// The format of a side, which says how its world and its frames are spelled.
#[derive(Clone, Copy, Debug, PartialEq, Eq)]
pub enum Format {
    /// A frame is inputs, one behind the other, and a world goes by the first rules.
    One,
    /// A frame is a count of inputs, and these, and a world goes by any rules.
    Two,
}

impl Format {
    /// The byte that stands for it.
    pub fn byte(self) -> u8
        ensures { result ≡ byte_of self }
    {
        match self {
            Format::One => 1,
            Format::Two => 2,
        }
    }

    /// The format that a byte stands for, if any.
    pub fn of_byte(byte: u8) -> Option<Format>
        ensures { result ≡ of_byte byte }
    {
        match byte {
            1 => Some(Format::One),
            2 => Some(Format::Two),
            _ => None,
        }
    }
}
