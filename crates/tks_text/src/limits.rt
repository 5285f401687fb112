//! What one input, and the world that it leaves, may come to, and the largest number there is.
ghost use Rattle.std.specs.Prelude.{◌≡◌};
ghost use Rattle.tks_text.specs.Limits.{fits};

use crate::text::Txt;

/// The largest number of a world: 2^62. Serials, counts and numbers to be given out reach it at most, times stay below it.
pub const MAX_NUMBER: u64 = 1 << 62;

/// The last time, in milliseconds: 2^62 - 1.
pub const MAX_TIME: u64 = MAX_NUMBER - 1;

/// What one input, and the world that it leaves, may come to. An input that would pass a limit is
/// refused as a whole.
#[derive(Clone, Copy, Debug)]
pub struct Limits {
    /// Steps of one input: commands called, conditions tested, turns of `foreach`, bound scripts begun.
    pub fuel: u64,
    /// Scripts open at once, the input's own counted.
    pub depth: u32,
    /// Bytes of one text.
    pub text: u32,
    /// Members of any one list of the world.
    pub items: u32,
    /// Inputs accepted and not yet committed.
    pub pending: u32,
}

impl Limits {
    ghost use Rattle.tks_text.specs.Limits.{format1, format2};

    /// The limits that go with files of format 1.
    pub fn format1() -> Limits
        ensures { result ≡ format1 }
    {
        Limits {
            fuel: 10_000,
            depth: 32,
            text: 65_536,
            items: 4_096,
            pending: 64,
        }
    }

    /// The limits that go with files of format 2. None is smaller than that of format 1.
    pub fn format2() -> Limits
        ensures { result ≡ format2 }
    {
        Limits {
            fuel: 100_000,
            depth: 64,
            text: 1_048_576,
            items: 65_536,
            pending: 256,
        }
    }
}

/// Whether a text passes no limit.
pub fn fits(text: &Txt, limits: &Limits) -> bool
    ensures { result ≡ fits limits.now text.now }
{
    text.len() <= limits.text as usize
}
