//! Replies to inputs, and refusals.
ghost use Rattle.std.specs.Prelude.{◌≡◌};

use std::alloc::AllocError;
use thiserror::Error;
use tks_text::Txt;

/// The answer to an input that was accepted.
#[derive(Debug, Drop)]
pub struct Reply {
    /// How many inputs were accepted by then, this one counted.
    pub number: u64,
    /// 0 where a script ended well, 1 where it ended with an error.
    pub code: u8,
    /// A script's result, or its error's text; what a turn ran; empty for keys, buttons and the clock.
    pub text: Txt,
}

/// Why an input was refused. Nothing has changed.
#[derive(Clone, Copy, Debug, PartialEq, Eq, Error)]
pub enum Refused {
    /// A script over the limit of a text, an unknown key, a button or a cell that isn't there, or a time past the last.
    #[error("bad input")]
    BadInput,
    /// A time before the clock's.
    #[error("the clock goes back")]
    ClockBack,
    /// As many inputs as may wait for a commit wait already, or the frame finds no room on the disk.
    #[error("too many inputs wait for a commit")]
    PendingFull,
    /// The script would have taken one step too many.
    #[error("out of steps")]
    Budget,
    /// One script too many would have been open at once.
    #[error("scripts too deep in one another")]
    Depth,
    /// A text, a list or a count would have passed its limit.
    #[error("too large")]
    TooLarge,
    /// An allocation was refused.
    #[error("out of memory")]
    NoMemory,
    /// A turn found nothing to do.
    #[error("nothing to do")]
    Quiet,
    /// An earlier call failed at the device.
    #[error("an earlier call failed at the device")]
    Failed,
}

impl From<AllocError> for Refused {
    ghost use Rattle.tks_input.specs.declared.reply.Refused.TheVariants.{NoMemory};

    ghost from_gives = { λ _ e. e ≡ NoMemory };

    fn from(_e: AllocError) -> Refused {
        Refused::NoMemory
    }
}
