//! By what sequences are found.
ghost use Rattle.std.specs.Prelude.{◌≡◌, option_copied};
ghost use Rattle.tks_bind.specs.Chosen.{name_of};
ghost use Rattle.tks_bind.specs.Endings.{ending_seen, named, of_event, bare, last_ending, ending_of};

use tks_event::{Event, Kind, Sequence};
use tks_text::Txt;

/// What the last event of a sequence is.
#[derive(Clone, Copy)]
pub struct Ending<'a> {
    /// The name of its kind; `<<>>` for a virtual event.
    pub kind: &'a [u8],
    /// Its detail, empty where there is none; the name of a virtual event.
    pub detail: &'a [u8],
}

impl<'a> Ending<'a> {
    /// That of a virtual event.
    pub fn named(name: &'a Txt) -> Ending<'a>
        ensures { ending_seen result ≡ named name.now }
    {
        Ending {
            kind: b"<<>>".as_slice(),
            detail: name.as_bytes(),
        }
    }

    /// That of an event, with its detail.
    pub fn of_event(event: &'a Event) -> Ending<'a>
        ensures { ending_seen result ≡ of_event event.now }
    {
        Ending {
            kind: event.kind.name(),
            detail: event.detail.as_bytes(),
        }
    }

    /// That of an event, without a detail.
    pub fn bare(event: &'a Event) -> Ending<'a>
        ensures { ending_seen result ≡ bare event.now }
    {
        Ending {
            kind: event.kind.name(),
            detail: b"".as_slice(),
        }
    }

    /// That of the last pattern.
    pub fn of_last(sequence: &'a Sequence) -> Ending<'a>
        ensures { ending_seen result ≡ last_ending sequence.now }
    {
        match sequence.as_slice().last() {
            Some(pattern) => Ending {
                kind: pattern.kind.name(),
                detail: pattern.detail.as_bytes(),
            },
            None => Ending {
                kind: b"".as_slice(),
                detail: b"".as_slice(),
            },
        }
    }

    /// That of a sequence.
    pub fn of(sequence: &'a Sequence) -> Ending<'a>
        ensures { ending_seen result ≡ ending_of sequence.now }
    {
        match name_of(sequence) {
            Some(name) => Ending::named(name),
            None => Ending::of_last(sequence),
        }
    }
}

/// The name of the virtual event that a sequence stands for.
pub fn name_of(sequence: &Sequence) -> Option<&Txt>
    ensures { option_copied result ≡ name_of sequence.now }
{
    let pattern = sequence.as_slice().first()?;
    match pattern.kind {
        Kind::Virtual => Some(&pattern.detail),
        _ => None,
    }
}
