//! The modifiers and the repeat word of a pattern.
ghost use Rattle.std.specs.Prelude.{◌≡◌};
ghost use Rattle.tks_event.specs.Keysyms.{named_in};
ghost use Rattle.tks_event.specs.Spelling.{repeats, times_named};
ghost use Rattle.tks_event.specs.View.{no_lead, added, joined_lead};

use crate::modifiers::{Modifier, Modifiers};

/// What was read of a pattern before its type.
#[derive(Clone, Copy)]
pub(crate) struct Lead {
    pub modifiers: Modifiers,
    /// 1 as long as there is no repeat word.
    pub times: u8,
}

// How often the pattern of a repeat word comes.
fn times_named(word: &[u8]) -> Option<u8>
    ensures { result ≡ times_named word.now }
{
    if word == b"Double".as_slice() {
        Some(2)
    } else if word == b"Triple".as_slice() {
        Some(3)
    } else if word == b"Quadruple".as_slice() {
        Some(4)
    } else {
        None
    }
}

impl Lead {
    /// Nothing yet.
    pub(crate) fn none() -> Lead
        ensures { result ≡ no_lead }
    {
        Lead {
            modifiers: Modifiers::none(),
            times: 1,
        }
    }

    /// With one word more. `None` where it is no modifier and no first repeat word.
    pub(crate) fn with_word(&self, word: &[u8]) -> Option<Lead>
        ensures { result ≡ added self.now word.now }
    {
        if let Some(modifier) = Modifier::named(word) {
            return Some(Lead {
                modifiers: self.modifiers.with(modifier),
                times: self.times,
            });
        }
        let times = times_named(word)?;
        if self.times != 1 {
            return None;
        }
        Some(Lead {
            modifiers: self.modifiers,
            times,
        })
    }

    /// With those of the pattern that follows. `None` where both have a repeat word.
    pub(crate) fn before(self, modifiers: Modifiers, times: u8) -> Option<Lead>
        ensures { result ≡ joined_lead self modifiers times }
    {
        let modifiers = modifiers.union(self.modifiers);
        if self.times == 1 {
            return Some(Lead { modifiers, times });
        }
        if times != 1 {
            return None;
        }
        Some(Lead {
            modifiers,
            times: self.times,
        })
    }
}
