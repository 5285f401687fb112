//! One binding.
ghost use Rattle.std.specs.Prelude.{◌≡◌};
ghost use Rattle.tks_bind.specs.Binding.{is_for};

use tks_event::{Sequence, are_equal};
use tks_text::Txt;

/// A script that a tag has for a sequence of events.
#[derive(Drop)]
pub struct Binding {
    /// The greater it is, the later the script was set or appended to.
    pub number: u64,
    pub tag: Txt,
    pub sequence: Sequence,
    pub script: Txt,
}

impl Binding {
    // Whether it is the one of a tag and a sequence.
    pub(crate) fn is_for(&self, tag: &Txt, sequence: &Sequence) -> bool
        ensures { result ≡ is_for tag.now sequence.now self.now }
    {
        self.tag == *tag && are_equal(self.sequence.as_slice(), sequence.as_slice())
    }
}
