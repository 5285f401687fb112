//! What ends in the event that is looked at.
ghost use Rattle.std.specs.Prelude.{◌≡◌};
ghost use Rattle.tks_event.specs.Kinds.{is_virtual};
ghost use Rattle.tks_bind.specs.Choosing.{scene_of};
ghost use Rattle.tks_bind.specs.Endings.{ending_seen};
ghost use Rattle.tks_bind.specs.Ends.{ends_of, nothing, EndSo, last_event, EndFull, EndBare};

use crate::binding::Binding;
use crate::ending::Ending;
use crate::groups::Lists;
use crate::scene::Scene;
use crate::through::Through;
use tks_event::is_virtual;
use tks_share::Shared;

/// Bindings of a tag, and sequences by which virtual events are met, by the events' names.
#[derive(Clone, Copy)]
pub struct Ends<'a> {
    pub bindings: &'a [Shared<Binding>],
    pub sequences: Option<&'a Lists<Through>>,
}

impl<'a> Ends<'a> {
    // None at all.
    fn none() -> Ends<'a>
        ensures { ends_of result ≡ nothing }
    {
        Ends {
            bindings: &[],
            sequences: None,
        }
    }
}

impl<'a> Scene<'a> {
    // Those that end so.
    fn ends_so(&self, ending: Ending<'_>) -> Ends<'a>
        ensures { EndSo (scene_of self.now) (ending_seen ending.entry) (ends_of result) }
    {
        Ends {
            bindings: self.bindings.group(self.tag, ending),
            sequences: self.virtuals.group(ending),
        }
    }

    /// Those that end in a virtual event, or in the last event of the history, with its detail.
    pub fn full_ends(&self) -> Ends<'a>
        ensures { EndFull (scene_of self.now) (is_virtual self.now.event.now.kind) (last_event (scene_of self.now)) (ends_of result) }
    {
        if is_virtual(self.event.kind) {
            return Ends {
                bindings: self
                    .bindings
                    .group(self.tag, Ending::named(&self.event.detail)),
                sequences: None,
            };
        }
        match self.history.last() {
            Some(last) => self.ends_so(Ending::of_event(last)),
            None => Ends::none(),
        }
    }

    /// Those that end in the last event of the history, without its detail, where it has one.
    pub fn bare_ends(&self) -> Ends<'a>
        ensures { EndBare (scene_of self.now) (is_virtual self.now.event.now.kind) (last_event (scene_of self.now)) (ends_of result) }
    {
        if is_virtual(self.event.kind) {
            return Ends::none();
        }
        match self.history.last() {
            Some(last) => match last.detail.as_bytes() {
                [] => Ends::none(),
                _ => self.ends_so(Ending::bare(last)),
            },
            None => Ends::none(),
        }
    }
}
