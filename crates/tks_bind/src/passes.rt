//! The two passes over what is tried.
ghost use Rattle.std.specs.Prelude.{◌≡◌, option_copied};
ghost use Rattle.std.specs.List.{filter};
ghost use Rattle.std.specs.FinMap as map;
ghost use Rattle.tks_bind.specs.Choosing.{scene_of};
ghost use Rattle.tks_bind.specs.Endings.{named, is_under};
ghost use Rattle.tks_bind.specs.Ends.{ends_of, sequences_in};
ghost use Rattle.tks_bind.specs.Passes.{trial_of, trial_in, trials_by, trials_through, trials_at, is_higher, highest, is_unbeaten, is_later, latest, found};
ghost use Rattle.tks_bind.specs.Tagged.{all_listed};
ghost use Rattle.tks_bind.specs.Tried.{all_tried};

use crate::binding::Binding;
use crate::ending::Ending;
use crate::ends::Ends;
use crate::groups::Lists;
use crate::scene::Scene;
use crate::through::Through;
use crate::trial::Trial;
use crate::way::beats;
use tks_event::Sequence;
use tks_share::Shared;
use tks_text::Txt;

/// What is tried: what ends in the event, with its detail and without one.
#[derive(Clone, Copy)]
pub struct Passes<'a> {
    pub scene: Scene<'a>,
    pub full: Ends<'a>,
    pub bare: Ends<'a>,
}

impl<'a> Passes<'a> {
    // Whether one that is tried is met, and beats the one that none so far beats.
    fn is_higher(&self, top: Option<Trial<'a>>, trial: Trial<'a>) -> bool
        ensures { result ≡ is_higher (scene_of self.now.scene) (trial_in top.entry) (trial_of trial.entry) }
    {
        let beats_top = match top {
            Some(top) => beats(trial.way, top.way),
            None => true,
        };
        beats_top && self.scene.meets(trial.way.sequence)
    }

    // One that none beats, of bindings by their own sequences, or through one of a virtual event, and of one more.
    fn highest_by(
        &self,
        top: Option<Trial<'a>>,
        bindings: &'a [Shared<Binding>],
        through: Option<&'a Sequence>,
    ) -> Option<Trial<'a>>
        ensures { trial_in result ≡ highest (scene_of self.now.scene) (trial_in top.entry) (trials_by (option_copied through.entry) bindings.now) }
    {
        let mut highest = top;
        for binding in bindings {
            let trial = Trial::by(binding.get(), through);
            if self.is_higher(highest, trial) {
                highest = Some(trial);
            }
        }
        highest
    }

    // The bindings of the tag for a virtual event.
    fn named(&self, name: &Txt) -> &'a [Shared<Binding>]
        ensures { result.now ≡ filter (is_under (scene_of self.now.scene).tag (named name.now)) (scene_of self.now.scene).bindings }
    {
        self.scene
            .bindings
            .group(self.scene.tag, Ending::named(name))
    }

    // One that none beats, of bindings through sequences of virtual events, and of one more.
    #[tactic(auto, using(crate::proofs::Passing::highest_append))]
    fn highest_through(
        &self,
        top: Option<Trial<'a>>,
        sequences: &'a [Shared<Through>],
    ) -> Option<Trial<'a>>
        ensures { trial_in result ≡ highest (scene_of self.now.scene) (trial_in top.entry) (trials_through (scene_of self.now.scene) sequences.now) }
    {
        let mut highest = top;
        for held in sequences {
            let through = held.get();
            let bindings = self.named(&through.name);
            highest = self.highest_by(highest, bindings, Some(&through.sequence));
        }
        highest
    }

    // The same, of lists of sequences by the names of their virtual events.
    fn highest_named(&self, top: Option<Trial<'a>>, lists: &'a Lists<Through>) -> Option<Trial<'a>>
        ensures { trial_in result ≡ highest (scene_of self.now.scene) (trial_in top.entry) (trials_through (scene_of self.now.scene) (all_listed (map.entries lists.now))) }
    {
        let mut highest = top;
        for (_name, sequences) in lists.iter() {
            highest = self.highest_through(highest, sequences.as_slice());
        }
        highest
    }

    // The same, where there are such lists.
    fn highest_in(
        &self,
        top: Option<Trial<'a>>,
        lists: Option<&'a Lists<Through>>,
    ) -> Option<Trial<'a>>
        ensures { trial_in result ≡ highest (scene_of self.now.scene) (trial_in top.entry) (trials_through (scene_of self.now.scene) (sequences_in (option_copied lists.entry))) }
    {
        match lists {
            Some(lists) => self.highest_named(top, lists),
            None => top,
        }
    }

    // One that none beats, of all that ends so, and of one more.
    #[tactic(auto, using(crate::proofs::Passing::highest_append))]
    fn highest_at(&self, top: Option<Trial<'a>>, ends: Ends<'a>) -> Option<Trial<'a>>
        ensures { trial_in result ≡ highest (scene_of self.now.scene) (trial_in top.entry) (trials_at (scene_of self.now.scene) (ends_of ends.entry)) }
    {
        let top = self.highest_by(top, ends.bindings, None);
        self.highest_in(top, ends.sequences)
    }

    // One that none beats, of all that is tried, and of one more.
    #[tactic(auto, using(crate::proofs::Passing::highest_append))]
    fn highest(&self, top: Option<Trial<'a>>) -> Option<Trial<'a>>
        ensures { trial_in result ≡ highest (scene_of self.now.scene) (trial_in top.entry) (all_tried self.now) }
    {
        let top = self.highest_at(top, self.full);
        self.highest_at(top, self.bare)
    }

    // Whether none beats one that is met.
    fn is_unbeaten(&self, trial: Trial<'a>) -> bool
        ensures { result ≡ is_unbeaten (scene_of self.now.scene) (all_tried self.now) (trial_of trial.entry) }
    {
        match self.highest(Some(trial)) {
            Some(top) => !beats(top.way, trial.way),
            None => true,
        }
    }

    // Whether one that is tried was set later than the latest so far, and none beats it.
    fn is_later(&self, top: Trial<'a>, best: Trial<'a>, trial: Trial<'a>) -> bool
        ensures { result ≡ is_later (scene_of self.now.scene) (all_tried self.now) (trial_of top.entry) (trial_of best.entry) (trial_of trial.entry) }
    {
        best.binding.number < trial.binding.number
            && !beats(top.way, trial.way)
            && self.scene.meets(trial.way.sequence)
            && self.is_unbeaten(trial)
    }

    // The latest that none beats, of bindings by their own sequences, or through one of a virtual event, and of the best so
    // far.
    fn latest_by(
        &self,
        top: Trial<'a>,
        best: Trial<'a>,
        bindings: &'a [Shared<Binding>],
        through: Option<&'a Sequence>,
    ) -> Trial<'a>
        ensures { trial_of result ≡ latest (scene_of self.now.scene) (all_tried self.now) (trial_of top.entry) (trial_of best.entry) (trials_by (option_copied through.entry) bindings.now) }
    {
        let mut latest = best;
        for binding in bindings {
            let trial = Trial::by(binding.get(), through);
            if self.is_later(top, latest, trial) {
                latest = trial;
            }
        }
        latest
    }

    // The latest that none beats, of bindings through sequences of virtual events, and of the best so far.
    #[tactic(auto, using(crate::proofs::Passing::latest_append))]
    fn latest_through(
        &self,
        top: Trial<'a>,
        best: Trial<'a>,
        sequences: &'a [Shared<Through>],
    ) -> Trial<'a>
        ensures { trial_of result ≡ latest (scene_of self.now.scene) (all_tried self.now) (trial_of top.entry) (trial_of best.entry) (trials_through (scene_of self.now.scene) sequences.now) }
    {
        let mut latest = best;
        for held in sequences {
            let through = held.get();
            let bindings = self.named(&through.name);
            latest = self.latest_by(top, latest, bindings, Some(&through.sequence));
        }
        latest
    }

    // The same, of lists of sequences by the names of their virtual events.
    fn latest_named(&self, top: Trial<'a>, best: Trial<'a>, lists: &'a Lists<Through>) -> Trial<'a>
        ensures { trial_of result ≡ latest (scene_of self.now.scene) (all_tried self.now) (trial_of top.entry) (trial_of best.entry) (trials_through (scene_of self.now.scene) (all_listed (map.entries lists.now))) }
    {
        let mut latest = best;
        for (_name, sequences) in lists.iter() {
            latest = self.latest_through(top, latest, sequences.as_slice());
        }
        latest
    }

    // The same, where there are such lists.
    fn latest_in(
        &self,
        top: Trial<'a>,
        best: Trial<'a>,
        lists: Option<&'a Lists<Through>>,
    ) -> Trial<'a>
        ensures { trial_of result ≡ latest (scene_of self.now.scene) (all_tried self.now) (trial_of top.entry) (trial_of best.entry) (trials_through (scene_of self.now.scene) (sequences_in (option_copied lists.entry))) }
    {
        match lists {
            Some(lists) => self.latest_named(top, best, lists),
            None => best,
        }
    }

    // The latest that none beats, of all that ends so, and of the best so far.
    #[tactic(auto, using(crate::proofs::Passing::latest_append))]
    fn latest_at(&self, top: Trial<'a>, best: Trial<'a>, ends: Ends<'a>) -> Trial<'a>
        ensures { trial_of result ≡ latest (scene_of self.now.scene) (all_tried self.now) (trial_of top.entry) (trial_of best.entry) (trials_at (scene_of self.now.scene) (ends_of ends.entry)) }
    {
        let best = self.latest_by(top, best, ends.bindings, None);
        self.latest_in(top, best, ends.sequences)
    }

    /// Of the bindings that are met by a way that none beats, the one that was set last.
    #[tactic(auto, using(crate::proofs::Passing::latest_append))]
    pub fn latest(&self) -> Option<&'a Binding>
        ensures { option_copied result ≡ found (scene_of self.now.scene) (all_tried self.now) }
    {
        let Some(top) = self.highest(None) else {
            return None;
        };
        let best = self.latest_at(top, top, self.full);
        Some(self.latest_at(top, best, self.bare).binding)
    }
}
