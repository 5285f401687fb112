//! The world as the host of its scripts.
ghost use Rattle.std.specs.Prelude.{◌≡◌, true, false};
ghost use Rattle.tks_app.specs.Applications.{has};
ghost use Rattle.tks_app.specs.Memories.{memory_of};
ghost use Rattle.tks_eval.specs.Meets.{AnswersSo, TakesSo};
ghost use Rattle.tks_world.specs.Hosting.{hosting, is_of_world, world_does, thing_taken};
ghost use Rattle.tks_world.specs.Hosts.{setting_of};
ghost use Rattle.tks_world.specs.Meets.{CallsSo, PlansSo};

use crate::applications::call_application;
use crate::things::{Thing, planned, take_due};
use std::alloc::Global;
use std::marker::Model;
use tks_app::{AppBody, AppMeaning, Apps, Memories};
use tks_cmd::{command, is_built_in_by};
use tks_eval::{Due, Host, Plan};
use tks_state::World;
use tks_tcl::{Stop, is_built_in};
use tks_text::{Limits, Seq, Txt};
use tks_tree::WindowId;
use tks_vars::Vars;

/// What scripts change and look at beside variables, as contracts see it. There is no such value.
#[derive(Drop)]
pub struct Lent {
    world: World,
    memories: Memories,
    limits: Limits,
    names: Seq<Txt>,
}

impl Model for Lent {
    ghost use Rattle.std.specs.Coded.{codes};
    ghost use Rattle.tks_app.specs.Memories.{memories_code};
    ghost use Rattle.tks_state.specs.contracts.world.World.{the_row};
    ghost use Rattle.tks_world.specs.Hosting.{Setting};

    ghost Value = { Setting };

    ghost coded = { Prim.hlevel (codes, memories_code, the_row.coded) };

    ghost view = { λ s. record { world = s.world; memories = s.memories; limits = s.limits; names = s.names } };
}

/// The world while a script runs in it, beside the memories and the commands of an application, all of which are lent to it, and the
/// limits that commands keep.
#[derive(Drop)]
pub struct WorldHost<'a, T: AppMeaning, B: AppBody> {
    pub alloc: Global,
    pub world: &'a mut World,
    pub memories: &'a mut Memories,
    pub limits: Limits,
    pub apps: &'a Apps<T, B>,
}

impl<'a, T: AppMeaning, B: AppBody> WorldHost<'a, T, B> {
    // Whether a command is built in by the rules of the world, or none of the application.
    fn is_of_world(&self, name: &Txt) -> bool
        ensures value { result ≡ is_of_world self.now.world.now.rules self.now.apps.now name.now }
        ensures there { result ≡ false → has self.now.apps.now name.now ≡ true }
    {
        is_built_in(name) || is_built_in_by(self.world.rules(), name) || !self.apps.has(name)
    }

    // Runs a command on windows, bindings or events.
    #[tactic(auto, using(crate::proofs::Answers::in_setting_so))]
    fn call_world(&mut self, variables: &mut Vars, words: &[Txt]) -> Result<Option<Plan>, Stop>
        ensures same_place { self.new.world.ghost_name ≡ self.old.world.ghost_name }
        ensures answers { AnswersSo (world_does (setting_of self.old) variables.old words.now) result (setting_of self.old) (setting_of self.new) variables.old variables.new }
    {
        command(self.alloc, self.world, variables, words, &self.limits)
    }

    // Runs a command of the application.
    fn call_application(&mut self, name: &Txt, words: &[Txt]) -> Result<Plan, Stop>
        requires { has self.old.apps.now name.now ≡ true }
        ensures same_place { self.new.world.ghost_name ≡ self.old.world.ghost_name }
        ensures called { CallsSo self.old.limits name.now (T.meaning name.now (memory_of self.old.memories.now name.now) words.now) result self.old.memories.now self.new.memories.now }
        ensures others { setting_of self.new ≡ record (setting_of self.old) { memories = self.new.memories.now } }
    {
        call_application(
            self.alloc,
            self.apps,
            self.memories,
            name,
            words,
            &self.limits,
        )
    }

    /// What a thing wants done that was taken out.
    #[tactic(auto, using(crate::proofs::Answers::plans_so))]
    pub fn plan_thing(&mut self, thing: Thing) -> Result<Plan, Stop>
        ensures same_place { self.new.world.ghost_name ≡ self.old.world.ghost_name }
        ensures plans { PlansSo (thing_taken (setting_of self.old) thing) result (setting_of self.new) }
    {
        planned(self.alloc, self.world, thing, &self.limits)
    }
}

impl<'a, T: AppMeaning, B: AppBody> Host for WorldHost<'a, T, B> {
    ghost use Rattle.std.specs.Prelude.{ℕ};
    ghost use Rattle.tks_world.specs.Hosts.{setting_of};

    type State = Lent;

    ghost state = { setting_of };

    ghost Place = { ℕ };

    ghost place = { λ h. h.world.ghost_name };

    ghost meaning = { hosting T.meaning };

    fn call(&mut self, variables: &mut Vars, words: &[Txt]) -> Result<Option<Plan>, Stop> {
        let Some((name, rest)) = words.split_first() else {
            return self.call_world(variables, words);
        };
        if self.is_of_world(name) {
            return self.call_world(variables, words);
        }
        let plan = self.call_application(name, rest)?;
        Ok(Some(plan))
    }

    fn owns(&self, name: &Txt) -> bool {
        self.apps.has(name) || is_built_in_by(self.world.rules(), name)
    }

    fn alive(&self, window: u64) -> bool {
        self.world.kept(WindowId::of(window)).is_some()
    }

    fn fault(&mut self, text: &Txt) -> Result<(), Stop> {
        self.world.add_fault(text.try_clone()?)?;
        Ok(())
    }

    fn next(&mut self, due: Due) -> Result<Option<Plan>, Stop> {
        let Some(thing) = take_due(self.world, due)? else {
            return Ok(None);
        };
        let plan = self.plan_thing(thing)?;
        Ok(Some(plan))
    }
}
