//! The step: what an input does to the world.
ghost use Rattle.std.specs.Prelude.{◌≡◌, Some, IfOk, IfErr, OnErr};
ghost use Rattle.tks_world.specs.Step.{clock_step, by_rules, rules_step, step, Accepts};
ghost use Rattle.tks_world.specs.Meets.{RefusedSo};

use crate::buttons::{press_button, release_button};
use crate::counting::{is_full, keep};
use crate::keys::{press_key, release_key};
use crate::scripts::step_script;
use crate::turns::step_turn;
use std::alloc::Global;
use tks_app::{AppBody, AppMeaning, Apps};
use tks_input::{Input, Refused, Reply};
use tks_state::{Rules, World};
use tks_text::{Limits, MAX_TIME};

/// What an input does to the world: it is accepted as a whole, with a reply, or refused, and then the world is as it was.
/// A script runs at once. A key or a button is put behind the events that wait, with what is held down just before it. A
/// turn does one thing that waits: it delivers an event, or else runs a script that is due, or else an idle one. Scripts
/// know the commands of the application, and go by the rules of the world, of which later ones may be chosen.
#[tactic(auto, unfolding(crate::specs::Step::step))]
pub fn step<T: AppMeaning, B: AppBody>(
    alloc: Global,
    world: &mut World,
    apps: &Apps<T, B>,
    input: &Input,
    limits: &Limits,
) -> Result<Reply, Refused>
    ensures accepted { IfOk result (λ reply. step (record { names = apps.now; meaning = T.meaning }) world.old input.now limits.now ≡ Accepts world.new reply) }
    ensures refused { IfErr result (λ why. RefusedSo why (step (record { names = apps.now; meaning = T.meaning }) world.old input.now limits.now)) }
    ensures unchanged { OnErr result (world.new ≡ world.old) }
{
    match input {
        Input::Script(text) => step_script(alloc, world, apps, text, limits),
        Input::KeyPress(key) => press_key(alloc, world, key, limits),
        Input::KeyRelease(key) => release_key(alloc, world, key, limits),
        Input::Press { button, x, y } => press_button(alloc, world, *button, *x, *y, limits),
        Input::Release { button, x, y } => release_button(alloc, world, *button, *x, *y, limits),
        Input::Clock(time) => set_clock(alloc, world, *time),
        Input::Turn => step_turn(alloc, world, apps, limits),
        Input::Rules(number) => set_rules(alloc, world, *number),
    }
}

// The clock goes on to a time.
fn set_clock(alloc: Global, world: &mut World, time: u64) -> Result<Reply, Refused>
    ensures accepted { IfOk result (λ reply. clock_step time world.old ≡ Accepts world.new reply) }
    ensures refused { IfErr result (λ why. RefusedSo why (clock_step time world.old)) }
    ensures unchanged { OnErr result (world.new ≡ world.old) }
{
    if time > MAX_TIME {
        return Err(Refused::BadInput);
    }
    if time < world.clock() {
        return Err(Refused::ClockBack);
    }
    if is_full(world) {
        return Err(Refused::TooLarge);
    }
    world.set_clock(time);
    Ok(keep(alloc, world))
}

// Scripts are run by these rules from here on; their number doesn't go back.
fn go_by(alloc: Global, world: &mut World, rules: Rules) -> Result<Reply, Refused>
    ensures accepted { IfOk result (λ reply. by_rules (Some rules) world.old ≡ Accepts world.new reply) }
    ensures refused { IfErr result (λ why. RefusedSo why (by_rules (Some rules) world.old)) }
    ensures unchanged { OnErr result (world.new ≡ world.old) }
{
    if rules.number() < world.rules().number() {
        return Err(Refused::BadInput);
    }
    if is_full(world) {
        return Err(Refused::TooLarge);
    }
    world.set_rules(rules);
    Ok(keep(alloc, world))
}

// Scripts are run by the rules of a number from here on, where there are such.
fn set_rules(alloc: Global, world: &mut World, number: u8) -> Result<Reply, Refused>
    ensures accepted { IfOk result (λ reply. rules_step number world.old ≡ Accepts world.new reply) }
    ensures refused { IfErr result (λ why. RefusedSo why (rules_step number world.old)) }
    ensures unchanged { OnErr result (world.new ≡ world.old) }
{
    match Rules::numbered(number) {
        Some(rules) => go_by(alloc, world, rules),
        None => Err(Refused::BadInput),
    }
}
