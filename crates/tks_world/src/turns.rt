//! A turn: one thing that waits is done.
ghost use Rattle.std.specs.Prelude.{◌≡◌, ◌≤◌, [], IfOk, IfErr, OnErr};
ghost use Rattle.tks_eval.specs.Meets.{EndsSo};
ghost use Rattle.tks_world.specs.Hosts.{setting_of};
ghost use Rattle.tks_world.specs.Stepped.{Accepts, max_count};
ghost use Rattle.tks_world.specs.Turns.{thing_runs, finished, turn_does, turn_step};
ghost use Rattle.tks_world.specs.Meets.{RefusedSo, ReachesSo};

use crate::host::WorldHost;
use crate::refusal::refused_by;
use crate::scripts::{conclude, settle};
use crate::telling::told;
use crate::things::{Thing, is_quiet, take_due};
use std::alloc::Global;
use tks_app::{AppBody, AppMeaning, Apps, Memories};
use tks_eval::{Due, Ended, eval_plan};
use tks_input::{Refused, Reply};
use tks_parse_table::ParseTable;
use tks_share::Marked;
use tks_state::World;
use tks_tcl::Stop;
use tks_text::{Limits, Txt};
use tks_vars::Vars;

// Does one thing that was taken out, with all the steps that an input has.
#[tactic(auto, using(crate::proofs::Stepping::plan_ends, crate::proofs::Stepping::plan_stops))]
fn run_thing<T: AppMeaning, B: AppBody>(
    alloc: Global,
    host: &mut WorldHost<T, B>,
    variables: &mut Vars,
    parsed: &mut ParseTable,
    thing: Thing,
    limits: &Limits,
) -> Result<Ended, Stop>
    ensures same_place { host.new.world.ghost_name ≡ host.old.world.ghost_name }
    ensures ends { EndsSo (thing_runs T.meaning limits.now thing (setting_of host.old) variables.old) result (setting_of host.new) variables.new }
{
    let plan = host.plan_thing(thing)?;
    let ended = eval_plan(alloc, host, variables, parsed, plan, limits)?;
    Ok(ended)
}

// Does one thing behind so many inputs, and tells of it what is to be told.
fn finish<T: AppMeaning, B: AppBody>(
    alloc: Global,
    host: &mut WorldHost<T, B>,
    variables: Vars,
    parsed: &mut ParseTable,
    before: u64,
    thing: Thing,
    text: Txt,
    limits: &Limits,
) -> Result<Reply, Refused>
    requires rests { variables.locals ≡ [] }
    requires bound { before ≤ max_count }
    ensures same_place { host.new.world.ghost_name ≡ host.old.world.ghost_name }
    ensures reaches { ReachesSo (finished before text (thing_runs T.meaning limits.now thing (setting_of host.old) variables)) result host.new.world.now }
{
    let mut variables = variables;
    match run_thing(alloc, host, &mut variables, parsed, thing, limits) {
        Ok(_) => {
            let reply = conclude(host, before, variables, 0, text)?;
            Ok(reply)
        }
        Err(stop) => Err(refused_by(stop)),
    }
}

// Takes out what is done next, and does it, in the world that is lent.
#[tactic(auto, using(crate::proofs::Stepping::does_next))]
fn turn_lent<T: AppMeaning, B: AppBody>(
    alloc: Global,
    host: &mut WorldHost<T, B>,
    variables: Vars,
    parsed: &mut ParseTable,
    limits: &Limits,
) -> Result<Reply, Refused>
    requires { variables.locals ≡ [] }
    ensures same_place { host.new.world.ghost_name ≡ host.old.world.ghost_name }
    ensures reaches { ReachesSo (turn_does T.meaning limits.now (setting_of host.old) variables) result host.new.world.now }
{
    let before = host.world.accepted();
    let Some(thing) = take_due(host.world, Due::All)? else {
        return Err(Refused::Quiet);
    };
    let text = told(alloc, host.world, &thing)?;
    finish(alloc, host, variables, parsed, before, thing, text, limits)
}

// Runs a turn in the world, beside variables and memories that were taken out of it.
fn turn_beside<T: AppMeaning, B: AppBody>(
    alloc: Global,
    world: &mut World,
    memories: &mut Memories,
    variables: Vars,
    apps: &Apps<T, B>,
    parsed: &mut ParseTable,
    limits: &Limits,
) -> Result<Reply, Refused>
    requires { variables.locals ≡ [] }
    ensures { ReachesSo (turn_does T.meaning limits.now (record { world = world.old; memories = memories.old; limits = limits.now; names = apps.now }) variables) result world.new }
{
    let mut host = WorldHost {
        alloc,
        world,
        memories,
        limits: *limits,
        apps,
    };
    turn_lent(alloc, &mut host, variables, parsed, limits)
}

// Runs a turn in the world, of which nothing is said where it is refused.
#[tactic(auto, using(crate::proofs::Stepping::turn_reaches))]
fn turn_marked<T: AppMeaning, B: AppBody>(
    alloc: Global,
    world: &mut World,
    apps: &Apps<T, B>,
    parsed: &mut ParseTable,
    limits: &Limits,
) -> Result<Reply, Refused>
    ensures { ReachesSo (turn_step (record { names = apps.now; meaning = T.meaning }) limits.now world.old) result world.new }
{
    let variables = world.take_variables();
    let mut memories = world.take_memories();
    turn_beside(alloc, world, &mut memories, variables, apps, parsed, limits)
}

/// Does what comes next.
pub fn step_turn<T: AppMeaning, B: AppBody>(
    alloc: Global,
    world: &mut World,
    apps: &Apps<T, B>,
    limits: &Limits,
) -> Result<Reply, Refused>
    ensures accepted { IfOk result (λ reply. turn_step (record { names = apps.now; meaning = T.meaning }) limits.now world.old ≡ Accepts world.new reply) }
    ensures refused { IfErr result (λ why. RefusedSo why (turn_step (record { names = apps.now; meaning = T.meaning }) limits.now world.old)) }
    ensures unchanged { OnErr result (world.new ≡ world.old) }
{
    if is_quiet(world) {
        return Err(Refused::Quiet);
    }
    let mark = world.mark()?;
    let mut parsed = world.take_parsed();
    let answer = turn_marked(alloc, world, apps, &mut parsed, limits);
    let answer = settle(world, mark, answer);
    world.put_parsed(parsed);
    answer
}
