//! What the script of an input does.
ghost use Rattle.std.specs.Prelude.{◌≡◌, ◌≤◌, [], IfOk, IfErr, OnErr, OnOk};
ghost use Rattle.tks_text.specs.declared.fault.ErrorNumber.TheVariants.{OutsideLoop};
ghost use Rattle.tks_tcl.specs.Cause.{bare};
ghost use Rattle.tks_eval.specs.Meets.{EndsSo};
ghost use Rattle.tks_world.specs.Stepped.{Accepts, counted, max_count};
ghost use Rattle.tks_world.specs.Hosts.{setting_of};
ghost use Rattle.tks_world.specs.Scripts.{script_ends, concluded, lent, script_step};
ghost use Rattle.tks_world.specs.Meets.{FailsSo, RefusedSo, ReachesSo};

use crate::counting::accept;
use crate::host::WorldHost;
use crate::refusal::refused_by;
use std::alloc::Global;
use std::mem;
use tks_app::{AppBody, AppMeaning, Apps, Memories};
use tks_eval::{Ended, eval};
use tks_input::{Refused, Reply};
use tks_parse::{Script, parse};
use tks_parse_table::ParseTable;
use tks_share::{Mark, Marked};
use tks_state::World;
use tks_tcl::Stop;
use tks_text::{ErrorNumber, Limits, ScriptFault, Txt, fits};
use tks_vars::Vars;

/// Keeps what became of the world where an input is accepted, and goes back to what was marked where it is refused.
pub fn settle(
    world: &mut World,
    mark: Mark<World>,
    answer: Result<Reply, Refused>,
) -> Result<Reply, Refused>
    ensures answer { result ≡ answer }
    ensures kept { OnOk answer (world.new ≡ world.old) }
    ensures back { OnErr answer (world.new ≡ mark) }
{
    match answer {
        Ok(_) => world.forget(mark),
        Err(_) => world.back_to(mark),
    }
    answer
}

/// Counts an input behind so many, whose scripts ended, in the world that they left.
pub fn conclude<T: AppMeaning, B: AppBody>(
    host: &mut WorldHost<T, B>,
    before: u64,
    variables: Vars,
    code: u8,
    text: Txt,
) -> Result<Reply, Refused>
    requires rests { variables.locals ≡ [] }
    requires bound { before ≤ max_count }
    ensures same_place { host.new.world.ghost_name ≡ host.old.world.ghost_name }
    ensures reaches { ReachesSo (counted before host.old.world.now host.old.memories.now code text variables) result host.new.world.now }
{
    let memories = mem::replace(host.memories, Memories::none(host.alloc));
    accept(host.world, before, memories, variables, code, text)
}

// What the script of an input comes to in the world that it was lent: a reply, and the world that it leaves.
#[tactic(auto, using(crate::proofs::Stepping::refuses))]
fn run_lent<T: AppMeaning, B: AppBody>(
    alloc: Global,
    host: &mut WorldHost<T, B>,
    variables: Vars,
    parsed: &mut ParseTable,
    script: Script,
    limits: &Limits,
) -> Result<Reply, Refused>
    requires { variables.locals ≡ [] }
    ensures same_place { host.new.world.ghost_name ≡ host.old.world.ghost_name }
    ensures reaches { ReachesSo (concluded host.old.world.now.accepted (script_ends T.meaning limits.now script (setting_of host.old) variables)) result host.new.world.now }
{
    let before = host.world.accepted();
    let mut variables = variables;
    match run_script(alloc, host, &mut variables, parsed, script, limits) {
        Ok(ended) => {
            let reply = conclude(host, before, variables, ended.code, ended.text)?;
            Ok(reply)
        }
        Err(stop) => Err(refused_by(stop)),
    }
}

// Runs the script of an input in the world, beside variables and memories that were taken out of it.
fn run_beside<T: AppMeaning, B: AppBody>(
    alloc: Global,
    world: &mut World,
    memories: &mut Memories,
    variables: Vars,
    apps: &Apps<T, B>,
    parsed: &mut ParseTable,
    script: Script,
    limits: &Limits,
) -> Result<Reply, Refused>
    requires { variables.locals ≡ [] }
    ensures { ReachesSo (concluded world.old.accepted (script_ends T.meaning limits.now script (record { world = world.old; memories = memories.old; limits = limits.now; names = apps.now }) variables)) result world.new }
{
    let mut host = WorldHost {
        alloc,
        world,
        memories,
        limits: *limits,
        apps,
    };
    run_lent(alloc, &mut host, variables, parsed, script, limits)
}

// Runs the script of an input in the world, of which nothing is said where it is refused.
#[tactic(auto, using(crate::proofs::Stepping::script_reaches))]
fn run_marked<T: AppMeaning, B: AppBody>(
    alloc: Global,
    world: &mut World,
    apps: &Apps<T, B>,
    parsed: &mut ParseTable,
    script: Script,
    limits: &Limits,
) -> Result<Reply, Refused>
    ensures { ReachesSo (concluded world.old.accepted (script_ends T.meaning limits.now script (lent apps.now limits.now world.old) world.old.variables)) result world.new }
{
    let variables = world.take_variables();
    let mut memories = world.take_memories();
    run_beside(
        alloc,
        world,
        &mut memories,
        variables,
        apps,
        parsed,
        script,
        limits,
    )
}

/// What a script does to the world.
pub fn step_script<T: AppMeaning, B: AppBody>(
    alloc: Global,
    world: &mut World,
    apps: &Apps<T, B>,
    text: &Txt,
    limits: &Limits,
) -> Result<Reply, Refused>
    ensures accepted { IfOk result (λ reply. script_step (record { names = apps.now; meaning = T.meaning }) world.old text.now limits.now ≡ Accepts world.new reply) }
    ensures refused { IfErr result (λ why. RefusedSo why (script_step (record { names = apps.now; meaning = T.meaning }) world.old text.now limits.now)) }
    ensures unchanged { OnErr result (world.new ≡ world.old) }
{
    if text.len() > limits.text as usize {
        return Err(Refused::BadInput);
    }
    let script = parse(alloc, text)?;
    let mark = world.mark()?;
    let mut parsed = world.take_parsed();
    let answer = run_marked(alloc, world, apps, &mut parsed, script, limits);
    let answer = settle(world, mark, answer);
    world.put_parsed(parsed);
    answer
}

// Runs a script at top level. `return` ends it well; `break` and `continue` are errors.
fn run_script<T: AppMeaning, B: AppBody>(
    alloc: Global,
    host: &mut WorldHost<T, B>,
    variables: &mut Vars,
    parsed: &mut ParseTable,
    script: Script,
    limits: &Limits,
) -> Result<Ended, Stop>
    ensures same_place { host.new.world.ghost_name ≡ host.old.world.ghost_name }
    ensures ends { EndsSo (script_ends T.meaning limits.now script (setting_of host.old) variables.old) result (setting_of host.new) variables.new }
{
    let ended = eval(alloc, host, variables, parsed, script, limits)?;
    match ended.code {
        2 => Ok(Ended { code: 0, ..ended }),
        3 | 4 => outside_loop(alloc, ended.fuel, limits),
        _ => Ok(ended),
    }
}

// The end of a script by a `break` or `continue` outside a loop, with so many steps left.
fn outside_loop(alloc: Global, fuel: u64, limits: &Limits) -> Result<Ended, Stop>
    ensures { FailsSo limits.now (bare OutsideLoop) fuel result }
{
    let fault = ScriptFault {
        number: ErrorNumber::OutsideLoop,
        subject: None,
    };
    let text = fault.text(alloc)?;
    if !fits(&text, limits) {
        return Err(Stop::TooLarge);
    }
    Ok(Ended {
        code: 1,
        text,
        fuel,
    })
}
