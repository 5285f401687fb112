//! Inputs that are accepted, counted.
ghost use Rattle.std.specs.Prelude.{◌≡◌, [], ◌==◌, ◌<◌, ◌≤◌, false};
ghost use Rattle.tks_world.specs.Meets.{ReachesSo};
ghost use Rattle.tks_world.specs.Stepped.{max_count, counted, kept, Accepts};

use std::alloc::Global;
use tks_app::Memories;
use tks_input::{Refused, Reply};
use tks_state::World;
use tks_text::{MAX_NUMBER, Txt};
use tks_vars::Vars;

/// Whether no further input can be counted.
pub fn is_full(world: &World) -> bool
    ensures full { result ≡ (world.now.accepted == max_count) }
    ensures room { result ≡ false → world.now.accepted < max_count }
{
    world.accepted() == MAX_NUMBER
}

/// Counts an input behind so many, whose scripts ended in this world, and puts memories and variables back into it.
pub fn accept(
    world: &mut World,
    before: u64,
    memories: Memories,
    variables: Vars,
    code: u8,
    text: Txt,
) -> Result<Reply, Refused>
    requires rests { variables.locals ≡ [] }
    requires bound { before ≤ max_count }
    ensures { ReachesSo (counted before world.old memories code text variables) result world.new }
{
    if before == MAX_NUMBER {
        return Err(Refused::TooLarge);
    }
    let number = before + 1;
    world.set_accepted(number);
    world.put_memories(memories);
    world.put_variables(variables);
    Ok(Reply { number, code, text })
}

/// Counts an input that runs no script.
#[tactic(auto, using(crate::proofs::Counts::is_below))]
pub fn keep(alloc: Global, world: &mut World) -> Reply
    requires { world.old.accepted < max_count }
    ensures { kept world.old ≡ Accepts world.new result }
{
    let number = world.accepted() + 1;
    world.set_accepted(number);
    Reply {
        number,
        code: 0,
        text: Txt::new(alloc),
    }
}
