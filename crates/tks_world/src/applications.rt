//! Commands of the application, called by scripts.
ghost use Rattle.std.specs.Prelude.{◌≡◌, true, IfOk};
ghost use Rattle.tks_app.specs.Applications.{has};
ghost use Rattle.tks_app.specs.Memories.{memory_of};
ghost use Rattle.tks_world.specs.Hosting.{code_of};
ghost use Rattle.tks_world.specs.Meets.{CallsSo};

use std::alloc::{AllocError, Global};
use tks_app::{AppAnswer, AppBody, AppCode, AppMeaning, Apps, Memories};
use tks_eval::Plan;
use tks_tcl::Stop;
use tks_text::{Limits, Txt, fits};

// The code of an end.
fn code_of(code: AppCode) -> u8
    ensures { result ≡ code_of code }
{
    match code {
        AppCode::Value => 0,
        AppCode::Error => 1,
    }
}

// What a command answers, with the memory that is kept for it, or an empty one.
fn answer_of<T: AppMeaning, B: AppBody>(
    alloc: Global,
    apps: &Apps<T, B>,
    memories: &Memories,
    name: &Txt,
    words: &[Txt],
) -> Result<AppAnswer, AllocError>
    requires { has apps.now name.now ≡ true }
    ensures { IfOk result (λ a. a ≡ T.meaning name.now (memory_of memories.now name.now) words.now) }
{
    match memories.get(name) {
        Some(memory) => {
            let answer = apps.call(name, memory, words)?;
            Ok(answer)
        }
        None => {
            let answer = apps.call(name, &Txt::new(alloc), words)?;
            Ok(answer)
        }
    }
}

/// Calls a command with its memory and the words behind its name, and keeps the memory that it answers.
pub fn call_application<T: AppMeaning, B: AppBody>(
    alloc: Global,
    apps: &Apps<T, B>,
    memories: &mut Memories,
    name: &Txt,
    words: &[Txt],
    limits: &Limits,
) -> Result<Plan, Stop>
    requires { has apps.now name.now ≡ true }
    ensures { CallsSo limits.now name.now (T.meaning name.now (memory_of memories.old name.now) words.now) result memories.old memories.new }
{
    let answer = answer_of(alloc, apps, memories, name, words)?;
    if !fits(&answer.text, limits) || !fits(&answer.memory, limits) {
        return Err(Stop::TooLarge);
    }
    let AppAnswer { code, text, memory } = answer;
    memories.set(name, memory)?;
    Ok(Plan::Answer(code_of(code), text))
}
