//! A command of the application that is refused memory.
ghost use Rattle.std.specs.Prelude.{◌≡◌, ℕ, List, IfOk};
ghost use Rattle.tks_app.specs.declared.answer.AppAnswer.{AppAnswer};
ghost use Rattle.tks_desk.specs.Own.{swap_of};

use crate::own::{Setup, answered_on, fault_of, left_by, opens_and_tells, with_both, with_refused};
use std::alloc::{AllocError, Global};
use tks_app::{AppAnswer, AppBody, AppClosure, AppCommand, Apps};
use tks_desk::{Own, swap_word};
use tks_disk::{Disk, MemoryDisk};
use tks_session::SessionFault;
use tks_text::{Limits, Size, Txt};
use tks_world::{Input, Refused, World, step};

// What a script that calls the command comes to: the number of its reply.
fn called<B: AppBody>(
    alloc: Global,
    world: &mut World,
    apps: &Apps<Own, B>,
    script: &[u8],
) -> Option<Result<u64, Refused>> {
    let input = Input::Script(Txt::from_bytes(alloc, script).ok()?);
    match step(alloc, world, apps, &input, &Limits::format1()) {
        Ok(reply) => Some(Ok(reply.number)),
        Err(why) => Some(Err(why)),
    }
}

// Whether a command that is refused memory at its second call refuses the whole input, and what it kept at the first is gone.
fn refuses<B: AppBody>(alloc: Global, apps: &Apps<Own, B>, world: &mut World) -> Option<bool> {
    let name = Txt::from_bytes(alloc, b"app.swap").ok()?;
    let twice = called(alloc, world, apps, b"app.swap a; app.swap b")? == Err(Refused::NoMemory);
    let none = world.memories().get(&name)?.is_empty();
    let once = called(alloc, world, apps, b"app.swap a")? == Ok(1);
    let kept = world.memories().get(&name)?.as_bytes() == b"a".as_slice();
    Some(twice && none && once && kept)
}

// The same of such a command alone.
fn refuses_whole<B: AppBody>(alloc: Global, body: B) -> Option<bool>
    requires body { B.callable body × ((memory : List ℕ) (words : List (List ℕ)) (a : AppAnswer) → B.may_answer body memory words a → a ≡ swap_of memory words) }
{
    let mut apps: Apps<Own, B> = Apps::new(alloc);
    if apps
        .add(AppCommand::new(Txt::from_text(alloc, b"app.swap").ok()?, body))
        .is_err()
    {
        return None;
    }
    let names = apps.names(alloc).ok()?;
    let mut world = World::first(alloc, Size::new(20, 3)?, names.as_slice()).ok()?;
    refuses(alloc, &apps, &mut world)
}

#[test]
fn a_command_that_is_refused_memory(rt: HostRuntime) {
    let alloc = rt.alloc();
    let body = Box::new(
        alloc,
        move |memory: &Txt, words: &[Txt]| -> Result<AppAnswer, AllocError>
            ensures { IfOk result (λ a. a ≡ swap_of memory.now words.now) }
        {
            if memory.as_bytes() == b"a".as_slice() {
                return Err(AllocError);
            }
            swap_word(alloc, memory, words)
        },
    );
    let refuses = match body {
        Ok(body) => {
            let body: AppClosure = body;
            refuses_whole(alloc, body) == Some(true)
        }
        Err(_) => false,
    };
    assert!(rt; refuses);
}

// A form whose entry calls `app.next` behind a key, and a call of its own.
const CALLS: &[u8] =
    b"cmd entry .e -textvariable v; pack .e; bind .e <Key-a> {event generate .e <<V>>; app.next}; bind .e <<V>> {lappend q %W; after 0 {incr n}}; focus .e\nkey a\nclock 1\ndrain 9\ncmd app.next\ncommit\n";

// What is answered where the first of the two calls is refused memory, and the second with it.
const FIRST_REFUSED: &[u8] =
    b"ok 1\nok 2\nok 3\nok 4 event FocusOut .\nok 5 event FocusIn .e\nrefused memory\ndrained 2\nrefused memory\ncommitted 5\n";

// The same of the second call alone.
const SECOND_REFUSED: &[u8] =
    b"ok 1\nok 2\nok 3\nok 4 event FocusOut .\nok 5 event FocusIn .e\nok 6 event KeyPress .e\nok 7 timer after#0\ndrained 4\nrefused memory\ncommitted 7\n";

// Whether a store isn't opened for want of memory, and then opens with a command that isn't refused any.
fn opens_later<D: Disk + Drop, B: AppBody>(
    alloc: Global,
    disk: D,
    refused: Setup<B>,
    other: Setup<B>,
) -> Option<bool> {
    match fault_of(alloc, disk, refused) {
        Some((SessionFault::NoMemory, disk)) => {
            let lines = b"cmd list $q $n $v\ncmd app.next\n";
            opens_and_tells(alloc, disk, other, lines, b"ok 9 .e 1 a\nok 10 3\n")
        }
        _ => Some(false),
    }
}

// Whether a call is refused memory where its own memory has so many bytes: in lines, which answer so then, and where what they
// left is opened.
fn call_is_refused(alloc: Global, refused_at: usize, want: &[u8]) -> Option<bool> {
    let limits = Limits::format1();
    let refused = with_refused(alloc, 3, limits, Some(refused_at))?;
    answered_on(alloc, MemoryDisk::new(alloc), refused, CALLS, want)?;
    let again = with_refused(alloc, 3, limits, Some(refused_at))?;
    let disk = left_by(alloc, CALLS)?;
    opens_later(alloc, disk, again, with_both(alloc, 3, limits)?)
}

#[test]
fn each_call_is_refused_memory_in_turn(rt: HostRuntime) {
    assert_eq!(rt; call_is_refused(rt.alloc(), 0, FIRST_REFUSED), Some(true));
    assert_eq!(rt; call_is_refused(rt.alloc(), 1, SECOND_REFUSED), Some(true));
}
