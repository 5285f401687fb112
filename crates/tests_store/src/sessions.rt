//! Sessions that are stopped, crashed and damaged, and what they refuse.

use crate::crashes::left;
use crate::log::Log;
use std::alloc::Global;
use tks_disk::{Disk, Fuse, Left, MemoryDisk, Once, Side};
use tks_durable::{Drained, Durable, SessionFault};
use tks_input::{Input, Refused, Reply};
use tks_text::Txt;

fn script(alloc: Global, bytes: &[u8]) -> Option<Input> {
    Some(Input::Script(Txt::from_bytes(alloc, bytes).ok()?))
}

// Whether a session whose device failed takes nothing any more.
fn takes_nothing<D: Disk>(alloc: Global, session: &mut Durable<D, Log>) -> Option<bool> {
    let input = script(alloc, b"z")?;
    Some(
        session.has_failed()
            && matches!(session.post(&input), Err(Refused::Failed))
            && session.commit() == Err(SessionFault::Failed)
            && session.checkpoint() == Err(SessionFault::Failed),
    )
}

// Posts letters, commits at each dot, and makes a checkpoint at each `!`, until a call fails. How many were acknowledged last.
fn lives<D: Disk>(alloc: Global, session: &mut Durable<D, Log>, acts: &[u8]) -> Option<u64> {
    let mut told = session.acknowledged();
    for act in acts {
        let acknowledged = match *act {
            b'.' => session.commit(),
            b'!' => session.checkpoint(),
            _ => {
                session.post(&script(alloc, &[*act])?).ok()?;
                Ok(told)
            }
        };
        match acknowledged {
            Ok(count) => told = count,
            Err(fault) => {
                let has_failed = fault == SessionFault::Disk && takes_nothing(alloc, session)?;
                return if has_failed { Some(told) } else { None };
            }
        }
    }
    Some(told)
}

/// A machine with room for a text of six letters, of which two may wait.
pub const LOG: Log = Log {
    limit: 6,
    pending: 2,
};

/// A session's life on this disk: how many letters were acknowledged, and the disk.
pub fn lived<D: Disk + Drop>(alloc: Global, disk: D, log: Log, acts: &[u8]) -> (Option<u64>, D) {
    match Durable::open(alloc, disk, log) {
        Ok(mut session) => {
            let told = lives(alloc, &mut session, acts);
            (told, session.close().0)
        }
        Err(refused) => (Some(0), refused.disk),
    }
}

// Whether the disk opens to a prefix of the letters that has at least so many.
fn opens_to_prefix<D: Disk + Drop>(
    alloc: Global,
    disk: D,
    log: Log,
    letters: &[u8],
    told: u64,
) -> Option<bool> {
    match Durable::open(alloc, disk, log) {
        Ok(session) => {
            let world = session.world().as_bytes();
            Some(
                letters.starts_with(world)
                    && world.len() as u64 >= told
                    && session.acknowledged() == world.len() as u64
                    && session.posted() == world.len() as u64,
            )
        }
        Err(_) => Some(false),
    }
}

// Whether a crash of the disk leaves what opens so.
fn crash_opens(
    alloc: Global,
    disk: &MemoryDisk,
    crash: (Left, Left),
    log: Log,
    letters: &[u8],
    told: u64,
) -> Option<bool> {
    match disk.crash(alloc, crash.0, crash.1) {
        Ok(crashed) => opens_to_prefix(alloc, crashed, log, letters, told),
        Err(_) => None,
    }
}

// Whether each crash of it does.
fn each_crash_opens(
    alloc: Global,
    disk: &MemoryDisk,
    log: Log,
    letters: &[u8],
    told: u64,
) -> Option<bool> {
    for a in 0..5 {
        for b in 0..5 {
            if !crash_opens(alloc, disk, (left(a), left(b)), log, letters, told)? {
                return Some(false);
            }
        }
    }
    Some(true)
}

/// How many letters were acknowledged, where the disk, crashed in each way, opens to a prefix of all the letters with these.
pub fn kept(
    alloc: Global,
    disk: &MemoryDisk,
    log: Log,
    letters: &[u8],
    told: Option<u64>,
) -> Option<u64> {
    let told = told?;
    let is_kept = each_crash_opens(alloc, disk, log, letters, told)?;
    if is_kept { Some(told) } else { None }
}

// The same where the device stops after so many calls.
fn stopped(alloc: Global, calls: u64, log: Log, acts: &[u8], letters: &[u8]) -> Option<u64> {
    let (told, fuse) = lived(alloc, Fuse::new(MemoryDisk::new(alloc), calls), log, acts);
    kept(alloc, &fuse.into_inner(), log, letters, told)
}

// The same where one call fails, the one behind so many.
fn failed_once(alloc: Global, calls: u64, log: Log, acts: &[u8], letters: &[u8]) -> Option<u64> {
    let (told, once) = lived(alloc, Once::new(MemoryDisk::new(alloc), calls), log, acts);
    kept(alloc, &once.into_inner(), log, letters, told)
}

#[test]
fn each_stop_leaves_a_prefix_with_all_that_was_acknowledged(rt: HostRuntime) {
    let alloc = rt.alloc();
    let mut last = 0;
    for calls in 0..60 {
        let told = stopped(alloc, calls, LOG, b"a.bc.de.", b"abcde");
        assert!(rt; told.is_some(), "after {calls} calls");
        last = told.unwrap_or(0);
    }
    assert_eq!(rt; last, 5);
}

// Thirty inputs with twelve commits and three checkpoints; the last one isn't committed.
const ACTS: &[u8] = b"a.bc.d.efg!hijk.l.mnopq.!rs.t.uvw.xy.zABC!.D";

const LETTERS: &[u8] = b"abcdefghijklmnopqrstuvwxyzABCD";

#[test]
fn each_stop_of_a_long_session_leaves_a_prefix_too(rt: HostRuntime) {
    let alloc = rt.alloc();
    let log = Log {
        limit: 30,
        pending: 5,
    };
    let mut last = 0;
    for calls in 0..160 {
        let told = stopped(alloc, calls, log, ACTS, LETTERS);
        assert!(rt; told.is_some(), "after {calls} calls");
        last = told.unwrap_or(0);
    }
    assert_eq!(rt; last, 29);
}

#[test]
fn each_call_that_fails_leaves_a_prefix_too(rt: HostRuntime) {
    let alloc = rt.alloc();
    let log = Log {
        limit: 30,
        pending: 5,
    };
    let mut last = 0;
    for calls in 0..160 {
        let told = failed_once(alloc, calls, log, ACTS, LETTERS);
        assert!(rt; told.is_some(), "behind {calls} calls");
        last = told.unwrap_or(0);
    }
    assert_eq!(rt; last, 29);
}

// What an empty disk opens to, once it has these bytes: the text, or the fault.
fn filled_opens<D: Disk + Drop>(
    alloc: Global,
    disk: D,
    a: &[u8],
    b: &[u8],
) -> Option<Result<Vec<u8>, SessionFault>> {
    let mut disk = disk;
    disk.write_at(Side::A, 0, a).ok()?;
    disk.write_at(Side::B, 0, b).ok()?;
    match Durable::open(alloc, disk, LOG) {
        Ok(session) => Some(Ok(session.world().as_bytes().to_vec(alloc).ok()?)),
        Err(refused) => Some(Err(refused.fault)),
    }
}

// What sides of these bytes open to.
fn opened(alloc: Global, a: &[u8], b: &[u8]) -> Option<Result<Vec<u8>, SessionFault>> {
    filled_opens(alloc, MemoryDisk::new(alloc), a, b)
}

/// Whether sides of these bytes open to this text.
pub fn opens(alloc: Global, a: &[u8], b: &[u8], text: &[u8]) -> bool {
    match opened(alloc, a, b) {
        Some(Ok(found)) => found.as_slice() == text,
        _ => false,
    }
}

/// Whether this fault is why sides of these bytes aren't opened.
pub fn fails(alloc: Global, a: &[u8], b: &[u8], fault: SessionFault) -> bool {
    match opened(alloc, a, b) {
        Some(Err(found)) => found == fault,
        _ => false,
    }
}

// Generation 1, 20 by 3, no names, a world of one byte `a`.
const SIDE: &[u8] = b"\x01\x01\0\0\0\0\0\0\0\x01\0\x14\0\x03\0\0\0\0\0\0\0\0\0\0\0\x01a\0";

#[test]
fn sides_open_as_their_bytes_say(rt: HostRuntime) {
    let alloc = rt.alloc();
    assert!(rt; opens(alloc, b"", b"", b""), "nothing");
    assert!(rt; opens(alloc, b"\x01", b"", b""), "a gate alone");
    assert!(rt; opens(alloc, SIDE, b"", b"a"), "a world");
    assert!(rt; opens(alloc, b"", SIDE, b"a"), "on the other side");
    assert!(rt;
        fails(alloc, SIDE, SIDE, SessionFault::Damaged),
        "one generation twice"
    );
    assert!(rt;
        fails(alloc, b"\x01\x03", b"", SessionFault::Version),
        "the format behind the newest"
    );
    assert!(rt;
        fails(alloc, SIDE, b"\x01\0", SessionFault::Version),
        "no format, beside a sound side"
    );
    assert!(rt;
        fails(alloc, b"\x01\x01\0\0\0", b"", SessionFault::Damaged),
        "a cut header"
    );
}

// The side with other bytes from this place on.
fn side_with(alloc: Global, at: usize, bytes: &[u8]) -> Option<Vec<u8>> {
    let (front, _) = SIDE.split_at_checked(at)?;
    let mut side = front.to_vec(alloc).ok()?;
    side.extend_from_slice(bytes).ok()?;
    Some(side)
}

fn side_fails(alloc: Global, at: usize, bytes: &[u8], fault: SessionFault) -> bool {
    match side_with(alloc, at, bytes) {
        Some(side) => fails(alloc, &side, b"", fault),
        None => false,
    }
}

fn side_opens(alloc: Global, at: usize, bytes: &[u8], text: &[u8]) -> bool {
    match side_with(alloc, at, bytes) {
        Some(side) => opens(alloc, &side, b"", text),
        None => false,
    }
}

#[test]
fn faults_come_in_their_order(rt: HostRuntime) {
    let alloc = rt.alloc();
    let grid = b"\x15\0\x03\0\0\0\0\0\0\0\0\0\0\0\x01a\0";
    assert!(rt;
        side_fails(alloc, 11, grid, SessionFault::OtherGrid),
        "a wider grid"
    );
    let cut = b"\x15\0\x03\0\0\0\0\0\0\0\0\0\0\0\x01a\x01\0\0\0\x09";
    assert!(rt;
        side_fails(alloc, 11, cut, SessionFault::Damaged),
        "a cut frame before the grid"
    );
    let names = b"\x01\0\0\0\x01x\0\0\0\0\0\0\0\x01a\0";
    assert!(rt;
        side_fails(alloc, 17, names, SessionFault::OtherCommands),
        "a command more"
    );
    let long = b"\x07abcdefg\0";
    assert!(rt;
        side_fails(alloc, 25, long, SessionFault::SmallerLimits),
        "a world over the limit"
    );
    assert!(rt;
        side_fails(alloc, 26, b"\xff\0", SessionFault::Damaged),
        "a world that is no text"
    );
    let frame = b"\x01\0\0\0\x0c\x01\0\0\0\x01b\x01\0\0\0\x01c\0";
    assert!(rt;
        side_opens(alloc, 27, frame, b"abc"),
        "two inputs in a frame"
    );
    let over = b"\x05abcde\x01\0\0\0\x0c\x01\0\0\0\x01f\x01\0\0\0\x01g\0";
    assert!(rt;
        side_fails(alloc, 25, over, SessionFault::SmallerLimits),
        "an input over the limit"
    );
    let long = b"\x01\0\0\0\x07\x01\0\0\0\x02bc\0";
    assert!(rt;
        side_fails(alloc, 27, long, SessionFault::SmallerLimits),
        "a script that is bad by now"
    );
    let clock = b"\x01\0\0\0\x09\x06\0\0\0\0\0\0\0\0\0";
    assert!(rt;
        side_fails(alloc, 27, clock, SessionFault::Damaged),
        "an input that was never accepted"
    );
    let turn = b"\x01\0\0\0\x01\x07\0";
    assert!(rt; side_opens(alloc, 27, turn, b"at"), "a turn");
    let both = b"\x01\0\0\0\x0b\x01\0\0\0\x06bcdefg\x01\0\0\0\x01\x09\0";
    assert!(rt;
        side_fails(alloc, 27, both, SessionFault::Damaged),
        "a later frame that is no list of inputs"
    );
}

// The last generation, 20 by 3, no names, a world of one byte `a`.
const LAST: &[u8] = b"\x01\x01\x40\0\0\0\0\0\0\0\0\x14\0\x03\0\0\0\0\0\0\0\0\0\0\0\x01a\0";

// Whether a session on a side of the last generation makes no checkpoint, and goes on.
fn no_more_sides<D: Disk + Drop>(alloc: Global, disk: D) -> Option<bool> {
    let mut disk = disk;
    disk.write_at(Side::A, 0, LAST).ok()?;
    match Durable::open(alloc, disk, LOG) {
        Ok(mut session) => {
            let is_refused = session.checkpoint() == Err(SessionFault::TooLarge);
            let is_posted = posts(alloc, &mut session, b"b")? == Ok(2);
            Some(is_refused && is_posted && session.commit() == Ok(2))
        }
        Err(_) => None,
    }
}

#[test]
fn the_last_generation_has_no_next(rt: HostRuntime) {
    let alloc = rt.alloc();
    assert!(rt; no_more_sides(alloc, MemoryDisk::new(alloc)) == Some(true));
}

// What a session says of one input more.
fn posts<D: Disk>(
    alloc: Global,
    session: &mut Durable<D, Log>,
    bytes: &[u8],
) -> Option<Result<u64, Refused>> {
    let input = script(alloc, bytes)?;
    match session.post(&input) {
        Ok(reply) => Some(Ok(reply.number)),
        Err(refused) => Some(Err(refused)),
    }
}

fn refuses<D: Disk>(alloc: Global, session: &mut Durable<D, Log>) -> Option<bool> {
    session.stands();
    let quiet = session.post(&Input::Turn).err() == Some(Refused::Quiet);
    let bad = posts(alloc, session, b"ab")? == Err(Refused::BadInput);
    let posted = posts(alloc, session, b"a")? == Ok(1) && posts(alloc, session, b"b")? == Ok(2);
    let full = posts(alloc, session, b"c")? == Err(Refused::PendingFull);
    let before = session.acknowledged() == 0 && session.posted() == 2;
    let committed = session.commit() == Ok(2) && session.commit() == Ok(2);
    let after = session.acknowledged() == 2 && session.world().as_bytes() == b"ab".as_slice();
    let again = posts(alloc, session, b"c")? == Ok(3);
    Some(quiet && bad && posted && full && before && committed && after && again)
}

fn refusals<D: Disk + Drop>(alloc: Global, disk: D) -> Option<bool> {
    match Durable::open(alloc, disk, LOG) {
        Ok(mut session) => refuses(alloc, &mut session),
        Err(_) => None,
    }
}

#[test]
fn refused_inputs_change_nothing(rt: HostRuntime) {
    let alloc = rt.alloc();
    assert!(rt; refusals(alloc, MemoryDisk::new(alloc)) == Some(true));
}

// Drains so many turns, and what was told of them: the sum of the replies' numbers.
fn drains<D: Disk>(session: &mut Durable<D, Log>, turns: u64) -> (Drained, u64) {
    let mut sum: u64 = 0;
    let mut tell = |reply: &Reply| sum = sum.saturating_add(reply.number);
    let drained = session.drain(turns, &mut tell);
    (drained, sum)
}

fn ended(turns: u64, ended: Option<Refused>, sum: u64) -> (Drained, u64) {
    (Drained { turns, ended }, sum)
}

// Of a session that is empty.
fn turns_are_told<D: Disk>(alloc: Global, session: &mut Durable<D, Log>) -> Option<bool> {
    let quiet = drains(session, 9) == ended(0, Some(Refused::Quiet), 0);
    let none = drains(session, 0) == ended(0, None, 0);
    let letter = posts(alloc, session, b"a")? == Ok(1);
    let two = drains(session, 2) == ended(2, None, 5);
    let large = drains(session, 9) == ended(3, Some(Refused::TooLarge), 15);
    let text = session.world().as_bytes() == b"attttt".as_slice();
    Some(quiet && none && letter && two && large && text && session.commit() == Ok(6))
}

fn drained<D: Disk + Drop>(alloc: Global, disk: D) -> Option<bool> {
    let log = Log {
        limit: 6,
        pending: 10,
    };
    match Durable::open(alloc, disk, log) {
        Ok(mut session) => turns_are_told(alloc, &mut session),
        Err(_) => None,
    }
}

#[test]
fn turns_are_told_one_by_one(rt: HostRuntime) {
    let alloc = rt.alloc();
    assert!(rt; drained(alloc, MemoryDisk::new(alloc)) == Some(true));
}

// Whether a session whose commit fails runs no turn then; none where it doesn't fail.
fn runs_no_turn<D: Disk>(alloc: Global, session: &mut Durable<D, Log>) -> Option<bool> {
    session.post(&script(alloc, b"a")?).ok()?;
    if session.commit().is_ok() {
        return None;
    }
    let mut told = false;
    let mut tell = |_reply: &Reply| told = true;
    let none = session.drain(0, &mut tell);
    let three = session.drain(3, &mut tell);
    Some(none.turns == 0 && none.ended == Some(Refused::Failed) && three == none && !told)
}

// The same of a session on this disk; none where it isn't opened either.
fn failed_on<D: Disk + Drop>(alloc: Global, disk: D) -> Option<bool> {
    match Durable::open(alloc, disk, LOG) {
        Ok(mut session) => runs_no_turn(alloc, &mut session),
        Err(_) => None,
    }
}

// A session whose disk fails at its next call.
fn failed(alloc: Global) -> Option<bool> {
    for calls in 0..40 {
        let told = failed_on(alloc, Fuse::new(MemoryDisk::new(alloc), calls));
        if told.is_some() {
            return told;
        }
    }
    None
}

#[test]
fn a_session_that_failed_runs_no_turn(rt: HostRuntime) {
    let alloc = rt.alloc();
    assert!(rt; failed(alloc) == Some(true));
}
