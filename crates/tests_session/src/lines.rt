//! Runs over readers and writers that a row has not: such as break, are narrow, or hold long lines.

use crate::own::{Setup, with_both};
use std::alloc::Global;
use std::io;
use std::io::{BufRead, ErrorKind, Read, Write};
use tks_app::AppBody;
use tks_desk::{Own, RunEnd, RunFault, run};
use tks_disk::{Disk, MemoryDisk};
use tks_session::Session;
use tks_text::Limits;

// Shows its text three bytes at a time, interrupts every other try, and fails in place of the end.
#[derive(Drop)]
struct Broken<'a> {
    rest: &'a [u8],
    interrupts: bool,
}

impl Read for Broken<'_> {
    fn read(&mut self, _buf: &mut [u8]) -> io::Result<usize> {
        Err(io::Error::from(ErrorKind::Unsupported))
    }
}

impl BufRead for Broken<'_> {
    fn fill_buf(&mut self) -> io::Result<&[u8]> {
        self.interrupts = !self.interrupts;
        if self.interrupts {
            return Err(io::Error::from(ErrorKind::Interrupted));
        }
        if self.rest.is_empty() {
            return Err(io::Error::from(ErrorKind::BrokenPipe));
        }
        let shown = self.rest.len().min(3);
        Ok(&self.rest[..shown])
    }

    fn consume(&mut self, amount: usize) {
        let taken = self.rest.len().min(amount);
        self.rest = &self.rest[taken..];
    }
}

// Takes two bytes a write, interrupts every other one, fails once it holds `most`, and, where told so, at a flush.
#[derive(Drop)]
struct Narrow {
    held: Vec<u8>,
    most: usize,
    interrupts: bool,
    flushes: bool,
}

impl Write for Narrow {
    fn write(&mut self, buf: &[u8]) -> io::Result<usize> {
        self.interrupts = !self.interrupts;
        if self.interrupts {
            return Err(io::Error::from(ErrorKind::Interrupted));
        }
        let room = self.most.saturating_sub(self.held.len());
        if room == 0 {
            return Err(io::Error::from(ErrorKind::StorageFull));
        }
        let taken = buf.len().min(room).min(2);
        self.held.extend_from_slice(&buf[..taken])?;
        Ok(taken)
    }

    fn flush(&mut self) -> io::Result<()> {
        if self.flushes {
            Ok(())
        } else {
            Err(io::Error::from(ErrorKind::StorageFull))
        }
    }
}

// How a run ended.
fn told(end: &Result<RunEnd, RunFault>) -> &'static str {
    match end {
        Ok(RunEnd::Quit) => "quit",
        Ok(RunEnd::EndOfInput) => "end",
        Err(RunFault::Read) => "read fault",
        Err(RunFault::Write) => "write fault",
        Err(RunFault::Memory) => "memory fault",
        Err(RunFault::Session(_)) => "session fault",
    }
}

// What a session on an empty disk writes for an input, and then how the run ends.
fn talk_on<D: Disk + Drop, B: AppBody, R: BufRead>(
    alloc: Global,
    disk: D,
    setup: Setup<B>,
    reader: &mut R,
) -> Option<Vec<u8>> {
    let mut session = setup.open(alloc, disk).ok()?;
    let mut written = Vec::new(alloc);
    let end = run(alloc, reader, &mut written, &mut session);
    written.extend_from_slice(told(&end).as_bytes()).ok()?;
    Some(written)
}

// The same of one with a grid of 20 by 3, within these limits.
fn talk<R: BufRead>(alloc: Global, limits: Limits, reader: &mut R) -> Option<Vec<u8>> {
    let setup = with_both(alloc, 3, limits)?;
    talk_on(alloc, MemoryDisk::new(alloc), setup, reader)
}

// Whether a reader is answered so within these limits.
fn answers_within<R: BufRead>(alloc: Global, limits: Limits, reader: &mut R, want: &str) -> bool {
    match talk(alloc, limits, reader) {
        Some(talked) => talked.as_slice() == want.as_bytes(),
        None => false,
    }
}

// The same within those of format 1.
fn answers<R: BufRead>(alloc: Global, reader: &mut R, want: &str) -> bool {
    answers_within(alloc, Limits::format1(), reader, want)
}

#[test]
fn runs_end_so(rt: HostRuntime) {
    let rows: [(&[u8], &str); 10] = [
        (b"", "end"),
        (b"cmd", "ok 1\nend"),
        (b"quit\ncmd set x 5\n", "bye\nquit"),
        (b"cmd set x 5\nquit", "ok 1 5\nbye\nquit"),
        (b"cmd set x \x80\ncmd\n", "bad line\nok 1\nend"),
        (b"cmd set x \x7f", "bad line\nend"),
        (b"cmd set x 5\r\n", "bad line\nend"),
        (b"load 7\nset a 2", "ok 1 2\nend"),
        (b"load 7\nset a \x80\ncmd\n", "bad line\nok 1\nend"),
        (b"load 8\nset a 2\nquit\n", "ok 1 2\nbye\nquit"),
    ];
    for (input, want) in rows {
        let mut reader = input;
        assert!(rt; answers(rt.alloc(), &mut reader, want), "before {want}");
    }
}

// Not a byte behind `quit` is taken.
#[test]
fn the_rest_stays(rt: HostRuntime) {
    let mut reader: &[u8] = b"cmd\nquit\ncmd\n";
    assert!(rt; answers(rt.alloc(), &mut reader, "ok 1\nbye\nquit"));
    assert_eq!(rt; reader, b"cmd\n".as_slice());
}

// The line that has `front` before as many of one text as are wanted, and then the line `cmd set x`.
fn repeated(alloc: Global, front: &str, text: &str, count: usize) -> Option<Vec<u8>> {
    let mut line = Vec::from_slice(alloc, front.as_bytes()).ok()?;
    for _ in 0..count {
        line.extend_from_slice(text.as_bytes()).ok()?;
    }
    line.extend_from_slice(b"\ncmd set x\n").ok()?;
    Some(line)
}

// Long lines within the limits of format 1: the steps of an input, the bytes of a script, of a line, of a load.
const LONG: [(&str, &str, usize, &str); 10] = [
    (
        "cmd set x 5\ncmd ",
        "set x;",
        10_000,
        "ok 1 5\nok 2 5\nok 3 5\nend",
    ),
    (
        "cmd set x 5\ncmd ",
        "set x;",
        10_001,
        "ok 1 5\nrefused budget\nok 2 5\nend",
    ),
    ("cmd set x 5", " ", 65_529, "ok 1 5\nok 2 5\nend"),
    (
        "cmd set x 5",
        " ",
        65_530,
        "refused bad\nerror 1 E11 x\nend",
    ),
    (
        "cmd set x 5",
        " ",
        65_589,
        "refused bad\nerror 1 E11 x\nend",
    ),
    ("cmd set x 5", " ", 65_590, "bad line\nerror 1 E11 x\nend"),
    ("cmd set x 5", " ", 200_000, "bad line\nerror 1 E11 x\nend"),
    ("load 65536\nset x 5", " ", 65_529, "ok 1 5\nok 2 5\nend"),
    (
        "load 65537\nset x 5",
        " ",
        65_530,
        "refused bad\nerror 1 E11 x\nend",
    ),
    (
        "load 1048576\nset x 5",
        " ",
        1_048_569,
        "refused bad\nerror 1 E11 x\nend",
    ),
];

// The same within those of format 2.
const LONGER: [(&str, &str, usize, &str); 5] = [
    (
        "cmd set x 5\ncmd ",
        "set x;",
        10_001,
        "ok 1 5\nok 2 5\nok 3 5\nend",
    ),
    ("cmd set x 5", " ", 65_589, "ok 1 5\nok 2 5\nend"),
    ("cmd set x 5", " ", 65_590, "bad line\nerror 1 E11 x\nend"),
    ("load 65537\nset x 5", " ", 65_530, "ok 1 5\nok 2 5\nend"),
    (
        "load 1048576\nset x 5",
        " ",
        1_048_569,
        "ok 1 5\nok 2 5\nend",
    ),
];

// Whether such a long line is answered so within these limits.
fn answers_long(
    alloc: Global,
    limits: Limits,
    front: &str,
    repeats: (&str, usize),
    want: &str,
) -> Option<bool> {
    let (text, count) = repeats;
    let input = repeated(alloc, front, text, count)?;
    let mut reader = input.as_slice();
    Some(answers_within(alloc, limits, &mut reader, want))
}

#[test]
fn long_lines(rt: HostRuntime) {
    for (front, text, count, want) in LONG {
        let limits = Limits::format1();
        let is_right = answers_long(rt.alloc(), limits, front, (text, count), want);
        assert_eq!(rt; is_right, Some(true), "at {count}");
    }
}

#[test]
fn longer_lines(rt: HostRuntime) {
    for (front, text, count, want) in LONGER {
        let limits = Limits::format2();
        let is_right = answers_long(rt.alloc(), limits, front, (text, count), want);
        assert_eq!(rt; is_right, Some(true), "at {count}");
    }
}

#[test]
fn a_reader_that_breaks(rt: HostRuntime) {
    let rows: [(&[u8], &str); 3] = [
        (b"cmd set x 5\ncmd set", "ok 1 5\nread fault"),
        (b"load 7\nset a 2\nload 7\nset", "ok 1 2\nread fault"),
        (b"cmd set x 5\n", "ok 1 5\nread fault"),
    ];
    for (rest, want) in rows {
        let mut reader = Broken {
            rest,
            interrupts: false,
        };
        assert!(rt; answers(rt.alloc(), &mut reader, want), "before {want}");
    }
}

// Whether a session's run over these lines ends with its writer, which takes so many bytes and perhaps doesn't flush, and
// whether this is what it took by then.
fn ends_with_its_writer<D: Disk, B: AppBody>(
    alloc: Global,
    session: &mut Session<D, Own, B>,
    lines: &[u8],
    most: usize,
    flushes: bool,
    want: &[u8],
) -> bool {
    let mut reader = lines;
    let mut writer = Narrow {
        held: Vec::new(alloc),
        most,
        interrupts: false,
        flushes,
    };
    let end = run(alloc, &mut reader, &mut writer, session);
    told(&end) == "write fault" && writer.held.as_slice() == want
}

// The same of a session on an empty disk.
fn breaks_on<D: Disk + Drop, B: AppBody>(
    alloc: Global,
    disk: D,
    setup: Setup<B>,
    most: usize,
    flushes: bool,
    want: &[u8],
) -> Option<bool> {
    let mut session = setup.open(alloc, disk).ok()?;
    let lines = b"cmd set x 5\ncmd set x 6\ncmd set x 7\n";
    Some(ends_with_its_writer(alloc, &mut session, lines, most, flushes, want))
}

// The same of one with a grid of 20 by 3.
fn breaks(alloc: Global, most: usize, flushes: bool, want: &[u8]) -> Option<bool> {
    let setup = with_both(alloc, 3, Limits::format1())?;
    breaks_on(alloc, MemoryDisk::new(alloc), setup, most, flushes, want)
}

#[test]
fn a_writer_that_breaks(rt: HostRuntime) {
    let rows: [(usize, bool, &[u8]); 5] = [
        (0, true, b""),
        (9, true, b"ok 1 5\nok"),
        (13, true, b"ok 1 5\nok 2 6"),
        (15, true, b"ok 1 5\nok 2 6\no"),
        (100, false, b"ok 1 5\n"),
    ];
    for (most, flushes, want) in rows {
        assert_eq!(rt;
            breaks(rt.alloc(), most, flushes, want),
            Some(true),
            "at {most}"
        );
    }
}

// Three scripts that wait, and a line that runs them in turns.
const DRAINING: &[u8] =
    b"cmd after 0 {append r a}; after 0 {append r b}; after 0 {append r c}\ndrain 9\ncmd set r\n";

// What is answered to these lines, but for the last.
const DRAINED: &[u8] =
    b"ok 1 after#2\nok 2 timer after#0\nok 3 timer after#1\nok 4 timer after#2\ndrained 3\n";

// Whether a session that goes on behind such a run answers a line as behind all three turns.
fn has_drained<D: Disk, B: AppBody>(alloc: Global, session: &mut Session<D, Own, B>) -> bool {
    let mut reader: &[u8] = b"cmd set r\n";
    let mut written = Vec::new(alloc);
    let end = run(alloc, &mut reader, &mut written, session);
    told(&end) == "end" && written.as_slice() == b"ok 5 abc\n".as_slice()
}

// Whether a run on an empty disk whose writer breaks behind so many bytes, inside a `drain`, writes nothing more, runs the
// turns that are left, and ends with that fault.
fn drains_on<D: Disk + Drop, B: AppBody>(
    alloc: Global,
    disk: D,
    setup: Setup<B>,
    most: usize,
) -> Option<bool> {
    let (front, _) = DRAINED.split_at_checked(most)?;
    let mut session = setup.open(alloc, disk).ok()?;
    Some(
        ends_with_its_writer(alloc, &mut session, DRAINING, most, true, front)
            && has_drained(alloc, &mut session),
    )
}

// The same of one with a grid of 20 by 3.
fn drains(alloc: Global, most: usize) -> Option<bool> {
    let setup = with_both(alloc, 3, Limits::format1())?;
    drains_on(alloc, MemoryDisk::new(alloc), setup, most)
}

#[test]
fn a_writer_that_breaks_in_a_drain(rt: HostRuntime) {
    for most in [13, 20, 32, 50, 70, 79] {
        assert_eq!(rt; drains(rt.alloc(), most), Some(true), "at {most}");
    }
}

// Whether a line is answered so within the limits of format 2.
fn is_answered(alloc: Global, line: &str, want: &str) -> bool {
    let mut reader = line.as_bytes();
    answers_within(alloc, Limits::format2(), &mut reader, want)
}

// The start and the last `set`, and two steps for each turn beside the last test.
#[test]
fn a_loop_of_100_000_steps(rt: HostRuntime) {
    let line = "cmd for {set i 0} {$i < 49998} {incr i} {}; set i";
    assert!(rt; is_answered(rt.alloc(), line, "ok 1 49998\nend"));
}

#[test]
fn a_loop_of_two_steps_more(rt: HostRuntime) {
    let line = "cmd for {set i 0} {$i < 49999} {incr i} {}; set i";
    assert!(rt; is_answered(rt.alloc(), line, "refused budget\nend"));
}

// So many times the line `cmd`, then a commit, and the line once more.
fn many_inputs(alloc: Global, count: usize) -> Option<Vec<u8>> {
    let mut lines = Vec::new(alloc);
    for _ in 0..count {
        lines.extend_from_slice(b"cmd\n").ok()?;
    }
    lines.extend_from_slice(b"commit\ncmd\n").ok()?;
    Some(lines)
}

// Whether the answers to so many such lines end so.
fn ends_so(alloc: Global, limits: Limits, count: usize, want: &[u8]) -> Option<bool> {
    let lines = many_inputs(alloc, count)?;
    let mut reader = lines.as_slice();
    let answers = talk(alloc, limits, &mut reader)?;
    let answers = answers.as_slice();
    Some(answers.starts_with(b"ok 1\nok 2\n") && answers.ends_with(want))
}

#[test]
fn no_more_inputs_wait_than_may(rt: HostRuntime) {
    let first = b"\nok 63\nok 64\nrefused pending\ncommitted 64\nok 65\nend";
    let second = b"\nok 255\nok 256\nrefused pending\ncommitted 256\nok 257\nend";
    assert_eq!(rt;
        ends_so(rt.alloc(), Limits::format1(), 65, first),
        Some(true)
    );
    assert_eq!(rt;
        ends_so(rt.alloc(), Limits::format2(), 257, second),
        Some(true)
    );
}
