//! The program's commands, what sessions with them are opened with, and what they answer.
ghost use Rattle.std.specs.Prelude.{◌≡◌, if◌then◌else◌};
ghost use Rattle.std.proofs.Props.{props};
ghost use Rattle.tks_desk.specs.Own.{next_of, swap_of};

use std::alloc::{AllocError, Global};
use tks_app::{AppAnswer, AppBody, AppCommand, Apps};
use tks_desk::{Own, next_number, own_apps, run, swap_word};
use tks_disk::{Disk, MemoryDisk, Side};
use tks_session::{OpenFault, Session, SessionFault};
use tks_text::{Limits, Size, Txt};

/// What `app.swap` or `app.next` runs.
#[derive(Drop)]
pub struct Body {
    pub alloc: Global,
    pub swaps: bool,
    /// Where its memory has this many bytes, it is refused memory.
    pub refused_at: Option<usize>,
}

impl AppBody for Body {
    ghost callable = { λ b. Unit {0} };

    ghost callable_is_fact = { λ b. Prim.hlevel props };

    ghost may_answer = { λ b memory words answer. answer ≡ (if b.swaps then swap_of memory words else next_of memory words) };

    fn run(&self, memory: &Txt, words: &[Txt]) -> Result<AppAnswer, AllocError> {
        if self.refused_at == Some(memory.len()) {
            return Err(AllocError);
        }
        if self.swaps {
            swap_word(self.alloc, memory, words)
        } else {
            next_number(self.alloc, memory, words)
        }
    }
}

/// What a session is opened with, beside its disk.
#[derive(Drop)]
pub struct Setup<B: AppBody> {
    pub apps: Apps<Own, B>,
    pub grid: Size,
    pub limits: Limits,
}

impl<B: AppBody> Setup<B> {
    /// Opens a session on this disk.
    pub fn open<D: Disk>(
        self,
        alloc: Global,
        disk: D,
    ) -> Result<Session<D, Own, B>, OpenFault<D, Own, B>> {
        let Setup { apps, grid, limits } = self;
        Session::open(alloc, disk, apps, grid, limits)
    }
}

/// One with both commands, on a grid of 20 by so many cells.
pub fn with_both(alloc: Global, height: u16, limits: Limits) -> Option<Setup<Body>> {
    with_refused(alloc, height, limits, None)
}

/// The same where `app.next` is refused memory once its own memory has so many bytes.
pub fn with_refused(
    alloc: Global,
    height: u16,
    limits: Limits,
    refused_at: Option<usize>,
) -> Option<Setup<Body>> {
    let next = Body {
        alloc,
        swaps: false,
        refused_at,
    };
    let swap = Body {
        alloc,
        swaps: true,
        refused_at: None,
    };
    Some(Setup {
        limits,
        grid: Size::new(20, height)?,
        apps: own_apps(alloc, next, swap).ok()?,
    })
}

/// One with `app.next` alone, on a grid of 20 by 3 cells.
pub fn counting(alloc: Global) -> Option<Setup<Body>> {
    let next = Body {
        alloc,
        swaps: false,
        refused_at: None,
    };
    let mut apps: Apps<Own, Body> = Apps::new(alloc);
    let command = AppCommand::new(Txt::from_text(alloc, b"app.next").ok()?, next);
    if apps.add(command).is_err() {
        return None;
    }
    Some(Setup {
        limits: Limits::format1(),
        grid: Size::new(20, 3)?,
        apps,
    })
}

// What a session answers to lines.
fn told<D: Disk, B: AppBody>(
    alloc: Global,
    session: &mut Session<D, Own, B>,
    lines: &[u8],
) -> Option<Vec<u8>> {
    let mut lines = lines;
    let mut written = Vec::new(alloc);
    run(alloc, &mut lines, &mut written, session).ok()?;
    Some(written)
}

/// Whether a session answers lines so.
pub fn tells<D: Disk, B: AppBody>(
    alloc: Global,
    session: &mut Session<D, Own, B>,
    lines: &[u8],
    want: &[u8],
) -> Option<bool> {
    Some(told(alloc, session, lines)?.as_slice() == want)
}

/// The disk of a session that is opened on it and answers lines so.
pub fn answered_on<D: Disk + Drop, B: AppBody>(
    alloc: Global,
    disk: D,
    setup: Setup<B>,
    lines: &[u8],
    want: &[u8],
) -> Option<D> {
    match setup.open(alloc, disk) {
        Ok(mut session) => {
            let is_told = tells(alloc, &mut session, lines, want)?;
            let disk = session.close().0;
            if is_told { Some(disk) } else { None }
        }
        Err(_) => None,
    }
}

/// Whether a disk opens to a session that answers lines so.
pub fn opens_and_tells<D: Disk + Drop, B: AppBody>(
    alloc: Global,
    disk: D,
    setup: Setup<B>,
    lines: &[u8],
    want: &[u8],
) -> Option<bool> {
    match setup.open(alloc, disk) {
        Ok(mut session) => tells(alloc, &mut session, lines, want),
        Err(_) => Some(false),
    }
}

// The disk as lines leave it, of a session that is opened on it.
fn left_on<D: Disk + Drop, B: AppBody>(
    alloc: Global,
    disk: D,
    setup: Setup<B>,
    lines: &[u8],
) -> Option<D> {
    match setup.open(alloc, disk) {
        Ok(mut session) => {
            let is_told = told(alloc, &mut session, lines).is_some();
            let disk = session.close().0;
            if is_told { Some(disk) } else { None }
        }
        Err(_) => None,
    }
}

/// The disk that such lines leave, of a fresh session with both commands on a grid of 20 by 3 cells.
pub fn left_by(alloc: Global, lines: &[u8]) -> Option<MemoryDisk> {
    let setup = with_both(alloc, 3, Limits::format1())?;
    left_on(alloc, MemoryDisk::new(alloc), setup, lines)
}

/// Why a disk isn't opened, and the disk that is handed back.
pub fn fault_of<D: Disk + Drop, B: AppBody>(
    alloc: Global,
    disk: D,
    setup: Setup<B>,
) -> Option<(SessionFault, D)> {
    match setup.open(alloc, disk) {
        Ok(_) => None,
        Err(refused) => Some((refused.fault, refused.disk)),
    }
}

/// The bytes of a side, up to 4,096.
pub fn bytes_of<D: Disk>(alloc: Global, disk: &mut D, side: Side) -> Option<Vec<u8>> {
    let length = disk.len(side).ok()?;
    let mut bytes = vec![in alloc; 0u8; length.min(4_096)].ok()?;
    let read = disk.read_at(side, 0, bytes.as_mut_slice()).ok()?;
    if read == length { Some(bytes) } else { None }
}
