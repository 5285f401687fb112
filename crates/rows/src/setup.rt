//! What sessions are opened with, and what they answer.

use std::alloc::Global;
use tks_app::{AppBody, Apps};
use tks_desk::{Own, RunFault, put_fault, run};
use tks_disk::Disk;
use tks_session::{OpenFault, Session, SessionFault};
use tks_text::{Limits, Size};

/// What a session is opened with, beside its disk.
#[derive(Drop)]
pub struct Setup<B: AppBody> {
    pub apps: Apps<Own, B>,
    pub grid: Size,
    pub limits: Limits,
}

impl<B: AppBody> Setup<B> {
    /// Opens a session on this disk.
    pub fn open<D: Disk>(
        self,
        alloc: Global,
        disk: D,
    ) -> Result<Session<D, Own, B>, OpenFault<D, Own, B>> {
        let Setup { apps, grid, limits } = self;
        Session::open(alloc, disk, apps, grid, limits)
    }
}

/// Opens a session on a disk and adds what it answers to lines, or the fault that it isn't opened for: whether it came to their
/// end, and the disk and the setup again.
pub fn answered<D: Disk + Drop, B: AppBody>(
    alloc: Global,
    disk: D,
    setup: Setup<B>,
    lines: &str,
    written: &mut Vec<u8>,
) -> (bool, D, Setup<B>) {
    let (grid, limits) = (setup.grid, setup.limits);
    let (is_told, disk, apps) = match setup.open(alloc, disk) {
        Ok(session) => answered_by(alloc, session, lines, written),
        Err(refused) => {
            let is_told = put_end(&refused.fault, written);
            (is_told, refused.disk, refused.apps)
        }
    };
    (is_told, disk, Setup { apps, grid, limits })
}

// The same of a session that is open, which is closed behind it.
fn answered_by<D: Disk + Drop, B: AppBody>(
    alloc: Global,
    session: Session<D, Own, B>,
    lines: &str,
    written: &mut Vec<u8>,
) -> (bool, D, Apps<Own, B>) {
    let mut session = session;
    let is_told = put_answers(alloc, &mut session, lines, written);
    let (disk, apps) = session.close();
    (is_told, disk, apps)
}

/// Adds what a session answers to lines, and the fault that ends it where one does: whether it came to their end.
pub fn put_answers<D: Disk, B: AppBody>(
    alloc: Global,
    session: &mut Session<D, Own, B>,
    lines: &str,
    written: &mut Vec<u8>,
) -> bool {
    let mut lines = lines.as_bytes();
    match run(alloc, &mut lines, written, session) {
        Ok(_) => true,
        Err(RunFault::Session(fault)) => put_end(&fault, written),
        Err(_) => put_end(&SessionFault::NoMemory, written),
    }
}

// Adds the fault that ends a session. It didn't come to its end.
fn put_end(fault: &SessionFault, written: &mut Vec<u8>) -> bool {
    let _ = put_fault(written, fault);
    false
}
