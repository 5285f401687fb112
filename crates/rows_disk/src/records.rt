//! Records of 60 bytes, each written and synced, one behind another.

use std::io;
use std::rt::{Clock, Files};
use std::time::Instant;
use tks_disk::{DeviceFault, Disk, FileDisk, FileDiskFault, Side};

const LEN: usize = 60;

/// No device that a run fills has more.
const MOST: usize = 100_000;

fn record(index: usize) -> [u8; LEN] {
    [b'!' + (index % 90) as u8; LEN]
}

fn append<D: Disk>(disk: &mut D, index: usize) -> Result<(), DeviceFault> {
    let at = index.saturating_mul(LEN);
    disk.write_at(Side::A, at, &record(index))?;
    disk.sync(Side::A)
}

/// Whether the record stands where it was written.
fn stands<D: Disk>(disk: &mut D, index: usize) -> bool {
    let mut buf = [0; LEN];
    disk.read_at(Side::A, index.saturating_mul(LEN), &mut buf) == Ok(LEN) && buf == record(index)
}

/// Whether the first so many records stand.
fn all_stand<D: Disk>(disk: &mut D, count: usize) -> bool {
    for index in 0..count {
        if !stands(disk, index) {
            return false;
        }
    }
    true
}

/// Appends records, at most so many, until the device refuses one; how many it took.
fn append_all<D: Disk>(disk: &mut D, count: usize) -> usize {
    for index in 0..count {
        if append(disk, index).is_err() {
            return index;
        }
    }
    count
}

fn told(fault: FileDiskFault) -> &'static str {
    match fault {
        FileDiskFault::Device(_) => "the device failed",
        FileDiskFault::NoMemory => "no memory",
    }
}

/// Appends records until the device refuses one, and writes how many it took and whether these still stand.
pub fn fill<R: Files + Print + AllocGlobal>(rt: &R, path: &str) -> io::Result<()> {
    match FileDisk::open(rt, rt.alloc(), path) {
        Ok(mut disk) => {
            let taken = append_all(&mut disk, MOST);
            let all = all_stand(&mut disk, taken);
            println!(rt; "{taken} records of {MOST}; all stand: {all}")
        }
        Err(fault) => rt.println(told(fault)),
    }
}

/// Writes whether so many records stand.
pub fn check<R: Files + Print + AllocGlobal>(rt: &R, path: &str, count: usize) -> io::Result<()> {
    match FileDisk::open(rt, rt.alloc(), path) {
        Ok(mut disk) => {
            let all = all_stand(&mut disk, count);
            println!(rt; "{count} records stand: {all}")
        }
        Err(fault) => rt.println(told(fault)),
    }
}

/// Appends so many records, and writes how many were taken and the time of it, in microseconds.
pub fn time<R: Files + Print + Clock + AllocGlobal>(
    rt: &R,
    path: &str,
    count: usize,
) -> io::Result<()> {
    match FileDisk::open(rt, rt.alloc(), path) {
        Ok(mut disk) => {
            let start = Instant::now(rt)?;
            let taken = append_all(&mut disk, count);
            let took = start.elapsed(rt)?.as_micros();
            println!(rt; "{taken} records in {took} microseconds")
        }
        Err(fault) => rt.println(told(fault)),
    }
}
