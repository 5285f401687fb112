//! Rows over real files, in the folder where the program stands.

use std::alloc::Global;
use std::rt::Files;
use std::{fs, io};
use tests_disk::{Dice, Plain, call_agrees, reads_as};
use tks_disk::{Disk, FileDisk, FileDiskFault, Left, Side};

const PATH: &str = "disk";

/// How an opening ended.
fn told<F: Drop>(opened: Result<FileDisk<F>, FileDiskFault>) -> &'static str {
    match opened {
        Ok(_) => "opened",
        Err(FileDiskFault::Device(_)) => "the device failed",
        Err(FileDiskFault::NoMemory) => "no memory",
    }
}

/// Random calls on the files and on the plain program.
fn calls_agree<D: Disk>(alloc: Global, disk: &mut D, plain: &mut Plain) -> bool {
    let mut dice = Dice::new(7);
    (0..2000).all(|_| call_agrees(alloc, disk, plain, &mut dice) == Some(true))
}

/// Whether the file holds what the side is to read as.
fn file_holds<R: Files + AllocGlobal>(rt: &R, plain: &Plain, path: &str, side: Side) -> bool {
    match (fs::read(rt, path), plain.left(rt.alloc(), side, Left::New)) {
        (Ok(held), Ok(want)) => held.as_slice() == want.as_slice(),
        _ => false,
    }
}

fn sides_read_as<D: Disk>(alloc: Global, disk: &mut D, plain: &Plain) -> Option<bool> {
    let a = plain.left(alloc, Side::A, Left::New).ok()?;
    let b = plain.left(alloc, Side::B, Left::New).ok()?;
    Some(reads_as(disk, Side::A, &a)? && reads_as(disk, Side::B, &b)?)
}

/// Calls at places where nothing is, or can be.
fn far_places<D: Disk>(disk: &mut D) -> Option<bool> {
    let refused = disk.write_at(Side::B, usize::MAX, b"x").is_err()
        && disk.read_at(Side::B, usize::MAX, &mut [0; 4]).is_err();
    let behind = disk.read_at(Side::B, 1000, &mut [0; 4]).ok()? == 0;
    disk.write_at(Side::B, 90, b"").ok()?;
    Some(refused && behind && disk.len(Side::B).ok()? == 90)
}

/// Takes away what an earlier run has left.
fn clean<R: Files>(rt: &R) {
    let _ = fs::remove_file(rt, "disk.a");
    let _ = fs::remove_file(rt, "disk.b");
    let _ = fs::remove_dir(rt, "folder.b");
    let _ = fs::remove_file(rt, "folder.a");
}

/// Runs the rows, and writes a line for each.
pub fn run<R: Files + Print + AllocGlobal>(rt: &R) -> io::Result<()> {
    clean(rt);
    let alloc = rt.alloc();
    let Ok(mut disk) = FileDisk::open(rt, alloc, PATH) else {
        return println!(rt; "files that were missing: not opened");
    };
    let mut plain = Plain::new(alloc);
    println!(rt;
        "files that were missing: opened, empty: {:?}",
        sides_read_as(alloc, &mut disk, &plain)
    )?;
    println!(rt;
        "2000 calls agree: {}",
        calls_agree(alloc, &mut disk, &mut plain)
    )?;
    println!(rt;
        "the files hold it: {}",
        file_holds(rt, &plain, "disk.a", Side::A) && file_holds(rt, &plain, "disk.b", Side::B)
    )?;
    drop(disk);
    reopened(rt, alloc, &plain)?;
    fs::create_dir(rt, "folder.b")?;
    println!(rt;
        "a side that is a folder: {}",
        told(FileDisk::open(rt, alloc, "folder"))
    )?;
    println!(rt;
        "a folder that is missing: {}",
        told(FileDisk::open(rt, alloc, "no/such"))
    )?;
    println!(rt;
        "a path with a byte 0: {}",
        told(FileDisk::open(rt, alloc, "a\0b"))
    )?;
    clean(rt);
    Ok(())
}

fn reopened<R: Files + Print + AllocGlobal>(
    rt: &R,
    alloc: Global,
    plain: &Plain,
) -> io::Result<()> {
    let Ok(mut disk) = FileDisk::open(rt, alloc, PATH) else {
        return println!(rt; "files that are there: not opened");
    };
    println!(rt;
        "files that are there: opened, as before: {:?}",
        sides_read_as(alloc, &mut disk, plain)
    )?;
    println!(rt; "places past the end: {:?}", far_places(&mut disk))
}
