//! A disk of two real files.
ghost use Rattle.std.specs.Prelude.{◌≡◌, length, IfOk, IsErr, MatchResult, Ok};
ghost use Rattle.tks_disk.specs.DiskModel.{Counts};

use crate::trail::Trail;
use crate::{DeviceFault, Disk, Side, file};
use std::alloc::{AllocError, Global};
use std::fs::{Files, OpenFile, OpenOptions};
use std::io::{ErrorKind, Read, Seek, Write};
use std::marker::Model;
use std::path::Path;
use std::{fs, io};
use thiserror::Error;

/// Why the files of a disk weren't opened.
#[derive(Clone, Copy, Debug, Error)]
pub enum FileDiskFault {
    /// The system refused a call, with this error.
    #[error("the device failed: {0}")]
    Device(io::Error),
    /// An allocation was refused.
    #[error("out of memory")]
    NoMemory,
}

impl From<AllocError> for FileDiskFault {
    ghost use Rattle.std.specs.Prelude.{◌≡◌};
    ghost use Rattle.tks_disk.specs.declared.file_disk.FileDiskFault.TheVariants.{NoMemory};

    ghost from_gives = { λ _ e. e ≡ NoMemory };

    fn from(_e: AllocError) -> FileDiskFault {
        FileDiskFault::NoMemory
    }
}

impl From<io::Error> for FileDiskFault {
    ghost use Rattle.std.specs.Prelude.{◌≡◌};
    ghost use Rattle.tks_disk.specs.declared.file_disk.FileDiskFault.TheVariants.{Device};

    ghost from_gives = { λ error e. e ≡ Device error };

    fn from(error: io::Error) -> FileDiskFault {
        FileDiskFault::Device(error)
    }
}

/// A disk of two files, `PATH.a` and `PATH.b`. Contracts see of it how many calls have failed.
///
/// Each call that the system refuses is a `DeviceFault`. A sync is done when the system has told that the file's bytes and
/// length have reached the device. What the files hold, no contract says: that they keep to the laws of a disk is supposed
/// by whoever relies on them, so the disk isn't shown to be honest.
pub struct FileDisk<F> {
    a: F,
    b: F,
    /// One for each call that failed. Only clauses read it.
    failed: Trail<()>,
    /// With what the system refused the last of them.
    refusal: Option<io::Error>,
}

// Written out, so that to let go of it is one step for whoever owns it.
impl<F: Drop> Drop for FileDisk<F> {
    fn drop(self) {
        let FileDisk {
            a: _,
            b: _,
            failed: _,
            refusal: _,
        } = self;
    }
}

impl<F> Model for FileDisk<F> {
    ghost use Rattle.std.specs.Prelude.{ℕ, length};

    ghost Value = { ℕ };

    ghost view = { λ d. length d.failed };
}

/// The path of a side's file.
fn side_path(alloc: Global, path: &str, ending: &str) -> Result<String, AllocError> {
    let mut name = String::new(alloc);
    name.push_str(path)?;
    name.push_str(ending)?;
    Ok(name)
}

/// Opens the file for reading and writing, and makes it where it is missing.
fn open_side<R: Files>(rt: &R, path: &str) -> io::Result<R::File> {
    let mut options = OpenOptions::new();
    options.read(true).write(true);
    match options.open(rt, path) {
        Err(e) if e.kind() == ErrorKind::NotFound => {
            options.create(true);
            options.open(rt, path)
        }
        answer => answer,
    }
}

/// Makes sure of the entries of the folder that the file lies in.
fn sync_folder_of<R: Files>(rt: &R, path: &str) -> io::Result<()> {
    let folder = match Path::new(path).parent() {
        Some(folder) if !folder.as_os_str().is_empty() => folder,
        _ => Path::new("."),
    };
    let folder = fs::open(rt, folder)?;
    folder.sync_all()
}

/// The answer, counted and kept where the system refused.
fn counted<T>(
    answer: io::Result<T>,
    failed: &mut Trail<()>,
    refusal: &mut Option<io::Error>,
) -> Result<T, DeviceFault>
    ensures same { MatchResult answer (λ value. result ≡ Ok value) (λ _. IsErr result) }
    ensures counts { Counts result (length failed.old) (length failed.new) }
{
    match answer {
        Ok(value) => Ok(value),
        Err(error) => {
            *failed = failed.and(&());
            *refusal = Some(error);
            Err(DeviceFault)
        }
    }
}

impl<F: Read + Write + Seek + OpenFile + Drop> FileDisk<F> {
    /// Opens the files `PATH.a` and `PATH.b`, and makes those that are missing. What they hold stays.
    ///
    /// Where a file is empty, the folder is synced too: the file may have been made just now, or by a run that was stopped
    /// before it could make sure of that. A refusal of the system is `Device`, with its error; the path's two names take memory.
    pub fn open<R: Files<File = F>>(
        rt: &R,
        alloc: Global,
        path: &str,
    ) -> Result<FileDisk<F>, FileDiskFault>
        ensures { IfOk result (λ disk. disk ≡ 0) }
    {
        let path_of_a = side_path(alloc, path, ".a")?;
        let path_of_b = side_path(alloc, path, ".b")?;
        let a = open_side(rt, path_of_a.as_str())?;
        let b = open_side(rt, path_of_b.as_str())?;
        if file::length(&a)? == 0 || file::length(&b)? == 0 {
            sync_folder_of(rt, path_of_a.as_str())?;
        }
        Ok(FileDisk {
            a,
            b,
            failed: Trail::new(),
            refusal: None,
        })
    }
}

impl<F> FileDisk<F> {
    /// With what the system refused the last call that failed, if one did.
    pub fn refusal(&self) -> Option<io::Error> {
        self.refusal
    }
}

impl<F: Read + Write + Seek + OpenFile> Disk for FileDisk<F> {
    ghost use Rattle.tks_disk.specs.FileDisk.{untold, ShownHonest};

    ghost honest = { λ _. ShownHonest };

    ghost view = { λ _. untold };

    ghost failures = { λ d. d };

    fn len(&mut self, side: Side) -> Result<usize, DeviceFault> {
        let answer = match side {
            Side::A => file::length(&self.a),
            Side::B => file::length(&self.b),
        };
        counted(answer, &mut self.failed, &mut self.refusal)
    }

    fn read_at(&mut self, side: Side, at: usize, buf: &mut [u8]) -> Result<usize, DeviceFault> {
        let answer = match side {
            Side::A => file::read_at(&mut self.a, at, buf),
            Side::B => file::read_at(&mut self.b, at, buf),
        };
        counted(answer, &mut self.failed, &mut self.refusal)
    }

    fn write_at(&mut self, side: Side, at: usize, bytes: &[u8]) -> Result<(), DeviceFault> {
        let answer = match side {
            Side::A => file::write_at(&mut self.a, at, bytes),
            Side::B => file::write_at(&mut self.b, at, bytes),
        };
        counted(answer, &mut self.failed, &mut self.refusal)
    }

    fn sync(&mut self, side: Side) -> Result<(), DeviceFault> {
        let answer = match side {
            Side::A => self.a.sync_data(),
            Side::B => self.b.sync_data(),
        };
        counted(answer, &mut self.failed, &mut self.refusal)
    }

    ghost reads_may_stay = { λ d h. absurd h };

    ghost counts_now = { λ d t i h le now. absurd h };

    ghost only_now = { λ d i h left. absurd h };

    ghost since_earlier = { λ d t u i h le left. absurd h };
}
