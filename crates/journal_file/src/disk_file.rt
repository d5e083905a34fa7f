//! A file of the system.

ghost use Rattle.std.specs.Prelude.{◌≡◌, None};

use crate::journal_file::JournalFile;
use crate::on_disk::OnDisk;
use crate::open_fault::OpenFault;
use framing::{Failed, FromRead, FromWrite, Sink};
use std::fs::{File, Files, OpenOptions, TryLockError};

/// A file of the system, open at its end. The lock on it ends with the process.
#[derive(Drop)]
pub struct DiskFile {
    file: File,
}

impl DiskFile {
    /// Opens the file, which is made where it isn't there, and locks it. Nothing is read or written.
    pub fn open<R: Files<File = File>>(rt: &R, path: &str) -> Result<DiskFile, OpenFault> {
        let opened = OpenOptions::new()
            .read(true)
            .append(true)
            .create(true)
            .open(rt, path);
        let Ok(file) = opened else {
            return Err(OpenFault::Refused);
        };
        match file.try_lock() {
            Ok(()) => Ok(DiskFile { file }),
            Err(TryLockError::WouldBlock) => Err(OpenFault::InUse),
            Err(TryLockError::Error(_)) => Err(OpenFault::Refused),
        }
    }

    /// What stands in the file, from where it was last read on.
    pub fn source(&self) -> FromRead<&File> {
        FromRead::new(&self.file)
    }

    /// Cuts off all octets behind the first `length`, for good.
    pub fn cut(&self, length: u64) -> Result<OnDisk, Failed> {
        match self.file.set_len(length) {
            Ok(()) => OnDisk::of(&self.file),
            Err(_) => Err(Failed),
        }
    }
}

impl JournalFile for DiskFile {
    ghost use Rattle.std.specs.Prelude.{None};

    ghost state = { λ _. None };

    fn append(&mut self, octets: &[u8]) -> Result<usize, Failed> {
        FromWrite::new(&self.file).write(octets)
    }

    fn sync(&mut self) -> Result<(), Failed> {
        match OnDisk::of(&self.file) {
            Ok(_) => Ok(()),
            Err(fault) => Err(fault),
        }
    }
}
