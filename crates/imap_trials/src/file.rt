//! Files in memory.

use crate::owned::both;
use imap_keeper::KeepError;
use sqlite_disk::{Crash, Disk, Files, Fuse, Memory};
use std::alloc::{AllocError, Global};
use std::io;

/// A file in memory, of which all calls fail after a number of them.
pub(crate) trait TestFile: Crash + Drop {
    /// A file with these octets.
    fn make(alloc: Global, octets: &[u8], calls: u64) -> Result<Self, KeepError>;

    fn octets(&self) -> &[u8];

    /// Whether a call of it may have failed. All calls fail from then on.
    fn is_stopped(&mut self) -> bool;
}

impl TestFile for Fuse<Memory> {
    fn make(alloc: Global, octets: &[u8], calls: u64) -> Result<Fuse<Memory>, KeepError> {
        let mut memory = Memory::new(alloc);
        match write(&mut memory, octets) {
            Ok(()) => Ok(Fuse::new(memory, calls)),
            Err(_) => Err(KeepError::Memory),
        }
    }

    fn octets(&self) -> &[u8] {
        self.inner().bytes()
    }

    fn is_stopped(&mut self) -> bool {
        !self.may_be_used() || self.len().is_err()
    }
}

/// Writes to an empty file.
fn write<D: Disk>(disk: &mut D, octets: &[u8]) -> io::Result<()> {
    if !disk.may_be_used() {
        return Err(io::ErrorKind::Other.into());
    }
    disk.write_at(0, octets)?;
    disk.sync()
}

/// The number of calls after which each file fails.
#[derive(Clone, Copy)]
pub(crate) struct Calls {
    pub(crate) log: u64,
    pub(crate) database: u64,
}

/// Neither fails.
pub(crate) const ENDLESS: Calls = Calls {
    log: u64::MAX,
    database: u64::MAX,
};

/// The octets of a database and its log.
#[derive(Drop)]
pub(crate) struct Image {
    log: Vec<u8>,
    database: Vec<u8>,
}

impl Image {
    pub(crate) fn empty(alloc: Global) -> Image {
        Image {
            log: Vec::new(alloc),
            database: Vec::new(alloc),
        }
    }

    /// A database whose file has these octets, and whose log is empty.
    pub(crate) fn of_database(alloc: Global, octets: &[u8]) -> Result<Image, AllocError> {
        Ok(Image {
            log: Vec::new(alloc),
            database: Vec::from_slice(alloc, octets)?,
        })
    }

    /// Whether the file of the database has the same octets.
    pub(crate) fn has_same_database(&self, other: &Image) -> bool {
        self.database.as_slice() == other.database.as_slice()
    }

    /// What the files have now.
    fn read<F: TestFile>(alloc: Global, files: &Files<F>) -> Result<Image, AllocError> {
        Ok(Image {
            log: Vec::from_slice(alloc, files.log.octets())?,
            database: Vec::from_slice(alloc, files.db.octets())?,
        })
    }

    /// Reads the files, and drops them.
    pub(crate) fn of<F: TestFile>(alloc: Global, files: Files<F>) -> Result<Image, KeepError> {
        let image = Image::read(alloc, &files);
        drop(files);
        Ok(image?)
    }
}

/// The files of a database after it was closed.
#[derive(Drop)]
pub(crate) struct Left {
    /// Whether a call of theirs may have failed.
    pub(crate) is_stopped: bool,
    /// What they have.
    pub(crate) written: Image,
    /// What they have after a crash.
    pub(crate) crashed: Image,
}

impl Left {
    /// Reads the files, then those that a crash leaves, and drops them.
    pub(crate) fn of<F: TestFile>(alloc: Global, mut files: Files<F>) -> Result<Left, KeepError> {
        let is_stopped = files.log.is_stopped() || files.db.is_stopped();
        let written = Image::read(alloc, &files);
        files.log.crash();
        files.db.crash();
        let crashed = Image::read(alloc, &files);
        drop(files);
        let (written, crashed) = both(written, crashed)?;
        Ok(Left {
            is_stopped,
            written,
            crashed,
        })
    }
}

/// Files that have these octets.
pub(crate) fn files_of<F: TestFile>(
    alloc: Global,
    image: &Image,
    calls: Calls,
) -> Result<Files<F>, KeepError> {
    let log = F::make(alloc, image.log.as_slice(), calls.log)?;
    match F::make(alloc, image.database.as_slice(), calls.database) {
        Ok(db) => Ok(Files { log, db }),
        Err(error) => Err(error),
    }
}
