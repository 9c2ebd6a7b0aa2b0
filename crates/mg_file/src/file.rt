//! A disk in a file. It is the trusted edge: no clause speaks of its content.
ghost use Rattle.std.specs.Prelude.{◌≡◌, ◌<◌, ◌≤◌, ◌^◌, false, None, IfOk, OnErr, OnOk, length};
ghost use Rattle.std.proofs.Common.{rules};
ghost use Rattle.mg_faults.specs.Faults.{CountGoesOn, Rose, is_last};
ghost use Rattle.mg_disk.specs.Disk.{At};
ghost use Rattle.mg_file.specs.Blocks.{file_blocks};

use crate::watching::{FileFault, Unwatched, Watch};
use mg_disk::{BLOCK_SIZE, Block, Disk, Failed};
use mg_faults::FaultCount;
use std::fs::{File, Metadata, OpenFile, OpenOptions};
use std::io::{self, ErrorKind};
use std::os::unix::fs::{FileExt, OpenOptionsExt, PermissionsExt};
use std::rt::{Clock, Files};
use std::time::Duration;
use std::{slice, thread};

/// How many blocks a [`FileDisk`] has.
const FILE_BLOCKS: u64 = 70_000;

/// A file that a run can hold. No other run then changes it.
pub trait OneHolder {
    /// Locks the file for this run alone, until it is closed. An error comes if another run has it (`WouldBlock`), and if
    /// the system keeps no locks on it. Neither waits.
    fn hold(&self) -> io::Result<()>;

    /// Locks the file for this run and others that only read it. An error comes if another run has it for itself alone
    /// (`WouldBlock`), and if the system keeps no locks on it. Neither waits.
    fn share(&self) -> io::Result<()>;
}

impl OneHolder for File {
    /// The lock is the advisory one on the whole file, `flock` of the system, exclusive: it keeps out those that take such a
    /// lock.
    fn hold(&self) -> io::Result<()> {
        Ok(self.try_lock()?)
    }

    /// The same lock, shared.
    fn share(&self) -> io::Result<()> {
        Ok(self.try_lock_shared()?)
    }
}

/// How many times a run tries again to get a lock that another run has, and how many milliseconds it waits before each time:
/// 0.3 s in all.
const RETRIES: u32 = 30;

const PAUSE: u64 = 10;

/// Which bits of a file's mode show its kind, and those of a pipe with a name.
const KIND_BITS: u32 = 0o170000;

const PIPE: u32 = 0o010000;

/// The permissions of a file that is made, if no others are set: its owner reads and writes it, and nobody else.
const PRIVATE: u32 = 0o600;

/// What the file of a [`FileDisk`] was when it was opened.
#[derive(Clone, Copy)]
pub struct Found {
    /// Whether there was no file, so that an empty one was made.
    pub is_new: bool,
    /// How many bytes it had, if it is a regular file. A device has no length of its own.
    pub bytes: Option<u64>,
}

/// A disk of 70,000 blocks in a file, opened at the first read, write or sync. Past the end of the file it reads zeros.
///
/// A file that may be written is made empty if there is none, and is held for this run alone ([`OneHolder`]). A file that is
/// only read is shared with others that read it, and reads as zeros if there is none. If another run holds the file, this
/// run tries again every 10 ms, since a file system on a network may free a file only a moment after the run that held it
/// has ended. After 0.3 s the file counts as one that can't be opened. A pipe can't be opened either.
///
/// A call fails if the file can't be opened, if the system answers an error, and if the system takes less than the whole of
/// what is written, a block or a run of them. The next call tries again. A sync is `sync_data` of the file. After an Ok the
/// file's bytes are on the medium, and also all that reading them back takes, such as the file's size. The time of its last
/// change need not be there.
///
/// A sync that fails is where a real file may not keep the contract. There a failed sync leaves pending what was pending. Linux may drop a
/// block that it could not write: reads give the new bytes while they are in its cache, the next sync answers Ok, and the medium has the
/// old ones. So after a failed call whoever runs the program has the system forget what it keeps of the file, by `fsync` and
/// `posix_fadvise(POSIX_FADV_DONTNEED)`, before the file is opened again.
#[derive(Drop)]
pub struct FileDisk<'a, R: Files + Clock, W: Watch = Unwatched>
where
    R::File: FileExt + OneHolder,
{
    rt: &'a R,
    path: &'a str,
    // Whether the file may be written, and is made if there is none.
    writes: bool,
    // The permissions of a file that is made, and the blocks that a file that may be written has at least.
    mode: u32,
    least: u64,
    file: Option<R::File>,
    found: Option<Found>,
    count: FaultCount,
    fault: Option<FileFault>,
    end: Option<u64>,
    watch: W,
}

impl<'a, R: Files + Clock> FileDisk<'a, R>
where
    R::File: FileExt + OneHolder,
{
    /// The disk in the file at `path`. The file is not touched yet, and no memory is taken.
    pub fn new(rt: &'a R, path: &'a str) -> FileDisk<'a, R>
        ensures { ⟦<FileDisk<'a, R> as Disk>⟧.faults result ≡ 0 }
    {
        FileDisk::watched(rt, path, Unwatched)
    }

    /// The disk in the file at `path`, for reading alone: the file is opened for reading and not made if there is none, and
    /// every write fails. It is not touched yet, and no memory is taken.
    pub fn reader(rt: &'a R, path: &'a str) -> FileDisk<'a, R>
        ensures { ⟦<FileDisk<'a, R> as Disk>⟧.faults result ≡ 0 }
    {
        FileDisk::watched_reader(rt, path, Unwatched)
    }
}

impl<'a, R: Files + Clock, W: Watch> FileDisk<'a, R, W>
where
    R::File: FileExt + OneHolder,
{
    /// As [`FileDisk::new`]; `watch` gets a call for what its calls do.
    pub fn watched(rt: &'a R, path: &'a str, watch: W) -> FileDisk<'a, R, W>
        ensures { ⟦<FileDisk<'a, R, W> as Disk>⟧.faults result ≡ 0 }
    {
        FileDisk {
            rt,
            path,
            writes: true,
            mode: PRIVATE,
            least: 0,
            file: None,
            found: None,
            count: FaultCount::new(),
            fault: None,
            end: None,
            watch,
        }
    }

    /// As [`FileDisk::reader`]; `watch` gets a call for what its calls do.
    pub fn watched_reader(rt: &'a R, path: &'a str, watch: W) -> FileDisk<'a, R, W>
        ensures { ⟦<FileDisk<'a, R, W> as Disk>⟧.faults result ≡ 0 }
    {
        FileDisk {
            rt,
            path,
            writes: false,
            mode: PRIVATE,
            least: 0,
            file: None,
            found: None,
            count: FaultCount::new(),
            fault: None,
            end: None,
            watch,
        }
    }

    /// A file that is made gets these permissions, less those that the process takes from each file that it makes. Without
    /// this call its owner reads and writes it, and nobody else (0600). A file that is open does not change.
    pub fn set_mode(&mut self, mode: u32)
        ensures { self.new.count ≡ self.old.count }
    {
        self.mode = mode;
    }

    /// When the file is opened to be written and is shorter than `blocks` blocks, it is extended to that length. What is
    /// added takes no room on the medium and reads as zeros, as it did past the end of the file. A file that is open does
    /// not change.
    pub fn set_length(&mut self, blocks: u64)
        ensures { self.new.count ≡ self.old.count }
    {
        self.least = blocks;
    }

    /// What the file was when it was opened; None if it was not opened, or if it is only read and there is none.
    pub fn found(&self) -> Option<Found> {
        self.found
    }

    /// Why the first failed call failed; None if no call failed so far.
    pub fn fault(&self) -> Option<&FileFault> {
        self.fault.as_ref()
    }

    /// The lowest block that a read found past the end of the file, or cut by it; None if no read did so far.
    pub fn end(&self) -> Option<u64> {
        self.end
    }

    /// The file, opened and held if it is not yet. The caller gives it back. None if it is only read and there is none.
    fn take_file(&mut self) -> io::Result<Option<R::File>>
        ensures { self.new.count ≡ self.old.count }
    {
        if let Some(file) = self.file.take() {
            return Ok(Some(file));
        }
        let opened = if self.writes {
            Some(held(self.rt, self.path, self.mode, self.least)?)
        } else {
            shared(self.rt, self.path)?
        };
        match opened {
            Some((file, found)) => {
                if self.found.is_none() {
                    self.found = Some(found);
                }
                Ok(Some(file))
            }
            None => Ok(None),
        }
    }

    /// Notes that the file ends in this block, or before it.
    fn ends_at(&mut self, block: u64)
        ensures { self.new.count ≡ self.old.count }
    {
        self.end = match self.end {
            Some(end) if end <= block => Some(end),
            _ => Some(block),
        };
    }

    /// The end of a read of blocks with this outcome.
    fn read_ended(
        &mut self,
        outcome: io::Result<usize>,
        first: u64,
        count: usize,
    ) -> Result<(), Failed>
        ensures quiet { OnOk result (self.new.count ≡ self.old.count) }
        ensures goes_on { CountGoesOn self.old.count self.new.count (is_last self.old.count) (is_last self.new.count) }
        ensures rose { OnErr result (Rose self.old.count self.new.count (is_last self.new.count)) }
    {
        match outcome {
            Ok(whole) => {
                if whole < count {
                    self.ends_at(first.saturating_add(whole as u64));
                }
                Ok(())
            }
            Err(error) => {
                let fault = FileFault {
                    error,
                    block: Some(first),
                };
                self.watch.read_failed(&fault);
                self.failed(fault)
            }
        }
    }

    /// The end of a write or a sync with this outcome.
    fn write_ended(
        &mut self,
        outcome: io::Result<()>,
        block: Option<u64>,
        count: usize,
    ) -> Result<(), Failed>
        ensures quiet { OnOk result (self.new.count ≡ self.old.count) }
        ensures goes_on { CountGoesOn self.old.count self.new.count (is_last self.old.count) (is_last self.new.count) }
        ensures rose { OnErr result (Rose self.old.count self.new.count (is_last self.new.count)) }
    {
        match outcome {
            Ok(()) => {
                match block {
                    Some(first) => self.watch.wrote(first, count),
                    None => self.watch.synced(),
                }
                Ok(())
            }
            Err(error) => {
                let fault = FileFault { error, block };
                self.watch.write_failed(&fault);
                self.failed(fault)
            }
        }
    }

    /// Keeps the first fault, and raises the count.
    fn failed(&mut self, fault: FileFault) -> Result<(), Failed>
        ensures fails { OnOk result ⊥ }
        ensures goes_on { CountGoesOn self.old.count self.new.count (is_last self.old.count) (is_last self.new.count) }
        ensures rose { Rose self.old.count self.new.count (is_last self.new.count) }
    {
        if self.fault.is_none() {
            self.fault = Some(fault);
        }
        self.count.raise();
        Err(Failed)
    }
}

/// The file, opened to be read and written, and held for this run alone. If there is none it is made, with these
/// permissions. It then has at least `least` blocks.
fn held<R: Files + Clock>(rt: &R, path: &str, mode: u32, least: u64) -> io::Result<(R::File, Found)>
where
    R::File: OneHolder,
{
    let (file, is_new) = open_or_make(rt, path, mode)?;
    let bytes = length_of(&file.metadata()?)?;
    lock(rt, &file, true)?;
    let wanted = least.saturating_mul(BLOCK_SIZE as u64);
    match bytes {
        Some(bytes) if bytes < wanted => file.set_len(wanted)?,
        _ => {}
    }
    Ok((file, Found { is_new, bytes }))
}

/// The file, opened to be read and written, and whether it had to be made.
fn open_or_make<R: Files>(rt: &R, path: &str, mode: u32) -> io::Result<(R::File, bool)> {
    match open_there(rt, path) {
        Ok(file) => Ok((file, false)),
        Err(e) if e.kind() == ErrorKind::NotFound => Ok((make(rt, path, mode)?, true)),
        Err(e) => Err(e),
    }
}

/// Opens the file for reading and writing, if it is there.
fn open_there<R: Files>(rt: &R, path: &str) -> io::Result<R::File> {
    OpenOptions::new().read(true).write(true).open(rt, path)
}

/// Makes an empty file with these permissions, and opens it.
fn make<R: Files>(rt: &R, path: &str, mode: u32) -> io::Result<R::File> {
    OpenOptions::new()
        .read(true)
        .write(true)
        .create(true)
        .mode(mode)
        .open(rt, path)
}

/// The file, opened to be read and shared with others that read it; None if there is none.
fn shared<R: Files + Clock>(rt: &R, path: &str) -> io::Result<Option<(R::File, Found)>>
where
    R::File: OneHolder,
{
    // A pipe is refused before it is opened, since opening it waits for a writer.
    match rt.metadata(path) {
        Ok(metadata) => {
            let _ = length_of(&metadata)?;
        }
        Err(e) if e.kind() == ErrorKind::NotFound => return Ok(None),
        Err(e) => return Err(e),
    }
    let file = OpenOptions::new().read(true).open(rt, path)?;
    lock(rt, &file, false)?;
    let bytes = length_of(&file.metadata()?)?;
    let is_new = false;
    Ok(Some((file, Found { is_new, bytes })))
}

/// Holds the file for this run alone, or shares it with others that read it. If another run has the lock, it is tried again
/// every 10 ms, for 0.3 s in all. If that run has it still, the error is `WouldBlock`.
fn lock<C: Clock, F: OneHolder>(clock: &C, file: &F, is_alone: bool) -> io::Result<()> {
    for _ in 0..RETRIES {
        match ask(file, is_alone) {
            Err(e) if e.kind() == ErrorKind::WouldBlock => thread::sleep(
                clock,
                Duration::from_millis(PAUSE),
            ),
            answer => return answer,
        }
    }
    ask(file, is_alone)
}

/// Tries to get the lock once.
fn ask<F: OneHolder>(file: &F, is_alone: bool) -> io::Result<()> {
    if is_alone { file.hold() } else { file.share() }
}

/// How many bytes a regular file has; None for a device. An error comes for a pipe, which has no places to read and write at.
fn length_of(metadata: &Metadata) -> io::Result<Option<u64>> {
    if metadata.is_file() {
        return Ok(Some(metadata.len()));
    }
    if metadata.permissions().mode() & KIND_BITS == PIPE {
        return Err(ErrorKind::NotSeekable.into());
    }
    Ok(None)
}

/// Reads the bytes at an offset. If the file ends within them, the rest is zeros. Returns how many bytes the file had.
fn read_whole<F: FileExt>(file: &F, offset: u64, out: &mut [u8]) -> io::Result<usize>
    requires { offset < 2 ^ 60 }
{
    let mut filled = 0;
    while filled < out.len() {
        let count = file.read_at(&mut out[filled..], offset + filled as u64)?;
        if count == 0 {
            break;
        }
        filled += count;
    }
    out[filled..].fill(0);
    Ok(filled)
}

/// Writes all these bytes at an offset, in one call of the system.
fn write_whole<F: FileExt>(file: &F, offset: u64, from: &[u8]) -> io::Result<()> {
    if file.write_at(from, offset)? == from.len() {
        Ok(())
    } else {
        Err(ErrorKind::WriteZero.into())
    }
}

impl<'a, R: Files + Clock, W: Watch> Disk for FileDisk<'a, R, W>
where
    R::File: FileExt + OneHolder,
{
    ghost block_count = { λ _. file_blocks };

    ghost seen = { λ _. None };

    ghost tells_stops = { λ _. false };

    ghost time = { λ _. record { moment = At 0; has_been = λ _. Unit {0}; left_since = λ _ _. ⊥ } };

    ghost faults = { λ d. d.count };

    ghost is_spent = { λ d. is_last d.count };

    ghost now_has_been = { λ _. tt };

    ghost counts_now = { λ _ _ _ _ left. left };

    ghost seen_may_stay = { λ _ told. Prim.search rules };

    ghost only_told = { λ _ _ _ left. absurd left };

    ghost seen_count = { λ _ image is. Prim.search rules };

    ghost seen_bytes = { λ _ image is. Prim.search rules };

    fn blocks(&self) -> u64 {
        FILE_BLOCKS
    }

    fn read(&mut self, i: u64, out: &mut Block) -> Result<(), Failed> {
        self.read_blocks(i, slice::from_mut(out))
    }

    fn write(&mut self, i: u64, from: &Block) -> Result<(), Failed> {
        self.write_blocks(i, slice::from_ref(from))
    }

    /// One call of the system for all of them, if it reads as much as it should.
    fn read_blocks(&mut self, first: u64, out: &mut [Block]) -> Result<(), Failed> {
        let outcome = match self.take_file() {
            Ok(Some(file)) => {
                let offset = first * BLOCK_SIZE as u64;
                let outcome = read_whole(&file, offset, out.as_flattened_mut());
                self.file = Some(file);
                outcome
            }
            Ok(None) => {
                out.as_flattened_mut().fill(0);
                Ok(0)
            }
            Err(e) => Err(e),
        };
        let whole = outcome.map(|bytes| bytes / BLOCK_SIZE);
        self.read_ended(whole, first, out.len())
    }

    /// One call of the system for all of them.
    fn write_blocks(&mut self, first: u64, from: &[Block]) -> Result<(), Failed> {
        let outcome = match self.take_file() {
            Ok(Some(file)) => {
                let offset = first * BLOCK_SIZE as u64;
                let outcome = write_whole(&file, offset, from.as_flattened());
                self.file = Some(file);
                outcome
            }
            Ok(None) => Err(ErrorKind::NotFound.into()),
            Err(e) => Err(e),
        };
        self.write_ended(outcome, Some(first), from.len())
    }

    fn sync(&mut self) -> Result<(), Failed> {
        let outcome = match self.take_file() {
            Ok(Some(file)) => {
                let outcome = file.sync_data();
                self.file = Some(file);
                outcome
            }
            Ok(None) => Err(ErrorKind::NotFound.into()),
            Err(e) => Err(e),
        };
        self.write_ended(outcome, None, 0)
    }
}
