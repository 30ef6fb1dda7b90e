//! The calls of the system that open, lock, read, write, cut and sync a file. A `SystemFile` makes each, and notes it with its answer.
ghost use Rattle.std.specs.Prelude.{◌≡◌, true, false, [], ◌∷◌, is_ok, IfOk, IfSome};
ghost use Rattle.sled_host.specs.Event.{opened, wrote, cut, synced};
ghost use Rattle.sled_host.specs.theory.Locks.{answer_of};
ghost use Rattle.sled_host.specs.Noted.{event_of};

use crate::record::{Call, Record};
use std::alloc::Global;
use std::fs::{self, File, OpenOptions, TryLockError};
use std::io::{self, ErrorKind, Read};
use std::os::fd::AsRawFd;
use std::os::unix::fs::{FileExt, MetadataExt};

/// What the system answered when a file was to be locked, if it was asked.
#[derive(Clone, Copy)]
pub enum Lock {
    Unasked,
    /// The file is locked as long as it is open.
    Held,
    /// Another opening of the file has it locked.
    Elsewhere,
    /// It cannot lock the file.
    Unavailable,
}

/// A file that the operating system opened or made, before anything is read or changed.
#[derive(Drop)]
pub struct OpenFile {
    file: File,
    is_new: bool,
    lock: Lock,
}

impl OpenFile {
    /// Makes a file, unless something is at the path.
    pub fn make(rt: &HostRuntime, path: &str) -> io::Result<Option<OpenFile>>
        ensures { IfOk result (λ made. IfSome made (λ it. it.is_new ≡ true)) }
    {
        match File::create_new(rt, path) {
            Ok(file) => Ok(Some(OpenFile {
                file: off_streams(file)?,
                is_new: true,
                lock: Lock::Unasked,
            })),
            Err(error) if error.kind() == ErrorKind::AlreadyExists => Ok(None),
            Err(error) => Err(error),
        }
    }

    /// Opens the file at the path, and leaves it as it is.
    pub fn open(rt: &HostRuntime, path: &str) -> io::Result<OpenFile>
        ensures { IfOk result (λ it. it.is_new ≡ false) }
    {
        let file = OpenOptions::new().read(true).write(true).open(rt, path)?;
        Ok(OpenFile {
            file: off_streams(file)?,
            is_new: false,
            lock: Lock::Unasked,
        })
    }

    pub fn lock(&mut self) -> std::result::Result<(), TryLockError>
        ensures noted { self.new.lock ≡ answer_of result }
        ensures same { self.new.is_new ≡ self.old.is_new }
    {
        let answer = self.file.try_lock();
        self.lock = match answer {
            Ok(()) => Lock::Held,
            Err(TryLockError::WouldBlock) => Lock::Elsewhere,
            Err(TryLockError::Error(_)) => Lock::Unavailable,
        };
        answer
    }

    /// Whether the path still names it.
    pub fn is_named(&self, rt: &HostRuntime, path: &str) -> io::Result<bool> {
        let opened = self.file.metadata()?;
        let named = fs::symlink_metadata(rt, path)?;
        Ok(named.is_file() && opened.dev() == named.dev() && opened.ino() == named.ino())
    }
}

/// An open file of the operating system, with its calls so far.
#[derive(Drop)]
pub struct SystemFile {
    file: File,
    pub lock: Lock,
    pub record: Record,
}

impl SystemFile {
    /// Syncs an open file, and reads all that it has.
    pub fn settle(alloc: Global, found: OpenFile) -> io::Result<(SystemFile, Vec<u8>)>
        ensures opened { IfOk result (λ it. it.0.record.events ≡ opened found.is_new it.1.items ∷ []) }
        ensures lock { IfOk result (λ it. it.0.lock ≡ found.lock) }
    {
        let OpenFile { file, is_new, lock } = found;
        file.sync_all()?;
        let bytes = whole(alloc, &file)?;
        let record = Record::new().and(&Call::Opened(is_new, &bytes));
        let system = SystemFile { file, lock, record };
        Ok((system, bytes))
    }

    /// Writes all of the bytes at a place.
    pub fn write(&mut self, at: usize, bytes: &[u8]) -> io::Result<()>
        ensures { self.new.record.events ≡ wrote at bytes.now (is_ok result) ∷ self.old.record.events }
    {
        let answer = self.file.write_all_at(bytes, at as u64);
        self.note(&Call::Wrote(at, bytes, answer.is_ok()));
        answer
    }

    pub fn cut(&mut self, len: usize) -> io::Result<()>
        ensures { self.new.record.events ≡ cut len (is_ok result) ∷ self.old.record.events }
    {
        let answer = self.file.set_len(len as u64);
        self.note(&Call::Cut(len, answer.is_ok()));
        answer
    }

    pub fn sync(&mut self) -> io::Result<()>
        ensures { self.new.record.events ≡ synced (is_ok result) ∷ self.old.record.events }
    {
        let answer = self.file.sync_all();
        self.note(&Call::Synced(answer.is_ok()));
        answer
    }

    fn note(&mut self, call: &Call<'_>)
        ensures { self.new.record.events ≡ event_of call.now ∷ self.old.record.events }
    {
        self.record = self.record.and(call);
    }
}

// What is meant for a standard stream that was closed must not land in a store.
fn off_streams(file: File) -> io::Result<File> {
    if file.as_raw_fd() <= 2 {
        file.try_clone()
    } else {
        Ok(file)
    }
}

fn whole(alloc: Global, mut file: &File) -> io::Result<Vec<u8>> {
    let mut bytes = Vec::new(alloc);
    file.read_to_end(&mut bytes)?;
    Ok(bytes)
}
