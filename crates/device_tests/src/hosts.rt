//! A host whose calls are counted, and of which one fails.
use std::alloc::Allocator;
use std::cell::Cell;
use std::fs::{File, Metadata, OpenFile, OpenOptions};
use std::io;
use std::io::{Read, Seek, SeekFrom, Write};
use std::rt::Files;

/// Of the calls on the host's files, counted from 1, one fails; and how many syncs came to an end.
#[derive(Drop)]
pub(crate) struct Calls {
    made: Cell<u64>,
    failing: Cell<u64>,
    syncs: Cell<u64>,
}

impl Calls {
    pub(crate) fn none() -> Calls {
        Calls {
            made: Cell::new(0),
            failing: Cell::new(0),
            syncs: Cell::new(0),
        }
    }

    /// From now on the call of that number fails, counted from 1, and no other.
    pub(crate) fn fail_at(&self, call: u64) {
        self.made.set(0);
        self.failing.set(call);
    }

    /// How many syncs of the host came to an end.
    pub(crate) fn syncs(&self) -> u64 {
        self.syncs.get()
    }

    fn call(&self) -> io::Result<()> {
        self.made.set(self.made.get().saturating_add(1));
        if self.made.get() == self.failing.get() {
            return Err(io::ErrorKind::BrokenPipe.into());
        }
        Ok(())
    }
}

/// The host's files, whose calls are counted.
#[derive(Drop)]
pub(crate) struct CountedHost<'a> {
    pub(crate) rt: &'a HostRuntime,
    pub(crate) calls: &'a Calls,
}

/// A file of the host, whose calls are counted.
#[derive(Drop)]
pub(crate) struct CountedFile<'a> {
    file: File,
    calls: &'a Calls,
}

impl Read for CountedFile<'_> {
    fn read(&mut self, into: &mut [u8]) -> io::Result<usize> {
        self.calls.call()?;
        self.file.read(into)
    }
}

impl Write for CountedFile<'_> {
    fn write(&mut self, bytes: &[u8]) -> io::Result<usize> {
        self.calls.call()?;
        self.file.write(bytes)
    }

    fn flush(&mut self) -> io::Result<()> {
        self.file.flush()
    }
}

impl Seek for CountedFile<'_> {
    fn seek(&mut self, to: SeekFrom) -> io::Result<u64> {
        self.calls.call()?;
        self.file.seek(to)
    }
}

impl OpenFile for CountedFile<'_> {
    fn metadata(&self) -> io::Result<Metadata> {
        self.calls.call()?;
        self.file.metadata()
    }

    fn set_len(&self, size: u64) -> io::Result<()> {
        self.file.set_len(size)
    }

    fn sync_all(&self) -> io::Result<()> {
        self.calls.call()?;
        self.file.sync_all()?;
        self.calls.syncs.set(self.calls.syncs().saturating_add(1));
        Ok(())
    }

    fn sync_data(&self) -> io::Result<()> {
        self.file.sync_data()
    }
}

impl<'a> Files for CountedHost<'a> {
    type File = CountedFile<'a>;

    type Dir = io::Empty;

    fn open_file(&self, how: &OpenOptions, path: &str) -> io::Result<CountedFile<'a>> {
        self.calls.call()?;
        Ok(CountedFile {
            file: self.rt.open_file(how, path)?,
            calls: self.calls,
        })
    }

    fn open_dir(&self, _path: &str) -> io::Result<io::Empty> {
        unsupported()
    }

    fn metadata(&self, _path: &str) -> io::Result<Metadata> {
        unsupported()
    }

    fn symlink_metadata(&self, _path: &str) -> io::Result<Metadata> {
        unsupported()
    }

    fn copy(&self, _from: &str, _to: &str) -> io::Result<u64> {
        unsupported()
    }

    fn rename(&self, _from: &str, _to: &str) -> io::Result<()> {
        unsupported()
    }

    fn remove_file(&self, _path: &str) -> io::Result<()> {
        unsupported()
    }

    fn create_dir(&self, _path: &str) -> io::Result<()> {
        unsupported()
    }

    fn remove_dir(&self, _path: &str) -> io::Result<()> {
        unsupported()
    }

    fn remove_dir_all<B: Allocator>(&self, _alloc: B, _path: &str) -> io::Result<()> {
        unsupported()
    }
}

/// A disk asks none of this of its host.
fn unsupported<T>() -> io::Result<T> {
    Err(io::ErrorKind::Unsupported.into())
}
