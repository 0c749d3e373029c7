// Stand-ins for what lies outside, with calls that fail by their number, counted from 0.
ghost use Rattle.std.specs.Prelude.{◌≤◌, IfOk, length};

use std::alloc::{Allocator, Global};
use std::cell::{Cell, RefCell};
use std::fmt::Display;
use std::fs::{Metadata, OpenFile, OpenOptions};
use std::io;
use std::io::{ErrorKind, Read, Seek, SeekFrom, Write};
use std::rt::Files;

// The standard output and error: it takes at most `step` octets a call.
#[derive(Drop)]
pub(crate) struct FakeOutput {
    alloc: Global,
    taken: RefCell<Vec<u8>>,
    calls: Cell<u64>,
    step: usize,
    fails: u64,
}

impl FakeOutput {
    pub(crate) fn make(alloc: Global, step: usize, fails: u64) -> FakeOutput {
        FakeOutput {
            alloc,
            taken: RefCell::new(Vec::new(alloc)),
            calls: Cell::new(0),
            step,
            fails,
        }
    }

    pub(crate) fn calls(&self) -> u64 {
        self.calls.get()
    }

    // Whether it took these octets and no others.
    pub(crate) fn took(&self, octets: &[u8]) -> bool {
        match self.taken.try_borrow() {
            Ok(taken) => taken.as_slice() == octets,
            Err(_) => false,
        }
    }

    fn take(&self, octets: &[u8]) -> io::Result<usize>
        ensures { IfOk result (λ n. n ≤ length octets.now) }
    {
        let call = self.calls.get();
        self.calls.set(call.saturating_add(1));
        if call == self.fails {
            return Err(ErrorKind::Other.into());
        }
        let count = octets.len().min(self.step);
        match self.taken.try_borrow_mut() {
            Ok(mut taken) => taken.extend_from_slice(&octets[..count])?,
            Err(_) => return Err(ErrorKind::Other.into()),
        }
        Ok(count)
    }
}

impl Print for FakeOutput {
    fn print<D: Display + Drop>(&self, _value: D) -> io::Result<()> {
        Err(ErrorKind::Unsupported.into())
    }

    fn println<D: Display + Drop>(&self, _value: D) -> io::Result<()> {
        Err(ErrorKind::Unsupported.into())
    }

    fn write_all(&self, _bytes: &[u8]) -> io::Result<()> {
        Err(ErrorKind::Unsupported.into())
    }

    fn write_some(&self, bytes: &[u8]) -> io::Result<usize> {
        self.take(bytes)
    }
}

impl Eprint for FakeOutput {
    fn eprint<D: Display + Drop>(&self, value: D) -> io::Result<()> {
        let text = format!(in self.alloc; "{value}")?;
        self.take(text.as_bytes())?;
        Ok(())
    }

    fn eprintln<D: Display + Drop>(&self, _value: D) -> io::Result<()> {
        Err(ErrorKind::Unsupported.into())
    }
}

// A folder with one file, `there`, whose reads give at most `step` octets.
#[derive(Drop)]
pub(crate) struct FakeFiles {
    pub(crate) octets: &'static [u8],
    pub(crate) step: usize,
    pub(crate) fails: u64,
}

#[derive(Drop)]
pub(crate) struct FakeFile {
    rest: &'static [u8],
    step: usize,
    fails: u64,
    calls: u64,
}

impl Read for FakeFile {
    fn read(&mut self, into: &mut [u8]) -> io::Result<usize> {
        let call = self.calls;
        self.calls = call.saturating_add(1);
        if call == self.fails {
            return Err(ErrorKind::Other.into());
        }
        let count = self.rest.len().min(self.step).min(into.len());
        into[..count].copy_from_slice(&self.rest[..count]);
        self.rest = &self.rest[count..];
        Ok(count)
    }
}

impl Write for FakeFile {
    fn write(&mut self, _octets: &[u8]) -> io::Result<usize> {
        Err(ErrorKind::Unsupported.into())
    }

    fn flush(&mut self) -> io::Result<()> {
        Err(ErrorKind::Unsupported.into())
    }
}

impl Seek for FakeFile {
    fn seek(&mut self, _to: SeekFrom) -> io::Result<u64> {
        Err(ErrorKind::Unsupported.into())
    }
}

impl OpenFile for FakeFile {
    fn metadata(&self) -> io::Result<Metadata> {
        Err(ErrorKind::Unsupported.into())
    }

    fn set_len(&self, _size: u64) -> io::Result<()> {
        Err(ErrorKind::Unsupported.into())
    }

    fn sync_all(&self) -> io::Result<()> {
        Err(ErrorKind::Unsupported.into())
    }

    fn sync_data(&self) -> io::Result<()> {
        Err(ErrorKind::Unsupported.into())
    }
}

impl Files for FakeFiles {
    type File = FakeFile;

    type Dir = FakeFile;

    fn open_file(&self, _how: &OpenOptions, path: &str) -> io::Result<FakeFile> {
        if path != "there" {
            return Err(ErrorKind::NotFound.into());
        }
        Ok(FakeFile {
            rest: self.octets,
            step: self.step,
            fails: self.fails,
            calls: 0,
        })
    }

    fn open_dir(&self, _path: &str) -> io::Result<FakeFile> {
        Err(ErrorKind::Unsupported.into())
    }

    fn metadata(&self, _path: &str) -> io::Result<Metadata> {
        Err(ErrorKind::Unsupported.into())
    }

    fn symlink_metadata(&self, _path: &str) -> io::Result<Metadata> {
        Err(ErrorKind::Unsupported.into())
    }

    fn copy(&self, _from: &str, _to: &str) -> io::Result<u64> {
        Err(ErrorKind::Unsupported.into())
    }

    fn rename(&self, _from: &str, _to: &str) -> io::Result<()> {
        Err(ErrorKind::Unsupported.into())
    }

    fn remove_file(&self, _path: &str) -> io::Result<()> {
        Err(ErrorKind::Unsupported.into())
    }

    fn create_dir(&self, _path: &str) -> io::Result<()> {
        Err(ErrorKind::Unsupported.into())
    }

    fn remove_dir(&self, _path: &str) -> io::Result<()> {
        Err(ErrorKind::Unsupported.into())
    }

    fn remove_dir_all<B: Allocator>(&self, _alloc: B, _path: &str) -> io::Result<()> {
        Err(ErrorKind::Unsupported.into())
    }
}
