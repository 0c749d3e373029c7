ghost use Rattle.std.specs.Prelude.{◌≡◌, ◌≤◌};

use crate::held::Held;
use crate::{Failed, Shelf, Sink};
use std::fs;
use std::io::Read;
use std::marker::Model;
use std::rt::Files;

/// Files under the current folder. It tells nothing of content, and contracts see its counts.
pub struct DirShelf<'a, R: Files> {
    rt: &'a R,
    file: Option<R::File>,
    handed: u64,
    faults: u64,
}

impl<'a, R: Files> Drop for DirShelf<'a, R> {
    fn drop(self) {
        let DirShelf {
            rt: _,
            file: _,
            handed: _,
            faults: _,
        } = self;
    }
}

impl<'a, R: Files> Model for DirShelf<'a, R> {
    ghost use Rattle.pre_base.specs.ShelfCounts.{ShelfCounts};

    ghost Value = { ShelfCounts };

    ghost view = { λ s. record { handed = s.handed; faults = s.faults } };
}

impl<'a, R: Files> DirShelf<'a, R> {
    /// A shelf of the files under the current folder.
    pub fn over(rt: &'a R) -> DirShelf<'a, R>
        ensures { (result.handed ≡ 0) × (result.faults ≡ 0) }
    {
        DirShelf {
            rt,
            file: None,
            handed: 0,
            faults: 0,
        }
    }
}

impl<R: Files> Shelf for DirShelf<'_, R> {
    ghost use Rattle.std.specs.Prelude.{None};

    ghost tells = { λ _. None };

    ghost handed = { λ s. s.handed };

    ghost faults = { λ s. s.faults };

    fn select(&mut self, name: &str) -> Result<(), Failed> {
        self.handed = 0;
        self.file = None;
        match fs::open(self.rt, name) {
            Ok(file) => {
                self.file = Some(file);
                Ok(())
            }
            Err(_) => {
                self.faults = self.faults.saturating_add(1);
                Err(Failed)
            }
        }
    }

    fn read(&mut self, into: &mut [u8]) -> Result<usize, Failed> {
        let handed = self.handed;
        let Some(file) = &mut self.file else {
            return Ok(0);
        };
        match file.read(into) {
            Ok(count) => {
                self.handed = handed.saturating_add(count as u64);
                Ok(count)
            }
            Err(_) => {
                self.faults = self.faults.saturating_add(1);
                Err(Failed)
            }
        }
    }

    fn handed(&self) -> u64 {
        self.handed
    }

    fn faults(&self) -> u64 {
        self.faults
    }
}

/// The standard output. It tells nothing of content, and contracts see its count of faults.
///
/// It holds up to 65,536 octets and writes them where no further one fits, and at `flush`. A call that fails keeps what is
/// left of them, and the next one goes on from there: so what was written is a front of what was taken, and is all of it
/// after a `flush` that answers Ok. What it holds when it is dropped is lost.
#[derive(Drop)]
pub struct StdSink<'a, R: Print> {
    rt: &'a R,
    held: Held,
    faults: u64,
}

impl<'a, R: Print> Model for StdSink<'a, R> {
    ghost use Rattle.std.specs.Prelude.{ℕ};

    ghost Value = { ℕ };

    ghost view = { λ s. s.faults };
}

impl<'a, R: Print> StdSink<'a, R> {
    /// A sink that writes the standard output.
    pub fn over(rt: &'a R) -> StdSink<'a, R>
        ensures { result ≡ 0 }
    {
        StdSink {
            rt,
            held: Held::new(),
            faults: 0,
        }
    }
}

impl<R: Print> Sink for StdSink<'_, R> {
    ghost use Rattle.std.specs.Prelude.{None};

    ghost tells = { λ _. None };

    ghost faults = { λ s. s };

    fn write(&mut self, piece: &[u8]) -> Result<usize, Failed> {
        if self.held.is_full() && self.held.write_out(self.rt).is_err() {
            self.faults = self.faults.saturating_add(1);
            return Err(Failed);
        }
        Ok(self.held.hold(piece))
    }

    fn flush(&mut self) -> Result<(), Failed> {
        if self.held.write_out(self.rt).is_err() {
            self.faults = self.faults.saturating_add(1);
            return Err(Failed);
        }
        Ok(())
    }

    fn faults(&self) -> u64 {
        self.faults
    }
}

/// The standard error. It tells nothing of content, takes text alone, and contracts see its count of faults.
#[derive(Drop)]
pub struct ErrSink<'a, R: Eprint> {
    rt: &'a R,
    faults: u64,
}

impl<'a, R: Eprint> Model for ErrSink<'a, R> {
    ghost use Rattle.std.specs.Prelude.{ℕ};

    ghost Value = { ℕ };

    ghost view = { λ s. s.faults };
}

impl<'a, R: Eprint> ErrSink<'a, R> {
    /// A sink that writes the standard error.
    pub fn over(rt: &'a R) -> ErrSink<'a, R>
        ensures { result ≡ 0 }
    {
        ErrSink { rt, faults: 0 }
    }
}

impl<R: Eprint> Sink for ErrSink<'_, R> {
    ghost use Rattle.std.specs.Prelude.{None};

    ghost tells = { λ _. None };

    ghost faults = { λ s. s };

    fn write(&mut self, piece: &[u8]) -> Result<usize, Failed> {
        if let Ok(text) = std::str::from_utf8(piece) {
            if self.rt.eprint(text).is_ok() {
                return Ok(piece.len());
            }
        }
        self.faults = self.faults.saturating_add(1);
        Err(Failed)
    }

    fn flush(&mut self) -> Result<(), Failed> {
        Ok(())
    }

    fn faults(&self) -> u64 {
        self.faults
    }
}
