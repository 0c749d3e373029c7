//! A run that reads and writes one octet at a time.

ghost use Rattle.std.specs.Prelude.{None};

use crate::running::{CERTIFICATE, EXAMPLE, EXAMPLE_TRACE, words_of};
use pre_base::{Failed, MemorySink, Shelf};
use pre_cli::preempt;
use std::test::Fail;

/// A certificate, and the same other file under each other name, one octet a read. It tells nothing.
#[derive(Drop)]
struct OctetShelf<'a> {
    certificate: &'a [u8],
    file: &'a [u8],
    left: &'a [u8],
    handed: u64,
}

impl Shelf for OctetShelf<'_> {
    ghost tells = { λ s. None };

    ghost handed = { λ s. s.handed };

    ghost faults = { λ s. 0 };

    fn select(&mut self, name: &str) -> Result<(), Failed> {
        self.left = if name == "cert" {
            self.certificate
        } else {
            self.file
        };
        self.handed = 0;
        Ok(())
    }

    fn read(&mut self, into: &mut [u8]) -> Result<usize, Failed> {
        let handed = self.handed;
        match (self.left, into) {
            ([first, left @ ..], [room, ..]) => {
                *room = *first;
                self.left = left;
                self.handed = handed.saturating_add(1);
                Ok(1)
            }
            _ => Ok(0),
        }
    }

    fn handed(&self) -> u64 {
        self.handed
    }

    fn faults(&self) -> u64 {
        0
    }
}

#[test]
fn octet_by_octet(rt: HostRuntime) -> Result<(), Fail> {
    let alloc = rt.alloc();
    let mut shelf = OctetShelf {
        certificate: CERTIFICATE.as_bytes(),
        file: EXAMPLE.as_bytes(),
        left: &[],
        handed: 0,
    };
    let mut sink = MemorySink::make(alloc, 1000, 1, &[])?;
    let words = words_of(alloc, "replay pair pair cert script")?;
    let status = preempt(alloc, words.as_slice(), &mut shelf, &mut sink);
    assert_eq!(rt; status.number(), 0);
    assert_eq!(rt; sink.octets(), EXAMPLE_TRACE.as_bytes());
    Ok(())
}
