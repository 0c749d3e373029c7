//! Each call of the shelf and each call of the sink fails once, in each command, and each command octet by octet.

ghost use Rattle.std.specs.Prelude.{◌≡◌, ◌≤◌, None};
ghost use Rattle.pre_base.specs.Faults.{Rose};

use crate::admissions::slow;
use crate::captures::CAPTURE;
use crate::certificates::{PAIR, TWO_HOPS};
use crate::listings::PACKETS;
use crate::networks::BRIDGED;
use crate::running::{wide_sink, words_of};
use crate::streams::BY_BRIDGE;
use pre_base::{Failed, MemoryShelf, MemorySink, Shelf, Sink};
use pre_cli::{Status, preempt};
use std::alloc::{AllocError, Global};
use std::test::Fail;

/// Every command over files, with its own words for them.
const COMMANDS: [&str; 8] = [
    "certify net streams",
    "judge net streams cert",
    "migrate net streams cert",
    "replay net streams cert script",
    "mpackets packets",
    "admit net streams more",
    "capture net streams script m>b",
    "dissect capture",
];

/// The same over the built-in network and streams.
const PAIR_COMMANDS: [&str; 8] = [
    "certify pair pair",
    "judge pair pair pair_cert",
    "migrate pair pair pair_cert",
    "replay pair pair pair_cert script",
    "mpackets packets",
    "admit pair pair pair_more",
    "capture pair pair script a>b",
    "dissect capture",
];

/// More calls than a command makes of a shelf or of a sink.
const MOST_CALLS: u64 = 200;

/// The good files of all commands, on a shelf whose calls of these numbers fail.
fn good_files(alloc: Global, fails: &[u64]) -> Result<MemoryShelf, AllocError> {
    let mut shelf = MemoryShelf::make(alloc, fails)?;
    shelf.put("net", BRIDGED.as_bytes())?;
    shelf.put("streams", BY_BRIDGE.as_bytes())?;
    let more = slow(alloc, "w", 11, "\"b\", \"m\", \"a\"")?;
    shelf.put("more", more.as_bytes())?;
    let pair_more = slow(alloc, "w", 11, "\"b\", \"a\"")?;
    shelf.put("pair_more", pair_more.as_bytes())?;
    shelf.put("cert", TWO_HOPS.as_bytes())?;
    shelf.put("pair_cert", PAIR.as_bytes())?;
    shelf.put("script", b"send 0 x 64\nuntil 5000\n".as_slice())?;
    shelf.put("packets", PACKETS.as_bytes())?;
    shelf.put("capture", CAPTURE.as_slice())?;
    Ok(shelf)
}

/// Does a command over a shelf.
fn done<H: Shelf, S: Sink>(
    alloc: Global,
    command: &str,
    shelf: &mut H,
    sink: &mut S,
) -> Result<Status, AllocError> {
    let words = words_of(alloc, command)?;
    Ok(preempt(alloc, words.as_slice(), shelf, sink))
}

/// The text that a command writes over the good files.
fn good_text(alloc: Global, command: &str) -> Result<MemorySink, AllocError> {
    let mut sink = wide_sink(alloc)?;
    let mut shelf = good_files(alloc, &[])?;
    let _ = done(alloc, command, &mut shelf, &mut sink)?;
    Ok(sink)
}

/// A shelf that hands out one octet a read. It tells nothing.
#[derive(Drop)]
struct OctetShelf {
    files: MemoryShelf,
    faults: u64,
}

impl OctetShelf {
    /// Counts a call that failed.
    fn failed(&mut self) -> Failed
        ensures later { self.old.faults ≤ self.new.faults }
        ensures faults { Rose self.old.faults self.new.faults }
        ensures files { self.new.files ≡ self.old.files }
    {
        self.faults = self.faults.saturating_add(1);
        Failed
    }
}

impl Shelf for OctetShelf {
    ghost tells = { λ s. None };

    ghost handed = { λ s. s.files.handed };

    ghost faults = { λ s. s.faults };

    fn select(&mut self, name: &str) -> Result<(), Failed> {
        match self.files.select(name) {
            Ok(()) => Ok(()),
            Err(_) => Err(self.failed()),
        }
    }

    fn read(&mut self, into: &mut [u8]) -> Result<usize, Failed> {
        let room = into.len().min(1);
        match self.files.read(&mut into[..room]) {
            Ok(count) => Ok(count),
            Err(_) => Err(self.failed()),
        }
    }

    fn handed(&self) -> u64 {
        self.files.handed()
    }

    fn faults(&self) -> u64 {
        self.faults
    }
}

#[test]
fn each_call_of_the_shelf_fails_once(rt: HostRuntime) -> Result<(), Fail> {
    let alloc = rt.alloc();
    for command in COMMANDS {
        let mut failed = 0u64;
        for call in 0..MOST_CALLS {
            let mut shelf = good_files(alloc, &[call])?;
            let mut sink = wide_sink(alloc)?;
            let status = done(alloc, command, &mut shelf, &mut sink)?;
            if shelf.faults() == 0 {
                assert_eq!(rt; status.number(), 0, "{command}");
                break;
            }
            failed = failed.saturating_add(1);
            assert_eq!(rt; status.number(), 2, "{command}, call {call}");
            assert!(rt; sink.octets().is_empty());
        }
        assert!(rt; 3 <= failed && failed < MOST_CALLS, "{command}: {failed}");
    }
    Ok(())
}

#[test]
fn each_call_of_the_sink_fails_once(rt: HostRuntime) -> Result<(), Fail> {
    let alloc = rt.alloc();
    for command in PAIR_COMMANDS {
        let text = good_text(alloc, command)?;
        let mut failed = 0u64;
        for call in 0..MOST_CALLS {
            let mut shelf = good_files(alloc, &[])?;
            let mut sink = MemorySink::make(alloc, 100_000, 40, &[call])?;
            let status = done(alloc, command, &mut shelf, &mut sink)?;
            if sink.faults() == 0 {
                assert_eq!(rt; status.number(), 0, "{command}");
                break;
            }
            failed = failed.saturating_add(1);
            assert_eq!(rt; status.number(), 3, "{command}, call {call}");
            assert!(rt; text.octets().starts_with(sink.octets()));
        }
        assert!(rt; 2 <= failed && failed < MOST_CALLS, "{command}: {failed}");
    }
    Ok(())
}

#[test]
fn octet_by_octet(rt: HostRuntime) -> Result<(), Fail> {
    let alloc = rt.alloc();
    for command in COMMANDS {
        let text = good_text(alloc, command)?;
        let files = good_files(alloc, &[])?;
        let mut shelf = OctetShelf { files, faults: 0 };
        let mut sink = MemorySink::make(alloc, 100_000, 1, &[])?;
        let status = done(alloc, command, &mut shelf, &mut sink)?;
        assert_eq!(rt; status.number(), 0, "{command}");
        assert_eq!(rt; sink.octets(), text.octets());
    }
    Ok(())
}
