//! Files that aren't read, sinks that fail and words that name no command.

use crate::running::{
    CERTIFICATE, EXAMPLE, EXAMPLE_TRACE, assert_status, replayed, shelf_with, wide_sink, words_of,
};
use pre_base::{MemoryShelf, MemorySink};
use pre_cli::preempt;
use std::test::Fail;

/// The first two writes take up to 7 octets each.
#[test]
fn the_third_write_fails(rt: HostRuntime) -> Result<(), Fail> {
    let alloc = rt.alloc();
    let mut sink = MemorySink::make(alloc, 1000, 7, &[2])?;
    let status = replayed(alloc, EXAMPLE, &mut sink)?;
    assert_status(&rt, alloc, &status, 3, "write fault")?;
    let taken = sink.octets();
    assert!(rt; !taken.is_empty() && taken.len() <= 14);
    assert!(rt; EXAMPLE_TRACE.as_bytes().starts_with(taken));
    Ok(())
}

/// At one octet a write the calls from 0 to 243 write the trace of 244 octets, and the call 244 is the flush.
#[test]
fn the_flush_fails(rt: HostRuntime) -> Result<(), Fail> {
    let alloc = rt.alloc();
    let mut sink = MemorySink::make(alloc, 1000, 1, &[244])?;
    let status = replayed(alloc, EXAMPLE, &mut sink)?;
    assert_status(&rt, alloc, &status, 3, "write fault")?;
    assert_eq!(rt; sink.octets(), EXAMPLE_TRACE.as_bytes());
    Ok(())
}

#[test]
fn wrong_words(rt: HostRuntime) -> Result<(), Fail> {
    let alloc = rt.alloc();
    let usage =
        "usage: preempt certify, judge, migrate, replay, mpackets, drill, admit, capture or dissect";
    for text in [
        "",
        "replay",
        "replay pair pair script",
        "replay pair pair cert script pair",
        "Replay pair pair cert script",
        "certify pair",
        "judge pair pair",
        "migrate pair pair cert script",
        "drill",
        "drill 1 2",
        "admit pair pair",
        "admit pair pair more more",
        "capture pair pair script",
        "dissect",
        "drill 01",
        "drill x",
        "drill 1000000000",
    ] {
        let mut shelf = shelf_with(alloc, EXAMPLE.as_bytes())?;
        let mut sink = wide_sink(alloc)?;
        let words = words_of(alloc, text)?;
        let status = preempt(alloc, words.as_slice(), &mut shelf, &mut sink);
        assert_status(&rt, alloc, &status, 1, usage)?;
        assert!(rt; sink.octets().is_empty());
    }
    Ok(())
}

#[test]
fn a_missing_file(rt: HostRuntime) -> Result<(), Fail> {
    let alloc = rt.alloc();
    let mut shelf = shelf_with(alloc, EXAMPLE.as_bytes())?;
    let mut sink = wide_sink(alloc)?;
    let words = words_of(alloc, "replay pair pair cert other")?;
    let status = preempt(alloc, words.as_slice(), &mut shelf, &mut sink);
    assert_status(&rt, alloc, &status, 2, "read fault")?;
    assert!(rt; sink.octets().is_empty());
    Ok(())
}

/// The first call selects the certificate, the next one reads it, and the third one would find its end; then the same of the
/// script.
#[test]
fn a_read_fails(rt: HostRuntime) -> Result<(), Fail> {
    let alloc = rt.alloc();
    for call in 0..6u64 {
        let mut shelf = MemoryShelf::make(alloc, &[call])?;
        shelf.put("script", EXAMPLE.as_bytes())?;
        shelf.put("cert", CERTIFICATE.as_bytes())?;
        let mut sink = wide_sink(alloc)?;
        let words = words_of(alloc, "replay pair pair cert script")?;
        let status = preempt(alloc, words.as_slice(), &mut shelf, &mut sink);
        assert_eq!(rt; status.number(), 2, "at call {call}");
        assert!(rt; sink.octets().is_empty());
    }
    Ok(())
}
