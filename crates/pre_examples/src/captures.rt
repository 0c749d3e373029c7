//! Capture files and what their records give.

use crate::running::{assert_status, wide_sink, words_of};
use pre_base::{MemoryShelf, MemorySink};
use pre_cli::{Status, captures_are_read_back, due_captures, due_dissections, preempt};
use std::alloc::{AllocError, Global};
use std::test::Fail;

/// The express frame of 64 octets that one stream sends at tick 0, as it arrives at tick 72.
pub const CAPTURE: &[u8; 112] =
    b"\x4d\x3c\xb2\xa1\x02\x00\x04\x00\x00\x00\x00\x00\x00\x00\x00\x00\xff\xff\x00\x00\x12\x01\x00\x00\
    \x00\x00\x00\x00\x48\x00\x00\x00\x48\x00\x00\x00\x48\x00\x00\x00\x55\x55\x55\x55\x55\x55\x55\xd5\
    \x02\x00\x00\x00\x00\x01\x02\x00\x00\x00\x00\x00\x81\x00\xc0\x0a\x88\xb5\x00\x00\x00\x00\x04\x05\x06\x07\x08\x09\x0a\x0b\x0c\x0d\
    \x0e\x0f\x10\x11\x12\x13\x14\x15\x16\x17\x18\x19\x1a\x1b\x1c\x1d\x1e\x1f\x20\x21\x22\x23\x24\x25\x26\x27\x28\x29\xd9\x06\x4e\x6c";

/// What its record gives.
const DISSECTION: &str =
    "0 72 0 E 64 frame 0200000000010200000000008100c00a88b5000000000405060708090a0b0c0d0e0f101112131415161718191a1b1c1d1e1f20212223242526272829d9064e6c
";

/// The script that sends it.
const SCRIPT: &str = "send 0 x 64\nuntil 5000\n";

/// The first octets of a file of two records with this frame, up to those of the first one, and the header of the second one: as
/// `text2pcap` writes them, in microseconds.
const MICROSECONDS: (&[u8; 40], &[u8; 16]) = (
    b"\xd4\xc3\xb2\xa1\x02\x00\x04\x00\x00\x00\x00\x00\x00\x00\x00\x00\x00\x00\x04\x00\x12\x01\x00\x00\
    \x41\x08\x10\x6b\x48\x00\x00\x00\x48\x00\x00\x00\x48\x00\x00\x00",
    b"\x42\x08\x10\x6b\x20\xa1\x07\x00\x48\x00\x00\x00\x48\x00\x00\x00",
);

/// The same as `editcap` writes them in nanoseconds.
const NANOSECONDS: (&[u8; 40], &[u8; 16]) = (
    b"\x4d\x3c\xb2\xa1\x02\x00\x04\x00\x00\x00\x00\x00\x00\x00\x00\x00\x00\x00\x04\x00\x12\x01\x00\x00\
    \x41\x08\x10\x6b\x40\x19\x01\x00\x48\x00\x00\x00\x48\x00\x00\x00",
    b"\x42\x08\x10\x6b\x00\x65\xcd\x1d\x48\x00\x00\x00\x48\x00\x00\x00",
);

/// The same in microseconds, as a machine writes them that stores the highest octet first.
const HIGHEST_FIRST: (&[u8; 40], &[u8; 16]) = (
    b"\xa1\xb2\xc3\xd4\x00\x02\x00\x04\x00\x00\x00\x00\x00\x00\x00\x00\x00\x04\x00\x00\x00\x00\x01\x12\
    \x6b\x10\x08\x41\x00\x00\x00\x48\x00\x00\x00\x48\x00\x00\x00\x48",
    b"\x6b\x10\x08\x42\x00\x07\xa1\x20\x00\x00\x00\x48\x00\x00\x00\x48",
);

/// Two stations and a link whose octets take 60 ticks each. A frame of 64 octets that begins at tick 0 arrives at tick
/// 1,000,000,072, which is 72 nanoseconds behind a second.
const DISTANT: &str = r#"express_from = 4
[[node]]
name = "a"
kind = "station"
[[node]]
name = "b"
kind = "station"
[[link]]
ends = ["a", "b"]
cost = 60
delay = 999995752
"#;

/// Captures an arc of a run of a script over two stations, whose network and streams these words name.
fn captured(
    alloc: Global,
    files: &str,
    script: &str,
    arc: &str,
    sink: &mut MemorySink,
) -> Result<Status, AllocError> {
    let mut shelf = MemoryShelf::make(alloc, &[])?;
    shelf.put("distant", DISTANT.as_bytes())?;
    shelf.put("broken", b"?".as_slice())?;
    shelf.put("script", script.as_bytes())?;
    let text = format!(in alloc; "capture {files} {arc}")?;
    let words = words_of(alloc, text.as_str())?;
    Ok(preempt(alloc, words.as_slice(), &mut shelf, sink))
}

/// Dissects a capture file.
fn dissected(alloc: Global, octets: &[u8], sink: &mut MemorySink) -> Result<Status, AllocError> {
    let mut shelf = MemoryShelf::make(alloc, &[])?;
    shelf.put("capture", octets)?;
    let words = words_of(alloc, "dissect capture")?;
    Ok(preempt(alloc, words.as_slice(), &mut shelf, sink))
}

/// The same octets, but for the one at this place.
fn changed(alloc: Global, place: usize, octet: u8) -> Result<Vec<u8>, AllocError> {
    let mut octets = CAPTURE.as_slice().to_vec(alloc)?;
    if let Some(changed) = octets.get_mut(place) {
        *changed = octet;
    }
    Ok(octets)
}

#[test]
fn one_record(rt: HostRuntime) -> Result<(), Fail> {
    let alloc = rt.alloc();
    let mut sink = wide_sink(alloc)?;
    let status = dissected(alloc, CAPTURE.as_slice(), &mut sink)?;
    assert_eq!(rt; status.number(), 0);
    assert_eq!(rt; sink.octets(), DISSECTION.as_bytes());
    due_dissections();
    Ok(())
}

/// A record that is cut off is a fault at its place, behind the lines of those before it.
#[test]
fn a_record_that_is_cut_off(rt: HostRuntime) -> Result<(), Fail> {
    let alloc = rt.alloc();
    let mut sink = wide_sink(alloc)?;
    let whole = CAPTURE.as_slice();
    let status = dissected(alloc, &whole[..111], &mut sink)?;
    assert_status(&rt, alloc, &status, 4, "form pcap 1 3")?;
    assert!(rt; sink.octets().is_empty());
    let mut twice = whole.to_vec(alloc)?;
    twice.extend_from_slice(&whole[24..111])?;
    let status = dissected(alloc, twice.as_slice(), &mut sink)?;
    assert_status(&rt, alloc, &status, 4, "form pcap 2 3")?;
    assert_eq!(rt; sink.octets(), DISSECTION.as_bytes());
    Ok(())
}

#[test]
fn another_link_type(rt: HostRuntime) -> Result<(), Fail> {
    let alloc = rt.alloc();
    let mut sink = wide_sink(alloc)?;
    let octets = changed(alloc, 20, 0x01)?;
    let status = dissected(alloc, octets.as_slice(), &mut sink)?;
    assert_status(&rt, alloc, &status, 4, "form pcap 0 5")?;
    assert!(rt; sink.octets().is_empty());
    Ok(())
}

/// An octet of the frame is damaged, so its check fails.
#[test]
fn a_damaged_record(rt: HostRuntime) -> Result<(), Fail> {
    let alloc = rt.alloc();
    let mut sink = wide_sink(alloc)?;
    let octets = changed(alloc, 70, 0x05)?;
    let status = dissected(alloc, octets.as_slice(), &mut sink)?;
    assert_eq!(rt; status.number(), 0);
    assert_eq!(rt; sink.octets(), b"0 72 0 E 64 nothing check\n".as_slice());
    Ok(())
}

/// The capture of the run that sends the frame is that file, which is dissected.
#[test]
fn a_captured_arc(rt: HostRuntime) -> Result<(), Fail> {
    let alloc = rt.alloc();
    let mut sink = wide_sink(alloc)?;
    let status = captured(alloc, "pair pair script", SCRIPT, "a>b", &mut sink)?;
    assert_eq!(rt; status.number(), 0);
    assert_eq!(rt; sink.octets(), CAPTURE.as_slice());
    let mut listed = wide_sink(alloc)?;
    let status = dissected(alloc, sink.octets(), &mut listed)?;
    assert_eq!(rt; status.number(), 0);
    assert_eq!(rt; listed.octets(), DISSECTION.as_bytes());
    due_captures();
    captures_are_read_back();
    Ok(())
}

/// The other arc carries nothing, and of what is lost nothing arrives.
#[test]
fn a_header_alone(rt: HostRuntime) -> Result<(), Fail> {
    let alloc = rt.alloc();
    for (script, arc) in [
        (SCRIPT, "b>a"),
        ("send 0 x 64\nlose a>b 0\nuntil 5000\n", "a>b"),
    ] {
        let mut sink = wide_sink(alloc)?;
        let status = captured(alloc, "pair pair script", script, arc, &mut sink)?;
        assert_eq!(rt; status.number(), 0);
        assert_eq!(rt; sink.octets(), &CAPTURE[..24]);
    }
    Ok(())
}

/// A record has the octets and the tick of the arrival, also where that is after the last tick.
#[test]
fn a_late_arrival(rt: HostRuntime) -> Result<(), Fail> {
    let alloc = rt.alloc();
    let mut sink = wide_sink(alloc)?;
    let status = captured(alloc, "distant pair script", SCRIPT, "a>b", &mut sink)?;
    assert_eq!(rt; status.number(), 0);
    let late = changed(alloc, 24, 1)?;
    assert_eq!(rt; sink.octets(), late.as_slice());
    Ok(())
}

#[test]
fn a_damaged_arrival(rt: HostRuntime) -> Result<(), Fail> {
    let alloc = rt.alloc();
    let script = "send 0 x 64\ndamage a>b 0 30 01\nuntil 5000\n";
    let mut sink = wide_sink(alloc)?;
    let status = captured(alloc, "pair pair script", script, "a>b", &mut sink)?;
    assert_eq!(rt; status.number(), 0);
    let mut listed = wide_sink(alloc)?;
    let status = dissected(alloc, sink.octets(), &mut listed)?;
    assert_eq!(rt; status.number(), 0);
    assert_eq!(rt; listed.octets(), b"0 72 0 E 64 nothing check\n".as_slice());
    Ok(())
}

/// Where an arrival is an alias, the capture of what was before it is written, and that mPacket had ended.
#[test]
fn an_alias(rt: HostRuntime) -> Result<(), Fail> {
    let alloc = rt.alloc();
    let script = "send 0 x 64\ndamage a>b 0 30 410671db01\nuntil 5000\n";
    let mut sink = wide_sink(alloc)?;
    let status = captured(alloc, "pair pair script", script, "a>b", &mut sink)?;
    assert_status(&rt, alloc, &status, 9, "alias 0 0")?;
    let (octets, whole) = (sink.octets(), CAPTURE.as_slice());
    assert_eq!(rt; octets.len(), 112);
    assert!(rt; octets.get(..77) == whole.get(..77));
    assert!(rt; octets.get(82..112) == whole.get(82..112));
    Ok(())
}

/// A name of no arc is answered behind the network's faults, before the streams are read.
#[test]
fn no_arc_with_the_name(rt: HostRuntime) -> Result<(), Fail> {
    let alloc = rt.alloc();
    for (files, arc, number, text) in [
        ("pair missing missing", "a>c", 13, "no arc"),
        ("pair pair script", "a", 13, "no arc"),
        ("broken pair script", "a>c", 4, "form net 0 1"),
        ("missing pair script", "a>c", 2, "read fault"),
        ("pair missing script", "a>b", 2, "read fault"),
        ("pair pair broken", "a>b", 4, "form script 1 1"),
    ] {
        let mut sink = wide_sink(alloc)?;
        let status = captured(alloc, files, SCRIPT, arc, &mut sink)?;
        assert_status(&rt, alloc, &status, number, text)?;
        assert!(rt; sink.octets().is_empty());
    }
    Ok(())
}

/// Captures of other tools, in both units and both orders of octets.
#[test]
fn captures_of_other_tools(rt: HostRuntime) -> Result<(), Fail> {
    let alloc = rt.alloc();
    for (parts, fractions) in [
        (MICROSECONDS, ("72", "500000")),
        (NANOSECONDS, ("72000", "500000000")),
        (HIGHEST_FIRST, ("72", "500000")),
    ] {
        let mut octets = parts.0.as_slice().to_vec(alloc)?;
        let frame = &CAPTURE.as_slice()[40..];
        octets.extend_from_slice(frame)?;
        octets.extend_from_slice(parts.1.as_slice())?;
        octets.extend_from_slice(frame)?;
        let mut sink = wide_sink(alloc)?;
        let status = dissected(alloc, octets.as_slice(), &mut sink)?;
        assert_eq!(rt; status.number(), 0);
        let given = DISSECTION.strip_prefix("0 72 0 ").ok_or("line")?;
        let first = format!(in alloc; "1796212801 {} 0 {given}", fractions.0)?;
        let second = format!(in alloc; "1796212802 {} 1 {given}", fractions.1)?;
        let lines = format!(in alloc; "{first}{second}")?;
        assert_eq!(rt; sink.octets(), lines.as_bytes());
    }
    Ok(())
}
