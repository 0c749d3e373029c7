//! Streams that are admitted one after the other, and those that aren't.

use crate::certificates::{FULL, PAIR, RING, ROUND, TWO_PRIORITIES, short_before};
use crate::networks::DIRECT;
use crate::running::{assert_status, wide_sink, words_of};
use crate::streams::{THREE_ROWS, TWO_ROWS};
use pre_base::{MemoryShelf, MemorySink};
use pre_cli::{Status, due_admissions, preempt};
use std::alloc::{AllocError, Global};
use std::test::Fail;

/// A stream of priority 7 from one station to the other.
const BEFORE: &str =
    "[[stream]]\nname = \"z\"\nvid = 11\nprio = 7\nroute = [\"a\", \"b\"]\nmax = 500\nburst = 520\nrate = 10000\n";

/// Two stations and a link, with room for as many express frames as a ring can hold.
const WIDE: &str = r#"express_from = 4
[[node]]
name = "a"
kind = "station"
[[node]]
name = "b"
kind = "station"
[[link]]
ends = ["a", "b"]
cost = 1
mode = "on"
rings = [1, 1, 1, 1, 1, 1, 4096, 1]
"#;

/// A stream of this name that wants nearly all of the arc's time.
fn greedy(alloc: Global, name: &str) -> Result<String, AllocError> {
    format!(in alloc;
        "[[stream]]\nname = \"{name}\"\nvid = 12\nprio = 6\nroute = [\"a\", \"b\"]\nmax = 64\nburst = 84\nrate = 990000\n"
    )
}

/// A stream of this name, VID and route, in quotes.
pub fn slow(alloc: Global, name: &str, vid: u16, route: &str) -> Result<String, AllocError> {
    format!(in alloc;
        "[[stream]]\nname = \"{name}\"\nvid = {vid}\nprio = 6\nroute = [{route}]\nmax = 64\nburst = 84\nrate = 1000\n"
    )
}

/// Admits the streams of the file `more` to those of the file `streams`.
fn admitted(
    alloc: Global,
    net: &str,
    streams: &str,
    more: &str,
    words: &str,
) -> Result<(Status, MemorySink), AllocError> {
    let mut shelf = MemoryShelf::make(alloc, &[])?;
    shelf.put("net", net.as_bytes())?;
    shelf.put("streams", streams.as_bytes())?;
    shelf.put("more", more.as_bytes())?;
    let words = words_of(alloc, words)?;
    let mut sink = wide_sink(alloc)?;
    let status = preempt(alloc, words.as_slice(), &mut shelf, &mut sink);
    Ok((status, sink))
}

/// Judges what was written as a certificate, with the lines before it.
fn judged(
    alloc: Global,
    net: &str,
    streams: &str,
    certificate: &[u8],
) -> Result<Status, AllocError> {
    let mut shelf = MemoryShelf::make(alloc, &[])?;
    shelf.put("net", net.as_bytes())?;
    shelf.put("streams", streams.as_bytes())?;
    shelf.put("cert", certificate)?;
    let words = words_of(alloc, "judge net streams cert")?;
    let mut sink = wide_sink(alloc)?;
    Ok(preempt(alloc, words.as_slice(), &mut shelf, &mut sink))
}

/// A stream of priority 7 is admitted before a flow; one more, for which there isn't the time, is refused, and so is one whose
/// name stands already. What is written is a certificate file of the streams that are held, as it stands.
#[test]
fn one_is_admitted_and_one_refused(rt: HostRuntime) -> Result<(), Fail> {
    let alloc = rt.alloc();
    let streams = short_before(alloc, 1522)?;
    for (name, line) in [("w", "# refused w overload 0"), ("x", "# refused x name")] {
        let refused = greedy(alloc, name)?;
        let more = format!(in alloc; "{BEFORE}{refused}")?;
        let (status, sink) = admitted(
            alloc,
            DIRECT,
            streams.as_str(),
            more.as_str(),
            "admit net streams more",
        )?;
        assert_eq!(rt; status.number(), 0);
        let due = format!(in alloc; "# admitted z\n{line}\n{TWO_PRIORITIES}")?;
        assert_eq!(rt; sink.octets(), due.as_bytes());
        let status = judged(alloc, DIRECT, THREE_ROWS, sink.octets())?;
        assert_eq!(rt; status.number(), 0);
    }
    due_admissions();
    Ok(())
}

/// No row is admitted to the built-in streams: their certificate is written.
#[test]
fn no_more_streams(rt: HostRuntime) -> Result<(), Fail> {
    let alloc = rt.alloc();
    let (status, sink) = admitted(alloc, "", "", "", "admit pair pair more")?;
    assert_eq!(rt; status.number(), 0);
    assert_eq!(rt; sink.octets(), PAIR.as_bytes());
    Ok(())
}

/// The first entry at which a route differs is told, and the arcs of a cycle; the rows behind a refused one go on.
#[test]
fn other_routes_and_cycles(rt: HostRuntime) -> Result<(), Fail> {
    let alloc = rt.alloc();
    let first = slow(alloc, "c1", 1, "\"s\", \"p\", \"q\", \"r\", \"u\"")?;
    let turning = slow(alloc, "v", 1, "\"s\", \"p\", \"r\", \"u\"")?;
    let second = slow(alloc, "c2", 2, "\"t\", \"q\", \"r\", \"p\", \"s\"")?;
    let third = slow(alloc, "c3", 3, "\"u\", \"r\", \"p\", \"q\", \"t\"")?;
    let fourth = slow(alloc, "c4", 2, "\"t\", \"q\", \"r\", \"p\", \"s\"")?;
    for (more, due) in [
        (turning.as_str(), "# refused v route 2"),
        (second.as_str(), "# admitted c2"),
        (third.as_str(), "# admitted c3"),
    ] {
        let (status, sink) = admitted(alloc, RING, first.as_str(), more, "admit net streams more")?;
        assert_eq!(rt; status.number(), 0);
        assert!(rt; sink.octets().starts_with(due.as_bytes()), "{due}");
    }
    let more = format!(in alloc; "{second}{third}{fourth}")?;
    let (status, sink) = admitted(
        alloc,
        RING,
        first.as_str(),
        more.as_str(),
        "admit net streams more",
    )?;
    assert_eq!(rt; status.number(), 0);
    let due = b"# admitted c2\n# refused c3 cycle 0 2 4\n# admitted c4\ncertificate 2\n";
    assert!(rt; sink.octets().starts_with(due.as_slice()));
    Ok(())
}

/// A plan takes 256 streams.
#[test]
fn a_full_plan(rt: HostRuntime) -> Result<(), Fail> {
    let alloc = rt.alloc();
    let mut streams = String::new(alloc);
    for number in 0..255u16 {
        let name = format!(in alloc; "c{number}")?;
        let row = slow(alloc, name.as_str(), 10, "\"a\", \"b\"")?;
        streams.push_str(row.as_str())?;
    }
    let last = slow(alloc, "last", 10, "\"a\", \"b\"")?;
    let late = slow(alloc, "late", 10, "\"a\", \"b\"")?;
    let more = format!(in alloc; "{last}{late}")?;
    let (status, sink) = admitted(
        alloc,
        WIDE,
        streams.as_str(),
        more.as_str(),
        "admit net streams more",
    )?;
    assert_eq!(rt; status.number(), 0);
    let due = b"# admitted last\n# refused late count\ncertificate 2\n";
    assert!(rt; sink.octets().starts_with(due.as_slice()));
    Ok(())
}

/// Faults of a file of more streams, behind those of the network and the streams, and before what the streams are refused for.
#[test]
fn faults_of_more_streams(rt: HostRuntime) -> Result<(), Fail> {
    let alloc = rt.alloc();
    let flow = "[[flow]]\nname = \"v\"\nvid = 30\nprio = 0\nroute = [\"a\", \"b\"]\nmax = 1522\n";
    let wide = "[[flow]]\nname = \"v\"\nvid = 30\nprio = 0\nroute = [\"a\", \"b\"]\nmax = 2001\n";
    let twice = format!(in alloc; "{BEFORE}{BEFORE}")?;
    let cycle = (RING, ROUND, "");
    for (files, words, number, text) in [
        (
            (DIRECT, TWO_ROWS, flow),
            "net streams more",
            5,
            "rules more top 8",
        ),
        (
            (DIRECT, TWO_ROWS, wide),
            "net streams more",
            5,
            "rules more flow 0 6",
        ),
        (
            (DIRECT, TWO_ROWS, twice.as_str()),
            "net streams more",
            5,
            "rules more stream 1 3",
        ),
        (
            (DIRECT, TWO_ROWS, "["),
            "net streams more",
            4,
            "form more 0 1",
        ),
        ((DIRECT, TWO_ROWS, ""), "net streams pair", 2, "read fault"),
        (
            (DIRECT, "[", "["),
            "net streams more",
            4,
            "form streams 0 1",
        ),
        (("[", "[", "["), "net streams more", 4, "form net 0 1"),
        (
            (DIRECT, FULL, flow),
            "net streams more",
            5,
            "rules more top 8",
        ),
        (
            (DIRECT, FULL, BEFORE),
            "net streams more",
            6,
            "unfit overload 0",
        ),
        (cycle, "net streams more", 6, "unfit cycle 0 2 4"),
    ] {
        let command = format!(in alloc; "admit {words}")?;
        let (status, sink) = admitted(alloc, files.0, files.1, files.2, command.as_str())?;
        assert_status(&rt, alloc, &status, number, text)?;
        assert!(rt; sink.octets().is_empty());
    }
    Ok(())
}
