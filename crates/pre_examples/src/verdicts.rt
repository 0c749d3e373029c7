//! Certificates that are judged and migrated.

use crate::certificates::{PAIR, RING, ROUND, SHORT, TWO_HOPS, short_before};
use crate::networks::{BRIDGED, DIRECT};
use crate::running::{assert_status, wide_sink, words_of};
use crate::streams::{BY_BRIDGE, TWO_ROWS};
use pre_base::{MemoryShelf, Sink};
use pre_cli::{Status, due_verdicts, preempt};
use std::alloc::{AllocError, Global};
use std::test::Fail;

/// The certificate of a stream of short frames before a flow, as version 1 has it.
const OLD_SHORT: &str = "certificate 1
arc a>b 0
port a>b 6 143 84 0 227 84
hop x 0 84
bound x 215
end
";

/// The built-in stream over the built-in link, without ranks.
const PAIR_WITHOUT_RANKS: &str = "certificate 3
arc a>b 1522
port a>b 6 143 2000 0 2143 2214
hop x 0 2000
bound x 2131
end
";

/// Streams that go round three bridges: no ranks rise along their routes.
pub const ROUND_WITHOUT_RANKS: &str = "certificate 3
arc p>q 0
arc q>r 0
arc r>p 0
arc s>p 0
arc p>s 0
arc t>q 0
arc q>t 0
arc u>r 0
arc r>u 0
port p>q 6 84 171 0 255 171
port q>r 6 84 171 0 255 171
port r>p 6 84 171 0 255 171
port s>p 6 84 84 0 168 84
port p>s 6 84 87 0 171 87
port t>q 6 84 84 0 168 84
port q>t 6 84 87 0 171 87
port u>r 6 84 84 0 168 84
port r>u 6 84 87 0 171 87
hop c1 0 84
hop c1 1 85
hop c1 2 86
hop c1 3 87
hop c2 0 84
hop c2 1 85
hop c2 2 86
hop c2 3 87
hop c3 0 84
hop c3 1 85
hop c3 2 86
hop c3 3 87
";

/// Two stations and a link that preempts, over which preemptable frames have up to 1600 octets.
const LONGER_FRAMES: &str = r#"express_from = 4
[[node]]
name = "a"
kind = "station"
[[node]]
name = "b"
kind = "station"
[[link]]
ends = ["a", "b"]
cost = 1
mode = "on"
rings = [64, 64, 64, 64, 64, 64, 64, 64]
largest = 1600
"#;

/// Does a command over three files, `net`, `streams` and `cert`.
fn done_over<S: Sink>(
    alloc: Global,
    (net, streams, certificate): (&str, &str, &str),
    words: &str,
    sink: &mut S,
) -> Result<Status, AllocError> {
    let mut shelf = MemoryShelf::make(alloc, &[])?;
    shelf.put("net", net.as_bytes())?;
    shelf.put("streams", streams.as_bytes())?;
    shelf.put("cert", certificate.as_bytes())?;
    let words = words_of(alloc, words)?;
    Ok(preempt(alloc, words.as_slice(), &mut shelf, sink))
}

#[test]
fn good_certificates(rt: HostRuntime) -> Result<(), Fail> {
    let alloc = rt.alloc();
    let short = short_before(alloc, 1522)?;
    let round = format!(in alloc;
        "{ROUND_WITHOUT_RANKS}bound c1 801\nbound c2 801\nbound c3 801\nend\n"
    )?;
    for (net, streams, certificate, migrated) in [
        (DIRECT, short.as_str(), OLD_SHORT, SHORT),
        (DIRECT, TWO_ROWS, PAIR, PAIR),
        (DIRECT, TWO_ROWS, PAIR_WITHOUT_RANKS, PAIR_WITHOUT_RANKS),
        (BRIDGED, BY_BRIDGE, TWO_HOPS, TWO_HOPS),
        (RING, ROUND, round.as_str(), round.as_str()),
    ] {
        let files = (net, streams, certificate);
        let mut sink = wide_sink(alloc)?;
        let status = done_over(alloc, files, "judge net streams cert", &mut sink)?;
        assert_eq!(rt; status.number(), 0, "{certificate}");
        assert_eq!(rt; sink.octets(), b"accepted\n".as_slice());
        let mut sink = wide_sink(alloc)?;
        let status = done_over(alloc, files, "migrate net streams cert", &mut sink)?;
        assert_eq!(rt; status.number(), 0, "{certificate}");
        assert_eq!(rt; sink.octets(), migrated.as_bytes());
    }
    due_verdicts();
    Ok(())
}

#[test]
fn certificates_that_are_not_good(rt: HostRuntime) -> Result<(), Fail> {
    let alloc = rt.alloc();
    let short = short_before(alloc, 1522)?;
    let late = format!(in alloc;
        "{ROUND_WITHOUT_RANKS}bound c1 800\nbound c2 801\nbound c3 801\nend\n"
    )?;
    let soon =
        "certificate 2\narc a>m 0 1522\narc m>b 1 1522\nport a>m 6 143 84 0 227 84\nport m>b 6 143 85 0 227 85\nhop x 0 84\nhop x 1 85\nbound x 531\nend\n";
    for (net, streams, certificate, number, text) in [
        (LONGER_FRAMES, short.as_str(), OLD_SHORT, 7, "rejected 11 2"),
        (BRIDGED, BY_BRIDGE, soon, 7, "rejected 6 5"),
        (RING, ROUND, late.as_str(), 7, "rejected 10 32"),
        (DIRECT, TWO_ROWS, "certificate 4\n", 4, "form cert 1 1"),
        (DIRECT, TWO_ROWS, "", 4, "form cert 1 4"),
        (DIRECT, "[", "certificate 4\n", 4, "form streams 0 1"),
        ("node = []", "[", "", 5, "rules net top 2"),
    ] {
        for words in ["judge net streams cert", "migrate net streams cert"] {
            let mut sink = wide_sink(alloc)?;
            let files = (net, streams, certificate);
            let status = done_over(alloc, files, words, &mut sink)?;
            assert_status(&rt, alloc, &status, number, text)?;
            assert!(rt; sink.octets().is_empty());
        }
    }
    let mut sink = wide_sink(alloc)?;
    let words = "judge pair pair none";
    let status = done_over(alloc, ("", "", ""), words, &mut sink)?;
    assert_status(&rt, alloc, &status, 2, "read fault")?;
    Ok(())
}
