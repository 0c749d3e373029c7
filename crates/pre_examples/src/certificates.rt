//! Certificates of networks and streams, and why there are none.

use crate::networks::{AREAS, BRIDGED, DIRECT, NARROW, SHORT_FRAMES, WHOLE_FRAMES};
use crate::running::{assert_status, wide_sink, words_of};
use crate::streams::{ACROSS_AREAS, BY_BRIDGE, THREE_ROWS, TWO_ROWS};
use crate::verdicts::ROUND_WITHOUT_RANKS;
use pre_base::{MemoryShelf, Sink};
use pre_cli::{Status, due_certificates, preempt};
use std::alloc::{AllocError, Global};
use std::test::Fail;

/// The built-in stream over the built-in link.
pub const PAIR: &str = "certificate 2
arc a>b 0 1522
port a>b 6 143 2000 0 2143 2214
hop x 0 2000
bound x 2131
end
";

/// Two arcs: the second delay is one tick longer, as the burst has grown by an octet.
pub const TWO_HOPS: &str = "certificate 2
arc a>m 0 1522
arc m>b 1 1522
port a>m 6 143 84 0 227 84
port m>b 6 143 85 0 228 85
hop x 0 84
hop x 1 85
bound x 531
end
";

/// A stream of priority 7 before one of priority 6.
pub const TWO_PRIORITIES: &str = "certificate 2
arc a>b 0 1522
port a>b 6 143 604 10000 754 84
port a>b 7 143 520 0 663 526
hop x 0 84
hop z 0 520
bound x 742
bound z 651
end
";

/// A stream of short frames, before a flow whose frames are cut.
pub const SHORT: &str = "certificate 2
arc a>b 0 1522
port a>b 6 143 84 0 227 84
hop x 0 84
bound x 215
end
";

/// The same stream, where frames of up to 2000 octets go whole.
const BEHIND_WHOLE_FRAMES: &str = "certificate 2
arc a>b 0 2000
port a>b 6 2020 84 0 2104 86
hop x 0 84
bound x 2092
end
";

/// And where no frame has more than 100 octets, which is less than a fragment that can't be cut.
const BEHIND_SHORT_FRAMES: &str = "certificate 2
arc a>b 0 100
port a>b 6 120 84 0 204 84
hop x 0 84
bound x 192
end
";

/// Two arcs, of which a flow uses the second one.
const FLOW_ON_ONE_ARC: &str = "certificate 2
arc a>m 0 0
arc m>b 1 1522
port a>m 6 84 84 0 168 84
port m>b 6 143 85 0 228 85
hop x 0 84
hop x 1 85
bound x 472
end
";

/// A stream of short frames, and behind it a flow with frames of up to this many octets.
pub fn short_before(alloc: Global, max: u16) -> Result<String, AllocError> {
    format!(in alloc;
        "[[stream]]\nname = \"x\"\nvid = 10\nprio = 6\nroute = [\"a\", \"b\"]\nmax = 64\nburst = 84\nrate = 1000\n[[flow]]\nname = \"y\"\nvid = 20\nprio = 0\nroute = [\"a\", \"b\"]\nmax = {max}\n"
    )
}

/// Streams that want all of an arc's time.
pub const FULL: &str = r#"[[stream]]
name = "x"
vid = 1
prio = 6
route = ["a", "b"]
max = 64
burst = 84
rate = 600000
[[stream]]
name = "z"
vid = 2
prio = 6
route = ["a", "b"]
max = 64
burst = 84
rate = 400000
"#;

/// Three bridges in a ring, with a station at each.
pub const RING: &str = r#"express_from = 4
[[node]]
name = "p"
kind = "bridge"
[[node]]
name = "q"
kind = "bridge"
[[node]]
name = "r"
kind = "bridge"
[[node]]
name = "s"
kind = "station"
[[node]]
name = "t"
kind = "station"
[[node]]
name = "u"
kind = "station"
[[link]]
ends = ["p", "q"]
cost = 1
mode = "on"
rings = [64, 64, 64, 64, 64, 64, 64, 64]
[[link]]
ends = ["q", "r"]
cost = 1
mode = "on"
rings = [64, 64, 64, 64, 64, 64, 64, 64]
[[link]]
ends = ["r", "p"]
cost = 1
mode = "on"
rings = [64, 64, 64, 64, 64, 64, 64, 64]
[[link]]
ends = ["s", "p"]
cost = 1
mode = "on"
rings = [64, 64, 64, 64, 64, 64, 64, 64]
[[link]]
ends = ["t", "q"]
cost = 1
mode = "on"
rings = [64, 64, 64, 64, 64, 64, 64, 64]
[[link]]
ends = ["u", "r"]
cost = 1
mode = "on"
rings = [64, 64, 64, 64, 64, 64, 64, 64]
"#;

/// Streams that go round, each by the arcs between three bridges and those to and from stations.
pub const ROUND: &str = r#"[[stream]]
name = "c1"
vid = 1
prio = 6
route = ["s", "p", "q", "r", "u"]
max = 64
burst = 84
rate = 1000
[[stream]]
name = "c2"
vid = 2
prio = 6
route = ["t", "q", "r", "p", "s"]
max = 64
burst = 84
rate = 1000
[[stream]]
name = "c3"
vid = 3
prio = 6
route = ["u", "r", "p", "q", "t"]
max = 64
burst = 84
rate = 1000
"#;

/// Five bridges in a ring, with a station at each.
const RING_OF_FIVE: &str = r#"express_from = 4
node = [
    {name = "g0", kind = "bridge"},
    {name = "g1", kind = "bridge"},
    {name = "g2", kind = "bridge"},
    {name = "g3", kind = "bridge"},
    {name = "g4", kind = "bridge"},
    {name = "h0", kind = "station"},
    {name = "h1", kind = "station"},
    {name = "h2", kind = "station"},
    {name = "h3", kind = "station"},
    {name = "h4", kind = "station"},
]
link = [
    {ends = ["g0", "g1"], cost = 1, mode = "on", rings = [64, 64, 64, 64, 64, 64, 64, 64]},
    {ends = ["g1", "g2"], cost = 1, mode = "on", rings = [64, 64, 64, 64, 64, 64, 64, 64]},
    {ends = ["g2", "g3"], cost = 1, mode = "on", rings = [64, 64, 64, 64, 64, 64, 64, 64]},
    {ends = ["g3", "g4"], cost = 1, mode = "on", rings = [64, 64, 64, 64, 64, 64, 64, 64]},
    {ends = ["g4", "g0"], cost = 1, mode = "on", rings = [64, 64, 64, 64, 64, 64, 64, 64]},
    {ends = ["h0", "g0"], cost = 1, mode = "on", rings = [64, 64, 64, 64, 64, 64, 64, 64]},
    {ends = ["h1", "g1"], cost = 1, mode = "on", rings = [64, 64, 64, 64, 64, 64, 64, 64]},
    {ends = ["h2", "g2"], cost = 1, mode = "on", rings = [64, 64, 64, 64, 64, 64, 64, 64]},
    {ends = ["h3", "g3"], cost = 1, mode = "on", rings = [64, 64, 64, 64, 64, 64, 64, 64]},
    {ends = ["h4", "g4"], cost = 1, mode = "on", rings = [64, 64, 64, 64, 64, 64, 64, 64]},
]
"#;

/// Five streams, each over four links of the ring, that want four fifths of its time.
const ROUND_OF_FIVE: &str = r#"stream = [
    {name = "c0", vid = 1, prio = 6, route = ["h0", "g0", "g1", "g2", "g3", "g4", "h4"], max = 64, burst = 84, rate = 200000},
    {name = "c1", vid = 2, prio = 6, route = ["h1", "g1", "g2", "g3", "g4", "g0", "h0"], max = 64, burst = 84, rate = 200000},
    {name = "c2", vid = 3, prio = 6, route = ["h2", "g2", "g3", "g4", "g0", "g1", "h1"], max = 64, burst = 84, rate = 200000},
    {name = "c3", vid = 4, prio = 6, route = ["h3", "g3", "g4", "g0", "g1", "g2", "h2"], max = 64, burst = 84, rate = 200000},
    {name = "c4", vid = 5, prio = 6, route = ["h4", "g4", "g0", "g1", "g2", "g3", "h3"], max = 64, burst = 84, rate = 200000},
]
"#;

/// Two stations and a link on which an octet takes 1000 ticks.
const SLOW: &str = r#"express_from = 4
[[node]]
name = "a"
kind = "station"
[[node]]
name = "b"
kind = "station"
[[link]]
ends = ["a", "b"]
cost = 1000
mode = "on"
rings = [64, 64, 64, 64, 64, 64, 64, 64]
"#;

/// A stream of the greatest burst.
const GREATEST: &str =
    "[[stream]]\nname = \"x\"\nvid = 10\nprio = 6\nroute = [\"a\", \"b\"]\nmax = 64\nburst = 1000000000\nrate = 1\n";

/// Certifies the streams of two files, `net` and `streams`.
fn certified<S: Sink>(
    alloc: Global,
    net: &str,
    streams: &str,
    words: &str,
    sink: &mut S,
) -> Result<Status, AllocError> {
    let mut shelf = MemoryShelf::make(alloc, &[])?;
    shelf.put("net", net.as_bytes())?;
    shelf.put("streams", streams.as_bytes())?;
    let words = words_of(alloc, words)?;
    Ok(preempt(alloc, words.as_slice(), &mut shelf, sink))
}

#[test]
fn worked_certificates(rt: HostRuntime) -> Result<(), Fail> {
    let alloc = rt.alloc();
    let round = format!(in alloc;
        "{ROUND_WITHOUT_RANKS}bound c1 801\nbound c2 801\nbound c3 801\nend\n"
    )?;
    for (net, streams, words, text) in [
        ("", "", "certify pair pair", PAIR),
        (DIRECT, TWO_ROWS, "certify net streams", PAIR),
        (BRIDGED, BY_BRIDGE, "certify net streams", TWO_HOPS),
        ("", THREE_ROWS, "certify pair streams", TWO_PRIORITIES),
        (RING, ROUND, "certify net streams", round.as_str()),
    ] {
        let mut sink = wide_sink(alloc)?;
        let status = certified(alloc, net, streams, words, &mut sink)?;
        assert_eq!(rt; status.number(), 0);
        assert_eq!(rt; sink.octets(), text.as_bytes());
    }
    due_certificates();
    Ok(())
}

#[test]
fn preemptable_frames_of_each_arc(rt: HostRuntime) -> Result<(), Fail> {
    let alloc = rt.alloc();
    for (net, max, text) in [
        (DIRECT, 1522, SHORT),
        (WHOLE_FRAMES, 2000, BEHIND_WHOLE_FRAMES),
        (SHORT_FRAMES, 100, BEHIND_SHORT_FRAMES),
    ] {
        let streams = short_before(alloc, max)?;
        let mut sink = wide_sink(alloc)?;
        let words = "certify net streams";
        let status = certified(alloc, net, streams.as_str(), words, &mut sink)?;
        assert_eq!(rt; status.number(), 0, "{max}");
        assert_eq!(rt; sink.octets(), text.as_bytes(), "{max}");
    }
    let mut sink = wide_sink(alloc)?;
    let status = certified(alloc, AREAS, ACROSS_AREAS, "certify net streams", &mut sink)?;
    assert_eq!(rt; status.number(), 0);
    assert_eq!(rt; sink.octets(), FLOW_ON_ONE_ARC.as_bytes());
    Ok(())
}

#[test]
fn flows_that_a_link_refuses(rt: HostRuntime) -> Result<(), Fail> {
    let alloc = rt.alloc();
    let long = short_before(alloc, 2000)?;
    let express = format!(in alloc;
        "[[flow]]\nname = \"y\"\nvid = 20\nprio = 5\nroute = [\"a\", \"m\", \"b\"]\nmax = 1522\n"
    )?;
    for (net, streams, text) in [
        (AREAS, express.as_str(), "rules streams flow 0 5"),
        (DIRECT, long.as_str(), "rules streams flow 0 6"),
    ] {
        let mut sink = wide_sink(alloc)?;
        let status = certified(alloc, net, streams, "certify net streams", &mut sink)?;
        assert_status(&rt, alloc, &status, 5, text)?;
    }
    Ok(())
}

#[test]
fn refusals(rt: HostRuntime) -> Result<(), Fail> {
    let alloc = rt.alloc();
    for (net, streams, words, number, text) in [
        (DIRECT, FULL, "certify net streams", 6, "unfit overload 0"),
        (
            NARROW,
            TWO_ROWS,
            "certify net streams",
            6,
            "unfit ring 0 6 26",
        ),
        (
            BRIDGED,
            "stream = 1",
            "certify net streams",
            5,
            "rules streams top 2",
        ),
        (
            "node = [{}]\nlink = []",
            "[",
            "certify net streams",
            5,
            "rules net node 0 2",
        ),
        (SLOW, GREATEST, "certify net streams", 6, "unfit large 0 6"),
        (
            RING_OF_FIVE,
            ROUND_OF_FIVE,
            "certify net streams",
            6,
            "unfit large 0 6",
        ),
        (DIRECT, "[", "certify net streams", 4, "form streams 0 1"),
        (DIRECT, TWO_ROWS, "certify none streams", 2, "read fault"),
    ] {
        let mut sink = wide_sink(alloc)?;
        let status = certified(alloc, net, streams, words, &mut sink)?;
        assert_status(&rt, alloc, &status, number, text)?;
        assert!(rt; sink.octets().is_empty());
    }
    Ok(())
}
