//! Network files: their values, their faults, and what is written and read back.

use pre_base::{ArcId, FileRow, MemorySink, NodeId};
use pre_topo::{
    Arc, Mode, Network, NodeKind, Policy, Timing, TopoFault, put_network, read_network,
};
use std::process::Abort;
use std::test::Fail;

/// Two stations and a link that preempts.
pub const DIRECT: &str = r#"express_from = 4
[[node]]
name = "a"
kind = "station"
[[node]]
name = "b"
kind = "station"
[[link]]
ends = ["a", "b"]
cost = 1
mode = "on"
rings = [64, 64, 64, 64, 64, 64, 64, 64]
"#;

/// The same link, which negotiates.
const NEGOTIATED: &str = r#"express_from = 4
timing = {interval = 100000, ttl = 4, unit = 100000, verify = 1000}
[[node]]
name = "a"
kind = "station"
[[node]]
name = "b"
kind = "station"
[[link]]
ends = ["a", "b"]
cost = 1
mode = "negotiate"
rings = [64, 64, 64, 64, 64, 64, 64, 64]
"#;

/// Two stations and a bridge between them.
pub const BRIDGED: &str = r#"express_from = 4
[[node]]
name = "a"
kind = "station"
[[node]]
name = "m"
kind = "bridge"
latency = 100
[[node]]
name = "b"
kind = "station"
[[link]]
ends = ["a", "m"]
cost = 1
mode = "on"
rings = [64, 64, 64, 64, 64, 64, 64, 64]
[[link]]
ends = ["m", "b"]
cost = 1
mode = "on"
rings = [64, 64, 64, 64, 64, 64, 64, 64]
"#;

/// Two stations, and rings of one frame each.
pub const NARROW: &str = r#"express_from = 4
[[node]]
name = "a"
kind = "station"
[[node]]
name = "b"
kind = "station"
[[link]]
ends = ["a", "b"]
cost = 1
mode = "on"
rings = [1, 1, 1, 1, 1, 1, 1, 1]
"#;

/// Two stations and a link over which frames of up to 2000 octets go whole.
pub const WHOLE_FRAMES: &str = r#"express_from = 4
[[node]]
name = "a"
kind = "station"
[[node]]
name = "b"
kind = "station"
[[link]]
ends = ["a", "b"]
cost = 1
mode = "off"
rings = [64, 64, 64, 64, 64, 64, 64, 64]
largest = 2000
"#;

/// Two stations and a link that preempts, whose preemptable frames have 100 octets at most.
pub const SHORT_FRAMES: &str = r#"express_from = 4
[[node]]
name = "a"
kind = "station"
[[node]]
name = "b"
kind = "station"
[[link]]
ends = ["a", "b"]
cost = 1
mode = "on"
rings = [64, 64, 64, 64, 64, 64, 64, 64]
largest = 100
"#;

/// A bridge between three stations. Priorities are express from 4 on over the first link, and from 6 on over the others.
pub const AREAS: &str = r#"express_from = 4
[[node]]
name = "a"
kind = "station"
[[node]]
name = "m"
kind = "bridge"
latency = 100
[[node]]
name = "b"
kind = "station"
[[node]]
name = "c"
kind = "station"
[[link]]
ends = ["a", "m"]
cost = 1
mode = "on"
rings = [64, 64, 64, 64, 64, 64, 64, 64]
[[link]]
ends = ["m", "b"]
cost = 1
mode = "on"
rings = [64, 64, 64, 64, 64, 64, 64, 64]
express_from = 6
[[link]]
ends = ["c", "m"]
cost = 1
mode = "on"
rings = [64, 64, 64, 64, 64, 64, 64, 64]
express_from = 6
"#;

const STATIONS: &str =
    "node = [{name = \"a\", kind = \"station\"}, {name = \"b\", kind = \"station\"}]\n";

fn arc(from: u16, to: u16) -> Arc {
    Arc {
        from: NodeId(from),
        to: NodeId(to),
        cost: 1,
        delay: 0,
        mode: Mode::On,
        policy: Policy::Quiet,
        add_frag: 0,
        rings: [64; 8],
        express_from: 4,
        largest: 1522,
    }
}

#[test]
fn two_stations(rt: HostRuntime) -> Result<(), Fail> {
    let net = read_network(rt.alloc(), DIRECT.as_bytes())?;
    let usual = Timing {
        interval: 30_000_000_000,
        ttl: 120,
        unit: 1_000_000_000,
        verify: 10_000_000,
    };
    assert_eq!(rt; net.express_from, 4);
    assert_eq!(rt; net.timing, usual);
    assert_eq!(rt; net.arcs.as_slice(), [arc(0, 1), arc(1, 0)].as_slice());
    assert_eq!(rt; net.node_name(NodeId(1)), b"b".as_slice());
    assert_eq!(rt; net.slots(), 1030);
    assert_eq!(rt; net.wires(), 4016);
    Ok(())
}

#[test]
fn a_bridge_between(rt: HostRuntime) -> Result<(), Fail> {
    let net = read_network(rt.alloc(), BRIDGED.as_bytes())?;
    let arcs = [arc(0, 1), arc(1, 0), arc(1, 2), arc(2, 1)];
    assert_eq!(rt; net.arcs.as_slice(), arcs.as_slice());
    let bridge = net.nodes.as_slice().get(1).ok_or("node")?;
    assert_eq!(rt; bridge.kind, NodeKind::Bridge);
    assert_eq!(rt; bridge.latency, 100);
    assert_eq!(rt; net.arc_named(b"m>b"), Some(ArcId(2)));
    assert_eq!(rt; net.slots(), 4 * 515 + 2);
    Ok(())
}

#[test]
fn express_priorities_of_each_link(rt: HostRuntime) -> Result<(), Fail> {
    let net = read_network(rt.alloc(), AREAS.as_bytes())?;
    for (place, least) in [4, 4, 6, 6, 6, 6].iter().enumerate() {
        let arc = net.arcs.as_slice().get(place).ok_or("arc")?;
        assert_eq!(rt; arc.express_from, *least, "{place}");
        assert_eq!(rt; arc.largest, 1522, "{place}");
    }
    let text = format!(in rt.alloc();
        "express_from = 7\n{STATIONS}link = [{{ends = [\"a\", \"b\"], cost = 1, largest = 64}}]\n"
    )?;
    let net = read_network(rt.alloc(), text.as_bytes())?;
    let arc = net.arcs.as_slice().first().ok_or("arc")?;
    assert_eq!(rt; (arc.express_from, arc.largest), (7, 64));
    Ok(())
}

fn assert_same(rt: &impl Abort, a: &Network, b: &Network) {
    assert_eq!(rt; a.express_from, b.express_from);
    assert_eq!(rt; a.timing, b.timing);
    assert_eq!(rt; a.arcs.as_slice(), b.arcs.as_slice());
    assert_eq!(rt; a.nodes.len(), b.nodes.len());
    for (one, other) in a.nodes.as_slice().iter().zip(b.nodes.as_slice()) {
        assert_eq!(rt; one.name.as_str(), other.name.as_str());
        assert_eq!(rt; one.kind, other.kind);
        assert_eq!(rt; one.latency, other.latency);
    }
}

#[test]
fn what_is_written_is_read_back(rt: HostRuntime) -> Result<(), Fail> {
    let alloc = rt.alloc();
    for text in [DIRECT, NEGOTIATED, BRIDGED, NARROW, WHOLE_FRAMES, AREAS] {
        let net = read_network(alloc, text.as_bytes())?;
        let mut sink = MemorySink::make(alloc, 4096, 7, &[])?;
        assert!(rt; put_network(&net, &mut sink).is_ok());
        let back = read_network(alloc, sink.octets())?;
        assert_same(&rt, &net, &back);
    }
    Ok(())
}

#[test]
fn each_fault_of_a_network(rt: HostRuntime) -> Result<(), Fail> {
    let alloc = rt.alloc();
    let top = FileRow::Top;
    for (links, fault) in [
        ("link = [", TopoFault::Toml),
        ("link = 1", TopoFault::Field { row: top }),
        ("link = [1]", TopoFault::Field { row: top }),
        ("links = []", TopoFault::Field { row: top }),
        ("link = []\ntiming = 1", TopoFault::Field { row: top }),
        (
            "link = []\ntiming.ttl = 1.0",
            TopoFault::Field {
                row: FileRow::Timing,
            },
        ),
        (
            "link = [{ends = [\"a\", \"b\"]}]",
            TopoFault::Field {
                row: FileRow::Link(0),
            },
        ),
        (
            "link = [{ends = [\"a\"], cost = 1}]",
            TopoFault::Field {
                row: FileRow::Link(0),
            },
        ),
        (
            "link = [{ends = [\"a\", \"c\"], cost = 0}]",
            TopoFault::End {
                row: FileRow::Link(0),
            },
        ),
        (
            "link = [{ends = [\"a\", \"a\"], cost = 0}]",
            TopoFault::End {
                row: FileRow::Link(0),
            },
        ),
        (
            "link = [{ends = [\"a\", \"b\"], cost = 1}, {ends = [\"b\", \"a\"], cost = 1}]",
            TopoFault::End {
                row: FileRow::Link(1),
            },
        ),
        (
            "link = [{ends = [\"a\", \"b\"], cost = -1}]",
            TopoFault::Range {
                row: FileRow::Link(0),
            },
        ),
        (
            "link = [{ends = [\"a\", \"b\"], cost = 1, mode = \"ON\"}]",
            TopoFault::Range {
                row: FileRow::Link(0),
            },
        ),
        (
            "link = [{ends = [\"a\", \"b\"], cost = 1, express_from = \"4\"}]",
            TopoFault::Field {
                row: FileRow::Link(0),
            },
        ),
        (
            "link = [{ends = [\"a\", \"b\"], cost = 1, express_from = 0}]",
            TopoFault::Range {
                row: FileRow::Link(0),
            },
        ),
        (
            "link = [{ends = [\"a\", \"b\"], cost = 1, largest = 63}]",
            TopoFault::Range {
                row: FileRow::Link(0),
            },
        ),
        (
            "link = [{ends = [\"a\", \"b\"], cost = 1, largest = 2001}]",
            TopoFault::Range {
                row: FileRow::Link(0),
            },
        ),
        ("link = []\nexpress_from = 8", TopoFault::Range { row: top }),
        ("link = []", TopoFault::Count),
        (
            "link = [{ends = [\"a\", \"b\"], cost = 1, rings = [4096, 4096, 4096, 4096, 4096, 4096, 4096, 1326]}]",
            TopoFault::Slots,
        ),
        (
            "link = [{ends = [\"a\", \"b\"], cost = 1, delay = 33552425}]",
            TopoFault::Wires,
        ),
    ] {
        let text = format!(in alloc; "{STATIONS}{links}\n")?;
        assert_eq!(rt;
            read_network(alloc, text.as_bytes()).err(),
            Some(fault),
            "{links}"
        );
    }
    Ok(())
}

#[test]
fn each_fault_of_a_node(rt: HostRuntime) -> Result<(), Fail> {
    let alloc = rt.alloc();
    let row = FileRow::Node(1);
    for (second, fault) in [
        ("{kind = \"station\"}", TopoFault::Field { row }),
        (
            "{name = \"b\", kind = \"station\", delay = 0}",
            TopoFault::Field { row },
        ),
        (
            "{name = \"a\", kind = \"station\"}",
            TopoFault::Name { row },
        ),
        ("{name = \"\", kind = \"station\"}", TopoFault::Name { row }),
        (
            "{name = \"b\", kind = \"station\", latency = 1}",
            TopoFault::Range { row },
        ),
        ("{name = \"b\", kind = \"hub\"}", TopoFault::Range { row }),
    ] {
        let text = format!(in alloc;
            "node = [{{name = \"a\", kind = \"station\"}}, {second}]\nlink = [{{ends = [\"a\", \"b\"], cost = 1}}]\n"
        )?;
        assert_eq!(rt;
            read_network(alloc, text.as_bytes()).err(),
            Some(fault),
            "{second}"
        );
    }
    Ok(())
}

#[test]
fn networks_at_their_limits(rt: HostRuntime) -> Result<(), Fail> {
    let alloc = rt.alloc();
    for link in [
        "{ends = [\"a\", \"b\"], cost = 1, rings = [4096, 4096, 4096, 4096, 4096, 4096, 4096, 1325]}",
        "{ends = [\"a\", \"b\"], cost = 1, delay = 33552424}",
    ] {
        let text = format!(in alloc; "{STATIONS}link = [{link}]\n")?;
        assert!(rt; read_network(alloc, text.as_bytes()).is_ok(), "{link}");
    }
    Ok(())
}

#[test]
fn a_file_of_comments(rt: HostRuntime) -> Result<(), Fail> {
    let alloc = rt.alloc();
    let mut text = Vec::new(alloc);
    for _line in 0..262_144u32 {
        text.extend_from_slice(
            b"# a comment of a line, 63 octets and then the end of that line.\n",
        )?;
    }
    text.extend_from_slice(DIRECT.as_bytes())?;
    assert!(rt; read_network(alloc, text.as_slice()).is_ok());
    Ok(())
}
