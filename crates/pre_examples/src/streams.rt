//! Stream files: their values and their faults.

use crate::networks::{AREAS, BRIDGED, DIRECT};
use pre_base::{ArcId, FileRow, NodeId, StreamId};
use pre_streams::{StreamFault, Streams, read_streams};
use pre_topo::read_network;
use std::alloc::Global;
use std::test::Fail;

/// An express stream, and a flow.
pub const TWO_ROWS: &str =
    "[[stream]]\nname = \"x\"\nvid = 10\nprio = 6\nroute = [\"a\", \"b\"]\nmax = 1522\nburst = 2000\nrate = 100000\n[[flow]]\nname = \"y\"\nvid = 20\nprio = 0\nroute = [\"a\", \"b\"]\nmax = 1522\n";

/// The same rows by way of the bridge, with a stream of short frames.
pub const BY_BRIDGE: &str = r#"[[stream]]
name = "x"
vid = 10
prio = 6
route = ["a", "m", "b"]
max = 64
burst = 84
rate = 1000
[[flow]]
name = "y"
vid = 20
prio = 0
route = ["a", "m", "b"]
max = 1522
"#;

/// Two streams and a flow.
pub const THREE_ROWS: &str = r#"[[stream]]
name = "x"
vid = 10
prio = 6
route = ["a", "b"]
max = 64
burst = 84
rate = 1000
[[stream]]
name = "z"
vid = 11
prio = 7
route = ["a", "b"]
max = 500
burst = 520
rate = 10000
[[flow]]
name = "y"
vid = 20
prio = 0
route = ["a", "b"]
max = 1522
"#;

/// A stream that changes areas, and a flow that joins it in the second one.
pub const ACROSS_AREAS: &str = r#"[[stream]]
name = "x"
vid = 10
prio = 6
route = ["a", "m", "b"]
max = 64
burst = 84
rate = 1000
[[flow]]
name = "y"
vid = 20
prio = 5
route = ["c", "m", "b"]
max = 1522
"#;

fn read(alloc: Global, net: &str, text: &str) -> Result<Result<Streams, StreamFault>, Fail> {
    let net = read_network(alloc, net.as_bytes())?;
    Ok(read_streams(alloc, text.as_bytes(), &net))
}

#[test]
fn a_stream_and_a_flow(rt: HostRuntime) -> Result<(), Fail> {
    let streams = read(rt.alloc(), DIRECT, TWO_ROWS)??;
    let rows = streams.rows.as_slice();
    let stream = rows.first().ok_or("stream")?;
    let curve = stream.curve.ok_or("curve")?;
    assert_eq!(rt; stream.name.as_str(), "x");
    assert_eq!(rt; stream.vid, 10);
    assert_eq!(rt; stream.prio.number(), 6);
    assert_eq!(rt; stream.route.as_slice(), [NodeId(0), NodeId(1)].as_slice());
    assert_eq!(rt; stream.arcs.as_slice(), [ArcId(0)].as_slice());
    assert_eq!(rt; stream.max, 1522);
    assert_eq!(rt; (curve.burst, curve.rate), (2000, 100_000));
    let flow = rows.get(1).ok_or("flow")?;
    assert!(rt; flow.curve.is_none());
    assert_eq!(rt; streams.stream_named(b"y"), Some(StreamId(1)));
    Ok(())
}

#[test]
fn routes_by_way_of_a_bridge(rt: HostRuntime) -> Result<(), Fail> {
    let streams = read(rt.alloc(), BRIDGED, BY_BRIDGE)??;
    assert_eq!(rt; streams.next_arc(NodeId(0), 10), Some(ArcId(0)));
    assert_eq!(rt; streams.next_arc(NodeId(1), 10), Some(ArcId(2)));
    assert_eq!(rt; streams.next_arc(NodeId(2), 10), None);
    assert_eq!(rt; streams.next_arc(NodeId(1), 20), Some(ArcId(2)));
    Ok(())
}

#[test]
fn no_row_and_three_rows(rt: HostRuntime) -> Result<(), Fail> {
    let alloc = rt.alloc();
    assert!(rt; read(alloc, DIRECT, "")??.rows.is_empty());
    let streams = read(alloc, DIRECT, THREE_ROWS)??;
    assert_eq!(rt; streams.rows.len(), 3);
    assert_eq!(rt; streams.stream_named(b"z"), Some(StreamId(1)));
    assert_eq!(rt; streams.stream_named(b"y"), Some(StreamId(2)));
    Ok(())
}

#[test]
fn classes_of_each_arc(rt: HostRuntime) -> Result<(), Fail> {
    let alloc = rt.alloc();
    assert_eq!(rt; read(alloc, AREAS, ACROSS_AREAS)??.rows.len(), 2);
    let (stream, flow) = (FileRow::Stream(0), FileRow::Flow(0));
    for (rows, fault) in [
        (
            "stream = [{name = \"x\", vid = 1, prio = 5, route = [\"a\", \"m\", \"b\"], max = 64, burst = 84, rate = 1}]",
            StreamFault::Class { row: stream },
        ),
        (
            "flow = [{name = \"y\", vid = 1, prio = 5, route = [\"a\", \"m\", \"b\"], max = 64}]",
            StreamFault::Class { row: flow },
        ),
        (
            "flow = [{name = \"y\", vid = 1, prio = 5, route = [\"c\", \"m\", \"b\"], max = 1523}]",
            StreamFault::Range { row: flow },
        ),
        (
            "flow = [{name = \"y\", vid = 1, prio = 9, route = [\"a\"], max = 64}]",
            StreamFault::Range { row: flow },
        ),
    ] {
        assert_eq!(rt; read(alloc, AREAS, rows)?.err(), Some(fault), "{rows}");
    }
    let long =
        "stream = [{name = \"x\", vid = 1, prio = 7, route = [\"a\", \"m\", \"b\"], max = 2000, burst = 2020, rate = 1}]";
    assert_eq!(rt; read(alloc, AREAS, long)??.rows.len(), 1);
    Ok(())
}

#[test]
fn each_fault_of_a_stream(rt: HostRuntime) -> Result<(), Fail> {
    let alloc = rt.alloc();
    let row = FileRow::Stream(0);
    for (fields, fault) in [
        (
            "vid = 1, prio = 6, route = [\"a\", \"b\"], max = 64, burst = 84, rate = 1}",
            StreamFault::Toml,
        ),
        (
            "{name = \"x\", vid = 1, prio = 6, route = [\"a\", \"b\"], max = 64, burst = 84}",
            StreamFault::Field { row },
        ),
        (
            "{name = \"x y\", vid = 1, prio = 6, route = [\"a\", \"b\"], max = 64, burst = 84, rate = 1}",
            StreamFault::Name { row },
        ),
        (
            "{name = \"x\", vid = 1, prio = 6, route = [\"a\", \"c\"], max = 64, burst = 84, rate = 1}",
            StreamFault::Route { row, hop: 1 },
        ),
        (
            "{name = \"x\", vid = 1, prio = 6, route = [\"a\", \"a\"], max = 64, burst = 84, rate = 1}",
            StreamFault::Route { row, hop: 1 },
        ),
        (
            "{name = \"x\", vid = 1, prio = 3, route = [\"a\", \"b\"], max = 64, burst = 84, rate = 1}",
            StreamFault::Class { row },
        ),
        (
            "{name = \"x\", vid = 1, prio = -1, route = [\"a\", \"b\"], max = 64, burst = 84, rate = 1}",
            StreamFault::Class { row },
        ),
        (
            "{name = \"x\", vid = 1, prio = 9, route = [\"a\", \"b\"], max = 64, burst = 84, rate = 1}",
            StreamFault::Range { row },
        ),
        (
            "{name = \"x\", vid = 1, prio = 6, route = [], max = 64, burst = 84, rate = 1}",
            StreamFault::Range { row },
        ),
        (
            "{name = \"x\", vid = 1, prio = 6, route = [\"a\", \"b\"], max = 64, burst = 83, rate = 1}",
            StreamFault::Range { row },
        ),
        (
            "{name = \"x\", vid = 1, prio = 6, route = [\"a\", \"b\"], max = 2001, burst = 2021, rate = 1}",
            StreamFault::Range { row },
        ),
        (
            "{name = \"x\", vid = 1, prio = 6, route = [\"a\", \"b\"], max = 65, burst = 84, rate = 1}",
            StreamFault::Burst { row },
        ),
    ] {
        let text = format!(in alloc; "stream = [{fields}]\n")?;
        assert_eq!(rt;
            read(alloc, DIRECT, text.as_str())?.err(),
            Some(fault),
            "{fields}"
        );
    }
    Ok(())
}

#[test]
fn each_fault_of_a_flow(rt: HostRuntime) -> Result<(), Fail> {
    let alloc = rt.alloc();
    let row = FileRow::Flow(0);
    for (fields, fault) in [
        (
            "{name = \"y\", vid = 2, prio = 0, route = [\"a\", \"m\", \"b\"], max = 64, burst = 84}",
            StreamFault::Field { row },
        ),
        (
            "{name = \"x\", vid = 2, prio = 0, route = [\"a\", \"m\", \"b\"], max = 64}",
            StreamFault::Name { row },
        ),
        (
            "{name = \"y\", vid = 2, prio = 0, route = [\"a\", \"m\"], max = 64}",
            StreamFault::Route { row, hop: 1 },
        ),
        (
            "{name = \"y\", vid = 2, prio = 0, route = [\"a\", \"b\"], max = 64}",
            StreamFault::Route { row, hop: 1 },
        ),
        (
            "{name = \"y\", vid = 1, prio = 0, route = [\"b\", \"m\", \"a\"], max = 64}",
            StreamFault::Route { row, hop: 0 },
        ),
        (
            "{name = \"y\", vid = 2, prio = 9, route = [\"a\", \"m\", \"b\"], max = 64}",
            StreamFault::Class { row },
        ),
        (
            "{name = \"y\", vid = 2, prio = -1, route = [\"a\", \"m\", \"b\"], max = 64}",
            StreamFault::Range { row },
        ),
    ] {
        let text = format!(in alloc;
            "stream = [{{name = \"x\", vid = 1, prio = 6, route = [\"a\", \"m\", \"b\"], max = 64, burst = 84, rate = 1}}]\nflow = [{fields}]\n"
        )?;
        assert_eq!(rt;
            read(alloc, BRIDGED, text.as_str())?.err(),
            Some(fault),
            "{fields}"
        );
    }
    Ok(())
}
