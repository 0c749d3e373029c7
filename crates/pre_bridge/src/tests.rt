ghost use Rattle.std.specs.Prelude.{◌≡◌, ◌∷◌, [], codes, IfOk, None};
ghost use Rattle.pre_topo.specs.Pair.{station, default_timing};
ghost use Rattle.pre_bridge.specs.Sample.{bridge, between};

use super::*;
use pre_base::{ArcId, FrameNo, Items, Name, NodeId, Prio, Tick};
use pre_rings::{FrameRef, FrameStore};
use pre_streams::{Row, Streams};
use pre_topo::{Arc, Mode, Network, Node, NodeKind, Policy, Timing};
use std::alloc::{AllocError, Global};
use std::test::Fail;

fn node(alloc: Global, name: &str, kind: NodeKind, latency: u64) -> Result<Node, AllocError>
    ensures { IfOk result (λ n. n ≡ record { name = name.now; kind = kind; latency = latency }) }
{
    Ok(Node {
        name: Name::copied(alloc, name)?,
        kind,
        latency,
    })
}

fn nodes(alloc: Global) -> Result<Items<Node>, AllocError>
    ensures { IfOk result (λ nodes. nodes ≡ station (codes "a") ∷ bridge (codes "m") ∷ station (codes "b") ∷ []) }
{
    let mut nodes = Items::new(alloc);
    nodes.push(node(alloc, "a", NodeKind::Station, 0)?)?;
    nodes.push(node(alloc, "m", NodeKind::Bridge, 100)?)?;
    nodes.push(node(alloc, "b", NodeKind::Station, 0)?)?;
    Ok(nodes)
}

fn arc(from: u16, to: u16) -> Arc
    ensures { result ≡ between from to }
{
    Arc {
        from: NodeId(from),
        to: NodeId(to),
        cost: 1,
        delay: 0,
        mode: Mode::On,
        policy: Policy::Quiet,
        add_frag: 0,
        rings: [64; 8],
        express_from: 4,
        largest: 1522,
    }
}

fn arcs(alloc: Global) -> Result<Items<Arc>, AllocError>
    ensures { IfOk result (λ arcs. arcs ≡ between 0 1 ∷ between 1 0 ∷ between 1 2 ∷ between 2 1 ∷ []) }
{
    let arcs = [arc(0, 1), arc(1, 0), arc(1, 2), arc(2, 1)];
    Ok(Items::from_vec(arcs.to_vec(alloc)?))
}

fn timing() -> Timing
    ensures { result ≡ default_timing }
{
    Timing {
        interval: 30_000_000_000,
        ttl: 120,
        unit: 1_000_000_000,
        verify: 10_000_000,
    }
}

// Stations a and b, and between them the bridge m, which keeps a frame for 100 ticks.
fn line(alloc: Global) -> Result<Network, AllocError> {
    Ok(Network {
        express_from: 4,
        timing: timing(),
        nodes: nodes(alloc)?,
        arcs: arcs(alloc)?,
    })
}

fn row(alloc: Global, vid: u16, route: [u16; 3], arcs: [u16; 2]) -> Result<Row, AllocError> {
    let [first, second, third] = route;
    let [there, on] = arcs;
    Ok(Row {
        name: Name::copied(alloc, "x")?,
        vid,
        prio: Prio(6),
        route: Items::from_vec([NodeId(first), NodeId(second), NodeId(third)].to_vec(alloc)?),
        arcs: Items::from_vec([ArcId(there), ArcId(on)].to_vec(alloc)?),
        max: 1522,
        curve: None,
    })
}

// VID 10 leads from a to b, and VID 20 back.
fn ways(alloc: Global) -> Result<Streams, AllocError> {
    let mut rows = Items::new(alloc);
    rows.push(row(alloc, 10, [0, 1, 2], [0, 2])?)?;
    rows.push(row(alloc, 20, [2, 1, 0], [3, 1])?)?;
    Ok(Streams { rows })
}

fn frame(store: &mut FrameStore, number: u32, vid: u16) -> Option<FrameRef> {
    let slot = store.take_slot()?;
    Some(FrameRef {
        slot,
        frame: FrameNo(number),
        size: 64,
        prio: Prio(6),
        vid,
    })
}

// Delivers a frame where it may be delivered, and says whether it was kept.
fn arrives(relay: &mut Relay, now: u64, arc: u16, frame: FrameRef) -> bool {
    if now < relay.latest.0 || now > 1_000_000_000_000_000_000 {
        return false;
    }
    if !relay.room(ArcId(arc)) {
        return false;
    }
    relay.deliver(Tick(now), ArcId(arc), frame).is_ok()
}

// The arc and number of the frame that comes out.
fn comes_out(relay: &mut Relay, now: u64) -> Option<(u16, u32)> {
    let (arc, frame) = relay.take_due(Tick(now))?;
    Some((arc.0, frame.frame.0))
}

#[test]
fn through_a_bridge(rt: HostRuntime) -> Result<(), Fail> {
    let mut store = FrameStore::make(rt.alloc(), 8)?;
    let mut relay = Relay::make(rt.alloc(), &line(rt.alloc())?, &ways(rt.alloc())?)?;
    assert_eq!(rt; relay.due(), None);
    for (number, now, arc, vid, kept) in [
        (0, 5, 0, 10, true),
        (1, 6, 3, 20, true),
        (2, 7, 2, 10, false),
        (3, 8, 0, 30, false),
        (4, 89, 0, 10, true),
        (5, 90, 0, 10, false),
    ] {
        let arrived = frame(&mut store, number, vid).ok_or("no slot is in")?;
        assert_eq!(rt; arrives(&mut relay, now, arc, arrived), kept, "{number}");
    }
    for (arc, room) in [(0, false), (1, true), (2, true), (3, true), (4, false)] {
        assert_eq!(rt; relay.room(ArcId(arc)), room, "{arc}");
    }
    assert_eq!(rt; relay.due(), Some(Tick(105)));
    for (now, out) in [
        (104, None),
        (105, Some((2, 0))),
        (105, None),
        (200, Some((2, 4))),
        (200, Some((1, 1))),
        (200, None),
    ] {
        assert_eq!(rt; comes_out(&mut relay, now), out, "{now}");
    }
    assert_eq!(rt; relay.due(), None);
    Ok(())
}
