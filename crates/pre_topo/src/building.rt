ghost use Rattle.std.specs.Prelude.{◌≡◌, ◌≤◌, ◌<◌, IfOk, IsTrue, length, map, position, unwrap_or, All, true};
ghost use Rattle.std.specs.Option.{option_map_or};
ghost use Rattle.pre_base.specs.declared.limits.TheConstants.{LEAST_FRAME, GREATEST_FRAME};
ghost use Rattle.pre_table.specs.Values.{natural, is_within};
ghost use Rattle.pre_topo.specs.FileRules.{is_named, link_in_range, timing_in_range};
ghost use Rattle.pre_topo.specs.Arcs.{turned};
ghost use Rattle.pre_topo.specs.Made.{timing_made, node_made, node_named, arc_made, arcs_made, nodes_made};

use crate::ranges::{kind_of, mode_of, policy_of};
use crate::raw::{RawLink, RawNode, RawTiming};
use crate::{Arc, Mode, Node, NodeKind, Policy, Timing};
use pre_base::{Items, Name, NodeId};
use pre_table::Whole;
use std::alloc::{AllocError, Global};

pub(crate) fn timing_made(timing: &RawTiming) -> Timing
    ensures { result ≡ timing_made timing.now }
{
    Timing {
        interval: timing.interval.natural(),
        ttl: timing.ttl.natural(),
        unit: timing.unit.natural(),
        verify: timing.verify.natural(),
    }
}

fn node_made(alloc: Global, node: &RawNode) -> Result<Node, AllocError>
    ensures { IfOk result (λ n. n ≡ node_made node.now) }
{
    Ok(Node {
        name: Name::copied(alloc, node.name.as_str())?,
        kind: kind_of(&node.kind).unwrap_or(NodeKind::Station),
        latency: node.latency.natural(),
    })
}

pub(crate) fn nodes_made(alloc: Global, nodes: &[RawNode]) -> Result<Items<Node>, AllocError>
    ensures { IfOk result (λ made. made ≡ nodes_made nodes.now) }
{
    let mut made = Items::new(alloc);
    for node in nodes {
        made.push(node_made(alloc, node)?)?;
    }
    Ok(made)
}

fn place_named(nodes: &[RawNode], name: &Name) -> Option<usize>
    ensures { result ≡ position (is_named name.now) nodes.now }
{
    nodes
        .iter()
        .position(|node| node.name.as_str() == name.as_str())
}

fn node_named(nodes: &[RawNode], name: &Name) -> NodeId
    requires { length nodes.now ≤ 128 }
    ensures { result.0 ≡ node_named nodes.now name.now }
{
    match place_named(nodes, name) {
        None => NodeId(0),
        Some(place) => NodeId(place as u16),
    }
}

fn ring_made(ring: Whole) -> u16
    requires { IsTrue (is_within 1 4096 ring) }
    ensures { result ≡ natural ring }
{
    ring.natural() as u16
}

fn rings_made(rings: &[Whole; 8]) -> [u16; 8]
    requires { All (λ r. IsTrue (is_within 1 4096 r)) rings.now }
    ensures { result ≡ map natural rings.now }
{
    let mut made = [0; 8];
    for (place, ring) in rings.iter().enumerate() {
        made[place] = ring_made(*ring);
    }
    made
}

fn express_from_made(top: Whole, given: Option<Whole>) -> u8
    requires top { IsTrue (is_within 1 7 top) }
    requires given { IsTrue (option_map_or (is_within 1 7) given true) }
    ensures { result ≡ natural (unwrap_or given top) }
{
    given.unwrap_or(top).natural() as u8
}

fn largest_made(largest: Whole) -> u16
    requires { IsTrue (is_within LEAST_FRAME GREATEST_FRAME largest) }
    ensures { result ≡ natural largest }
{
    largest.natural() as u16
}

fn arc_made(top: Whole, nodes: &[RawNode], link: &RawLink) -> Arc
    requires few { length nodes.now ≤ 128 }
    requires top { IsTrue (is_within 1 7 top) }
    requires range { IsTrue (link_in_range link.now) }
    ensures { result ≡ arc_made top nodes.now link.now }
{
    Arc {
        from: node_named(nodes, &link.first),
        to: node_named(nodes, &link.second),
        cost: link.cost.natural(),
        delay: link.delay.natural(),
        mode: mode_of(&link.mode).unwrap_or(Mode::Off),
        policy: policy_of(&link.policy).unwrap_or(Policy::Quiet),
        add_frag: link.add_frag.natural() as u8,
        rings: rings_made(&link.rings),
        express_from: express_from_made(top, link.express_from),
        largest: largest_made(link.largest),
    }
}

fn turned(arc: &Arc) -> Arc
    ensures { result ≡ turned arc.now }
{
    let mut back = *arc;
    back.from = arc.to;
    back.to = arc.from;
    back
}

pub(crate) fn arcs_made(
    alloc: Global,
    top: Whole,
    nodes: &[RawNode],
    links: &[RawLink],
) -> Result<Items<Arc>, AllocError>
    requires few { length nodes.now ≤ 128 }
    requires top { IsTrue (is_within 1 7 top) }
    requires range { All (λ l. IsTrue (link_in_range l)) links.now }
    ensures { IfOk result (λ arcs. arcs ≡ arcs_made top nodes.now links.now) }
{
    let mut arcs = Items::new(alloc);
    for link in links {
        let arc = arc_made(top, nodes, link);
        arcs.push(arc)?;
        arcs.push(turned(&arc))?;
    }
    Ok(arcs)
}
