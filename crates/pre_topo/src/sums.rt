ghost use Rattle.std.specs.Prelude.{◌≡◌, ◌≤◌, ◌<◌, ◌^◌, All, sum, sum_by, nat_le};
ghost use Rattle.pre_topo.specs.Arcs.{latency_at, slots_of_arc, wires_of_arc};
ghost use Rattle.pre_topo.specs.FileRules.{sums_fault};
ghost use Rattle.pre_topo.specs.Bounds.{IsBounded};

use crate::{Arc, Node, TopoFault};
use pre_base::{GREATEST_PACKET, NodeId};

fn rings_sum(rings: &[u16; 8]) -> u64
    ensures value { result ≡ sum rings.now }
    ensures small { result ≤ 524280 }
{
    let mut total = 0;
    for ring in rings {
        total += u64::from(*ring);
    }
    total
}

fn latency_at(nodes: &[Node], node: NodeId) -> u64
    ensures { result ≡ latency_at nodes.now node.0 }
{
    match nodes.get(node.0 as usize) {
        None => 0,
        Some(node) => node.latency,
    }
}

fn slots_of_arc(nodes: &[Node], arc: &Arc) -> u64
    requires { IsBounded arc.now }
    ensures value { result ≡ slots_of_arc nodes.now arc.now }
    ensures small { result ≤ 2 ^ 60 }
{
    rings_sum(&arc.rings) + 3 + latency_at(nodes, arc.to) / (84 * arc.cost)
}

fn wires_of_arc(arc: &Arc) -> u64
    requires { IsBounded arc.now }
    ensures value { result ≡ wires_of_arc arc.now }
    ensures small { result ≤ 2 ^ 60 }
{
    arc.delay / arc.cost + GREATEST_PACKET
}

/// The frames that may be kept for the arcs.
pub(crate) fn slots_sum(nodes: &[Node], arcs: &[Arc]) -> u64
    requires costs { All IsBounded arcs.now }
    requires fits { sum_by (slots_of_arc nodes.now) arcs.now < 2 ^ 64 }
    ensures { result ≡ sum_by (slots_of_arc nodes.now) arcs.now }
{
    arcs.iter().map(|arc| slots_of_arc(nodes, arc)).sum()
}

/// The octets that may be on the arcs' wires.
pub(crate) fn wires_sum(arcs: &[Arc]) -> u64
    requires costs { All IsBounded arcs.now }
    requires fits { sum_by wires_of_arc arcs.now < 2 ^ 64 }
    ensures { result ≡ sum_by wires_of_arc arcs.now }
{
    arcs.iter().map(wires_of_arc).sum()
}

/// The greatest count of frames that may be kept.
const MOST_SLOTS: u64 = 60_000;

/// The greatest count of octets that may be on wires.
const MOST_WIRES: u64 = 67_108_864;

fn slots_fit(nodes: &[Node], arcs: &[Arc]) -> bool
    requires { All IsBounded arcs.now }
    ensures { result ≡ nat_le (sum_by (slots_of_arc nodes.now) arcs.now) 60000 }
{
    let mut total = 0;
    for arc in arcs {
        total += slots_of_arc(nodes, arc);
        if total > MOST_SLOTS {
            return false;
        }
    }
    true
}

fn wires_fit(arcs: &[Arc]) -> bool
    requires { All IsBounded arcs.now }
    ensures { result ≡ nat_le (sum_by wires_of_arc arcs.now) 67108864 }
{
    let mut total = 0;
    for arc in arcs {
        total += wires_of_arc(arc);
        if total > MOST_WIRES {
            return false;
        }
    }
    true
}

/// That the arcs take too much of memory.
pub(crate) fn sums_fault(nodes: &[Node], arcs: &[Arc]) -> Option<TopoFault>
    requires { All IsBounded arcs.now }
    ensures { result ≡ sums_fault nodes.now arcs.now }
{
    if !slots_fit(nodes, arcs) {
        return Some(TopoFault::Slots);
    }
    if !wires_fit(arcs) {
        return Some(TopoFault::Wires);
    }
    None
}
