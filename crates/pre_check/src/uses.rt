ghost use Rattle.std.specs.Prelude.{◌≡◌, ℕ, ◌+◌, ◌*◌, ◌<◌, ◌≤◌, ◌^◌, length};
ghost use Rattle.pre_topo.specs.Arcs.{latency_at};
ghost use Rattle.pre_bound.specs.Uses.{takes, is_on, has_flow, hop_of, rate_of, burst_of, rates_on, cost_at, ring_at, fragment_octets, preemptable_octets, preemptable_at, largest_at};
ghost use Rattle.pre_bound.specs.Along.{hop_ticks};

use pre_base::{ArcId, NodeId, OVERHEAD, Prio};
use pre_streams::Row;
use pre_topo::{Arc, Mode, Network, Policy};

/// Whether the row's route takes the arc.
fn takes(row: &Row, arc: ArcId) -> bool
    ensures { result ≡ takes arc.0 row.now }
{
    row.arcs.as_slice().iter().any(|a| a.0 == arc.0)
}

/// Whether the row is a stream on the arc, with a priority from the low one up to below the high one.
pub(crate) fn is_on(row: &Row, arc: ArcId, low: u8, high: u8) -> bool
    ensures { result ≡ is_on arc.0 low high row.now }
{
    let prio = row.prio.number();
    row.curve.is_some() && low <= prio && prio < high && takes(row, arc)
}

/// Whether a flow's route takes the arc.
pub(crate) fn has_flow(rows: &[Row], arc: ArcId) -> bool
    ensures { result ≡ has_flow rows.now arc.0 }
{
    rows.iter()
        .any(|row| row.curve.is_none() && takes(row, arc))
}

/// The hop at which the route takes the arc, and the number of its hops where it doesn't.
pub(crate) fn hop_of(row: &Row, arc: ArcId) -> u64
    ensures { result ≡ hop_of arc.0 row.now }
{
    let arcs = row.arcs.as_slice();
    for (hop, a) in arcs.iter().enumerate() {
        if a.0 == arc.0 {
            return hop as u64;
        }
    }
    arcs.len() as u64
}

/// The rate of a stream, and 0 of a flow.
pub(crate) fn rate_of(row: &Row) -> u64
    ensures rate { result ≡ rate_of row.now }
    ensures within { result ≤ 10 ^ 12 }
{
    match &row.curve {
        Some(curve) => curve.rate,
        None => 0,
    }
}

/// The declared burst of a stream, and 0 of a flow.
pub(crate) fn burst_of(row: &Row) -> u64
    ensures { result ≡ burst_of row.now }
{
    match &row.curve {
        Some(curve) => curve.burst,
        None => 0,
    }
}

/// The sum of the rates of the streams on the arc with priorities from low up to below high.
pub(crate) fn rates_on(rows: &[Row], arc: ArcId, low: u8, high: u8) -> u64
    requires { length rows.now ≤ 512 }
    ensures rates { result ≡ rates_on arc.0 low high rows.now }
    ensures within { result ≤ 512 * 10 ^ 12 }
{
    let mut rates = 0;
    for row in rows {
        if is_on(row, arc, low, high) {
            rates += rate_of(row);
        }
    }
    rates
}

/// The ticks that an octet takes on the arc.
pub(crate) fn cost_at(net: &Network, arc: ArcId) -> u64
    ensures cost { result ≡ cost_at net.now arc.0 }
    ensures within { result ≤ 1000 }
{
    match net.arcs.as_slice().get(arc.0 as usize) {
        Some(a) => a.cost,
        None => 0,
    }
}

/// The capacity of the arc's ring of a priority, in frames.
pub(crate) fn ring_at(net: &Network, arc: ArcId, prio: Prio) -> u64
    ensures { result ≡ ring_at net.now arc.0 prio }
{
    let place = prio.number() as usize;
    match net.arcs.as_slice().get(arc.0 as usize) {
        Some(a) => u64::from(a.rings[place]),
        None => 0,
    }
}

/// The greatest preemptable frame that the arc carries, in octets.
pub(crate) fn largest_at(net: &Network, arc: ArcId) -> u64
    ensures { result ≡ largest_at net.now arc.0 }
{
    match net.arcs.as_slice().get(arc.0 as usize) {
        Some(a) => u64::from(a.largest),
        None => 0,
    }
}

/// The octets of a fragment that can't be cut yet, with those that can't be cut off and a continuation's overhead.
fn fragment_octets(arc: &Arc) -> u128
    ensures { result ≡ fragment_octets arc.now }
{
    64 * (1 + u128::from(arc.add_frag)) + 79
}

/// The octets for which preemptable frames of up to so many octets can hold the arc.
fn preemptable_octets(arc: &Arc, largest: u64) -> u128
    ensures octets { result ≡ preemptable_octets arc.now largest }
    ensures within { result ≤ 2 ^ 65 }
{
    if largest == 0 {
        return 0;
    }
    let whole = u128::from(largest) + u128::from(OVERHEAD);
    match (arc.mode, arc.policy) {
        (Mode::On, _) | (Mode::Negotiate, Policy::Quiet) => whole.min(fragment_octets(arc)),
        (Mode::Off, _) | (Mode::Negotiate, Policy::Pass) => whole,
    }
}

/// The same on the arc of this number.
pub(crate) fn preemptable_at(net: &Network, arc: ArcId, largest: u64) -> u128
    ensures octets { result ≡ preemptable_at net.now arc.0 largest }
    ensures within { result ≤ 2 ^ 65 }
{
    match net.arcs.as_slice().get(arc.0 as usize) {
        Some(a) => preemptable_octets(a, largest),
        None => 0,
    }
}

/// The latency of a node, and 0 where there is no such node.
fn latency_at(net: &Network, node: NodeId) -> u64
    ensures latency { result ≡ latency_at net.now.nodes node.0 }
    ensures within { result ≤ 10 ^ 9 }
{
    match net.nodes.as_slice().get(node.0 as usize) {
        Some(node) => node.latency,
        None => 0,
    }
}

/// The ticks of a hop with this delay, from the arrival at the node before it to the arrival at the one behind.
pub(crate) fn hop_ticks(net: &Network, arc: ArcId, delay: u64) -> u128
    ensures ticks { result ≡ hop_ticks net.now arc.0 delay }
    ensures within { result ≤ 2 ^ 65 }
{
    match net.arcs.as_slice().get(arc.0 as usize) {
        Some(a) => {
            let waiting = u128::from(delay.saturating_sub(12 * a.cost));
            u128::from(latency_at(net, a.from)) + waiting + u128::from(a.delay)
        }
        None => 0,
    }
}
