ghost use Rattle.std.specs.Prelude.{◌≡◌, ℕ, ◌+◌, ◌*◌, ◌<◌, ◌≤◌, ◌^◌, length, IfSome, IfNone};
ghost use Rattle.pre_bound.specs.Uses.{is_stream, is_on, takes, hop_of, has_port, has_arc, has_flow, rate_of, burst_of, rates_on, cost_at, ring_at};
ghost use Rattle.pre_certify.specs.Loads.{is_overloaded, FirstOverload, NoOverload};

use pre_base::{ArcId, Prio};
use pre_streams::Row;
use pre_topo::Network;

/// Rates count octets in so many ticks.
pub(crate) const SCALE: u64 = 1_000_000;

/// Whether the row's route takes the arc.
fn takes(row: &Row, arc: ArcId) -> bool
    ensures { result ≡ takes arc.0 row.now }
{
    row.arcs.as_slice().iter().any(|a| a.0 == arc.0)
}

/// Whether the row is a stream on the arc, with a priority from the low one up to below the high one.
pub fn is_on(row: &Row, arc: ArcId, low: u8, high: u8) -> bool
    ensures { result ≡ is_on arc.0 low high row.now }
{
    let prio = row.prio.number();
    row.curve.is_some() && low <= prio && prio < high && takes(row, arc)
}

/// Whether a stream of this priority uses the arc, so that the two are a port.
pub fn has_port(rows: &[Row], arc: ArcId, prio: u8) -> bool
    requires { prio < 8 }
    ensures { result ≡ has_port rows.now arc.0 prio }
{
    rows.iter().any(|row| is_on(row, arc, prio, prio + 1))
}

/// Whether a stream uses the arc.
pub fn has_arc(rows: &[Row], arc: ArcId) -> bool
    ensures { result ≡ has_arc rows.now arc.0 }
{
    rows.iter().any(|row| is_on(row, arc, 0, 8))
}

/// Whether a flow's route takes the arc.
pub(crate) fn has_flow(rows: &[Row], arc: ArcId) -> bool
    ensures { result ≡ has_flow rows.now arc.0 }
{
    rows.iter()
        .any(|row| row.curve.is_none() && takes(row, arc))
}

/// The hop at which the route takes the arc, and the number of its hops where it doesn't.
pub fn hop_of(row: &Row, arc: ArcId) -> usize
    ensures hop { result ≡ hop_of arc.0 row.now }
    ensures within { result ≤ length row.now.arcs }
{
    let arcs = row.arcs.as_slice();
    for (hop, a) in arcs.iter().enumerate() {
        if a.0 == arc.0 {
            return hop;
        }
    }
    arcs.len()
}

/// The rate of a stream in wire octets for each 1,000,000 ticks, and 0 of a flow.
pub fn rate_of(row: &Row) -> u64
    ensures rate { result ≡ rate_of row.now }
    ensures within { result ≤ 10 ^ 12 }
{
    match &row.curve {
        Some(curve) => curve.rate,
        None => 0,
    }
}

/// The declared burst of a stream in wire octets, and 0 of a flow.
pub fn burst_of(row: &Row) -> u64
    ensures burst { result ≡ burst_of row.now }
    ensures within { result ≤ 10 ^ 12 }
{
    match &row.curve {
        Some(curve) => curve.burst,
        None => 0,
    }
}

/// The sum of the rates of the streams on the arc with priorities from low up to below high.
pub fn rates_on(rows: &[Row], arc: ArcId, low: u8, high: u8) -> u64
    requires { length rows.now ≤ 512 }
    ensures rates { result ≡ rates_on arc.0 low high rows.now }
    ensures within { result ≤ 512 * 10 ^ 12 }
{
    let mut rates = 0;
    for row in rows {
        if is_on(row, arc, low, high) {
            rates += rate_of(row);
        }
    }
    rates
}

/// The ticks that an octet takes on the arc, and 0 where there is no such arc.
pub fn cost_at(net: &Network, arc: ArcId) -> u64
    ensures cost { result ≡ cost_at net.now arc.0 }
    ensures within { result ≤ 1000 }
    ensures some { arc.0 < length net.now.arcs → 1 ≤ result }
{
    match net.arcs.as_slice().get(arc.0 as usize) {
        Some(a) => a.cost,
        None => 0,
    }
}

/// Whether the streams of the arc want all of its time.
fn is_overloaded(net: &Network, rows: &[Row], arc: ArcId) -> bool
    requires { length rows.now ≤ 512 }
    ensures { result ≡ is_overloaded net.now rows.now arc.0 }
{
    cost_at(net, arc) * rates_on(rows, arc, 0, 8) >= SCALE
}

/// The least arc whose streams want all of its time.
pub fn first_overload(net: &Network, rows: &[Row]) -> Option<ArcId>
    requires { length rows.now ≤ 512 }
    ensures found { IfSome result (λ a. FirstOverload net.now rows.now a.0) }
    ensures none { IfNone result (NoOverload net.now rows.now) }
{
    for arc in 0..net.arcs.len() as u16 {
        if is_overloaded(net, rows, ArcId(arc)) {
            return Some(ArcId(arc));
        }
    }
    None
}
