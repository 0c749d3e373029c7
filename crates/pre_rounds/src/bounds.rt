ghost use Rattle.std.specs.Prelude.{◌≡◌, ◌<◌, ◌≤◌, ◌+◌, ◌*◌, ℕ, length, IfSome, IfNone, false};
ghost use Rattle.pre_bound.specs.Limits.{limit};
ghost use Rattle.pre_bound.specs.Good.{AtPorts};
ghost use Rattle.pre_bound.specs.Passing.{ticks_before};
ghost use Rattle.pre_certify.specs.Loads.{NoOverload};
ghost use Rattle.pre_certify.specs.Tables.{delays_in, AreWithin};
ghost use Rattle.pre_rounds.specs.Rounds.{port_over};
ghost use Rattle.pre_rounds.specs.Passing.{passes_over, need_over, is_short};
ghost use Rattle.pre_rounds.specs.Settling.{IsFirstPort};
ghost use Rattle.pre_rounds.specs.Causes.{NoneWide, FirstWide};
ghost use Rattle.pre_rounds.specs.Routed.{AreShort};
ghost use Rattle.pre_rounds.specs.Tables.{bursts_in};

use crate::ports::port_over;
use pre_base::{ArcId, Prio, StreamId};
use pre_bound::PortRow;
use pre_certify::{has_port, ring_at, ticks_before};
use pre_streams::Row;
use pre_topo::Network;

/// The first hop of the row up to which the ticks of its route pass the limit.
fn first_wide_hop(net: &Network, delays: &[u64], row: &Row) -> Option<usize>
    requires { AreWithin delays.now }
    ensures some { IfSome result (λ hop. (hop < length row.now.arcs) × (limit < ticks_before net.now (delays_in delays.now) row.now (hop + 1))) }
    ensures first { IfSome result (λ hop. (earlier : ℕ) → earlier < hop → ticks_before net.now (delays_in delays.now) row.now (earlier + 1) ≤ limit) }
    ensures none { IfNone result (ticks_before net.now (delays_in delays.now) row.now (length row.now.arcs) ≤ limit) }
{
    for hop in 0..row.arcs.len() {
        if ticks_before(net, delays, row, hop + 1).is_none() {
            return Some(hop);
        }
    }
    None
}

/// The first stream whose bound passes the limit, and the first hop up to which the ticks of its route do.
pub(crate) fn first_wide(net: &Network, rows: &[Row], delays: &[u64]) -> Option<(StreamId, u64)>
    requires few { length rows.now ≤ 512 }
    requires within { AreWithin delays.now }
    ensures some { IfSome result (λ e. FirstWide net.now rows.now (delays_in delays.now) e.0.0 e.1) }
    ensures none { IfNone result (NoneWide net.now rows.now (delays_in delays.now)) }
{
    for (stream, row) in rows.iter().enumerate() {
        if row.curve.is_some() {
            if let Some(hop) = first_wide_hop(net, delays, row) {
                return Some((StreamId(stream as u16), hop as u64));
            }
        }
    }
    None
}

/// The row of a port, at which no number passes the limit.
pub(crate) fn settled_row(
    net: &Network,
    rows: &[Row],
    bursts: &[u64],
    arc: ArcId,
    prio: u8,
) -> PortRow
    requires few { length rows.now ≤ 512 }
    requires short { AreShort rows.now }
    requires load { NoOverload net.now rows.now }
    requires within { AreWithin bursts.now }
    requires prio { prio < 8 }
    requires arc { arc.0 < length net.now.arcs }
    requires small { passes_over net.now rows.now (bursts_in bursts.now) arc.0 prio ≡ false }
    ensures { result ≡ port_over net.now rows.now (bursts_in bursts.now) arc.0 prio }
{
    match port_over(net, rows, bursts, arc, prio) {
        Some(row) => row,
        None => PortRow {
            arc,
            prio: Prio(prio),
            block: 0,
            work: 0,
            rate: 0,
            delay: 0,
            size: 0,
        },
    }
}

/// A port whose ring has too little room.
#[derive(Clone, Copy, Debug)]
pub(crate) struct Short {
    pub(crate) arc: ArcId,
    pub(crate) prio: Prio,
    /// The frames that the ring needs room for.
    pub(crate) need: u64,
}

/// The first port whose ring has too little room.
pub(crate) fn first_short(net: &Network, rows: &[Row], bursts: &[u64]) -> Option<Short>
    requires few { length rows.now ≤ 512 }
    requires short { AreShort rows.now }
    requires load { NoOverload net.now rows.now }
    requires within { AreWithin bursts.now }
    requires small { AtPorts net.now rows.now (λ arc prio. passes_over net.now rows.now (bursts_in bursts.now) arc prio ≡ false) }
    ensures some { IfSome result (λ e. IsFirstPort net.now rows.now (is_short net.now rows.now (bursts_in bursts.now)) e.arc.0 e.prio) }
    ensures need { IfSome result (λ e. e.need ≡ need_over net.now rows.now (bursts_in bursts.now) e.arc.0 e.prio) }
    ensures none { IfNone result (AtPorts net.now rows.now (λ arc prio. is_short net.now rows.now (bursts_in bursts.now) arc prio ≡ false)) }
{
    for place in 0..net.arcs.len() * 8 {
        let arc = ArcId((place / 8) as u16);
        let prio = (place % 8) as u8;
        if has_port(rows, arc, prio) {
            let need = settled_row(net, rows, bursts, arc, prio).size / 84;
            if need > ring_at(net, arc, prio) {
                return Some(Short {
                    arc,
                    prio: Prio(prio),
                    need,
                });
            }
        }
    }
    None
}
