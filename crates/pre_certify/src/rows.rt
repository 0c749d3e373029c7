ghost use Rattle.std.specs.Prelude.{◌≡◌, ℕ, ◌+◌, ◌*◌, ◌<◌, ◌≤◌, ◌++◌, ◌^◌, length, IfOk, OnOk, map, filter, All, false, slice_index};
ghost use Rattle.std.specs.List.{range_with_len, enumerate_from};
ghost use Rattle.pre_bound.specs.Limits.{limit, PortIsWithin};
ghost use Rattle.pre_bound.specs.Uses.{has_arc, is_stream};
ghost use Rattle.pre_bound.specs.Along.{burst_at};
ghost use Rattle.pre_bound.specs.Good.{AtStreams};
ghost use Rattle.pre_bound.specs.Listed.{port_row};
ghost use Rattle.pre_bound.specs.Places.{ports_of, streams_of};
ghost use Rattle.pre_bound.specs.Passing.{ticks_before};
ghost use Rattle.pre_certify.specs.Loads.{NoOverload};
ghost use Rattle.pre_certify.specs.Tables.{delays_in, AreWithin};
ghost use Rattle.pre_certify.specs.Turns.{IsTable};
ghost use Rattle.pre_certify.specs.Written.{arc_at, values_at, hops_at, all_hops, bound_at};

use crate::loads::{has_arc, has_port};
use crate::ports::{burst_at, largest_used, ticks_before};
use crate::rings::settled_row;
use pre_base::{ArcId, Items, StreamId};
use pre_bound::{ArcRow, HopRow, PortRow};
use pre_streams::Row;
use pre_topo::Network;
use std::alloc::{AllocError, Global};

/// The rows of the arcs that streams use.
pub(crate) fn arc_rows(
    alloc: Global,
    net: &Network,
    rows: &[Row],
    ranks: &[u64],
) -> Result<Items<ArcRow>, AllocError>
    requires { length ranks.now ≤ 256 }
    ensures { IfOk result (λ found. found ≡ map (arc_at net.now rows.now ranks.now) (filter (has_arc rows.now) (range_with_len 0 (length ranks.now)))) }
{
    let mut found = Items::new(alloc);
    for place in 0..ranks.len() as u16 {
        let arc = ArcId(place);
        if has_arc(rows, arc) {
            found.push(ArcRow {
                arc,
                rank: Some(ranks[place as usize]),
                largest: largest_used(net, rows, arc),
            })?;
        }
    }
    Ok(found)
}

/// The rows of the ports, at none of which a number passes the limit.
pub(crate) fn port_rows(
    alloc: Global,
    net: &Network,
    rows: &[Row],
    delays: &[u64],
) -> Result<Items<PortRow>, AllocError>
    requires few { length rows.now ≤ 512 }
    requires load { NoOverload net.now rows.now }
    requires table { IsTable net.now rows.now delays.now }
    ensures { IfOk result (λ found. found ≡ map (port_row (values_at net.now rows.now (delays_in delays.now))) (ports_of net.now rows.now)) }
{
    let mut found = Items::new(alloc);
    for place in 0..net.arcs.len() * 8 {
        let arc = ArcId((place / 8) as u16);
        let prio = (place % 8) as u8;
        if has_port(rows, arc, prio) {
            found.push(settled_row(net, rows, delays, arc, prio))?;
        }
    }
    Ok(found)
}

/// The burst at a hop, which doesn't pass the limit.
fn settled_burst(net: &Network, delays: &[u64], row: &Row, hop: usize) -> u64
    requires delays { AreWithin delays.now }
    requires hop { hop ≤ length row.now.arcs }
    requires small { burst_at net.now (delays_in delays.now) row.now hop ≤ 10 ^ 12 }
    ensures { result ≡ burst_at net.now (delays_in delays.now) row.now hop }
{
    match burst_at(net, delays, row, hop) {
        Some(burst) => burst,
        None => unreachable!(),
    }
}

/// The ticks of a stream's route, which don't pass the limit.
fn settled_bound(net: &Network, delays: &[u64], row: &Row) -> u64
    requires delays { AreWithin delays.now }
    requires small { ticks_before net.now (delays_in delays.now) row.now (length row.now.arcs) ≤ 10 ^ 12 }
    ensures { result ≡ ticks_before net.now (delays_in delays.now) row.now (length row.now.arcs) }
{
    match ticks_before(net, delays, row, row.arcs.len()) {
        Some(ticks) => ticks,
        None => unreachable!(),
    }
}

/// Puts the rows of a stream's hops behind the others.
fn push_hops(
    net: &Network,
    delays: &[u64],
    row: &Row,
    stream: StreamId,
    found: &mut Items<HopRow>,
) -> Result<(), AllocError>
    requires delays { AreWithin delays.now }
    requires small { (hop : ℕ) → hop < length row.now.arcs → burst_at net.now (delays_in delays.now) row.now hop ≤ 10 ^ 12 }
    ensures { OnOk result (found.new ≡ found.old ++ hops_at net.now (delays_in delays.now) stream.0 row.now) }
{
    for hop in 0..row.arcs.len() {
        found.push(HopRow {
            stream,
            hop: hop as u64,
            burst: settled_burst(net, delays, row, hop),
        })?;
    }
    Ok(())
}

/// The rows of the hops of all streams.
pub(crate) fn hop_rows(
    alloc: Global,
    net: &Network,
    rows: &[Row],
    delays: &[u64],
) -> Result<Items<HopRow>, AllocError>
    requires few { length rows.now ≤ 512 }
    requires delays { AreWithin delays.now }
    requires small { AtStreams rows.now (λ stream r. (hop : ℕ) → hop < length r.arcs → burst_at net.now (delays_in delays.now) r hop ≤ limit) }
    ensures { IfOk result (λ found. found ≡ all_hops net.now (delays_in delays.now) (streams_of rows.now)) }
{
    let mut found = Items::new(alloc);
    for (stream, row) in rows.iter().enumerate() {
        if row.curve.is_some() {
            push_hops(net, delays, row, StreamId(stream as u16), &mut found)?;
        }
    }
    Ok(found)
}

/// The bounds of all streams in ticks, over a table of delays by which none passes 10^12.
pub fn bound_rows(
    alloc: Global,
    net: &Network,
    rows: &[Row],
    delays: &[u64],
) -> Result<Items<(StreamId, u64)>, AllocError>
    requires few { length rows.now ≤ 512 }
    requires delays { AreWithin delays.now }
    requires small { AtStreams rows.now (λ stream r. ticks_before net.now (delays_in delays.now) r (length r.arcs) ≤ limit) }
    ensures { IfOk result (λ found. found ≡ map (bound_at net.now (delays_in delays.now)) (streams_of rows.now)) }
{
    let mut found = Items::new(alloc);
    for (stream, row) in rows.iter().enumerate() {
        if row.curve.is_some() {
            found.push((StreamId(stream as u16), settled_bound(net, delays, row)))?;
        }
    }
    Ok(found)
}
