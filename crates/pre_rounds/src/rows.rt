ghost use Rattle.std.specs.Prelude.{◌≡◌, ◌+◌, ◌*◌, ◌/◌, ◌%◌, ◌<◌, ◌≤◌, ◌++◌, length, IfOk, OnOk, map, filter, false};
ghost use Rattle.std.specs.List.{range_with_len};
ghost use Rattle.pre_bound.specs.Uses.{has_arc};
ghost use Rattle.pre_bound.specs.Good.{AtPorts};
ghost use Rattle.pre_bound.specs.Places.{arcs_of, ports_of, streams_of};
ghost use Rattle.pre_certify.specs.Loads.{NoOverload};
ghost use Rattle.pre_certify.specs.Tables.{AreWithin};
ghost use Rattle.pre_rounds.specs.Rounds.{port_over};
ghost use Rattle.pre_rounds.specs.Passing.{passes_over};
ghost use Rattle.pre_rounds.specs.Routed.{AreShort};
ghost use Rattle.pre_rounds.specs.Tables.{bursts_in};
ghost use Rattle.pre_rounds.specs.Written.{arc_at, hops_at, all_hops};

use crate::bounds::settled_row;
use crate::tables::burst_at;
use pre_base::{ArcId, Items, StreamId};
use pre_bound::{ArcRow, HopRow, PortRow};
use pre_certify::{has_arc, has_port, largest_used};
use pre_streams::Row;
use pre_topo::Network;
use std::alloc::{AllocError, Global};

/// The rows of the arcs that streams use, without ranks.
pub(crate) fn arc_rows(
    alloc: Global,
    net: &Network,
    rows: &[Row],
) -> Result<Items<ArcRow>, AllocError>
    ensures { IfOk result (λ found. found ≡ map (arc_at net.now rows.now) (arcs_of net.now rows.now)) }
{
    let mut found = Items::new(alloc);
    for place in 0..net.arcs.len() as u16 {
        let arc = ArcId(place);
        if has_arc(rows, arc) {
            found.push(ArcRow {
                arc,
                rank: None,
                largest: largest_used(net, rows, arc),
            })?;
        }
    }
    Ok(found)
}

/// The rows of the ports, at none of which a number passes the limit.
pub(crate) fn port_rows(
    alloc: Global,
    net: &Network,
    rows: &[Row],
    bursts: &[u64],
) -> Result<Items<PortRow>, AllocError>
    requires few { length rows.now ≤ 512 }
    requires short { AreShort rows.now }
    requires load { NoOverload net.now rows.now }
    requires within { AreWithin bursts.now }
    requires small { AtPorts net.now rows.now (λ arc prio. passes_over net.now rows.now (bursts_in bursts.now) arc prio ≡ false) }
    ensures { IfOk result (λ found. found ≡ map (λ place. port_over net.now rows.now (bursts_in bursts.now) (place / 8) (place % 8)) (ports_of net.now rows.now)) }
{
    let mut found = Items::new(alloc);
    for place in 0..net.arcs.len() * 8 {
        let arc = ArcId((place / 8) as u16);
        let prio = (place % 8) as u8;
        if has_port(rows, arc, prio) {
            found.push(settled_row(net, rows, bursts, arc, prio))?;
        }
    }
    Ok(found)
}

/// Puts the rows of a stream's hops behind the others.
fn push_hops(
    bursts: &[u64],
    row: &Row,
    stream: usize,
    found: &mut Items<HopRow>,
) -> Result<(), AllocError>
    requires within { AreWithin bursts.now }
    requires stream { stream < 512 }
    requires short { length row.now.arcs ≤ 16 }
    ensures { OnOk result (found.new ≡ found.old ++ hops_at (bursts_in bursts.now) stream row.now) }
{
    for hop in 0..row.arcs.len() {
        found.push(HopRow {
            stream: StreamId(stream as u16),
            hop: hop as u64,
            burst: burst_at(bursts, stream, hop),
        })?;
    }
    Ok(())
}

/// The rows of the hops of all streams.
pub(crate) fn hop_rows(
    alloc: Global,
    rows: &[Row],
    bursts: &[u64],
) -> Result<Items<HopRow>, AllocError>
    requires few { length rows.now ≤ 512 }
    requires short { AreShort rows.now }
    requires within { AreWithin bursts.now }
    ensures { IfOk result (λ found. found ≡ all_hops (bursts_in bursts.now) (streams_of rows.now)) }
{
    let mut found = Items::new(alloc);
    for (stream, row) in rows.iter().enumerate() {
        if row.curve.is_some() {
            push_hops(bursts, row, stream, &mut found)?;
        }
    }
    Ok(found)
}
