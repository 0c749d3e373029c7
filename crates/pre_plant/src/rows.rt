ghost use Rattle.std.specs.Prelude.{◌≡◌, ◌<◌, ◌≤◌, ◌+◌, ◌*◌, ◌++◌, length, map, IfOk, OnOk};
ghost use Rattle.pre_streams.specs.Made.{row_parts};
ghost use Rattle.pre_plant.specs.Lists.{list_of};
ghost use Rattle.pre_plant.specs.Rows.{destination, stream_max, stream_row, flow_row, plant_rows};

use crate::draws::draw;
use crate::networks::{STATIONS, numbered};
use crate::routes::{arcs_between, route_between};
use pre_base::{Items, LEAST_FRAME, OVERHEAD, Prio};
use pre_curve::Curve;
use pre_streams::{Row, Streams};
use std::alloc::{AllocError, Global};

/// The streams stand first among the rows, and the flows behind them.
pub(crate) const STREAMS: u16 = 60;

/// How many flows there are.
pub(crate) const FLOWS: u16 = 30;

/// The frames of every flow, in octets.
pub(crate) const FLOW_MAX: u16 = 1522;

/// The greatest frame of a stream has one of so many sizes, from the least frame on.
const STREAM_SIZES: u64 = 64;

/// The octets that a stream may send more for each 1,000,000 ticks.
const RATE: u64 = 200;

/// The VID of the first stream.
const STREAM_VIDS: u16 = 100;

/// The VID of the first flow.
const FLOW_VIDS: u16 = 200;

/// The stations that a row may go to: all but its own.
const OTHERS: u64 = 39;

/// The place of the first draw for a flow.
const FLOW_DRAWS: usize = 120;

/// The station that a row goes to, by the draw of this number: another one than its own.
fn destination(draws: &[u64], number: usize, row: u16) -> u16
    requires there { number < length draws.now }
    requires few { row < 60 }
    ensures value { result ≡ destination draws.now number row }
    ensures within { result < 40 }
{
    (row + 1 + draw(draws, number, OTHERS) as u16) % STATIONS
}

/// The greatest frame of a stream, in octets.
pub(crate) fn stream_max(draws: &[u64], stream: u16) -> u16
    requires few { stream < 60 }
    requires drawn { length draws.now ≡ 360 }
    ensures value { result ≡ stream_max draws.now stream }
    ensures within { result < 128 }
{
    LEAST_FRAME + draw(draws, 2 * usize::from(stream) + 1, STREAM_SIZES) as u16
}

fn stream_row(alloc: Global, draws: &[u64], stream: u16) -> Result<Row, AllocError>
    requires few { stream < 60 }
    requires drawn { length draws.now ≡ 360 }
    ensures { IfOk result (λ r. row_parts r ≡ stream_row draws.now stream) }
{
    let from = stream % STATIONS;
    let to = destination(draws, 2 * usize::from(stream), stream);
    let max = stream_max(draws, stream);
    let curve = Curve {
        burst: u64::from(max) + OVERHEAD,
        rate: RATE,
    };
    Ok(Row {
        name: numbered(alloc, "e", stream)?,
        vid: STREAM_VIDS + stream,
        prio: Prio(4 + (stream % 4) as u8),
        route: route_between(alloc, from, to)?,
        arcs: arcs_between(alloc, from, to)?,
        max,
        curve: Some(curve),
    })
}

fn flow_row(alloc: Global, draws: &[u64], flow: u16) -> Result<Row, AllocError>
    requires few { flow < 30 }
    requires drawn { length draws.now ≡ 360 }
    ensures { IfOk result (λ r. row_parts r ≡ flow_row draws.now flow) }
{
    let from = flow % STATIONS;
    let to = destination(draws, FLOW_DRAWS + usize::from(flow), flow);
    Ok(Row {
        name: numbered(alloc, "f", flow)?,
        vid: FLOW_VIDS + flow,
        prio: Prio((flow % 4) as u8),
        route: route_between(alloc, from, to)?,
        arcs: arcs_between(alloc, from, to)?,
        max: FLOW_MAX,
        curve: None,
    })
}

#[tactic(auto, using(crate::proofs::ListLaws::list_behind_none, crate::proofs::ListLaws::list_behind_more))]
fn put_streams(alloc: Global, draws: &[u64], rows: &mut Items<Row>) -> Result<(), AllocError>
    requires { length draws.now ≡ 360 }
    ensures { OnOk result (map row_parts rows.new ≡ map row_parts rows.old ++ list_of 60 (stream_row draws.now)) }
{
    for stream in 0..STREAMS {
        rows.push(stream_row(alloc, draws, stream)?)?;
    }
    Ok(())
}

#[tactic(auto, using(crate::proofs::ListLaws::list_behind_none, crate::proofs::ListLaws::list_behind_more))]
fn put_flows(alloc: Global, draws: &[u64], rows: &mut Items<Row>) -> Result<(), AllocError>
    requires { length draws.now ≡ 360 }
    ensures { OnOk result (map row_parts rows.new ≡ map row_parts rows.old ++ list_of 30 (flow_row draws.now)) }
{
    for flow in 0..FLOWS {
        rows.push(flow_row(alloc, draws, flow)?)?;
    }
    Ok(())
}

/// The streams and flows of a plant, by its draws.
#[tactic(auto, unfolding(crate::specs::Rows::plant_rows))]
pub(crate) fn plant_streams(alloc: Global, draws: &[u64]) -> Result<Streams, AllocError>
    requires { length draws.now ≡ 360 }
    ensures { IfOk result (λ streams. map row_parts streams.rows ≡ plant_rows draws.now) }
{
    let mut rows = Items::new(alloc);
    put_streams(alloc, draws, &mut rows)?;
    put_flows(alloc, draws, &mut rows)?;
    Ok(Streams { rows })
}
