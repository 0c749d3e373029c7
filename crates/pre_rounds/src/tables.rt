ghost use Rattle.std.specs.Prelude.{◌≡◌, ℕ, ◌+◌, ◌*◌, ◌<◌, ◌≤◌, ◌^◌, length, IfOk, false};
ghost use Rattle.pre_bound.specs.Solutions.{least_growth};
ghost use Rattle.pre_bound.specs.Uses.{rate_of, cost_at};
ghost use Rattle.pre_bound.specs.Good.{AtPorts, IsStream};
ghost use Rattle.pre_certify.specs.Tables.{AreWithin};
ghost use Rattle.pre_streams.specs.declared.rows.Row.{Row};
ghost use Rattle.pre_rounds.specs.Rounds.{declared, next_bursts};
ghost use Rattle.pre_rounds.specs.Passing.{passes_over};
ghost use Rattle.pre_rounds.specs.Settling.{SameBursts};
ghost use Rattle.pre_rounds.specs.Routed.{AreRouted, AreShort};
ghost use Rattle.pre_rounds.specs.Tables.{bursts_in, AreDelays};

use pre_base::{ArcId, Items};
use pre_bound::grown;
use pre_certify::{burst_of, cost_at, delay_at, rate_of};
use pre_streams::Row;
use pre_topo::Network;
use std::alloc::{AllocError, Global};

/// A route has at most so many hops.
const HOPS: usize = 16;

/// The burst of a row at a hop, from the table of sixteen for each row.
pub(crate) fn burst_at(bursts: &[u64], stream: usize, hop: usize) -> u64
    requires within { AreWithin bursts.now }
    requires stream { stream ≤ 512 }
    requires hop { hop ≤ 16 }
    ensures burst { result ≡ bursts_in bursts.now stream hop }
    ensures small { result ≤ 10 ^ 12 }
{
    match bursts.get(stream * HOPS + hop) {
        Some(burst) => *burst,
        None => 0,
    }
}

/// The table of the declared bursts.
pub(crate) fn first_table(alloc: Global, rows: &[Row]) -> Result<Items<u64>, AllocError>
    requires few { length rows.now ≤ 512 }
    requires short { AreShort rows.now }
    ensures within { IfOk result (λ table. AreWithin table) }
    ensures same { IfOk result (λ table. SameBursts rows.now (bursts_in table) (declared rows.now)) }
{
    let mut table = Items::new(alloc);
    for place in 0..rows.len() * HOPS {
        table.push(burst_of(&rows[place / HOPS]))?;
    }
    Ok(table)
}

/// The burst behind a hop with this burst and delay, which doesn't pass the limit where it is due.
fn grown_behind(net: &Network, row: &Row, arc: ArcId, burst: u64, delay: u64) -> u64
    requires burst { burst ≤ 10 ^ 12 }
    requires delay { delay ≤ 10 ^ 12 }
    ensures within { result ≤ 10 ^ 12 }
    ensures grown { least_growth burst (rate_of row.now) delay (cost_at net.now arc.0) ≤ 10 ^ 12 → result ≡ least_growth burst (rate_of row.now) delay (cost_at net.now arc.0) }
{
    grown(burst, rate_of(row), delay, cost_at(net, arc)).unwrap_or(0)
}

/// The burst of a row at a hop in the next round.
fn next_burst(
    net: &Network,
    rows: &[Row],
    bursts: &[u64],
    delays: &[u64],
    stream: usize,
    hop: usize,
) -> u64
    requires routed { AreRouted net.now rows.now }
    requires bursts { AreWithin bursts.now }
    requires delays { AreDelays net.now rows.now (bursts_in bursts.now) delays.now }
    requires small { AtPorts net.now rows.now (λ arc prio. passes_over net.now rows.now (bursts_in bursts.now) arc prio ≡ false) }
    requires stream { stream < length rows.now }
    requires hop { hop < 16 }
    ensures within { result ≤ 10 ^ 12 }
    ensures next { (r : Row) → IsStream rows.now stream r → hop < length r.arcs → result ≡ next_bursts net.now rows.now (bursts_in bursts.now) stream hop }
{
    let row = &rows[stream];
    if hop == 0 {
        return burst_of(row);
    }
    match row.arcs.as_slice().get(hop - 1) {
        Some(arc) => grown_behind(
            net,
            row,
            *arc,
            burst_at(bursts, stream, hop - 1),
            delay_at(delays, *arc, row.prio),
        ),
        None => 0,
    }
}

/// The table of the next round.
pub(crate) fn next_table(
    alloc: Global,
    net: &Network,
    rows: &[Row],
    bursts: &[u64],
    delays: &[u64],
) -> Result<Items<u64>, AllocError>
    requires routed { AreRouted net.now rows.now }
    requires bursts { AreWithin bursts.now }
    requires delays { AreDelays net.now rows.now (bursts_in bursts.now) delays.now }
    requires small { AtPorts net.now rows.now (λ arc prio. passes_over net.now rows.now (bursts_in bursts.now) arc prio ≡ false) }
    ensures within { IfOk result (λ table. AreWithin table) }
    ensures same { IfOk result (λ table. SameBursts rows.now (bursts_in table) (next_bursts net.now rows.now (bursts_in bursts.now))) }
{
    let mut table = Items::new(alloc);
    for place in 0..rows.len() * HOPS {
        table.push(next_burst(net, rows, bursts, delays, place / HOPS, place % HOPS))?;
    }
    Ok(table)
}
