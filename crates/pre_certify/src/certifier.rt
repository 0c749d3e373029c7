ghost use Rattle.std.specs.Prelude.{◌≡◌, ◌⊎◌, ℕ, ◌+◌, ◌<◌, ◌≤◌, length, IfOk, IfErr, map, unwrap_or};
ghost use Rattle.pre_streams.specs.Fits.{Fits};
ghost use Rattle.pre_bound.specs.Limits.{limit};
ghost use Rattle.pre_bound.specs.Along.{burst_at};
ghost use Rattle.pre_bound.specs.Chains.{AreRanks};
ghost use Rattle.pre_bound.specs.Good.{AtStreams};
ghost use Rattle.pre_bound.specs.Settled.{PriosBelow, values_over};
ghost use Rattle.pre_bound.specs.Listed.{Says, HasGood, HasRanks};
ghost use Rattle.pre_bound.specs.Least.{Least};
ghost use Rattle.pre_bound.specs.Passing.{ticks_before};
ghost use Rattle.pre_certify.specs.Loads.{NoOverload};
ghost use Rattle.pre_certify.specs.Tables.{delays_in};
ghost use Rattle.pre_certify.specs.Turns.{IsTable, ranks_in};
ghost use Rattle.pre_certify.specs.Causes.{Cause};
ghost use Rattle.pre_certify.specs.Computed.{SaysSettled};
ghost use Rattle.pre_certify.specs.Peelings.{FollowedWithin};
ghost use Rattle.pre_certify.specs.Ranked.{HaveRanks};
ghost use Rattle.pre_certify.specs.Refusals.{NoneRefuses, IsAlone};
ghost use Rattle.pre_certify.specs.declared.unfit.Unfit.TheVariants.{Memory};

use crate::Unfit;
use crate::cycles::cycle;
use crate::laws::refusal_law;
use crate::loads::first_overload;
use crate::ranks::{Peeling, peeled};
use crate::rings::rings_fit;
use crate::rows::{arc_rows, bound_rows, hop_rows, port_rows};
use crate::settle::settle;
use pre_base::Items;
use pre_bound::{Certificate, limit_law, order_law, settled_law};
use pre_streams::{Row, Streams};
use pre_topo::Network;
use std::alloc::{AllocError, Global};

/// No rank is above the number of arcs, which is at most this.
const ARCS: u64 = 256;

/// Each priority is below 8, as its type says.
fn prios_below(rows: &[Row])
    ensures { PriosBelow rows.now }
{
    for row in rows {
        let _prio = row.prio.number();
    }
}

/// The certificate of settled delays.
fn written(
    alloc: Global,
    net: &Network,
    rows: &[Row],
    ranks: &[u64],
    delays: &[u64],
) -> Result<Certificate, AllocError>
    requires few { length rows.now ≤ 512 }
    requires load { NoOverload net.now rows.now }
    requires ranked { length ranks.now ≡ length net.now.arcs }
    requires ranks { (arc : ℕ) → ranks_in ranks.now arc ≤ 256 }
    requires table { IsTable net.now rows.now delays.now }
    requires bursts { AtStreams rows.now (λ stream r. (hop : ℕ) → hop < length r.arcs → burst_at net.now (delays_in delays.now) r hop ≤ limit) }
    requires bounds { AtStreams rows.now (λ stream r. ticks_before net.now (delays_in delays.now) r (length r.arcs) ≤ limit) }
    ensures { IfOk result (λ c. Says net.now rows.now c (values_over net.now rows.now (ranks_in ranks.now) (delays_in delays.now))) }
{
    let arcs = arc_rows(alloc, net, rows, ranks)?;
    let ports = port_rows(alloc, net, rows, delays)?;
    let hops = hop_rows(alloc, net, rows, delays)?;
    let bounds = bound_rows(alloc, net, rows, delays)?;
    Ok(Certificate {
        arcs,
        ports,
        hops,
        bounds,
    })
}

/// The ranks as numbers.
fn plain(alloc: Global, ranks: &[Option<u64>]) -> Result<Items<u64>, AllocError>
    ensures { IfOk result (λ numbers. numbers ≡ map (λ rank. unwrap_or rank 0) ranks.now) }
{
    let numbers: Vec<u64> = ranks.iter().map(|rank| rank.unwrap_or(0)).collect(alloc)?;
    Ok(Items::from_vec(numbers))
}

/// The longest chains of arcs, or a cycle of them.
fn ranks_of(alloc: Global, net: &Network, rows: &[Row]) -> Result<Items<u64>, Unfit>
    requires within { FollowedWithin rows.now (length net.now.arcs) }
    requires load { NoOverload net.now rows.now }
    ensures ranks { IfOk result (HaveRanks net.now rows.now) }
    ensures cause { IfErr result (Cause net.now rows.now) }
{
    match peeled(alloc, rows, net.arcs.len())? {
        Peeling::Closed(ranks) => {
            let arcs = cycle(alloc, rows, ranks.as_slice())?;
            Err(Unfit::Cycle { arcs })
        }
        Peeling::Ranked(ranks) => Ok(plain(alloc, ranks.as_slice())?),
    }
}

/// The certificate of a table of settled delays, or the first ring that has too little room.
fn finished(
    alloc: Global,
    net: &Network,
    streams: &Streams,
    ranks: &[u64],
    delays: &[u64],
) -> Result<Certificate, Unfit>
    requires fits { Fits net.now streams.now }
    requires prios { PriosBelow streams.now.rows }
    requires load { NoOverload net.now streams.now.rows }
    requires ranks { HaveRanks net.now streams.now.rows ranks.now }
    requires table { IsTable net.now streams.now.rows delays.now }
    ensures least { IfOk result (Least net.now streams.now) }
    ensures ranked { IfOk result HasRanks }
    ensures settled { IfOk result (SaysSettled net.now streams.now.rows) }
    ensures cause { IfErr result (Cause net.now streams.now.rows) }
{
    limit_law();
    settled_law();
    match rings_fit(net, streams.rows.as_slice(), delays) {
        Ok(()) => Ok(written(alloc, net, streams.rows.as_slice(), ranks, delays)?),
        Err(unfit) => Err(unfit),
    }
}

/// The least certificate where the ranks are the longest chains, or why there is none.
fn certified(
    alloc: Global,
    net: &Network,
    streams: &Streams,
    ranks: &[u64],
) -> Result<Certificate, Unfit>
    requires fits { Fits net.now streams.now }
    requires prios { PriosBelow streams.now.rows }
    requires load { NoOverload net.now streams.now.rows }
    requires ranks { HaveRanks net.now streams.now.rows ranks.now }
    ensures least { IfOk result (Least net.now streams.now) }
    ensures ranked { IfOk result HasRanks }
    ensures settled { IfOk result (SaysSettled net.now streams.now.rows) }
    ensures cause { IfErr result (Cause net.now streams.now.rows) }
{
    order_law();
    match settle(alloc, net, streams.rows.as_slice(), ranks, ARCS) {
        Ok(delays) => finished(alloc, net, streams, ranks, delays.as_slice()),
        Err(unfit) => Err(unfit),
    }
}

/// The least certificate, or the first refusal that has a cause.
fn certificate_of(alloc: Global, net: &Network, streams: &Streams) -> Result<Certificate, Unfit>
    requires fits { Fits net.now streams.now }
    requires prios { PriosBelow streams.now.rows }
    ensures least { IfOk result (Least net.now streams.now) }
    ensures ranked { IfOk result HasRanks }
    ensures settled { IfOk result (SaysSettled net.now streams.now.rows) }
    ensures cause { IfErr result (Cause net.now streams.now.rows) }
{
    order_law();
    let rows = streams.rows.as_slice();
    if let Some(arc) = first_overload(net, rows) {
        return Err(Unfit::Overload { arc });
    }
    match ranks_of(alloc, net, rows) {
        Ok(ranks) => certified(alloc, net, streams, ranks.as_slice()),
        Err(unfit) => Err(unfit),
    }
}

/// The least certificate of the streams with ranks, each number of which is at most that of every good one with ranks; or why
/// there is none:
///
/// - `Overload`: the least arc whose streams want all of its time;
/// - `Cycle`: arcs that follow one another on routes in a cycle, the least one first;
/// - `Large`: the first port, by rank, arc and priority, at which a number passes 10^12;
/// - `Ring`: the first port, by arc and priority, whose ring has too little room, and the room that it needs;
/// - `Memory`.
///
/// The numbers are those that settled delays give. Each refusal comes only where none of those before it does. None but
/// `Memory` comes where there is a good certificate with ranks, and where one has a cause, no other answer comes, but `Memory`
/// and the choice of a cycle.
pub fn certify(alloc: Global, net: &Network, streams: &Streams) -> Result<Certificate, Unfit>
    requires { Fits net.now streams.now }
    ensures least { IfOk result (Least net.now streams.now) }
    ensures ranked { IfOk result HasRanks }
    ensures settled { IfOk result (SaysSettled net.now streams.now.rows) }
    ensures cause { IfErr result (Cause net.now streams.now.rows) }
    ensures complete { HasGood net.now streams.now → IfErr result (λ e. e ≡ Memory) }
    ensures none { IfOk result (λ c. NoneRefuses net.now streams.now.rows) }
    ensures alone { IfErr result (λ e. (e ≡ Memory) ⊎ IsAlone net.now streams.now e) }
{
    refusal_law();
    prios_below(streams.rows.as_slice());
    certificate_of(alloc, net, streams)
}
