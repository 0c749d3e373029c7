ghost use Rattle.std.specs.Prelude.{◌≡◌, ◌⊎◌, IfOk, IfErr, true, false};
ghost use Rattle.pre_streams.specs.Fits.{Fits};
ghost use Rattle.pre_bound.specs.Good.{AtPorts};
ghost use Rattle.pre_bound.specs.Settled.{PriosBelow};
ghost use Rattle.pre_bound.specs.Least.{Least};
ghost use Rattle.pre_certify.specs.Loads.{NoOverload};
ghost use Rattle.pre_certify.specs.Tables.{delays_in};
ghost use Rattle.pre_rounds.specs.Passing.{is_short};
ghost use Rattle.pre_rounds.specs.Causes.{Cause, NoneWide};
ghost use Rattle.pre_rounds.specs.Answers.{IsOfSettled, HasNoRanks, NoneCaused, IsAlone, HasGoodCertificate, leaves_open};
ghost use Rattle.pre_rounds.specs.Routed.{AreRouted};
ghost use Rattle.pre_rounds.specs.Tables.{bursts_in, AreSettled};
ghost use Rattle.pre_rounds.specs.declared.faults.RoundsFault.TheVariants.{Memory};

use crate::RoundsFault;
use crate::bounds::{first_short, first_wide};
use crate::rows::{arc_rows, hop_rows, port_rows};
use crate::settle::{Settled, settle};
use pre_bound::Certificate;
use pre_certify::{bound_rows, first_overload};
use pre_streams::{Row, Streams};
use pre_topo::Network;
use std::alloc::{AllocError, Global};

/// Each priority is below 8, as its type says.
fn prios_below(rows: &[Row])
    ensures { PriosBelow rows.now }
{
    for row in rows {
        let _prio = row.prio.number();
    }
}

/// The certificate of settled tables.
fn written(
    alloc: Global,
    net: &Network,
    rows: &[Row],
    settled: &Settled,
) -> Result<Certificate, AllocError>
    requires routed { AreRouted net.now rows.now }
    requires load { NoOverload net.now rows.now }
    requires settled { AreSettled net.now rows.now settled.now.bursts settled.now.delays }
    requires narrow { NoneWide net.now rows.now (delays_in settled.now.delays) }
    requires rings { AtPorts net.now rows.now (λ arc prio. is_short net.now rows.now (bursts_in settled.now.bursts) arc prio ≡ false) }
    ensures { IfOk result (IsOfSettled net.now rows.now) }
{
    let bursts = settled.bursts.as_slice();
    let arcs = arc_rows(alloc, net, rows)?;
    let ports = port_rows(alloc, net, rows, bursts)?;
    let hops = hop_rows(alloc, rows, bursts)?;
    let bounds = bound_rows(alloc, net, rows, settled.delays.as_slice())?;
    Ok(Certificate {
        arcs,
        ports,
        hops,
        bounds,
    })
}

/// The certificate of settled tables, or the first bound that passes the limit, or the first ring that has too little room.
fn finished(
    alloc: Global,
    net: &Network,
    rows: &[Row],
    settled: &Settled,
) -> Result<Certificate, RoundsFault>
    requires routed { AreRouted net.now rows.now }
    requires load { NoOverload net.now rows.now }
    requires settled { AreSettled net.now rows.now settled.now.bursts settled.now.delays }
    ensures numbers { IfOk result (IsOfSettled net.now rows.now) }
    ensures cause { IfErr result (Cause net.now rows.now) }
{
    if let Some((stream, hop)) = first_wide(net, rows, settled.delays.as_slice()) {
        return Err(RoundsFault::Wide { stream, hop });
    }
    if let Some(short) = first_short(net, rows, settled.bursts.as_slice()) {
        return Err(RoundsFault::Ring {
            arc: short.arc,
            prio: short.prio,
            need: short.need,
        });
    }
    Ok(written(alloc, net, rows, settled)?)
}

/// The numbers of the first settled round, or the first fault that has a cause.
fn answer(alloc: Global, net: &Network, rows: &[Row]) -> Result<Certificate, RoundsFault>
    requires { AreRouted net.now rows.now }
    ensures numbers { IfOk result (IsOfSettled net.now rows.now) }
    ensures cause { IfErr result (Cause net.now rows.now) }
{
    if let Some(arc) = first_overload(net, rows) {
        return Err(RoundsFault::Overload { arc });
    }
    let settled = settle(alloc, net, rows)?;
    finished(alloc, net, rows, &settled)
}

/// The numbers of the first settled round, without ranks, each of which is at most that of every good certificate without
/// ranks.
///
/// In round 0 each stream has its declared burst at every hop. The bursts of a round give each port its least block, work, delay
/// and size, and each delay the bursts of the next round at the hops behind it. A round is settled where the next one has its
/// bursts. Rounds 0 to 1000 are tried; there are no numbers
///
/// - `Overload`: where the streams of an arc want all of its time: the least such arc;
/// - `Large`: where in a round, none being settled before it, a block, work, delay or size, or a burst that leaves a port for
///   another hop, passes 10^12: in the first such round the first port by arc and priority;
/// - `Unsettled`: where no round is settled: the first port by arc and priority behind which the bursts of round 1000 and of the
///   one after it differ;
/// - `Wide`: where a bound passes 10^12: the first such stream, and the first hop up to which the ticks of its route do;
/// - `Ring`: where the ring of a port has too little room: the first such port by arc and priority, and the room that it needs;
/// - `Memory`.
///
/// Each comes only where none of those before it does. Where a fault has a cause, no other answer comes, but `Memory`. Where there
/// is a good certificate, with ranks or without, no fault comes but `Unsettled` and `Memory`.
pub fn rounds(alloc: Global, net: &Network, streams: &Streams) -> Result<Certificate, RoundsFault>
    requires { Fits net.now streams.now }
    ensures numbers { IfOk result (IsOfSettled net.now streams.now.rows) }
    ensures least { IfOk result (Least net.now streams.now) }
    ensures unranked { IfOk result HasNoRanks }
    ensures cause { IfErr result (Cause net.now streams.now.rows) }
    ensures complete { HasGoodCertificate net.now streams.now → IfErr result (λ e. leaves_open e ≡ true) }
    ensures none { IfOk result (λ c. NoneCaused net.now streams.now.rows) }
    ensures alone { IfErr result (λ e. (e ≡ Memory) ⊎ IsAlone net.now streams.now.rows e) }
{
    prios_below(streams.rows.as_slice());
    answer(alloc, net, streams.rows.as_slice())
}
