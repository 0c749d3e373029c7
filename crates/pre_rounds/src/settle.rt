ghost use Rattle.std.specs.Prelude.{◌≡◌, ℕ, ◌+◌, ◌*◌, ◌<◌, ◌≤◌, ◌^◌, length, IfOk, IfErr, OnOk, IfSome, IfNone, false};
ghost use Rattle.pre_bound.specs.Good.{AtPorts};
ghost use Rattle.pre_certify.specs.Loads.{NoOverload};
ghost use Rattle.pre_certify.specs.Tables.{AreWithin};
ghost use Rattle.pre_rounds.specs.Passing.{passes_over, some_differs};
ghost use Rattle.pre_rounds.specs.Settling.{IsFirstPort};
ghost use Rattle.pre_rounds.specs.Causes.{Cause};
ghost use Rattle.pre_rounds.specs.Routed.{AreRouted, AreShort};
ghost use Rattle.pre_rounds.specs.Tables.{bursts_in, HaveDelays, AreSettled};

use crate::RoundsFault;
use crate::ports::{port_over, some_differs};
use crate::tables::{first_table, next_table};
use pre_base::{ArcId, Items, Prio};
use pre_certify::has_port;
use pre_streams::Row;
use pre_topo::Network;
use std::alloc::Global;

/// Rounds 0 to 1000.
const ROUNDS: u64 = 1001;

/// An arc and a priority.
#[derive(Clone, Copy, Debug)]
struct Port {
    arc: ArcId,
    prio: Prio,
}

/// The tables of bursts and delays of a settled round.
#[derive(Debug, Drop)]
pub(crate) struct Settled {
    pub(crate) bursts: Items<u64>,
    pub(crate) delays: Items<u64>,
}

/// Puts the delay of the port at this place, where there is one, into the table: the port, where a number of it passes the
/// limit.
fn put_delay(
    net: &Network,
    rows: &[Row],
    bursts: &[u64],
    delays: &mut Items<u64>,
    place: usize,
) -> Result<(), Port>
    requires few { length rows.now ≤ 512 }
    requires short { AreShort rows.now }
    requires load { NoOverload net.now rows.now }
    requires bursts { AreWithin bursts.now }
    requires within { AreWithin delays.old }
    requires long { length delays.old ≡ length net.now.arcs * 8 }
    requires place { place < length net.now.arcs * 8 }
    requires before { HaveDelays net.now rows.now (bursts_in bursts.now) delays.old place }
    ensures within { OnOk result (AreWithin delays.new) }
    ensures long { length delays.new ≡ length delays.old }
    ensures delays { OnOk result (HaveDelays net.now rows.now (bursts_in bursts.now) delays.new (place + 1)) }
    ensures large { IfErr result (λ e. IsFirstPort net.now rows.now (passes_over net.now rows.now (bursts_in bursts.now)) e.arc.0 e.prio) }
{
    let arc = ArcId((place / 8) as u16);
    let prio = (place % 8) as u8;
    if !has_port(rows, arc, prio) {
        return Ok(());
    }
    match port_over(net, rows, bursts, arc, prio) {
        Some(row) => {
            delays.set(place, row.delay);
            Ok(())
        }
        None => Err(Port {
            arc,
            prio: Prio(prio),
        }),
    }
}

/// Puts the delays of all ports into the table: the first port, where a number passes the limit.
fn put_delays(
    net: &Network,
    rows: &[Row],
    bursts: &[u64],
    delays: &mut Items<u64>,
) -> Result<(), Port>
    requires few { length rows.now ≤ 512 }
    requires short { AreShort rows.now }
    requires load { NoOverload net.now rows.now }
    requires bursts { AreWithin bursts.now }
    requires within { AreWithin delays.old }
    requires long { length delays.old ≡ length net.now.arcs * 8 }
    ensures within { OnOk result (AreWithin delays.new) }
    ensures long { length delays.new ≡ length delays.old }
    ensures delays { OnOk result (HaveDelays net.now rows.now (bursts_in bursts.now) delays.new (length net.now.arcs * 8)) }
    ensures large { IfErr result (λ e. IsFirstPort net.now rows.now (passes_over net.now rows.now (bursts_in bursts.now)) e.arc.0 e.prio) }
{
    for place in 0..net.arcs.len() * 8 {
        put_delay(net, rows, bursts, delays, place)?;
    }
    Ok(())
}

/// The first port behind which the tables have different bursts.
fn first_differing(net: &Network, rows: &[Row], bursts: &[u64], other: &[u64]) -> Option<Port>
    requires few { length rows.now ≤ 512 }
    requires short { AreShort rows.now }
    requires bursts { AreWithin bursts.now }
    requires other { AreWithin other.now }
    ensures some { IfSome result (λ port. IsFirstPort net.now rows.now (some_differs rows.now (bursts_in bursts.now) (bursts_in other.now)) port.arc.0 port.prio) }
    ensures none { IfNone result (AtPorts net.now rows.now (λ arc prio. some_differs rows.now (bursts_in bursts.now) (bursts_in other.now) arc prio ≡ false)) }
{
    for place in 0..net.arcs.len() * 8 {
        let arc = ArcId((place / 8) as u16);
        let prio = (place % 8) as u8;
        if has_port(rows, arc, prio) && some_differs(rows, bursts, other, arc, prio) {
            return Some(Port {
                arc,
                prio: Prio(prio),
            });
        }
    }
    None
}

/// The tables of the first settled round; Large at the first port of an earlier round, or of this one, at which a number
/// passes the limit, and Unsettled where no round is settled.
pub(crate) fn settle(alloc: Global, net: &Network, rows: &[Row]) -> Result<Settled, RoundsFault>
    requires routed { AreRouted net.now rows.now }
    requires load { NoOverload net.now rows.now }
    ensures settled { IfOk result (λ tables. AreSettled net.now rows.now tables.bursts tables.delays) }
    ensures cause { IfErr result (Cause net.now rows.now) }
{
    let mut bursts = first_table(alloc, rows)?;
    let mut delays = Items::from_vec(vec![in alloc; 0; net.arcs.len() * 8]?);
    let (mut arc, mut prio) = (ArcId(0), Prio(0));
    for round in 0..ROUNDS {
        if let Err(port) = put_delays(net, rows, bursts.as_slice(), &mut delays) {
            return Err(RoundsFault::Large {
                arc: port.arc,
                prio: port.prio,
            });
        }
        let next = next_table(alloc, net, rows, bursts.as_slice(), delays.as_slice())?;
        match first_differing(net, rows, bursts.as_slice(), next.as_slice()) {
            Some(port) => {
                arc = port.arc;
                prio = port.prio;
            }
            None => return Ok(Settled { bursts, delays }),
        }
        bursts = next;
    }
    Err(RoundsFault::Unsettled { arc, prio })
}
