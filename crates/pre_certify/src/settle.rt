ghost use Rattle.std.specs.Prelude.{◌≡◌, ℕ, ◌+◌, ◌*◌, ◌<◌, ◌≤◌, ◌^◌, length, IfOk, IfErr, OnOk, IfSome, IfNone, false, true, IsTrue};
ghost use Rattle.pre_bound.specs.Uses.{has_port};
ghost use Rattle.pre_bound.specs.Settled.{PriosBelow};
ghost use Rattle.pre_bound.specs.Order.{Rise};
ghost use Rattle.pre_bound.specs.Passing.{passes};
ghost use Rattle.pre_certify.specs.Loads.{NoOverload};
ghost use Rattle.pre_certify.specs.Tables.{delays_in, AreWithin};
ghost use Rattle.pre_certify.specs.Turns.{ranks_in, turn_of, SettledBefore, IsLargeAt, IsTable};
ghost use Rattle.pre_certify.specs.Causes.{Cause};
ghost use Rattle.pre_bound.specs.Chains.{AreRanks};

use crate::Unfit;
use crate::loads::has_port;
use crate::ports::port_row;
use pre_base::{ArcId, Items, Prio};
use pre_bound::order_law;
use pre_streams::Row;
use pre_topo::Network;
use std::alloc::Global;

/// Eight ports for each of 256 arcs.
const PLACES: u64 = 2048;

/// An arc and a priority.
#[derive(Clone, Copy, Debug)]
struct Port {
    arc: ArcId,
    prio: Prio,
}

/// Whether the arc of this rank and a stream of this priority are a port.
fn is_due(net: &Network, rows: &[Row], ranks: &[u64], rank: u64, arc: u16, prio: u8) -> bool
    requires prio { prio < 8 }
    requires long { length ranks.now ≡ length net.now.arcs }
    ensures due { IsTrue result → (arc < length net.now.arcs) × (ranks_in ranks.now arc ≡ rank) × (has_port rows.now arc prio ≡ true) }
    ensures not_due { result ≡ false → arc < length net.now.arcs → ranks_in ranks.now arc ≡ rank → has_port rows.now arc prio ≡ false }
{
    arc < net.arcs.len() as u16 && ranks[arc as usize] == rank && has_port(rows, ArcId(arc), prio)
}

/// Settles the port whose turn it is, where there is one, in the table of delays: the port, where one of its numbers
/// passes the limit.
fn settle_turn(
    net: &Network,
    rows: &[Row],
    ranks: &[u64],
    delays: &mut Items<u64>,
    turn: u64,
) -> Result<(), Port>
    requires within { AreWithin delays.old }
    requires long { length delays.old ≡ length net.now.arcs * 8 }
    requires ranked { length ranks.now ≡ length net.now.arcs }
    requires few { length rows.now ≤ 512 }
    requires prios { PriosBelow rows.now }
    requires load { NoOverload net.now rows.now }
    requires rise { Rise rows.now (ranks_in ranks.now) }
    requires before { SettledBefore net.now rows.now (ranks_in ranks.now) (delays_in delays.old) turn }
    ensures within { OnOk result (AreWithin delays.new) }
    ensures long { length delays.new ≡ length delays.old }
    ensures settled { OnOk result (SettledBefore net.now rows.now (ranks_in ranks.now) (delays_in delays.new) (turn + 1)) }
    ensures large { IfErr result (λ e. IsLargeAt net.now rows.now (ranks_in ranks.now) (delays_in delays.old) turn e.arc.0 e.prio) }
{
    order_law();
    let arc = (turn % PLACES / 8) as u16;
    let prio = (turn % 8) as u8;
    if !is_due(net, rows, ranks, turn / PLACES, arc, prio) {
        return Ok(());
    }
    match port_row(net, rows, delays.as_slice(), ArcId(arc), prio) {
        Some(row) => {
            delays.set(arc as usize * 8 + prio as usize, row.delay);
            Ok(())
        }
        None => Err(Port {
            arc: ArcId(arc),
            prio: Prio(prio),
        }),
    }
}

/// The table of the least delays of all ports: Large at the first port, in the order of turns, at which a number passes the
/// limit. No rank is above the most.
pub(crate) fn settle(
    alloc: Global,
    net: &Network,
    rows: &[Row],
    ranks: &[u64],
    most: u64,
) -> Result<Items<u64>, Unfit>
    requires ranked { length ranks.now ≡ length net.now.arcs }
    requires most { (arc : ℕ) → ranks_in ranks.now arc ≤ most }
    requires least { most ≤ 2 ^ 32 }
    requires few { length rows.now ≤ 512 }
    requires prios { PriosBelow rows.now }
    requires load { NoOverload net.now rows.now }
    requires rise { Rise rows.now (ranks_in ranks.now) }
    requires ranks { AreRanks net.now rows.now (ranks_in ranks.now) }
    ensures settled { IfOk result (λ delays. IsTable net.now rows.now delays) }
    ensures cause { IfErr result (Cause net.now rows.now) }
{
    let mut delays = Items::from_vec(vec![in alloc; 0; net.arcs.len() * 8]?);
    for turn in 0..(most + 1) * PLACES {
        match settle_turn(net, rows, ranks, &mut delays, turn) {
            Ok(()) => {}
            Err(port) => {
                return Err(Unfit::Large {
                    arc: port.arc,
                    prio: port.prio,
                });
            }
        }
    }
    Ok(delays)
}
