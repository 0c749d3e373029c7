ghost use Rattle.std.specs.Prelude.{◌≡◌, ℕ, ◌+◌, ◌*◌, ◌/◌, ◌<◌, ◌≤◌, length, true, false, IsTrue, OnOk, IfErr, MatchOption};
ghost use Rattle.pre_bound.specs.Uses.{has_port, ring_at};
ghost use Rattle.pre_bound.specs.Along.{port_size};
ghost use Rattle.pre_bound.specs.Chains.{AreRanks};
ghost use Rattle.pre_bound.specs.Settled.{HaveRoom};
ghost use Rattle.pre_bound.specs.Passing.{passes, least_port};
ghost use Rattle.pre_certify.specs.Loads.{NoOverload, is_overloaded};
ghost use Rattle.pre_certify.specs.Tables.{delays_in, AreWithin};
ghost use Rattle.pre_certify.specs.Turns.{IsTable};
ghost use Rattle.pre_certify.specs.Causes.{Cause, HasRoom, IsShortAt};

use crate::Unfit;
use crate::loads::has_port;
use crate::ports::port_row;
use pre_base::{ArcId, Prio};
use pre_bound::PortRow;
use pre_streams::Row;
use pre_topo::Network;

/// The capacity of the arc's ring of a priority, in frames.
pub fn ring_at(net: &Network, arc: ArcId, prio: u8) -> u64
    requires { prio < 8 }
    ensures { result ≡ ring_at net.now arc.0 prio }
{
    match net.arcs.as_slice().get(arc.0 as usize) {
        Some(a) => u64::from(a.rings[prio as usize]),
        None => 0,
    }
}

/// The row of a port, where no number passes the limit.
pub(crate) fn settled_row(
    net: &Network,
    rows: &[Row],
    delays: &[u64],
    arc: ArcId,
    prio: u8,
) -> PortRow
    requires delays { AreWithin delays.now }
    requires prio { prio < 8 }
    requires arc { arc.0 < length net.now.arcs }
    requires few { length rows.now ≤ 512 }
    requires load { is_overloaded net.now rows.now arc.0 ≡ false }
    requires small { passes net.now rows.now (delays_in delays.now) arc.0 prio ≡ false }
    ensures { result ≡ least_port net.now rows.now (delays_in delays.now) arc.0 prio }
{
    match port_row(net, rows, delays, arc, prio) {
        Some(row) => row,
        None => unreachable!(),
    }
}

/// The frames that the ring of the port needs room for, where it has too little.
fn short_at(net: &Network, rows: &[Row], delays: &[u64], arc: ArcId, prio: u8) -> Option<u64>
    requires prio { prio < 8 }
    requires arc { arc.0 < length net.now.arcs }
    requires few { length rows.now ≤ 512 }
    requires load { NoOverload net.now rows.now }
    requires table { IsTable net.now rows.now delays.now }
    ensures { MatchOption result (has_port rows.now arc.0 prio ≡ true → HasRoom net.now rows.now (delays_in delays.now) arc.0 prio) (IsShortAt net.now rows.now (delays_in delays.now) arc.0 prio) }
{
    if !has_port(rows, arc, prio) {
        return None;
    }
    let need = settled_row(net, rows, delays, arc, prio).size / 84;
    if need > ring_at(net, arc, prio) {
        Some(need)
    } else {
        None
    }
}

/// Whether each ring has room: Ring at the first port whose ring has too little.
pub(crate) fn rings_fit(net: &Network, rows: &[Row], delays: &[u64]) -> Result<(), Unfit>
    requires few { length rows.now ≤ 512 }
    requires load { NoOverload net.now rows.now }
    requires table { IsTable net.now rows.now delays.now }
    ensures room { OnOk result (HaveRoom net.now rows.now (delays_in delays.now)) }
    ensures cause { IfErr result (λ e. (rank : ℕ → ℕ) → AreRanks net.now rows.now rank → Cause net.now rows.now e) }
{
    for place in 0..net.arcs.len() * 8 {
        let arc = ArcId((place / 8) as u16);
        let prio = (place % 8) as u8;
        if let Some(need) = short_at(net, rows, delays, arc, prio) {
            return Err(Unfit::Ring {
                arc,
                prio: Prio(prio),
                need,
            });
        }
    }
    Ok(())
}
