ghost use Rattle.std.specs.Prelude.{◌≡◌, ℕ, ◌+◌, ◌*◌, ◌<◌, ◌≤◌, ◌^◌, length, nat_le};
ghost use Rattle.std.specs.Option.{option_map};
ghost use Rattle.pre_bound.specs.Along.{route_ticks};
ghost use Rattle.pre_check.specs.Said.{delay_in, are_ranked};
ghost use Rattle.pre_check.specs.Tests.{steps_at, rank_rises, load_fits, burst_begins, lower_fit, block_covers, bursts_in};
ghost use Rattle.pre_check.specs.Tests.{work_covers, delay_covers, growth_covers, size_covers, ring_fits, bound_covers, largest_covers};

use crate::said::{burst_in, delay_in, largest_in, rank_in};
use crate::uses::{
    burst_of, cost_at, has_flow, hop_of, hop_ticks, is_on, largest_at, preemptable_at, rate_of,
    rates_on, ring_at,
};
use pre_base::{ArcId, OVERHEAD, StreamId};
use pre_bound::{ArcRow, HopRow, PortRow};
use pre_streams::Row;
use pre_topo::Network;

/// Rates count octets in so many ticks.
const SCALE: u128 = 1_000_000;

/// A product, which 128 bits hold.
fn product(a: u64, b: u64) -> u128
    ensures value { result ≡ a * b }
    ensures within { result ≤ a * 2 ^ 64 }
{
    u128::from(a) * u128::from(b)
}

/// A hop behind another: its stream, the arc before and its own.
fn steps_at<'a>(rows: &'a [Row], hop: &HopRow) -> Option<(&'a Row, ArcId, ArcId)>
    ensures { option_map (λ s. (s.0.now, s.1, s.2)) result ≡ steps_at rows.now hop.now }
{
    if hop.hop == 0 {
        return None;
    }
    let row = rows.get(hop.stream.0 as usize)?;
    let before = row.arcs.as_slice().get(hop.hop as usize - 1)?;
    let here = row.arcs.as_slice().get(hop.hop as usize)?;
    Some((row, *before, *here))
}

/// Rank order, where arcs have ranks: that of a hop is above that of the hop before.
pub(crate) fn rank_rises(rows: &[Row], arcs: &[ArcRow], ranked: bool, hop: &HopRow) -> bool
    requires { ranked ≡ are_ranked arcs.now }
    ensures { result ≡ rank_rises rows.now arcs.now hop.now }
{
    if !ranked {
        return true;
    }
    match steps_at(rows, hop) {
        Some((_row, before, here)) => rank_in(arcs, before) < rank_in(arcs, here),
        None => true,
    }
}

/// Load: the streams of an arc take less than all of its time.
pub(crate) fn load_fits(net: &Network, rows: &[Row], row: &ArcRow) -> bool
    requires { length rows.now ≤ 512 }
    ensures { result ≡ load_fits net.now rows.now row.now }
{
    cost_at(net, row.arc) * rates_on(rows, row.arc, 0, 8) < 1_000_000
}

/// First burst: that of hop 0 is at least the declared one.
pub(crate) fn burst_begins(rows: &[Row], hop: &HopRow) -> bool
    ensures { result ≡ burst_begins rows.now hop.now }
{
    if hop.hop != 0 {
        return true;
    }
    match rows.get(hop.stream.0 as usize) {
        Some(row) => burst_of(row) <= hop.burst,
        None => true,
    }
}

/// Whether each frame of a lower priority takes no longer than the block.
fn lower_fit(net: &Network, rows: &[Row], port: &PortRow) -> bool
    ensures { result ≡ lower_fit net.now rows.now port.now.arc.0 port.now.prio port.now.block }
{
    let (arc, prio, block) = (port.arc, port.prio.number(), port.block);
    let cost = cost_at(net, arc);
    rows.iter().all(|row| !is_on(row, arc, 0, prio)
        || cost * (u64::from(row.max) + OVERHEAD) <= block)
}

/// Block: it is as long as each thing that can hold the arc.
pub(crate) fn block_covers(net: &Network, rows: &[Row], arcs: &[ArcRow], port: &PortRow) -> bool
    ensures { result ≡ block_covers net.now rows.now arcs.now port.now }
{
    let cost = u128::from(cost_at(net, port.arc));
    let preemptable = preemptable_at(net, port.arc, largest_in(arcs, port.arc));
    let block = u128::from(port.block);
    cost * 84 <= block && lower_fit(net, rows, port) && cost * preemptable <= block
}

/// The sum of the bursts said at the arc of its streams with priorities from low up to below high.
fn bursts_in(rows: &[Row], hops: &[HopRow], arc: ArcId, low: u8, high: u8) -> u128
    requires { length rows.now ≤ 512 }
    ensures bursts { result ≡ bursts_in rows.now hops.now arc.0 low high }
    ensures within { result ≤ 512 * 2 ^ 64 }
{
    let mut bursts: u128 = 0;
    for stream in 0..rows.len() {
        let row = &rows[stream];
        if is_on(row, arc, low, high) {
            let burst = burst_in(hops, StreamId(stream as u16), hop_of(row, arc));
            bursts += u128::from(burst);
        }
    }
    bursts
}

/// Work: it covers the bursts of a port's own and higher priorities, and the rate is that of the higher ones.
pub(crate) fn work_covers(net: &Network, rows: &[Row], hops: &[HopRow], port: &PortRow) -> bool
    requires { length rows.now ≤ 512 }
    ensures { result ≡ work_covers net.now rows.now hops.now port.now }
{
    let (arc, prio) = (port.arc, port.prio.number());
    let work = u128::from(cost_at(net, arc)) * bursts_in(rows, hops, arc, prio, 8);
    work <= u128::from(port.work) && port.rate == rates_on(rows, arc, prio + 1, 8)
}

/// Delay: in one tick more than it, what the higher priorities leave of the arc carries away the block and the work.
pub(crate) fn delay_covers(net: &Network, port: &PortRow) -> bool
    ensures { result ≡ delay_covers net.now port.now }
{
    let cost = cost_at(net, port.arc);
    let delay = u128::from(port.delay);
    let busy = SCALE * (u128::from(port.block) + u128::from(port.work));
    let left = SCALE.saturating_sub(product(cost, port.rate));
    busy < (delay + 1) * left && 84 * u128::from(cost) <= delay
}

/// Growth: the burst of a hop covers the one of the hop before, grown by the delay there.
pub(crate) fn growth_covers(
    net: &Network,
    rows: &[Row],
    ports: &[PortRow],
    hops: &[HopRow],
    hop: &HopRow,
) -> bool
    ensures { result ≡ growth_covers net.now rows.now ports.now hops.now hop.now }
{
    let Some((row, before, _here)) = steps_at(rows, hop) else {
        return true;
    };
    let burst = u128::from(burst_in(hops, hop.stream, hop.hop.saturating_sub(1)));
    let delay = u128::from(delay_in(ports, before, row.prio));
    let spread = delay.saturating_sub(84 * u128::from(cost_at(net, before)));
    SCALE * burst + u128::from(rate_of(row)) * spread <= SCALE * u128::from(hop.burst)
}

/// Size: what a port's own streams bring within the delay is below one octet more than it.
pub(crate) fn size_covers(rows: &[Row], hops: &[HopRow], port: &PortRow) -> bool
    requires { length rows.now ≤ 512 }
    ensures { result ≡ size_covers rows.now hops.now port.now }
{
    let (arc, prio) = (port.arc, port.prio.number());
    let bursts = bursts_in(rows, hops, arc, prio, prio + 1);
    let further = product(rates_on(rows, arc, prio, prio + 1), port.delay);
    let size = u128::from(port.size);
    SCALE * bursts + further < SCALE * (size + 1)
}

/// Ring: it has room for as many least frames as the size holds.
pub(crate) fn ring_fits(net: &Network, port: &PortRow) -> bool
    ensures { result ≡ ring_fits net.now port.now }
{
    port.size / 84 <= ring_at(net, port.arc, port.prio)
}

/// Whether the hops of a route take no longer than this.
fn route_fits(net: &Network, ports: &[PortRow], row: &Row, bound: u64) -> bool
    ensures { result ≡ nat_le (route_ticks net.now (λ a. delay_in ports.now a row.now.prio) row.now.arcs) bound }
{
    let mut ticks: u128 = 0;
    for arc in row.arcs.as_slice() {
        ticks += hop_ticks(net, *arc, delay_in(ports, *arc, row.prio));
        if ticks > u128::from(bound) {
            return false;
        }
    }
    true
}

/// Bound: it covers the hops of a stream's route.
pub(crate) fn bound_covers(
    net: &Network,
    rows: &[Row],
    ports: &[PortRow],
    bound: &(StreamId, u64),
) -> bool
    ensures { result ≡ bound_covers net.now rows.now ports.now bound.now }
{
    match rows.get(bound.0.0 as usize) {
        Some(row) => route_fits(net, ports, row, bound.1),
        None => true,
    }
}

/// Largest: where a flow uses an arc, it is at least the greatest preemptable frame there.
pub(crate) fn largest_covers(net: &Network, rows: &[Row], row: &ArcRow) -> bool
    ensures { result ≡ largest_covers net.now rows.now row.now }
{
    !has_flow(rows, row.arc) || largest_at(net, row.arc) <= row.largest
}
