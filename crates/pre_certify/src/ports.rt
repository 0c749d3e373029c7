ghost use Rattle.std.specs.Prelude.{◌≡◌, ℕ, ◌+◌, ◌*◌, ◌<◌, ◌≤◌, ◌^◌, length, take, IsTrue, MatchOption, true, false, nat_lt};
ghost use Rattle.std.specs.List.{list_any};
ghost use Rattle.std.specs.Option.{SomeIff};
ghost use Rattle.pre_bound.specs.Uses.{is_on, hop_of, takes, block_octets, fragment_octets, preemptable_octets, preemptable_at, largest_at, largest_used, cost_at, rates_on};
ghost use Rattle.pre_bound.specs.Along.{burst_at, burst_on, bursts_on, hop_ticks, route_ticks, least_work, port_delay};
ghost use Rattle.pre_bound.specs.Clauses.{Load};
ghost use Rattle.pre_topo.specs.Arcs.{latency_at};
ghost use Rattle.pre_certify.specs.Tables.{delays_in, AreWithin};
ghost use Rattle.pre_bound.specs.Passing.{next_passes, ticks_before, ticks_through, stream_passes, size_over, port_passes, passes, least_port};
ghost use Rattle.pre_certify.specs.Loads.{is_overloaded};

use crate::loads::{burst_of, cost_at, has_flow, hop_of, is_on, rate_of, rates_on};
use pre_base::{ArcId, NodeId, OVERHEAD, Prio};
use pre_bound::{Certificate, PortRow, grown, hop_delay, queue_size};
use pre_streams::Row;
use pre_topo::{Arc, Mode, Network, Policy};

/// The delay of a port in ticks, from the table of eight for each arc.
pub fn delay_at(delays: &[u64], arc: ArcId, prio: Prio) -> u64
    requires { AreWithin delays.now }
    ensures delay { result ≡ delays_in delays.now arc.0 prio }
    ensures within { result ≤ 10 ^ 12 }
{
    let place = arc.0 as usize * 8 + prio.number() as usize;
    match delays.get(place) {
        Some(delay) => *delay,
        None => 0,
    }
}

/// The burst of a stream at a hop of its route: None exactly where it passes the limit.
pub(crate) fn burst_at(net: &Network, delays: &[u64], row: &Row, hop: usize) -> Option<u64>
    requires delays { AreWithin delays.now }
    requires hop { hop ≤ length row.now.arcs }
    ensures { SomeIff result (burst_at net.now (delays_in delays.now) row.now hop ≤ 10 ^ 12) (burst_at net.now (delays_in delays.now) row.now hop) }
{
    let rate = rate_of(row);
    let mut burst = burst_of(row);
    for arc in &row.arcs.as_slice()[..hop] {
        burst = grown(
            burst,
            rate,
            delay_at(delays, *arc, row.prio),
            cost_at(net, *arc),
        )?;
    }
    Some(burst)
}

/// The burst with which a stream comes to an arc: None exactly where it passes the limit.
fn burst_on(net: &Network, delays: &[u64], arc: ArcId, row: &Row) -> Option<u64>
    requires { AreWithin delays.now }
    ensures { SomeIff result (burst_on net.now (delays_in delays.now) arc.0 row.now ≤ 10 ^ 12) (burst_on net.now (delays_in delays.now) arc.0 row.now) }
{
    burst_at(net, delays, row, hop_of(row, arc))
}

/// The sum of the bursts at the arc of its streams with priorities from low up to below high: None exactly where it
/// passes the limit.
fn bursts_on(
    net: &Network,
    delays: &[u64],
    arc: ArcId,
    low: u8,
    high: u8,
    rows: &[Row],
) -> Option<u64>
    requires { AreWithin delays.now }
    ensures { SomeIff result (bursts_on net.now (delays_in delays.now) arc.0 low high rows.now ≤ 10 ^ 12) (bursts_on net.now (delays_in delays.now) arc.0 low high rows.now) }
{
    let mut bursts = 0;
    for row in rows {
        if is_on(row, arc, low, high) {
            bursts += burst_on(net, delays, arc, row)?;
            if bursts > Certificate::LIMIT {
                return None;
            }
        }
    }
    Some(bursts)
}

/// The greatest preemptable frame that the arc carries, in octets.
pub(crate) fn largest_at(net: &Network, arc: ArcId) -> u64
    ensures largest { result ≡ largest_at net.now arc.0 }
    ensures within { result ≤ 65535 }
{
    match net.arcs.as_slice().get(arc.0 as usize) {
        Some(a) => u64::from(a.largest),
        None => 0,
    }
}

/// The same, and 0 where no flow uses the arc.
pub fn largest_used(net: &Network, rows: &[Row], arc: ArcId) -> u64
    ensures largest { result ≡ largest_used net.now rows.now arc.0 }
    ensures within { result ≤ 65535 }
{
    if has_flow(rows, arc) {
        largest_at(net, arc)
    } else {
        0
    }
}

/// The octets of a fragment that can't be cut yet, with those that can't be cut off and a continuation's overhead.
fn fragment_octets(arc: &Arc) -> u64
    ensures octets { result ≡ fragment_octets arc.now }
    ensures within { result ≤ 20000 }
{
    64 * (1 + u64::from(arc.add_frag)) + 79
}

/// The octets for which preemptable frames of up to so many octets can hold the arc.
fn preemptable_octets(arc: &Arc, largest: u64) -> u64
    requires { largest ≤ 65535 }
    ensures octets { result ≡ preemptable_octets arc.now largest }
    ensures within { result ≤ 10 ^ 5 }
{
    if largest == 0 {
        return 0;
    }
    let whole = largest + u64::from(OVERHEAD);
    match (arc.mode, arc.policy) {
        (Mode::On, _) | (Mode::Negotiate, Policy::Quiet) => whole.min(fragment_octets(arc)),
        (Mode::Off, _) | (Mode::Negotiate, Policy::Pass) => whole,
    }
}

/// The octets for which the arc's preemptable frames can hold it.
fn preemptable_at(net: &Network, rows: &[Row], arc: ArcId) -> u64
    ensures octets { result ≡ preemptable_at net.now arc.0 (largest_used net.now rows.now arc.0) }
    ensures within { result ≤ 10 ^ 5 }
{
    match net.arcs.as_slice().get(arc.0 as usize) {
        Some(a) => preemptable_octets(a, largest_used(net, rows, arc)),
        None => 0,
    }
}

/// The octets of the longest one thing that can hold the arc before a priority.
pub fn block_octets(net: &Network, rows: &[Row], arc: ArcId, prio: u8) -> u64
    ensures octets { result ≡ block_octets net.now rows.now arc.0 prio }
    ensures within { result ≤ 10 ^ 5 }
{
    let mut most = preemptable_at(net, rows, arc).max(84);
    for row in rows {
        if is_on(row, arc, 0, prio) {
            most = most.max(u64::from(row.max) + u64::from(OVERHEAD));
        }
    }
    most
}

/// The latency of a node, and 0 where there is no such node.
fn latency_at(net: &Network, node: NodeId) -> u64
    ensures latency { result ≡ latency_at net.now.nodes node.0 }
    ensures within { result ≤ 10 ^ 9 }
{
    match net.nodes.as_slice().get(node.0 as usize) {
        Some(node) => node.latency,
        None => 0,
    }
}

/// The ticks of a hop with this delay, from the arrival at the node before it to the arrival at the one behind.
fn hop_ticks(net: &Network, arc: ArcId, delay: u64) -> u64
    requires { delay ≤ 10 ^ 12 }
    ensures ticks { result ≡ hop_ticks net.now arc.0 delay }
    ensures within { result ≤ 2 * 10 ^ 12 }
{
    match net.arcs.as_slice().get(arc.0 as usize) {
        Some(a) => latency_at(net, a.from) + delay.saturating_sub(12 * a.cost) + a.delay,
        None => 0,
    }
}

/// The ticks of a stream's hops before this one: None exactly where they pass the limit.
pub fn ticks_before(net: &Network, delays: &[u64], row: &Row, hop: usize) -> Option<u64>
    requires delays { AreWithin delays.now }
    requires hop { hop ≤ length row.now.arcs }
    ensures { SomeIff result (ticks_before net.now (delays_in delays.now) row.now hop ≤ 10 ^ 12) (ticks_before net.now (delays_in delays.now) row.now hop) }
{
    let mut ticks = 0;
    for arc in &row.arcs.as_slice()[..hop] {
        ticks += hop_ticks(net, *arc, delay_at(delays, *arc, row.prio));
        if ticks > Certificate::LIMIT {
            return None;
        }
    }
    Some(ticks)
}

/// Whether, with this delay at the arc, the burst of the stream at its next hop passes the limit.
fn next_passes(net: &Network, delays: &[u64], arc: ArcId, delay: u64, row: &Row) -> bool
    requires delays { AreWithin delays.now }
    requires delay { delay ≤ 10 ^ 12 }
    ensures { result ≡ next_passes net.now (delays_in delays.now) arc.0 delay row.now }
{
    let hop = hop_of(row, arc);
    if hop >= row.arcs.len() || hop + 1 == row.arcs.len() {
        return false;
    }
    match burst_on(net, delays, arc, row) {
        Some(burst) => grown(burst, rate_of(row), delay, cost_at(net, arc)).is_none(),
        None => true,
    }
}

/// Whether the ticks of the stream's hops up to this one, which has this delay, pass the limit.
fn ticks_pass(net: &Network, delays: &[u64], arc: ArcId, delay: u64, row: &Row) -> bool
    requires delays { AreWithin delays.now }
    requires delay { delay ≤ 10 ^ 12 }
    ensures { result ≡ nat_lt (10 ^ 12) (ticks_through net.now (delays_in delays.now) arc.0 delay row.now) }
{
    match ticks_before(net, delays, row, hop_of(row, arc)) {
        Some(ticks) => ticks + hop_ticks(net, arc, delay) > Certificate::LIMIT,
        None => true,
    }
}

/// Whether a number that the port gives to this row, where it is one of its streams, passes the limit.
fn stream_passes(net: &Network, delays: &[u64], arc: ArcId, prio: u8, delay: u64, row: &Row) -> bool
    requires delays { AreWithin delays.now }
    requires delay { delay ≤ 10 ^ 12 }
    requires prio { prio < 8 }
    ensures { result ≡ stream_passes net.now (delays_in delays.now) arc.0 prio delay row.now }
{
    is_on(row, arc, prio, prio + 1)
        && (next_passes(net, delays, arc, delay, row) || ticks_pass(net, delays, arc, delay, row))
}

/// Whether a number that the port gives to one of its streams passes the limit.
fn some_stream_passes(
    net: &Network,
    rows: &[Row],
    delays: &[u64],
    arc: ArcId,
    prio: u8,
    delay: u64,
) -> bool
    requires delays { AreWithin delays.now }
    requires delay { delay ≤ 10 ^ 12 }
    requires prio { prio < 8 }
    ensures { result ≡ list_any (stream_passes net.now (delays_in delays.now) arc.0 prio delay) rows.now }
{
    rows.iter()
        .any(|row| stream_passes(net, delays, arc, prio, delay, row))
}

/// The least work of a port: None exactly where it passes the limit.
fn least_work(net: &Network, rows: &[Row], delays: &[u64], arc: ArcId, prio: u8) -> Option<u64>
    requires delays { AreWithin delays.now }
    requires arc { arc.0 < length net.now.arcs }
    ensures { SomeIff result (least_work net.now rows.now (delays_in delays.now) arc.0 prio ≤ 10 ^ 12) (least_work net.now rows.now (delays_in delays.now) arc.0 prio) }
{
    let work = cost_at(net, arc) * bursts_on(net, delays, arc, prio, 8, rows)?;
    if work > Certificate::LIMIT {
        return None;
    }
    Some(work)
}

/// The least size of a port with this delay: None exactly where it passes the limit.
fn size_over(
    net: &Network,
    rows: &[Row],
    delays: &[u64],
    arc: ArcId,
    prio: u8,
    delay: u64,
) -> Option<u64>
    requires delays { AreWithin delays.now }
    requires prio { prio < 8 }
    requires few { length rows.now ≤ 512 }
    requires delay { delay ≤ 10 ^ 12 }
    requires rates { rates_on arc.0 prio (prio + 1) rows.now ≤ 10 ^ 12 }
    ensures { SomeIff result (size_over net.now rows.now (delays_in delays.now) arc.0 prio delay ≤ 10 ^ 12) (size_over net.now rows.now (delays_in delays.now) arc.0 prio delay) }
{
    let bursts = bursts_on(net, delays, arc, prio, prio + 1, rows)?;
    queue_size(bursts, rates_on(rows, arc, prio, prio + 1), delay)
}

/// The least block, work, rate, delay and size of a port: None exactly where one of them passes the limit.
fn port_numbers(
    net: &Network,
    rows: &[Row],
    delays: &[u64],
    arc: ArcId,
    prio: u8,
) -> Option<PortRow>
    requires delays { AreWithin delays.now }
    requires prio { prio < 8 }
    requires arc { arc.0 < length net.now.arcs }
    requires few { length rows.now ≤ 512 }
    requires load { is_overloaded net.now rows.now arc.0 ≡ false }
    ensures { MatchOption result (port_passes net.now rows.now (delays_in delays.now) arc.0 prio ≡ true)
        (λ row. (port_passes net.now rows.now (delays_in delays.now) arc.0 prio ≡ false)
        × (row ≡ least_port net.now rows.now (delays_in delays.now) arc.0 prio)) }
{
    let cost = cost_at(net, arc);
    let block = cost * block_octets(net, rows, arc, prio);
    let work = least_work(net, rows, delays, arc, prio)?;
    let rate = rates_on(rows, arc, prio + 1, 8);
    let delay = hop_delay(block, work, rate, cost)?;
    let size = size_over(net, rows, delays, arc, prio, delay)?;
    Some(PortRow {
        arc,
        prio: Prio(prio),
        block,
        work,
        rate,
        delay,
        size,
    })
}

/// The same: None exactly where one of them, or what they give to a stream of the port, passes the limit.
pub(crate) fn port_row(
    net: &Network,
    rows: &[Row],
    delays: &[u64],
    arc: ArcId,
    prio: u8,
) -> Option<PortRow>
    requires delays { AreWithin delays.now }
    requires prio { prio < 8 }
    requires arc { arc.0 < length net.now.arcs }
    requires few { length rows.now ≤ 512 }
    requires load { is_overloaded net.now rows.now arc.0 ≡ false }
    ensures { MatchOption result (passes net.now rows.now (delays_in delays.now) arc.0 prio ≡ true)
        (λ row. (passes net.now rows.now (delays_in delays.now) arc.0 prio ≡ false)
        × (row ≡ least_port net.now rows.now (delays_in delays.now) arc.0 prio)) }
{
    let row = port_numbers(net, rows, delays, arc, prio)?;
    if some_stream_passes(net, rows, delays, arc, prio, row.delay) {
        return None;
    }
    Some(row)
}
