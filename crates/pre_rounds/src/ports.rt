ghost use Rattle.std.specs.Prelude.{◌≡◌, ℕ, ◌+◌, ◌*◌, ◌<◌, ◌≤◌, ◌^◌, length, MatchOption, true, false};
ghost use Rattle.std.specs.List.{list_any, enumerate_from};
ghost use Rattle.std.specs.Option.{SomeIff};
ghost use Rattle.pre_bound.specs.Solutions.{least_size};
ghost use Rattle.pre_bound.specs.Uses.{rates_on};
ghost use Rattle.pre_certify.specs.Loads.{is_overloaded};
ghost use Rattle.pre_certify.specs.Tables.{AreWithin};
ghost use Rattle.pre_rounds.specs.Rounds.{bursts_over, work_over, port_over};
ghost use Rattle.pre_rounds.specs.Passing.{numbers_pass, goes_on, leaving_passes, passes_over, differs_behind, some_differs};
ghost use Rattle.pre_rounds.specs.Routed.{AreShort};
ghost use Rattle.pre_rounds.specs.Tables.{bursts_in};

use crate::tables::burst_at;
use pre_base::{ArcId, Prio};
use pre_bound::{Certificate, PortRow, grown, hop_delay, queue_size};
use pre_certify::{block_octets, cost_at, hop_of, is_on, rate_of, rates_on};
use pre_streams::Row;
use pre_topo::Network;

/// The sum of the bursts at the arc of its streams with priorities from low up to below high: None exactly where it
/// passes the limit.
fn bursts_over(rows: &[Row], bursts: &[u64], arc: ArcId, low: u8, high: u8) -> Option<u64>
    requires few { length rows.now ≤ 512 }
    requires within { AreWithin bursts.now }
    requires short { AreShort rows.now }
    ensures { SomeIff result (bursts_over (bursts_in bursts.now) arc.0 low high rows.now ≤ 10 ^ 12) (bursts_over (bursts_in bursts.now) arc.0 low high rows.now) }
{
    let mut sum = 0;
    for (stream, row) in rows.iter().enumerate() {
        if is_on(row, arc, low, high) {
            sum += burst_at(bursts, stream, hop_of(row, arc));
        }
    }
    if sum <= Certificate::LIMIT {
        Some(sum)
    } else {
        None
    }
}

/// The least work of a port: None exactly where it passes the limit.
fn work_over(net: &Network, rows: &[Row], bursts: &[u64], arc: ArcId, prio: u8) -> Option<u64>
    requires few { length rows.now ≤ 512 }
    requires within { AreWithin bursts.now }
    requires short { AreShort rows.now }
    requires arc { arc.0 < length net.now.arcs }
    ensures { SomeIff result (work_over net.now rows.now (bursts_in bursts.now) arc.0 prio ≤ 10 ^ 12) (work_over net.now rows.now (bursts_in bursts.now) arc.0 prio) }
{
    let work = cost_at(net, arc) * bursts_over(rows, bursts, arc, prio, 8)?;
    if work > Certificate::LIMIT {
        return None;
    }
    Some(work)
}

/// The least size of a port with this delay: None exactly where it passes the limit.
fn size_with(rows: &[Row], bursts: &[u64], arc: ArcId, prio: u8, delay: u64) -> Option<u64>
    requires few { length rows.now ≤ 512 }
    requires within { AreWithin bursts.now }
    requires short { AreShort rows.now }
    requires prio { prio < 8 }
    requires delay { delay ≤ 10 ^ 12 }
    requires rates { rates_on arc.0 prio (prio + 1) rows.now ≤ 10 ^ 12 }
    ensures { let size = least_size (bursts_over (bursts_in bursts.now) arc.0 prio (prio + 1) rows.now) (rates_on arc.0 prio (prio + 1) rows.now) delay in SomeIff result (size ≤ 10 ^ 12) size }
{
    let bursts = bursts_over(rows, bursts, arc, prio, prio + 1)?;
    queue_size(bursts, rates_on(rows, arc, prio, prio + 1), delay)
}

/// The least block, work, rate, delay and size of a port: None exactly where one of them passes the limit.
fn port_numbers(
    net: &Network,
    rows: &[Row],
    bursts: &[u64],
    arc: ArcId,
    prio: u8,
) -> Option<PortRow>
    requires few { length rows.now ≤ 512 }
    requires within { AreWithin bursts.now }
    requires short { AreShort rows.now }
    requires prio { prio < 8 }
    requires arc { arc.0 < length net.now.arcs }
    requires load { is_overloaded net.now rows.now arc.0 ≡ false }
    ensures { let b = bursts_in bursts.now in let large = numbers_pass net.now rows.now b arc.0 prio in
        MatchOption result (large ≡ true) (λ row. (large ≡ false) × (row ≡ port_over net.now rows.now b arc.0 prio)) }
{
    let cost = cost_at(net, arc);
    let block = cost * block_octets(net, rows, arc, prio);
    let work = work_over(net, rows, bursts, arc, prio)?;
    let rate = rates_on(rows, arc, prio + 1, 8);
    let delay = hop_delay(block, work, rate, cost)?;
    let size = size_with(rows, bursts, arc, prio, delay)?;
    Some(PortRow {
        arc,
        prio: Prio(prio),
        block,
        work,
        rate,
        delay,
        size,
    })
}

/// Whether the row is a stream of the port and has a hop behind it.
fn goes_on(row: &Row, arc: ArcId, prio: u8) -> bool
    requires prio { prio < 8 }
    requires short { length row.now.arcs ≤ 16 }
    ensures { result ≡ goes_on arc.0 prio row.now }
{
    is_on(row, arc, prio, prio + 1) && hop_of(row, arc) + 1 < row.arcs.len()
}

/// Whether, with this delay at the port, the burst with which the row leaves it for its next hop passes the limit.
fn leaving_passes(
    net: &Network,
    bursts: &[u64],
    arc: ArcId,
    prio: u8,
    delay: u64,
    stream: usize,
    row: &Row,
) -> bool
    requires within { AreWithin bursts.now }
    requires prio { prio < 8 }
    requires delay { delay ≤ 10 ^ 12 }
    requires stream { stream < 512 }
    requires short { length row.now.arcs ≤ 16 }
    ensures { result ≡ leaving_passes net.now (bursts_in bursts.now) arc.0 prio delay (stream, row.now) }
{
    if !goes_on(row, arc, prio) {
        return false;
    }
    let burst = burst_at(bursts, stream, hop_of(row, arc));
    grown(burst, rate_of(row), delay, cost_at(net, arc)).is_none()
}

/// Whether a burst that leaves the port passes the limit.
fn some_leaving_passes(
    net: &Network,
    rows: &[Row],
    bursts: &[u64],
    arc: ArcId,
    prio: u8,
    delay: u64,
) -> bool
    requires few { length rows.now ≤ 512 }
    requires within { AreWithin bursts.now }
    requires short { AreShort rows.now }
    requires prio { prio < 8 }
    requires delay { delay ≤ 10 ^ 12 }
    ensures { result ≡ list_any (leaving_passes net.now (bursts_in bursts.now) arc.0 prio delay) (enumerate_from 0 rows.now) }
{
    for (stream, row) in rows.iter().enumerate() {
        if leaving_passes(net, bursts, arc, prio, delay, stream, row) {
            return true;
        }
    }
    false
}

/// The row of a port: None exactly where a number of it, or a burst that leaves it, passes the limit.
pub(crate) fn port_over(
    net: &Network,
    rows: &[Row],
    bursts: &[u64],
    arc: ArcId,
    prio: u8,
) -> Option<PortRow>
    requires few { length rows.now ≤ 512 }
    requires within { AreWithin bursts.now }
    requires short { AreShort rows.now }
    requires prio { prio < 8 }
    requires arc { arc.0 < length net.now.arcs }
    requires load { is_overloaded net.now rows.now arc.0 ≡ false }
    ensures { let b = bursts_in bursts.now in let large = passes_over net.now rows.now b arc.0 prio in
        MatchOption result (large ≡ true) (λ row. (large ≡ false) × (row ≡ port_over net.now rows.now b arc.0 prio)) }
{
    let row = port_numbers(net, rows, bursts, arc, prio)?;
    if some_leaving_passes(net, rows, bursts, arc, prio, row.delay) {
        return None;
    }
    Some(row)
}

/// Whether the row has another burst at the hop behind the port.
fn differs_behind(
    bursts: &[u64],
    other: &[u64],
    arc: ArcId,
    prio: u8,
    stream: usize,
    row: &Row,
) -> bool
    requires within { AreWithin bursts.now }
    requires other { AreWithin other.now }
    requires prio { prio < 8 }
    requires stream { stream < 512 }
    requires short { length row.now.arcs ≤ 16 }
    ensures { result ≡ differs_behind (bursts_in bursts.now) (bursts_in other.now) arc.0 prio (stream, row.now) }
{
    if !goes_on(row, arc, prio) {
        return false;
    }
    let hop = hop_of(row, arc) + 1;
    burst_at(bursts, stream, hop) != burst_at(other, stream, hop)
}

/// Whether a row has another burst at the hop behind the port.
pub(crate) fn some_differs(
    rows: &[Row],
    bursts: &[u64],
    other: &[u64],
    arc: ArcId,
    prio: u8,
) -> bool
    requires few { length rows.now ≤ 512 }
    requires within { AreWithin bursts.now }
    requires other { AreWithin other.now }
    requires short { AreShort rows.now }
    requires prio { prio < 8 }
    ensures { result ≡ some_differs rows.now (bursts_in bursts.now) (bursts_in other.now) arc.0 prio }
{
    for (stream, row) in rows.iter().enumerate() {
        if differs_behind(bursts, other, arc, prio, stream, row) {
            return true;
        }
    }
    false
}
