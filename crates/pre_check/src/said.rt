ghost use Rattle.std.specs.Prelude.{◌≡◌, ◌==◌, ◌&&◌};
ghost use Rattle.std.specs.List.{find};
ghost use Rattle.std.specs.Option.{option_map};
ghost use Rattle.pre_check.specs.Said.{rank_in, largest_in, delay_in, burst_in, are_ranked};

use pre_base::{ArcId, Prio, StreamId};
use pre_bound::{ArcRow, HopRow, PortRow};

/// Whether each arc has a rank.
pub(crate) fn are_ranked(rows: &[ArcRow]) -> bool
    ensures { result ≡ are_ranked rows.now }
{
    rows.iter().all(|row| row.rank.is_some())
}

fn arc_row(rows: &[ArcRow], arc: ArcId) -> Option<&ArcRow>
    ensures { option_map (λ row. row.now) result ≡ find (λ row. row.arc.0 == arc.0) rows.now }
{
    rows.iter().find(|row| row.arc.0 == arc.0)
}

fn port_row(rows: &[PortRow], arc: ArcId, prio: Prio) -> Option<&PortRow>
    ensures { option_map (λ row. row.now) result ≡ find (λ row. row.arc.0 == arc.0 && row.prio == prio) rows.now }
{
    let prio = prio.number();
    rows.iter()
        .find(|row| row.arc.0 == arc.0 && row.prio.number() == prio)
}

fn hop_row(rows: &[HopRow], stream: StreamId, hop: u64) -> Option<&HopRow>
    ensures { option_map (λ row. row.now) result ≡ find (λ row. row.stream.0 == stream.0 && row.hop == hop) rows.now }
{
    rows.iter()
        .find(|row| row.stream.0 == stream.0 && row.hop == hop)
}

/// The rank of an arc.
pub(crate) fn rank_in(rows: &[ArcRow], arc: ArcId) -> u64
    ensures { result ≡ rank_in rows.now arc.0 }
{
    match arc_row(rows, arc) {
        Some(row) => row.rank.unwrap_or(0),
        None => 0,
    }
}

/// The greatest preemptable frame that is counted with on an arc, in octets.
pub(crate) fn largest_in(rows: &[ArcRow], arc: ArcId) -> u64
    ensures { result ≡ largest_in rows.now arc.0 }
{
    match arc_row(rows, arc) {
        Some(row) => row.largest,
        None => 0,
    }
}

/// The delay of a port, in ticks.
pub(crate) fn delay_in(rows: &[PortRow], arc: ArcId, prio: Prio) -> u64
    ensures { result ≡ delay_in rows.now arc.0 prio }
{
    match port_row(rows, arc, prio) {
        Some(row) => row.delay,
        None => 0,
    }
}

/// The burst of a stream at a hop, in wire octets.
pub(crate) fn burst_in(rows: &[HopRow], stream: StreamId, hop: u64) -> u64
    ensures { result ≡ burst_in rows.now stream.0 hop }
{
    match hop_row(rows, stream, hop) {
        Some(row) => row.burst,
        None => 0,
    }
}
