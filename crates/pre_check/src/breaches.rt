ghost use Rattle.std.specs.Prelude.{◌≡◌, ◌≤◌, length};
ghost use Rattle.std.specs.Option.{option_map};
ghost use Rattle.pre_check.specs.Tests.{rank_rises, load_fits, burst_begins, block_covers, work_covers, delay_covers, growth_covers, size_covers, ring_fits, bound_covers, largest_covers};
ghost use Rattle.pre_check.specs.Breaches.{breaches, fails_at, later};

use crate::clauses::{
    block_covers, bound_covers, burst_begins, delay_covers, growth_covers, largest_covers,
    load_fits, rank_rises, ring_fits, size_covers, work_covers,
};
use crate::said::are_ranked;
use pre_base::StreamId;
use pre_bound::{ArcRow, HopRow, PortRow};
use pre_streams::Row;
use pre_topo::Network;

/// A line so many further.
fn later(from: u64, places: usize) -> u64
    ensures { result ≡ later from places }
{
    from.saturating_add(places as u64)
}

/// The line of a place, of lines that begin here.
fn line_at(from: u64, place: Option<usize>) -> Option<u64>
    ensures { result ≡ option_map (later from) place }
{
    match place {
        Some(place) => Some(later(from, place)),
        None => None,
    }
}

fn rank_order(rows: &[Row], arcs: &[ArcRow], hops: &[HopRow]) -> Option<usize>
    ensures { result ≡ fails_at (rank_rises rows.now arcs.now) hops.now }
{
    let ranked = are_ranked(arcs);
    hops.iter()
        .position(|hop| !rank_rises(rows, arcs, ranked, hop))
}

fn load(net: &Network, rows: &[Row], arcs: &[ArcRow]) -> Option<usize>
    requires { length rows.now ≤ 512 }
    ensures { result ≡ fails_at (load_fits net.now rows.now) arcs.now }
{
    arcs.iter().position(|row| !load_fits(net, rows, row))
}

fn first_burst(rows: &[Row], hops: &[HopRow]) -> Option<usize>
    ensures { result ≡ fails_at (burst_begins rows.now) hops.now }
{
    hops.iter().position(|hop| !burst_begins(rows, hop))
}

fn block(net: &Network, rows: &[Row], arcs: &[ArcRow], ports: &[PortRow]) -> Option<usize>
    ensures { result ≡ fails_at (block_covers net.now rows.now arcs.now) ports.now }
{
    ports
        .iter()
        .position(|row| !block_covers(net, rows, arcs, row))
}

fn work(net: &Network, rows: &[Row], hops: &[HopRow], ports: &[PortRow]) -> Option<usize>
    requires { length rows.now ≤ 512 }
    ensures { result ≡ fails_at (work_covers net.now rows.now hops.now) ports.now }
{
    ports
        .iter()
        .position(|row| !work_covers(net, rows, hops, row))
}

fn delay(net: &Network, ports: &[PortRow]) -> Option<usize>
    ensures { result ≡ fails_at (delay_covers net.now) ports.now }
{
    ports.iter().position(|row| !delay_covers(net, row))
}

fn growth(net: &Network, rows: &[Row], ports: &[PortRow], hops: &[HopRow]) -> Option<usize>
    ensures { result ≡ fails_at (growth_covers net.now rows.now ports.now hops.now) hops.now }
{
    hops.iter()
        .position(|hop| !growth_covers(net, rows, ports, hops, hop))
}

fn size(rows: &[Row], hops: &[HopRow], ports: &[PortRow]) -> Option<usize>
    requires { length rows.now ≤ 512 }
    ensures { result ≡ fails_at (size_covers rows.now hops.now) ports.now }
{
    ports.iter().position(|row| !size_covers(rows, hops, row))
}

fn ring(net: &Network, ports: &[PortRow]) -> Option<usize>
    ensures { result ≡ fails_at (ring_fits net.now) ports.now }
{
    ports.iter().position(|row| !ring_fits(net, row))
}

fn bound(
    net: &Network,
    rows: &[Row],
    ports: &[PortRow],
    bounds: &[(StreamId, u64)],
) -> Option<usize>
    ensures { result ≡ fails_at (bound_covers net.now rows.now ports.now) bounds.now }
{
    bounds
        .iter()
        .position(|row| !bound_covers(net, rows, ports, row))
}

fn largest(net: &Network, rows: &[Row], arcs: &[ArcRow]) -> Option<usize>
    ensures { result ≡ fails_at (largest_covers net.now rows.now) arcs.now }
{
    arcs.iter().position(|row| !largest_covers(net, rows, row))
}

/// The first line at which each clause fails.
pub(crate) fn breaches(
    net: &Network,
    rows: &[Row],
    arcs: &[ArcRow],
    ports: &[PortRow],
    hops: &[HopRow],
    bounds: &[(StreamId, u64)],
) -> [Option<u64>; 11]
    requires { length rows.now ≤ 512 }
    ensures { result ≡ breaches net.now rows.now arcs.now ports.now hops.now bounds.now }
{
    let port_lines = later(2, arcs.len());
    let hop_lines = later(port_lines, ports.len());
    let bound_lines = later(hop_lines, hops.len());
    [
        line_at(hop_lines, rank_order(rows, arcs, hops)),
        line_at(2, load(net, rows, arcs)),
        line_at(hop_lines, first_burst(rows, hops)),
        line_at(port_lines, block(net, rows, arcs, ports)),
        line_at(port_lines, work(net, rows, hops, ports)),
        line_at(port_lines, delay(net, ports)),
        line_at(hop_lines, growth(net, rows, ports, hops)),
        line_at(port_lines, size(rows, hops, ports)),
        line_at(port_lines, ring(net, ports)),
        line_at(bound_lines, bound(net, rows, ports, bounds)),
        line_at(2, largest(net, rows, arcs)),
    ]
}
