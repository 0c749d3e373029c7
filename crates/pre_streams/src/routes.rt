ghost use Rattle.std.specs.Prelude.{◌≡◌, ◌==◌, ◌+◌, ◌<◌, ◌^◌, length, position, is_some, not, slice_get};
ghost use Rattle.std.specs.List.{list_any, find, common_prefix_len};
ghost use Rattle.std.specs.Str.{bytes_eq};
ghost use Rattle.pre_table.specs.FirstFaults.{first_row};
ghost use Rattle.pre_streams.specs.NamedRoutes.{has_name, node_place, leads, arc_place};
ghost use Rattle.pre_streams.specs.FileRules.{is_station, is_station_at, is_end, is_linked, is_reached, has_kind_for, entry_breaks, difference, has_vid, other_route, hop_fault};

use crate::raw::RawFlow;
use pre_base::Name;
use pre_topo::{Arc, Network, Node, NodeKind};

fn place_in(nodes: &[Node], name: &Name) -> Option<usize>
    ensures { result ≡ position (has_name name.now) nodes.now }
{
    nodes.iter().position(|node| node.name.is_same(name))
}

/// The place of the node of this name.
pub(crate) fn node_place(net: &Network, name: &Name) -> Option<usize>
    ensures { result ≡ node_place net.now name.now }
{
    place_in(net.nodes.as_slice(), name)
}

fn is_station(kind: NodeKind) -> bool
    ensures { result ≡ is_station kind }
{
    match kind {
        NodeKind::Station => true,
        NodeKind::Bridge => false,
    }
}

fn is_station_at(net: &Network, node: usize) -> bool
    ensures { result ≡ is_station_at net.now node }
{
    match net.nodes.as_slice().get(node) {
        None => false,
        Some(node) => is_station(node.kind),
    }
}

fn leads(arc: &Arc, from: usize, to: usize) -> bool
    ensures { result ≡ leads from to arc.now }
{
    usize::from(arc.from.0) == from && usize::from(arc.to.0) == to
}

fn arc_in(arcs: &[Arc], from: usize, to: usize) -> Option<usize>
    ensures { result ≡ position (leads from to) arcs.now }
{
    arcs.iter().position(|arc| leads(arc, from, to))
}

/// The place of the arc from one node to another.
pub(crate) fn arc_place(net: &Network, from: usize, to: usize) -> Option<usize>
    ensures { result ≡ arc_place net.now from to }
{
    arc_in(net.arcs.as_slice(), from, to)
}

fn is_end(route: &[Name], hop: usize) -> bool
    requires { hop < length route.now }
    ensures { result ≡ is_end route.now hop }
{
    hop == 0 || hop + 1 == route.len()
}

fn is_linked(net: &Network, from: &Name, to: &Name) -> bool
    ensures { result ≡ is_linked net.now from.now to.now }
{
    match node_place(net, from) {
        None => false,
        Some(from) => match node_place(net, to) {
            None => false,
            Some(to) => arc_place(net, from, to).is_some(),
        },
    }
}

fn is_reached(net: &Network, route: &[Name], hop: usize, name: &Name) -> bool
    ensures { result ≡ is_reached net.now route.now hop name.now }
{
    if hop == 0 {
        return true;
    }
    match route.get(hop - 1) {
        None => false,
        Some(before) => is_linked(net, before, name),
    }
}

fn has_kind_for(net: &Network, route: &[Name], hop: usize, name: &Name) -> bool
    requires { hop < length route.now }
    ensures { result ≡ has_kind_for net.now route.now hop name.now }
{
    match node_place(net, name) {
        None => false,
        Some(node) => {
            if is_end(route, hop) {
                is_station_at(net, node)
            } else {
                !is_station_at(net, node)
            }
        }
    }
}

fn is_visited(entries: &[Name], name: &Name) -> bool
    ensures { result ≡ list_any (bytes_eq name.now) entries.now }
{
    entries.iter().any(|entry| name.is_same(entry))
}

fn entry_breaks(net: &Network, route: &[Name], hop: usize, name: &Name) -> bool
    requires { hop < length route.now }
    ensures { result ≡ entry_breaks net.now route.now hop name.now }
{
    !has_kind_for(net, route, hop, name)
        || is_visited(&route[..hop], name)
        || !is_reached(net, route, hop, name)
}

fn bad_entry(net: &Network, route: &[Name]) -> Option<usize>
    ensures { result ≡ first_row (entry_breaks net.now route.now) route.now }
{
    route
        .iter()
        .enumerate()
        .position(|(hop, name)| entry_breaks(net, route, hop, name))
}

fn common_len(a: &[Name], b: &[Name]) -> usize
    ensures { result ≡ common_prefix_len bytes_eq a.now b.now }
{
    let shorter = a.len().min(b.len());
    for hop in 0..shorter {
        if !a[hop].is_same(&b[hop]) {
            return hop;
        }
    }
    shorter
}

fn difference(a: &[Name], b: &[Name]) -> Option<usize>
    ensures { result ≡ difference a.now b.now }
{
    let common = common_len(a, b);
    if common == a.len() && common == b.len() {
        None
    } else {
        Some(common)
    }
}

/// Where the row's route differs from that of the first row of its VID, which stands at this place.
fn other_route(rows: &[RawFlow], first: usize, row: &RawFlow) -> Option<usize>
    requires { find (has_vid row.now.vid) rows.now ≡ slice_get rows.now first }
    ensures { result ≡ other_route rows.now row.now }
{
    match rows.get(first) {
        None => None,
        Some(first) => difference(first.route.as_slice(), row.route.as_slice()),
    }
}

/// The first entry of the row's route that breaks a rule, where the first row of its VID stands at this place.
pub(crate) fn hop_fault(
    net: &Network,
    rows: &[RawFlow],
    first: usize,
    row: &RawFlow,
) -> Option<usize>
    requires { find (has_vid row.now.vid) rows.now ≡ slice_get rows.now first }
    ensures { result ≡ hop_fault net.now rows.now row.now }
{
    if let Some(hop) = bad_entry(net, row.route.as_slice()) {
        return Some(hop);
    }
    other_route(rows, first, row)
}
