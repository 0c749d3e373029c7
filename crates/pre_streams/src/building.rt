ghost use Rattle.std.specs.Prelude.{◌≡◌, IfOk, IsTrue, All, length, map, option_map, slice_get};
ghost use Rattle.std.specs.Prelude.{ℕ, ◌<◌, true, Option};
ghost use Rattle.std.specs.Option.{option_map_or};
ghost use Rattle.pre_table.specs.Values.{natural};
ghost use Rattle.pre_streams.specs.declared.raw.RawCurve.{RawCurve};
ghost use Rattle.pre_streams.specs.FileRules.{row_in_range, curve_in_range};
ghost use Rattle.pre_streams.specs.NamedRoutes.{node_id, arc_id, arcs_along, route_made};
ghost use Rattle.pre_streams.specs.Made.{curve_made, curve_parts, row_made, row_parts, rows_made};

use crate::Row;
use crate::raw::{RawCurve, RawFlow, RawStreams};
use crate::routes::{arc_place, node_place};
use pre_base::{ArcId, Items, Name, NodeId, Prio};
use pre_curve::Curve;
use pre_topo::Network;
use std::alloc::{AllocError, Global};

pub(crate) fn node_id(net: &Network, name: &Name) -> NodeId
    ensures { result ≡ node_id net.now name.now }
{
    match node_place(net, name) {
        None => NodeId(0),
        Some(place) => NodeId(place as u16),
    }
}

pub(crate) fn arc_id(net: &Network, from: NodeId, to: NodeId) -> ArcId
    ensures { result ≡ arc_id net.now from to }
{
    match arc_place(net, usize::from(from.0), usize::from(to.0)) {
        None => ArcId(0),
        Some(place) => ArcId(place as u16),
    }
}

fn route_made(alloc: Global, net: &Network, route: &[Name]) -> Result<Items<NodeId>, AllocError>
    ensures { IfOk result (λ made. made ≡ route_made net.now route.now) }
{
    let mut made = Items::new(alloc);
    for name in route {
        made.push(node_id(net, name))?;
    }
    Ok(made)
}

fn arcs_along(alloc: Global, net: &Network, route: &[NodeId]) -> Result<Items<ArcId>, AllocError>
    ensures { IfOk result (λ arcs. arcs ≡ arcs_along net.now route.now) }
{
    let mut arcs = Items::new(alloc);
    let mut rest = route;
    while let [from, to, ..] = rest {
        arcs.push(arc_id(net, *from, *to))?;
        rest = &rest[1..];
    }
    Ok(arcs)
}

fn curve_made(curve: &RawCurve) -> Curve
    requires { IsTrue (curve_in_range curve.now) }
    ensures { curve_parts result ≡ curve_made curve.now }
{
    Curve {
        burst: curve.burst.natural(),
        rate: curve.rate.natural(),
    }
}

fn curve_at(curves: &[RawCurve], place: usize) -> Option<Curve>
    requires { IsTrue (option_map_or curve_in_range (slice_get curves.now place) true) }
    ensures { option_map curve_parts result ≡ option_map curve_made (slice_get curves.now place) }
{
    match curves.get(place) {
        None => None,
        Some(curve) => Some(curve_made(curve)),
    }
}

fn prio_made(row: &RawFlow) -> Prio
    requires { IsTrue (row_in_range row.now) }
    ensures { result ≡ natural row.now.prio }
{
    Prio(row.prio.natural() as u8)
}

fn row_made(
    alloc: Global,
    net: &Network,
    curve: Option<Curve>,
    row: &RawFlow,
) -> Result<Row, AllocError>
    requires { IsTrue (row_in_range row.now) }
    ensures { IfOk result (λ r. (raw : Option RawCurve) → option_map curve_parts curve ≡ option_map curve_made raw → row_parts r ≡ row_made net.now raw row.now) }
{
    let route = route_made(alloc, net, row.route.as_slice())?;
    let arcs = arcs_along(alloc, net, route.as_slice())?;
    Ok(Row {
        name: Name::copied(alloc, row.name.as_str())?,
        vid: row.vid.natural() as u16,
        prio: prio_made(row),
        route,
        arcs,
        max: row.max.natural() as u16,
        curve,
    })
}

pub(crate) fn rows_made(
    alloc: Global,
    net: &Network,
    raw: &RawStreams,
) -> Result<Items<Row>, AllocError>
    requires rows { All (λ r. IsTrue (row_in_range r)) raw.now.rows }
    requires curves { (k : ℕ) → k < length raw.now.rows → IsTrue (option_map_or curve_in_range (slice_get raw.now.curves k) true) }
    ensures { IfOk result (λ rows. map row_parts rows ≡ rows_made net.now raw.now) }
{
    let mut made = Items::new(alloc);
    for (place, row) in raw.rows.as_slice().iter().enumerate() {
        let curve = curve_at(raw.curves.as_slice(), place);
        made.push(row_made(alloc, net, curve, row)?)?;
    }
    Ok(made)
}
