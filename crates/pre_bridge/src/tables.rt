ghost use Rattle.std.specs.Prelude.{◌≡◌, IfOk};
ghost use Rattle.std.specs.List.{flat_map};
ghost use Rattle.pre_bridge.specs.Table.{hops_of, arc_among};

use pre_base::{ArcId, NodeId};
use pre_streams::Row;
use std::alloc::{AllocError, Global};

/// One entry of the forwarding table: under this VID frames leave the node by the arc.
#[derive(Clone, Copy, Debug)]
pub struct Hop {
    pub node: NodeId,
    pub vid: u16,
    pub arc: ArcId,
}

/// The hops of all routes, in the order of the rows.
pub(crate) fn table_of(alloc: Global, rows: &[Row]) -> Result<Vec<Hop>, AllocError>
    ensures { IfOk result (λ hops. hops.items ≡ flat_map hops_of rows.now) }
{
    let mut hops = Vec::new(alloc);
    for row in rows {
        let more = hops_of(alloc, row)?;
        hops.extend_from_slice(more.as_slice())?;
    }
    Ok(hops)
}

/// The hops of a row's route.
fn hops_of(alloc: Global, row: &Row) -> Result<Vec<Hop>, AllocError>
    ensures { IfOk result (λ hops. hops.items ≡ hops_of row.now) }
{
    let vid = row.vid;
    let ends = row.route.as_slice().iter().copied();
    ends.zip(row.arcs.as_slice().iter().copied())
        .map(|(node, arc)| Hop { node, vid, arc })
        .collect(alloc)
}

/// The arc of the first hop from the node under this VID.
pub(crate) fn arc_among(hops: &[Hop], node: NodeId, vid: u16) -> Option<ArcId>
    ensures { result ≡ arc_among hops.now node vid }
{
    let hop = hops.iter().find(|hop| hop.node == node && hop.vid == vid)?;
    Some(hop.arc)
}
