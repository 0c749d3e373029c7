ghost use Rattle.std.specs.Prelude.{◌≡◌, ℕ, IfSome, IfNone, position, is_none};
ghost use Rattle.std.specs.Option.{option_map};
ghost use Rattle.pre_streams.specs.Hops.{IsNextArc, TakesArc, TakesArcBy, place_of_row};
ghost use Rattle.pre_streams.specs.Joined.{first_flow};

use crate::Row;
use pre_base::{ArcId, NodeId};

/// The arc that the row's route takes from the node.
fn arc_from(row: &Row, node: NodeId) -> Option<ArcId>
    ensures found { IfSome result (λ arc. TakesArc node arc row.now) }
    ensures missing { IfNone result ((arc : ArcId) → ¬ TakesArc node arc row.now) }
{
    let route = row.route.as_slice();
    for (hop, arc) in row.arcs.as_slice().iter().enumerate() {
        if route.get(hop) == Some(&node) {
            return Some(*arc);
        }
    }
    None
}

/// The same, where the row has this VID.
fn arc_by(row: &Row, node: NodeId, vid: u16) -> Option<ArcId>
    ensures found { IfSome result (λ arc. TakesArcBy node vid arc row.now) }
    ensures missing { IfNone result ((arc : ArcId) → ¬ TakesArcBy node vid arc row.now) }
{
    if row.vid == vid {
        arc_from(row, node)
    } else {
        None
    }
}

/// The arc that the route of the VID takes from the node.
pub(crate) fn arc_of_vid(rows: &[Row], node: NodeId, vid: u16) -> Option<ArcId>
    ensures { IsNextArc rows.now node vid result }
{
    for row in rows {
        if let Some(arc) = arc_by(row, node, vid) {
            return Some(arc);
        }
    }
    None
}

/// The place of the first row of this name.
pub(crate) fn place_of(rows: &[Row], word: &[u8]) -> Option<usize>
    ensures { result ≡ place_of_row rows.now word.now }
{
    rows.iter()
        .position(|row| row.name.as_str().as_bytes() == word)
}

fn flow_place(rows: &[Row]) -> Option<usize>
    ensures { result ≡ position (λ r. is_none r.curve) rows.now }
{
    rows.iter().position(|row| row.curve.is_none())
}

/// The place of the first flow, and the number of the rows where there is none.
pub(crate) fn first_flow(rows: &[Row]) -> usize
    ensures { result ≡ first_flow rows.now }
{
    flow_place(rows).unwrap_or(rows.len())
}
