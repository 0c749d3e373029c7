ghost use Rattle.std.specs.Prelude.{◌≡◌, ◌↔◌, ℕ, All, Option, None, Some, IfSome};
ghost use Rattle.pre_base.specs.declared.numbers.NodeId.{NodeId};
ghost use Rattle.pre_base.specs.declared.numbers.ArcId.{ArcId};
ghost use Rattle.pre_topo.specs.declared.network.Network.{Network};
ghost use Rattle.pre_streams.specs.declared.rows.Streams.{Streams};
ghost use Rattle.pre_streams.specs.Fits.{Fits};
ghost use Rattle.pre_streams.specs.Hops.{IsNextArc, TakesArc};
ghost use Rattle.pre_streams.specs.Rows.{Leads};

/// Where streams fit a network, the next arc from a node by a VID is the arc that the route of each row with
/// that VID takes from the node, and leads from there. There is none exactly where no row with that VID leaves the node.
pub fn routes_law()
    ensures follows { (net : Network) (streams : Streams) (node : NodeId) (vid : ℕ) (next : Option ArcId) → Fits net streams → IsNextArc streams.rows node vid next
        → All (λ r. r.vid ≡ vid → (arc : ArcId) → (next ≡ Some arc) ↔ TakesArc node arc r) streams.rows }
    ensures none { (net : Network) (streams : Streams) (node : NodeId) (vid : ℕ) (next : Option ArcId) → Fits net streams → IsNextArc streams.rows node vid next
        → (next ≡ None) ↔ All (λ r. r.vid ≡ vid → (arc : ArcId) → ¬ TakesArc node arc r) streams.rows }
    ensures leads { (net : Network) (streams : Streams) (node : NodeId) (vid : ℕ) (next : Option ArcId) → Fits net streams → IsNextArc streams.rows node vid next
        → IfSome next (λ arc. (to : NodeId) × Leads net arc node to) }
{}
