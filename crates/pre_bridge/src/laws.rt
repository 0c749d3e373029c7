ghost use Rattle.std.specs.Prelude.{◌≡◌, ◌<◌, ◌≤◌, ◌+◌, ◌*◌, ◌/◌, ◌↔◌, ℕ, List, [], ◌∷◌, ◌++◌};
ghost use Rattle.std.specs.Prelude.{length, filter, replicate, not, slice_get, All, None, Some};
ghost use Rattle.pre_base.specs.declared.numbers.NodeId.{NodeId};
ghost use Rattle.pre_base.specs.declared.numbers.ArcId.{ArcId};
ghost use Rattle.pre_topo.specs.declared.network.Network.{Network};
ghost use Rattle.pre_topo.specs.declared.arcs.Arc.{Arc};
ghost use Rattle.pre_topo.specs.Arcs.{latency_at};
ghost use Rattle.pre_streams.specs.declared.rows.Row.{Row};
ghost use Rattle.pre_streams.specs.declared.rows.Streams.{Streams};
ghost use Rattle.pre_streams.specs.Hops.{VidTakesArc};
ghost use Rattle.pre_streams.specs.Fits.{Fits};
ghost use Rattle.pre_bridge.specs.declared.relays.Relay.{Relay};
ghost use Rattle.pre_bridge.specs.Table.{next_arc, onward};
ghost use Rattle.pre_bridge.specs.Inside.{Call, Entry, taken, inside, leaving, is_due, last_kept, has_room, of_arc};
ghost use Rattle.pre_bridge.specs.Turns.{IsTurn, dues};
ghost use Rattle.pre_bridge.specs.Relays.{Stands, has_space};

use pre_streams::routes_law;

/// What the calls for which a relay stands say of what its other calls require.
pub fn calls_law()
    ensures latest { (relay : Relay) (net : Network) (streams : Streams) (calls : List Call) → Stands relay net streams calls
        → relay.latest.0 ≡ last_kept net streams calls }
    ensures space { (relay : Relay) (net : Network) (streams : Streams) (calls : List Call) (arc : ℕ) → Stands relay net streams calls
        → has_space relay arc ≡ has_room net streams calls arc }
    ensures few { (relay : Relay) (net : Network) (streams : Streams) (calls : List Call) (arc : ℕ) (a : Arc) → Stands relay net streams calls → slice_get net.arcs arc ≡ Some a
        → length (of_arc arc (inside net streams calls)) ≤ latency_at net.nodes a.to.0 / (84 * a.cost) + 1 }
{}

/// A frame comes out of the first take at or after the end of its latency at which no due frame of a
/// lesser arriving arc and no earlier frame of its own arc is inside, and then all others stay. Nothing
/// comes out exactly where none is due.
pub fn turn_law()
    ensures comes_out { (net : Network) (streams : Streams) (calls : List Call) (t : ℕ) (before behind : List Entry) (entry : Entry)
        → inside net streams calls ≡ before ++ entry ∷ behind → IsTurn t before entry behind
        → (leaving t (inside net streams calls) ≡ Some entry) × (inside net streams (calls ++ taken t ∷ []) ≡ before ++ behind) }
    ensures turn { (relay : Relay) (net : Network) (streams : Streams) (calls : List Call) (t : ℕ) (entry : Entry) → Stands relay net streams calls
        → leaving t (inside net streams calls) ≡ Some entry
        → (before : List Entry) × (behind : List Entry) × (inside net streams calls ≡ before ++ entry ∷ behind) × IsTurn t before entry behind }
    ensures none { (relay : Relay) (net : Network) (streams : Streams) (calls : List Call) (t : ℕ) → Stands relay net streams calls
        → (leaving t (inside net streams calls) ≡ None) ↔ All (λ entry. t < entry.due) (inside net streams calls) }
{}

/// The arc by which a frame leaves is the one that the streams' table gives, and where the streams fit a
/// network it is the only one.
pub fn next_arc_law()
    ensures found { (rows : List Row) (node : NodeId) (vid : ℕ) (arc : ArcId) → next_arc rows node vid ≡ Some arc → VidTakesArc rows node vid arc }
    ensures missing { (rows : List Row) (node : NodeId) (vid : ℕ) (arc : ArcId) → next_arc rows node vid ≡ None → ¬ VidTakesArc rows node vid arc }
    ensures only { (net : Network) (streams : Streams) (node : NodeId) (vid : ℕ) (arc : ArcId) → Fits net streams
        → VidTakesArc streams.rows node vid arc → next_arc streams.rows node vid ≡ Some arc }
{
    routes_law();
}

/// The takes at one tick, one after another, hand out all that is due: what arrived by lesser arcs first, and
/// what arrived by one arc in the order of its deliveries. Later ones hand out nothing, and all that isn't
/// due stays.
pub fn takes_law()
    ensures each { (relay : Relay) (net : Network) (streams : Streams) (calls : List Call) (t k : ℕ) → Stands relay net streams calls
        → leaving t (inside net streams (calls ++ replicate k (taken t))) ≡ slice_get (dues t (length net.arcs) (inside net streams calls)) k }
    ensures left { (relay : Relay) (net : Network) (streams : Streams) (calls : List Call) (t : ℕ) → Stands relay net streams calls
        → inside net streams (calls ++ replicate (length (dues t (length net.arcs) (inside net streams calls))) (taken t))
        ≡ filter (λ entry. not (is_due t entry)) (inside net streams calls) }
{}

/// Where the streams fit a network, a frame goes along the route of its row: from the end of each arc it leaves
/// by the next one, and from the end of the last by none.
pub fn route_law()
    ensures along { (net : Network) (streams : Streams) → Fits net streams
        → All (λ r. (i : ℕ) (arc : ArcId) → slice_get r.arcs i ≡ Some arc → onward net streams arc.0 r.vid ≡ slice_get r.arcs (i + 1)) streams.rows }
{
    routes_law();
}
