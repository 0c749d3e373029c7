ghost use Rattle.std.specs.Prelude.{◌≡◌, ◌≤◌, ◌<◌, ℕ, ◌+◌, ◌*◌, ◌/◌, List, length, map, drop, slice_get, slice_set};
ghost use Rattle.std.specs.Prelude.{slice_index_or, sum, sum_by, All, Option, Some, IsSome, []};
ghost use Rattle.pre_base.specs.declared.numbers.ArcId.{ArcId};
ghost use Rattle.pre_rings.specs.declared.slots.FrameRef.{FrameRef};
ghost use Rattle.pre_topo.specs.declared.network.Network.{Network};
ghost use Rattle.pre_topo.specs.declared.nodes.Node.{Node};
ghost use Rattle.pre_topo.specs.declared.nodes.NodeKind.TheVariants.{Station, Bridge};
ghost use Rattle.pre_topo.specs.declared.arcs.Arc.{Arc};
ghost use Rattle.pre_topo.specs.Arcs.{slots_of_arc, reverse_of};
ghost use Rattle.pre_streams.specs.declared.rows.Streams.{Streams};
ghost use Rattle.pre_streams.specs.Fits.{Fits};
ghost use Rattle.pre_history.specs.Scenario.{Scenario, arc};
ghost use Rattle.pre_history.specs.History.{Begin, Ended, Arrive, History};
ghost use Rattle.pre_history.specs.Ordered.{AreOrdered};
ghost use Rattle.pre_history.specs.Queries.{Arrivals, Begins, Ends};
ghost use Rattle.pre_history.specs.Octets.{SentOctets};
ghost use Rattle.pre_history.specs.Moments.{moments};
ghost use Rattle.pre_history.specs.Placed.{number};
ghost use Rattle.pre_history.specs.Legal.{LegalUpTo};
ghost use Rattle.pre_laws.specs.Routed.{IsRouted};
ghost use Rattle.pre_bridge.specs.Inside.{Entry, of_arc};
ghost use Rattle.pre_bridge.specs.Table.{onward};
ghost use Rattle.pre_base.specs.declared.limits.TheConstants.{GREATEST_PACKET};
ghost use Rattle.pre_memory.specs.Wires.{octets_of};
ghost use Rattle.pre_memory.specs.Stations.{LeadsTo};
ghost use Rattle.pre_memory.specs.Slots.{Store, one_if, slots_out, Held, frames_held, room_of, FitsArcs};

use pre_bridge::route_law;

/// Each mPacket that ended has 64 octets at least behind its preamble: so has a frame, a fragment that is cut off, what is left
/// of a frame, a verify and a respond.
pub fn mpackets_have_sizes()
    ensures { (w : Scenario) → IsRouted w → (n : ℕ) (h : History) → LegalUpTo w n h → (a : ℕ) → a < length w.net.arcs → All (λ e. 64 ≤ e.size) (Ends h a) }
{}

/// What has ended on an arc and hasn't arrived has no more octets, preambles included, than leave within the arc's delay and in a
/// longest packet; and these are no more mPackets than the shortest that leave within it, and one.
pub fn wires_have_room()
    ensures octets { (w : Scenario) → IsRouted w → (h : History) (a t k : ℕ) → a < length w.net.arcs → k ≤ moments (length w.net.arcs) → LegalUpTo w (number (length w.net.arcs) t k) h
        → sum_by octets_of (drop (length (Arrivals h a)) (Ends h a)) ≤ (arc w a).delay / (arc w a).cost + GREATEST_PACKET }
    ensures packets { (w : Scenario) → IsRouted w → (h : History) (a t k : ℕ) → a < length w.net.arcs → k ≤ moments (length w.net.arcs) → LegalUpTo w (number (length w.net.arcs) t k) h
        → length (drop (length (Arrivals h a)) (Ends h a)) ≤ (arc w a).delay / (84 * (arc w a).cost) + 1 }
    ensures sent { (w : Scenario) → IsRouted w → (n : ℕ) (h : History) → LegalUpTo w n h → (a : ℕ) → a < length w.net.arcs → (i : ℕ) (b : Begin) (e : Ended)
        → slice_get (Begins h a) i ≡ Some b → slice_get (Ends h a) i ≡ Some e → length (SentOctets w h b e) ≡ octets_of e }
{}

/// What arrives by an arc is 84 octets apart at least: the preamble, 64 octets, and the gap. So where the mPacket that ended next
/// is due, and of those that arrived before it all but some came no longer ago than a latency, these are no more than go into it.
pub fn arrivals_leave_room()
    ensures { (cost delay latency gone : ℕ) (begins : List Begin) (ends : List Ended) (arrivals : List Arrive) (e : Ended) → 1 ≤ cost
        → AreOrdered cost delay begins ends arrivals → All (λ d. 64 ≤ d.size) ends → slice_get ends (length arrivals) ≡ Some e
        → All (λ x. e.tick + delay ≤ x.tick + latency) (drop gone arrivals) → length (drop gone arrivals) ≤ latency / (84 * cost) }
{}

/// A slot that is taken, given back or filled changes by itself alone how many are out; and where all are, these are as many as there are.
pub fn slots_are_counted()
    ensures out { (store : Store) (s : ℕ) (old new : Option (List ℕ)) → slice_get store s ≡ Some old
        → slots_out (slice_set store s new) + one_if old ≡ slots_out store + one_if new }
    ensures all { (store : Store) → All (λ o. IsSome o) store → slots_out store ≡ length store }
{}

/// Where as many slots are out as frames stand at arcs and inside bridges, and no more stand there than a network has slots for, a slot
/// is in wherever one more may be inside that arrived by some arc.
pub fn slots_are_spare()
    ensures rings { (rings : List (List FrameRef)) (capacities : List ℕ) → length rings ≡ length capacities
        → ((p : ℕ) → length (slice_index_or rings p []) ≤ slice_index_or capacities p 0) → sum_by length rings ≤ sum capacities }
    ensures spare { (nodes : List Node) (arcs : List Arc) (store : Store) (held : List Held) (inside : List Entry) (r : ℕ) (a : Arc)
        → slots_out store ≡ sum_by frames_held held + length inside → FitsArcs nodes arcs held (map (λ e. e.arc) inside)
        → slice_get arcs r ≡ Some a → length (of_arc r inside) < room_of nodes a → length store ≡ sum_by (slots_of_arc nodes) arcs
        → slots_out store < length store }
{}

/// Where streams fit a network, a frame that goes on from the end of an arc of its route is at a bridge there, and the other arc
/// of the link by which its route begins leads to a station. No arc leads to both.
pub fn routes_pass_bridges()
    ensures on { (net : Network) (streams : Streams) → Fits net streams
        → All (λ r. (i : ℕ) (arc next : ArcId) → slice_get r.arcs i ≡ Some arc → onward net streams arc.0 r.vid ≡ Some next → LeadsTo net arc.0 Bridge) streams.rows }
    ensures first { (net : Network) (streams : Streams) → Fits net streams
        → All (λ r. (arc : ArcId) → slice_get r.arcs 0 ≡ Some arc → LeadsTo net (reverse_of arc.0) Station) streams.rows }
    ensures apart { (net : Network) (arc : ℕ) → LeadsTo net arc Station → ¬ LeadsTo net arc Bridge }
{
    route_law();
}
