ghost use Rattle.std.specs.Prelude.{◌≡◌, ◌≤◌, ◌^◌, ◌↔◌, ℕ, true, List, [], ◌∷◌, ◌++◌, None, IsErr, IfErr, IfOk, option_map};

use crate::ingresses::{Ingress, Waiting, ingresses_of, least_due, place_due};
use crate::tables::{Hop, arc_among, table_of};
use pre_base::{ArcId, Tick};
use pre_rings::FrameRef;
use pre_streams::Streams;
use pre_topo::Network;
use std::alloc::{AllocError, Global};

/// The frames inside the bridges of a network. It keeps no list of what happened.
#[derive(Drop)]
pub struct Relay {
    hops: Vec<Hop>,
    // for each arc what has arrived by it
    ingresses: Vec<Ingress>,
    /// The tick of the last delivery that kept its frame, and 0 before the first.
    pub latest: Tick,
}

impl Relay {
    ghost use Rattle.pre_topo.specs.declared.network.Network.{Network};
    ghost use Rattle.pre_streams.specs.declared.rows.Streams.{Streams};
    ghost use Rattle.pre_bridge.specs.Table.{onward};
    ghost use Rattle.pre_bridge.specs.Inside.{Call, delivered, taken, inside, has_room, leaving, handed, IsLeastDue};
    ghost use Rattle.pre_bridge.specs.Relays.{Stands, has_space};

    /// A relay with nothing inside, for the arcs and latencies of a network and the routes of its streams.
    /// No other call takes memory.
    pub fn make(alloc: Global, net: &Network, streams: &Streams) -> Result<Relay, AllocError>
        ensures stands { IfOk result (λ relay. Stands relay net.now streams.now []) }
        ensures latest { IfOk result (λ relay. relay.latest.0 ≡ 0) }
    {
        Ok(Relay {
            hops: table_of(alloc, streams.rows.as_slice())?,
            ingresses: ingresses_of(alloc, net.nodes.as_slice(), net.arcs.as_slice())?,
            latest: Tick(0),
        })
    }

    /// Takes in a frame that arrived by the arc: it is due once the latency of the arc's end is over.
    /// Hands it back exactly where no route of its VID leaves that node. There must be room for it, and
    /// ticks don't fall from one delivery that keeps its frame to the next.
    pub fn deliver(&mut self, now: Tick, arc: ArcId, frame: FrameRef) -> Result<(), FrameRef>
        requires room { has_space self.old arc.0 ≡ true }
        requires order { self.old.latest.0 ≤ now.0 }
        requires within { now.0 ≤ 10 ^ 18 }
        ensures stands { (net : Network) (streams : Streams) (calls : List Call) → Stands self.old net streams calls
            → Stands self.new net streams (calls ++ delivered now.0 arc.0 frame ∷ []) }
        ensures refused { (net : Network) (streams : Streams) (calls : List Call) → Stands self.old net streams calls
            → (IsErr result ↔ (onward net streams arc.0 frame.vid ≡ None)) }
        ensures back { IfErr result (λ back. (back ≡ frame) × (self.new ≡ self.old)) }
        ensures latest { self.new.latest.0 ≤ now.0 }
    {
        let place = usize::from(arc.0);
        let ingress = &self.ingresses[place];
        let Some(next) = arc_among(&self.hops, ingress.node, frame.vid) else {
            return Err(frame);
        };
        let due = Tick(now.0 + u64::from(ingress.latency));
        self.latest = now;
        self.ingresses[place].keep(Waiting { due, next, frame })
    }

    /// Whether fewer frames of this arc are inside than may arrive by it within the latency of its end, and
    /// one more. There is no room for an arc that isn't of the network.
    pub fn room(&self, arc: ArcId) -> bool
        ensures room { (net : Network) (streams : Streams) (calls : List Call) → Stands self.now net streams calls
            → result ≡ has_room net streams calls arc.0 }
        ensures space { result ≡ has_space self.now arc.0 }
    {
        match self.ingresses.get(usize::from(arc.0)) {
            Some(ingress) => ingress.has_room(),
            None => false,
        }
    }

    /// Takes out the frame that is due and arrived by the least arc, the oldest of that arc, with the arc
    /// by which it leaves. None exactly where none is due by now.
    pub fn take_due(&mut self, now: Tick) -> Option<(ArcId, FrameRef)>
        ensures stands { (net : Network) (streams : Streams) (calls : List Call) → Stands self.old net streams calls
            → Stands self.new net streams (calls ++ taken now.0 ∷ []) }
        ensures given { (net : Network) (streams : Streams) (calls : List Call) → Stands self.old net streams calls
            → result ≡ option_map handed (leaving now.0 (inside net streams calls)) }
        ensures latest { self.new.latest ≡ self.old.latest }
    {
        let place = place_due(&self.ingresses, now)?;
        let waiting = self.ingresses[place].release()?;
        Some((waiting.next, waiting.frame))
    }

    /// The least tick at which a frame inside is due, also when it is over. None exactly where the relay
    /// is empty.
    pub fn due(&self) -> Option<Tick>
        ensures { (net : Network) (streams : Streams) (calls : List Call) → Stands self.now net streams calls
            → IsLeastDue (inside net streams calls) (option_map (λ tick. tick.0) result) }
    {
        let due = least_due(&self.ingresses)?;
        Some(Tick(due))
    }
}
