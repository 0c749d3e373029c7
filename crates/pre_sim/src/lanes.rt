ghost use Rattle.std.specs.Prelude.{◌≡◌, ◌≤◌, ◌^◌, IfOk, MatchOption, List, length};
ghost use Rattle.pre_topo.specs.Arcs.{IsArc};
ghost use Rattle.pre_topo.specs.declared.nodes.Node.{Node};
ghost use Rattle.pre_sim.specs.Choices.{NoneWaits, LeavesFirst};
ghost use Rattle.pre_sim.specs.Lanes.{IsIdle, AreIdle};

use pre_base::Prio;
use pre_incoming::Incoming;
use pre_links::{Link, Partner};
use pre_outgoing::Outgoing;
use pre_rings::{FrameRef, PortRings};
use pre_script::Setting;
use pre_topo::{Arc, Network, Timing};
use std::alloc::{AllocError, Global};

/// What is on an arc or waits for it, and what its ends know.
#[derive(Drop)]
pub(crate) struct Lane {
    /// The frames that wait, in the arc's rings.
    pub rings: PortRings,
    /// The sending end.
    pub outgoing: Outgoing,
    /// The wire and the receiving end.
    pub incoming: Incoming,
    /// What was received here of the partner that sends on this arc.
    pub partner: Partner,
    /// What the script has set the sending end to.
    pub setting: Setting,
    /// The state of the link, where the arc negotiates.
    pub link: Link,
}

impl Lane {
    /// Nothing is on the arc, and nothing waits in its rings.
    pub fn idle(alloc: Global, timing: &Timing, arc: &Arc) -> Result<Lane, AllocError>
        requires cost { (1 ≤ arc.now.cost) × (arc.now.cost ≤ 1000) }
        requires delay { arc.now.delay ≤ 10 ^ 9 }
        requires add_frag { arc.now.add_frag ≤ 3 }
        requires unit { timing.now.unit ≤ 10 ^ 9 }
        requires verify { timing.now.verify ≤ 10 ^ 12 }
        ensures { IfOk result (IsIdle timing.now arc.now) }
    {
        Ok(Lane {
            rings: PortRings::make(alloc, arc.rings)?,
            outgoing: Outgoing::idle(arc.cost, arc.add_frag),
            incoming: Incoming::make(alloc, arc.delay, arc.cost)?,
            partner: Partner::unheard(timing.unit),
            setting: Setting::On,
            link: Link::idle(timing.verify),
        })
    }
}

/// The lanes of a network at rest.
pub(crate) fn idle_lanes(alloc: Global, net: &Network) -> Result<Vec<Lane>, AllocError>
    ensures { IfOk result (λ lanes. AreIdle net.now lanes.items) }
{
    let arcs = net.arcs.as_slice();
    let mut lanes = Vec::with_capacity(alloc, arcs.len())?;
    for arc in arcs {
        lanes.push(Lane::idle(alloc, &net.timing, arc)?)?;
    }
    Ok(lanes)
}

/// Takes the front frame of the highest ring with a frame, from the least priority up to the greatest one.
pub(crate) fn take_first(rings: &mut PortRings, least: Prio, greatest: Prio) -> Option<FrameRef>
    requires { greatest ≤ 7 }
    ensures { MatchOption result (NoneWaits least greatest rings.old × (rings.new ≡ rings.old)) (LeavesFirst least greatest rings.old rings.new) }
{
    let prio = rings.highest(least, greatest)?;
    rings.leave(prio)
}
