ghost use Rattle.std.specs.Prelude.{◌≡◌};
ghost use Rattle.std.specs.Option.{option_map};
ghost use Rattle.pre_topo.specs.Rules.{IsNetwork};

use crate::names::{name_of, place_of};
use crate::sums::{slots_sum, wires_sum};
use crate::{Arc, Node, Timing};
use pre_base::{ArcId, Items, NodeId};

/// Nodes and the arcs between them. Link i has arc 2i from its first end to its second, and arc 2i + 1 back.
#[derive(Debug, Drop)]
pub struct Network {
    /// The least express priority of each link that says none of its own (IEEE 802.1Q, frame preemption status).
    pub express_from: u8,
    pub timing: Timing,
    pub nodes: Items<Node>,
    pub arcs: Items<Arc>,
    pub ghost rules: { IsNetwork express_from timing nodes arcs },
}

impl Network {
    ghost use Rattle.std.specs.Prelude.{◌≤◌};
    ghost use Rattle.pre_topo.specs.Named.{arc_named, node_name};
    ghost use Rattle.pre_topo.specs.Memory.{slots, wires};

    /// The name of a node, and nothing where there is no such node.
    pub fn node_name(&self, node: NodeId) -> &[u8]
        ensures { result.now ≡ node_name self.now node.0 }
    {
        name_of(self.nodes.as_slice(), node)
    }

    /// The arc with this name, its ends' names with `>` between: None exactly where no arc has it.
    pub fn arc_named(&self, word: &[u8]) -> Option<ArcId>
        ensures { option_map (λ a. a.0) result ≡ arc_named self.now word.now }
    {
        let place = place_of(self.nodes.as_slice(), self.arcs.as_slice(), word)?;
        Some(ArcId(place as u16))
    }

    /// The frames that may be kept at once, at most 60,000: in the rings, at the senders, and on their way through
    /// bridges.
    pub fn slots(&self) -> u64
        ensures value { result ≡ slots self.now }
        ensures most { result ≤ 60000 }
    {
        slots_sum(self.nodes.as_slice(), self.arcs.as_slice())
    }

    /// The octets that may be on all wires at once, at most 67,108,864.
    pub fn wires(&self) -> u64
        ensures value { result ≡ wires self.now }
        ensures most { result ≤ 67108864 }
    {
        wires_sum(self.arcs.as_slice())
    }
}
