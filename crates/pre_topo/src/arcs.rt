ghost use Rattle.std.specs.Prelude.{◌≡◌};
ghost use Rattle.pre_topo.specs.Arcs.{reverse_of};

use pre_base::{ArcId, NodeId};

/// Whether an arc preempts (IEEE 802.3, clause 99): never, always, or while discovery and verification show
/// that its link can.
#[derive(Clone, Copy, Debug, PartialEq, Eq)]
pub enum Mode {
    Off,
    On,
    Negotiate,
}

/// What becomes of preemptable frames while an arc that negotiates isn't active: they go whole, or wait.
#[derive(Clone, Copy, Debug, PartialEq, Eq)]
pub enum Policy {
    Pass,
    Quiet,
}

/// One direction of a link.
#[derive(Clone, Copy, Debug, PartialEq, Eq)]
pub struct Arc {
    pub from: NodeId,
    pub to: NodeId,
    /// Ticks for an octet.
    pub cost: u64,
    /// Ticks from an octet's leaving to its arrival.
    pub delay: u64,
    pub mode: Mode,
    pub policy: Policy,
    /// The additional fragment size (IEEE 802.3, 30.14.1.7), 0 to 3: each fragment but the last has at least
    /// 64 × (1 + `add_frag`) octets, check included.
    pub add_frag: u8,
    /// The capacity of each priority's ring, in frames.
    pub rings: [u16; 8],
    /// The least express priority of the arc (IEEE 802.1Q, frame preemption status), 1 to 7.
    pub express_from: u8,
    /// The greatest preemptable frame of the arc in octets, check included, 64 to 2000.
    pub largest: u16,
}

/// The other arc of the link.
pub fn reverse(arc: ArcId) -> ArcId
    ensures { result.0 ≡ reverse_of arc.0 }
{
    if arc.0 % 2 == 0 {
        ArcId(arc.0 + 1)
    } else {
        ArcId(arc.0 - 1)
    }
}
