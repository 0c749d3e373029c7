ghost use Rattle.pre_bound.specs.Limits.{IsWithin};

use crate::{ArcRow, HopRow, PortRow};
use pre_base::{Items, StreamId};

/// What a planner certifies of a network's express streams. Each number is at most 10^12.
#[derive(Debug, Drop)]
pub struct Certificate {
    /// The arcs that streams use, by arc.
    pub arcs: Items<ArcRow>,
    /// The ports, by arc, then priority.
    pub ports: Items<PortRow>,
    /// The hops, by stream, then along its route.
    pub hops: Items<HopRow>,
    /// For each stream the greatest ticks from a frame's send to its delivery.
    pub bounds: Items<(StreamId, u64)>,
    pub ghost within: { IsWithin arcs ports hops bounds },
}

impl Certificate {
    /// The greatest number that a certificate says.
    pub const LIMIT: u64 = 1_000_000_000_000;
}
