use pre_base::{ArcId, Prio, StreamId};

/// What a certificate says of an arc that a stream uses.
#[derive(Clone, Copy, Debug, PartialEq, Eq)]
pub struct ArcRow {
    pub arc: ArcId,
    /// Along each route ranks rise. In one certificate each arc has a rank, or none has.
    pub rank: Option<u64>,
    /// The greatest preemptable frame that is counted with, in octets with its check; 0 where none is.
    pub largest: u64,
}

/// What a certificate says of a port: of the streams of one priority on an arc.
#[derive(Clone, Copy, Debug, PartialEq, Eq)]
pub struct PortRow {
    pub arc: ArcId,
    pub prio: Prio,
    /// For how long one thing of a lower priority, or preemptable, can hold the arc, in ticks.
    pub block: u64,
    /// The bursts of this and the higher priorities, in ticks of the arc.
    pub work: u64,
    /// The rates of the higher priorities together, in wire octets for each 1,000,000 ticks.
    pub rate: u64,
    /// From a frame's entry into the queue to the end of its gap on the wire, in ticks.
    pub delay: u64,
    /// What the queue can hold, in wire octets.
    pub size: u64,
}

/// What a certificate says of a stream at a hop of its route, counted from 0: its burst, in wire octets.
#[derive(Clone, Copy, Debug, PartialEq, Eq)]
pub struct HopRow {
    pub stream: StreamId,
    pub hop: u64,
    pub burst: u64,
}
