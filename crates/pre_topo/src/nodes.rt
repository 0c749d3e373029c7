use pre_base::Name;

/// The times of link discovery and verification, in ticks but for `ttl`, which counts units.
#[derive(Clone, Copy, Debug, PartialEq, Eq)]
pub struct Timing {
    /// From one periodic advert to the next.
    pub interval: u64,
    /// The time to live that an advert says (IEEE 802.1AB, 8.5.4).
    pub ttl: u64,
    /// What one count of a time to live lasts.
    pub unit: u64,
    /// The wait for a respond after a verify's end.
    pub verify: u64,
}

/// Where frames begin and end, or where they are passed on.
#[derive(Clone, Copy, Debug, PartialEq, Eq)]
pub enum NodeKind {
    Station,
    Bridge,
}

/// A station or a bridge.
#[derive(Debug, Drop)]
pub struct Node {
    pub name: Name,
    pub kind: NodeKind,
    /// From a frame's arrival at a bridge to its entry into a ring, in ticks; 0 for a station.
    pub latency: u64,
}
