use pre_mpacket::Kind;
use pre_rings::FrameRef;

/// What is sent.
#[derive(Debug, Drop)]
pub enum Choice {
    /// An express frame, as one express mPacket.
    Express(FrameRef),
    /// A preemptable frame, as one express mPacket.
    Whole(FrameRef),
    /// A preemptable frame, in fragments, the first one now.
    First(FrameRef),
    /// The interrupted frame, as a continuation.
    Rest,
    /// A verify.
    Verify,
    /// A respond.
    Respond,
    /// An LLDP frame of 64 octets.
    Lldp,
}

/// An mPacket that has ended.
#[derive(Debug, Drop)]
pub struct Sent {
    pub kind: Kind,
    /// The place of its mData in its frame, and 0 for what is no frame.
    pub from: u16,
    /// Its octets of mData and check.
    pub size: u16,
    /// The frame whose last octet it carried.
    pub done: Option<FrameRef>,
}
