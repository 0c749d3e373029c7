use pre_base::FrameNo;

/// What came of the mPacket that was due at the end of an arc.
#[derive(Clone, Copy, Debug, PartialEq, Eq)]
pub struct Landing {
    /// Its number on the arc.
    pub ord: u64,
    pub given: Landed,
    /// How many octets of a frame stand at the front of the caller's memory, where it gives one.
    pub size: usize,
}

/// What an mPacket gives at the end of an arc.
#[derive(Clone, Copy, Debug, PartialEq, Eq)]
pub enum Landed {
    /// It never arrives.
    Lost,
    /// A user frame, as it was sent.
    Frame(FrameNo),
    /// A link discovery frame, as it was sent.
    Lldp,
    /// A part of a frame, which is open now.
    Part,
    Verify,
    Respond,
    /// It arrives and gives nothing.
    Nothing,
    /// It gives a verify, respond or frame that isn't what was sent as this mPacket.
    Alias,
}
