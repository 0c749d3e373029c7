/// What an arrival gives.
#[derive(Clone, Copy, Debug, PartialEq, Eq)]
pub enum Taken<'a> {
    /// A frame of 64 to 2000 octets, its check included.
    Frame(&'a [u8]),
    /// A question whether this end takes fragments.
    Verify,
    /// The answer to a verify.
    Respond,
    /// A fragment of a frame that goes on.
    Part,
    /// Nothing, for this cause.
    Nothing(Cause),
}

/// Why an arrival gives nothing.
#[derive(Clone, Copy, Debug, PartialEq, Eq)]
pub enum Cause {
    /// The octets have no preamble, or no start mPacket delimiter (SMD).
    Smd,
    /// A continuation has no fragment count, or another one than the next.
    Fragment,
    /// There are too few octets for an mPacket or too many for a frame, or a verify or respond has other than 60 of mData.
    Size,
    /// A continuation comes while no frame is open.
    NoFrame,
    /// A continuation has another frame count than the open frame.
    Count,
    /// None of these: the check isn't the right one, or a verify or respond has other mData.
    Check,
}
