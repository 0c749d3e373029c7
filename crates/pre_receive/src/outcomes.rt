use crate::taken::Cause;

/// What an arrival came to, where the octets of a frame stay with the receiver.
#[derive(Clone, Copy, Debug, PartialEq, Eq)]
pub(crate) enum Outcome {
    /// A whole frame, sent as one express mPacket.
    Express,
    /// A frame that was joined from its fragments.
    Joined,
    Verify,
    Respond,
    Part,
    Nothing(Cause),
}
