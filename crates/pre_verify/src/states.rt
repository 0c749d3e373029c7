/// How far the verification of a link is.
#[derive(Clone, Copy, Debug, PartialEq, Eq)]
pub enum VerifyState {
    /// The other end doesn't say that it supports and enables preemption, or nothing is known of it.
    Idle,
    /// A verify is due.
    Wanted,
    /// A verify has begun and hasn't ended.
    Sending,
    /// The verify time runs.
    Waiting,
    /// Three verifies were sent in vain.
    Failed,
    /// A respond came: preemption is active.
    Verified,
}
