use pre_base::ArcId;

/// Why a part of a run ended early.
#[derive(Clone, Copy, Debug, PartialEq, Eq)]
pub(crate) enum Halt {
    /// The watcher failed.
    Stopped,
    /// Before this arrival, which would give what wasn't sent as it.
    Alias { arc: ArcId, ordinal: u64 },
}
