use pre_base::{Items, Name};
use pre_table::Whole;

/// The rows of a stream file as they stand in it.
#[derive(Debug, Drop)]
pub struct RawStreams {
    /// The streams, and behind them the flows.
    pub rows: Items<RawFlow>,
    /// The curves of the streams.
    pub curves: Items<RawCurve>,
}

/// A row of `stream`.
#[derive(Debug, Drop)]
pub struct RawStream {
    pub flow: RawFlow,
    pub curve: RawCurve,
}

/// What only a row of `stream` has.
#[derive(Clone, Copy, Debug)]
pub struct RawCurve {
    pub burst: Whole,
    pub rate: Whole,
}

/// A row of `flow`, and what a row of `stream` has in common with it.
#[derive(Debug, Drop)]
pub struct RawFlow {
    pub name: Name,
    pub vid: Whole,
    pub prio: Whole,
    pub route: Items<Name>,
    pub max: Whole,
}
