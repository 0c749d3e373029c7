use pre_base::{Items, Name};
use pre_table::Whole;

/// The numbers and texts of a network file, with its defaults.
#[derive(Debug, Drop)]
pub struct RawNetwork {
    pub express_from: Whole,
    pub timing: RawTiming,
    pub nodes: Items<RawNode>,
    pub links: Items<RawLink>,
}

/// The numbers of the table `timing`.
#[derive(Clone, Copy, Debug)]
pub struct RawTiming {
    pub interval: Whole,
    pub ttl: Whole,
    pub unit: Whole,
    pub verify: Whole,
}

/// A row of `node`.
#[derive(Debug, Drop)]
pub struct RawNode {
    pub name: Name,
    pub kind: Name,
    pub latency: Whole,
}

/// A row of `link`.
#[derive(Debug, Drop)]
pub struct RawLink {
    pub first: Name,
    pub second: Name,
    pub cost: Whole,
    pub delay: Whole,
    pub mode: Name,
    pub policy: Name,
    pub add_frag: Whole,
    pub rings: [Whole; 8],
    /// None where the file has none; then the whole file's counts.
    pub express_from: Option<Whole>,
    pub largest: Whole,
}
