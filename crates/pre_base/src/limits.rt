//! How many octets the standard allows (IEEE 802.3, clauses 3, 4 and 99).

/// A frame at most, its check included: the envelope frame (3.2.7).
pub const GREATEST_FRAME: u16 = 2000;

/// A frame at least, its check included (4.2.3.3).
pub const LEAST_FRAME: u16 = 64;

/// A check: the frame check sequence (3.2.9), or that of a fragment (clause 99).
pub const CHECK: u16 = 4;

/// The mData of a frame at most, also that of its joined fragments.
pub const GREATEST_DATA: u16 = GREATEST_FRAME - CHECK;

/// The mData of an mPacket at least.
pub const LEAST_DATA: u16 = LEAST_FRAME - CHECK;

/// What stands before the data of a packet: its preamble, with the delimiter at the end.
pub const HEAD: u64 = 8;

/// The gap between packets (4.4.2).
pub const GAP: u64 = 12;

/// What a frame takes of the wire beside its own octets.
pub const OVERHEAD: u64 = HEAD + GAP;

/// A packet at most: the greatest frame with what stands before it.
pub const GREATEST_PACKET: u64 = HEAD + GREATEST_FRAME as u64;
