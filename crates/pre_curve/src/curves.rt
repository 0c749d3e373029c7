ghost use Rattle.std.specs.Prelude.{◌≤◌, ◌^◌};

/// What a stream may send: in any window of time at most `burst` octets and `rate` octets more for
/// each 1,000,000 ticks that the window lasts. Octets are counted as a wire carries them, preamble and
/// gap included. Each number is at most 10^12.
#[derive(Clone, Copy, Debug, PartialEq, Eq)]
pub struct Curve {
    pub burst: u64,
    pub rate: u64,
    pub ghost burst_within: { burst ≤ 10 ^ 12 },
    pub ghost rate_within: { rate ≤ 10 ^ 12 },
}

impl Curve {
    /// The greatest burst and the greatest rate.
    pub const LIMIT: u64 = 1_000_000_000_000;
}
