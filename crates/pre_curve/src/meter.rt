ghost use Rattle.std.specs.Prelude.{◌≡◌, ◌+◌, ◌-◌, ◌*◌, ◌≤◌, ◌^◌};

use crate::curves::Curve;
use pre_base::Tick;

/// Octets are counted in parts of this size, so that a rate of octets per 1,000,000 ticks is whole.
const PARTS: u64 = 1_000_000;

/// A bucket that says of each offer whether the curve allows it beside those accepted so far. It keeps
/// how full the bucket stands, and no list of offers.
#[derive(Clone, Copy, Debug)]
pub struct Meter {
    pub curve: Curve,
    /// The tick of the last offer that was accepted, and 0 before the first.
    pub latest: Tick,
    level: u64,
    ghost within: { level ≤ 1_000_000 * curve.burst },
}

impl Meter {
    ghost use Rattle.std.specs.Prelude.{[]};
    ghost use Rattle.std.specs.Bool.{OnTrue, OnFalse};
    ghost use Rattle.pre_curve.specs.Meters.{Stands, EndsObeying, EndsBreaking, Accepts};

    /// A meter that has accepted nothing.
    pub fn new(curve: Curve) -> Meter
        ensures stands { Stands result [] }
        ensures curve { result.curve ≡ curve }
        ensures latest { result.latest.0 ≡ 0 }
    {
        Meter {
            curve,
            latest: Tick(0),
            level: 0,
        }
    }

    /// Whether the curve allows an offer of so many wire octets beside the accepted ones; if so, it is
    /// accepted, and else the meter stays as it was.
    pub fn offer(&mut self, tick: Tick, octets: u64) -> bool
        requires order { self.old.latest.0 ≤ tick.0 }
        requires octets { octets ≤ 10_000 }
        ensures obeys { OnTrue result (EndsObeying self.old tick.0 octets) }
        ensures breaks { OnFalse result (EndsBreaking self.old tick.0 octets) }
        ensures accepted { OnTrue result (Accepts self.old self.new tick.0 octets) }
        ensures curve { self.new.curve ≡ self.old.curve }
        ensures latest { OnTrue result (self.new.latest ≡ tick) }
        ensures refused { OnFalse result (self.new ≡ self.old) }
    {
        self.take(tick, octets)
    }

    pub(crate) fn take(&mut self, tick: Tick, octets: u64) -> bool
        requires order { self.old.latest.0 ≤ tick.0 }
        requires octets { octets ≤ 2 ^ 17 }
        ensures obeys { OnTrue result (EndsObeying self.old tick.0 octets) }
        ensures breaks { OnFalse result (EndsBreaking self.old tick.0 octets) }
        ensures accepted { OnTrue result (Accepts self.old self.new tick.0 octets) }
        ensures curve { self.new.curve ≡ self.old.curve }
        ensures latest { OnTrue result (self.new.latest ≡ tick) }
        ensures refused { OnFalse result (self.new ≡ self.old) }
    {
        let ticks = tick.0 - self.latest.0;
        let level = level_after(self.curve.rate, self.level, ticks, octets);
        if level > PARTS * self.curve.burst {
            return false;
        }
        self.level = level;
        self.latest = tick;
        true
    }
}

/// The level once it has drained for some ticks and an offer has come in.
fn level_after(rate: u64, level: u64, ticks: u64, octets: u64) -> u64
    requires level { level ≤ 10 ^ 18 }
    requires octets { octets ≤ 2 ^ 17 }
    ensures { result ≡ 1_000_000 * octets + (level - rate * ticks) }
{
    let drained = u128::from(rate) * u128::from(ticks);
    let left = u128::from(level).saturating_sub(drained) as u64;
    PARTS * octets + left
}
