ghost use Rattle.std.specs.Prelude.{◌≡◌, List};
ghost use Rattle.pre_curve.specs.Windows.{Offer, Obeys, InOrder, last_tick};
ghost use Rattle.pre_curve.specs.Meters.{Stands};
ghost use Rattle.pre_curve.specs.Buckets.{ConformsFull};
ghost use Rattle.pre_curve.specs.declared.curves.Curve.{Curve};
ghost use Rattle.pre_curve.specs.declared.meter.Meter.{Meter};

/// What a meter has accepted stands in the order of its ticks, ends at the meter's latest tick, and
/// obeys the meter's curve.
pub fn accepted_law()
    ensures obeys { (meter : Meter) (accepted : List Offer) → Stands meter accepted → Obeys accepted meter.curve }
    ensures order { (meter : Meter) (accepted : List Offer) → Stands meter accepted → InOrder accepted }
    ensures latest { (meter : Meter) (accepted : List Offer) → Stands meter accepted → meter.latest.0 ≡ last_tick accepted }
{}

/// To obey a curve in every window is to conform to a token bucket that is full at first.
pub fn token_bucket_law()
    ensures conforms { (offers : List Offer) (curve : Curve) → InOrder offers → Obeys offers curve → ConformsFull offers curve }
    ensures obeys { (offers : List Offer) (curve : Curve) → InOrder offers → ConformsFull offers curve → Obeys offers curve }
{}
