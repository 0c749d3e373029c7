ghost use Rattle.std.specs.Prelude.{◌≡◌, ℕ, ◌<◌, IfSome, IfNone, length};
ghost use Rattle.pre_curve.specs.Windows.{offers_of, InOrder, Obeys, ObeysAt, BreaksAt};

use crate::curves::Curve;
use crate::meter::Meter;
use pre_base::Send;

/// The octets that a wire spends on a frame beside the frame itself: preamble, start delimiter and the
/// least gap between packets (IEEE 802.3, 4.4.2).
const AROUND: u64 = 20;

/// The first place that ends a window of sends in which there are more wire octets than the curve
/// allows, and `None` where all windows obey.
pub fn first_breach(sends: &[Send], curve: &Curve) -> Option<usize>
    requires { InOrder (offers_of sends.now) }
    ensures obeys { IfNone result (Obeys (offers_of sends.now) curve.now) }
    ensures within { IfSome result (λ place. place < length sends.now) }
    ensures breaks { IfSome result (λ place. BreaksAt (offers_of sends.now) curve.now place) }
    ensures first { IfSome result (λ place. (j : ℕ) → j < place → ObeysAt (offers_of sends.now) curve.now j) }
{
    let mut meter = Meter::new(*curve);
    for (place, send) in sends.iter().enumerate() {
        if !meter.take(send.tick, u64::from(send.size) + AROUND) {
            return Some(place);
        }
    }
    None
}
