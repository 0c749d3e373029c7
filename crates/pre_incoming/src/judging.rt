ghost use Rattle.std.specs.Prelude.{◌≡◌, ◌≤◌, ◌-◌, ◌↔◌, IfSome, IsTrue, length, take, option_map};
ghost use Rattle.std.specs.Bool.{OnTrue};
ghost use Rattle.std.specs.Option.{unwrap_or};
ghost use Rattle.pre_frame.specs.Layout.{IsFrameSize, with_check};
ghost use Rattle.pre_receive.specs.Takings.{EndsWithCheck, HasCheck, plain};
ghost use Rattle.pre_incoming.specs.Judging.{IsExpected, Judged, carried, frame_at_front};

use crate::landings::Landed;
use pre_base::{CHECK, GREATEST_FRAME};
use pre_history::What;
use pre_mpacket::Kind;
use pre_receive::Taken;

/// What an arrival comes to, by what was sent as that mPacket: where it gives a frame, that is to be the expected one, of which
/// octets stand at the front of `front` where there is one. It stands there whole where it is given.
pub(crate) fn judged(
    kind: Kind,
    what: What,
    taken: Taken,
    expected: Option<usize>,
    front: &mut [u8; GREATEST_FRAME as usize],
) -> Landed
    requires size { IfSome expected IsFrameSize }
    requires check { HasCheck (plain taken) }
    ensures judged { Judged kind what (option_map (λ size. frame_at_front what size front.old) expected) (plain taken.entry) result }
    ensures front { IsExpected (option_map (λ size. frame_at_front what size front.old) expected) (take (unwrap_or expected 0) front.new) result }
{
    match taken {
        Taken::Frame(octets) => match expected {
            Some(size) if is_expected(what, octets, &mut front[..size]) => carried(what),
            _ => Landed::Alias,
        },
        Taken::Verify if kind == Kind::Verify => Landed::Verify,
        Taken::Respond if kind == Kind::Respond => Landed::Respond,
        Taken::Verify | Taken::Respond => Landed::Alias,
        Taken::Part => Landed::Part,
        Taken::Nothing(_) => Landed::Nothing,
    }
}

/// Whether a frame that ends with its check is the expected one, of which octets stand in `front`, which has its size.
fn is_expected(what: What, octets: &[u8], front: &mut [u8]) -> bool
    requires check { EndsWithCheck octets.now }
    requires size { 4 ≤ length front.old }
    ensures same { IsTrue result ↔ (frame_at_front what (length front.old) front.old ≡ octets.now) }
    ensures front { OnTrue result (front.new ≡ octets.now) }
{
    match what {
        What::Frame(_) => is_same_before_check(octets, front),
        What::Lldp | What::Nothing => octets == &*front,
    }
}

/// Whether the octets before the check are those in `front`; then the check is put behind them there.
fn is_same_before_check(octets: &[u8], front: &mut [u8]) -> bool
    requires check { EndsWithCheck octets.now }
    requires size { 4 ≤ length front.old }
    ensures same { IsTrue result ↔ (with_check (take (length front.old - 4) front.old) ≡ octets.now) }
    ensures front { OnTrue result (front.new ≡ octets.now) }
{
    if octets.len() != front.len() {
        return false;
    }
    let end = octets.len() - CHECK as usize;
    let (unchecked, check) = octets.split_at(end);
    let (before, behind) = front.split_at_mut(end);
    if unchecked != &*before {
        return false;
    }
    behind.copy_from_slice(check);
    true
}

/// What an mPacket that has the last octets of this gives.
fn carried(what: What) -> Landed
    ensures { result ≡ carried what }
{
    match what {
        What::Frame(frame) => Landed::Frame(frame),
        What::Lldp => Landed::Lldp,
        What::Nothing => Landed::Alias,
    }
}
