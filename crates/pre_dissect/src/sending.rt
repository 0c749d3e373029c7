ghost use Rattle.std.specs.Prelude.{◌≡◌, ◌↔◌, ◌≤◌, ◌+◌, ◌-◌, ◌++◌, ℕ, List, length, take, drop, IfSome, IsTrue, IsSomeAnd};
ghost use Rattle.pre_base.specs.declared.limits.TheConstants.{GREATEST_FRAME, GREATEST_PACKET};
ghost use Rattle.pre_mpacket.specs.Spelling.{HasCounts, head_of};
ghost use Rattle.pre_history.specs.Octets.{BareOctets};
ghost use Rattle.pre_history.specs.Scenario.{FrameOf};
ghost use Rattle.pre_incoming.specs.Inputs.{scenario_of};
ghost use Rattle.pre_dissect.specs.Sendings.{IsKnown, IsWholeOf};

use crate::newest::{Ending, Newest};
use pre_base::{FrameNo, GREATEST_FRAME, GREATEST_PACKET, LEAST_FRAME};
use pre_crc::Running;
use pre_frame::build;
use pre_history::What;
use pre_incoming::Inputs;
use pre_mpacket::{Kind, MPacket, write_mpacket};

// The octets of a verify or respond: 60 octets 0 and their mCRC (IEEE 802.3, 99.3.4).
fn bare_octets() -> [u8; 64]
    ensures { result ≡ BareOctets }
{
    let mut octets = [0; 64];
    let mut running = Running::new();
    running.add(&octets[..60]);
    let check = running.mcrc();
    octets[60..].copy_from_slice(&check);
    octets
}

// Puts the octets of a frame of the script at the front of `into`: how many there are. None where the script or its row has no
// such frame.
fn put_frame(
    inputs: &Inputs,
    frame: FrameNo,
    into: &mut [u8; GREATEST_FRAME as usize],
) -> Option<usize>
    ensures most { IfSome result (λ size. size ≤ GREATEST_FRAME) }
    ensures octets { IsKnown (scenario_of inputs.now) frame.0 → IsSomeAnd result (λ size. take size into.new ≡ FrameOf (scenario_of inputs.now) frame.0) }
{
    let sends = inputs.script.sends.as_slice();
    if frame.0 as usize >= sends.len() {
        return None;
    }
    let send = sends[frame.0 as usize].send;
    let row = inputs.streams.rows.as_slice().get(send.stream.0 as usize)?;
    let route = row.route.as_slice();
    if route.len() < 2 || row.vid < 1 || row.vid > 4094 {
        return None;
    }
    if send.size < LEAST_FRAME || send.size > GREATEST_FRAME {
        return None;
    }
    let destination = route[route.len() - 1];
    build(
        into,
        destination,
        route[0],
        row.prio,
        row.vid,
        frame,
        send.size,
    )
    .ok()
}

// Puts the octets of which an mPacket carries some at the front of `into`: how many there are. None where there are none.
fn put_whole(
    inputs: &Inputs,
    what: What,
    advert: &[u8; 64],
    into: &mut [u8; GREATEST_FRAME as usize],
) -> Option<usize>
    ensures most { IfSome result (λ count. count ≤ GREATEST_FRAME) }
    ensures whole { (whole : List ℕ) → IsWholeOf (scenario_of inputs.now) advert.now what whole → IsSomeAnd result (λ count. take count into.new ≡ whole) }
{
    match what {
        What::Frame(frame) => put_frame(inputs, frame, into),
        What::Lldp => {
            into[..64].copy_from_slice(advert);
            Some(64)
        }
        What::Nothing => {
            into[..64].copy_from_slice(&bare_octets());
            Some(64)
        }
    }
}

// Whether frame and fragment counts are 0 to 3.
fn has_counts(kind: Kind) -> bool
    ensures { IsTrue result ↔ HasCounts kind }
{
    match kind {
        Kind::Start(count) => count < 4,
        Kind::Continue(count, fragment) => count < 4 && fragment < 4,
        Kind::Express => true,
        Kind::Verify => true,
        Kind::Respond => true,
    }
}

/// Puts the octets of an mPacket, as they were sent where it ended so, at the front of `into`: how many there are. None where it
/// can't have ended so.
pub(crate) fn put_sent(
    inputs: &Inputs,
    newest: Newest,
    advert: &[u8; 64],
    ending: Ending,
    into: &mut [u8; GREATEST_PACKET as usize],
) -> Option<usize>
    ensures most { IfSome result (λ count. count ≤ GREATEST_PACKET) }
    ensures sent { (whole : List ℕ) → IsWholeOf (scenario_of inputs.now) advert.now newest.what whole → HasCounts newest.kind
        → newest.from + ending.size ≤ length whole → 64 ≤ ending.size
        → IsSomeAnd result (λ count. take count into.new ≡ head_of newest.kind ++ take (ending.size - 4) (drop newest.from whole) ++ ending.check) }
{
    let mut whole = [0; GREATEST_FRAME as usize];
    let count = put_whole(inputs, newest.what, advert, &mut whole)?;
    let from = usize::from(newest.from);
    let end = from + usize::from(ending.size);
    if !has_counts(newest.kind) || ending.size < LEAST_FRAME || end > count {
        return None;
    }
    let packet = MPacket {
        kind: newest.kind,
        mdata: &whole[from..end - 4],
        check: &ending.check,
    };
    write_mpacket(&packet, into).ok()
}
