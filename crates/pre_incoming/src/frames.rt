ghost use Rattle.std.specs.Prelude.{◌≡◌, ◌-◌, ◌<◌, ◌≤◌, ◌++◌, IfSome, length, drop, take, option_map};
ghost use Rattle.pre_frame.specs.Layout.{IsFrameSize, with_check};
ghost use Rattle.pre_streams.specs.Rows.{IsRow};
ghost use Rattle.pre_history.specs.Scenario.{row, send, FrameOf};
ghost use Rattle.pre_incoming.specs.Flights.{with_octets};
ghost use Rattle.pre_incoming.specs.Inputs.{HasFrames, scenario_of};
ghost use Rattle.pre_incoming.specs.Judging.{behind_head, expected, frame_at_front};

use crate::wires::Flight;
use pre_base::{FrameNo, GREATEST_FRAME, HEAD, LEAST_FRAME, Prio};
use pre_frame::{build, build_unchecked};
use pre_history::What;
use pre_script::Script;
use pre_streams::{Row, Streams};
use pre_topo::Network;

/// What a run is given.
#[derive(Clone, Copy)]
pub struct Inputs<'a> {
    pub net: &'a Network,
    pub streams: &'a Streams,
    pub script: &'a Script,
}

/// Puts the octets of a frame of the script at the front of `into`: how many there are.
pub fn put_frame(inputs: &Inputs, frame: FrameNo, into: &mut [u8; GREATEST_FRAME as usize]) -> usize
    requires frames { HasFrames (scenario_of inputs.now) }
    requires known { frame.0 < length inputs.now.script.now.sends }
    ensures size { result ≡ (send (scenario_of inputs.now) frame.0).send.size }
    ensures range { IsFrameSize result }
    ensures octets { into.new ≡ FrameOf (scenario_of inputs.now) frame.0 ++ drop result into.old }
{
    let size = inputs.script.sends.as_slice()[frame.0 as usize].send.size;
    let row = row_of(inputs, frame);
    let route = row.route.as_slice();
    let destination = route[route.len() - 1];
    match build(
        into,
        destination,
        route[0],
        prio_of(row),
        row.vid,
        frame,
        size,
    ) {
        Ok(size) => size,
        Err(_) => unreachable!(),
    }
}

/// Puts the octets of a frame of the script before its check at the front of `into`: how many octets it has with its check.
fn put_unchecked(inputs: &Inputs, frame: FrameNo, into: &mut [u8; GREATEST_FRAME as usize]) -> usize
    requires frames { HasFrames (scenario_of inputs.now) }
    requires known { frame.0 < length inputs.now.script.now.sends }
    ensures range { IsFrameSize result }
    ensures octets { with_check (take (result - 4) into.new) ≡ FrameOf (scenario_of inputs.now) frame.0 }
{
    let size = inputs.script.sends.as_slice()[frame.0 as usize].send.size;
    let row = row_of(inputs, frame);
    let route = row.route.as_slice();
    let destination = route[route.len() - 1];
    match build_unchecked(
        into,
        destination,
        route[0],
        prio_of(row),
        row.vid,
        frame,
        size,
    ) {
        Ok(_) => usize::from(size),
        Err(_) => unreachable!(),
    }
}

/// The row of a frame of the script.
fn row_of<'a>(inputs: &Inputs<'a>, frame: FrameNo) -> &'a Row
    requires frames { HasFrames (scenario_of inputs.now) }
    requires known { frame.0 < length inputs.now.script.now.sends }
    ensures here { result.now ≡ row (scenario_of inputs.now) frame.0 }
    ensures row { IsRow inputs.now.net.now result.now }
{
    let send = inputs.script.sends.as_slice()[frame.0 as usize].send;
    &inputs.streams.rows.as_slice()[send.stream.0 as usize]
}

/// The priority of a row.
fn prio_of(row: &Row) -> Prio
    ensures same { result ≡ row.now.prio }
    ensures below { result < 8 }
{
    let prio = row.prio;
    prove!(prio.number() < 8);
    prio
}

/// Puts what an mPacket gives where it arrives as it was sent at the front of `into`, if it has its last octets: how many
/// octets that frame has. Of a user frame the check isn't put there.
pub(crate) fn put_expected(
    inputs: &Inputs,
    flight: Flight,
    octets: &[u8],
    into: &mut [u8; GREATEST_FRAME as usize],
) -> Option<usize>
    requires { HasFrames (scenario_of inputs.now) }
    ensures octets { option_map (λ size. frame_at_front flight.what size into.new) result ≡ expected (scenario_of inputs.now) (with_octets flight octets.now) }
    ensures size { IfSome result IsFrameSize }
{
    if !flight.is_last {
        return None;
    }
    match flight.what {
        What::Frame(frame) => {
            if frame.0 as usize >= inputs.script.sends.len() {
                return None;
            }
            Some(put_unchecked(inputs, frame, into))
        }
        What::Lldp => put_front(octets, into),
        What::Nothing => None,
    }
}

/// Puts the octets of an mPacket behind its head at the front of `into`, where they fit: how many there are.
fn put_front(octets: &[u8], into: &mut [u8; GREATEST_FRAME as usize]) -> Option<usize>
    ensures octets { option_map (λ size. take size into.new) result ≡ behind_head octets.now }
    ensures size { IfSome result IsFrameSize }
{
    let head = HEAD as usize;
    let size = octets.len().saturating_sub(head);
    if size < LEAST_FRAME as usize || size > into.len() {
        return None;
    }
    into[..size].copy_from_slice(&octets[head..]);
    Some(size)
}
