ghost use Rattle.std.specs.Prelude.{◌≡◌, ◌≤◌};
ghost use Rattle.pre_pcap.specs.declared.faults.PcapFault.{PcapFault};
ghost use Rattle.pre_pcap.specs.Captures.{IsFirstFault};
ghost use Rattle.pre_dissect.specs.Answers.{HasCause, IsDue, Leaves};

use crate::faults::DissectFault;
use crate::lines::take_record;
use pre_base::Sink;
use pre_pcap::{Capture, one_capture};
use pre_receive::{Receiver, later_takings};
use std::alloc::Global;

/// Writes a line for each record of a capture file (`SECONDS FRACTION ORD KIND SIZE RESULT`): seconds and fraction as they are
/// stored, its place from 0 on, the kind and the size (mData and check, in octets) of the mPacket that it stores, and what it
/// gives after those before it to one receiver (IEEE 802.3, 99.4.7). RESULT is `frame` and its octets in hexadecimal digits,
/// `part`, `verify`, `respond`, or `nothing` and the cause. A record that spells no mPacket has `-` for KIND and SIZE.
///
/// # Errors
///
/// `Pcap` is the first fault of the file, behind the lines of the records before it; `Failed` comes where the sink failed, with a
/// front of the lines written; and `Memory` where there isn't enough memory for the receiver, with nothing written.
pub fn dissect<S: Sink>(alloc: Global, octets: &[u8], sink: &mut S) -> Result<(), DissectFault>
    ensures cause { HasCause result octets.now (S.faults sink.old) (S.faults sink.new) }
    ensures due { (first : PcapFault) → IsFirstFault first octets.now → IsDue result first }
    ensures leaves { Leaves result octets.now (S.tells sink.old) (S.tells sink.new) }
    ensures later { S.faults sink.old ≤ S.faults sink.new }
{
    one_capture();
    later_takings();
    let mut capture = Capture::of(octets)?;
    let mut receiver = Receiver::make(alloc)?;
    let mut place: u64 = 0;
    while let Some(record) = capture.next_record()? {
        take_record(&mut receiver, place, &record, sink)?;
        place += 1;
    }
    Ok(())
}
