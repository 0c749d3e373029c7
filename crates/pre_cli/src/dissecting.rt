ghost use Rattle.std.specs.Prelude.{◌≡◌, ◌≤◌, IfOk, IfErr};
ghost use Rattle.pre_base.specs.Told.{WhereTold};
ghost use Rattle.pre_cli.specs.Answers.{outside};
ghost use Rattle.pre_cli.specs.Files.{OfFiles, IsFileIn};
ghost use Rattle.pre_cli.specs.Dissecting as dissecting;
ghost use Rattle.pre_cli.specs.Dissecting.{DissectedCause, DissectedLeaves, IsUnread, DissectingCause, DissectingLeaves};

use crate::flushing::flushed;
use crate::{FileWord, Status};
use pre_base::{ReadError, Shelf, Sink, read_whole};
use pre_dissect::{DissectFault, dissect};
use pre_pcap::PcapFault;
use std::alloc::Global;

fn fault_status(fault: PcapFault) -> Status
    ensures { result ≡ dissecting.fault_status fault }
{
    Status::Form {
        file: FileWord::Pcap,
        line: fault.place,
        rule: fault.rule.number(),
    }
}

/// Dissects the octets of a file, and passes on what was written.
fn dissect_octets<S: Sink>(alloc: Global, octets: &[u8], sink: &mut S) -> Status
    ensures cause { DissectedCause result octets.now (S.faults sink.old) (S.faults sink.new) }
    ensures leaves { DissectedLeaves result octets.now (S.tells sink.old) (S.tells sink.new) }
    ensures later { S.faults sink.old ≤ S.faults sink.new }
{
    match dissect(alloc, octets, sink) {
        Ok(()) => flushed(sink, Status::Done),
        Err(DissectFault::Pcap(fault)) => flushed(sink, fault_status(fault)),
        Err(DissectFault::Failed) => Status::WriteFault,
        Err(DissectFault::Memory) => Status::Memory,
    }
}

/// The octets of a capture file, or the answer in their place.
fn capture_octets<H: Shelf>(alloc: Global, name: &str, shelf: &mut H) -> Result<Vec<u8>, Status>
    ensures octets { IfOk result (λ octets. WhereTold (H.tells shelf.old) (H.tells shelf.new) (OfFiles (IsFileIn name.now octets.items))) }
    ensures cause { IfErr result (λ status. IsUnread status name.now (H.faults shelf.old) (H.faults shelf.new) (H.tells shelf.old) (H.tells shelf.new)) }
    ensures later { H.faults shelf.old ≤ H.faults shelf.new }
{
    match read_whole(alloc, shelf, name) {
        Ok(octets) => Ok(octets),
        Err(ReadError::Fault) => Err(Status::ReadFault),
        Err(ReadError::Length) => Err(Status::Form {
            file: FileWord::Pcap,
            line: 0,
            rule: 0,
        }),
        Err(ReadError::Memory) => Err(Status::Memory),
    }
}

/// The command `dissect` with the name of a capture file: one receiver takes the mPackets of its records, and each line tells
/// what one gave, up to the first fault of the file.
pub(crate) fn dissect_file<H: Shelf, S: Sink>(
    alloc: Global,
    name: &str,
    shelf: &mut H,
    sink: &mut S,
) -> Status
    ensures cause { DissectingCause result name.now
        (outside H.faults H.tells shelf.old shelf.new S.faults S.tells sink.old sink.new) }
    ensures leaves { DissectingLeaves result name.now
        (outside H.faults H.tells shelf.old shelf.new S.faults S.tells sink.old sink.new) }
    ensures shelf_later { H.faults shelf.old ≤ H.faults shelf.new }
    ensures sink_later { S.faults sink.old ≤ S.faults sink.new }
{
    match capture_octets(alloc, name, shelf) {
        Ok(octets) => dissect_octets(alloc, octets.as_slice(), sink),
        Err(status) => status,
    }
}
