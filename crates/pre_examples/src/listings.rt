//! Files of mPackets and their listings.

use crate::running::{assert_status, wide_sink, words_of};
use pre_base::{MemoryShelf, MemorySink, Sink};
use pre_cli::{Status, due_listings, preempt};
use std::alloc::{AllocError, Global};
use std::test::Fail;

/// A verify, a respond, an express frame, a part, a continuation of another frame count, one more, and no mPacket: each
/// of 60 octets of zero, whose checks are the CRC-32 by another program.
pub const PACKETS: &str =
    "55555555555555070000000000000000000000000000000000000000000000000000000000000000000000000000000000000000000000000000000000000000000000000889edfb
55555555555555190000000000000000000000000000000000000000000000000000000000000000000000000000000000000000000000000000000000000000000000000889edfb
55555555555555d500000000000000000000000000000000000000000000000000000000000000000000000000000000000000000000000000000000000000000000000008891204
55555555555555e60000000000000000000000000000000000000000000000000000000000000000000000000000000000000000000000000000000000000000000000000889edfb
55555555555552e60000000000000000000000000000000000000000000000000000000000000000000000000000000000000000000000000000000000000000000000000889edfb
55555555555561e60000000000000000000000000000000000000000000000000000000000000000000000000000000000000000000000000000000000000000000000000889edfb
555555555555550000000000000000000000000000000000000000000000000000000000000000000000000000000000000000000000000000000000000000000000000008891204
";

/// What they give.
const LISTING: &str = "0 V 64 verify
1 R 64 respond
2 E 64 frame 00000000000000000000000000000000000000000000000000000000000000000000000000000000000000000000000000000000000000000000000008891204
3 S0 64 part
4 C1.0 64 nothing count
5 C0.0 64 nothing noframe
6 - - nothing smd
";

/// Lists a file of mPackets.
fn listed<S: Sink>(alloc: Global, packets: &str, sink: &mut S) -> Result<Status, AllocError> {
    let mut shelf = MemoryShelf::make(alloc, &[])?;
    shelf.put("packets", packets.as_bytes())?;
    let words = words_of(alloc, "mpackets packets")?;
    Ok(preempt(alloc, words.as_slice(), &mut shelf, sink))
}

#[test]
fn seven_packets(rt: HostRuntime) -> Result<(), Fail> {
    let alloc = rt.alloc();
    let mut sink = wide_sink(alloc)?;
    let status = listed(alloc, PACKETS, &mut sink)?;
    assert_eq!(rt; status.number(), 0);
    assert_eq!(rt; sink.octets(), LISTING.as_bytes());
    due_listings();
    Ok(())
}

/// Comments and lines without words are skipped, and counted as lines alone.
#[test]
fn lines_that_are_skipped(rt: HostRuntime) -> Result<(), Fail> {
    let alloc = rt.alloc();
    let mut sink = wide_sink(alloc)?;
    let status = listed(alloc, "# none\r\n\n  AbcD \n", &mut sink)?;
    assert_eq!(rt; status.number(), 0);
    assert_eq!(rt; sink.octets(), b"0 - - nothing size\n".as_slice());
    Ok(())
}

/// Nothing is written where a later line has a fault.
#[test]
fn lines_with_a_fault(rt: HostRuntime) -> Result<(), Fail> {
    let alloc = rt.alloc();
    for packets in ["00\n\n0\n", "00\n\n00 00\n", "00\n#\nx0\n1"] {
        let mut sink = wide_sink(alloc)?;
        let status = listed(alloc, packets, &mut sink)?;
        assert_status(&rt, alloc, &status, 4, "form mpackets 3 1")?;
        assert!(rt; sink.octets().is_empty());
    }
    Ok(())
}

/// The first two writes take up to 7 octets each.
#[test]
fn the_third_write_of_a_listing_fails(rt: HostRuntime) -> Result<(), Fail> {
    let alloc = rt.alloc();
    let mut sink = MemorySink::make(alloc, 1000, 7, &[2])?;
    let status = listed(alloc, PACKETS, &mut sink)?;
    assert_status(&rt, alloc, &status, 3, "write fault")?;
    assert!(rt; LISTING.as_bytes().starts_with(sink.octets()));
    Ok(())
}
