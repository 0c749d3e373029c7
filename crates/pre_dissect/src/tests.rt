use super::*;
use pre_base::{MemorySink, Sink};
use pre_pcap::{PcapFault, PcapRule};
use std::test::Fail;

// One record at tick 72: an express mPacket with a frame of 64 octets, whose check is that of Python's zlib.crc32.
const CAPTURE: [u8; 112] = [
    0x4D, 0x3C, 0xB2, 0xA1, 0x02, 0x00, 0x04, 0x00, 0x00, 0x00, 0x00, 0x00, 0x00, 0x00, 0x00, 0x00,
    0xFF, 0xFF, 0x00, 0x00, 0x12, 0x01, 0x00, 0x00, 0x00, 0x00, 0x00, 0x00, 0x48, 0x00, 0x00, 0x00,
    0x48, 0x00, 0x00, 0x00, 0x48, 0x00, 0x00, 0x00, 0x55, 0x55, 0x55, 0x55, 0x55, 0x55, 0x55, 0xD5,
    0x02, 0x00, 0x00, 0x00, 0x00, 0x01, 0x02, 0x00, 0x00, 0x00, 0x00, 0x00, 0x81, 0x00, 0xC0, 0x0A,
    0x88, 0xB5, 0x00, 0x00, 0x00, 0x00, 0x04, 0x05, 0x06, 0x07, 0x08, 0x09, 0x0A, 0x0B, 0x0C, 0x0D,
    0x0E, 0x0F, 0x10, 0x11, 0x12, 0x13, 0x14, 0x15, 0x16, 0x17, 0x18, 0x19, 0x1A, 0x1B, 0x1C, 0x1D,
    0x1E, 0x1F, 0x20, 0x21, 0x22, 0x23, 0x24, 0x25, 0x26, 0x27, 0x28, 0x29, 0xD9, 0x06, 0x4E, 0x6C,
];

// The frame of the record is listed, with its seconds and its fraction.
#[test]
fn an_express_frame(rt: HostRuntime) -> Result<(), Fail> {
    let mut sink = MemorySink::make(rt.alloc(), 200, 50, &[])?;
    assert_eq!(rt; dissect(rt.alloc(), &CAPTURE, &mut sink), Ok(()));
    let line =
        b"0 72 0 E 64 frame 0200000000010200000000008100c00a88b5000000000405060708090a0b0c0d0e0f101112131415161718191a1b1c1d1e1f20212223242526272829d9064e6c\n";
    assert_eq!(rt; sink.octets(), line.as_slice());
    Ok(())
}

// With a damaged octet its check is wrong; a file that is cut off, or of another link type, has a fault.
#[test]
fn a_wrong_check_and_faults(rt: HostRuntime) -> Result<(), Fail> {
    let mut sink = MemorySink::make(rt.alloc(), 200, 50, &[])?;
    let mut octets = CAPTURE;
    octets[77] ^= 1;
    assert_eq!(rt; dissect(rt.alloc(), &octets, &mut sink), Ok(()));
    assert_eq!(rt; sink.octets(), b"0 72 0 E 64 nothing check\n".as_slice());
    let cut = DissectFault::Pcap(PcapFault {
        place: 1,
        rule: PcapRule::Short,
    });
    assert_eq!(rt; dissect(rt.alloc(), &CAPTURE[..111], &mut sink), Err(cut));
    octets[20] = 0x01;
    let link = DissectFault::Pcap(PcapFault {
        place: 0,
        rule: PcapRule::Link,
    });
    assert_eq!(rt; dissect(rt.alloc(), &octets, &mut sink), Err(link));
    Ok(())
}
