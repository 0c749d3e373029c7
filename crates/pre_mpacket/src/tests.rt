use super::*;
use std::test::Fail;

// The octets of an mPacket of 60 octets of zero.
fn octets_of(head: [u8; 8], check: [u8; 4]) -> [u8; 72] {
    let mut octets = [0; 72];
    octets[..8].copy_from_slice(&head);
    octets[68..].copy_from_slice(&check);
    octets
}

// A head whose last two octets are these.
fn head_of(sixth: u8, seventh: u8) -> [u8; 8] {
    [0x55, 0x55, 0x55, 0x55, 0x55, 0x55, sixth, seventh]
}

// Each SMD and each fragment count, both ways. The checks are the Fcs and the mPacket check of 60 zeros.
#[test]
fn each_kind_both_ways(rt: HostRuntime) -> Result<(), Fail> {
    const FCS: [u8; 4] = [0x08, 0x89, 0x12, 0x04];
    const MCRC: [u8; 4] = [0x08, 0x89, 0xED, 0xFB];
    for (sixth, seventh, check, kind) in [
        (0x55, 0x07, MCRC, Kind::Verify),
        (0x55, 0x19, MCRC, Kind::Respond),
        (0x55, 0xD5, FCS, Kind::Express),
        (0x55, 0xE6, MCRC, Kind::Start(0)),
        (0x52, 0xE6, MCRC, Kind::Continue(1, 0)),
        (0x61, 0xE6, MCRC, Kind::Continue(0, 0)),
        (0x55, 0x4C, FCS, Kind::Start(1)),
        (0x55, 0x7F, FCS, Kind::Start(2)),
        (0x55, 0xB3, FCS, Kind::Start(3)),
        (0x9E, 0x4C, FCS, Kind::Continue(2, 1)),
        (0x2A, 0x7F, FCS, Kind::Continue(3, 2)),
        (0x52, 0xB3, FCS, Kind::Continue(1, 3)),
    ] {
        let octets = octets_of(head_of(sixth, seventh), check);
        let read = read_mpacket(&octets).ok().ok_or("read")?;
        assert_eq!(rt; read.kind, kind);
        assert_eq!(rt; read.mdata.len() + read.check.len(), 64);
        assert_eq!(rt; read.check, check.as_slice());
        let mut short = [1; 71];
        assert!(rt; write_mpacket(&read, &mut short).is_err());
        assert!(rt; short == [1; 71]);
        let mut written = [1; 73];
        assert_eq!(rt; write_mpacket(&read, &mut written).ok(), Some(72));
        assert_eq!(rt; &written[..72], octets.as_slice());
        assert_eq!(rt; written[72], 1);
    }
    Ok(())
}

// Each fault where it first stands.
#[test]
fn each_fault(rt: HostRuntime) {
    let good = octets_of(head_of(0x61, 0xE6), [0; 4]);
    let short = [0; 71];
    assert_eq!(rt; read_mpacket(&short).err(), Some(MFault::Short));
    for place in 0..6 {
        let mut octets = good;
        octets[place] = 0x54;
        octets[7] = 0;
        assert_eq!(rt; read_mpacket(&octets).err(), Some(MFault::Preamble));
    }
    for (sixth, seventh, fault) in [
        (0x55, 0x00, MFault::Smd),
        (0x55, 0x61, MFault::Smd),
        (0xE6, 0x00, MFault::Smd),
        (0x61, 0x61, MFault::Fragment),
    ] {
        let octets = octets_of(head_of(sixth, seventh), [0; 4]);
        assert_eq!(rt; read_mpacket(&octets).err(), Some(fault));
    }
}
