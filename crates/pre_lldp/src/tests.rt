use super::*;
use pre_base::{ArcId, NodeId, Tick};
use std::test::Fail;

// The check is that of Python's zlib.crc32.
const FRAME: [u8; 64] = [
    0x01, 0x80, 0xC2, 0x00, 0x00, 0x0E, 0x02, 0x00, 0x00, 0x00, 0x00, 0x00, 0x88, 0xCC, 0x02, 0x07,
    0x04, 0x02, 0x00, 0x00, 0x00, 0x00, 0x00, 0x04, 0x02, 0x07, 0x30, 0x06, 0x02, 0x00, 0x04, 0xFE,
    0x06, 0x00, 0x12, 0x0F, 0x07, 0x00, 0x03, 0x00, 0x00, 0x00, 0x00, 0x00, 0x00, 0x00, 0x00, 0x00,
    0x00, 0x00, 0x00, 0x00, 0x00, 0x00, 0x00, 0x00, 0x00, 0x00, 0x00, 0x00, 0x09, 0xC9, 0xBE, 0x8B,
];

#[test]
fn enabled_on_the_first_arc(rt: HostRuntime) -> Result<(), Fail> {
    let advert = Advert {
        enabled: true,
        active: false,
        add_frag: 0,
        ttl: 4,
    };
    let mut frame = [0xEE; 64];
    write_lldp(&advert, NodeId(0), ArcId(0), &mut frame);
    assert_eq!(rt; frame.as_slice(), FRAME.as_slice());
    assert!(rt; is_lldp(&frame));
    let pdu = read_lldpdu(lldpdu(&frame)).ok().ok_or("an LLDPDU")?;
    assert_eq!(rt; pdu.chassis, [4, 2, 0, 0, 0, 0, 0].as_slice());
    assert_eq!(rt; pdu.port, b"\x070".as_slice());
    assert_eq!(rt; pdu.ttl, 4);
    assert_eq!(rt; pdu.caps, Some(3));
    Ok(())
}

// Made by scapy 2.5.0: a chassis by its address 02:00:00:00:00:05, a port "12", 120 units, a system
// name, and capabilities of which all five bits but the highest are set.
const OTHERS: [u8; 46] = [
    0x02, 0x07, 0x04, 0x02, 0x00, 0x00, 0x00, 0x00, 0x05, 0x04, 0x03, 0x07, 0x31, 0x32, 0x06, 0x02,
    0x00, 0x78, 0x0A, 0x06, 0x62, 0x72, 0x69, 0x64, 0x67, 0x65, 0xFE, 0x06, 0x00, 0x12, 0x0F, 0x07,
    0x00, 0x0F, 0x00, 0x00, 0x00, 0x00, 0x00, 0x00, 0x00, 0x00, 0x00, 0x00, 0x00, 0x00,
];

#[test]
fn made_elsewhere(rt: HostRuntime) -> Result<(), Fail> {
    let pdu = read_lldpdu(&OTHERS).ok().ok_or("an LLDPDU")?;
    assert_eq!(rt; pdu.chassis, [4, 2, 0, 0, 0, 0, 5].as_slice());
    assert_eq!(rt; pdu.port, b"\x0712".as_slice());
    assert_eq!(rt; pdu.ttl, 120);
    assert_eq!(rt; pdu.caps, Some(0x000F));
    assert_eq!(rt;
        read_lldpdu(&OTHERS[..34]).map(|pdu| pdu.caps),
        Ok(Some(0x000F))
    );
    assert_eq!(rt; read_lldpdu(&OTHERS[..26]).map(|pdu| pdu.caps), Ok(None));
    Ok(())
}

#[test]
fn faults(rt: HostRuntime) {
    assert_eq!(rt; read_lldpdu(&OTHERS[..33]).err(), Some(LldpFault::Short));
    assert_eq!(rt; read_lldpdu(&OTHERS[..35]).err(), Some(LldpFault::Short));
    assert_eq!(rt; read_lldpdu(&OTHERS[..14]).err(), Some(LldpFault::Order));
    assert_eq!(rt; read_lldpdu(&OTHERS[9..]).err(), Some(LldpFault::Order));
    let mut octets = OTHERS;
    octets[35] = 1;
    assert_eq!(rt; read_lldpdu(&octets).err(), Some(LldpFault::Length));
    let second: [u8; 8] = [0xFE, 0x06, 0x00, 0x12, 0x0F, 0x07, 0x00, 0x0F];
    octets[34..42].copy_from_slice(&second);
    assert_eq!(rt; read_lldpdu(&octets).err(), Some(LldpFault::Repeat));
    one_pdu();
    read_back();
    link_state();
}

#[test]
fn an_advert_ages(rt: HostRuntime) -> Result<(), Fail> {
    let pdu = read_lldpdu(lldpdu(&FRAME)).ok().ok_or("an LLDPDU")?;
    let mut neighbour = Neighbour::new(100);
    assert_eq!(rt; neighbour.due(), None);
    assert!(rt; !neighbour.good(Tick(0)));
    neighbour.heard(Tick(7), &pdu);
    assert_eq!(rt; neighbour.due(), Some(Tick(407)));
    assert!(rt; neighbour.good(Tick(7)));
    assert!(rt; neighbour.good(Tick(406)));
    assert!(rt; !neighbour.good(Tick(407)));
    neighbour.heard(Tick(20), &Pdu { ttl: 0, ..pdu });
    assert_eq!(rt; neighbour.due(), None);
    assert!(rt; !neighbour.good(Tick(20)));
    Ok(())
}
