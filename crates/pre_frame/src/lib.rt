//! User frames: MAC frames (IEEE 802.3 clause 3) with a VLAN tag (IEEE 802.1Q clause 9).
#![tactic(auto)]

mod building;
mod laws;
mod reading;

pub use building::{build, build_unchecked};
pub use laws::built_law;
pub use reading::{FrameFault, FrameView, read_frame};

#[cfg(test)]
mod tests {
    use super::*;
    use pre_base::{FrameNo, NodeId, Prio, Room};

    // Frame 0 from node 0 to node 1: its check is that of Python's zlib.crc32.
    const FIRST: [u8; 64] = [
        0x02, 0x00, 0x00, 0x00, 0x00, 0x01, 0x02, 0x00, 0x00, 0x00, 0x00, 0x00, 0x81, 0x00, 0xC0,
        0x0A, 0x88, 0xB5, 0x00, 0x00, 0x00, 0x00, 0x04, 0x05, 0x06, 0x07, 0x08, 0x09, 0x0A, 0x0B,
        0x0C, 0x0D, 0x0E, 0x0F, 0x10, 0x11, 0x12, 0x13, 0x14, 0x15, 0x16, 0x17, 0x18, 0x19, 0x1A,
        0x1B, 0x1C, 0x1D, 0x1E, 0x1F, 0x20, 0x21, 0x22, 0x23, 0x24, 0x25, 0x26, 0x27, 0x28, 0x29,
        0xD9, 0x06, 0x4E, 0x6C,
    ];

    #[test]
    fn builds_the_first(rt: HostRuntime) {
        let mut into = [0xEE; 64];
        let size = build(&mut into, NodeId(1), NodeId(0), Prio(6), 10, FrameNo(0), 64);
        assert_eq!(rt; size, Ok(64));
        assert_eq!(rt; into.as_slice(), FIRST.as_slice());
        let mut short = [0xEE; 63];
        let size = build(
            &mut short,
            NodeId(1),
            NodeId(0),
            Prio(6),
            10,
            FrameNo(0),
            64,
        );
        assert_eq!(rt; size, Err(Room));
        built_law();
    }

    #[test]
    fn builds_the_first_without_its_check(rt: HostRuntime) {
        let mut into = [0xEE; 64];
        let count = build_unchecked(&mut into, NodeId(1), NodeId(0), Prio(6), 10, FrameNo(0), 64);
        let mut front = FIRST;
        front[60..].copy_from_slice(&[0xEE; 4]);
        assert_eq!(rt; count, Ok(60));
        assert_eq!(rt; into.as_slice(), front.as_slice());
    }

    #[test]
    fn reads_the_first(rt: HostRuntime) {
        let view = read_frame(&FIRST);
        let expected = FrameView {
            destination: &FIRST[..6],
            source: &FIRST[6..12],
            payload: &FIRST[18..60],
            fcs: &FIRST[60..],
            prio: Prio(6),
            dei: false,
            vid: 10,
            ether: 0x88B5,
        };
        assert_eq!(rt; view, Ok(expected));
    }

    // The check of sixty octets 00 is 08 89 12 04.
    #[test]
    fn finds_each_fault(rt: HostRuntime) {
        let mut octets = [0; 2001];
        assert_eq!(rt; read_frame(&octets[..63]), Err(FrameFault::Short));
        assert_eq!(rt; read_frame(&octets), Err(FrameFault::Long));
        assert_eq!(rt; read_frame(&octets[..64]), Err(FrameFault::Check));
        octets[60..64].copy_from_slice(&[0x08, 0x89, 0x12, 0x04]);
        assert_eq!(rt; read_frame(&octets[..64]), Err(FrameFault::Tag));
    }
}
