use super::*;
use pre_crc::{Running, fcs};
use std::test::Fail;

// The Fcs and the mPacket check of 60 zeros, from an outside CRC-32.
const FCS: [u8; 4] = [0x08, 0x89, 0x12, 0x04];

const MCRC: [u8; 4] = [0x08, 0x89, 0xED, 0xFB];

// An mPacket of 60 zeros, by octets 6 and 7.
fn octets_of(sixth: u8, seventh: u8, check: [u8; 4]) -> [u8; 72] {
    let mut octets = [0; 72];
    octets[..6].copy_from_slice(&[0x55; 6]);
    octets[6] = sixth;
    octets[7] = seventh;
    octets[68..].copy_from_slice(&check);
    octets
}

fn gives(receiver: &mut Receiver, octets: &[u8], wanted: Taken) -> bool {
    receiver.take(octets) == wanted
}

fn gives_frame(receiver: &mut Receiver, octets: &[u8], frame: &[u8]) -> bool {
    match receiver.take(octets) {
        Taken::Frame(given) => given == frame,
        _ => false,
    }
}

// Each kind once, in a row: a continuation of another frame count discards the open frame.
#[test]
fn each_kind_in_a_row(rt: HostRuntime) -> Result<(), Fail> {
    let mut receiver = Receiver::make(rt.alloc())?;
    for (sixth, seventh, check, taken) in [
        (0x55, 0x07, MCRC, Taken::Verify),
        (0x55, 0x19, MCRC, Taken::Respond),
        (0x55, 0xE6, MCRC, Taken::Part),
        (0x52, 0xE6, MCRC, Taken::Nothing(Cause::Count)),
        (0x61, 0xE6, MCRC, Taken::Nothing(Cause::NoFrame)),
        (0x55, 0x00, FCS, Taken::Nothing(Cause::Smd)),
        (0x61, 0x00, FCS, Taken::Nothing(Cause::Fragment)),
        (0x55, 0xD5, MCRC, Taken::Nothing(Cause::Check)),
    ] {
        let octets = octets_of(sixth, seventh, check);
        assert!(rt; gives(&mut receiver, &octets, taken));
    }
    let express = octets_of(0x55, 0xD5, FCS);
    assert!(rt; gives_frame(&mut receiver, &express, &express[8..]));
    assert!(rt; gives(&mut receiver, &[0x55; 71], Taken::Nothing(Cause::Size)));
    let counters = Counters {
        frame_ass_error: 1,
        frame_smd_error: 4,
        frame_ass_ok: 0,
        frag_count_rx: 0,
    };
    assert_eq!(rt; receiver.counters(), counters);
    Ok(())
}

// A start while a frame is open discards that frame, which counts once.
#[test]
fn a_start_while_a_frame_is_open(rt: HostRuntime) -> Result<(), Fail> {
    let start = octets_of(0x55, 0xE6, MCRC);
    let whole = octets_of(0x55, 0x4C, FCS);
    let mut receiver = Receiver::make(rt.alloc())?;
    assert!(rt; gives(&mut receiver, &start, Taken::Part));
    assert!(rt; gives(&mut receiver, &start, Taken::Part));
    assert!(rt; gives_frame(&mut receiver, &whole, &whole[8..]));
    let counters = Counters {
        frame_ass_error: 2,
        frame_smd_error: 0,
        frame_ass_ok: 1,
        frag_count_rx: 0,
    };
    assert_eq!(rt; receiver.counters(), counters);
    Ok(())
}

// The plain form: the mPacket check of all octets so far, computed anew.
fn mcrc(octets: &[u8]) -> [u8; 4] {
    let mut running = Running::new();
    running.add(octets);
    running.mcrc()
}

// The octets 6 and 7 of the fragments of one frame: a start and continuations with counts 0, 1, 2, 3, 0.
const HEADS: [(u8, u8); 6] = [
    (0x55, 0x7F),
    (0x9E, 0xE6),
    (0x9E, 0x4C),
    (0x9E, 0x7F),
    (0x9E, 0xB3),
    (0x9E, 0xE6),
];

// Five parts and the end of a frame, whose checks the plain form computes; a fragment with the Fcs of its own octets
// alone is none of them.
#[test]
fn a_frame_in_six_fragments(rt: HostRuntime) -> Result<(), Fail> {
    let zeros = [0; 360];
    let mut receiver = Receiver::make(rt.alloc())?;
    let mut size = 0;
    for (sixth, seventh) in HEADS {
        if size > 300 {
            break;
        }
        size += 60;
        let so_far = &zeros[..size];
        if size == 360 {
            let last = octets_of(sixth, seventh, fcs(so_far));
            let mut frame = [0; 364];
            frame[360..].copy_from_slice(&last[68..]);
            assert!(rt; gives_frame(&mut receiver, &last, &frame));
        } else {
            let part = octets_of(sixth, seventh, mcrc(so_far));
            assert!(rt; gives(&mut receiver, &part, Taken::Part));
        }
    }
    assert_eq!(rt; size, 360);
    let counters = Counters {
        frame_ass_error: 0,
        frame_smd_error: 0,
        frame_ass_ok: 1,
        frag_count_rx: 5,
    };
    assert_eq!(rt; receiver.counters(), counters);
    assert!(rt; gives(&mut receiver, &octets_of(0x55, 0xE6, MCRC), Taken::Part));
    assert!(rt;
        gives(
            &mut receiver,
            &octets_of(0x61, 0xE6, FCS),
            Taken::Nothing(Cause::Check)
        )
    );
    one_taken();
    later_takings();
    lost_arrivals();
    Ok(())
}
