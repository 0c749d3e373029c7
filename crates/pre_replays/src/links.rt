//! Links whose modes and rings tell. Checks are the CRC-32 of the octets before them by another program.

use crate::plants::{FAR, NARROW_OFF, OFF, ONE_FLOW, TWO_ROWS, WIDE_FLOW, WIDE_OFF};
use crate::running::{assert_trace_over, replayed_over, wide_sink};
use std::alloc::{AllocError, Global};
use std::test::Fail;

/// The octets of the payload of frame 0 from the fifth on, as a trace has them.
fn push_payload(trace: &mut String, alloc: Global, size: u32) -> Result<(), AllocError> {
    for place in 4..size {
        let octet = place % 256;
        trace.push_str(format!(in alloc; "{octet:02x}")?.as_str())?;
    }
    Ok(())
}

/// Where a link doesn't preempt, an express frame waits for the end of a flow's frame of the greatest size.
#[test]
fn a_link_that_does_not_preempt(rt: HostRuntime) -> Result<(), Fail> {
    let alloc = rt.alloc();
    let head = "0 enter a>b 0 0
0 begin a>b 0 E 0 0
20 enter a>b 6 1
1530 ended a>b 0 1522 ea1b955a
1530 arrive a>b 0 frame
";
    let delivered = "1530 deliver b 0 0200000000010200000000008100001488b500000000";
    let tail = "ea1b955a
1542 begin a>b 1 E 1 0
1614 ended a>b 1 64 7fcde95f
1614 arrive a>b 1 frame
1614 deliver b 1 0200000000010200000000008100c00a88b50000000105060708090a0b0c0d0e0f101112131415161718191a1b1c1d1e1f202122232425262728292a7fcde95f
2000 end 2 2 0
";
    let mut trace = String::from_str(alloc, head)?;
    trace.push_str(delivered)?;
    push_payload(&mut trace, alloc, 1500)?;
    trace.push_str(tail)?;
    let script = "send 0 y 1522\nsend 20 x 64\nuntil 2000\n";
    assert_trace_over(&rt, alloc, (OFF, TWO_ROWS), script, trace.as_str())?;
    Ok(())
}

/// A frame of 2000 octets goes whole over a link that allows it, and arrives with its preamble 2008 ticks after it began.
#[test]
fn the_greatest_frame(rt: HostRuntime) -> Result<(), Fail> {
    let alloc = rt.alloc();
    let head = "0 enter a>b 0 0
0 begin a>b 0 E 0 0
2008 ended a>b 0 2000 7dd0e0e5
2008 arrive a>b 0 frame
2008 deliver b 0 0200000000010200000000008100001488b500000000";
    let tail = "7dd0e0e5\n3000 end 1 1 0\n";
    let mut trace = String::from_str(alloc, head)?;
    push_payload(&mut trace, alloc, 1978)?;
    trace.push_str(tail)?;
    let script = "send 0 y 2000\nuntil 3000\n";
    assert_trace_over(&rt, alloc, (WIDE_OFF, WIDE_FLOW), script, trace.as_str())?;
    Ok(())
}

/// A frame has left its ring once its first octet has begun.
#[test]
fn rings_of_one_frame(rt: HostRuntime) -> Result<(), Fail> {
    let script = "send 0 y 64\nsend 0 y 64\nsend 10 y 64\nsend 20 y 64\nuntil 200\n";
    let trace = "0 enter a>b 0 0
0 dropped a>b 0 1
0 begin a>b 0 E 0 0
10 enter a>b 0 2
20 dropped a>b 0 3
72 ended a>b 0 64 2f97dc4f
72 arrive a>b 0 frame
72 deliver b 0 0200000000010200000000008100001488b5000000000405060708090a0b0c0d0e0f101112131415161718191a1b1c1d1e1f202122232425262728292f97dc4f
84 begin a>b 1 E 2 0
156 ended a>b 1 64 1c48ac06
156 arrive a>b 1 frame
156 deliver b 2 0200000000010200000000008100001488b500000002060708090a0b0c0d0e0f101112131415161718191a1b1c1d1e1f202122232425262728292a2b1c48ac06
200 end 4 2 2
";
    assert_trace_over(&rt, rt.alloc(), (NARROW_OFF, ONE_FLOW), script, trace)?;
    Ok(())
}

/// A wire carries more frames at once than may stand in rings, at senders and in bridges, which are 22 here: of 60 frames that
/// begin 84 ticks apart, the last one has ended at tick 5028 and the first one arrives at 6072.
#[test]
fn a_long_wire(rt: HostRuntime) -> Result<(), Fail> {
    let alloc = rt.alloc();
    let mut script = String::new(alloc);
    for number in 0..60u32 {
        script.push_str(format!(in alloc; "send {} y 64\n", 84 * number)?.as_str())?;
    }
    script.push_str("until 12000\n")?;
    let mut sink = wide_sink(alloc)?;
    let words = "replay net streams cert script";
    let status = replayed_over(alloc, (FAR, ONE_FLOW), script.as_str(), words, &mut sink)?;
    assert_eq!(rt; status.number(), 0);
    let trace = std::str::from_utf8(sink.octets())?;
    assert!(rt; trace.contains("\n5028 ended a>b 59 64 "));
    assert!(rt; trace.contains("\n6072 arrive a>b 0 frame\n6072 deliver b 0 "));
    assert!(rt; trace.contains("\n11028 arrive a>b 59 frame\n11028 deliver b 59 "));
    assert!(rt; trace.ends_with("\n12000 end 60 60 0\n"));
    Ok(())
}
