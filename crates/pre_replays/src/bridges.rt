//! Frames by way of bridges. Checks are the CRC-32 of the octets before them by another program.

use crate::plants::{
    BRIDGED, BY_BRIDGE, BY_LINE, BY_TWO_ARCS, BY_TWO_BRIDGES, LINE, TWO_ARCS, TWO_BRIDGES,
};
use crate::running::{assert_trace_over, replayed_over, wide_sink};
use std::test::Fail;

/// The frame arrives at the bridge at tick 72, and enters its next ring 100 ticks later.
#[test]
fn through_a_bridge(rt: HostRuntime) -> Result<(), Fail> {
    let script = "send 0 x 64\nuntil 1000\n";
    let trace = "0 enter a>m 6 0
0 begin a>m 0 E 0 0
72 ended a>m 0 64 e9d34a0a
72 arrive a>m 0 frame
172 enter m>b 6 0
172 begin m>b 0 E 0 0
244 ended m>b 0 64 e9d34a0a
244 arrive m>b 0 frame
244 deliver b 0 0200000000020200000000008100c00a88b5000000000405060708090a0b0c0d0e0f101112131415161718191a1b1c1d1e1f20212223242526272829e9d34a0a
1000 end 1 1 0
";
    assert_trace_over(&rt, rt.alloc(), (BRIDGED, BY_BRIDGE), script, trace)?;
    Ok(())
}

/// At tick 172 the frame of the lesser arriving arc enters first, though it was sent last; a send of that tick comes after both.
#[test]
fn two_arcs_of_a_bridge(rt: HostRuntime) -> Result<(), Fail> {
    let script = "send 0 z 64\nsend 0 x 64\nsend 172 x 64\nuntil 400\n";
    let trace = "0 enter c>m 6 0
0 enter a>m 6 1
0 begin a>m 0 E 1 0
0 begin c>m 0 E 0 0
72 ended a>m 0 64 5fabee1b
72 ended c>m 0 64 a6678704
72 arrive a>m 0 frame
72 arrive c>m 0 frame
172 enter m>b 6 1
172 enter m>b 6 0
172 enter a>m 6 2
172 begin a>m 1 E 2 0
172 begin m>b 0 E 1 0
244 ended a>m 1 64 cabf3961
244 ended m>b 0 64 5fabee1b
244 arrive a>m 1 frame
244 arrive m>b 0 frame
244 deliver b 1 0200000000030200000000008100c00a88b50000000105060708090a0b0c0d0e0f101112131415161718191a1b1c1d1e1f202122232425262728292a5fabee1b
256 begin m>b 1 E 0 0
328 ended m>b 1 64 a6678704
328 arrive m>b 1 frame
328 deliver b 0 0200000000030200000000018100c00b88b5000000000405060708090a0b0c0d0e0f101112131415161718191a1b1c1d1e1f20212223242526272829a6678704
344 enter m>b 6 2
344 begin m>b 2 E 2 0
400 end 3 2 0
";
    assert_trace_over(&rt, rt.alloc(), (TWO_ARCS, BY_TWO_ARCS), script, trace)?;
    Ok(())
}

/// Frames that came at ticks 72 and 73 are due at tick 172 at two bridges, and enter by their arriving arcs.
#[test]
fn two_bridges(rt: HostRuntime) -> Result<(), Fail> {
    let script = "send 0 z 64\nsend 0 x 64\nsend 172 z 64\nuntil 300\n";
    let trace = "0 enter c>n 7 0
0 enter a>m 6 1
0 begin a>m 0 E 1 0
0 begin c>n 0 E 0 0
72 ended a>m 0 64 2fb2e4f5
72 ended c>n 0 64 ff384713
72 arrive a>m 0 frame
73 arrive c>n 0 frame
172 enter m>b 6 1
172 enter n>b 7 0
172 enter c>n 7 2
172 begin c>n 1 E 2 0
172 begin m>b 0 E 1 0
172 begin n>b 0 E 0 0
244 ended c>n 1 64 cce7375a
244 ended m>b 0 64 2fb2e4f5
244 ended n>b 0 64 ff384713
244 arrive m>b 0 frame
244 deliver b 1 0200000000040200000000008100c00a88b50000000105060708090a0b0c0d0e0f101112131415161718191a1b1c1d1e1f202122232425262728292a2fb2e4f5
244 arrive n>b 0 frame
244 deliver b 0 0200000000040200000000018100e00b88b5000000000405060708090a0b0c0d0e0f101112131415161718191a1b1c1d1e1f20212223242526272829ff384713
245 arrive c>n 1 frame
300 end 3 2 0
";
    assert_trace_over(
        &rt,
        rt.alloc(),
        (TWO_BRIDGES, BY_TWO_BRIDGES),
        script,
        trace,
    )?;
    Ok(())
}

/// At the third switch the alarm, frame 4, waits behind frame 2 of the camera, and goes before frame 3, which enters last.
#[test]
fn a_line_of_three_bridges(rt: HostRuntime) -> Result<(), Fail> {
    let alloc = rt.alloc();
    let script =
        "send 0 axis1 64\nsend 0 axis2 64\nsend 0 video 1522\nsend 1200 video 1522\nsend 1600 alarm 64\nuntil 12000\n";
    let mut sink = wide_sink(alloc)?;
    let words = "replay net streams cert script";
    let status = replayed_over(alloc, (LINE, BY_LINE), script, words, &mut sink)?;
    assert_eq!(rt; status.number(), 0);
    let trace = std::str::from_utf8(sink.octets())?;
    for lines in [
        "\n2036 begin switch3>switch2 0 E 2 0\n2178 enter switch3>switch2 7 4\n",
        "\n3578 enter switch3>switch2 0 3\n3578 begin switch3>switch2 1 E 4 0\n",
        "\n7728 deliver controller 4 0200000000000200000000058100e00c88b50000000408090a0b0c0d0e0f101112131415161718191a1b1c1d1e1f202122232425262728292a2b2c2dfa84076c\n",
    ] {
        assert!(rt; trace.contains(lines), "{lines}");
    }
    assert!(rt; trace.ends_with("\n12000 end 5 5 0\n"));
    Ok(())
}
