//! Where frames are cut, and in which order their fragments go. Checks are those of Python's zlib.crc32.

use crate::plants::{
    AREAS, FAR, LONG_FRAGMENTS, NARROW, PREEMPTING, PREEMPTING_THEN_NOT, SLOW, THREE_ROWS, WIDE,
    WIDE_WHOLE,
};
use crate::running::{assert_lines, assert_trace};
use std::test::Fail;

/// The fragment behind the cut would have 63 octets, one too few, so the express frame waits for the end and 12 octets more.
#[test]
fn a_frame_of_123_octets_is_not_cut(rt: HostRuntime) -> Result<(), Fail> {
    let script = "send 0 y 123\nsend 1 x 64\nuntil 1000\n";
    let trace = "0 enter a>b 0 0
0 begin a>b 0 S0 0 0
1 enter a>b 6 1
131 ended a>b 0 123 5177157e
131 arrive a>b 0 frame
131 deliver b 0 0200000000010200000000008100001488b5000000000405060708090a0b0c0d0e0f101112131415161718191a1b1c1d1e1f202122232425262728292a2b2c2d2e2f30\
3132333435363738393a3b3c3d3e3f404142434445464748494a4b4c4d4e4f505152535455565758595a5b5c5d5e5f60616263645177157e
143 begin a>b 1 E 1 0
215 ended a>b 1 64 7fcde95f
215 arrive a>b 1 frame
215 deliver b 1 0200000000010200000000008100c00a88b50000000105060708090a0b0c0d0e0f101112131415161718191a1b1c1d1e1f202122232425262728292a7fcde95f
count a>b 0 0 1 0 0
1000 end 2 2 0
";
    assert_trace(&rt, rt.alloc(), PREEMPTING, script, trace)
}

/// The fragments have 64 octets each, their check octets included.
#[test]
fn a_frame_of_124_octets_is_cut_after_60(rt: HostRuntime) -> Result<(), Fail> {
    let script = "send 0 y 124\nsend 1 x 64\nuntil 1000\n";
    let trace = "0 enter a>b 0 0
0 begin a>b 0 S0 0 0
1 enter a>b 6 1
72 ended a>b 0 64 2f9723b0
72 arrive a>b 0 part
84 begin a>b 1 E 1 0
156 ended a>b 1 64 7fcde95f
156 arrive a>b 1 frame
156 deliver b 1 0200000000010200000000008100c00a88b50000000105060708090a0b0c0d0e0f101112131415161718191a1b1c1d1e1f202122232425262728292a7fcde95f
168 begin a>b 2 C0.0 0 60
240 ended a>b 2 64 4f0ec8f3
240 arrive a>b 2 frame
240 deliver b 0 0200000000010200000000008100001488b5000000000405060708090a0b0c0d0e0f101112131415161718191a1b1c1d1e1f202122232425262728292a2b2c2d2e2f30\
3132333435363738393a3b3c3d3e3f404142434445464748494a4b4c4d4e4f505152535455565758595a5b5c5d5e5f6061626364654f0ec8f3
count a>b 0 0 1 1 1
1000 end 2 2 0
";
    assert_trace(&rt, rt.alloc(), PREEMPTING, script, trace)
}

/// After 8 octets of preamble and 60 of the frame it is tick 68, the last one at which this frame can be cut.
#[test]
fn a_frame_that_comes_at_the_boundary_cuts(rt: HostRuntime) -> Result<(), Fail> {
    let script = "send 0 y 124\nsend 68 x 64\nuntil 1000\n";
    let words = ["begin", "deliver", "count", "end"];
    let lines = "0 begin a>b 0 S0 0 0
84 begin a>b 1 E 1 0
156 deliver b 1
168 begin a>b 2 C0.0 0 60
240 deliver b 0
count a>b 0 0 1 1 1
1000 end 2 2 0
";
    assert_lines(&rt, rt.alloc(), PREEMPTING, script, &words, lines)
}

/// At tick 69 fewer than 64 octets of the frame are left.
#[test]
fn a_frame_that_comes_behind_the_boundary_waits(rt: HostRuntime) -> Result<(), Fail> {
    let script = "send 0 y 124\nsend 69 x 64\nuntil 1000\n";
    let words = ["begin", "deliver", "count", "end"];
    let lines = "0 begin a>b 0 S0 0 0
132 deliver b 0
144 begin a>b 1 E 1 0
216 deliver b 1
count a>b 0 0 1 0 0
1000 end 2 2 0
";
    assert_lines(&rt, rt.alloc(), PREEMPTING, script, &words, lines)
}

/// It is cut at the first boundary, and all the rest goes as one fragment.
#[test]
fn a_cut_of_the_greatest_frame(rt: HostRuntime) -> Result<(), Fail> {
    let script = "send 0 y 1522\nsend 20 x 64\nuntil 2000\n";
    let words = ["begin", "ended", "deliver", "count", "end"];
    let lines = "0 begin a>b 0 S0 0 0
72 ended a>b 0 64 2f9723b0
84 begin a>b 1 E 1 0
156 ended a>b 1 64 7fcde95f
156 deliver b 1
168 begin a>b 2 C0.0 0 60
1638 ended a>b 2 1462 ea1b955a
1638 deliver b 0
count a>b 0 0 1 1 1
2000 end 2 2 0
";
    assert_lines(&rt, rt.alloc(), PREEMPTING, script, &words, lines)
}

/// A preemptable frame that waits goes behind an express frame that comes when the link is free again.
#[test]
fn preemptable_frames_in_turn(rt: HostRuntime) -> Result<(), Fail> {
    let script = "send 0 y 64\nsend 1 y 64\nsend 84 x 64\nuntil 1000\n";
    let trace = "0 enter a>b 0 0
0 begin a>b 0 S0 0 0
1 enter a>b 0 1
72 ended a>b 0 64 2f97dc4f
72 arrive a>b 0 frame
72 deliver b 0 0200000000010200000000008100001488b5000000000405060708090a0b0c0d0e0f101112131415161718191a1b1c1d1e1f202122232425262728292f97dc4f
84 enter a>b 6 2
84 begin a>b 1 E 2 0
156 ended a>b 1 64 ead93e25
156 arrive a>b 1 frame
156 deliver b 2 0200000000010200000000008100c00a88b500000002060708090a0b0c0d0e0f101112131415161718191a1b1c1d1e1f202122232425262728292a2bead93e25
168 begin a>b 2 S1 1 0
240 ended a>b 2 64 895c7b7c
240 arrive a>b 2 frame
240 deliver b 1 0200000000010200000000008100001488b50000000105060708090a0b0c0d0e0f101112131415161718191a1b1c1d1e1f202122232425262728292a895c7b7c
count a>b 0 0 2 0 0
1000 end 3 3 0
";
    assert_trace(&rt, rt.alloc(), PREEMPTING, script, trace)
}

/// The fragments behind the first one count 0, 1, 2, 3 and 0 again.
#[test]
fn five_cuts_in_a_row(rt: HostRuntime) -> Result<(), Fail> {
    let script =
        "send 0 y 1522\nsend 20 x 64\nsend 180 x 64\nsend 350 x 64\nsend 520 x 64\nsend 690 x 64\nuntil 5000\n";
    let words = ["begin", "ended", "deliver", "count", "end"];
    let lines = "0 begin a>b 0 S0 0 0
72 ended a>b 0 64 2f9723b0
84 begin a>b 1 E 1 0
156 ended a>b 1 64 7fcde95f
156 deliver b 1
168 begin a>b 2 C0.0 0 60
240 ended a>b 2 64 4f0e370c
252 begin a>b 3 E 2 0
324 ended a>b 3 64 ead93e25
324 deliver b 2
336 begin a>b 4 C0.1 0 120
408 ended a>b 4 64 d2ec4e08
420 begin a>b 5 E 3 0
492 ended a>b 5 64 4c5beb8c
492 deliver b 3
504 begin a>b 6 C0.2 0 180
576 ended a>b 6 64 1070faa8
588 begin a>b 7 E 4 0
660 ended a>b 7 64 7515f317
660 deliver b 4
672 begin a>b 8 C0.3 0 240
744 ended a>b 8 64 76773dc4
756 begin a>b 9 E 5 0
828 ended a>b 9 64 e24fc54e
828 deliver b 5
840 begin a>b 10 C0.0 0 300
2070 ended a>b 10 1222 ea1b955a
2070 deliver b 0
count a>b 0 0 1 5 5
5000 end 6 6 0
";
    assert_lines(&rt, rt.alloc(), PREEMPTING, script, &words, lines)
}

/// The wire takes 3000 ticks, so that all of the eleven mPackets are on it at once.
#[test]
fn a_long_wire(rt: HostRuntime) -> Result<(), Fail> {
    let script =
        "send 0 y 1522\nsend 20 x 64\nsend 180 x 64\nsend 350 x 64\nsend 520 x 64\nsend 690 x 64\nuntil 5500\n";
    let words = ["arrive", "deliver", "count", "end"];
    let lines = "3072 arrive a>b 0 part
3156 arrive a>b 1 frame
3156 deliver b 1
3240 arrive a>b 2 part
3324 arrive a>b 3 frame
3324 deliver b 2
3408 arrive a>b 4 part
3492 arrive a>b 5 frame
3492 deliver b 3
3576 arrive a>b 6 part
3660 arrive a>b 7 frame
3660 deliver b 4
3744 arrive a>b 8 part
3828 arrive a>b 9 frame
3828 deliver b 5
5070 arrive a>b 10 frame
5070 deliver b 0
count a>b 0 0 1 5 5
5500 end 6 6 0
";
    assert_lines(&rt, rt.alloc(), FAR, script, &words, lines)
}

/// The frames begun in fragments count 0, 1, 2, 3 and 0 again.
#[test]
fn five_frames_in_fragments(rt: HostRuntime) -> Result<(), Fail> {
    let script = "send 0 y 64\nsend 0 y 64\nsend 0 y 64\nsend 0 y 64\nsend 0 y 64\nuntil 1000\n";
    let words = ["begin", "deliver", "count", "end"];
    let lines = "0 begin a>b 0 S0 0 0
72 deliver b 0
84 begin a>b 1 S1 1 0
156 deliver b 1
168 begin a>b 2 S2 2 0
240 deliver b 2
252 begin a>b 3 S3 3 0
324 deliver b 3
336 begin a>b 4 S0 4 0
408 deliver b 4
count a>b 0 0 5 0 0
1000 end 5 5 0
";
    assert_lines(&rt, rt.alloc(), PREEMPTING, script, &words, lines)
}

/// Before the frame of a higher preemptable priority begins, the one that was cut is sent to its end.
#[test]
fn an_interrupted_frame_goes_on_before_another(rt: HostRuntime) -> Result<(), Fail> {
    let script = "send 0 y 200\nsend 1 z 64\nsend 2 x 64\nuntil 1000\n";
    let words = ["begin", "deliver", "count", "end"];
    let lines = "0 begin a>b 0 S0 0 0
84 begin a>b 1 E 2 0
156 deliver b 2
168 begin a>b 2 C0.0 0 60
316 deliver b 0
328 begin a>b 3 S1 1 0
400 deliver b 1
count a>b 0 0 2 1 1
1000 end 3 3 0
";
    assert_lines(&rt, rt.alloc(), THREE_ROWS, script, &words, lines)
}

/// The first fragment has 124 octets of its frame before it can be cut, which is tick 132.
#[test]
fn longer_fragments(rt: HostRuntime) -> Result<(), Fail> {
    let script = "send 0 y 300\nsend 1 x 64\nuntil 1000\n";
    let words = ["begin", "ended", "deliver", "count", "end"];
    let lines = "0 begin a>b 0 S0 0 0
136 ended a>b 0 128 b4095afa
148 begin a>b 1 E 1 0
220 ended a>b 1 64 7fcde95f
220 deliver b 1
232 begin a>b 2 C0.0 0 124
416 ended a>b 2 176 6d95924b
416 deliver b 0
count a>b 0 0 1 1 1
1000 end 2 2 0
";
    assert_lines(&rt, rt.alloc(), LONG_FRAGMENTS, script, &words, lines)
}

/// The first boundary is tick 544, so a frame that comes one tick later cuts at tick 552, after 61 octets.
#[test]
fn a_boundary_at_eight_ticks_an_octet(rt: HostRuntime) -> Result<(), Fail> {
    let script = "send 0 y 200\nsend 545 x 64\nuntil 5000\n";
    let words = ["begin", "ended", "deliver", "count", "end"];
    let lines = "0 begin a>b 0 S0 0 0
584 ended a>b 0 65 95c7d85d
680 begin a>b 1 E 1 0
1256 ended a>b 1 64 7fcde95f
1256 deliver b 1
1352 begin a>b 2 C0.0 0 61
2528 ended a>b 2 139 9dff1724
2528 deliver b 0
count a>b 0 0 1 1 1
5000 end 2 2 0
";
    assert_lines(&rt, rt.alloc(), SLOW, script, &words, lines)
}

/// Of three frames that come at one tick one enters.
#[test]
fn rings_of_one_frame(rt: HostRuntime) -> Result<(), Fail> {
    let script = "send 0 y 64\nsend 0 y 64\nsend 0 y 64\nuntil 1000\n";
    let trace = "0 enter a>b 0 0
0 dropped a>b 0 1
0 dropped a>b 0 2
0 begin a>b 0 S0 0 0
72 ended a>b 0 64 2f97dc4f
72 arrive a>b 0 frame
72 deliver b 0 0200000000010200000000008100001488b5000000000405060708090a0b0c0d0e0f101112131415161718191a1b1c1d1e1f202122232425262728292f97dc4f
count a>b 0 0 1 0 0
1000 end 3 1 2
";
    assert_trace(&rt, rt.alloc(), NARROW, script, trace)
}

/// Priority 5 is preemptable over the last link, where a frame of priority 6 cuts it after 60 octets.
#[test]
fn express_priorities_link_by_link(rt: HostRuntime) -> Result<(), Fail> {
    let script = "send 0 y 1522\nsend 1478 x 64\nuntil 5000\n";
    let words = ["begin", "ended", "deliver", "count", "end"];
    let lines = "0 begin c>m 0 S0 0 0
1478 begin a>m 0 E 1 0
1530 ended c>m 0 1522 fae90939
1550 ended a>m 0 64 4f18ed39
1630 begin m>b 0 S0 0 0
1702 ended m>b 0 64 6467bf34
1714 begin m>b 1 E 1 0
1786 ended m>b 1 64 4f18ed39
1786 deliver b 1
1798 begin m>b 2 C0.0 0 60
3268 ended m>b 2 1462 fae90939
3268 deliver b 0
count m>b 0 0 1 1 1
count c>m 0 0 1 0 0
5000 end 2 2 0
";
    assert_lines(&rt, rt.alloc(), AREAS, script, &words, lines)
}

/// The bridge puts it together, and over the second link it holds up the next express frame.
#[test]
fn a_frame_in_fragments_goes_on_whole(rt: HostRuntime) -> Result<(), Fail> {
    let script = "send 0 y 300\nsend 1 x 64\nsend 400 x 64\nuntil 1500\n";
    let words = ["enter", "begin", "deliver", "count", "end"];
    let lines = "0 enter a>m 0 0
0 begin a>m 0 S0 0 0
1 enter a>m 6 1
84 begin a>m 1 E 1 0
156 enter m>b 6 1
156 begin m>b 0 E 1 0
168 begin a>m 2 C0.0 0 60
228 deliver b 1
400 enter a>m 6 2
416 enter m>b 0 0
416 begin m>b 1 E 0 0
428 begin a>m 3 E 2 0
500 enter m>b 6 2
724 deliver b 0
736 begin m>b 2 E 2 0
808 deliver b 2
count a>m 0 0 1 1 1
1500 end 3 3 0
";
    assert_lines(&rt, rt.alloc(), PREEMPTING_THEN_NOT, script, &words, lines)
}

/// It begins at tick 0 and holds the link for 2020 ticks, preamble and gap included.
#[test]
fn a_frame_of_2000_octets_goes_whole(rt: HostRuntime) -> Result<(), Fail> {
    let script = "send 0 y 2000\nsend 1 x 64\nuntil 5000\n";
    let words = ["begin", "ended", "deliver", "count", "end"];
    let lines = "0 begin a>b 0 E 0 0
2008 ended a>b 0 2000 7dd0e0e5
2008 deliver b 0
2020 begin a>b 1 E 1 0
2092 ended a>b 1 64 7fcde95f
2092 deliver b 1
5000 end 2 2 0
";
    assert_lines(&rt, rt.alloc(), WIDE_WHOLE, script, &words, lines)
}

/// The rest of 1940 octets is one fragment, and the frame is put together.
#[test]
fn a_frame_of_2000_octets_in_fragments(rt: HostRuntime) -> Result<(), Fail> {
    let script = "send 0 y 2000\nsend 1 x 64\nuntil 5000\n";
    let words = ["begin", "ended", "deliver", "count", "end"];
    let lines = "0 begin a>b 0 S0 0 0
72 ended a>b 0 64 2f9723b0
84 begin a>b 1 E 1 0
156 ended a>b 1 64 7fcde95f
156 deliver b 1
168 begin a>b 2 C0.0 0 60
2116 ended a>b 2 1940 7dd0e0e5
2116 deliver b 0
count a>b 0 0 1 1 1
5000 end 2 2 0
";
    assert_lines(&rt, rt.alloc(), WIDE, script, &words, lines)
}
