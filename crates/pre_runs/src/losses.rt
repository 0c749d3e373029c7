//! mPackets that never arrive. Checks are those of Python's zlib.crc32.

use crate::plants::PREEMPTING;
use crate::running::assert_lines;
use std::test::Fail;

/// The next fragment has a count that is not due, which discards the open frame. The ones behind it come while no frame is
/// open.
#[test]
fn a_lost_fragment_discards_the_frame(rt: HostRuntime) -> Result<(), Fail> {
    let script =
        "send 0 y 1522\nsend 0 y 100\nsend 20 x 64\nsend 180 x 64\nsend 350 x 64\nsend 520 x 64\nsend 690 x 64\nlose a>b 4\nuntil 5000\n";
    let words = ["arrive", "deliver", "count", "end"];
    let lines = "72 arrive a>b 0 part
156 arrive a>b 1 frame
156 deliver b 2
240 arrive a>b 2 part
324 arrive a>b 3 frame
324 deliver b 3
408 arrive a>b 4 lost
492 arrive a>b 5 frame
492 deliver b 4
576 arrive a>b 6 nothing
660 arrive a>b 7 frame
660 deliver b 5
744 arrive a>b 8 nothing
828 arrive a>b 9 frame
828 deliver b 6
2070 arrive a>b 10 nothing
2190 arrive a>b 11 frame
2190 deliver b 1
count a>b 1 2 1 1 5
5000 end 7 6 0
";
    assert_lines(&rt, rt.alloc(), PREEMPTING, script, &words, lines)
}

/// The next one has the count that is due, so that its check alone tells.
#[test]
fn four_lost_fragments_in_a_row(rt: HostRuntime) -> Result<(), Fail> {
    let script =
        "send 0 y 1522\nsend 20 x 64\nsend 180 x 64\nsend 350 x 64\nsend 520 x 64\nsend 690 x 64\nlose a>b 2\nlose a>b 4\nlose a>b 6\nlose a>b 8\nuntil 5000\n";
    let words = ["arrive", "deliver", "count", "end"];
    let lines = "72 arrive a>b 0 part
156 arrive a>b 1 frame
156 deliver b 1
240 arrive a>b 2 lost
324 arrive a>b 3 frame
324 deliver b 2
408 arrive a>b 4 lost
492 arrive a>b 5 frame
492 deliver b 3
576 arrive a>b 6 lost
660 arrive a>b 7 frame
660 deliver b 4
744 arrive a>b 8 lost
828 arrive a>b 9 frame
828 deliver b 5
2070 arrive a>b 10 nothing
count a>b 1 0 0 0 5
5000 end 6 5 0
";
    assert_lines(&rt, rt.alloc(), PREEMPTING, script, &words, lines)
}

/// The rest comes while no frame is open.
#[test]
fn a_lost_first_fragment(rt: HostRuntime) -> Result<(), Fail> {
    let script = "send 0 y 200\nsend 1 x 64\nlose a>b 0\nuntil 1000\n";
    let words = ["arrive", "deliver", "count", "end"];
    let lines = "72 arrive a>b 0 lost
156 arrive a>b 1 frame
156 deliver b 1
316 arrive a>b 2 nothing
count a>b 0 1 0 0 1
1000 end 2 1 0
";
    assert_lines(&rt, rt.alloc(), PREEMPTING, script, &words, lines)
}

/// The frame stays open, until the next frame in fragments discards it.
#[test]
fn a_lost_last_fragment(rt: HostRuntime) -> Result<(), Fail> {
    let script = "send 0 y 200\nsend 1 x 64\nsend 2 y 64\nlose a>b 2\nuntil 1000\n";
    let words = ["begin", "arrive", "deliver", "count", "end"];
    let lines = "0 begin a>b 0 S0 0 0
72 arrive a>b 0 part
84 begin a>b 1 E 1 0
156 arrive a>b 1 frame
156 deliver b 1
168 begin a>b 2 C0.0 0 60
316 arrive a>b 2 lost
328 begin a>b 3 S1 2 0
400 arrive a>b 3 frame
400 deliver b 2
count a>b 1 0 1 0 1
1000 end 3 2 0
";
    assert_lines(&rt, rt.alloc(), PREEMPTING, script, &words, lines)
}

/// It is lost alone: the frame that it cut arrives.
#[test]
fn a_lost_express_frame(rt: HostRuntime) -> Result<(), Fail> {
    let script = "send 0 y 200\nsend 1 x 64\nlose a>b 1\nlose a>b 9\nuntil 1000\n";
    let words = ["arrive", "deliver", "count", "end"];
    let lines = "72 arrive a>b 0 part
156 arrive a>b 1 lost
316 arrive a>b 2 frame
316 deliver b 0
count a>b 0 0 1 1 1
1000 end 2 1 0
";
    assert_lines(&rt, rt.alloc(), PREEMPTING, script, &words, lines)
}
