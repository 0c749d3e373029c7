//! mPackets that are damaged on their way. Checks are those of Python's zlib.crc32.

use crate::plants::PREEMPTING;
use crate::running::{assert_lines, assert_run, assert_trace};
use pre_base::ArcId;
use pre_sim::Step;
use std::test::Fail;

/// Its check is not that of the octets that arrive.
#[test]
fn a_changed_octet_gives_nothing(rt: HostRuntime) -> Result<(), Fail> {
    let script = "send 0 x 64\ndamage a>b 0 30 01\nuntil 5000\n";
    let trace = "0 enter a>b 6 0
0 begin a>b 0 E 0 0
72 ended a>b 0 64 d9064e6c
72 arrive a>b 0 nothing
5000 end 1 0 0
";
    assert_trace(&rt, rt.alloc(), PREEMPTING, script, trace)
}

/// Five octets that spell the generator of the check leave the check right, so the run stops before that arrival.
#[test]
fn octets_of_the_generator_are_an_alias(rt: HostRuntime) -> Result<(), Fail> {
    let script = "send 0 x 64\ndamage a>b 0 30 410671db01\nuntil 5000\n";
    let trace = "0 enter a>b 6 0
0 begin a>b 0 E 0 0
72 ended a>b 0 64 d9064e6c
";
    let alias = Step::Alias {
        arc: ArcId(0),
        ordinal: 0,
    };
    assert_run(&rt, rt.alloc(), PREEMPTING, script, alias, trace)
}

/// The octet 00 changes nothing, two damages that are one another undo each other, and behind the last octet there is
/// nothing to change.
#[test]
fn damage_without_effect(rt: HostRuntime) -> Result<(), Fail> {
    let script =
        "send 0 x 64\ndamage a>b 0 30 00\ndamage a>b 0 40 0102\ndamage a>b 0 40 01\ndamage a>b 0 41 02\ndamage a>b 0 65 ff\ndamage a>b 0 18446744073709551615 ff\nuntil 100\n";
    let trace = "0 enter a>b 6 0
0 begin a>b 0 E 0 0
72 ended a>b 0 64 d9064e6c
72 arrive a>b 0 frame
72 deliver b 0 0200000000010200000000008100c00a88b5000000000405060708090a0b0c0d0e0f101112131415161718191a1b1c1d1e1f20212223242526272829d9064e6c
100 end 1 1 0
";
    assert_trace(&rt, rt.alloc(), PREEMPTING, script, trace)
}

/// The octet D5 becomes E6. What arrives is the frame that was sent, and discards the open one.
#[test]
fn an_express_frame_that_arrives_as_a_start(rt: HostRuntime) -> Result<(), Fail> {
    let script = "send 0 y 200\nsend 1 x 64\ndamage a>b 1 0 33\nuntil 1000\n";
    let words = ["begin", "ended", "arrive", "deliver", "count", "end"];
    let lines = "0 begin a>b 0 S0 0 0
72 ended a>b 0 64 2f9723b0
72 arrive a>b 0 part
84 begin a>b 1 E 1 0
156 ended a>b 1 64 7fcde95f
156 arrive a>b 1 frame
156 deliver b 1
168 begin a>b 2 C0.0 0 60
316 ended a>b 2 140 9dff1724
316 arrive a>b 2 nothing
count a>b 1 1 1 0 1
1000 end 2 1 0
";
    assert_lines(&rt, rt.alloc(), PREEMPTING, script, &words, lines)
}

/// The octet E6 becomes D5. A frame that was not cut is delivered, and no counter rises.
#[test]
fn a_start_that_arrives_as_an_express_frame(rt: HostRuntime) -> Result<(), Fail> {
    let script = "send 0 y 64\ndamage a>b 0 0 33\nuntil 1000\n";
    let trace = "0 enter a>b 0 0
0 begin a>b 0 S0 0 0
72 ended a>b 0 64 2f97dc4f
72 arrive a>b 0 frame
72 deliver b 0 0200000000010200000000008100001488b5000000000405060708090a0b0c0d0e0f101112131415161718191a1b1c1d1e1f202122232425262728292f97dc4f
1000 end 1 1 0
";
    assert_trace(&rt, rt.alloc(), PREEMPTING, script, trace)
}

/// The octet 61 becomes 52. The fragment is not of the open frame, and discards it.
#[test]
fn a_changed_frame_count(rt: HostRuntime) -> Result<(), Fail> {
    let script = "send 0 y 200\nsend 1 x 64\ndamage a>b 2 0 33\nuntil 1000\n";
    let words = ["begin", "ended", "arrive", "deliver", "count", "end"];
    let lines = "0 begin a>b 0 S0 0 0
72 ended a>b 0 64 2f9723b0
72 arrive a>b 0 part
84 begin a>b 1 E 1 0
156 ended a>b 1 64 7fcde95f
156 arrive a>b 1 frame
156 deliver b 1
168 begin a>b 2 C0.0 0 60
316 ended a>b 2 140 9dff1724
316 arrive a>b 2 nothing
count a>b 1 0 0 0 1
1000 end 2 1 0
";
    assert_lines(&rt, rt.alloc(), PREEMPTING, script, &words, lines)
}

/// What arrives spells no mPacket, and the frame stays open until the next frame in fragments.
#[test]
fn a_fragment_count_that_is_none(rt: HostRuntime) -> Result<(), Fail> {
    let script = "send 0 y 200\nsend 1 x 64\nsend 2 y 64\ndamage a>b 2 1 01\nuntil 1000\n";
    let words = ["begin", "ended", "arrive", "deliver", "count", "end"];
    let lines = "0 begin a>b 0 S0 0 0
72 ended a>b 0 64 2f9723b0
72 arrive a>b 0 part
84 begin a>b 1 E 1 0
156 ended a>b 1 64 7fcde95f
156 arrive a>b 1 frame
156 deliver b 1
168 begin a>b 2 C0.0 0 60
316 ended a>b 2 140 9dff1724
316 arrive a>b 2 nothing
328 begin a>b 3 S1 2 0
400 ended a>b 3 64 1c48ac06
400 arrive a>b 3 frame
400 deliver b 2
count a>b 1 1 1 0 1
1000 end 3 2 0
";
    assert_lines(&rt, rt.alloc(), PREEMPTING, script, &words, lines)
}

/// The octet 61 becomes 55, and the fragment count E6 is the octet of a start. It discards the open frame and gives nothing.
#[test]
fn a_continuation_that_arrives_as_a_start(rt: HostRuntime) -> Result<(), Fail> {
    let script = "send 0 y 200\nsend 1 x 64\ndamage a>b 2 0 34\nuntil 1000\n";
    let words = ["begin", "ended", "arrive", "deliver", "count", "end"];
    let lines = "0 begin a>b 0 S0 0 0
72 ended a>b 0 64 2f9723b0
72 arrive a>b 0 part
84 begin a>b 1 E 1 0
156 ended a>b 1 64 7fcde95f
156 arrive a>b 1 frame
156 deliver b 1
168 begin a>b 2 C0.0 0 60
316 ended a>b 2 140 9dff1724
316 arrive a>b 2 nothing
count a>b 1 0 0 0 1
1000 end 2 1 0
";
    assert_lines(&rt, rt.alloc(), PREEMPTING, script, &words, lines)
}

/// A part whose check is wrong opens no frame.
#[test]
fn a_changed_octet_of_a_fragment(rt: HostRuntime) -> Result<(), Fail> {
    let script = "send 0 y 200\nsend 1 x 64\ndamage a>b 0 30 01\nuntil 1000\n";
    let words = ["begin", "ended", "arrive", "deliver", "count", "end"];
    let lines = "0 begin a>b 0 S0 0 0
72 ended a>b 0 64 2f9723b0
72 arrive a>b 0 nothing
84 begin a>b 1 E 1 0
156 ended a>b 1 64 7fcde95f
156 arrive a>b 1 frame
156 deliver b 1
168 begin a>b 2 C0.0 0 60
316 ended a>b 2 140 9dff1724
316 arrive a>b 2 nothing
count a>b 1 1 0 0 1
1000 end 2 1 0
";
    assert_lines(&rt, rt.alloc(), PREEMPTING, script, &words, lines)
}

/// The octets of the generator in the last fragment leave the check of the whole frame right.
#[test]
fn an_alias_of_a_frame_in_fragments(rt: HostRuntime) -> Result<(), Fail> {
    let script = "send 0 y 124\nsend 1 x 64\ndamage a>b 2 10 410671db01\nuntil 1000\n";
    let trace = "0 enter a>b 0 0
0 begin a>b 0 S0 0 0
1 enter a>b 6 1
72 ended a>b 0 64 2f9723b0
72 arrive a>b 0 part
84 begin a>b 1 E 1 0
156 ended a>b 1 64 7fcde95f
156 arrive a>b 1 frame
156 deliver b 1 0200000000010200000000008100c00a88b50000000105060708090a0b0c0d0e0f101112131415161718191a1b1c1d1e1f202122232425262728292a7fcde95f
168 begin a>b 2 C0.0 0 60
240 ended a>b 2 64 4f0ec8f3
";
    let alias = Step::Alias {
        arc: ArcId(0),
        ordinal: 2,
    };
    assert_run(&rt, rt.alloc(), PREEMPTING, script, alias, trace)
}

/// A part with the octets of the generator is no alias yet. The frame that is put together of it is one.
#[test]
fn an_alias_of_a_first_fragment_comes_with_the_frame(rt: HostRuntime) -> Result<(), Fail> {
    let script = "send 0 y 124\nsend 1 x 64\ndamage a>b 0 10 410671db01\nuntil 1000\n";
    let trace = "0 enter a>b 0 0
0 begin a>b 0 S0 0 0
1 enter a>b 6 1
72 ended a>b 0 64 2f9723b0
72 arrive a>b 0 part
84 begin a>b 1 E 1 0
156 ended a>b 1 64 7fcde95f
156 arrive a>b 1 frame
156 deliver b 1 0200000000010200000000008100c00a88b50000000105060708090a0b0c0d0e0f101112131415161718191a1b1c1d1e1f202122232425262728292a7fcde95f
168 begin a>b 2 C0.0 0 60
240 ended a>b 2 64 4f0ec8f3
";
    let alias = Step::Alias {
        arc: ArcId(0),
        ordinal: 2,
    };
    assert_run(&rt, rt.alloc(), PREEMPTING, script, alias, trace)
}
