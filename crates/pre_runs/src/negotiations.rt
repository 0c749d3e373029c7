//! Links that negotiate. Checks are those of Python's zlib.crc32.

use crate::plants::{FORGETTING, LATE, NEAR, NEGOTIATING, PASSING};
use crate::running::{assert_lines, assert_run, assert_trace};
use pre_base::ArcId;
use pre_sim::Step;
use std::test::Fail;

/// Each end adverts, verifies, responds, and adverts once more that preemption is active.
#[test]
fn both_ends_find_each_other(rt: HostRuntime) -> Result<(), Fail> {
    let script = "until 500\n";
    let trace = "0 begin a>b 0 E lldp 0
0 begin b>a 0 E lldp 0
72 ended a>b 0 64 09c9be8b
72 ended b>a 0 64 ce4aecad
72 arrive a>b 0 lldp
72 arrive b>a 0 lldp
84 begin a>b 1 V - 0
84 begin b>a 1 V - 0
156 ended a>b 1 64 0889edfb
156 ended b>a 1 64 0889edfb
156 arrive a>b 1 verify
156 arrive b>a 1 verify
168 begin a>b 2 R - 0
168 begin b>a 2 R - 0
240 ended a>b 2 64 0889edfb
240 ended b>a 2 64 0889edfb
240 arrive a>b 2 respond
240 arrive b>a 2 respond
240 active a>b yes
240 active b>a yes
252 begin a>b 3 E lldp 0
252 begin b>a 3 E lldp 0
324 ended a>b 3 64 095a1fd7
324 ended b>a 3 64 ced94df1
324 arrive a>b 3 lldp
324 arrive b>a 3 lldp
500 end 0 0 0
";
    assert_trace(&rt, rt.alloc(), NEGOTIATING, script, trace)
}

/// The frame that was cut goes on in fragments, and the next preemptable one waits. The advert cuts nothing.
#[test]
fn preemption_is_switched_off(rt: HostRuntime) -> Result<(), Fail> {
    let script = "send 400 y 1522\nsend 400 y 1522\nset 410 a>b off\nsend 420 x 64\nuntil 3000\n";
    let words = ["begin", "active", "set", "deliver", "count", "end"];
    let lines = "0 begin a>b 0 E lldp 0
0 begin b>a 0 E lldp 0
84 begin a>b 1 V - 0
84 begin b>a 1 V - 0
168 begin a>b 2 R - 0
168 begin b>a 2 R - 0
240 active a>b yes
240 active b>a yes
252 begin a>b 3 E lldp 0
252 begin b>a 3 E lldp 0
400 begin a>b 4 S0 0 0
410 set a>b off
410 active a>b no
484 begin a>b 5 E 2 0
556 deliver b 2
568 begin a>b 6 E lldp 0
640 active b>a no
640 begin b>a 4 E lldp 0
652 begin a>b 7 C0.0 0 60
2122 deliver b 0
count a>b 0 0 1 1 1
3000 end 3 2 0
";
    assert_lines(&rt, rt.alloc(), NEGOTIATING, script, &words, lines)
}

/// After three attempts none is made, and the preemptable frame waits.
#[test]
fn three_lost_verifies(rt: HostRuntime) -> Result<(), Fail> {
    let script = "send 0 y 1522\nlose a>b 1\nlose a>b 3\nlose a>b 4\nuntil 5000\n";
    let words = ["begin", "active", "set", "deliver", "count", "end"];
    let lines = "0 begin a>b 0 E lldp 0
0 begin b>a 0 E lldp 0
84 begin a>b 1 V - 0
84 begin b>a 1 V - 0
168 begin a>b 2 R - 0
240 active b>a yes
240 begin b>a 2 E lldp 0
1156 begin a>b 3 V - 0
2228 begin a>b 4 V - 0
5000 end 1 0 0
";
    assert_lines(&rt, rt.alloc(), NEGOTIATING, script, &words, lines)
}

/// The preemptable frame goes whole meanwhile.
#[test]
fn three_lost_verifies_beside_a_whole_frame(rt: HostRuntime) -> Result<(), Fail> {
    let script = "send 0 y 1522\nlose a>b 1\nlose a>b 4\nlose a>b 5\nuntil 5000\n";
    let words = ["begin", "active", "set", "deliver", "count", "end"];
    let lines = "0 begin a>b 0 E lldp 0
0 begin b>a 0 E lldp 0
84 begin a>b 1 V - 0
84 begin b>a 1 V - 0
168 begin a>b 2 R - 0
240 active b>a yes
240 begin b>a 2 E lldp 0
252 begin a>b 3 E 0 0
1782 deliver b 0
1794 begin a>b 4 V - 0
2866 begin a>b 5 V - 0
5000 end 1 1 0
";
    assert_lines(&rt, rt.alloc(), PASSING, script, &words, lines)
}

/// The second attempt comes 1000 ticks after the end of the first one, and makes preemption active.
#[test]
fn one_lost_verify(rt: HostRuntime) -> Result<(), Fail> {
    let script = "send 0 y 64\nlose a>b 1\nuntil 2000\n";
    let words = ["begin", "active", "set", "deliver", "count", "end"];
    let lines = "0 begin a>b 0 E lldp 0
0 begin b>a 0 E lldp 0
84 begin a>b 1 V - 0
84 begin b>a 1 V - 0
168 begin a>b 2 R - 0
240 active b>a yes
240 begin b>a 2 E lldp 0
1156 begin a>b 3 V - 0
1228 begin b>a 3 R - 0
1300 active a>b yes
1300 begin a>b 4 E lldp 0
1384 begin a>b 5 S0 0 0
1456 deliver b 0
count a>b 0 0 1 0 0
2000 end 1 1 0
";
    assert_lines(&rt, rt.alloc(), NEGOTIATING, script, &words, lines)
}

/// The three attempts are over when the first respond comes, which makes preemption active all the same.
#[test]
fn a_late_respond(rt: HostRuntime) -> Result<(), Fail> {
    let script = "until 5000\n";
    let words = ["begin", "arrive", "active"];
    let lines = "0 begin a>b 0 E lldp 0
0 begin b>a 0 E lldp 0
1572 arrive a>b 0 lldp
1572 arrive b>a 0 lldp
1572 begin a>b 1 V - 0
1572 begin b>a 1 V - 0
1744 begin a>b 2 V - 0
1744 begin b>a 2 V - 0
1916 begin a>b 3 V - 0
1916 begin b>a 3 V - 0
3144 arrive a>b 1 verify
3144 arrive b>a 1 verify
3144 begin a>b 4 R - 0
3144 begin b>a 4 R - 0
3316 arrive a>b 2 verify
3316 arrive b>a 2 verify
3316 begin a>b 5 R - 0
3316 begin b>a 5 R - 0
3488 arrive a>b 3 verify
3488 arrive b>a 3 verify
3488 begin a>b 6 R - 0
3488 begin b>a 6 R - 0
4716 arrive a>b 4 respond
4716 arrive b>a 4 respond
4716 active a>b yes
4716 active b>a yes
4716 begin a>b 7 E lldp 0
4716 begin b>a 7 E lldp 0
4888 arrive a>b 5 respond
4888 arrive b>a 5 respond
";
    assert_lines(&rt, rt.alloc(), LATE, script, &words, lines)
}

/// Preemption is switched off and on again, and a respond to the earlier attempt comes at tick 252, at which the new attempt
/// begins. It does not count.
#[test]
fn a_respond_at_the_tick_of_the_verify(rt: HostRuntime) -> Result<(), Fail> {
    let script = "lose b>a 1\nset 168 a>b off\nset 200 a>b on\nuntil 500\n";
    let words = ["set", "begin", "arrive", "active"];
    let lines = "0 begin a>b 0 E lldp 0
0 begin b>a 0 E lldp 0
84 arrive a>b 0 lldp
84 arrive b>a 0 lldp
84 begin a>b 1 V - 0
84 begin b>a 1 V - 0
168 set a>b off
168 arrive a>b 1 verify
168 arrive b>a 1 lost
168 begin a>b 2 E lldp 0
168 begin b>a 2 R - 0
200 set a>b on
252 arrive a>b 2 lldp
252 arrive b>a 2 respond
252 begin a>b 3 V - 0
336 arrive a>b 3 verify
336 begin a>b 4 E lldp 0
336 begin b>a 3 R - 0
420 arrive a>b 4 lldp
420 arrive b>a 3 respond
420 active a>b yes
420 begin a>b 5 E lldp 0
420 begin b>a 4 V - 0
";
    assert_lines(&rt, rt.alloc(), NEAR, script, &words, lines)
}

/// Nothing changes, and no advert is wanted.
#[test]
fn a_setting_restored_within_a_tick(rt: HostRuntime) -> Result<(), Fail> {
    let script = "set 400 a>b off\nset 400 a>b on\nuntil 700\n";
    let words = ["set", "begin", "active"];
    let lines = "0 begin a>b 0 E lldp 0
0 begin b>a 0 E lldp 0
84 begin a>b 1 V - 0
84 begin b>a 1 V - 0
168 begin a>b 2 R - 0
168 begin b>a 2 R - 0
240 active a>b yes
240 active b>a yes
252 begin a>b 3 E lldp 0
252 begin b>a 3 E lldp 0
400 set a>b off
400 set a>b on
";
    assert_lines(&rt, rt.alloc(), NEGOTIATING, script, &words, lines)
}

/// The octet 07 becomes 19, which is an alias.
#[test]
fn a_verify_that_arrives_as_a_respond(rt: HostRuntime) -> Result<(), Fail> {
    let script = "damage a>b 1 0 1e\nuntil 5000\n";
    let trace = "0 begin a>b 0 E lldp 0
0 begin b>a 0 E lldp 0
72 ended a>b 0 64 09c9be8b
72 ended b>a 0 64 ce4aecad
72 arrive a>b 0 lldp
72 arrive b>a 0 lldp
84 begin a>b 1 V - 0
84 begin b>a 1 V - 0
156 ended a>b 1 64 0889edfb
156 ended b>a 1 64 0889edfb
";
    let alias = Step::Alias {
        arc: ArcId(0),
        ordinal: 1,
    };
    assert_run(&rt, rt.alloc(), NEGOTIATING, script, alias, trace)
}

/// A changed octet of its data or of its check gives nothing, and no respond is owed.
#[test]
fn a_verify_that_is_damaged(rt: HostRuntime) -> Result<(), Fail> {
    let script = "damage a>b 1 30 01\ndamage b>a 1 64 80\nuntil 1000\n";
    let words = ["begin", "arrive", "active"];
    let lines = "0 begin a>b 0 E lldp 0
0 begin b>a 0 E lldp 0
72 arrive a>b 0 lldp
72 arrive b>a 0 lldp
84 begin a>b 1 V - 0
84 begin b>a 1 V - 0
156 arrive a>b 1 nothing
156 arrive b>a 1 nothing
";
    assert_lines(&rt, rt.alloc(), NEGOTIATING, script, &words, lines)
}

/// It counts for nothing, so that the other end makes no attempt.
#[test]
fn an_advert_that_is_damaged(rt: HostRuntime) -> Result<(), Fail> {
    let script = "damage a>b 0 40 01\nuntil 1000\n";
    let words = ["begin", "arrive", "active"];
    let lines = "0 begin a>b 0 E lldp 0
0 begin b>a 0 E lldp 0
72 arrive a>b 0 nothing
72 arrive b>a 0 lldp
84 begin a>b 1 V - 0
156 arrive a>b 1 verify
156 begin b>a 1 R - 0
228 arrive b>a 1 respond
228 active a>b yes
228 begin a>b 2 E lldp 0
300 arrive a>b 2 lldp
300 begin b>a 2 V - 0
372 arrive b>a 2 verify
372 begin a>b 3 R - 0
444 arrive a>b 3 respond
444 active b>a yes
444 begin b>a 3 E lldp 0
516 arrive b>a 3 lldp
";
    assert_lines(&rt, rt.alloc(), NEGOTIATING, script, &words, lines)
}

/// The octets of the generator leave the check of an advert right. At one tick the arrivals of lesser arcs come first.
#[test]
fn an_advert_that_is_an_alias(rt: HostRuntime) -> Result<(), Fail> {
    let script = "damage b>a 0 20 410671db01\nuntil 500\n";
    let trace = "0 begin a>b 0 E lldp 0
0 begin b>a 0 E lldp 0
72 ended a>b 0 64 09c9be8b
72 ended b>a 0 64 ce4aecad
72 arrive a>b 0 lldp
";
    let alias = Step::Alias {
        arc: ArcId(1),
        ordinal: 0,
    };
    assert_run(&rt, rt.alloc(), NEGOTIATING, script, alias, trace)
}

/// It counts for 1000 ticks, so that preemption is active until the tick before the last advert is 1000 ticks old.
#[test]
fn an_advert_that_runs_out(rt: HostRuntime) -> Result<(), Fail> {
    let script = "send 1400 y 64\nuntil 1500\n";
    let words = ["begin", "active", "set", "deliver", "count", "end"];
    let lines = "0 begin a>b 0 E lldp 0
0 begin b>a 0 E lldp 0
84 begin a>b 1 V - 0
84 begin b>a 1 V - 0
168 begin a>b 2 R - 0
168 begin b>a 2 R - 0
240 active a>b yes
240 active b>a yes
252 begin a>b 3 E lldp 0
252 begin b>a 3 E lldp 0
1324 active a>b no
1324 active b>a no
1324 begin a>b 4 E lldp 0
1324 begin b>a 4 E lldp 0
1408 begin a>b 5 V - 0
1408 begin b>a 5 V - 0
1492 begin a>b 6 R - 0
1492 begin b>a 6 R - 0
1500 end 1 0 0
";
    assert_lines(&rt, rt.alloc(), FORGETTING, script, &words, lines)
}

/// Its advert has no time to live, and it adverts no more until it is on again. A new verify follows.
#[test]
fn an_end_that_is_gone(rt: HostRuntime) -> Result<(), Fail> {
    let script = "set 500 a>b gone\nset 900 a>b on\nsend 950 y 64\nuntil 1600\n";
    let words = ["begin", "active", "set", "deliver", "count", "end"];
    let lines = "0 begin a>b 0 E lldp 0
0 begin b>a 0 E lldp 0
84 begin a>b 1 V - 0
84 begin b>a 1 V - 0
168 begin a>b 2 R - 0
168 begin b>a 2 R - 0
240 active a>b yes
240 active b>a yes
252 begin a>b 3 E lldp 0
252 begin b>a 3 E lldp 0
500 set a>b gone
500 active a>b no
500 begin a>b 4 E lldp 0
572 active b>a no
572 begin b>a 4 E lldp 0
900 set a>b on
900 begin a>b 5 V - 0
972 begin b>a 5 R - 0
984 begin a>b 6 E lldp 0
1044 active a>b yes
1056 begin b>a 6 V - 0
1068 begin a>b 7 E lldp 0
1152 begin a>b 8 R - 0
1224 active b>a yes
1224 begin b>a 7 E lldp 0
1236 begin a>b 9 S0 0 0
1308 deliver b 0
count a>b 0 0 1 0 0
1600 end 1 1 0
";
    assert_lines(&rt, rt.alloc(), NEGOTIATING, script, &words, lines)
}

/// A respond that is owed waits for the express frames, and a frame that may not begin holds nothing up.
#[test]
fn express_frames_go_before_responds(rt: HostRuntime) -> Result<(), Fail> {
    let script = "send 150 x 64\nsend 150 y 64\nsend 160 x 64\nuntil 700\n";
    let words = ["begin", "active", "set", "deliver", "count", "end"];
    let lines = "0 begin a>b 0 E lldp 0
0 begin b>a 0 E lldp 0
84 begin a>b 1 V - 0
84 begin b>a 1 V - 0
168 begin a>b 2 E 0 0
168 begin b>a 2 R - 0
240 deliver b 0
240 active a>b yes
252 begin a>b 3 E 2 0
324 deliver b 2
336 begin a>b 4 R - 0
408 active b>a yes
408 begin b>a 3 E lldp 0
420 begin a>b 5 E lldp 0
504 begin a>b 6 S0 1 0
576 deliver b 1
count a>b 0 0 1 0 0
700 end 3 3 0
";
    assert_lines(&rt, rt.alloc(), NEGOTIATING, script, &words, lines)
}
