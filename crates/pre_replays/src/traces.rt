//! Whole runs and their traces.

use crate::plants::{OFF, TWO_ROWS};
use crate::running::{
    EXAMPLE, EXAMPLE_TRACE, assert_status, assert_trace, replayed, replayed_over, shelf_with,
    wide_sink, words_of,
};
use pre_cli::preempt;
use std::test::Fail;

#[test]
fn one_express_frame(rt: HostRuntime) -> Result<(), Fail> {
    assert_trace(&rt, rt.alloc(), EXAMPLE, EXAMPLE_TRACE)?;
    Ok(())
}

/// A certificate of any version serves, with ranks or without them.
#[test]
fn each_version_of_a_certificate(rt: HostRuntime) -> Result<(), Fail> {
    let alloc = rt.alloc();
    for (version, arc) in [(1, "arc a>b 0"), (2, "arc a>b 7 1522"), (3, "arc a>b 1522")] {
        let certificate = format!(in alloc;
            "certificate {version}\n{arc}\nport a>b 6 143 2000 0 2143 2214\nhop x 0 2000\nbound x 2131\nend\n"
        )?;
        let mut shelf = shelf_with(alloc, EXAMPLE.as_bytes())?;
        shelf.put("cert", certificate.as_bytes())?;
        let mut sink = wide_sink(alloc)?;
        let words = words_of(alloc, "replay pair pair cert script")?;
        let status = preempt(alloc, words.as_slice(), &mut shelf, &mut sink);
        assert_eq!(rt; status.number(), 0, "{version}");
        assert_eq!(rt; sink.octets(), EXAMPLE_TRACE.as_bytes());
    }
    Ok(())
}

#[test]
fn no_frames(rt: HostRuntime) -> Result<(), Fail> {
    assert_trace(&rt, rt.alloc(), "until 1000\n", "1000 end 0 0 0\n")?;
    Ok(())
}

/// Between the first frame's end at tick 72 and the next begin lie 12 octets.
#[test]
fn two_frames_back_to_back(rt: HostRuntime) -> Result<(), Fail> {
    let script = "send 0 x 64\nsend 0 x 64\nuntil 156\n";
    let trace = "0 enter a>b 6 0
0 enter a>b 6 1
0 begin a>b 0 E 0 0
72 ended a>b 0 64 d9064e6c
72 arrive a>b 0 frame
72 deliver b 0 0200000000010200000000008100c00a88b5000000000405060708090a0b0c0d0e0f101112131415161718191a1b1c1d1e1f20212223242526272829d9064e6c
84 begin a>b 1 E 1 0
156 ended a>b 1 64 7fcde95f
156 arrive a>b 1 frame
156 deliver b 1 0200000000010200000000008100c00a88b50000000105060708090a0b0c0d0e0f101112131415161718191a1b1c1d1e1f202122232425262728292a7fcde95f
156 end 2 2 0
";
    assert_trace(&rt, rt.alloc(), script, trace)?;
    Ok(())
}

/// Five octets that change the check as the frame's other octets do: the check holds, and the frame isn't the one that was sent.
#[test]
fn a_damage_that_no_check_finds(rt: HostRuntime) -> Result<(), Fail> {
    let alloc = rt.alloc();
    let script = "send 0 x 64\ndamage a>b 0 30 410671db01\nuntil 5000\n";
    let mut sink = wide_sink(alloc)?;
    let status = replayed(alloc, script, &mut sink)?;
    assert_status(&rt, alloc, &status, 9, "alias 0 0")?;
    let trace = "0 enter a>b 6 0\n0 begin a>b 0 E 0 0\n72 ended a>b 0 64 d9064e6c\n";
    assert_eq!(rt; sink.octets(), trace.as_bytes());
    Ok(())
}

/// Frame k begins at tick 84 k and arrives 72 ticks later, so frame 58 arrives at 4944 and frame 59 at 5028.
#[test]
fn a_full_ring(rt: HostRuntime) -> Result<(), Fail> {
    let alloc = rt.alloc();
    let mut script = String::new(alloc);
    for _ in 0..70u32 {
        script.push_str("send 0 y 64\n")?;
    }
    script.push_str("until 5000\n")?;
    let mut sink = wide_sink(alloc)?;
    let words = "replay net streams cert script";
    let status = replayed_over(alloc, (OFF, TWO_ROWS), script.as_str(), words, &mut sink)?;
    assert_eq!(rt; status.number(), 0);
    let trace = std::str::from_utf8(sink.octets())?;
    assert_eq!(rt; trace.matches("\n0 dropped a>b 0 6").count(), 6);
    assert_eq!(rt; trace.matches("0 enter a>b 0 ").count(), 64);
    assert_eq!(rt; trace.matches(" dropped ").count(), 6);
    assert!(rt; trace.ends_with("\n5000 end 70 59 6\n"));
    Ok(())
}
