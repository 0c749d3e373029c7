//! Files that are refused, and which one is answered.

use crate::plants::{BRIDGED, BY_BRIDGE, NARROW, OFF, SHORT_ROWS, TWO_ROWS, TWO_STREAMS};
use crate::running::{EXAMPLE, assert_status, replayed_over, shelf_with, wide_sink, words_of};
use pre_cli::preempt;
use std::test::Fail;

/// The words that name all three files.
const ALL: &str = "replay net streams cert script";

/// A stream with bursts below those of a frame of 64 octets, and one with greater frames than its burst.
const SHORT_BURST: &str =
    "[[stream]]\nname = \"x\"\nvid = 10\nprio = 6\nroute = [\"a\", \"b\"]\nmax = 64\nburst = 83\nrate = 1000\n";

const LONG_FRAME: &str =
    "[[stream]]\nname = \"x\"\nvid = 10\nprio = 6\nroute = [\"a\", \"b\"]\nmax = 65\nburst = 84\nrate = 1000\n";

#[test]
fn each_file_in_its_turn(rt: HostRuntime) -> Result<(), Fail> {
    let alloc = rt.alloc();
    for (net, streams, script, number, text) in [
        ("[", "[", "", 4, "form net 0 1"),
        ("node = []", "[", "", 5, "rules net top 2"),
        ("node = []\nlink = []", "[", "", 5, "rules net top 6"),
        (NARROW, "[", "", 4, "form streams 0 1"),
        (NARROW, SHORT_BURST, "", 5, "rules streams stream 0 6"),
        (NARROW, LONG_FRAME, "", 5, "rules streams stream 0 7"),
        (NARROW, BY_BRIDGE, "", 5, "rules streams stream 0 4"),
        (BRIDGED, TWO_ROWS, "", 5, "rules streams stream 0 4"),
        (NARROW, TWO_ROWS, "", 4, "form cert 1 4"),
        (OFF, TWO_ROWS, "", 4, "form script 1 7"),
        (OFF, TWO_ROWS, "send 0 x 63", 4, "form script 1 5"),
        (BRIDGED, BY_BRIDGE, "send 0 x 65", 4, "form script 1 5"),
    ] {
        let mut sink = wide_sink(alloc)?;
        let status = replayed_over(alloc, (net, streams), script, ALL, &mut sink)?;
        assert_status(&rt, alloc, &status, number, text)?;
        assert!(rt; sink.octets().is_empty());
    }
    Ok(())
}

/// A file that isn't there is answered at its turn: after the first refusal it isn't looked for.
#[test]
fn files_that_are_not_there(rt: HostRuntime) -> Result<(), Fail> {
    let alloc = rt.alloc();
    for (net, streams, words, number, text) in [
        ("[", "[", "replay none streams cert script", 2, "read fault"),
        ("[", "[", "replay net none none none", 4, "form net 0 1"),
        (NARROW, "[", "replay net none cert script", 2, "read fault"),
        (
            NARROW,
            "[",
            "replay net streams cert none",
            4,
            "form streams 0 1",
        ),
        (
            NARROW,
            TWO_ROWS,
            "replay net streams none none",
            2,
            "read fault",
        ),
        (
            OFF,
            TWO_ROWS,
            "replay net streams cert none",
            2,
            "read fault",
        ),
        (
            OFF,
            TWO_ROWS,
            "replay net streams cert pair",
            2,
            "read fault",
        ),
    ] {
        let mut sink = wide_sink(alloc)?;
        let status = replayed_over(alloc, (net, streams), EXAMPLE, words, &mut sink)?;
        assert_status(&rt, alloc, &status, number, text)?;
        assert!(rt; sink.octets().is_empty());
    }
    Ok(())
}

/// A certificate that isn't good is answered before a script that isn't there.
#[test]
fn a_certificate_that_is_not_good(rt: HostRuntime) -> Result<(), Fail> {
    let alloc = rt.alloc();
    let late =
        "certificate 2\narc a>b 0 1522\nport a>b 6 143 2000 0 2143 2214\nhop x 0 2000\nbound x 2130\nend\n";
    for words in ["replay pair pair cert none", "replay pair pair cert script"] {
        let mut shelf = shelf_with(alloc, EXAMPLE.as_bytes())?;
        shelf.put("cert", late.as_bytes())?;
        let mut sink = wide_sink(alloc)?;
        let words = words_of(alloc, words)?;
        let status = preempt(alloc, words.as_slice(), &mut shelf, &mut sink);
        assert_status(&rt, alloc, &status, 7, "rejected 10 5")?;
        assert!(rt; sink.octets().is_empty());
    }
    Ok(())
}

/// A frame of 64 octets takes 84 of the burst, which the rate gives back in 84,000 ticks. The second stream may send two at once.
/// Sends that are never made count too.
#[test]
fn sends_that_break_a_curve(rt: HostRuntime) -> Result<(), Fail> {
    let alloc = rt.alloc();
    for (streams, script, number, text) in [
        (
            SHORT_ROWS,
            "send 0 x 64\nsend 0 x 64\nuntil 5000\n",
            8,
            "unruly 2",
        ),
        (
            SHORT_ROWS,
            "# x\nsend 0 x 64\nsend 9 y 64\nsend 83999 x 64\nuntil 5000\n",
            8,
            "unruly 4",
        ),
        (
            SHORT_ROWS,
            "send 0 x 64\nsend 84000 x 64\nuntil 5000\n",
            0,
            "",
        ),
        (
            TWO_STREAMS,
            "send 0 z 64\nsend 0 z 64\nsend 0 x 64\nsend 0 z 64\nsend 0 x 64\nuntil 9\n",
            8,
            "unruly 4",
        ),
        (
            TWO_STREAMS,
            "send 0 z 64\nsend 0 x 64\nsend 0 x 64\nsend 0 z 64\nsend 0 z 64\nuntil 9\n",
            8,
            "unruly 3",
        ),
    ] {
        let mut sink = wide_sink(alloc)?;
        let status = replayed_over(alloc, (OFF, streams), script, ALL, &mut sink)?;
        assert_status(&rt, alloc, &status, number, text)?;
        assert_eq!(rt; sink.octets().is_empty(), number == 8);
    }
    Ok(())
}
