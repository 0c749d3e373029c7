//! Scripts with faults, and scripts at their limits.

use crate::running::{assert_status, assert_trace, replayed, shelf_with, wide_sink, words_of};
use pre_cli::preempt;
use pre_script::{ScriptFault, read_script};
use std::test::Fail;

#[test]
fn each_fault_of_a_script(rt: HostRuntime) -> Result<(), Fail> {
    let alloc = rt.alloc();
    for (script, text) in [
        ("go 0\nuntil 9\n", "form script 1 1"),
        ("send 0 x\nuntil 9\n", "form script 1 1"),
        ("lose a>b\nuntil 9\n", "form script 1 1"),
        ("damage a>b 0 30 41067 1db01\nuntil 9\n", "form script 1 1"),
        ("damage a>b 0 30 410671db0\nuntil 9\n", "form script 1 2"),
        ("lose a>c 0\nuntil 9\n", "form script 1 3"),
        ("send 00 x 64\nuntil 9\n", "form script 1 2"),
        ("until 18446744073709551616\n", "form script 1 2"),
        ("send 0 z 64\nuntil 9\n", "form script 1 3"),
        ("set 0 a>c on\nuntil 9\n", "form script 1 3"),
        ("send 9 x 64\nsend 8 x 64\nuntil 9\n", "form script 2 4"),
        ("send 0 x 63\nuntil 9\n", "form script 1 5"),
        ("send 0 x 1523\nuntil 9\n", "form script 1 5"),
        ("set 0 a>b on\nuntil 9\n", "form script 1 6"),
        ("", "form script 1 7"),
        ("# end\n\nsend 0 x 64\n", "form script 4 7"),
        ("until 1\nuntil 1\n", "form script 2 8"),
        ("until 4000000000001\n", "form script 1 10"),
    ] {
        let mut sink = wide_sink(alloc)?;
        let status = replayed(alloc, script, &mut sink)?;
        assert_status(&rt, alloc, &status, 4, text)?;
        assert!(rt; sink.octets().is_empty());
    }
    Ok(())
}

#[test]
fn comments_and_blank_lines(rt: HostRuntime) -> Result<(), Fail> {
    let script = "# nothing\n\n  \n  #until 5\r\nuntil  1000  \r\n# more";
    assert_trace(&rt, rt.alloc(), script, "1000 end 0 0 0\n")?;
    Ok(())
}

#[test]
fn too_long_a_file(rt: HostRuntime) -> Result<(), Fail> {
    let alloc = rt.alloc();
    let octets = vec![in alloc; b'\n'; 16_777_217]?;
    let mut shelf = shelf_with(alloc, octets.as_slice())?;
    let mut sink = wide_sink(alloc)?;
    let words = words_of(alloc, "replay pair pair cert script")?;
    let status = preempt(alloc, words.as_slice(), &mut shelf, &mut sink);
    assert_status(&rt, alloc, &status, 4, "form script 0 0")?;
    assert!(rt; sink.octets().is_empty());
    Ok(())
}

#[test]
fn a_script_at_the_limit(rt: HostRuntime) -> Result<(), Fail> {
    let alloc = rt.alloc();
    let net = pre_topo::pair(alloc)?;
    let streams = pre_streams::pair(alloc)?;
    let mut text = String::new(alloc);
    for _ in 0..100_000u32 {
        text.push_str("send 7 x 64\n")?;
    }
    let mut more = text.clone()?;
    text.push_str("until 9\n")?;
    more.push_str("send 7 x 64\nuntil 9\n")?;
    let read = read_script(alloc, text.as_bytes(), &net, &streams);
    assert_eq!(rt; read.ok().ok_or("script")?.sends.len(), 100_000);
    let fault = ScriptFault::Fault {
        line: 100_001,
        rule: 9,
    };
    let read = read_script(alloc, more.as_bytes(), &net, &streams);
    assert_eq!(rt; read.err(), Some(fault));
    Ok(())
}
