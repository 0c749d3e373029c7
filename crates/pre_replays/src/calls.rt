//! Each call that takes memory, once: it answers with what was asked.

use crate::running::{EXAMPLE, replayed, shelf_with, wide_sink};
use pre_base::{Tick, read_whole};
use pre_script::read_script;
use pre_sim::Sim;
use std::test::Fail;

#[test]
fn a_file_is_read(rt: HostRuntime) -> Result<(), Fail> {
    let alloc = rt.alloc();
    let mut shelf = shelf_with(alloc, EXAMPLE.as_bytes())?;
    let octets = read_whole(alloc, &mut shelf, "script");
    assert!(rt; octets.is_ok_and(|octets| octets.as_slice() == EXAMPLE.as_bytes()));
    Ok(())
}

#[test]
fn a_script_is_read(rt: HostRuntime) -> Result<(), Fail> {
    let alloc = rt.alloc();
    let net = pre_topo::pair(alloc)?;
    let streams = pre_streams::pair(alloc)?;
    let script = read_script(alloc, EXAMPLE.as_bytes(), &net, &streams);
    let script = script.ok().ok_or("script")?;
    assert_eq!(rt; script.sends.len(), 1);
    assert_eq!(rt; script.until, Tick(5000));
    Ok(())
}

#[test]
fn a_run_is_made(rt: HostRuntime) -> Result<(), Fail> {
    let alloc = rt.alloc();
    let net = pre_topo::pair(alloc)?;
    let streams = pre_streams::pair(alloc)?;
    let Ok(script) = read_script(alloc, b"until 1000", &net, &streams) else {
        panic!(rt; "no script")
    };
    assert!(rt; script.sends.is_empty());
    let sim = Sim::make(alloc, &net, &streams, &script)?;
    assert!(rt; sim.going());
    Ok(())
}

#[test]
fn a_command_is_done(rt: HostRuntime) -> Result<(), Fail> {
    let alloc = rt.alloc();
    let mut sink = wide_sink(alloc)?;
    assert_eq!(rt; replayed(alloc, EXAMPLE, &mut sink)?.number(), 0);
    Ok(())
}
