//! Lines of traces that are read back, and what is wrong with those that aren't.

use pre_base::{FrameNo, MemorySink, NodeId, Tick};
use pre_trace::{Event, EventFault, TraceWatcher, Watcher, read_event};
use std::alloc::Global;
use std::test::Fail;

/// What is written of the event that a line over the built-in network tells.
fn written(alloc: Global, line: &[u8]) -> Result<MemorySink, Fail> {
    let net = pre_topo::pair(alloc)?;
    let mut hex = [0; 2000];
    let mut sink = MemorySink::make(alloc, 100, 100, &[])?;
    let Ok(event) = read_event(line, &net, &mut hex) else {
        return Err("a fault".into());
    };
    let mut watcher = TraceWatcher::over(&mut sink, &net);
    let told = watcher.event(&event);
    drop(watcher);
    if told.is_err() {
        return Err("a write fault".into());
    }
    Ok(sink)
}

/// A line of each kind.
#[test]
fn lines_are_written_again(rt: HostRuntime) -> Result<(), Fail> {
    let lines = [
        "4 set b>a gone\n",
        "7 begin a>b 3 C1.2 5 120\n",
        "18446744073709551615 begin b>a 0 V - 0\n",
        "72 ended a>b 0 64 d9064e6c\n",
        "72 arrive a>b 0 nothing\n",
        "72 deliver b 4294967295 00ff1a\n",
        "246 active b>a yes\n",
        "0 enter a>b 7 9\n",
        "0 dropped a>b 0 9\n",
        "count a>b 0 1 2 3 4\n",
        "5000 end 3 2 1\n",
    ];
    for line in lines {
        let sink = written(rt.alloc(), line.trim_end().as_bytes())?;
        assert_eq!(rt; sink.octets(), line.as_bytes());
    }
    Ok(())
}

/// The octets of a delivery stand in the caller's memory.
#[test]
fn a_delivery_is_read(rt: HostRuntime) -> Result<(), Fail> {
    let net = pre_topo::pair(rt.alloc())?;
    let mut into = [0; 2000];
    let Ok(
        Event::Deliver {
            tick,
            node,
            frame,
            hex,
        },
    ) = read_event(b"12 deliver b 7 00ff1a", &net, &mut into)
    else {
        return Err("no delivery".into());
    };
    assert_eq!(rt; tick, Tick(12));
    assert_eq!(rt; node, NodeId(1));
    assert_eq!(rt; frame, FrameNo(7));
    assert_eq!(rt; hex, [0, 255, 26].as_slice());
    Ok(())
}

fn fault_of(alloc: Global, line: &str) -> Result<Option<EventFault>, Fail> {
    let net = pre_topo::pair(alloc)?;
    let mut hex = [0; 2000];
    match read_event(line.as_bytes(), &net, &mut hex) {
        Ok(_) => Ok(None),
        Err(fault) => Ok(Some(fault)),
    }
}

/// Faults of words come before all others, and of the others the leftmost word's.
#[test]
fn faults_of_lines(rt: HostRuntime) -> Result<(), Fail> {
    let faulty = [
        ("", EventFault::Word),
        ("1  set a>b on", EventFault::Word),
        ("1 set a>b on ", EventFault::Word),
        ("1 sets a>b on", EventFault::Word),
        ("01 set a>c ON", EventFault::Word),
        ("01 begin a>c 0 S4 0 0", EventFault::Word),
        ("01 set a>c on", EventFault::Number),
        ("1 set a>c on", EventFault::Name),
        ("1 begin a>b 0 S3 x 65536", EventFault::Number),
        ("1 enter a>b 8 0", EventFault::Number),
        ("count count 1 2 3 4 05", EventFault::Name),
        ("1 deliver c 4294967296 0", EventFault::Name),
        ("1 deliver b 0 0A", EventFault::Hex),
        ("1 ended a>b 0 64 000000", EventFault::Hex),
    ];
    for (line, fault) in faulty {
        assert_eq!(rt; fault_of(rt.alloc(), line)?, Some(fault), "{line}");
    }
    Ok(())
}
