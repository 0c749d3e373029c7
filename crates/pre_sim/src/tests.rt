use super::*;
use pre_base::MemorySink;
use pre_script::read_script;
use pre_trace::TraceWatcher;
use std::alloc::Global;
use std::test::Fail;

// A frame of 64 octets of the stream `x`. Its check is that of Python's zlib.crc32.
const ONE_FRAME: &[u8] = b"send 0 x 64\nuntil 5000\n";

const TRACE: &[u8] =
    b"0 enter a>b 6 0\n0 begin a>b 0 E 0 0\n72 ended a>b 0 64 d9064e6c\n72 arrive a>b 0 frame\n\
    72 deliver b 0 0200000000010200000000008100c00a88b5000000000405060708090a0b0c0d0e0f101112131415161718191a1b1c1d1e1f20212223242526272829d9064e6c\n\
    5000 end 1 1 0\n";

// Two frames with nothing between them for nearly all of the longest run.
const FAR_APART: &[u8] = b"send 0 x 64\nsend 3999999999000 x 64\nuntil 4000000000000\n";

const FAR_TRACE: &[u8] =
    b"0 enter a>b 6 0\n0 begin a>b 0 E 0 0\n72 ended a>b 0 64 d9064e6c\n72 arrive a>b 0 frame\n\
    72 deliver b 0 0200000000010200000000008100c00a88b5000000000405060708090a0b0c0d0e0f101112131415161718191a1b1c1d1e1f20212223242526272829d9064e6c\n\
    3999999999000 enter a>b 6 1\n3999999999000 begin a>b 1 E 1 0\n3999999999072 ended a>b 1 64 7fcde95f\n3999999999072 arrive a>b 1 frame\n\
    3999999999072 deliver b 1 0200000000010200000000008100c00a88b50000000105060708090a0b0c0d0e0f101112131415161718191a1b1c1d1e1f202122232425262728292a\
    7fcde95f\n4000000000000 end 2 2 0\n";

/// The last of at most so many steps of a run over the built-in network, and its trace, of which a sink of so much room took all
/// or a front.
fn run(alloc: Global, lines: &[u8], room: usize, steps: u32) -> Result<(Step, MemorySink), Fail> {
    let net = pre_topo::pair(alloc)?;
    let streams = pre_streams::pair(alloc)?;
    let Ok(script) = read_script(alloc, lines, &net, &streams) else {
        return Err("a script".into());
    };
    let mut sink = MemorySink::make(alloc, room, room, &[])?;
    let mut sim = Sim::make(alloc, &net, &streams, &script)?;
    let mut watcher = TraceWatcher::over(&mut sink, &net);
    let mut last = Step::More;
    for _step in 0..steps {
        if sim.going() {
            last = sim.step(&mut watcher);
        }
    }
    drop(watcher);
    Ok((last, sink))
}

#[test]
fn one_frame(rt: HostRuntime) -> Result<(), Fail> {
    let (last, sink) = run(rt.alloc(), ONE_FRAME, 1000, 10)?;
    assert_eq!(rt; last, Step::Ended);
    assert_eq!(rt; sink.octets(), TRACE);
    Ok(())
}

#[test]
fn a_sink_that_is_full(rt: HostRuntime) -> Result<(), Fail> {
    let (last, sink) = run(rt.alloc(), ONE_FRAME, 100, 10)?;
    assert_eq!(rt; last, Step::Stopped);
    assert_eq!(rt; sink.octets(), &TRACE[..100]);
    Ok(())
}

#[test]
fn an_idle_time(rt: HostRuntime) -> Result<(), Fail> {
    let (last, sink) = run(rt.alloc(), FAR_APART, 2000, 10)?;
    assert_eq!(rt; last, Step::Ended);
    assert_eq!(rt; sink.octets(), FAR_TRACE);
    Ok(())
}
