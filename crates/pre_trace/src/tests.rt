ghost use Rattle.pre_history.specs.Plain.{plain, IsEvent};

use super::*;
use pre_base::{ArcId, FrameNo, MemorySink, NodeId, Prio, Sink, Tick};
use pre_mpacket::Kind;
use pre_script::Setting;
use std::alloc::Global;
use std::test::Fail;

/// What is written of an event over the built-in network, whose stations are `a` and `b`.
fn written(alloc: Global, e: &Event) -> Result<MemorySink, Fail>
    requires { IsEvent (plain e.now) }
{
    let net = pre_topo::pair(alloc)?;
    let mut sink = MemorySink::make(alloc, 200, 200, &[])?;
    let mut watcher = TraceWatcher::over(&mut sink, &net);
    let told = watcher.event(e);
    let faults = watcher.faults();
    drop(watcher);
    if told.is_err() || faults > 0 {
        return Err("a fault".into());
    }
    Ok(sink)
}

#[test]
fn lines_of_mpackets(rt: HostRuntime) -> Result<(), Fail> {
    let alloc = rt.alloc();
    let begin = Event::Begin {
        tick: Tick(7),
        arc: ArcId(0),
        ord: 3,
        kind: Kind::Continue(1, 2),
        what: What::Frame(FrameNo(5)),
        from: 120,
    };
    assert_eq!(rt;
        written(alloc, &begin)?.octets(),
        b"7 begin a>b 3 C1.2 5 120\n".as_slice()
    );
    let ended = Event::Ended {
        tick: Tick(72),
        arc: ArcId(1),
        ord: 0,
        size: 64,
        check: [0xD9, 0x06, 0x4E, 0x6C],
    };
    assert_eq!(rt;
        written(alloc, &ended)?.octets(),
        b"72 ended b>a 0 64 d9064e6c\n".as_slice()
    );
    let arrive = Event::Arrive {
        tick: Tick(72),
        arc: ArcId(1),
        ord: 0,
        result: Outcome::Part,
    };
    assert_eq!(rt;
        written(alloc, &arrive)?.octets(),
        b"72 arrive b>a 0 part\n".as_slice()
    );
    Ok(())
}

#[test]
fn lines_of_frames(rt: HostRuntime) -> Result<(), Fail> {
    let alloc = rt.alloc();
    let enter = Event::Enter {
        tick: Tick(0),
        arc: ArcId(0),
        prio: Prio(6),
        frame: FrameNo(9),
    };
    assert_eq!(rt;
        written(alloc, &enter)?.octets(),
        b"0 enter a>b 6 9\n".as_slice()
    );
    let dropped = Event::Dropped {
        tick: Tick(0),
        arc: ArcId(0),
        prio: Prio(1),
        frame: FrameNo(10),
    };
    assert_eq!(rt;
        written(alloc, &dropped)?.octets(),
        b"0 dropped a>b 1 10\n".as_slice()
    );
    let deliver = Event::Deliver {
        tick: Tick(72),
        node: NodeId(1),
        frame: FrameNo(9),
        hex: &[0x02, 0x00, 0xFF],
    };
    assert_eq!(rt;
        written(alloc, &deliver)?.octets(),
        b"72 deliver b 9 0200ff\n".as_slice()
    );
    Ok(())
}

#[test]
fn lines_of_arcs(rt: HostRuntime) -> Result<(), Fail> {
    let alloc = rt.alloc();
    let set = Event::Set {
        tick: Tick(4),
        arc: ArcId(1),
        value: Setting::Gone,
    };
    assert_eq!(rt;
        written(alloc, &set)?.octets(),
        b"4 set b>a gone\n".as_slice()
    );
    let active = Event::Active {
        tick: Tick(4),
        arc: ArcId(1),
        value: false,
    };
    assert_eq!(rt;
        written(alloc, &active)?.octets(),
        b"4 active b>a no\n".as_slice()
    );
    let count = Event::Count {
        arc: ArcId(0),
        err: 1,
        smd: 0,
        ok: 2,
        rx: 5,
        tx: 4,
    };
    assert_eq!(rt;
        written(alloc, &count)?.octets(),
        b"count a>b 1 0 2 5 4\n".as_slice()
    );
    let finish = Event::Finish {
        until: Tick(5000),
        sent: 3,
        delivered: 2,
        dropped: 1,
    };
    assert_eq!(rt;
        written(alloc, &finish)?.octets(),
        b"5000 end 3 2 1\n".as_slice()
    );
    Ok(())
}

#[test]
fn unknown_arc(rt: HostRuntime) -> Result<(), Fail> {
    let set = Event::Set {
        tick: Tick(4),
        arc: ArcId(2),
        value: Setting::On,
    };
    assert_eq!(rt; written(rt.alloc(), &set)?.octets(), b"".as_slice());
    Ok(())
}

#[test]
fn failing_sink(rt: HostRuntime) -> Result<(), Fail> {
    let alloc = rt.alloc();
    let net = pre_topo::pair(alloc)?;
    let mut sink = MemorySink::make(alloc, 8, 8, &[])?;
    let finish = Event::Finish {
        until: Tick(5000),
        sent: 3,
        delivered: 2,
        dropped: 1,
    };
    assert!(rt; put_event(&finish, &net, &mut sink).is_err());
    assert_eq!(rt; sink.octets(), b"5000 end".as_slice());
    assert_eq!(rt; sink.faults(), 1);
    Ok(())
}
