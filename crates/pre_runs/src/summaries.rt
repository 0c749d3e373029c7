//! What a run comes to in figures. They were worked out in Python, from the rules of the link alone.

use crate::plants::PREEMPTING;
use pre_base::{MemorySink, StreamId, Tick};
use pre_script::read_script;
use pre_sim::Sim;
use pre_streams::read_streams;
use pre_topo::read_network;
use pre_trace::{Event, Figures, Summary, put_summary};
use std::test::Fail;

/// The first frame of the stream waits for a cut, and the third is on its way at the end; the fourth would be sent behind it.
#[test]
fn figures_of_four_sends(rt: HostRuntime) -> Result<(), Fail> {
    let alloc = rt.alloc();
    let text =
        "send 0 y 124\nsend 1 x 64\nsend 500 x 64\nsend 700 x 64\nsend 741 x 64\nuntil 740\n";
    let (net, streams) = PREEMPTING;
    let net = read_network(alloc, net.as_bytes())?;
    let streams = read_streams(alloc, streams.as_bytes(), &net)?;
    let script = read_script(alloc, text.as_bytes(), &net, &streams)?;
    let mut sim = Sim::make(alloc, &net, &streams, &script)?;
    let mut summary = Summary::make(alloc, &streams, &script)?;
    for _tick in 0..1000u32 {
        if sim.going() {
            let _step = sim.step(&mut summary);
        }
    }
    let figures = Figures {
        sent: 3,
        delivered: 2,
        greatest: 155,
    };
    assert_eq!(rt; summary.figures(StreamId(0)), figures);
    let Some(Event::Finish { until, .. }) = summary.closing(1) else {
        return Err("no end".into());
    };
    assert_eq!(rt; until, Tick(740));
    assert!(rt; summary.closing(2).is_none());
    let mut sink = MemorySink::make(alloc, 100, 100, &[])?;
    let bounds = [(StreamId(0), 742)];
    assert!(rt; put_summary(7, &net, &streams, &bounds, &summary, &mut sink).is_ok());
    let lines = "drill 7
stream x 3 2 155 742
count a>b 0 0 1 1 1
740 end 4 3 0
";
    assert_eq!(rt; std::str::from_utf8(sink.octets())?, lines);
    Ok(())
}
