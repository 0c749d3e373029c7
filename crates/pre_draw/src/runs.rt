ghost use Rattle.std.specs.Prelude.{◌≡◌, ◌≤◌};
ghost use Rattle.pre_draw.specs.Drawing.{DrawnEnds, DrawnCause, DrawingCause, DrawingLeaves};
ghost use Rattle.pre_draw.specs.Runs.{scale_of, run_picture};
ghost use Rattle.pre_cli.specs.Answers.{outside};
ghost use Rattle.pre_draw.specs.Traces.{told_in};

use crate::traces::{TraceOf, told_named};
use pre_base::{Shelf, Sink};
use pre_cli::{Status, flushed};
use pre_picture::{Run, Scale, Seen, bars_of, carrying, last_tick, put_run};
use std::alloc::Global;

/// The scale of a run's picture: of these ticks, or of the whole run.
fn scale_of(range: Option<(u64, u64)>, events: &[Seen]) -> Scale
    ensures { result ≡ scale_of range events.now }
{
    let (from, to) = match range {
        Some(range) => range,
        None => (0, last_tick(events)),
    };
    Scale {
        from,
        to,
        left: 2000,
        width: 7400,
    }
}

/// Writes the picture of a run, and passes it on.
fn draw_run<S: Sink>(
    alloc: Global,
    told: &TraceOf,
    range: Option<(u64, u64)>,
    sink: &mut S,
) -> Status
    ensures ends { DrawnEnds result (run_picture range (told.now.net, told.now.events)) (S.tells sink.old) (S.tells sink.new) }
    ensures cause { DrawnCause result (S.faults sink.old) (S.faults sink.new) }
{
    let events = told.events.as_slice();
    let scale = scale_of(range, events);
    let Ok(bars) = bars_of(alloc, events) else {
        return Status::Memory;
    };
    let Ok(arcs) = carrying(alloc, &scale, bars.as_slice()) else {
        return Status::Memory;
    };
    let run = Run {
        net: &told.net,
        scale,
        bars: bars.as_slice(),
        events,
    };
    match put_run(sink, &run, arcs.as_slice()) {
        Ok(()) => flushed(sink, Status::Done),
        Err(_) => Status::WriteFault,
    }
}

/// The command `run` with words for a network and the trace of a run over it: it draws the run, from one tick to another or the
/// whole of it.
pub(crate) fn run_files<H: Shelf, S: Sink>(
    alloc: Global,
    net_word: &str,
    trace_word: &str,
    range: Option<(u64, u64)>,
    shelf: &mut H,
    sink: &mut S,
) -> Status
    ensures cause { DrawingCause (told_in net_word.now trace_word.now) result
        (outside H.faults H.tells shelf.old shelf.new S.faults S.tells sink.old sink.new) }
    ensures leaves { DrawingLeaves (told_in net_word.now trace_word.now) (run_picture range) result
        (outside H.faults H.tells shelf.old shelf.new S.faults S.tells sink.old sink.new) }
    ensures shelf_later { H.faults shelf.old ≤ H.faults shelf.new }
    ensures sink_later { S.faults sink.old ≤ S.faults sink.new }
{
    match told_named(alloc, net_word, trace_word, shelf) {
        Ok(told) => draw_run(alloc, &told, range, sink),
        Err(status) => status,
    }
}
