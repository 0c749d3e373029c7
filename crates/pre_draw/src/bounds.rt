ghost use Rattle.std.specs.Prelude.{◌≡◌, ◌≤◌};
ghost use Rattle.pre_cli.specs.Answers.{outside};
ghost use Rattle.pre_cli.specs.Words.{judge_words};
ghost use Rattle.pre_draw.specs.Bounds.{bounds_picture};
ghost use Rattle.pre_draw.specs.Drawing.{DrawnEnds, DrawnCause, DrawingCause, DrawingLeaves};
ghost use Rattle.pre_draw.specs.Traces.{judged_told_in};

use crate::traces::{JudgedTrace, judged_told_named};
use pre_base::{Shelf, Sink};
use pre_cli::{Status, flushed};
use pre_picture::{Sent, put_bounds};
use std::alloc::Global;

/// Writes the picture of bounds, and passes it on.
fn draw_bounds<S: Sink>(alloc: Global, told: &JudgedTrace, sink: &mut S) -> Status
    ensures ends { DrawnEnds result
        (bounds_picture ((told.now.judged.net, (told.now.judged.certified.streams, told.now.judged.certified.certificate)), told.now.events))
        (S.tells sink.old) (S.tells sink.new) }
    ensures cause { DrawnCause result (S.faults sink.old) (S.faults sink.new) }
{
    let certified = &told.judged.certified;
    let rows = certified.streams.rows.as_slice();
    let bounds = certified.certificate.bounds.as_slice();
    let Ok(sent) = Sent::of(alloc, told.events.as_slice()) else {
        return Status::Memory;
    };
    match put_bounds(sink, &sent, rows, bounds) {
        Ok(()) => flushed(sink, Status::Done),
        Err(_) => Status::WriteFault,
    }
}

/// The command `bounds` with words for a network and streams, the name of a certificate that is good for them, and that of the
/// trace of a run over the network: it draws the bounds, and on them the delays of the run.
pub(crate) fn bounds_files<H: Shelf, S: Sink>(
    alloc: Global,
    net_word: &str,
    streams_word: &str,
    certificate_word: &str,
    trace_word: &str,
    shelf: &mut H,
    sink: &mut S,
) -> Status
    ensures cause { DrawingCause (judged_told_in (judge_words net_word.now streams_word.now certificate_word.now) trace_word.now) result
        (outside H.faults H.tells shelf.old shelf.new S.faults S.tells sink.old sink.new) }
    ensures leaves { DrawingLeaves (judged_told_in (judge_words net_word.now streams_word.now certificate_word.now) trace_word.now) bounds_picture result
        (outside H.faults H.tells shelf.old shelf.new S.faults S.tells sink.old sink.new) }
    ensures shelf_later { H.faults shelf.old ≤ H.faults shelf.new }
    ensures sink_later { S.faults sink.old ≤ S.faults sink.new }
{
    match judged_told_named(
        alloc,
        net_word,
        streams_word,
        certificate_word,
        trace_word,
        shelf,
    ) {
        Ok(told) => draw_bounds(alloc, &told, sink),
        Err(status) => status,
    }
}
