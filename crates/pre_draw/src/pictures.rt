ghost use Rattle.std.specs.Prelude.{◌≡◌, ◌≤◌, map, string_bytes};
ghost use Rattle.pre_cli.specs.Answers.{outside};
ghost use Rattle.pre_draw.specs.Commands.{CauseOf, LeavesOf};

use crate::bounds::bounds_files;
use crate::commands::{Asked, command_of};
use crate::queues::queue_files;
use crate::runs::run_files;
use pre_base::{Shelf, Sink};
use pre_cli::Status;
use std::alloc::Global;

/// Draws the picture that the words say, of the shelf's files, and writes it to the sink as SVG. `run NET TRACE` draws the run of
/// a trace, a lane for each arc that carries something, and `run NET TRACE FROM TO` what of it lies between two ticks.
/// `queue NET STREAMS CERT TRACE ARC PRIO` draws the wire octets that wait in the queue of a priority on an arc, and its size in a
/// good certificate.
/// `bounds NET STREAMS CERT TRACE` draws the bounds of a good certificate, with the delays of the trace's deliveries on them.
///
/// Files are read one by one, in the order of the words, before anything is written. Where the answer is Done, the sink took the
/// picture of what the files gave and nothing else, flushed; where writing failed a front of it, and else nothing.
pub fn preempt_picture<H: Shelf, S: Sink>(
    alloc: Global,
    words: &[String],
    shelf: &mut H,
    sink: &mut S,
) -> Status
    ensures cause { CauseOf result (map string_bytes words.now)
        (outside H.faults H.tells shelf.old shelf.new S.faults S.tells sink.old sink.new) }
    ensures leaves { LeavesOf result (map string_bytes words.now)
        (outside H.faults H.tells shelf.old shelf.new S.faults S.tells sink.old sink.new) }
    ensures shelf_later { H.faults shelf.old ≤ H.faults shelf.new }
    ensures sink_later { S.faults sink.old ≤ S.faults sink.new }
{
    match command_of(words) {
        Asked::Run { net, trace, range } => run_files(alloc, net, trace, range, shelf, sink),
        Asked::Queue { words, prio } => queue_files(alloc, &words, prio, shelf, sink),
        Asked::Bounds {
            net,
            streams,
            certificate,
            trace,
        } => bounds_files(alloc, net, streams, certificate, trace, shelf, sink),
        Asked::Unknown => Status::Words,
    }
}
