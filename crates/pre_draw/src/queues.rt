ghost use Rattle.std.specs.Prelude.{◌≡◌, ◌≤◌, ◌==◌, ◌&&◌, Some, IfOk, IfErr};
ghost use Rattle.pre_base.specs.Told.{WhereTold};
ghost use Rattle.pre_topo.specs.Named.{arc_named};
ghost use Rattle.pre_check.specs.Said.{of_port};
ghost use Rattle.pre_cli.specs.Answers.{outside};
ghost use Rattle.pre_cli.specs.Files.{OfFiles};
ghost use Rattle.pre_cli.specs.Readings.{Instead};
ghost use Rattle.pre_cli.specs.Headline.{printed_size};
ghost use Rattle.pre_cli.specs.Words.{judge_words};
ghost use Rattle.pre_draw.specs.Drawing.{DrawnEnds, DrawnCause, DrawingCause, DrawingLeaves};
ghost use Rattle.pre_draw.specs.Queues.{queue_on, queue_picture, queued_in};

use crate::traces::{JudgedTrace, judged_told_named};
use pre_base::{ArcId, Shelf, Sink};
use pre_bound::{Certificate, PortRow};
use pre_cli::{Status, flushed};
use pre_picture::{Port, Queue, put_queue};
use std::alloc::Global;

fn is_port(row: &PortRow, arc: ArcId, prio: u8) -> bool
    ensures { result ≡ (row.now.arc.0 == arc.0) && (row.now.prio == prio) }
{
    row.arc.0 == arc.0 && row.prio.number() == prio
}

/// The size that a certificate prints for a port, and 0 where it prints none.
fn printed_size(certificate: &Certificate, arc: ArcId, prio: u8) -> u64
    ensures { result ≡ printed_size certificate.now arc.0 prio }
{
    size_in(certificate.ports.as_slice(), arc, prio)
}

fn size_in(ports: &[PortRow], arc: ArcId, prio: u8) -> u64
    ensures { result ≡ of_port (λ row. row.size) ports.now arc.0 prio }
{
    for row in ports {
        if is_port(row, arc, prio) {
            return row.size;
        }
    }
    0
}

/// The words of the command `queue`.
#[derive(Clone, Copy)]
pub(crate) struct QueueWords<'a> {
    pub(crate) net: &'a str,
    pub(crate) streams: &'a str,
    pub(crate) certificate: &'a str,
    pub(crate) trace: &'a str,
    pub(crate) arc: &'a str,
}

/// A network, streams and a good certificate for them, the events of a trace over the network, and an arc of it.
#[derive(Drop)]
struct Queued {
    told: JudgedTrace,
    arc: ArcId,
}

/// What the words stand for, or the answer in their place.
fn queued_named<H: Shelf>(
    alloc: Global,
    words: &QueueWords,
    shelf: &mut H,
) -> Result<Queued, Status>
    ensures arc { IfOk result (λ x. arc_named x.told.judged.net words.now.arc.now ≡ Some x.arc.0) }
    ensures queued { IfOk result (λ x. WhereTold (H.tells shelf.old) (H.tells shelf.new)
        (OfFiles ((queued_in (judge_words words.now.net.now words.now.streams.now words.now.certificate.now) words.now.trace.now words.now.arc.now).gives
        ((x.told.judged.net, (x.told.judged.certified.streams, x.told.judged.certified.certificate)), x.told.events)))) }
    ensures cause { IfErr result (λ s. Instead
        (queued_in (judge_words words.now.net.now words.now.streams.now words.now.certificate.now) words.now.trace.now words.now.arc.now) s
        (H.faults shelf.old) (H.faults shelf.new) (H.tells shelf.old) (H.tells shelf.new)) }
    ensures later { H.faults shelf.old ≤ H.faults shelf.new }
{
    let told = judged_told_named(
        alloc,
        words.net,
        words.streams,
        words.certificate,
        words.trace,
        shelf,
    );
    match told {
        Ok(told) => match told.judged.net.arc_named(words.arc.as_bytes()) {
            Some(arc) => Ok(Queued { told, arc }),
            None => Err(Status::NoArc),
        },
        Err(status) => Err(status),
    }
}

/// Writes the picture of a queue, and passes it on.
fn draw_queue<S: Sink>(alloc: Global, queued: &Queued, prio: u8, sink: &mut S) -> Status
    ensures ends { DrawnEnds result
        (queue_on queued.now.arc.0 prio ((queued.now.told.judged.net, (queued.now.told.judged.certified.streams, queued.now.told.judged.certified.certificate)), queued.now.told.events))
        (S.tells sink.old) (S.tells sink.new) }
    ensures cause { DrawnCause result (S.faults sink.old) (S.faults sink.new) }
{
    let size = printed_size(&queued.told.judged.certified.certificate, queued.arc, prio);
    let port = Port {
        arc: queued.arc.0,
        prio,
    };
    let Ok(queue) = Queue::of(alloc, port, queued.told.events.as_slice()) else {
        return Status::Memory;
    };
    match put_queue(sink, &queue, size) {
        Ok(()) => flushed(sink, Status::Done),
        Err(_) => Status::WriteFault,
    }
}

/// The command `queue` with words for a network and streams, the names of a certificate that is good for them and of the trace of
/// a run over the network, the name of an arc, and a priority: it draws the wire octets that wait in that queue, and its size.
pub(crate) fn queue_files<H: Shelf, S: Sink>(
    alloc: Global,
    words: &QueueWords,
    prio: u8,
    shelf: &mut H,
    sink: &mut S,
) -> Status
    ensures cause { DrawingCause
        (queued_in (judge_words words.now.net.now words.now.streams.now words.now.certificate.now) words.now.trace.now words.now.arc.now) result
        (outside H.faults H.tells shelf.old shelf.new S.faults S.tells sink.old sink.new) }
    ensures leaves { DrawingLeaves
        (queued_in (judge_words words.now.net.now words.now.streams.now words.now.certificate.now) words.now.trace.now words.now.arc.now)
        (queue_picture words.now.arc.now prio) result
        (outside H.faults H.tells shelf.old shelf.new S.faults S.tells sink.old sink.new) }
    ensures shelf_later { H.faults shelf.old ≤ H.faults shelf.new }
    ensures sink_later { S.faults sink.old ≤ S.faults sink.new }
{
    match queued_named(alloc, words, shelf) {
        Ok(queued) => draw_queue(alloc, &queued, prio, sink),
        Err(status) => status,
    }
}
