ghost use Rattle.std.specs.Prelude.{◌≡◌, ◌≤◌, map, string_bytes};
ghost use Rattle.pre_cli.specs.Answers.{outside};
ghost use Rattle.pre_cli.specs.Commands.{CauseOf, LeavesOf};

use crate::Status;
use crate::admitting::admit_files;
use crate::capturing::capture_files;
use crate::certifying::certify_files;
use crate::commands::{Asked, command_of};
use crate::dissecting::dissect_file;
use crate::drilling::drill;
use crate::judging::{judge_files, migrate_files};
use crate::listings::list_file;
use crate::replays::replay_files;
use pre_base::{Shelf, Sink};
use std::alloc::Global;

/// Does the command that the words say, over the shelf's files, and writes what it gives to the sink. `certify NET STREAMS`
/// writes the least certificate of the streams over the network; `judge NET STREAMS CERT` writes `accepted` where the
/// certificate is good for them, and `migrate NET STREAMS CERT` writes it anew; `admit NET STREAMS MORE` admits the streams
/// of the third file one after the other to those of the second one, and writes what came of each and the certificate of those
/// that are held then; `replay NET STREAMS CERT SCRIPT` runs the
/// script over these, where the certificate is good and the sends keep to their curves, and writes the trace; `mpackets FILE`
/// writes a line for each mPacket of the file, with what it gives to one receiver; `drill N` makes the large plant of the
/// number N, certifies it, runs its script and writes the summary of the run; `capture NET STREAMS SCRIPT ARC` runs the script
/// without a certificate, and writes the mPackets of the arc with this name as a capture file; and `dissect FILE` writes a line
/// for each record of one. In the place of NET or STREAMS the word `pair` stands for a built-in text.
///
/// Each answer has its cause, and no two causes hold together; only want of memory is free. Files are read and tested one
/// by one, in the order of the words, before anything is written. Where the answer is Done, the sink took the whole of the
/// text and nothing else, flushed. Of `replay` that is the text of a legal history of what the four texts say to run, of which
/// the headline holds: under a good certificate express frames arrive within their printed bounds, queues stay within their
/// printed sizes, each delivery is a frame that was sent, octet for octet, and none is delivered twice. Of `mpackets` it is
/// the listing, of `certify` the text of a certificate that is good and least, of `admit` a line for each stream and then
/// such a text, of `migrate` that of the one that was read, and
/// of `capture` the capture of the arc in a legal history. On Alias it took the text or the capture of the history before that
/// arrival, flushed. Where writing failed, the sink took a front
/// of such a text, and else nothing.
pub fn preempt<H: Shelf, S: Sink>(
    alloc: Global,
    words: &[String],
    shelf: &mut H,
    sink: &mut S,
) -> Status
    ensures cause { CauseOf result (map string_bytes words.now)
        (outside H.faults H.tells shelf.old shelf.new S.faults S.tells sink.old sink.new) }
    ensures leaves { LeavesOf result (map string_bytes words.now)
        (outside H.faults H.tells shelf.old shelf.new S.faults S.tells sink.old sink.new) }
    ensures shelf_later { H.faults shelf.old ≤ H.faults shelf.new }
    ensures sink_later { S.faults sink.old ≤ S.faults sink.new }
{
    match command_of(words) {
        Asked::Certifies { net, streams } => certify_files(alloc, net, streams, shelf, sink),
        Asked::Lists { file } => list_file(alloc, file, shelf, sink),
        Asked::Judges {
            net,
            streams,
            certificate,
        } => judge_files(alloc, net, streams, certificate, shelf, sink),
        Asked::Migrates {
            net,
            streams,
            certificate,
        } => migrate_files(alloc, net, streams, certificate, shelf, sink),
        Asked::Admits { net, streams, more } => {
            admit_files(alloc, net, streams, more, shelf, sink)
        }
        Asked::Replays {
            net,
            streams,
            certificate,
            script,
        } => replay_files(alloc, net, streams, certificate, script, shelf, sink),
        Asked::Drills { number } => drill(alloc, number, sink),
        Asked::Captures {
            net,
            streams,
            script,
            arc,
        } => capture_files(alloc, net, streams, script, arc, shelf, sink),
        Asked::Dissects { file } => dissect_file(alloc, file, shelf, sink),
        Asked::Unknown => Status::Words,
    }
}
