ghost use Rattle.std.specs.Prelude.{◌≡◌, ◌≤◌, IfOk, IfErr};
ghost use Rattle.pre_base.specs.Told.{WhereTold};
ghost use Rattle.pre_cli.specs.Files.{OfFiles, InPlace, IsNoFile};
ghost use Rattle.pre_cli.specs.Readings.{Instead};
ghost use Rattle.pre_cli.specs.Words.{judge_words};
ghost use Rattle.pre_draw.specs.Traces.{IsTraceIn, TraceRefused, told_in, judged_told_in};
ghost use Rattle.pre_draw.specs.Traces as traces;

use pre_base::{Items, Shelf};
use pre_cli::{FileWord, Judged, Status, file_text, judged_named, network_named};
use pre_picture::{Seen, TraceFault, read_trace};
use pre_topo::Network;
use std::alloc::Global;

fn trace_status(fault: TraceFault) -> Status
    ensures { result ≡ traces.trace_status fault }
{
    match fault {
        TraceFault::Line { line, rule } => Status::Form {
            file: FileWord::Trace,
            line,
            rule,
        },
        TraceFault::Memory => Status::Memory,
    }
}

/// The events of the trace of this name, over the network that it is of, or the answer in their place.
pub(crate) fn trace_named<H: Shelf>(
    alloc: Global,
    name: &str,
    net: &Network,
    shelf: &mut H,
) -> Result<Items<Seen>, Status>
    ensures events { IfOk result (λ events. WhereTold (H.tells shelf.old) (H.tells shelf.new) (OfFiles (IsTraceIn name.now net.now events))) }
    ensures cause { IfErr result (λ s. InPlace s (IsNoFile name.now) (TraceRefused name.now net.now)
        (H.faults shelf.old) (H.faults shelf.new) (H.tells shelf.old) (H.tells shelf.new)) }
    ensures later { H.faults shelf.old ≤ H.faults shelf.new }
{
    match file_text(alloc, FileWord::Trace, name, shelf) {
        Ok(text) => match read_trace(alloc, text.as_slice(), net) {
            Ok(events) => Ok(events),
            Err(fault) => Err(trace_status(fault)),
        },
        Err(status) => Err(status),
    }
}

/// A network, and the events of a trace over it.
#[derive(Drop)]
pub(crate) struct TraceOf {
    pub(crate) net: Network,
    pub(crate) events: Items<Seen>,
}

/// The network that a word stands for and the events of a trace over it, or the answer in their place.
pub(crate) fn told_named<H: Shelf>(
    alloc: Global,
    net_word: &str,
    trace_word: &str,
    shelf: &mut H,
) -> Result<TraceOf, Status>
    ensures told { IfOk result (λ x. WhereTold (H.tells shelf.old) (H.tells shelf.new) (OfFiles ((told_in net_word.now trace_word.now).gives (x.net, x.events)))) }
    ensures cause { IfErr result (λ s. Instead (told_in net_word.now trace_word.now) s (H.faults shelf.old) (H.faults shelf.new) (H.tells shelf.old) (H.tells shelf.new)) }
    ensures later { H.faults shelf.old ≤ H.faults shelf.new }
{
    match network_named(alloc, net_word, shelf) {
        Ok(net) => match trace_named(alloc, trace_word, &net, shelf) {
            Ok(events) => Ok(TraceOf { net, events }),
            Err(status) => Err(status),
        },
        Err(status) => Err(status),
    }
}

/// A network, streams and a good certificate for them, and the events of a trace over the network.
#[derive(Drop)]
pub(crate) struct JudgedTrace {
    pub(crate) judged: Judged,
    pub(crate) events: Items<Seen>,
}

/// What the words for a network, streams and a certificate stand for, and the events of a trace over the network, or the answer
/// in their place.
pub(crate) fn judged_told_named<H: Shelf>(
    alloc: Global,
    net_word: &str,
    streams_word: &str,
    certificate_word: &str,
    trace_word: &str,
    shelf: &mut H,
) -> Result<JudgedTrace, Status>
    ensures told { IfOk result (λ x. WhereTold (H.tells shelf.old) (H.tells shelf.new)
        (OfFiles ((judged_told_in (judge_words net_word.now streams_word.now certificate_word.now) trace_word.now).gives
        ((x.judged.net, (x.judged.certified.streams, x.judged.certified.certificate)), x.events)))) }
    ensures cause { IfErr result (λ s. Instead (judged_told_in (judge_words net_word.now streams_word.now certificate_word.now) trace_word.now) s
        (H.faults shelf.old) (H.faults shelf.new) (H.tells shelf.old) (H.tells shelf.new)) }
    ensures later { H.faults shelf.old ≤ H.faults shelf.new }
{
    match judged_named(alloc, net_word, streams_word, certificate_word, shelf) {
        Ok(judged) => match trace_named(alloc, trace_word, &judged.net, shelf) {
            Ok(events) => Ok(JudgedTrace { judged, events }),
            Err(status) => Err(status),
        },
        Err(status) => Err(status),
    }
}
