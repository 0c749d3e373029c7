ghost use Rattle.std.specs.Prelude.{◌≡◌, ◌≢◌, ◌≤◌, ◌<◌, length, IfOk, IfErr, OnErr};
ghost use Rattle.pre_base.specs.Told.{WhereTold};
ghost use Rattle.pre_sim.specs.Reach.{AllFit};
ghost use Rattle.pre_sim.specs.Steps.{StepCause};
ghost use Rattle.pre_streams.specs.Fits.{Fits};
ghost use Rattle.pre_cli.specs.Answers.{outside};
ghost use Rattle.pre_cli.specs.Capturing.{watched_in, sent_in, capturing, CapturingCause, CapturingLeaves, CaptureLeaves, CaptureEnds};
ghost use Rattle.pre_cli.specs.Files.{OfFiles};
ghost use Rattle.pre_cli.specs.Readings.{Instead};
ghost use Rattle.pre_cli.specs.Runs.{RunComesTo, RunCause};
ghost use Rattle.pre_cli.specs.Words.{capture_words};

use crate::Status;
use crate::files::{network_named, streams_named};
use crate::flushing::flushed;
use crate::replays::{run_on, script_in};
use pre_base::{ArcId, Shelf, Sink};
use pre_dissect::CaptureWatcher;
use pre_pcap::put_header;
use pre_script::Script;
use pre_sim::{Sim, Step};
use pre_streams::Streams;
use pre_topo::Network;
use std::alloc::{AllocError, Global};

/// A network, and an arc of it.
#[derive(Drop)]
struct Watched {
    net: Network,
    arc: ArcId,
}

/// Streams, and a script that sends their frames.
#[derive(Drop)]
struct Sent {
    streams: Streams,
    script: Script,
}

/// All that is run, and the arc that is watched.
#[derive(Drop)]
struct Input {
    watched: Watched,
    sent: Sent,
}

/// The network and the arc of it that two words stand for, or the answer in their place.
fn watched_named<H: Shelf>(
    alloc: Global,
    net_word: &str,
    arc_word: &str,
    shelf: &mut H,
) -> Result<Watched, Status>
    ensures known { IfOk result (λ x. x.arc.0 < length x.net.arcs) }
    ensures watched { IfOk result (λ x. WhereTold (H.tells shelf.old) (H.tells shelf.new) (OfFiles ((watched_in net_word.now arc_word.now).gives (x.net, x.arc)))) }
    ensures cause { IfErr result (λ s. Instead (watched_in net_word.now arc_word.now) s (H.faults shelf.old) (H.faults shelf.new) (H.tells shelf.old) (H.tells shelf.new)) }
    ensures later { H.faults shelf.old ≤ H.faults shelf.new }
{
    match network_named(alloc, net_word, shelf) {
        Ok(net) => match net.arc_named(arc_word.as_bytes()) {
            Some(arc) => Ok(Watched { net, arc }),
            None => Err(Status::NoArc),
        },
        Err(status) => Err(status),
    }
}

/// The streams and the script that two words stand for, over this network, or the answer in their place.
fn sent_named<H: Shelf>(
    alloc: Global,
    streams_word: &str,
    script_word: &str,
    net: &Network,
    shelf: &mut H,
) -> Result<Sent, Status>
    ensures can { IfOk result (λ x. AllFit net.now x.streams x.script) }
    ensures sent { IfOk result (λ x. WhereTold (H.tells shelf.old) (H.tells shelf.new) (OfFiles ((sent_in streams_word.now script_word.now net.now).gives (x.streams, x.script)))) }
    ensures cause { IfErr result (λ s. Instead (sent_in streams_word.now script_word.now net.now) s (H.faults shelf.old) (H.faults shelf.new) (H.tells shelf.old) (H.tells shelf.new)) }
    ensures later { H.faults shelf.old ≤ H.faults shelf.new }
{
    match streams_named(alloc, streams_word, net, shelf) {
        Ok(streams) => match script_in(alloc, script_word, net, &streams, shelf) {
            Ok(script) => Ok(Sent { streams, script }),
            Err(status) => Err(status),
        },
        Err(status) => Err(status),
    }
}

/// What the four words stand for, or the answer in its place.
fn input_named<H: Shelf>(
    alloc: Global,
    net_word: &str,
    streams_word: &str,
    script_word: &str,
    arc_word: &str,
    shelf: &mut H,
) -> Result<Input, Status>
    ensures can { IfOk result (λ x. AllFit x.watched.net x.sent.streams x.sent.script) }
    ensures known { IfOk result (λ x. x.watched.arc.0 < length x.watched.net.arcs) }
    ensures input { IfOk result (λ x. WhereTold (H.tells shelf.old) (H.tells shelf.new)
        (OfFiles ((capturing (capture_words net_word.now streams_word.now script_word.now arc_word.now)).gives ((x.watched.net, x.watched.arc), (x.sent.streams, x.sent.script))))) }
    ensures cause { IfErr result (λ s. Instead (capturing (capture_words net_word.now streams_word.now script_word.now arc_word.now)) s
        (H.faults shelf.old) (H.faults shelf.new) (H.tells shelf.old) (H.tells shelf.new)) }
    ensures later { H.faults shelf.old ≤ H.faults shelf.new }
{
    match watched_named(alloc, net_word, arc_word, shelf) {
        Ok(watched) => match sent_named(alloc, streams_word, script_word, &watched.net, shelf) {
            Ok(sent) => Ok(Input { watched, sent }),
            Err(status) => Err(status),
        },
        Err(status) => Err(status),
    }
}

/// Runs the script and writes the capture of the arc: the last step's answer. Without memory for the run the sink is left alone.
fn run<S: Sink>(
    alloc: Global,
    net: &Network,
    streams: &Streams,
    script: &Script,
    arc: ArcId,
    sink: &mut S,
) -> Result<Step, AllocError>
    requires fit { AllFit net.now streams.now script.now }
    requires known { arc.0 < length net.now.arcs }
    ensures last { IfOk result (λ step. step ≢ Step.More) }
    ensures cause { IfOk result (λ step. StepCause step (S.faults sink.old) (S.faults sink.new)) }
    ensures comes { IfOk result (RunComesTo (record { net = net.now; streams = streams.now; script = script.now })) }
    ensures octets { IfOk result (λ step. CaptureLeaves (record { net = net.now; streams = streams.now; script = script.now }) arc.0 step (S.tells sink.old) (S.tells sink.new)) }
    ensures untouched { OnErr result (sink.new ≡ sink.old) }
{
    let mut sim = Sim::make(alloc, net, streams, script)?;
    if put_header(sink).is_err() {
        return Ok(Step::Stopped);
    }
    let mut watcher = CaptureWatcher::over(sink, net, streams, script, arc);
    Ok(run_on(&mut sim, &mut watcher))
}

/// Runs the script and writes the capture of the arc: what that came to.
fn capture<S: Sink>(
    alloc: Global,
    net: &Network,
    streams: &Streams,
    script: &Script,
    arc: ArcId,
    sink: &mut S,
) -> Status
    requires fit { AllFit net.now streams.now script.now }
    requires known { arc.0 < length net.now.arcs }
    ensures ends { CaptureEnds (record { net = net.now; streams = streams.now; script = script.now }) arc.0 result (S.tells sink.old) (S.tells sink.new) }
    ensures cause { RunCause (record { net = net.now; streams = streams.now; script = script.now }) result (S.faults sink.old) (S.faults sink.new) }
{
    match run(alloc, net, streams, script, arc, sink) {
        Ok(Step::Ended) => flushed(sink, Status::Done),
        Ok(Step::Alias { arc, ordinal }) => flushed(sink, Status::Alias { arc, ordinal }),
        Ok(Step::Stopped) => Status::WriteFault,
        Ok(Step::More) => unreachable!(),
        Err(_) => Status::Memory,
    }
}

/// The command `capture` with words for a network and streams, as `certify` takes them, the name of a script and the name of an
/// arc: it runs the script, and writes the mPackets of the arc as they arrive.
pub(crate) fn capture_files<H: Shelf, S: Sink>(
    alloc: Global,
    net_word: &str,
    streams_word: &str,
    script_word: &str,
    arc_word: &str,
    shelf: &mut H,
    sink: &mut S,
) -> Status
    ensures cause { CapturingCause (capture_words net_word.now streams_word.now script_word.now arc_word.now) result
        (outside H.faults H.tells shelf.old shelf.new S.faults S.tells sink.old sink.new) }
    ensures leaves { CapturingLeaves (capture_words net_word.now streams_word.now script_word.now arc_word.now) result
        (outside H.faults H.tells shelf.old shelf.new S.faults S.tells sink.old sink.new) }
    ensures shelf_later { H.faults shelf.old ≤ H.faults shelf.new }
    ensures sink_later { S.faults sink.old ≤ S.faults sink.new }
{
    match input_named(alloc, net_word, streams_word, script_word, arc_word, shelf) {
        Ok(input) => {
            let watched = &input.watched;
            let sent = &input.sent;
            capture(
                alloc,
                &watched.net,
                &sent.streams,
                &sent.script,
                watched.arc,
                sink,
            )
        }
        Err(status) => status,
    }
}
