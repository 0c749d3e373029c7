ghost use Rattle.std.specs.Prelude.{◌≡◌, ◌≤◌, ◌≢◌, true, None, IfOk, IfErr, OnErr};
ghost use Rattle.pre_base.specs.Told.{WhereTold};
ghost use Rattle.pre_bound.specs.Listed.{GoodCertificate};
ghost use Rattle.pre_delay.specs.Runs.{IsRun};
ghost use Rattle.pre_script.specs.Fits as lines;
ghost use Rattle.pre_streams.specs.Fits as rows;
ghost use Rattle.pre_sim.specs.Reach.{AllFit};
ghost use Rattle.pre_sim.specs.Steps.{StepTells, StepCause};
ghost use Rattle.pre_cli.specs.Answers.{outside};
ghost use Rattle.pre_cli.specs.Files.{OfFiles, InPlace, IsNoFile};
ghost use Rattle.pre_cli.specs.Curves.{CurvesHold, LinesRise};
ghost use Rattle.pre_cli.specs.Readings.{Instead};
ghost use Rattle.pre_cli.specs.Replaying.{scripted_in, replaying, IsScriptIn, ScriptRefused, ReplayingCause, ReplayingLeaves};
ghost use Rattle.pre_cli.specs.Replaying as replaying;
ghost use Rattle.pre_cli.specs.Runs.{RunComesTo, RunLeaves, RunEnds, RunCause};
ghost use Rattle.pre_cli.specs.Words.{replay_words};

use crate::curves::{prios_below, unruly_line};
use crate::files::file_text;
use crate::flushing::flushed;
use crate::judging::{Judged, judged_named};
use crate::{FileWord, Status};
use pre_base::{Shelf, Sink};
use pre_delay::files_make_a_run;
use pre_laws::{deliveries_are_of_frames_sent, files_give_routes};
use pre_script::{Script, ScriptFault, read_script};
use pre_sim::{Sim, Step, network_law};
use pre_streams::Streams;
use pre_topo::Network;
use pre_trace::{TraceWatcher, Watcher};
use std::alloc::{AllocError, Global};

/// Does all the steps of a run: the last one's answer.
pub(crate) fn run_on<W: Watcher>(sim: &mut Sim, watcher: &mut W) -> Step
    requires { sim.old.going ≡ true }
    ensures last { result ≢ Step.More }
    ensures told { StepTells sim.old result sim.new (W.took watcher.old) (W.took watcher.new) (W.torn watcher.new) }
    ensures cause { StepCause result (W.faults watcher.old) (W.faults watcher.new) }
    ensures same { W.same watcher.old watcher.new }
{
    loop {
        match sim.step(watcher) {
            Step::More => {}
            last => return last,
        }
    }
}

/// Runs the script and writes its trace: the last step's answer. Without memory for the run the sink is left alone.
pub(crate) fn run<S: Sink>(
    alloc: Global,
    net: &Network,
    streams: &Streams,
    script: &Script,
    sink: &mut S,
) -> Result<Step, AllocError>
    requires { AllFit net.now streams.now script.now }
    ensures last { IfOk result (λ step. step ≢ Step.More) }
    ensures cause { IfOk result (λ step. StepCause step (S.faults sink.old) (S.faults sink.new)) }
    ensures comes { IfOk result (RunComesTo (record { net = net.now; streams = streams.now; script = script.now })) }
    ensures octets { IfOk result (λ step. RunLeaves (record { net = net.now; streams = streams.now; script = script.now }) step (S.tells sink.old) (S.tells sink.new)) }
    ensures untouched { OnErr result (sink.new ≡ sink.old) }
{
    files_give_routes();
    deliveries_are_of_frames_sent();
    let mut sim = Sim::make(alloc, net, streams, script)?;
    let mut watcher = TraceWatcher::over(sink, net);
    Ok(run_on(&mut sim, &mut watcher))
}

/// Runs the script and writes its trace: what that came to.
fn trace<S: Sink>(
    alloc: Global,
    net: &Network,
    streams: &Streams,
    script: &Script,
    sink: &mut S,
) -> Status
    requires { AllFit net.now streams.now script.now }
    ensures ends { RunEnds (record { net = net.now; streams = streams.now; script = script.now }) result (S.tells sink.old) (S.tells sink.new) }
    ensures cause { RunCause (record { net = net.now; streams = streams.now; script = script.now }) result (S.faults sink.old) (S.faults sink.new) }
{
    match run(alloc, net, streams, script, sink) {
        Ok(Step::Ended) => flushed(sink, Status::Done),
        Ok(Step::Alias { arc, ordinal }) => flushed(sink, Status::Alias { arc, ordinal }),
        Ok(Step::Stopped) => Status::WriteFault,
        Ok(Step::More) => unreachable!(),
        Err(_) => Status::Memory,
    }
}

fn script_status(fault: ScriptFault) -> Status
    ensures { result ≡ replaying.script_status fault }
{
    match fault {
        ScriptFault::Fault { line, rule } => Status::Form {
            file: FileWord::Script,
            line,
            rule,
        },
        ScriptFault::Memory => Status::Memory,
    }
}

/// The script of a file for this network and these streams, or the answer in its place.
pub(crate) fn script_in<H: Shelf>(
    alloc: Global,
    name: &str,
    net: &Network,
    streams: &Streams,
    shelf: &mut H,
) -> Result<Script, Status>
    ensures fits { IfOk result (lines.Fits net.now streams.now) }
    ensures rise { IfOk result (λ script. LinesRise script.sends) }
    ensures script { IfOk result (λ script. WhereTold (H.tells shelf.old) (H.tells shelf.new) (OfFiles (IsScriptIn name.now net.now streams.now script))) }
    ensures cause { IfErr result (λ s. InPlace s (IsNoFile name.now) (ScriptRefused name.now net.now streams.now) (H.faults shelf.old) (H.faults shelf.new) (H.tells shelf.old) (H.tells shelf.new)) }
    ensures later { H.faults shelf.old ≤ H.faults shelf.new }
{
    match file_text(alloc, FileWord::Script, name, shelf) {
        Ok(text) => match read_script(alloc, text.as_slice(), net, streams) {
            Ok(script) => Ok(script),
            Err(fault) => Err(script_status(fault)),
        },
        Err(status) => Err(status),
    }
}

/// All that is run.
#[derive(Drop)]
struct Input {
    judged: Judged,
    script: Script,
}

/// What the four words stand for.
fn scripted_named<H: Shelf>(
    alloc: Global,
    net_word: &str,
    streams_word: &str,
    certificate_word: &str,
    script_word: &str,
    shelf: &mut H,
) -> Result<Input, Status>
    ensures can { IfOk result (λ x. AllFit x.judged.net x.judged.certified.streams x.script) }
    ensures good { IfOk result (λ x. GoodCertificate x.judged.net x.judged.certified.streams x.judged.certified.certificate) }
    ensures rise { IfOk result (λ x. LinesRise x.script.sends) }
    ensures scripted { IfOk result (λ x. WhereTold (H.tells shelf.old) (H.tells shelf.new)
        (OfFiles ((scripted_in (replay_words net_word.now streams_word.now certificate_word.now script_word.now)).gives
        ((x.judged.net, (x.judged.certified.streams, x.judged.certified.certificate)), x.script)))) }
    ensures cause { IfErr result (λ s. Instead (scripted_in (replay_words net_word.now streams_word.now certificate_word.now script_word.now)) s
        (H.faults shelf.old) (H.faults shelf.new) (H.tells shelf.old) (H.tells shelf.new)) }
    ensures later { H.faults shelf.old ≤ H.faults shelf.new }
{
    match judged_named(alloc, net_word, streams_word, certificate_word, shelf) {
        Ok(judged) => match script_in(
            alloc,
            script_word,
            &judged.net,
            &judged.certified.streams,
            shelf,
        ) {
            Ok(script) => Ok(Input { judged, script }),
            Err(status) => Err(status),
        },
        Err(status) => Err(status),
    }
}

/// The same, where the sends of each stream keep to its curve, and else the least line with which they don't.
fn input_named<H: Shelf>(
    alloc: Global,
    net_word: &str,
    streams_word: &str,
    certificate_word: &str,
    script_word: &str,
    shelf: &mut H,
) -> Result<Input, Status>
    ensures can { IfOk result (λ x. AllFit x.judged.net x.judged.certified.streams x.script) }
    ensures good { IfOk result (λ x. GoodCertificate x.judged.net x.judged.certified.streams x.judged.certified.certificate) }
    ensures curves { IfOk result (λ x. CurvesHold x.judged.certified.streams.rows x.script.sends) }
    ensures input { IfOk result (λ x. WhereTold (H.tells shelf.old) (H.tells shelf.new)
        (OfFiles ((replaying (replay_words net_word.now streams_word.now certificate_word.now script_word.now)).gives
        ((x.judged.net, (x.judged.certified.streams, x.judged.certified.certificate)), x.script)))) }
    ensures cause { IfErr result (λ s. Instead (replaying (replay_words net_word.now streams_word.now certificate_word.now script_word.now)) s
        (H.faults shelf.old) (H.faults shelf.new) (H.tells shelf.old) (H.tells shelf.new)) }
    ensures later { H.faults shelf.old ≤ H.faults shelf.new }
{
    match scripted_named(
        alloc,
        net_word,
        streams_word,
        certificate_word,
        script_word,
        shelf,
    ) {
        Ok(input) => {
            let rows = input.judged.certified.streams.rows.as_slice();
            match unruly_line(alloc, rows, input.script.sends.as_slice()) {
                Ok(None) => Ok(input),
                Ok(Some(line)) => Err(Status::Unruly { line }),
                Err(_) => Err(Status::Memory),
            }
        }
        Err(status) => Err(status),
    }
}

/// A script that keeps to the curves is a run, for which a good certificate keeps its word.
pub(crate) fn makes_a_run(net: &Network, streams: &Streams, script: &Script)
    requires fits { rows.Fits net.now streams.now }
    requires lines { lines.Fits net.now streams.now script.now }
    requires curves { CurvesHold streams.now.rows script.now.sends }
    ensures { IsRun (record { net = net.now; streams = streams.now; script = script.now }) }
{
    files_make_a_run();
    prios_below(streams.rows.as_slice());
}

/// The command `replay` with words for a network and streams, as `certify` takes them, and the names of a certificate and
/// a script: it runs the script, and writes the trace.
pub(crate) fn replay_files<H: Shelf, S: Sink>(
    alloc: Global,
    net_word: &str,
    streams_word: &str,
    certificate_word: &str,
    script_word: &str,
    shelf: &mut H,
    sink: &mut S,
) -> Status
    ensures cause { ReplayingCause (replay_words net_word.now streams_word.now certificate_word.now script_word.now) result
        (outside H.faults H.tells shelf.old shelf.new S.faults S.tells sink.old sink.new) }
    ensures leaves { ReplayingLeaves (replay_words net_word.now streams_word.now certificate_word.now script_word.now) result
        (outside H.faults H.tells shelf.old shelf.new S.faults S.tells sink.old sink.new) }
    ensures shelf_later { H.faults shelf.old ≤ H.faults shelf.new }
    ensures sink_later { S.faults sink.old ≤ S.faults sink.new }
{
    network_law();
    match input_named(
        alloc,
        net_word,
        streams_word,
        certificate_word,
        script_word,
        shelf,
    ) {
        Ok(input) => {
            let judged = &input.judged;
            makes_a_run(&judged.net, &judged.certified.streams, &input.script);
            trace(
                alloc,
                &judged.net,
                &judged.certified.streams,
                &input.script,
                sink,
            )
        }
        Err(status) => status,
    }
}
