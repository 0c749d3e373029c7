ghost use Rattle.std.specs.Prelude.{◌≡◌, ◌≢◌, ◌≤◌, IfOk, [], length};
ghost use Rattle.pre_sim.specs.Reach.{AllFit};
ghost use Rattle.pre_delay.specs.Runs.{IsRun};
ghost use Rattle.pre_plant.specs.Plants.{IsPlant};
ghost use Rattle.pre_trace.specs.Sums.{Sums};
ghost use Rattle.pre_certify.specs.Refusals.{NoneRefuses};
ghost use Rattle.pre_cli.specs.Certifying.{IsLeastRanked};
ghost use Rattle.pre_cli.specs.Drilling.{DrillingCause, DrillingLeaves};
ghost use Rattle.pre_cli.specs.Runs.{RunComesTo};
ghost use Rattle.pre_cli.specs.Sums.{HasSummed};

use crate::Status;
use crate::certifying::unfit_status;
use crate::flushing::flushed;
use crate::replays::{makes_a_run, run_on};
use pre_base::Sink;
use pre_bound::Certificate;
use pre_certify::certify;
use pre_check::{Verdict, judge};
use pre_laws::{deliveries_are_of_frames_sent, files_give_routes};
use pre_plant::plant;
use pre_script::Script;
use pre_sim::{Sim, Step, network_law};
use pre_streams::Streams;
use pre_topo::Network;
use pre_trace::{Summary, closings_are_few, put_summary};
use std::alloc::{AllocError, Global};

/// Runs the script, and sums up what the run tells: the last step's answer. An error is want of memory for the run.
fn run_summed(
    alloc: Global,
    net: &Network,
    streams: &Streams,
    script: &Script,
    summary: &mut Summary,
) -> Result<Step, AllocError>
    requires fit { AllFit net.now streams.now script.now }
    requires script { summary.old.script.now ≡ script.now }
    requires nothing { Sums script.now summary.old.tallies summary.old.slots summary.old.kept [] }
    ensures last { IfOk result (λ step. step ≢ Step.More) }
    ensures goes { IfOk result (λ step. step ≢ Step.Stopped) }
    ensures comes { IfOk result (RunComesTo (record { net = net.now; streams = streams.now; script = script.now })) }
    ensures ended { IfOk result (λ step. step ≡ Step.Ended → HasSummed (record { net = net.now; streams = streams.now; script = script.now }) summary.new) }
    ensures script { summary.new.script.now ≡ script.now }
    ensures rows { length summary.new.tallies ≡ length summary.old.tallies }
{
    let mut sim = Sim::make(alloc, net, streams, script)?;
    Ok(run_on(&mut sim, summary))
}

/// Writes the summary of a run that has ended, and passes it on.
fn put_drilled<S: Sink>(
    number: u64,
    net: &Network,
    streams: &Streams,
    certificate: &Certificate,
    summary: &Summary,
    sink: &mut S,
) -> Status
    requires plant { IsPlant number net.now streams.now summary.now.script.now }
    requires fit { AllFit net.now streams.now summary.now.script.now }
    requires run { IsRun (record { net = net.now; streams = streams.now; script = summary.now.script.now }) }
    requires least { IsLeastRanked net.now streams.now certificate.now }
    requires none { NoneRefuses net.now streams.now.rows }
    requires rows { length summary.now.tallies ≡ length streams.now.rows }
    requires summed { HasSummed (record { net = net.now; streams = streams.now; script = summary.now.script.now }) summary.now }
    ensures cause { DrillingCause number result (S.faults sink.old) (S.faults sink.new) }
    ensures leaves { DrillingLeaves number result (S.tells sink.old) (S.tells sink.new) }
    ensures later { S.faults sink.old ≤ S.faults sink.new }
{
    closings_are_few();
    files_give_routes();
    deliveries_are_of_frames_sent();
    network_law();
    let bounds = certificate.bounds.as_slice();
    match put_summary(number, net, streams, bounds, summary, sink) {
        Ok(()) => flushed(sink, Status::Done),
        Err(_) => Status::WriteFault,
    }
}

/// Runs the script of a plant that has this certificate, and writes the summary.
fn drill_certified<S: Sink>(
    alloc: Global,
    number: u64,
    net: &Network,
    streams: &Streams,
    script: &Script,
    certificate: &Certificate,
    sink: &mut S,
) -> Status
    requires plant { IsPlant number net.now streams.now script.now }
    requires fit { AllFit net.now streams.now script.now }
    requires run { IsRun (record { net = net.now; streams = streams.now; script = script.now }) }
    requires least { IsLeastRanked net.now streams.now certificate.now }
    requires none { NoneRefuses net.now streams.now.rows }
    ensures cause { DrillingCause number result (S.faults sink.old) (S.faults sink.new) }
    ensures leaves { DrillingLeaves number result (S.tells sink.old) (S.tells sink.new) }
    ensures later { S.faults sink.old ≤ S.faults sink.new }
{
    let Ok(mut summary) = Summary::make(alloc, streams, script) else {
        return Status::Memory;
    };
    match run_summed(alloc, net, streams, script, &mut summary) {
        Ok(Step::Ended) => put_drilled(number, net, streams, certificate, &summary, sink),
        Ok(Step::Alias { arc, ordinal }) => Status::Alias { arc, ordinal },
        Ok(Step::Stopped) => unreachable!(),
        Ok(Step::More) => unreachable!(),
        Err(_) => Status::Memory,
    }
}

/// The command `drill` with a number: it makes the plant of that number, certifies it, judges the certificate, runs the plant's
/// script and writes the summary of the run, with each stream's greatest delay beside its bound.
pub(crate) fn drill<S: Sink>(alloc: Global, number: u64, sink: &mut S) -> Status
    ensures cause { DrillingCause number result (S.faults sink.old) (S.faults sink.new) }
    ensures leaves { DrillingLeaves number result (S.tells sink.old) (S.tells sink.new) }
    ensures later { S.faults sink.old ≤ S.faults sink.new }
{
    let Ok((net, streams, script)) = plant(alloc, number) else {
        return Status::Memory;
    };
    makes_a_run(&net, &streams, &script);
    match certify(alloc, &net, &streams) {
        Ok(certificate) => match judge(&net, &streams, &certificate) {
            Verdict::Accepted => {
                drill_certified(alloc, number, &net, &streams, &script, &certificate, sink)
            }
            Verdict::Rejected { .. } => unreachable!(),
        },
        Err(cause) => unfit_status(cause),
    }
}
