//! What the examples share: a run of texts, and what its trace is compared with.

use pre_base::MemorySink;
use pre_script::read_script;
use pre_sim::{Sim, Step};
use pre_streams::read_streams;
use pre_topo::read_network;
use pre_trace::TraceWatcher;
use std::alloc::{AllocError, Global};
use std::process::Abort;
use std::test::Fail;

/// The last step of a run of the script over a network and streams, and its trace. `until` is below 6000.
fn run(
    alloc: Global,
    (net, streams): (&str, &str),
    script: &str,
) -> Result<(Step, MemorySink), Fail> {
    let net = read_network(alloc, net.as_bytes())?;
    let streams = read_streams(alloc, streams.as_bytes(), &net)?;
    let script = read_script(alloc, script.as_bytes(), &net, &streams)?;
    let mut sink = MemorySink::make(alloc, 30_000, 30_000, &[])?;
    let mut sim = Sim::make(alloc, &net, &streams, &script)?;
    let mut watcher = TraceWatcher::over(&mut sink, &net);
    let mut last = Step::More;
    for _tick in 0..6000u32 {
        if sim.going() {
            last = sim.step(&mut watcher);
        }
    }
    drop(watcher);
    Ok((last, sink))
}

/// Asserts that a run ends with this step and leaves this trace.
pub fn assert_run(
    rt: &impl Abort,
    alloc: Global,
    plant: (&str, &str),
    script: &str,
    step: Step,
    trace: &str,
) -> Result<(), Fail> {
    let (last, sink) = run(alloc, plant, script)?;
    assert_eq!(rt; last, step);
    assert_eq!(rt; std::str::from_utf8(sink.octets())?, trace);
    Ok(())
}

/// Asserts that a run goes on to its end and leaves this trace.
pub fn assert_trace(
    rt: &impl Abort,
    alloc: Global,
    plant: (&str, &str),
    script: &str,
    trace: &str,
) -> Result<(), Fail> {
    assert_run(rt, alloc, plant, script, Step::Ended, trace)
}

/// Asserts that a run goes on to its end, and that these are the lines of its trace that have one of these words, but for the
/// octets of frames that are delivered.
pub fn assert_lines(
    rt: &impl Abort,
    alloc: Global,
    plant: (&str, &str),
    script: &str,
    words: &[&str],
    lines: &str,
) -> Result<(), Fail> {
    let (last, sink) = run(alloc, plant, script)?;
    assert_eq!(rt; last, Step::Ended);
    let trace = std::str::from_utf8(sink.octets())?;
    let kept = lines_with(alloc, trace, words)?;
    assert_eq!(rt; kept.as_str(), lines);
    Ok(())
}

/// The lines of a trace that have one of the words, without the octets of frames.
fn lines_with(alloc: Global, trace: &str, words: &[&str]) -> Result<String, AllocError> {
    let mut kept = String::new(alloc);
    for line in trace.lines() {
        if has_one(line, words) {
            kept.push_str(without_octets(line))?;
            kept.push_str("\n")?;
        }
    }
    Ok(kept)
}

/// Whether a line has one of the words.
fn has_one(line: &str, words: &[&str]) -> bool {
    let mut found = false;
    for word in line.split_whitespace() {
        found = found || (&*words).contains(&word);
    }
    found
}

/// A line of a trace, and of the line of a delivery what stands before the octets.
fn without_octets(line: &str) -> &str {
    match line.rsplit_once(' ') {
        Some((head, _octets)) if line.contains(" deliver ") => head,
        _ => line,
    }
}
