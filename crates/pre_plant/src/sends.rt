ghost use Rattle.std.specs.Prelude.{◌≡◌, ◌<◌, ◌≤◌, ◌+◌, ◌*◌, ◌++◌, length, map, IfOk, OnOk};
ghost use Rattle.pre_plant.specs.Lists.{joined_of};
ghost use Rattle.pre_plant.specs.Scripts.{times, nth_send, sends_every, stream_sends, flow_sends, sends_by_row, AreOrdered};

use crate::draws::draw;
use crate::rows::{FLOW_MAX, FLOWS, STREAMS, stream_max};
use pre_base::{OVERHEAD, Send, StreamId, Tick};
use std::alloc::{AllocError, Global};

/// No send is at this tick or later.
const STOP: u64 = 9_000_000;

/// The ticks in which a stream's rate gives one octet back.
const OCTET_PERIOD: u64 = 5000;

/// The first tick of a stream is below this bound.
const STREAM_FIRSTS: u64 = 100_000;

/// The place of the first stream's draw for it, behind those of all rows.
const STREAM_DRAWS: usize = 150;

/// The period of a flow, below which its first tick is.
const FLOW_PERIOD: u64 = 24_000;

/// The place of the first flow's draw for it.
const FLOW_DRAWS: usize = 210;

/// What a row sends: frames of one size, one a period.
#[derive(Clone, Copy)]
struct Source {
    stream: u16,
    size: u16,
    first: u64,
    period: u64,
}

#[tactic(auto, unfolding(crate::specs::Scripts::times))]
fn times(first: u64, period: u64) -> u64
    requires first { first < 100_000 }
    requires some { 0 < period }
    ensures { result ≡ times first period }
{
    1 + (STOP - 1 - first) / period
}

fn nth_send(source: Source, count: u64) -> Send
    requires first { source.first < 100_000 }
    requires some { 0 < source.period }
    requires often { count < times source.first source.period }
    ensures { result ≡ nth_send source.stream source.size source.first source.period count }
{
    Send {
        tick: Tick(source.first + count * source.period),
        stream: StreamId(source.stream),
        size: source.size,
    }
}

#[tactic(auto, using(crate::proofs::ListLaws::list_behind_none, crate::proofs::ListLaws::list_behind_more))]
fn put_sends(sends: &mut Vec<Send>, source: Source) -> Result<(), AllocError>
    requires first { source.first < 100_000 }
    requires some { 0 < source.period }
    ensures { OnOk result (sends.new.items ≡ sends.old.items ++ sends_every source.stream source.size source.first source.period) }
{
    for count in 0..times(source.first, source.period) {
        sends.push(nth_send(source, count))?;
    }
    Ok(())
}

#[tactic(auto, unfolding(crate::specs::Scripts::stream_sends))]
fn stream_source(draws: &[u64], stream: u16) -> Source
    requires few { stream < 60 }
    requires drawn { length draws.now ≡ 360 }
    ensures stream { result.stream ≡ stream }
    ensures sends { sends_every result.stream result.size result.first result.period ≡ stream_sends draws.now stream }
    ensures first { result.first < 100_000 }
    ensures some { 0 < result.period }
{
    let size = stream_max(draws, stream);
    Source {
        stream,
        size,
        first: draw(draws, STREAM_DRAWS + usize::from(stream), STREAM_FIRSTS),
        period: OCTET_PERIOD * (u64::from(size) + OVERHEAD),
    }
}

#[tactic(auto, unfolding(crate::specs::Scripts::flow_sends))]
fn flow_source(draws: &[u64], flow: u16) -> Source
    requires few { flow < 30 }
    requires drawn { length draws.now ≡ 360 }
    ensures sends { sends_every result.stream result.size result.first result.period ≡ flow_sends draws.now flow }
    ensures first { result.first < 100_000 }
    ensures some { 0 < result.period }
{
    Source {
        stream: STREAMS + flow,
        size: FLOW_MAX,
        first: draw(draws, FLOW_DRAWS + usize::from(flow), FLOW_PERIOD),
        period: FLOW_PERIOD,
    }
}

#[tactic(auto, using(crate::proofs::ListLaws::joined_behind_none, crate::proofs::ListLaws::joined_behind_more))]
fn put_stream_sends(draws: &[u64], sends: &mut Vec<Send>) -> Result<(), AllocError>
    requires { length draws.now ≡ 360 }
    ensures { OnOk result (sends.new.items ≡ sends.old.items ++ joined_of 60 (stream_sends draws.now)) }
{
    for stream in 0..STREAMS {
        put_sends(sends, stream_source(draws, stream))?;
    }
    Ok(())
}

#[tactic(auto, using(crate::proofs::ListLaws::joined_behind_none, crate::proofs::ListLaws::joined_behind_more))]
fn put_flow_sends(draws: &[u64], sends: &mut Vec<Send>) -> Result<(), AllocError>
    requires { length draws.now ≡ 360 }
    ensures { OnOk result (sends.new.items ≡ sends.old.items ++ joined_of 30 (flow_sends draws.now)) }
{
    for flow in 0..FLOWS {
        put_sends(sends, flow_source(draws, flow))?;
    }
    Ok(())
}

#[tactic(auto, unfolding(crate::specs::Scripts::sends_by_row))]
fn sends_by_row(alloc: Global, draws: &[u64]) -> Result<Vec<Send>, AllocError>
    requires { length draws.now ≡ 360 }
    ensures { IfOk result (λ sends. sends.items ≡ sends_by_row draws.now) }
{
    let mut sends = Vec::new(alloc);
    put_stream_sends(draws, &mut sends)?;
    put_flow_sends(draws, &mut sends)?;
    Ok(sends)
}

/// All sends of a plant, by its draws, in the order of their ticks and then of their rows.
pub(crate) fn ordered_sends(alloc: Global, draws: &[u64]) -> Result<Vec<Send>, AllocError>
    requires { length draws.now ≡ 360 }
    ensures { IfOk result (λ sends. AreOrdered (sends_by_row draws.now) sends.items) }
{
    let mut sends = sends_by_row(alloc, draws)?;
    sends.sort_by_key(|send| send.stream.0)?;
    sends.sort_by_key(|send| send.tick.0)?;
    Ok(sends)
}
