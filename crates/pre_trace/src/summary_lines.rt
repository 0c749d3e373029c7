ghost use Rattle.std.specs.Prelude.{◌≡◌, ◌<◌, ◌≤◌, ℕ, length, map, take, All};
ghost use Rattle.std.specs.List.{flat_map};
ghost use Rattle.pre_base.specs.Faults.{HasCause};
ghost use Rattle.pre_base.specs.Told.{WhereTold};
ghost use Rattle.pre_base.specs.Sinks.{TakesAll};
ghost use Rattle.pre_text.specs.Spelled.{spelled};
ghost use Rattle.pre_script.specs.Text.{row_name};
ghost use Rattle.pre_history.specs.History.{History};
ghost use Rattle.pre_trace.specs.Text.{line};
ghost use Rattle.pre_trace.specs.Figures.{ComeOnce, closings, most_closings};
ghost use Rattle.pre_trace.specs.Sums.{Sums, figures_from, plain_closing};
ghost use Rattle.pre_trace.specs.SummaryText.{stream_line, stream_lines, summary_text, text_with};

use crate::Summary;
use crate::tallies::Closing;
use crate::text::arc_of;
use pre_base::{Failed, Sink, StreamId};
use pre_streams::Streams;
use pre_text::{Word, put_line};
use pre_topo::Network;

fn row_word(streams: &Streams, stream: StreamId) -> Word<'_, 'static>
    ensures { spelled result ≡ row_name streams.now stream.0 }
{
    match streams.rows.as_slice().get(stream.0 as usize) {
        Some(row) => Word::Octets(row.name.as_str().as_bytes()),
        None => Word::Octets(b""),
    }
}

fn put_stream<S: Sink>(
    streams: &Streams,
    summary: &Summary,
    bound: &(StreamId, u64),
    sink: &mut S,
) -> Result<(), Failed>
    ensures octets { WhereTold (S.tells sink.old) (S.tells sink.new) (TakesAll result (stream_line streams.now (figures_from summary.now.script.now summary.now.tallies bound.now.0.0) bound.now)) }
    ensures cause { HasCause (S.faults sink.old) (S.faults sink.new) result }
{
    let figures = summary.figures(bound.0);
    let words = [
        row_word(streams, bound.0),
        Word::Number(figures.sent),
        Word::Number(figures.delivered),
        Word::Number(figures.greatest),
        Word::Number(bound.1),
    ];
    put_line(sink, &Word::Octets(b"stream"), &words)
}

fn put_streams<S: Sink>(
    streams: &Streams,
    summary: &Summary,
    bounds: &[(StreamId, u64)],
    sink: &mut S,
) -> Result<(), Failed>
    ensures octets { WhereTold (S.tells sink.old) (S.tells sink.new) (TakesAll result (stream_lines streams.now (figures_from summary.now.script.now summary.now.tallies) bounds.now)) }
    ensures cause { HasCause (S.faults sink.old) (S.faults sink.new) result }
{
    for bound in bounds {
        put_stream(streams, summary, bound, sink)?;
    }
    Ok(())
}

fn put_closing<S: Sink>(net: &Network, closing: &Closing, sink: &mut S) -> Result<(), Failed>
    ensures octets { WhereTold (S.tells sink.old) (S.tells sink.new) (TakesAll result (line net.now (plain_closing closing.now))) }
    ensures cause { HasCause (S.faults sink.old) (S.faults sink.new) result }
{
    match *closing {
        Closing::Count {
            arc,
            err,
            smd,
            ok,
            rx,
            tx,
        } => put_line(
            sink,
            &Word::Octets(b"count"),
            &[
                arc_of(net, arc),
                Word::Number(err),
                Word::Number(smd),
                Word::Number(ok),
                Word::Number(rx),
                Word::Number(tx),
            ],
        ),
        Closing::Finish {
            until,
            sent,
            delivered,
            dropped,
        } => put_line(
            sink,
            &Word::Number(until.0),
            &[
                Word::Octets(b"end"),
                Word::Number(sent),
                Word::Number(delivered),
                Word::Number(dropped),
            ],
        ),
    }
}

fn put_closings<S: Sink>(net: &Network, closings: &[Closing], sink: &mut S) -> Result<(), Failed>
    ensures octets { WhereTold (S.tells sink.old) (S.tells sink.new) (TakesAll result (flat_map (λ c. line net.now (plain_closing c)) closings.now)) }
    ensures cause { HasCause (S.faults sink.old) (S.faults sink.new) result }
{
    for closing in closings {
        put_closing(net, closing, sink)?;
    }
    Ok(())
}

/// What is kept, as text.
fn put_kept<S: Sink>(
    number: u64,
    net: &Network,
    streams: &Streams,
    bounds: &[(StreamId, u64)],
    summary: &Summary,
    sink: &mut S,
) -> Result<(), Failed>
    ensures octets { WhereTold (S.tells sink.old) (S.tells sink.new) (TakesAll result
        (text_with net.now streams.now (figures_from summary.now.script.now summary.now.tallies) (map plain_closing (take summary.now.kept summary.now.slots)) bounds.now number)) }
    ensures cause { HasCause (S.faults sink.old) (S.faults sink.new) result }
{
    put_line(sink, &Word::Octets(b"drill"), &[Word::Number(number)])?;
    put_streams(streams, summary, bounds, sink)?;
    put_closings(net, summary.kept_closings(), sink)
}

/// Writes the summary of the run of a drill: `drill` and its number, a line `stream NAME SENT DELIVERED GREATEST BOUND` for each
/// bound in the order of these, and the lines of the run's end. GREATEST is in ticks, as the bounds are.
///
/// The text is that of the history that the summary took, where its deliveries are of sends of the script, at most one of each
/// and none before its tick, where it has at most 257 events of the end, and where each bound is of a row of the streams.
///
/// # Errors
///
/// `Failed` only where the sink failed, which then took a front of the text.
pub fn put_summary<S: Sink>(
    number: u64,
    net: &Network,
    streams: &Streams,
    bounds: &[(StreamId, u64)],
    summary: &Summary,
    sink: &mut S,
) -> Result<(), Failed>
    ensures octets { (h : History) → Sums summary.now.script.now summary.now.tallies summary.now.slots summary.now.kept h
        → ComeOnce summary.now.script.now h → length (closings h) ≤ most_closings → All (λ bound. bound.0.0 < length summary.now.tallies) bounds.now
        → WhereTold (S.tells sink.old) (S.tells sink.new) (TakesAll result (summary_text net.now streams.now summary.now.script.now h bounds.now number)) }
    ensures cause { HasCause (S.faults sink.old) (S.faults sink.new) result }
{
    put_kept(number, net, streams, bounds, summary, sink)
}
