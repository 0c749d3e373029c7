ghost use Rattle.std.specs.Prelude.{◌≡◌, ◌≤◌, length, slice_get};
ghost use Rattle.pre_base.specs.Faults.{HasCause};
ghost use Rattle.pre_base.specs.Told.{WhereTold};
ghost use Rattle.pre_base.specs.Sinks.{TakesAll};
ghost use Rattle.pre_picture.specs.Bounds.{point_at, points, slack_text, bar_of, row_name, row_front, row_of, row_text, rows_of, reach_of};
ghost use Rattle.pre_picture.specs.Bounds.{bounds_scale, columns, captions, bounds_front, bounds_of, whole_text, bounds_text};
ghost use Rattle.pre_picture.specs.Bounds as of_bounds;
ghost use Rattle.pre_picture.specs.Delays.{greatest_delay};

use crate::charts::{put_axis, put_head, put_tail, put_word};
use crate::delays::Sent;
use crate::pieces::{Label, Piece, Place, put_circle, put_rect, put_text};
use crate::scales::Scale;
use crate::traces::Seen;
use pre_base::{Failed, Sink, StreamId};
use pre_streams::Row;

// Writes a point where an event is a delivery of the row.
fn put_point<S: Sink>(
    sink: &mut S,
    sent: &Sent,
    row: &Row,
    scale: &Scale,
    y: u64,
    seen: &Seen,
) -> Result<(), Failed>
    requires { y ≤ 1000000 }
    ensures octets { WhereTold (S.tells sink.old) (S.tells sink.new) (TakesAll result (point_at sent.now.events.now row.now scale.now y seen.now)) }
    ensures cause { HasCause (S.faults sink.old) (S.faults sink.new) result }
{
    match sent.delay_at(row, seen) {
        Some(delay) => put_circle(sink, b"delay", scale.place(delay), y + 95, 45),
        None => Ok(()),
    }
}

fn put_points<S: Sink>(
    sink: &mut S,
    sent: &Sent,
    row: &Row,
    scale: &Scale,
    y: u64,
) -> Result<(), Failed>
    requires { y ≤ 1000000 }
    ensures octets { WhereTold (S.tells sink.old) (S.tells sink.new) (TakesAll result (points sent.now.events.now row.now scale.now y)) }
    ensures cause { HasCause (S.faults sink.old) (S.faults sink.new) result }
{
    for seen in sent.events {
        put_point(sink, sent, row, scale, y, seen)?;
    }
    Ok(())
}

fn put_slack<S: Sink>(sink: &mut S, y: u64, bound: u64, longest: u64) -> Result<(), Failed>
    requires { y ≤ 1000000 }
    ensures octets { WhereTold (S.tells sink.old) (S.tells sink.new) (TakesAll result (slack_text y bound longest)) }
    ensures cause { HasCause (S.faults sink.old) (S.faults sink.new) result }
{
    if longest == 0 {
        let none = Piece::Plain(b"none delivered");
        put_word(sink, b"right", 9800, y + 140, none)
    } else if bound < longest {
        let above = Label {
            first: Piece::Number(longest),
            middle: Piece::Plain(b" above "),
            last: Piece::Number(bound),
        };
        put_text(sink, b"right", 9800, y + 140, &above)
    } else {
        let below = Label {
            first: Piece::Number(bound - longest),
            middle: Piece::Plain(b" of "),
            last: Piece::Number(bound),
        };
        put_text(sink, b"right", 9800, y + 140, &below)
    }
}

fn put_bar_of<S: Sink>(sink: &mut S, scale: &Scale, y: u64, bound: u64) -> Result<(), Failed>
    ensures octets { WhereTold (S.tells sink.old) (S.tells sink.new) (TakesAll result (bar_of scale.now y bound)) }
    ensures cause { HasCause (S.faults sink.old) (S.faults sink.new) result }
{
    let left = u64::from(scale.left);
    let bar = Place {
        x: left,
        y,
        width: scale.place(bound).saturating_sub(left),
        height: 190,
    };
    put_rect(sink, b"bound", bar)
}

fn put_row_name<S: Sink>(sink: &mut S, row: &Row, y: u64) -> Result<(), Failed>
    requires { y ≤ 1000000 }
    ensures octets { WhereTold (S.tells sink.old) (S.tells sink.new) (TakesAll result (row_name row.now y)) }
    ensures cause { HasCause (S.faults sink.old) (S.faults sink.new) result }
{
    let name = Piece::Text(row.name.as_str().as_bytes());
    put_word(sink, b"name", 1900, y + 140, name)
}

#[tactic(auto, unfolding(crate::specs::Bounds::row_front))]
fn put_row_front<S: Sink>(
    sink: &mut S,
    row: &Row,
    scale: &Scale,
    y: u64,
    bound: u64,
) -> Result<(), Failed>
    requires { y ≤ 1000000 }
    ensures octets { WhereTold (S.tells sink.old) (S.tells sink.new) (TakesAll result (row_front row.now scale.now y bound)) }
    ensures cause { HasCause (S.faults sink.old) (S.faults sink.new) result }
{
    put_row_name(sink, row, y)?;
    put_bar_of(sink, scale, y, bound)
}

fn put_row_slack<S: Sink>(
    sink: &mut S,
    sent: &Sent,
    row: &Row,
    y: u64,
    bound: u64,
) -> Result<(), Failed>
    requires { y ≤ 1000000 }
    ensures octets { WhereTold (S.tells sink.old) (S.tells sink.new) (TakesAll result (slack_text y bound (greatest_delay sent.now.events.now row.now))) }
    ensures cause { HasCause (S.faults sink.old) (S.faults sink.new) result }
{
    put_slack(sink, y, bound, sent.greatest_delay(row))
}

#[tactic(auto, unfolding(crate::specs::Bounds::row_text))]
fn put_row<S: Sink>(
    sink: &mut S,
    sent: &Sent,
    row: &Row,
    scale: &Scale,
    y: u64,
    bound: u64,
) -> Result<(), Failed>
    requires { y ≤ 1000000 }
    ensures octets { WhereTold (S.tells sink.old) (S.tells sink.new) (TakesAll result (row_text sent.now.events.now row.now scale.now y bound)) }
    ensures cause { HasCause (S.faults sink.old) (S.faults sink.new) result }
{
    put_row_front(sink, row, scale, y, bound)?;
    put_points(sink, sent, row, scale, y)?;
    put_row_slack(sink, sent, row, y, bound)
}

fn put_row_of<S: Sink>(
    sink: &mut S,
    sent: &Sent,
    rows: &[Row],
    scale: &Scale,
    y: u64,
    bound: &(StreamId, u64),
) -> Result<(), Failed>
    requires { y ≤ 1000000 }
    ensures octets { WhereTold (S.tells sink.old) (S.tells sink.new)
        (TakesAll result (row_of sent.now.events.now (slice_get rows.now bound.now.0.0) scale.now y bound.now.1)) }
    ensures cause { HasCause (S.faults sink.old) (S.faults sink.new) result }
{
    match rows.get(bound.0.0 as usize) {
        Some(row) => put_row(sink, sent, row, scale, y, bound.1),
        None => Ok(()),
    }
}

fn put_rows<S: Sink>(
    sink: &mut S,
    sent: &Sent,
    rows: &[Row],
    scale: &Scale,
    bounds: &[(StreamId, u64)],
) -> Result<(), Failed>
    requires { length bounds.now ≤ 512 }
    ensures octets { WhereTold (S.tells sink.old) (S.tells sink.new) (TakesAll result (rows_of sent.now.events.now rows.now scale.now 620 bounds.now)) }
    ensures cause { HasCause (S.faults sink.old) (S.faults sink.new) result }
{
    let mut y = 620;
    for bound in bounds {
        put_row_of(sink, sent, rows, scale, y, bound)?;
        y += 300;
    }
    Ok(())
}

fn reach(sent: &Sent, rows: &[Row], stream: StreamId, bound: u64) -> u64
    ensures { result ≡ of_bounds.reach sent.now.events.now (slice_get rows.now stream.0) bound }
{
    match rows.get(stream.0 as usize) {
        Some(row) => sent.greatest_delay(row).max(bound),
        None => bound,
    }
}

/// The greatest of the bounds and of the delays of their streams.
fn reach_of(sent: &Sent, rows: &[Row], bounds: &[(StreamId, u64)]) -> u64
    ensures { result ≡ reach_of sent.now.events.now rows.now bounds.now }
{
    let mut most = 0;
    for (stream, bound) in bounds {
        most = reach(sent, rows, *stream, *bound).max(most);
    }
    most
}

fn bounds_scale(to: u64) -> Scale
    ensures { result ≡ bounds_scale to }
{
    Scale {
        from: 0,
        to,
        left: 2000,
        width: 5900,
    }
}

#[tactic(auto, unfolding(crate::specs::Bounds::columns))]
fn put_columns<S: Sink>(sink: &mut S) -> Result<(), Failed>
    ensures octets { WhereTold (S.tells sink.old) (S.tells sink.new) (TakesAll result columns) }
    ensures cause { HasCause (S.faults sink.old) (S.faults sink.new) result }
{
    put_word(sink, b"right", 1450, 500, Piece::Plain(b"ticks"))?;
    put_word(sink, b"right", 9800, 500, Piece::Plain(b"slack of bound"))
}

#[tactic(auto, unfolding(crate::specs::Bounds::captions))]
fn put_captions<S: Sink>(sink: &mut S) -> Result<(), Failed>
    ensures octets { WhereTold (S.tells sink.old) (S.tells sink.new) (TakesAll result captions) }
    ensures cause { HasCause (S.faults sink.old) (S.faults sink.new) result }
{
    let note = b"bars are bounds; a point is a frame, by the ticks from its send to its delivery";
    put_word(sink, b"note", 2000, 200, Piece::Plain(note))?;
    put_columns(sink)
}

#[tactic(auto, unfolding(crate::specs::Bounds::bounds_front))]
fn put_bounds_front<S: Sink>(sink: &mut S, scale: &Scale, height: u64) -> Result<(), Failed>
    requires { height ≤ 1000000 }
    ensures octets { WhereTold (S.tells sink.old) (S.tells sink.new) (TakesAll result (bounds_front scale.now height)) }
    ensures cause { HasCause (S.faults sink.old) (S.faults sink.new) result }
{
    put_head(sink, 620 + height)?;
    put_captions(sink)?;
    put_axis(sink, scale, 560, height)
}

fn put_chart<S: Sink>(
    sink: &mut S,
    sent: &Sent,
    rows: &[Row],
    bounds: &[(StreamId, u64)],
    scale: &Scale,
) -> Result<(), Failed>
    requires { length bounds.now ≤ 512 }
    ensures octets { WhereTold (S.tells sink.old) (S.tells sink.new) (TakesAll result (bounds_of sent.now.events.now rows.now bounds.now scale.now)) }
    ensures cause { HasCause (S.faults sink.old) (S.faults sink.new) result }
{
    put_bounds_front(sink, scale, 300 * bounds.len() as u64)?;
    put_rows(sink, sent, rows, scale, bounds)?;
    put_tail(sink)
}

fn put_whole<S: Sink>(
    sink: &mut S,
    sent: &Sent,
    rows: &[Row],
    bounds: &[(StreamId, u64)],
) -> Result<(), Failed>
    requires { length bounds.now ≤ 512 }
    ensures octets { WhereTold (S.tells sink.old) (S.tells sink.new) (TakesAll result (whole_text rows.now bounds.now sent.now.events.now)) }
    ensures cause { HasCause (S.faults sink.old) (S.faults sink.new) result }
{
    let scale = bounds_scale(reach_of(sent, rows, bounds));
    put_chart(sink, sent, rows, bounds, &scale)
}

/// Writes the picture of bounds: a bar for each bound of a stream, and on it a point for each delivery of a frame of that stream
/// in a trace, at the ticks from the frame's send to it. At most 512 bounds are drawn, which is as many as there may be.
pub fn put_bounds<S: Sink>(
    sink: &mut S,
    sent: &Sent,
    rows: &[Row],
    bounds: &[(StreamId, u64)],
) -> Result<(), Failed>
    ensures octets { WhereTold (S.tells sink.old) (S.tells sink.new) (TakesAll result (bounds_text rows.now bounds.now sent.now.events.now)) }
    ensures cause { HasCause (S.faults sink.old) (S.faults sink.new) result }
{
    put_whole(sink, sent, rows, &bounds[..bounds.len().min(512)])
}
