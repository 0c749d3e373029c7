ghost use Rattle.std.specs.Prelude.{◌≡◌, ◌≤◌, ◌+◌, ◌∷◌, ℕ, List, IfOk, OnOk, max, unwrap_or};
ghost use Rattle.pre_base.specs.Faults.{HasCause};
ghost use Rattle.pre_base.specs.Told.{WhereTold};
ghost use Rattle.pre_base.specs.Sinks.{TakesAll};
ghost use Rattle.pre_picture.specs.declared.bars.Bar as of_bar;
ghost use Rattle.pre_picture.specs.Bars.{bars};
ghost use Rattle.pre_picture.specs.Queues.{KnowsSizes, carried, size_of, frame_of, left_by, came, went, level_after, peak, ticks_scale, octets_scale};
ghost use Rattle.pre_picture.specs.Queues.{step_text, steps, line_at, size_number, size_line, base, queue_note, queue_captions, queue_field, queue_front, queue_end, queue_of, queue_text};

use crate::bars::{Bar, bars_of};
use crate::charts::{put_axis, put_head, put_tail, put_word};
use crate::delays::Sent;
use crate::pieces::{Label, Piece, Place, put_rect, put_text};
use crate::scales::Scale;
use crate::traces::{Seen, last_tick, tick_of};
use pre_base::{Failed, Sink};
use pre_mpacket::Kind;
use pre_trace::What;
use std::alloc::{AllocError, Global};
use std::collections::BTreeMap;

/// A queue: of one priority, for an arc.
#[derive(Clone, Copy, Debug)]
pub struct Port {
    pub arc: u16,
    pub prio: u8,
}

/// A frame that an mPacket carried whole, and its wire octets.
fn carried(bar: &Bar) -> Option<(u32, u64)>
    ensures { result ≡ carried bar.now.kind bar.now.what bar.now.stop }
{
    match (bar.kind, bar.what, bar.stop) {
        (Kind::Express, What::Frame(frame), Some(stop)) => {
            Some((frame.0, u64::from(stop.size) + 20))
        }
        _ => None,
    }
}

// Takes the mPacket before those whose frames are known.
fn take(sizes: &mut BTreeMap<u32, u64>, bar: &Bar) -> Result<(), AllocError>
    ensures { OnOk result ((packets : List of_bar.Bar) → KnowsSizes sizes.old packets → KnowsSizes sizes.new (bar.now ∷ packets)) }
{
    if let Some((frame, size)) = carried(bar) {
        sizes.insert(frame, size)?;
    }
    Ok(())
}

fn sizes_of(alloc: Global, bars: &[Bar]) -> Result<BTreeMap<u32, u64>, AllocError>
    ensures { IfOk result (λ sizes. KnowsSizes sizes bars.now) }
{
    let mut sizes = BTreeMap::new(alloc);
    let mut at = bars.len();
    while at > 0 {
        at -= 1;
        take(&mut sizes, &bars[at])?;
    }
    Ok(sizes)
}

/// What a trace tells of the queue of a port.
#[derive(Drop)]
pub struct Queue<'a> {
    pub port: Port,
    pub sent: Sent<'a>,
    pub sizes: BTreeMap<u32, u64>,
    pub ghost knows: { KnowsSizes sizes (bars sent.events.now) },
}

/// The frame that an express mPacket carries.
fn frame_of(kind: Kind, what: What) -> Option<u32>
    ensures { result ≡ frame_of kind what }
{
    match (kind, what) {
        (Kind::Express, What::Frame(frame)) => Some(frame.0),
        _ => None,
    }
}

impl<'a> Queue<'a> {
    /// Finds the frames of a trace, for the queue of a port.
    pub fn of(alloc: Global, port: Port, events: &'a [Seen]) -> Result<Queue<'a>, AllocError>
        ensures port { IfOk result (λ queue. queue.port ≡ port) }
        ensures events { IfOk result (λ queue. queue.sent.events.now ≡ events.now) }
    {
        let bars = bars_of(alloc, events)?;
        let sizes = sizes_of(alloc, bars.as_slice())?;
        let sent = Sent::of(alloc, events)?;
        Ok(Queue { port, sent, sizes })
    }

    fn size_of(&self, frame: u32) -> u64
        ensures { result ≡ size_of self.now.sent.events.now frame }
    {
        match self.sizes.get(&frame) {
            Some(size) => *size,
            None => 0,
        }
    }

    fn left_by(&self, frame: Option<u32>) -> u64
        ensures { result ≡ left_by self.now.sent.events.now self.now.port frame }
    {
        match frame {
            Some(frame) => match self.sent.first.get(&frame) {
                Some(entry) if entry.prio == self.port.prio => self.size_of(frame),
                _ => 0,
            },
            None => 0,
        }
    }

    fn came(&self, seen: &Seen) -> u64
        ensures { result ≡ came self.now.sent.events.now self.now.port seen.now }
    {
        match *seen {
            Seen::Enter {
                tick: _,
                arc,
                prio,
                frame,
            } if arc == self.port.arc && prio == self.port.prio => self.size_of(frame),
            _ => 0,
        }
    }

    fn went(&self, seen: &Seen) -> u64
        ensures { result ≡ went self.now.sent.events.now self.now.port seen.now }
    {
        match *seen {
            Seen::Begin {
                tick: _,
                arc,
                ord: _,
                kind,
                what,
            } if arc == self.port.arc => self.left_by(frame_of(kind, what)),
            _ => 0,
        }
    }

    fn level_after(&self, level: u64, seen: &Seen) -> u64
        ensures { result ≡ level_after self.now.sent.events.now self.now.port level seen.now }
    {
        level
            .saturating_add(self.came(seen))
            .saturating_sub(self.went(seen))
    }

    /// The most wire octets that wait.
    pub fn peak(&self) -> u64
        ensures { result ≡ peak self.now.sent.events.now self.now.port }
    {
        let mut level = 0;
        let mut most = 0;
        for seen in self.sent.events {
            level = self.level_after(level, seen);
            most = level.max(most);
        }
        most
    }
}

/// Ticks along the top.
fn ticks_scale(to: u64) -> Scale
    ensures { result ≡ ticks_scale to }
{
    Scale {
        from: 0,
        to,
        left: 2000,
        width: 7400,
    }
}

/// Octets upwards.
fn octets_scale(to: u64) -> Scale
    ensures value { result ≡ octets_scale to }
{
    Scale {
        from: 0,
        to,
        left: 0,
        width: 2400,
    }
}

/// Where a queue is drawn.
#[derive(Clone, Copy, Debug)]
struct Field {
    across: Scale,
    up: Scale,
}

fn put_step<S: Sink>(
    sink: &mut S,
    field: &Field,
    since: u64,
    until: u64,
    level: u64,
) -> Result<(), Failed>
    requires { field.now.up.left + field.now.up.width ≤ 3000 }
    ensures octets { WhereTold (S.tells sink.old) (S.tells sink.new) (TakesAll result (step_text field.now.across field.now.up since until level)) }
    ensures cause { HasCause (S.faults sink.old) (S.faults sink.new) result }
{
    if level == 0 {
        return Ok(());
    }
    let x = field.across.place(since);
    let height = field.up.place(level);
    let step = Place {
        x,
        y: 3100 - height,
        width: field.across.place(until).saturating_sub(x),
        height,
    };
    put_rect(sink, b"queue", step)
}

fn put_steps<S: Sink>(sink: &mut S, queue: &Queue, field: &Field) -> Result<(), Failed>
    requires { field.now.up.left + field.now.up.width ≤ 3000 }
    ensures octets { WhereTold (S.tells sink.old) (S.tells sink.new)
        (TakesAll result (steps queue.now.sent.events.now queue.now.port field.now.across field.now.up 0 0 queue.now.sent.events.now)) }
    ensures cause { HasCause (S.faults sink.old) (S.faults sink.new) result }
{
    let mut since = 0;
    let mut level = 0;
    for seen in queue.sent.events {
        let next = queue.level_after(level, seen);
        if next != level {
            put_step(sink, field, since, tick_of(seen), level)?;
            since = tick_of(seen);
            level = next;
        }
    }
    put_step(sink, field, since, field.across.to, level)
}

fn put_line<S: Sink>(sink: &mut S, up: &Scale, size: u64) -> Result<(), Failed>
    requires { up.now.left + up.now.width ≤ 3000 }
    ensures octets { WhereTold (S.tells sink.old) (S.tells sink.new) (TakesAll result (line_at up.now size)) }
    ensures cause { HasCause (S.faults sink.old) (S.faults sink.new) result }
{
    let height = up.place(size);
    let line = Place {
        x: 2000,
        y: 3100 - height,
        width: 7400,
        height: 12,
    };
    put_rect(sink, b"size", line)
}

fn put_size_number<S: Sink>(sink: &mut S, up: &Scale, size: u64) -> Result<(), Failed>
    requires { up.now.left + up.now.width ≤ 3000 }
    ensures octets { WhereTold (S.tells sink.old) (S.tells sink.new) (TakesAll result (size_number up.now size)) }
    ensures cause { HasCause (S.faults sink.old) (S.faults sink.new) result }
{
    put_word(
        sink,
        b"name",
        1900,
        3150 - up.place(size),
        Piece::Number(size),
    )
}

#[tactic(auto, unfolding(crate::specs::Queues::size_line))]
fn put_size_line<S: Sink>(sink: &mut S, up: &Scale, size: u64) -> Result<(), Failed>
    requires { up.now.left + up.now.width ≤ 3000 }
    ensures octets { WhereTold (S.tells sink.old) (S.tells sink.new) (TakesAll result (size_line up.now size)) }
    ensures cause { HasCause (S.faults sink.old) (S.faults sink.new) result }
{
    put_line(sink, up, size)?;
    put_size_number(sink, up, size)
}

#[tactic(auto, unfolding(crate::specs::Queues::base))]
fn put_base<S: Sink>(sink: &mut S) -> Result<(), Failed>
    ensures octets { WhereTold (S.tells sink.old) (S.tells sink.new) (TakesAll result base) }
    ensures cause { HasCause (S.faults sink.old) (S.faults sink.new) result }
{
    let base = Place {
        x: 2000,
        y: 3100,
        width: 7400,
        height: 8,
    };
    put_rect(sink, b"base", base)?;
    put_word(sink, b"name", 1900, 3150, Piece::Number(0))
}

fn put_note<S: Sink>(sink: &mut S, most: u64) -> Result<(), Failed>
    ensures octets { WhereTold (S.tells sink.old) (S.tells sink.new) (TakesAll result (queue_note most)) }
    ensures cause { HasCause (S.faults sink.old) (S.faults sink.new) result }
{
    let words = Label {
        first: Piece::Plain(b"wire octets that wait, at most "),
        middle: Piece::Number(most),
        last: Piece::Plain(b"; the line is the certified size"),
    };
    put_text(sink, b"note", 2000, 200, &words)
}

#[tactic(auto, unfolding(crate::specs::Queues::queue_captions))]
fn put_captions<S: Sink>(sink: &mut S, most: u64) -> Result<(), Failed>
    ensures octets { WhereTold (S.tells sink.old) (S.tells sink.new) (TakesAll result (queue_captions most)) }
    ensures cause { HasCause (S.faults sink.old) (S.faults sink.new) result }
{
    put_note(sink, most)?;
    put_word(sink, b"right", 1450, 500, Piece::Plain(b"tick"))
}

#[tactic(auto, unfolding(crate::specs::Queues::queue_field))]
fn put_field<S: Sink>(sink: &mut S, across: &Scale) -> Result<(), Failed>
    ensures octets { WhereTold (S.tells sink.old) (S.tells sink.new) (TakesAll result (queue_field across.now)) }
    ensures cause { HasCause (S.faults sink.old) (S.faults sink.new) result }
{
    put_axis(sink, across, 560, 2540)?;
    put_base(sink)
}

#[tactic(auto, unfolding(crate::specs::Queues::queue_front))]
fn put_front<S: Sink>(sink: &mut S, across: &Scale, most: u64) -> Result<(), Failed>
    ensures octets { WhereTold (S.tells sink.old) (S.tells sink.new) (TakesAll result (queue_front across.now most)) }
    ensures cause { HasCause (S.faults sink.old) (S.faults sink.new) result }
{
    put_head(sink, 3300)?;
    put_captions(sink, most)?;
    put_field(sink, across)
}

#[tactic(auto, unfolding(crate::specs::Queues::queue_end))]
fn put_end<S: Sink>(sink: &mut S, up: &Scale, size: u64) -> Result<(), Failed>
    requires { up.now.left + up.now.width ≤ 3000 }
    ensures octets { WhereTold (S.tells sink.old) (S.tells sink.new) (TakesAll result (queue_end up.now size)) }
    ensures cause { HasCause (S.faults sink.old) (S.faults sink.new) result }
{
    put_size_line(sink, up, size)?;
    put_tail(sink)
}

fn put_chart<S: Sink>(
    sink: &mut S,
    queue: &Queue,
    field: &Field,
    size: u64,
    most: u64,
) -> Result<(), Failed>
    requires { field.now.up.left + field.now.up.width ≤ 3000 }
    ensures octets { WhereTold (S.tells sink.old) (S.tells sink.new) (TakesAll result (queue_of queue.now.sent.events.now queue.now.port size most field.now.across field.now.up)) }
    ensures cause { HasCause (S.faults sink.old) (S.faults sink.new) result }
{
    put_front(sink, &field.across, most)?;
    put_steps(sink, queue, field)?;
    put_end(sink, &field.up, size)
}

/// Writes the picture of a queue: its wire octets over time as steps, and its certified size as a line.
#[tactic(auto, unfolding(crate::specs::Queues::queue_text))]
pub fn put_queue<S: Sink>(sink: &mut S, queue: &Queue, size: u64) -> Result<(), Failed>
    ensures octets { WhereTold (S.tells sink.old) (S.tells sink.new) (TakesAll result (queue_text queue.now.port size queue.now.sent.events.now)) }
    ensures cause { HasCause (S.faults sink.old) (S.faults sink.new) result }
{
    let most = queue.peak();
    let field = Field {
        across: ticks_scale(last_tick(queue.sent.events)),
        up: octets_scale(size.max(most)),
    };
    put_chart(sink, queue, &field, size, most)
}
