ghost use Rattle.std.specs.Prelude.{◌≡◌, ◌≤◌, ◌<◌, ◌+◌, ◌^◌, ◌++◌, ◌∷◌, [], false, IfOk, OnOk, length, if◌then◌else◌};
ghost use Rattle.pre_base.specs.Faults.{HasCause};
ghost use Rattle.pre_base.specs.Told.{WhereTold};
ghost use Rattle.pre_base.specs.Sinks.{TakesAll};
ghost use Rattle.pre_picture.specs.Pieces.{shown};
ghost use Rattle.pre_picture.specs.Scales.{place};
ghost use Rattle.pre_picture.specs.Runs.{end_of, overlaps, in_lane, carries, carrying, class_by, what_name, name_by, name_on};
ghost use Rattle.pre_picture.specs.Runs.{width_of, bar_box, bar_name, bar_text, bar_in, lane_bars, outcome_text, mark_text, here_after, marks};
ghost use Rattle.pre_picture.specs.Runs.{lane_name, base_line, lane_base, lane, lanes, legend, run_front, arcs_text, run_of};

use crate::bars::Bar;
use crate::charts::{put_axis, put_head, put_tail, put_word};
use crate::pieces::{Label, Piece, Place, put_circle, put_pieces, put_rect, put_text};
use crate::scales::Scale;
use crate::traces::Seen;
use pre_base::{Failed, Items, Sink};
use pre_mpacket::Kind;
use pre_topo::Network;
use pre_trace::{Outcome, What};
use std::alloc::{AllocError, Global};

/// The tick of a bar's end, or the last one that is drawn.
fn end_of(scale: &Scale, bar: &Bar) -> u64
    ensures { result ≡ end_of scale.now bar.now }
{
    match bar.stop {
        Some(stop) => stop.tick,
        None => scale.to,
    }
}

/// Whether a part of the bar lies in what is drawn.
fn overlaps(scale: &Scale, bar: &Bar) -> bool
    ensures { result ≡ overlaps scale.now bar.now }
{
    bar.begin <= scale.to && scale.from <= end_of(scale, bar)
}

fn in_lane(scale: &Scale, arc: u16, bar: &Bar) -> bool
    ensures { result ≡ in_lane scale.now arc bar.now }
{
    bar.arc == arc && overlaps(scale, bar)
}

fn carries(scale: &Scale, bars: &[Bar], arc: u16) -> bool
    ensures { result ≡ carries scale.now bars.now arc }
{
    bars.iter().any(|bar| in_lane(scale, arc, bar))
}

fn add_where(arcs: &mut Items<u16>, arc: u16, carries: bool) -> Result<(), AllocError>
    ensures { OnOk result (arcs.new ≡ if carries then arcs.old ++ arc ∷ [] else arcs.old) }
{
    if carries {
        arcs.push(arc)?;
    }
    Ok(())
}

/// The arcs that have a bar in what is drawn, by number.
pub fn carrying(alloc: Global, scale: &Scale, bars: &[Bar]) -> Result<Items<u16>, AllocError>
    ensures arcs { IfOk result (λ arcs. arcs ≡ carrying scale.now bars.now) }
    ensures few { IfOk result (λ arcs. length arcs ≤ 256) }
{
    let mut arcs = Items::new(alloc);
    for arc in 0..256u16 {
        add_where(&mut arcs, arc, carries(scale, bars, arc))?;
    }
    Ok(arcs)
}

fn class_of(kind: Kind, what: What) -> &'static [u8]
    ensures { result.now ≡ class_by kind what }
{
    match kind {
        Kind::Verify | Kind::Respond => b"ask",
        Kind::Express => match what {
            What::Lldp => b"lldp",
            What::Frame(_) | What::Nothing => b"express",
        },
        Kind::Start(_) | Kind::Continue(_, _) => b"part",
    }
}

fn what_name(what: What) -> Piece<'static>
    ensures { shown result ≡ what_name what }
{
    match what {
        What::Frame(frame) => Piece::Number(u64::from(frame.0)),
        What::Lldp => Piece::Plain(b"L"),
        What::Nothing => Piece::Plain(b""),
    }
}

fn name_of(kind: Kind, what: What) -> Piece<'static>
    ensures { shown result ≡ name_by kind what }
{
    match kind {
        Kind::Verify => Piece::Plain(b"V"),
        Kind::Respond => Piece::Plain(b"R"),
        Kind::Express | Kind::Start(_) | Kind::Continue(_, _) => what_name(what),
    }
}

/// How high a bar is.
const BAR: u64 = 190;
/// How far one lane is below another.
const LANE: u64 = 330;
/// How far the first lane is below the top.
const TOP: u64 = 620;
/// How wide a bar must be for its name.
const ROOM: u64 = 300;

// Writes a name where there is room.
fn put_name_on<S: Sink>(
    sink: &mut S,
    x: u64,
    y: u64,
    width: u64,
    name: Piece<'static>,
) -> Result<(), Failed>
    requires x { x + width < 2 ^ 64 }
    requires y { y ≤ 1000000 }
    ensures octets { WhereTold (S.tells sink.old) (S.tells sink.new) (TakesAll result (name_on x y width (shown name.entry))) }
    ensures cause { HasCause (S.faults sink.old) (S.faults sink.new) result }
{
    if width >= ROOM {
        put_word(sink, b"on", x + width / 2, y + 138, name)
    } else {
        Ok(())
    }
}

/// How wide a bar is by its ticks.
fn width_of(scale: &Scale, bar: &Bar) -> u64
    ensures value { result ≡ width_of scale.now bar.now }
    ensures within { place scale.now bar.now.begin + result < 2 ^ 64 }
{
    scale
        .place(end_of(scale, bar))
        .saturating_sub(scale.place(bar.begin))
}

fn put_box<S: Sink>(sink: &mut S, scale: &Scale, y: u64, bar: &Bar) -> Result<(), Failed>
    ensures octets { WhereTold (S.tells sink.old) (S.tells sink.new) (TakesAll result (bar_box scale.now y bar.now)) }
    ensures cause { HasCause (S.faults sink.old) (S.faults sink.new) result }
{
    let at = Place {
        x: scale.place(bar.begin),
        y,
        width: width_of(scale, bar).max(10),
        height: BAR,
    };
    put_rect(sink, class_of(bar.kind, bar.what), at)
}

fn put_bar_name<S: Sink>(sink: &mut S, scale: &Scale, y: u64, bar: &Bar) -> Result<(), Failed>
    requires { y ≤ 1000000 }
    ensures octets { WhereTold (S.tells sink.old) (S.tells sink.new) (TakesAll result (bar_name scale.now y bar.now)) }
    ensures cause { HasCause (S.faults sink.old) (S.faults sink.new) result }
{
    let width = width_of(scale, bar);
    put_name_on(
        sink,
        scale.place(bar.begin),
        y,
        width,
        name_of(bar.kind, bar.what),
    )
}

// Writes a bar, and its name where there is room.
#[tactic(auto, unfolding(crate::specs::Runs::bar_text))]
fn put_bar<S: Sink>(sink: &mut S, scale: &Scale, y: u64, bar: &Bar) -> Result<(), Failed>
    requires { y ≤ 1000000 }
    ensures octets { WhereTold (S.tells sink.old) (S.tells sink.new) (TakesAll result (bar_text scale.now y bar.now)) }
    ensures cause { HasCause (S.faults sink.old) (S.faults sink.new) result }
{
    put_box(sink, scale, y, bar)?;
    put_bar_name(sink, scale, y, bar)
}

fn put_bar_in<S: Sink>(
    sink: &mut S,
    scale: &Scale,
    y: u64,
    arc: u16,
    bar: &Bar,
) -> Result<(), Failed>
    requires { y ≤ 1000000 }
    ensures octets { WhereTold (S.tells sink.old) (S.tells sink.new) (TakesAll result (bar_in scale.now y arc bar.now)) }
    ensures cause { HasCause (S.faults sink.old) (S.faults sink.new) result }
{
    if in_lane(scale, arc, bar) {
        put_bar(sink, scale, y, bar)
    } else {
        Ok(())
    }
}

fn put_bars<S: Sink>(
    sink: &mut S,
    scale: &Scale,
    y: u64,
    arc: u16,
    bars: &[Bar],
) -> Result<(), Failed>
    requires { y ≤ 1000000 }
    ensures octets { WhereTold (S.tells sink.old) (S.tells sink.new) (TakesAll result (lane_bars scale.now y arc bars.now)) }
    ensures cause { HasCause (S.faults sink.old) (S.faults sink.new) result }
{
    for bar in bars {
        put_bar_in(sink, scale, y, arc, bar)?;
    }
    Ok(())
}

fn put_outcome<S: Sink>(sink: &mut S, outcome: Outcome, x: u64, y: u64) -> Result<(), Failed>
    requires { y ≤ 1000000 }
    ensures octets { WhereTold (S.tells sink.old) (S.tells sink.new) (TakesAll result (outcome_text outcome x y)) }
    ensures cause { HasCause (S.faults sink.old) (S.faults sink.new) result }
{
    match outcome {
        Outcome::Lost => put_word(sink, b"lost", x, y + 180, Piece::Plain(b"&#215;")),
        Outcome::Nothing => put_word(sink, b"nothing", x, y + 180, Piece::Plain(b"!")),
        _ => Ok(()),
    }
}

fn put_mark<S: Sink>(
    sink: &mut S,
    scale: &Scale,
    y: u64,
    arc: u16,
    here: bool,
    seen: &Seen,
) -> Result<(), Failed>
    requires { y ≤ 1000000 }
    ensures octets { WhereTold (S.tells sink.old) (S.tells sink.new) (TakesAll result (mark_text scale.now y arc here seen.now)) }
    ensures cause { HasCause (S.faults sink.old) (S.faults sink.new) result }
{
    match *seen {
        Seen::Arrive {
            tick,
            arc: of,
            outcome,
        } if of == arc && scale.covers(tick) => { put_outcome(sink, outcome, scale.place(tick), y) }
        Seen::Deliver { tick, .. } if here && scale.covers(tick) => {
            put_circle(sink, b"here", scale.place(tick), y + 95, 50)
        }
        _ => Ok(()),
    }
}

fn here_after(arc: u16, here: bool, seen: &Seen) -> bool
    ensures { result ≡ here_after arc here seen.now }
{
    match *seen {
        Seen::Arrive { arc: of, .. } => of == arc,
        _ => here,
    }
}

fn put_marks<S: Sink>(
    sink: &mut S,
    scale: &Scale,
    y: u64,
    arc: u16,
    events: &[Seen],
) -> Result<(), Failed>
    requires { y ≤ 1000000 }
    ensures octets { WhereTold (S.tells sink.old) (S.tells sink.new) (TakesAll result (marks scale.now y arc false events.now)) }
    ensures cause { HasCause (S.faults sink.old) (S.faults sink.new) result }
{
    let mut here = false;
    for seen in events {
        put_mark(sink, scale, y, arc, here, seen)?;
        here = here_after(arc, here, seen);
    }
    Ok(())
}

#[tactic(auto, unfolding(crate::specs::Runs::lane_name))]
fn put_name<S: Sink>(sink: &mut S, net: &Network, y: u64, arc: u16) -> Result<(), Failed>
    requires { y ≤ 1000000 }
    ensures octets { WhereTold (S.tells sink.old) (S.tells sink.new) (TakesAll result (lane_name net.now y arc)) }
    ensures cause { HasCause (S.faults sink.old) (S.faults sink.new) result }
{
    match net.arcs.as_slice().get(arc as usize) {
        Some(ends) => {
            let name = Label {
                first: Piece::Text(net.node_name(ends.from)),
                middle: Piece::Plain(b" &gt; "),
                last: Piece::Text(net.node_name(ends.to)),
            };
            put_text(sink, b"name", 1900, y + 140, &name)
        }
        None => Ok(()),
    }
}

fn put_base_line<S: Sink>(sink: &mut S, scale: &Scale, y: u64) -> Result<(), Failed>
    requires { y ≤ 1000000 }
    ensures octets { WhereTold (S.tells sink.old) (S.tells sink.new) (TakesAll result (base_line scale.now y)) }
    ensures cause { HasCause (S.faults sink.old) (S.faults sink.new) result }
{
    let base = Place {
        x: u64::from(scale.left),
        y: y + BAR,
        width: u64::from(scale.width),
        height: 8,
    };
    put_rect(sink, b"base", base)
}

#[tactic(auto, unfolding(crate::specs::Runs::lane_base))]
fn put_base<S: Sink>(
    sink: &mut S,
    net: &Network,
    scale: &Scale,
    y: u64,
    arc: u16,
) -> Result<(), Failed>
    requires { y ≤ 1000000 }
    ensures octets { WhereTold (S.tells sink.old) (S.tells sink.new) (TakesAll result (lane_base net.now scale.now y arc)) }
    ensures cause { HasCause (S.faults sink.old) (S.faults sink.new) result }
{
    put_name(sink, net, y, arc)?;
    put_base_line(sink, scale, y)
}

/// What a run's picture is made of.
#[derive(Drop)]
pub struct Run<'a> {
    pub net: &'a Network,
    pub scale: Scale,
    pub bars: &'a [Bar],
    pub events: &'a [Seen],
}

#[tactic(auto, unfolding(crate::specs::Runs::lane))]
fn put_lane<S: Sink>(sink: &mut S, run: &Run, y: u64, arc: u16) -> Result<(), Failed>
    requires { y ≤ 1000000 }
    ensures octets { WhereTold (S.tells sink.old) (S.tells sink.new) (TakesAll result (lane run.now.net.now run.now.scale run.now.bars.now run.now.events.now y arc)) }
    ensures cause { HasCause (S.faults sink.old) (S.faults sink.new) result }
{
    put_base(sink, run.net, &run.scale, y, arc)?;
    put_bars(sink, &run.scale, y, arc, run.bars)?;
    put_marks(sink, &run.scale, y, arc, run.events)
}

fn put_lanes<S: Sink>(sink: &mut S, run: &Run, arcs: &[u16]) -> Result<(), Failed>
    requires { length arcs.now ≤ 256 }
    ensures octets { WhereTold (S.tells sink.old) (S.tells sink.new) (TakesAll result (lanes run.now.net.now run.now.scale run.now.bars.now run.now.events.now 620 arcs.now)) }
    ensures cause { HasCause (S.faults sink.old) (S.faults sink.new) result }
{
    let mut y = TOP;
    for arc in arcs {
        put_lane(sink, run, y, *arc)?;
        y += LANE;
    }
    Ok(())
}

#[tactic(auto, unfolding(crate::specs::Runs::legend))]
fn put_legend<S: Sink>(sink: &mut S) -> Result<(), Failed>
    ensures octets { WhereTold (S.tells sink.old) (S.tells sink.new) (TakesAll result legend) }
    ensures cause { HasCause (S.faults sink.old) (S.faults sink.new) result }
{
    let pieces = [
        Piece::Plain(
            b"<rect class=\"express\" x=\"2000\" y=\"60\" width=\"260\" height=\"150\"/><text class=\"note\" x=\"2320\" y=\"180\">express</text>\n",
        ),
        Piece::Plain(
            b"<rect class=\"part\" x=\"3150\" y=\"60\" width=\"260\" height=\"150\"/><text class=\"note\" x=\"3470\" y=\"180\">preemptable</text>\n",
        ),
        Piece::Plain(
            b"<rect class=\"lldp\" x=\"4420\" y=\"60\" width=\"260\" height=\"150\"/><text class=\"note\" x=\"4740\" y=\"180\">LLDP</text>\n",
        ),
        Piece::Plain(
            b"<rect class=\"ask\" x=\"5300\" y=\"60\" width=\"260\" height=\"150\"/><text class=\"note\" x=\"5620\" y=\"180\">verify, respond</text>\n",
        ),
        Piece::Plain(
            b"<circle class=\"here\" cx=\"7100\" cy=\"135\" r=\"50\"/><text class=\"note\" x=\"7200\" y=\"180\">delivered</text>\n",
        ),
        Piece::Plain(
            b"<text class=\"lost\" x=\"8150\" y=\"215\">&#215;</text><text class=\"note\" x=\"8250\" y=\"180\">lost</text>\n",
        ),
        Piece::Plain(
            b"<text class=\"nothing\" x=\"8750\" y=\"215\">!</text><text class=\"note\" x=\"8830\" y=\"180\">gave nothing</text>\n",
        ),
        Piece::Plain(b"<text class=\"right\" x=\"1450\" y=\"500\">tick</text>\n"),
    ];
    put_pieces(sink, &pieces)
}

#[tactic(auto, unfolding(crate::specs::Runs::run_front))]
fn put_front<S: Sink>(sink: &mut S, scale: &Scale, height: u64) -> Result<(), Failed>
    requires { height ≤ 1000000 }
    ensures octets { WhereTold (S.tells sink.old) (S.tells sink.new) (TakesAll result (run_front scale.now height)) }
    ensures cause { HasCause (S.faults sink.old) (S.faults sink.new) result }
{
    put_head(sink, TOP + height)?;
    put_legend(sink)?;
    put_axis(sink, scale, 560, height)
}

fn put_arcs<S: Sink>(sink: &mut S, run: &Run, arcs: &[u16]) -> Result<(), Failed>
    requires { length arcs.now ≤ 256 }
    ensures octets { WhereTold (S.tells sink.old) (S.tells sink.new) (TakesAll result (arcs_text run.now.net.now run.now.scale run.now.bars.now run.now.events.now arcs.now)) }
    ensures cause { HasCause (S.faults sink.old) (S.faults sink.new) result }
{
    put_front(sink, &run.scale, LANE * arcs.len() as u64)?;
    put_lanes(sink, run, arcs)?;
    put_tail(sink)
}

/// Writes the picture of a run: a lane for each arc that carries something on the scale of ticks, which are these `arcs`.
#[tactic(auto, unfolding(crate::specs::Runs::run_of))]
pub fn put_run<S: Sink>(sink: &mut S, run: &Run, arcs: &[u16]) -> Result<(), Failed>
    requires arcs { arcs.now ≡ carrying run.now.scale run.now.bars.now }
    requires few { length arcs.now ≤ 256 }
    ensures octets { WhereTold (S.tells sink.old) (S.tells sink.new) (TakesAll result (run_of run.now.net.now run.now.scale run.now.bars.now run.now.events.now)) }
    ensures cause { HasCause (S.faults sink.old) (S.faults sink.new) result }
{
    put_arcs(sink, run, arcs)
}
