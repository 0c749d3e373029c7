ghost use Rattle.std.specs.Prelude.{◌≡◌, ◌<◌, ◌≤◌, ◌∷◌, length, map};
ghost use Rattle.std.specs.Fmt.{decimal};
ghost use Rattle.pre_base.specs.Faults.{HasCause};
ghost use Rattle.pre_base.specs.Told.{WhereTold};
ghost use Rattle.pre_base.specs.Sinks.{TakesAll};
ghost use Rattle.pre_text.specs.Spelled.{spelled};
ghost use Rattle.pre_topo.specs.Named.{node_name, arc_name};
ghost use Rattle.pre_history.specs.Plain.{plain, IsKind, IsEvent};
ghost use Rattle.pre_history.specs.Names.{HasNode, IsOf};
ghost use Rattle.pre_trace.specs.Text.{kind_word, what_word, setting_word, outcome_word, yes_word, line};

use crate::{Event, Outcome, What};
use pre_base::{ArcId, Failed, NodeId, Sink, Tick};
use pre_mpacket::Kind;
use pre_script::Setting;
use pre_text::{Word, put_line};
use pre_topo::Network;

fn node_of(net: &Network, node: NodeId) -> Word<'_, 'static>
    requires { HasNode net.now node.0 }
    ensures { spelled result ≡ node_name net.now node.0 }
{
    Word::Octets(net.node_name(node))
}

pub(crate) fn arc_of(net: &Network, arc: ArcId) -> Word<'_, 'static>
    ensures { spelled result ≡ arc_name net.now arc.0 }
{
    match net.arcs.as_slice().get(arc.0 as usize) {
        Some(arc) => Word::Ends(net.node_name(arc.from), net.node_name(arc.to)),
        None => Word::Octets(b""),
    }
}

fn setting_of(value: Setting) -> Word<'static, 'static>
    ensures { spelled result ≡ setting_word value }
{
    match value {
        Setting::On => Word::Octets(b"on"),
        Setting::Off => Word::Octets(b"off"),
        Setting::Gone => Word::Octets(b"gone"),
    }
}

fn what_of(what: What) -> Word<'static, 'static>
    ensures { spelled result ≡ what_word what }
{
    match what {
        What::Frame(number) => Word::Number(number.0 as u64),
        What::Lldp => Word::Octets(b"lldp"),
        What::Nothing => Word::Octets(b"-"),
    }
}

fn outcome_of(outcome: Outcome) -> Word<'static, 'static>
    ensures { spelled result ≡ outcome_word outcome }
{
    match outcome {
        Outcome::Lost => Word::Octets(b"lost"),
        Outcome::Frame => Word::Octets(b"frame"),
        Outcome::Lldp => Word::Octets(b"lldp"),
        Outcome::Part => Word::Octets(b"part"),
        Outcome::Verify => Word::Octets(b"verify"),
        Outcome::Respond => Word::Octets(b"respond"),
        Outcome::Nothing => Word::Octets(b"nothing"),
    }
}

fn kind_of(kind: Kind) -> Word<'static, 'static>
    requires { IsKind kind }
    ensures { spelled result ≡ kind_word kind }
{
    match kind {
        Kind::Express => Word::Octets(b"E"),
        Kind::Verify => Word::Octets(b"V"),
        Kind::Respond => Word::Octets(b"R"),
        Kind::Start(count) => Word::Two(b'S', b'0' + count),
        Kind::Continue(count, fragment) => Word::Four(b'C', b'0' + count, b'.', b'0' + fragment),
    }
}

fn yes_of(value: bool) -> Word<'static, 'static>
    ensures { spelled result ≡ yes_word value }
{
    if value {
        Word::Octets(b"yes")
    } else {
        Word::Octets(b"no")
    }
}

fn tick_of(tick: Tick) -> Word<'static, 'static>
    ensures { spelled result ≡ decimal tick.0 }
{
    Word::Number(tick.0)
}

/// Writes the line of an event.
pub fn put_event<S: Sink>(e: &Event, net: &Network, sink: &mut S) -> Result<(), Failed>
    requires known { IsOf net.now (plain e.now) }
    requires kind { IsEvent (plain e.now) }
    ensures octets { WhereTold (S.tells sink.old) (S.tells sink.new) (TakesAll result (line net.now (plain e.now))) }
    ensures cause { HasCause (S.faults sink.old) (S.faults sink.new) result }
{
    match *e {
        Event::Set { tick, arc, value } => put_line(
            sink,
            &tick_of(tick),
            &[Word::Octets(b"set"), arc_of(net, arc), setting_of(value)],
        ),
        Event::Begin {
            tick,
            arc,
            ord,
            kind,
            what,
            from,
        } => {
            put_line(
                sink,
                &tick_of(tick),
                &[
                    Word::Octets(b"begin"),
                    arc_of(net, arc),
                    Word::Number(ord),
                    kind_of(kind),
                    what_of(what),
                    Word::Number(from as u64),
                ],
            )
        }
        Event::Ended {
            tick,
            arc,
            ord,
            size,
            check,
        } => put_line(
            sink,
            &tick_of(tick),
            &[
                Word::Octets(b"ended"),
                arc_of(net, arc),
                Word::Number(ord),
                Word::Number(size as u64),
                Word::Check(check),
            ],
        ),
        Event::Arrive {
            tick,
            arc,
            ord,
            result,
        } => put_line(
            sink,
            &tick_of(tick),
            &[
                Word::Octets(b"arrive"),
                arc_of(net, arc),
                Word::Number(ord),
                outcome_of(result),
            ],
        ),
        Event::Deliver {
            tick,
            node,
            frame,
            hex,
        } => put_line(
            sink,
            &tick_of(tick),
            &[
                Word::Octets(b"deliver"),
                node_of(net, node),
                Word::Number(frame.0 as u64),
                Word::Hex(hex),
            ],
        ),
        Event::Active { tick, arc, value } => put_line(
            sink,
            &tick_of(tick),
            &[Word::Octets(b"active"), arc_of(net, arc), yes_of(value)],
        ),
        Event::Enter {
            tick,
            arc,
            prio,
            frame,
        } => put_line(
            sink,
            &tick_of(tick),
            &[
                Word::Octets(b"enter"),
                arc_of(net, arc),
                Word::Number(prio.number() as u64),
                Word::Number(frame.0 as u64),
            ],
        ),
        Event::Dropped {
            tick,
            arc,
            prio,
            frame,
        } => put_line(
            sink,
            &tick_of(tick),
            &[
                Word::Octets(b"dropped"),
                arc_of(net, arc),
                Word::Number(prio.number() as u64),
                Word::Number(frame.0 as u64),
            ],
        ),
        Event::Count {
            arc,
            err,
            smd,
            ok,
            rx,
            tx,
        } => put_line(
            sink,
            &Word::Octets(b"count"),
            &[
                arc_of(net, arc),
                Word::Number(err),
                Word::Number(smd),
                Word::Number(ok),
                Word::Number(rx),
                Word::Number(tx),
            ],
        ),
        Event::Finish {
            until,
            sent,
            delivered,
            dropped,
        } => put_line(
            sink,
            &tick_of(until),
            &[
                Word::Octets(b"end"),
                Word::Number(sent),
                Word::Number(delivered),
                Word::Number(dropped),
            ],
        ),
    }
}
