ghost use Rattle.std.specs.Prelude.{◌≡◌, ◌≤◌, ◌↔◌, length, IfOk, Ok};
ghost use Rattle.pre_history.specs.History.{PlainEvent};
ghost use Rattle.pre_history.specs.Names.{IsOf};
ghost use Rattle.pre_history.specs.Plain.{plain, IsEvent};
ghost use Rattle.pre_base.specs.declared.limits.TheConstants.{GREATEST_FRAME};
ghost use Rattle.pre_trace.specs.Saying.{active_said, arrive_said, begin_said, count_said, deliver_said, end_said, ended_said, entry_said, event_of, said_by, set_said};
ghost use Rattle.pre_trace.specs.LineFaults.{fault_of, first_fault};
ghost use Rattle.pre_trace.specs.Reading.{plainly, Tells};

use crate::values::{
    check_of, is, kind_of, node_named, number_below, octets_into, outcome_of, setting_of, what_of,
    yes_of,
};
use crate::words::{five_words, four_words, has_single_spaces, six_words, three_words, two_words};
use crate::{Event, EventFault};
use pre_base::{FrameNo, Prio, Tick};
use pre_text::{LineWords, number};
use pre_topo::Network;

fn set_said(
    net: &Network,
    first: &[u8],
    words: &mut LineWords,
) -> Result<Event<'static>, EventFault>
    ensures { plainly result ≡ set_said net.now first.now words.old }
{
    let (arc, value) = two_words(words).ok_or(EventFault::Word)?;
    let value = setting_of(value).ok_or(EventFault::Word)?;
    let tick = number(first).ok_or(EventFault::Number)?;
    let arc = net.arc_named(arc).ok_or(EventFault::Name)?;
    Ok(Event::Set {
        tick: Tick(tick),
        arc,
        value,
    })
}

fn begin_said(
    net: &Network,
    first: &[u8],
    words: &mut LineWords,
) -> Result<Event<'static>, EventFault>
    ensures { plainly result ≡ begin_said net.now first.now words.old }
{
    let (arc, ord, kind, what, from) = five_words(words).ok_or(EventFault::Word)?;
    let kind = kind_of(kind).ok_or(EventFault::Word)?;
    let tick = number(first).ok_or(EventFault::Number)?;
    let arc = net.arc_named(arc).ok_or(EventFault::Name)?;
    let ord = number(ord).ok_or(EventFault::Number)?;
    let what = what_of(what).ok_or(EventFault::Number)?;
    let from = number_below(from, 65_536).ok_or(EventFault::Number)?;
    Ok(Event::Begin {
        tick: Tick(tick),
        arc,
        ord,
        kind,
        what,
        from: from as u16,
    })
}

fn ended_said(
    net: &Network,
    first: &[u8],
    words: &mut LineWords,
) -> Result<Event<'static>, EventFault>
    ensures { plainly result ≡ ended_said net.now first.now words.old }
{
    let (arc, ord, size, check) = four_words(words).ok_or(EventFault::Word)?;
    let tick = number(first).ok_or(EventFault::Number)?;
    let arc = net.arc_named(arc).ok_or(EventFault::Name)?;
    let ord = number(ord).ok_or(EventFault::Number)?;
    let size = number_below(size, 65_536).ok_or(EventFault::Number)?;
    let check = check_of(check).ok_or(EventFault::Hex)?;
    Ok(Event::Ended {
        tick: Tick(tick),
        arc,
        ord,
        size: size as u16,
        check,
    })
}

fn arrive_said(
    net: &Network,
    first: &[u8],
    words: &mut LineWords,
) -> Result<Event<'static>, EventFault>
    ensures { plainly result ≡ arrive_said net.now first.now words.old }
{
    let (arc, ord, result) = three_words(words).ok_or(EventFault::Word)?;
    let result = outcome_of(result).ok_or(EventFault::Word)?;
    let tick = number(first).ok_or(EventFault::Number)?;
    let arc = net.arc_named(arc).ok_or(EventFault::Name)?;
    let ord = number(ord).ok_or(EventFault::Number)?;
    Ok(Event::Arrive {
        tick: Tick(tick),
        arc,
        ord,
        result,
    })
}

fn deliver_said<'a>(
    net: &Network,
    first: &[u8],
    words: &mut LineWords,
    hex: &'a mut [u8],
) -> Result<Event<'a>, EventFault>
    requires { GREATEST_FRAME ≤ length hex.old }
    ensures { plainly result ≡ deliver_said net.now first.now words.old }
{
    let (node, frame, octets) = three_words(words).ok_or(EventFault::Word)?;
    let tick = number(first).ok_or(EventFault::Number)?;
    let node = node_named(net, node).ok_or(EventFault::Name)?;
    let frame = number_below(frame, 4_294_967_296).ok_or(EventFault::Number)?;
    let octets = octets_into(octets, hex).ok_or(EventFault::Hex)?;
    Ok(Event::Deliver {
        tick: Tick(tick),
        node,
        frame: FrameNo(frame as u32),
        hex: octets,
    })
}

fn active_said(
    net: &Network,
    first: &[u8],
    words: &mut LineWords,
) -> Result<Event<'static>, EventFault>
    ensures { plainly result ≡ active_said net.now first.now words.old }
{
    let (arc, value) = two_words(words).ok_or(EventFault::Word)?;
    let value = yes_of(value).ok_or(EventFault::Word)?;
    let tick = number(first).ok_or(EventFault::Number)?;
    let arc = net.arc_named(arc).ok_or(EventFault::Name)?;
    Ok(Event::Active {
        tick: Tick(tick),
        arc,
        value,
    })
}

fn entry_said(
    lost: bool,
    net: &Network,
    first: &[u8],
    words: &mut LineWords,
) -> Result<Event<'static>, EventFault>
    ensures { plainly result ≡ entry_said lost net.now first.now words.old }
{
    let (arc, prio, frame) = three_words(words).ok_or(EventFault::Word)?;
    let tick = number(first).ok_or(EventFault::Number)?;
    let arc = net.arc_named(arc).ok_or(EventFault::Name)?;
    let prio = number_below(prio, 8).ok_or(EventFault::Number)?;
    let frame = number_below(frame, 4_294_967_296).ok_or(EventFault::Number)?;
    let tick = Tick(tick);
    let prio = Prio(prio as u8);
    let frame = FrameNo(frame as u32);
    Ok(if lost {
        Event::Dropped {
            tick,
            arc,
            prio,
            frame,
        }
    } else {
        Event::Enter {
            tick,
            arc,
            prio,
            frame,
        }
    })
}

fn count_said(net: &Network, words: &mut LineWords) -> Result<Event<'static>, EventFault>
    ensures { plainly result ≡ count_said net.now words.old }
{
    let (arc, err, smd, ok, rx, tx) = six_words(words).ok_or(EventFault::Word)?;
    let arc = net.arc_named(arc).ok_or(EventFault::Name)?;
    let err = number(err).ok_or(EventFault::Number)?;
    let smd = number(smd).ok_or(EventFault::Number)?;
    let ok = number(ok).ok_or(EventFault::Number)?;
    let rx = number(rx).ok_or(EventFault::Number)?;
    let tx = number(tx).ok_or(EventFault::Number)?;
    Ok(Event::Count {
        arc,
        err,
        smd,
        ok,
        rx,
        tx,
    })
}

fn end_said(first: &[u8], words: &mut LineWords) -> Result<Event<'static>, EventFault>
    ensures { plainly result ≡ end_said first.now words.old }
{
    let (sent, delivered, dropped) = three_words(words).ok_or(EventFault::Word)?;
    let until = number(first).ok_or(EventFault::Number)?;
    let sent = number(sent).ok_or(EventFault::Number)?;
    let delivered = number(delivered).ok_or(EventFault::Number)?;
    let dropped = number(dropped).ok_or(EventFault::Number)?;
    Ok(Event::Finish {
        until: Tick(until),
        sent,
        delivered,
        dropped,
    })
}

/// What the further words say by the kind word.
fn said_by<'a>(
    net: &Network,
    first: &[u8],
    kind: &[u8],
    words: &mut LineWords,
    hex: &'a mut [u8],
) -> Result<Event<'a>, EventFault>
    requires { GREATEST_FRAME ≤ length hex.old }
    ensures { plainly result ≡ said_by net.now first.now kind.now words.old }
{
    if is(kind, b"set") {
        set_said(net, first, words)
    } else if is(kind, b"begin") {
        begin_said(net, first, words)
    } else if is(kind, b"ended") {
        ended_said(net, first, words)
    } else if is(kind, b"arrive") {
        arrive_said(net, first, words)
    } else if is(kind, b"deliver") {
        deliver_said(net, first, words, hex)
    } else if is(kind, b"active") {
        active_said(net, first, words)
    } else if is(kind, b"enter") {
        entry_said(false, net, first, words)
    } else if is(kind, b"dropped") {
        entry_said(true, net, first, words)
    } else if is(kind, b"end") {
        end_said(first, words)
    } else {
        Err(EventFault::Word)
    }
}

fn event_in<'a>(line: &[u8], net: &Network, hex: &'a mut [u8]) -> Result<Event<'a>, EventFault>
    requires { GREATEST_FRAME ≤ length hex.old }
    ensures { plainly result ≡ event_of net.now line.now }
{
    if !has_single_spaces(line) {
        return Err(EventFault::Word);
    }
    let mut words = LineWords::of(line);
    let first = words.next_word().ok_or(EventFault::Word)?;
    if is(first, b"count") {
        return count_said(net, &mut words);
    }
    let kind = words.next_word().ok_or(EventFault::Word)?;
    said_by(net, first, kind, &mut words, hex)
}

/// The event that a line of a trace tells, without the 0A at its end. The octets of a delivery are written to `hex`.
///
/// # Errors
///
/// `Word` comes exactly where the line isn't words with one space between, its kind is unknown, the count of words isn't
/// that of its kind, or a value, result or kind of mPacket is none of the known ones. Else the fault is that of the first
/// word from the left that has one.
pub fn read_event<'a>(
    line: &[u8],
    net: &Network,
    hex: &'a mut [u8],
) -> Result<Event<'a>, EventFault>
    requires room { GREATEST_FRAME ≤ length hex.old }
    ensures exact { plainly result ≡ event_of net.now line.now }
    ensures fault { fault_of result ≡ first_fault net.now line.now }
    ensures event { IfOk result (λ e. IsOf net.now (plain e) × IsEvent (plain e)) }
    ensures tells { (e : PlainEvent) → (plainly result ≡ Ok e) ↔ Tells net.now line.now e }
{
    event_in(line, net, hex)
}
