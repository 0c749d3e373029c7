ghost use Rattle.std.specs.Prelude.{◌≡◌, ◌<◌};
ghost use Rattle.pre_history.specs.Plain.{plain};
ghost use Rattle.pre_picture.specs.Traces.{tick_of, last_tick, octet_at, control_of, seen_of, seen_in, rule_of, trace_of, ReadsAs};

use pre_base::{GREATEST_FRAME, Items};
use pre_mpacket::Kind;
use pre_text::Lines;
use pre_topo::Network;
use pre_trace::{Event, EventFault, Outcome, What, read_event};
use std::alloc::Global;

/// What is drawn of an event, in plain numbers.
#[derive(Clone, Copy, Debug)]
pub enum Seen {
    /// An event of which its tick alone is drawn; 0 where it has none.
    Other {
        tick: u64,
    },
    /// An mPacket began.
    Begin {
        tick: u64,
        arc: u16,
        ord: u64,
        kind: Kind,
        what: What,
    },
    /// It ended, with so many octets of mData and check.
    Ended {
        tick: u64,
        arc: u16,
        ord: u64,
        size: u16,
    },
    /// It arrived, or was lost.
    Arrive {
        tick: u64,
        arc: u16,
        outcome: Outcome,
    },
    /// A frame was delivered, with this tag control information (IEEE 802.1Q, 9.6).
    Deliver {
        tick: u64,
        frame: u32,
        control: u16,
    },
    /// A frame entered a ring.
    Enter {
        tick: u64,
        arc: u16,
        prio: u8,
        frame: u32,
    },
}

/// The tick of an event.
pub(crate) fn tick_of(seen: &Seen) -> u64
    ensures { result ≡ tick_of seen.now }
{
    match *seen {
        Seen::Other { tick }
        | Seen::Begin { tick, .. }
        | Seen::Ended { tick, .. }
        | Seen::Arrive { tick, .. }
        | Seen::Deliver { tick, .. }
        | Seen::Enter { tick, .. } => tick,
    }
}

/// The greatest tick of a trace.
pub fn last_tick(events: &[Seen]) -> u64
    ensures { result ≡ last_tick events.now }
{
    let mut last = 0;
    for seen in events {
        last = tick_of(seen).max(last);
    }
    last
}

fn octet_at(octets: &[u8], place: usize) -> u16
    ensures value { result ≡ octet_at octets.now place }
    ensures octet { result < 256 }
{
    match octets.get(place) {
        Some(octet) => u16::from(*octet),
        None => 0,
    }
}

fn control_of(octets: &[u8]) -> u16
    ensures { result ≡ control_of octets.now }
{
    octet_at(octets, 14) * 256 + octet_at(octets, 15)
}

fn seen_of(event: &Event) -> Seen
    ensures { result ≡ seen_of (plain event.now) }
{
    match *event {
        Event::Begin {
            tick,
            arc,
            ord,
            kind,
            what,
            from: _,
        } => Seen::Begin {
            tick: tick.0,
            arc: arc.0,
            ord,
            kind,
            what,
        },
        Event::Ended {
            tick,
            arc,
            ord,
            size,
            check: _,
        } => Seen::Ended {
            tick: tick.0,
            arc: arc.0,
            ord,
            size,
        },
        Event::Arrive {
            tick,
            arc,
            ord: _,
            result,
        } => Seen::Arrive {
            tick: tick.0,
            arc: arc.0,
            outcome: result,
        },
        Event::Deliver {
            tick,
            node: _,
            frame,
            hex,
        } => Seen::Deliver {
            tick: tick.0,
            frame: frame.0,
            control: control_of(hex),
        },
        Event::Enter {
            tick,
            arc,
            prio,
            frame,
        } => Seen::Enter {
            tick: tick.0,
            arc: arc.0,
            prio: prio.number(),
            frame: frame.0,
        },
        Event::Set { tick, .. } | Event::Active { tick, .. } | Event::Dropped { tick, .. } => {
            Seen::Other { tick: tick.0 }
        }
        Event::Finish { until, .. } => Seen::Other { tick: until.0 },
        Event::Count { .. } => Seen::Other { tick: 0 },
    }
}

fn seen_in(line: &[u8], net: &Network) -> Result<Seen, EventFault>
    ensures { result ≡ seen_in net.now line.now }
{
    let mut hex = [0; GREATEST_FRAME as usize];
    match read_event(line, net, &mut hex) {
        Ok(event) => Ok(seen_of(&event)),
        Err(fault) => Err(fault),
    }
}

/// Why a trace isn't read.
#[derive(Clone, Copy, Debug, PartialEq, Eq)]
pub enum TraceFault {
    /// The line of this number, from 1, is no event, by this rule: 1 its words, 2 a number, 3 a name, 4 hexadecimal digits.
    Line { line: u64, rule: u8 },
    /// Want of memory.
    Memory,
}

fn rule_of(fault: EventFault) -> u8
    ensures { result ≡ rule_of fault }
{
    match fault {
        EventFault::Word => 1,
        EventFault::Number => 2,
        EventFault::Name => 3,
        EventFault::Hex => 4,
    }
}

/// What is drawn of the events of a trace, one of each line.
pub fn read_trace(alloc: Global, text: &[u8], net: &Network) -> Result<Items<Seen>, TraceFault>
    ensures { ReadsAs result (trace_of net.now text.now) }
{
    let mut found = Items::new(alloc);
    let mut lines = Lines::of(text);
    while let Some(line) = lines.next_line() {
        match seen_in(line.octets, net) {
            Ok(seen) => match found.push(seen) {
                Ok(()) => {}
                Err(_) => return Err(TraceFault::Memory),
            },
            Err(fault) => {
                return Err(TraceFault::Line {
                    line: line.number,
                    rule: rule_of(fault),
                });
            }
        }
    }
    Ok(found)
}
