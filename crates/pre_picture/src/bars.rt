ghost use Rattle.std.specs.Prelude.{◌≡◌, ◌++◌, ◌∷◌, List, IfOk, OnOk};
ghost use Rattle.pre_picture.specs.declared.traces.Seen as of_seen;
ghost use Rattle.pre_picture.specs.Bars.{bars, bars_at, stop_for, Follow};

use crate::traces::Seen;
use pre_base::Items;
use pre_mpacket::Kind;
use pre_trace::What;
use std::alloc::{AllocError, Global};
use std::collections::BTreeMap;

/// The end of an mPacket: its number on the arc, its tick and its octets.
#[derive(Clone, Copy, Debug)]
pub struct Stop {
    pub ord: u64,
    pub tick: u64,
    pub size: u16,
}

/// An mPacket from its begin to its end, which it has where its arc's next `ended` line is of its number.
#[derive(Clone, Copy, Debug)]
pub struct Bar {
    pub arc: u16,
    pub kind: Kind,
    pub what: What,
    pub begin: u64,
    pub stop: Option<Stop>,
}

fn stop_for(ord: u64, stop: Option<Stop>) -> Option<Stop>
    ensures { result ≡ stop_for ord stop }
{
    match stop {
        Some(stop) if stop.ord == ord => Some(stop),
        _ => None,
    }
}

// Takes the event before those that the stops follow.
fn take(
    found: &mut Items<Bar>,
    stops: &mut BTreeMap<u16, Stop>,
    seen: &Seen,
) -> Result<(), AllocError>
    ensures found { (events : List of_seen.Seen) → Follow stops.old events → OnOk result (found.new ≡ found.old ++ bars_at seen.now events) }
    ensures stops { OnOk result ((events : List of_seen.Seen) → Follow stops.old events → Follow stops.new (seen.now ∷ events)) }
{
    match *seen {
        Seen::Begin {
            tick,
            arc,
            ord,
            kind,
            what,
        } => found.push(Bar {
            arc,
            kind,
            what,
            begin: tick,
            stop: stop_for(ord, stops.get(&arc).copied()),
        }),
        Seen::Ended {
            tick,
            arc,
            ord,
            size,
        } => {
            stops.insert(arc, Stop { ord, tick, size })?;
            Ok(())
        }
        _ => Ok(()),
    }
}

/// The mPackets of a trace, the last one first.
pub fn bars_of(alloc: Global, events: &[Seen]) -> Result<Items<Bar>, AllocError>
    ensures { IfOk result (λ found. found ≡ bars events.now) }
{
    let mut found = Items::new(alloc);
    let mut stops = BTreeMap::new(alloc);
    let mut at = events.len();
    while at > 0 {
        at -= 1;
        take(&mut found, &mut stops, &events[at])?;
    }
    Ok(found)
}
