ghost use Rattle.std.specs.Prelude.{◌≡◌, ◌∷◌, ℕ, List, IfOk, OnOk};
ghost use Rattle.pre_picture.specs.declared.traces.Seen as of_seen;
ghost use Rattle.pre_picture.specs.Delays.{Knows, delay_at, greatest_delay, is_of};

use crate::traces::Seen;
use pre_streams::Row;
use std::alloc::{AllocError, Global};
use std::collections::BTreeMap;

/// When a frame was sent, on which arc, and with which priority.
#[derive(Clone, Copy, Debug)]
pub struct Entry {
    pub tick: u64,
    pub arc: u16,
    pub prio: u8,
}

/// The events of a trace, and where and when each of its frames was sent.
#[derive(Drop)]
pub struct Sent<'a> {
    pub events: &'a [Seen],
    pub first: BTreeMap<u32, Entry>,
    pub ghost knows: { Knows first events.now },
}

// Takes the event before those whose entries are known.
fn take(first: &mut BTreeMap<u32, Entry>, seen: &Seen) -> Result<(), AllocError>
    ensures { OnOk result ((events : List of_seen.Seen) → Knows first.old events → Knows first.new (seen.now ∷ events)) }
{
    if let Seen::Enter {
        tick,
        arc,
        prio,
        frame,
    } = *seen
    {
        first.insert(frame, Entry { tick, arc, prio })?;
    }
    Ok(())
}

fn entries(alloc: Global, events: &[Seen]) -> Result<BTreeMap<u32, Entry>, AllocError>
    ensures { IfOk result (λ first. Knows first events.now) }
{
    let mut first = BTreeMap::new(alloc);
    let mut at = events.len();
    while at > 0 {
        at -= 1;
        take(&mut first, &events[at])?;
    }
    Ok(first)
}

fn vid_of(row: &Row) -> u16
    ensures { result ≡ row.now.vid }
{
    row.vid
}

fn is_of(row: &Row, entry: &Entry, control: u16) -> bool
    ensures { result ≡ is_of row.now entry.now control }
{
    let starts = match row.arcs.as_slice().first() {
        Some(arc) => arc.0 == entry.arc,
        None => false,
    };
    starts && u64::from(control) == u64::from(row.prio.number()) * 8192 + u64::from(vid_of(row))
}

impl<'a> Sent<'a> {
    /// Finds where and when each frame was sent.
    pub fn of(alloc: Global, events: &'a [Seen]) -> Result<Sent<'a>, AllocError>
        ensures { IfOk result (λ sent. sent.events.now ≡ events.now) }
    {
        let first = entries(alloc, events)?;
        Ok(Sent { events, first })
    }

    /// How long a frame was on its way, where this is the delivery of one of the row.
    pub fn delay_at(&self, row: &Row, seen: &Seen) -> Option<u64>
        ensures { result ≡ delay_at self.now.events.now row.now seen.now }
    {
        match *seen {
            Seen::Deliver {
                tick,
                frame,
                control,
            } => match self.first.get(&frame) {
                Some(entry) if is_of(row, entry, control) => Some(tick.saturating_sub(entry.tick)),
                _ => None,
            },
            _ => None,
        }
    }

    /// The longest that a frame of the row was on its way, and 0 where none was delivered.
    pub fn greatest_delay(&self, row: &Row) -> u64
        ensures { result ≡ greatest_delay self.now.events.now row.now }
    {
        let mut most = 0;
        for seen in self.events {
            if let Some(delay) = self.delay_at(row, seen) {
                most = delay.max(most);
            }
        }
        most
    }
}
