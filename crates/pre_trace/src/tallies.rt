ghost use Rattle.std.specs.Prelude.{◌≡◌, ◌++◌, ◌∷◌, [], ℕ, List, IfOk, length, max, replicate};
ghost use Rattle.pre_history.specs.History.{History};
ghost use Rattle.pre_history.specs.Plain.{plain};
ghost use Rattle.pre_trace.specs.Figures.{most_closings};
ghost use Rattle.pre_trace.specs.Sums.{Sums, closed, no_closing, no_tally, noted, plain_closing};

use crate::Event;
use pre_base::{ArcId, FrameNo, Items, Tick};
use pre_script::Script;
use std::alloc::{AllocError, Global};

/// What is kept of a row: how many of its frames were delivered, and the most ticks from a send to its delivery.
#[derive(Clone, Copy, Debug)]
pub struct Tally {
    pub delivered: u64,
    pub greatest: u64,
}

/// An event of the end of a run, as it is kept.
#[derive(Clone, Copy, Debug)]
pub enum Closing {
    Count {
        arc: ArcId,
        err: u64,
        smd: u64,
        ok: u64,
        rx: u64,
        tx: u64,
    },
    Finish {
        until: Tick,
        sent: u64,
        delivered: u64,
        dropped: u64,
    },
}

/// As many events of the end as a run can have: a network has at most 256 arcs.
const MOST_CLOSINGS: usize = 257;

#[tactic(auto, using(crate::proofs::TakenUp::replicate_push))]
pub(crate) fn tallies_of(alloc: Global, count: usize) -> Result<Items<Tally>, AllocError>
    ensures { IfOk result (λ t. t ≡ replicate count no_tally) }
{
    let mut tallies = Items::new(alloc);
    for _turn in 0..count {
        tallies.push(Tally {
            delivered: 0,
            greatest: 0,
        })?;
    }
    Ok(tallies)
}

#[tactic(auto, using(crate::proofs::TakenUp::replicate_push))]
pub(crate) fn slots_of(alloc: Global) -> Result<Items<Closing>, AllocError>
    ensures { IfOk result (λ s. s ≡ replicate most_closings no_closing) }
{
    let mut slots = Items::new(alloc);
    for _turn in 0..MOST_CLOSINGS {
        slots.push(Closing::Finish {
            until: Tick(0),
            sent: 0,
            delivered: 0,
            dropped: 0,
        })?;
    }
    Ok(slots)
}

fn later(a: u64, b: u64) -> u64
    ensures { result ≡ max a b }
{
    if a < b { b } else { a }
}

/// Takes up a delivery.
fn note(script: &Script, tallies: &mut Items<Tally>, tick: Tick, frame: FrameNo)
    ensures rows { length tallies.new ≡ length tallies.old }
    ensures noted { tallies.new ≡ noted script.now tallies.old tick.0 frame.0 }
{
    let Some(line) = script.sends.as_slice().get(frame.0 as usize) else {
        return;
    };
    let at = line.send.stream.0 as usize;
    if at < tallies.len() {
        let tally = tallies.as_slice()[at];
        let delay = tick.0.saturating_sub(line.send.tick.0);
        tallies.set(
            at,
            Tally {
                delivered: tally.delivered.saturating_add(1),
                greatest: later(tally.greatest, delay),
            },
        );
    }
}

/// Takes up an event of the end, where there is room.
fn close(slots: &mut Items<Closing>, kept: &mut usize, closing: Closing)
    ensures { (slots.new, kept.new) ≡ closed slots.old kept.old closing }
{
    if *kept < slots.len() {
        slots.set(*kept, closing);
        *kept += 1;
    }
}

/// Takes up an event.
pub(crate) fn take_up(
    script: &Script,
    tallies: &mut Items<Tally>,
    slots: &mut Items<Closing>,
    kept: &mut usize,
    e: &Event,
)
    ensures rows { length tallies.new ≡ length tallies.old }
    ensures takes { (h : History) → Sums script.now tallies.old slots.old kept.old h → Sums script.now tallies.new slots.new kept.new (h ++ plain e.now ∷ []) }
{
    match *e {
        Event::Deliver { tick, frame, .. } => note(script, tallies, tick, frame),
        Event::Count {
            arc,
            err,
            smd,
            ok,
            rx,
            tx,
        } => close(
            slots,
            kept,
            Closing::Count {
                arc,
                err,
                smd,
                ok,
                rx,
                tx,
            },
        ),
        Event::Finish {
            until,
            sent,
            delivered,
            dropped,
        } => close(
            slots,
            kept,
            Closing::Finish {
                until,
                sent,
                delivered,
                dropped,
            },
        ),
        Event::Set { .. } => {}
        Event::Begin { .. } => {}
        Event::Ended { .. } => {}
        Event::Arrive { .. } => {}
        Event::Active { .. } => {}
        Event::Enter { .. } => {}
        Event::Dropped { .. } => {}
    }
}

/// The event again.
pub(crate) fn event_of(closing: Closing) -> Event<'static>
    ensures { plain result ≡ plain_closing closing }
{
    match closing {
        Closing::Count {
            arc,
            err,
            smd,
            ok,
            rx,
            tx,
        } => Event::Count {
            arc,
            err,
            smd,
            ok,
            rx,
            tx,
        },
        Closing::Finish {
            until,
            sent,
            delivered,
            dropped,
        } => Event::Finish {
            until,
            sent,
            delivered,
            dropped,
        },
    }
}
