ghost use Rattle.std.specs.Prelude.{◌≡◌, ◌<◌, ◌≤◌, ◌^◌, length, ◌↔◌, ◌++◌, ◌∷◌, [], ℕ, List, Ok};
ghost use Rattle.pre_text.specs.Lines.{lines_of};
ghost use Rattle.pre_topo.specs.declared.network.Network.{Network};
ghost use Rattle.pre_history.specs.History.{History, PlainEvent};
ghost use Rattle.pre_history.specs.Names.{IsOf};
ghost use Rattle.pre_history.specs.Plain.{plain, IsEvent};
ghost use Rattle.pre_history.specs.Written.{AreWritten};
ghost use Rattle.pre_history.specs.Scenario.{Scenario};
ghost use Rattle.pre_history.specs.Legal.{Legal};
ghost use Rattle.pre_trace.specs.Text.{line, text};
ghost use Rattle.pre_trace.specs.Figures.{closings, most_closings};
ghost use Rattle.pre_trace.specs.Saying.{event_of};
ghost use Rattle.pre_trace.specs.Reading.{Fits, FitsWhat, Tells};

use crate::{Event, What, events_are_written, events_before_their_end};
use pre_base::{FrameNo, Prio};
use pre_topo::Network;

/// A text tells one history, of those that can be told over the network.
pub fn one_told_history()
    ensures { (net : Network) (g h : History) → AreWritten net g → AreWritten net h → text net g ≡ text net h → g ≡ h }
{
    pre_text::one_reading();
    pre_text::numbers_read_back();
    pre_text::pairs_read_back();
}

/// Exactly the lines of events are read, each as the event that it tells.
pub fn lines_tell_events()
    ensures { (net : Network) (octets : List ℕ) (e : PlainEvent) → (event_of net octets ≡ Ok e) ↔ Tells net octets e }
{}

/// A priority is one of eight.
fn prio_fits(prio: Prio)
    ensures { prio < 8 }
{
    let _number = prio.number();
}

fn frame_fits(frame: FrameNo)
    ensures { frame.0 < 2 ^ 32 }
{}

fn what_fits(what: What)
    ensures { FitsWhat what }
{}

fn field_fits(number: u16)
    ensures { number < 2 ^ 16 }
{}

fn check_fits(check: [u8; 4])
    ensures { length check ≡ 4 }
{}

/// The numbers of an event fit the fields of one.
fn events_fit(event: &Event)
    ensures { Fits (plain event.now) }
{
    match *event {
        Event::Begin { what, from, .. } => {
            what_fits(what);
            field_fits(from);
        }
        Event::Ended { size, check, .. } => {
            field_fits(size);
            check_fits(check);
        }
        Event::Deliver { frame, .. } => frame_fits(frame),
        Event::Enter { prio, frame, .. } => {
            prio_fits(prio);
            frame_fits(frame);
        }
        Event::Dropped { prio, frame, .. } => {
            prio_fits(prio);
            frame_fits(frame);
        }
        Event::Set { .. } => {}
        Event::Arrive { .. } => {}
        Event::Active { .. } => {}
        Event::Count { .. } => {}
        Event::Finish { .. } => {}
    }
}

/// The line that is written for an event is the first line of a text that begins with it, and is read as that event.
pub fn event_reads_back(net: &Network, event: &Event)
    requires kind { IsEvent (plain event.now) }
    requires known { IsOf net.now (plain event.now) }
    ensures { (rest : List ℕ) → (octets : List ℕ) × (lines_of (line net.now (plain event.now) ++ rest) ≡ octets ∷ lines_of rest)
        × (line net.now (plain event.now) ≡ octets ++ 10 ∷ []) × (event_of net.now octets ≡ Ok (plain event.now)) }
{
    events_are_written(net, event);
    events_fit(event);
}

/// A legal history has at most 257 events of the end: a network has at most 256 arcs, and each has one line of counters at most.
pub fn closings_are_few()
    ensures { (w : Scenario) (h : History) → Legal w h → length (closings h) ≤ most_closings }
{
    events_before_their_end();
}
