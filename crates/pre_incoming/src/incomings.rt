ghost use Rattle.std.specs.Prelude.{◌≡◌, ◌+◌, ◌<◌, ◌^◌, ℕ, List, [], ◌∷◌, ◌++◌, ◌≤◌, length, IfOk, IfSome, MatchOption, take};
ghost use Rattle.pre_mpacket.specs.Counters.{CountersOf};
ghost use Rattle.pre_history.specs.Scenario.{Scenario, arc};
ghost use Rattle.pre_history.specs.History.{Ended, History, PlainEvent};
ghost use Rattle.pre_history.specs.Queries.{Arrivals};
ghost use Rattle.pre_history.specs.Octets.{Air};
ghost use Rattle.pre_history.specs.Moments.{Phase};
ghost use Rattle.pre_history.specs.Placed.{moment_of};
ghost use Rattle.pre_history.specs.Legal.{LegalBefore, LegalUpTo};
ghost use Rattle.pre_laws.specs.Routed.{IsRouted};
ghost use Rattle.pre_incoming.specs.Flights.{HasRoom, IsWhole, TakesOctets, on_wire, with_octets};
ghost use Rattle.pre_incoming.specs.Inputs.{HasFrames, scenario_of};
ghost use Rattle.pre_incoming.specs.Wires.{IsOnWire, Receives};
ghost use Rattle.pre_incoming.specs.Arriving.{Comes, ComesOff, HasFront, IsNextDue};
ghost use Rattle.pre_incoming.specs.Landings.{HoldsFrame, Lands};

use crate::changes::{damage, is_lost, smd_place};
use crate::frames::{Inputs, put_expected};
use crate::judging::judged;
use crate::landings::{Landed, Landing};
use crate::wires::{Flight, Wire};
use pre_base::{ArcId, GREATEST_FRAME, GREATEST_PACKET, Tick};
use pre_receive::{Counters, Receiver, lost_arrivals};
use std::alloc::{AllocError, Global};

/// The receiving end of an arc: the mPackets on the wire, in order, and the receiver.
#[derive(Drop)]
pub struct Incoming {
    wire: Wire,
    receiver: Receiver,
}

impl Incoming {
    /// Nothing is on the wire, and nothing has arrived. There is room for all that leaves within the delay, in ticks, at these
    /// ticks for an octet.
    pub fn make(alloc: Global, delay: u64, cost: u64) -> Result<Incoming, AllocError>
        requires cost { (1 ≤ cost) × (cost ≤ 1000) }
        requires delay { delay ≤ 10 ^ 9 }
        ensures { IfOk result (λ x. (w : Scenario) (a : ℕ) → (arc w a).delay ≡ delay → (arc w a).cost ≡ cost → Receives w [] a x) }
    {
        Ok(Incoming {
            wire: Wire::make(alloc, delay, cost)?,
            receiver: Receiver::make(alloc)?,
        })
    }

    /// Puts an mPacket on the wire at its end, with its octets, behind the others.
    pub fn push(&mut self, flight: Flight, octets: &[u8])
        requires size { flight.size ≡ length octets.now }
        requires room { TakesOctets self.old.wire (length octets.now) }
        ensures { (w : Scenario) (h : History) (a : ℕ) (e : Ended) → a < length w.net.arcs → e.arc ≡ a
            → LegalUpTo w (moment_of w e.tick (Phase.ends a)) h → IsOnWire w h a (with_octets flight octets.now) e → Receives w h a self.old
            → Receives w (h ++ PlainEvent.ended e ∷ []) a self.new }
    {
        self.wire.push(flight, octets);
    }

    /// Takes the mPacket that is due at the end of this arc, if there is one: it is lost or damaged as the script says, and what
    /// it gives is compared with what was sent. A frame that it gives stands at the front of `into`.
    pub fn land(
        &mut self,
        inputs: &Inputs,
        now: Tick,
        arc: ArcId,
        into: &mut [u8; GREATEST_FRAME as usize],
    ) -> Option<Landing>
        requires { HasFrames (scenario_of inputs.now) }
        ensures lands { IsRouted (scenario_of inputs.now) → (h : History) → arc.0 < length inputs.now.net.now.arcs
            → LegalBefore (scenario_of inputs.now) h (moment_of (scenario_of inputs.now) now.0 (Phase.arrivals arc.0))
            → Receives (scenario_of inputs.now) h arc.0 self.old → Lands (scenario_of inputs.now) h now.0 arc.0 result into.new self.new }
        ensures frame { IfSome result (λ x. HoldsFrame (scenario_of inputs.now) x.size into.new x.given) }
    {
        lost_arrivals();
        let Some(due) = self.wire.due() else {
            return None;
        };
        if due != now {
            return None;
        }
        Some(self.land_first(inputs, arc, into))
    }

    /// What was counted of the arrivals so far.
    pub fn counters(&self) -> Counters
        ensures { (w : Scenario) (h : History) (a n : ℕ) → a < length w.net.arcs → LegalUpTo w n h → length (Arrivals h a) < 2 ^ 64 → Receives w h a self.now
            → CountersOf (Air w h a) (length (Arrivals h a)) result.frame_ass_error result.frame_smd_error result.frame_ass_ok result.frag_count_rx }
    {
        self.receiver.counters()
    }

    /// The tick at which the next mPacket on the wire is due, None exactly where there is none.
    pub fn due(&self) -> Option<Tick>
        ensures { MatchOption result (on_wire self.now.wire ≡ []) (λ due. IsNextDue due.0 (on_wire self.now.wire)) }
    {
        self.wire.due()
    }

    /// Takes the first mPacket off the wire, which has one, and answers what it comes to at the end of the arc.
    fn land_first(
        &mut self,
        inputs: &Inputs,
        arc: ArcId,
        into: &mut [u8; GREATEST_FRAME as usize],
    ) -> Landing
        requires frames { HasFrames (scenario_of inputs.now) }
        requires some { 0 < length self.old.wire.flights.items }
        ensures comes { IsWhole self.old.wire → ComesOff (scenario_of inputs.now) arc.0 self.old self.new result (take result.size into.new) }
        ensures room { (delay cost : ℕ) → HasRoom delay cost self.old.wire → HasRoom delay cost self.new.wire }
        ensures frame { HoldsFrame (scenario_of inputs.now) result.size into.new result.given }
    {
        let mut octets = [0u8; GREATEST_PACKET as usize];
        let flight = self.wire.take_first(&mut octets);
        let size = usize::from(flight.size).min(octets.len());
        received(
            &mut self.receiver,
            inputs,
            arc,
            flight,
            &mut octets[..size],
            into,
        )
    }
}

/// What an mPacket with these octets comes to at the end of an arc; it is damaged in place.
fn received(
    receiver: &mut Receiver,
    inputs: &Inputs,
    arc: ArcId,
    flight: Flight,
    octets: &mut [u8],
    into: &mut [u8; GREATEST_FRAME as usize],
) -> Landing
    requires { HasFrames (scenario_of inputs.now) }
    ensures ord { result.ord ≡ flight.ord }
    ensures comes { Comes (scenario_of inputs.now) arc.0 (with_octets flight octets.old) receiver.old receiver.new result.given }
    ensures front { HasFront (scenario_of inputs.now) arc.0 (with_octets flight octets.old) (take result.size into.new) result.given }
    ensures frame { HoldsFrame (scenario_of inputs.now) result.size into.new result.given }
{
    if is_lost(inputs.script, arc, flight.ord) {
        return Landing {
            ord: flight.ord,
            given: Landed::Lost,
            size: 0,
        };
    }
    let expected = put_expected(inputs, flight, octets, into);
    damage(
        inputs.script,
        arc,
        flight.ord,
        smd_place(flight.kind),
        octets,
    );
    let taken = receiver.take(octets);
    Landing {
        ord: flight.ord,
        given: judged(flight.kind, flight.what, taken, expected, into),
        size: expected.unwrap_or(0),
    }
}
