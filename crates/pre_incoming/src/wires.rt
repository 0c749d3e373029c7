ghost use Rattle.std.specs.Prelude.{◌≡◌, ◌<◌, ◌≤◌, ◌^◌, ℕ, [], ◌∷◌, ◌++◌, IfOk, MatchOption, length, take};
ghost use Rattle.pre_base.specs.declared.limits.TheConstants.{GREATEST_PACKET};
ghost use Rattle.pre_incoming.specs.Flights.{HasRoom, IsWhole, TakesOctets, on_wire, with_octets};
ghost use Rattle.pre_incoming.specs.Arriving.{IsNextDue};

use circular_buffer::HeapCircularBuffer;
use pre_base::{GREATEST_PACKET, Tick};
use pre_history::What;
use pre_mpacket::Kind;
use std::alloc::{AllocError, Global};

/// Octet times that the shortest mPacket takes on an arc, with its preamble and gap.
const SHORTEST: u64 = 84;

/// An mPacket on the wire of an arc, whose octets stand in the wire.
#[derive(Clone, Copy, Debug, PartialEq, Eq)]
pub struct Flight {
    /// Its number on the arc, counted from 0.
    pub ord: u64,
    pub kind: Kind,
    pub what: What,
    /// Whether it has the last octets of what it carries octets of.
    pub is_last: bool,
    /// The tick at which it arrives.
    pub due: Tick,
    /// How many octets it has, from the preamble to the check.
    pub size: u16,
}

/// The mPackets on the wire of an arc, in order, and their octets, one behind another.
#[derive(Drop)]
pub struct Wire {
    flights: HeapCircularBuffer<Flight>,
    octets: HeapCircularBuffer<u8>,
}

impl Wire {
    /// A wire with nothing on it, with the room that it ever needs at this delay, in ticks, and these ticks for an octet.
    pub(crate) fn make(alloc: Global, delay: u64, cost: u64) -> Result<Wire, AllocError>
        requires cost { (1 ≤ cost) × (cost ≤ 1000) }
        requires delay { delay ≤ 10 ^ 9 }
        ensures { IfOk result (λ x. (on_wire x ≡ []) × IsWhole x × HasRoom delay cost x) }
    {
        let octets = delay / cost + GREATEST_PACKET;
        let flights = delay / (SHORTEST * cost) + 1;
        Ok(Wire {
            flights: HeapCircularBuffer::with_capacity(alloc, flights as usize)?,
            octets: HeapCircularBuffer::with_capacity(alloc, octets as usize)?,
        })
    }

    /// Puts an mPacket with its octets behind the others.
    pub(crate) fn push(&mut self, flight: Flight, octets: &[u8])
        requires size { flight.size ≡ length octets.now }
        requires room { TakesOctets self.old (length octets.now) }
        ensures longer { IsWhole self.old → (on_wire self.new ≡ on_wire self.old ++ with_octets flight octets.now ∷ []) × IsWhole self.new }
        ensures room { (delay cost : ℕ) → HasRoom delay cost self.old → HasRoom delay cost self.new }
    {
        self.octets.extend_from_slice(octets);
        self.flights.push_back(flight);
    }

    /// The tick at which the first mPacket is due, None exactly where there is none.
    pub(crate) fn due(&self) -> Option<Tick>
        ensures { MatchOption result (on_wire self.now ≡ []) (λ due. IsNextDue due.0 (on_wire self.now)) }
    {
        match self.flights.front() {
            Some(flight) => Some(flight.due),
            None => None,
        }
    }

    /// Takes the first mPacket off the wire, which has one: its octets stand at the front of `into`.
    pub(crate) fn take_first(&mut self, into: &mut [u8; GREATEST_PACKET as usize]) -> Flight
        requires some { 0 < length self.old.flights.items }
        ensures first { IsWhole self.old → (result.size ≤ GREATEST_PACKET) × (on_wire self.old ≡ with_octets result (take result.size into.new) ∷ on_wire self.new) × IsWhole self.new }
        ensures room { (delay cost : ℕ) → HasRoom delay cost self.old → HasRoom delay cost self.new }
    {
        let Some(flight) = self.flights.pop_front() else {
            unreachable!()
        };
        let size = usize::from(flight.size).min(into.len());
        self.octets.read_into(&mut into[..size]);
        flight
    }
}
