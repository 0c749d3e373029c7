ghost use Rattle.std.specs.Prelude.{◌≡◌, ℕ, ◌<◌, ◌≤◌, ◌↔◌, [], ◌∷◌, ◌++◌, IsErr, IfErr, IfOk, OnOk, IfSome};
ghost use Rattle.std.specs.Prelude.{IfNone, length, drop, replicate, slice_get, slice_set, option_copied};
ghost use Rattle.pre_rings.specs.Ports.{Port, IsPort, frames_at, capacity_at, with_frames};

use crate::slots::FrameRef;
use circular_buffer::HeapCircularBuffer;
use pre_base::Prio;
use std::alloc::{AllocError, Global};
use std::marker::Model;

/// The eight rings of a port, one for each priority. Contracts see eight lists of frames, the front one
/// first, and their capacities.
#[derive(Drop)]
pub struct PortRings {
    rings: Vec<HeapCircularBuffer<FrameRef>>,
}

impl Model for PortRings {
    ghost use Rattle.std.specs.Prelude.{◌≡◌, length};
    ghost use Rattle.pre_rings.specs.Ports.{Port, port_of};

    ghost Value = { Port };

    ghost view = { λ p. port_of p.rings.items };

    ghost invariant = { λ p. length p.rings.items ≡ 8 };
}

impl PortRings {
    /// Eight empty rings, with these capacities. No other call takes memory.
    pub fn make(alloc: Global, caps: [u16; 8]) -> Result<PortRings, AllocError>
        ensures { IfOk result (λ port. port ≡ record { frames = replicate 8 []; capacities = caps }) }
    {
        let mut rings = Vec::with_capacity(alloc, caps.len())?;
        for cap in caps {
            rings.push(HeapCircularBuffer::with_capacity(alloc, usize::from(cap))?)?;
        }
        Ok(PortRings { rings })
    }

    /// Puts a frame behind the others of its priority's ring; hands it back exactly where that ring
    /// holds its capacity.
    pub fn enter(&mut self, prio: Prio, frame: FrameRef) -> Result<(), FrameRef>
        ensures eight { IsPort self.old }
        ensures full { IsErr result ↔ (capacity_at self.old prio ≤ length (frames_at self.old prio)) }
        ensures entered { OnOk result (self.new ≡ with_frames self.old prio (frames_at self.old prio ++ frame ∷ [])) }
        ensures refused { IfErr result (λ back. (back ≡ frame) × (self.new ≡ self.old)) }
    {
        self.rings[usize::from(prio.number())].try_push_back(frame)
    }

    /// The front frame of a priority's ring; `None` exactly where the ring is empty.
    pub fn front(&self, prio: Prio) -> Option<&FrameRef>
        ensures eight { IsPort self.now }
        ensures front { option_copied result ≡ slice_get (frames_at self.now prio) 0 }
    {
        self.rings[usize::from(prio.number())].front()
    }

    /// Takes the front frame of a priority's ring; `None` exactly where the ring is empty.
    pub fn leave(&mut self, prio: Prio) -> Option<FrameRef>
        ensures eight { IsPort self.old }
        ensures front { result ≡ slice_get (frames_at self.old prio) 0 }
        ensures rest { self.new ≡ with_frames self.old prio (drop 1 (frames_at self.old prio)) }
    {
        self.rings[usize::from(prio.number())].pop_front()
    }

    /// The greatest priority from `low` to `high` whose ring has a frame; `None` exactly where all these
    /// rings are empty.
    pub fn highest(&self, low: Prio, high: Prio) -> Option<Prio>
        ensures eight { IsPort self.now }
        ensures within { IfSome result (λ prio. (low ≤ prio) × (prio ≤ high)) }
        ensures waits { IfSome result (λ prio. 0 < length (frames_at self.now prio)) }
        ensures greatest { IfSome result (λ prio. (q : ℕ) → prio < q → q ≤ high → frames_at self.now q ≡ []) }
        ensures none { IfNone result ((q : ℕ) → low ≤ q → q ≤ high → frames_at self.now q ≡ []) }
    {
        for number in (low.number()..high.number() + 1).rev() {
            if !self.rings[usize::from(number)].is_empty() {
                return Some(Prio(number));
            }
        }
        None
    }
}
