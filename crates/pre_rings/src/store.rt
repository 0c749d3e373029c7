ghost use Rattle.std.specs.Prelude.{◌≡◌, ◌+◌, ◌≤◌, ◌++◌, [], take, drop, All, IsSome, IfSome, IfNone, IfOk, None, Some, length, replicate, slice_get, slice_set};
ghost use Rattle.std.specs.Vec.{vec_capacity};
ghost use Rattle.pre_base.specs.declared.limits.TheConstants.{GREATEST_FRAME};
ghost use Rattle.pre_rings.specs.Stores.{IsOut};
ghost use Rattle.pre_rings.specs.Slots.{IsFull};

use crate::slots::Slot;
use pre_base::GREATEST_FRAME;
use std::alloc::{AllocError, Global};
use std::marker::Model;

/// How many octets a slot has room for.
const WIDTH: usize = GREATEST_FRAME as usize;

/// A store of as many slots as it was made with. Contracts see it as a list with an entry for each
/// slot: `None` while the slot is in, and while it is out the octets that it was last filled with.
#[derive(Debug, Drop)]
pub struct FrameStore {
    octets: Vec<u8>,
    sizes: Vec<Option<u16>>,
    free: Vec<Slot>,
}

impl Model for FrameStore {
    ghost use Rattle.std.specs.Prelude.{ℕ, List, Option};
    ghost use Rattle.std.specs.Vec.{vec_capacity};
    ghost use Rattle.pre_base.specs.declared.limits.TheConstants.{GREATEST_FRAME};
    ghost use Rattle.pre_rings.specs.Slots.{slots_of, IsKept};

    ghost Value = { List (Option (List ℕ)) };

    ghost view = { λ s. slots_of GREATEST_FRAME s.sizes.items s.octets.items };

    ghost invariant = { λ s. IsKept GREATEST_FRAME s.sizes.items s.octets.items s.free.items (vec_capacity s.free) };
}

impl FrameStore {
    /// A store with every slot in. No other call takes memory.
    pub fn make(alloc: Global, slots: u16) -> Result<FrameStore, AllocError>
        ensures { IfOk result (λ store. store ≡ replicate slots None) }
    {
        let count = usize::from(slots);
        let octets = vec![in alloc; 0; WIDTH * count]?;
        let sizes = vec![in alloc; None; count]?;
        let free = free_list(alloc, slots)?;
        Ok(FrameStore {
            octets,
            sizes,
            free,
        })
    }

    /// Takes out a slot that is in, which then holds no octets; `None` exactly where all slots are out.
    pub fn take_slot(&mut self) -> Option<Slot>
        ensures was_in { IfSome result (λ slot. slice_get self.old slot ≡ Some None) }
        ensures taken { IfSome result (λ slot. self.new ≡ slice_set self.old slot (Some [])) }
        ensures all_out { IfNone result (All (λ entry. IsSome entry) self.old) }
        ensures same { IfNone result (self.new ≡ self.old) }
    {
        let slot = self.free.pop()?;
        self.sizes[usize::from(slot.place())] = Some(0);
        Some(slot)
    }

    /// Puts octets into a slot, in place of what it held.
    pub fn fill(&mut self, slot: &Slot, octets: &[u8])
        requires out { IsOut self.old slot.now }
        requires size { length octets.now ≤ GREATEST_FRAME }
        ensures { self.new ≡ slice_set self.old slot.now (Some octets.now) }
    {
        let place = usize::from(slot.place());
        let start = place * WIDTH;
        put_part(&mut self.octets, start, octets);
        self.sizes[place] = Some(octets.len() as u16);
    }

    /// The octets that a slot was last filled with.
    pub fn octets(&self, slot: &Slot) -> &[u8]
        requires { IsOut self.now slot.now }
        ensures { slice_get self.now slot.now ≡ Some (Some result.now) }
    {
        let place = usize::from(slot.place());
        let start = place * WIDTH;
        let size = usize::from(self.sizes[place].unwrap_or(0));
        part_of(&self.octets, start, size)
    }

    /// Puts a slot in again.
    pub fn give_back(&mut self, slot: Slot)
        requires { IsOut self.old slot }
        ensures { self.new ≡ slice_set self.old slot None }
    {
        self.sizes[usize::from(slot.place())] = None;
        self.free.push(slot).unwrap();
    }
}

/// Each slot once.
fn free_list(alloc: Global, slots: u16) -> Result<Vec<Slot>, AllocError>
    ensures once { IfOk result (λ free. IsFull slots free.items) }
    ensures capacity { IfOk result (λ free. slots ≤ vec_capacity free) }
{
    let mut free = Vec::with_capacity(alloc, usize::from(slots))?;
    for place in 0..slots {
        free.push(Slot::at(place))?;
    }
    Ok(free)
}

/// Writes octets into a region from a place on.
fn put_part(region: &mut [u8], start: usize, octets: &[u8])
    requires { start + length octets.now ≤ length region.old }
    ensures { region.new ≡ take start region.old ++ (octets.now ++ drop (start + length octets.now) region.old) }
{
    region[start..start + octets.len()].copy_from_slice(octets);
}

/// So many octets of a region from a place on.
fn part_of(region: &[u8], start: usize, size: usize) -> &[u8]
    requires { start + size ≤ length region.now }
    ensures { result.now ≡ take size (drop start region.now) }
{
    &region[start..start + size]
}
