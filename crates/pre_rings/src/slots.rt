ghost use Rattle.std.specs.Prelude.{◌≡◌, ℕ};

use pre_base::{FrameNo, Prio};
use std::marker::Model;

/// One place of a frame store, which contracts see as its number. Only a store makes slots, and none
/// can be copied.
#[derive(Debug, PartialEq, Eq, Drop)]
pub struct Slot {
    place: u16,
}

impl Model for Slot {
    ghost Value = { ℕ };

    ghost view = { λ s. s.place };

    ghost inverse = { λ n. record { place = n } };
}

impl Slot {
    pub(crate) fn at(place: u16) -> Slot
        ensures { result ≡ place }
    {
        Slot { place }
    }

    pub(crate) fn place(&self) -> u16
        ensures { result ≡ self.now }
    {
        self.place
    }
}

/// A frame that waits or is being sent: where its octets stand, and what a bridge has to know of it.
/// `size` counts octets, the check included, and `vid` is the VLAN identifier of its tag.
#[derive(Debug, PartialEq, Eq, Drop)]
pub struct FrameRef {
    pub slot: Slot,
    pub frame: FrameNo,
    pub size: u16,
    pub prio: Prio,
    pub vid: u16,
}
