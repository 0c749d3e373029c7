ghost use Rattle.std.specs.Prelude.{◌≡◌, ◌<◌};

use std::marker::Model;

/// A moment of the network's one clock, counted from 0.
#[derive(Clone, Copy, Debug, PartialEq, Eq, PartialOrd, Ord, Hash)]
pub struct Tick(pub u64);

/// One direction of a link, by its place in the network.
#[derive(Clone, Copy, Debug, PartialEq, Eq, PartialOrd, Ord, Hash)]
pub struct ArcId(pub u16);

/// A station or bridge, by its place in the network.
#[derive(Clone, Copy, Debug, PartialEq, Eq, PartialOrd, Ord, Hash)]
pub struct NodeId(pub u16);

/// An express stream or a preemptable flow, by its place among the rows, streams first.
#[derive(Clone, Copy, Debug, PartialEq, Eq, PartialOrd, Ord, Hash)]
pub struct StreamId(pub u16);

/// A frame, by the place of its send in the script.
#[derive(Clone, Copy, Debug, PartialEq, Eq, PartialOrd, Ord, Hash)]
pub struct FrameNo(pub u32);

/// A priority (802.1Q, priority code point) of 0 to 7, which contracts see as that number.
#[derive(Clone, Copy, Debug, PartialEq, Eq, PartialOrd, Ord, Hash)]
pub struct Prio(pub u8);

impl Model for Prio {
    ghost use Rattle.std.specs.Prelude.{ℕ, ◌<◌};

    ghost Value = { ℕ };

    ghost view = { λ p. p.0 };

    ghost invariant = { λ p. p.0 < 8 };

    ghost inverse = { λ n. record { 0 = n } };
}

impl Prio {
    /// The priority as a number.
    pub fn number(self) -> u8
        ensures value { result ≡ self }
        ensures within { result < 8 }
    {
        self.0
    }
}

/// One send of a script: a frame of `size` octets, check included, of a stream or flow.
#[derive(Clone, Copy, Debug, PartialEq, Eq)]
pub struct Send {
    pub tick: Tick,
    pub stream: StreamId,
    pub size: u16,
}

/// The target is too short.
#[derive(Clone, Copy, Debug, PartialEq, Eq)]
pub struct Room;

/// A place in a network or stream file, rows counted from 0.
#[derive(Clone, Copy, Debug, PartialEq, Eq)]
pub enum FileRow {
    Top,
    Timing,
    Node(u64),
    Link(u64),
    Stream(u64),
    Flow(u64),
}
