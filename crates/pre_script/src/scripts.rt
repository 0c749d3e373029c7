use pre_base::{ArcId, Items, Send, Tick};

/// What is sent in a run up to the tick `until`, and what befalls its links.
#[derive(Debug, Drop)]
pub struct Script {
    pub sends: Items<SendLine>,
    pub sets: Items<SetLine>,
    pub losses: Items<Loss>,
    pub damages: Items<Damage>,
    pub until: Tick,
}

/// A send, and the line of the script that asks for it, counted from 1.
#[derive(Clone, Copy, Debug, PartialEq, Eq)]
pub struct SendLine {
    pub send: Send,
    pub line: u64,
}

/// From the tick on the arc's sender has preemption switched on or off, or isn't there.
#[derive(Clone, Copy, Debug, PartialEq, Eq)]
pub struct SetLine {
    pub tick: Tick,
    pub arc: ArcId,
    pub value: Setting,
}

/// What the sender of an arc that negotiates is set to.
#[derive(Clone, Copy, Debug, PartialEq, Eq)]
pub enum Setting {
    On,
    Off,
    Gone,
}

/// This mPacket of the arc, counted from 0, never arrives (IEEE 802.3, clause 99).
#[derive(Clone, Copy, Debug, PartialEq, Eq)]
pub struct Loss {
    pub arc: ArcId,
    pub ordinal: u64,
}

/// The octets of this mPacket of the arc, counted from 0, are changed from `offset` on, its SMD being octet 0:
/// each is XORed with one of `octets`.
#[derive(Debug, Drop)]
pub struct Damage {
    pub arc: ArcId,
    pub ordinal: u64,
    pub offset: u64,
    pub octets: Items<u8>,
}

/// Why a script can't be read.
#[derive(Clone, Copy, Debug, PartialEq, Eq)]
pub enum ScriptFault {
    /// The line breaks a rule: 1 words, 2 number, 3 name, 4 order of ticks, 5 size, 6 mode, 7 no end, 8 after the end,
    /// 9 count of lines, 10 horizon.
    Fault { line: u64, rule: u8 },
    /// There isn't enough memory.
    Memory,
}
