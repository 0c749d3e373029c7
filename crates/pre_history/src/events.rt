use pre_base::{ArcId, FrameNo, NodeId, Prio, Tick};
use pre_mpacket::Kind;
use pre_script::Setting;

/// Whose octets an mPacket carries: a frame's, a link discovery frame's, or, as a verify or respond, none.
#[derive(Clone, Copy, Debug, PartialEq, Eq)]
pub enum What {
    Frame(FrameNo),
    Lldp,
    Nothing,
}

/// What came of an mPacket at the far end of its arc.
#[derive(Clone, Copy, Debug, PartialEq, Eq)]
pub enum Outcome {
    /// It never arrived.
    Lost,
    /// It gave a user frame.
    Frame,
    /// It gave a link discovery frame.
    Lldp,
    /// It gave a part of a frame, which is open now.
    Part,
    Verify,
    Respond,
    /// It arrived and gave nothing.
    Nothing,
}

/// One event of a run, as one line of a trace tells it. The fields are the words of the line.
#[derive(Clone, Copy, Debug)]
pub enum Event<'a> {
    /// The script changed the setting of an arc.
    Set {
        tick: Tick,
        arc: ArcId,
        value: Setting,
    },
    /// An mPacket began: number `ord` of its arc, with octets of `what` from place `from` on.
    Begin {
        tick: Tick,
        arc: ArcId,
        ord: u64,
        kind: Kind,
        what: What,
        from: u16,
    },
    /// Its last octet left: it had `size` octets of mData and check, and these check octets.
    Ended {
        tick: Tick,
        arc: ArcId,
        ord: u64,
        size: u16,
        check: [u8; 4],
    },
    /// It arrived, or would have.
    Arrive {
        tick: Tick,
        arc: ArcId,
        ord: u64,
        result: Outcome,
    },
    /// A frame came to its route's last node, with these octets.
    Deliver {
        tick: Tick,
        node: NodeId,
        frame: FrameNo,
        hex: &'a [u8],
    },
    /// An arc that negotiates became active, or ceased to be.
    Active {
        tick: Tick,
        arc: ArcId,
        value: bool,
    },
    /// A frame entered a ring.
    Enter {
        tick: Tick,
        arc: ArcId,
        prio: Prio,
        frame: FrameNo,
    },
    /// A frame met a full ring.
    Dropped {
        tick: Tick,
        arc: ArcId,
        prio: Prio,
        frame: FrameNo,
    },
    /// The receive and transmit counters of an arc at the end of a run (IEEE 802.3, 30.14.1): frame assembly
    /// errors, SMD errors, frames assembled, fragments received and fragments sent.
    Count {
        arc: ArcId,
        err: u64,
        smd: u64,
        ok: u64,
        rx: u64,
        tx: u64,
    },
    /// The end of a run.
    Finish {
        until: Tick,
        sent: u64,
        delivered: u64,
        dropped: u64,
    },
}
