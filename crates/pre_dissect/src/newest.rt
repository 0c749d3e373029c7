use pre_base::Tick;
use pre_history::What;
use pre_mpacket::Kind;

/// How the newest mPacket of an arc began: its number, its kind, whose octets it carries and from which place on.
#[derive(Clone, Copy, Debug)]
pub(crate) struct Newest {
    pub ord: u64,
    pub kind: Kind,
    pub what: What,
    pub from: u16,
}

/// How an mPacket ended: when, with how many octets of mData and check, and with which check.
#[derive(Clone, Copy, Debug)]
pub(crate) struct Ending {
    pub tick: Tick,
    pub size: u16,
    pub check: [u8; 4],
}
