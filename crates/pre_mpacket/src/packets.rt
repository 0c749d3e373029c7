/// What an mPacket carries, as its start mPacket delimiter (SMD) tells.
#[derive(Clone, Copy, Debug, PartialEq, Eq)]
pub enum Kind {
    /// A whole frame that is sent in one piece.
    Express,
    /// A preemptable frame or its first fragment, with the frame count of 0 to 3.
    Start(u8),
    /// A further fragment, with the frame count and then the fragment count, each of 0 to 3.
    Continue(u8, u8),
    /// A question to the other end whether it takes fragments.
    Verify,
    /// The answer to a verify.
    Respond,
}

/// An mPacket: its kind, its mData of at least 60 octets and its four check octets.
#[derive(Clone, Copy, Debug, PartialEq, Eq)]
pub struct MPacket<'a> {
    pub kind: Kind,
    pub mdata: &'a [u8],
    pub check: &'a [u8],
}

/// An octet of the preamble.
pub(crate) const PREAMBLE: u8 = 0x55;

/// The SMD of an express mPacket, a verify and a respond.
pub(crate) const EXPRESS: u8 = 0xD5;

pub(crate) const VERIFY: u8 = 0x07;

pub(crate) const RESPOND: u8 = 0x19;

/// The SMD of a start and of a continuation, by frame count.
pub(crate) const START: [u8; 4] = [0xE6, 0x4C, 0x7F, 0xB3];

pub(crate) const CONTINUE: [u8; 4] = [0x61, 0x52, 0x9E, 0x2A];

/// The octet of each fragment count.
pub(crate) const FRAGMENT: [u8; 4] = [0xE6, 0x4C, 0x7F, 0xB3];

/// The octets before the mData: preamble, SMD, and the fragment count of a continuation.
pub(crate) const HEAD: usize = pre_base::HEAD as usize;

/// The octets of a check.
pub(crate) const CHECK: usize = pre_base::CHECK as usize;
