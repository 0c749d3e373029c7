ghost use Rattle.std.specs.Prelude.{◌≡◌, ◌<◌, Contains, MatchOption, IfOk, IfErr, IsOkAnd, IsErrOf, slice_index};
ghost use Rattle.pre_mpacket.specs.Spelling.{PlainPacket, plain, Spells, IsFirstFault, IsKindAt};

use crate::packets::{
    CHECK, CONTINUE, EXPRESS, FRAGMENT, HEAD, Kind, MPacket, PREAMBLE, RESPOND, START, VERIFY,
};
use thiserror::Error;

/// Why octets, counted from 0, are no mPacket.
#[derive(Clone, Copy, Debug, PartialEq, Eq, Error)]
pub enum MFault {
    /// Octet 6 or 7, where the start mPacket delimiter (SMD) stands, is none.
    #[error("no start mPacket delimiter")]
    Smd,
    /// Octet 7 of a continuation is no fragment count.
    #[error("no fragment count")]
    Fragment,
    /// There are fewer than 72 octets.
    #[error("fewer than 72 octets")]
    Short,
    /// One of the first six octets isn't 0x55.
    #[error("no preamble")]
    Preamble,
}

/// The least octets of an mPacket.
const SHORTEST: usize = 72;

/// Reads an mPacket from its preamble on (IEEE 802.3, 99.3), and lends its mData and its check out of
/// `octets`. The faults are looked for in the order Short, Preamble, Smd, Fragment.
pub fn read_mpacket(octets: &[u8]) -> Result<MPacket<'_>, MFault>
    ensures spelled { IfOk result (λ m. Spells (plain m) octets.now) }
    ensures spelled_due { (m : PlainPacket) → Spells m octets.now → IsOkAnd result (λ r. plain r ≡ m) }
    ensures fault { IfErr result (λ e. IsFirstFault e octets.now) }
    ensures fault_due { (e : MFault) → IsFirstFault e octets.now → IsErrOf result e }
{
    if octets.len() < SHORTEST {
        return Err(MFault::Short);
    }
    if !octets.starts_with(&[PREAMBLE; 6]) {
        return Err(MFault::Preamble);
    }
    let kind = kind_at(octets[6], octets[7])?;
    let (mdata, check) = octets[HEAD..].split_at(octets.len() - HEAD - CHECK);
    Ok(MPacket { kind, mdata, check })
}

// The kind that octets 6 and 7 tell.
fn kind_at(sixth: u8, seventh: u8) -> Result<Kind, MFault>
    ensures { IsKindAt result sixth seventh }
{
    if sixth != PREAMBLE {
        let frame_count = place_in(CONTINUE, sixth).ok_or(MFault::Smd)?;
        let fragment_count = place_in(FRAGMENT, seventh).ok_or(MFault::Fragment)?;
        return Ok(Kind::Continue(frame_count, fragment_count));
    }
    match seventh {
        EXPRESS => Ok(Kind::Express),
        VERIFY => Ok(Kind::Verify),
        RESPOND => Ok(Kind::Respond),
        smd => {
            let frame_count = place_in(START, smd).ok_or(MFault::Smd)?;
            Ok(Kind::Start(frame_count))
        }
    }
}

// The place of an octet among four.
fn place_in(octets: [u8; 4], octet: u8) -> Option<u8>
    ensures { MatchOption result (¬ Contains octets octet) (λ place. (place < 4) × (slice_index octets place ≡ octet)) }
{
    let place = octets.iter().position(|listed| *listed == octet)?;
    Some(place as u8)
}
