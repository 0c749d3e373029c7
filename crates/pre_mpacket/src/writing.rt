ghost use Rattle.std.specs.Prelude.{◌≡◌, ◌+◌, ◌<◌, ◌↔◌, length, drop, take, IsErr, IfOk, OnErr};
ghost use Rattle.pre_mpacket.specs.Spelling.{plain, IsWhole, HasCounts, head_of, Spells};

use crate::packets::{
    CHECK, CONTINUE, EXPRESS, FRAGMENT, HEAD, Kind, MPacket, PREAMBLE, RESPOND, START, VERIFY,
};
use pre_base::Room;

/// Writes an mPacket from its preamble on (IEEE 802.3, 99.3) at the front of `into`, and answers how many
/// octets that takes: 12 more than its mData. Where `into` has fewer, it is unchanged.
pub fn write_mpacket(m: &MPacket, into: &mut [u8]) -> Result<usize, Room>
    requires { IsWhole (plain m.now) }
    ensures room { IsErr result ↔ (length into.old < 12 + length m.now.mdata.now) }
    ensures unchanged { OnErr result (into.new ≡ into.old) }
    ensures size { IfOk result (λ size. size ≡ 12 + length m.now.mdata.now) }
    ensures spelled { IfOk result (λ size. Spells (plain m.now) (take size into.new)) }
    ensures rest { IfOk result (λ size. drop size into.new ≡ drop size into.old) }
{
    let size = HEAD + m.mdata.len() + CHECK;
    if into.len() < size {
        return Err(Room);
    }
    let (head, rest) = into.split_at_mut(HEAD);
    let (mdata, rest) = rest.split_at_mut(m.mdata.len());
    let (check, _) = rest.split_at_mut(CHECK);
    head.copy_from_slice(&head_octets(m.kind));
    mdata.copy_from_slice(m.mdata);
    check.copy_from_slice(m.check);
    Ok(size)
}

// The octets before the mData.
fn head_octets(kind: Kind) -> [u8; 8]
    requires { HasCounts kind }
    ensures { result ≡ head_of kind }
{
    let (sixth, seventh) = match kind {
        Kind::Express => (PREAMBLE, EXPRESS),
        Kind::Verify => (PREAMBLE, VERIFY),
        Kind::Respond => (PREAMBLE, RESPOND),
        Kind::Start(frame_count) => (PREAMBLE, START[usize::from(frame_count)]),
        Kind::Continue(frame_count, fragment_count) => (
            CONTINUE[usize::from(frame_count)],
            FRAGMENT[usize::from(fragment_count)],
        ),
    };
    [
        PREAMBLE, PREAMBLE, PREAMBLE, PREAMBLE, PREAMBLE, PREAMBLE, sixth, seventh,
    ]
}
