ghost use Rattle.std.specs.Prelude.{◌≡◌, ◌+◌};
ghost use Rattle.pre_mpacket.specs.declared.packets.Kind.{Kind};
ghost use Rattle.pre_history.specs.Octets as octets_of;
ghost use Rattle.pre_incoming.specs.Changes.{damaged, loses};

use pre_base::ArcId;
use pre_mpacket::Kind;
use pre_script::Script;

/// Whether a line of the script loses this mPacket of the arc.
pub fn is_lost(script: &Script, arc: ArcId, ordinal: u64) -> bool
    ensures { result ≡ loses script.now arc.0 ordinal }
{
    script
        .losses
        .as_slice()
        .iter()
        .any(|line| line.arc == arc && line.ordinal == ordinal)
}

/// The place of the start mPacket delimiter in an mPacket's octets (IEEE 802.3, 99.3).
pub fn smd_place(kind: Kind) -> u64
    ensures { result ≡ octets_of.smd_place kind }
{
    match kind {
        Kind::Continue(_, _) => 6,
        Kind::Express | Kind::Start(_) | Kind::Verify | Kind::Respond => 7,
    }
}

/// Applies each line of the script that damages this mPacket of the arc, whose start mPacket delimiter stands at `smd`.
pub fn damage(script: &Script, arc: ArcId, ordinal: u64, smd: u64, octets: &mut [u8])
    ensures { octets.new ≡ damaged script.now arc.0 ordinal smd octets.old }
{
    for line in script.damages.as_slice() {
        if line.arc == arc && line.ordinal == ordinal {
            xor_from(
                octets,
                smd.saturating_add(line.offset),
                line.octets.as_slice(),
            );
        }
    }
}

/// XORs the octets from a place on, as far as they go.
fn xor_from(octets: &mut [u8], place: u64, with: &[u8])
    ensures { octets.new ≡ octets_of.xored place with.now octets.old }
{
    if place >= octets.len() as u64 {
        return;
    }
    xor_front(&mut octets[place as usize..], with);
}

/// XORs the first octets, as far as both go.
fn xor_front(octets: &mut [u8], with: &[u8])
    ensures { octets.new ≡ octets_of.xored_from with.now octets.old }
{
    let count = octets.len().min(with.len());
    for i in 0..count {
        octets[i] ^= with[i];
    }
}
