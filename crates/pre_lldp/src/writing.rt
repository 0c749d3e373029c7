ghost use Rattle.std.specs.Prelude.{◌≡◌, ◌+◌, ◌<◌, ◌≤◌, ◌∷◌, ◌++◌, [], length, take};
ghost use Rattle.std.specs.Int.{bytes_high_first};
ghost use Rattle.pre_frame.specs.Layout.{address_of};
ghost use Rattle.pre_lldp.specs.Tlvs.{tlv_octets};
ghost use Rattle.pre_lldp.specs.LldpLayout.{nearest_bridge, lldp_type, chassis_of, capabilities_of, capabilities_tlv, lldp_frame};

use crate::adverts::Advert;
use crate::reading::{LLDP_TYPE, NEAREST_BRIDGE};
use itoa::Buffer;
use pre_base::{ArcId, NodeId};
use pre_crc::fcs;

// Octets of a frame before its check, with padding (IEEE 802.3 clause 3.2.7).
const CHECKED: usize = 60;

/// Writes the LLDP frame of an arc of a node, padding and check included (IEEE 802.1AB clauses 7 and
/// 8, with the capabilities of IEEE 802.3 clause 79.3.7).
pub fn write_lldp(advert: &Advert, node: NodeId, arc: ArcId, into: &mut [u8; 64])
    requires { advert.now.add_frag < 4 }
    ensures { into.new ≡ lldp_frame node.0 arc.0 advert.now }
{
    let mut buffer = Buffer::new();
    let digits = buffer.format(arc.0).as_bytes();
    let mut place = put(into, 0, &front(node, digits.len() as u8));
    place = put(into, place, digits);
    place = put(into, place, &back(advert));
    into[place..CHECKED].fill(0);
    let check = fcs(&into[..CHECKED]);
    into[CHECKED..].copy_from_slice(&check);
}

// Writes a piece at a place, and gives the place behind it.
fn put(into: &mut [u8], place: usize, piece: &[u8]) -> usize
    requires { place + length piece.now ≤ length into.old }
    ensures place { result ≡ place + length piece.now }
    ensures written { take result into.new ≡ take place into.old ++ piece.now }
{
    let end = place + piece.len();
    into[place..end].copy_from_slice(piece);
    end
}

// The octets before an arc's number of so many digits.
fn front(node: NodeId, digits: u8) -> [u8; 26]
    requires { digits < 100 }
    ensures { result ≡ nearest_bridge ++ address_of node.0 ++ lldp_type
        ++ tlv_octets (record { kind = 1; value = chassis_of node.0 }) ++ 0x04 ∷ (1 + digits) ∷ 7 ∷ [] }
{
    let [to0, to1, to2, to3, to4, to5] = NEAREST_BRIDGE;
    let [type_high, type_low] = LLDP_TYPE;
    let [high, low] = node.0.to_be_bytes();
    let length = 1 + digits;
    [
        to0, to1, to2, to3, to4, to5, 2, 0, 0, 0, high, low, type_high, type_low, 0x02, 7, 4, 2, 0,
        0, 0, high, low, 0x04, length, 7,
    ]
}

// The TLVs behind the arc's number: Time To Live, the capabilities and End.
fn back(advert: &Advert) -> [u8; 14]
    requires { advert.now.add_frag < 4 }
    ensures { result ≡ tlv_octets (record { kind = 3; value = bytes_high_first 2 advert.now.ttl })
        ++ tlv_octets (capabilities_tlv advert.now) ++ 0x00 ∷ 0x00 ∷ [] }
{
    let [ttl_high, ttl_low] = advert.ttl.to_be_bytes();
    let [caps_high, caps_low] = capabilities(advert).to_be_bytes();
    [
        0x06, 2, ttl_high, ttl_low, 0xFE, 6, 0x00, 0x12, 0x0F, 0x07, caps_high, caps_low, 0, 0,
    ]
}

// Bits of Additional Ethernet Capabilities: supported, enabled, active, and the least fragment in two.
fn capabilities(advert: &Advert) -> u16
    requires { advert.now.add_frag < 4 }
    ensures { result ≡ capabilities_of advert.now }
{
    let enabled = if advert.enabled { 2 } else { 0 };
    let active = if advert.active { 4 } else { 0 };
    1 + enabled + active + 8 * u16::from(advert.add_frag)
}
