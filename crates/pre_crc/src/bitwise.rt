// The frame check sequence bit by bit: the plain program beside which the table's is tested.
ghost use Rattle.std.specs.Prelude.{◌≡◌, bit_xor};
ghost use Rattle.pre_crc.specs.Checks.{Fcs};
ghost use Rattle.pre_crc.specs.Register.{turn, turns};

// The generator without x^32, the coefficient of x^31 lowest.
const GENERATOR: u32 = 0xEDB8_8320;

// The frame check sequence of the octets.
pub(crate) fn fcs_by_bits(octets: &[u8]) -> [u8; 4]
    ensures { result ≡ Fcs octets.now }
{
    let mut register: u32 = 0xFFFF_FFFF;
    for octet in octets {
        register = with_bits(register, *octet);
    }
    (!register).to_le_bytes()
}

// The register with one more octet taken in.
fn with_bits(register: u32, octet: u8) -> u32
    ensures { result ≡ turns 8 (bit_xor register octet) }
{
    let mut turned = register ^ u32::from(octet);
    for _bit in 0..8u32 {
        turned = turned_once(turned);
    }
    turned
}

// The register after one bit has left it.
fn turned_once(register: u32) -> u32
    ensures { result ≡ turn register }
{
    let half = register >> 1;
    if register & 1 == 1 {
        half ^ GENERATOR
    } else {
        half
    }
}
