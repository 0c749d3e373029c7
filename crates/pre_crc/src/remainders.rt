// Sixteen octets at once, and eight bits at once.
ghost use Rattle.std.specs.Prelude.{◌≡◌, bit_xor};
ghost use Rattle.pre_crc.specs.Register.{turns, taken_in, IsRemainderOf};

use crate::tables::{
    AFTER_EIGHT, AFTER_ELEVEN, AFTER_FIFTEEN, AFTER_FIVE, AFTER_FOUR, AFTER_FOURTEEN, AFTER_NINE,
    AFTER_ONE, AFTER_SEVEN, AFTER_SIX, AFTER_SIXTEEN, AFTER_TEN, AFTER_THIRTEEN, AFTER_THREE,
    AFTER_TWELVE, AFTER_TWO,
};

// The register with these octets taken in.
pub(crate) fn with_octets(before: u32, octets: &[u8]) -> u32
    ensures { result ≡ taken_in before octets.now }
{
    let (mut register, rest) = with_sixteens(before, octets);
    for octet in rest {
        register = with_octet(register, *octet);
    }
    register
}

// The register with as many of the octets taken in as make whole sixteens, and the few that are left.
fn with_sixteens(before: u32, octets: &[u8]) -> (u32, &[u8])
    ensures { taken_in result.0 result.1.now ≡ taken_in before octets.now }
{
    let mut register = before;
    let mut rest = octets;
    while let [a, b, c, d, e, f, g, h, i, j, k, l, m, n, o, p, further @ ..] = rest {
        register = with_sixteen(
            register,
            &[*a, *b, *c, *d, *e, *f, *g, *h],
            &[*i, *j, *k, *l, *m, *n, *o, *p],
        );
        rest = further;
    }
    (register, rest)
}

// The register with eight octets and eight more taken in, the register put to the first four.
fn with_sixteen(register: u32, first: &[u8; 8], last: &[u8; 8]) -> u32
    ensures { result ≡ taken_in (taken_in register first.now) last.now }
{
    after_eight(u64::from_le_bytes(*last))
        ^ after_sixteen(u64::from(register) ^ u64::from_le_bytes(*first))
}

// What the octets of this word leave behind themselves and eight more: each is looked up in the table of what it leaves
// behind itself and those after it.
fn after_sixteen(word: u64) -> u32
    ensures { result ≡ turns 128 word }
{
    let [a, b, c, d, e, f, g, h] = word.to_le_bytes();
    AFTER_NINE[h as usize]
        ^ AFTER_TEN[g as usize]
        ^ AFTER_ELEVEN[f as usize]
        ^ AFTER_TWELVE[e as usize]
        ^ AFTER_THIRTEEN[d as usize]
        ^ AFTER_FOURTEEN[c as usize]
        ^ AFTER_FIFTEEN[b as usize]
        ^ AFTER_SIXTEEN[a as usize]
}

// What the octets of this word leave behind themselves.
fn after_eight(word: u64) -> u32
    ensures { result ≡ turns 64 word }
{
    let [a, b, c, d, e, f, g, h] = word.to_le_bytes();
    AFTER_EIGHT[a as usize]
        ^ AFTER_SEVEN[b as usize]
        ^ AFTER_SIX[c as usize]
        ^ AFTER_FIVE[d as usize]
        ^ AFTER_FOUR[e as usize]
        ^ AFTER_THREE[f as usize]
        ^ AFTER_TWO[g as usize]
        ^ AFTER_ONE[h as usize]
}

// The register with one more octet taken in.
fn with_octet(register: u32, octet: u8) -> u32
    ensures { result ≡ turns 8 (bit_xor register octet) }
{
    let lowest = ((register ^ u32::from(octet)) & 0xFF) as u8;
    remainder_of(lowest) ^ (register >> 8)
}

// The remainder that one octet alone leaves.
fn remainder_of(octet: u8) -> u32
    ensures remainder { IsRemainderOf octet result }
    ensures turned { result ≡ turns 8 octet }
{
    AFTER_ONE[octet as usize]
}
