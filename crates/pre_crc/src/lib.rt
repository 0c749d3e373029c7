//! The frame check sequence of Ethernet (IEEE 802.3 clause 3.2.9) and the check of an mPacket.
#![tactic(auto)]

ghost use Rattle.std.specs.Prelude.{◌≡◌, ◌≢◌, ℕ, ◌<◌, ◌≤◌, Bool, true, List, [], ◌∷◌, ◌++◌, All, length};
ghost use Rattle.pre_crc.specs.Division.{remainder, IsDivision};
ghost use Rattle.pre_crc.specs.Checks.{Fcs, Mcrc};
ghost use Rattle.pre_crc.specs.Register.{Stands};

mod bitwise;
mod remainders;
mod tables;

use remainders::with_octets;

/// The frame check sequence of `octets` as a frame ends with it: four octets, in the order in which
/// they are sent (IEEE 802.3 clause 3.2.9).
pub fn fcs(octets: &[u8]) -> [u8; 4]
    ensures { result ≡ Fcs octets.now }
{
    let mut running = Running::new();
    running.add(octets);
    running.fcs()
}

/// The checks of octets that come piece by piece.
#[derive(Clone, Copy, Debug, PartialEq, Eq)]
pub struct Running {
    register: u32,
}

impl Running {
    /// It stands for no octets yet.
    pub fn new() -> Running
        ensures { Stands result [] }
    {
        Running {
            register: 0xFFFF_FFFF,
        }
    }

    /// Adds `octets` to those that it stands for.
    pub fn add(&mut self, octets: &[u8])
        ensures { (before : List ℕ) → Stands self.old before → Stands self.new (before ++ octets.now) }
    {
        self.register = with_octets(self.register, octets);
    }

    /// The frame check sequence of all octets added (IEEE 802.3 clause 3.2.9).
    pub fn fcs(&self) -> [u8; 4]
        ensures { (octets : List ℕ) → Stands self.now octets → result ≡ Fcs octets }
    {
        (!self.register).to_le_bytes()
    }

    /// The mPacket check of all octets added: their frame check sequence, of which the third and
    /// fourth octets are complemented. That these two are is this profile's own choice.
    pub fn mcrc(&self) -> [u8; 4]
        ensures { (octets : List ℕ) → Stands self.now octets → result ≡ Mcrc octets }
    {
        let [first, second, third, fourth] = self.fcs();
        [first, second, !third, !fourth]
    }
}

/// Long division gives what division means: by each divisor whose head is 1 its remainder has a
/// quotient, and no other rest has one.
pub fn division_law()
    ensures exists { (tail bits : List Bool) → length tail ≤ length bits
        → (quotient : List Bool) × IsDivision (true ∷ tail) bits quotient (remainder (true ∷ tail) bits) }
    ensures alone { (tail bits quotient rest : List Bool) → IsDivision (true ∷ tail) bits quotient rest
        → rest ≡ remainder (true ∷ tail) bits }
{}

/// Both checks have four octets, and those of the same octets always differ.
pub fn checks_law()
    ensures fcs_length { (octets : List ℕ) → length (Fcs octets) ≡ 4 }
    ensures mcrc_length { (octets : List ℕ) → length (Mcrc octets) ≡ 4 }
    ensures fcs_octets { (octets : List ℕ) → All (λ octet. octet < 256) (Fcs octets) }
    ensures mcrc_octets { (octets : List ℕ) → All (λ octet. octet < 256) (Mcrc octets) }
    ensures differ { (octets : List ℕ) → Fcs octets ≢ Mcrc octets }
{}

#[cfg(test)]
mod tests {
    use super::*;
    use bitwise::fcs_by_bits;

    // Expected checks of Python's zlib.crc32, low octet first.
    #[test]
    fn known_checks(rt: HostRuntime) {
        let digits: [u8; 4] = [0x26, 0x39, 0xF4, 0xCB];
        assert_eq!(rt; fcs(b"123456789").as_slice(), digits.as_slice());
        assert_eq!(rt; fcs_by_bits(b"123456789").as_slice(), digits.as_slice());
        let zeros: [u8; 4] = [0x08, 0x89, 0x12, 0x04];
        assert_eq!(rt; fcs(&[0; 60]).as_slice(), zeros.as_slice());
        assert_eq!(rt; fcs_by_bits(&[0; 60]).as_slice(), zeros.as_slice());
        let mut octets = [0; 300];
        let mut next: u8 = 3;
        for octet in octets.iter_mut() {
            *octet = next;
            next = next.wrapping_mul(5).wrapping_add(7);
        }
        let mixed: [u8; 4] = [0xD2, 0x96, 0x69, 0x67];
        assert_eq!(rt; fcs(&octets).as_slice(), mixed.as_slice());
        assert_eq!(rt; fcs_by_bits(&octets).as_slice(), mixed.as_slice());
    }

    #[test]
    fn known_checks_of_pieces(rt: HostRuntime) {
        let mut running = Running::new();
        running.add(b"1234");
        running.add(b"");
        running.add(b"56789");
        let whole: [u8; 4] = [0x26, 0x39, 0xF4, 0xCB];
        let fragment: [u8; 4] = [0x26, 0x39, 0x0B, 0x34];
        assert_eq!(rt; running.fcs().as_slice(), whole.as_slice());
        assert_eq!(rt; running.mcrc().as_slice(), fragment.as_slice());
        let mut verify = Running::new();
        verify.add(&[0; 60]);
        let respond: [u8; 4] = [0x08, 0x89, 0xED, 0xFB];
        assert_eq!(rt; verify.mcrc().as_slice(), respond.as_slice());
        division_law();
        checks_law();
    }
}
