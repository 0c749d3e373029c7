ghost use Rattle.std.specs.Prelude.{◌≡◌, ◌↔◌, ◌^◌, ◌<◌, ℕ, Bool, List, true, slice_index, Some, Ok, Err, length};
ghost use Rattle.pre_lldp.specs.declared.adverts.Advert.{Advert};
ghost use Rattle.pre_lldp.specs.declared.reading.LldpFault.{LldpFault};
ghost use Rattle.pre_lldp.specs.Pdus.{Fields, IsPdu, IsFirstFault};
ghost use Rattle.pre_lldp.specs.PduReading.{pdu_of};
ghost use Rattle.pre_lldp.specs.LldpLayout.{lldp_frame, advert_of, is_lldp_frame};
ghost use Rattle.pre_lldp.specs.LinkState.{Verify, GoodSince, Verified, VerifyWanted, AtTrue, run_start, is_verified, is_verify_wanted};

/// Octets are one LLDPDU or have one first fault, and `pdu_of` gives it.
pub fn one_pdu()
    ensures pdu { (octets : List ℕ) (fields : Fields) → ((i : ℕ) → slice_index octets i < 256)
        → (IsPdu fields octets ↔ (pdu_of octets ≡ Ok fields)) }
    ensures fault { (octets : List ℕ) (fault : LldpFault) → ((i : ℕ) → slice_index octets i < 256)
        → (IsFirstFault fault octets ↔ (pdu_of octets ≡ Err fault)) }
{}

/// What an arc sends is an LLDP frame of 64 octets, and is read as what it says.
pub fn read_back()
    ensures length { (node arc : ℕ) (says : Advert) → arc < 2 ^ 16 → length (lldp_frame node arc says) ≡ 64 }
    ensures lldp { (node arc : ℕ) (says : Advert) → is_lldp_frame (lldp_frame node arc says) ≡ true }
    ensures advert { (node arc : ℕ) (says : Advert) → arc < 2 ^ 16 → says.add_frag < 4 → says.ttl < 2 ^ 16
        → advert_of (lldp_frame node arc says) ≡ Some says }
{}

/// The state of a link by conditions on ticks is the one that is computed, for any test of Good.
pub fn link_state()
    ensures run { (good : ℕ → Bool) (u t : ℕ) → (GoodSince (AtTrue good) u t ↔ (run_start good t ≡ Some u)) }
    ensures verified { (good : ℕ → Bool) (verifies : List Verify) (responds : List ℕ) (t : ℕ)
        → (Verified (AtTrue good) verifies responds t ↔ (is_verified good verifies responds t ≡ true)) }
    ensures wanted { (good : ℕ → Bool) (verifies : List Verify) (responds : List ℕ) (wait t : ℕ)
        → (VerifyWanted (AtTrue good) verifies responds wait t ↔ (is_verify_wanted good verifies responds wait t ≡ true)) }
{}
