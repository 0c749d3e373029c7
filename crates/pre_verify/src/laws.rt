ghost use Rattle.std.specs.Prelude.{◌≡◌, ◌↔◌, ◌≤◌, ℕ, true, List, option_map};
ghost use Rattle.pre_lldp.specs.LinkState.{Verified, VerifyWanted, AtTrue};
ghost use Rattle.pre_verify.specs.declared.verifiers.Verifier.{Verifier};
ghost use Rattle.pre_verify.specs.Calls.{Call, last_tick, good_of, verifies_of, responds_of, verified_at, wanted_at};
ghost use Rattle.pre_verify.specs.Verifiers.{Stands, is_wanting};

/// What the calls for which a verifier stands say of the link, and of the verifier.
pub fn calls_law()
    ensures latest { (v : Verifier) (wait : ℕ) (calls : List Call) → Stands v wait calls → v.latest.0 ≡ last_tick calls }
    ensures wanting { (v : Verifier) (wait : ℕ) (calls : List Call) (t : ℕ) → Stands v wait calls → v.latest.0 ≤ t
        → is_wanting v t ≡ wanted_at wait calls t }
    ensures verified { (calls : List Call) (t : ℕ)
        → ((verified_at calls t ≡ true) ↔ Verified (AtTrue (good_of calls)) (verifies_of calls) (responds_of calls) t) }
    ensures wanted { (wait : ℕ) (calls : List Call) (t : ℕ)
        → ((wanted_at wait calls t ≡ true) ↔ VerifyWanted (AtTrue (good_of calls)) (verifies_of calls) (responds_of calls) wait t) }
{
    pre_lldp::link_state();
}
