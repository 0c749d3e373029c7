ghost use Rattle.std.specs.Prelude.{◌≡◌, ◌≢◌, ◌⊎◌, ◌+◌, ◌*◌, ◌%◌, ◌≤◌, ◌<◌, ◌^◌, ℕ, true, false, List, [], ◌∷◌, ◌++◌, length, Some, option_map};
ghost use Rattle.std.specs.Bool.{Decides};
ghost use Rattle.pre_lldp.specs.declared.adverts.Advert.{Advert};
ghost use Rattle.pre_verify.specs.Calls.{Call, last_tick, verified_at};
ghost use Rattle.pre_verify.specs.Verifiers as verifiers;
ghost use Rattle.pre_script.specs.declared.scripts.Setting.TheVariants as settings;
ghost use Rattle.pre_topo.specs.declared.arcs.Mode.TheVariants as mode;
ghost use Rattle.pre_topo.specs.Arcs.{reverse_of};
ghost use Rattle.pre_mpacket.specs.declared.packets.Kind.TheVariants as kind;
ghost use Rattle.pre_history.specs.Scenario.{Scenario, arc};
ghost use Rattle.pre_history.specs.History.{Ended, History, PlainEvent};
ghost use Rattle.pre_history.specs.Queries.{Begins, Ends, Occupied, SettingOf};
ghost use Rattle.pre_history.specs.Octets.{AdvertAt, is_on, ttl_under};
ghost use Rattle.pre_history.specs.LinkState.{Active, Good, LldpWanted, RespondOwed, VerifyWanted};
ghost use Rattle.pre_history.specs.Starts.{lldp_begins, without_octets};
ghost use Rattle.pre_history.specs.Rules.{HappensIn, change};
ghost use Rattle.pre_history.specs.Moments.{Phase};
ghost use Rattle.pre_history.specs.Legal.{LegalUpTo};
ghost use Rattle.pre_history.specs.Placed.{moment_of};
ghost use Rattle.pre_links.specs.Listening.{Hears};
ghost use Rattle.pre_links.specs.Standing.{responding, settling, told};

use crate::partners::Partner;
use pre_base::Tick;
use pre_lldp::Advert;
use pre_script::Setting;
use pre_verify::{Verifier, VerifyState};

/// The sending end of an arc that negotiates: its verification, what it was last settled to, and what
/// it has to send for its link. It keeps no list of what happened.
#[derive(Clone, Copy, Debug)]
pub struct Link {
    verifier: Verifier,
    // as settled last
    setting: Setting,
    active: bool,
    // there was a cause to send an LLDP frame, and none began since
    wants_lldp: bool,
    // when the last respond began
    responded: Option<Tick>,
}

impl Link {
    ghost use Rattle.pre_links.specs.Resting.{LinkRests};
    ghost use Rattle.pre_links.specs.Standing.{IsReady, IsUpTo, LinkStands, begin_of, may_verify};

    /// A link of which nothing was sent or received, which waits so many ticks for a respond.
    pub fn idle(verify: u64) -> Link
        requires { verify ≤ 10 ^ 12 }
        ensures ready { IsReady result 0 }
        ensures stands { (w : Scenario) (a : ℕ) → w.net.timing.verify ≡ verify → LinkStands w [] a 0 result }
    {
        Link {
            verifier: Verifier::new(verify),
            setting: Setting::On,
            active: false,
            wants_lldp: false,
            responded: None,
        }
    }

    /// Settles the tick by what was received up to it: the arc's expiries. Answers whether preemption
    /// is active where that changed. An LLDP frame is due every `interval` ticks, and where the setting
    /// or that changed (IEEE 802.1AB clause 9.2).
    pub fn settle(
        &mut self,
        now: Tick,
        setting: Setting,
        partner: &Partner,
        interval: u64,
    ) -> Option<bool>
        requires ready { IsReady self.old now.0 }
        requires interval { 1 ≤ interval }
        ensures ticks { IsUpTo self.new now.0 }
        ensures happens { (w : Scenario) (h : History) (a : ℕ) → a < length w.net.arcs → (arc w a).mode ≡ mode.Negotiate
            → LegalUpTo w (moment_of w now.0 (Phase.expiries a)) h
            → LinkStands w h a now.0 self.old → Hears w h (reverse_of a) partner.now → setting ≡ SettingOf w a now.0 → interval ≡ w.net.timing.interval
            → HappensIn w h now.0 (Phase.expiries a) (told now.0 a result) }
        ensures stands { (w : Scenario) (h : History) (a : ℕ) → a < length w.net.arcs → (arc w a).mode ≡ mode.Negotiate
            → LegalUpTo w (moment_of w now.0 (Phase.expiries a)) h
            → LinkStands w h a now.0 self.old → Hears w h (reverse_of a) partner.now → setting ≡ SettingOf w a now.0 → interval ≡ w.net.timing.interval
            → LinkStands w (h ++ told now.0 a result) a (now.0 + 1) self.new }
    {
        let good = is_good(partner, setting, now);
        let active = settle_verifier(&mut self.verifier, now, good, partner.responds_at(now));
        let cause = is_cause(now, interval, self.active, active);
        let change = changed(self.active, active);
        self.wants_lldp = is_wanted(self.wants_lldp, self.setting, setting, cause);
        self.setting = setting;
        self.active = active;
        change
    }

    /// Whether preemption is active at the tick settled last (IEEE 802.3 clause 99.4.3).
    pub fn is_active(&self) -> bool
        ensures { (w : Scenario) (h : History) (a t : ℕ) → LinkStands w h a (t + 1) self.now → Decides result (Active w h a t) }
    {
        self.active
    }

    /// Whether a verify is due, on an arc that isn't occupied: one is wanted (IEEE 802.3 clause 99.4.3),
    /// and none is under way.
    pub fn wants_verify(&self, now: Tick) -> bool
        requires { IsUpTo self.now now.0 }
        ensures may { result ≡ may_verify self.now now.0 }
        ensures wanted { (w : Scenario) (h : History) (a : ℕ) → a < length w.net.arcs
            → LegalUpTo w (moment_of w now.0 (Phase.starts a)) h
            → LinkStands w h a (now.0 + 1) self.now → ¬ Occupied w h a now.0 → Decides result (VerifyWanted w h a now.0) }
    {
        self.verifier.wanted(now) && !self.verifier.is_under_way()
    }

    /// Whether a verify was received, and no respond began at its tick or since (IEEE 802.3 clause 99.4.3).
    pub fn owes_respond(&self, partner: &Partner) -> bool
        ensures { (w : Scenario) (h : History) (a t : ℕ) → a < length w.net.arcs
            → LegalUpTo w (moment_of w t (Phase.starts a)) h
            → LinkStands w h a (t + 1) self.now → Hears w h (reverse_of a) partner.now → Decides result (RespondOwed w h a t) }
    {
        match (partner.verify, self.responded) {
            (None, _) => false,
            (Some(_), None) => true,
            (Some(verify), Some(respond)) => respond.0 < verify.0,
        }
    }

    /// Whether there was a cause to send an LLDP frame, and none began since (IEEE 802.1AB clause 9.2).
    pub fn wants_lldp(&self) -> bool
        ensures { (w : Scenario) (h : History) (a t : ℕ) → a < length w.net.arcs
            → LegalUpTo w (moment_of w t (Phase.starts a)) h
            → LinkStands w h a (t + 1) self.now → Decides result (LldpWanted w h a t) }
    {
        self.wants_lldp
    }

    /// A tick before which nothing of the link is due at a tick after this one, up to which it is settled.
    pub fn due(&self, now: Tick, partner: &Partner, interval: u64) -> u64
        requires settled { IsUpTo self.now now.0 }
        requires interval { 1 ≤ interval }
        ensures { (t : ℕ) → now.0 ≤ t → t + 1 < result → LinkRests interval t partner.now self.now }
    {
        if self.wants_lldp || self.owes_respond(partner) {
            return 0;
        }
        let verify = self.verifier.may_begin_at();
        let age = partner.keeps_after(now);
        verify.min(age).min(interval_after(now, interval))
    }

    /// What an LLDP frame that begins now says (IEEE 802.3 clause 79.3.7), on an arc of this least
    /// fragment, with this time to live in units of time.
    pub fn advert(&self, add_frag: u8, ttl: u16) -> Advert
        ensures add_frag { result.add_frag ≡ add_frag }
        ensures says { (w : Scenario) (h : History) (a t : ℕ) → a < length w.net.arcs → (arc w a).mode ≡ mode.Negotiate
            → LegalUpTo w (moment_of w t (Phase.starts a)) h
            → LinkStands w h a (t + 1) self.now → (arc w a).add_frag ≡ add_frag → w.net.timing.ttl ≡ ttl → result ≡ AdvertAt w h a t }
    {
        Advert {
            enabled: is_on(self.setting),
            active: self.active,
            add_frag,
            ttl: ttl_under(self.setting, ttl),
        }
    }

    /// Tells that a verify begins.
    pub fn verify_begun(&mut self, now: Tick)
        requires ticks { IsUpTo self.old now.0 }
        requires may { may_verify self.old now.0 ≡ true }
        ensures ticks { IsUpTo self.new now.0 }
        ensures stands { (w : Scenario) (h : History) (a : ℕ) → a < length w.net.arcs
            → LegalUpTo w (moment_of w now.0 (Phase.starts a)) h → LinkStands w h a (now.0 + 1) self.old
            → LinkStands w (h ++ begin_of h a now.0 (without_octets kind.Verify) ∷ []) a (now.0 + 1) self.new }
    {
        self.verifier.begun(now);
    }

    /// Tells that a respond begins.
    pub fn respond_begun(&mut self, now: Tick)
        ensures ticks { (t : ℕ) → IsUpTo self.old t → IsUpTo self.new t }
        ensures stands { (w : Scenario) (h : History) (a : ℕ) → a < length w.net.arcs
            → LegalUpTo w (moment_of w now.0 (Phase.starts a)) h → LinkStands w h a (now.0 + 1) self.old
            → LinkStands w (h ++ begin_of h a now.0 (without_octets kind.Respond) ∷ []) a (now.0 + 1) self.new }
    {
        self.responded = Some(now);
    }

    /// Tells that an LLDP frame begins.
    pub fn lldp_begun(&mut self)
        ensures ticks { (t : ℕ) → IsUpTo self.old t → IsUpTo self.new t }
        ensures stands { (w : Scenario) (h : History) (a t : ℕ) → a < length w.net.arcs
            → LegalUpTo w (moment_of w t (Phase.starts a)) h → LinkStands w h a (t + 1) self.old
            → LinkStands w (h ++ begin_of h a t lldp_begins ∷ []) a (t + 1) self.new }
    {
        self.wants_lldp = false;
    }

    /// Tells that the mPacket under way on the arc has ended, be it a verify or another one.
    pub fn mpacket_ended(&mut self, now: Tick)
        requires ready { IsReady self.old now.0 }
        requires within { now.0 ≤ 10 ^ 18 }
        ensures ready { IsReady self.new now.0 }
        ensures stands { (w : Scenario) (h : History) (a : ℕ) (e : Ended) → a < length w.net.arcs
            → LegalUpTo w (moment_of w now.0 (Phase.ends a)) h → LinkStands w h a now.0 self.old
            → e.arc ≡ a → e.tick ≡ now.0 → e.ord ≡ length (Ends h a) → length (Ends h a) < length (Begins h a)
            → LinkStands w (h ++ PlainEvent.ended e ∷ []) a now.0 self.new }
    {
        if self.verifier.is_under_way() {
            self.verifier.verify_ended(now);
        }
    }
}

// Whether the setting is on, and the last advert heard counts and says supported and enabled.
fn is_good(partner: &Partner, setting: Setting, now: Tick) -> bool
    ensures { (w : Scenario) (h : History) (a : ℕ) → a < length w.net.arcs
        → LegalUpTo w (moment_of w now.0 (Phase.expiries a)) h
        → Hears w h (reverse_of a) partner.now → setting ≡ SettingOf w a now.0 → Decides result (Good w h a now.0) }
{
    is_on(setting) && partner.neighbour.good(now)
}

fn is_on(setting: Setting) -> bool
    ensures { result ≡ is_on setting }
{
    match setting {
        Setting::On => true,
        Setting::Off | Setting::Gone => false,
    }
}

// The time to live that is said.
fn ttl_under(setting: Setting, ttl: u16) -> u16
    ensures { (w : Scenario) → w.net.timing.ttl ≡ ttl → result ≡ ttl_under w setting }
{
    match setting {
        Setting::Gone => 0,
        Setting::On | Setting::Off => ttl,
    }
}

// Tells a verifier whether the link is good at the tick and whether a respond was received at it, and
// answers whether it is verified then.
fn settle_verifier(verifier: &mut Verifier, now: Tick, good: bool, responds: bool) -> bool
    requires order { verifier.old.latest.0 ≤ now.0 }
    requires later { verifiers.IsBelow (option_map (λ tick. tick.0) verifier.old.settled) now.0 }
    ensures latest { verifier.new.latest ≡ now }
    ensures settled { verifier.new.settled ≡ Some now }
    ensures stands { (wait : ℕ) (calls : List Call) → verifiers.Stands verifier.old wait calls
        → verifiers.Stands verifier.new wait (calls ++ settling now.0 good responds) }
    ensures active { (wait : ℕ) (calls : List Call) → verifiers.Stands verifier.old wait calls
        → result ≡ verified_at (calls ++ settling now.0 good responds) now.0 }
{
    verifier.settle(now, good);
    tell_respond(verifier, now, responds);
    is_verified(verifier)
}

// Tells a verifier of a respond, where one was received at the tick.
fn tell_respond(verifier: &mut Verifier, now: Tick, responds: bool)
    requires { verifier.old.latest ≡ now }
    ensures latest { verifier.new.latest ≡ now }
    ensures settled { verifier.new.settled ≡ verifier.old.settled }
    ensures stands { (wait : ℕ) (calls : List Call) → verifiers.Stands verifier.old wait calls
        → verifiers.Stands verifier.new wait (calls ++ responding now.0 responds) }
{
    if responds {
        verifier.responded(now);
    }
}

// Whether the link is verified at the last tick handed in.
fn is_verified(verifier: &Verifier) -> bool
    ensures { (wait : ℕ) (calls : List Call) → verifiers.Stands verifier.now wait calls → result ≡ verified_at calls (last_tick calls) }
{
    match verifier.state() {
        VerifyState::Verified => true,
        _ => false,
    }
}

// A tick up to which no interval is over at a tick after this one.
fn interval_after(now: Tick, interval: u64) -> u64
    requires { 1 ≤ interval }
    ensures { (t : ℕ) → now.0 < t → t < result → t % interval ≢ 0 }
{
    (now.0 - now.0 % interval).saturating_add(interval)
}

// Whether an LLDP frame is to be sent even where the setting stays: the interval is over, or preemption
// begins or ends.
fn is_cause(now: Tick, interval: u64, before: bool, active: bool) -> bool
    requires { 1 ≤ interval }
    ensures { Decides result ((now.0 % interval ≡ 0) ⊎ (active ≢ before)) }
{
    now.0 % interval == 0 || active != before
}

// Whether an LLDP frame is to be sent: one was before, the setting changed, or it isn't `gone` and there
// is another cause.
fn is_wanted(wanted: bool, before: Setting, setting: Setting, cause: bool) -> bool
    ensures { Decides result ((wanted ≡ true) ⊎ (setting ≢ before) ⊎ (setting ≢ settings.Gone) × (cause ≡ true)) }
{
    wanted || setting != before || (setting != Setting::Gone && cause)
}

// Whether preemption is active, where that changed.
fn changed(before: bool, active: bool) -> Option<bool>
    ensures { (t a : ℕ) → told t a result ≡ change t a active before }
{
    if active == before { None } else { Some(active) }
}
