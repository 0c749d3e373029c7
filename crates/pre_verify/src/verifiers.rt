ghost use Rattle.std.specs.Prelude.{◌≡◌, ◌<◌, ◌≤◌, ◌^◌, ◌&&◌, ◌||◌, nat_le, nat_lt, not, ℕ, true, false, List, [], ◌∷◌, ◌++◌, is_some, option_map, Some, None};
ghost use Rattle.std.specs.Option.{ForSome, option_map_or};

use crate::states::VerifyState;
use pre_base::Tick;

// So many verifies are sent in one run of ticks at which the other end is good.
const ATTEMPTS: u8 = 3;

/// The verification of one link. It keeps no list of what happened. The link is good at the ticks at
/// which the other end says that it supports and enables preemption, and ticks in a row at which it is
/// good are a run.
#[derive(Clone, Copy, Debug)]
pub struct Verifier {
    // ticks after the end of a verify in which a respond may come
    wait: u64,
    /// The last tick that was handed in, and 0 before the first.
    pub latest: Tick,
    /// The last tick at which it was settled whether the link is good.
    pub settled: Option<Tick>,
    // the first tick of the present run, where the link is good
    since: Option<u64>,
    // when the last verify began, and when it ended
    last: Option<u64>,
    ended: Option<u64>,
    // the verifies of the present run, and when its first one began
    attempts: u8,
    first: Option<u64>,
    // a respond came in the present run, after a verify of it began
    verified: bool,
    ghost wait_within: { wait ≤ 10 ^ 12 },
    ghost ended_within: { ForSome ended (λ e. e ≤ 10 ^ 18) },
    ghost attempts_within: { attempts ≤ 3 },
}

impl Verifier {
    ghost use Rattle.pre_verify.specs.Calls.{Call, settled, begun, ended, responded, last_tick, verifies_of, is_going, wanted_at, state_at, IsDue};
    ghost use Rattle.pre_lldp.specs.LinkState.{last_verify};
    ghost use Rattle.pre_verify.specs.Verifiers.{Stands, IsBelow, is_trying, is_under_way, is_wanting, waited};

    /// A verifier that waits so many ticks for a respond.
    pub fn new(wait: u64) -> Verifier
        requires { wait ≤ 10 ^ 12 }
        ensures latest { result.latest.0 ≡ 0 }
        ensures settled { result.settled ≡ None }
        ensures stands { Stands result wait [] }
    {
        Verifier {
            wait,
            latest: Tick(0),
            settled: None,
            since: None,
            last: None,
            ended: None,
            attempts: 0,
            first: None,
            verified: false,
        }
    }

    /// Tells whether the link is good at this tick, and at later ones until it is settled anew.
    pub fn settle(&mut self, now: Tick, good: bool)
        requires order { self.old.latest.0 ≤ now.0 }
        requires later { IsBelow (option_map (λ tick. tick.0) self.old.settled) now.0 }
        ensures latest { self.new.latest ≡ now }
        ensures settled { self.new.settled ≡ Some now }
        ensures stands { (wait : ℕ) (calls : List Call) → Stands self.old wait calls
            → Stands self.new wait (calls ++ settled now.0 good ∷ []) }
    {
        self.latest = now;
        self.settled = Some(now);
        if !good {
            self.since = None;
            self.verified = false;
            return;
        }
        if self.since.is_some() {
            return;
        }
        self.since = Some(now.0);
        self.attempts = 0;
        self.first = None;
    }

    /// Whether a verify is due.
    pub fn wanted(&self, now: Tick) -> bool
        requires { self.now.latest.0 ≤ now.0 }
        ensures due { (wait : ℕ) (calls : List Call) → Stands self.now wait calls → result ≡ wanted_at wait calls now.0 }
        ensures wants { result ≡ is_wanting self.now now.0 }
    {
        self.wants(now)
    }

    /// Tells that a verify, which is due, begins.
    pub fn begun(&mut self, now: Tick)
        requires order { self.old.latest.0 ≤ now.0 }
        requires wanted { is_wanting self.old now.0 ≡ true }
        requires none { is_under_way self.old ≡ false }
        ensures latest { self.new.latest ≡ now }
        ensures settled { self.new.settled ≡ self.old.settled }
        ensures stands { (wait : ℕ) (calls : List Call) → Stands self.old wait calls
            → Stands self.new wait (calls ++ begun now.0 ∷ []) }
    {
        self.latest = now;
        self.last = Some(now.0);
        self.ended = None;
        self.attempts += 1;
        self.first = self.first.or(Some(now.0));
    }

    /// Tells that the verify under way has ended.
    pub fn verify_ended(&mut self, now: Tick)
        requires order { self.old.latest.0 ≤ now.0 }
        requires within { now.0 ≤ 10 ^ 18 }
        requires going { is_under_way self.old ≡ true }
        ensures latest { self.new.latest ≡ now }
        ensures settled { self.new.settled ≡ self.old.settled }
        ensures stands { (wait : ℕ) (calls : List Call) → Stands self.old wait calls
            → Stands self.new wait (calls ++ ended now.0 ∷ []) }
    {
        self.latest = now;
        self.ended = Some(now.0);
    }

    /// Tells that a respond came.
    pub fn responded(&mut self, now: Tick)
        requires { self.old.latest.0 ≤ now.0 }
        ensures latest { self.new.latest ≡ now }
        ensures settled { self.new.settled ≡ self.old.settled }
        ensures stands { (wait : ℕ) (calls : List Call) → Stands self.old wait calls
            → Stands self.new wait (calls ++ responded now.0 ∷ []) }
    {
        self.verified = self.is_verified_by(now);
        self.latest = now;
    }

    /// How far the verification is at the last tick handed in.
    pub fn state(&self) -> VerifyState
        ensures { (wait : ℕ) (calls : List Call) → Stands self.now wait calls → result ≡ state_at wait calls (last_tick calls) }
    {
        if self.since.is_none() {
            return VerifyState::Idle;
        }
        if self.verified {
            return VerifyState::Verified;
        }
        if self.is_under_way() {
            return VerifyState::Sending;
        }
        if self.has_failed() {
            return VerifyState::Failed;
        }
        if self.wants(self.latest) {
            return VerifyState::Wanted;
        }
        VerifyState::Waiting
    }

    /// The first tick after the last one handed in at which a verify becomes due or the link active
    /// with nothing heard. None where time alone changes neither.
    pub fn due(&self) -> Option<Tick>
        ensures { (wait : ℕ) (calls : List Call) → Stands self.now wait calls
            → IsDue wait calls (option_map (λ tick. tick.0) result) }
    {
        if !self.is_trying() {
            return None;
        }
        if self.attempts == 0 {
            return None;
        }
        let Some(ended) = self.ended else {
            return None;
        };
        let over = ended + self.wait;
        if over <= self.latest.0 {
            return None;
        }
        Some(Tick(over))
    }

    /// Whether a verify has begun and hasn't ended, in whatever run.
    #[tactic(auto, unfolding(crate::specs::Verifiers::is_under_way))]
    pub fn is_under_way(&self) -> bool
        ensures going { result ≡ is_under_way self.now }
        ensures exact { (wait : ℕ) (calls : List Call) → Stands self.now wait calls → result ≡ is_going (last_verify (verifies_of calls)) }
    {
        self.last.is_some() && self.ended.is_none()
    }

    /// A tick before which none may begin, if nothing is told before: none is wanted at an earlier tick, or one is under way.
    #[tactic(auto, unfolding(crate::specs::Verifiers::is_wanting))]
    pub fn may_begin_at(&self) -> u64
        ensures { (t : ℕ) → t < result → (is_wanting self.now t && not (is_under_way self.now)) ≡ false }
    {
        if self.is_under_way() {
            return u64::MAX;
        }
        if !self.is_trying() {
            return u64::MAX;
        }
        self.waits_until()
    }

    // Whether a verify is due.
    #[tactic(auto, unfolding(crate::specs::Verifiers::is_wanting))]
    fn wants(&self, now: Tick) -> bool
        ensures { result ≡ is_wanting self.now now.0 }
    {
        if !self.is_trying() {
            return false;
        }
        self.waited(now)
    }

    // Whether a verify is due now or may be later.
    fn is_trying(&self) -> bool
        ensures { result ≡ is_trying self.now }
    {
        if self.since.is_none() || self.verified {
            return false;
        }
        self.attempts < ATTEMPTS
    }

    // Whether the link is verified once a respond came at this tick.
    fn is_verified_by(&self, now: Tick) -> bool
        ensures { result ≡ (self.now.verified || (is_some self.now.since && option_map_or (λ b. nat_lt b now.0) self.now.first false)) }
    {
        if self.verified {
            return true;
        }
        if self.since.is_none() {
            return false;
        }
        match self.first {
            Some(first) => first < now.0,
            None => false,
        }
    }

    // Whether three verifies were sent in vain.
    fn has_failed(&self) -> bool
        ensures { result ≡ (is_some self.now.since && nat_le 3 self.now.attempts && waited self.now self.now.latest.0) }
    {
        if self.since.is_none() || self.attempts < ATTEMPTS {
            return false;
        }
        self.waited(self.latest)
    }

    // A tick before which a verify of the run, or the verify time after the last one, is in the way.
    fn waits_until(&self) -> u64
        ensures { (t : ℕ) → t < result → waited self.now t ≡ false }
    {
        if self.attempts == 0 {
            return 0;
        }
        match self.ended {
            Some(ended) => ended + self.wait,
            None => u64::MAX,
        }
    }

    // Whether no verify of the run, or the verify time after the last one, is in the way.
    fn waited(&self, now: Tick) -> bool
        ensures { result ≡ waited self.now now.0 }
    {
        if self.attempts == 0 {
            return true;
        }
        match self.ended {
            Some(ended) => ended + self.wait <= now.0,
            None => false,
        }
    }
}
