ghost use Rattle.std.specs.Prelude.{◌≡◌, ◌+◌, ◌≤◌, ◌<◌, ◌^◌, ◌↔◌, ℕ, List, Option, [], ◌∷◌, ◌++◌, length, Some, None, IsSome, option_map};
ghost use Rattle.std.specs.Bool.{Decides};
ghost use Rattle.pre_lldp.specs.LldpLayout.{advert_of};
ghost use Rattle.pre_mpacket.specs.Arrivals.{Given, Gives};
ghost use Rattle.pre_history.specs.declared.events.Outcome.TheVariants as outcome;
ghost use Rattle.pre_history.specs.Scenario.{Scenario};
ghost use Rattle.pre_history.specs.History.{History};
ghost use Rattle.pre_history.specs.Queries.{Arrivals, Ends};
ghost use Rattle.pre_history.specs.Octets.{Air};
ghost use Rattle.pre_history.specs.Rules.{arrival};
ghost use Rattle.pre_history.specs.Legal.{LegalUpTo};
ghost use Rattle.pre_history.specs.Moments.{Phase};
ghost use Rattle.pre_history.specs.Placed.{moment_of};

use pre_base::Tick;
use pre_lldp::{Neighbour, lldpdu, read_lldpdu};

/// What was received at an arc's end that speaks of the other direction: the adverts, the last verify
/// and the last respond.
#[derive(Clone, Copy, Debug)]
pub struct Partner {
    pub(crate) neighbour: Neighbour,
    pub(crate) verify: Option<Tick>,
    pub(crate) respond: Option<Tick>,
}

impl Partner {
    ghost use Rattle.pre_links.specs.Listening.{Hears};
    ghost use Rattle.pre_links.specs.Resting.{KeepsAt};

    /// A partner of which nothing was received, whose times to live count units of so many ticks.
    pub fn unheard(unit: u64) -> Partner
        requires { unit ≤ 10 ^ 9 }
        ensures { (w : Scenario) (b : ℕ) → w.net.timing.unit ≡ unit → Hears w [] b result }
    {
        Partner {
            neighbour: Neighbour::new(unit),
            verify: None,
            respond: None,
        }
    }

    /// Tells that an LLDP frame was received, with its check. One with a fault changes nothing.
    pub fn lldp(&mut self, now: Tick, frame: &[u8])
        requires within { now.0 ≤ 10 ^ 18 }
        requires size { 18 ≤ length frame.now }
        ensures faulty { advert_of frame.now ≡ None → self.new ≡ self.old }
        ensures hears { (w : Scenario) (h : History) (b : ℕ) → b < length w.net.arcs
            → LegalUpTo w (moment_of w now.0 (Phase.arrivals b)) h → Hears w h b self.old
            → length (Arrivals h b) < length (Ends h b) → Gives (Air w h b) (length (Arrivals h b)) (Given.frame frame.now) → IsSome (advert_of frame.now)
            → Hears w (h ++ arrival now.0 b (length (Arrivals h b)) outcome.Lldp ∷ []) b self.new }
    {
        if let Ok(pdu) = read_lldpdu(lldpdu(frame)) {
            self.neighbour.heard(now, &pdu);
        }
    }

    /// Tells that a verify was received (IEEE 802.3 clause 99.3.4).
    pub fn verify(&mut self, now: Tick)
        ensures { (w : Scenario) (h : History) (b : ℕ) → b < length w.net.arcs
            → LegalUpTo w (moment_of w now.0 (Phase.arrivals b)) h → Hears w h b self.old
            → Hears w (h ++ arrival now.0 b (length (Arrivals h b)) outcome.Verify ∷ []) b self.new }
    {
        self.verify = Some(now);
    }

    /// Tells that a respond was received (IEEE 802.3 clause 99.3.4).
    pub fn respond(&mut self, now: Tick)
        ensures { (w : Scenario) (h : History) (b : ℕ) → b < length w.net.arcs
            → LegalUpTo w (moment_of w now.0 (Phase.arrivals b)) h → Hears w h b self.old
            → Hears w (h ++ arrival now.0 b (length (Arrivals h b)) outcome.Respond ∷ []) b self.new }
    {
        self.respond = Some(now);
    }

    // A tick up to which what was heard runs out at no tick after this one.
    pub(crate) fn keeps_after(&self, now: Tick) -> u64
        ensures { (t : ℕ) → now.0 < t → t < result → KeepsAt t self.now }
    {
        match self.neighbour.due() {
            Some(tick) if tick.0 > now.0 => tick.0,
            _ => u64::MAX,
        }
    }

    // Whether a respond was received last at this tick.
    pub(crate) fn responds_at(&self, now: Tick) -> bool
        ensures { Decides result (option_map (λ t. t.0) self.now.respond ≡ Some now.0) }
    {
        match self.respond {
            Some(tick) => tick.0 == now.0,
            None => false,
        }
    }
}
