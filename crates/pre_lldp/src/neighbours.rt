ghost use Rattle.std.specs.Prelude.{◌≡◌, ◌+◌, ◌*◌, ◌≤◌, ◌^◌, ◌==◌, if◌then◌else◌, option_map};

use crate::reading::Pdu;
use pre_base::Tick;

/// What the other end of a link last said, and until when it counts. It keeps no list of what was heard.
#[derive(Clone, Copy, Debug)]
pub struct Neighbour {
    // ticks of a unit of time
    unit: u64,
    // when the last advert runs out, where it ever counts
    expiry: Option<Tick>,
    enabled: bool,
    ghost unit_within: { unit ≤ 10 ^ 9 },
}

impl Neighbour {
    ghost use Rattle.std.specs.Prelude.{ℕ, ◌↔◌, [], ◌∷◌, ◌++◌, List, IsTrue};
    ghost use Rattle.pre_lldp.specs.Ages.{Heard, CountsEnabled, expiry, last_heard};
    ghost use Rattle.pre_lldp.specs.Neighbours.{Stands};
    ghost use Rattle.pre_lldp.specs.LldpLayout.{advert_in};
    ghost use Rattle.pre_lldp.specs.Views.{fields_in};

    /// A neighbour of which nothing was heard, whose times to live count units of so many ticks.
    pub fn new(unit: u64) -> Neighbour
        requires { unit ≤ 10 ^ 9 }
        ensures { Stands result unit [] }
    {
        Neighbour {
            unit,
            expiry: None,
            enabled: false,
        }
    }

    /// Takes the place of what was heard before: it counts at the ticks from `now` on, as many units as
    /// its time to live (IEEE 802.1AB clause 8.5.4).
    pub fn heard(&mut self, now: Tick, pdu: &Pdu)
        requires { now.0 ≤ 10 ^ 18 }
        ensures { (unit : ℕ) (calls : List Heard) → Stands self.old unit calls
            → Stands self.new unit (calls ++ record { tick = now.0; says = advert_in (fields_in pdu.now) } ∷ []) }
    {
        self.expiry = expiry_of(now, pdu.ttl, self.unit);
        self.enabled = pdu.is_enabled();
    }

    /// Whether the last advert heard counts at this tick, and says that preemption is supported and enabled.
    pub fn good(&self, now: Tick) -> bool
        ensures { (unit : ℕ) (calls : List Heard) → Stands self.now unit calls
            → (IsTrue result ↔ CountsEnabled unit calls now.0) }
    {
        match self.expiry {
            Some(expiry) => self.enabled && now.0 < expiry.0,
            None => false,
        }
    }

    /// The tick at which the last advert heard runs out, also when it is over. None where nothing was
    /// heard, or the last one's time to live is 0.
    pub fn due(&self) -> Option<Tick>
        ensures { (unit : ℕ) (calls : List Heard) → Stands self.now unit calls
            → option_map (λ tick. tick.0) result ≡ expiry unit (last_heard calls) }
    {
        self.expiry
    }
}

// When an advert that is heard now runs out, where it ever counts.
fn expiry_of(now: Tick, ttl: u16, unit: u64) -> Option<Tick>
    requires now { now.0 ≤ 10 ^ 18 }
    requires unit { unit ≤ 10 ^ 9 }
    ensures { option_map (λ tick. tick.0) result ≡ (if ttl == 0 then None else Some (now.0 + ttl * unit)) }
{
    if ttl == 0 {
        return None;
    }
    Some(Tick(now.0 + u64::from(ttl) * unit))
}
