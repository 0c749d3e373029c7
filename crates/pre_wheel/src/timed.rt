use pre_base::Tick;

/// A machine that acts at known ticks.
///
/// `last` is the tick of its last call, and `told` what the machine tells at a tick with no call in between. Time alone
/// changes nothing of it before the tick at which the machine is due, and never where it is not due (`stays`). What is to
/// be done at the tick at which it is due is done by a call.
pub trait Timed {
    ghost use Rattle.std.specs.Prelude.{◌≡◌, ℕ, ◌<◌, Option};
    ghost use Rattle.pre_base.specs.declared.numbers.Tick.{Tick};
    ghost use Rattle.pre_wheel.specs.Until.{IsDueAfter};

    ghost last: { Self → ℕ };

    ghost falls_due: { Self → Option Tick };

    /// What it tells.
    ghost Told: { Type 0 };

    ghost told: { Self → ℕ → Told };

    /// The next tick at which the machine has something to do, if there is one.
    fn due(&self) -> Option<Tick>
        ensures { result ≡ falls_due self.now };

    ghost stays: { (machine : Self) (t : ℕ) → last machine < t → IsDueAfter t (falls_due machine) → told machine t ≡ told machine (last machine) };
}
