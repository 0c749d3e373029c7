ghost use Rattle.std.specs.Prelude.{◌≡◌, ℕ, ◌<◌, Option};
ghost use Rattle.std.specs.Option.{option_map};
ghost use Rattle.std.specs.FinMap as map;
ghost use Rattle.pre_base.specs.declared.numbers.Tick.{Tick};
ghost use Rattle.pre_wheel.specs.Dues.{Dues, IsFirstDue, IsEmpty};
ghost use Rattle.pre_wheel.specs.Until.{IsDueAfter};

use crate::Timed;

/// Before the least entry's tick no member is due, where each member stands on the wheel with the tick
/// at which it is due; and on a wheel with no entry no member is ever due.
pub fn skipping_law()
    ensures least { (dues : Dues) (first tick member t : ℕ) (due : Option Tick) → IsFirstDue dues first tick → map.get dues.due member ≡ option_map (λ d. d.0) due → t < tick → IsDueAfter t due }
    ensures none { (dues : Dues) (member t : ℕ) (due : Option Tick) → IsEmpty dues → map.get dues.due member ≡ option_map (λ d. d.0) due → IsDueAfter t due }
{}

/// A machine that stands on the wheel with the tick at which it is due tells, before the least entry's tick, what it told
/// at its last call; and so at every later tick where the wheel has no entry.
pub fn machines_stay<M: Timed>()
    ensures least { (dues : Dues) (first tick member t : ℕ) (machine : M)
        → IsFirstDue dues first tick → map.get dues.due member ≡ option_map (λ d. d.0) (M.falls_due machine)
        → M.last machine < t → t < tick → M.told machine t ≡ M.told machine (M.last machine) }
    ensures none { (dues : Dues) (member t : ℕ) (machine : M)
        → IsEmpty dues → map.get dues.due member ≡ option_map (λ d. d.0) (M.falls_due machine)
        → M.last machine < t → M.told machine t ≡ M.told machine (M.last machine) }
{
    skipping_law();
}
