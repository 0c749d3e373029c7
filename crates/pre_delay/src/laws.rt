ghost use Rattle.std.specs.Prelude.{◌≡◌, ℕ, ◌≤◌, ◌<◌, ◌+◌, ◌-◌, ◌*◌, List, filter, max, slice_get, sum_by, Some, true};
ghost use Rattle.pre_history.specs.History.{Begin, History};
ghost use Rattle.pre_history.specs.Legal.{Legal, LegalUpTo};
ghost use Rattle.pre_history.specs.Scenario.{Scenario, arc};
ghost use Rattle.pre_history.specs.Starts.{ExpressWaits, begun};
ghost use Rattle.pre_history.specs.Cuts.{IsCut};
ghost use Rattle.pre_history.specs.Moments.{Phase};
ghost use Rattle.pre_history.specs.Placed.{moment_of};
ghost use Rattle.pre_history.specs.Queries.{Entries};
ghost use Rattle.pre_history.specs.Selected.{RingEntry};
ghost use Rattle.pre_base.specs.declared.limits.TheConstants.{OVERHEAD};
ghost use Rattle.pre_streams.specs.declared.rows.Row.{Row};
ghost use Rattle.pre_streams.specs.Fits.{Fits as StreamsFit};
ghost use Rattle.pre_script.specs.Fits.{Fits as ScriptFits};
ghost use Rattle.pre_curve.specs.declared.curves.Curve.{Curve};
ghost use Rattle.pre_curve.specs.Windows.{InOrder, Obeys, Offer, offers_of};
ghost use Rattle.std.specs.List.{AllByRecursion as Every};
ghost use Rattle.pre_mpacket.specs.Pieces.{CutRule};
ghost use Rattle.pre_bound.specs.Solutions.{CoversDelay};
ghost use Rattle.pre_delay.specs.Ticks.{ObeysTicks, Passed, is_from_to};
ghost use Rattle.pre_bound.specs.Settled.{PriosBelow};
ghost use Rattle.pre_bound.specs.Good.{AreGood};
ghost use Rattle.pre_bound.specs.Uses.{TakesAt, has_port, is_stream, rate_of};
ghost use Rattle.pre_bound.specs.Listed.{GoodCertificate};
ghost use Rattle.pre_bound.specs.Values.{Values};
ghost use Rattle.pre_bound.specs.declared.certificate.Certificate.{Certificate};
ghost use Rattle.pre_delay.specs.Ports.{IsOnTime, PortIsTimely, PortObeys, StreamObeys, stream_of};
ghost use Rattle.pre_history.specs.Examples.{LosesOneFrame, SendsFirst, SendsOneFrame, lost_frame, one_frame};
ghost use Rattle.pre_delay.specs.Example.{pair_numbers};
ghost use Rattle.pre_delay.specs.Runs.{IsRun, sends_of};
ghost use Rattle.pre_delay.specs.Timely.{Timely, ticks_over};

/// What the rules of the files give of a run.
pub fn files_make_a_run()
    ensures { (w : Scenario) → StreamsFit w.net w.streams → ScriptFits w.net w.streams w.script → PriosBelow w.streams.rows
        → ((i : ℕ) (r : Row) (c : Curve) → slice_get w.streams.rows i ≡ Some r → r.curve ≡ Some c → Obeys (offers_of (sends_of w i)) c) → IsRun w }
{}

/// A busy period is at most the delay longer than the time up to the frame's entry. In it the arc is held by one block, then by the
/// octets of the port's streams, up to the entry, and of the higher priorities, up to its end; all streams leave some of its time.
pub fn busy_periods()
    ensures { (block work rate cost delay own since later period : ℕ) → CoversDelay block work rate cost delay
        → cost * (own + rate) < 1_000_000
        → later ≤ period → 1_000_000 * period ≤ 1_000_000 * (block + work) + cost * own * since + cost * rate * later
        → period ≤ delay + since }
{}

/// A fragment that began before a tick, from which on express frames wait until it is over, has left with its gap within a least
/// frame's time, or that of a fragment that can't be cut, of the tick. It is no longer than what was unsent of its frame.
pub fn blocks()
    ensures waited { (w : Scenario) (h : History) (b : Begin) (u size : ℕ) → 0 < (arc w b.arc).cost → b.tick < u → CutRule (ExpressWaits w h b.arc) (begun w h b) size
        → ((x : ℕ) → u ≤ x → x < b.tick + (arc w b.arc).cost * (size + OVERHEAD) → ExpressWaits w h b.arc x)
        → b.tick + (arc w b.arc).cost * (size + OVERHEAD) ≤ u + max (84 * (arc w b.arc).cost)
        ((arc w b.arc).cost * (64 * (1 + (arc w b.arc).add_frag) + 79)) }
    ensures own { (w : Scenario) (h : History) (b : Begin) (size : ℕ) → CutRule (ExpressWaits w h b.arc) (begun w h b) size → size ≤ (begun w h b).unsent }
{}

/// What obeys a burst and a rate, and leaves after at least one time and at most another, obeys in its new ticks the burst that has
/// grown by the rate in the time between.
pub fn bursts_grow()
    ensures { (burst rate delay least next : ℕ) (passed : List Passed) → least ≤ delay
        → 1_000_000 * burst + rate * (delay - least) ≤ 1_000_000 * next
        → ((from to : ℕ) → from ≤ to → 1_000_000 * sum_by (λ x. x.octets) (filter (λ x. is_from_to from to x.entry) passed) ≤ 1_000_000 * burst + rate * (to - from))
        → Every (λ x. (x.entry + least ≤ x.left) × (x.left ≤ x.entry + delay)) passed
        → (from to : ℕ) → from ≤ to → 1_000_000 * sum_by (λ x. x.octets) (filter (λ x. is_from_to from to x.left) passed) ≤ 1_000_000 * next + rate * (to - from) }
{}

/// Sends in order obey a curve in every window of places exactly if they obey it from each tick to each later one.
pub fn windows_are_ticks()
    ensures ticks { (offers : List Offer) (curve : Curve) → InOrder offers → Obeys offers curve → ObeysTicks curve.burst curve.rate offers }
    ensures places { (offers : List Offer) (curve : Curve) → InOrder offers → ObeysTicks curve.burst curve.rate offers → Obeys offers curve }
{}

/// Where what comes to the rings of a port and of the higher priorities on its arc obeys the certified bursts, each frame of the
/// port leaves within the delay, what waits there is within the size, and nothing is dropped.
pub fn port_law()
    ensures { (w : Scenario) (v : Values) (n : ℕ) (h : History) (a p : ℕ) → IsRun w → AreGood w.net w.streams.rows v → LegalUpTo w n h
        → has_port w.streams.rows a p ≡ true → PortObeys w h v a p → PortIsTimely w h (ticks_over w n) v a p }
{}

/// Where what comes to a hop of a stream before a tick obeys the certified burst, and leaves within the delay, what comes to the next
/// hop by the tick obeys the next one.
pub fn growth_law()
    ensures { (w : Scenario) (v : Values) (n t : ℕ) (h past rest : History) (i : ℕ) (r : Row) (hop a b : ℕ) → IsRun w → AreGood w.net w.streams.rows v
        → slice_get w.streams.rows i ≡ Some r → is_stream r ≡ true → TakesAt r hop b → TakesAt r (hop + 1) a
        → LegalUpTo w n h → n ≤ moment_of w (t + 1) Phase.sets → IsCut w (moment_of w t Phase.sets) n h past rest
        → StreamObeys w past b r.prio i (v.burst i hop) (rate_of r)
        → ((j : ℕ) (y : RingEntry) → slice_get (Entries past b r.prio) j ≡ Some y → stream_of w y.frame ≡ i → IsOnTime w past b t (v.delay b r.prio) y)
        → StreamObeys w h a r.prio i (v.burst i (hop + 1)) (rate_of r) }
{}

/// In each history of a run that is legal up to a moment, and in each that is legal to its end, a good certificate keeps its word:
/// entries obey, frames begin in time, queues are within their sizes and drop nothing, what is delivered is within its bound, and
/// spared frames arrive. Nothing is asked of how much flows send, of changes, of losses or of damage, nor of the ranks.
pub fn network_law()
    ensures so_far { (w : Scenario) (v : Values) (n : ℕ) (h : History) → IsRun w → AreGood w.net w.streams.rows v → LegalUpTo w n h → Timely w h (ticks_over w n) v }
    ensures whole { (w : Scenario) (v : Values) (h : History) → IsRun w → AreGood w.net w.streams.rows v → Legal w h → Timely w h (w.script.until.0 + 1) v }
    ensures certified { (w : Scenario) (c : Certificate) (h : History) → IsRun w → (good : GoodCertificate w.net w.streams c) → Legal w h → Timely w h (w.script.until.0 + 1) good.values }
{}

/// The premises can be met: with the built-in network and streams, which fit it as `pair` ensures, a script that sends one frame is a
/// run, the numbers of the certificate are good, and the run is timely, also where the frame is lost.
pub fn premises_can_be_met()
    ensures run { (w : Scenario) → SendsFirst w → StreamsFit w.net w.streams → IsRun w }
    ensures good { (w : Scenario) → SendsFirst w → AreGood w.net w.streams.rows pair_numbers }
    ensures timely { (w : Scenario) → SendsOneFrame w → StreamsFit w.net w.streams → Timely w (one_frame w) 5001 pair_numbers }
    ensures lost { (w : Scenario) → LosesOneFrame w → StreamsFit w.net w.streams → Timely w (lost_frame w) 5001 pair_numbers }
{
    pre_history::small_histories_are_legal();
}
