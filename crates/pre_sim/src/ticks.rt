ghost use Rattle.std.specs.Prelude.{◌≡◌, ◌↔◌, ◌≤◌, ◌+◌, ◌*◌, ◌^◌, IfOk, OnOk, IsTrue, length, vec_len};
ghost use Rattle.pre_sim.specs.Telling.{HasCause};
ghost use Rattle.pre_sim.specs.Parts.{TellsPart, NoArrival, SetsPart, SetsFront, SendsPart, SendsFront, EntriesPart, EntriesFront, Carries, CarriesFront, CarriesAlias};
ghost use Rattle.pre_sim.specs.Parts.{IsReached, TickPart, TickFront, AdvancePart, AdvanceFront, scenario_of};
ghost use Rattle.pre_sim.specs.Reach.{AllFit, IsWithin};
ghost use Rattle.pre_sim.specs.Keeps.{IsKept, AreReady, AreSettled, SameLinks};

use crate::arrivals::arrivals;
use crate::closing::close;
use crate::ends::ends;
use crate::entering::{relays, send};
use crate::expiries::expiries;
use crate::halts::Halt;
use crate::lanes::Lane;
use crate::plans::Plan;
use crate::starts::starts;
use crate::telling::tell;
use pre_base::Tick;
use pre_bridge::{Relay, takes_law};
use pre_laws::{deliveries_are_of_frames_sent, files_give_routes};
use pre_rings::FrameStore;
use pre_trace::{Event, Watcher};

/// How far a run is.
#[derive(Drop)]
pub(crate) struct Progress {
    /// What is on each arc or waits for it, and what its ends know.
    pub lanes: Vec<Lane>,
    /// The frames inside the bridges.
    pub relay: Relay,
    /// The octets of all frames that wait, are being sent or are inside a bridge.
    pub store: FrameStore,
    /// How many `set` lines are over.
    pub set: usize,
    /// How many sends are over.
    pub sent: usize,
    pub delivered: u64,
    pub dropped: u64,
}

/// What the script sets at a tick.
fn sets<W: Watcher>(
    plan: &Plan,
    now: Tick,
    progress: &mut Progress,
    watcher: &mut W,
) -> Result<(), Halt>
    requires fit { AllFit plan.now.net.now plan.now.streams.now plan.now.script.now }
    requires lanes { vec_len progress.old.lanes ≡ length plan.now.net.now.arcs }
    ensures lanes { vec_len progress.new.lanes ≡ length plan.now.net.now.arcs }
    ensures counts { (progress.new.sent ≡ progress.old.sent) × (progress.new.dropped ≡ progress.old.dropped) }
    ensures links { SameLinks progress.old.lanes.items progress.new.lanes.items }
    ensures part { TellsPart plan.now.net.now result (W.took watcher.old) (W.took watcher.new) (W.torn watcher.new)
        (λ x es. SetsPart (scenario_of plan.now) now.0 progress.old progress.new es) (SetsFront (scenario_of plan.now) now.0 progress.old) NoArrival }
    ensures cause { HasCause (W.faults watcher.old) (W.faults watcher.new) result }
    ensures same { W.same watcher.old watcher.new }
{
    let lines = plan.script.sets.as_slice();
    while progress.set < lines.len() && lines[progress.set].tick == now {
        let line = lines[progress.set];
        progress.set += 1;
        progress.lanes[usize::from(line.arc.0)].setting = line.value;
        let set = Event::Set {
            tick: now,
            arc: line.arc,
            value: line.value,
        };
        tell(plan.net, watcher, &set)?;
    }
    Ok(())
}

/// The sends of a tick, in the order of their frames.
fn sends<W: Watcher>(
    plan: &Plan,
    now: Tick,
    progress: &mut Progress,
    watcher: &mut W,
) -> Result<(), Halt>
    requires fit { AllFit plan.now.net.now plan.now.streams.now plan.now.script.now }
    requires now { now.0 ≤ 4 * 10 ^ 12 }
    requires lanes { vec_len progress.old.lanes ≡ length plan.now.net.now.arcs }
    requires counts { IsWithin (now.0 + 1) progress.old }
    requires kept { IsKept (scenario_of plan.now) now.0 progress.old }
    ensures lanes { vec_len progress.new.lanes ≡ length plan.now.net.now.arcs }
    ensures counts { IsWithin (now.0 + 1) progress.new }
    ensures kept { OnOk result (IsKept (scenario_of plan.now) now.0 progress.new) }
    ensures links { SameLinks progress.old.lanes.items progress.new.lanes.items }
    ensures part { TellsPart plan.now.net.now result (W.took watcher.old) (W.took watcher.new) (W.torn watcher.new)
        (λ x es. SendsPart (scenario_of plan.now) now.0 progress.old progress.new es) (SendsFront (scenario_of plan.now) now.0 progress.old) NoArrival }
    ensures cause { HasCause (W.faults watcher.old) (W.faults watcher.new) result }
    ensures same { W.same watcher.old watcher.new }
{
    let lines = plan.script.sends.as_slice();
    while progress.sent < lines.len() && lines[progress.sent].send.tick == now {
        let number = progress.sent;
        progress.sent = number + 1;
        let entered = send(
            plan,
            now,
            number,
            &mut progress.lanes,
            &mut progress.store,
            watcher,
        )?;
        progress.dropped += u64::from(!entered);
    }
    Ok(())
}

/// What comes to rings at a tick: what the bridges hand on, and then what is sent.
fn entries<W: Watcher>(
    plan: &Plan,
    now: Tick,
    progress: &mut Progress,
    watcher: &mut W,
) -> Result<(), Halt>
    requires fit { AllFit plan.now.net.now plan.now.streams.now plan.now.script.now }
    requires now { now.0 ≤ 4 * 10 ^ 12 }
    requires lanes { vec_len progress.old.lanes ≡ length plan.now.net.now.arcs }
    requires counts { IsWithin now.0 progress.old }
    requires kept { IsKept (scenario_of plan.now) now.0 progress.old }
    ensures lanes { vec_len progress.new.lanes ≡ length plan.now.net.now.arcs }
    ensures counts { IsWithin (now.0 + 1) progress.new }
    ensures kept { OnOk result (IsKept (scenario_of plan.now) now.0 progress.new) }
    ensures links { SameLinks progress.old.lanes.items progress.new.lanes.items }
    ensures part { TellsPart plan.now.net.now result (W.took watcher.old) (W.took watcher.new) (W.torn watcher.new)
        (λ x es. EntriesPart (scenario_of plan.now) now.0 progress.old progress.new es) (EntriesFront (scenario_of plan.now) now.0 progress.old) NoArrival }
    ensures cause { HasCause (W.faults watcher.old) (W.faults watcher.new) result }
    ensures same { W.same watcher.old watcher.new }
{
    takes_law();
    let lost = relays(
        plan,
        now,
        &mut progress.lanes,
        &mut progress.relay,
        &mut progress.store,
        watcher,
    )?;
    progress.dropped += lost;
    sends(plan, now, progress, watcher)
}

/// What is set, ends, arrives and expires at a tick.
fn land<W: Watcher>(
    plan: &Plan,
    now: Tick,
    progress: &mut Progress,
    watcher: &mut W,
) -> Result<(), Halt>
    requires fit { AllFit plan.now.net.now plan.now.streams.now plan.now.script.now }
    requires now { now.0 ≤ 4 * 10 ^ 12 }
    requires until { now.0 ≤ plan.now.script.now.until.0 }
    requires lanes { vec_len progress.old.lanes ≡ length plan.now.net.now.arcs }
    requires kept { IsKept (scenario_of plan.now) now.0 progress.old }
    requires ready { AreReady now.0 progress.old.lanes.items }
    requires reached { IsReached (scenario_of plan.now) now.0 0 progress.old }
    ensures lanes { vec_len progress.new.lanes ≡ length plan.now.net.now.arcs }
    ensures counts { (progress.new.sent ≡ progress.old.sent) × (progress.new.dropped ≡ progress.old.dropped) }
    ensures kept { OnOk result (IsKept (scenario_of plan.now) now.0 progress.new) }
    ensures settled { OnOk result (AreSettled now.0 progress.new.lanes.items) }
    ensures part { TellsPart plan.now.net.now result (W.took watcher.old) (W.took watcher.new) (W.torn watcher.new)
        (λ x es. Carries (scenario_of plan.now) now.0 0 now.0 (1 + 3 * length plan.now.net.now.arcs) progress.old progress.new es)
        (CarriesFront (scenario_of plan.now) now.0 0 progress.old) (CarriesAlias (scenario_of plan.now) now.0 0 progress.old) }
    ensures cause { HasCause (W.faults watcher.old) (W.faults watcher.new) result }
    ensures same { W.same watcher.old watcher.new }
{
    files_give_routes();
    deliveries_are_of_frames_sent();
    sets(plan, now, progress, watcher)?;
    let Progress {
        lanes,
        relay,
        store,
        ..
    } = progress;
    ends(plan, now, lanes, store, watcher)?;
    let delivered = arrivals(plan, now, lanes, relay, store, watcher)?;
    expiries(plan, now, lanes, watcher)?;
    progress.delivered = progress.delivered.saturating_add(delivered);
    Ok(())
}

/// What comes to rings at a tick, and what begins.
fn leave<W: Watcher>(
    plan: &Plan,
    now: Tick,
    progress: &mut Progress,
    watcher: &mut W,
) -> Result<(), Halt>
    requires fit { AllFit plan.now.net.now plan.now.streams.now plan.now.script.now }
    requires now { now.0 ≤ 4 * 10 ^ 12 }
    requires lanes { vec_len progress.old.lanes ≡ length plan.now.net.now.arcs }
    requires counts { IsWithin now.0 progress.old }
    requires kept { IsKept (scenario_of plan.now) now.0 progress.old }
    requires settled { AreSettled now.0 progress.old.lanes.items }
    ensures lanes { vec_len progress.new.lanes ≡ length plan.now.net.now.arcs }
    ensures counts { IsWithin (now.0 + 1) progress.new }
    ensures kept { OnOk result (IsKept (scenario_of plan.now) now.0 progress.new) }
    ensures settled { OnOk result (AreSettled now.0 progress.new.lanes.items) }
    ensures part { TellsPart plan.now.net.now result (W.took watcher.old) (W.took watcher.new) (W.torn watcher.new)
        (λ x es. Carries (scenario_of plan.now) now.0 (1 + 3 * length plan.now.net.now.arcs) (now.0 + 1) 0 progress.old progress.new es)
        (CarriesFront (scenario_of plan.now) now.0 (1 + 3 * length plan.now.net.now.arcs) progress.old) NoArrival }
    ensures cause { HasCause (W.faults watcher.old) (W.faults watcher.new) result }
    ensures same { W.same watcher.old watcher.new }
{
    entries(plan, now, progress, watcher)?;
    starts(plan, now, &mut progress.lanes, watcher)
}

/// All that happens at a tick.
fn run_tick<W: Watcher>(
    plan: &Plan,
    now: Tick,
    progress: &mut Progress,
    watcher: &mut W,
) -> Result<(), Halt>
    requires fit { AllFit plan.now.net.now plan.now.streams.now plan.now.script.now }
    requires now { now.0 ≤ 4 * 10 ^ 12 }
    requires until { now.0 ≤ plan.now.script.now.until.0 }
    requires lanes { vec_len progress.old.lanes ≡ length plan.now.net.now.arcs }
    requires counts { IsWithin now.0 progress.old }
    requires kept { IsKept (scenario_of plan.now) now.0 progress.old }
    requires ready { AreReady now.0 progress.old.lanes.items }
    requires reached { IsReached (scenario_of plan.now) now.0 0 progress.old }
    ensures lanes { vec_len progress.new.lanes ≡ length plan.now.net.now.arcs }
    ensures counts { IsWithin (now.0 + 1) progress.new }
    ensures kept { OnOk result (IsKept (scenario_of plan.now) now.0 progress.new) }
    ensures settled { OnOk result (AreSettled now.0 progress.new.lanes.items) }
    ensures ready { OnOk result (AreReady (now.0 + 1) progress.new.lanes.items) }
    ensures part { TellsPart plan.now.net.now result (W.took watcher.old) (W.took watcher.new) (W.torn watcher.new)
        (λ x es. TickPart (scenario_of plan.now) now.0 progress.old progress.new es) (TickFront (scenario_of plan.now) now.0 progress.old) (CarriesAlias (scenario_of plan.now) now.0 0 progress.old) }
    ensures cause { HasCause (W.faults watcher.old) (W.faults watcher.new) result }
    ensures same { W.same watcher.old watcher.new }
{
    land(plan, now, progress, watcher)?;
    leave(plan, now, progress, watcher)
}

/// A tick, and behind the last one the closing events: whether that was it.
pub(crate) fn advance<W: Watcher>(
    plan: &Plan,
    now: Tick,
    progress: &mut Progress,
    watcher: &mut W,
) -> Result<bool, Halt>
    requires fit { AllFit plan.now.net.now plan.now.streams.now plan.now.script.now }
    requires now { now.0 ≤ 4 * 10 ^ 12 }
    requires until { now.0 ≤ plan.now.script.now.until.0 }
    requires lanes { vec_len progress.old.lanes ≡ length plan.now.net.now.arcs }
    requires counts { IsWithin now.0 progress.old }
    requires kept { IsKept (scenario_of plan.now) now.0 progress.old }
    requires ready { AreReady now.0 progress.old.lanes.items }
    requires reached { IsReached (scenario_of plan.now) now.0 0 progress.old }
    ensures lanes { vec_len progress.new.lanes ≡ length plan.now.net.now.arcs }
    ensures counts { IsWithin (now.0 + 1) progress.new }
    ensures kept { OnOk result (IsKept (scenario_of plan.now) now.0 progress.new) }
    ensures settled { OnOk result (AreSettled now.0 progress.new.lanes.items) }
    ensures ready { OnOk result (AreReady (now.0 + 1) progress.new.lanes.items) }
    ensures last { IfOk result (λ last. IsTrue last ↔ (now ≡ plan.now.script.now.until)) }
    ensures part { TellsPart plan.now.net.now result (W.took watcher.old) (W.took watcher.new) (W.torn watcher.new)
        (λ last es. AdvancePart (scenario_of plan.now) now.0 progress.old progress.new last es) (AdvanceFront (scenario_of plan.now) now.0 progress.old)
        (CarriesAlias (scenario_of plan.now) now.0 0 progress.old) }
    ensures cause { HasCause (W.faults watcher.old) (W.faults watcher.new) result }
    ensures same { W.same watcher.old watcher.new }
{
    run_tick(plan, now, progress, watcher)?;
    if now != plan.script.until {
        return Ok(false);
    }
    close(plan, progress, watcher)?;
    Ok(true)
}
