ghost use Rattle.std.specs.Prelude.{ℕ, ◌≡◌, ◌<◌, ◌≤◌, ◌+◌, ◌*◌, ◌^◌, List, [], ◌∷◌, IfOk, OnOk, length};
ghost use Rattle.pre_rings.specs.Stores.{IsOut};
ghost use Rattle.pre_bridge.specs.Inside.{Call, Entry, inside};
ghost use Rattle.pre_memory.specs.Slots.{slots_out};
ghost use Rattle.pre_bridge.specs.Relays.{Stands};
ghost use Rattle.pre_sim.specs.Telling.{HasCause};
ghost use Rattle.pre_sim.specs.Reach.{AllFit};
ghost use Rattle.pre_sim.specs.Keeps.{Keeps, GoesOver, SameLinks};
ghost use Rattle.pre_sim.specs.Sends.{ComesFront, ComesPart, KeepsSame, RelaysFront, RelaysPart, comes_to, drops_of, sent_frame};
ghost use Rattle.pre_sim.specs.Parts.{TellsPart, NoArrival, RingTells, RingFront, ComePart, scenario_of};

use crate::frames::{first_arc, frame_of};
use crate::halts::Halt;
use crate::lanes::Lane;
use crate::plans::Plan;
use crate::telling::tell;
use pre_base::{ArcId, Tick};
use pre_bridge::{Relay, takes_law, turn_law};
use pre_rings::{FrameRef, FrameStore, PortRings};
use pre_topo::Network;
use pre_trace::{Event, Watcher};

/// A frame's entry into the ring of its priority, or its drop where that is full: whether it entered.
pub(crate) fn enter<W: Watcher>(
    net: &Network,
    now: Tick,
    arc: ArcId,
    frame: FrameRef,
    rings: &mut PortRings,
    store: &mut FrameStore,
    watcher: &mut W,
) -> Result<bool, Halt>
    requires arc { arc.0 < length net.now.arcs }
    requires out { IsOut store.old frame.slot }
    ensures part { TellsPart net.now result (W.took watcher.old) (W.took watcher.new) (W.torn watcher.new)
        (λ entered es. RingTells now.0 arc.0 frame store.old store.new rings.old rings.new entered es) (RingFront now.0 arc.0 frame store.old rings.old) NoArrival }
    ensures cause { HasCause (W.faults watcher.old) (W.faults watcher.new) result }
    ensures same { W.same watcher.old watcher.new }
{
    let prio = frame.prio;
    let number = frame.frame;
    if let Err(refused) = rings.enter(prio, frame) {
        store.give_back(refused.slot);
        let dropped = Event::Dropped {
            tick: now,
            arc,
            prio,
            frame: number,
        };
        tell(net, watcher, &dropped)?;
        return Ok(false);
    }
    let entered = Event::Enter {
        tick: now,
        arc,
        prio,
        frame: number,
    };
    tell(net, watcher, &entered)?;
    Ok(true)
}

/// A frame comes to its ring on an arc: whether it entered.
pub(crate) fn come<W: Watcher>(
    plan: &Plan,
    now: Tick,
    arc: ArcId,
    frame: FrameRef,
    lanes: &mut [Lane],
    store: &mut FrameStore,
    watcher: &mut W,
) -> Result<bool, Halt>
    requires arc { arc.0 < length plan.now.net.now.arcs }
    requires lanes { length lanes.old ≡ length plan.now.net.now.arcs }
    requires keeps { (entries : List Entry) × Keeps (scenario_of plan.now) store.old lanes.old entries (frame ∷ []) }
    requires over { GoesOver (scenario_of plan.now) frame.frame arc.0 }
    ensures links { SameLinks lanes.old lanes.new }
    ensures part { TellsPart plan.now.net.now result (W.took watcher.old) (W.took watcher.new) (W.torn watcher.new)
        (λ entered es. ComePart (scenario_of plan.now) now.0 arc.0 frame store.old store.new lanes.old lanes.new entered es)
        (ComesFront (scenario_of plan.now) now.0 (comes_to arc.0 frame ∷ []) lanes.old) NoArrival }
    ensures cause { HasCause (W.faults watcher.old) (W.faults watcher.new) result }
    ensures same { W.same watcher.old watcher.new }
{
    let rings = &mut lanes[arc.0 as usize].rings;
    enter(plan.net, now, arc, frame, rings, store, watcher)
}

/// What the bridges hand on at a tick, by arriving arc: how many frames were dropped. Of what arrives by an arc one frame
/// at most is due at a tick.
pub(crate) fn relays<W: Watcher>(
    plan: &Plan,
    now: Tick,
    lanes: &mut [Lane],
    relay: &mut Relay,
    store: &mut FrameStore,
    watcher: &mut W,
) -> Result<u64, Halt>
    requires fit { AllFit plan.now.net.now plan.now.streams.now plan.now.script.now }
    requires lanes { length lanes.old ≡ length plan.now.net.now.arcs }
    requires kept { (calls : List Call) × Stands relay.old plan.now.net.now plan.now.streams.now calls
        × Keeps (scenario_of plan.now) store.old lanes.old (inside plan.now.net.now plan.now.streams.now calls) [] }
    ensures few { IfOk result (λ lost. lost ≤ length plan.now.net.now.arcs) }
    ensures links { SameLinks lanes.old lanes.new }
    ensures kept { OnOk result ((calls : List Call) × Stands relay.new plan.now.net.now plan.now.streams.now calls
        × Keeps (scenario_of plan.now) store.new lanes.new (inside plan.now.net.now plan.now.streams.now calls) []) }
    ensures latest { relay.new.latest ≡ relay.old.latest }
    ensures part { TellsPart plan.now.net.now result (W.took watcher.old) (W.took watcher.new) (W.torn watcher.new)
        (λ lost es. RelaysPart (scenario_of plan.now) now.0 relay.old lanes.old relay.new lanes.new lost es) (RelaysFront (scenario_of plan.now) now.0 relay.old lanes.old) NoArrival }
    ensures cause { HasCause (W.faults watcher.old) (W.faults watcher.new) result }
    ensures same { W.same watcher.old watcher.new }
{
    takes_law();
    turn_law();
    let mut lost: u64 = 0;
    for _arc in 0..lanes.len() {
        let Some((next, frame)) = relay.take_due(now) else {
            return Ok(lost);
        };
        let entered = come(plan, now, next, frame, lanes, store, watcher)?;
        lost += u64::from(!entered);
    }
    Ok(lost)
}

/// One send of the script: whether its frame entered.
pub(crate) fn send<W: Watcher>(
    plan: &Plan,
    now: Tick,
    number: usize,
    lanes: &mut [Lane],
    store: &mut FrameStore,
    watcher: &mut W,
) -> Result<bool, Halt>
    requires fit { AllFit plan.now.net.now plan.now.streams.now plan.now.script.now }
    requires known { number < length plan.now.script.now.sends }
    requires lanes { length lanes.old ≡ length plan.now.net.now.arcs }
    requires keeps { (entries : List Entry) × Keeps (scenario_of plan.now) store.old lanes.old entries [] }
    requires slot { slots_out store.old < length store.old }
    ensures links { SameLinks lanes.old lanes.new }
    ensures keeps { OnOk result (KeepsSame (scenario_of plan.now) store.old store.new lanes.old lanes.new) }
    ensures part { TellsPart plan.now.net.now result (W.took watcher.old) (W.took watcher.new) (W.torn watcher.new)
        (λ entered es. ComesPart (scenario_of plan.now) now.0 (sent_frame (scenario_of plan.now) number ∷ []) lanes.old lanes.new (drops_of entered) es)
        (ComesFront (scenario_of plan.now) now.0 (sent_frame (scenario_of plan.now) number ∷ []) lanes.old) NoArrival }
    ensures cause { HasCause (W.faults watcher.old) (W.faults watcher.new) result }
    ensures same { W.same watcher.old watcher.new }
{
    let arc = first_arc(plan, number);
    let frame = frame_of(plan, number, store);
    come(plan, now, arc, frame, lanes, store, watcher)
}
