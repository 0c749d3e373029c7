ghost use Rattle.std.specs.Prelude.{◌≡◌, ◌<◌, ◌≤◌, ◌+◌, ◌*◌, ◌^◌, IfSome, IsNone, ◌↔◌, List, None, length, take};
ghost use Rattle.pre_incoming.specs.declared.landings.Landed.TheVariants.{Alias, Frame, Lldp};
ghost use Rattle.pre_base.specs.declared.numbers.FrameNo.{FrameNo};
ghost use Rattle.pre_base.specs.declared.limits.TheConstants.{GREATEST_FRAME};
ghost use Rattle.pre_history.specs.Scenario.{FrameOf};
ghost use Rattle.pre_history.specs.Rules.{arrival};
ghost use Rattle.pre_incoming.specs.Landings.{HoldsFrame, Lands, result_of};
ghost use Rattle.pre_incoming.specs.Wires.{Receives};
ghost use Rattle.pre_history.specs.History.{History};
ghost use Rattle.pre_history.specs.Placed.{moment_of};
ghost use Rattle.pre_history.specs.Legal.{LegalBefore};
ghost use Rattle.pre_bridge.specs.Inside.{Call};
ghost use Rattle.pre_bridge.specs.Relays.{Stands};
ghost use Rattle.pre_history.specs.Moments.{Phase};
ghost use Rattle.pre_sim.specs.Telling.{HasCause};
ghost use Rattle.pre_sim.specs.Reach.{AllFit};
ghost use Rattle.pre_sim.specs.Keeps.{LaneKeeps, AreReady};
ghost use Rattle.pre_sim.specs.Arriving.{KeepsInside, Listens, delivered_at};
ghost use Rattle.pre_sim.specs.Parts.{TellsPart, TellsOne, LaneFront, LaneAlias, ArrivalPart, ArrivalsPart, ArrivalsAlias, LanesFront, scenario_of, count_of};
ghost use Rattle.pre_sim.specs.Room.{ArrivalReached, ArrivalsReached, TakesOne};

use crate::frames::{row_of, stored};
use crate::halts::Halt;
use crate::lanes::Lane;
use crate::plans::{Plan, arc_at};
use crate::telling::tell;
use pre_base::{ArcId, FrameNo, GREATEST_FRAME, Tick};
use pre_bridge::{Relay, route_law};
use pre_incoming::{Incoming, Landed, Landing};
use pre_links::{Partner, adverts_are_sent};
use pre_rings::{FrameRef, FrameStore};
use pre_topo::Network;
use pre_trace::{Event, Outcome, Watcher};

/// The arrival of an mPacket at the end of an arc, where one is due: whether its frame was delivered. What was in `octets` is gone.
pub(crate) fn arrive_on<W: Watcher>(
    plan: &Plan,
    now: Tick,
    arc: ArcId,
    lane: &mut Lane,
    octets: &mut [u8; GREATEST_FRAME as usize],
    relay: &mut Relay,
    store: &mut FrameStore,
    watcher: &mut W,
) -> Result<bool, Halt>
    requires arc { arc.0 < length plan.now.net.now.arcs }
    requires now { now.0 ≤ 4 * 10 ^ 12 }
    requires until { now.0 ≤ plan.now.script.now.until.0 }
    requires fit { AllFit plan.now.net.now plan.now.streams.now plan.now.script.now }
    requires keeps { LaneKeeps (scenario_of plan.now) store.old arc.0 lane.old }
    requires reached { ArrivalReached (scenario_of plan.now) now.0 arc.0 lane.old relay.old store.old }
    requires stands { (calls : List Call) × Stands relay.old plan.now.net.now plan.now.streams.now calls }
    requires latest { relay.old.latest.0 ≤ now.0 }
    ensures part { TellsPart plan.now.net.now result (W.took watcher.old) (W.took watcher.new) (W.torn watcher.new)
        (λ x es. ArrivalPart (scenario_of plan.now) now.0 arc.0 (count_of x) store.old store.new relay.old relay.new lane.old lane.new es)
        (LaneFront (scenario_of plan.now) now.0 (Phase.arrivals arc.0) arc.0 None lane.old) (LaneAlias (scenario_of plan.now) now.0 (Phase.arrivals arc.0) arc.0 None lane.old) }
    ensures link { lane.new.link ≡ lane.old.link }
    ensures latest { relay.new.latest.0 ≤ now.0 }
    ensures cause { HasCause (W.faults watcher.old) (W.faults watcher.new) result }
    ensures same { W.same watcher.old watcher.new }
{
    adverts_are_sent();
    route_law();
    let Some(landing) = land(plan, now, arc, &mut lane.incoming, octets) else {
        return Ok(false);
    };
    let ordinal = landing.ord;
    let Some(outcome) = outcome_of(landing.given) else {
        return Err(Halt::Alias { arc, ordinal });
    };
    listen(
        &mut lane.partner,
        now,
        landing.given,
        landing.size,
        &*octets,
    );
    tell_arrival(plan.net, now, arc, ordinal, outcome, watcher)?;
    let Landed::Frame(frame) = landing.given else {
        return Ok(false);
    };
    let octets = &octets[..landing.size];
    if keep_inside(plan, now, arc, frame, octets, relay, store) {
        return Ok(false);
    }
    deliver(plan.net, now, arc, frame, octets, watcher)?;
    Ok(true)
}

/// What lands at the end of an arc; a frame stands at the front of `into`.
fn land(
    plan: &Plan,
    now: Tick,
    arc: ArcId,
    incoming: &mut Incoming,
    into: &mut [u8; GREATEST_FRAME as usize],
) -> Option<Landing>
    requires arc { arc.0 < length plan.now.net.now.arcs }
    requires fit { AllFit plan.now.net.now plan.now.streams.now plan.now.script.now }
    ensures lands { (h : History) → LegalBefore (scenario_of plan.now) h (moment_of (scenario_of plan.now) now.0 (Phase.arrivals arc.0))
        → Receives (scenario_of plan.now) h arc.0 incoming.old → Lands (scenario_of plan.now) h now.0 arc.0 result into.new incoming.new }
    ensures frame { IfSome result (λ x. HoldsFrame (scenario_of plan.now) x.size into.new x.given) }
{
    incoming.land(&plan.inputs(), now, arc, into)
}

/// The result that a trace tells; an alias has none.
fn outcome_of(given: Landed) -> Option<Outcome>
    ensures some { IfSome result (λ r. r ≡ result_of given) }
    ensures none { IsNone result ↔ (given ≡ Alias) }
{
    match given {
        Landed::Lost => Some(Outcome::Lost),
        Landed::Frame(_) => Some(Outcome::Frame),
        Landed::Lldp => Some(Outcome::Lldp),
        Landed::Part => Some(Outcome::Part),
        Landed::Verify => Some(Outcome::Verify),
        Landed::Respond => Some(Outcome::Respond),
        Landed::Nothing => Some(Outcome::Nothing),
        Landed::Alias => None,
    }
}

/// Keeps what an arrival says of the partner; an LLDP frame stands at the front of the octets.
fn listen(partner: &mut Partner, now: Tick, given: Landed, size: usize, octets: &[u8])
    requires now { now.0 ≤ 10 ^ 18 }
    requires size { (given ≡ Lldp) → (18 ≤ size) × (size ≤ length octets.now) }
    ensures hears { Listens now.0 given (take size octets.now) partner.old partner.new }
    ensures unheard { (f : FrameNo) → given ≡ Frame f → partner.new ≡ partner.old }
{
    match given {
        Landed::Lldp => partner.lldp(now, &octets[..size]),
        Landed::Verify => partner.verify(now),
        Landed::Respond => partner.respond(now),
        Landed::Lost | Landed::Frame(_) | Landed::Part | Landed::Nothing | Landed::Alias => {}
    }
}

/// Puts the frame of an arrival into the bridge, where a route goes on with it: whether one does.
fn keep_inside(
    plan: &Plan,
    now: Tick,
    arc: ArcId,
    frame: FrameNo,
    octets: &[u8],
    relay: &mut Relay,
    store: &mut FrameStore,
) -> bool
    requires now { now.0 ≤ 4 * 10 ^ 12 }
    requires fit { AllFit plan.now.net.now plan.now.streams.now plan.now.script.now }
    requires known { frame.0 < length plan.now.script.now.sends }
    requires octets { octets.now ≡ FrameOf (scenario_of plan.now) frame.0 }
    requires latest { relay.old.latest.0 ≤ now.0 }
    requires takes { TakesOne store.old relay.old arc.0 }
    ensures inside { KeepsInside (scenario_of plan.now) now.0 arc.0 frame store.old store.new relay.old relay.new result }
    ensures latest { relay.new.latest.0 ≤ now.0 }
{
    let row = row_of(plan, frame.0 as usize);
    let kept = FrameRef {
        slot: stored(store, octets),
        frame,
        size: octets.len() as u16,
        prio: row.prio,
        vid: row.vid,
    };
    match relay.deliver(now, arc, kept) {
        Ok(()) => true,
        Err(kept) => {
            store.give_back(kept.slot);
            false
        }
    }
}

/// The event of an arrival.
fn tell_arrival<W: Watcher>(
    net: &Network,
    now: Tick,
    arc: ArcId,
    ord: u64,
    outcome: Outcome,
    watcher: &mut W,
) -> Result<(), Halt>
    requires arc { arc.0 < length net.now.arcs }
    ensures one { TellsOne net.now result (W.took watcher.old) (W.took watcher.new) (W.torn watcher.new) (arrival now.0 arc.0 ord outcome) }
    ensures cause { HasCause (W.faults watcher.old) (W.faults watcher.new) result }
    ensures same { W.same watcher.old watcher.new }
{
    let arrive = Event::Arrive {
        tick: now,
        arc,
        ord,
        result: outcome,
    };
    tell(net, watcher, &arrive)
}

/// A frame's delivery at the end of an arc.
fn deliver<W: Watcher>(
    net: &Network,
    now: Tick,
    arc: ArcId,
    frame: FrameNo,
    octets: &[u8],
    watcher: &mut W,
) -> Result<(), Halt>
    requires arc { arc.0 < length net.now.arcs }
    requires size { (1 ≤ length octets.now) × (length octets.now ≤ GREATEST_FRAME) }
    ensures one { TellsOne net.now result (W.took watcher.old) (W.took watcher.new) (W.torn watcher.new) (delivered_at net.now now.0 arc.0 frame octets.now) }
    ensures cause { HasCause (W.faults watcher.old) (W.faults watcher.new) result }
    ensures same { W.same watcher.old watcher.new }
{
    let link = arc_at(net, arc);
    let deliver = Event::Deliver {
        tick: now,
        node: link.to,
        frame,
        hex: octets,
    };
    tell(net, watcher, &deliver)
}

/// The arrivals that are due, arc by arc: how many frames were delivered.
pub(crate) fn arrivals<W: Watcher>(
    plan: &Plan,
    now: Tick,
    lanes: &mut [Lane],
    relay: &mut Relay,
    store: &mut FrameStore,
    watcher: &mut W,
) -> Result<u64, Halt>
    requires fit { AllFit plan.now.net.now plan.now.streams.now plan.now.script.now }
    requires lanes { length lanes.old ≡ length plan.now.net.now.arcs }
    requires now { now.0 ≤ 4 * 10 ^ 12 }
    requires until { now.0 ≤ plan.now.script.now.until.0 }
    requires reached { ArrivalsReached (scenario_of plan.now) now.0 relay.old lanes.old store.old }
    requires ready { AreReady now.0 lanes.old }
    requires latest { relay.old.latest.0 ≤ now.0 }
    ensures ready { AreReady now.0 lanes.new }
    ensures part { TellsPart plan.now.net.now result (W.took watcher.old) (W.took watcher.new) (W.torn watcher.new)
        (λ x es. ArrivalsPart (scenario_of plan.now) now.0 (1 + length plan.now.net.now.arcs) (length plan.now.net.now.arcs) x store.old store.new relay.old relay.new lanes.old lanes.new es)
        (LanesFront (scenario_of plan.now) now.0 (1 + length plan.now.net.now.arcs) lanes.old) (ArrivalsAlias (scenario_of plan.now) now.0 lanes.old) }
    ensures latest { relay.new.latest.0 ≤ now.0 }
    ensures cause { HasCause (W.faults watcher.old) (W.faults watcher.new) result }
    ensures same { W.same watcher.old watcher.new }
{
    let mut delivered: u64 = 0;
    let mut octets = [0u8; GREATEST_FRAME as usize];
    for arc in 0..lanes.len() {
        let lane = &mut lanes[arc];
        let id = ArcId(arc as u16);
        let arrived = arrive_on(plan, now, id, lane, &mut octets, relay, store, watcher)?;
        delivered += u64::from(arrived);
    }
    Ok(delivered)
}
