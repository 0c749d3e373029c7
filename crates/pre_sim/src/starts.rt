ghost use Rattle.std.specs.Prelude.{◌≡◌, ◌<◌, ◌≤◌, ◌+◌, ◌*◌, ◌^◌, List, [], Some, true, false, length, slice_get, IfNone, IfSome};
ghost use Rattle.pre_mpacket.specs.Spelling.{HasCounts};
ghost use Rattle.pre_send.specs.Senders.{is_free, is_interrupted};
ghost use Rattle.pre_links.specs.Standing.{IsUpTo};
ghost use Rattle.pre_bridge.specs.Inside.{Entry};
ghost use Rattle.pre_history.specs.Moments.{Phase};
ghost use Rattle.pre_sim.specs.Telling.{HasCause};
ghost use Rattle.pre_sim.specs.Reach.{AllFit};
ghost use Rattle.pre_sim.specs.Keeps.{Store, Keeps, KeepsOn, LaneKeeps, AreSettled};
ghost use Rattle.pre_sim.specs.Starting.{IsActiveBy, Starts};
ghost use Rattle.pre_sim.specs.Parts.{TellsPart, NoArrival, LanePart, LaneFront, LanesPart, LanesFront, scenario_of};

use crate::expiries::partner_of;
use crate::halts::Halt;
use crate::lanes::{Lane, take_first};
use crate::plans::{Plan, arc_at};
use crate::telling::tell;
use pre_base::{ArcId, Prio, Tick};
use pre_history::{events_before_their_end, mpackets_in_order};
use pre_links::Partner;
use pre_lldp::write_lldp;
use pre_outgoing::Begun;
use pre_send::Choice;
use pre_topo::{Arc, Mode, Policy};
use pre_trace::{Event, Watcher};

/// What begins on an arc, where it is free; and where it isn't, its sender is told whether an express frame waits.
pub(crate) fn start_on<W: Watcher>(
    plan: &Plan,
    now: Tick,
    arc: ArcId,
    lane: &mut Lane,
    partner: &Partner,
    watcher: &mut W,
) -> Result<(), Halt>
    requires arc { arc.0 < length plan.now.net.now.arcs }
    requires now { now.0 ≤ 4 * 10 ^ 12 }
    requires fit { AllFit plan.now.net.now plan.now.streams.now plan.now.script.now }
    requires settled { IsUpTo lane.old.link now.0 }
    requires keeps { (store : Store) × LaneKeeps (scenario_of plan.now) store arc.0 lane.old }
    ensures settled { IsUpTo lane.new.link now.0 }
    ensures part { TellsPart plan.now.net.now result (W.took watcher.old) (W.took watcher.new) (W.torn watcher.new)
        (λ x es. (store : Store) → LanePart (scenario_of plan.now) now.0 (Phase.starts arc.0) arc.0 (Some partner.now) lane.old 0 store store lane.new [] es)
        (LaneFront (scenario_of plan.now) now.0 (Phase.starts arc.0) arc.0 (Some partner.now) lane.old) NoArrival }
    ensures cause { HasCause (W.faults watcher.old) (W.faults watcher.new) result }
    ensures same { W.same watcher.old watcher.new }
{
    mpackets_in_order();
    events_before_their_end();
    let link = arc_at(plan.net, arc);
    if !lane.outgoing.free(now) {
        let waits = lane
            .rings
            .highest(Prio(link.express_from), Prio(7))
            .is_some();
        lane.outgoing.settle(now, waits);
        return Ok(());
    }
    let Some(begun) = begin_on(plan, now, arc, link, lane, partner) else {
        lane.outgoing.settle(now, false);
        return Ok(());
    };
    let Begun {
        ord,
        kind,
        what,
        from,
    } = begun;
    let begin = Event::Begin {
        tick: now,
        arc,
        ord,
        kind,
        what,
        from,
    };
    tell(plan.net, watcher, &begin)
}

/// What begins on an arc that is free: the first item that is there (IEEE 802.3, 99.4; IEEE 802.1Q, 6.7.2).
fn begin_on(
    plan: &Plan,
    now: Tick,
    arc: ArcId,
    link: &Arc,
    lane: &mut Lane,
    partner: &Partner,
) -> Option<Begun>
    requires arc { arc.0 < length plan.now.net.now.arcs }
    requires link { slice_get plan.now.net.now.arcs arc.0 ≡ Some link.now }
    requires now { now.0 ≤ 4 * 10 ^ 12 }
    requires fit { AllFit plan.now.net.now plan.now.streams.now plan.now.script.now }
    requires free { is_free lane.old.outgoing.sender now.0 ≡ true }
    requires settled { IsUpTo lane.old.link now.0 }
    requires keeps { (store : Store) × LaneKeeps (scenario_of plan.now) store arc.0 lane.old }
    ensures starts { Starts (scenario_of plan.now) now.0 arc.0 partner.now 1 7 lane.old lane.new result }
    ensures kind { IfSome result (λ b. HasCounts b.kind) }
    ensures keeps { (store : Store) → KeepsOn (scenario_of plan.now) arc.0 store store lane.old lane.new [] }
    ensures settled { IsUpTo lane.new.link now.0 }
{
    if let Some(frame) = take_first(&mut lane.rings, Prio(link.express_from), Prio(7)) {
        return Some(lane.outgoing.begin(now, Choice::Express(frame)));
    }
    if let Some(begun) = begin_for_link(plan, now, arc, link, lane, partner) {
        return Some(begun);
    }
    if lane.outgoing.is_interrupted() {
        return Some(lane.outgoing.begin(now, Choice::Rest));
    }
    begin_preemptable(plan, now, arc, link, lane, partner)
}

/// What begins for the link of an arc, where it negotiates: a respond, a verify or an LLDP frame.
fn begin_for_link(
    plan: &Plan,
    now: Tick,
    arc: ArcId,
    link: &Arc,
    lane: &mut Lane,
    partner: &Partner,
) -> Option<Begun>
    requires arc { arc.0 < length plan.now.net.now.arcs }
    requires link { slice_get plan.now.net.now.arcs arc.0 ≡ Some link.now }
    requires now { now.0 ≤ 4 * 10 ^ 12 }
    requires free { is_free lane.old.outgoing.sender now.0 ≡ true }
    requires settled { IsUpTo lane.old.link now.0 }
    ensures starts { Starts (scenario_of plan.now) now.0 arc.0 partner.now 2 5 lane.old lane.new result }
    ensures kind { IfSome result (λ b. HasCounts b.kind) }
    ensures none { IfNone result (lane.new ≡ lane.old) }
    ensures keeps { (store : Store) → KeepsOn (scenario_of plan.now) arc.0 store store lane.old lane.new [] }
    ensures settled { IsUpTo lane.new.link now.0 }
{
    if link.mode != Mode::Negotiate {
        return None;
    }
    if lane.link.owes_respond(partner) {
        lane.link.respond_begun(now);
        return Some(lane.outgoing.begin(now, Choice::Respond));
    }
    if lane.link.wants_verify(now) {
        lane.link.verify_begun(now);
        return Some(lane.outgoing.begin(now, Choice::Verify));
    }
    if !lane.link.wants_lldp() {
        return None;
    }
    let advert = lane.link.advert(link.add_frag, plan.net.timing.ttl as u16);
    let mut frame = [0u8; 64];
    write_lldp(&advert, link.from, arc, &mut frame);
    lane.link.lldp_begun();
    Some(lane.outgoing.begin_lldp(now, frame))
}

/// What begins of the preemptable frames that wait: the front one of the highest priority, in fragments where preemption is
/// active, and else whole, or not at all.
fn begin_preemptable(
    plan: &Plan,
    now: Tick,
    arc: ArcId,
    link: &Arc,
    lane: &mut Lane,
    partner: &Partner,
) -> Option<Begun>
    requires arc { arc.0 < length plan.now.net.now.arcs }
    requires link { slice_get plan.now.net.now.arcs arc.0 ≡ Some link.now }
    requires now { now.0 ≤ 4 * 10 ^ 12 }
    requires fit { AllFit plan.now.net.now plan.now.streams.now plan.now.script.now }
    requires free { is_free lane.old.outgoing.sender now.0 ≡ true }
    requires alone { is_interrupted lane.old.outgoing.sender ≡ false }
    requires settled { IsUpTo lane.old.link now.0 }
    requires keeps { (store : Store) × LaneKeeps (scenario_of plan.now) store arc.0 lane.old }
    ensures starts { Starts (scenario_of plan.now) now.0 arc.0 partner.now 6 7 lane.old lane.new result }
    ensures kind { IfSome result (λ b. HasCounts b.kind) }
    ensures keeps { (store : Store) → KeepsOn (scenario_of plan.now) arc.0 store store lane.old lane.new [] }
    ensures settled { IsUpTo lane.new.link now.0 }
{
    let greatest = Prio(link.express_from - 1);
    if is_active(link, lane) {
        let frame = take_first(&mut lane.rings, Prio(0), greatest)?;
        return Some(lane.outgoing.begin(now, Choice::First(frame)));
    }
    if link.mode == Mode::Negotiate && link.policy == Policy::Quiet {
        return None;
    }
    let frame = take_first(&mut lane.rings, Prio(0), greatest)?;
    Some(lane.outgoing.begin(now, Choice::Whole(frame)))
}

/// Whether preemption is active on an arc.
fn is_active(link: &Arc, lane: &Lane) -> bool
    ensures { IsActiveBy link.now lane.now result }
{
    match link.mode {
        Mode::Off => false,
        Mode::On => true,
        Mode::Negotiate => lane.link.is_active(),
    }
}

/// The starts that are due, arc by arc.
pub(crate) fn starts<W: Watcher>(
    plan: &Plan,
    now: Tick,
    lanes: &mut [Lane],
    watcher: &mut W,
) -> Result<(), Halt>
    requires fit { AllFit plan.now.net.now plan.now.streams.now plan.now.script.now }
    requires lanes { length lanes.old ≡ length plan.now.net.now.arcs }
    requires now { now.0 ≤ 4 * 10 ^ 12 }
    requires settled { AreSettled now.0 lanes.old }
    requires keeps { (store : Store) × (entries : List Entry) × Keeps (scenario_of plan.now) store lanes.old entries [] }
    ensures settled { AreSettled now.0 lanes.new }
    ensures part { TellsPart plan.now.net.now result (W.took watcher.old) (W.took watcher.new) (W.torn watcher.new)
        (λ x es. (store : Store) → LanesPart (scenario_of plan.now) now.0 (2 + 3 * length plan.now.net.now.arcs) (length plan.now.net.now.arcs) 0 store store lanes.old lanes.new [] es)
        (LanesFront (scenario_of plan.now) now.0 (2 + 3 * length plan.now.net.now.arcs) lanes.old) NoArrival }
    ensures cause { HasCause (W.faults watcher.old) (W.faults watcher.new) result }
    ensures same { W.same watcher.old watcher.new }
{
    for arc in 0..lanes.len() {
        let partner = lanes[partner_of(arc)].partner;
        start_on(
            plan,
            now,
            ArcId(arc as u16),
            &mut lanes[arc],
            &partner,
            watcher,
        )?;
    }
    Ok(())
}
