ghost use Rattle.std.specs.Prelude.{◌≡◌, ◌<◌, ◌≤◌, ◌+◌, ◌*◌, ◌^◌, IsSome, List, [], None, length, replicate, take};
ghost use Rattle.pre_base.specs.declared.limits.TheConstants.{GREATEST_PACKET};
ghost use Rattle.pre_mpacket.specs.Spelling.{PlainPacket};
ghost use Rattle.std.specs.List.{AllByRecursion as Every};
ghost use Rattle.pre_rings.specs.Stores.{IsOut};
ghost use Rattle.pre_send.specs.Endings.{plans_end};
ghost use Rattle.pre_send.specs.Owned.{frames_of, frames_done};
ghost use Rattle.pre_outgoing.specs.Sends.{AreHeld};
ghost use Rattle.pre_bridge.specs.Inside.{Entry};
ghost use Rattle.pre_links.specs.Standing.{IsReady};
ghost use Rattle.pre_history.specs.Moments.{Phase};
ghost use Rattle.pre_sim.specs.Telling.{HasCause};
ghost use Rattle.pre_sim.specs.Keeps.{Keeps, LaneKeeps, AreReady};
ghost use Rattle.pre_sim.specs.Ending.{IsLeaving, LeavesAs, without};
ghost use Rattle.pre_sim.specs.Parts.{TellsPart, NoArrival, LanePart, LaneFront, LaneReached, LanesPart, LanesFront, LanesReached, scenario_of};
ghost use Rattle.pre_sim.specs.Reach.{AllFit};

use crate::halts::Halt;
use crate::lanes::Lane;
use crate::plans::{Plan, arc_at};
use crate::telling::tell;
use pre_base::{ArcId, GREATEST_PACKET, Tick};
use pre_history::{events_before_their_end, mpackets_in_order};
use pre_incoming::Flight;
use pre_mpacket::{Kind, MPacket, write_mpacket};
use pre_outgoing::{Finished, Outgoing};
use pre_rings::{FrameRef, FrameStore};
use pre_trace::{Event, Watcher};

/// The mData of a verify or a respond.
const ZEROS: [u8; 60] = [0; 60];

/// The end of the mPacket on an arc, where it is due: its octets are on the wire, and where it ends a frame the frame's slot is
/// in again. What was in `octets` is gone.
pub(crate) fn end_on<W: Watcher>(
    plan: &Plan,
    now: Tick,
    arc: ArcId,
    lane: &mut Lane,
    octets: &mut [u8; GREATEST_PACKET as usize],
    store: &mut FrameStore,
    watcher: &mut W,
) -> Result<(), Halt>
    requires arc { arc.0 < length plan.now.net.now.arcs }
    requires now { now.0 ≤ 4 * 10 ^ 12 }
    requires fit { AllFit plan.now.net.now plan.now.streams.now plan.now.script.now }
    requires reached { LaneReached (scenario_of plan.now) now.0 (Phase.ends arc.0) arc.0 None lane.old }
    requires keeps { LaneKeeps (scenario_of plan.now) store.old arc.0 lane.old }
    requires ready { IsReady lane.old.link now.0 }
    ensures ready { IsReady lane.new.link now.0 }
    ensures part { TellsPart plan.now.net.now result (W.took watcher.old) (W.took watcher.new) (W.torn watcher.new)
        (λ x es. LanePart (scenario_of plan.now) now.0 (Phase.ends arc.0) arc.0 None lane.old 0 store.old store.new lane.new [] es)
        (LaneFront (scenario_of plan.now) now.0 (Phase.ends arc.0) arc.0 None lane.old) NoArrival }
    ensures cause { HasCause (W.faults watcher.old) (W.faults watcher.new) result }
    ensures same { W.same watcher.old watcher.new }
{
    mpackets_in_order();
    events_before_their_end();
    if !lane.outgoing.ends(now) {
        return Ok(());
    }
    let link = arc_at(plan.net, arc);
    let Leaving { kind, check, count } = next_to_leave(&lane.outgoing, store, &ZEROS, octets);
    let Finished {
        ord,
        what,
        size,
        is_last,
        done,
        ..
    } = lane.outgoing.finish(now, store);
    lane.link.mpacket_ended(now);
    let flight = Flight {
        ord,
        kind,
        what,
        is_last,
        due: Tick(now.0 + link.delay),
        size: count as u16,
    };
    lane.incoming.push(flight, &octets[..count]);
    put_back(store, done);
    let ended = Event::Ended {
        tick: now,
        arc,
        ord,
        size,
        check,
    };
    tell(plan.net, watcher, &ended)
}

/// An mPacket whose end is due, as it goes on the wire.
#[derive(Clone, Copy)]
struct Leaving {
    kind: Kind,
    check: [u8; 4],
    /// How many octets it has, from the preamble to the check.
    count: usize,
}

/// The mPacket whose end is due. Its octets as they are sent stand at the front of `into`.
fn next_to_leave<'a>(
    outgoing: &'a Outgoing,
    store: &'a FrameStore,
    zeros: &'a [u8],
    into: &mut [u8; GREATEST_PACKET as usize],
) -> Leaving
    requires going { IsSome (plans_end outgoing.now.sender) }
    requires held { AreHeld store.now (frames_of outgoing.now.sender) }
    requires zeros { zeros.now ≡ replicate 60 0 }
    requires short { (m : PlainPacket) → LeavesAs store.now outgoing.now m → length m.mdata + 12 ≤ GREATEST_PACKET }
    ensures leaves { IsLeaving store.now outgoing.now result (take result.count into.new) }
    ensures most { result.count ≤ GREATEST_PACKET }
{
    let (kind, mdata, check) = outgoing.packet(store, zeros);
    let packet = MPacket {
        kind,
        mdata,
        check: &check,
    };
    let Ok(count) = write_mpacket(&packet, into) else {
        unreachable!()
    };
    Leaving { kind, check, count }
}

/// The slot of a frame whose last octet has left is in again.
fn put_back(store: &mut FrameStore, done: Option<FrameRef>)
    requires { Every (λ f. IsOut store.old f.slot) (frames_done done) }
    ensures { store.new ≡ without store.old done }
{
    if let Some(frame) = done {
        store.give_back(frame.slot);
    }
}

/// The ends that are due, arc by arc.
pub(crate) fn ends<W: Watcher>(
    plan: &Plan,
    now: Tick,
    lanes: &mut [Lane],
    store: &mut FrameStore,
    watcher: &mut W,
) -> Result<(), Halt>
    requires lanes { length lanes.old ≡ length plan.now.net.now.arcs }
    requires now { now.0 ≤ 4 * 10 ^ 12 }
    requires fit { AllFit plan.now.net.now plan.now.streams.now plan.now.script.now }
    requires reached { LanesReached (scenario_of plan.now) now.0 1 lanes.old }
    requires keeps { (entries : List Entry) × Keeps (scenario_of plan.now) store.old lanes.old entries [] }
    requires ready { AreReady now.0 lanes.old }
    ensures ready { AreReady now.0 lanes.new }
    ensures part { TellsPart plan.now.net.now result (W.took watcher.old) (W.took watcher.new) (W.torn watcher.new)
        (λ x es. LanesPart (scenario_of plan.now) now.0 1 (length plan.now.net.now.arcs) 0 store.old store.new lanes.old lanes.new [] es)
        (LanesFront (scenario_of plan.now) now.0 1 lanes.old) NoArrival }
    ensures cause { HasCause (W.faults watcher.old) (W.faults watcher.new) result }
    ensures same { W.same watcher.old watcher.new }
{
    let mut octets = [0u8; GREATEST_PACKET as usize];
    for arc in 0..lanes.len() {
        end_on(
            plan,
            now,
            ArcId(arc as u16),
            &mut lanes[arc],
            &mut octets,
            store,
            watcher,
        )?;
    }
    Ok(())
}
