ghost use Rattle.std.specs.Prelude.{◌≡◌, ◌<◌, ◌≤◌, ◌+◌, ◌*◌, ◌^◌, [], OnOk, Some, length};
ghost use Rattle.pre_topo.specs.Arcs.{reverse_of};
ghost use Rattle.pre_links.specs.Standing.{IsReady, IsUpTo};
ghost use Rattle.pre_history.specs.Moments.{Phase};
ghost use Rattle.pre_sim.specs.Telling.{HasCause};
ghost use Rattle.pre_sim.specs.Keeps.{Store, AreReady, AreSettled};
ghost use Rattle.pre_sim.specs.Parts.{TellsPart, NoArrival, LanePart, LaneFront, LanesPart, LanesFront, scenario_of};

use crate::halts::Halt;
use crate::lanes::Lane;
use crate::plans::{Plan, arc_at};
use crate::telling::tell;
use pre_base::{ArcId, Tick};
use pre_history::{events_before_their_end, mpackets_in_order};
use pre_links::Partner;
use pre_topo::{Mode, reverse};
use pre_trace::{Event, Watcher};

/// The expiries of an arc: where it negotiates its link is settled for the tick, and a change of activity is told.
pub(crate) fn expire_on<W: Watcher>(
    plan: &Plan,
    now: Tick,
    arc: ArcId,
    lane: &mut Lane,
    partner: &Partner,
    watcher: &mut W,
) -> Result<(), Halt>
    requires arc { arc.0 < length plan.now.net.now.arcs }
    requires now { now.0 ≤ 4 * 10 ^ 12 }
    requires ready { IsReady lane.old.link now.0 }
    ensures settled { IsUpTo lane.new.link now.0 }
    ensures part { TellsPart plan.now.net.now result (W.took watcher.old) (W.took watcher.new) (W.torn watcher.new)
        (λ x es. (store : Store) → LanePart (scenario_of plan.now) now.0 (Phase.expiries arc.0) arc.0 (Some partner.now) lane.old 0 store store lane.new [] es)
        (LaneFront (scenario_of plan.now) now.0 (Phase.expiries arc.0) arc.0 (Some partner.now) lane.old) NoArrival }
    ensures cause { HasCause (W.faults watcher.old) (W.faults watcher.new) result }
    ensures same { W.same watcher.old watcher.new }
{
    events_before_their_end();
    if arc_at(plan.net, arc).mode != Mode::Negotiate {
        return Ok(());
    }
    let interval = plan.net.timing.interval;
    let Some(value) = lane.link.settle(now, lane.setting, partner, interval) else {
        return Ok(());
    };
    let active = Event::Active {
        tick: now,
        arc,
        value,
    };
    tell(plan.net, watcher, &active)
}

/// The expiries of a tick, arc by arc.
pub(crate) fn expiries<W: Watcher>(
    plan: &Plan,
    now: Tick,
    lanes: &mut [Lane],
    watcher: &mut W,
) -> Result<(), Halt>
    requires lanes { length lanes.old ≡ length plan.now.net.now.arcs }
    requires now { now.0 ≤ 4 * 10 ^ 12 }
    requires ready { AreReady now.0 lanes.old }
    ensures settled { OnOk result (AreSettled now.0 lanes.new) }
    ensures part { TellsPart plan.now.net.now result (W.took watcher.old) (W.took watcher.new) (W.torn watcher.new)
        (λ x es. (store : Store) → LanesPart (scenario_of plan.now) now.0 (1 + 2 * length plan.now.net.now.arcs) (length plan.now.net.now.arcs) 0 store store lanes.old lanes.new [] es)
        (LanesFront (scenario_of plan.now) now.0 (1 + 2 * length plan.now.net.now.arcs) lanes.old) NoArrival }
    ensures cause { HasCause (W.faults watcher.old) (W.faults watcher.new) result }
    ensures same { W.same watcher.old watcher.new }
{
    for arc in 0..lanes.len() {
        let partner = lanes[partner_of(arc)].partner;
        expire_on(
            plan,
            now,
            ArcId(arc as u16),
            &mut lanes[arc],
            &partner,
            watcher,
        )?;
    }
    Ok(())
}

/// The place of the arc of the other direction.
pub(crate) fn partner_of(arc: usize) -> usize
    requires { arc < 2 ^ 16 }
    ensures { result ≡ reverse_of arc }
{
    usize::from(reverse(ArcId(arc as u16)).0)
}
