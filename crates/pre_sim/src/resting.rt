ghost use Rattle.std.specs.Prelude.{◌≡◌, ◌≢◌, ◌+◌, ◌<◌, ◌≤◌, ◌⊎◌, ℕ, false, IfSome, IsTrue, Some, [], length, slice_get, slice_index_or, vec_len};
ghost use Rattle.pre_script.specs.declared.scripts.SetLine.{SetLine};
ghost use Rattle.pre_send.specs.Senders.{is_free, is_interrupted};
ghost use Rattle.pre_rings.specs.Ports.{frames_at};
ghost use Rattle.pre_history.specs.Scenario.{Scenario, arc, no_send};
ghost use Rattle.pre_sim.specs.declared.lanes.Lane.{Lane};
ghost use Rattle.pre_sim.specs.Resting.{IsEmpty, IsHeld, LaneRests, RelayRests, RestsAmong, RestsUntil};
ghost use Rattle.pre_sim.specs.Keeps.{AreSettled};
ghost use Rattle.pre_links.specs.Standing.{IsUpTo};
ghost use Rattle.pre_sim.specs.Parts.{scenario_of};

use crate::expiries::partner_of;
use crate::lanes::Lane;
use crate::plans::{Plan, arc_at};
use crate::ticks::Progress;
use pre_base::{ArcId, Prio, Tick};
use pre_bridge::Relay;
use pre_links::Partner;
use pre_script::Script;
use pre_topo::{Arc, Mode, Network, Policy};

/// The lesser of a tick and the one that is named, if one is.
fn sooner(due: Option<Tick>, other: u64) -> u64
    ensures least { result ≤ other }
    ensures named { IfSome due (λ d. result ≤ d.0) }
{
    match due {
        Some(tick) => tick.0.min(other),
        None => other,
    }
}

/// Whether nothing waits in the rings of an arc, and no frame of it is interrupted.
fn is_empty(lane: &Lane) -> bool
    ensures { IsTrue result → IsEmpty lane.now }
{
    is_without(lane, Prio(0))
}

/// Whether no express frame waits for an arc and no frame is interrupted, and what else waits is held back until the link is active.
fn is_held(link: &Arc, lane: &Lane) -> bool
    requires { link.now.express_from < 8 }
    ensures { IsTrue result → IsHeld link.now lane.now }
{
    if link.mode != Mode::Negotiate || link.policy != Policy::Quiet || lane.link.is_active() {
        return false;
    }
    is_without(lane, Prio(link.express_from))
}

/// Whether no frame of this priority or a higher one waits for an arc, and none is interrupted.
fn is_without(lane: &Lane, least: Prio) -> bool
    ensures { IsTrue result → ((q : ℕ) → least ≤ q → frames_at lane.now.rings q ≡ []) × (is_interrupted lane.now.outgoing.sender ≡ false) }
{
    lane.rings.highest(least, Prio(7)).is_none() && !lane.outgoing.is_interrupted()
}

/// A tick before which nothing can begin on an arc.
fn start_due(link: &Arc, lane: &Lane) -> u64
    requires { link.now.express_from < 8 }
    ensures { (u : ℕ) → u < result → (is_free lane.now.outgoing.sender u ≡ false) ⊎ IsEmpty lane.now ⊎ IsHeld link.now lane.now }
{
    if is_empty(lane) || is_held(link, lane) {
        return u64::MAX;
    }
    match lane.outgoing.free_at() {
        Some(free) => free.0,
        None => u64::MAX,
    }
}

/// A tick before which nothing of an arc is due at a tick after this one.
fn lane_due(now: Tick, interval: u64, link: &Arc, lane: &Lane, partner: &Partner) -> u64
    requires settled { IsUpTo lane.now.link now.0 }
    requires interval { 1 ≤ interval }
    requires express { link.now.express_from < 8 }
    ensures { (w : Scenario) (a u : ℕ) → arc w a ≡ link.now → w.net.timing.interval ≡ interval → now.0 < u → u < result → LaneRests w u a partner.now lane.now }
{
    let start = start_due(link, lane);
    let end = sooner(lane.outgoing.ends_at(), start);
    let due = sooner(lane.incoming.due(), end);
    if link.mode != Mode::Negotiate {
        return due;
    }
    lane.link.due(now, partner, interval).min(due)
}

/// A tick up to this one before which nothing of any arc is due at a tick after the one that was done.
fn lanes_due(net: &Network, now: Tick, lanes: &[Lane], until: u64) -> u64
    requires lanes { length lanes.now ≡ length net.now.arcs }
    requires settled { AreSettled now.0 lanes.now }
    ensures until { result ≤ until }
    ensures rests { (w : Scenario) (a : ℕ) (lane : Lane) (u : ℕ) → w.net ≡ net.now → slice_get lanes.now a ≡ Some lane → now.0 < u → u < result → RestsAmong w u a lane lanes.now }
{
    let mut due = until;
    for arc in 0..lanes.len() {
        let link = arc_at(net, ArcId(arc as u16));
        let partner = &lanes[partner_of(arc)].partner;
        due = due.min(lane_due(now, net.timing.interval, link, &lanes[arc], partner));
    }
    due
}

/// A tick up to this one before which no frame comes out of a bridge.
fn relay_due(relay: &Relay, until: u64) -> u64
    ensures until { result ≤ until }
    ensures rests { (w : Scenario) (u : ℕ) → u < result → RelayRests w u relay.now }
{
    sooner(relay.due(), until)
}

/// A tick before which the `set` line of this place isn't due.
fn set_due(script: &Script, set: usize) -> u64
    ensures { (x : SetLine) (u : ℕ) → u < result → slice_get script.now.sets set ≡ Some x → x.tick.0 ≢ u }
{
    match script.sets.as_slice().get(set) {
        Some(line) => line.tick.0,
        None => u64::MAX,
    }
}

/// A tick before which the send of this place isn't due.
fn send_due(script: &Script, sent: usize) -> u64
    ensures { (u : ℕ) → u < result → sent < length script.now.sends → (slice_index_or script.now.sends sent no_send).send.tick.0 ≢ u }
{
    match script.sends.as_slice().get(sent) {
        Some(line) => line.send.tick.0,
        None => u64::MAX,
    }
}

/// The first tick after this one, up to the last one, at which something may be due.
pub(crate) fn next_due(plan: &Plan, now: Tick, progress: &Progress) -> Tick
    requires lanes { vec_len progress.now.lanes ≡ length plan.now.net.now.arcs }
    requires settled { AreSettled now.0 progress.now.lanes.items }
    requires until { now.0 + 1 ≤ plan.now.script.now.until.0 }
    ensures later { now.0 + 1 ≤ result.0 }
    ensures until { result.0 ≤ plan.now.script.now.until.0 }
    ensures rests { RestsUntil (scenario_of plan.now) (now.0 + 1) result.0 progress.now }
{
    let script = plan.script;
    let line = set_due(script, progress.set).min(send_due(script, progress.sent));
    let relayed = relay_due(&progress.relay, line.min(script.until.0));
    let due = lanes_due(plan.net, now, &progress.lanes, relayed);
    Tick(due.max(now.0 + 1))
}
