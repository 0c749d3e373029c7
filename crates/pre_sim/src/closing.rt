ghost use Rattle.std.specs.Prelude.{◌≡◌, ◌==◌, ◌&&◌, ◌<◌, ◌≤◌, ◌*◌, ◌^◌, IfSome, length, vec_len, count_by, nat_le};
ghost use Rattle.pre_sim.specs.Telling.{HasCause};
ghost use Rattle.pre_sim.specs.Closing.{IsCountLine, IsOfArc, TellsCounts};
ghost use Rattle.pre_sim.specs.Parts.{TellsPart, NoArrival, CountsPart, CountsFront, ClosesPart, ClosesFront, scenario_of};

use crate::halts::Halt;
use crate::lanes::Lane;
use crate::plans::Plan;
use crate::telling::tell;
use crate::ticks::Progress;
use pre_base::ArcId;
use pre_script::Script;
use pre_topo::Network;
use pre_trace::{Event, Watcher};

/// How many sends of the script aren't later than its end.
fn count_sent(script: &Script) -> u64
    ensures { result ≡ count_by (λ s. nat_le s.send.tick.0 script.now.until.0) script.now.sends }
{
    let until = script.until;
    script
        .sends
        .as_slice()
        .iter()
        .filter(|line| line.send.tick <= until)
        .count() as u64
}

/// Whether each of the counters is 0.
fn is_silent(err: u64, smd: u64, ok: u64, rx: u64, tx: u64) -> bool
    ensures { result ≡ ((err == 0) && (smd == 0) && (ok == 0) && (rx == 0) && (tx == 0)) }
{
    err == 0 && smd == 0 && ok == 0 && rx == 0 && tx == 0
}

/// The `count` line of an arc, where one of its counters isn't 0 (IEEE 802.3, 30.14.1).
fn count_line(arc: ArcId, lane: &Lane) -> Option<Event<'static>>
    ensures counts { IsCountLine arc.0 lane.now result }
    ensures own { IfSome result (IsOfArc arc.0) }
{
    let counters = lane.incoming.counters();
    let tx = lane.outgoing.continued();
    let [err, smd, ok, rx] = [
        counters.frame_ass_error,
        counters.frame_smd_error,
        counters.frame_ass_ok,
        counters.frag_count_rx,
    ];
    if is_silent(err, smd, ok, rx, tx) {
        return None;
    }
    Some(Event::Count {
        arc,
        err,
        smd,
        ok,
        rx,
        tx,
    })
}

/// Tells the `count` line of an arc, where it has one.
fn tell_counts<W: Watcher>(
    net: &Network,
    arc: ArcId,
    lane: &Lane,
    watcher: &mut W,
) -> Result<(), Halt>
    requires arc { arc.0 < length net.now.arcs }
    ensures part { TellsPart net.now result (W.took watcher.old) (W.took watcher.new) (W.torn watcher.new) (λ x es. TellsCounts arc.0 lane.now es) (TellsCounts arc.0 lane.now) NoArrival }
    ensures cause { HasCause (W.faults watcher.old) (W.faults watcher.new) result }
    ensures same { W.same watcher.old watcher.new }
{
    let Some(count) = count_line(arc, lane) else {
        return Ok(());
    };
    tell(net, watcher, &count)
}

/// The `count` lines of a run that is at its end, arc by arc.
fn counts<W: Watcher>(plan: &Plan, progress: &Progress, watcher: &mut W) -> Result<(), Halt>
    requires lanes { vec_len progress.now.lanes ≡ length plan.now.net.now.arcs }
    requires until { plan.now.script.now.until.0 ≤ 4 * 10 ^ 12 }
    ensures part { TellsPart plan.now.net.now result (W.took watcher.old) (W.took watcher.new) (W.torn watcher.new)
        (λ x es. CountsPart (scenario_of plan.now) progress.now (length plan.now.net.now.arcs) es) (CountsFront (scenario_of plan.now) progress.now) NoArrival }
    ensures cause { HasCause (W.faults watcher.old) (W.faults watcher.new) result }
    ensures same { W.same watcher.old watcher.new }
{
    for arc in 0..progress.lanes.len() {
        tell_counts(plan.net, ArcId(arc as u16), &progress.lanes[arc], watcher)?;
    }
    Ok(())
}

/// The closing events of a run: the counters of its arcs, and how many frames were sent, delivered and dropped.
pub(crate) fn close<W: Watcher>(
    plan: &Plan,
    progress: &Progress,
    watcher: &mut W,
) -> Result<(), Halt>
    requires lanes { vec_len progress.now.lanes ≡ length plan.now.net.now.arcs }
    requires until { plan.now.script.now.until.0 ≤ 4 * 10 ^ 12 }
    ensures part { TellsPart plan.now.net.now result (W.took watcher.old) (W.took watcher.new) (W.torn watcher.new) (λ x es. ClosesPart (scenario_of plan.now) progress.now es)
        (ClosesFront (scenario_of plan.now) progress.now) NoArrival }
    ensures cause { HasCause (W.faults watcher.old) (W.faults watcher.new) result }
    ensures same { W.same watcher.old watcher.new }
{
    counts(plan, progress, watcher)?;
    let finish = Event::Finish {
        until: plan.script.until,
        sent: count_sent(plan.script),
        delivered: progress.delivered,
        dropped: progress.dropped,
    };
    tell(plan.net, watcher, &finish)
}
