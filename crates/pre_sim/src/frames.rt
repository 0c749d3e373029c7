ghost use Rattle.std.specs.Prelude.{◌≡◌, ◌<◌, ◌≤◌, length, slice_get, Some};
ghost use Rattle.pre_base.specs.declared.limits.TheConstants.{GREATEST_FRAME};
ghost use Rattle.pre_streams.specs.Rows.{IsRow};
ghost use Rattle.pre_history.specs.Scenario.{row, FrameOf};
ghost use Rattle.pre_history.specs.Comings as comings;
ghost use Rattle.pre_memory.specs.Slots.{slots_out};
ghost use Rattle.pre_sim.specs.Reach.{AllFit};
ghost use Rattle.pre_sim.specs.Keeps.{IsFrameOf};
ghost use Rattle.pre_sim.specs.Arriving.{IsStored};
ghost use Rattle.pre_sim.specs.Parts.{scenario_of};

use crate::plans::Plan;
use pre_base::{ArcId, FrameNo, GREATEST_FRAME};
use pre_incoming::put_frame;
use pre_memory::slots_are_counted;
use pre_rings::{FrameRef, FrameStore, Slot};
use pre_streams::Row;
use pre_topo::Network;

/// Puts octets into a slot that was in, of which there is one.
pub(crate) fn stored(store: &mut FrameStore, octets: &[u8]) -> Slot
    requires size { length octets.now ≤ GREATEST_FRAME }
    requires slot { slots_out store.old < length store.old }
    ensures { IsStored store.old octets.now result store.new }
{
    slots_are_counted();
    let Some(slot) = store.take_slot() else {
        unreachable!()
    };
    store.fill(&slot, octets);
    slot
}

/// The frame of a send of the script, in a slot of its own.
pub(crate) fn frame_of(plan: &Plan, number: usize, store: &mut FrameStore) -> FrameRef
    requires fit { AllFit plan.now.net.now plan.now.streams.now plan.now.script.now }
    requires known { number < length plan.now.script.now.sends }
    requires slot { slots_out store.old < length store.old }
    ensures frame { IsFrameOf (scenario_of plan.now) store.new result }
    ensures number { result.frame.0 ≡ number }
    ensures stored { IsStored store.old (FrameOf (scenario_of plan.now) number) result.slot store.new }
{
    let mut octets = [0u8; GREATEST_FRAME as usize];
    let frame = FrameNo(number as u32);
    let size = put_frame(&plan.inputs(), frame, &mut octets);
    let row = row_of(plan, number);
    let slot = stored(store, &octets[..size]);
    FrameRef {
        slot,
        frame,
        size: size as u16,
        prio: row.prio,
        vid: row.vid,
    }
}

/// The row of a send of the script.
pub(crate) fn row_of<'a>(plan: &Plan<'a>, number: usize) -> &'a Row
    requires fit { AllFit plan.now.net.now plan.now.streams.now plan.now.script.now }
    requires known { number < length plan.now.script.now.sends }
    ensures here { result.now ≡ row (scenario_of plan.now) number }
    ensures row { IsRow plan.now.net.now result.now }
{
    let send = plan.script.sends.as_slice()[number].send;
    &plan.streams.rows.as_slice()[send.stream.0 as usize]
}

/// The first arc of a row's route.
#[tactic(auto, using(crate::proofs::Routes::first_arc_known))]
fn first_of(net: &Network, row: &Row) -> ArcId
    requires row { IsRow net.now row.now }
    ensures known { result.0 < length net.now.arcs }
    ensures first { slice_get row.now.arcs 0 ≡ Some result }
{
    row.arcs.as_slice()[0]
}

/// The first arc of the route of a send of the script.
pub(crate) fn first_arc(plan: &Plan, number: usize) -> ArcId
    requires fit { AllFit plan.now.net.now plan.now.streams.now plan.now.script.now }
    requires known { number < length plan.now.script.now.sends }
    ensures known { result.0 < length plan.now.net.now.arcs }
    ensures first { result.0 ≡ comings.first_arc (scenario_of plan.now) number }
{
    first_of(plan.net, row_of(plan, number))
}
