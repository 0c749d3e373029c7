ghost use Rattle.std.specs.Prelude.{◌≡◌, ◌≤◌, true, IfSome, length};
ghost use Rattle.pre_base.specs.declared.limits.TheConstants.{GREATEST_FRAME};
ghost use Rattle.pre_rings.specs.Stores.{HoldsFrame};
ghost use Rattle.pre_send.specs.Owned.{frames_of, frames_chosen};
ghost use Rattle.pre_send.specs.Senders.{MayBegin};
ghost use Rattle.pre_outgoing.specs.Sends.{AreHeld, IsLldp};

use super::*;
use pre_base::{FrameNo, GREATEST_FRAME, Prio, Tick};
use pre_history::What;
use pre_mpacket::Kind;
use pre_rings::{FrameRef, FrameStore};
use pre_send::Choice;
use std::test::Fail;

// The latest tick of these tests.
const LATEST: u64 = 1_000_000;

// Frame 5, of these octets, which the store then holds.
fn frame_in(store: &mut FrameStore, octets: &[u8]) -> Option<FrameRef>
    requires { length octets.now ≤ GREATEST_FRAME }
    ensures { IfSome result (λ f. HoldsFrame store.new f) }
{
    let slot = store.take_slot()?;
    store.fill(&slot, octets);
    Some(FrameRef {
        slot,
        frame: FrameNo(5),
        size: octets.len() as u16,
        prio: Prio(0),
        vid: 1,
    })
}

fn may_begin(out: &Outgoing, choice: &Choice) -> bool
    ensures may { result ≡ true → MayBegin out.now.sender choice.now }
    ensures other { result ≡ true → ¬ IsLldp choice.now }
{
    match choice {
        Choice::Express(frame) | Choice::Whole(frame) => frame.size >= 64
            && frame.size <= GREATEST_FRAME,
        Choice::First(frame) => frame.size >= 64
            && frame.size <= GREATEST_FRAME
            && !out.is_interrupted(),
        Choice::Rest => out.is_interrupted(),
        Choice::Verify | Choice::Respond => true,
        Choice::Lldp => false,
    }
}

// One mPacket, from its begin to its end, while an express frame waits from a tick on.
fn send(
    out: &mut Outgoing,
    store: &FrameStore,
    now: u64,
    choice: Choice,
    waits: Option<u64>,
) -> Option<(Begun, Finished)>
    requires held { AreHeld store.now (frames_of out.old.sender) }
    requires chosen { AreHeld store.now (frames_chosen choice) }
    ensures held { AreHeld store.now (frames_of out.new.sender) }
{
    if now > LATEST || !out.free(Tick(now)) || !may_begin(out, &choice) {
        return None;
    }
    let begun = out.begin(Tick(now), choice);
    if let Some(waits) = waits {
        out.settle(Tick(waits.min(LATEST)), true);
    }
    let due = out.ends_at()?;
    if due.0 > LATEST {
        return None;
    }
    let finished = out.finish(due, store);
    Some((begun, finished))
}

fn is_begun(begun: &Begun, ord: u64, kind: Kind, what: What, from: u16) -> bool {
    begun.ord == ord && begun.kind == kind && begun.what == what && begun.from == from
}

// Whether an mPacket of 64 octets has ended, and handed back a frame of 124 octets where it is the last of it.
fn is_finished(finished: &Finished, ord: u64, is_last: bool, hands_back: bool) -> bool {
    finished.ord == ord
        && finished.size == 64
        && finished.is_last == is_last
        && finished.done.is_some() == hands_back
}

// A frame is interrupted after 60 octets, and a verify goes between its fragments.
#[test]
fn a_verify_between_fragments(rt: HostRuntime) -> Result<(), Fail> {
    let mut store = FrameStore::make(rt.alloc(), 1)?;
    let frame = frame_in(&mut store, &[7; 124]).ok_or("no slot")?;
    let what = What::Frame(frame.frame);
    let mut out = Outgoing::idle(1, 0);
    let (begun, finished) = send(&mut out, &store, 0, Choice::First(frame), Some(1)).ok_or(
        "not sent",
    )?;
    assert!(rt; is_begun(&begun, 0, Kind::Start(0), what, 0));
    assert!(rt; is_finished(&finished, 0, false, false));
    let (begun, finished) = send(&mut out, &store, 84, Choice::Verify, None).ok_or("not sent")?;
    assert!(rt; is_begun(&begun, 1, Kind::Verify, What::Nothing, 0));
    assert!(rt; is_finished(&finished, 1, true, false));
    let (begun, finished) = send(&mut out, &store, 168, Choice::Rest, None).ok_or("not sent")?;
    assert!(rt; is_begun(&begun, 2, Kind::Continue(0, 0), what, 60));
    assert!(rt; is_finished(&finished, 2, true, true));
    assert_eq!(rt; out.continued(), 1);
    Ok(())
}

// An LLDP frame is lent as it was handed in, with its last four octets as its check.
#[test]
fn an_lldp_frame(rt: HostRuntime) -> Result<(), Fail> {
    let store = FrameStore::make(rt.alloc(), 1)?;
    let mut out = Outgoing::idle(1, 0);
    assert!(rt; out.free(Tick(5)));
    let begun = out.begin_lldp(Tick(5), [9; 64]);
    assert!(rt; is_begun(&begun, 0, Kind::Express, What::Lldp, 0));
    assert!(rt; out.ends(Tick(77)));
    let (kind, mdata, check) = out.packet(&store, &[0; 60]);
    assert_eq!(rt; kind, Kind::Express);
    assert_eq!(rt; mdata, [9; 60].as_slice());
    assert_eq!(rt; check, [9; 4]);
    Ok(())
}
