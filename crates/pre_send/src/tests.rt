ghost use Rattle.std.specs.Prelude.{◌≡◌, ◌≤◌, true, IfSome, length};
ghost use Rattle.pre_base.specs.declared.limits.TheConstants.{LEAST_FRAME, GREATEST_FRAME};
ghost use Rattle.pre_rings.specs.declared.slots.FrameRef.{FrameRef};
ghost use Rattle.pre_rings.specs.Stores.{HoldsFrame};
ghost use Rattle.pre_send.specs.Endings.{HoldsAll, HoldsChoice};
ghost use Rattle.pre_send.specs.Lendings.{LendsChoice};
ghost use Rattle.pre_send.specs.Senders.{MayBegin};

use super::*;
use pre_base::{FrameNo, GREATEST_FRAME, LEAST_FRAME, Prio, Tick};
use pre_crc::{Running, fcs};
use pre_mpacket::Kind;
use pre_rings::{FrameRef, FrameStore};
use std::test::Fail;

// The latest tick of these tests.
const LATEST: u64 = 1_000_000;

// An mPacket that was sent: when it ended, and what it was.
#[derive(Debug, Drop)]
struct Ended<'a> {
    tick: u64,
    kind: Kind,
    mdata: &'a [u8],
    check: [u8; 4],
    sent: Sent,
}

// Octets of a frame, with its check sequence at the end.
fn frame_octets(octets: &mut [u8]) {
    if octets.len() < 4 {
        return;
    }
    let end = octets.len() - 4;
    let mut next: u8 = 3;
    for octet in octets[..end].iter_mut() {
        *octet = next;
        next = next.wrapping_mul(5).wrapping_add(7);
    }
    let check = fcs(&octets[..end]);
    octets[end..].copy_from_slice(&check);
}

// A frame with these octets, which the store then holds, as it holds those before it.
fn frame_in(store: &mut FrameStore, octets: &[u8]) -> Option<FrameRef>
    requires { length octets.now ≤ GREATEST_FRAME }
    ensures held { IfSome result (λ f. HoldsFrame store.new f) }
    ensures others { (f : FrameRef) → HoldsFrame store.old f → HoldsFrame store.new f }
{
    let slot = store.take_slot()?;
    store.fill(&slot, octets);
    Some(FrameRef {
        slot,
        frame: FrameNo(0),
        size: octets.len() as u16,
        prio: Prio(0),
        vid: 1,
    })
}

fn has_size(frame: &FrameRef) -> bool
    ensures least { result ≡ true → LEAST_FRAME ≤ frame.now.size }
    ensures most { result ≡ true → frame.now.size ≤ GREATEST_FRAME }
{
    frame.size >= LEAST_FRAME && frame.size <= GREATEST_FRAME
}

fn may_begin(sender: &Sender, choice: &Choice) -> bool
    ensures { result ≡ true → MayBegin sender.now choice.now }
{
    match choice {
        Choice::Express(frame) => has_size(frame),
        Choice::Whole(frame) => has_size(frame),
        Choice::First(frame) => has_size(frame) && sender.interrupted().is_none(),
        Choice::Rest => sender.interrupted().is_some(),
        Choice::Verify => true,
        Choice::Respond => true,
        Choice::Lldp => true,
    }
}

// Sends one mPacket from a tick on, while an express frame waits from another tick on.
fn send<'a>(
    sender: &mut Sender,
    store: &'a FrameStore,
    other: &'a [u8],
    now: u64,
    choice: Choice,
    waits: Option<u64>,
) -> Option<Ended<'a>>
    requires held { HoldsChoice choice store.now }
    requires lent { LendsChoice choice other.now }
    requires holds { HoldsAll sender.old store.now }
    ensures holds { HoldsAll sender.new store.now }
    ensures done { IfSome result (λ ended. IfSome ended.sent.done (λ f. HoldsFrame store.now f)) }
{
    if now > LATEST || !sender.free(Tick(now)) || !may_begin(sender, &choice) {
        return None;
    }
    sender.begin(Tick(now), choice);
    if let Some(waits) = waits {
        sender.express_waits(Tick(waits.min(LATEST)));
    }
    let tick = sender.ends_at()?;
    if tick.0 > LATEST {
        return None;
    }
    let (kind, mdata, check) = sender.mpacket(store, other);
    let sent = sender.finish(tick, store);
    Some(Ended {
        tick: tick.0,
        kind,
        mdata,
        check,
        sent,
    })
}

// The plain form: the check of all octets of a frame up to a place, computed anew.
fn check_anew(octets: &[u8], end: usize) -> Option<[u8; 4]> {
    let so_far = octets.get(..end)?;
    if end + 4 == octets.len() {
        return Some(fcs(so_far));
    }
    let mut running = Running::new();
    running.add(so_far);
    Some(running.mcrc())
}

// Whether an mPacket has these octets of its frame from its place on, and their check.
fn is_of(ended: &Ended, octets: &[u8]) -> bool {
    let from = usize::from(ended.sent.from);
    let end = from + ended.mdata.len();
    ended.mdata.len() + 4 == usize::from(ended.sent.size)
        && octets.get(from..end) == Some(ended.mdata)
        && check_anew(octets, end) == Some(ended.check)
}

// An express frame, and 12 octets after it the next fragment: that frame again, and the fragment.
fn after_express<'a>(
    sender: &mut Sender,
    store: &'a FrameStore,
    express: FrameRef,
    now: u64,
    waits: Option<u64>,
) -> Option<(FrameRef, Ended<'a>)>
    requires held { HoldsFrame store.now express }
    requires holds { HoldsAll sender.old store.now }
    ensures holds { HoldsAll sender.new store.now }
    ensures held { IfSome result (λ pair. HoldsFrame store.now pair.0) }
{
    let Ended { tick, sent, .. } = send(sender, store, &[], now, Choice::Express(express), None)?;
    let express = sent.done?;
    let next = tick.saturating_add(12);
    let ended = send(sender, store, &[], next, Choice::Rest, waits)?;
    Some((express, ended))
}

// Whether an mPacket is of this kind, from this place on, of this size, and ended at this tick.
fn is_sent(ended: &Ended, kind: Kind, from: u16, size: u16, tick: u64) -> bool {
    let sent = &ended.sent;
    ended.kind == kind
        && sent.kind == kind
        && sent.from == from
        && sent.size == size
        && ended.tick == tick
}

// Cut after 60 octets, with 4 octets of check after them; the next mPacket may begin 12 octets later.
#[test]
fn a_frame_of_124_octets(rt: HostRuntime) -> Result<(), Fail> {
    let mut octets = [0; 124];
    frame_octets(&mut octets);
    let mut store = FrameStore::make(rt.alloc(), 1)?;
    let frame = frame_in(&mut store, &octets).ok_or("no slot")?;
    let mut sender = Sender::idle(1, 0);
    let first = send(&mut sender, &store, &[], 0, Choice::First(frame), Some(1)).ok_or("not sent")?;
    assert!(rt; is_sent(&first, Kind::Start(0), 0, 64, 72));
    assert!(rt; is_of(&first, &octets));
    assert_eq!(rt; first.mdata.len(), 60);
    assert!(rt; first.sent.done.is_none());
    assert_eq!(rt; sender.interrupted(), Some((FrameNo(0), 60)));
    assert!(rt; !sender.free(Tick(83)));
    assert!(rt; sender.free(Tick(84)));
    assert_eq!(rt; sender.free_at(), Some(Tick(84)));
    let rest = send(&mut sender, &store, &[], 168, Choice::Rest, None).ok_or("not sent")?;
    assert!(rt; is_sent(&rest, Kind::Continue(0, 0), 60, 64, 240));
    assert!(rt; is_of(&rest, &octets));
    assert_eq!(rt; rest.check.as_slice(), &octets[120..]);
    assert_eq!(rt; rest.sent.done.map(|frame| frame.size), Some(124));
    assert_eq!(rt; sender.interrupted(), None);
    Ok(())
}

// An express frame that waits from tick 69 on is too late for the only boundary of a frame of 124 octets.
#[test]
fn a_frame_of_124_octets_and_a_late_express_frame(rt: HostRuntime) -> Result<(), Fail> {
    for (waits, size, tick) in [(68, 64, 72), (69, 124, 132)] {
        let mut octets = [0; 124];
        frame_octets(&mut octets);
        let mut store = FrameStore::make(rt.alloc(), 1)?;
        let frame = frame_in(&mut store, &octets).ok_or("no slot")?;
        let mut sender = Sender::idle(1, 0);
        let first = send(
            &mut sender,
            &store,
            &[],
            0,
            Choice::First(frame),
            Some(waits),
        )
        .ok_or("not sent")?;
        assert!(rt; is_sent(&first, Kind::Start(0), 0, size, tick));
        assert!(rt; is_of(&first, &octets));
    }
    Ok(())
}

// A frame of 123 octets is never cut; it has the frame count of a first fragment, and its check sequence.
#[test]
fn a_frame_of_123_octets(rt: HostRuntime) -> Result<(), Fail> {
    let mut octets = [0; 123];
    frame_octets(&mut octets);
    let mut store = FrameStore::make(rt.alloc(), 1)?;
    let frame = frame_in(&mut store, &octets).ok_or("no slot")?;
    let mut sender = Sender::idle(1, 0);
    let sent = send(&mut sender, &store, &[], 0, Choice::First(frame), Some(1)).ok_or("not sent")?;
    assert!(rt; is_sent(&sent, Kind::Start(0), 0, 123, 131));
    assert!(rt; is_of(&sent, &octets));
    assert_eq!(rt; sent.check.as_slice(), &octets[119..]);
    assert_eq!(rt; sent.sent.done.map(|frame| frame.size), Some(123));
    assert_eq!(rt; sender.interrupted(), None);
    Ok(())
}

// A frame of 1522 octets, cut at the boundary of tick 68, goes on after an express frame.
#[test]
fn a_frame_of_1522_octets(rt: HostRuntime) -> Result<(), Fail> {
    let mut octets = [0; 1522];
    frame_octets(&mut octets);
    let mut store = FrameStore::make(rt.alloc(), 1)?;
    let frame = frame_in(&mut store, &octets).ok_or("no slot")?;
    let mut sender = Sender::idle(1, 0);
    let first = send(&mut sender, &store, &[], 0, Choice::First(frame), Some(20)).ok_or(
        "not sent",
    )?;
    assert!(rt; is_sent(&first, Kind::Start(0), 0, 64, 72));
    assert!(rt; is_of(&first, &octets));
    let rest = send(&mut sender, &store, &[], 168, Choice::Rest, None).ok_or("not sent")?;
    assert!(rt; is_sent(&rest, Kind::Continue(0, 0), 60, 1462, 1638));
    assert!(rt; is_of(&rest, &octets));
    Ok(())
}

// Whether five fragments follow with the counts 0, 1, 2, 3 and 0, each after an express frame, and the last one to the end.
fn goes_on(sender: &mut Sender, store: &FrameStore, express: FrameRef, octets: &[u8]) -> bool
    requires held { HoldsFrame store.now express }
    requires holds { HoldsAll sender.old store.now }
{
    let mut express = express;
    for (now, waits, count, from, size, tick) in [
        (84, Some(180), 0, 60, 64, 240),
        (252, Some(350), 1, 120, 64, 408),
        (420, Some(520), 2, 180, 64, 576),
        (588, Some(690), 3, 240, 64, 744),
        (756, None, 0, 300, 1222, 2070),
    ] {
        let Some((again, rest)) = after_express(sender, store, express, now, waits) else {
            return false;
        };
        if !is_sent(&rest, Kind::Continue(0, count), from, size, tick) || !is_of(&rest, octets) {
            return false;
        }
        express = again;
    }
    true
}

// Five cuts in a row, and each check is that of the plain form.
#[test]
fn five_cuts(rt: HostRuntime) -> Result<(), Fail> {
    let mut octets = [0; 1522];
    frame_octets(&mut octets);
    let mut store = FrameStore::make(rt.alloc(), 2)?;
    let express = frame_in(&mut store, &[0; 64]).ok_or("no slot")?;
    let frame = frame_in(&mut store, &octets).ok_or("no slot")?;
    let mut sender = Sender::idle(1, 0);
    let first = send(&mut sender, &store, &[], 0, Choice::First(frame), Some(20)).ok_or(
        "not sent",
    )?;
    assert!(rt; is_sent(&first, Kind::Start(0), 0, 64, 72));
    assert!(rt; is_of(&first, &octets));
    assert!(rt; goes_on(&mut sender, &store, express, &octets));
    assert_eq!(rt; sender.interrupted(), None);
    Ok(())
}

// A whole frame, an LLDP frame, a verify and a respond, at two ticks an octet; the next first fragment has frame count 0.
#[test]
fn one_of_each_other_choice(rt: HostRuntime) -> Result<(), Fail> {
    const MCRC: [u8; 4] = [0x08, 0x89, 0xED, 0xFB];
    let mut octets = [0; 100];
    frame_octets(&mut octets);
    let mut store = FrameStore::make(rt.alloc(), 1)?;
    let frame = frame_in(&mut store, &octets).ok_or("no slot")?;
    let mut sender = Sender::idle(2, 3);
    let whole = send(&mut sender, &store, &[], 0, Choice::Whole(frame), Some(1)).ok_or("not sent")?;
    assert!(rt; is_sent(&whole, Kind::Express, 0, 100, 216));
    assert!(rt; is_of(&whole, &octets));
    let frame = whole.sent.done.ok_or("not done")?;
    let mut advert = [0; 64];
    frame_octets(&mut advert);
    let lldp = send(&mut sender, &store, &advert, 240, Choice::Lldp, None).ok_or("not sent")?;
    assert!(rt; is_sent(&lldp, Kind::Express, 0, 64, 384));
    assert!(rt; is_of(&lldp, &advert));
    let verify = send(&mut sender, &store, &[0; 60], 408, Choice::Verify, None).ok_or("not sent")?;
    assert!(rt; is_sent(&verify, Kind::Verify, 0, 64, 552));
    assert_eq!(rt; verify.check.as_slice(), MCRC.as_slice());
    let respond = send(&mut sender, &store, &[0; 60], 576, Choice::Respond, None).ok_or(
        "not sent",
    )?;
    assert!(rt; is_sent(&respond, Kind::Respond, 0, 64, 720));
    assert_eq!(rt; respond.check.as_slice(), MCRC.as_slice());
    let first = send(&mut sender, &store, &[], 744, Choice::First(frame), None).ok_or("not sent")?;
    assert!(rt; is_sent(&first, Kind::Start(0), 0, 100, 960));
    frames_law();
    others_law();
    one_sending();
    ending_law();
    fragments_law();
    whole_frames_law();
    Ok(())
}
