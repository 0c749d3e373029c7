ghost use Rattle.std.specs.Prelude.{◌≡◌, ◌+◌, ◌%◌, ◌<◌, ◌≤◌, ℕ, List, [], ◌∷◌, ◌++◌, length, Option, Some, IfOk};
ghost use Rattle.std.specs.Vec.{vec_capacity};
ghost use Rattle.std.specs.Option.{ForSome};
ghost use Rattle.pre_base.specs.declared.limits.TheConstants.{GREATEST_FRAME};
ghost use Rattle.pre_crc.specs.Register as register;
ghost use Rattle.pre_receive.specs.Steps.{BareTo};
ghost use Rattle.pre_receive.specs.Faults.{fault_cause};

use crate::counters::{Counters, counted};
use crate::opened::Opened;
use crate::outcomes::Outcome;
use crate::taken::{Cause, Taken};
use pre_base::{GREATEST_DATA, GREATEST_FRAME, LEAST_DATA};
use pre_crc::{Running, fcs};
use pre_mpacket::{Kind, MFault, MPacket, frames_have_their_size, read_mpacket};
use std::alloc::{AllocError, Global};

/// The mData of a verify or respond.
const BARE: [u8; LEAST_DATA as usize] = [0; LEAST_DATA as usize];

/// The receiving end of one link. It keeps one open frame, and no list of what arrived.
#[derive(Debug, Drop)]
pub struct Receiver {
    // the octets of the open frame so far, or the frame that was joined last
    octets: Vec<u8>,
    // the frame that came last as one express mPacket
    whole: Vec<u8>,
    opened: Option<Opened>,
    counters: Counters,
    ghost octets_room: { GREATEST_FRAME ≤ vec_capacity octets },
    ghost whole_room: { GREATEST_FRAME ≤ vec_capacity whole },
    ghost open_checked: { ForSome opened (λ o. register.Stands o.check octets.items) },
}

impl Receiver {
    ghost use Rattle.std.specs.Prelude.{⊤};
    ghost use Rattle.std.specs.Borrow.{sem};
    ghost use Rattle.pre_receive.specs.contracts.receivers.Receiver.{the_row};
    ghost use mathlib.Core.Option.{none};
    ghost use denote.Follow.{follows_so};
    ghost use Rattle.pre_mpacket.specs.Spelling as spelling;
    ghost use Rattle.pre_receive.specs.Takings.{plain, IsTaken, HasFrameSize, HasCheck};
    ghost use Rattle.pre_receive.specs.Counts.{Count};
    ghost use Rattle.pre_receive.specs.Receivers.{Stands, taking, SortedTo};
    ghost use Rattle.pre_receive.specs.Steps.{ExpressTo, JoinedTo, ContinuedTo};

    /// A receiver to which nothing has arrived. No other call takes memory.
    pub fn make(alloc: Global) -> Result<Receiver, AllocError>
        ensures { IfOk result (λ r. Stands r []) }
    {
        Ok(Receiver {
            octets: Vec::with_capacity(alloc, usize::from(GREATEST_FRAME))?,
            whole: Vec::with_capacity(alloc, usize::from(GREATEST_FRAME))?,
            opened: None,
            counters: Counters {
                frame_ass_error: 0,
                frame_smd_error: 0,
                frame_ass_ok: 0,
                frag_count_rx: 0,
            },
        })
    }

    /// Takes the octets of one arrival, from the preamble on, and tells what it gives (IEEE 802.3, 99.4.7). The frame is lent
    /// out of the receiver's memory.
    pub fn take(&mut self, arrived: &[u8]) -> Taken<'_>
        ensures* after { sem 𝓛 (follows_so the_row the_row self.entry.ghost_name none (λ _ _. ⊤)
            (λ new. (A : List (Option (List ℕ))) → Stands self.old A → Stands new (A ++ Some arrived.now ∷ []))) }
        ensures taken { (A : List (Option (List ℕ))) → Stands self.old A → IsTaken (A ++ Some arrived.now ∷ []) (length A) (plain result) }
        ensures size { (A : List (Option (List ℕ))) → Stands self.old A → HasFrameSize (plain result) }
        ensures check { HasCheck (plain result) }
    {
        frames_have_their_size();
        let outcome = self.receive(arrived);
        self.lent(outcome)
    }

    /// What was counted so far.
    pub fn counters(&self) -> Counters
        ensures { (A : List (Option (List ℕ))) → Stands self.now A → Count A result }
    {
        self.counters
    }

    // The outcome as an answer, which lends a frame out of the receiver.
    fn lent(&self, outcome: Outcome) -> Taken<'_>
        ensures { plain result ≡ taking self.now.whole.items self.now.octets.items outcome }
    {
        match outcome {
            Outcome::Express => Taken::Frame(&self.whole),
            Outcome::Joined => Taken::Frame(&self.octets),
            Outcome::Verify => Taken::Verify,
            Outcome::Respond => Taken::Respond,
            Outcome::Part => Taken::Part,
            Outcome::Nothing(cause) => Taken::Nothing(cause),
        }
    }

    // Takes an arrival, and keeps the frame that it gives.
    fn receive(&mut self, arrived: &[u8]) -> Outcome
        ensures stands { (A : List (Option (List ℕ))) → Stands self.old A → Stands self.new (A ++ Some arrived.now ∷ []) }
        ensures taken { (A : List (Option (List ℕ))) → Stands self.old A → IsTaken (A ++ Some arrived.now ∷ []) (length A) (taking self.new.whole.items self.new.octets.items result) }
        ensures check { HasCheck (taking self.new.whole.items self.new.octets.items result) }
    {
        let was_open = self.opened.is_some();
        match read_mpacket(arrived) {
            Err(fault) => {
                let outcome = Outcome::Nothing(cause_of(fault));
                self.counters = counted(self.counters, None, was_open, outcome);
                outcome
            }
            Ok(packet) => {
                let outcome = self.sorted(&packet);
                self.counters = counted(self.counters, Some(packet.kind), was_open, outcome);
                outcome
            }
        }
    }

    // Takes an mPacket by its kind.
    fn sorted(&mut self, packet: &MPacket) -> Outcome
        requires { spelling.IsWhole (spelling.plain packet.now) }
        ensures sorted { SortedTo packet.now.kind result packet.now.mdata.now packet.now.check.now self.old self.new }
        ensures counters { self.new.counters ≡ self.old.counters }
    {
        let MPacket { kind, mdata, check } = *packet;
        match kind {
            Kind::Express => self.express(mdata, check),
            Kind::Verify => bare(Outcome::Verify, mdata, check),
            Kind::Respond => bare(Outcome::Respond, mdata, check),
            Kind::Start(frame_count) => self.start(frame_count, mdata, check),
            Kind::Continue(frame_count, fragment_count) => {
                self.continuation(frame_count, fragment_count, mdata, check)
            }
        }
    }

    // Keeps a whole frame.
    fn express(&mut self, mdata: &[u8], check: &[u8]) -> Outcome
        requires { length check.now ≡ 4 }
        ensures outcome { ExpressTo result mdata.now check.now self.new.whole.items }
        ensures open { self.new.opened ≡ self.old.opened }
        ensures octets { self.new.octets.items ≡ self.old.octets.items }
        ensures counters { self.new.counters ≡ self.old.counters }
    {
        if mdata.len() > usize::from(GREATEST_DATA) {
            return Outcome::Nothing(Cause::Size);
        }
        if check != fcs(mdata).as_slice() {
            return Outcome::Nothing(Cause::Check);
        }
        self.whole.clear();
        self.whole.extend_from_slice(mdata).unwrap();
        self.whole.extend_from_slice(check).unwrap();
        Outcome::Express
    }

    // Discards what is open, and begins a frame.
    fn start(&mut self, frame_count: u8, mdata: &[u8], check: &[u8]) -> Outcome
        requires { length check.now ≡ 4 }
        ensures outcome { JoinedTo result frame_count 0 mdata.now check.now self.new.opened self.new.octets.items }
        ensures counters { self.new.counters ≡ self.old.counters }
    {
        self.opened = None;
        self.octets.clear();
        self.joined(Running::new(), frame_count, 0, mdata, check)
    }

    // Goes on with what is open, or discards it.
    fn continuation(
        &mut self,
        frame_count: u8,
        fragment_count: u8,
        mdata: &[u8],
        check: &[u8],
    ) -> Outcome
        requires check { length check.now ≡ 4 }
        requires count { fragment_count < 4 }
        ensures outcome { ContinuedTo result frame_count fragment_count mdata.now check.now self.old.opened self.old.octets.items self.new.opened self.new.octets.items }
        ensures counters { self.new.counters ≡ self.old.counters }
    {
        let Some(opened) = self.opened else {
            return Outcome::Nothing(Cause::NoFrame);
        };
        if opened.frame_count != frame_count {
            self.opened = None;
            return Outcome::Nothing(Cause::Count);
        }
        if opened.next != fragment_count {
            self.opened = None;
            return Outcome::Nothing(Cause::Fragment);
        }
        let next = (fragment_count + 1) % 4;
        self.joined(opened.check, frame_count, next, mdata, check)
    }

    // Joins mData to the data so far, over which the check ran, and looks whether it ends the frame or is a part of it.
    fn joined(
        &mut self,
        mut running: Running,
        frame_count: u8,
        next: u8,
        mdata: &[u8],
        check: &[u8],
    ) -> Outcome
        requires check { length check.now ≡ 4 }
        requires stands { register.Stands running self.old.octets.items }
        ensures outcome { JoinedTo result frame_count next (self.old.octets.items ++ mdata.now) check.now self.new.opened self.new.octets.items }
        ensures counters { self.new.counters ≡ self.old.counters }
    {
        self.opened = None;
        if self.octets.len() + mdata.len() > usize::from(GREATEST_DATA) {
            return Outcome::Nothing(Cause::Size);
        }
        self.octets.extend_from_slice(mdata).unwrap();
        running.add(mdata);
        if check == running.fcs().as_slice() {
            self.octets.extend_from_slice(check).unwrap();
            return Outcome::Joined;
        }
        if check != running.mcrc().as_slice() {
            return Outcome::Nothing(Cause::Check);
        }
        self.opened = Some(Opened {
            frame_count,
            next,
            check: running,
        });
        Outcome::Part
    }
}

// A verify or respond, where this is the outcome of a good one.
fn bare(good: Outcome, mdata: &[u8], check: &[u8]) -> Outcome
    ensures { BareTo good result mdata.now check.now }
{
    if mdata.len() != BARE.len() {
        return Outcome::Nothing(Cause::Size);
    }
    let mut running = Running::new();
    running.add(mdata);
    if mdata == BARE.as_slice() && check == running.mcrc().as_slice() {
        good
    } else {
        Outcome::Nothing(Cause::Check)
    }
}

// The cause of a fault of spelling.
fn cause_of(fault: MFault) -> Cause
    ensures { result ≡ fault_cause fault }
{
    match fault {
        MFault::Smd | MFault::Preamble => Cause::Smd,
        MFault::Fragment => Cause::Fragment,
        MFault::Short => Cause::Size,
    }
}
