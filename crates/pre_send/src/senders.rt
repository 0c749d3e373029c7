ghost use Rattle.std.specs.Prelude.{◌≡◌, ◌↔◌, IsTrue, IsSome, IfSome, is_some, option_map, ℕ, ◌+◌, ◌*◌, ◌^◌, ◌≤◌};
ghost use Rattle.std.specs.Prelude.{◌<◌, true, false, take, drop, List, [], ◌∷◌, ◌++◌, Option, Some, None};
ghost use Rattle.std.specs.Option.{ForSome};
ghost use Rattle.pre_base.specs.declared.limits.TheConstants.{LEAST_FRAME, GREATEST_FRAME};
ghost use Rattle.pre_rings.specs.Stores.{HoldsFrame};
ghost use Rattle.pre_send.specs.Fragments.{next_fragment};
ghost use Rattle.pre_send.specs.Sendings.{slot_octets};
ghost use Rattle.pre_send.specs.Alone.{has_both};

use crate::choices::{Choice, Sent};
use crate::going::{Going, Task};
use crate::pieces::{Piece, part_of};
use pre_base::{FrameNo, GAP, HEAD, Tick};
use pre_crc::Running;
use pre_mpacket::Kind;
use pre_rings::{FrameRef, FrameStore};

/// The sending end of one link. It keeps the frame under way and the one that is interrupted, and no list of what was sent.
#[derive(Debug, Drop)]
pub struct Sender {
    // ticks for an octet
    cost: u64,
    // the link's additional fragment size
    add_frag: u8,
    going: Option<Going>,
    // the frame that is interrupted
    kept: Option<Piece>,
    // when the last mPacket ended, where none is under way
    last: Option<u64>,
    // the frame count of the next frame that begins in fragments
    frame_count: u8,
    ghost cost_some: { 1 ≤ cost },
    ghost cost_within: { cost ≤ 1000 },
    ghost add_frag_within: { add_frag ≤ 3 },
    ghost last_within: { ForSome last (λ e. e ≤ 2 * 10 ^ 18) },
    ghost count_within: { frame_count < 4 },
    ghost alone: { has_both going kept ≡ false },
}

impl Sender {
    ghost use Rattle.pre_send.specs.Calls.{Call, begun, waited, ended, told_by};
    ghost use Rattle.pre_send.specs.Sendings.{IsFree};
    ghost use Rattle.pre_send.specs.Answers.{IsFreeAt, EndsAt, IsInterrupted, IsUnderWayAs};
    ghost use Rattle.pre_send.specs.Endings.{Ends, plans_end, HoldsUnderWay, HoldsAll, HoldsChoice, HoldsTask, EndsPiece, EndsTask};
    ghost use Rattle.pre_mpacket.specs.Spelling.{PlainPacket, HasCounts, IsWhole};
    ghost use Rattle.pre_send.specs.Tasks.{task_size};
    ghost use Rattle.pre_send.specs.Lendings.{Lends, LendsChoice, IsNewestPacket};
    ghost use Rattle.pre_send.specs.Owned.{frames_of, frames_chosen, frames_done};
    ghost use Rattle.pre_send.specs.Senders.{Stands, chosen, is_free, IsFreeFrom, is_interrupted, kind_under_way, MayBegin, Firsts, Rests, Chooses};

    /// A sender that has sent nothing, by the ticks for an octet and the link's additional fragment size.
    #[tactic(auto, unfolding(crate::specs::Endings::HoldsUnderWay, crate::specs::Endings::HoldsKept, crate::specs::Owned::frames_of))]
    pub fn idle(cost: u64, add_frag: u8) -> Sender
        requires cost { 1 ≤ cost }
        requires most { cost ≤ 1000 }
        requires add_frag { add_frag ≤ 3 }
        ensures stands { Stands result cost add_frag [] }
        ensures holds { (store : List (Option (List ℕ))) → HoldsAll result store }
        ensures frames { frames_of result ≡ [] }
    {
        Sender {
            cost,
            add_frag,
            going: None,
            kept: None,
            last: None,
            frame_count: 0,
        }
    }

    /// Whether nothing occupies the arc.
    #[tactic(auto, unfolding(crate::specs::Senders::is_free))]
    pub fn free(&self, now: Tick) -> bool
        ensures free { result ≡ is_free self.now now.0 }
        ensures exact { (cost add_frag : ℕ) (calls : List Call) → Stands self.now cost add_frag calls → IsTrue result ↔ IsFree cost (told_by calls) now.0 }
    {
        match &self.going {
            Some(_) => false,
            None => match self.last {
                None => true,
                Some(last) => last + GAP * self.cost <= now.0,
            },
        }
    }

    /// The least tick from which on nothing occupies the arc. None exactly where an mPacket is under way.
    #[tactic(auto, unfolding(crate::specs::Senders::is_free, crate::specs::Endings::plans_end))]
    pub fn free_at(&self) -> Option<Tick>
        ensures own { IsFreeFrom self.now result }
        ensures exact { (cost add_frag : ℕ) (calls : List Call) → Stands self.now cost add_frag calls → IsFreeAt cost (told_by calls) result }
    {
        if self.going.is_some() {
            return None;
        }
        match self.last {
            None => Some(Tick(0)),
            Some(last) => Some(Tick(last + GAP * self.cost)),
        }
    }

    /// The planned end of the mPacket under way, None exactly where there is none.
    #[tactic(auto, unfolding(crate::specs::Endings::plans_end))]
    pub fn ends_at(&self) -> Option<Tick>
        ensures plans { option_map (λ tick. tick.0) result ≡ plans_end self.now }
        ensures exact { (cost add_frag : ℕ) (calls : List Call) → Stands self.now cost add_frag calls → EndsAt cost add_frag calls result }
    {
        let going = self.going.as_ref()?;
        Some(Tick(going.began + self.cost * (HEAD + u64::from(going.size()))))
    }

    /// The frame that is interrupted, and the place where it goes on; None exactly where none is.
    #[tactic(auto, unfolding(crate::specs::Senders::is_interrupted))]
    pub fn interrupted(&self) -> Option<(FrameNo, u16)>
        ensures some { is_some result ≡ is_interrupted self.now }
        ensures exact { (cost add_frag : ℕ) (calls : List Call) → Stands self.now cost add_frag calls → IsInterrupted cost add_frag calls result }
    {
        let piece = self.kept.as_ref()?;
        Some((piece.frame.frame, piece.from))
    }

    /// The kind of the mPacket under way, and the place of its mData in its frame; None exactly where there is none.
    #[tactic(auto, unfolding(crate::specs::Senders::kind_under_way))]
    pub fn under_way(&self) -> Option<(Kind, u16)>
        ensures own { result ≡ kind_under_way self.now }
        ensures counts { IfSome result (λ x. HasCounts x.0) }
        ensures exact { (cost add_frag : ℕ) (calls : List Call) → Stands self.now cost add_frag calls → IsUnderWayAs cost add_frag calls result }
    {
        let going = self.going.as_ref()?;
        Some(going.task.kind())
    }

    /// Tells that an mPacket begins.
    #[tactic(auto, unfolding(crate::specs::Owned::frames_of, crate::specs::Endings::plans_end, crate::specs::Endings::HoldsUnderWay, crate::specs::Endings::HoldsKept, crate::specs::Lendings::Lends))]
    pub fn begin(&mut self, now: Tick, choice: Choice)
        requires free { is_free self.old now.0 ≡ true }
        requires may { MayBegin self.old choice }
        requires within { now.0 ≤ 10 ^ 18 }
        ensures stands { (cost add_frag : ℕ) (calls : List Call) → Stands self.old cost add_frag calls → Stands self.new cost add_frag (calls ++ begun now.0 (chosen choice) ∷ []) }
        ensures going { IsSome (plans_end self.new) }
        ensures holds { (store : List (Option (List ℕ))) → HoldsAll self.old store → HoldsChoice choice store → HoldsAll self.new store }
        ensures lends { (other : List ℕ) → LendsChoice choice other → Lends self.new other }
        ensures frames { frames_of self.new ≡ frames_chosen choice ++ frames_of self.old }
    {
        let task = self.task_of(choice);
        self.going = Some(Going {
            began: now.0,
            task,
            waits: None,
        });
    }

    /// Tells that an express frame waits from now on until the mPacket under way has ended, which fixes where a fragment is
    /// cut. With none under way it changes nothing. Ticks never fall from call to call.
    #[tactic(auto, unfolding(crate::specs::Owned::frames_of, crate::specs::Endings::plans_end, crate::specs::Endings::HoldsUnderWay, crate::specs::Endings::HoldsKept, crate::specs::Lendings::Lends))]
    pub fn express_waits(&mut self, now: Tick)
        requires { now.0 ≤ 10 ^ 18 }
        ensures stands { (cost add_frag : ℕ) (calls : List Call) → Stands self.old cost add_frag calls → Stands self.new cost add_frag (calls ++ waited now.0 ∷ []) }
        ensures idle { plans_end self.old ≡ None → self.new ≡ self.old }
        ensures going { IsSome (plans_end self.old) → IsSome (plans_end self.new) }
        ensures holds { (store : List (Option (List ℕ))) → HoldsAll self.old store → HoldsAll self.new store }
        ensures lends { (other : List ℕ) → Lends self.old other → Lends self.new other }
        ensures frames { frames_of self.new ≡ frames_of self.old }
    {
        let Some(going) = self.going.take() else {
            return;
        };
        self.going = Some(going.told(now.0, self.cost, self.add_frag));
    }

    /// The mPacket under way, as it ends by the present plan: its kind, its mData and its check as sent (IEEE 802.3, 99.3).
    /// The mData is lent out of the store, which holds its frame, or out of `other`, which is an LLDP frame of 64 octets, or
    /// the 60 octets 0 of a verify or respond. Of all octets of the frame so far only those of this mPacket are looked at.
    #[tactic(auto, unfolding(crate::specs::Endings::plans_end, crate::specs::Endings::HoldsUnderWay, crate::specs::Lendings::Lends))]
    pub fn mpacket<'a>(&self, store: &'a FrameStore, other: &'a [u8]) -> (Kind, &'a [u8], [u8; 4])
        requires going { IsSome (plans_end self.now) }
        requires holds { HoldsUnderWay self.now store.now }
        requires other { Lends self.now other.now }
        ensures given { (cost add_frag : ℕ) (calls : List Call) → Stands self.now cost add_frag calls
            → IsNewestPacket cost add_frag calls store.now other.now (record { kind = result.0; mdata = result.1.now; check = result.2 }) }
        ensures whole { IsWhole (record { kind = result.0; mdata = result.1.now; check = result.2 }) }
    {
        match &self.going {
            Some(going) => going.task.packet(store, other),
            None => unreachable!(),
        }
    }

    /// Tells that the mPacket under way has ended, and what it was. The store holds its frame.
    #[tactic(auto, unfolding(crate::specs::Owned::frames_of, crate::specs::Endings::plans_end, crate::specs::Endings::HoldsUnderWay, crate::specs::Endings::HoldsKept))]
    pub fn finish(&mut self, now: Tick, store: &FrameStore) -> Sent
        requires due { plans_end self.old ≡ Some now.0 }
        requires holds { HoldsUnderWay self.old store.now }
        requires within { now.0 ≤ 2 * 10 ^ 18 }
        ensures stands { (cost add_frag : ℕ) (calls : List Call) → Stands self.old cost add_frag calls → Stands self.new cost add_frag (calls ++ ended now.0 store.now ∷ []) }
        ensures holds { HoldsAll self.old store.now → HoldsAll self.new store.now }
        ensures done { IfSome result.done (λ f. HoldsFrame store.now f) }
        ensures sent { (cost add_frag : ℕ) (calls : List Call) → Stands self.old cost add_frag calls → Ends cost add_frag (calls ++ ended now.0 store.now ∷ []) result }
        ensures frames { frames_of self.old ≡ frames_done result.done ++ frames_of self.new }
        ensures least { 64 ≤ result.size }
        ensures most { result.size ≤ GREATEST_FRAME }
    {
        let Some(going) = self.going.take() else {
            unreachable!()
        };
        self.last = Some(now.0);
        let Going { task, .. } = going;
        self.end_task(task, store)
    }

    // Ends what was under way.
    fn end_task(&mut self, task: Task, store: &FrameStore) -> Sent
        requires holds { HoldsTask task store.now }
        requires none { self.old.going ≡ None }
        ensures ends { EndsTask task self.old self.new store.now result }
        ensures size { result.size ≡ task_size task }
        ensures done { IfSome result.done (λ f. HoldsFrame store.now f) }
    {
        match task {
            Task::Frame(frame) => Sent {
                kind: Kind::Express,
                from: 0,
                size: frame.size,
                done: Some(frame),
            },
            Task::Fragment(piece) => self.end_piece(piece, store),
            Task::Verify => bare(Kind::Verify),
            Task::Respond => bare(Kind::Respond),
            Task::Lldp => bare(Kind::Express),
        }
    }

    // Ends a fragment: its frame is done, or it is kept.
    fn end_piece(&mut self, piece: Piece, store: &FrameStore) -> Sent
        requires holds { HoldsFrame store.now piece.frame }
        requires none { self.old.going ≡ None }
        ensures ends { EndsPiece self.old self.new piece store.now result }
        ensures done { IfSome result.done (λ f. HoldsFrame store.now f) }
    {
        let kind = piece.kind();
        let size = piece.size();
        let Piece {
            frame,
            from,
            frame_count,
            fragment,
            mut check,
            cut,
        } = piece;
        let Some(mdata) = cut else {
            return Sent {
                kind,
                from,
                size,
                done: Some(frame),
            };
        };
        let next = from + mdata;
        check.add(part_of(store, &frame, from, mdata));
        self.kept = Some(Piece {
            frame,
            from: next,
            frame_count,
            fragment: next_fragment(from, fragment),
            check,
            cut: None,
        });
        Sent {
            kind,
            from,
            size,
            done: None,
        }
    }

    // What a choice is.
    #[tactic(auto, unfolding(crate::specs::Senders::is_interrupted))]
    fn task_of(&mut self, choice: Choice) -> Task
        requires { MayBegin self.old choice }
        ensures chooses { Chooses choice self.old self.new result }
        ensures size { 64 ≤ task_size result }
        ensures size_most { task_size result ≤ GREATEST_FRAME }
    {
        match choice {
            Choice::Express(frame) => Task::Frame(frame),
            Choice::Whole(frame) => Task::Frame(frame),
            Choice::First(frame) => self.first(frame),
            Choice::Rest => self.rest(),
            Choice::Verify => Task::Verify,
            Choice::Respond => Task::Respond,
            Choice::Lldp => Task::Lldp,
        }
    }

    // The first fragment of a frame.
    fn first(&mut self, frame: FrameRef) -> Task
        requires least { LEAST_FRAME ≤ frame.size }
        requires most { frame.size ≤ GREATEST_FRAME }
        ensures first { Firsts self.old self.new frame result }
        ensures size { 64 ≤ task_size result }
        ensures size_most { task_size result ≤ GREATEST_FRAME }
    {
        let frame_count = self.frame_count;
        self.frame_count = (frame_count + 1) % 4;
        Task::Fragment(Piece {
            frame,
            from: 0,
            frame_count,
            fragment: 0,
            check: Running::new(),
            cut: None,
        })
    }

    // The next fragment of the interrupted frame.
    #[tactic(auto, unfolding(crate::specs::Senders::is_interrupted))]
    fn rest(&mut self) -> Task
        requires { is_interrupted self.old ≡ true }
        ensures rest { Rests self.old self.new result }
        ensures size { 64 ≤ task_size result }
        ensures size_most { task_size result ≤ GREATEST_FRAME }
    {
        match self.kept.take() {
            Some(piece) => Task::Fragment(piece),
            None => unreachable!(),
        }
    }
}

// The fragment count of the next continuation, where a fragment was from this place.
fn next_fragment(from: u16, fragment: u8) -> u8
    requires { fragment < 4 }
    ensures { result ≡ next_fragment from fragment }
{
    if from == 0 { 0 } else { (fragment + 1) % 4 }
}

// What has 60 octets of mData and is no user frame.
fn bare(kind: Kind) -> Sent
    ensures { result ≡ record { kind = kind; from = 0; size = 64; done = None } }
{
    Sent {
        kind,
        from: 0,
        size: 64,
        done: None,
    }
}
