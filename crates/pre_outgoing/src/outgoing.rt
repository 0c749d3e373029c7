ghost use Rattle.std.specs.Prelude.{◌≡◌, ◌≢◌, ◌↔◌, ◌+◌, ◌*◌, ◌^◌, ◌<◌, ◌≤◌, ℕ, Bool, true, false, IsTrue};
ghost use Rattle.std.specs.Prelude.{IsFalse, IsSome, List, Option, Some, option_map, [], ◌∷◌, ◌++◌, length, replicate};
ghost use Rattle.std.specs.Bool.{Decides};
ghost use Rattle.pre_base.specs.declared.limits.TheConstants.{GREATEST_FRAME};
ghost use Rattle.pre_mpacket.specs.Arrivals.{is_continue};
ghost use Rattle.pre_mpacket.specs.Spelling.{PlainPacket, HasCounts, IsWhole};
ghost use Rattle.pre_send.specs.Calls.{Call, begun};
ghost use Rattle.pre_send.specs.Sendings.{Sending, IsSending, IsFree};
ghost use Rattle.pre_send.specs.Answers.{IsUnderWayAs, kept_part};
ghost use Rattle.pre_send.specs.Endings.{plans_end};
ghost use Rattle.pre_send.specs.Lendings.{Lends};
ghost use Rattle.pre_send.specs.Owned.{frames_of, frames_chosen, frames_done};
ghost use Rattle.pre_send.specs.Senders.{IsFreeFrom, MayBegin, Stands, chosen, is_free, is_interrupted, kind_under_way};
ghost use Rattle.pre_history.specs.Scenario.{Scenario, arc};
ghost use Rattle.pre_history.specs.History.{Ended, History, PlainEvent};
ghost use Rattle.pre_history.specs.Legal.{LegalUpTo};
ghost use Rattle.pre_history.specs.Moments.{Phase};
ghost use Rattle.pre_history.specs.Octets.{AdvertAt};
ghost use Rattle.pre_history.specs.Placed.{number};
ghost use Rattle.pre_history.specs.Queries.{Occupied};
ghost use Rattle.pre_history.specs.Rules.{HappensIn};
ghost use Rattle.pre_history.specs.Starts.{Choice as Start, ExpressWaits, Item, StartRule, There, lldp_begins};
ghost use Rattle.pre_lldp.specs.LldpLayout.{lldp_frame};
ghost use Rattle.pre_outgoing.specs.Matching.{IsTold, what_of};
ghost use Rattle.pre_outgoing.specs.Sends.{AreHeld, AreStored, HasBegun, HasEnded, IsLldp, Leaves, Sends, continuations, ends_frame, lent_by, next_count};

use pre_base::Tick;
use pre_history::What;
use pre_mpacket::Kind;
use pre_rings::{FrameRef, FrameStore};
use pre_send::{Choice, Sender, Sent};

/// The sending end of an arc: its sender, and what events tell of the mPackets that it sends.
#[derive(Debug, Drop)]
pub struct Outgoing {
    sender: Sender,
    // how many mPackets began, so the ordinal of the next one
    begun: u64,
    // how many continuations began
    continued: u64,
    // whose octets the mPacket under way carries
    carried: What,
    // the LLDP frame that is under way
    advert: [u8; 64],
}

/// An mPacket that has begun: its ordinal on the arc, its kind, whose octets it carries and from which place on.
#[derive(Debug, Drop)]
pub struct Begun {
    pub ord: u64,
    pub kind: Kind,
    pub what: What,
    pub from: u16,
}

/// An mPacket that has ended, with the octets of its mData and check as its size.
#[derive(Debug, Drop)]
pub struct Finished {
    pub ord: u64,
    pub kind: Kind,
    pub what: What,
    pub size: u16,
    /// Whether its octets end those of the frame, verify or respond that it carries.
    pub is_last: bool,
    /// The user frame whose last octet it carried.
    pub done: Option<FrameRef>,
}

impl Outgoing {
    /// That of an arc on which nothing was sent, by the ticks for an octet and the link's additional fragment size.
    pub fn idle(cost: u64, add_frag: u8) -> Outgoing
        requires cost { 1 ≤ cost }
        requires most { cost ≤ 1000 }
        requires add_frag { add_frag ≤ 3 }
        ensures sends { (w : Scenario) (a : ℕ) → (arc w a).cost ≡ cost → (arc w a).add_frag ≡ add_frag → Sends w [] a 0 true result }
        ensures frames { frames_of result.sender ≡ [] }
    {
        Outgoing {
            sender: Sender::idle(cost, add_frag),
            begun: 0,
            continued: 0,
            carried: What::Nothing,
            advert: [0; 64],
        }
    }

    /// Whether nothing occupies the arc.
    pub fn free(&self, now: Tick) -> bool
        ensures own { result ≡ is_free self.now.sender now.0 }
        ensures exact { (w : Scenario) (past : History) (a n : ℕ) (settled : Bool) → a < length w.net.arcs
            → LegalUpTo w (number (length w.net.arcs) now.0 (2 + 3 * length w.net.arcs + a)) past → Sends w past a n settled self.now
            → IsTrue result ↔ (¬ Occupied w past a now.0) }
    {
        self.sender.free(now)
    }

    /// Whether a frame is interrupted, so that a continuation may begin where the arc is free.
    pub fn is_interrupted(&self) -> bool
        ensures own { result ≡ is_interrupted self.now.sender }
        ensures exact { (w : Scenario) (past : History) (t a n : ℕ) (settled : Bool) → a < length w.net.arcs
            → LegalUpTo w (number (length w.net.arcs) t (2 + 3 * length w.net.arcs + a)) past → Sends w past a n settled self.now
            → is_free self.now.sender t ≡ true → IsTrue result ↔ ((c : Start) × There w past a t Item.rest c) }
    {
        self.sender.interrupted().is_some()
    }

    /// Begins an mPacket of a user frame, a verify or a respond.
    pub fn begin(&mut self, now: Tick, choice: Choice) -> Begun
        requires free { is_free self.old.sender now.0 ≡ true }
        requires may { MayBegin self.old.sender choice }
        requires other { ¬ IsLldp choice }
        requires within { now.0 ≤ 10 ^ 18 }
        ensures begins { (w : Scenario) (past : History) (a n : ℕ) (settled : Bool) (c : Start) → a < length w.net.arcs
            → LegalUpTo w (number (length w.net.arcs) now.0 (2 + 3 * length w.net.arcs + a)) past → Sends w past a n settled self.old
            → StartRule w past a now.0 c → IsTold w (chosen choice) c → HasBegun w past now.0 a c result self.new }
        ensures kind { HasCounts result.kind }
        ensures frames { frames_of self.new.sender ≡ frames_chosen choice ++ frames_of self.old.sender }
    {
        self.start(now, choice)
    }

    /// Begins an LLDP frame of 64 octets.
    pub fn begin_lldp(&mut self, now: Tick, frame: [u8; 64]) -> Begun
        requires free { is_free self.old.sender now.0 ≡ true }
        requires within { now.0 ≤ 10 ^ 18 }
        ensures begins { (w : Scenario) (past : History) (a n : ℕ) (settled : Bool) → a < length w.net.arcs
            → LegalUpTo w (number (length w.net.arcs) now.0 (2 + 3 * length w.net.arcs + a)) past → Sends w past a n settled self.old
            → StartRule w past a now.0 lldp_begins → frame ≡ lldp_frame (arc w a).from.0 a (AdvertAt w past a now.0)
            → HasBegun w past now.0 a lldp_begins result self.new }
        ensures kind { HasCounts result.kind }
        ensures frames { frames_of self.new.sender ≡ frames_of self.old.sender }
    {
        self.advert = frame;
        self.start(now, Choice::Lldp)
    }

    /// Tells where an express frame waits at the tick: a fragment under way is cut by the first such tick.
    pub fn settle(&mut self, now: Tick, waits: bool)
        requires { now.0 ≤ 10 ^ 18 }
        ensures settles { (w : Scenario) (past : History) (a : ℕ) → a < length w.net.arcs
            → LegalUpTo w (number (length w.net.arcs) now.0 (2 + 3 * length w.net.arcs + a)) past → Decides waits (ExpressWaits w past a now.0)
            → Sends w past a now.0 false self.old → Sends w past a (now.0 + 1) true self.new }
        ensures ahead { (w : Scenario) (past : History) (a n due : ℕ) (settled : Bool) → a < length w.net.arcs → Sends w past a n settled self.old
            → plans_end self.old.sender ≡ Some due → now.0 < due → (later : ℕ) × (plans_end self.new.sender ≡ Some later) × (now.0 < later) }
        ensures frames { frames_of self.new.sender ≡ frames_of self.old.sender }
    {
        if waits {
            self.sender.express_waits(now);
        }
    }

    /// The least tick from which on nothing occupies the arc. None exactly where an mPacket is under way.
    pub fn free_at(&self) -> Option<Tick>
        ensures { IsFreeFrom self.now.sender result }
    {
        self.sender.free_at()
    }

    /// How many continuations began, which an arc's transmit counter tells (IEEE 802.3, 30.14.1.13).
    pub fn continued(&self) -> u64
        ensures own { result ≡ self.now.continued }
        ensures exact { (w : Scenario) (h : History) (a n : ℕ) (settled : Bool) → Sends w h a n settled self.now → result ≡ continuations h a }
    {
        self.continued
    }

    /// The planned end of the mPacket under way, None exactly where there is none.
    pub fn ends_at(&self) -> Option<Tick>
        ensures { option_map (λ tick. tick.0) result ≡ plans_end self.now.sender }
    {
        self.sender.ends_at()
    }

    /// Whether the mPacket under way ends at the tick.
    pub fn ends(&self, now: Tick) -> bool
        ensures own { IsTrue result ↔ (plans_end self.now.sender ≡ Some now.0) }
        ensures none { (w : Scenario) (past : History) (a : ℕ) → a < length w.net.arcs
            → LegalUpTo w (number (length w.net.arcs) now.0 (1 + a)) past → Sends w past a now.0 true self.now
            → IsFalse result → HappensIn w past now.0 (Phase.ends a) [] }
    {
        match self.sender.ends_at() {
            Some(due) => due.0 == now.0,
            None => false,
        }
    }

    /// The mPacket under way, as it ends by the present plan: its kind, its mData and its check as sent (IEEE 802.3, 99.3).
    /// The mData is lent out of the store, which holds its frame, out of the LLDP frame, or out of 60 octets 0.
    pub fn packet<'a>(&'a self, store: &'a FrameStore, zeros: &'a [u8]) -> (Kind, &'a [u8], [u8; 4])
        requires going { IsSome (plans_end self.now.sender) }
        requires held { AreHeld store.now (frames_of self.now.sender) }
        requires zeros { zeros.now ≡ replicate 60 0 }
        ensures leaves { (w : Scenario) (past : History) (t a : ℕ) → a < length w.net.arcs
            → LegalUpTo w (number (length w.net.arcs) t (1 + a)) past → Sends w past a t true self.now
            → AreStored w store.now (frames_of self.now.sender) → plans_end self.now.sender ≡ Some t
            → Leaves w past t a (record { kind = result.0; mdata = result.1.now; check = result.2 }) }
        ensures whole { IsWhole (record { kind = result.0; mdata = result.1.now; check = result.2 }) }
    {
        let other = self.other(zeros);
        self.sender.mpacket(store, other)
    }

    /// Ends the mPacket under way, and answers with what it was. The store holds its frame.
    pub fn finish(&mut self, now: Tick, store: &FrameStore) -> Finished
        requires due { plans_end self.old.sender ≡ Some now.0 }
        requires held { AreHeld store.now (frames_of self.old.sender) }
        requires within { now.0 ≤ 10 ^ 18 }
        ensures ends { (w : Scenario) (past : History) (a : ℕ) (e : Ended) → a < length w.net.arcs
            → LegalUpTo w (number (length w.net.arcs) now.0 (1 + a)) past → Sends w past a now.0 true self.old
            → AreStored w store.now (frames_of self.old.sender) → HappensIn w past now.0 (Phase.ends a) (PlainEvent.ended e ∷ [])
            → HasEnded w past now.0 a e result self.new }
        ensures frames { frames_of self.old.sender ≡ frames_done result.done ++ frames_of self.new.sender }
        ensures least { 64 ≤ result.size }
        ensures most { result.size ≤ GREATEST_FRAME }
    {
        let what = self.carried;
        let Sent {
            kind,
            size,
            done,
            ..
        } = self.sender.finish(now, store);
        let is_last = ends_frame(&what, &done);
        Finished {
            ord: self.begun.saturating_sub(1),
            kind,
            what,
            size,
            is_last,
            done,
        }
    }

    // Begins what is chosen.
    fn start(&mut self, now: Tick, choice: Choice) -> Begun
        requires free { is_free self.old.sender now.0 ≡ true }
        requires may { MayBegin self.old.sender choice }
        requires within { now.0 ≤ 10 ^ 18 }
        ensures stands { (cost add_frag : ℕ) (calls : List Call) → Stands self.old.sender cost add_frag calls
            → Stands self.new.sender cost add_frag (calls ++ begun now.0 (chosen choice) ∷ []) }
        ensures under_way { (cost add_frag : ℕ) (calls : List Call) → Stands self.old.sender cost add_frag calls
            → IsUnderWayAs cost add_frag (calls ++ begun now.0 (chosen choice) ∷ []) (Some (result.kind, result.from)) }
        ensures carries { (cost add_frag : ℕ) (calls : List Call) (packets : List Sending) → Stands self.old.sender cost add_frag calls
            → IsSending cost add_frag calls packets → result.what ≡ what_of (chosen choice) (kept_part packets) }
        ensures counts { (result.ord ≡ self.old.begun) × (self.new.begun ≡ next_count self.old.begun true) × (self.new.continued ≡ next_count self.old.continued (is_continue result.kind)) }
        ensures kind { HasCounts result.kind }
        ensures keeps { (self.new.carried ≡ result.what) × (self.new.advert ≡ self.old.advert) }
        ensures frames { frames_of self.new.sender ≡ frames_chosen choice ++ frames_of self.old.sender }
    {
        let what = self.what_of(&choice);
        let ord = self.begun;
        self.sender.begin(now, choice);
        let Some((kind, from)) = self.sender.under_way() else {
            unreachable!()
        };
        self.begun = ord.saturating_add(1);
        if let Kind::Continue(_, _) = kind {
            self.continued = self.continued.saturating_add(1);
        }
        self.carried = what;
        Begun {
            ord,
            kind,
            what,
            from,
        }
    }

    // Whose octets an mPacket by this choice carries.
    fn what_of(&self, choice: &Choice) -> What
        ensures { (cost add_frag : ℕ) (calls : List Call) (packets : List Sending) → Stands self.now.sender cost add_frag calls
            → IsSending cost add_frag calls packets → result ≡ what_of (chosen choice.now) (kept_part packets) }
    {
        match choice {
            Choice::Express(frame) | Choice::Whole(frame) | Choice::First(frame) => What::Frame(
                frame.frame,
            ),
            Choice::Rest => match self.sender.interrupted() {
                Some((frame, _)) => What::Frame(frame),
                None => What::Nothing,
            },
            Choice::Lldp => What::Lldp,
            Choice::Verify | Choice::Respond => What::Nothing,
        }
    }

    // What the mData of an mPacket that is no user frame is lent out of.
    fn other<'a>(&'a self, zeros: &'a [u8]) -> &'a [u8]
        requires { zeros.now ≡ replicate 60 0 }
        ensures lent { result.now ≡ lent_by (kind_under_way self.now.sender) zeros.now self.now.advert }
        ensures long { length self.now.advert ≡ 64 }
    {
        match self.sender.under_way() {
            Some((Kind::Verify | Kind::Respond, _)) => zeros,
            _ => &self.advert,
        }
    }
}

// Whether the octets of an mPacket that has ended are the last of what it carries.
fn ends_frame(what: &What, done: &Option<FrameRef>) -> bool
    ensures { result ≡ ends_frame what.now done.now }
{
    match what {
        What::Frame(_) => done.is_some(),
        What::Lldp | What::Nothing => true,
    }
}
