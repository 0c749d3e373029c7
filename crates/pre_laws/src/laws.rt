ghost use Rattle.std.specs.Prelude.{◌<◌, ◌≤◌, ◌+◌, ◌≡◌, ◌≢◌, ◌⊎◌, ℕ, true, length, slice_get, Some, AllPairs, All, []};
ghost use Rattle.pre_laws.specs.Routed.{ArrivesWhole, ComesFirst, ComesNext, HasCome, IsEntry, IsRouted, IsOnRoute};
ghost use Rattle.pre_base.specs.declared.numbers.FrameNo.{FrameNo};
ghost use Rattle.pre_history.specs.History.{Arrive, Begin, Ended, Entry, History};
ghost use Rattle.pre_history.specs.Queries.{Arrivals, Begins, Ends, Entries, Interrupted, Rest};
ghost use Rattle.pre_mpacket.specs.Arrivals.{Given, Gives, is_continue, is_start};
ghost use Rattle.pre_laws.specs.Parts.{GoesOn, IsLeft, WentInParts, AreUndamaged, KeepsFragments, LosesNoFragment};
ghost use Rattle.pre_history.specs.Deliveries.{ComeOnce, DeliversOnce};
ghost use Rattle.pre_history.specs.Comings.{Comings, first_arc, frame_at, next_arc};
ghost use Rattle.pre_history.specs.Placed.{moment_of};
ghost use Rattle.pre_history.specs.Octets.{Air};
ghost use Rattle.pre_history.specs.Legal.{Spared, Legal, LegalBefore, LegalUpTo, last_moment, Alias};
ghost use Rattle.pre_history.specs.Scenario.{FrameOf, Scenario, arc, latency, row, send};
ghost use Rattle.pre_history.specs.Moments.{Phase};
ghost use Rattle.pre_history.specs.Written.{AreWritten};
ghost use Rattle.pre_history.specs.declared.events.What.TheVariants as what;
ghost use Rattle.pre_history.specs.declared.events.Outcome.TheVariants as outcome;
ghost use Rattle.pre_mpacket.specs.declared.packets.Kind.TheVariants as kind;
ghost use Rattle.pre_streams.specs.Fits as streams;
ghost use Rattle.pre_script.specs.Fits as script;

/// Octets of a frame begin only on an arc of its route, not before it is sent, and the frame is of the script.
pub fn frames_keep_to_routes()
    ensures { (w : Scenario) → IsRouted w → (n : ℕ) (h : History) (a i : ℕ) (b : Begin) (f : FrameNo) → LegalUpTo w n h
        → slice_get (Begins h a) i ≡ Some b → b.what ≡ what.Frame f → IsOnRoute w a b.tick f.0 }
{}

/// Where no arrival is an alias, an mPacket that arrives as a user frame carried the last octets of a frame, and gives that frame.
pub fn frames_arrive_whole()
    ensures { (w : Scenario) (n : ℕ) (h : History) → LegalBefore w h n → (a : ℕ) → a < length w.net.arcs → (i : ℕ) (x : Arrive)
        → slice_get (Arrivals h a) i ≡ Some x → x.result ≡ outcome.Frame → (f : ℕ) × ArrivesWhole w h a i f }
{}

/// Where no arrival is an alias, a frame comes to a ring of an arc once at most, entries and drops together: to the first arc of its
/// route when it is sent, and to another one from the arc before, when it has arrived there and the latency is over. Its first
/// octet begins on an arc once at most, and so does its last one.
pub fn frames_take_arcs_once()
    ensures entries { (w : Scenario) → IsRouted w → (n : ℕ) (h : History) → LegalBefore w h n → (i j : ℕ) (e d : Entry)
        → IsEntry h i e → IsEntry h j d → e.arc ≡ d.arc → e.frame ≡ d.frame → i ≡ j }
    ensures comes { (w : Scenario) → IsRouted w → (n : ℕ) (h : History) → LegalBefore w h n → (i : ℕ) (e : Entry)
        → IsEntry h i e → ComesFirst w e.tick e.arc e.frame ⊎ ComesNext w h e.tick e.arc e.frame }
    ensures first { (w : Scenario) → IsRouted w → (n : ℕ) (h : History) → LegalUpTo w n h → (a : ℕ) → a < length w.net.arcs → (i j : ℕ) (b d : Begin) (f : FrameNo)
        → slice_get (Begins h a) i ≡ Some b → slice_get (Begins h a) j ≡ Some d → b.what ≡ what.Frame f → d.what ≡ what.Frame f → b.from ≡ 0 → d.from ≡ 0 → i ≡ j }
    ensures last { (w : Scenario) → IsRouted w → (n : ℕ) (h : History) → LegalUpTo w n h → (a : ℕ) → a < length w.net.arcs → (i j : ℕ) (b d : Begin) (f : FrameNo) (e : Ended)
        → i < j → slice_get (Begins h a) i ≡ Some b → slice_get (Begins h a) j ≡ Some d → b.what ≡ what.Frame f → d.what ≡ what.Frame f → slice_get (Ends h a) i ≡ Some e
        → b.from + e.size < length (FrameOf w f.0) }
    ensures rings { (w : Scenario) → IsRouted w → (n : ℕ) (h : History) → LegalBefore w h n → (a p : ℕ) → AllPairs (λ d e. d.frame ≢ e.frame) (Entries h a p) }
    ensures before { (w : Scenario) → IsRouted w → (n : ℕ) (h : History) → LegalBefore w h n → (a i : ℕ) (b : Begin) (f : FrameNo) → a < length w.net.arcs
        → slice_get (Begins h a) i ≡ Some b → b.what ≡ what.Frame f → HasCome h a b.tick f.0 }
    ensures comings { (w : Scenario) → IsRouted w → (t : ℕ) (past : History) → LegalBefore w past (moment_of w t Phase.entries)
        → ComeOnce w past (Comings w past t) }
{}

/// Where no arrival is an alias, each delivery has the octets of the frame that it names, which was sent by then, and no two
/// deliveries name one frame.
pub fn deliveries_are_of_frames_sent()
    ensures whole { (w : Scenario) → IsRouted w → (h : History) → Legal w h → DeliversOnce w h }
    ensures so_far { (w : Scenario) → IsRouted w → (n : ℕ) (h : History) → LegalBefore w h n → DeliversOnce w h }
{}

/// At most one frame is interrupted on an arc at a time. A first fragment has the first octets of a frame, and each continuation goes
/// on where the fragment before it was cut, with no fragment between them. A frame whose last octets ended went in one
/// express mPacket, or the fragments since its start carry it.
pub fn frames_go_in_parts()
    ensures interrupted { (w : Scenario) (h : History) (a t : ℕ) (l r : Rest) → Interrupted w h a t l → Interrupted w h a t r → l ≡ r }
    ensures left { (w : Scenario) → IsRouted w → (n : ℕ) (h : History) → LegalUpTo w n h → (a t : ℕ) → a < length w.net.arcs → (left : Rest) → Interrupted w h a t left → IsLeft w h a t left }
    ensures starts { (w : Scenario) → IsRouted w → (n : ℕ) (h : History) → LegalUpTo w n h → (a : ℕ) → a < length w.net.arcs → (m : ℕ) (d : Begin)
        → slice_get (Begins h a) m ≡ Some d → is_start d.kind ≡ true → (d.from ≡ 0) × ((f : FrameNo) × (d.what ≡ what.Frame f)) }
    ensures continues { (w : Scenario) → IsRouted w → (n : ℕ) (h : History) → LegalUpTo w n h → (a : ℕ) → a < length w.net.arcs → (m : ℕ) (d : Begin)
        → slice_get (Begins h a) m ≡ Some d → is_continue d.kind ≡ true → GoesOn w h a m d }
    ensures finished { (w : Scenario) → IsRouted w → (n : ℕ) (h : History) → LegalUpTo w n h → (a : ℕ) → a < length w.net.arcs → (i : ℕ) (b : Begin) (e : Ended) (f : FrameNo)
        → slice_get (Begins h a) i ≡ Some b → slice_get (Ends h a) i ≡ Some e → b.what ≡ what.Frame f → b.from + e.size ≡ length (FrameOf w f.0)
        → ((b.kind ≡ kind.Express) × (b.from ≡ 0)) ⊎ WentInParts w h a i f }
{}

/// A frame is spared where no line of the script names an mPacket that carries octets of it. One that went in an express mPacket is
/// received at each arc where that arrives; and one that went in fragments where the last of them arrives, if no mPacket that
/// began on the arc from its first one on is damaged, though some between may be lost.
pub fn spared_frames_are_received()
    ensures express { (w : Scenario) → IsRouted w → (n : ℕ) (h : History) → LegalUpTo w n h → (a : ℕ) → a < length w.net.arcs → (i : ℕ) (b : Begin) (e : Ended) (f : FrameNo)
        → slice_get (Begins h a) i ≡ Some b → slice_get (Ends h a) i ≡ Some e → b.kind ≡ kind.Express → b.what ≡ what.Frame f → Spared w h f.0
        → Gives (Air w h a) i (Given.frame (FrameOf w f.0)) }
    ensures whole { (w : Scenario) → IsRouted w → (n : ℕ) (h : History) → LegalUpTo w n h → (a : ℕ) → a < length w.net.arcs → (f : FrameNo) → Spared w h f.0
        → (s i : ℕ) (c b : Begin) (e : Ended) → slice_get (Begins h a) s ≡ Some c → c.what ≡ what.Frame f → c.from ≡ 0
        → slice_get (Begins h a) i ≡ Some b → slice_get (Ends h a) i ≡ Some e → b.what ≡ what.Frame f → b.from + e.size ≡ length (FrameOf w f.0)
        → AreUndamaged w h a s i → Gives (Air w h a) i (Given.frame (FrameOf w f.0)) }
    ensures received { (w : Scenario) (n : ℕ) (h : History) → LegalUpTo w n h → (a : ℕ) → a < length w.net.arcs → (i f : ℕ) → Gives (Air w h a) i (Given.frame (FrameOf w f))
        → (x : Arrive) → slice_get (Arrivals h a) i ≡ Some x → x.result ≡ outcome.Frame }
{}

/// Where streams and script meet the rules of their files, frames are routed.
pub fn files_give_routes()
    ensures { (w : Scenario) → streams.Fits w.net w.streams → script.Fits w.net w.streams w.script → IsRouted w }
{}

/// A frame that is sent comes to the first arc of its route then, and one that arrived to the next arc when the latency is over.
pub fn frames_come_on()
    ensures sent { (w : Scenario) (n : ℕ) (h : History) → LegalUpTo w n h → (f : ℕ) → f < length w.script.sends
        → moment_of w (send w f).send.tick.0 Phase.entries < n
        → (i : ℕ) × IsEntry h i (record { tick = (send w f).send.tick.0; arc = first_arc w f; prio = (row w f).prio; frame = f }) }
    ensures relayed { (w : Scenario) (n : ℕ) (h : History) → LegalUpTo w n h → (a i f b : ℕ) (x : Arrive) → a < length w.net.arcs
        → slice_get (Arrivals h a) i ≡ Some x → x.result ≡ outcome.Frame → frame_at h a i ≡ Some f → next_arc w a f ≡ Some b
        → moment_of w (x.tick + latency w a) Phase.entries < n
        → (j : ℕ) × IsEntry h j (record { tick = x.tick + latency w a; arc = b; prio = (row w f).prio; frame = f }) }
{}

/// What is told of files that fit can be written: up to the last moment, each event of a history that is legal with no alias names
/// arcs and nodes of the network, and numbers and octets in their ranges. Priorities are below 8 by their type.
pub fn legal_histories_are_written()
    ensures { (w : Scenario) → streams.Fits w.net w.streams → script.Fits w.net w.streams w.script → All (λ r. r.prio < 8) w.streams.rows
        → (n : ℕ) (h : History) → n ≤ last_moment w → LegalBefore w h n → AreWritten w.net h }
{}

/// Where no line of the script damages an mPacket, and no fragment that began was lost, no mPacket arrives as an alias. So a script
/// that damages nothing, and loses mPackets only on arcs that never preempt, has a legal history, whatever is cut, verified and
/// advertised.
pub fn undamaged_scripts_have_histories()
    ensures no_alias { (w : Scenario) → IsRouted w → w.script.damages ≡ [] → (n : ℕ) (h : History) → LegalUpTo w n h → LosesNoFragment w h
        → (a : ℕ) → a < length w.net.arcs → (i : ℕ) → i < length (Ends h a) → ¬ Alias w h a i }
    ensures before { (w : Scenario) → IsRouted w → w.script.damages ≡ [] → (n : ℕ) (h : History) → LegalUpTo w n h → LosesNoFragment w h → LegalBefore w h n }
    ensures kept { (w : Scenario) → IsRouted w → KeepsFragments w → (n : ℕ) (h : History) → LegalUpTo w n h → LosesNoFragment w h }
    ensures some { (w : Scenario) → IsRouted w → KeepsFragments w → (h : History) × Legal w h }
{}
