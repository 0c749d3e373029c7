ghost use Rattle.std.specs.Prelude.{◌↔◌, ◌≡◌, ◌≢◌, ◌⊎◌, ℕ, ◌+◌, ◌*◌, ◌<◌, ◌++◌, [], length, ◌≤◌, slice_get, Some, List, Bool, false, true};
ghost use Rattle.std.specs.Bool.{Decides};
ghost use Rattle.pre_base.specs.declared.numbers.FrameNo.{FrameNo};
ghost use Rattle.pre_lldp.specs.Ages.{CountsEnabled, Heard};
ghost use Rattle.pre_lldp.specs.LinkState.{is_verified, is_verify_wanted};
ghost use Rattle.pre_lldp.specs.LldpLayout.{is_lldp_frame};
ghost use Rattle.pre_mpacket.specs.Pieces.{CutRule, IsBoundary};
ghost use Rattle.pre_history.specs.Octets.{ToldActive};
ghost use Rattle.pre_history.specs.Comings.{Comings, Coming, entry_for};
ghost use Rattle.pre_history.specs.Examples.{SendsOneFrame, SendsTwoFrames, one_frame, two_frames, LosesOneFrame, lost_frame};
ghost use Rattle.pre_history.specs.History.{Begin, Ended, History, Delivery, Entry, PlainEvent};
ghost use Rattle.pre_history.specs.Legal.{Alias, Legal, LegalUpTo, LegalBefore, FirstAliasAt, ArrivesAsAlias};
ghost use Rattle.pre_history.specs.LinkState.{Active, AreHeard, Good, RespondTicks, VerifiesBefore, VerifyWanted, Falls, LldpWanted, RespondOwed, Rises};
ghost use Rattle.pre_history.specs.Moments.{Phase, moment_at};
ghost use Rattle.pre_history.specs.Ordered.{HaveArrived, HaveChecks, HaveSizes, IsOrdered};
ghost use Rattle.pre_history.specs.Placed.{AllBefore, AreLater, AllWithin, moment_of};
ghost use Rattle.pre_history.specs.Queries.{Arrivals, Begins, Ends, Occupied, SettingOf, Waiting, Interrupted, Rest};
ghost use Rattle.pre_history.specs.Rules.{Arriving, EndDue, Happens, HappensIn, OneOrNone};
ghost use Rattle.pre_history.specs.Scenario.{FrameOf, Scenario, arc, send};
ghost use Rattle.pre_history.specs.Starts.{ExpressWaits, begun, Choice, IsFront, Item, SizeOf, StartRule, There, whole_frame};
ghost use Rattle.pre_history.specs.Read.{AreDelivered, HasBegun, HasEnded, HasEntries, HasEntry, HaveResults, IsFromArrival, IsIdle, IsTold};
ghost use Rattle.pre_mpacket.specs.declared.packets.Kind.{Kind};
ghost use Rattle.pre_history.specs.Cuts.{IsCut, IsCutAt};
ghost use Rattle.pre_history.specs.Stays.{SameGiven, SameResults, SameWholes};
ghost use Rattle.pre_script.specs.declared.scripts.Setting.TheVariants as setting;
ghost use Rattle.pre_topo.specs.declared.arcs.Mode.TheVariants as mode;
ghost use Rattle.pre_mpacket.specs.declared.packets.Kind.TheVariants as kind;

/// A network, streams and script have at most one legal history, and at most one that is legal before a moment. Either they have
/// a legal one, or else one that is legal before an arrival, due at a tick up to `until`, which is the first alias; never both.
pub fn one_history()
    ensures legal { (w : Scenario) (g h : History) → Legal w g → Legal w h → g ≡ h }
    ensures before { (w : Scenario) (n : ℕ) (g h : History) → LegalBefore w g n → LegalBefore w h n → g ≡ h }
    ensures some { (w : Scenario) → ((h : History) × Legal w h) ⊎ ((h : History) × (t a i : ℕ) × FirstAliasAt w h t a i) }
    ensures never_both { (w : Scenario) (g h : History) (t a i : ℕ) → Legal w g → ¬ FirstAliasAt w h t a i }
    ensures one_alias { (w : Scenario) (g h : History) (s a i t b j : ℕ) → FirstAliasAt w g s a i → FirstAliasAt w h t b j
        → (g ≡ h) × (s ≡ t) × (a ≡ b) × (i ≡ j) }
{}

/// In a legal history the mPackets of an arc follow one another: ordinals are places, all but the last have ended,
/// ends and arrivals stand in order, and none begins before the gap behind the one before it is over. Each that ended
/// has the size and the check that the rules give it, and has arrived once its delay is over.
pub fn mpackets_in_order()
    ensures order { (w : Scenario) (n : ℕ) (h : History) (a : ℕ) → a < length w.net.arcs → LegalUpTo w n h → IsOrdered w h a }
    ensures sizes { (w : Scenario) (n : ℕ) (h : History) (a : ℕ) → a < length w.net.arcs → LegalUpTo w n h → HaveSizes w h a }
    ensures checks { (w : Scenario) (n : ℕ) (h : History) (a : ℕ) → a < length w.net.arcs → LegalUpTo w n h → HaveChecks w h a }
    ensures arrived { (w : Scenario) (n : ℕ) (h : History) (a : ℕ) → a < length w.net.arcs → LegalUpTo w n h → HaveArrived w h a n }
{}

/// Each event of a history that is legal before a moment stands at an earlier moment.
pub fn events_before_their_end()
    ensures { (w : Scenario) (n : ℕ) (h : History) → LegalUpTo w n h → AllBefore (length w.net.arcs) n h }
{}

/// Where nothing happens at so many moments, a history stays legal.
pub fn idle_moments()
    ensures { (w : Scenario) (h : History) (n m : ℕ) → LegalUpTo w m h
        → ((k : ℕ) → k < n → Happens w h (moment_at (length w.net.arcs) (m + k)) []) → LegalUpTo w (m + n) h }
{}

/// Events at later moments than those at which a tick is read don't change what waits at the tick, nor whether an arc is occupied
/// or active then.
pub fn queries_stay()
    ensures later { (w : Scenario) (t m n : ℕ) (g : History) → moment_of w t (Phase.starts 0) ≤ m → AllWithin (length w.net.arcs) m n g → AreLater w t g }
    ensures waiting { (w : Scenario) (h g : History) (a p t : ℕ) → AreLater w t g → Waiting (h ++ g) a p t ≡ Waiting h a p t }
    ensures occupied { (w : Scenario) (h g : History) (a t : ℕ) → AreLater w t g → Occupied w (h ++ g) a t ↔ Occupied w h a t }
    ensures active { (w : Scenario) (n : ℕ) (h g : History) (a t : ℕ) → a < length w.net.arcs → LegalUpTo w n h → AreLater w t g
        → Active w (h ++ g) a t ↔ Active w h a t }
{
    pre_mpacket::later_arrivals();
}

/// A frame of a script is never an LLDP frame.
pub fn user_frames_are_no_lldp_frames()
    ensures { (w : Scenario) (f : FrameNo) → is_lldp_frame (FrameOf w f.0) ≡ false }
{}

/// There are legal histories: those of the smallest scripts that send a frame, two frames back to back, and a frame that is lost,
/// over the built-in network and streams.
pub fn small_histories_are_legal()
    ensures one_frame { (w : Scenario) → SendsOneFrame w → Legal w (one_frame w) }
    ensures two_frames { (w : Scenario) → SendsTwoFrames w → Legal w (two_frames w) }
    ensures lost_frame { (w : Scenario) → LosesOneFrame w → Legal w (lost_frame w) }
{
    pre_mpacket::one_mpacket();
    pre_mpacket::one_given();
}

/// In a legal history the `active` events of an arc that negotiates tell whether it is active: the last one up to a tick,
/// once the arc's expiries of that tick are over.
pub fn active_is_told()
    ensures { (w : Scenario) (n : ℕ) (h : History) (a t : ℕ) → a < length w.net.arcs → (arc w a).mode ≡ mode.Negotiate → LegalUpTo w n h
        → moment_of w t (Phase.expiries a) < n → Decides (ToldActive w h a t) (Active w h a t) }
{
    pre_mpacket::later_arrivals();
}

/// The state of an arc that negotiates is that of a link. Whether it is good is said by the adverts heard; whether it is
/// active, and wants a verify, is computed from any test of that, the verifies begun and the responds received.
pub fn arcs_are_links()
    ensures good { (w : Scenario) (h : History) (a t : ℕ) (calls : List Heard) → AreHeard w h a t calls
        → Good w h a t ↔ ((SettingOf w a t ≡ setting.On) × CountsEnabled w.net.timing.unit calls t) }
    ensures active { (w : Scenario) (h : History) (a t : ℕ) (good : ℕ → Bool) → (arc w a).mode ≡ mode.Negotiate
        → ((i : ℕ) → i ≤ t → Decides (good i) (Good w h a i)) → Decides (is_verified good (VerifiesBefore h a t) (RespondTicks h a) t) (Active w h a t) }
    ensures wanted { (w : Scenario) (h : History) (a t : ℕ) (good : ℕ → Bool) → ((i : ℕ) → i ≤ t → Decides (good i) (Good w h a i))
        → Decides (is_verify_wanted good (VerifiesBefore h a t) (RespondTicks h a) w.net.timing.verify t) (VerifyWanted w h a t) }
{
    pre_mpacket::one_given();
    pre_lldp::link_state();
}

/// It is decided at each tick whether an arc is occupied, whether an express frame waits, and after which octets a
/// fragment may be cut; and each fragment has a size.
pub fn tests_are_decided()
    ensures occupied { (w : Scenario) (h : History) (a t : ℕ) → Occupied w h a t ⊎ ¬ Occupied w h a t }
    ensures express { (w : Scenario) (h : History) (a t : ℕ) → ExpressWaits w h a t ⊎ ¬ ExpressWaits w h a t }
    ensures boundary { (w : Scenario) (h : History) (b : Begin) (d : ℕ)
        → IsBoundary (ExpressWaits w h b.arc) (begun w h b) d ⊎ ¬ IsBoundary (ExpressWaits w h b.arc) (begun w h b) d }
    ensures size { (w : Scenario) (h : History) (b : Begin) → (size : ℕ) × CutRule (ExpressWaits w h b.arc) (begun w h b) size }
{}

/// In a legal history only the mPacket that hasn't ended yet may end on an arc, and only the next one may arrive: what
/// happens is what is due for that one, and where there is none nothing happens.
pub fn turns_are_kept()
    ensures ends { (w : Scenario) (past : History) (t a : ℕ) → a < length w.net.arcs → LegalUpTo w (moment_of w t (Phase.ends a)) past
        → (events : History) (b : Begin) → slice_get (Begins past a) (length (Ends past a)) ≡ Some b
        → OneOrNone (EndDue w past t b) events → HappensIn w past t (Phase.ends a) events }
    ensures no_end { (w : Scenario) (past : History) (t a : ℕ) → a < length w.net.arcs → LegalUpTo w (moment_of w t (Phase.ends a)) past
        → length (Begins past a) ≤ length (Ends past a) → HappensIn w past t (Phase.ends a) [] }
    ensures arrives { (w : Scenario) (past : History) (t a : ℕ) → a < length w.net.arcs
        → LegalUpTo w (moment_of w t (Phase.arrivals a)) past
        → (events : History) (e : Ended) → slice_get (Ends past a) (length (Arrivals past a)) ≡ Some e
        → Arriving w past t a e events → HappensIn w past t (Phase.arrivals a) events }
    ensures no_arrival { (w : Scenario) (past : History) (t a : ℕ) → a < length w.net.arcs
        → LegalUpTo w (moment_of w t (Phase.arrivals a)) past
        → length (Ends past a) ≤ length (Arrivals past a) → HappensIn w past t (Phase.arrivals a) [] }
{}

/// A history that is legal up to a moment can be cut before each earlier one: its front is legal up to there, and what
/// follows stands at later moments. Where none of its arrivals is an alias, none of its front's is.
pub fn legal_histories_are_cut()
    ensures before { (w : Scenario) (n : ℕ) (h : History) (m : ℕ) → m ≤ n → LegalUpTo w n h
        → (front : History) × (rest : History) × IsCut w m n h front rest }
    ensures around { (w : Scenario) (n : ℕ) (h : History) (m : ℕ) → m < n → LegalUpTo w n h
        → (front : History) × (events : History) × (rest : History) × IsCutAt w m n h front events rest }
    ensures no_alias { (w : Scenario) (m n : ℕ) (h front rest : History) → LegalBefore w h n → IsCut w m n h front rest → LegalBefore w front m }
{}

/// Events at later moments don't change what an mPacket carries that began, nor what comes of one that ended.
pub fn octets_stay()
    ensures wholes { (w : Scenario) (m n : ℕ) (h g : History) (a : ℕ) → a < length w.net.arcs → LegalUpTo w m h → AllWithin (length w.net.arcs) m n g
        → SameWholes w (h ++ g) h a }
    ensures given { (w : Scenario) (m n : ℕ) (h g : History) (a : ℕ) → a < length w.net.arcs → LegalUpTo w m h → AllWithin (length w.net.arcs) m n g
        → SameGiven w (h ++ g) h a }
    ensures results { (w : Scenario) (m n : ℕ) (h g : History) (a : ℕ) → a < length w.net.arcs → LegalUpTo w m h → AllWithin (length w.net.arcs) m n g
        → SameResults w (h ++ g) h a }
{}

/// Events after a tick don't change the sizes of mPackets that end by then, nor what an arc has to send at the tick.
pub fn wants_stay()
    ensures sizes { (w : Scenario) (n : ℕ) (h g : History) (k : Kind) (b : Begin) (size : ℕ) → b.arc < length w.net.arcs
        → AllWithin (length w.net.arcs) (moment_of w (b.tick + (arc w b.arc).cost * (size + 8)) Phase.sets) n g → SizeOf w (h ++ g) k b size ↔ SizeOf w h k b size }
    ensures interrupted { (w : Scenario) (h g : History) (a t : ℕ) (left : Rest) → AreLater w t g → Interrupted w (h ++ g) a t left ↔ Interrupted w h a t left }
    ensures good { (w : Scenario) (n : ℕ) (h g : History) (a t : ℕ) → a < length w.net.arcs → LegalUpTo w n h → AreLater w t g
        → Good w (h ++ g) a t ↔ Good w h a t }
    ensures responds { (w : Scenario) (n : ℕ) (h g : History) (a t : ℕ) → a < length w.net.arcs → LegalUpTo w n h → AreLater w t g
        → RespondOwed w (h ++ g) a t ↔ RespondOwed w h a t }
    ensures verifies { (w : Scenario) (n : ℕ) (h g : History) (a t : ℕ) → a < length w.net.arcs → (arc w a).mode ≡ mode.Negotiate → LegalUpTo w n h → AreLater w t g
        → VerifyWanted w (h ++ g) a t ↔ VerifyWanted w h a t }
    ensures lldp { (w : Scenario) (n : ℕ) (h g : History) (a t : ℕ) → a < length w.net.arcs → LegalUpTo w n h → AreLater w t g
        → LldpWanted w (h ++ g) a t ↔ LldpWanted w h a t }
{}

/// Events after a tick don't change what may begin on an arc at the tick.
pub fn starts_stay()
    ensures items { (w : Scenario) (n : ℕ) (h g : History) (a t : ℕ) → a < length w.net.arcs → LegalUpTo w n h → AreLater w t g
        → (i : Item) (c : Choice) → There w (h ++ g) a t i c ↔ There w h a t i c }
    ensures rule { (w : Scenario) (n : ℕ) (h g : History) (a t : ℕ) → a < length w.net.arcs → LegalUpTo w n h → AreLater w t g
        → (c : Choice) → StartRule w (h ++ g) a t c ↔ StartRule w h a t c }
{}

/// In a legal history that is told past the starts of a tick, what began on an arc at the tick is what the rule says by the
/// whole history; and where nothing did, the arc was occupied or nothing was there.
pub fn starts_are_read()
    ensures rule { (w : Scenario) (n : ℕ) (h : History) (a t : ℕ) → a < length w.net.arcs → LegalUpTo w n h
        → moment_of w t (Phase.starts a) < n → (c : Choice) → HasBegun h a t c ↔ StartRule w h a t c }
    ensures idle { (w : Scenario) (n : ℕ) (h : History) (a t : ℕ) → a < length w.net.arcs → LegalUpTo w n h
        → moment_of w t (Phase.starts a) < n
        → ((c : Choice) × HasBegun h a t c) ⊎ (((c : Choice) → ¬ HasBegun h a t c) × IsIdle w h a t) }
{}

/// An mPacket of a legal history whose end by a size is told has ended so exactly if the rules give it that size by the whole
/// history.
pub fn ends_are_read()
    ensures { (w : Scenario) (n : ℕ) (h : History) (a i : ℕ) (b : Begin) (size : ℕ) → a < length w.net.arcs → LegalUpTo w n h
        → slice_get (Begins h a) i ≡ Some b → moment_of w (b.tick + (arc w a).cost * (size + 8)) (Phase.ends a) < n
        → HasEnded w h a i size ↔ SizeOf w h b.kind b size }
{}

/// Each arrival of a legal history has its result by the whole history; a user frame that arrives where its route ends is
/// delivered, and nothing else is.
pub fn arrivals_are_read()
    ensures results { (w : Scenario) (n : ℕ) (h : History) (a : ℕ) → a < length w.net.arcs → LegalUpTo w n h → HaveResults w h a }
    ensures delivered { (w : Scenario) (n : ℕ) (h : History) (a : ℕ) → a < length w.net.arcs → LegalUpTo w n h → AreDelivered w h a }
    ensures only { (w : Scenario) (n : ℕ) (h : History) (d : Delivery) → LegalUpTo w n h → IsTold h (PlainEvent.deliver d) → IsFromArrival w h d }
{}

/// In a legal history that is told past the expiries of an arc at a tick, an `active` event of the arc stands there exactly
/// where Active differs from the tick before, by the whole history.
pub fn expiries_are_read()
    ensures rises { (w : Scenario) (n : ℕ) (h : History) (a t : ℕ) → a < length w.net.arcs → (arc w a).mode ≡ mode.Negotiate → LegalUpTo w n h
        → moment_of w t (Phase.expiries a) < n → IsTold h (PlainEvent.active t a true) ↔ Rises w h a t }
    ensures falls { (w : Scenario) (n : ℕ) (h : History) (a t : ℕ) → a < length w.net.arcs → (arc w a).mode ≡ mode.Negotiate → LegalUpTo w n h
        → moment_of w t (Phase.expiries a) < n → IsTold h (PlainEvent.active t a false) ↔ Falls w h a t }
    ensures quiet { (w : Scenario) (n : ℕ) (h : History) (a t : ℕ) → a < length w.net.arcs → (arc w a).mode ≢ mode.Negotiate → LegalUpTo w n h
        → moment_of w t (Phase.expiries a) < n → (v : Bool) → ¬ IsTold h (PlainEvent.active t a v) }
{}

/// In a legal history that is told past the entries of a tick, what came to rings at the tick is what comes by the whole
/// history: each entered, or was dropped where its ring held its capacity.
pub fn entries_are_read()
    ensures all { (w : Scenario) (n : ℕ) (h : History) (t : ℕ) → LegalUpTo w n h
        → moment_of w t Phase.entries < n → HasEntries w h t }
    ensures each { (w : Scenario) (n : ℕ) (h : History) (t : ℕ) → LegalUpTo w n h
        → moment_of w t Phase.entries < n
        → (j : ℕ) (c : Coming) → slice_get (Comings w h t) j ≡ Some c → HasEntry w h t j c }
    ensures only { (w : Scenario) (n : ℕ) (h : History) (t : ℕ) → LegalUpTo w n h
        → moment_of w t Phase.entries < n
        → (e : Entry) → e.tick ≡ t → IsTold h (PlainEvent.enter e) ⊎ IsTold h (PlainEvent.dropped e)
        → (j : ℕ) × (c : Coming) × (slice_get (Comings w h t) j ≡ Some c) × (entry_for w t c ≡ e) }
{}

/// In a legal history that is told past the starts of a tick, an express frame that waits at an arc that isn't occupied begins, of
/// those in front the one of the highest priority; and an arc is occupied only for an mPacket that began, until its size, its head
/// of eight octets and a gap of twelve are over.
pub fn express_frames_begin()
    ensures begins { (w : Scenario) (n : ℕ) (h : History) (a t : ℕ) → a < length w.net.arcs → LegalUpTo w n h
        → moment_of w t (Phase.starts a) < n → ExpressWaits w h a t → ¬ Occupied w h a t
        → (f : ℕ) × IsFront w h a t (arc w a).express_from 8 f × HasBegun h a t (whole_frame f kind.Express) }
    ensures busy { (w : Scenario) (n : ℕ) (h : History) (a t : ℕ) → a < length w.net.arcs → LegalUpTo w n h
        → moment_of w t (Phase.starts a) < n → Occupied w h a t
        → (i : ℕ) × (b : Begin) × (size : ℕ) × (slice_get (Begins h a) i ≡ Some b) × (b.tick < t) × SizeOf w h b.kind b size
        × (t < b.tick + (arc w a).cost * (size + 8) + 12 * (arc w a).cost) }
{}

/// In a legal history it is decided whether an arc is good and active at a tick, what of each kind there is to begin, and what begins.
pub fn starts_are_decided()
    ensures good { (w : Scenario) (n : ℕ) (h : History) (a t : ℕ) → a < length w.net.arcs → LegalUpTo w n h → Good w h a t ⊎ ¬ Good w h a t }
    ensures active { (w : Scenario) (n : ℕ) (h : History) (a t : ℕ) → a < length w.net.arcs → LegalUpTo w n h → Active w h a t ⊎ ¬ Active w h a t }
    ensures items { (w : Scenario) (n : ℕ) (h : History) (a t : ℕ) → a < length w.net.arcs → LegalUpTo w n h
        → (i : Item) → ((c : Choice) × There w h a t i c) ⊎ ((c : Choice) → ¬ There w h a t i c) }
    ensures rule { (w : Scenario) (n : ℕ) (h : History) (a t : ℕ) → a < length w.net.arcs → LegalUpTo w n h
        → ((c : Choice) × StartRule w h a t c) ⊎ ((c : Choice) → ¬ StartRule w h a t c) }
{}

/// A legal history goes on with the next moment, or that is of an arrival which is an alias. It is decided of each mPacket that
/// ended whether it arrives as one.
pub fn histories_go_on()
    ensures next { (w : Scenario) (n : ℕ) (h : History) → LegalUpTo w n h
        → ((es : List PlainEvent) × Happens w h (moment_at (length w.net.arcs) n) es)
        ⊎ ((t a i : ℕ) × (a < length w.net.arcs) × (n ≡ moment_of w t (Phase.arrivals a)) × ArrivesAsAlias w h t a i) }
    ensures alias { (w : Scenario) (h : History) (a i : ℕ) (b : Begin) (e : Ended) → slice_get (Begins h a) i ≡ Some b → slice_get (Ends h a) i ≡ Some e
        → Alias w h a i ⊎ ¬ Alias w h a i }
{}
