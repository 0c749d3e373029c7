ghost use Rattle.std.specs.Prelude.{◌≡◌, ◌≢◌, ◌+◌, ◌*◌, ◌≤◌, ◌<◌, ℕ, true, [], ◌∷◌, ◌++◌, length, Some, IsSome, List};
ghost use Rattle.std.specs.List.{AllByRecursion as Every};
ghost use Rattle.pre_lldp.specs.LldpLayout.{advert_of, is_lldp_frame};
ghost use Rattle.pre_topo.specs.declared.arcs.Mode.TheVariants as mode;
ghost use Rattle.pre_history.specs.Scenario.{Scenario, arc};
ghost use Rattle.pre_history.specs.History.{Begin, History};
ghost use Rattle.pre_history.specs.Queries.{Arrivals, Begins, Ends};
ghost use Rattle.pre_history.specs.Octets.{AdvertAt, WholeOf};
ghost use Rattle.pre_history.specs.Starts.{Choice};
ghost use Rattle.pre_history.specs.Rules.{HappensIn};
ghost use Rattle.pre_history.specs.Moments.{Phase, place_of};
ghost use Rattle.pre_history.specs.Legal.{IsLastOf, LegalUpTo};
ghost use Rattle.pre_history.specs.Placed.{HasPlace, moment_of};
ghost use Rattle.pre_history.specs.Placed.{AllWithin};
ghost use Rattle.pre_links.specs.declared.links.Link.{Link};
ghost use Rattle.pre_links.specs.declared.partners.Partner.{Partner};
ghost use Rattle.pre_links.specs.Listening.{Hears, IsSilent};
ghost use Rattle.pre_links.specs.Standing.{AreOver, IsOther, IsQuiet, IsReady, IsUpTo, LinkStands, begin_of};

/// Events that bring nothing of the partner leave what was heard. Once all arrivals of the settled ticks
/// are over, events that neither begin nor end on an arc leave its link.
pub fn events_elsewhere()
    ensures heard { (w : Scenario) (m n : ℕ) (h es : History) (b : ℕ) (partner : Partner) → b < length w.net.arcs
        → LegalUpTo w m h → AllWithin (length w.net.arcs) m n es → Every (λ x. IsSilent x.result) (Arrivals es b)
        → Hears w h b partner → Hears w (h ++ es) b partner }
    ensures stands { (w : Scenario) (m n : ℕ) (h es : History) (a t : ℕ) (link : Link) → a < length w.net.arcs
        → LegalUpTo w m h → AllWithin (length w.net.arcs) m n es → AreOver w t m → Begins es a ≡ [] → Ends es a ≡ []
        → LinkStands w h a t link → LinkStands w (h ++ es) a t link }
{}

/// So the events of a phase leave what was heard on an arc, but for those of its arrivals, and once all arrivals of the
/// settled ticks are over they leave the link of an arc, but for those of its ends and starts.
pub fn phases_elsewhere()
    ensures heard { (w : Scenario) (t : ℕ) (p : Phase) (h es : History) (b : ℕ) (partner : Partner) → b < length w.net.arcs
        → HasPlace (length w.net.arcs) (place_of (length w.net.arcs) p) p → LegalUpTo w (moment_of w t p) h → HappensIn w h t p es
        → place_of (length w.net.arcs) p ≢ place_of (length w.net.arcs) (Phase.arrivals b) → Hears w h b partner → Hears w (h ++ es) b partner }
    ensures stands { (w : Scenario) (t : ℕ) (p : Phase) (h es : History) (a n : ℕ) (link : Link) → a < length w.net.arcs
        → HasPlace (length w.net.arcs) (place_of (length w.net.arcs) p) p → LegalUpTo w (moment_of w t p) h → HappensIn w h t p es → AreOver w n (moment_of w t p)
        → place_of (length w.net.arcs) p ≢ place_of (length w.net.arcs) (Phase.ends a)
        → place_of (length w.net.arcs) p ≢ place_of (length w.net.arcs) (Phase.starts a) → LinkStands w h a n link → LinkStands w (h ++ es) a n link }
{}

/// An mPacket that begins leaves the link, where it is no verify, no respond and no LLDP frame.
pub fn other_begins()
    ensures { (w : Scenario) (h : History) (a t : ℕ) (c : Choice) (link : Link) → a < length w.net.arcs
        → LegalUpTo w (moment_of w t (Phase.starts a)) h → IsOther c
        → LinkStands w h a (t + 1) link → LinkStands w (h ++ begin_of h a t c ∷ []) a (t + 1) link }
{}

/// All arrivals at earlier ticks stand before each moment of a tick, and those of this tick before its expiries.
pub fn arrivals_over()
    ensures before { (w : Scenario) (t : ℕ) (p : Phase) → AreOver w t (moment_of w t p) }
    ensures behind { (w : Scenario) (t : ℕ) (p : Phase) → place_of (length w.net.arcs) (Phase.expiries 0) ≤ place_of (length w.net.arcs) p
        → AreOver w (t + 1) (moment_of w t p) }
{}

/// A link that is ready at a tick is so at later ones; and where no tick after one was handed in or settled, it is ready
/// at each of them.
pub fn links_get_ready()
    ensures later { (link : Link) (t u : ℕ) → t ≤ u → IsReady link t → IsReady link u }
    ensures next { (link : Link) (t u : ℕ) → t < u → IsUpTo link t → IsReady link u }
{}

/// Ticks at which nothing changes for a link need not be settled: it stands for them as it is, and nothing is told at the
/// expiries of its arc.
pub fn quiet_ticks()
    ensures stands { (w : Scenario) (h : History) (a t m : ℕ) (link : Link) → (arc w a).mode ≡ mode.Negotiate
        → LegalUpTo w (moment_of w (t + 1) Phase.sets) h → IsQuiet w h a t m → t < m → IsUpTo link t → LinkStands w h a (t + 1) link → LinkStands w h a m link }
    ensures happens { (w : Scenario) (h : History) (a t m i : ℕ) (link : Link) → (arc w a).mode ≡ mode.Negotiate
        → LegalUpTo w (moment_of w (t + 1) Phase.sets) h → IsQuiet w h a t m → t < i → i < m → LinkStands w h a (t + 1) link
        → HappensIn w h i (Phase.expiries a) [] }
{}

/// Nothing is told at the expiries of an arc that doesn't negotiate.
pub fn calm_arcs()
    ensures { (w : Scenario) (h : History) (a t : ℕ) → (arc w a).mode ≢ mode.Negotiate → HappensIn w h t (Phase.expiries a) [] }
{}

/// What an mPacket carries that is an LLDP frame says the advert of the tick at which it began.
pub fn adverts_are_sent()
    ensures { (w : Scenario) (h : History) (b : Begin) → b.arc < length w.net.arcs → is_lldp_frame (WholeOf w h b) ≡ true
        → advert_of (WholeOf w h b) ≡ Some (AdvertAt w h b.arc b.tick) }
{
    pre_lldp::read_back();
    pre_history::user_frames_are_no_lldp_frames();
}

/// An LLDP frame that arrives and is the one that was sent says an advert.
pub fn adverts_are_read()
    ensures { (w : Scenario) (h : History) (a i : ℕ) (octets : List ℕ) → a < length w.net.arcs → is_lldp_frame octets ≡ true
        → IsLastOf w h a i octets → IsSome (advert_of octets) }
{
    adverts_are_sent();
}
