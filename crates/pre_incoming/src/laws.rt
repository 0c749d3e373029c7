ghost use Rattle.std.specs.Prelude.{◌≡◌, ◌≢◌, ℕ, suc, ◌+◌, ◌<◌, ◌∷◌, ◌++◌, [], length, slice_get, Some};
ghost use Rattle.pre_history.specs.Scenario.{Scenario, arc};
ghost use Rattle.pre_history.specs.Moments.{Phase, moments, phase_at};
ghost use Rattle.pre_history.specs.History.{Ended, History};
ghost use Rattle.pre_history.specs.Queries.{Arrivals, Begins, Ends, Entries};
ghost use Rattle.pre_history.specs.Rules.{HappensIn};
ghost use Rattle.pre_history.specs.Placed.{number, moment_of, AllWithin};
ghost use Rattle.pre_history.specs.Legal.{Alias, LegalBefore, LegalUpTo};
ghost use Rattle.pre_incoming.specs.declared.incomings.Incoming.{Incoming};
ghost use Rattle.pre_incoming.specs.declared.landings.Landing.{Landing};
ghost use Rattle.pre_incoming.specs.Landings.{events, result_of};
ghost use Rattle.pre_incoming.specs.Wires.{Receives};

/// What happens at later moments, and is no end and no arrival of the arc, leaves what the end of the arc stands for. Nor do
/// ticks without events change anything, since no tick is named.
pub fn other_events()
    ensures { (w : Scenario) (m n : ℕ) (h g : History) (a : ℕ) (x : Incoming) → a < length w.net.arcs → LegalUpTo w m h → AllWithin (length w.net.arcs) m n g
        → Ends g a ≡ [] → Arrivals g a ≡ [] → Receives w h a x → Receives w (h ++ g) a x }
{}

/// What a landing tells is one arrival of its arc, and no begin, no end and no entry.
pub fn landings_are_arrivals()
    ensures arrival { (w : Scenario) (h : History) (t a : ℕ) (x : Landing) → Arrivals (events w h t a x) a ≡ record { tick = t; arc = a; ord = x.ord; result = result_of x.given } ∷ [] }
    ensures elsewhere { (w : Scenario) (h : History) (t a b : ℕ) (x : Landing) → a ≢ b → Arrivals (events w h t a x) b ≡ [] }
    ensures begins { (w : Scenario) (h : History) (t a b : ℕ) (x : Landing) → Begins (events w h t a x) b ≡ [] }
    ensures ends { (w : Scenario) (h : History) (t a b : ℕ) (x : Landing) → Ends (events w h t a x) b ≡ [] }
    ensures entries { (w : Scenario) (h : History) (t a b p : ℕ) (x : Landing) → Entries (events w h t a x) b p ≡ [] }
{}

/// A history with no alias has none after a further moment, if that isn't one of arrivals, or the mPacket that arrives is none.
pub fn no_alias_so_far()
    ensures elsewhere { (w : Scenario) (h es : History) (t k : ℕ) (p : Phase) → k < moments (length w.net.arcs) → phase_at (length w.net.arcs) k ≡ p
        → ((a : ℕ) → p ≢ Phase.arrivals a) → LegalBefore w h (number (length w.net.arcs) t k) → HappensIn w h t p es
        → LegalBefore w (h ++ es) (suc (number (length w.net.arcs) t k)) }
    ensures arrivals { (w : Scenario) (h es : History) (t a : ℕ) → a < length w.net.arcs
        → LegalBefore w h (moment_of w t (Phase.arrivals a)) → HappensIn w h t (Phase.arrivals a) es
        → ((e : Ended) → slice_get (Ends h a) (length (Arrivals h a)) ≡ Some e → e.tick + (arc w a).delay ≡ t → ¬ Alias w h a (length (Arrivals h a)))
        → LegalBefore w (h ++ es) (suc (moment_of w t (Phase.arrivals a))) }
{}
