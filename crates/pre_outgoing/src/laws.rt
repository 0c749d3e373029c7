ghost use Rattle.std.specs.Prelude.{◌≡◌, ◌≢◌, ◌↔◌, ◌+◌, ◌*◌, ◌<◌, ◌≤◌, ℕ, Bool, true, false, [], ◌++◌, length, Some};
ghost use Rattle.pre_send.specs.Endings.{plans_end};
ghost use Rattle.pre_send.specs.Senders.{is_free, is_interrupted};
ghost use Rattle.pre_history.specs.Scenario.{Scenario};
ghost use Rattle.pre_history.specs.History.{History};
ghost use Rattle.pre_history.specs.Octets.{ToldActive};
ghost use Rattle.pre_history.specs.Queries.{Begins, Ends, Entries, Occupied};
ghost use Rattle.pre_history.specs.Legal.{LegalUpTo};
ghost use Rattle.pre_history.specs.Moments.{Phase};
ghost use Rattle.pre_history.specs.Placed.{AreLater, number};
ghost use Rattle.pre_history.specs.Rules.{HappensIn};
ghost use Rattle.pre_history.specs.Starts.{Choice as Start, Item, There};
ghost use Rattle.pre_outgoing.specs.Sends.{Sends};
ghost use Rattle.pre_outgoing.specs.declared.outgoing.Outgoing.{Outgoing};

/// Events that leave an arc's mPackets and rings as they are, and whether it was active at earlier ticks, change nothing.
/// What comes to rings at a tick leaves what is known of earlier ticks. Nor do ticks without events change anything.
pub fn other_events()
    ensures others { (w : Scenario) (h g : History) (a now : ℕ) (settled : Bool) (o : Outgoing) → Begins g a ≡ Begins h a → Ends g a ≡ Ends h a
        → ((p : ℕ) → Entries g a p ≡ Entries h a p) → ((t : ℕ) → t < now → ToldActive w g a t ≡ ToldActive w h a t)
        → Sends w h a now settled o → Sends w g a now settled o }
    ensures entries { (w : Scenario) (h es : History) (a now : ℕ) (o : Outgoing) → Begins (h ++ es) a ≡ Begins h a → Ends (h ++ es) a ≡ Ends h a
        → ((t : ℕ) → t < now → AreLater w t es) → ((t : ℕ) → t < now → ToldActive w (h ++ es) a t ≡ ToldActive w h a t)
        → Sends w h a now true o → Sends w (h ++ es) a now false o }
    ensures idle { (w : Scenario) (h : History) (a now t : ℕ) (o : Outgoing) → now ≤ t → Sends w h a now true o → Sends w h a t true o }
{}

/// When an arc's starts come, its sending end is free exactly where the arc isn't occupied, and has then an interrupted frame
/// exactly where the history has one. When its ends come, none ends but the mPacket that is planned to end at the tick.
pub fn queries_agree()
    ensures free { (w : Scenario) (past : History) (t a now : ℕ) (settled : Bool) (o : Outgoing) → a < length w.net.arcs
        → LegalUpTo w (number (length w.net.arcs) t (2 + 3 * length w.net.arcs + a)) past → Sends w past a now settled o
        → (is_free o.sender t ≡ true) ↔ (¬ Occupied w past a t) }
    ensures rest { (w : Scenario) (past : History) (t a now : ℕ) (settled : Bool) (o : Outgoing) → a < length w.net.arcs
        → LegalUpTo w (number (length w.net.arcs) t (2 + 3 * length w.net.arcs + a)) past → Sends w past a now settled o
        → is_free o.sender t ≡ true → (is_interrupted o.sender ≡ true) ↔ ((c : Start) × There w past a t Item.rest c) }
    ensures ends { (w : Scenario) (past : History) (t a : ℕ) (o : Outgoing) → a < length w.net.arcs
        → LegalUpTo w (number (length w.net.arcs) t (1 + a)) past → Sends w past a t true o
        → plans_end o.sender ≢ Some t → HappensIn w past t (Phase.ends a) [] }
{}
