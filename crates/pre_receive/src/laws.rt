ghost use Rattle.std.specs.Prelude.{◌≡◌, ◌↔◌, ◌<◌, ℕ, List, [], ◌∷◌, ◌++◌, length, Option, None};
ghost use Rattle.pre_receive.specs.declared.receivers.Receiver.{Receiver};
ghost use Rattle.pre_receive.specs.Takings.{Taking, IsTaken};
ghost use Rattle.pre_receive.specs.Receivers.{Stands};

/// There is one answer to an arrival.
pub fn one_taken()
    ensures { (A : List (Option (List ℕ))) (i : ℕ) (x y : Taking) → IsTaken A i x → IsTaken A i y → x ≡ y }
{}

/// The answer to an arrival doesn't change with later ones.
pub fn later_takings()
    ensures { (A B : List (Option (List ℕ))) (i : ℕ) (t : Taking) → i < length A → IsTaken (A ++ B) i t ↔ IsTaken A i t }
{}

/// An arrival that was lost leaves what is open as it was, and counts for nothing.
pub fn lost_arrivals()
    ensures { (r : Receiver) (A : List (Option (List ℕ))) → Stands r A → Stands r (A ++ None ∷ []) }
{}
