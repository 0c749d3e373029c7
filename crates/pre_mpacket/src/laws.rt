ghost use Rattle.std.specs.Prelude.{◌≡◌, ◌↔◌, ◌<◌, ◌≤◌, ◌+◌, ◌-◌, ◌%◌, ◌++◌, ◌∷◌, [], ℕ, List, Option, length, map, Contains, ◌⊎◌};
ghost use Rattle.pre_base.specs.declared.limits.TheConstants.{LEAST_FRAME, GREATEST_FRAME, GREATEST_DATA};
ghost use Rattle.pre_mpacket.specs.declared.packets.Kind.TheVariants.{Start, Continue};
ghost use Rattle.pre_mpacket.specs.Spelling.{PlainPacket, Spells, mpacket_of};
ghost use Rattle.pre_mpacket.specs.Pieces.{Begun, CutRule, Carries, SpellEach};
ghost use Rattle.pre_mpacket.specs.Arrivals.{Given, Gives, EndsChain, Fragments, HasKind, IsOpenBefore, is_fragment, IsLost, GivesNothing};
ghost use Rattle.pre_mpacket.specs.Open.{IsOpen};
ghost use Rattle.pre_mpacket.specs.Counters.{CountersOf};
ghost use Rattle.pre_crc.specs.Checks.{Fcs, Mcrc};

/// Octets spell one mPacket at most, and `mpacket_of` gives it.
pub fn one_mpacket()
    ensures one { (m n : PlainPacket) (octets : List ℕ) → Spells m octets → Spells n octets → m ≡ n }
    ensures given { (m : PlainPacket) (octets : List ℕ) → (mpacket_of octets ≡ Some m) ↔ Spells m octets }
{}

/// By the ticks at which express frames wait, a fragment has one size and no other.
pub fn one_size()
    ensures some { (waiting : List ℕ) (b : Begun) → (size : ℕ) × CutRule (λ t. Contains waiting t) b size }
    ensures one { (waiting : List ℕ) (b : Begun) (m n : ℕ)
        → CutRule (λ t. Contains waiting t) b m → CutRule (λ t. Contains waiting t) b n → m ≡ n }
{}

/// An arrival gives one thing at most.
pub fn one_given()
    ensures { (A : List (Option (List ℕ))) (i : ℕ) (g h : Given) → Gives A i g → Gives A i h → g ≡ h }
{}

/// A frame that an arrival gives has the size of a frame.
pub fn frames_have_their_size()
    ensures { (A : List (Option (List ℕ))) (i : ℕ) (octets : List ℕ) → Gives A i (Given.frame octets) → (LEAST_FRAME ≤ length octets) × (length octets ≤ GREATEST_FRAME) }
{}

/// What an arrival gives doesn't change with later ones.
pub fn later_arrivals()
    ensures { (A B : List (Option (List ℕ))) (i : ℕ) (g : Given) → i < length A → Gives (A ++ B) i g ↔ Gives A i g }
{}

/// Where the fragments that arrive from place j to place i carry a frame that ends with its check sequence,
/// arrival i gives that frame and nothing else, and each fragment before it gives a part and nothing else.
/// What comes between them is no fragment, or was lost.
pub fn pieces_give_the_frame()
    ensures last { (A : List (Option (List ℕ))) (j i add_frag : ℕ) (user : List ℕ)
        → j ≤ i → HasKind A is_fragment j → HasKind A is_fragment i
        → Carries (user ++ Fcs user) add_frag (Fragments A j i) → length user ≤ GREATEST_DATA
        → (g : Given) → Gives A i g ↔ (g ≡ Given.frame (user ++ Fcs user)) }
    ensures before { (A : List (Option (List ℕ))) (j i add_frag : ℕ) (user : List ℕ)
        → j ≤ i → HasKind A is_fragment j → HasKind A is_fragment i
        → Carries (user ++ Fcs user) add_frag (Fragments A j i) → length user ≤ GREATEST_DATA
        → (k : ℕ) → j ≤ k → k < i → HasKind A is_fragment k
        → (g : Given) → Gives A k g ↔ (g ≡ Given.part) }
{}

/// So it is where the octets of the pieces come in a row.
pub fn pieces_in_a_row()
    ensures last { (A : List (Option (List ℕ))) (parts : List PlainPacket) (pieces : List (List ℕ)) (add_frag : ℕ) (user : List ℕ)
        → SpellEach parts pieces → Carries (user ++ Fcs user) add_frag parts → length user ≤ GREATEST_DATA
        → (g : Given) → Gives (A ++ map (λ octets. Some octets) pieces) (length A + (length pieces - 1)) g
        ↔ (g ≡ Given.frame (user ++ Fcs user)) }
    ensures before { (A : List (Option (List ℕ))) (parts : List PlainPacket) (pieces : List (List ℕ)) (add_frag : ℕ) (user : List ℕ)
        → SpellEach parts pieces → Carries (user ++ Fcs user) add_frag parts → length user ≤ GREATEST_DATA
        → (k : ℕ) → k < length pieces - 1
        → (g : Given) → Gives (A ++ map (λ octets. Some octets) pieces) (length A + k) g ↔ (g ≡ Given.part) }
{}

/// The data that a further arrival ends, which has no more octets than the mData of a frame: of a start its own mData, and of a
/// continuation what is open with its frame count and its fragment count, and then its own.
pub fn next_joins()
    ensures start { (A : List (Option (List ℕ))) (octets all : List ℕ) (m : PlainPacket) (c : ℕ)
        → Spells m octets → m.kind ≡ Start c
        → EndsChain (A ++ Some octets ∷ []) (length A) all ↔ ((all ≡ m.mdata) × (length all ≤ GREATEST_DATA)) }
    ensures continuation { (A : List (Option (List ℕ))) (octets all : List ℕ) (m : PlainPacket) (c n : ℕ)
        → Spells m octets → m.kind ≡ Continue c n
        → EndsChain (A ++ Some octets ∷ []) (length A) all
        ↔ ((before : List ℕ) × IsOpen A c n before × (all ≡ before ++ m.mdata) × (length all ≤ GREATEST_DATA)) }
{}

/// Which frame is open after a further arrival: the one whose data a start or continuation ends with the right
/// check, and else the one that was open before what is no fragment.
pub fn next_open()
    ensures start { (A : List (Option (List ℕ))) (octets all : List ℕ) (m : PlainPacket) (c d n : ℕ)
        → Spells m octets → m.kind ≡ Start c
        → IsOpen (A ++ Some octets ∷ []) d n all
        ↔ ((d ≡ c) × (n ≡ 0) × EndsChain (A ++ Some octets ∷ []) (length A) all × (m.check ≡ Mcrc all)) }
    ensures continuation { (A : List (Option (List ℕ))) (octets all : List ℕ) (m : PlainPacket) (c i d n : ℕ)
        → Spells m octets → m.kind ≡ Continue c i
        → IsOpen (A ++ Some octets ∷ []) d n all
        ↔ ((d ≡ c) × (n ≡ (i + 1) % 4) × EndsChain (A ++ Some octets ∷ []) (length A) all × (m.check ≡ Mcrc all)) }
    ensures other { (A : List (Option (List ℕ))) (arrival : Option (List ℕ)) (d n : ℕ) (all : List ℕ)
        → ¬ HasKind (A ++ arrival ∷ []) is_fragment (length A)
        → IsOpen (A ++ arrival ∷ []) d n all ↔ IsOpen A d n all }
{}

/// One frame at most is open after a list of arrivals, and one is open where the last fragment is a part.
pub fn one_open()
    ensures one { (A : List (Option (List ℕ))) (c d m n : ℕ) (xs ys : List ℕ)
        → IsOpen A c m xs → IsOpen A d n ys → (c ≡ d) × (m ≡ n) × (xs ≡ ys) }
    ensures before { (A : List (Option (List ℕ)))
        → IsOpenBefore A (length A) ↔ ((c : ℕ) × (n : ℕ) × (octets : List ℕ) × IsOpen A c n octets) }
{}

/// The counters after so many arrivals are one, whatever comes later.
pub fn one_count()
    ensures one { (A : List (Option (List ℕ))) (n a b c d e f g h : ℕ) → CountersOf A n a b c d → CountersOf A n e f g h
        → (a ≡ e) × (b ≡ f) × (c ≡ g) × (d ≡ h) }
    ensures later { (A B : List (Option (List ℕ))) (n a b c d : ℕ)
        → n ≤ length A → CountersOf (A ++ B) n a b c d ↔ CountersOf A n a b c d }
{}

/// It is decided what each arrival gives, and whether it was lost; and a list of arrivals has counters.
pub fn given_is_decided()
    ensures given { (A : List (Option (List ℕ))) (i : ℕ) → ((g : Given) × Gives A i g) ⊎ GivesNothing A i }
    ensures lost { (A : List (Option (List ℕ))) (i : ℕ) → IsLost A i ⊎ ¬ IsLost A i }
    ensures counters { (A : List (Option (List ℕ))) (n : ℕ) → (err smd ok rx : ℕ) × CountersOf A n err smd ok rx }
{}
