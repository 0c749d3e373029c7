ghost use Rattle.std.specs.Prelude.{◌≡◌, ◌⊎◌, ◌≤◌, ℕ, All, List, [], ◌∷◌, ◌++◌, Option, Some, true, false, length, take};
ghost use Rattle.pre_mpacket.specs.declared.packets.Kind.TheVariants as kind;
ghost use Rattle.pre_mpacket.specs.Spelling.{IsWhole};
ghost use Rattle.pre_mpacket.specs.Pieces.{joined, Carries};
ghost use Rattle.pre_rings.specs.declared.slots.FrameRef.{FrameRef};
ghost use Rattle.pre_rings.specs.Stores.{HoldsAt};
ghost use Rattle.pre_send.specs.declared.senders.Sender.{Sender};
ghost use Rattle.pre_send.specs.Calls.{Call, ended, express, whole};
ghost use Rattle.pre_send.specs.Sendings.{Sending, Part, interrupted, IsSending};
ghost use Rattle.pre_send.specs.Answers.{is_part};
ghost use Rattle.pre_send.specs.Frames.{HoldsNewest};
ghost use Rattle.pre_send.specs.Endings.{HoldsUnderWay, done_by};
ghost use Rattle.pre_send.specs.Packets.{packet_after, fragments};
ghost use Rattle.pre_send.specs.Lendings.{Lends, HasOther};
ghost use Rattle.pre_send.specs.Carrying.{EachHeld};
ghost use Rattle.pre_send.specs.Senders.{Stands};

/// A store that holds the frame of the newest mPacket holds what a sender has under way.
pub fn frames_law()
    ensures { (s : Sender) (cost add_frag : ℕ) (calls : List Call) (store : List (Option (List ℕ))) → Stands s cost add_frag calls
        → ((packets : List Sending) → IsSending cost add_frag calls packets → HoldsNewest packets store) → HoldsUnderWay s store }
{}

/// An LLDP frame of 64 octets, where the newest mPacket carries one, and 60 octets 0, where it is a verify or respond, are
/// what a sender lends of it.
pub fn others_law()
    ensures { (s : Sender) (cost add_frag : ℕ) (calls : List Call) (other : List ℕ) → Stands s cost add_frag calls
        → ((packets : List Sending) → IsSending cost add_frag calls packets → HasOther packets other) → Lends s other }
{}

/// Calls tell of one list of mPackets.
pub fn one_sending()
    ensures { (cost add_frag : ℕ) (calls : List Call) (xs ys : List Sending)
        → IsSending cost add_frag calls xs → IsSending cost add_frag calls ys → xs ≡ ys }
{}

/// The mPacket that ends is the one that was under way, with the octets that it had by the same frames.
pub fn ending_law()
    ensures { (cost add_frag t : ℕ) (calls : List Call) (store : List (Option (List ℕ))) (other : List ℕ) (p : Sending) (older packets : List Sending)
        → IsSending cost add_frag calls (p ∷ older) → IsSending cost add_frag (calls ++ ended t store ∷ []) packets
        → (q : Sending) × (packets ≡ q ∷ older) × (q.told.end ≡ Some (record { tick = t; store = store }))
        × (packet_after older q store other ≡ packet_after older p store other) }
{}

/// Where the store at the end of each of its fragments holds the same octets of a frame, the fragments of a finished one
/// carry it (IEEE 802.3, 99.4) and can be written as mPackets, and those of an interrupted one have its octets up to the
/// place where it goes on.
pub fn fragments_law()
    ensures finished { (cost add_frag : ℕ) (calls : List Call) (newer older : List Sending) (p : Sending) (f : FrameRef) (octets : List ℕ)
        → IsSending cost add_frag calls (newer ++ p ∷ older)
        → is_part p.told.chosen ≡ true → done_by p.told.chosen (interrupted older) p ≡ Some f
        → EachHeld f octets (p ∷ older) → length octets ≡ f.size
        → Carries octets add_frag (fragments (p ∷ older)) }
    ensures whole { (cost add_frag : ℕ) (calls : List Call) (newer older : List Sending) (p : Sending) (f : FrameRef) (octets : List ℕ)
        → IsSending cost add_frag calls (newer ++ p ∷ older)
        → is_part p.told.chosen ≡ true → done_by p.told.chosen (interrupted older) p ≡ Some f
        → EachHeld f octets (p ∷ older) → length octets ≡ f.size → 64 ≤ f.size
        → All (λ m. IsWhole m) (fragments (p ∷ older)) }
    ensures interrupted { (cost add_frag : ℕ) (calls : List Call) (newer older : List Sending) (x : Part) (octets : List ℕ)
        → IsSending cost add_frag calls (newer ++ older) → interrupted older ≡ Some x
        → EachHeld x.frame octets older → length octets ≡ x.frame.size
        → (x.so_far ≡ take x.place octets) × (joined (fragments older) ≡ take x.place octets) }
{}

/// Each other frame that is finished goes as one express mPacket, whose mData is the frame, with its check after it.
pub fn whole_frames_law()
    ensures chosen { (cost add_frag : ℕ) (calls : List Call) (newer older : List Sending) (p : Sending) (f : FrameRef)
        → IsSending cost add_frag calls (newer ++ p ∷ older)
        → is_part p.told.chosen ≡ false → done_by p.told.chosen (interrupted older) p ≡ Some f
        → (p.told.chosen ≡ express f) ⊎ (p.told.chosen ≡ whole f) }
    ensures carried { (cost add_frag : ℕ) (calls : List Call) (newer older : List Sending) (p : Sending) (f : FrameRef)
        (store : List (Option (List ℕ))) (octets other : List ℕ)
        → IsSending cost add_frag calls (newer ++ p ∷ older)
        → is_part p.told.chosen ≡ false → done_by p.told.chosen (interrupted older) p ≡ Some f
        → HoldsAt store f.slot octets → length octets ≡ f.size → 64 ≤ f.size
        → let m = packet_after older p store other in (m.kind ≡ kind.Express) × (m.mdata ++ m.check ≡ octets) × (length m.check ≡ 4) }
{}
