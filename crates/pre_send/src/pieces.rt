ghost use Rattle.std.specs.Prelude.{◌≡◌, ℕ, ◌+◌, ◌-◌, ◌*◌, ◌^◌, ◌≤◌, ◌<◌, Option, None, Some, MatchOption, length, take, drop};
ghost use Rattle.std.specs.Option.{ForSome};
ghost use Rattle.pre_base.specs.declared.limits.TheConstants.{GREATEST_FRAME};
ghost use Rattle.pre_mpacket.specs.Spelling.{PlainPacket, HasCounts, IsWhole};
ghost use Rattle.pre_rings.specs.Stores.{HoldsFrame};
ghost use Rattle.pre_send.specs.Cuts.{IsFirstCut};
ghost use Rattle.pre_send.specs.Sendings.{slot_octets};

use pre_base::{CHECK, HEAD, LEAST_FRAME};
use pre_crc::Running;
use pre_mpacket::Kind;
use pre_rings::{FrameRef, FrameStore};

/// A frame that is sent in fragments, and how far it is.
#[derive(Debug, Drop)]
pub(crate) struct Piece {
    pub frame: FrameRef,
    /// The place from which its next fragment is.
    pub from: u16,
    pub frame_count: u8,
    /// The fragment count of its next continuation.
    pub fragment: u8,
    /// The check of its octets before that place.
    pub check: Running,
    /// The octets of mData after which the fragment is cut.
    pub cut: Option<u16>,
    ghost size_within: { frame.size ≤ GREATEST_FRAME },
    ghost last_within: { from + 64 ≤ frame.size },
    ghost cut_within: { ForSome cut (λ d. from + d + 64 ≤ frame.size) },
    ghost cut_least: { ForSome cut (λ d. 60 ≤ d) },
    ghost counts_within: { frame_count < 4 },
    ghost fragments_within: { fragment < 4 },
}

impl Piece {
    ghost use Rattle.pre_send.specs.Plans.{piece_kind, piece_size, PieceTold};
    ghost use Rattle.pre_send.specs.Lendings.{GivesPiece};

    /// Its kind as an mPacket.
    pub fn kind(&self) -> Kind
        ensures kind { result ≡ piece_kind self.now }
        ensures counts { HasCounts result }
    {
        if self.from == 0 {
            Kind::Start(self.frame_count)
        } else {
            Kind::Continue(self.frame_count, self.fragment)
        }
    }

    /// The octets of the fragment, its check included, as it is planned.
    pub fn size(&self) -> u16
        ensures { result ≡ piece_size self.now }
    {
        match self.cut {
            Some(mdata) => mdata + CHECK,
            None => self.frame.size - self.from,
        }
    }

    /// Its fragment as it is planned, with its check as sent: that of its frame where it ends it, and else the check of all
    /// octets of the frame up to its end, to which the running check adds those of the fragment alone.
    pub fn packet<'a>(&self, store: &'a FrameStore) -> (Kind, &'a [u8], [u8; 4])
        requires { HoldsFrame store.now self.now.frame }
        ensures given { GivesPiece self.now store.now (record { kind = result.0; mdata = result.1.now; check = result.2 }) }
        ensures whole { IsWhole (record { kind = result.0; mdata = result.1.now; check = result.2 }) }
    {
        let kind = self.kind();
        match self.cut {
            Some(size) => {
                let mdata = part_of(store, &self.frame, self.from, size);
                let mut check = self.check;
                check.add(mdata);
                (kind, mdata, check.mcrc())
            }
            None => {
                let unsent = part_of(store, &self.frame, self.from, self.frame.size - self.from);
                let (mdata, check) = with_check(unsent);
                (kind, mdata, check)
            }
        }
    }

    /// The same, where its fragment began at a tick, and an express frame waits from a tick on.
    pub fn told(self, began: u64, waits: u64, cost: u64, add_frag: u8) -> Piece
        requires cost { 1 ≤ cost }
        requires most { cost ≤ 1000 }
        requires add_frag { add_frag ≤ 3 }
        requires waits { waits ≤ 10 ^ 18 }
        ensures { PieceTold self result began waits cost add_frag }
    {
        let Piece {
            frame,
            from,
            frame_count,
            fragment,
            check,
            cut: _,
        } = self;
        let cut = first_cut(began, waits, cost, add_frag, frame.size - from);
        Piece {
            frame,
            from,
            frame_count,
            fragment,
            check,
            cut,
        }
    }
}

/// So many octets of a frame from a place on.
pub(crate) fn part_of<'a>(store: &'a FrameStore, frame: &FrameRef, from: u16, size: u16) -> &'a [u8]
    requires held { HoldsFrame store.now frame.now }
    requires within { from + size ≤ frame.now.size }
    ensures { result.now ≡ take size (drop from (slot_octets store.now frame.now.slot)) }
{
    let octets = store.octets(&frame.slot);
    let from = usize::from(from);
    &octets[from..from + usize::from(size)]
}

/// The end of a frame, parted into its mData and the frame's check sequence.
pub(crate) fn with_check(octets: &[u8]) -> (&[u8], [u8; 4])
    requires { 4 ≤ length octets.now }
    ensures mdata { result.0.now ≡ take (length octets.now - 4) octets.now }
    ensures check { result.1 ≡ drop (length octets.now - 4) octets.now }
{
    let (mdata, last) = octets.split_at(octets.len() - 4);
    let mut check = [0; 4];
    check.copy_from_slice(last);
    (mdata, check)
}

/// The octets of mData after which a fragment that began at a tick is cut, where an express frame waits from a later tick
/// on, and so many octets of its frame are unsent.
pub(crate) fn first_cut(began: u64, waits: u64, cost: u64, add_frag: u8, unsent: u16) -> Option<u16>
    requires cost { 1 ≤ cost }
    requires most { cost ≤ 1000 }
    requires add_frag { add_frag ≤ 3 }
    requires waits { waits ≤ 10 ^ 18 }
    requires unsent { unsent ≤ GREATEST_FRAME }
    ensures { IsFirstCut began waits cost add_frag unsent result }
{
    let least = u64::from(LEAST_FRAME) * (1 + u64::from(add_frag)) - u64::from(CHECK);
    let mdata = least.max(octets_by(began, waits, cost).saturating_sub(HEAD));
    if mdata + u64::from(LEAST_FRAME) <= u64::from(unsent) {
        Some(mdata as u16)
    } else {
        None
    }
}

// The octet times from one tick until another, or until the first octet that ends at it or later.
fn octets_by(began: u64, waits: u64, cost: u64) -> u64
    requires cost { 1 ≤ cost }
    requires most { cost ≤ 1000 }
    requires waits { waits ≤ 10 ^ 18 }
    ensures late { waits ≤ began + cost * result }
    ensures least { (n : ℕ) → waits ≤ began + cost * n → result ≤ n }
    ensures within { result ≤ 10 ^ 18 }
{
    waits.saturating_sub(began).div_ceil(cost)
}
