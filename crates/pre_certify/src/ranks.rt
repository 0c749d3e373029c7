ghost use Rattle.std.specs.Prelude.{◌≡◌, ℕ, ◌+◌, ◌*◌, ◌<◌, ◌≤◌, ◌↔◌, length, IfSome, IfNone, IfOk, IfErr, OnOk};
ghost use Rattle.std.specs.Prelude.{Some, None, true, false, slice_get, slice_index, IsTrue, replicate};
ghost use Rattle.pre_base.specs.declared.numbers.ArcId.{ArcId};
ghost use Rattle.pre_bound.specs.Uses.{Follows};
ghost use Rattle.pre_certify.specs.Peels.{IsOpen, HasOpenBefore, NoneBefore, IsNextRank, IsRound, Peeled, open_count, IsClosed};
ghost use Rattle.pre_certify.specs.Peelings.{PeelsRows, FollowedWithin};

use pre_base::{ArcId, Items};
use pre_streams::Row;
use std::alloc::{AllocError, Global};

/// Whether the arc has no rank yet.
fn is_open(ranks: &[Option<u64>], arc: ArcId) -> bool
    ensures { IsTrue result ↔ IsOpen ranks.now arc.0 }
{
    match ranks.get(arc.0 as usize) {
        Some(rank) => rank.is_none(),
        None => false,
    }
}

/// Whether the arc stands behind this hop.
fn is_next(arcs: &[ArcId], hop: usize, arc: ArcId) -> bool
    requires { hop < length arcs.now }
    ensures { IsTrue result ↔ (slice_get arcs.now (hop + 1) ≡ Some arc) }
{
    arcs.get(hop + 1) == Some(&arc)
}

/// An open arc that this one follows on the row's route.
fn before_on(row: &Row, ranks: &[Option<u64>], arc: ArcId) -> Option<ArcId>
    ensures found { IfSome result (λ b. IsOpen ranks.now b.0 × ((hop : ℕ) × (slice_get row.now.arcs hop ≡ Some b) × (slice_get row.now.arcs (hop + 1) ≡ Some arc))) }
    ensures none { IfNone result ((b : ArcId) (hop : ℕ) → IsOpen ranks.now b.0 → slice_get row.now.arcs hop ≡ Some b → slice_get row.now.arcs (hop + 1) ≡ Some arc → ⊥) }
{
    let arcs = row.arcs.as_slice();
    for (hop, before) in arcs.iter().enumerate() {
        if is_next(arcs, hop, arc) && is_open(ranks, *before) {
            return Some(*before);
        }
    }
    None
}

/// An open arc that this one follows on some stream's route.
pub(crate) fn before(rows: &[Row], ranks: &[Option<u64>], arc: ArcId) -> Option<ArcId>
    ensures found { IfSome result (λ b. Follows rows.now b.0 arc.0 × IsOpen ranks.now b.0) }
    ensures none { IfNone result (NoneBefore rows.now ranks.now arc.0) }
{
    for row in rows {
        if row.curve.is_some() {
            if let Some(arc) = before_on(row, ranks, arc) {
                return Some(arc);
            }
        }
    }
    None
}

/// What a round makes of an arc: it gets the round as its rank where it has none and follows no open arc.
fn next_rank(rows: &[Row], ranks: &[Option<u64>], arc: ArcId, round: u64) -> Option<u64>
    requires { arc.0 < length ranks.now }
    ensures { IsNextRank rows.now round ranks.now arc.0 result }
{
    match ranks[arc.0 as usize] {
        Some(rank) => Some(rank),
        None => {
            if before(rows, ranks, arc).is_some() {
                None
            } else {
                Some(round)
            }
        }
    }
}

/// One round over all arcs.
fn round_of(
    alloc: Global,
    rows: &[Row],
    ranks: &[Option<u64>],
    round: u64,
) -> Result<Items<Option<u64>>, AllocError>
    requires { length ranks.now ≤ 256 }
    ensures { IfOk result (IsRound rows.now round ranks.now) }
{
    let mut next = Items::new(alloc);
    for arc in 0..ranks.len() as u16 {
        next.push(next_rank(rows, ranks, ArcId(arc), round))?;
    }
    Ok(next)
}

/// No arc has a rank.
fn all_open(alloc: Global, arcs: usize) -> Result<Items<Option<u64>>, AllocError>
    ensures { IfOk result (λ ranks. ranks ≡ replicate arcs None) }
{
    let mut ranks = Items::new(alloc);
    for _arc in 0..arcs {
        ranks.push(None)?;
    }
    Ok(ranks)
}

/// How many arcs have no rank yet.
fn open_count(ranks: &[Option<u64>]) -> usize
    ensures { result ≡ open_count ranks.now }
{
    ranks.iter().filter(|rank| rank.is_none()).count()
}

/// The ranks of all arcs where each chain of arcs on routes ends, and else, as the error, those of some arcs, where each other
/// arc follows one of the others.
pub(crate) fn peeled(alloc: Global, rows: &[Row], arcs: usize) -> Result<Peeling, AllocError>
    requires few { arcs ≤ 256 }
    requires within { FollowedWithin rows.now arcs }
    ensures { IfOk result (PeelsRows rows.now arcs) }
{
    let mut ranks = all_open(alloc, arcs)?;
    let mut round = 0;
    let mut left = arcs;
    while left > 0 {
        let next = round_of(alloc, rows, ranks.as_slice(), round)?;
        let still = open_count(next.as_slice());
        if still >= left {
            return Ok(Peeling::Closed(ranks));
        }
        ranks = next;
        left = still;
        round += 1;
    }
    Ok(Peeling::Ranked(ranks))
}

/// What rounds over all arcs come to.
#[derive(Debug, Drop)]
pub(crate) enum Peeling {
    /// Each arc has a rank.
    Ranked(Items<Option<u64>>),
    /// Each arc that has none follows another that has none, and there are such arcs.
    Closed(Items<Option<u64>>),
}
