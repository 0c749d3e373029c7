ghost use Rattle.std.specs.Prelude.{◌≡◌, ◌≢◌, ℕ, ◌+◌, ◌<◌, ◌≤◌, ◌++◌, length, IfSome, IfNone, IfOk, Some, slice_get, take, drop, AllPairs, All};
ghost use Rattle.pre_base.specs.declared.numbers.ArcId.{ArcId};
ghost use Rattle.pre_bound.specs.Uses.{Follows};
ghost use Rattle.pre_certify.specs.Peels.{IsOpen, open_count, IsClosed};
ghost use Rattle.pre_certify.specs.Causes.{Closes, IsCycle};
ghost use Rattle.pre_certify.specs.Paths.{IsBackPath, IsDistinct, IsTurned};

use crate::ranks::before;
use pre_base::{ArcId, Items};
use pre_streams::Row;
use std::alloc::{AllocError, Global};

/// The first arc that has no rank.
fn first_open(ranks: &[Option<u64>]) -> ArcId
    requires few { length ranks.now ≤ 256 }
    requires some { 0 < open_count ranks.now }
    ensures { IsOpen ranks.now result.0 }
{
    for (arc, rank) in ranks.iter().enumerate() {
        if rank.is_none() {
            return ArcId(arc as u16);
        }
    }
    ArcId(0)
}

/// An open arc that this open one follows.
fn open_before(rows: &[Row], ranks: &[Option<u64>], arc: ArcId) -> ArcId
    requires here { IsOpen ranks.now arc.0 }
    requires closed { IsClosed rows.now ranks.now }
    ensures follows { Follows rows.now result.0 arc.0 }
    ensures still { IsOpen ranks.now result.0 }
{
    match before(rows, ranks, arc) {
        Some(before) => before,
        None => arc,
    }
}

/// Where the arc stands on the path.
fn place_of(path: &[ArcId], arc: ArcId) -> Option<usize>
    ensures found { IfSome result (λ place. slice_get path.now place ≡ Some arc) }
    ensures within { IfSome result (λ place. place < length path.now) }
    ensures none { IfNone result ((place : ℕ) → slice_get path.now place ≢ Some arc) }
{
    for place in 0..path.len() {
        if path.get(place) == Some(&arc) {
            return Some(place);
        }
    }
    None
}

/// The first arcs of the path.
fn front(alloc: Global, path: &[ArcId], count: usize) -> Result<Items<ArcId>, AllocError>
    requires { count ≤ length path.now }
    ensures { IfOk result (λ arcs. arcs ≡ take count path.now) }
{
    Ok(Items::from_vec(path[..count].to_vec(alloc)?))
}

/// Distinct arcs, each followed by the next on some stream's route and the last by the first.
fn closed_path(
    alloc: Global,
    rows: &[Row],
    ranks: &[Option<u64>],
) -> Result<Items<ArcId>, AllocError>
    requires few { length ranks.now ≤ 256 }
    requires some { 0 < open_count ranks.now }
    requires closed { IsClosed rows.now ranks.now }
    ensures { IfOk result (λ path. Closes rows.now path × IsDistinct path) }
{
    let mut last = first_open(ranks);
    let mut path = Items::new(alloc);
    path.push(last)?;
    for _turn in 0..ranks.len() {
        let arc = open_before(rows, ranks, last);
        if let Some(place) = place_of(path.as_slice(), arc) {
            return front(alloc, path.as_slice(), place + 1);
        }
        path.push_front(arc)?;
        last = arc;
    }
    Ok(path)
}

/// Where the least arc stands.
fn least_place(path: &[ArcId]) -> usize
    requires { 0 < length path.now }
    ensures within { result < length path.now }
    ensures least { (k : ℕ) (a b : ArcId) → slice_get path.now result ≡ Some a → slice_get path.now k ≡ Some b → a.0 ≤ b.0 }
{
    let mut least = 0;
    for place in 0..path.len() {
        if path[place].0 < path[least].0 {
            least = place;
        }
    }
    least
}

/// The same arcs in the same order, from the least one on.
fn from_least(alloc: Global, path: &[ArcId]) -> Result<Items<ArcId>, AllocError>
    requires { 0 < length path.now }
    ensures { IfOk result (IsTurned path.now) }
{
    let least = least_place(path);
    let mut turned = path[least..].to_vec(alloc)?;
    turned.extend_from_slice(&path[..least])?;
    Ok(Items::from_vec(turned))
}

/// A cycle of arcs, where each open arc follows an open one.
pub(crate) fn cycle(
    alloc: Global,
    rows: &[Row],
    ranks: &[Option<u64>],
) -> Result<Items<ArcId>, AllocError>
    requires few { length ranks.now ≤ 256 }
    requires some { 0 < open_count ranks.now }
    requires closed { IsClosed rows.now ranks.now }
    ensures { IfOk result (IsCycle rows.now) }
{
    let path = closed_path(alloc, rows, ranks)?;
    from_least(alloc, path.as_slice())
}
