ghost use Rattle.std.specs.Prelude.{◌≡◌, ◌<◌, length, slice_get, true, nat_lt, ◌+◌, IfOk};
ghost use Rattle.std.specs.Option.{option_map_or};
ghost use Rattle.pre_base.specs.declared.limits.TheConstants.{OVERHEAD};
ghost use Rattle.pre_table.specs.FirstFaults.{first_row};
ghost use Rattle.pre_streams.specs.FileRules.{name_breaks, row_at, bad_route, class_rule, class_breaks, length_in_range, curve_in_range, row_in_range};
ghost use Rattle.pre_streams.specs.FileRules.{is_carried, range_breaks, burst_breaks, name_fault, route_fault, class_fault, range_fault, burst_fault};
ghost use Rattle.pre_streams.specs.FileRules.{counts_hold, raw_fault};

use crate::StreamFault;
use crate::arc_rules::{ArcRule, holds_along};
use crate::first_places::FirstPlaces;
use crate::raw::{RawCurve, RawFlow, RawStreams};
use crate::routes::hop_fault;
use pre_base::{FileRow, GREATEST_FRAME, LEAST_FRAME, OVERHEAD};
use pre_table::TextSet;
use pre_topo::Network;
use std::alloc::{AllocError, Global};

fn row_at(streams: usize, place: usize) -> FileRow
    ensures { result ≡ row_at streams place }
{
    if place < streams {
        FileRow::Stream(place as u64)
    } else {
        FileRow::Flow((place - streams) as u64)
    }
}

fn bad_name(alloc: Global, rows: &[RawFlow]) -> Result<Option<usize>, AllocError>
    ensures { IfOk result (λ place. place ≡ first_row (name_breaks rows.now) rows.now) }
{
    let mut names = TextSet::new(alloc);
    for (place, row) in rows.iter().enumerate() {
        let name = row.name.as_str();
        if !pre_text::name(name.as_bytes()) || !names.add(name)? {
            return Ok(Some(place));
        }
    }
    Ok(None)
}

#[tactic(auto, unfolding(crate::specs::FileRules::name_fault))]
fn name_fault(alloc: Global, raw: &RawStreams) -> Result<Option<StreamFault>, AllocError>
    ensures { IfOk result (λ fault. fault ≡ name_fault raw.now) }
{
    let Some(place) = bad_name(alloc, raw.rows.as_slice())? else {
        return Ok(None);
    };
    let row = row_at(raw.curves.len(), place);
    Ok(Some(StreamFault::Name { row }))
}

fn bad_route(
    alloc: Global,
    net: &Network,
    rows: &[RawFlow],
) -> Result<Option<(usize, usize)>, AllocError>
    ensures { IfOk result (λ at. at ≡ bad_route net.now rows.now) }
{
    let mut firsts = FirstPlaces::new(alloc);
    for (place, row) in rows.iter().enumerate() {
        let first = firsts.first(row.vid, place)?;
        if let Some(hop) = hop_fault(net, rows, first, row) {
            return Ok(Some((place, hop)));
        }
    }
    Ok(None)
}

#[tactic(auto, unfolding(crate::specs::FileRules::route_fault))]
fn route_fault(
    alloc: Global,
    net: &Network,
    raw: &RawStreams,
) -> Result<Option<StreamFault>, AllocError>
    ensures { IfOk result (λ fault. fault ≡ route_fault net.now raw.now) }
{
    let Some((place, hop)) = bad_route(alloc, net, raw.rows.as_slice())? else {
        return Ok(None);
    };
    let row = row_at(raw.curves.len(), place);
    let hop = hop as u64;
    Ok(Some(StreamFault::Route { row, hop }))
}

fn class_rule(curves: &[RawCurve], place: usize, row: &RawFlow) -> ArcRule
    ensures { result ≡ class_rule curves.now place row.now }
{
    if place < curves.len() {
        ArcRule::Express(row.prio)
    } else {
        ArcRule::Preemptable(row.prio)
    }
}

fn class_breaks(net: &Network, curves: &[RawCurve], place: usize, row: &RawFlow) -> bool
    ensures { result ≡ class_breaks net.now curves.now place row.now }
{
    !holds_along(net, class_rule(curves, place, row), row.route.as_slice())
}

fn bad_class(net: &Network, curves: &[RawCurve], rows: &[RawFlow]) -> Option<usize>
    ensures { result ≡ first_row (class_breaks net.now curves.now) rows.now }
{
    rows.iter()
        .enumerate()
        .position(|(place, row)| class_breaks(net, curves, place, row))
}

#[tactic(auto, unfolding(crate::specs::FileRules::class_fault))]
fn class_fault(net: &Network, raw: &RawStreams) -> Option<StreamFault>
    ensures { result ≡ class_fault net.now raw.now }
{
    let place = bad_class(net, raw.curves.as_slice(), raw.rows.as_slice())?;
    let row = row_at(raw.curves.len(), place);
    Some(StreamFault::Class { row })
}

fn curve_in_range(curve: &RawCurve) -> bool
    ensures { result ≡ curve_in_range curve.now }
{
    curve.burst.is_within(84, 1_000_000_000) && curve.rate.is_within(1, 1_000_000)
}

fn length_in_range(count: usize) -> bool
    ensures { result ≡ length_in_range count }
{
    2 <= count && count <= 17
}

fn row_in_range(row: &RawFlow) -> bool
    ensures { result ≡ row_in_range row.now }
{
    row.vid.is_within(1, 4094)
        && row.prio.is_within(0, 7)
        && length_in_range(row.route.len())
        && row
            .max
            .is_within(u64::from(LEAST_FRAME), u64::from(GREATEST_FRAME))
}

fn has_curve_in_range(curves: &[RawCurve], place: usize) -> bool
    ensures { result ≡ option_map_or curve_in_range (slice_get curves.now place) true }
{
    match curves.get(place) {
        None => true,
        Some(curve) => curve_in_range(curve),
    }
}

fn is_carried(net: &Network, curves: &[RawCurve], place: usize, row: &RawFlow) -> bool
    ensures { result ≡ is_carried net.now curves.now place row.now }
{
    place < curves.len() || holds_along(net, ArcRule::Carries(row.max), row.route.as_slice())
}

fn range_breaks(net: &Network, curves: &[RawCurve], place: usize, row: &RawFlow) -> bool
    ensures { result ≡ range_breaks net.now curves.now place row.now }
{
    !(row_in_range(row) && has_curve_in_range(curves, place) && is_carried(net, curves, place, row))
}

fn bad_range(net: &Network, curves: &[RawCurve], rows: &[RawFlow]) -> Option<usize>
    ensures { result ≡ first_row (range_breaks net.now curves.now) rows.now }
{
    rows.iter()
        .enumerate()
        .position(|(place, row)| range_breaks(net, curves, place, row))
}

#[tactic(auto, unfolding(crate::specs::FileRules::range_fault))]
fn range_fault(net: &Network, raw: &RawStreams) -> Option<StreamFault>
    ensures { result ≡ range_fault net.now raw.now }
{
    let place = bad_range(net, raw.curves.as_slice(), raw.rows.as_slice())?;
    let row = row_at(raw.curves.len(), place);
    Some(StreamFault::Range { row })
}

fn has_no_room(burst: u64, max: u64) -> bool
    ensures { result ≡ nat_lt burst (max + OVERHEAD) }
{
    let overhead = u64::from(OVERHEAD);
    burst < overhead || burst - overhead < max
}

fn burst_breaks(curves: &[RawCurve], place: usize, row: &RawFlow) -> bool
    ensures { result ≡ burst_breaks curves.now place row.now }
{
    match curves.get(place) {
        None => false,
        Some(curve) => has_no_room(curve.burst.natural(), row.max.natural()),
    }
}

fn bad_burst(curves: &[RawCurve], rows: &[RawFlow]) -> Option<usize>
    ensures { result ≡ first_row (burst_breaks curves.now) rows.now }
{
    rows.iter()
        .enumerate()
        .position(|(place, row)| burst_breaks(curves, place, row))
}

#[tactic(auto, unfolding(crate::specs::FileRules::burst_fault))]
fn burst_fault(raw: &RawStreams) -> Option<StreamFault>
    ensures { result ≡ burst_fault raw.now }
{
    let place = bad_burst(raw.curves.as_slice(), raw.rows.as_slice())?;
    let row = row_at(raw.curves.len(), place);
    Some(StreamFault::Burst { row })
}

fn counts_hold(raw: &RawStreams) -> bool
    ensures { result ≡ counts_hold raw.now }
{
    let streams = raw.curves.len();
    let rows = raw.rows.len();
    streams <= 256 && rows <= streams + 256
}

/// The first fault, by rule and then by row.
pub(crate) fn raw_fault(
    alloc: Global,
    net: &Network,
    raw: &RawStreams,
) -> Result<Option<StreamFault>, AllocError>
    ensures { IfOk result (λ fault. fault ≡ raw_fault net.now raw.now) }
{
    if let Some(fault) = name_fault(alloc, raw)? {
        return Ok(Some(fault));
    }
    if let Some(fault) = route_fault(alloc, net, raw)? {
        return Ok(Some(fault));
    }
    if let Some(fault) = class_fault(net, raw) {
        return Ok(Some(fault));
    }
    if let Some(fault) = range_fault(net, raw) {
        return Ok(Some(fault));
    }
    if let Some(fault) = burst_fault(raw) {
        return Ok(Some(fault));
    }
    if counts_hold(raw) {
        Ok(None)
    } else {
        Ok(Some(StreamFault::Count))
    }
}
