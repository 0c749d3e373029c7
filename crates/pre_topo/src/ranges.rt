ghost use Rattle.std.specs.Prelude.{◌≡◌, length, not, position, true, IfOk};
ghost use Rattle.std.specs.Option.{option_map_or};
ghost use Rattle.std.specs.List.{list_all};
ghost use Rattle.pre_table.specs.Values.{is_within};
ghost use Rattle.pre_topo.specs.FileRules.{timing_in_range, kind_of, node_in_range, mode_of, policy_of, link_in_range, range_fault, counts_hold, rows_fault, most_latency};

use crate::checks::{end_fault, name_fault};
use crate::raw::{RawLink, RawNetwork, RawNode, RawTiming};
use crate::{Mode, NodeKind, Policy, TopoFault};
use pre_base::{FileRow, GREATEST_FRAME, LEAST_FRAME, Name};
use pre_table::Whole;
use std::alloc::{AllocError, Global};

pub(crate) fn kind_of(word: &Name) -> Option<NodeKind>
    ensures { result ≡ kind_of word.now }
{
    match word.as_str() {
        "station" => Some(NodeKind::Station),
        "bridge" => Some(NodeKind::Bridge),
        _ => None,
    }
}

fn bad_node(nodes: &[RawNode]) -> Option<usize>
    ensures { result ≡ position (λ n. not (node_in_range n)) nodes.now }
{
    nodes.iter().position(|node| !node_in_range(node))
}

fn most_latency(kind: NodeKind) -> u64
    ensures { result ≡ most_latency kind }
{
    match kind {
        NodeKind::Station => 0,
        NodeKind::Bridge => 1_000_000_000,
    }
}

fn node_in_range(node: &RawNode) -> bool
    ensures { result ≡ node_in_range node.now }
{
    match kind_of(&node.kind) {
        None => false,
        Some(kind) => node.latency.is_within(0, most_latency(kind)),
    }
}

pub(crate) fn mode_of(word: &Name) -> Option<Mode>
    ensures { result ≡ mode_of word.now }
{
    match word.as_str() {
        "off" => Some(Mode::Off),
        "on" => Some(Mode::On),
        "negotiate" => Some(Mode::Negotiate),
        _ => None,
    }
}

pub(crate) fn policy_of(word: &Name) -> Option<Policy>
    ensures { result ≡ policy_of word.now }
{
    match word.as_str() {
        "pass" => Some(Policy::Pass),
        "quiet" => Some(Policy::Quiet),
        _ => None,
    }
}

fn are_rings(rings: &[Whole]) -> bool
    ensures { result ≡ list_all (is_within 1 4096) rings.now }
{
    rings.iter().all(|ring| ring.is_within(1, 4096))
}

fn is_express_from(given: Option<Whole>) -> bool
    ensures { result ≡ option_map_or (is_within 1 7) given true }
{
    match given {
        None => true,
        Some(number) => number.is_within(1, 7),
    }
}

fn link_in_range(link: &RawLink) -> bool
    ensures { result ≡ link_in_range link.now }
{
    link.cost.is_within(1, 1000)
        && link.delay.is_within(0, 1_000_000_000)
        && mode_of(&link.mode).is_some()
        && policy_of(&link.policy).is_some()
        && link.add_frag.is_within(0, 3)
        && are_rings(&link.rings)
        && is_express_from(link.express_from)
        && link
            .largest
            .is_within(u64::from(LEAST_FRAME), u64::from(GREATEST_FRAME))
}

fn bad_link(links: &[RawLink]) -> Option<usize>
    ensures { result ≡ position (λ l. not (link_in_range l)) links.now }
{
    links.iter().position(|link| !link_in_range(link))
}

fn timing_in_range(timing: &RawTiming) -> bool
    ensures { result ≡ timing_in_range timing.now }
{
    timing.interval.is_within(1, 1_000_000_000_000)
        && timing.ttl.is_within(1, 65_535)
        && timing.unit.is_within(1, 1_000_000_000)
        && timing.verify.is_within(1, 1_000_000_000_000)
}

/// The first row with a number or word outside its range.
#[tactic(auto, unfolding(crate::specs::FileRules::range_fault))]
fn range_fault(raw: &RawNetwork) -> Option<TopoFault>
    ensures { result ≡ range_fault raw.now }
{
    if !raw.express_from.is_within(1, 7) {
        return Some(TopoFault::Range { row: FileRow::Top });
    }
    if !timing_in_range(&raw.timing) {
        return Some(TopoFault::Range {
            row: FileRow::Timing,
        });
    }
    if let Some(place) = bad_node(raw.nodes.as_slice()) {
        let row = FileRow::Node(place as u64);
        return Some(TopoFault::Range { row });
    }
    let place = bad_link(raw.links.as_slice())?;
    let row = FileRow::Link(place as u64);
    Some(TopoFault::Range { row })
}

fn counts_hold(nodes: usize, links: usize) -> bool
    ensures { result ≡ counts_hold nodes links }
{
    2 <= nodes && nodes <= 128 && 1 <= links && links <= 128
}

/// The first fault of names, ends, ranges and counts.
pub(crate) fn rows_fault(alloc: Global, raw: &RawNetwork) -> Result<Option<TopoFault>, AllocError>
    ensures { IfOk result (λ fault. fault ≡ rows_fault raw.now) }
{
    let nodes = raw.nodes.as_slice();
    let links = raw.links.as_slice();
    if let Some(fault) = name_fault(alloc, nodes)? {
        return Ok(Some(fault));
    }
    if let Some(fault) = end_fault(alloc, nodes, links)? {
        return Ok(Some(fault));
    }
    if let Some(fault) = range_fault(raw) {
        return Ok(Some(fault));
    }
    if counts_hold(nodes.len(), links.len()) {
        Ok(None)
    } else {
        Ok(Some(TopoFault::Count))
    }
}
