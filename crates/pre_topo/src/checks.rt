ghost use Rattle.std.specs.Prelude.{◌≡◌, IfOk};
ghost use Rattle.std.specs.List.{list_any};
ghost use Rattle.std.specs.Str.{bytes_eq};
ghost use Rattle.pre_table.specs.FirstFaults.{first_row};
ghost use Rattle.pre_table.specs.TextSets.{IsSetOf};
ghost use Rattle.pre_topo.specs.FileRules.{node_names, name_breaks, name_fault, is_named, has_wrong_end, ends_break, end_fault};

use crate::TopoFault;
use crate::raw::{RawLink, RawNode};
use pre_base::{FileRow, Name};
use pre_table::{PairSet, TextSet};
use std::alloc::{AllocError, Global};

/// The names of the nodes.
fn names_of(alloc: Global, nodes: &[RawNode]) -> Result<TextSet, AllocError>
    ensures { IfOk result (λ names. IsSetOf names (node_names nodes.now)) }
{
    let mut names = TextSet::new(alloc);
    for node in nodes {
        names.add(node.name.as_str())?;
    }
    Ok(names)
}

fn is_given(nodes: &[RawNode], names: &TextSet, name: &Name) -> bool
    requires { IsSetOf names.now (node_names nodes.now) }
    ensures { result ≡ list_any (is_named name.now) nodes.now }
{
    names.has(name.as_str())
}

fn bad_name(alloc: Global, nodes: &[RawNode]) -> Result<Option<usize>, AllocError>
    ensures { IfOk result (λ place. place ≡ first_row (name_breaks nodes.now) nodes.now) }
{
    let mut names = TextSet::new(alloc);
    for (place, node) in nodes.iter().enumerate() {
        let name = node.name.as_str();
        if !pre_text::name(name.as_bytes()) || !names.add(name)? {
            return Ok(Some(place));
        }
    }
    Ok(None)
}

fn has_wrong_end(nodes: &[RawNode], names: &TextSet, link: &RawLink) -> bool
    requires { IsSetOf names.now (node_names nodes.now) }
    ensures { result ≡ has_wrong_end nodes.now link.now }
{
    !is_given(nodes, names, &link.first)
        || !is_given(nodes, names, &link.second)
        || link.first.is_same(&link.second)
}

fn bad_ends(
    alloc: Global,
    nodes: &[RawNode],
    names: &TextSet,
    links: &[RawLink],
) -> Result<Option<usize>, AllocError>
    requires { IsSetOf names.now (node_names nodes.now) }
    ensures { IfOk result (λ place. place ≡ first_row (ends_break nodes.now links.now) links.now) }
{
    let mut joined = PairSet::new(alloc);
    for (row, link) in links.iter().enumerate() {
        let first = link.first.as_str();
        let second = link.second.as_str();
        if has_wrong_end(nodes, names, link) || !joined.add(first, second)? {
            return Ok(Some(row));
        }
        joined.add(second, first)?;
    }
    Ok(None)
}

/// The first node whose name isn't one, or was given before.
#[tactic(auto, unfolding(crate::specs::FileRules::name_fault))]
pub(crate) fn name_fault(alloc: Global, nodes: &[RawNode]) -> Result<Option<TopoFault>, AllocError>
    ensures { IfOk result (λ fault. fault ≡ name_fault nodes.now) }
{
    let Some(place) = bad_name(alloc, nodes)? else {
        return Ok(None);
    };
    let row = FileRow::Node(place as u64);
    Ok(Some(TopoFault::Name { row }))
}

/// The first link with an end that isn't a node, with one end, or with ends that are linked already.
#[tactic(auto, unfolding(crate::specs::FileRules::end_fault))]
pub(crate) fn end_fault(
    alloc: Global,
    nodes: &[RawNode],
    links: &[RawLink],
) -> Result<Option<TopoFault>, AllocError>
    ensures { IfOk result (λ fault. fault ≡ end_fault nodes.now links.now) }
{
    let names = names_of(alloc, nodes)?;
    let Some(place) = bad_ends(alloc, nodes, &names, links)? else {
        return Ok(None);
    };
    let row = FileRow::Link(place as u64);
    Ok(Some(TopoFault::End { row }))
}
