ghost use Rattle.std.specs.Prelude.{◌≡◌, option_map};
ghost use Rattle.toml.specs.View.{table_view};
ghost use Rattle.pre_topo.specs.Raw.{timing_of, node_of, link_of, top_of};
ghost use Rattle.pre_topo.specs.Seen.{node_seen, link_seen, top_seen};

use crate::raw::RawTiming;
use pre_table::{
    Whole, eight_numbers_or, has_only, natural_or, number_or, number_or_none, table_or_none,
    tables_at, text_at, text_or, two_texts_at,
};
use toml::{Table, Value};

/// What stands at the keys of a row of `node`.
#[derive(Clone, Copy)]
pub struct NodeFields<'a> {
    pub name: &'a str,
    pub kind: &'a str,
    pub latency: Whole,
}

/// What stands at the keys of a row of `link`.
#[derive(Clone, Copy)]
pub struct LinkFields<'a> {
    pub first: &'a str,
    pub second: &'a str,
    pub cost: Whole,
    pub delay: Whole,
    pub mode: &'a str,
    pub policy: &'a str,
    pub add_frag: Whole,
    pub rings: [Whole; 8],
    pub express_from: Option<Whole>,
    pub largest: Whole,
}

/// What stands at the keys of the whole table.
#[derive(Clone, Copy)]
pub struct TopFields<'a> {
    pub express_from: Whole,
    pub timing: Option<&'a Table>,
    pub nodes: &'a [Value],
    pub links: &'a [Value],
}

pub(crate) fn timing_fields(table: &Table) -> Option<RawTiming>
    ensures { result ≡ timing_of (table_view table.now) }
{
    if !has_only(table, &["interval", "ttl", "unit", "verify"]) {
        return None;
    }
    let interval = natural_or(table, "interval", 30_000_000_000)?;
    let ttl = natural_or(table, "ttl", 120)?;
    let unit = natural_or(table, "unit", 1_000_000_000)?;
    let verify = natural_or(table, "verify", 10_000_000)?;
    Some(RawTiming {
        interval,
        ttl,
        unit,
        verify,
    })
}

pub(crate) fn node_fields(table: &Table) -> Option<NodeFields<'_>>
    ensures { option_map node_seen result ≡ node_of (table_view table.now) }
{
    if !has_only(table, &["name", "kind", "latency"]) {
        return None;
    }
    let name = text_at(table, "name")?;
    let kind = text_at(table, "kind")?;
    let latency = natural_or(table, "latency", 0)?;
    Some(NodeFields {
        name,
        kind,
        latency,
    })
}

pub(crate) fn link_fields(table: &Table) -> Option<LinkFields<'_>>
    ensures { option_map link_seen result ≡ link_of (table_view table.now) }
{
    if !has_only(
        table,
        &[
            "ends",
            "cost",
            "delay",
            "mode",
            "policy",
            "add_frag",
            "rings",
            "express_from",
            "largest",
        ],
    ) {
        return None;
    }
    let (first, second) = two_texts_at(table, "ends")?;
    let cost = number_or(table, "cost", None)?;
    let delay = natural_or(table, "delay", 0)?;
    let mode = text_or(table, "mode", "off")?;
    let policy = text_or(table, "policy", "quiet")?;
    let add_frag = natural_or(table, "add_frag", 0)?;
    let rings = eight_numbers_or(table, "rings", Whole::Natural(16))?;
    let express_from = number_or_none(table, "express_from")?;
    let largest = natural_or(table, "largest", 1522)?;
    Some(LinkFields {
        first,
        second,
        cost,
        delay,
        mode,
        policy,
        add_frag,
        rings,
        express_from,
        largest,
    })
}

pub(crate) fn top_fields(table: &Table) -> Option<TopFields<'_>>
    ensures { option_map top_seen result ≡ top_of (table_view table.now) }
{
    if !has_only(table, &["express_from", "timing", "node", "link"]) {
        return None;
    }
    let express_from = natural_or(table, "express_from", 4)?;
    let timing = table_or_none(table, "timing")?;
    let nodes = tables_at(table, "node")?;
    let links = tables_at(table, "link")?;
    Some(TopFields {
        express_from,
        timing,
        nodes,
        links,
    })
}
