ghost use Rattle.std.specs.Prelude.{◌≡◌, map, Some};
ghost use Rattle.toml.specs.View.{view, table_view};
ghost use Rattle.pre_base.specs.declared.numbers.FileRow.TheVariants.{Timing, Node, Link};
ghost use Rattle.pre_table.specs.Rows.{rows_of, rows_in};
ghost use Rattle.pre_topo.specs.Raw.{timing_of, node_of, link_of, raw_of};
ghost use Rattle.pre_topo.specs.Reads.{RawReads};
ghost use Rattle.std.specs.Option.{option_map_or};
ghost use Rattle.toml.specs.Data.{no_members};

use crate::TopoFault;
use crate::fields::{timing_fields, top_fields};
use crate::raw::{RawLink, RawNetwork, RawNode, RawTiming};
use pre_base::{FileRow, Items};
use pre_table::{RowFault, Whole, read_rows};
use std::alloc::Global;
use toml::{Table, Value};

fn default_timing() -> RawTiming
    ensures { Some result ≡ timing_of no_members }
{
    RawTiming {
        interval: Whole::Natural(30_000_000_000),
        ttl: Whole::Natural(120),
        unit: Whole::Natural(1_000_000_000),
        verify: Whole::Natural(10_000_000),
    }
}

fn timing_in(table: Option<&Table>) -> Option<RawTiming>
    ensures { result ≡ timing_of (option_map_or (λ t. table_view t.now) table.entry no_members) }
{
    match table {
        None => Some(default_timing()),
        Some(table) => timing_fields(table),
    }
}

fn nodes_in(alloc: Global, values: &[Value]) -> Result<Items<RawNode>, TopoFault>
    ensures { RawReads result (rows_in Node (rows_of node_of (map view values.now))) }
{
    match read_rows(alloc, values) {
        Ok(nodes) => Ok(nodes),
        Err(RowFault::Memory) => Err(TopoFault::Memory),
        Err(RowFault::Field(place)) => Err(TopoFault::Field {
            row: FileRow::Node(place),
        }),
    }
}

fn links_in(alloc: Global, values: &[Value]) -> Result<Items<RawLink>, TopoFault>
    ensures { RawReads result (rows_in Link (rows_of link_of (map view values.now))) }
{
    match read_rows(alloc, values) {
        Ok(links) => Ok(links),
        Err(RowFault::Memory) => Err(TopoFault::Memory),
        Err(RowFault::Field(place)) => Err(TopoFault::Field {
            row: FileRow::Link(place),
        }),
    }
}

/// The raw rows of the table, or the first row with a fault.
pub(crate) fn raw_network(alloc: Global, table: &Table) -> Result<RawNetwork, TopoFault>
    ensures { RawReads result (raw_of (table_view table.now)) }
{
    let Some(top) = top_fields(table) else {
        return Err(TopoFault::Field { row: FileRow::Top });
    };
    let Some(timing) = timing_in(top.timing) else {
        return Err(TopoFault::Field {
            row: FileRow::Timing,
        });
    };
    let nodes = match nodes_in(alloc, top.nodes) {
        Ok(nodes) => nodes,
        Err(fault) => return Err(fault),
    };
    let links = match links_in(alloc, top.links) {
        Ok(links) => links,
        Err(fault) => return Err(fault),
    };
    Ok(RawNetwork {
        express_from: top.express_from,
        timing,
        nodes,
        links,
    })
}
