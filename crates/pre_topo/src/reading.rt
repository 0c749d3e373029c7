ghost use Rattle.std.specs.Prelude.{◌≡◌};
ghost use Rattle.toml.specs.View.{table_view};
ghost use Rattle.pre_topo.specs.NetworkOf.{ReadsAs, network_of, of_rows, of_raw};
ghost use Rattle.pre_topo.specs.Raw.{raw_of};

use crate::building::{arcs_made, nodes_made, timing_made};
use crate::ranges::rows_fault;
use crate::raw::RawNetwork;
use crate::rows::raw_network;
use crate::sums::sums_fault;
use crate::{Network, TopoFault};
use pre_table::{DocumentFault, read_document};
use std::alloc::Global;
use toml::Table;

/// The network of a file in TOML 1.1, in which each key has its kind, range and default.
///
/// # Errors
///
/// The first fault by its rule, and of that rule the first by its row: the whole file, the timing, the nodes,
/// the links. `Memory` comes where there isn't enough memory.
pub fn read_network(alloc: Global, text: &[u8]) -> Result<Network, TopoFault>
    ensures { ReadsAs result (network_of text.now) }
{
    match read_document(alloc, text) {
        Ok(table) => network_in(alloc, &table),
        Err(DocumentFault::Toml) => Err(TopoFault::Toml),
        Err(DocumentFault::Memory) => Err(TopoFault::Memory),
    }
}

fn network_in(alloc: Global, table: &Table) -> Result<Network, TopoFault>
    ensures { ReadsAs result (of_rows (raw_of (table_view table.now))) }
{
    match raw_network(alloc, table) {
        Ok(raw) => network_made(alloc, &raw),
        Err(fault) => Err(fault),
    }
}

/// The network of raw rows, or their first fault.
fn network_made(alloc: Global, raw: &RawNetwork) -> Result<Network, TopoFault>
    ensures { ReadsAs result (of_raw raw.now) }
{
    if let Some(fault) = rows_fault(alloc, raw)? {
        return Err(fault);
    }
    let (raw_nodes, raw_links) = (raw.nodes.as_slice(), raw.links.as_slice());
    let nodes = nodes_made(alloc, raw_nodes)?;
    let arcs = arcs_made(alloc, raw.express_from, raw_nodes, raw_links)?;
    if let Some(fault) = sums_fault(nodes.as_slice(), arcs.as_slice()) {
        return Err(fault);
    }
    Ok(Network {
        express_from: raw.express_from.natural() as u8,
        timing: timing_made(&raw.timing),
        nodes,
        arcs,
    })
}
