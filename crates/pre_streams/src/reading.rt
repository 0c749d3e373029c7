ghost use Rattle.std.specs.Prelude.{◌≡◌, IfOk};
ghost use Rattle.toml.specs.View.{table_view};
ghost use Rattle.pre_streams.specs.Raw.{raw_of};
ghost use Rattle.pre_streams.specs.Fits.{Fits};
ghost use Rattle.pre_streams.specs.StreamsOf.{ReadsAs, streams_of, of_rows, of_raw};

use crate::building::rows_made;
use crate::checks::raw_fault;
use crate::raw::RawStreams;
use crate::raw_rows::raw_streams;
use crate::{StreamFault, Streams};
use pre_table::{DocumentFault, read_document};
use pre_topo::Network;
use std::alloc::Global;
use toml::Table;

/// The streams and flows of a file in TOML 1.1, for this network.
///
/// # Errors
///
/// The first fault by its rule, and of that rule the first by its row: streams first, then flows. `Memory` comes
/// where there isn't enough memory.
pub fn read_streams(alloc: Global, text: &[u8], net: &Network) -> Result<Streams, StreamFault>
    ensures exact { ReadsAs result (streams_of net.now text.now) }
    ensures fits { IfOk result (Fits net.now) }
{
    match read_document(alloc, text) {
        Ok(table) => streams_in(alloc, &table, net),
        Err(DocumentFault::Toml) => Err(StreamFault::Toml),
        Err(DocumentFault::Memory) => Err(StreamFault::Memory),
    }
}

fn streams_in(alloc: Global, table: &Table, net: &Network) -> Result<Streams, StreamFault>
    ensures exact { ReadsAs result (of_rows net.now (raw_of (table_view table.now))) }
    ensures fits { IfOk result (Fits net.now) }
{
    match raw_streams(alloc, table) {
        Ok(raw) => streams_made(alloc, net, &raw),
        Err(fault) => Err(fault),
    }
}

/// The streams and flows of raw rows, or their first fault.
fn streams_made(alloc: Global, net: &Network, raw: &RawStreams) -> Result<Streams, StreamFault>
    ensures exact { ReadsAs result (of_raw net.now raw.now) }
    ensures fits { IfOk result (Fits net.now) }
{
    if let Some(fault) = raw_fault(alloc, net, raw)? {
        return Err(fault);
    }
    let rows = rows_made(alloc, net, raw)?;
    Ok(Streams { rows })
}
