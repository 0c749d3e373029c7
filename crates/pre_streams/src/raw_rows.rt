ghost use Rattle.std.specs.Prelude.{◌≡◌, ◌++◌, IfOk, map};
ghost use Rattle.toml.specs.View.{view, table_view};
ghost use Rattle.pre_base.specs.declared.numbers.FileRow.TheVariants.{Stream, Flow};
ghost use Rattle.pre_table.specs.Rows.{rows_of, rows_in};
ghost use Rattle.pre_streams.specs.Raw.{stream_of, flow_of, joined, raw_of};
ghost use Rattle.pre_streams.specs.Reads.{RawReads};

use crate::StreamFault;
use crate::fields::top_fields;
use crate::raw::{RawCurve, RawFlow, RawStream, RawStreams};
use pre_base::{FileRow, Items};
use pre_table::{RowFault, read_rows};
use std::alloc::{AllocError, Global};
use toml::{Table, Value};

fn streams_in(alloc: Global, values: &[Value]) -> Result<Items<RawStream>, StreamFault>
    ensures { RawReads result (rows_in Stream (rows_of stream_of (map view values.now))) }
{
    match read_rows(alloc, values) {
        Ok(streams) => Ok(streams),
        Err(RowFault::Memory) => Err(StreamFault::Memory),
        Err(RowFault::Field(place)) => Err(StreamFault::Field {
            row: FileRow::Stream(place),
        }),
    }
}

fn flows_in(alloc: Global, values: &[Value]) -> Result<Items<RawFlow>, StreamFault>
    ensures { RawReads result (rows_in Flow (rows_of flow_of (map view values.now))) }
{
    match read_rows(alloc, values) {
        Ok(flows) => Ok(flows),
        Err(RowFault::Memory) => Err(StreamFault::Memory),
        Err(RowFault::Field(place)) => Err(StreamFault::Field {
            row: FileRow::Flow(place),
        }),
    }
}

/// What the streams have in common with flows, and their curves.
fn parted(
    alloc: Global,
    streams: Items<RawStream>,
) -> Result<(Items<RawFlow>, Items<RawCurve>), AllocError>
    ensures { IfOk result (λ p. (p.0 ≡ map (λ s. s.flow) streams) × (p.1 ≡ map (λ s. s.curve) streams)) }
{
    let mut rows = Items::new(alloc);
    let mut curves = Items::new(alloc);
    for RawStream { flow, curve } in streams.into_vec() {
        rows.push(flow)?;
        curves.push(curve)?;
    }
    Ok((rows, curves))
}

/// The flows behind the streams.
fn appended(rows: Items<RawFlow>, flows: Items<RawFlow>) -> Result<Items<RawFlow>, AllocError>
    ensures { IfOk result (λ all. all ≡ rows ++ flows) }
{
    let mut rows = rows.into_vec();
    let mut flows = flows.into_vec();
    rows.append(&mut flows)?;
    Ok(Items::from_vec(rows))
}

fn joined(
    alloc: Global,
    streams: Items<RawStream>,
    flows: Items<RawFlow>,
) -> Result<RawStreams, AllocError>
    ensures { IfOk result (λ raw. raw ≡ joined streams flows) }
{
    let (rows, curves) = parted(alloc, streams)?;
    let rows = appended(rows, flows)?;
    Ok(RawStreams { rows, curves })
}

/// The raw rows of the table, or the first row with a fault.
pub(crate) fn raw_streams(alloc: Global, table: &Table) -> Result<RawStreams, StreamFault>
    ensures { RawReads result (raw_of (table_view table.now)) }
{
    let Some(top) = top_fields(table) else {
        return Err(StreamFault::Field { row: FileRow::Top });
    };
    let streams = match streams_in(alloc, top.streams) {
        Ok(streams) => streams,
        Err(fault) => return Err(fault),
    };
    let flows = match flows_in(alloc, top.flows) {
        Ok(flows) => flows,
        Err(fault) => return Err(fault),
    };
    match joined(alloc, streams, flows) {
        Ok(raw) => Ok(raw),
        Err(_) => Err(StreamFault::Memory),
    }
}
