ghost use Rattle.std.specs.Prelude.{◌≡◌, IfOk, Some, None, map, option_map};
ghost use Rattle.toml.specs.View.{view, table_view};
ghost use Rattle.pre_table.specs.declared.rows.Unread.{Unread};
ghost use Rattle.pre_streams.specs.Raw.{fields_of, stream_of, flow_of, top_of};
ghost use Rattle.pre_streams.specs.Seen.{top_seen};

use crate::raw::{RawCurve, RawFlow, RawStream};
use pre_base::Name;
use pre_table::{Row, Unread, has_only, number_or, tables_or_none, text_at, texts_at};
use std::alloc::Global;
use toml::{Table, Value};

fn fields(alloc: Global, table: &Table) -> Result<RawFlow, Unread>
    ensures read { IfOk result (λ flow. fields_of (table_view table.now) ≡ Some flow) }
    ensures field { result ≡ Err Unread.Field → fields_of (table_view table.now) ≡ None }
{
    let name = text_at(table, "name").ok_or(Unread::Field)?;
    let vid = number_or(table, "vid", None).ok_or(Unread::Field)?;
    let prio = number_or(table, "prio", None).ok_or(Unread::Field)?;
    let max = number_or(table, "max", None).ok_or(Unread::Field)?;
    let route = texts_at(alloc, table, "route")?;
    let name = Name::copied(alloc, name)?;
    Ok(RawFlow {
        name,
        vid,
        prio,
        route,
        max,
    })
}

impl Row for RawFlow {
    ghost use Rattle.pre_streams.specs.Raw.{flow_of};

    ghost reads = { flow_of };

    fn read(alloc: Global, table: &Table) -> Result<RawFlow, Unread> {
        if !has_only(table, &["name", "vid", "prio", "route", "max"]) {
            return Err(Unread::Field);
        }
        fields(alloc, table)
    }
}

impl Row for RawStream {
    ghost use Rattle.pre_streams.specs.Raw.{stream_of};

    ghost reads = { stream_of };

    fn read(alloc: Global, table: &Table) -> Result<RawStream, Unread> {
        if !has_only(
            table,
            &["name", "vid", "prio", "route", "max", "burst", "rate"],
        ) {
            return Err(Unread::Field);
        }
        let burst = number_or(table, "burst", None).ok_or(Unread::Field)?;
        let rate = number_or(table, "rate", None).ok_or(Unread::Field)?;
        let flow = fields(alloc, table)?;
        let curve = RawCurve { burst, rate };
        Ok(RawStream { flow, curve })
    }
}

/// The tables of streams and of flows.
#[derive(Clone, Copy)]
pub struct TopFields<'a> {
    pub streams: &'a [Value],
    pub flows: &'a [Value],
}

pub(crate) fn top_fields(table: &Table) -> Option<TopFields<'_>>
    ensures { option_map top_seen result ≡ top_of (table_view table.now) }
{
    if !has_only(table, &["stream", "flow"]) {
        return None;
    }
    let streams = tables_or_none(table, "stream")?;
    let flows = tables_or_none(table, "flow")?;
    Some(TopFields { streams, flows })
}
