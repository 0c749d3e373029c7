ghost use Rattle.std.specs.Prelude.{◌≡◌, ℕ, map, IfOk, Some, None};
ghost use Rattle.toml.specs.View.{view};
ghost use Rattle.pre_table.specs.Rows.{rows_of, row_of};

use pre_base::Items;
use std::alloc::{AllocError, Global};
use toml::{Table, Value};

/// Why a row isn't read.
#[derive(Clone, Copy, Debug, PartialEq, Eq)]
pub enum Unread {
    /// A key is missing or isn't known, or what stands there is of another kind.
    Field,
    /// There isn't enough memory.
    Memory,
}

impl From<AllocError> for Unread {
    ghost use Rattle.std.specs.Prelude.{◌≡◌};
    ghost use Rattle.pre_table.specs.declared.rows.Unread.TheVariants.{Memory};

    ghost from_gives = { λ _ e. e ≡ Memory };

    fn from(_: AllocError) -> Unread {
        Unread::Memory
    }
}

/// A row of a file, which is made from a table.
pub trait Row {
    ghost use Rattle.std.specs.Prelude.{◌≡◌, Option, Some, None, IfOk};
    ghost use Rattle.toml.specs.Data.{Members};
    ghost use Rattle.toml.specs.View.{table_view};

    /// The row that a table is, where each key is known and of its kind.
    ghost reads: { Members → Option Self };

    /// Reads the row.
    fn read(alloc: Global, table: &Table) -> Result<Self, Unread>
        ensures read { IfOk result (λ row. reads (table_view table.now) ≡ Some row) }
        ensures field { result ≡ Err Unread.Field → reads (table_view table.now) ≡ None };
}

/// The first row that isn't read, or want of memory.
#[derive(Clone, Copy, Debug, PartialEq, Eq)]
pub enum RowFault {
    /// The row's place, counted from 0.
    Field(u64),
    /// There isn't enough memory.
    Memory,
}

/// Reads a row from each value, up to the first that isn't a table with the row's fields.
pub fn read_rows<R: Row + Drop>(alloc: Global, values: &[Value]) -> Result<Items<R>, RowFault>
    ensures read { IfOk result (λ rows. rows_of R.reads (map view values.now) ≡ Ok rows) }
    ensures field { (i : ℕ) → result ≡ Err (RowFault.Field i) → rows_of R.reads (map view values.now) ≡ Err i }
{
    let mut rows = Items::new(alloc);
    for (place, value) in values.iter().enumerate() {
        match read_row(alloc, value) {
            Ok(row) => {
                if rows.push(row).is_err() {
                    return Err(RowFault::Memory);
                }
            }
            Err(Unread::Field) => return Err(RowFault::Field(place as u64)),
            Err(Unread::Memory) => return Err(RowFault::Memory),
        }
    }
    Ok(rows)
}

fn read_row<R: Row>(alloc: Global, value: &Value) -> Result<R, Unread>
    ensures read { IfOk result (λ row. row_of R.reads (view value.now) ≡ Some row) }
    ensures field { result ≡ Err Unread.Field → row_of R.reads (view value.now) ≡ None }
{
    match value.as_table() {
        None => Err(Unread::Field),
        Some(table) => R::read(alloc, table),
    }
}
