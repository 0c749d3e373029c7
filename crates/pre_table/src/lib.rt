//! Tables of TOML, read by key and kind, and lists of them read row by row.
#![tactic(auto)]

mod documents;
mod keys;
mod lists;
mod rows;
mod text_sets;
mod values;

pub use documents::{DocumentFault, read_document};
pub use keys::has_only;
pub use lists::{eight_numbers_or, texts_at, two_texts_at};
pub use rows::{Row, RowFault, Unread, read_rows};
pub use text_sets::{PairSet, TextSet};
pub use values::{
    Whole, natural_or, number_or, number_or_none, table_or_none, tables_at, tables_or_none,
    text_at, text_or,
};
