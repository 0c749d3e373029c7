ghost use Rattle.std.specs.Prelude.{◌≡◌, [], map, option_map, Some, None};
ghost use Rattle.std.specs.List.{list_all};
ghost use Rattle.std.specs.Option.{option_map_or};
ghost use Rattle.toml.specs.Data.{get_member, no_members, as_str, as_table};
ghost use Rattle.toml.specs.View.{view, array_view, table_view};
ghost use Rattle.pre_table.specs.Values.{whole_of, as_whole, all_tables, as_items, as_tables, is_table, items_in, number_or, number_or_none, read_or};

use toml::value::Array;
use toml::{Table, Value};

/// A whole number of a file.
#[derive(Clone, Copy, Debug, PartialEq, Eq)]
pub enum Whole {
    /// The number that lies this far below -1.
    Negative(u64),
    Natural(u64),
}

impl Whole {
    ghost use Rattle.pre_table.specs.Values.{natural, same_whole, is_below, is_within};

    /// The number, and 0 for a negative one.
    pub fn natural(self) -> u64
        ensures { result ≡ natural self }
    {
        match self {
            Whole::Negative(_) => 0,
            Whole::Natural(number) => number,
        }
    }

    /// Whether it is the same number.
    pub fn is(self, other: Whole) -> bool
        ensures { result ≡ same_whole self other }
    {
        match (self, other) {
            (Whole::Natural(a), Whole::Natural(b)) => a == b,
            (Whole::Negative(a), Whole::Negative(b)) => a == b,
            _ => false,
        }
    }

    /// Whether the number is below a limit.
    pub fn is_below(self, limit: u64) -> bool
        ensures { result ≡ is_below limit self }
    {
        match self {
            Whole::Negative(_) => true,
            Whole::Natural(number) => number < limit,
        }
    }

    /// Whether the number lies in a range.
    pub fn is_within(self, low: u64, high: u64) -> bool
        ensures { result ≡ is_within low high self }
    {
        match self {
            Whole::Negative(_) => false,
            Whole::Natural(number) => low <= number && number <= high,
        }
    }
}

fn whole_of(number: i64) -> Whole
    ensures { result ≡ whole_of number }
{
    if number < 0 {
        Whole::Negative((-1 - number) as u64)
    } else {
        Whole::Natural(number as u64)
    }
}

pub(crate) fn value_at<'a>(table: &'a Table, key: &str) -> Option<&'a Value>
    ensures { option_map (λ v. view v.now) result ≡ get_member key.now (table_view table.now) }
{
    table.get(key)
}

pub(crate) fn as_whole(value: &Value) -> Option<Whole>
    ensures { result ≡ as_whole (view value.now) }
{
    let number = value.as_integer()?;
    Some(whole_of(number))
}

/// The number at the key: None where there is something else, or nothing and no default.
pub fn number_or(table: &Table, key: &str, default: Option<Whole>) -> Option<Whole>
    ensures { result ≡ read_or as_whole default key.now (table_view table.now) }
{
    match value_at(table, key) {
        None => default,
        Some(value) => as_whole(value),
    }
}

/// The same, with a default that isn't negative.
pub fn natural_or(table: &Table, key: &str, default: u64) -> Option<Whole>
    ensures { result ≡ number_or default key.now (table_view table.now) }
{
    number_or(table, key, Some(Whole::Natural(default)))
}

/// The number at the key, or that there is nothing: None where there is something else.
pub fn number_or_none(table: &Table, key: &str) -> Option<Option<Whole>>
    ensures { result ≡ number_or_none key.now (table_view table.now) }
{
    match value_at(table, key) {
        None => Some(None),
        Some(value) => {
            let number = as_whole(value)?;
            Some(Some(number))
        }
    }
}

/// The text at the key: None where there is something else, or nothing.
pub fn text_at<'a>(table: &'a Table, key: &str) -> Option<&'a str>
    ensures { option_map (λ t. t.now) result ≡ read_or as_str None key.now (table_view table.now) }
{
    match value_at(table, key) {
        None => None,
        Some(value) => value.as_str(),
    }
}

/// The text at the key, and the default where there is nothing: None where there is something else.
pub fn text_or<'a>(table: &'a Table, key: &str, default: &'a str) -> Option<&'a str>
    ensures { option_map (λ t. t.now) result ≡ read_or as_str (Some default.now) key.now (table_view table.now) }
{
    match value_at(table, key) {
        None => Some(default),
        Some(value) => value.as_str(),
    }
}

fn elements(array: &Array) -> &[Value]
    ensures { map view result.now ≡ items_in (array_view array.now) }
{
    array.as_slice()
}

pub(crate) fn as_items(value: &Value) -> Option<&[Value]>
    ensures { option_map (λ vs. map view vs.now) result ≡ as_items (view value.now) }
{
    let array = value.as_array()?;
    Some(elements(array))
}

fn are_tables(values: &[Value]) -> bool
    ensures { result ≡ list_all (λ v. is_table (view v)) values.now }
{
    values.iter().all(|value| value.is_table())
}

fn all_tables(values: &[Value]) -> Option<&[Value]>
    ensures { option_map (λ vs. map view vs.now) result ≡ all_tables (map view values.now) }
{
    if are_tables(values) {
        Some(values)
    } else {
        None
    }
}

fn as_tables(value: &Value) -> Option<&[Value]>
    ensures { option_map (λ vs. map view vs.now) result ≡ as_tables (view value.now) }
{
    let values = as_items(value)?;
    all_tables(values)
}

/// The elements of the array of tables at the key: None where there is something else, or nothing.
pub fn tables_at<'a>(table: &'a Table, key: &str) -> Option<&'a [Value]>
    ensures { option_map (λ vs. map view vs.now) result ≡ read_or as_tables None key.now (table_view table.now) }
{
    match value_at(table, key) {
        None => None,
        Some(value) => as_tables(value),
    }
}

/// The same, without elements where there is nothing.
pub fn tables_or_none<'a>(table: &'a Table, key: &str) -> Option<&'a [Value]>
    ensures { option_map (λ vs. map view vs.now) result ≡ read_or as_tables (Some []) key.now (table_view table.now) }
{
    match value_at(table, key) {
        None => Some(&[]),
        Some(value) => as_tables(value),
    }
}

/// The table at the key, or that there is nothing: None where there is something else.
pub fn table_or_none<'a>(table: &'a Table, key: &str) -> Option<Option<&'a Table>>
    ensures { option_map (λ o. option_map_or (λ t. table_view t.now) o no_members) result ≡ read_or as_table (Some no_members) key.now (table_view table.now) }
{
    match value_at(table, key) {
        None => Some(None),
        Some(value) => {
            let inner = value.as_table()?;
            Some(Some(inner))
        }
    }
}
