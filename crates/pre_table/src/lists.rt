ghost use Rattle.std.specs.Prelude.{◌≡◌, map, option_map, IfOk, Some, None, length, replicate};
ghost use Rattle.toml.specs.Data.{as_str};
ghost use Rattle.toml.specs.View.{view, table_view};
ghost use Rattle.pre_table.specs.Values.{as_whole, as_texts, as_two_texts, two_texts, as_numbers, each_read, read_or};

use crate::values::{as_items, as_whole, value_at};
use crate::{Unread, Whole};
use pre_base::{Items, Name};
use std::alloc::Global;
use toml::{Table, Value};

fn copied_text(alloc: Global, value: &Value) -> Result<Name, Unread>
    ensures read { IfOk result (λ name. as_str (view value.now) ≡ Some name) }
    ensures field { result ≡ Err Unread.Field → as_str (view value.now) ≡ None }
{
    match value.as_str() {
        None => Err(Unread::Field),
        Some(text) => Ok(Name::copied(alloc, text)?),
    }
}

fn copied_texts(alloc: Global, values: &[Value]) -> Result<Items<Name>, Unread>
    ensures read { IfOk result (λ names. each_read as_str (map view values.now) ≡ Some names) }
    ensures field { result ≡ Err Unread.Field → each_read as_str (map view values.now) ≡ None }
{
    let mut names = Items::new(alloc);
    for value in values {
        match copied_text(alloc, value) {
            Ok(name) => names.push(name)?,
            Err(fault) => return Err(fault),
        }
    }
    Ok(names)
}

/// Copies of the texts of the array at the key.
///
/// # Errors
///
/// `Field` exactly where there is something else, or nothing.
pub fn texts_at(alloc: Global, table: &Table, key: &str) -> Result<Items<Name>, Unread>
    ensures read { IfOk result (λ names. read_or as_texts None key.now (table_view table.now) ≡ Some names) }
    ensures field { result ≡ Err Unread.Field → read_or as_texts None key.now (table_view table.now) ≡ None }
{
    match value_at(table, key) {
        None => Err(Unread::Field),
        Some(value) => match as_items(value) {
            None => Err(Unread::Field),
            Some(values) => copied_texts(alloc, values),
        },
    }
}

fn two_texts(values: &[Value]) -> Option<(&str, &str)>
    ensures { option_map (λ p. (p.0.now, p.1.now)) result ≡ two_texts (map view values.now) }
{
    match values {
        [first, second] => {
            let first = first.as_str()?;
            let second = second.as_str()?;
            Some((first, second))
        }
        _ => None,
    }
}

/// The texts of the array of two at the key: None where there is something else, or nothing.
pub fn two_texts_at<'a>(table: &'a Table, key: &str) -> Option<(&'a str, &'a str)>
    ensures { option_map (λ p. (p.0.now, p.1.now)) result ≡ read_or as_two_texts None key.now (table_view table.now) }
{
    let value = value_at(table, key)?;
    let values = as_items(value)?;
    two_texts(values)
}

fn eight_numbers(values: &[Value]) -> Option<[Whole; 8]>
    requires { length values.now ≡ 8 }
    ensures { result ≡ each_read as_whole (map view values.now) }
{
    let mut numbers = [Whole::Natural(0); 8];
    for (place, value) in values.iter().enumerate() {
        numbers[place] = as_whole(value)?;
    }
    Some(numbers)
}

/// The numbers of the array of eight at the key, and eight times the default where there is nothing:
/// None where there is something else.
pub fn eight_numbers_or(table: &Table, key: &str, default: Whole) -> Option<[Whole; 8]>
    ensures { result ≡ read_or (as_numbers 8) (Some (replicate 8 default)) key.now (table_view table.now) }
{
    let Some(value) = value_at(table, key) else {
        return Some([default; 8]);
    };
    let values = as_items(value)?;
    if values.len() == 8 {
        eight_numbers(values)
    } else {
        None
    }
}
