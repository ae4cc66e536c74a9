//! The tree of a document (J1), and what stands in it.

ghost use Rattle.std.specs.Prelude.{◌≡◌, IfOk, IfErr, Some, None, map, option_map};
ghost use Rattle.std.specs.Option.{option_copied};
ghost use Rattle.toml.specs.Data.{get_member};
ghost use Rattle.toml.specs.View.{view, table_view};
ghost use Rattle.bsp_engine.specs.Refusal.{IfFault};
ghost use Rattle.bsp_engine.specs.Tree.{tree_of, has, text_at, elements, elements_at, integer_at, begins_with, natural_of, number_at, is_negative};

use crate::errors::{JobError, JobFault};
use std::alloc::Global;
use toml::{Table, Value};

/// The tree of a document, or J1.
pub(crate) fn read_tree(alloc: Global, bytes: &[u8]) -> Result<Table, JobError>
    ensures ok { IfOk result (λ t. tree_of bytes.now ≡ Some (table_view t)) }
    ensures fault { IfErr result (λ e. IfFault e (λ f. (f ≡ JobFault.NotToml) × (tree_of bytes.now ≡ None))) }
{
    let Ok(text) = std::str::from_utf8(bytes) else {
        return Err(JobError::Fault(JobFault::NotToml));
    };
    match toml::table_from_str(alloc, text) {
        Ok(table) => Ok(table),
        Err(error) if error.is_memory() => Err(JobError::OutOfMemory),
        Err(_) => Err(JobError::Fault(JobFault::NotToml)),
    }
}

/// The value at a key of the top.
pub fn value_at<'a>(table: &'a Table, key: &str) -> Option<&'a Value>
    ensures { option_map (λ v. view v.now) result ≡ get_member key.now (table_view table.now) }
{
    table.get(key)
}

/// Whether a key stands at the top.
pub fn has(table: &Table, key: &str) -> bool
    ensures { result ≡ has key.now (table_view table.now) }
{
    value_at(table, key).is_some()
}

/// The text at a key of the top.
pub fn text_at<'a>(table: &'a Table, key: &str) -> Option<&'a str>
    ensures { option_copied result ≡ text_at key.now (table_view table.now) }
{
    value_at(table, key)?.as_str()
}

/// The integer at a key of the top.
pub fn integer_at(table: &Table, key: &str) -> Option<i64>
    ensures { result ≡ integer_at key.now (table_view table.now) }
{
    value_at(table, key)?.as_integer()
}

/// The elements of an array; of another value none.
pub fn elements(value: &Value) -> &[Value]
    ensures { map view result.now ≡ elements (view value.now) }
{
    match value.as_array() {
        Some(items) => items.as_slice(),
        None => &[],
    }
}

/// The elements of the array at a key of the top; none where no array is there.
pub fn elements_at<'a>(table: &'a Table, key: &str) -> &'a [Value]
    ensures { map view result.now ≡ elements_at key.now (table_view table.now) }
{
    match value_at(table, key) {
        Some(value) => elements(value),
        None => &[],
    }
}

/// Whether the first of the values is this word.
pub fn begins_with(values: &[Value], word: &str) -> bool
    ensures { result ≡ begins_with word.now (map view values.now) }
{
    let Some(first) = values.first() else {
        return false;
    };
    match first.as_str() {
        Some(text) => text == word,
        None => false,
    }
}

/// The integer as a word, where it is there and not negative; 0 stands for any other.
pub fn natural_of(integer: Option<i64>) -> u64
    ensures { result ≡ natural_of integer }
{
    match integer {
        Some(n) if n >= 0 => n as u64,
        _ => 0,
    }
}

/// The number at a place of an array, as `natural_of` has it.
pub fn number_at(values: &[Value], place: usize) -> u64
    ensures { result ≡ number_at place (map view values.now) }
{
    match values.get(place) {
        Some(value) => natural_of(value.as_integer()),
        None => 0,
    }
}

/// Whether the value is a negative integer.
pub fn is_negative(value: &Value) -> bool
    ensures { result ≡ is_negative (view value.now) }
{
    match value.as_integer() {
        Some(n) => n < 0,
        None => false,
    }
}
