//! For what a document is refused: its keys and the shapes of their values (J2 to J4), its sizes (J6), and its negative numbers (J7).

ghost use Rattle.std.specs.Prelude.{◌≡◌, IfErr, OnOk, None, Some, false, is_some, not, true, codes};
ghost use Rattle.toml.specs.View.{table_view, view};
ghost use Rattle.bsp_engine.specs.Keys.{has_known_keys, has_required_keys, has_right_shapes, is_known_key, key_fault};
ghost use Rattle.toml.specs.Data.{get_member};
ghost use Rattle.bsp_model.specs.declared.fault.InputFault.{InputFault};
ghost use Rattle.bsp_engine.specs.Sizes.{count_of_args, described_fault, is_between};
ghost use Rattle.bsp_engine.specs.Tree.{integer_at};
ghost use Rattle.bsp_engine.specs.Signs.{has_negative_edit, has_negative_word};
ghost use Rattle.bsp_engine.specs.Inside.Signs.{has_no_sign};

use super::shapes::{ArrayOf, Each, EditForm, Integer, Path, Shape, Wrong, check_shape, fits};
use crate::catalogue::Catalogue;
use crate::errors::JobFault;
use crate::tree::{elements, elements_at, has, integer_at, is_negative, value_at};
use bsp_model::InputFault;
use bsp_model::limits::{
    HIGHEST_PRICE, MOST_ARGUMENTS, MOST_MEMORY_WORDS, MOST_PROCESSES, MOST_SUPERSTEPS,
};
use toml::{Table, Value};

fn missing_key<C: Catalogue>(table: &Table) -> Option<&'static str>
    ensures { is_some result ≡ not (has_required_keys C.meaning (table_view table.now)) }
{
    if !C::has_required_keys(table) {
        Some(C::key_at_fault(table))
    } else if !has(table, "limit") {
        Some("limit")
    } else if !has(table, "g") {
        Some("g")
    } else if !has(table, "l") {
        Some("l")
    } else if !has(table, "memory") {
        Some("memory")
    } else {
        None
    }
}

fn check_shapes<C: Catalogue>(table: &Table) -> Result<(), Wrong<'static>>
    ensures ok { OnOk result (has_right_shapes C.meaning (table_view table.now) ≡ true) }
    ensures wrong { IfErr result (λ w. (has_right_shapes C.meaning (table_view table.now) ≡ false) × (w.fault
        ≡ JobFault.WrongType)) }
{
    let fault = JobFault::WrongType;
    if !C::has_right_shapes(table) {
        return Err(Wrong::at_key(fault, C::key_at_fault(table)));
    }
    check_shape::<Integer>(table, "limit", fault)?;
    check_shape::<Integer>(table, "g", fault)?;
    check_shape::<Integer>(table, "l", fault)?;
    check_shape::<ArrayOf<ArrayOf<Integer>>>(table, "memory", fault)?;
    check_shape::<ArrayOf<ArrayOf<Integer>>>(table, "args", fault)?;
    check_shape::<ArrayOf<ArrayOf<EditForm>>>(table, "batches", fault)
}

fn is_known_key<C: Catalogue>(key: &str) -> bool
    ensures { result ≡ is_known_key C.meaning key.now }
{
    C::is_key(key) || matches!(key, "limit" | "g" | "l" | "memory" | "args" | "batches")
}

/// The first key that nobody reads, by their order as texts.
fn unknown_key<C: Catalogue>(table: &Table) -> Option<&String>
    ensures { is_some result ≡ not (has_known_keys C.meaning (table_view table.now)) }
{
    table.keys().find(|key| !is_known_key::<C>(key.as_str()))
}

pub fn check_keys<C: Catalogue>(table: &Table) -> Result<(), Wrong<'_>>
    ensures ok { OnOk result (key_fault C.meaning (table_view table.now) ≡ None) }
    ensures wrong { IfErr result (λ w. key_fault C.meaning (table_view table.now) ≡ Some w.fault) }
{
    if let Some(key) = missing_key::<C>(table) {
        return Err(Wrong::at_key(JobFault::MissingKey, key));
    }
    check_shapes::<C>(table)?;
    match unknown_key::<C>(table) {
        Some(key) => Err(Wrong::at_key(JobFault::UnknownKey, key.as_str())),
        None => Ok(()),
    }
}

struct Short<const MOST: usize>;

impl<const MOST: usize> Shape for Short<MOST> {
    ghost use Rattle.bsp_engine.specs.Sizes.{is_short};

    ghost fits = { is_short MOST };

    fn misfit(value: &Value) -> Option<Path> {
        Path::whole_unless(elements(value).len() <= MOST)
    }
}

/// How many argument lists there are for so many memories.
pub fn count_of_args(table: &Table, memories: usize) -> usize
    ensures { result ≡ count_of_args (get_member (codes "args") (table_view table.now)) memories }
{
    match value_at(table, "args") {
        Some(value) => elements(value).len(),
        None => memories,
    }
}

fn is_between(low: u64, high: u64, integer: Option<i64>) -> bool
    ensures { result ≡ is_between low high integer }
{
    match integer {
        Some(n) if n >= 0 => low <= n as u64 && n as u64 <= high,
        _ => false,
    }
}

fn check_integer<'a>(
    table: &Table,
    key: &'a str,
    low: u64,
    high: u64,
    fault: InputFault,
) -> Result<(), Wrong<'a>>
    ensures ok { OnOk result (is_between low high (integer_at key.now (table_view table.now)) ≡ true) }
    ensures wrong { IfErr result (λ w. (is_between low high (integer_at key.now (table_view table.now)) ≡ false)
        × (w.fault ≡ JobFault.Input fault)) }
{
    if is_between(low, high, integer_at(table, key)) {
        return Ok(());
    }
    Err(Wrong::at_key(JobFault::Input(fault), key))
}

/// Refuses the first of I1 to I7 that the described input has. It takes no memory.
pub fn check_sizes(table: &Table) -> Result<(), Wrong<'static>>
    ensures ok { OnOk result (described_fault (table_view table.now) ≡ None) }
    ensures wrong { IfErr result (λ w. ((fault : InputFault) × (described_fault (table_view table.now) ≡ Some fault)
        × (w.fault ≡ JobFault.Input fault))) }
{
    let memories = elements_at(table, "memory").len();
    if memories == 0 {
        let fault = JobFault::Input(InputFault::NoProcess);
        return Err(Wrong::at_key(fault, "memory"));
    }
    if memories > MOST_PROCESSES {
        let fault = JobFault::Input(InputFault::TooMany);
        return Err(Wrong::at_key(fault, "memory"));
    }
    if count_of_args(table, memories) != memories {
        let fault = JobFault::Input(InputFault::LengthsDiffer);
        return Err(Wrong::at_key(fault, "args"));
    }
    let fault = JobFault::Input(InputFault::MemoryTooLong);
    check_shape::<Each<Short<MOST_MEMORY_WORDS>>>(table, "memory", fault)?;
    let fault = JobFault::Input(InputFault::ArgsTooLong);
    check_shape::<Each<Short<MOST_ARGUMENTS>>>(table, "args", fault)?;
    check_integer(table, "limit", 1, MOST_SUPERSTEPS, InputFault::BadLimit)?;
    check_integer(table, "g", 0, HIGHEST_PRICE, InputFault::BadPrice)?;
    check_integer(table, "l", 0, HIGHEST_PRICE, InputFault::BadPrice)
}

/// No negative integer.
pub struct NotNegative;

impl Shape for NotNegative {
    ghost use Rattle.std.specs.Prelude.{not};
    ghost use Rattle.bsp_engine.specs.Tree.{is_negative};

    ghost fits = { λ d. not (is_negative d) };

    fn misfit(value: &Value) -> Option<Path> {
        Path::whole_unless(!is_negative(value))
    }
}

/// Whether an element of an edit of the batch is negative.
pub fn has_negative_edit(value: &Value) -> bool
    ensures { result ≡ has_negative_edit (view value.now) }
{
    !fits::<Each<Each<NotNegative>>>(value)
}

fn check_common_signs(table: &Table) -> Result<(), Wrong<'static>>
    ensures ok { OnOk result (has_no_sign (table_view table.now) ≡ true) }
    ensures wrong { IfErr result (λ w. (has_no_sign (table_view table.now) ≡ false) × (w.fault ≡ JobFault.BadWord)) }
{
    let fault = JobFault::BadWord;
    check_shape::<Each<Each<NotNegative>>>(table, "memory", fault)?;
    check_shape::<Each<Each<NotNegative>>>(table, "args", fault)?;
    check_shape::<Each<Each<Each<NotNegative>>>>(table, "batches", fault)
}

pub fn check_signs<C: Catalogue>(table: &Table) -> Result<(), Wrong<'static>>
    ensures ok { OnOk result (has_negative_word C.meaning (table_view table.now) ≡ false) }
    ensures wrong { IfErr result (λ w. (has_negative_word C.meaning (table_view table.now) ≡ true) × (w.fault
        ≡ JobFault.BadWord)) }
{
    if C::has_negative_word(table) {
        let key = C::key_at_fault(table);
        return Err(Wrong::at_key(JobFault::BadWord, key));
    }
    check_common_signs(table)
}
