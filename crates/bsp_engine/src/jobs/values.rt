//! The values that a document describes. They are of use only where the document has no fault.

ghost use Rattle.std.specs.Prelude.{◌≡◌, IfOk, map, codes};
ghost use Rattle.toml.specs.View.{view, table_view};
ghost use Rattle.bsp_engine.specs.Values.{edit_of, args_of, input_of, row_of};
ghost use Rattle.toml.specs.Data.{get_member};
ghost use Rattle.bsp_engine.specs.Tree.{elements_at};

use super::shapes::{ArrayOf, EditForm, Integer};
use crate::tree::{
    begins_with, elements, elements_at, integer_at, natural_of, number_at, value_at,
};
use bsp_incr::Edit;
use bsp_model::{Input, Memory, OutOfMemory, Seq, Words};
use std::alloc::Global;
use toml::{Table, Value};

/// How values of a document are read, each for what it describes.
pub trait Described {
    ghost use Rattle.toml.specs.Data.{Data};

    type Item: Drop;

    // What a value describes.
    ghost described: { Data → Self.Item };

    /// Reads what a value describes.
    fn read(alloc: Global, value: &Value) -> Result<Self::Item, OutOfMemory>
        ensures { IfOk result (λ x. x ≡ described (view value.now)) };
}

/// The words of a memory.
pub struct Row;

impl Described for Integer {
    ghost use Rattle.bsp_engine.specs.Values.{word_of};

    type Item = u64;

    ghost described = { word_of };

    fn read(_alloc: Global, value: &Value) -> Result<u64, OutOfMemory> {
        Ok(natural_of(value.as_integer()))
    }
}

impl Described for Row {
    ghost use Rattle.bsp_engine.specs.Values.{row_of};

    type Item = Memory;

    ghost described = { row_of };

    fn read(alloc: Global, value: &Value) -> Result<Memory, OutOfMemory> {
        let words = read_each::<Integer>(alloc, elements(value))?;
        Memory::from_words(alloc, words.as_slice())
    }
}

impl Described for EditForm {
    ghost use Rattle.bsp_engine.specs.Tree.{elements};
    ghost use Rattle.bsp_engine.specs.Values.{edit_of};

    type Item = Edit;

    ghost described = { λ d. edit_of (elements d) };

    fn read(_alloc: Global, value: &Value) -> Result<Edit, OutOfMemory> {
        Ok(edit_in(elements(value)))
    }
}

impl<T: Described> Described for ArrayOf<T> {
    ghost use Rattle.std.specs.Prelude.{map};
    ghost use Rattle.bsp_engine.specs.Tree.{elements};

    type Item = Seq<T::Item>;

    ghost described = { λ d. map T.described (elements d) };

    fn read(alloc: Global, value: &Value) -> Result<Seq<T::Item>, OutOfMemory> {
        read_each::<T>(alloc, elements(value))
    }
}

pub fn edit_in(values: &[Value]) -> Edit
    ensures { result ≡ edit_of (map view values.now) }
{
    if begins_with(values, "word") {
        Edit::Word {
            pid: number_at(values, 1),
            addr: number_at(values, 2),
            value: number_at(values, 3),
        }
    } else if begins_with(values, "arg") {
        Edit::Arg {
            pid: number_at(values, 1),
            index: number_at(values, 2),
            value: number_at(values, 3),
        }
    } else if begins_with(values, "limit") {
        Edit::Limit(number_at(values, 1))
    } else {
        Edit::Prices {
            g: number_at(values, 1),
            l: number_at(values, 2),
        }
    }
}

/// Reads what each of the values describes.
pub fn read_each<T: Described>(alloc: Global, values: &[Value]) -> Result<Seq<T::Item>, OutOfMemory>
    ensures { IfOk result (λ all. all ≡ map T.described (map view values.now)) }
{
    let mut all = Vec::new(alloc);
    for value in values {
        all.push(T::read(alloc, value)?)?;
    }
    Ok(Seq::from_vec(all))
}

/// The arguments of a process without any, whatever its memory is.
struct NoWords;

impl Described for NoWords {
    ghost use Rattle.std.specs.Prelude.{[]};

    type Item = Words;

    ghost described = { λ _. [] };

    fn read(alloc: Global, _value: &Value) -> Result<Words, OutOfMemory> {
        Ok(Seq::new(alloc))
    }
}

#[tactic(auto, using(crate::proofs::Trees::no_words))]
fn arguments_at(alloc: Global, table: &Table) -> Result<Seq<Words>, OutOfMemory>
    ensures { IfOk result (λ a. a ≡ args_of (get_member (codes "args") (table_view table.now)) (map row_of
        (elements_at (codes "memory") (table_view table.now)))) }
{
    match value_at(table, "args") {
        Some(value) => read_each::<ArrayOf<Integer>>(alloc, elements(value)),
        None => read_each::<NoWords>(alloc, elements_at(table, "memory")),
    }
}

pub fn read_input(alloc: Global, table: &Table) -> Result<Input, OutOfMemory>
    ensures { IfOk result (λ i. i ≡ input_of (table_view table.now)) }
{
    Ok(Input {
        mems: read_each::<Row>(alloc, elements_at(table, "memory"))?,
        args: arguments_at(alloc, table)?,
        limit: natural_of(integer_at(table, "limit")),
        g: natural_of(integer_at(table, "g")),
        l: natural_of(integer_at(table, "l")),
    })
}
