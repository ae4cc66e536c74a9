//! The shapes of a document's values, and where a value has another shape.

ghost use Rattle.std.specs.Prelude.{◌≡◌, IfErr, OnOk, false, is_some, map, not, true};
ghost use Rattle.std.specs.List.{list_all};
ghost use Rattle.toml.specs.Data.{get_member};
ghost use Rattle.toml.specs.View.{view, table_view};
ghost use Rattle.bsp_engine.specs.Keys.{is_form, passes};
ghost use Rattle.bsp_engine.specs.declared.errors.JobError.TheVariants.{Fault};

use crate::errors::{JobError, JobFault};
use crate::tree::{begins_with, elements, value_at};
use std::marker::PhantomData;
use toml::{Table, Value};

/// A shape of values.
pub trait Shape {
    ghost use Rattle.std.specs.Prelude.{Bool, is_some, not};
    ghost use Rattle.toml.specs.Data.{Data};
    ghost use Rattle.toml.specs.View.{view};

    // Whether a value has the shape.
    ghost fits: { Data → Bool };

    /// Where a value has another shape, if it has.
    fn misfit(value: &Value) -> Option<Path>
        ensures { is_some result ≡ not (fits (view value.now)) };
}

pub struct Integer;

pub struct EditForm;

/// An array, each of whose elements has a shape.
pub struct ArrayOf<T>(PhantomData<T>);

/// Any value, if each of its elements has a shape. Only an array has elements.
pub struct Each<T>(PhantomData<T>);

impl Shape for Integer {
    ghost use Rattle.bsp_engine.specs.Keys.{is_integer};

    ghost fits = { is_integer };

    fn misfit(value: &Value) -> Option<Path> {
        Path::whole_unless(value.is_integer())
    }
}

impl Shape for EditForm {
    ghost use Rattle.bsp_engine.specs.Keys.{is_edit};

    ghost fits = { is_edit };

    fn misfit(value: &Value) -> Option<Path> {
        let values = elements(value);
        Path::whole_unless(
            is_form(values, "word", 4)
                || is_form(values, "arg", 4)
                || is_form(values, "limit", 2)
                || is_form(values, "prices", 3),
        )
    }
}

impl<T: Shape> Shape for ArrayOf<T> {
    ghost use Rattle.bsp_engine.specs.Keys.{is_array_of};

    ghost fits = { is_array_of T.fits };

    fn misfit(value: &Value) -> Option<Path> {
        if !value.is_array() {
            return Path::whole_unless(false);
        }
        first_misfit::<T>(elements(value))
    }
}

impl<T: Shape> Shape for Each<T> {
    ghost use Rattle.std.specs.List.{list_all};
    ghost use Rattle.bsp_engine.specs.Tree.{elements};

    ghost fits = { λ d. list_all T.fits (elements d) };

    fn misfit(value: &Value) -> Option<Path> {
        first_misfit::<T>(elements(value))
    }
}

fn first_misfit<T: Shape>(values: &[Value]) -> Option<Path>
    ensures { is_some result ≡ not (list_all T.fits (map view values.now)) }
{
    for (at, value) in values.iter().enumerate() {
        if let Some(path) = T::misfit(value) {
            return Some(Path {
                outer: Some(at),
                inner: path.outer,
            });
        }
    }
    None
}

/// Whether each of the values has the shape.
pub fn all_fit<T: Shape>(values: &[Value]) -> bool
    ensures { result ≡ list_all T.fits (map view values.now) }
{
    first_misfit::<T>(values).is_none()
}

/// Whether the values are so many: a word, and then integers.
fn is_form(values: &[Value], word: &str, count: usize) -> bool
    ensures { result ≡ is_form word.now count (map view values.now) }
{
    begins_with(values, word) && values.len() == count && all_fit::<Integer>(&values[1..])
}

/// Refuses the value at a key with this fault, if there is one and it has another shape.
pub fn check_shape<'a, T: Shape>(
    table: &Table,
    key: &'a str,
    fault: JobFault,
) -> Result<(), Wrong<'a>>
    ensures ok { OnOk result (passes T.fits (get_member key.now (table_view table.now)) ≡ true) }
    ensures wrong { IfErr result (λ w. (passes T.fits (get_member key.now (table_view table.now)) ≡ false) × (w.fault
        ≡ fault)) }
{
    let Some(value) = value_at(table, key) else {
        return Ok(());
    };
    match T::misfit(value) {
        None => Ok(()),
        Some(path) => Err(Wrong { fault, key, path }),
    }
}

/// Whether the value has the shape.
pub fn fits<T: Shape>(value: &Value) -> bool
    ensures { result ≡ T.fits (view value.now) }
{
    T::misfit(value).is_none()
}

/// A place in a value: at which element of the array, and at which element of that.
#[derive(Clone, Copy)]
pub struct Path {
    pub(crate) outer: Option<usize>,
    pub(crate) inner: Option<usize>,
}

const WHOLE: Path = Path {
    outer: None,
    inner: None,
};

impl Path {
    /// The whole value, unless it fits.
    pub fn whole_unless(fits: bool) -> Option<Path>
        ensures { is_some result ≡ not fits }
    {
        if fits { None } else { Some(WHOLE) }
    }
}

/// The first fault of a document, and where it is: in the value at a key, or at the key itself.
#[derive(Clone, Copy)]
pub struct Wrong<'a> {
    pub fault: JobFault,
    pub key: &'a str,
    pub path: Path,
}

impl<'a> Wrong<'a> {
    pub fn at_key(fault: JobFault, key: &'a str) -> Wrong<'a>
        ensures { result.fault ≡ fault }
    {
        Wrong {
            fault,
            key,
            path: WHOLE,
        }
    }
}

impl From<Wrong<'_>> for JobError {
    ghost from_gives = { λ wrong e. e ≡ Fault wrong.fault };

    fn from(wrong: Wrong<'_>) -> JobError {
        JobError::Fault(wrong.fault)
    }
}
