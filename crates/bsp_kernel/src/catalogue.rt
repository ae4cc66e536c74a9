//! The catalogue whose documents give their program as a kernel.

ghost use Rattle.std.specs.Prelude.{◌≡◌, codes};
ghost use Rattle.std.specs.List.{list_any};
ghost use Rattle.toml.specs.Data.{get_member};
ghost use Rattle.toml.specs.View.{table_view};
ghost use Rattle.bsp_engine.specs.Tree.{elements_at, is_negative};
ghost use Rattle.bsp_kernel.specs.Catalogue.{budget_of, has_right_budget, has_right_code, has_right_constants, is_negative_in};

use crate::misfits::tell_code;
use crate::operands::filled;
use crate::shapes::{has_negative_number, is_code, template_in};
use bsp_engine::tree::{elements, elements_at, has, integer_at, is_negative, natural_of, value_at};
use bsp_engine::{
    ArrayOf, Catalogue, Described, NotNegative, Path, Remark, Shape, all_fit, fits, read_each,
};
use bsp_kernels::{Instruction, Kernel};
use bsp_model::OutOfMemory;
use std::alloc::Global;
use toml::{Table, Value};

/// How many instructions a turn may follow where the document does not say.
const BUDGET: u64 = 10_000_000;

/// How many instructions of a turn are followed to find at which words it looks.
const LOOKING_BUDGET: u64 = 4_000;

/// The programs of this tool: the kernel at the key `kernel` of a document, with its `constants` and its `budget`.
pub struct Kernels;

/// An instruction: an array of its name and its operands.
struct InstructionForm;

impl Described for InstructionForm {
    ghost use Rattle.bsp_kernel.specs.Catalogue.{instruction_of};

    type Item = Instruction;

    ghost described = { instruction_of };

    fn read(_alloc: Global, value: &Value) -> Result<Instruction, OutOfMemory> {
        let values = elements(value);
        Ok(match template_in(values) {
            Some(template) => filled(template, values),
            None => Instruction::Sync,
        })
    }
}

/// An integer.
struct ConstantForm;

impl Shape for ConstantForm {
    ghost use Rattle.bsp_engine.specs.Keys.{is_integer};

    ghost fits = { is_integer };

    fn misfit(value: &Value) -> Option<Path> {
        Path::whole_unless(value.is_integer())
    }
}

impl Described for ConstantForm {
    ghost use Rattle.bsp_engine.specs.Values.{word_of};

    type Item = u64;

    ghost described = { word_of };

    fn read(_alloc: Global, value: &Value) -> Result<u64, OutOfMemory> {
        Ok(natural_of(value.as_integer()))
    }
}

fn has_right_code(document: &Table) -> bool
    ensures { result ≡ has_right_code (table_view document.now) }
{
    match value_at(document, "kernel") {
        Some(value) => is_code(value),
        None => true,
    }
}

fn has_right_constants(document: &Table) -> bool
    ensures { result ≡ has_right_constants (table_view document.now) }
{
    match value_at(document, "constants") {
        Some(value) => fits::<ArrayOf<ConstantForm>>(value),
        None => true,
    }
}

fn has_right_budget(document: &Table) -> bool
    ensures { result ≡ has_right_budget (table_view document.now) }
{
    match value_at(document, "budget") {
        Some(value) => value.is_integer(),
        None => true,
    }
}

fn is_any_constant_negative(document: &Table) -> bool
    ensures { result ≡ list_any is_negative (elements_at (codes "constants") (table_view document.now)) }
{
    !all_fit::<NotNegative>(elements_at(document, "constants"))
}

fn is_budget_negative(document: &Table) -> bool
    ensures { result ≡ is_negative_in (get_member (codes "budget") (table_view document.now)) }
{
    match value_at(document, "budget") {
        Some(value) => is_negative(value),
        None => false,
    }
}

impl Catalogue for Kernels {
    ghost use Rattle.bsp_kernel.specs.Catalogue.{kernel_meaning, kernel_meaning-keys_apart, kernel_meaning-reads_own_keys};

    type Program = Kernel;

    ghost meaning = { kernel_meaning };

    ghost reads_own_keys = { kernel_meaning-reads_own_keys };

    ghost keys_apart = { kernel_meaning-keys_apart };

    fn is_key(key: &str) -> bool {
        key == "kernel" || key == "constants" || key == "budget"
    }

    fn key_at_fault(document: &Table) -> &'static str {
        if !has_right_code(document) {
            return "kernel";
        }
        if !has_right_constants(document) {
            return "constants";
        }
        if !has_right_budget(document) {
            return "budget";
        }
        if has_negative_number(elements_at(document, "kernel")) {
            return "kernel";
        }
        if is_any_constant_negative(document) {
            return "constants";
        }
        if is_budget_negative(document) {
            "budget"
        } else {
            "kernel"
        }
    }

    fn tell_misfit(document: &Table, remark: &mut Remark) {
        match Self::key_at_fault(document) {
            "constants" => remark.add(": not an array of integers"),
            "budget" => remark.add(": not an integer"),
            _ => {
                if let Some(value) = value_at(document, "kernel") {
                    tell_code(remark, value);
                }
            }
        }
    }

    fn has_required_keys(document: &Table) -> bool {
        has(document, "kernel")
    }

    fn has_right_shapes(document: &Table) -> bool {
        has_right_code(document) && has_right_constants(document) && has_right_budget(document)
    }

    fn names_program(_document: &Table) -> bool {
        true
    }

    fn has_negative_word(document: &Table) -> bool {
        has_negative_number(elements_at(document, "kernel"))
            || is_any_constant_negative(document)
            || is_budget_negative(document)
    }

    fn program(alloc: Global, document: &Table) -> Result<Kernel, OutOfMemory> {
        Ok(Kernel {
            code: read_each::<InstructionForm>(alloc, elements_at(document, "kernel"))?,
            constants: read_each::<ConstantForm>(alloc, elements_at(document, "constants"))?,
            budget: budget_of(integer_at(document, "budget")),
            looking_budget: LOOKING_BUDGET,
        })
    }
}

/// How many instructions a turn may follow.
fn budget_of(given: Option<i64>) -> u64
    ensures { result ≡ budget_of given }
{
    match given {
        Some(budget) => natural_of(Some(budget)),
        None => BUDGET,
    }
}
