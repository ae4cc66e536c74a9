//! The job of a document.
//!
//! A document is read in this order: its tree (`tree`, J1), the keys and the shapes of their values (`checks`, `shapes`; J2 to J4), whether its
//! keys say a program (J5), the sizes of the input (J6), and the signs of the numbers (J7). The first fault is answered with its place. Where
//! there is none, and only then, the values are made (the catalogue's program, `values`).

mod checks;
mod shapes;
mod values;

ghost use Rattle.std.specs.Prelude.{◌≡◌, IfOk, IfErr, IsSomeAnd, None, OnOk, Some, Ok, Err};
ghost use Rattle.toml.specs.View.{table_view};
ghost use Rattle.bsp_model.specs.Input.{input_fault};
ghost use Rattle.bsp_engine.specs.Document.{IsPrinted, own_members, without};
ghost use Rattle.bsp_engine.specs.Refusal.{IfFault};
ghost use Rattle.bsp_engine.specs.JobOf.{job_of_tree, job_of};
ghost use Rattle.bsp_engine.specs.Inside.Faultless.{IsFaultless};
ghost use Rattle.bsp_engine.specs.Tree.{tree_of};

use crate::catalogue::Catalogue;
use crate::errors::{JobError, JobFault};
use crate::tree::{elements_at, read_tree};
use bsp_incr::Batch;
use bsp_model::{Input, OutOfMemory, Seq};
use checks::{check_keys, check_signs, check_sizes};
pub use checks::{NotNegative, count_of_args, has_negative_edit};
pub use shapes::{ArrayOf, Each, EditForm, Integer, Path, Shape, Wrong, all_fit, fits};
use std::alloc::{AllocError, Global};
use toml::Table;
use values::read_input;
pub use values::{Described, edit_in, read_each};

/// A program, its input, over which a run may start, and batches of edits.
#[derive(Drop)]
pub struct Job<P> {
    pub program: P,
    /// The input, which has none of the faults I1 to I7.
    pub input: Input,
    /// The batches of edits, in their order. What they name need not be there.
    pub batches: Seq<Batch>,
}

pub fn check<C: Catalogue>(table: &Table) -> Result<(), Wrong<'_>>
    ensures ok { OnOk result (IsFaultless C.meaning (table_view table.now)) }
    ensures wrong { IfErr result (λ w. job_of_tree C.meaning (Some (table_view table.now)) ≡ Err w.fault) }
{
    check_keys::<C>(table)?;
    if !C::names_program(table) {
        let key = C::key_at_fault(table);
        return Err(Wrong::at_key(JobFault::UnknownProgram, key));
    }
    check_sizes(table)?;
    check_signs::<C>(table)
}

fn job_in<C: Catalogue>(alloc: Global, table: &Table) -> Result<Job<C::Program>, JobError>
    ensures ok { IfOk result (λ j. job_of_tree C.meaning (Some (table_view table.now)) ≡ Ok j) }
    ensures lawful { IfOk result (λ j. input_fault j.input ≡ None) }
    ensures fault { IfErr result (λ e. IfFault e (λ f. job_of_tree C.meaning (Some (table_view table.now)) ≡ Err f)) }
{
    check::<C>(table)?;
    let program = C::program(alloc, table)?;
    let Ok(input) = read_input(alloc, table) else {
        drop(program);
        return Err(JobError::OutOfMemory);
    };
    match read_each::<ArrayOf<EditForm>>(alloc, elements_at(table, "batches")) {
        Ok(batches) => Ok(Job {
            program,
            input,
            batches,
        }),
        Err(_) => {
            drop(program);
            drop(input);
            Err(JobError::OutOfMemory)
        }
    }
}

/// The job of a document, or the first of J1 to J7 that it has.
pub fn read_job<C: Catalogue>(alloc: Global, bytes: &[u8]) -> Result<Job<C::Program>, JobError>
    ensures ok { IfOk result (λ j. job_of C.meaning bytes.now ≡ Ok j) }
    ensures lawful { IfOk result (λ j. input_fault j.input ≡ None) }
    ensures fault { IfErr result (λ e. IfFault e (λ f. job_of C.meaning bytes.now ≡ Err f)) }
{
    let table = read_tree(alloc, bytes)?;
    job_in::<C>(alloc, &table)
}

/// The job of a document, and the text of the keys that are the catalogue's own; or the first of J1 to J7 that the document has.
pub fn read_job_and_keys<C: Catalogue>(
    alloc: Global,
    bytes: &[u8],
) -> Result<(Job<C::Program>, Vec<u8>), JobError>
    ensures ok { IfOk result (λ r. job_of C.meaning bytes.now ≡ Ok r.0) }
    ensures own { IfOk result (λ r. IsSomeAnd (tree_of bytes.now) (λ t. IsPrinted (own_members t) r.1.items)) }
    ensures lawful { IfOk result (λ r. input_fault r.0.input ≡ None) }
    ensures fault { IfErr result (λ e. IfFault e (λ f. job_of C.meaning bytes.now ≡ Err f)) }
{
    let table = read_tree(alloc, bytes)?;
    let job = job_in::<C>(alloc, &table)?;
    Ok((job, own_text(alloc, table)?))
}

fn take_out(table: &mut Table, key: &str)
    ensures { table_view table.new ≡ without key.now (table_view table.old) }
{
    table.remove(key);
}

fn take_common_out(table: &mut Table)
    ensures { table_view table.new ≡ own_members (table_view table.old) }
{
    take_out(table, "limit");
    take_out(table, "g");
    take_out(table, "l");
    take_out(table, "memory");
    take_out(table, "args");
    take_out(table, "batches");
}

/// The text of the keys that are the catalogue's own, made of the whole table of a document.
fn own_text(alloc: Global, mut table: Table) -> Result<Vec<u8>, OutOfMemory>
    ensures { IfOk result (λ own. IsPrinted (own_members (table_view table)) own.items) }
{
    take_common_out(&mut table);
    match toml::table_to_string(alloc, &table) {
        Ok(text) => Ok(text.into_bytes()),
        // What was read has no date that can't be printed: memory was refused.
        Err(_) => Err(AllocError),
    }
}
