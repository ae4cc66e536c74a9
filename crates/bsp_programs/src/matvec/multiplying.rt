//! The multiplication of the own rows by the vector.

ghost use Rattle.std.specs.Prelude.{◌≡◌, ◌*◌, ◌≤◌, ◌<◌, ◌^◌, length, IfOk};
ghost use Rattle.bsp_step.specs.Calls.{Runs};
ghost use Rattle.bsp_programs.specs.MatVec.{matvec_multiplying, matvec_answering, product_of, inner_product};

use super::layout::Layout;
use bsp_model::limits::MOST_LINE_WORDS;
use bsp_model::{End, OutOfMemory, Words};
use bsp_step::{Ctx, Stop};
use std::alloc::Global;

/// Multiplies the own rows by the whole vector; stores and prints the product.
pub(super) fn multiply(alloc: Global, ctx: &mut Ctx<'_>, layout: Layout) -> Result<End, Stop>
    ensures { let plan = matvec_multiplying layout.nprocs layout.block ctx.old.memory
        in Runs ctx.old plan.acts plan.ending ctx.new result }
{
    let Some(matrix) = ctx.words_at(0, layout.block_start())? else {
        return Ok(End::Abort(1));
    };
    let Some(vector) = ctx.words_at(layout.vector_start(), layout.columns())? else {
        return Ok(End::Abort(1));
    };
    let product = product_of(alloc, layout, matrix.as_slice(), vector.as_slice())?;
    answer(ctx, layout, product.as_slice())
}

/// Stores the product, charges for its multiplications, and prints it.
fn answer(ctx: &mut Ctx<'_>, layout: Layout, product: &[u64]) -> Result<End, Stop>
    requires { length product.now ≤ MOST_LINE_WORDS }
    ensures { let plan = matvec_answering layout.nprocs layout.block product.now
        in Runs ctx.old plan.acts plan.ending ctx.new result }
{
    ctx.store_words(layout.product_start(), product)?;
    ctx.charge(layout.block_start())?;
    ctx.print(product)?;
    Ok(End::Halt)
}

fn product_of(
    alloc: Global,
    layout: Layout,
    matrix: &[u64],
    vector: &[u64],
) -> Result<Words, OutOfMemory>
    requires { length matrix.now ≡ layout.block * (layout.nprocs * layout.block) }
    ensures { IfOk result (λ words. words ≡ product_of layout.block
        (layout.nprocs * layout.block) matrix.now vector.now) }
{
    let columns = layout.columns() as usize;
    let mut product = Words::new(alloc);
    for i in 0..layout.block as usize {
        let start = i * columns;
        product.push(inner_product(&matrix[start..start + columns], vector))?;
    }
    Ok(product)
}

fn inner_product(row: &[u64], vector: &[u64]) -> u64
    ensures { result ≡ inner_product row.now vector.now }
{
    let mut sum: u64 = 0;
    for (a, b) in row.iter().zip(vector) {
        sum = sum.wrapping_add(a.wrapping_mul(*b));
    }
    sum
}
