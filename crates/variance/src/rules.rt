// The checks of a variance call, which look at the columns from k on alone: their entries are those whose row and column are both k or later.
ghost use Rattle.std.specs.Prelude.{◌≡◌, ◌≤◌, ◌<◌, T, length};
ghost use Rattle.shape.specs.Bounds.{max_order};
ghost use Rattle.shape.specs.Places.{triangle, blocked_place};
ghost use Rattle.calls.specs.Triangles.{place_of};
ghost use Rattle.calls.specs.Refusals.{by_blocks, rule7};
ghost use Rattle.calls.specs.Outcomes.{verdict_of};
ghost use Rattle.calls.specs.Variances.{columns_from, variance_checks};
ghost use Rattle.variance.specs.Parts.{finite_part};

use calls::{Call, Layout, Refusal, Verdict};
use checks::{Values, check_diagonal, check_finite, check_sizes};
use shape::Shape;

// Rule 7 on the values from `from` on and before `to`.
fn check_part(from: usize, to: usize, matrix: &[f64]) -> Result<(), Refusal>
    requires { (from ≤ to) × (to ≤ length matrix.now) }
    ensures { verdict_of result ≡ finite_part from to matrix.now }
{
    match check_finite(Values::Matrix, &matrix[from..to]) {
        Ok(()) => Ok(()),
        Err(refusal) => Err(Refusal::MatrixValue(from + Verdict::from(refusal).place)),
    }
}

// Rule 7 on the columns from k on in blocked order: what each row of the block column that holds k has of them, and then the block columns after it.
fn check_blocks_from(shape: Shape, k: usize, matrix: &[f64]) -> Result<(), Refusal>
    requires order_le_max_order { (shape.order ≤ max_order) × (0 < shape.block) × (k < shape.order) }
    requires matrix_len { length matrix.now ≡ triangle shape.order }
    ensures { verdict_of result ≡ rule7 (columns_from k (blocked_place shape.order shape.block) shape.order matrix.now) }
{
    let c = shape.block_of(k);
    let end = c + shape.block_width(c);
    let mut from = shape.blocked_place(k, k);
    for i in k..shape.order {
        let to = from + ((i + 1).min(end) - k);
        check_part(from, to, matrix)?;
        from = to + (k - c);
    }
    check_part(shape.block_start(end), matrix.len(), matrix)
}

// Rule 7 on the columns from k on. In packed order they are all that follows, and in blocked order too where k is the first of a block column, which begins at
// the same place as in packed order.
fn check_columns_from(layout: Layout, shape: Shape, k: usize, matrix: &[f64]) -> Result<(), Refusal>
    requires order_le_max_order { (shape.order ≤ max_order) × (k < shape.order) }
    requires block_nonzero { T (by_blocks (Call.Variance layout)) → 0 < shape.block }
    requires matrix_len { length matrix.now ≡ triangle shape.order }
    ensures { verdict_of result ≡ rule7 (columns_from k (place_of layout shape.order shape.block) shape.order matrix.now) }
{
    if layout == Layout::Blocked && shape.block_of(k) != k {
        return check_blocks_from(shape, k, matrix);
    }
    check_part(shape.block_start(k), matrix.len(), matrix)
}

pub fn check_variance(
    layout: Layout,
    shape: Shape,
    k: usize,
    matrix: &[f64],
    work: usize,
) -> Result<(), Refusal>
    ensures { verdict_of result ≡ variance_checks layout shape k matrix.now work }
{
    check_sizes(Call::Variance(layout), shape, matrix.len(), work)?;
    if k >= shape.order {
        return Err(Refusal::Unknown);
    }
    check_columns_from(layout, shape, k, matrix)?;
    check_diagonal(layout, shape, k, matrix)
}
