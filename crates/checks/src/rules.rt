// The checks before any work: rules 1 to 9 and 15 of crate calls, specs/Refusals.antt, in their order; 14 is in crate variance, 17 in crate convert, 20 in crate strike. Sizes are multiplied only after the rules that bound them.
ghost use Rattle.std.specs.Prelude.{◌≡◌, ◌∷◌, [], ◌≤◌, ◌<◌, T, length};
ghost use Rattle.binary64.specs.Kinds.{zero64};
ghost use Rattle.shape.specs.Bounds.{max_order};
ghost use Rattle.shape.specs.Places.{triangle};
ghost use Rattle.shape.specs.Layouts.{Entry};
ghost use Rattle.calls.specs.Triangles.{place_of};
ghost use Rattle.calls.specs.Refusals.{refusal, by_blocks, needed_work, first_refusal, rule1, rule2, rule15, rule3, rule4, rule5, rule6, finite_rule, rule9};
ghost use Rattle.calls.specs.Outcomes.{verdict_of_refusal, verdict_of};
ghost use Rattle.checks.specs.Values.{finite_code};
ghost use Rattle.calls.specs.Calls.{rearranger_checks, factor_checks, solver_checks};

use crate::all_finite;
use calls::{Call, Layout, Refusal};
use shape::Shape;

// The values that rules 7 and 8 look at.
#[derive(Clone, Copy)]
pub enum Values {
    Matrix,
    Rhs,
}

impl Values {
    fn refusal(self, position: usize) -> Refusal
        ensures { verdict_of_refusal result ≡ refusal (finite_code self) position zero64 }
    {
        match self {
            Values::Matrix => Refusal::MatrixValue(position),
            Values::Rhs => Refusal::RhsValue(position),
        }
    }
}

fn by_blocks(call: Call) -> bool
    ensures { result ≡ by_blocks call }
{
    match call {
        Call::Rearranger(_, _) => true,
        Call::Factor(layout) | Call::Solver(layout) | Call::Variance(layout) => {
            layout == Layout::Blocked
        }
        Call::Converter | Call::Strike => false,
    }
}

fn needed_work(call: Call, shape: Shape) -> usize
    requires { shape.order ≤ max_order }
    ensures { result ≡ needed_work call shape.order shape.block }
{
    match call {
        Call::Rearranger(_, _) | Call::Factor(Layout::Blocked) => shape.block_work(),
        Call::Factor(Layout::Packed) | Call::Solver(_) | Call::Variance(_) => shape.order,
        Call::Converter | Call::Strike => 0,
    }
}

// Rules 1, 2, 15, 3 and 4, on the shape and the lengths of the matrix and work memory.
pub fn check_sizes(call: Call, shape: Shape, matrix: usize, work: usize) -> Result<(), Refusal>
    ensures { verdict_of result ≡ first_refusal (rule1 shape.order ∷ rule2 call shape.block ∷ rule15 call shape.state ∷ rule3 shape.order matrix ∷ rule4 call shape.order shape.block work ∷ []) }
{
    if !shape.order_in_bounds() {
        return Err(Refusal::Order);
    }
    if by_blocks(call) & !shape.block_in_bounds() {
        return Err(Refusal::BlockLength);
    }
    if calls::next(call, shape.state).is_none() {
        return Err(Refusal::Unsuited);
    }
    if matrix != shape.triangle() {
        return Err(Refusal::MatrixLength);
    }
    if work < needed_work(call, shape) {
        return Err(Refusal::WorkLength);
    }
    Ok(())
}

// Rules 5 and 6, on the number of right-hand sides and the length of their memory.
fn check_rhs(shape: Shape, m: usize, rhs: usize) -> Result<(), Refusal>
    requires { shape.order ≤ max_order }
    ensures { verdict_of result ≡ first_refusal (rule5 m ∷ rule6 shape.order m rhs ∷ []) }
{
    if !Shape::rhs_in_bounds(m) {
        return Err(Refusal::RhsCount);
    }
    if rhs != shape.order * m {
        return Err(Refusal::RhsLength);
    }
    Ok(())
}

// Rules 7 and 8: the lowest position of a value that is not finite, looked for only where there is one.
pub fn check_finite(values: Values, memory: &[f64]) -> Result<(), Refusal>
    ensures { verdict_of result ≡ finite_rule (finite_code values) memory.now }
{
    if all_finite(memory) {
        return Ok(());
    }
    for (p, x) in memory.iter().enumerate() {
        if !binary64::is_finite(*x) {
            return Err(values.refusal(p));
        }
    }
    Ok(())
}

fn place_of(layout: Layout, shape: Shape, i: usize, j: usize) -> usize
    requires order_le_max_order { shape.order ≤ max_order }
    requires block_nonzero { T (by_blocks (Call.Solver layout)) → 0 < shape.block }
    requires entry { Entry shape.order i j }
    ensures { result ≡ place_of layout shape.order shape.block i j }
{
    match layout {
        Layout::Packed => shape.packed_place(i, j),
        Layout::Blocked => shape.blocked_place(i, j),
    }
}

// Rule 9: the lowest column from k on whose diagonal value is not greater than zero.
pub fn check_diagonal(layout: Layout, shape: Shape, k: usize, matrix: &[f64]) -> Result<(), Refusal>
    requires order_le_max_order { shape.order ≤ max_order }
    requires block_nonzero { T (by_blocks (Call.Solver layout)) → 0 < shape.block }
    requires k_le_order { k ≤ shape.order }
    requires matrix_len { length matrix.now ≡ triangle shape.order }
    ensures { verdict_of result ≡ rule9 (place_of layout shape.order shape.block) k shape.order matrix.now }
{
    for j in k..shape.order {
        let p = place_of(layout, shape, j, j);
        if !(matrix[p] > 0.0) {
            return Err(Refusal::Diagonal(j));
        }
    }
    Ok(())
}

pub fn check_rearranger(
    from: Layout,
    to: Layout,
    shape: Shape,
    matrix: usize,
    work: usize,
) -> Result<(), Refusal>
    ensures { verdict_of result ≡ rearranger_checks from to shape matrix work }
{
    check_sizes(Call::Rearranger(from, to), shape, matrix, work)
}

pub fn check_factor(
    layout: Layout,
    shape: Shape,
    matrix: &[f64],
    work: usize,
) -> Result<(), Refusal>
    ensures { verdict_of result ≡ factor_checks layout shape matrix.now work }
{
    check_sizes(Call::Factor(layout), shape, matrix.len(), work)?;
    check_finite(Values::Matrix, matrix)
}

pub fn check_solver(
    layout: Layout,
    shape: Shape,
    m: usize,
    matrix: &[f64],
    rhs: &[f64],
    work: usize,
) -> Result<(), Refusal>
    ensures { verdict_of result ≡ solver_checks layout shape m matrix.now rhs.now work }
{
    check_sizes(Call::Solver(layout), shape, matrix.len(), work)?;
    check_rhs(shape, m, rhs.len())?;
    check_finite(Values::Matrix, matrix)?;
    check_finite(Values::Rhs, rhs)?;
    check_diagonal(layout, shape, 0, matrix)
}
