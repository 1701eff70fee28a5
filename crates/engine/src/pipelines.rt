// Document 01's two roads, and one function that runs both on memories of their own. The three memories are parameters, as in the calls: with a struct of
// three `&mut`s each contract would also have to say that it still holds the same three. A result's code is 0 where the call succeeded, as C sees it.
ghost use Rattle.std.specs.Prelude.{◌≡◌};
ghost use Rattle.calls.specs.Pipelines.{plain_pipeline, blocked_pipeline};
ghost use Rattle.engine.specs.Promises.{ended, memory, BothRan};

use calls::{CallResult, Layout};
use shape::Shape;

// The results of a pipeline's factor and solver, and the shape at its end. Where a call before the solver is refused, its result stands for those after it.
#[derive(Clone, Copy)]
pub struct PipelineResult {
    pub factor: CallResult,
    pub solver: CallResult,
    pub shape: Shape,
}

// The results of both pipelines.
#[derive(Clone, Copy)]
pub struct BothResults {
    pub plain: PipelineResult,
    pub blocked: PipelineResult,
}

impl PipelineResult {
    // A pipeline that a refused call ends.
    fn ended_by(refused: CallResult) -> Self
        ensures { result ≡ record { factor = refused; solver = refused; shape = refused.shape } }
    {
        PipelineResult {
            factor: refused,
            solver: refused,
            shape: refused.shape,
        }
    }
}

// Plain factor, then plain solver. Each call gets the shape that the one before it returned.
pub fn plain_pipeline(
    order: usize,
    block: usize,
    m: usize,
    matrix: &mut [f64],
    rhs: &mut [f64],
    work: &mut [f64],
) -> PipelineResult
    ensures { ended result matrix.new rhs.new work.new ≡ plain_pipeline order block m matrix.old rhs.old work.old }
{
    let factor = plain_factor::factor(Shape::new(order, block), matrix, work);
    if factor.code != 0 {
        return PipelineResult::ended_by(factor);
    }
    let solver = solve::solve(Layout::Packed, factor.shape, m, matrix, rhs, work);
    PipelineResult {
        factor,
        solver,
        shape: solver.shape,
    }
}

// Packed to blocked, blocked factor, blocked solver, and back to packed, after a refused solver too.
pub fn blocked_pipeline(
    order: usize,
    block: usize,
    m: usize,
    matrix: &mut [f64],
    rhs: &mut [f64],
    work: &mut [f64],
) -> PipelineResult
    ensures { ended result matrix.new rhs.new work.new ≡ blocked_pipeline order block m matrix.old rhs.old work.old }
{
    let there = rearrange::rearrange(Layout::Blocked, Shape::new(order, block), matrix, work);
    if there.code != 0 {
        return PipelineResult::ended_by(there);
    }
    let factor = blocked_factor::factor(there.shape, matrix, work);
    if factor.code != 0 {
        return PipelineResult::ended_by(factor);
    }
    let solver = solve::solve(Layout::Blocked, factor.shape, m, matrix, rhs, work);
    let back = rearrange::rearrange(Layout::Packed, solver.shape, matrix, work);
    PipelineResult {
        factor,
        solver,
        shape: back.shape,
    }
}

// Demand 3 of the code: started from the same matrix and right-hand sides, the pipelines agree.
pub fn run_both(
    order: usize,
    block: usize,
    m: usize,
    matrix: &mut [f64],
    rhs: &mut [f64],
    work: &mut [f64],
    matrix2: &mut [f64],
    rhs2: &mut [f64],
    work2: &mut [f64],
) -> BothResults
    ensures { BothRan order block m (memory matrix.old rhs.old work.old) (memory matrix2.old rhs2.old work2.old) result (memory matrix.new rhs.new work.new) (memory matrix2.new rhs2.new work2.new) }
{
    let plain = plain_pipeline(order, block, m, matrix, rhs, work);
    let blocked = blocked_pipeline(order, block, m, matrix2, rhs2, work2);
    BothResults { plain, blocked }
}
