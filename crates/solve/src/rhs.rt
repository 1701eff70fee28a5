// One right-hand side and all of them, on a factor in either layout; both substitutions on its trailing triangle too.
ghost use Rattle.std.specs.Prelude.{◌≡◌, ◌-◌, ◌*◌, ◌≤◌, ◌<◌, T, length};
ghost use Rattle.shape.specs.Bounds.{max_order};
ghost use Rattle.shape.specs.Places.{triangle};
ghost use Rattle.calls.specs.declared.Call.TheVariants.{Solver};
ghost use Rattle.calls.specs.Arithmetic as Arithmetic;
ghost use Rattle.calls.specs.Refusals.{by_blocks};
ghost use Rattle.calls.specs.Calls as Calls;
ghost use Rattle.calls.specs.Calls.{SolvedAs};
ghost use Rattle.calls.specs.Outcomes.{answer_of};

use crate::blocked::Blocked;
use crate::packed::Packed;
use calls::{Call, CallResult, Layout, Refusal, Success};
use checks::all_finite;
use shape::Shape;

// A factor that the checks have passed, from column `first` on: its trailing triangle. `first` may be the order where both are 0.
#[derive(Clone, Copy)]
pub struct Factor<'a> {
    pub layout: Layout,
    pub shape: Shape,
    pub first: usize,
    pub matrix: &'a [f64],
    pub ghost order: { shape.order ≤ max_order },
    pub ghost block: { T (by_blocks (Solver layout)) → 0 < shape.block },
    pub ghost before: { first ≤ shape.order },
    pub ghost inside: { 0 < first → first < shape.order },
    pub ghost values: { length matrix.now ≡ triangle shape.order },
}

impl Factor<'_> {
    ghost use Rattle.solve.specs.Parts.{trailing_of};
    ghost use Rattle.solve.specs.Solving.{Substituted, RhsSolved, AllSolved};

    fn forward(&self, work: &mut [f64])
        requires { length work.old ≡ self.now.shape.order - self.now.first }
        ensures { work.new ≡ Arithmetic.forward (self.now.shape.order - self.now.first) (trailing_of self.now) work.old }
    {
        let shape = self.shape;
        let matrix = self.matrix;
        match self.layout {
            Layout::Packed => Packed {
                order: shape.order,
                matrix,
            }
            .trailing(self.first)
            .forward(work),
            Layout::Blocked => Blocked { shape, matrix }.forward_from(self.first, work),
        }
    }

    fn backward(&self, work: &mut [f64])
        requires { length work.old ≡ self.now.shape.order - self.now.first }
        ensures { work.new ≡ Arithmetic.backward (self.now.shape.order - self.now.first) (trailing_of self.now) work.old }
    {
        let shape = self.shape;
        let matrix = self.matrix;
        match self.layout {
            Layout::Packed => Packed {
                order: shape.order,
                matrix,
            }
            .trailing(self.first)
            .backward(work),
            Layout::Blocked => Blocked { shape, matrix }.backward_from(self.first, work),
        }
    }

    // Both substitutions on right-hand side q, which is refused where a y or an x is not finite.
    pub fn substitute(&self, q: usize, work: &mut [f64]) -> Result<(), Refusal>
        requires { length work.old ≡ self.now.shape.order - self.now.first }
        ensures { Substituted (self.now.shape.order - self.now.first) (trailing_of self.now) q work.old result work.new }
    {
        self.forward(work);
        if !all_finite(work) {
            return Err(Refusal::Solution(q));
        }
        self.backward(work);
        if !all_finite(work) {
            return Err(Refusal::Solution(q));
        }
        Ok(())
    }

    // The solution takes the right-hand side's place where it passes. With `copy_from_slice`, which calls the C library, 32 right-hand sides ran at 0.86 of
    // the speed.
    fn solve_one(&self, q: usize, rhs: &mut [f64], work: &mut [f64]) -> Result<(), Refusal>
        requires whole { self.now.first ≡ 0 }
        requires rhs_len { length rhs.old ≡ self.now.shape.order }
        requires work_len { length work.old ≡ self.now.shape.order }
        ensures { RhsSolved self.now.shape.order (trailing_of self.now) q rhs.old result rhs.new }
    {
        kernels::copy(rhs, work);
        self.substitute(q, work)?;
        kernels::copy(work, rhs);
        Ok(())
    }

    // In rising order, up to the first that is refused. The order may be 0, a length that `chunks_exact_mut` does not take.
    fn solve_all(&self, m: usize, rhs: &mut [f64], work: &mut [f64]) -> Result<(), Refusal>
        requires whole { self.now.first ≡ 0 }
        requires rhs_len { length rhs.old ≡ self.now.shape.order * m }
        requires work_len { length work.old ≡ self.now.shape.order }
        ensures { AllSolved self.now.shape.order m (trailing_of self.now) rhs.old result rhs.new }
    {
        let n = self.shape.order;
        for q in 0..m {
            let from = q * n;
            self.solve_one(q, &mut rhs[from..from + n], work)?;
        }
        Ok(())
    }
}

// The checks, and the right-hand sides where they pass, with the work memory cleared afterwards.
fn solve_checked(
    layout: Layout,
    shape: Shape,
    m: usize,
    matrix: &[f64],
    rhs: &mut [f64],
    work: &mut [f64],
) -> Result<Success, Refusal>
    ensures { SolvedAs (Calls.solve layout shape m matrix.now rhs.old work.old) (Calls.judged_result (Solver layout) shape (answer_of result)) rhs.new work.new }
{
    checks::check_solver(layout, shape, m, matrix, rhs, work.len())?;
    let factor = Factor {
        layout,
        shape,
        first: 0,
        matrix,
    };
    let needed = &mut work[..shape.order];
    let outcome = factor.solve_all(m, rhs, needed);
    needed.fill(0.0);
    outcome?;
    Ok(Success::PLAIN)
}

pub fn solve(
    layout: Layout,
    shape: Shape,
    m: usize,
    matrix: &[f64],
    rhs: &mut [f64],
    work: &mut [f64],
) -> CallResult
    ensures { SolvedAs (Calls.solve layout shape m matrix.now rhs.old work.old) result rhs.new work.new }
{
    let outcome = solve_checked(layout, shape, m, matrix, rhs, work);
    calls::result(Call::Solver(layout), shape, outcome)
}
