// The solver's substitutions on the trailing triangle, whose rows and columns are k or later, for a right-hand side whose first value is 1 and the
// others +0.
ghost use Rattle.std.specs.Prelude.{◌≡◌, ◌-◌, ◌<◌, length};
ghost use Rattle.calls.specs.declared.Call.TheVariants.{Variance};
ghost use Rattle.calls.specs.Calls.{judged_result};
ghost use Rattle.calls.specs.Outcomes.{valued, answer_of};
ghost use Rattle.calls.specs.Variances as Variances;
ghost use Rattle.calls.specs.Variances.{variance_verdict, EvaluatedAs};
ghost use Rattle.solve.specs.Parts.{trailing_of};

use crate::rules::check_variance;
use calls::{Call, CallResult, Layout, Refusal, Success};
use shape::Shape;
use solve::Factor;

// The first value of the solution, where every y and x is finite.
fn evaluate(factor: &Factor, work: &mut [f64]) -> Result<f64, Refusal>
    requires first_lt_order { factor.now.first < factor.now.shape.order }
    requires work_len { length work.old ≡ factor.now.shape.order - factor.now.first }
    ensures { valued result ≡ variance_verdict (factor.now.shape.order - factor.now.first) (trailing_of factor.now) }
{
    work.fill(0.0);
    work[0] = 1.0;
    factor.substitute(0, work)?;
    Ok(work[0])
}

// The checks, and the variance where they pass, with all needed work memory cleared afterwards.
fn evaluate_checked(
    layout: Layout,
    shape: Shape,
    k: usize,
    matrix: &[f64],
    work: &mut [f64],
) -> Result<Success, Refusal>
    ensures { EvaluatedAs (Variances.variance layout shape k matrix.now work.old) (judged_result (Variance layout) shape (answer_of result)) work.new }
{
    check_variance(layout, shape, k, matrix, work.len())?;
    let factor = Factor {
        layout,
        shape,
        first: k,
        matrix,
    };
    let needed = &mut work[..shape.order];
    let outcome = evaluate(&factor, &mut needed[..shape.order - k]);
    needed.fill(0.0);
    Ok(Success {
        value: outcome?,
        exact: false,
    })
}

pub fn variance(
    layout: Layout,
    shape: Shape,
    k: usize,
    matrix: &[f64],
    work: &mut [f64],
) -> CallResult
    ensures { EvaluatedAs (Variances.variance layout shape k matrix.now work.old) result work.new }
{
    let outcome = evaluate_checked(layout, shape, k, matrix, work);
    calls::result(Call::Variance(layout), shape, outcome)
}
