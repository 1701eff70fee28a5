// The engine: the eleven calls, which crate engine_c exports to other languages under the same names, and both pipelines with the promise that they agree.
// C has a name for each call, so each is a function here too, though those of two layouts or two directions run the same code.
#![tactic(auto)]

ghost use Rattle.calls.specs.declared.Layout.TheVariants.{Packed, Blocked};
ghost use Rattle.calls.specs.declared.Conversion.TheVariants.{PackedToRfp, RfpToPacked};
ghost use Rattle.calls.specs.Calls as Calls;
ghost use Rattle.calls.specs.Calls.{DoneAs, SolvedAs, packed_to_blocked, blocked_to_packed, factorize};
ghost use Rattle.calls.specs.Variances as Variances;
ghost use Rattle.calls.specs.Variances.{EvaluatedAs};
ghost use Rattle.calls.specs.Conversions as Conversions;
ghost use Rattle.calls.specs.Conversions.{ConvertedAs};
ghost use Rattle.calls.specs.Strikes as Strikes;
ghost use Rattle.calls.specs.Strikes.{StruckAs};

mod pipelines;

use calls::{CallResult, Conversion, Layout};
pub use pipelines::{BothResults, PipelineResult, blocked_pipeline, plain_pipeline, run_both};
use shape::Shape;

pub fn metsovary_packed_to_blocked(shape: Shape, matrix: &mut [f64], work: &mut [f64]) -> CallResult
    ensures { DoneAs (packed_to_blocked shape matrix.old work.old) result matrix.new work.new }
{
    rearrange::rearrange(Layout::Blocked, shape, matrix, work)
}

pub fn metsovary_blocked_to_packed(shape: Shape, matrix: &mut [f64], work: &mut [f64]) -> CallResult
    ensures { DoneAs (blocked_to_packed shape matrix.old work.old) result matrix.new work.new }
{
    rearrange::rearrange(Layout::Packed, shape, matrix, work)
}

pub fn metsovary_factor_plain(shape: Shape, matrix: &mut [f64], work: &mut [f64]) -> CallResult
    ensures { DoneAs (factorize Packed shape matrix.old work.old) result matrix.new work.new }
{
    plain_factor::factor(shape, matrix, work)
}

pub fn metsovary_factor_blocked(shape: Shape, matrix: &mut [f64], work: &mut [f64]) -> CallResult
    ensures { DoneAs (factorize Blocked shape matrix.old work.old) result matrix.new work.new }
{
    blocked_factor::factor(shape, matrix, work)
}

pub fn metsovary_solve_plain(
    shape: Shape,
    m: usize,
    matrix: &[f64],
    rhs: &mut [f64],
    work: &mut [f64],
) -> CallResult
    ensures { SolvedAs (Calls.solve Packed shape m matrix.now rhs.old work.old) result rhs.new work.new }
{
    solve::solve(Layout::Packed, shape, m, matrix, rhs, work)
}

pub fn metsovary_solve_blocked(
    shape: Shape,
    m: usize,
    matrix: &[f64],
    rhs: &mut [f64],
    work: &mut [f64],
) -> CallResult
    ensures { SolvedAs (Calls.solve Blocked shape m matrix.now rhs.old work.old) result rhs.new work.new }
{
    solve::solve(Layout::Blocked, shape, m, matrix, rhs, work)
}

pub fn metsovary_variance_plain(
    shape: Shape,
    k: usize,
    matrix: &[f64],
    work: &mut [f64],
) -> CallResult
    ensures { EvaluatedAs (Variances.variance Packed shape k matrix.now work.old) result work.new }
{
    variance::variance(Layout::Packed, shape, k, matrix, work)
}

pub fn metsovary_variance_blocked(
    shape: Shape,
    k: usize,
    matrix: &[f64],
    work: &mut [f64],
) -> CallResult
    ensures { EvaluatedAs (Variances.variance Blocked shape k matrix.now work.old) result work.new }
{
    variance::variance(Layout::Blocked, shape, k, matrix, work)
}

pub fn metsovary_packed_to_rfp(
    shape: Shape,
    form: usize,
    source: &[f64],
    target: &mut [f64],
) -> CallResult
    ensures { ConvertedAs (Conversions.convert PackedToRfp form shape source.now target.old) result target.new }
{
    convert::convert(Conversion::PackedToRfp, form, shape, source, target)
}

pub fn metsovary_rfp_to_packed(
    shape: Shape,
    form: usize,
    source: &[f64],
    target: &mut [f64],
) -> CallResult
    ensures { ConvertedAs (Conversions.convert RfpToPacked form shape source.now target.old) result target.new }
{
    convert::convert(Conversion::RfpToPacked, form, shape, source, target)
}

pub fn metsovary_strike(shape: Shape, list: &[usize], matrix: &mut [f64]) -> CallResult
    ensures { StruckAs (Strikes.strike shape list.now matrix.old) result matrix.new }
{
    strike::strike(shape, list, matrix)
}
