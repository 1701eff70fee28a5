// The eleven calls of crate engine for other languages: each under its name, with its clauses.
#![tactic(auto)]

ghost use Rattle.calls.specs.declared.Layout.TheVariants.{Packed, Blocked};
ghost use Rattle.calls.specs.declared.Conversion.TheVariants.{PackedToRfp, RfpToPacked};
ghost use Rattle.calls.specs.Calls as Calls;
ghost use Rattle.calls.specs.Calls.{DoneAs, SolvedAs, packed_to_blocked, blocked_to_packed, factorize};
ghost use Rattle.calls.specs.Variances as Variances;
ghost use Rattle.calls.specs.Variances.{EvaluatedAs};
ghost use Rattle.calls.specs.Conversions as Conversions;
ghost use Rattle.calls.specs.Conversions.{ConvertedAs};
ghost use Rattle.calls.specs.Strikes as Strikes;
ghost use Rattle.calls.specs.Strikes.{StruckAs};

use calls::CallResult;
use shape::Shape;

#[unsafe(no_mangle)]
pub extern "C" fn metsovary_packed_to_blocked(
    shape: Shape,
    matrix: &mut [f64],
    work: &mut [f64],
) -> CallResult
    ensures { DoneAs (packed_to_blocked shape matrix.old work.old) result matrix.new work.new }
{
    engine::metsovary_packed_to_blocked(shape, matrix, work)
}

#[unsafe(no_mangle)]
pub extern "C" fn metsovary_blocked_to_packed(
    shape: Shape,
    matrix: &mut [f64],
    work: &mut [f64],
) -> CallResult
    ensures { DoneAs (blocked_to_packed shape matrix.old work.old) result matrix.new work.new }
{
    engine::metsovary_blocked_to_packed(shape, matrix, work)
}

#[unsafe(no_mangle)]
pub extern "C" fn metsovary_factor_plain(
    shape: Shape,
    matrix: &mut [f64],
    work: &mut [f64],
) -> CallResult
    ensures { DoneAs (factorize Packed shape matrix.old work.old) result matrix.new work.new }
{
    engine::metsovary_factor_plain(shape, matrix, work)
}

#[unsafe(no_mangle)]
pub extern "C" fn metsovary_factor_blocked(
    shape: Shape,
    matrix: &mut [f64],
    work: &mut [f64],
) -> CallResult
    ensures { DoneAs (factorize Blocked shape matrix.old work.old) result matrix.new work.new }
{
    engine::metsovary_factor_blocked(shape, matrix, work)
}

#[unsafe(no_mangle)]
pub extern "C" fn metsovary_solve_plain(
    shape: Shape,
    m: usize,
    matrix: &[f64],
    rhs: &mut [f64],
    work: &mut [f64],
) -> CallResult
    ensures { SolvedAs (Calls.solve Packed shape m matrix.now rhs.old work.old) result rhs.new work.new }
{
    engine::metsovary_solve_plain(shape, m, matrix, rhs, work)
}

#[unsafe(no_mangle)]
pub extern "C" fn metsovary_solve_blocked(
    shape: Shape,
    m: usize,
    matrix: &[f64],
    rhs: &mut [f64],
    work: &mut [f64],
) -> CallResult
    ensures { SolvedAs (Calls.solve Blocked shape m matrix.now rhs.old work.old) result rhs.new work.new }
{
    engine::metsovary_solve_blocked(shape, m, matrix, rhs, work)
}

#[unsafe(no_mangle)]
pub extern "C" fn metsovary_variance_plain(
    shape: Shape,
    k: usize,
    matrix: &[f64],
    work: &mut [f64],
) -> CallResult
    ensures { EvaluatedAs (Variances.variance Packed shape k matrix.now work.old) result work.new }
{
    engine::metsovary_variance_plain(shape, k, matrix, work)
}

#[unsafe(no_mangle)]
pub extern "C" fn metsovary_variance_blocked(
    shape: Shape,
    k: usize,
    matrix: &[f64],
    work: &mut [f64],
) -> CallResult
    ensures { EvaluatedAs (Variances.variance Blocked shape k matrix.now work.old) result work.new }
{
    engine::metsovary_variance_blocked(shape, k, matrix, work)
}

#[unsafe(no_mangle)]
pub extern "C" fn metsovary_packed_to_rfp(
    shape: Shape,
    form: usize,
    source: &[f64],
    target: &mut [f64],
) -> CallResult
    ensures { ConvertedAs (Conversions.convert PackedToRfp form shape source.now target.old) result target.new }
{
    engine::metsovary_packed_to_rfp(shape, form, source, target)
}

#[unsafe(no_mangle)]
pub extern "C" fn metsovary_rfp_to_packed(
    shape: Shape,
    form: usize,
    source: &[f64],
    target: &mut [f64],
) -> CallResult
    ensures { ConvertedAs (Conversions.convert RfpToPacked form shape source.now target.old) result target.new }
{
    engine::metsovary_rfp_to_packed(shape, form, source, target)
}

#[unsafe(no_mangle)]
pub extern "C" fn metsovary_strike(shape: Shape, list: &[usize], matrix: &mut [f64]) -> CallResult
    ensures { StruckAs (Strikes.strike shape list.now matrix.old) result matrix.new }
{
    engine::metsovary_strike(shape, list, matrix)
}
