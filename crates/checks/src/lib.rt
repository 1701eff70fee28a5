// The rules in code: the checks before any work in rules.rt and a column's rules in columns.rt; here the loops that test and clear a part of memory.
#![tactic(auto)]

ghost use Rattle.std.specs.Prelude.{◌≡◌, ◌*◌, ◌≤◌, length, take, replicate};
ghost use Rattle.binary64.specs.Kinds.{finite, zero64};
ghost use Rattle.calls.specs.Sequences.{all};

mod columns;
mod rules;

pub use columns::{judge_column, refused_below};
pub use rules::{
    Values, check_diagonal, check_factor, check_finite, check_rearranger, check_sizes, check_solver,
};

// Every value is tested, so that the loop has no branch.
fn each_finite(values: &[f64]) -> bool
    ensures { result ≡ all finite values.now }
{
    let mut passed = true;
    for x in values {
        passed = passed & binary64::is_finite(*x);
    }
    passed
}

// The same of the first 4 · quarter values, as four runs side by side: memory delivers four streams faster than one.
fn quarters_finite(values: &[f64], quarter: usize) -> bool
    requires { 4 * quarter ≤ length values.now }
    ensures { result ≡ all finite (take (4 * quarter) values.now) }
{
    let mut passed = true;
    for k in 0..quarter {
        let first = binary64::is_finite(values[k]);
        let second = binary64::is_finite(values[quarter + k]);
        let third = binary64::is_finite(values[2 * quarter + k]);
        let fourth = binary64::is_finite(values[3 * quarter + k]);
        passed = passed & (first & (second & (third & fourth)));
    }
    passed
}

pub fn all_finite(values: &[f64]) -> bool
    ensures { result ≡ all finite values.now }
{
    let quarter = values.len() / 4;
    let rest = each_finite(&values[4 * quarter..]);
    quarters_finite(values, quarter) & rest
}

pub fn clear(part: &mut [f64])
    ensures { part.new ≡ replicate (length part.old) zero64 }
{
    part.fill(0.0);
}
