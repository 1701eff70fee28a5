// The rules that judge a column of a factor, for both factors.
ghost use Rattle.std.specs.Prelude.{◌≡◌, false};
ghost use Rattle.binary64.specs.Judged as Judged;
ghost use Rattle.calls.specs.Refusals.{rule11, weak, column_rules};
ghost use Rattle.calls.specs.Judgements.{judgement};
ghost use Rattle.calls.specs.Outcomes.{judgement_of};

use binary64::Pivot;
use calls::{Judgement, Refusal, Verdict};

// 2^−40
const WEAK_RATIO: f64 = 9.094947017729282e-13;

// Whether a pivot is greater than zero but not greater than that part of the diagonal value at entry.
fn is_weak(entered: f64, pivot: f64) -> bool
    ensures { result ≡ weak entered pivot }
{
    (pivot > 0.0) & !(pivot > entered * WEAK_RATIO)
}

// Column j where nothing but an entry below that is not finite refuses it, with which no factor is exact.
pub fn refused_below(j: usize) -> Judgement
    ensures { result ≡ record { verdict = rule11 j false; exact = false } }
{
    Judgement {
        verdict: Verdict::from(Refusal::Overflow(j)),
        exact: false,
    }
}

// Rules 10, 16 and 11 of column j, in their order: on its pivot as judged, on the pivot beside the diagonal value at entry, and on whether the entries below
// are finite. An accepted column is as exact as its root.
pub fn judge_column(
    j: usize,
    entered: f64,
    pivot: f64,
    judged: Pivot,
    finite: bool,
) -> Result<bool, Refusal>
    requires { judged ≡ Judged.judged pivot }
    ensures { judgement_of result ≡ judgement (column_rules j entered pivot finite) (Judged.exact_root judged) }
{
    match judged {
        Pivot::Refused(value) => Err(Refusal::Pivot(j, value)),
        Pivot::Root(_, _) if is_weak(entered, pivot) => Err(Refusal::Weak(j, pivot)),
        Pivot::Root(_, _) if !finite => Err(Refusal::Overflow(j)),
        Pivot::Root(_, exact) => Ok(exact),
    }
}
