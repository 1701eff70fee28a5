// Binary64 values: their kinds, the square root and the judgement of a pivot.
#![tactic(auto)]

mod kinds;
mod root;

ghost use Rattle.std.specs.Prelude.{◌≡◌};
ghost use Rattle.binary64.specs.Kinds.{finite};
ghost use Rattle.binary64.specs.Root.{root, exact};
ghost use Rattle.binary64.specs.Judged.{judged};

pub use kinds::{Kind, kind_of, kind_of_bits};

// A root, and whether its square is the argument exactly.
#[derive(Clone, Copy)]
pub struct SquareRoot {
    pub value: f64,
    pub exact: bool,
}

// What a pivot is judged to: its root and whether that is exact, or its refused value. An enum of its own and no Result: the scope names its two cases as
// the form of a pivot's outcome, which both factors match.
#[derive(Clone, Copy)]
pub enum Pivot {
    Root(f64, bool),
    Refused(f64),
}

// Neither an infinity nor a NaN.
pub fn is_finite(x: f64) -> bool
    ensures { result ≡ finite x }
{
    matches!(kind_of(x), Kind::Zero | Kind::Subnormal | Kind::Normal)
}

// The root of every value, rounded to nearest, and its exactness: `specs/Root.antt` says which they are for a zero, an infinity, a NaN and what is below zero.
pub fn square_root(x: f64) -> SquareRoot
    ensures { (result.value ≡ root x) × (result.exact ≡ exact x) }
{
    match kind_of(x) {
        Kind::Zero | Kind::NaN => SquareRoot {
            value: x,
            exact: false,
        },
        Kind::Subnormal | Kind::Normal => {
            if x > 0.0 {
                let found = root::root_of_bits(f64::to_bits(x));
                let value = f64::from_bits(found.bits);
                SquareRoot {
                    value,
                    exact: found.exact,
                }
            } else {
                SquareRoot {
                    value: 0.0 / 0.0,
                    exact: false,
                }
            }
        }
        Kind::Infinite => SquareRoot {
            value: if x > 0.0 { x } else { 0.0 / 0.0 },
            exact: false,
        },
    }
}

// A pivot greater than zero has a root; a zero, a NaN and what is below zero are refused.
pub fn judge(pivot: f64) -> Pivot
    ensures { result ≡ judged pivot }
{
    if pivot > 0.0 {
        let root = square_root(pivot);
        Pivot::Root(root.value, root.exact)
    } else {
        Pivot::Refused(pivot)
    }
}
