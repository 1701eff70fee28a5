// The checks of the call: rules 1, 15 and 3 of crate checks, and rule 20. It does not work by blocks, so 2 does not judge it, and it asks for no work memory.
ghost use Rattle.std.specs.Prelude.{◌≡◌};
ghost use Rattle.calls.specs.Refusals.{rule20};
ghost use Rattle.calls.specs.Outcomes.{verdict_of};
ghost use Rattle.calls.specs.Strikes.{strike_checks};

use calls::{Call, Refusal};
use shape::Shape;

// Rule 20: the first position whose unknown is not below n or not above the one before it.
fn check_list(n: usize, list: &[usize]) -> Result<(), Refusal>
    ensures { verdict_of result ≡ rule20 n list.now }
{
    let mut next = 0;
    for (p, &u) in list.iter().enumerate() {
        if n <= u || u < next {
            return Err(Refusal::StrikeList(p));
        }
        next = u + 1;
    }
    Ok(())
}

pub fn check_strike(shape: Shape, list: &[usize], matrix: usize) -> Result<(), Refusal>
    ensures { verdict_of result ≡ strike_checks shape list.now matrix }
{
    checks::check_sizes(Call::Strike, shape, matrix, 0)?;
    check_list(shape.order, list)
}
