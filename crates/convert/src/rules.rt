// The checks of a converter: rules 1, 17, 15 and 3 of crate calls, specs/Refusals.antt, in their order. It does not work by blocks, so 2 does not judge it.
ghost use Rattle.std.specs.Prelude.{◌≡◌};
ghost use Rattle.calls.specs.Conversions.{converter_checks};
ghost use Rattle.calls.specs.Outcomes.{verdict_of};

use calls::{Call, Refusal};
use shape::Shape;

pub fn check_converter(
    form: usize,
    shape: Shape,
    source: usize,
    target: usize,
) -> Result<(), Refusal>
    ensures { verdict_of result ≡ converter_checks form shape source target }
{
    if !shape.order_in_bounds() {
        return Err(Refusal::Order);
    }
    if 1 < form {
        return Err(Refusal::Form);
    }
    if calls::next(Call::Converter, shape.state).is_none() {
        return Err(Refusal::Unsuited);
    }
    if source != shape.triangle() || target != shape.triangle() {
        return Err(Refusal::MatrixLength);
    }
    Ok(())
}
