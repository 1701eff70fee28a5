// The converters: between packed memory and rectangular full packed memory of a form, through a second memory.
#![tactic(auto)]

ghost use Rattle.std.specs.Prelude.{◌≡◌};
ghost use Rattle.calls.specs.declared.Call.TheVariants.{Converter};
ghost use Rattle.calls.specs.Calls.{judged_result};
ghost use Rattle.calls.specs.Conversions as Conversions;
ghost use Rattle.calls.specs.Conversions.{source_place, target_place, ConvertedAs};
ghost use Rattle.calls.specs.Outcomes.{answer_of};
ghost use Rattle.calls.specs.Triangles.{transfer};
ghost use Rattle.convert.specs.Halves.{Held};

mod columns;
mod half;
mod route;
mod rules;
mod to_packed;
mod to_rfp;

use calls::{Call, CallResult, Conversion, Refusal, Success};
use half::Half;
use route::Route;
use rules::check_converter;
use shape::Shape;

// In form 0 the array's own columns stand by columns, in form 1 the others do.
#[tactic(auto, using(shape::proofs::Rfp::rfp_columns_half))]
fn move_halves(route: Route, source: &[f64], target: &mut [f64])
    requires { Held route.shape.order source.now target.old }
    ensures { target.new ≡ transfer (source_place route.conversion route.form route.shape.order) (target_place route.conversion route.form route.shape.order) route.shape.order source.now target.old }
{
    let own = route.shape.rfp_columns();
    let n = route.shape.order;
    if route.form == 0 {
        route.copy_columns(0, own, source, target);
        let half = Half {
            route,
            left: own,
            right: n,
        };
        half.transpose(source, target);
    } else {
        let half = Half {
            route,
            left: 0,
            right: own,
        };
        half.transpose(source, target);
        route.copy_columns(own, n, source, target);
    }
}

// The checks, and the moves where they pass: what the call ends with.
fn outcome(
    conversion: Conversion,
    form: usize,
    shape: Shape,
    source: &[f64],
    target: &mut [f64],
) -> Result<Success, Refusal>
    ensures { ConvertedAs (Conversions.convert conversion form shape source.now target.old) (judged_result Converter shape (answer_of result)) target.new }
{
    check_converter(form, shape, source.len(), target.len())?;
    let route = Route {
        conversion,
        form,
        shape,
    };
    move_halves(route, source, target);
    Ok(Success::PLAIN)
}

pub fn convert(
    conversion: Conversion,
    form: usize,
    shape: Shape,
    source: &[f64],
    target: &mut [f64],
) -> CallResult
    ensures { ConvertedAs (Conversions.convert conversion form shape source.now target.old) result target.new }
{
    let outcome = outcome(conversion, form, shape, source, target);
    calls::result(Call::Converter, shape, outcome)
}
