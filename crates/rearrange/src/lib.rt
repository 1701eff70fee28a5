// The rearrangers. Block column by block column the values move through the work memory to their places in the other layout.
#![tactic(auto)]

ghost use Rattle.std.specs.Prelude.{◌≡◌, ◌≤◌, ◌<◌, length};
ghost use Rattle.shape.specs.Bounds.{max_order, max_block};
ghost use Rattle.shape.specs.Places.{triangle, block_work};
ghost use Rattle.calls.specs.declared.Call.TheVariants.{Rearranger};
ghost use Rattle.calls.specs.Outcomes.{answer_of};
ghost use Rattle.calls.specs.Calls.{DoneAs, judged_result, moved, rearrange};
ghost use Rattle.rearrange.specs.Moves as Moves;
ghost use Rattle.rearrange.specs.Moves.{other};

mod below;
mod block;
mod diagonal;

use block::BlockColumn;
use calls::{Call, CallResult, Layout, Refusal, Success};
use shape::Shape;

// Each block column is the first one of the shape that is left, and is worked on as the part of the matrix that begins at its start.
#[tactic(auto, using(shape::proofs::Bounds::block_start_le))]
fn move_blocks(to: Layout, shape: Shape, matrix: &mut [f64], work: &mut [f64])
    requires order_le_max_order { (shape.order ≤ max_order) × (0 < shape.block) × (shape.block ≤ max_block) }
    requires matrix_len { length matrix.old ≡ triangle shape.order }
    requires block_in_bounds { block_work shape.order shape.block ≤ length work.old }
    ensures { matrix.new ≡ moved (other to) to shape.order shape.block matrix.old }
{
    for c in (0..shape.order).step_by(shape.block) {
        let part = Shape::new(shape.order - c, shape.block_width(c));
        let at = shape.block_start(c);
        let column = BlockColumn { to, part };
        column.move_within(&mut matrix[at..], work);
    }
}

fn other(layout: Layout) -> Layout
    ensures { result ≡ Moves.other layout }
{
    match layout {
        Layout::Packed => Layout::Blocked,
        Layout::Blocked => Layout::Packed,
    }
}

// The checks, and the moves where they pass: what the call ends with. The work memory is cleared behind the moves.
fn outcome(
    to: Layout,
    shape: Shape,
    matrix: &mut [f64],
    work: &mut [f64],
) -> Result<Success, Refusal>
    ensures { DoneAs (rearrange (other to) to shape matrix.old work.old) (judged_result (Rearranger (other to) to) shape (answer_of result)) matrix.new work.new }
{
    checks::check_rearranger(other(to), to, shape, matrix.len(), work.len())?;
    let needed = shape.block_work();
    let lent = &mut work[..needed];
    move_blocks(to, shape, matrix, lent);
    checks::clear(lent);
    Ok(Success::PLAIN)
}

pub fn rearrange(to: Layout, shape: Shape, matrix: &mut [f64], work: &mut [f64]) -> CallResult
    ensures { DoneAs (rearrange (other to) to shape matrix.old work.old) result matrix.new work.new }
{
    let outcome = outcome(to, shape, matrix, work);
    calls::result(Call::Rearranger(other(to), to), shape, outcome)
}
