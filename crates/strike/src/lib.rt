// Unknowns struck from a packed raw matrix, in its own memory.
#![tactic(auto)]

ghost use Rattle.std.specs.Prelude.{◌≡◌, ◌-◌, ◌≤◌, length, get_or, take};
ghost use Rattle.shape.specs.Bounds.{max_order};
ghost use Rattle.shape.specs.Places.{triangle};
ghost use Rattle.calls.specs.Refusals.{success, rule20};
ghost use Rattle.calls.specs.Strikes as Strikes;
ghost use Rattle.calls.specs.Strikes.{kept, struck, Fresh, StruckAs};
ghost use Rattle.strike.specs.Rows.{Unknowns};

mod moves;
mod rules;

use calls::{Call, CallResult, Success};
use moves::move_column;
use rules::check_strike;
use shape::Shape;

// The unknowns below n that the list does not name, rising, at the front of the memory lent for them.
fn keep<'a>(n: usize, list: &[usize], memory: &'a mut [usize]) -> &'a [usize]
    requires list_value { rule20 n list.now ≡ success }
    requires n_in_bounds { n ≤ length memory.old }
    ensures { result.now ≡ kept list.now n }
{
    let mut q = 0;
    for u in 0..n {
        if list.get(q) == Some(&u) {
            q += 1;
        } else {
            memory[u - q] = u;
        }
    }
    &memory[..n - q]
}

// The entries of these unknowns, column by column, to the front of the memory; how many they are.
fn move_columns(shape: Shape, unknowns: &[usize], matrix: &mut [f64]) -> usize
    requires order_le_max_order { (shape.order ≤ max_order) × (length matrix.old ≡ triangle shape.order) }
    requires unknowns { Unknowns shape.order unknowns.now }
    ensures value { result ≡ triangle (length unknowns.now) }
    ensures fresh { Fresh unknowns.now shape.order matrix.old (take (triangle (length unknowns.now)) matrix.new) }
{
    let mut to = 0;
    for (c, &j) in unknowns.iter().enumerate() {
        let base = shape.packed_place(j, j) - j;
        let rows = &unknowns[c..];
        move_column(matrix, rows, base, to);
        to += rows.len();
    }
    to
}

// An accepted list struck: the entries of the unknowns kept in front, and +0 behind them.
fn strike_list(shape: Shape, list: &[usize], matrix: &mut [f64])
    requires order_le_max_order { (shape.order ≤ max_order) × (length matrix.old ≡ triangle shape.order) }
    requires list_value { rule20 shape.order list.now ≡ success }
    ensures { matrix.new ≡ struck (kept list.now shape.order) shape.order matrix.old }
{
    // Memory is fixed: room for the unknowns of the highest order.
    let mut memory = [0; Shape::MAX_ORDER];
    let unknowns = keep(shape.order, list, &mut memory);
    let size = move_columns(shape, unknowns, matrix);
    matrix[size..].fill(0.0);
}

pub fn strike(shape: Shape, list: &[usize], matrix: &mut [f64]) -> CallResult
    ensures { StruckAs (Strikes.strike shape list.now matrix.old) result matrix.new }
{
    if let Err(refusal) = check_strike(shape, list, matrix.len()) {
        return calls::result(Call::Strike, shape, Err(refusal));
    }
    strike_list(shape, list, matrix);
    let smaller = Shape {
        order: shape.order - list.len(),
        ..shape
    };
    calls::result(Call::Strike, smaller, Ok(Success::PLAIN))
}
