// The first W columns of a memory of order h in blocked order, less products: up to sixteen columns, whole block columns of B columns. Both are const
// parameters, so that the compiler keeps the values in registers.
ghost use Rattle.std.specs.Prelude.{◌≡◌, ℕ, ◌+◌, ◌-◌, ◌≤◌, ◌<◌, length, get_or};
ghost use Rattle.std.specs.Float.{nan, binary64};
ghost use Rattle.std.specs.Float.Ieee.{sub, mul};
ghost use Rattle.shape.specs.Places.{triangle, blocked_place};
ghost use Rattle.calls.specs.Arithmetic.{minus_products};
ghost use Rattle.kernels.specs.Kernels.{RowsBelow};

use crate::subtract_multiple;
use shape::Shape;

// Column j less the product of its entry in row i, which is below them, and y. The row moves from a block column to the next as in `reduce_run`.
fn step_columns<const W: usize, const B: usize>(
    tile: [f64; 16],
    part: &[f64],
    h: usize,
    i: usize,
    y: f64,
) -> [f64; 16]
    requires w_bound { W ≤ 16 }
    requires rows_below { RowsBelow 0 h B (triangle B) W i 1 (length part.now) }
    ensures { (j : ℕ) → j < W →
        get_or result j nan ≡ sub binary64 (get_or tile j nan) (mul binary64 (get_or part.now (blocked_place h B i j) nan) y) }
{
    let step = 2 * B * B - Shape::new(B, B).triangle();
    let mut next = tile;
    let mut x = Shape::place_in_block(B, i, 0);
    for k in (0..W).step_by(B) {
        subtract_multiple(&mut next[k..k + B], &part[x..x + B], y);
        x = x + (h - k) * B - step;
    }
    next
}

// Column j less the products of its entries in the last `count` rows, which are below them, and the values of v beside these, from the last row up.
pub fn reduce_columns<const W: usize, const B: usize>(
    tile: [f64; 16],
    part: &[f64],
    h: usize,
    v: &[f64],
    count: usize,
) -> [f64; 16]
    requires w_bound { (W ≤ 16) × (count ≤ h) × (h ≤ length v.now) }
    requires rows_below { RowsBelow 0 h B (triangle B) W (h - count) count (length part.now) }
    ensures { (j : ℕ) → j < W →
        get_or result j nan
        ≡ minus_products (λ k. get_or part.now (blocked_place h B (h - 1 - k) j) nan) (λ k. get_or v.now (h - 1 - k) nan) count
        (get_or tile j nan) }
{
    let mut next = tile;
    for k in 0..count {
        let i = h - 1 - k;
        let step = step_columns::<W, B>(next, part, h, i, v[i]);
        next = step;
    }
    next
}
