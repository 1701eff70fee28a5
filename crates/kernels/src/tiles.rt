// Tiles: values that are worked on at once, in ROWS rows of LANES lanes each. Both stand in the type, so that the compiler keeps the values in registers.
// The places x and at are handed on changed in each turn: a struct of them with m, stride and panel would be made anew there, and is no plainer.
ghost use Rattle.std.specs.Prelude.{ℕ, ◌+◌, ◌*◌, ◌≤◌, ◌<◌, length, get_or};
ghost use Rattle.std.specs.Float.{nan, binary64};
ghost use Rattle.std.specs.Float.Ieee.{sub, mul};
ghost use Rattle.calls.specs.Arithmetic.{minus_products};
ghost use Rattle.kernels.specs.Kernels.{GridFilled, RowsBelow, TileIs, tile_at, row_at, run_at, lane_at};

use crate::lanes::{load_part, store_part};
use crate::subtract_multiple;

// Every value less one product: in row r that of m's value at place x + r · stride and of the panel's value for the lane.
fn step_tile<const ROWS: usize, const LANES: usize>(
    tile: [[f64; LANES]; ROWS],
    m: &[f64],
    x: usize,
    stride: usize,
    panel: &[f64],
    at: usize,
) -> [[f64; LANES]; ROWS]
    requires lanes_bound { at + LANES ≤ length panel.now }
    requires by_index { (r : ℕ) → r < ROWS → x + r * stride < length m.now }
    ensures { TileIs ROWS LANES
        (λ r s.
        sub binary64 (tile_at tile.entry r s) (mul binary64 (get_or m.now (x + r * stride) nan) (get_or panel.now (at + s) nan)))
        result }
{
    let mut next = tile;
    for (r, row) in next.iter_mut().enumerate() {
        subtract_multiple(row, &panel[at..at + LANES], m[x + r * stride]);
    }
    next
}

// Less `count` products: those of row r with the values from place x + r · stride on.
pub fn reduce_block<const ROWS: usize, const LANES: usize>(
    tile: [[f64; LANES]; ROWS],
    m: &[f64],
    x: usize,
    stride: usize,
    panel: &[f64],
    at: usize,
    count: usize,
) -> [[f64; LANES]; ROWS]
    requires rows_nonzero { (0 < ROWS) × (at + LANES * count ≤ length panel.now) }
    requires by_index { (r : ℕ) → r < ROWS → x + r * stride + count ≤ length m.now }
    ensures { TileIs ROWS LANES
        (λ r s.
        minus_products (row_at m.now (x + r * stride)) (λ k. get_or panel.now (at + LANES * k + s) nan) count
        (tile_at tile.entry r s))
        result }
{
    let mut next = tile;
    for k in 0..count {
        let step = step_tile(next, m, x + k, stride, panel, at + LANES * k);
        next = step;
    }
    next
}

// Several block columns of `block` columns each, `columns` in all: the first ones of a matrix of order `order` in blocked order, which begins at place
// `start`. A diagonal block has `corner` values.
#[derive(Clone, Copy)]
pub struct Run {
    pub start: usize,
    pub order: usize,
    pub block: usize,
    pub corner: usize,
    pub columns: usize,
}

// Less the products of a run: those of row r with row i + r of its matrix, which is below its columns. Such a row is found in the next block column by
// the rest of the one and the start of the other.
pub fn reduce_run<const ROWS: usize, const LANES: usize>(
    tile: [[f64; LANES]; ROWS],
    m: &[f64],
    run: Run,
    i: usize,
    panel: &[f64],
) -> [[f64; LANES]; ROWS]
    requires rows_nonzero { (0 < ROWS) × (LANES * run.columns ≤ length panel.now) }
    requires rows_below { RowsBelow run.start run.order run.block run.corner run.columns i ROWS (length m.now) }
    ensures { TileIs ROWS LANES
        (λ r s.
        minus_products (run_at m.now run.start run.order run.block (i + r)) (lane_at LANES panel.now s) run.columns
        (tile_at tile.entry r s))
        result }
{
    let b = run.block;
    let step = 2 * b * b - run.corner;
    let mut next = tile;
    let mut x = run.start + run.corner + (i - b) * b;
    for k in (0..run.columns).step_by(b) {
        let block = reduce_block(next, m, x, b, panel, LANES * k, b);
        next = block;
        x = x + (run.order - k) * b - step;
    }
    next
}

// A tile from m: the first len lanes of row r from place y + r · stride on.
pub fn load_tile<const ROWS: usize, const LANES: usize>(
    m: &[f64],
    y: usize,
    stride: usize,
    len: usize,
) -> [[f64; LANES]; ROWS]
    requires lanes_bound { len ≤ LANES }
    requires by_index { (r : ℕ) → r < ROWS → y + r * stride + len ≤ length m.now }
    ensures { TileIs ROWS len (λ r s. get_or m.now (y + r * stride + s) nan) result }
{
    let mut tile = [[0.0; LANES]; ROWS];
    for r in 0..ROWS {
        let row = load_part(m, y + r * stride, len);
        tile[r] = row;
    }
    tile
}

pub fn store_tile<const ROWS: usize, const LANES: usize>(
    m: &mut [f64],
    y: usize,
    stride: usize,
    len: usize,
    tile: [[f64; LANES]; ROWS],
)
    requires lanes_bound { (len ≤ LANES) × (len ≤ stride) }
    requires by_index { (r : ℕ) → r < ROWS → y + r * stride + len ≤ length m.old }
    ensures { GridFilled y stride ROWS len (λ r s. tile_at tile.entry r s) m.old m.new }
{
    for r in 0..ROWS {
        store_part(m, y + r * stride, tile[r], len);
    }
}
