// A block column less the products of the block columns before it. These are taken run by run: several block columns, whose rows beside the target's
// panel are packed once and then read tile after tile of the target's rows, so that a tile is loaded and stored once for all columns of the run.
ghost use Rattle.std.specs.Prelude.{◌≡◌, ℕ, ◌+◌, ◌-◌, ◌*◌, ◌≤◌, ◌<◌, length, get_or};
ghost use Rattle.std.specs.Float.{nan};
ghost use Rattle.shape.specs.Bounds.{max_block};
ghost use Rattle.shape.specs.Places.{block_of, block_start, width};
ghost use Rattle.calls.specs.Arithmetic.{minus_products};
ghost use Rattle.kernels.specs.Kernels.{GridFilled, RowsBelow, run_at, lane_at};
ghost use Rattle.blocked_factor.specs.BlockColumns.{PanelUpdated};
ghost use Rattle.blocked_factor.specs.BlockSteps.{BlockAt, row_of};
ghost use Rattle.blocked_factor.specs.Runs.{lanes_of, rows_of, RunPacked, RunBefore};

use crate::block_column::{BlockColumn, Panel};
use kernels::{Run, load_tile, reduce_run, store_tile};
use shape::Shape;

// A run has at most 16 block columns and 128 columns: so many streams the processor still fetches ahead, and the packed rows stay in its nearest cache.
const BLOCKS: usize = 16;

const COLUMNS: usize = 128;

// The lanes of a tile for g columns, an even number of them, and its rows.
fn lanes_of(g: usize) -> usize
    ensures { result ≡ lanes_of g }
{
    match g {
        0..=2 => 2,
        3..=4 => 4,
        5..=6 => 6,
        7..=8 => 8,
        _ => 16,
    }
}

fn rows_of(g: usize) -> usize
    ensures { result ≡ rows_of g }
{
    match g {
        0..=2 => 8,
        3..=4 => 4,
        5..=8 => 2,
        _ => 1,
    }
}

// The columns of the next panel where `rest` are left: as many as a tile holds with few lanes idle, and no more than there is room for.
fn panel_width(rest: usize, room: usize) -> usize
    requires { (0 < rest) × (2 ≤ room) }
    ensures { (0 < result) × (result ≤ rest) × (result ≤ 16) × (lanes_of result ≤ room) }
{
    match rest {
        13.. if 16 <= room => rest.min(16),
        7.. if 8 <= room => rest.min(8),
        5.. if 6 <= room => rest.min(6),
        3.. if 4 <= room => rest.min(4),
        _ => rest.min(2),
    }
}

// A panel of the target, and its rows of a run, packed as the lanes of a tile.
#[derive(Clone, Copy)]
struct RunPanel<'a> {
    run: Run,
    panel: Panel,
    lanes: &'a [f64],
    ghost room: { lanes_of panel.g * run.columns ≤ length lanes.now },
}

impl<'a> RunPanel<'a> {
    // The rows of a tile, from row i of the run's matrix on: len columns each, the first row's from place y on.
    fn update_tile<const ROWS: usize, const LANES: usize>(
        &self,
        m: &mut [f64],
        i: usize,
        y: usize,
        len: usize,
    )
        requires tile { (0 < ROWS) × (ROWS * LANES ≤ 16) × (len ≤ self.now.panel.g) × (len ≤ LANES) × (lanes_of self.now.panel.g ≡ LANES) }
        requires rows_below { let run = self.now.run in RowsBelow run.start run.order run.block run.corner run.columns i ROWS (length m.old) }
        requires by_index { (r : ℕ) → r < ROWS → y + r * self.now.panel.column.width + len ≤ length m.old }
        ensures { let run = self.now.run in
            let stride = self.now.panel.column.width in
            GridFilled y stride ROWS len
            (λ r s.
            minus_products (run_at m.old run.start run.order run.block (i + r)) (lane_at LANES self.now.lanes.now s) run.columns
            (get_or m.old (y + r * stride + s) nan))
            m.old m.new }
    {
        let stride = self.panel.column.width;
        let tile = load_tile::<ROWS, LANES>(m, y, stride, len);
        let reduced = reduce_run(tile, m, self.run, i, self.lanes);
        store_tile(m, y, stride, len, reduced);
    }

    // A whole tile of rows. The numbers of columns are written out, so that the compiler has the tile in registers: `g` alone is slower.
    fn update_whole_tile(&self, m: &mut [f64], i: usize, y: usize)
        requires rows_below { let run = self.now.run in
            RowsBelow run.start run.order run.block run.corner run.columns i (rows_of self.now.panel.g) (length m.old) }
        requires by_index { (r : ℕ) → r < rows_of self.now.panel.g → y + r * self.now.panel.column.width + self.now.panel.g ≤ length m.old }
        ensures { let run = self.now.run in
            let stride = self.now.panel.column.width in
            let g = self.now.panel.g in
            GridFilled y stride (rows_of g) g
            (λ r s.
            minus_products (run_at m.old run.start run.order run.block (i + r)) (lane_at (lanes_of g) self.now.lanes.now s) run.columns
            (get_or m.old (y + r * stride + s) nan))
            m.old m.new }
    {
        match self.panel.g {
            1 => self.update_tile::<8, 2>(m, i, y, 1),
            2 => self.update_tile::<8, 2>(m, i, y, 2),
            3 => self.update_tile::<4, 4>(m, i, y, 3),
            4 => self.update_tile::<4, 4>(m, i, y, 4),
            5 => self.update_tile::<2, 6>(m, i, y, 5),
            6 => self.update_tile::<2, 6>(m, i, y, 6),
            7 => self.update_tile::<2, 8>(m, i, y, 7),
            8 => self.update_tile::<2, 8>(m, i, y, 8),
            13 => self.update_tile::<1, 16>(m, i, y, 13),
            14 => self.update_tile::<1, 16>(m, i, y, 14),
            15 => self.update_tile::<1, 16>(m, i, y, 15),
            16 => self.update_tile::<1, 16>(m, i, y, 16),
            g => self.update_tile::<1, 16>(m, i, y, g),
        }
    }

    // One row, in the first len of the panel's columns.
    fn update_row(&self, m: &mut [f64], i: usize, y: usize, len: usize)
        requires in_bounds { (len ≤ self.now.panel.g) × (y + len ≤ length m.old) }
        requires rows_below { let run = self.now.run in RowsBelow run.start run.order run.block run.corner run.columns i 1 (length m.old) }
        ensures { let run = self.now.run in
            let stride = self.now.panel.column.width in
            GridFilled y stride 1 len
            (λ r s.
            minus_products (run_at m.old run.start run.order run.block (i + r)) (lane_at (lanes_of self.now.panel.g) self.now.lanes.now s)
            run.columns (get_or m.old (y + r * stride + s) nan))
            m.old m.new }
    {
        match lanes_of(self.panel.g) {
            2 => self.update_tile::<1, 2>(m, i, y, len),
            4 => self.update_tile::<1, 4>(m, i, y, len),
            6 => self.update_tile::<1, 6>(m, i, y, len),
            8 => self.update_tile::<1, 8>(m, i, y, len),
            _ => self.update_tile::<1, 16>(m, i, y, len),
        }
    }

    // All rows of the panel: row by row in the target's diagonal block, then in whole tiles, and the rows that these leave.
    fn update(&self, m: &mut [f64])
        requires run_before { let run = self.now.run in
            let target = self.now.panel.column in
            RunBefore (length m.old) target.start target.width target.rows run.start run.order run.block run.corner run.columns }
        requires run_packed { let run = self.now.run in
            let panel = self.now.panel in
            RunPacked self.now.lanes.now (lanes_of panel.g) m.old run.start run.order run.block (run.order - panel.column.rows + panel.s0)
            run.columns panel.g }
        ensures { let run = self.now.run in
            let target = self.now.panel.column in
            PanelUpdated target.start target.width target.rows self.now.panel.s0 self.now.panel.g
            (λ r. run_at m.old run.start run.order run.block (run.order - target.rows + r)) run.columns m.old m.new }
    {
        let Panel { column, s0, g } = self.panel;
        let above = self.run.order - column.rows;
        let left = column.start + s0;
        let tile = rows_of(g);
        let whole = column.rows - (column.rows - column.width) % tile;
        for r in s0..column.width {
            let len = self.panel.columns_in(r);
            self.update_row(m, above + r, left + column.row(r), len);
        }
        for r in (column.width..whole).step_by(tile) {
            self.update_whole_tile(m, above + r, left + column.row(r));
        }
        for r in whole..column.rows {
            self.update_row(m, above + r, left + column.row(r), g);
        }
    }
}

// The g rows of the run's matrix from row i on, as the lanes of a panel.
fn pack_run(panel: &mut [f64], m: &[f64], run: Run, i: usize, g: usize, lanes: usize)
    requires g_le_lanes { (g ≤ lanes) × (lanes * run.columns ≤ length panel.old) }
    requires rows_below { RowsBelow run.start run.order run.block run.corner run.columns i g (length m.now) }
    ensures { RunPacked panel.new lanes m.now run.start run.order run.block i run.columns g }
{
    let shape = Shape::new(run.order, run.block);
    for k in (0..run.columns).step_by(run.block) {
        let source = BlockColumn::new(shape, k);
        source.pack(
            panel,
            lanes * k,
            lanes,
            &m[run.start + source.start..],
            i - k,
            g,
            run.block,
        );
    }
}

// A panel of the target less the products of the run; `spare` is overwritten.
fn update_panel_by_run(m: &mut [f64], spare: &mut [f64], run: Run, panel: Panel)
    requires run_before { RunBefore (length m.old) panel.column.start panel.column.width panel.column.rows run.start run.order run.block run.corner run.columns }
    requires room { lanes_of panel.g * run.columns ≤ length spare.old }
    ensures { PanelUpdated panel.column.start panel.column.width panel.column.rows panel.s0 panel.g
        (λ r. run_at m.old run.start run.order run.block (run.order - panel.column.rows + r)) run.columns m.old
        m.new }
{
    let first = run.order - panel.column.rows + panel.s0;
    pack_run(spare, m, run, first, panel.g, lanes_of(panel.g));
    let packed = RunPanel {
        run,
        panel,
        lanes: spare,
    };
    packed.update(m);
}

// All columns of the target, less the products of the run.
fn update_by_run(m: &mut [f64], spare: &mut [f64], run: Run, target: BlockColumn)
    requires run_before { RunBefore (length m.old) target.start target.width target.rows run.start run.order run.block run.corner run.columns }
    requires columns_in_bounds { 2 * run.columns ≤ length spare.old }
    ensures { PanelUpdated target.start target.width target.rows 0 target.width
        (λ r. run_at m.old run.start run.order run.block (run.order - target.rows + r)) run.columns m.old
        m.new }
{
    let room = spare.len() / run.columns;
    let mut s0 = 0;
    // How wide the next panel is depends on how many columns are left: no range has such a step.
    while s0 < target.width {
        let panel = Panel {
            column: target,
            s0,
            g: panel_width(target.width - s0, room),
        };
        update_panel_by_run(m, spare, run, panel);
        s0 = panel.end();
    }
}

// The columns of the next run where those of `rest` are left, whole block columns, and `spare` values can be packed: at least one block column.
fn run_columns(b: usize, rest: usize, spare: usize) -> usize
    requires { (0 < b) × (b ≤ max_block) × (0 < rest) × (block_of b rest ≡ rest) × (2 * b ≤ spare) }
    ensures { (b ≤ result) × (result ≤ rest) × (2 * result ≤ spare) × (block_of b result ≡ result) }
{
    let fit = spare / lanes_of(b.min(16));
    let most = COLUMNS.min(BLOCKS * b);
    let whole = Shape::new(0, b).block_of(fit.min(most));
    if whole == 0 { b } else { whole.min(rest) }
}

// The block column that begins with column c, less the products of all block columns before it.
pub fn update_by_runs(m: &mut [f64], spare: &mut [f64], shape: Shape, c: usize)
    requires block_at { BlockAt shape.order shape.block c (length m.old) }
    requires block_in_bounds { 0 < c → 2 * shape.block ≤ length spare.old }
    ensures { PanelUpdated (block_start shape.order c) (width shape.order shape.block c) (shape.order - c) 0
        (width shape.order shape.block c) (row_of shape.order shape.block c m.old) c m.old m.new }
{
    let block = shape.block;
    let target = BlockColumn::new(shape, c);
    let mut k = 0;
    // How long the next run is depends on how many columns are left: no range has such a step.
    while k < c {
        let columns = run_columns(block, c - k, spare.len());
        let run = Run {
            start: shape.block_start(k),
            order: shape.order - k,
            block,
            corner: Shape::place_in_block(block, block, 0),
            columns,
        };
        update_by_run(m, spare, run, target);
        k += columns;
    }
}
