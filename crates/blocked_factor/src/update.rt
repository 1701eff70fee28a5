// A panel of a block column less the products of the block column's own earlier columns. The memory begins where the block column does.
ghost use Rattle.std.specs.Prelude.{ℕ, ◌+◌, ◌-◌, ◌*◌, ◌≤◌, ◌<◌, length, get_or, min};
ghost use Rattle.std.specs.Option.{ForSome};
ghost use Rattle.std.specs.Float.{nan};
ghost use Rattle.calls.specs.Arithmetic.{minus_products};
ghost use Rattle.kernels.specs.Kernels.{Filled, row_at};
ghost use Rattle.blocked_factor.specs.BlockColumns.{row_start, LanesHold, Packed, PanelUpdated};

use crate::block_column::{BlockColumn, Panel};
use kernels::{minus_products, pack_lane, update, update_part};

impl BlockColumn {
    // The g rows from row `first` on, as the lanes of a panel, from its place `at` on.
    pub fn pack(
        self,
        panel: &mut [f64],
        at: usize,
        lanes: usize,
        part: &[f64],
        first: usize,
        g: usize,
        count: usize,
    )
        requires count_in_bounds { (at + lanes * count ≤ length panel.old) × (g ≤ lanes) × (first + g ≤ self.rows) }
        requires by_index { (t : ℕ) → t < g → row_start self.width (first + t) + count ≤ length part.now }
        ensures { Packed panel.old panel.new at lanes part.now self.width first count g }
    {
        for t in 0..g {
            pack_lane(panel, at, lanes, t, part, self.row(first + t), count);
        }
    }
}

impl Panel {
    // The first len of the panel's entries in the row that starts at place x.
    fn update_entries(self, part: &mut [f64], x: usize, len: usize)
        requires len_bound { (len ≤ self.g) × (x + self.s0 + len ≤ length part.old) }
        requires by_index { (t : ℕ) → t < len → row_start self.column.width (self.s0 + t) ≤ x }
        ensures { Filled nan (x + self.s0) len
            (λ t.
            minus_products (row_at part.old x) (row_at part.old (row_start self.column.width (self.s0 + t))) self.s0
            (get_or part.old (x + self.s0 + t) nan))
            part.old part.new }
    {
        for t in 0..len {
            let y = x + self.s0 + t;
            part[y] = minus_products(part, x, self.column.row(self.s0 + t), self.s0, part[y]);
        }
    }

    // The panel's entries in row r; by the lanes where the rows of its columns are packed there.
    fn update_row(self, part: &mut [f64], lanes: Option<&[f64]>, r: usize)
        requires in_panel { (self.s0 ≤ r) × (r < self.column.rows) × (row_start self.column.width self.column.rows ≤ length part.old) }
        requires packed { ForSome lanes (λ panel.
            (16 * self.s0 ≤ length panel.now) × LanesHold panel.now part.old self.column.width self.s0 self.s0 (min self.g (r + 1 - self.s0))) }
        ensures { Filled nan (row_start self.column.width r + self.s0) (min self.g (r + 1 - self.s0))
            (λ t.
            minus_products (row_at part.old (row_start self.column.width r)) (row_at part.old (row_start self.column.width (self.s0 + t)))
            self.s0 (get_or part.old (row_start self.column.width r + self.s0 + t) nan))
            part.old part.new }
    {
        let x = self.column.row(r);
        let len = self.columns_in(r);
        match lanes {
            Some(panel) if len == 16 => update(part, panel, x, x + self.s0, self.s0),
            Some(panel) => update_part(part, panel, x, x + self.s0, len, self.s0),
            None => self.update_entries(part, x, len),
        }
    }

    // All its rows.
    fn update_rows(self, part: &mut [f64], lanes: Option<&[f64]>)
        requires room { row_start self.column.width self.column.rows ≤ length part.old }
        requires packed { ForSome lanes (λ panel.
            (16 * self.s0 ≤ length panel.now) × LanesHold panel.now part.old self.column.width self.s0 self.s0 self.g) }
        ensures { PanelUpdated 0 self.column.width self.column.rows self.s0 self.g (λ q. row_at part.old (row_start self.column.width q))
            self.s0 part.old part.new }
    {
        for r in self.s0..self.column.rows {
            self.update_row(part, lanes, r);
        }
    }

    // `spare` is overwritten, and serves for the lanes where it is long enough.
    pub fn update(self, part: &mut [f64], spare: &mut [f64])
        requires { row_start self.column.width self.column.rows ≤ length part.old }
        ensures { PanelUpdated 0 self.column.width self.column.rows self.s0 self.g (λ q. row_at part.old (row_start self.column.width q))
            self.s0 part.old part.new }
    {
        if self.s0 == 0 {
            return;
        }
        if 16 * self.s0 <= spare.len() {
            self.column
                .pack(spare, 0, 16, part, self.s0, self.g, self.s0);
            self.update_rows(part, Some(spare));
        } else {
            self.update_rows(part, None);
        }
    }
}
