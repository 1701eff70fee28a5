// The blocked factor: block column by block column, each less the products of those before it, then finished panel by panel.
#![tactic(auto)]

ghost use Rattle.std.specs.Prelude.{◌≡◌, ℕ, ◌+◌, ◌-◌, ◌≤◌, ◌<◌, length, get_or, min, replicate, IfSome, IfNone, Ok};
ghost use Rattle.binary64.specs.Kinds.{zero64};
ghost use Rattle.shape.specs.Places.{width, block_work};
ghost use Rattle.calls.specs.Calls.{DoneAs, factorize, judged_result};
ghost use Rattle.calls.specs.Outcomes.{judgement_of, answer_of};
ghost use Rattle.blocked_factor.specs.BlockColumns.{row_start, SameTo, ColumnDivided, root_of, column_finite, LowestOverflow};
ghost use Rattle.blocked_factor.specs.BlockStages.{RowsFinished, DiagonalFinished, TriangleFinished, BelowFinished, ColumnsFinished, BlockColumnJudged, BlockColumnFactored};
ghost use Rattle.blocked_factor.specs.BlockSteps.{BlockAt, BlockFactored, BlockDone, Sized, BlocksDone, Lent, Factored};

mod block_column;
mod runs;
mod update;

use binary64::Pivot;
use block_column::{BlockColumn, Panel};
use calls::{Call, CallResult, Layout, Refusal, Success, Verdict};
use kernels::{copy_part, minus_products, quotients, scatter};
use runs::update_by_runs;
use shape::Shape;

// The value of the diagonal: the root, whatever the pivot is.
fn diagonal_of(pivot: Pivot) -> f64
    ensures { result ≡ root_of pivot }
{
    match pivot {
        Pivot::Root(root, _) => root,
        Pivot::Refused(value) => binary64::square_root(value).value,
    }
}

// The memory begins where the block column does. `saved` has the entry values, in the same places.
impl Panel {
    // Column s in N rows, whose places of column s0 are given: each entry less its products with the panel's columns before s, and divided by the diagonal.
    fn divide_rows<const N: usize>(&self, part: &mut [f64], at: [usize; N], r: usize, s: usize)
        requires in_panel { (self.now.s0 ≤ s) × (s < self.now.column.width) × (s < r) × (r + N ≤ self.now.column.rows) × (row_start self.now.column.width self.now.column.rows ≤ length part.old) }
        requires by_index { (k : ℕ) → k < N → get_or at k 0 ≡ row_start self.now.column.width (r + k) + self.now.s0 }
        ensures { ColumnDivided self.now.column.width self.now.s0 s r (r + N) part.old part.new }
    {
        let y = self.column.place(s, self.s0);
        let d = self.column.place(s, s);
        let count = s - self.s0;
        let quotients = quotients(part, at, y, count, part[d]);
        scatter(part, at, count, quotients);
    }

    // The N rows from r on, at once, in the panel's columns before column r, whose diagonals are finished.
    fn finish_rows<const N: usize>(&self, part: &mut [f64], r: usize)
        requires { (self.now.s0 ≤ r) × (r + N ≤ self.now.column.rows) × (row_start self.now.column.width self.now.column.rows ≤ length part.old) }
        ensures { RowsFinished self.now.column.width self.now.s0 (min (self.now.s0 + self.now.g) r) r (r + N) part.old part.new }
    {
        let at = self.column.places::<N>(r, self.s0);
        for s in self.s0..self.end().min(r) {
            self.divide_rows(part, at, r, s);
        }
    }

    // The diagonal of column s after its row. The columns up to it are judged by their pivots.
    fn finish_diagonal(
        self,
        part: &mut [f64],
        saved: &[f64],
        s: usize,
        before: Result<bool, Refusal>,
    ) -> Result<bool, Refusal>
        requires in_panel { (self.s0 ≤ s) × (s < self.column.width) }
        requires room { (row_start self.column.width self.column.rows ≤ length part.old) × (row_start self.column.width self.column.rows ≤ length saved.now) }
        ensures { DiagonalFinished self.column.first self.column.width self.s0 s saved.now (judgement_of before) part.old (judgement_of result) part.new }
    {
        let y = self.column.place(s, self.s0);
        let d = self.column.place(s, s);
        let value = minus_products(part, y, y, s - self.s0, part[d]);
        let pivot = binary64::judge(value);
        part[d] = diagonal_of(pivot);
        let entered = saved[d];
        calls::joined(
            before,
            checks::judge_column(self.column.first + s, entered, value, pivot, true),
        )
    }

    // The rows with the panel's diagonals, one after another.
    fn finish_triangle(
        self,
        part: &mut [f64],
        saved: &[f64],
        before: Result<bool, Refusal>,
    ) -> Result<bool, Refusal>
        requires room { (row_start self.column.width self.column.rows ≤ length part.old) × (row_start self.column.width self.column.rows ≤ length saved.now) }
        ensures { TriangleFinished self.column.first self.column.width self.s0 (self.s0 + self.g) (self.s0 + self.g) saved.now (judgement_of before) part.old (judgement_of result) part.new }
    {
        let mut judged = before;
        for s in self.s0..self.end() {
            self.finish_rows::<1>(part, s);
            judged = self.finish_diagonal(part, saved, s, judged);
        }
        judged
    }

    // The rows below them, eight at a time and then the rest.
    fn finish_below(self, part: &mut [f64])
        requires { row_start self.column.width self.column.rows ≤ length part.old }
        ensures { BelowFinished self.column.width self.s0 (self.s0 + self.g) (self.s0 + self.g) self.column.rows part.old part.new }
    {
        let end = self.end();
        let rows = self.column.rows;
        let whole = rows - (rows - end) % 8;
        for r in (end..whole).step_by(8) {
            self.finish_rows::<8>(part, r);
        }
        for r in whole..rows {
            self.finish_rows::<1>(part, r);
        }
    }

    // The panel less the products of the block column's own earlier columns, then finished. The work memory has the entry values, which stay, and behind
    // them what is spare.
    fn factor(
        self,
        part: &mut [f64],
        work: &mut [f64],
        before: Result<bool, Refusal>,
    ) -> Result<bool, Refusal>
        requires room { (row_start self.column.width self.column.rows ≤ length part.old) × (row_start self.column.width self.column.rows ≤ length work.old) }
        ensures columns_finished { ColumnsFinished self.column.first self.column.width self.column.rows self.s0 (self.s0 + self.g) work.old (judgement_of before) part.old (judgement_of result) part.new }
        ensures same_to { SameTo (row_start self.column.width self.column.rows) work.old work.new }
    {
        let size = self.column.size();
        self.update(part, &mut work[size..]);
        let judged = self.finish_triangle(part, work, before);
        self.finish_below(part);
        judged
    }
}

// The same holds of the memory.
impl BlockColumn {
    // All columns, panel by panel, judged by their pivots.
    fn factor_panels(
        self,
        part: &mut [f64],
        work: &mut [f64],
        before: Result<bool, Refusal>,
    ) -> Result<bool, Refusal>
        requires room { (row_start self.width self.rows ≤ length part.old) × (row_start self.width self.rows ≤ length work.old) }
        ensures columns_finished { ColumnsFinished self.first self.width self.rows 0 self.width work.old (judgement_of before) part.old (judgement_of result) part.new }
        ensures same_to { SameTo (row_start self.width self.rows) work.old work.new }
    {
        let mut judged = before;
        for s0 in (0..self.width).step_by(16) {
            let panel = Panel {
                column: self,
                s0,
                g: (self.width - s0).min(16),
            };
            judged = panel.factor(part, work, judged);
        }
        judged
    }

    // Whether the entries below the diagonal of column s are finite.
    fn column_finite(self, part: &[f64], s: usize) -> bool
        requires { (s < self.width) × (row_start self.width self.rows ≤ length part.now) }
        ensures { result ≡ column_finite self.width self.rows part.now s }
    {
        let mut finite = true;
        for r in s + 1..self.rows {
            finite = finite & binary64::is_finite(part[self.place(r, s)]);
        }
        finite
    }

    // The lowest column with an entry below its diagonal that is not finite. The columns are looked through only where some value is not finite.
    fn lowest_overflow(self, part: &[f64]) -> Option<usize>
        requires { row_start self.width self.rows ≤ length part.now }
        ensures some { IfSome result (λ s. (s < self.width) × LowestOverflow self.width self.rows part.now s) }
        ensures none { IfNone result (LowestOverflow self.width self.rows part.now self.width) }
    {
        if checks::all_finite(&part[..self.size()]) {
            return None;
        }
        for s in 0..self.width {
            if !self.column_finite(part, s) {
                return Some(s);
            }
        }
        None
    }

    // A finished block column judged, `first` being what its columns are judged to by their pivots. The lowest column with an overflow decides, unless one
    // before it is refused. Where its own pivot refuses it, the refusal's value is that pivot, and the column is judged once more.
    fn judge(
        self,
        part: &[f64],
        saved: &[f64],
        first: Result<bool, Refusal>,
    ) -> Result<bool, Refusal>
        requires room { (row_start self.width self.rows ≤ length part.now) × (row_start self.width self.rows ≤ length saved.now) }
        ensures { BlockColumnJudged self.first self.width self.rows saved.now (judgement_of first) part.now (judgement_of result) }
    {
        let Some(s) = self.lowest_overflow(part) else {
            return first;
        };
        let j = self.first + s;
        if let Err(refusal) = first {
            let Verdict { place, value, .. } = Verdict::from(refusal);
            if place < j {
                return first;
            }
            if place == j {
                let entered = saved[self.place(s, s)];
                return checks::judge_column(j, entered, value, binary64::judge(value), false);
            }
        }
        Err(Refusal::Overflow(j))
    }

    // Its values, less the products of the columns before it already, and then what the columns up to its end are judged to.
    fn factor(
        self,
        part: &mut [f64],
        work: &mut [f64],
        before: Result<bool, Refusal>,
    ) -> Result<bool, Refusal>
        requires room { (row_start self.width self.rows ≤ length part.old) × (row_start self.width self.rows ≤ length work.old) }
        ensures block_column_factored { BlockColumnFactored self.first self.width self.rows work.old (judgement_of before) part.old (judgement_of result) part.new }
        ensures same_to { SameTo (row_start self.width self.rows) work.old work.new }
    {
        let first = self.factor_panels(part, work, before);
        self.judge(part, work, first)
    }
}

// The block column that begins with column c; it is worked on as a part of the memory from its start on.
fn factor_part(
    m: &mut [f64],
    work: &mut [f64],
    shape: Shape,
    c: usize,
    before: Result<bool, Refusal>,
) -> Result<bool, Refusal>
    requires block_at { BlockAt shape.order shape.block c (length m.old) }
    requires work_len { length work.old ≡ block_work shape.order shape.block }
    ensures block_factored { BlockFactored shape.order shape.block c work.old (judgement_of before) m.old (judgement_of result) m.new }
    ensures same_to { SameTo (row_start (width shape.order shape.block c) (shape.order - c)) work.old work.new }
{
    let column = BlockColumn::new(shape, c);
    update_by_runs(m, &mut work[column.size()..], shape, c);
    column.factor(&mut m[column.start..], work, before)
}

// The columns before are accepted, and `exact` says whether their roots are. The entry values are kept in the work memory, whose rest is spare, and put
// back where a column is refused.
fn factor_step(
    m: &mut [f64],
    work: &mut [f64],
    shape: Shape,
    c: usize,
    exact: bool,
) -> Result<bool, Refusal>
    requires block_at { BlockAt shape.order shape.block c (length m.old) }
    requires work_len { length work.old ≡ block_work shape.order shape.block }
    ensures { BlockDone shape.order shape.block c (judgement_of (Ok exact)) m.old (judgement_of result) m.new }
{
    let column = BlockColumn::new(shape, c);
    let size = column.size();
    copy_part(m, column.start, work, 0, size);
    let judged = factor_part(m, work, shape, c, Ok(exact));
    if judged.is_err() {
        copy_part(work, 0, m, column.start, size);
    }
    judged
}

// All block columns, up to the one with the first refused column.
fn factor_blocks(m: &mut [f64], work: &mut [f64], shape: Shape) -> Result<bool, Refusal>
    requires { Sized shape.order shape.block (length m.old) (length work.old) }
    ensures { BlocksDone shape.order shape.block m.old (judgement_of result) m.new }
{
    let mut exact = true;
    for c in (0..shape.order).step_by(shape.block) {
        exact = factor_step(m, work, shape, c, exact)?;
    }
    Ok(exact)
}

// All block columns, with the work memory cleared afterwards.
fn factor_blocks_cleared(m: &mut [f64], work: &mut [f64], shape: Shape) -> Result<bool, Refusal>
    requires { Sized shape.order shape.block (length m.old) (length work.old) }
    ensures blocks_done { BlocksDone shape.order shape.block m.old (judgement_of result) m.new }
    ensures work_after { work.new ≡ replicate (block_work shape.order shape.block) zero64 }
{
    let judged = factor_blocks(m, work, shape);
    work.fill(0.0);
    judged
}

// With one column to a block, blocked order is packed order, and the plain factor does it.
fn factor_cleared(m: &mut [f64], work: &mut [f64], shape: Shape) -> Result<bool, Refusal>
    requires { Lent shape.order shape.block (length m.old) (length work.old) }
    ensures factored { Factored shape.order shape.block m.old (judgement_of result) m.new }
    ensures work_after { work.new ≡ replicate (block_work shape.order shape.block) zero64 }
{
    if shape.block == 1 {
        return plain_factor::factor_cleared(m, work, shape.order);
    }
    factor_blocks_cleared(m, work, shape)
}

// What the call comes to.
fn check_and_factor(shape: Shape, matrix: &mut [f64], work: &mut [f64]) -> Result<Success, Refusal>
    ensures { DoneAs (factorize Layout.Blocked shape matrix.old work.old) (judged_result (Call.Factor Layout.Blocked) shape (answer_of result)) matrix.new work.new }
{
    checks::check_factor(Layout::Blocked, shape, matrix, work.len())?;
    let needed = shape.block_work();
    let exact = factor_cleared(matrix, &mut work[..needed], shape)?;
    Ok(Success { value: 0.0, exact })
}

// The blocked factor of memory in blocked order.
pub fn factor(shape: Shape, matrix: &mut [f64], work: &mut [f64]) -> CallResult
    ensures { DoneAs (factorize Layout.Blocked shape matrix.old work.old) result matrix.new work.new }
{
    let outcome = check_and_factor(shape, matrix, work);
    calls::result(Call::Factor(Layout::Blocked), shape, outcome)
}
