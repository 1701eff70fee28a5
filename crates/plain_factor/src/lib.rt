// The plain factor. A column is formed in the work memory and written to the matrix once it is accepted. Where there is room, the lower rows of the
// column after it are reduced in the same pass over the matrix, and wait at the front of the work memory.
#![tactic(auto)]

ghost use Rattle.std.specs.Prelude.{◌≡◌, ℕ, ◌+◌, ◌-◌, ◌≤◌, ◌<◌, IfSome, length, get_or, drop, min, replicate};
ghost use Rattle.std.specs.Float.{nan, binary64};
ghost use Rattle.std.specs.Float.Ieee.{div};
ghost use Rattle.binary64.specs.Kinds.{zero64};
ghost use Rattle.shape.specs.Bounds.{max_order};
ghost use Rattle.shape.specs.Places.{triangle, packed_place};
ghost use Rattle.calls.specs.Triangles.{store_column};
ghost use Rattle.calls.specs.Calls.{DoneAs, judged_result, factorize};
ghost use Rattle.calls.specs.Outcomes.{judgement_of, answer_of};
ghost use Rattle.plain_factor.specs.Steps.{Packed, Room, Same, less_products, TileReduced, RowsReduced, GroupReduced, PairReduced};
ghost use Rattle.plain_factor.specs.Steps.{reduced, Reduced, Waiting, WaitingFrom, Divided, Judged, Factored};

use binary64::Pivot;
use calls::{Call, CallResult, Layout, Refusal, Success};
use shape::Shape;

// The place of entry (i, k), less i. The product is even, so the division is exact.
fn row_start(n: usize, k: usize) -> usize
    requires { (n ≤ max_order) × (k < n) }
    ensures place { result ≡ packed_place n 0 k }
    ensures fits { result + n ≤ triangle n }
{
    k * (2 * n - k - 1) / 2
}

// `count` columns of packed memory of order n, from column k on, where column k's row 0 would stand at `base`.
#[derive(Clone, Copy)]
struct Group<'a> {
    matrix: &'a [f64],
    n: usize,
    k: usize,
    count: usize,
    base: usize,
    ghost memory: { Packed n matrix.now },
    ghost high: { k + count ≤ n },
    ghost start: { base ≡ packed_place n 0 k },
}

impl Group<'_> {
    // W rows from row i on, less their products with row j in the first `count` columns.
    fn reduce_tile<const W: usize>(
        &self,
        rows: [f64; W],
        j: usize,
        i: usize,
        count: usize,
    ) -> [f64; W]
        requires { (j < self.now.n) × (i + W ≤ self.now.n) × (count ≤ self.now.count) }
        ensures { TileReduced W self.now.n self.now.matrix.now j self.now.k count i rows.entry result }
    {
        let mut reduced = rows;
        let mut start = self.base;
        for c in 0..count {
            reduced = kernels::step(reduced, self.matrix, start + i, self.matrix[start + j]);
            start += self.n - self.k - c - 1;
        }
        reduced
    }

    // The 16 rows from row i on, which lie from place s on. A whole group has its count written out, so that its loop is unrolled.
    fn reduce_part(&self, work: &mut [f64], j: usize, i: usize, s: usize)
        requires { (j < self.now.n) × (i + 16 ≤ self.now.n) × (s + 16 ≤ length work.old) }
        ensures { RowsReduced self.now.n self.now.matrix.now j self.now.k self.now.count i s 16 work.old work.new }
    {
        let rows = kernels::load::<16>(work, s);
        let reduced = if self.count == 8 {
            self.reduce_tile(rows, j, i, 8)
        } else {
            self.reduce_tile(rows, j, i, self.count)
        };
        kernels::store(work, s, reduced);
    }

    // The rows of column j before `to`: in tiles that end there, whose rows above the column do not count, and one by one before the tiles that have room.
    fn reduce(&self, work: &mut [f64], j: usize, to: usize)
        requires { (length work.old ≡ self.now.n) × (j ≤ to) × (to ≤ self.now.n) × (j < self.now.n) }
        ensures { GroupReduced self.now.n self.now.matrix.now j self.now.k self.now.count to work.old work.new }
    {
        let tiles = (to - j).div_ceil(16).min(to / 16);
        let first = to - 16 * tiles;
        for i in j..first {
            let [row] = self.reduce_tile([work[i]], j, i, self.count);
            work[i] = row;
        }
        for i in (first..to).step_by(16) {
            self.reduce_part(work, j, i, i);
        }
    }

    // The rows from `top` on of column j, row i at i, and of column j + 1, row i at i − top.
    fn reduce_pair(&self, work: &mut [f64], j: usize, top: usize)
        requires work_len { length work.old ≡ self.now.n }
        requires room { Room self.now.n (j + 1) top }
        ensures { PairReduced self.now.n self.now.matrix.now j self.now.k self.now.count top (self.now.n - top) work.old work.new }
    {
        for i in (top..self.n).step_by(16) {
            self.reduce_part(work, j, i, i);
            self.reduce_part(work, j + 1, i, i - top);
        }
    }
}

// Column j of packed memory of order n. The work memory is no field, though each step asks for its length: clauses on `self.new.work.now` read no plainer.
#[derive(Clone, Copy)]
struct Column<'a> {
    matrix: &'a [f64],
    n: usize,
    j: usize,
    ghost memory: { Packed n matrix.now },
    ghost inside: { j < n },
}

impl<'a> Column<'a> {
    // The columns before it from column k on, at most eight.
    fn group(&self, k: usize) -> Group<'a>
        requires { k < self.now.j }
        ensures memory { (result.matrix.now ≡ self.now.matrix.now) × (result.n ≡ self.now.n) }
        ensures columns { (result.k ≡ k) × (result.count ≡ min (self.now.j - k) 8) }
    {
        Group {
            matrix: self.matrix,
            n: self.n,
            k,
            count: (self.j - k).min(8),
            base: row_start(self.n, k),
        }
    }

    // The rows before `to`, reduced by all columns before it.
    fn reduce(&self, work: &mut [f64], to: usize)
        requires work_len { (length work.old ≡ self.now.n) × (self.now.j ≤ to) × (to ≤ self.now.n) }
        requires loaded { Reduced self.now.n self.now.matrix.now self.now.j 0 self.now.j to work.old }
        ensures reduced { Reduced self.now.n self.now.matrix.now self.now.j self.now.j self.now.j to work.new }
        ensures above { Same 0 (self.now.j - 15) work.old work.new }
        ensures below { Same to self.now.n work.old work.new }
    {
        for k in (0..self.j).step_by(8) {
            self.group(k).reduce(work, self.j, to);
        }
    }

    // The rows from `top` on, row i at i, and those of the column after it, row i at i − top, reduced by all columns before both.
    fn reduce_pair(&self, work: &mut [f64], top: usize)
        requires work_len { length work.old ≡ self.now.n }
        requires room { Room self.now.n (self.now.j + 1) top }
        requires loaded { Reduced self.now.n self.now.matrix.now self.now.j 0 top self.now.n work.old }
        requires waiting { Waiting self.now.n self.now.matrix.now (self.now.j + 1) 0 top work.old }
        ensures reduced { Reduced self.now.n self.now.matrix.now self.now.j self.now.j top self.now.n work.new }
        ensures next { Waiting self.now.n self.now.matrix.now (self.now.j + 1) self.now.j top work.new }
        ensures between { Same (self.now.n - top) top work.old work.new }
    {
        for k in (0..self.j).step_by(8) {
            self.group(k).reduce_pair(work, self.j, top);
        }
    }

    // The entry values of its rows from `from` on.
    fn load(&self, rows: &mut [f64], from: usize)
        requires { from + length rows.old ≤ self.now.n }
        ensures { (r : ℕ) → r < length rows.new → get_or rows.new r nan ≡ reduced self.now.n self.now.matrix.now self.now.j 0 (from + r) }
    {
        let start = row_start(self.n, self.j) + from;
        // A loop: with `copy_from_slice` the factor was measured 12 % slower, since the code after the C library's wide moves is.
        for r in 0..rows.len() {
            rows[r] = self.matrix[start + r];
        }
    }

    // The rows from `top` on, brought from the front to their places and reduced by the column before.
    fn take_waiting(&self, work: &mut [f64], top: usize)
        requires work_len { length work.old ≡ self.now.n }
        requires room { Room self.now.n self.now.j top }
        requires waiting { Waiting self.now.n self.now.matrix.now self.now.j (self.now.j - 1) top work.old }
        ensures { Reduced self.now.n self.now.matrix.now self.now.j self.now.j top self.now.n work.new }
    {
        let last = row_start(self.n, self.j - 1);
        let x = self.matrix[last + self.j];
        for i in top..self.n {
            work[i] = work[i - top] - self.matrix[last + i] * x;
        }
    }

    // The column, of which no row waits.
    fn form_alone(&self, work: &mut [f64])
        requires work_len { length work.old ≡ self.now.n }
        ensures { Reduced self.now.n self.now.matrix.now self.now.j self.now.j self.now.j self.now.n work.new }
    {
        self.load(&mut work[self.j..], self.j);
        self.reduce(work, self.n);
    }

    // The same, and the rows from `next` on of the column after it, which are to wait.
    fn form_pair(&self, work: &mut [f64], next: usize)
        requires work_len { length work.old ≡ self.now.n }
        requires room { Room self.now.n (self.now.j + 1) next }
        ensures rows { Reduced self.now.n self.now.matrix.now self.now.j self.now.j self.now.j self.now.n work.new }
        ensures next { Waiting self.now.n self.now.matrix.now (self.now.j + 1) self.now.j next work.new }
    {
        let after = Column {
            matrix: self.matrix,
            n: self.n,
            j: self.j + 1,
        };
        self.load(&mut work[self.j..], self.j);
        after.load(&mut work[..self.n - next], next);
        self.reduce_pair(work, next);
        self.reduce(work, next);
    }

    // The column, of which the rows from `top` on wait at the front.
    fn form_waiting(&self, work: &mut [f64], top: usize)
        requires work_len { length work.old ≡ self.now.n }
        requires room { Room self.now.n self.now.j top }
        requires waiting { Waiting self.now.n self.now.matrix.now self.now.j (self.now.j - 1) top work.old }
        ensures { Reduced self.now.n self.now.matrix.now self.now.j self.now.j self.now.j self.now.n work.new }
    {
        self.take_waiting(work, top);
        self.load(&mut work[self.j..top], self.j);
        self.reduce(work, top);
    }

    // The row from which on the column after it is reduced beside it. These are whole tiles, below the diagonals of both and no more than fit before the 15
    // rows above this one that its first tile may reach.
    fn top_after(&self) -> Option<usize>
        ensures { IfSome result (λ top. Room self.now.n (self.now.j + 1) top) }
    {
        let below = self.n - self.j - 1;
        let room = self.j.saturating_sub(15);
        let rows = below.min(room) / 16 * 16;
        if rows == 0 { None } else { Some(self.n - rows) }
    }

    // The column, of which the rows from `top` on wait, if any. Answers the row from which on the column after it waits now, if any.
    fn form(&self, work: &mut [f64], top: Option<usize>) -> Option<usize>
        requires work_len { length work.old ≡ self.now.n }
        requires waiting { IfSome top (λ top. WaitingFrom self.now.n self.now.matrix.now self.now.j top work.old) }
        ensures rows { Reduced self.now.n self.now.matrix.now self.now.j self.now.j self.now.j self.now.n work.new }
        ensures next { IfSome result (λ top. WaitingFrom self.now.n self.now.matrix.now (self.now.j + 1) top work.new) }
    {
        if let Some(top) = top {
            self.form_waiting(work, top);
            return None;
        }
        let next = self.top_after();
        match next {
            Some(next) => self.form_pair(work, next),
            None => self.form_alone(work),
        }
        next
    }
}

// The rows divided by the diagonal value.
fn divide(rows: &mut [f64], diagonal: f64)
    ensures { (r : ℕ) → r < length rows.old → get_or rows.new r nan ≡ div binary64 (get_or rows.old r nan) diagonal }
{
    for row in rows.iter_mut() {
        *row = *row / diagonal;
    }
}

// The column with its diagonal value: the rows below divided by it. Answers whether these are all finite.
fn divide_rows(work: &mut [f64], j: usize, diagonal: f64) -> bool
    requires { j < length work.old }
    ensures { Divided j diagonal work.old work.new result }
{
    work[j] = diagonal;
    let below = &mut work[j + 1..];
    divide(below, diagonal);
    checks::all_finite(below)
}

// The finished column, row i at i, written to the matrix.
fn store_column(matrix: &mut [f64], work: &[f64], n: usize, j: usize)
    requires memory { Packed n matrix.old }
    requires work_len { (length work.now ≡ n) × (j < n) }
    ensures { matrix.new ≡ store_column (packed_place n) j (drop j work.now) matrix.old }
{
    let start = row_start(n, j);
    // A loop, as in `load`.
    for i in j..n {
        matrix[start + i] = work[i];
    }
}

// The column that is formed in the work memory, judged, and written to the matrix where it is accepted.
fn finish_column(matrix: &mut [f64], work: &mut [f64], n: usize, j: usize) -> Result<bool, Refusal>
    requires memory { Packed n matrix.old }
    requires work_len { (length work.old ≡ n) × (j < n) }
    requires reduced { Reduced n matrix.old j j j n work.old }
    ensures judged { Judged n j matrix.old (judgement_of result) matrix.new }
    ensures same { Same 0 j work.old work.new }
{
    let entered = matrix[row_start(n, j) + j];
    let value = work[j];
    let pivot = binary64::judge(value);
    let finite = match pivot {
        Pivot::Root(diagonal, _) => divide_rows(work, j, diagonal),
        Pivot::Refused(_) => true,
    };
    let exact = checks::judge_column(j, entered, value, pivot, finite)?;
    store_column(matrix, work, n, j);
    Ok(exact)
}

// The columns in rising order, and none after the first that is refused.
fn factor_columns(matrix: &mut [f64], work: &mut [f64], n: usize) -> Result<bool, Refusal>
    requires { (n ≤ max_order) × (length matrix.old ≡ triangle n) × (length work.old ≡ n) }
    ensures { Factored n matrix.old (judgement_of result) matrix.new }
{
    let mut exact = true;
    let mut top = None;
    for j in 0..n {
        let column = Column { matrix, n, j };
        top = column.form(work, top);
        exact = calls::joined(Ok(exact), finish_column(matrix, work, n, j))?;
    }
    Ok(exact)
}

// All columns, with the work memory cleared afterwards. Answers whether every root is exact.
pub fn factor_cleared(matrix: &mut [f64], work: &mut [f64], n: usize) -> Result<bool, Refusal>
    requires { (n ≤ max_order) × (length matrix.old ≡ triangle n) × (length work.old ≡ n) }
    ensures factored { Factored n matrix.old (judgement_of result) matrix.new }
    ensures work_after { work.new ≡ replicate n zero64 }
{
    let exact = factor_columns(matrix, work, n);
    checks::clear(work);
    exact
}

// What the call comes to.
fn factor_checked(shape: Shape, matrix: &mut [f64], work: &mut [f64]) -> Result<Success, Refusal>
    ensures { DoneAs (factorize Layout.Packed shape matrix.old work.old) (judged_result (Call.Factor Layout.Packed) shape (answer_of result)) matrix.new work.new }
{
    checks::check_factor(Layout::Packed, shape, matrix, work.len())?;
    let n = shape.order;
    let exact = factor_cleared(matrix, &mut work[..n], n)?;
    Ok(Success { value: 0.0, exact })
}

// The plain factor of packed memory.
pub fn factor(shape: Shape, matrix: &mut [f64], work: &mut [f64]) -> CallResult
    ensures { DoneAs (factorize Layout.Packed shape matrix.old work.old) result matrix.new work.new }
{
    let outcome = factor_checked(shape, matrix, work);
    calls::result(Call::Factor(Layout::Packed), shape, outcome)
}
