// Both substitutions on one block column of a blocked factor, or on what is left of it: each of its rows is contiguous.
ghost use Rattle.std.specs.Prelude.{◌≡◌, ℕ, ◌+◌, ◌-◌, ◌*◌, ◌≤◌, ◌<◌, length, get_or};
ghost use Rattle.std.specs.Float.{nan};
ghost use Rattle.shape.specs.Bounds.{max_order};
ghost use Rattle.shape.specs.Places.{block_start, place_in_block};

use kernels::{apart, gather, load, scatter, step, store, subtract_multiple, subtract_rising};
use shape::Shape;

// A block column without its first `skip` rows and columns: h rows and w columns are left, and the first w rows are their triangle. The part of memory
// begins with the whole block column.
#[derive(Clone, Copy)]
pub struct BlockColumn<'a> {
    pub skip: usize,
    pub h: usize,
    pub w: usize,
    pub part: &'a [f64],
    pub ghost order: { skip + h ≤ max_order },
    pub ghost columns: { 0 < w },
    pub ghost fits: { w ≤ h },
    pub ghost values: { block_start (skip + h) (skip + w) ≤ length part.now },
}

impl BlockColumn<'_> {
    ghost use Rattle.solve.specs.Substitution.{TriangleForward, RowsApart, RowsSubtracted, ForwardDone, RowTaken, ColumnsSubtracted, ProductsSubtracted, BackwardDone};
    ghost use Rattle.solve.specs.Parts.{block_entries};

    // Where the entry in row r and column s is; row h is past the last.
    fn place(&self, r: usize, s: usize) -> usize
        requires { (s ≤ r) × (r ≤ self.now.h) }
        ensures { result ≡ place_in_block (self.now.skip + self.now.w) (self.now.skip + r) (self.now.skip + s) }
    {
        Shape::place_in_block(self.skip + self.w, self.skip + r, self.skip + s)
    }

    // The first w rows are finished.
    fn forward_triangle(&self, work: &mut [f64])
        requires { length work.old ≡ self.now.h }
        ensures { TriangleForward (block_entries self.now) self.now.w work.old work.new }
    {
        let part = self.part;
        let skip = self.skip;
        let mut at = self.place(0, 0);
        for r in 0..self.w {
            let [value] = subtract_rising([work[r]], part, [at], &work[..r]);
            work[r] = value / part[at + r];
            at += skip + r + 1;
        }
    }

    // The products of the first w rows are subtracted from eight rows below them, the first of them w + t and each q below the one before.
    fn forward_rows8(&self, q: usize, t: usize, work: &mut [f64])
        requires rows { length work.old ≡ self.now.h }
        requires t_lt_q { (t < q) × (self.now.w + 8 * q ≤ self.now.h) }
        ensures { RowsApart (block_entries self.now) self.now.w q t work.old work.new }
    {
        let w = self.w;
        let first = w + t;
        let from = self.place(first, 0);
        let places = apart::<8>(from, q * (self.skip + w));
        let rows = apart::<8>(first, q);
        let values = subtract_rising(gather(work, rows, 0), self.part, places, &work[..w]);
        scatter(work, rows, 0, values);
    }

    // They are subtracted from the rows from `from` on, one by one.
    fn forward_last_rows(&self, from: usize, work: &mut [f64])
        requires rows { length work.old ≡ self.now.h }
        requires w_le_from { self.now.w ≤ from }
        requires from_le_h { from ≤ self.now.h }
        ensures { RowsSubtracted (block_entries self.now) self.now.w from self.now.h work.old work.new }
    {
        let part = self.part;
        let w = self.w;
        let width = self.skip + w;
        let mut at = self.place(from, 0);
        for r in from..self.h {
            let [value] = subtract_rising([work[r]], part, [at], &work[..w]);
            work[r] = value;
            at += width;
        }
    }

    // They are subtracted from all rows below them: eight at a time, one of each eighth of the rows, since memory delivers eight streams faster than
    // one; and then the rows that eights leave.
    fn forward_rows(&self, work: &mut [f64])
        requires { length work.old ≡ self.now.h }
        ensures { RowsSubtracted (block_entries self.now) self.now.w self.now.w self.now.h work.old work.new }
    {
        let q = (self.h - self.w) / 8;
        for t in 0..q {
            self.forward_rows8(q, t, work);
        }
        self.forward_last_rows(self.w + 8 * q, work);
    }

    pub fn forward(&self, work: &mut [f64])
        requires { length work.old ≡ self.now.h }
        ensures { ForwardDone (block_entries self.now) self.now.h self.now.w work.old work.new }
    {
        self.forward_triangle(work);
        self.forward_rows(work);
    }

    // The products of the rows from `first` on and before `end`, below the first w, are subtracted, from the last row up, from rows s to s + 15 of these.
    fn backward_columns16(&self, s: usize, first: usize, end: usize, work: &mut [f64])
        requires rows { length work.old ≡ self.now.h }
        requires s_bound { (s + 16 ≤ self.now.w) × (self.now.w ≤ first) × (first ≤ end) × (end ≤ self.now.h) }
        ensures { ColumnsSubtracted (block_entries self.now) end (end - first) s (s + 16) work.old work.new }
    {
        let part = self.part;
        let width = self.skip + self.w;
        let mut values = load::<16>(work, s);
        let mut at = self.place(end, s);
        for r in (first..end).rev() {
            at -= width;
            let next = step(values, part, at, work[r]);
            values = next;
        }
        store(work, s, values);
    }

    // The products of row r, below the first w, are subtracted from these from row `from` on.
    fn backward_row(&self, from: usize, r: usize, work: &mut [f64])
        requires rows { length work.old ≡ self.now.h }
        requires from_le_w { from ≤ self.now.w }
        requires w_le_r { self.now.w ≤ r }
        requires r_lt_h { r < self.now.h }
        ensures { RowTaken (block_entries self.now) r (get_or work.old r nan) from self.now.w work.old work.new }
    {
        let w = self.w;
        let at = self.place(r, from);
        let end = at + (w - from);
        let x = work[r];
        subtract_multiple(&mut work[from..w], &self.part[at..end], x);
    }

    // So are those of the rows from `first` on and before `end`, from the last row up. The copy stays in registers, where what `self` points to would be
    // read again after each row's values are written.
    fn backward_last_columns(&self, from: usize, first: usize, end: usize, work: &mut [f64])
        requires rows { length work.old ≡ self.now.h }
        requires from_le_w { (from ≤ self.now.w) × (self.now.w ≤ first) × (first ≤ end) × (end ≤ self.now.h) }
        ensures { ColumnsSubtracted (block_entries self.now) end (end - first) from self.now.w work.old work.new }
    {
        let block = *self;
        for r in (first..end).rev() {
            block.backward_row(from, r, work);
        }
    }

    // They are subtracted from all of the first w: sixteen at a time, and then the rows that sixteens leave.
    fn backward_tile(&self, first: usize, end: usize, work: &mut [f64])
        requires rows { length work.old ≡ self.now.h }
        requires w_le_first { (self.now.w ≤ first) × (first ≤ end) × (end ≤ self.now.h) }
        ensures { ColumnsSubtracted (block_entries self.now) end (end - first) 0 self.now.w work.old work.new }
    {
        let sixteens = self.w / 16;
        for q in 0..sixteens {
            self.backward_columns16(16 * q, first, end, work);
        }
        if 16 * sixteens < self.w {
            self.backward_last_columns(16 * sixteens, first, end, work);
        }
    }

    // The products of all rows below the first w, a tile of them after another from the last up, so that a tile is still in the cache for its next
    // columns: its rows have some 1,024 values, 8 KB.
    fn backward_rows(&self, work: &mut [f64])
        requires { length work.old ≡ self.now.h }
        ensures { ProductsSubtracted (block_entries self.now) self.now.h self.now.w work.old work.new }
    {
        let w = self.w;
        let rows = 1 + 1023 / w;
        for done in (0..self.h - w).step_by(rows) {
            let end = self.h - done;
            let first = end - rows.min(end - w);
            self.backward_tile(first, end, work);
        }
    }

    // The first w rows are finished from the last up, each taking its products from those before it.
    fn backward_triangle(&self, work: &mut [f64])
        requires { length work.old ≡ self.now.h }
        ensures { BackwardDone (block_entries self.now) self.now.w self.now.w work.old work.new }
    {
        let part = self.part;
        let skip = self.skip;
        let w = self.w;
        let mut at = self.place(w, 0);
        for r in (0..w).rev() {
            at -= skip + r + 1;
            let end = at + r;
            let x = work[r] / part[end];
            work[r] = x;
            subtract_multiple(&mut work[..r], &part[at..end], x);
        }
    }

    pub fn backward(&self, work: &mut [f64])
        requires { length work.old ≡ self.now.h }
        ensures { BackwardDone (block_entries self.now) self.now.h self.now.w work.old work.new }
    {
        self.backward_rows(work);
        self.backward_triangle(work);
    }
}
