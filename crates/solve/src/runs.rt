// Both substitutions on a run of narrow block columns, as many whole ones as sixteen columns hold, so that enough products are under way at once.
ghost use Rattle.std.specs.Prelude.{◌≡◌, ℕ, ◌+◌, ◌-◌, ◌%◌, ◌≤◌, ◌<◌, length, get_or};
ghost use Rattle.std.specs.Float.{nan};
ghost use Rattle.shape.specs.Places.{block_of, width, blocked_place};
ghost use Rattle.calls.specs.Arithmetic.{minus_products};

use crate::blocked::Blocked;
use kernels::{Run, load_part, load_tile, reduce_columns, reduce_run, store_part};
use shape::Shape;

// The first w columns of its memory.
#[derive(Clone, Copy)]
pub struct ColumnRun<'a> {
    pub memory: Blocked<'a>,
    pub w: usize,
    pub ghost low: { 1 < memory.shape.block },
    pub ghost high: { memory.shape.block < 16 },
    pub ghost columns: { w ≡ width memory.shape.order (block_of memory.shape.block 16) 0 },
}

impl<'a> ColumnRun<'a> {
    ghost use Rattle.solve.specs.Substitution.{RowsSubtracted, ForwardDone, ProductsSubtracted, BackwardDone};
    ghost use Rattle.solve.specs.Parts.{RunIs, blocked_entries};

    pub fn new(memory: Blocked<'a>) -> Self
        requires { (1 < memory.shape.block) × (memory.shape.block < 16) }
        ensures { result.memory ≡ memory.entry }
    {
        let columns = memory.shape.block_of(16);
        ColumnRun {
            memory,
            w: columns.min(memory.shape.order),
        }
    }

    // Its numbers, for the kernels.
    fn numbers(&self) -> Run
        ensures { RunIs self.now result }
    {
        let b = self.memory.shape.block;
        Run {
            start: 0,
            order: self.memory.shape.order,
            block: b,
            corner: Shape::new(b, b).triangle(),
            columns: self.w,
        }
    }

    // The products of the run's rows are subtracted from the first `len` of the ROWS rows below them from row r on.
    fn forward_tile<const ROWS: usize>(&self, r: usize, len: usize, work: &mut [f64])
        requires work_rows { length work.old ≡ self.now.memory.shape.order }
        requires tile { (self.now.w ≤ r) × (r + ROWS ≤ self.now.memory.shape.order) × (0 < ROWS) × (len ≤ ROWS) }
        ensures { RowsSubtracted (blocked_entries self.now.memory) self.now.w r (r + len) work.old work.new }
    {
        let tile = load_tile::<ROWS, 1>(work, r, 1, 1);
        let less = reduce_run(tile, self.memory.matrix, self.numbers(), r, work);
        for s in 0..len {
            work[r + s] = less[s][0];
        }
    }

    // They are subtracted from the rows from `from` on, ROWS at a time.
    fn forward_tiles<const ROWS: usize>(&self, from: usize, work: &mut [f64])
        requires work_rows { length work.old ≡ self.now.memory.shape.order }
        requires tiles { (self.now.w ≤ from) × (from ≤ self.now.memory.shape.order) × (0 < ROWS)
            × ((self.now.memory.shape.order - from) % ROWS ≡ 0) }
        ensures { RowsSubtracted (blocked_entries self.now.memory) self.now.w from self.now.memory.shape.order work.old work.new }
    {
        for r in (from..self.memory.shape.order).step_by(ROWS) {
            self.forward_tile::<ROWS>(r, ROWS, work);
        }
    }

    // They are subtracted from all rows below them: eight at a time, first from those that eights leave; fewer than eight rows go one by one.
    fn forward_rows(&self, work: &mut [f64])
        requires { length work.old ≡ self.now.memory.shape.order }
        ensures { RowsSubtracted (blocked_entries self.now.memory) self.now.w self.now.w self.now.memory.shape.order work.old work.new }
    {
        let w = self.w;
        let rows = self.memory.shape.order - w;
        if rows < 8 {
            self.forward_tiles::<1>(w, work);
        } else {
            let left = rows % 8;
            if 0 < left {
                self.forward_tile::<8>(w, left, work);
            }
            self.forward_tiles::<8>(w + left, work);
        }
    }

    pub fn forward(&self, work: &mut [f64])
        requires { length work.old ≡ self.now.memory.shape.order }
        ensures { ForwardDone (blocked_entries self.now.memory) self.now.memory.shape.order self.now.w work.old work.new }
    {
        let w = self.w;
        self.memory.forward_blocks(&mut work[..w]);
        self.forward_rows(work);
    }

    // The columns of a whole run less the products of the last `count` rows, from the last up: a loop for each block length.
    fn columns(&self, tile: [f64; 16], work: &[f64], count: usize) -> [f64; 16]
        requires { (self.now.w + count ≤ self.now.memory.shape.order) × (self.now.w < self.now.memory.shape.order)
            × (self.now.memory.shape.order ≤ length work.now) }
        ensures { (j : ℕ) → j < self.now.w →
            get_or result j nan
            ≡ minus_products (λ k. blocked_entries self.now.memory (self.now.memory.shape.order - 1 - k) j)
            (λ k. get_or work.now (self.now.memory.shape.order - 1 - k) nan) count (get_or tile j nan) }
    {
        let h = self.memory.shape.order;
        let part = self.memory.matrix;
        match self.memory.shape.block {
            2 => reduce_columns::<16, 2>(tile, part, h, work, count),
            3 => reduce_columns::<15, 3>(tile, part, h, work, count),
            4 => reduce_columns::<16, 4>(tile, part, h, work, count),
            5 => reduce_columns::<15, 5>(tile, part, h, work, count),
            6 => reduce_columns::<12, 6>(tile, part, h, work, count),
            7 => reduce_columns::<14, 7>(tile, part, h, work, count),
            8 => reduce_columns::<16, 8>(tile, part, h, work, count),
            9 => reduce_columns::<9, 9>(tile, part, h, work, count),
            10 => reduce_columns::<10, 10>(tile, part, h, work, count),
            11 => reduce_columns::<11, 11>(tile, part, h, work, count),
            12 => reduce_columns::<12, 12>(tile, part, h, work, count),
            13 => reduce_columns::<13, 13>(tile, part, h, work, count),
            14 => reduce_columns::<14, 14>(tile, part, h, work, count),
            _ => reduce_columns::<15, 15>(tile, part, h, work, count),
        }
    }

    // The products of all rows below a whole run are subtracted from its rows.
    fn backward_rows(&self, work: &mut [f64])
        requires rows { length work.old ≡ self.now.memory.shape.order }
        requires w_lt_order { self.now.w < self.now.memory.shape.order }
        ensures { ProductsSubtracted (blocked_entries self.now.memory) self.now.memory.shape.order self.now.w work.old work.new }
    {
        let w = self.w;
        let tile = load_part::<16>(work, 0, w);
        let less = self.columns(tile, work, self.memory.shape.order - w);
        store_part(work, 0, less, w);
    }

    pub fn backward(&self, work: &mut [f64])
        requires { length work.old ≡ self.now.memory.shape.order }
        ensures { BackwardDone (blocked_entries self.now.memory) self.now.memory.shape.order self.now.w work.old work.new }
    {
        let w = self.w;
        if w < self.memory.shape.order {
            self.backward_rows(work);
        }
        self.memory.backward_blocks(&mut work[..w]);
    }
}
