// Both substitutions on a blocked factor: wide block columns one after another, narrow ones several at a time by runs.rt.
ghost use Rattle.std.specs.Prelude.{◌≡◌, ◌+◌, ◌-◌, ◌≤◌, ◌<◌, length, drop};
ghost use Rattle.shape.specs.Bounds.{max_order};
ghost use Rattle.shape.specs.Places.{triangle, block_of, block_start, blocked_place};
ghost use Rattle.calls.specs.Triangles.{load_from};
ghost use Rattle.calls.specs.Arithmetic as Arithmetic;

use crate::block_column::BlockColumn;
use crate::packed::Packed;
use crate::runs::ColumnRun;
use shape::Shape;

// A factor in blocked memory.
#[derive(Clone, Copy)]
pub struct Blocked<'a> {
    pub shape: Shape,
    pub matrix: &'a [f64],
    pub ghost order: { shape.order ≤ max_order },
    pub ghost block: { 0 < shape.block },
    pub ghost values: { length matrix.now ≡ triangle shape.order },
}

impl<'a> Blocked<'a> {
    ghost use Rattle.solve.specs.Parts.{EndsBlock, TrailingOf, RunAt, blocked_factor};

    // The columns from column c on, the first of a block column or n: blocked memory of order n − c.
    pub fn trailing(&self, c: usize) -> Blocked<'a>
        requires { c ≤ self.now.shape.order }
        ensures { (result.shape.order ≡ self.now.shape.order - c) × (result.shape.block ≡ self.now.shape.block)
            × (result.matrix.now ≡ drop (block_start self.now.shape.order c) self.now.matrix.now) }
    {
        let at = self.shape.block_start(c);
        Blocked {
            shape: Shape::new(self.shape.order - c, self.shape.block),
            matrix: &self.matrix[at..],
        }
    }

    // What is left, from column k on, of the block column that holds it, with the rows before `rows`.
    fn block_column(&self, k: usize, rows: usize) -> BlockColumn<'a>
        requires { (k < rows) × (rows ≤ self.now.shape.order) × EndsBlock self.now.shape.order self.now.shape.block rows }
        ensures { TrailingOf self.now rows k result }
    {
        let c = self.shape.block_of(k);
        let at = self.shape.block_start(c);
        let skip = k - c;
        BlockColumn {
            skip,
            h: rows - k,
            w: self.shape.block_width(c) - skip,
            part: &self.matrix[at..],
        }
    }

    // The first rows, as many as the work memory has, are finished. They end with a block column.
    pub fn forward_blocks(&self, work: &mut [f64])
        requires { (length work.old ≤ self.now.shape.order) × EndsBlock self.now.shape.order self.now.shape.block (length work.old) }
        ensures { work.new ≡ Arithmetic.forward (length work.old) (blocked_factor self.now) work.old }
    {
        let rows = work.len();
        let b = self.shape.block;
        for c in (0..rows).step_by(b) {
            self.block_column(c, rows).forward(&mut work[c..]);
        }
    }

    pub fn backward_blocks(&self, work: &mut [f64])
        requires { (length work.old ≤ self.now.shape.order) × EndsBlock self.now.shape.order self.now.shape.block (length work.old) }
        ensures { work.new ≡ Arithmetic.backward (length work.old) (blocked_factor self.now) work.old }
    {
        let rows = work.len();
        let b = self.shape.block;
        for q in (0..rows.div_ceil(b)).rev() {
            let c = q * b;
            self.block_column(c, rows).backward(&mut work[c..]);
        }
    }

    // The run that begins with column c, the first of a run.
    fn run(&self, c: usize) -> ColumnRun<'a>
        requires { (1 < self.now.shape.block) × (self.now.shape.block < 16) × (c < self.now.shape.order)
            × (block_of (block_of self.now.shape.block 16) c ≡ c) }
        ensures { RunAt self.now c result }
    {
        ColumnRun::new(self.trailing(c))
    }

    fn forward_runs(&self, work: &mut [f64])
        requires { (1 < self.now.shape.block) × (self.now.shape.block < 16) × (length work.old ≡ self.now.shape.order) }
        ensures { work.new ≡ Arithmetic.forward self.now.shape.order (blocked_factor self.now) work.old }
    {
        let step = self.shape.block_of(16);
        for c in (0..self.shape.order).step_by(step) {
            self.run(c).forward(&mut work[c..]);
        }
    }

    fn backward_runs(&self, work: &mut [f64])
        requires { (1 < self.now.shape.block) × (self.now.shape.block < 16) × (length work.old ≡ self.now.shape.order) }
        ensures { work.new ≡ Arithmetic.backward self.now.shape.order (blocked_factor self.now) work.old }
    {
        let step = self.shape.block_of(16);
        for q in (0..self.shape.order.div_ceil(step)).rev() {
            let c = q * step;
            self.run(c).backward(&mut work[c..]);
        }
    }

    // Block columns of one column are packed memory.
    fn packed(&self) -> Packed<'a>
        ensures { (result.order ≡ self.now.shape.order) × (result.matrix.now ≡ self.now.matrix.now) }
    {
        Packed {
            order: self.shape.order,
            matrix: self.matrix,
        }
    }

    pub fn forward(&self, work: &mut [f64])
        requires { length work.old ≡ self.now.shape.order }
        ensures { work.new ≡ Arithmetic.forward self.now.shape.order (blocked_factor self.now) work.old }
    {
        match self.shape.block {
            1 => self.packed().forward(work),
            2..=15 => self.forward_runs(work),
            _ => self.forward_blocks(work),
        }
    }

    pub fn backward(&self, work: &mut [f64])
        requires { length work.old ≡ self.now.shape.order }
        ensures { work.new ≡ Arithmetic.backward self.now.shape.order (blocked_factor self.now) work.old }
    {
        match self.shape.block {
            1 => self.packed().backward(work),
            2..=15 => self.backward_runs(work),
            _ => self.backward_blocks(work),
        }
    }

    // The trailing triangle from column k on: what is left of the block column that holds k, and then the whole ones after it.
    pub fn forward_from(&self, k: usize, work: &mut [f64])
        requires k_le_order { (k ≤ self.now.shape.order) × (0 < k → k < self.now.shape.order) }
        requires rows { length work.old ≡ self.now.shape.order - k }
        ensures { work.new
            ≡ Arithmetic.forward (self.now.shape.order - k)
            (load_from k (blocked_place self.now.shape.order self.now.shape.block) self.now.shape.order self.now.matrix.now)
            work.old }
    {
        if self.shape.block_of(k) == k {
            self.trailing(k).forward(work);
        } else {
            let block = self.block_column(k, self.shape.order);
            let w = block.w;
            block.forward(work);
            self.trailing(k + w).forward(&mut work[w..]);
        }
    }

    pub fn backward_from(&self, k: usize, work: &mut [f64])
        requires k_le_order { (k ≤ self.now.shape.order) × (0 < k → k < self.now.shape.order) }
        requires rows { length work.old ≡ self.now.shape.order - k }
        ensures { work.new
            ≡ Arithmetic.backward (self.now.shape.order - k)
            (load_from k (blocked_place self.now.shape.order self.now.shape.block) self.now.shape.order self.now.matrix.now)
            work.old }
    {
        if self.shape.block_of(k) == k {
            self.trailing(k).backward(work);
        } else {
            let block = self.block_column(k, self.shape.order);
            let w = block.w;
            self.trailing(k + w).backward(&mut work[w..]);
            block.backward(work);
        }
    }
}
