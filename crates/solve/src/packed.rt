// Both substitutions on a packed factor, whose columns are contiguous. Forward goes by columns, so that a column's products are subtracted from
// independent rows; backward takes eight columns at a time.
ghost use Rattle.std.specs.Prelude.{◌≡◌, ◌-◌, ◌≤◌, ◌<◌, length, drop};
ghost use Rattle.shape.specs.Bounds.{max_order};
ghost use Rattle.shape.specs.Places.{triangle, block_start};
ghost use Rattle.calls.specs.Arithmetic as Arithmetic;

use kernels::{load, packed_places, store, subtract_falling, subtract_multiple};
use shape::Shape;

// A factor in packed memory.
#[derive(Clone, Copy)]
pub struct Packed<'a> {
    pub order: usize,
    pub matrix: &'a [f64],
    pub ghost bound: { order ≤ max_order },
    pub ghost values: { length matrix.now ≡ triangle order },
}

impl<'a> Packed<'a> {
    ghost use Rattle.solve.specs.Substitution.{entries_at, ForwardDone, ProductsSubtracted, BackwardDone};
    ghost use Rattle.solve.specs.Parts.{packed_entries, packed_factor};

    // The columns from column c on: packed memory of order n − c.
    pub fn trailing(&self, c: usize) -> Packed<'a>
        requires { c ≤ self.now.order }
        ensures { (result.order ≡ self.now.order - c) × (result.matrix.now ≡ drop (block_start self.now.order c) self.now.matrix.now) }
    {
        let at = Shape::new(self.order, 1).block_start(c);
        Packed {
            order: self.order - c,
            matrix: &self.matrix[at..],
        }
    }

    // The first row of a triangle is finished, and its products are subtracted from the rows below it.
    fn forward_column(column: &[f64], work: &mut [f64])
        requires work_nonzero { 0 < length work.old }
        requires column_len { length column.now ≡ length work.old }
        ensures { ForwardDone (entries_at (λ r s. r) column.now) (length work.old) 1 work.old work.new }
    {
        let y = work[0] / column[0];
        work[0] = y;
        subtract_multiple(&mut work[1..], &column[1..], y);
    }

    pub fn forward(&self, work: &mut [f64])
        requires { length work.old ≡ self.now.order }
        ensures { work.new ≡ Arithmetic.forward self.now.order (packed_factor self.now) work.old }
    {
        let n = self.order;
        let mut at = 0;
        for k in 0..n {
            let next = at + (n - k);
            Self::forward_column(&self.matrix[at..next], &mut work[k..]);
            at = next;
        }
    }

    // The products of the rows from 8 on are subtracted from the first eight.
    fn subtract_under8(&self, work: &mut [f64])
        requires lt_order { 8 < self.now.order }
        requires rows { length work.old ≡ self.now.order }
        ensures { ProductsSubtracted (packed_entries self.now) self.now.order 8 work.old work.new }
    {
        let places = packed_places::<8>(Shape::new(self.order, 1), 8, 0);
        let values = subtract_falling(load::<8>(work, 0), self.matrix, places, &work[8..]);
        store(work, 0, values);
    }

    // The first w rows are finished, the products of those below them being subtracted.
    fn backward_triangle(&self, w: usize, work: &mut [f64])
        requires w_le_order { w ≤ self.now.order }
        requires rows { length work.old ≡ self.now.order }
        ensures { BackwardDone (packed_entries self.now) w w work.old work.new }
    {
        let part = self.matrix;
        let shape = Shape::new(self.order, 1);
        for r in (0..w).rev() {
            let at = shape.packed_place(r, r);
            let [value] = subtract_falling([work[r]], part, [at + 1], &work[r + 1..w]);
            work[r] = value / part[at];
        }
    }

    // The first eight rows are finished.
    fn backward_columns8(&self, work: &mut [f64])
        requires le_order { 8 ≤ self.now.order }
        requires rows { length work.old ≡ self.now.order }
        ensures { BackwardDone (packed_entries self.now) self.now.order 8 work.old work.new }
    {
        if 8 < self.order {
            self.subtract_under8(work);
        }
        self.backward_triangle(8, work);
    }

    // The last columns are those that eights leave; the others follow eight by eight.
    pub fn backward(&self, work: &mut [f64])
        requires { length work.old ≡ self.now.order }
        ensures { work.new ≡ Arithmetic.backward self.now.order (packed_factor self.now) work.old }
    {
        let eights = self.order / 8;
        let last = self.trailing(8 * eights);
        last.backward_triangle(last.order, &mut work[8 * eights..]);
        for q in (0..eights).rev() {
            let c = 8 * q;
            self.trailing(c).backward_columns8(&mut work[c..]);
        }
    }
}
