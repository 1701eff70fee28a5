// A half moved to packed order. Four rows are moved at once, so that four values of a column are written together; those that fours leave go one by one.
ghost use Rattle.std.specs.Prelude.{◌≡◌, ℕ, ◌+◌, ◌*◌, ◌≤◌, ◌<◌, get_or};
ghost use Rattle.shape.specs.Places.{rfp_place};
ghost use Rattle.calls.specs.declared.Conversion.TheVariants.{RfpToPacked};
ghost use Rattle.convert.specs.Halves as Halves;
ghost use Rattle.convert.specs.Halves.{Held, Moved};

use crate::half::Half;
use kernels::{apart, gather, store};

impl Half {
    // The places of the first column in the N rows from i on.
    #[tactic(auto, using(crate::proofs::Halves::rfp_place_below, crate::proofs::Halves::stride_le, shape::proofs::Bounds::triangle_le))]
    fn rows<const N: usize>(self, i: usize) -> [usize; N]
        requires { (self.left ≤ i) × (i < self.route.shape.order) × (N ≤ 4) }
        ensures { (k : ℕ) → k < N → get_or result k 0 ≡ rfp_place self.route.form self.route.shape.order i self.left + k * Halves.stride self.route.form self.route.shape.order }
    {
        apart(
            self.route.shape.rfp_place(self.route.form, i, self.left),
            self.route.stride(),
        )
    }

    // Rows i .. i + N − 1 of the columns before `right`, which are before the diagonal.
    fn move_rows<const N: usize>(self, i: usize, right: usize, source: &[f64], target: &mut [f64])
        requires to_packed { self.route.conversion ≡ RfpToPacked }
        requires rows { (self.left ≤ i) × (i + N ≤ self.route.shape.order) × (0 < N) × (N ≤ 4) }
        requires right_in_half { (self.left ≤ right) × (right ≤ i) × (right ≤ self.right) }
        requires held { Held self.route.shape.order source.now target.old }
        ensures { Moved self.route.conversion self.route.form self.route.shape.order i (i + N) self.left right source.now target.old target.new }
    {
        let rows = self.rows::<N>(i);
        let mut to = self.route.shape.packed_place(i, self.left);
        for j in self.left..right {
            let values = gather(source, rows, j - self.left);
            store(target, to, values);
            to += self.route.shape.order - j - 1;
        }
    }

    // The rows from i on of those columns, one after another.
    fn move_last_rows(self, i: usize, right: usize, source: &[f64], target: &mut [f64])
        requires to_packed { self.route.conversion ≡ RfpToPacked }
        requires rows { (self.left ≤ i) × (i ≤ self.route.shape.order) }
        requires right_in_half { (self.left ≤ right) × (right ≤ i) × (right ≤ self.right) }
        requires held { Held self.route.shape.order source.now target.old }
        ensures { Moved self.route.conversion self.route.form self.route.shape.order i self.route.shape.order self.left right source.now target.old target.new }
    {
        for r in i..self.route.shape.order {
            self.move_rows::<1>(r, right, source, target);
        }
    }

    // The rows begin with row `left`. Those that meet the diagonal end with a triangle.
    pub fn move_to_packed(self, source: &[f64], target: &mut [f64])
        requires to_packed { self.route.conversion ≡ RfpToPacked }
        requires held { Held self.route.shape.order source.now target.old }
        ensures { Moved self.route.conversion self.route.form self.route.shape.order 0 self.route.shape.order self.left self.right source.now target.old target.new }
    {
        let order = self.route.shape.order;
        for i in (self.left..order).step_by(4) {
            let before = self.right.min(i);
            if i + 4 <= order {
                self.move_rows::<4>(i, before, source, target);
                self.move_columns(before, self.right.min(i + 4), i, i + 4, source, target);
            } else {
                self.move_last_rows(i, before, source, target);
                self.move_columns(before, self.right, i, order, source, target);
            }
        }
    }
}
