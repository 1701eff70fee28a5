// The half of the columns that stands by columns in both orders: each column is copied as it is.
ghost use Rattle.std.specs.Prelude.{◌≤◌};
ghost use Rattle.convert.specs.Halves.{ByColumns, Held, Moved};

use crate::route::Route;

impl Route {
    // Columns left .. right − 1. Inlined, so that the loop knows the form.
    #[tactic(auto, using(crate::proofs::Halves::column_fits, shape::proofs::Bounds::triangle_le))]
    #[inline(always)]
    pub fn copy_columns(self, left: usize, right: usize, source: &[f64], target: &mut [f64])
        requires left_le_right { (left ≤ right) × (right ≤ self.shape.order) }
        requires by_columns { ByColumns self.form self.shape.order left right }
        requires held { Held self.shape.order source.now target.old }
        ensures { Moved self.conversion self.form self.shape.order 0 self.shape.order left right source.now target.old target.new }
    {
        for j in left..right {
            let (from, to) = self.places(j, j);
            // `copy_from_slice` calls memmove, with which this is slower by an eighth at order 1,500.
            kernels::copy_part(source, from, target, to, self.shape.order - j);
        }
    }
}
