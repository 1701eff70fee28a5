// A half moved to rectangular full packed order. Four columns are moved at once, so that four values of a row are written together.
ghost use Rattle.std.specs.Prelude.{◌≡◌, ◌+◌, ◌≤◌, ◌<◌};
ghost use Rattle.calls.specs.declared.Conversion.TheVariants.{PackedToRfp};
ghost use Rattle.convert.specs.Halves.{Held, Moved};

use crate::half::Half;
use kernels::{gather, packed_places, store};

impl Half {
    // Columns j .. j + 3 from row `first` down.
    fn move_columns4(self, j: usize, first: usize, source: &[f64], target: &mut [f64])
        requires to_rfp { self.route.conversion ≡ PackedToRfp }
        requires j_in_half { (self.left ≤ j) × (j + 4 ≤ self.right) }
        requires rows { (j + 3 ≤ first) × (first < self.route.shape.order) }
        requires held { Held self.route.shape.order source.now target.old }
        ensures { Moved self.route.conversion self.route.form self.route.shape.order first self.route.shape.order j (j + 4) source.now target.old target.new }
    {
        let columns = packed_places::<4>(self.route.shape, first, j);
        let step = self.route.stride();
        let mut to = self.route.shape.rfp_place(self.route.form, first, j);
        for i in first..self.route.shape.order {
            let values = gather(source, columns, i - first);
            store(target, to, values);
            to += step;
        }
    }

    // Of four columns the first three rows are a triangle.
    pub fn move_to_rfp(self, source: &[f64], target: &mut [f64])
        requires to_rfp { self.route.conversion ≡ PackedToRfp }
        requires held { Held self.route.shape.order source.now target.old }
        ensures { Moved self.route.conversion self.route.form self.route.shape.order 0 self.route.shape.order self.left self.right source.now target.old target.new }
    {
        for j in (self.left..self.right).step_by(4) {
            if j + 4 <= self.right {
                self.move_columns(j, j + 3, j, j + 3, source, target);
                self.move_columns4(j, j + 3, source, target);
            } else {
                self.move_columns(j, self.right, j, self.route.shape.order, source, target);
            }
        }
    }
}
