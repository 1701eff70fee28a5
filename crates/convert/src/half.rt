// The half of the columns that stands by rows in rectangular full packed order and by columns in packed order, and the parts of it that are moved entry by
// entry.
ghost use Rattle.std.specs.Prelude.{◌≡◌, ◌+◌, ◌≤◌, ◌<◌};
ghost use Rattle.convert.specs.Halves.{ByRows, Held, Moved};

use crate::route::Route;
use calls::Conversion;

// Columns left .. right − 1.
#[derive(Clone, Copy)]
pub struct Half {
    pub route: Route,
    pub left: usize,
    pub right: usize,
    pub ghost columns: { (left ≤ right) × (right ≤ route.shape.order) },
    pub ghost by_rows: { ByRows route.form route.shape.order left right },
}

impl Half {
    // Column j of rows first .. end − 1.
    #[tactic(auto, using(crate::proofs::Halves::source_below, crate::proofs::Halves::step_le, shape::proofs::Bounds::triangle_le))]
    #[inline(always)]
    fn move_column(self, j: usize, first: usize, end: usize, source: &[f64], target: &mut [f64])
        requires j_in_half { (self.left ≤ j) × (j < self.right) }
        requires rows { (j ≤ first) × (first ≤ end) × (end ≤ self.route.shape.order) × (first < self.route.shape.order) }
        requires held { Held self.route.shape.order source.now target.old }
        ensures { Moved self.route.conversion self.route.form self.route.shape.order first end j (j + 1) source.now target.old target.new }
    {
        let (mut from, mut to) = self.route.places(first, j);
        let (from_step, to_step) = self.route.ends(1, self.route.stride());
        for i in first..end {
            target[to] = source[from];
            from += from_step;
            to += to_step;
        }
    }

    // Columns left .. right − 1 of rows first .. end − 1, each from its diagonal down. Inlined, so that the loop knows the conversion.
    #[inline(always)]
    pub fn move_columns(
        self,
        left: usize,
        right: usize,
        first: usize,
        end: usize,
        source: &[f64],
        target: &mut [f64],
    )
        requires in_half { (self.left ≤ left) × (left ≤ right) × (right ≤ self.right) }
        requires rows { (first ≤ end) × (end ≤ self.route.shape.order) × (first < self.route.shape.order) × (right ≤ end + 1) }
        requires held { Held self.route.shape.order source.now target.old }
        ensures { Moved self.route.conversion self.route.form self.route.shape.order first end left right source.now target.old target.new }
    {
        for j in left..right {
            self.move_column(j, first.max(j), end, source, target);
        }
    }

    // One match, not one loop: to one memory the half is gone through by columns, to the other by rows, so that each writes what stands together.
    pub fn transpose(self, source: &[f64], target: &mut [f64])
        requires { Held self.route.shape.order source.now target.old }
        ensures { Moved self.route.conversion self.route.form self.route.shape.order 0 self.route.shape.order self.left self.right source.now target.old target.new }
    {
        match self.route.conversion {
            Conversion::PackedToRfp => self.move_to_rfp(source, target),
            Conversion::RfpToPacked => self.move_to_packed(source, target),
        }
    }
}
