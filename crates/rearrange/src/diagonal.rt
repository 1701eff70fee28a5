// The diagonal block of a block column, row by row: row r has r + 1 columns, which stand together in blocked order.
ghost use Rattle.std.specs.Prelude.{◌+◌, ◌≤◌, ◌<◌};
ghost use Rattle.rearrange.specs.Moves.{Held, Moved};

use crate::block::BlockColumn;
use shape::Shape;

impl BlockColumn {
    fn move_row(self, r: usize, source: &[f64], target: &mut [f64])
        requires r_lt_block { r < self.part.block }
        requires held { Held self.part.order self.part.block source.now target.old }
        ensures { Moved self.to self.part.order self.part.block r (r + 1) 0 self.part.block source.now target.old target.new }
    {
        let mut packed = self.part.packed_place(r, 0);
        let blocked = Shape::place_in_block(self.part.block, r, 0);
        let mut gap = self.part.order;
        for s in 0..r + 1 {
            let (from, to) = self.ends(packed, blocked + s);
            target[to] = source[from];
            gap -= 1;
            packed += gap;
        }
    }

    pub fn move_diagonal(self, source: &[f64], target: &mut [f64])
        requires { Held self.part.order self.part.block source.now target.old }
        ensures { Moved self.to self.part.order self.part.block 0 self.part.block 0 self.part.block source.now target.old target.new }
    {
        for r in 0..self.part.block {
            self.move_row(r, source, target);
        }
    }
}
