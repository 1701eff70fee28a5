// The rows of a block column below its diagonal block, each of w columns. A column's values stand together in packed order and w places apart in
// blocked order. To packed order one column is moved after another. To blocked order eight are moved at once, so that eight values of a row are written
// together.
ghost use Rattle.std.specs.Prelude.{◌≡◌, ◌+◌, ◌≤◌, ◌<◌, ◌%◌};
ghost use Rattle.calls.specs.declared.Layout.TheVariants.{Blocked};
ghost use Rattle.rearrange.specs.Moves.{Held, Moved};

use crate::block::BlockColumn;
use calls::Layout;
use kernels::{gather, packed_places, store};
use shape::Shape;

impl BlockColumn {
    // Column s of rows first .. end − 1.
    #[tactic(auto, using(crate::proofs::Places::place_in_part_lt, crate::proofs::Moves::step_le))]
    fn move_column(self, s: usize, first: usize, end: usize, source: &[f64], target: &mut [f64])
        requires s_lt_block { (s < self.part.block) × (self.part.block ≤ first) × (first < end) × (end ≤ self.part.order) }
        requires held { Held self.part.order self.part.block source.now target.old }
        ensures { Moved self.to self.part.order self.part.block first end s (s + 1) source.now target.old target.new }
    {
        let packed = self.part.packed_place(first, s);
        let blocked = Shape::place_in_block(self.part.block, first, s);
        let (mut from, mut to) = self.ends(packed, blocked);
        let (from_step, to_step) = self.ends(1, self.part.block);
        for r in first..end {
            target[to] = source[from];
            from += from_step;
            to += to_step;
        }
    }

    // Columns s .. s + 7, to blocked order.
    fn move_columns8(self, s: usize, first: usize, end: usize, source: &[f64], target: &mut [f64])
        requires to_blocked { self.to ≡ Blocked }
        requires s_bound { (s + 8 ≤ self.part.block) × (self.part.block ≤ first) × (first < end) × (end ≤ self.part.order) }
        requires held { Held self.part.order self.part.block source.now target.old }
        ensures { Moved self.to self.part.order self.part.block first end s (s + 8) source.now target.old target.new }
    {
        let places = packed_places::<8>(self.part, first, s);
        let mut q = Shape::place_in_block(self.part.block, first, s);
        for r in first..end {
            let values = gather(source, places, r - first);
            store(target, q, values);
            q += self.part.block;
        }
    }

    // How many columns are moved by eights.
    fn columns_by_eights(self) -> usize
        ensures { (result % 8 ≡ 0) × (result ≤ self.part.block) × (0 < result → self.to ≡ Blocked) }
    {
        match self.to {
            Layout::Packed => 0,
            Layout::Blocked => self.part.block - self.part.block % 8,
        }
    }

    // All columns of rows first .. end − 1.
    pub fn move_tile(self, first: usize, end: usize, source: &[f64], target: &mut [f64])
        requires block_le_first { (self.part.block ≤ first) × (first < end) × (end ≤ self.part.order) }
        requires held { Held self.part.order self.part.block source.now target.old }
        ensures { Moved self.to self.part.order self.part.block first end 0 self.part.block source.now target.old target.new }
    {
        let by_eights = self.columns_by_eights();
        for s in (0..by_eights).step_by(8) {
            self.move_columns8(s, first, end, source, target);
        }
        for s in by_eights..self.part.block {
            self.move_column(s, first, end, source, target);
        }
    }
}
