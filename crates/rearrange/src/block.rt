// One block column, given by the shape whose first block column it is: its order is the block column's number of rows, its block length the width.
// Below the diagonal block rows are taken in tiles, which stay in the cache while one layout is gone through by columns, the other by rows.
ghost use Rattle.std.specs.Prelude.{◌≡◌, ◌≤◌};
ghost use Rattle.shape.specs.Bounds.{max_order};
ghost use Rattle.rearrange.specs.Moves.{other, in_layout, Held, Moved, MovedWithin};

use calls::Layout;
use shape::Shape;

// Rows of a tile: of 64 columns it has 16 KB.
const TILE: usize = 32;

// The block column, and the layout that it moves to. The two memories are lent beside it, and their lengths are a clause, `Held`: of a `&mut` field each
// contract would also have to say that it still holds the same memory.
#[derive(Clone, Copy)]
pub struct BlockColumn {
    pub to: Layout,
    pub part: Shape,
    pub ghost rows: { part.order ≤ max_order },
    pub ghost columns: { part.block ≤ part.order },
}

impl BlockColumn {
    // Of a place or a distance in packed order and one in blocked order, that in the source and that in the target.
    pub fn ends(self, packed: usize, blocked: usize) -> (usize, usize)
        ensures { (result.0 ≡ in_layout (other self.to) packed blocked) × (result.1 ≡ in_layout self.to packed blocked) }
    {
        match self.to {
            Layout::Packed => (blocked, packed),
            Layout::Blocked => (packed, blocked),
        }
    }

    fn move_rows(self, source: &[f64], target: &mut [f64])
        requires { Held self.part.order self.part.block source.now target.old }
        ensures { Moved self.to self.part.order self.part.block 0 self.part.order 0 self.part.block source.now target.old target.new }
    {
        self.move_diagonal(source, target);
        let n = self.part.order;
        for first in (self.part.block..n).step_by(TILE) {
            self.move_tile(first, n.min(first + TILE), source, target);
        }
    }

    // To the work memory in the new order, and back.
    pub fn move_within(self, memory: &mut [f64], work: &mut [f64])
        requires { Held self.part.order self.part.block memory.old work.old }
        ensures { MovedWithin self.to self.part.order self.part.block memory.old memory.new }
    {
        self.move_rows(memory, work);
        let length = self.part.block_start(self.part.block);
        // `copy_from_slice` calls the C library's memmove, which the archive for C asked for nowhere else.
        kernels::copy(&work[..length], &mut memory[..length]);
    }
}
