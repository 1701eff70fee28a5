// A block column of a matrix, and a panel of it: up to 16 of its columns, which are worked on together.
ghost use Rattle.std.specs.Prelude.{◌≡◌, ℕ, ◌+◌, ◌-◌, ◌≤◌, ◌<◌, get_or, min};
ghost use Rattle.shape.specs.Bounds.{max_order};
ghost use Rattle.shape.specs.Places.{block_start, width};
ghost use Rattle.blocked_factor.specs.BlockColumns.{row_start};

use shape::Shape;

// Its first column in the matrix, where it starts in the matrix's memory, its columns and its rows.
#[derive(Clone, Copy)]
pub struct BlockColumn {
    pub first: usize,
    pub start: usize,
    pub width: usize,
    pub rows: usize,
    ghost tall: { width ≤ rows },
    ghost order: { first + rows ≤ max_order },
}

impl BlockColumn {
    // The one that begins with column c.
    pub fn new(shape: Shape, c: usize) -> Self
        requires { (shape.order ≤ max_order) × (c ≤ shape.order) }
        ensures { (result.first ≡ c)
            × (result.start ≡ block_start shape.order c)
            × (result.width ≡ width shape.order shape.block c)
            × (result.rows ≡ shape.order - c) }
    {
        Self {
            first: c,
            start: shape.block_start(c),
            width: shape.block_width(c),
            rows: shape.order - c,
        }
    }

    // The place of column s in row r, from the block column's start.
    pub fn place(self, r: usize, s: usize) -> usize
        requires { (s ≤ r) × (r ≤ self.rows) }
        ensures { result ≡ row_start self.width r + s }
    {
        Shape::place_in_block(self.width, r, s)
    }

    // Where row r starts, from there.
    pub fn row(self, r: usize) -> usize
        requires { r ≤ self.rows }
        ensures { result ≡ row_start self.width r }
    {
        Shape::place_in_block(self.width, r, 0)
    }

    // All its values.
    pub fn size(self) -> usize
        ensures { result ≡ row_start self.width self.rows }
    {
        self.row(self.rows)
    }

    // The places of column s in the N rows from r on.
    pub fn places<const N: usize>(self, r: usize, s: usize) -> [usize; N]
        requires { (s ≤ r) × (r + N ≤ self.rows) }
        ensures { (k : ℕ) → k < N → get_or result k 0 ≡ row_start self.width (r + k) + s }
    {
        let mut places = [0; N];
        for k in 0..N {
            places[k] = self.place(r + k, s);
        }
        places
    }
}

// The g columns from s0 on.
#[derive(Clone, Copy)]
pub struct Panel {
    pub column: BlockColumn,
    pub s0: usize,
    pub g: usize,
    ghost some: { 0 < g },
    ghost few: { g ≤ 16 },
    ghost wide: { s0 + g ≤ column.width },
}

impl Panel {
    // The column after its last one.
    pub fn end(self) -> usize
        ensures { result ≡ self.s0 + self.g }
    {
        self.s0 + self.g
    }

    // How many of its columns row r has.
    pub fn columns_in(self, r: usize) -> usize
        requires { (self.s0 ≤ r) × (r < self.column.rows) }
        ensures { result ≡ min self.g (r + 1 - self.s0) }
    {
        self.g.min(r + 1 - self.s0)
    }
}
