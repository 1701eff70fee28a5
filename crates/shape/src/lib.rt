// The shape of a matrix: its order and block length, with their bounds and the places of its entries, and the state of its memory.
#![tactic(auto)]

ghost use Rattle.std.specs.Prelude.{◌≡◌, ◌&&◌, ◌≤◌, ◌<◌, min, leb, ltb};
ghost use Rattle.shape.specs.Bounds.{max_order, max_block, max_rhs};
ghost use Rattle.shape.specs.Places.{triangle, packed_place, block_of, block_start, width, place_in_block, blocked_place, block_work, rfp_rows, rfp_columns, rfp_row, rfp_column, rfp_place};
ghost use Rattle.shape.specs.Layouts.{Entry};

// Any numbers: C hands it in, and the calls examine them, so what a method needs of them is a clause and no part of the type. What a state's number means is
// said in crate calls.
#[repr(C)]
#[derive(Clone, Copy)]
pub struct Shape {
    pub order: usize,
    pub block: usize,
    pub state: usize,
}

impl Shape {
    pub const MAX_ORDER: usize = 4000;

    pub const MAX_BLOCK: usize = 200;

    pub const MAX_RHS: usize = 1000;

    // A packed matrix that no call has seen: state 0. A part of a matrix has a shape too, whose state is not looked at.
    pub fn new(order: usize, block: usize) -> Self
        ensures { (result.order ≡ order) × (result.block ≡ block) × (result.state ≡ 0) }
    {
        Self {
            order,
            block,
            state: 0,
        }
    }

    pub fn order_in_bounds(self) -> bool
        ensures { result ≡ leb self.order max_order }
    {
        self.order <= Self::MAX_ORDER
    }

    pub fn block_in_bounds(self) -> bool
        ensures { result ≡ (ltb 0 self.block && leb self.block max_block) }
    {
        (0 < self.block) & (self.block <= Self::MAX_BLOCK)
    }

    pub fn rhs_in_bounds(m: usize) -> bool
        ensures { result ≡ leb m max_rhs }
    {
        m <= Self::MAX_RHS
    }

    // The values of the triangle.
    pub fn triangle(self) -> usize
        requires { self.order ≤ max_order }
        ensures { result ≡ triangle self.order }
    {
        let n = self.order;
        n * (n + 1) / 2
    }

    // The place of entry (i, j) in packed order. The product is even, so the division is exact.
    pub fn packed_place(self, i: usize, j: usize) -> usize
        requires order_le_max_order { self.order ≤ max_order }
        requires entry { Entry self.order i j }
        ensures { result ≡ packed_place self.order i j }
    {
        i + j * (2 * self.order - j - 1) / 2
    }

    // The first column of the block column that holds column j.
    pub fn block_of(self, j: usize) -> usize
        requires { 0 < self.block }
        ensures { result ≡ block_of self.block j }
    {
        self.block * (j / self.block)
    }

    // Where the block column that begins with column c starts, in both orders. The product is even, so the division is exact.
    pub fn block_start(self, c: usize) -> usize
        requires order_le_max_order { self.order ≤ max_order }
        requires c_le_order { c ≤ self.order }
        ensures { result ≡ block_start self.order c }
    {
        c * (2 * self.order - c + 1) / 2
    }

    // The columns of the block column that begins with column c.
    pub fn block_width(self, c: usize) -> usize
        requires { c ≤ self.order }
        ensures { result ≡ width self.order self.block c }
    {
        self.block.min(self.order - c)
    }

    // The place of column s of row r in a block column of width w, from the block column's start.
    pub fn place_in_block(w: usize, r: usize, s: usize) -> usize
        requires r_le_max_order { r ≤ max_order }
        requires s_le_r { s ≤ r }
        ensures { result ≡ place_in_block w r s }
    {
        if r < w {
            r * (r + 1) / 2 + s
        } else {
            w * (w + 1) / 2 + (r - w) * w + s
        }
    }

    // The place of entry (i, j) in blocked order.
    pub fn blocked_place(self, i: usize, j: usize) -> usize
        requires order_le_max_order { self.order ≤ max_order }
        requires block_nonzero { 0 < self.block }
        requires entry { Entry self.order i j }
        ensures { result ≡ blocked_place self.order self.block i j }
    {
        let c = self.block_of(j);
        let w = self.block_width(c);
        self.block_start(c) + Self::place_in_block(w, i - c, j - c)
    }

    // The work memory that a rearranger and the blocked factor need. The first block column is the widest.
    pub fn block_work(self) -> usize
        requires { self.order ≤ max_order }
        ensures { result ≡ block_work self.order self.block }
    {
        self.order * self.order.min(self.block)
    }

    // The rows and columns of the array that form 0 of rectangular full packed order is.
    pub fn rfp_rows(self) -> usize
        requires { self.order ≤ max_order }
        ensures { result ≡ rfp_rows self.order }
    {
        self.order + 1 - self.order % 2
    }

    pub fn rfp_columns(self) -> usize
        requires { self.order ≤ max_order }
        ensures { result ≡ rfp_columns self.order }
    {
        self.order / 2 + self.order % 2
    }

    // The position of entry (i, j) in it.
    fn rfp_row(self, i: usize, j: usize) -> usize
        requires order_le_max_order { self.order ≤ max_order }
        requires entry { Entry self.order i j }
        ensures { result ≡ rfp_row self.order i j }
    {
        let columns = self.rfp_columns();
        if j < columns {
            i + 1 - self.order % 2
        } else {
            j - columns
        }
    }

    fn rfp_column(self, i: usize, j: usize) -> usize
        requires order_le_max_order { self.order ≤ max_order }
        requires entry { Entry self.order i j }
        ensures { result ≡ rfp_column self.order i j }
    {
        if j < self.rfp_columns() {
            j
        } else {
            i - self.order / 2
        }
    }

    // The place of entry (i, j) in rectangular full packed order; every form but 0 is taken as the transpose. A form is a number, since `rfp_bijection` is of
    // every number.
    pub fn rfp_place(self, form: usize, i: usize, j: usize) -> usize
        requires order_le_max_order { self.order ≤ max_order }
        requires entry { Entry self.order i j }
        ensures { result ≡ rfp_place form self.order i j }
    {
        let r = self.rfp_row(i, j);
        let c = self.rfp_column(i, j);
        if form == 0 {
            c * self.rfp_rows() + r
        } else {
            r * self.rfp_columns() + c
        }
    }
}
