// Loops over values: copies, and products subtracted one by one. lanes.rt has several values at once, tiles.rt several rows of them; tiles.rt and columns.rt
// know besides where blocked order keeps a row.
#![tactic(auto)]

ghost use Rattle.std.specs.Prelude.{◌≡◌, ◌+◌, ◌≤◌, length};
ghost use Rattle.std.specs.Float.{nan};
ghost use Rattle.calls.specs.Arithmetic.{minus_products};
ghost use Rattle.kernels.specs.Kernels.{MultipleSubtracted, Filled, row_at};

mod columns;
mod lanes;
mod tiles;

pub use columns::reduce_columns;
pub use lanes::{
    apart, divide, gather, gather_part, load, load_part, pack_lane, packed_places,
    packed_places_part, quotients, scatter, step, store, store_part, subtract_falling,
    subtract_rising, update, update_part,
};
pub use tiles::{Run, load_tile, reduce_run, store_tile};

// Every value of v less that of x times y.
pub fn subtract_multiple(v: &mut [f64], x: &[f64], y: f64)
    requires { length v.old ≡ length x.now }
    ensures { MultipleSubtracted v.old x.now y v.new }
{
    for (r, value) in v.iter_mut().enumerate() {
        *value = *value - x[r] * y;
    }
}

// One value less products whose factors are in one list: the count values from place x on, and those from place y on.
pub fn minus_products(m: &[f64], x: usize, y: usize, count: usize, t: f64) -> f64
    requires { (x + count ≤ length m.now) × (y + count ≤ length m.now) }
    ensures { result ≡ minus_products (row_at m.now x) (row_at m.now y) count t }
{
    let mut s = t;
    for k in 0..count {
        s = s - m[x + k] * m[y + k];
    }
    s
}

// The count values of `from` from position at on, to positions start, start + 1, ..
// A loop: `copy_from_slice` is the C library's, in wide registers, after which the loops over products took up to 12 % longer.
pub fn copy_part(from: &[f64], at: usize, to: &mut [f64], start: usize, count: usize)
    requires { (at + count ≤ length from.now) × (start + count ≤ length to.old) }
    ensures { Filled nan start count (row_at from.now at) to.old to.new }
{
    for k in 0..count {
        to[start + k] = from[at + k];
    }
}

// All values; a loop for the same reason.
pub fn copy(from: &[f64], to: &mut [f64])
    requires { length from.now ≡ length to.old }
    ensures { to.new ≡ from.now }
{
    let count = to.len();
    copy_part(from, 0, to, 0, count);
}
