// N values at once, which are independent, so that the machine works on several while each keeps its order: loaded, stored, and less products.
// `update` and `pack_lane` know a panel, which holds value k of lane t at place 16 k + t. Loops go by index where two lists meet at places of their own: a
// zip of parts of both is no plainer.
ghost use Rattle.std.specs.Prelude.{◌≡◌, ℕ, ◌+◌, ◌*◌, ◌≤◌, ◌<◌, length, get_or};
ghost use Rattle.std.specs.Float.{nan, binary64};
ghost use Rattle.std.specs.Float.Ieee.{sub, mul, div};
ghost use Rattle.shape.specs.Bounds.{max_order};
ghost use Rattle.shape.specs.Places.{packed_place};
ghost use Rattle.calls.specs.Arithmetic.{minus_products};
ghost use Rattle.kernels.specs.Kernels.{Filled, Replaced, Scattered, row_at, lane_at, rising_from, falling_from};

use crate::tiles::reduce_block;
use shape::Shape;

// The first count of N values, from position at on; the others are zeros.
// N turns: a loop of count turns becomes a call of the C library's copy, after which the loops over products are slower.
pub fn load_part<const N: usize>(v: &[f64], at: usize, count: usize) -> [f64; N]
    requires { (at + count ≤ length v.now) × (count ≤ N) }
    ensures { (s : ℕ) → s < count → get_or result s nan ≡ get_or v.now (at + s) nan }
{
    let mut values = [0.0; N];
    for s in 0..N {
        if s < count {
            values[s] = v[at + s];
        }
    }
    values
}

pub fn load<const N: usize>(v: &[f64], at: usize) -> [f64; N]
    requires { at + N ≤ length v.now }
    ensures { (s : ℕ) → s < N → get_or result s nan ≡ get_or v.now (at + s) nan }
{
    load_part(v, at, N)
}

// The first count of the values, to position at on, in N turns as above.
pub fn store_part<const N: usize>(v: &mut [f64], at: usize, values: [f64; N], count: usize)
    requires { (at + count ≤ length v.old) × (count ≤ N) }
    ensures { Replaced nan at count v.old values.entry v.new }
{
    for s in 0..N {
        if s < count {
            v[at + s] = values[s];
        }
    }
}

pub fn store<const N: usize>(v: &mut [f64], at: usize, values: [f64; N])
    requires { at + N ≤ length v.old }
    ensures { Replaced nan at N v.old values.entry v.new }
{
    store_part(v, at, values, N);
}

// N positions, `step` apart. No place of a matrix is above 8,002,000.
pub fn apart<const N: usize>(from: usize, step: usize) -> [usize; N]
    requires { (from ≤ 8002000) × (step ≤ 8002000) × (N ≤ 16) }
    ensures { (s : ℕ) → s < N → get_or result s 0 ≡ from + s * step }
{
    let mut places = [0; N];
    for s in 0..N {
        places[s] = from + s * step;
    }
    places
}

// The first count of N values of x, one at each position at[s] + k; the others are zeros.
pub fn gather_part<const N: usize>(x: &[f64], at: [usize; N], k: usize, count: usize) -> [f64; N]
    requires count_bound { count ≤ N }
    requires by_index { (s : ℕ) → s < count → get_or at s 0 + k < length x.now }
    ensures { (s : ℕ) → s < count → get_or result s nan ≡ get_or x.now (get_or at.entry s 0 + k) nan }
{
    let mut values = [0.0; N];
    for s in 0..count {
        values[s] = x[at[s] + k];
    }
    values
}

pub fn gather<const N: usize>(x: &[f64], at: [usize; N], k: usize) -> [f64; N]
    requires { (s : ℕ) → s < N → get_or at s 0 + k < length x.now }
    ensures { (s : ℕ) → s < N → get_or result s nan ≡ get_or x.now (get_or at.entry s 0 + k) nan }
{
    gather_part(x, at, k, N)
}

// The same positions of v, which differ, are set to the values.
pub fn scatter<const N: usize>(v: &mut [f64], at: [usize; N], k: usize, values: [f64; N])
    requires by_index { (s : ℕ) → s < N → get_or at s 0 + k < length v.old }
    requires by_index_2 { (s t : ℕ) → s < N → t < N → get_or at s 0 ≡ get_or at t 0 → s ≡ t }
    ensures { Scattered N (λ s. get_or at.entry s 0 + k) (λ s. get_or values.entry s nan) v.old v.new }
{
    for s in 0..N {
        v[at[s] + k] = values[s];
    }
}

// The packed places of columns s .. s + count − 1 of row r; the others are zeros.
pub fn packed_places_part<const N: usize>(
    shape: Shape,
    r: usize,
    s: usize,
    count: usize,
) -> [usize; N]
    requires { (shape.order ≤ max_order) × (r < shape.order) × (s + count ≤ r + 1) × (count ≤ N) }
    ensures { (k : ℕ) → k < count → get_or result k 0 ≡ packed_place shape.order r (s + k) }
{
    let mut places = [0; N];
    for k in 0..count {
        places[k] = shape.packed_place(r, s + k);
    }
    places
}

pub fn packed_places<const N: usize>(shape: Shape, r: usize, s: usize) -> [usize; N]
    requires { (shape.order ≤ max_order) × (r < shape.order) × (s + N ≤ r + 1) }
    ensures { (k : ℕ) → k < N → get_or result k 0 ≡ packed_place shape.order r (s + k) }
{
    packed_places_part(shape, r, s, N)
}

// The values less the products of x[at + s] and y.
pub fn step<const N: usize>(t: [f64; N], x: &[f64], at: usize, y: f64) -> [f64; N]
    requires { at + N ≤ length x.now }
    ensures { (s : ℕ) → s < N → get_or result s nan ≡ sub binary64 (get_or t.entry s nan) (mul binary64 (get_or x.now (at + s) nan) y) }
{
    let mut next = t;
    for (s, value) in next.iter_mut().enumerate() {
        *value = *value - x[at + s] * y;
    }
    next
}

// The values less products, k rising; those of value s are of x[at[s] + k] and y[k].
pub fn subtract_rising<const N: usize>(
    t: [f64; N],
    x: &[f64],
    at: [usize; N],
    y: &[f64],
) -> [f64; N]
    requires { (s : ℕ) → s < N → get_or at s 0 + length y.now ≤ length x.now }
    ensures { (s : ℕ) → s < N → get_or result s nan ≡ rising_from x.now (get_or at.entry s 0) y.now (length y.now) (get_or t.entry s nan) }
{
    let mut values = t;
    for k in 0..y.len() {
        let next = step(values, &gather(x, at, k), 0, y[k]);
        values = next;
    }
    values
}

// The same, k falling: the order alone differs, and each clause names its own.
pub fn subtract_falling<const N: usize>(
    t: [f64; N],
    x: &[f64],
    at: [usize; N],
    y: &[f64],
) -> [f64; N]
    requires { (s : ℕ) → s < N → get_or at s 0 + length y.now ≤ length x.now }
    ensures { (s : ℕ) → s < N → get_or result s nan ≡ falling_from x.now (get_or at.entry s 0) y.now (length y.now) (get_or t.entry s nan) }
{
    let mut values = t;
    for k in (0..y.len()).rev() {
        let next = step(values, &gather(x, at, k), 0, y[k]);
        values = next;
    }
    values
}

// The quotients by y.
pub fn divide<const N: usize>(t: [f64; N], y: f64) -> [f64; N]
    ensures { (length result ≡ N) × ((s : ℕ) → s < N → get_or result s nan ≡ div binary64 (get_or t.entry s nan) y) }
{
    let mut quotients = t;
    for value in quotients.iter_mut() {
        *value = *value / y;
    }
    quotients
}

// N entries, each count places past its place `at`, less the products of the values there with those from y on, divided by the root.
pub fn quotients<const N: usize>(
    part: &[f64],
    at: [usize; N],
    y: usize,
    count: usize,
    root: f64,
) -> [f64; N]
    requires count_in_bounds { y + count ≤ length part.now }
    requires by_index { (k : ℕ) → k < N → get_or at k 0 + count < length part.now }
    ensures { (length result ≡ N)
        × ((k : ℕ) → k < N →
        get_or result k nan
        ≡ div binary64
        (minus_products (row_at part.now (get_or at.entry k 0)) (row_at part.now y) count
        (get_or part.now (get_or at.entry k 0 + count) nan))
        root) }
{
    let start = gather(part, at, count);
    let reduced = subtract_rising(start, part, at, &part[y..y + count]);
    divide(reduced, root)
}

// The first len of the 16 entries from place y on, each less the products of the count values from place x on with its column of the panel.
pub fn update_part(m: &mut [f64], panel: &[f64], x: usize, y: usize, len: usize, count: usize)
    requires { (x + count ≤ length m.old) × (y + len ≤ length m.old) × (len ≤ 16) × (16 * count ≤ length panel.now) }
    ensures { Filled nan y len
        (λ t. minus_products (row_at m.old x) (lane_at 16 panel.now t) count (get_or m.old (y + t) nan))
        m.old m.new }
{
    let start = load_part::<16>(m, y, len);
    let tile = reduce_block([start], m, x, 0, panel, 0, count);
    store_part(m, y, tile[0], len);
}

// The same for all 16.
pub fn update(m: &mut [f64], panel: &[f64], x: usize, y: usize, count: usize)
    requires { (x + count ≤ length m.old) × (y + 16 ≤ length m.old) × (16 * count ≤ length panel.now) }
    ensures { Filled nan y 16
        (λ t. minus_products (row_at m.old x) (lane_at 16 panel.now t) count (get_or m.old (y + t) nan))
        m.old m.new }
{
    update_part(m, panel, x, y, 16, count);
}

// The count values from place `from` on become lane t of a panel, from its place `at` on.
pub fn pack_lane(
    panel: &mut [f64],
    at: usize,
    lanes: usize,
    t: usize,
    m: &[f64],
    from: usize,
    count: usize,
)
    requires { (from + count ≤ length m.now) × (at + lanes * count ≤ length panel.old) × (t < lanes) }
    ensures { Scattered count (λ k. at + lanes * k + t) (row_at m.now from) panel.old panel.new }
{
    for k in 0..count {
        panel[at + lanes * k + t] = m[from + k];
    }
}
