// The values of a column's rows moved towards the front of the same memory. Each goes to its own place or before it, in rising order, so that none is
// written over before it is read. Row 0 of the column would be at place `base`, and the first of the rows goes to place `to`: rows and place go on at every
// chunk, so they are parameters, and a struct of them with `base` would be made anew each time.
ghost use Rattle.std.specs.Prelude.{◌≤◌, length};
ghost use Rattle.std.specs.Float.{nan};
ghost use Rattle.calls.specs.Sequences.{Rising};
ghost use Rattle.kernels.specs.Kernels.{Filled};
ghost use Rattle.strike.specs.Rows.{rows_at, Ahead};

use kernels::{load, store};

fn move_values(m: &mut [f64], rows: &[usize], base: usize, to: usize)
    requires { Ahead rows.now base to (length m.old) }
    ensures { Filled nan to (length rows.now) (rows_at m.old rows.now base) m.old m.new }
{
    for (k, &row) in rows.iter().enumerate() {
        m[to + k] = m[base + row];
    }
}

// Those of sixteen rows, at one go where these follow one another.
fn move16(m: &mut [f64], rows: &[usize; 16], base: usize, to: usize)
    requires ahead { Ahead rows.now base to (length m.old) }
    requires rising { Rising rows.now }
    ensures { Filled nan to 16 (rows_at m.old rows.now base) m.old m.new }
{
    let [first, .., last] = *rows;
    if last - first == 15 {
        store(m, to, load::<16>(m, base + first));
    } else {
        move_values(m, rows, base, to);
    }
}

pub fn move_column(m: &mut [f64], rows: &[usize], base: usize, mut to: usize)
    requires ahead { Ahead rows.now base to (length m.old) }
    requires rising { Rising rows.now }
    ensures { Filled nan to (length rows.now) (rows_at m.old rows.now base) m.old m.new }
{
    let (chunks, rest) = rows.as_chunks();
    for chunk in chunks {
        move16(m, chunk, base, to);
        to += 16;
    }
    move_values(m, rest, base, to);
}
