// A job's contents in lent memory.
ghost use Rattle.std.specs.Prelude.{◌≡◌, ◌*◌, length};
ghost use Rattle.shape.specs.Places.{triangle};

use crate::{MAX_ENTRIES, MAX_VALUES, Sizes};

// The sizes, and memory of their lengths for the packed matrix and the right-hand sides.
#[derive(Drop)]
pub struct Job<'a, T> {
    pub sizes: Sizes,
    pub matrix: &'a mut [T],
    pub rhs: &'a mut [T],
    pub ghost matrix_len: { length matrix.now ≡ triangle sizes.order },
    pub ghost rhs_len: { length rhs.now ≡ sizes.order * sizes.count },
}

impl<'a, T> Job<'a, T> {
    ghost use Rattle.std.specs.Prelude.{◌≤◌, take};
    ghost use Rattle.job_format.specs.Format.{InBounds};

    // In the front of memory that has room for any job.
    pub fn new(sizes: Sizes, matrix: &'a mut [T], rhs: &'a mut [T]) -> Job<'a, T>
        requires in_bounds { InBounds sizes }
        requires matrix_room { MAX_ENTRIES ≤ length matrix.old }
        requires rhs_room { MAX_VALUES ≤ length rhs.old }
        ensures same_sizes { result.sizes ≡ sizes }
        ensures matrix_front { result.matrix.now ≡ take (triangle sizes.order) matrix.old }
        ensures rhs_front { result.rhs.now ≡ take (sizes.order * sizes.count) rhs.old }
    {
        Job {
            sizes,
            matrix: &mut matrix[..sizes.entries()],
            rhs: &mut rhs[..sizes.values()],
        }
    }
}
