// A job's bytes from its contents: the sizes, the map, the entries that are not +0, the right-hand sides.
ghost use Rattle.std.specs.Prelude.{◌≡◌, ◌+◌, ◌*◌, ◌/◌, ◌≤◌, ◌<◌, length};
ghost use Rattle.job_format.specs.Format.{InBounds, contents};
ghost use Rattle.text.specs.Writing.{Puts};
ghost use Rattle.job_format.specs.Rewriting.{max_job, sizes_bytes, bits_from, stands as stands_over, map_of, value_bytes, values_bytes, job_bytes};

use crate::{Job, Sizes, Zeros};
use text::Writer;

fn put_sizes(writer: &mut Writer, sizes: Sizes)
    requires in_bounds { InBounds sizes }
    requires room { writer.old.at + 5 ≤ length writer.old.out.now }
    ensures { Puts (sizes_bytes sizes) writer.old writer.new }
{
    writer.put_text(&(sizes.order as u16).to_le_bytes());
    writer.put_text(&(sizes.block as u16).to_le_bytes());
    writer.put_byte(sizes.count as u8);
}

// Whether a bit stands at p; none does past the last entry.
fn stands(matrix: &[u64], p: usize) -> bool
    ensures { result ≡ stands_over matrix.now p }
{
    match matrix.get(p) {
        Some(bits) => *bits != 0,
        None => false,
    }
}

// The byte of the map whose lowest bit is the one at first: from the highest bit down.
fn map_byte(matrix: &[u64], first: usize) -> u8
    requires { first < length matrix.now }
    ensures { result ≡ bits_from (stands_over matrix.now) first 8 }
{
    let mut byte = 0;
    for k in (0..8).rev() {
        byte = 2 * byte + u8::from(stands(matrix, first + k));
    }
    byte
}

fn put_map(writer: &mut Writer, matrix: &[u64])
    requires { writer.old.at + (length matrix.now + 7) / 8 ≤ length writer.old.out.now }
    ensures { Puts (map_of matrix.now) writer.old writer.new }
{
    for i in 0..matrix.len().div_ceil(8) {
        writer.put_byte(map_byte(matrix, 8 * i));
    }
}

// The bytes of values, but none for a needless zero.
fn put_values(writer: &mut Writer, zeros: Zeros, values: &[u64])
    requires { writer.old.at + 8 * length values.now ≤ length writer.old.out.now }
    ensures { Puts (values_bytes zeros values.now) writer.old writer.new }
{
    for &bits in values {
        if !zeros.is_needless(bits) {
            writer.put_text(&bits.to_le_bytes());
        }
    }
}

pub fn put_job(writer: &mut Writer, job: &Job<'_, u64>)
    requires in_bounds { InBounds job.now.sizes }
    requires room { writer.old.at + max_job ≤ length writer.old.out.now }
    ensures { Puts (job_bytes (contents job.now)) writer.old writer.new }
{
    put_sizes(writer, job.sizes);
    put_map(writer, job.matrix);
    put_values(writer, Zeros::Needless, job.matrix);
    put_values(writer, Zeros::Kept, job.rhs);
}
