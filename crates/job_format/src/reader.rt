// The job's bytes, field by field, from front to end. The first fault ends the reading.
ghost use Rattle.std.specs.Prelude.{◌≡◌, ◌≤◌, ◌<◌, ◌+◌, ◌*◌, ℕ, Bool, IfOk, IfErr, length, take, drop};
ghost use Rattle.shape.specs.Places.{triangle};
ghost use Rattle.job_format.specs.Reading.{malformed, field, bounded, value, values, parsed, parsed_as};
ghost use Rattle.job_format.specs.Format.{max_job_order, InBounds, map_bit, read_sizes, read_map, read_contents, parsed_sizes, contents};

use crate::{Fault, Job, MAX_ORDER, MAX_RHS, Sizes, Zeros};
use shape::Shape;

// Where the bit map begins.
const MAP: usize = 5;

// The file, and the position after what was read of it.
#[derive(Clone, Copy)]
pub struct Reader<'a> {
    pub file: &'a [u8],
    pub at: usize,
}

impl<'a> Reader<'a> {
    // The next bytes. Where the file ends before them, it is no job.
    fn take(&mut self, count: usize) -> Result<&'a [u8], Fault>
        ensures same_file { self.new.file ≡ self.old.file }
        ensures found { IfOk result (λ part.
            (part.now ≡ take count (drop self.old.at self.old.file.now)) × (self.new.at ≡ self.old.at + count) × (self.new.at ≤ length self.old.file.now)) }
        ensures short { IfErr result (λ f. (f ≡ malformed (length self.old.file.now)) × (length self.old.file.now < self.old.at + count)) }
    {
        if self.file.len() < count || self.file.len() - count < self.at {
            return Err(Fault::Malformed(self.file.len()));
        }
        let start = self.at;
        self.at += count;
        Ok(&self.file[start..self.at])
    }

    // The next bytes, as one number, least byte first.
    pub fn read_field(&mut self, width: usize) -> Result<u64, Fault>
        requires { width ≤ 8 }
        ensures same_file { self.new.file ≡ self.old.file }
        ensures read { parsed result self.new.at ≡ field self.old.file.now self.old.at width }
    {
        let mut bytes = [0u8; 8];
        bytes[..width].copy_from_slice(self.take(width)?);
        Ok(u64::from_le_bytes(bytes))
    }

    // A field from low to high.
    fn read_bounded(&mut self, width: usize, low: usize, high: usize) -> Result<usize, Fault>
        requires { width ≤ 8 }
        ensures same_file { self.new.file ≡ self.old.file }
        ensures read { parsed result self.new.at ≡ bounded self.old.file.now self.old.at width low high }
    {
        let place = self.at;
        let value = self.read_field(width)? as usize;
        if value < low || high < value {
            return Err(Fault::Malformed(place));
        }
        Ok(value)
    }

    // The map is there, and the bits of its last byte that stand for no entry are zeros.
    fn read_map(&mut self, order: usize) -> Result<(), Fault>
        requires { order ≤ max_job_order }
        ensures same_file { self.new.file ≡ self.old.file }
        ensures read { parsed result self.new.at ≡ read_map self.old.file.now order self.old.at }
    {
        let bits = Shape::new(order, 1).triangle();
        self.take(bits.div_ceil(8))?;
        let used = bits % 8;
        if used != 0 && self.file[self.at - 1] >> used != 0 {
            return Err(Fault::Malformed(self.at - 1));
        }
        Ok(())
    }

    // The bits of a value, which is +0 and takes no bytes where it is not present.
    fn read_value(&mut self, zeros: Zeros, present: bool) -> Result<u64, Fault>
        ensures same_file { self.new.file ≡ self.old.file }
        ensures read { parsed result self.new.at ≡ value zeros self.old.file.now present self.old.at }
    {
        if !present {
            return Ok(0);
        }
        let place = self.at;
        let bits = self.read_field(8)?;
        if zeros.is_needless(bits) {
            return Err(Fault::NeedlessZero(place));
        }
        Ok(bits)
    }

    // As many values as out holds, of which value k is there where `present` says so. After a fault out is written in part.
    fn read_values<F: Fn(usize) -> bool>(
        &mut self,
        zeros: Zeros,
        present: F,
        out: &mut [u64],
    ) -> Result<(), Fault>
        requires { F.IsAlwaysCallable present }
        ensures same_file { self.new.file ≡ self.old.file }
        ensures read { (p : ℕ → Bool) → ((k : ℕ) (r : Bool) → k < length out.old → F.post present k r → r ≡ p k) →
            parsed_as out.new result self.new.at ≡ values zeros self.old.file.now p (length out.old) self.old.at }
    {
        for (k, bits) in out.iter_mut().enumerate() {
            *bits = self.read_value(zeros, present(k))?;
        }
        Ok(())
    }

    // All that comes after the sizes: the map, the entries, the right-hand sides, and nothing after them.
    pub fn read_contents(&mut self, zeros: Zeros, job: &mut Job<'_, u64>) -> Result<(), Fault>
        requires { job.old.sizes.order ≤ max_job_order }
        ensures same_file { self.new.file ≡ self.old.file }
        ensures same_sizes { job.new.sizes ≡ job.old.sizes }
        ensures same_matrix { job.new.matrix.ghost_name ≡ job.old.matrix.ghost_name }
        ensures same_rhs { job.new.rhs.ghost_name ≡ job.old.rhs.ghost_name }
        ensures read { parsed_as (contents job.new) result self.new.at ≡ read_contents zeros self.old.file.now job.old.sizes self.old.at }
    {
        let file = self.file;
        self.read_map(job.sizes.order)?;
        self.read_values(zeros, |p| map_bit(file, p), job.matrix)?;
        self.read_values(Zeros::Kept, |_| true, job.rhs)?;
        if self.at != file.len() {
            return Err(Fault::Malformed(self.at));
        }
        Ok(())
    }
}

// Bit p of the map; past the file's end it is not set.
fn map_bit(file: &[u8], p: usize) -> bool
    ensures { result ≡ map_bit file.now p }
{
    match file.get(MAP + p / 8) {
        Some(byte) => (byte >> (p % 8)) % 2 == 1,
        None => false,
    }
}

// The sizes of a job, and a reader of what comes after them.
pub fn read_sizes(file: &[u8]) -> Result<(Sizes, Reader<'_>), Fault>
    ensures read { parsed_sizes result ≡ read_sizes file.now }
    ensures in_bounds { IfOk result (λ r. InBounds r.0) }
    ensures same_file { IfOk result (λ r. r.1.file ≡ file.entry) }
{
    let mut reader = Reader { file, at: 0 };
    let order = reader.read_bounded(2, 0, MAX_ORDER)?;
    let block = reader.read_bounded(2, 1, Shape::MAX_BLOCK)?;
    let count = reader.read_bounded(1, 0, MAX_RHS)?;
    Ok((
        Sizes {
            order,
            block,
            count,
        },
        reader,
    ))
}
