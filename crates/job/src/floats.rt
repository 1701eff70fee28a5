// Values and their bits, NaN included: every NaN pattern is read as one value, which is written as one pattern. std converts numbers alone: `from_bits`
// and `to_bits` require that there is no NaN.
ghost use Rattle.std.specs.Prelude.{◌≡◌, length};
ghost use Rattle.std.specs.Float.{binary64};
ghost use Rattle.std.specs.Float.Ieee.{of_bits, to_bits};
ghost use Rattle.job_format.specs.Format.{contents};
ghost use Rattle.job.specs.Listing.{floats, job_of, held};

use binary64::{Kind, kind_of, kind_of_bits};
use job_format::Job;

pub fn float_of(bits: u64) -> f64
    ensures { result ≡ of_bits binary64 bits }
{
    match kind_of_bits(bits) {
        Kind::NaN => 0.0 / 0.0,
        _ => f64::from_bits(bits),
    }
}

pub fn bits_of(v: f64) -> u64
    ensures { result ≡ to_bits binary64 v }
{
    match kind_of(v) {
        Kind::NaN => 0x7ff8_0000_0000_0000,
        _ => f64::to_bits(v),
    }
}

fn floats_of(bits: &[u64], out: &mut [f64])
    requires { length bits.now ≡ length out.old }
    ensures { out.new ≡ floats bits.now }
{
    for (k, v) in out.iter_mut().enumerate() {
        *v = float_of(bits[k]);
    }
}

// A job's values from their bits.
pub fn fill(job: &mut Job<'_, f64>, bits: &Job<'_, u64>)
    requires { job.old.sizes ≡ bits.now.sizes }
    ensures { held job.new ≡ job_of (contents bits.now) }
{
    floats_of(bits.matrix, job.matrix);
    floats_of(bits.rhs, job.rhs);
}
