// A job's bytes: read field by field, written from the contents, and rewritten with no bit over +0. Values are bit patterns.
#![tactic(auto)]

ghost use Rattle.std.specs.Prelude.{◌≡◌, ◌*◌, ◌≤◌};
ghost use Rattle.shape.specs.Places.{triangle};
ghost use Rattle.job_format.specs.Reading.{fault_code, fault_place, needless};
ghost use Rattle.job_format.specs.Format.{max_job_order, InBounds};
ghost use Rattle.job_format.specs.Rewriting.{rewritten, Rewrites};

mod contents;
mod reader;
mod writer;

pub use contents::Job;
pub use reader::{Reader, read_sizes};
use shape::Shape;
use text::Writer;

// The first fault of a job's bytes, with its place.
#[derive(Clone, Copy)]
pub enum Fault {
    // no job, or not one job
    Malformed(usize),
    // a standing bit over +0
    NeedlessZero(usize),
}

impl Fault {
    pub fn code(self) -> usize
        ensures { result ≡ fault_code self }
    {
        match self {
            Fault::Malformed(_) => 13,
            Fault::NeedlessZero(_) => 18,
        }
    }

    pub fn place(self) -> usize
        ensures { result ≡ fault_place self }
    {
        match self {
            Fault::Malformed(place) | Fault::NeedlessZero(place) => place,
        }
    }
}

// The sizes that a job begins with. That they are within bounds is a clause: in specs/ sizes are any numbers, as `read_sizes` makes them of a file.
#[derive(Clone, Copy)]
pub struct Sizes {
    pub order: usize,
    pub block: usize,
    pub count: usize,
}

impl Sizes {
    // The entries of the packed matrix.
    pub fn entries(self) -> usize
        requires { self.order ≤ max_job_order }
        ensures { result ≡ triangle self.order }
    {
        Shape::new(self.order, self.block).triangle()
    }

    // The values of the right-hand sides.
    pub fn values(self) -> usize
        requires { InBounds self }
        ensures { result ≡ self.order * self.count }
    {
        self.order * self.count
    }
}

// A +0 among values is kept as any other, or is needless: refused where it is read, left out where it is written.
#[derive(Clone, Copy)]
pub enum Zeros {
    Kept,
    Needless,
}

impl Zeros {
    #[tactic(auto, unfolding(crate::specs::Reading::needless))]
    pub fn is_needless(self, bits: u64) -> bool
        ensures { result ≡ needless self bits }
    {
        match self {
            Zeros::Kept => false,
            Zeros::Needless => bits == 0,
        }
    }
}

pub const MAX_ORDER: usize = 64;

pub const MAX_RHS: usize = 16;

// The most values of a matrix and of right-hand sides that a job can have, and the bytes of the longest job. Memory is fixed: arrays have room for the largest
// job, and what a job needs of them is lent.
pub const MAX_ENTRIES: usize = MAX_ORDER * (MAX_ORDER + 1) / 2;

pub const MAX_VALUES: usize = MAX_ORDER * MAX_RHS;

pub const MAX_JOB: usize = 5 + (MAX_ENTRIES + 7) / 8 + 8 * MAX_ENTRIES + 8 * MAX_VALUES;

// A stored job, read as it was before needless zeros were refused, and written without them to the start of out: its length. After a fault nothing is
// written.
pub fn rewrite(file: &[u8], out: &mut [u8; MAX_JOB]) -> Result<usize, Fault>
    ensures { Rewrites (rewritten file.now) out.old result out.new }
{
    let (sizes, mut reader) = read_sizes(file)?;
    let mut matrix = [0u64; MAX_ENTRIES];
    let mut rhs = [0u64; MAX_VALUES];
    let mut job = Job::new(sizes, &mut matrix, &mut rhs);
    reader.read_contents(Zeros::Kept, &mut job)?;
    let mut writer = Writer::new(out);
    writer::put_job(&mut writer, &job);
    Ok(writer.at)
}
