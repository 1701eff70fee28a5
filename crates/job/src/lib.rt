// A job read from its bytes, and its listing.
#![tactic(auto)]

ghost use Rattle.std.specs.Prelude.{◌≡◌, ◌≤◌, ◌+◌, ◌∷◌, [], length};
ghost use Rattle.calls.specs.Refusals.{first_refusal, rule7, rule8};
ghost use Rattle.calls.specs.Outcomes.{verdict_of};
ghost use Rattle.job_format.specs.Format.{InBounds, contents};
ghost use Rattle.text.specs.Writing.{Puts, Written};
ghost use Rattle.job.specs.Listing.{max_listing, job_of, held, JobSolved, listing_of, listing, listing_in};

mod floats;
mod listing;

use calls::{Refusal, Verdict};
use checks::{Values, check_finite};
use engine::blocked_pipeline;
use job_format::{Job, MAX_ENTRIES, MAX_ORDER, MAX_VALUES, Sizes, Zeros, read_sizes};
use listing::{put_end, put_fault, put_result};
use shape::Shape;
use text::Writer;

// The most values of work memory that a job can need, and the bytes of the longest listing. Memory is fixed: arrays have room for the largest job, and what a
// job needs of them is lent.
const WORK: usize = MAX_ORDER * MAX_ORDER;

pub const LISTING: usize = 58998;

// Codes 7 and 8 on the job's memory.
fn check_values(job: &Job<'_, f64>) -> Result<(), Refusal>
    ensures { verdict_of result ≡ first_refusal (rule7 job.now.matrix.now ∷ rule8 job.now.rhs.now ∷ []) }
{
    check_finite(Values::Matrix, job.matrix)?;
    check_finite(Values::Rhs, job.rhs)
}

// Codes 7 and 8, then the blocked pipeline.
fn solve(job: &mut Job<'_, f64>) -> Verdict
    requires { InBounds job.old.sizes }
    ensures same_sizes { job.new.sizes ≡ job.old.sizes }
    ensures solved { JobSolved (held job.old) result job.new.matrix.now job.new.rhs.now }
{
    if let Err(refusal) = check_values(job) {
        return Verdict::from(refusal);
    }
    let Sizes {
        order,
        block,
        count,
    } = job.sizes;
    let needed = Shape::new(order, block).block_work();
    let mut work = [0.0; WORK];
    let ended = blocked_pipeline(
        order,
        block,
        count,
        job.matrix,
        job.rhs,
        &mut work[..needed],
    );
    Verdict::from(ended.solver)
}

// The values from their bits, and the job's listing.
fn list_job(writer: &mut Writer, bits: &Job<'_, u64>)
    requires in_bounds { InBounds bits.now.sizes }
    requires room { writer.old.at + max_listing ≤ length writer.old.out.now }
    ensures { Puts (listing_of (job_of (contents bits.now))) writer.old writer.new }
{
    let mut matrix = [0.0; MAX_ENTRIES];
    let mut rhs = [0.0; MAX_VALUES];
    let mut job = Job::new(bits.sizes, &mut matrix, &mut rhs);
    floats::fill(&mut job, bits);
    let verdict = solve(&mut job);
    put_result(writer, &job, verdict);
}

fn list(writer: &mut Writer, file: &[u8])
    requires { writer.old.at + max_listing ≤ length writer.old.out.now }
    ensures { Puts (listing file.now) writer.old writer.new }
{
    let (sizes, mut reader) = match read_sizes(file) {
        Ok(read) => read,
        Err(fault) => return put_end(writer, fault.code(), fault.place()),
    };
    let mut matrix = [0u64; MAX_ENTRIES];
    let mut rhs = [0u64; MAX_VALUES];
    let mut bits = Job::new(sizes, &mut matrix, &mut rhs);
    match reader.read_contents(Zeros::Needless, &mut bits) {
        Ok(()) => list_job(writer, &bits),
        Err(fault) => put_fault(writer, sizes, fault),
    }
}

// The listing of a job, written to the start of out, and its length. Where out has no room for the longest listing, nothing is written.
#[tactic(auto, using(crate::proofs::Listings::no_room, crate::proofs::Listings::with_room))]
pub fn run(file: &[u8], out: &mut [u8]) -> usize
    ensures { Written 0 (listing_in (length out.old) file.now) out.old result out.new }
{
    if out.len() < LISTING {
        return 0;
    }
    let mut writer = Writer::new(out);
    list(&mut writer, file);
    writer.at
}
