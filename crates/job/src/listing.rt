// The lines of a listing.
ghost use Rattle.std.specs.Prelude.{◌≡◌, ◌+◌, ◌*◌, ◌≤◌, ◌<◌, length};
ghost use Rattle.text.specs.Writing.{Puts};
ghost use Rattle.job_format.specs.Reading.{fault_code, fault_place};
ghost use Rattle.job.specs.Listing.{hex_digit, hexadecimal, job_line, value_line, value_lines, end_line, solution_lines, result_lines, fault_lines, held};

use crate::floats::bits_of;
use calls::Verdict;
use job_format::{Fault, Job, Sizes};
use text::Writer;

fn hex_digit(d: u8) -> u8
    requires { d < 16 }
    ensures { result ≡ hex_digit d }
{
    if d < 10 { b'0' + d } else { b'A' + (d - 10) }
}

// The digits are worked out here, as those of decimal numbers are: no clause of std says that `write!` is Ok.
fn put_hexadecimal(writer: &mut Writer, v: f64)
    requires { writer.old.at + 16 ≤ length writer.old.out.now }
    ensures { Puts (hexadecimal v) writer.old writer.new }
{
    let bits = bits_of(v);
    for i in 0..16u32 {
        writer.put_byte(hex_digit(((bits >> (60 - 4 * i)) % 16) as u8));
    }
}

fn put_sizes(writer: &mut Writer, sizes: Sizes)
    requires { writer.old.at + length (job_line sizes.order sizes.block sizes.count) ≤ length writer.old.out.now }
    ensures { Puts (job_line sizes.order sizes.block sizes.count) writer.old writer.new }
{
    writer.put_text(b"JOB ");
    writer.put_number(sizes.order, b' ');
    writer.put_number(sizes.block, b' ');
    writer.put_number(sizes.count, b'\n');
}

// A line of a head, 16 digits and a line feed.
fn put_value(writer: &mut Writer, head: &[u8; 2], v: f64)
    requires { writer.old.at + 19 ≤ length writer.old.out.now }
    ensures { Puts (value_line head.now v) writer.old writer.new }
{
    writer.put_text(head);
    put_hexadecimal(writer, v);
    writer.put_byte(b'\n');
}

// As `put_values` of job_format, whose pieces are bytes: a loop that both shared would take a closure with a contract as long as either.
fn put_values(writer: &mut Writer, head: &[u8; 2], values: &[f64])
    requires { writer.old.at + 19 * length values.now ≤ length writer.old.out.now }
    ensures { Puts (value_lines head.now values.now) writer.old writer.new }
{
    for v in values {
        put_value(writer, head, *v);
    }
}

pub fn put_end(writer: &mut Writer, code: usize, place: usize)
    requires { writer.old.at + length (end_line code place) ≤ length writer.old.out.now }
    ensures { Puts (end_line code place) writer.old writer.new }
{
    writer.put_text(b"END ");
    writer.put_number(code, b' ');
    writer.put_number(place, b'\n');
}

// The listing of a job that was read, with its verdict, of which it prints code and place, and its memory at the pipeline's end: the matrix, then the
// right-hand sides.
pub fn put_result(writer: &mut Writer, job: &Job<'_, f64>, verdict: Verdict)
    requires { writer.old.at + length (result_lines job.now.sizes verdict job.now.matrix.now job.now.rhs.now) ≤ length writer.old.out.now }
    ensures { Puts (result_lines job.now.sizes verdict job.now.matrix.now job.now.rhs.now) writer.old writer.new }
{
    put_sizes(writer, job.sizes);
    if verdict.code == 0 {
        put_values(writer, b"F ", job.matrix);
        put_values(writer, b"X ", job.rhs);
    }
    put_end(writer, verdict.code, verdict.place);
}

// The listing of a job with a fault: its first line is left out where the file is no job.
pub fn put_fault(writer: &mut Writer, sizes: Sizes, fault: Fault)
    requires { writer.old.at + length (fault_lines sizes fault) ≤ length writer.old.out.now }
    ensures { Puts (fault_lines sizes fault) writer.old writer.new }
{
    match fault {
        Fault::Malformed(_) => {}
        Fault::NeedlessZero(_) => put_sizes(writer, sizes),
    }
    put_end(writer, fault.code(), fault.place());
}
