// Every system of order 0 to 3 whose packed entries are whole numbers from −2 to 2, run on both pipelines, and the listing of how many gave which code.
#![tactic(auto)]

ghost use Rattle.std.specs.Prelude.{◌≡◌, ℕ, ◌+◌, ◌*◌, ◌^◌, ◌≤◌, ◌<◌, [], length, slice_index_or};
ghost use Rattle.std.specs.Float.{binary64};
ghost use Rattle.std.specs.Float.Ieee.{of_int};
ghost use Rattle.shape.specs.Places.{triangle};
ghost use Rattle.text.specs.Writing.{Written, Puts, pieces};
ghost use Rattle.acceptance.specs.declared.Run.TheVariants.{Plain};
ghost use Rattle.acceptance.specs.Systems as Systems;
ghost use Rattle.acceptance.specs.Systems.{whole_of, wholes, values};
ghost use Rattle.acceptance.specs.Counts.{run_of, ended_on, code_of, numbers_line, line, listing};
ghost use Rattle.acceptance.specs.Promises.{counts_to, counted};

use engine::{blocked_pipeline, plain_pipeline};
use shape::Shape;
use text::Writer;

// The highest order, and how many values its triangle and its work memory have. Memory is fixed: arrays have room for it, and what an order needs is lent. That an
// order is at most the highest is a clause of the functions that run one, as the definitions are of every order.
const MAX_ORDER: usize = 3;

const MAX_ENTRIES: usize = MAX_ORDER * (MAX_ORDER + 1) / 2;

const WORK: usize = MAX_ORDER * MAX_ORDER;

// The pipeline that a system is run on; the blocked one with its block length.
#[derive(Clone, Copy)]
pub enum Run {
    Plain,
    Blocked(usize),
}

// The plain pipeline, and the blocked one with b 1, 2 and 3.
const RUNS: usize = 4;

fn every_run() -> [Run; RUNS]
    ensures { (k : ℕ) → k < 4 → slice_index_or result k Plain ≡ run_of k }
{
    [
        Run::Plain,
        Run::Blocked(1),
        Run::Blocked(2),
        Run::Blocked(3),
    ]
}

// A line has the order, the total and four counts, each after a space and of at most 20 digits, between `N` and the line feed.
const NUMBERS: usize = 6;

const LINE: usize = 2 + 21 * NUMBERS;

pub const LISTING: usize = (MAX_ORDER + 1) * RUNS * LINE;

// How many systems gave 0, 10, 11 and 16.
#[derive(Clone, Copy, Default)]
pub struct Counts {
    pub accepted: usize,
    pub nonpositive: usize,
    pub overflowed: usize,
    pub weak: usize,
}

// A digit of base 5 less 2, which no rounding changes; 2 less 2 is +0.
fn value(digit: usize) -> f64
    requires { digit < 5 }
    ensures { result ≡ of_int binary64 (whole_of digit) }
{
    digit as f64 - 2.0
}

// The digits of t from the last up.
fn fill_system(t: usize, matrix: &mut [f64])
    ensures { matrix.new ≡ values (wholes (length matrix.old) t) }
{
    let mut left = t;
    // By position: the proofs know no value that `iter_mut().rev()` wrote.
    for p in (0..matrix.len()).rev() {
        matrix[p] = value(left % 5);
        left /= 5;
    }
}

impl Run {
    // The code of a system without right-hand sides.
    fn code(self, n: usize, matrix: &mut [f64], work: &mut [f64]) -> usize
        ensures { result ≡ (ended_on self n matrix.old [] work.old).solver_result.code }
    {
        match self {
            Run::Plain => plain_pipeline(n, 1, 0, matrix, &mut [], work).solver.code,
            Run::Blocked(b) => blocked_pipeline(n, b, 0, matrix, &mut [], work).solver.code,
        }
    }
}

// The code that matrix number t of order n gives.
fn system_code(run: Run, n: usize, t: usize) -> usize
    requires { n ≤ 3 }
    ensures { result ≡ code_of run n t }
{
    let entries = Shape::new(n, 1).triangle();
    let mut matrix = [0.0; MAX_ENTRIES];
    let mut work = [0.0; WORK];
    let matrix = &mut matrix[..entries];
    fill_system(t, matrix);
    run.code(n, matrix, &mut work[..n * n])
}

fn total(n: usize) -> usize
    requires { n ≤ 3 }
    ensures { result ≡ Systems.total n }
{
    let entries = Shape::new(n, 1).triangle();
    5usize.pow(entries as u32)
}

impl Counts {
    // One system more.
    fn add(&mut self, code: usize)
        requires { (self.old.accepted < 2 ^ 32) × (self.old.nonpositive < 2 ^ 32) × (self.old.overflowed < 2 ^ 32) × (self.old.weak < 2 ^ 32) }
        ensures { self.new ≡ counted self.old code }
    {
        match code {
            0 => self.accepted += 1,
            10 => self.nonpositive += 1,
            11 => self.overflowed += 1,
            16 => self.weak += 1,
            _ => {}
        }
    }
}

fn count_systems(run: Run, n: usize, count: usize) -> Counts
    requires n_bound { n ≤ 3 }
    requires count_bound { count < 2 ^ 32 }
    ensures { result ≡ counts_to run n count }
{
    let mut counts = Counts::default();
    for t in 0..count {
        counts.add(system_code(run, n, t));
    }
    counts
}

// `N` and the numbers, each after a space.
fn put_numbers(writer: &mut Writer, numbers: &[usize])
    requires { writer.old.at + (2 + 21 * length numbers.now) ≤ length writer.old.out.now }
    ensures { Puts (numbers_line numbers.now) writer.old writer.new }
{
    writer.put_byte(b'N');
    for &number in numbers {
        writer.put_byte(b' ');
        writer.put_decimal(number);
    }
    writer.put_byte(b'\n');
}

fn put_line(writer: &mut Writer, run: Run, n: usize)
    requires n_bound { n ≤ 3 }
    requires in_bounds { writer.old.at + 128 ≤ length writer.old.out.now }
    ensures { Puts (line run n) writer.old writer.new }
{
    let all = total(n);
    let counts = count_systems(run, n, all);
    let numbers = [
        n,
        all,
        counts.accepted,
        counts.nonpositive,
        counts.overflowed,
        counts.weak,
    ];
    put_numbers(writer, &numbers);
}

// The lines of an order, one for each of the runs, whatever they are.
fn put_order(writer: &mut Writer, n: usize, runs: &[Run])
    requires n_bound { n ≤ 3 }
    requires in_bounds { writer.old.at + 128 * length runs.now ≤ length writer.old.out.now }
    ensures { Puts (pieces (λ k. line (slice_index_or runs.now k Plain) n) (length runs.now)) writer.old writer.new }
{
    for &run in runs {
        put_line(writer, run, n);
    }
}

fn put_orders(writer: &mut Writer)
    requires { writer.old.at + 2048 ≤ length writer.old.out.now }
    ensures { Puts listing writer.old writer.new }
{
    let runs = every_run();
    for n in 0..=MAX_ORDER {
        put_order(writer, n, &runs);
    }
}

// The listing, written to the start of out, and its length.
pub fn put_listing(out: &mut [u8; LISTING]) -> usize
    ensures { Written 0 listing out.old result out.new }
{
    let mut writer = Writer::new(out);
    put_orders(&mut writer);
    writer.at
}
