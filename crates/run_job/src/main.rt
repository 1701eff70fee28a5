// Reads one job from standard input and writes its listing to standard output. A failed read or write, and nothing else, is told on standard
// error, which the launcher run-job turns into status 1.
#![tactic(auto)]

use input::read_input;
use job::LISTING;
use job_format::MAX_JOB;
use output::{tell, write_output};
use std::process::ExitCode;

fn main(rt: HostRuntime) -> ExitCode {
    // One byte more than the longest job has, so that an extra byte is seen.
    let mut file = [0u8; MAX_JOB + 1];
    let mut out = [0u8; LISTING];
    let Ok(size) = read_input(&mut rt.stdin(), &mut file) else {
        return tell(&rt, "run_job: the job could not be read");
    };
    let end = job::run(&file[..size], &mut out);
    write_output(
        &rt,
        &out[..end],
        "run_job: the listing could not be written",
    )
}
