// Reads one stored job from standard input, under the rules before needless zeros were refused, and writes it without them to standard output. A job
// refused under 13 gives no output: its code and place are told on standard error, and so is a failed read or write, all of which the launcher
// rewrite-job turns into status 1.
#![tactic(auto)]

use input::read_input;
use job_format::{Fault, MAX_JOB, rewrite};
use output::{tell, write_output};
use std::process::ExitCode;

fn tell_fault(rt: &impl Eprint, fault: Fault) -> ExitCode {
    let code = fault.code();
    let place = fault.place();
    tell(rt, format_args!("rewrite_job: code {code}, place {place}"))
}

fn write_job(rt: &(impl Print + Eprint), job: &[u8]) -> ExitCode {
    write_output(rt, job, "rewrite_job: the job could not be written")
}

fn main(rt: HostRuntime) -> ExitCode {
    // One byte more than the longest job has, so that an extra byte is seen.
    let mut file = [0u8; MAX_JOB + 1];
    let mut out = [0u8; MAX_JOB];
    let Ok(size) = read_input(&mut rt.stdin(), &mut file) else {
        return tell(&rt, "rewrite_job: the job could not be read");
    };
    match rewrite(&file[..size], &mut out) {
        Ok(end) => write_job(&rt, &out[..end]),
        Err(fault) => tell_fault(&rt, fault),
    }
}
