// Standard output and standard error, and the status that a program ends with after it wrote to them.
#![tactic(auto)]

use std::fmt::Display;
use std::io;
use std::io::ErrorKind;
use std::process::ExitCode;

// The status of a program that SIGPIPE ended, as a shell gives it. std has that signal ignored, so a write that nobody reads fails instead.
const UNREAD: u8 = 128 + 13;

fn status(wrote: io::Result<()>) -> ExitCode {
    match wrote {
        Err(e) if e.kind() == ErrorKind::BrokenPipe => ExitCode::from(UNREAD),
        _ => ExitCode::SUCCESS,
    }
}

// A line on standard error. What hinders it is told nowhere.
pub fn tell(rt: &impl Eprint, message: impl Display + Drop) -> ExitCode {
    status(rt.eprintln(message))
}

// All of the bytes to standard output. Where that fails, `unwritten` is told, but nothing where nobody reads.
pub fn write_output(rt: &(impl Print + Eprint), bytes: &[u8], unwritten: &str) -> ExitCode {
    match rt.write_all(bytes) {
        Err(e) if e.kind() != ErrorKind::BrokenPipe => tell(rt, unwritten),
        wrote => status(wrote),
    }
}
