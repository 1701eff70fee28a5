// Runs every small system on both pipelines and writes the counts of their codes to standard output. A failed write, and nothing else, is told on
// standard error, which the launcher small-systems turns into status 1.
#![tactic(auto)]

use acceptance::LISTING;
use output::write_output;
use std::process::ExitCode;

fn main(rt: HostRuntime) -> ExitCode {
    let mut out = [0u8; LISTING];
    let end = acceptance::put_listing(&mut out);
    write_output(
        &rt,
        &out[..end],
        "small_systems: the counts could not be written",
    )
}
