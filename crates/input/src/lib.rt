// A reader, as standard input, read to its end or until a buffer is full.
#![tactic(auto)]

ghost use Rattle.std.specs.Prelude.{◌<◌, ◌≤◌, take, length, IfOk, MatchResult};
ghost use Rattle.std.specs.Io.KnownBytes.{Consumes, IsAtEnd};

use std::io::Read;

// A read failed, after so many bytes had been read.
#[derive(Clone, Copy)]
pub struct ReadFailed {
    pub count: usize,
}

// How many bytes were read. A read that a signal interrupts is a failed one.
pub fn read_input<R: Read>(reader: &mut R, buffer: &mut [u8]) -> Result<usize, ReadFailed>
    ensures in_bounds { MatchResult result (λ count. count ≤ length buffer.old) (λ failed. failed.count ≤ length buffer.old) }
    ensures bytes { MatchResult result (λ count. Consumes (R.remaining reader.old) (R.remaining reader.new) (take count buffer.new)) (λ failed. Consumes (R.remaining reader.old) (R.remaining reader.new) (take failed.count buffer.new)) }
    ensures end { IfOk result (λ count. count < length buffer.old → IsAtEnd (R.remaining reader.new)) }
{
    // A read gives as many bytes as it will: no range has such steps.
    let mut at = 0;
    while at < buffer.len() {
        match reader.read(&mut buffer[at..]) {
            Ok(0) => break,
            Ok(n) => at += n,
            Err(_) => return Err(ReadFailed { count: at }),
        }
    }
    Ok(at)
}
