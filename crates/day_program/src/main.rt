// The day program: reads one log from standard input and prints its four figures, or the refusal.
#![tactic(auto)]

ghost use Rattle.std.specs.Prelude.{◌≤◌, ◌<◌, take, IfOk, OnOk};
ghost use Rattle.std.specs.Io.KnownBytes.{Appends, Consumes, IsAtEnd};
ghost use Rattle.outcome.specs.Day.{day_outcome};
ghost use Rattle.outcome.specs.Line.{day_line};

use std::io;
use std::io::{Read, Write};

// Reads until the buffer is full or the input ends, and answers how many bytes there are. One byte more than a log may have is enough
// to refuse it.
fn read_log<R: Read>(input: &mut R, log: &mut [u8; 65537]) -> io::Result<usize>
    ensures fits { IfOk result (λ n. n ≤ 65537) }
    ensures bytes { IfOk result (λ n. Consumes (R.remaining input.old) (R.remaining input.new) (take n log.new)) }
    ensures end { IfOk result (λ n. n < 65537 → IsAtEnd (R.remaining input.new)) }
{
    let mut at = 0;
    // A step is as long as what was read.
    while at < log.len() {
        let n = input.read(&mut log[at..])?;
        if n == 0 {
            return Ok(at);
        }
        at += n;
    }
    Ok(at)
}

// Writes the line of a log.
fn print_day<W: Write>(log: &[u8], output: &mut W) -> io::Result<()>
    ensures line { OnOk result (Appends (W.contents output.old) (W.contents output.new) (day_line (day_outcome log.now))) }
{
    let mut line = [0u8; 128];
    let n = day_line::text(log, &mut line);
    output.write_all(&line[..n])
}

fn main(rt: HostRuntime) -> io::Result<()> {
    let mut log = [0u8; 65537];
    match read_log(&mut rt.stdin(), &mut log) {
        Ok(n) => print_day(&log[..n], &mut rt.stdout()),
        Err(_) => eprintln!(rt; "day: standard input cannot be read"),
    }
}
