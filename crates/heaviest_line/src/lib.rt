// The records behind the heaviest line: one pass over the log finds where the line ends, and another writes the numbers of its records.
#![tactic(auto)]

ghost use Rattle.std.specs.Prelude.{◌≡◌, List, length};
ghost use Rattle.gate.specs.Outcome.{written, buffer_after};
ghost use Rattle.gate.specs.Answers.{answered, length_answered};
ghost use Rattle.gate.specs.Promises.{Answers};
ghost use Rattle.modes.specs.FourModes.{Amounts};
ghost use Rattle.hill.specs.Log.{Record};
ghost use Rattle.chunk.specs.Chunk.{IsWellFormed};
ghost use Rattle.log_records.specs.Line.{line_numbers, number_bytes, heaviest_line_outcome};

use gate::Refusal;

mod ends;
mod numbers;

// The numbers of the line of a log that was let through, where they fit.
fn put_line(log: &[u8], out: &mut [u8]) -> Result<usize, Refusal>
    requires { (xs : List (Record Amounts)) × IsWellFormed log.now xs }
    ensures { (xs : List (Record Amounts)) → IsWellFormed log.now xs → Answers (written (length out.old) (number_bytes (line_numbers xs))) out.old out.new result }
{
    let end = ends::find_end(log);
    let total = 4 * (end.depth as usize) + 4;
    if out.len() < total {
        return Err(Refusal::BufferTooShort);
    }
    numbers::write_numbers(log, end.upto, end.depth, out);
    Ok(total)
}

// The numbers of the records behind the heaviest line of a whole log, or the first question that gets a "no".
pub fn heaviest_line(log: &[u8], out: &mut [u8]) -> Result<usize, Refusal>
    ensures answer { answered result ≡ length_answered (heaviest_line_outcome log.now (length out.old)) }
    ensures buffer { out.new ≡ buffer_after (heaviest_line_outcome log.now (length out.old)) out.old }
{
    match whole_log::ask(log) {
        Ok(_) => put_line(log, out),
        // An arm, and no `?`: a wrong answer of it alone is tried (must-fail).
        Err(no) => Err(no),
    }
}
