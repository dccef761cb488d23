// The call on a row of summaries that writes its join plan.
#![tactic(auto)]

ghost use Rattle.std.specs.Prelude.{◌≡◌, length};
ghost use Rattle.gate.specs.Outcome.{buffer_after};
ghost use Rattle.gate.specs.Answers.{answered, length_answered};
ghost use Rattle.outcome.specs.Outcomes.{plan_outcome};

use gate::Refusal;
use row_plan::Line;

mod lines;

// The plan of a row: the lines of its levels, where they fit.
pub fn plan(row: &[u8], out: &mut [u8]) -> Result<usize, Refusal>
    ensures answer { answered result ≡ length_answered (plan_outcome row.now (length out.old)) }
    ensures buffer { out.new ≡ buffer_after (plan_outcome row.now (length out.old)) out.old }
{
    let mut notes = [None; 64];
    let found = match row_gate::open_row(row, &mut notes) {
        Ok(found) => found,
        // An arm, and no `?`: a wrong answer of it alone is tried (must-fail).
        Err(no) => return Err(no),
    };
    let mut lines = [Line::default(); 128];
    let n = row_plan::scan::scan(&notes, found.count, &mut lines);
    let total = 12 * n;
    if out.len() < total {
        return Err(Refusal::BufferTooShort);
    }
    lines::write_lines(&lines[..n], out);
    Ok(total)
}
