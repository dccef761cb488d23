// The call on a row of summaries that writes the runs of its join plan.
#![tactic(auto)]

ghost use Rattle.std.specs.Prelude.{◌≡◌, length};
ghost use Rattle.gate.specs.Outcome.{buffer_after};
ghost use Rattle.gate.specs.Answers.{answered, length_answered};
ghost use Rattle.outcome.specs.Outcomes.{runs_outcome};

use gate::Refusal;
use row_plan::Line;
use run_level::hills::Hills;

mod bytes;
mod each;
mod line;

// The runs of a row, one for each line of its plan, where they fit.
pub fn runs(row: &[u8], out: &mut [u8]) -> Result<usize, Refusal>
    ensures answer { answered result ≡ length_answered (runs_outcome row.now (length out.old)) }
    ensures buffer { out.new ≡ buffer_after (runs_outcome row.now (length out.old)) out.old }
{
    let mut notes = [None; 64];
    let found = match row_gate::open_row(row, &mut notes) {
        Ok(found) => found,
        // An arm, and no `?`: a wrong answer of it alone is tried (must-fail).
        Err(no) => return Err(no),
    };
    let mut lines = [Line::default(); 128];
    let n = row_plan::scan::scan(&notes, found.count, &mut lines);
    let total = outcome::run_length(found.mode) * n;
    if out.len() < total {
        return Err(Refusal::BufferTooShort);
    }
    let mut ats = [0; 64];
    run_level::begin_pieces(row, found.count, &mut ats);
    let hills = Hills {
        row,
        count: found.count,
        mode: found.mode,
        ats: &ats,
        notes: &notes,
    };
    each::write_each(hills, &lines[..n], out);
    Ok(total)
}
