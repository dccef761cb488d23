// The work along the join plan of a row of summaries.
#![tactic(auto)]

ghost use Rattle.std.specs.Prelude.{◌≡◌};
ghost use Rattle.outcome.specs.Outcomes.{work_outcome};
ghost use Rattle.work.specs.Answers.{worked_answer};

use gate::Refusal;
use row_plan::Line;
use row_plan::levels::fold_levels;
use run_level::hills::Hills;

mod given;
mod line;
mod lines;

// The figure, the joins used and the number of levels folded.
#[derive(Clone, Copy, Debug, PartialEq, Eq)]
pub struct Totals {
    pub figure: i64,
    pub joins: u32,
    pub levels: u32,
}

// The work along the plan of a row.
pub fn work(row: &[u8]) -> Result<Totals, Refusal>
    ensures answer { worked_answer result ≡ work_outcome row.now }
{
    let mut notes = [None; 64];
    let found = match row_gate::open_row(row, &mut notes) {
        Ok(found) => found,
        // An arm, and no `?`: a wrong answer of it alone is tried (must-fail).
        Err(no) => return Err(no),
    };
    let mut lines = [Line::default(); 128];
    let n = row_plan::scan::scan(&notes, found.count, &mut lines);
    let mut ats = [0; 64];
    run_level::begin_pieces(row, found.count, &mut ats);
    let hills = Hills {
        row,
        count: found.count,
        mode: found.mode,
        ats: &ats,
        notes: &notes,
    };
    let figure = lines::work_lines(hills, &lines[..n]);
    Ok(Totals {
        figure,
        joins: n as u32,
        levels: fold_levels(&lines[..n]),
    })
}
