// The runs of a plan's lines, one after the other.
ghost use Rattle.std.specs.Prelude.{◌≡◌, ◌*◌, ◌≤◌, length};
ghost use Rattle.std.proofs.lemmas.List.Edits.{sets};
ghost use Rattle.outcome.specs.Outcomes.{run_length};
ghost use Rattle.row_plan.specs.Arrays.{line_in, lines_in};
ghost use Rattle.runs.specs.Runs.{Lines, LineOf, LineRun, lines_runs};

use super::bytes::write_run;
use super::line::run_of_line;
use figure::Run;
use row_plan::Line;
use run_level::hills::{Hills, place_of};

// The run of a line, from the places of its two hills.
fn one_run(hills: Hills, line: Line) -> Run
    requires { LineOf hills.row.now hills.mode hills.ats.now hills.notes.now line }
    ensures { LineRun hills.entry.row.now hills.entry.mode (line_in line) result }
{
    let opener = place_of(hills, usize::from(line.i));
    let closer = place_of(hills, usize::from(line.j));
    run_of_line(hills.row, opener, closer, line.low, line.high, hills.mode)
}

pub fn write_each(hills: Hills, lines: &[Line], out: &mut [u8])
    requires lines { Lines hills.row.now hills.mode hills.ats.now hills.notes.now lines.now }
    requires n_in_bounds { run_length hills.mode * length lines.now ≤ length out.old }
    ensures { out.new ≡ sets out.old 0 (lines_runs hills.entry.row.now hills.entry.mode (lines_in lines.now)) }
{
    let bytes = outcome::run_length(hills.mode);
    for (k, line) in lines.iter().enumerate() {
        write_run(out, bytes * k, hills.mode, one_run(hills, *line));
    }
}
