// The lines of a plan in order, each line's x put through its run.
ghost use Rattle.std.specs.Prelude.{◌≡◌, length};
ghost use Rattle.figure.specs.Mode.{mode_of};
ghost use Rattle.plan_work.specs.Work.{work_of, one_middle};
ghost use Rattle.plan_work.specs.WorkLaws.{work};
ghost use Rattle.row_plan.specs.Arrays.{line_in};
ghost use Rattle.work.specs.Stores.{Stores};
ghost use Rattle.run_level.specs.Along.{row_in, Ready, Along};
ghost use Rattle.work.specs.Promised.{done_of, WorksLine, AllWorked};

use super::given::{given, read_middle};
use super::line::through_line;
use row_plan::Line;
use run_level::hills::{Hills, place_of};

// The outcome of a line after these lines, with their outcomes.
fn work_line(hills: Hills, lines: &[Line], outs: &[i64; 128], line: Line) -> i64
    requires { WorksLine hills.row.now hills.count hills.mode hills.ats.now hills.notes.now lines.now outs.now line }
    ensures { Stores (mode_of hills.entry.mode) result (work (mode_of hills.entry.mode).algebra (row_in hills.entry.mode hills.entry.row.now) (line_in line) (done_of (mode_of hills.entry.mode) lines.now outs.now)).out }
{
    let x = given(hills, lines, outs, line);
    let opener = place_of(hills, usize::from(line.i));
    let closer = place_of(hills, usize::from(line.j));
    through_line(
        hills.row, hills.mode, opener, closer, line.low, line.high, x,
    )
}

// The outcome of each line.
fn work_each(hills: Hills, lines: &[Line], outs: &mut [i64; 128])
    requires { Along hills.row.now hills.count hills.mode hills.ats.now hills.notes.now lines.now }
    ensures { AllWorked hills.entry.row.now hills.entry.mode lines.now outs.new (length lines.now) }
{
    for (k, line) in lines.iter().enumerate() {
        outs[k] = work_line(hills, &lines[..k], outs, *line);
    }
}

// The middle value of the one hill.
fn one_middle(hills: Hills) -> i64
    requires { Ready hills.row.now hills.count hills.mode hills.ats.now hills.notes.now }
    ensures { Stores (mode_of hills.entry.mode) result (one_middle (mode_of hills.entry.mode).algebra (row_in hills.entry.mode hills.entry.row.now)) }
{
    for k in 0..hills.count {
        if hills.notes[k].is_some() {
            return read_middle(hills.row, place_of(hills, k));
        }
    }
    figure::nothing(hills.mode)
}

// The last outcome; with no line, the middle value of the one hill.
pub fn work_lines(hills: Hills, lines: &[Line]) -> i64
    requires { Along hills.row.now hills.count hills.mode hills.ats.now hills.notes.now lines.now }
    ensures { result ≡ (mode_of hills.entry.mode).store (work_of (mode_of hills.entry.mode).algebra (row_in hills.entry.mode hills.entry.row.now)).figure }
{
    if lines.is_empty() {
        return one_middle(hills);
    }
    let mut outs = [0; 128];
    work_each(hills, lines, &mut outs);
    outs[lines.len() - 1]
}
