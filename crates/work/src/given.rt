// The x of a line: the middle values of the hills between its two, and the outcomes of earlier lines.
ghost use Rattle.std.specs.Prelude.{◌≡◌, ◌≤◌, eqb, length};
ghost use Rattle.figure.specs.Mode.{mode_of};
ghost use Rattle.summary.specs.Judge.{middle_at};
ghost use Rattle.plan_work.specs.Work.{middles_at, outcomes_at, strictly_between};
ghost use Rattle.run_level.specs.Levels.{piece_of, peak_of};
ghost use Rattle.work.specs.Stores.{Stores};
ghost use Rattle.run_level.specs.Along.{row_in};
ghost use Rattle.work.specs.Promised.{
  IsPlaceOfHill,
  AddsMiddle,
  with_middle,
  AddsOutcome,
  with_outcome,
  Middles,
  OutsStored,
  done_of,
  Gives,
  Given,
};

use judge::Numbers;
use row_plan::Line;
use run_level::Place;
use run_level::hills::{Hills, place_of};

// The middle value of a hill.
pub fn read_middle(row: &[u8], hill: Place) -> i64
    requires { IsPlaceOfHill row.now hill }
    ensures { result ≡ middle_at (piece_of row.now hill.piece) }
{
    let rise = (hill.start - hill.peak) as usize;
    number::read_i64(row, hill.at + 16 + 8 * rise)
}

// The middle value of a piece joins, if it is a hill with this peak.
fn add_middle(row: &[u8], mode: u16, piece: Place, level: u8, acc: i64) -> i64
    requires { AddsMiddle row.now mode piece level acc }
    ensures { Stores (mode_of mode) result (with_middle row.now mode piece level acc) }
{
    if piece.peak != level {
        return acc;
    }
    figure::combine(mode, acc, read_middle(row, piece))
}

// Whether a piece is a hill with this peak. Few are, so it is asked before a place is made.
fn has_peak(note: Option<Numbers>, level: u8) -> bool
    requires { level ≤ 64 }
    ensures { result ≡ eqb (peak_of note) level }
{
    match note {
        None => false,
        Some(n) => (n.peak == level) & n.fault.is_none(),
    }
}

// The middle values of the hills between i and j with this peak, combined.
fn middles(hills: Hills, i: u8, j: u8, level: u8) -> i64
    requires { Middles hills.row.now hills.count hills.mode hills.ats.now hills.notes.now i j level }
    ensures { Stores (mode_of hills.entry.mode) result (middles_at (mode_of hills.entry.mode).algebra level (strictly_between (mode_of hills.entry.mode).algebra (row_in hills.entry.mode hills.entry.row.now) i j)) }
{
    let mut acc = figure::nothing(hills.mode);
    for k in usize::from(i) + 1..usize::from(j) {
        if !has_peak(hills.notes[k], level) {
            continue;
        }
        acc = add_middle(hills.row, hills.mode, place_of(hills, k), level, acc);
    }
    acc
}

// The outcome of a line joins, if the line lies within i to j and its lowest depth is this level.
fn add_outcome(mode: u16, i: u8, j: u8, level: u8, line: Line, out: i64, acc: i64) -> i64
    requires { AddsOutcome mode out acc }
    ensures { Stores (mode_of mode) result (with_outcome mode i j level line out acc) }
{
    if (i <= line.i) & (line.j <= j) & (line.low == level) {
        return figure::combine(mode, out, acc);
    }
    acc
}

// The outcomes of lines, of those from i to j whose lowest depth is this level, combined.
fn outcomes(mode: u16, lines: &[Line], outs: &[i64; 128], i: u8, j: u8, level: u8) -> i64
    requires { OutsStored (mode_of mode) outs.now (length lines.now) }
    ensures { Stores (mode_of mode) result (outcomes_at (mode_of mode).algebra i j level (done_of (mode_of mode) lines.now outs.now)) }
{
    let mut acc = figure::nothing(mode);
    for (k, line) in lines.iter().enumerate() {
        acc = add_outcome(mode, i, j, level, *line, outs[k], acc);
    }
    acc
}

// The x of a line after these lines, with their outcomes.
pub fn given(hills: Hills, lines: &[Line], outs: &[i64; 128], line: Line) -> i64
    requires { Gives hills.row.now hills.count hills.mode hills.ats.now hills.notes.now lines.now outs.now line }
    ensures { Given hills.entry.row.now hills.entry.mode lines.now outs.now line result }
{
    let level = line.high + 1;
    let between = middles(hills, line.i, line.j, level);
    let before = outcomes(hills.mode, lines, outs, line.i, line.j, level);
    figure::combine(hills.mode, between, before)
}
