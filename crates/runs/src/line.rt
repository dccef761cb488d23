// The run of a line: its levels from the highest depth to the lowest, each around those passed.
ghost use Rattle.std.specs.Prelude.{◌≡◌};
ghost use Rattle.run_level.specs.Levels.{piece_of, level_at};
ghost use Rattle.runs.specs.Runs.{LevelReads, level_run_of, LineReads, line_levels, RunIs};

use figure::Run;
use run_level::{Place, read_level};

// The run of one level.
fn run_of_level(row: &[u8], opener: Place, closer: Place, depth: u8, mode: u16) -> Run
    requires { LevelReads row.now mode opener closer depth }
    ensures { result ≡ level_run_of mode (level_at (piece_of row.now opener.piece) (piece_of row.now closer.piece) depth) }
{
    let l = read_level(row, opener, closer, depth);
    figure::runs::level(mode, l.value, l.floor, l.ceiling, l.held, l.left)
}

pub fn run_of_line(row: &[u8], opener: Place, closer: Place, low: u8, high: u8, mode: u16) -> Run
    requires { LineReads row.now mode opener closer low high }
    ensures { RunIs mode (line_levels row.now mode opener closer low high) result }
{
    let mut run = run_of_level(row, opener, closer, high, mode);
    for depth in (low..high).rev() {
        let outer = run_of_level(row, opener, closer, depth, mode);
        run = figure::runs::compose(mode, outer, run);
    }
    run
}
