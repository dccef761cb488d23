// A figure put through the run of a line.
ghost use Rattle.std.specs.Prelude.{suc, ◌-◌};
ghost use Rattle.algebra.specs.Run.{step, through};
ghost use Rattle.figure.specs.Mode.{mode_of};
ghost use Rattle.run_level.specs.Levels.{piece_of, level_for};
ghost use Rattle.work.specs.Stores.{Stores};
ghost use Rattle.run_level.specs.Along.{levels_of};
ghost use Rattle.work.specs.Promised.{Steps, Runs};

use run_level::{Place, RunLevel};

// x put through one level: what its record holds so far, x and the value after it are combined, and go through the record.
fn through_level(mode: u16, level: RunLevel, x: i64) -> i64
    requires { Steps mode level x }
    ensures { Stores (mode_of mode) result (step (mode_of mode).algebra (level_for mode level) ((mode_of mode).read x)) }
{
    let inside = figure::combine(mode, figure::combine(mode, level.held, x), level.left);
    figure::through(mode, level.value, level.floor, level.ceiling, inside)
}

// x put through the levels of a line, the deepest first.
pub fn through_line(
    row: &[u8],
    mode: u16,
    opener: Place,
    closer: Place,
    low: u8,
    high: u8,
    x: i64,
) -> i64
    requires { Runs row.now mode opener closer low high x }
    ensures { Stores (mode_of mode) result (through (mode_of mode).algebra (levels_of row.now mode opener closer low (suc high - low)) ((mode_of mode).read x)) }
{
    let mut y = x;
    for depth in (low..high + 1).rev() {
        y = through_level(mode, run_level::read_level(row, opener, closer, depth), y);
    }
    y
}
