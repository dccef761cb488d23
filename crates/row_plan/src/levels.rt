// The levels that the lines of a plan fold.
ghost use Rattle.std.specs.Prelude.{◌≡◌, ◌≤◌, length};
ghost use Rattle.join_plan.specs.Plan.{folded};
ghost use Rattle.row_plan.specs.Arrays.{lines_in};

use super::Line;

pub fn fold_levels(lines: &[Line]) -> u32
    requires { length lines.now ≤ 128 }
    ensures { result ≡ folded (lines_in lines.now) }
{
    lines
        .iter()
        .map(|line| u32::from(line.high.saturating_sub(line.low)) + 1)
        .sum()
}
