// The bytes of a plan's lines.
ghost use Rattle.std.specs.Prelude.{◌≡◌, ◌+◌, ◌*◌, ◌≤◌, length};
ghost use Rattle.std.proofs.lemmas.List.Edits.{sets};
ghost use Rattle.outcome.specs.Outcomes.{line_bytes, lines_bytes};
ghost use Rattle.row_plan.specs.Arrays.{line_in, lines_in};

use row_plan::Line;

fn write_line(out: &mut [u8], at: usize, line: Line)
    requires { at + 12 ≤ length out.old }
    ensures { out.new ≡ sets out.old at (line_bytes (line_in line)) }
{
    number::write_u16(out, at, 12);
    number::write_u16(out, at + 2, 19);
    number::write_u16(out, at + 4, u16::from(line.i));
    number::write_u16(out, at + 6, u16::from(line.j));
    number::write_u16(out, at + 8, u16::from(line.low));
    number::write_u16(out, at + 10, u16::from(line.high));
}

pub fn write_lines(lines: &[Line], out: &mut [u8])
    requires { (length lines.now ≤ 128) × (12 * length lines.now ≤ length out.old) }
    ensures { out.new ≡ sets out.old 0 (lines_bytes (lines_in lines.now)) }
{
    for (k, line) in lines.iter().enumerate() {
        write_line(out, 12 * k, *line);
    }
}
