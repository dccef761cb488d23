// One line of the sheet, 27 bytes at a position.
ghost use Rattle.std.specs.Prelude.{◌≡◌, ◌+◌, ◌≤◌, length};
ghost use Rattle.std.proofs.lemmas.List.Edits.{sets};
ghost use Rattle.day_sheet.specs.Sheet.{sheet_line};
ghost use Rattle.day_sheet.specs.Claims.{InColumns};

// The number, the depth and the figure in their columns.
pub fn write_line(out: &mut [u8], at: usize, number: u32, depth: u16, figure: i64)
    requires in_columns { InColumns number depth figure }
    requires at_in_bounds { at + 27 ≤ length out.old }
    ensures { out.new ≡ sets out.old at (sheet_line number depth figure) }
{
    text::write_column(out, at, 6, number as i64, b' ');
    text::write_column(out, at + 7, 2, depth as i64, b' ');
    text::write_column(out, at + 10, 16, figure, b'\n');
}
