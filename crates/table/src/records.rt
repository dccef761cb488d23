// The records of a log, written from a table.
ghost use Rattle.std.specs.Prelude.{◌≡◌, true, ◌+◌, ◌≤◌, length};
ghost use Rattle.std.proofs.lemmas.List.Edits.{sets};
ghost use Rattle.number.specs.Writing.{StoredAt};
ghost use Rattle.record.specs.Record.{open_bytes};
ghost use Rattle.day_table.specs.Table.{closes_to, log_of};
ghost use Rattle.day_table.specs.Outcomes.{table_lines, all_could_hold, log_bytes};

use crate::lines;

// A full open record, 18 bytes: its length, its kind, and then a line.
fn write_open(out: &mut [u8], at: usize, depth: u16, value: i32, floor: i32, ceiling: i32)
    requires { at + 18 ≤ length out.old }
    ensures { out.new ≡ sets out.old at (open_bytes depth value floor ceiling) }
{
    number::write_u16(out, at, 18);
    number::write_u16(out, at + 2, 1);
    lines::write_line(out, at + 4, depth, value, floor, ceiling);
}

// The closes from one level down to another, deepest first. It answers where they end.
fn write_closes(out: &mut [u8], start: usize, from: u16, to: u16) -> usize
    requires { start + length (log_bytes (closes_to from to)) ≤ length out.old }
    ensures { StoredAt (log_bytes (closes_to from to)) start out.old out.new result }
{
    let mut at = start;
    for level in (to..from).rev() {
        record_writer::write_close(out, at, level);
        at += 6;
    }
    at
}

// The log of a table's lines: before each open the closes down to its depth, and after the last line those down to level 0.
pub fn write_records(table: &[u8], out: &mut [u8])
    requires table_value { all_could_hold (table_lines table.now) ≡ true }
    requires table_in_bounds { length (log_bytes (log_of (table_lines table.now))) ≤ length out.old }
    ensures { out.new ≡ sets out.old 0 (log_bytes (log_of (table_lines table.now))) }
{
    let mut at: usize = 0;
    let mut level: u16 = 0;
    for line in table.chunks_exact(14) {
        let depth = number::read_u16(line, 0);
        at = write_closes(out, at, level, depth);
        write_open(
            out,
            at,
            depth,
            number::read_i32(line, 2),
            number::read_i32(line, 6),
            number::read_i32(line, 10),
        );
        at += 18;
        level = depth + 1;
    }
    write_closes(out, at, level, 0);
}
