// The lines of a table: what is asked of them, and how they are written.
ghost use Rattle.std.specs.Prelude.{◌≡◌, List, [], ◌∷◌, ◌+◌, ◌≤◌, length};
ghost use Rattle.std.proofs.lemmas.List.Edits.{sets};
ghost use Rattle.number.specs.Writing.{StoredAt};
ghost use Rattle.modes.specs.FourModes.{Amounts};
ghost use Rattle.figure.specs.Stored.{amounts};
ghost use Rattle.hill.specs.Log.{Record};
ghost use Rattle.chunk.specs.Chunk.{record_of, IsWellFormed};
ghost use Rattle.day_table.specs.Table.{table_line, table_of, nested};
ghost use Rattle.day_table.specs.Outcomes.{table_line_in, table_line_bytes, table_bytes, table_lines, could_hold, all_could_hold};
ghost use Rattle.table.specs.Promised.{TableFits};

use record::{Fields, Kind};

// Whether a readable full open record could hold the line: question 3.
fn could_hold(line: &[u8]) -> bool
    requires { 14 ≤ length line.now }
    ensures { result ≡ could_hold (table_line_in line.now) }
{
    record::in_range(
        number::read_u16(line, 0),
        number::read_i32(line, 2),
        number::read_i32(line, 6),
        number::read_i32(line, 10),
    )
}

// Question 3 of every line.
pub fn all_could_hold(table: &[u8]) -> bool
    ensures { result ≡ all_could_hold (table_lines table.now) }
{
    for line in table.chunks_exact(14) {
        if !could_hold(line) {
            return false;
        }
    }
    true
}

// Question 13: the first depth is 0, and each later one is above 0 and at most one above the line before it.
pub fn all_nested(table: &[u8]) -> bool
    ensures { result ≡ nested (table_lines table.now) }
{
    let mut lines = table.chunks_exact(14);
    let Some(first) = lines.next() else {
        return true;
    };
    if number::read_u16(first, 0) != 0 {
        return false;
    }
    let mut before: u32 = 0;
    for line in lines {
        let depth = u32::from(number::read_u16(line, 0));
        if !((0 < depth) & (depth <= before + 1)) {
            return false;
        }
        before = depth;
    }
    true
}

// One line, 14 bytes.
pub fn write_line(out: &mut [u8], at: usize, depth: u16, value: i32, floor: i32, ceiling: i32)
    requires { at + 14 ≤ length out.old }
    ensures { out.new ≡ sets out.old at (table_line_bytes (table_line depth (amounts value floor ceiling))) }
{
    number::write_u16(out, at, depth);
    number::write_i32(out, at + 2, value);
    number::write_i32(out, at + 6, floor);
    number::write_i32(out, at + 10, ceiling);
}

// The line of a record, where it is an open. It answers where the next one begins.
fn write_line_of(f: Fields, out: &mut [u8], at: usize) -> usize
    requires { at + length (table_bytes (table_of (record_of f ∷ []))) ≤ length out.old }
    ensures { StoredAt (table_bytes (table_of (record_of f ∷ []))) at out.old out.new result }
{
    match f.kind {
        Kind::Open => {
            write_line(out, at, f.depth, f.value, f.floor, f.ceiling);
            at + 14
        }
        Kind::Close => at,
    }
}

// The table of a log that was let through, so that the reader cannot refuse.
pub fn write_table(log: &[u8], out: &mut [u8])
    requires { TableFits log.now (length out.old) }
    ensures { (xs : List (Record Amounts)) → IsWellFormed log.now xs → out.new ≡ sets out.old 0 (table_bytes (table_of xs)) }
{
    let mut at: usize = 0;
    let mut rest = log;
    // The rest is handed on as a chunk of its own, the form that document 01 asks for, so no iterator goes over the records.
    while 0 < rest.len() {
        let Some(f) = record::read_first(rest) else {
            return;
        };
        at = write_line_of(f, out, at);
        rest = &rest[f.length as usize..];
    }
}
