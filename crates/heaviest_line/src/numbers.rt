// The numbers of the line's records, written in a pass up to the record that it ends with. The number of an open goes to the place of its depth, so that in the
// end those of the records stand there that are open at the end, from the root down.
ghost use Rattle.std.specs.Prelude.{◌≡◌, List, ℕ, suc, ◌+◌, ◌*◌, ◌≤◌, ◌<◌, length};
ghost use Rattle.gate.specs.Outcome.{granted, buffer_after};
ghost use Rattle.modes.specs.FourModes.{Amounts};
ghost use Rattle.hill.specs.Log.{Record};
ghost use Rattle.hill.specs.Closing.{at};
ghost use Rattle.chunk.specs.Chunk.{record_of, IsWellFormed};
ghost use Rattle.log_records.specs.Line.{line_numbers, number_bytes};
ghost use Rattle.heaviest_line.specs.Promised.{LineFits};
ghost use Rattle.heaviest_line.specs.Numbering.{Numbering};

use record::{Fields, Kind};

// The number of a record, where it is an open and no deeper than the line goes. It answers the next number.
fn write_number(f: Fields, number: u32, depth: u16, out: &mut [u8]) -> u32
    requires { (number < 4294967295) × (4 * depth + 4 ≤ length out.old) }
    ensures { ((xs : List (Record Amounts)) (before : List ℕ) (k : ℕ) → Numbering xs depth before k number out.old → k < length xs → at xs k ≡ record_of f → Numbering xs depth before (suc k) result out.new) }
{
    match f.kind {
        Kind::Close => number,
        Kind::Open if depth < f.depth => number + 1,
        Kind::Open => {
            number::write_u32(out, 4 * (f.depth as usize), number);
            number + 1
        }
    }
}

// The numbers of the line that ends with the last of so many opened records, at this depth.
pub fn write_numbers(log: &[u8], upto: u32, depth: u16, out: &mut [u8])
    requires { LineFits log.now upto depth (length out.old) }
    ensures { ((xs : List (Record Amounts)) → IsWellFormed log.now xs → out.new ≡ buffer_after (granted (number_bytes (line_numbers xs))) out.old) }
{
    let mut number: u32 = 0;
    let mut rest = log;
    // The rest is handed on as a chunk of its own, the form that document 01 asks for, so no iterator goes over the records.
    while number < upto {
        let Some(f) = record::read_first(rest) else {
            return;
        };
        number = write_number(f, number, depth, out);
        rest = &rest[f.length as usize..];
    }
}
