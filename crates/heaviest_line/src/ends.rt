// Where the heaviest line ends. A record's mode 2 figure is the most that the values add to from it down to a record that holds nothing. So the line ends at the
// first record that holds nothing and to which the values from the root add to the most, and no figure of another record is needed.
ghost use Rattle.std.specs.Prelude.{◌≡◌, ◌&&◌, List, ℕ, suc, ◌+◌, ◌≤◌, ◌<◌, pos, ◌+ℤ◌, length, get_or, set};
ghost use Rattle.std.specs.Int.Signed.{lt_z};
ghost use Rattle.modes.specs.FourModes.{Amounts};
ghost use Rattle.hill.specs.Log.{Record};
ghost use Rattle.hill.specs.Closing.{at};
ghost use Rattle.chunk.specs.Chunk.{record_of, IsWellFormed};
ghost use Rattle.heaviest_line.specs.Promised.{AddsAt, CanNote, after_open, after_close};
ghost use Rattle.heaviest_line.specs.Search.{Searched, IsEnd};

use record::{Fields, Kind};

// What the pass keeps: how many records are opened so far, and whether the last one read is an open; and of the heaviest end so far, how many are opened up
// to it, its depth, and what the values from the root to it add to.
#[derive(Clone, Copy, Debug, PartialEq, Eq)]
pub struct Search {
    pub opened: u32,
    pub opens: bool,
    pub upto: u32,
    pub depth: u16,
    pub sum: i64,
}

// Less than any values add to.
const NO_SUM: i64 = -9223372036854775808;

// An open: what the values from the root to it add to.
fn after_open(s: Search, depth: usize, value: i32, sums: &mut [i64; 65]) -> Search
    requires adds_at { AddsAt depth value sums.old }
    requires opened_bound { s.opened ≤ 100000 }
    ensures { (result ≡ after_open s) × (sums.new ≡ set sums.old (depth + 1) (get_or sums.old depth (pos 0) +ℤ value)) }
{
    sums[depth + 1] = number::sum(sums[depth], i64::from(value));
    Search {
        opened: s.opened + 1,
        opens: true,
        ..s
    }
}

// Whether a close ends the heaviest line so far: it follows its open, so that the record holds nothing, and no end before it is as heavy.
fn is_heaviest(opens: bool, before: i64, sum: i64) -> bool
    ensures { result ≡ (opens && lt_z before sum) }
{
    opens & (before < sum)
}

// A close: the record's end is kept where it is the heaviest so far.
fn after_close(s: Search, depth: u16, sum: i64) -> Search
    ensures { result ≡ after_close s depth sum }
{
    if is_heaviest(s.opens, s.sum, sum) {
        return Search {
            opens: false,
            upto: s.opened,
            depth,
            sum,
            ..s
        };
    }
    Search { opens: false, ..s }
}

// One record more.
fn note(s: Search, f: Fields, sums: &mut [i64; 65]) -> Search
    requires { CanNote s f sums.old }
    ensures { (xs : List (Record Amounts)) (k : ℕ) → Searched xs k s sums.old → k < length xs → at xs k ≡ record_of f → Searched xs (suc k) result sums.new }
{
    let depth = f.depth as usize;
    match f.kind {
        Kind::Open => after_open(s, depth, f.value, sums),
        Kind::Close => after_close(s, f.depth, sums[depth + 1]),
    }
}

// The end of the line of a log that was let through, so that the reader cannot refuse.
pub fn find_end(log: &[u8]) -> Search
    requires { (xs : List (Record Amounts)) × IsWellFormed log.now xs }
    ensures { (xs : List (Record Amounts)) → IsWellFormed log.now xs → IsEnd xs result.upto result.depth }
{
    let mut sums: [i64; 65] = [0; 65];
    let mut s = Search {
        opened: 0,
        opens: false,
        upto: 0,
        depth: 0,
        sum: NO_SUM,
    };
    let mut rest = log;
    // The rest is handed on as a chunk of its own, the form that document 01 asks for, so no iterator goes over the records.
    while 0 < rest.len() {
        let Some(f) = record::read_first(rest) else {
            return s;
        };
        s = note(s, f, &mut sums);
        rest = &rest[f.length as usize..];
    }
    s
}
