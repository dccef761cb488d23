// One level of a run, read straight from the bytes of a row. Each caller shows that the pieces are hills with that level.
#![tactic(auto)]

ghost use Rattle.std.specs.Prelude.{◌≡◌, ◌+◌, ◌≤◌, ◌<◌, length};
ghost use Rattle.run_level.specs.Levels.{Begun, Reads, piece_of, level_at, level_in};

pub mod hills;

// A hill of a row: the number of its piece, where the piece begins, and the hill's start and peak.
#[derive(Clone, Copy, Debug, PartialEq, Eq)]
pub struct Place {
    pub piece: usize,
    pub at: usize,
    pub start: u8,
    pub peak: u8,
}

// One level of a run, as it is stored: an unclosed record with its held figures so far, and the left value at its level of the hill that
// closes it.
#[derive(Clone, Copy, Debug, PartialEq, Eq)]
pub struct RunLevel {
    pub value: i32,
    pub floor: i32,
    pub ceiling: i32,
    pub held: i64,
    pub left: i64,
}

// Where each piece of a row begins.
pub fn begin_pieces(row: &[u8], count: usize, ats: &mut [usize; 64])
    requires { count ≤ 64 }
    ensures { Begun row.now count ats.new }
{
    let mut at = 0;
    for k in 0..count {
        ats[k] = at;
        at += row::first_length(&row[at..]);
    }
}

// The record whose bytes begin at `unclosed`, and the value at `left`.
fn read_at(row: &[u8], unclosed: usize, left: usize) -> RunLevel
    requires { (unclosed + 20 ≤ length row.now) × (left + 8 ≤ length row.now) }
    ensures { result ≡ level_in row.now unclosed left }
{
    RunLevel {
        value: number::read_i32(row, unclosed),
        floor: number::read_i32(row, unclosed + 4),
        ceiling: number::read_i32(row, unclosed + 8),
        held: number::read_i64(row, unclosed + 12),
        left: number::read_i64(row, left),
    }
}

// The level of the record of this depth, which one hill leaves open and the other closes.
pub fn read_level(row: &[u8], opener: Place, closer: Place, depth: u8) -> RunLevel
    requires { Reads row.now opener closer depth }
    ensures { result ≡ level_at (piece_of row.now opener.piece) (piece_of row.now closer.piece) depth }
{
    let rise = usize::from(opener.start - opener.peak);
    let nth = usize::from(depth - opener.peak);
    let below = usize::from(closer.start - depth - 1);
    read_at(
        row,
        opener.at + 24 + 8 * rise + 20 * nth,
        closer.at + 16 + 8 * below,
    )
}
