// All small days, written one log after another: document 02, L5.
#![tactic(auto)]

ghost use Rattle.std.specs.Prelude.{◌≡◌, [], ◌+◌, ◌≤◌, length, get_or};
ghost use Rattle.std.proofs.lemmas.List.Edits.{sets};
ghost use Rattle.gate.specs.Outcome.{written, buffer_after};
ghost use Rattle.gate.specs.Answers.{answered, length_answered};
ghost use Rattle.gate.specs.Promises.{Answers};
ghost use Rattle.number.specs.Writing.{StoredAt};
ghost use Rattle.hill.specs.Row.{joined};
ghost use Rattle.day_list.specs.Days.{small_days, small_days_outcome};
ghost use Rattle.day_list.specs.WayLaws.{opening_ways};
ghost use Rattle.small_days.specs.Promised.{Small, DayFits, way_bytes, WayFits};

use gate::Refusal;

// How many logs go on with an open, by the records left to open (the row) and the level. The first column is the number of logs. Nobody asks where both
// together are above 8. A static stands in memory once, where a constant would be set up anew for each record.
static OPENING_WAYS: [[u16; 9]; 9] = [
    [0, 0, 0, 0, 0, 0, 0, 0, 0],
    [1, 1, 1, 1, 1, 1, 1, 1, 0],
    [1, 2, 3, 4, 5, 6, 7, 0, 0],
    [2, 5, 9, 14, 20, 27, 0, 0, 0],
    [5, 14, 28, 48, 75, 0, 0, 0, 0],
    [14, 42, 90, 165, 0, 0, 0, 0, 0],
    [42, 132, 297, 0, 0, 0, 0, 0, 0],
    [132, 429, 0, 0, 0, 0, 0, 0, 0],
    [429, 0, 0, 0, 0, 0, 0, 0, 0],
];

// The table's entry, where it is asked for.
fn opening_ways(left: u16, level: u16) -> u16
    requires { left + level ≤ 8 }
    ensures { result ≡ length (opening_ways left level) }
{
    OPENING_WAYS[left as usize][level as usize]
}

// A log behind its first open: at level 1, with so many records left to open, the way to go on that has `rank` others before it. Of the ways at a level
// those with an open come first, so the rank tells whether it is one of them. It answers where the log ends.
fn write_way(to_open: u16, rank: u16, out: &mut [u8], start: usize) -> usize
    requires { WayFits to_open rank start (length out.old) }
    ensures { StoredAt (way_bytes to_open rank) start out.old out.new result }
{
    let mut at = start;
    let mut left = to_open;
    let mut level: u16 = 1;
    let mut before = rank;
    // Two counts go down, one of them at a time, so no range says how often.
    while 0 < level {
        let opening = opening_ways(left, level);
        if before < opening {
            record_writer::write_short_open(out, at, level, 1);
            at += 10;
            left -= 1;
            level += 1;
        } else {
            before -= opening;
            level -= 1;
            record_writer::write_close(out, at, level);
            at += 6;
        }
    }
    at
}

// The log that has `rank` others before it, of those that open n records. It answers where the log ends.
fn write_day(n: u16, rank: u16, out: &mut [u8], start: usize) -> usize
    requires { DayFits n rank start (length out.old) }
    ensures { StoredAt (get_or (small_days n) rank []) start out.old out.new result }
{
    record_writer::write_short_open(out, start, 0, 1);
    write_way(n - 1, rank, out, start + 10)
}

// All logs that open n records.
fn write_days(n: u16, count: u16, out: &mut [u8])
    requires small { Small n count }
    requires room { length (joined (small_days n)) ≤ length out.old }
    ensures { out.new ≡ sets out.old 0 (joined (small_days n)) }
{
    let mut at: usize = 0;
    for rank in 0..count {
        at = write_day(n, rank, out, at);
    }
}

// All logs that open n records, where they fit: 16 bytes for each record that a log opens.
fn put_days(n: u16, out: &mut [u8]) -> Result<usize, Refusal>
    requires some { 1 ≤ n }
    requires few { n ≤ 8 }
    ensures { Answers (written (length out.old) (joined (small_days n))) out.old out.new result }
{
    let count = opening_ways(n, 0);
    let total = 16 * (n as usize) * (count as usize);
    if out.len() < total {
        return Err(Refusal::BufferTooShort);
    }
    write_days(n, count, out);
    Ok(total)
}

// All small days with n opened records, or the first question that gets a "no".
pub fn small_days(n: u32, out: &mut [u8]) -> Result<usize, Refusal>
    ensures answer { answered result ≡ length_answered (small_days_outcome n (length out.old)) }
    ensures buffer { out.new ≡ buffer_after (small_days_outcome n (length out.old)) out.old }
{
    if !((1 <= n) & (n <= 8)) {
        return Err(Refusal::OpenedCount);
    }
    put_days(n as u16, out)
}
