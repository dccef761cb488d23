// Reading records: document 01, "Records", with the batch of document 02, L2, and the floor of short records of L8.
#![tactic(auto)]

ghost use Rattle.std.specs.Prelude.{◌≡◌, ◌≤◌, length};
ghost use Rattle.record.specs.Record.{
  answer_of,
  within,
  amounts_fit,
  in_range,
  accepted,
  whole,
  batch_of,
  open_of,
  short_open,
  close,
  read_of,
};

// Document 01: kind 1 opens a record, kind 2 closes one.
#[derive(Clone, Copy, Debug, PartialEq, Eq)]
pub enum Kind {
    Open = 1,
    Close = 2,
}

// A record's fields. Value, floor and ceiling are 0 for a close, and the batch is 0 where the record has none.
#[derive(Clone, Copy, Debug, PartialEq, Eq)]
pub struct Fields {
    pub kind: Kind,
    pub length: u16,
    pub depth: u16,
    pub value: i32,
    pub floor: i32,
    pub ceiling: i32,
    pub batch: u32,
}

// The floor and the ceiling of an open record of length 10.
const DEFAULT_FLOOR: i32 = 0;

const DEFAULT_CEILING: i32 = 1_000_000_000;

const LEAST: i32 = -1_000_000_000;

const MOST: i32 = 1_000_000_000;

// Whether a number of grams is within the limits.
fn in_limits(grams: i32) -> bool
    ensures { result ≡ within grams }
{
    (LEAST <= grams) & (grams <= MOST)
}

// Whether a record's amounts are in range. In order, the floor and the ceiling need one limit each.
pub fn amounts_fit(value: i32, floor: i32, ceiling: i32) -> bool
    ensures { result ≡ amounts_fit value floor ceiling }
{
    in_limits(value) & (LEAST <= floor) & (floor <= ceiling) & (ceiling <= MOST)
}

// Whether a record's fields are in range. With `amounts_fit` in it, reading a chunk was slower.
pub fn in_range(depth: u16, value: i32, floor: i32, ceiling: i32) -> bool
    ensures { result ≡ in_range depth value floor ceiling }
{
    (depth <= 63) & in_limits(value) & in_limits(floor) & in_limits(ceiling) & (floor <= ceiling)
}

// The record, if its fields are in range.
fn accept(f: Fields) -> Option<Fields>
    ensures { answer_of result ≡ accepted f }
{
    if in_range(f.depth, f.value, f.floor, f.ceiling) {
        Some(f)
    } else {
        None
    }
}

// The batch of an open record, 0 where its length leaves no place for one.
fn read_batch(chunk: &[u8], len: u16) -> u32
    requires { len ≤ length chunk.now }
    ensures { result ≡ batch_of len chunk.now }
{
    if len == 22 {
        number::read_u32(chunk, 18)
    } else {
        0
    }
}

// An open record of length 18, or 22 with its batch. One function for both, or reading is too long to be inlined.
fn read_open(chunk: &[u8], len: u16) -> Option<Fields>
    requires { 18 ≤ len }
    ensures { answer_of result ≡ whole chunk.now (open_of len chunk.now) }
{
    if chunk.len() < len as usize {
        return None;
    }
    accept(Fields {
        kind: Kind::Open,
        length: len,
        depth: number::read_u16(chunk, 4),
        value: number::read_i32(chunk, 6),
        floor: number::read_i32(chunk, 10),
        ceiling: number::read_i32(chunk, 14),
        batch: read_batch(chunk, len),
    })
}

fn read_short(chunk: &[u8]) -> Option<Fields>
    ensures { answer_of result ≡ whole chunk.now (short_open chunk.now) }
{
    if chunk.len() < 10 {
        return None;
    }
    accept(Fields {
        kind: Kind::Open,
        length: 10,
        depth: number::read_u16(chunk, 4),
        value: number::read_i32(chunk, 6),
        floor: DEFAULT_FLOOR,
        ceiling: DEFAULT_CEILING,
        batch: 0,
    })
}

fn read_close(chunk: &[u8]) -> Option<Fields>
    ensures { answer_of result ≡ whole chunk.now (close chunk.now) }
{
    if chunk.len() < 6 {
        return None;
    }
    accept(Fields {
        kind: Kind::Close,
        length: 6,
        depth: number::read_u16(chunk, 4),
        value: 0,
        floor: 0,
        ceiling: 0,
        batch: 0,
    })
}

// The first record of a chunk, where it is readable: `answer_of` says what that means. Later bytes, and how many there are, are not judged.
#[inline(always)]
pub fn read_first(chunk: &[u8]) -> Option<Fields>
    ensures { answer_of result ≡ read_of chunk.now }
{
    if chunk.len() < 4 {
        return None;
    }
    let length = number::read_u16(chunk, 0);
    let kind = number::read_u16(chunk, 2);
    match (kind, length) {
        (1, 18 | 22) => read_open(chunk, length),
        (1, 10) => read_short(chunk),
        (2, 6) => read_close(chunk),
        _ => None,
    }
}
