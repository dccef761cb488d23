// The bytes of each case of a summary, from the buffer's start, where the caller shows that they fit.
ghost use Rattle.std.specs.Prelude.{◌≡◌, ◌+◌, ◌*◌, ◌≤◌, length};
ghost use Rattle.std.proofs.lemmas.List.Edits.{sets};
ghost use Rattle.figure.specs.Mode.{mode_of};
ghost use Rattle.hill.specs.Summary.{blank, part, whole};
ghost use Rattle.summary.specs.Layout.{encode};
ghost use Rattle.slopes.specs.Arrays.{slopes_of};
ghost use Rattle.slopes.specs.Kept.{arrays_of};
ghost use Rattle.emit.specs.Promised.{Wrote, front_bytes, level_bytes, numbers_bytes, stored_record, records_of, Writes};
ghost use Rattle.emit.specs.Emitted.{spoilt_said};

use judge::SpoiltHead;
use slopes::{Counts, Slopes};

// Length, kind and mode: the first 6 bytes.
fn put_front(out: &mut [u8], n: u16, kind: u16, mode: u16)
    requires { 6 ≤ length out.old }
    ensures { out.new ≡ sets out.old 0 (front_bytes n kind mode) }
{
    number::write_u16(out, 0, n);
    number::write_u16(out, 2, kind);
    number::write_u16(out, 4, mode);
}

// The next 10 bytes: three numbers, and the opened records.
fn put_levels(out: &mut [u8], x: u16, y: u16, z: u16, opened: u32)
    requires { 16 ≤ length out.old }
    ensures { out.new ≡ sets out.old 6 (level_bytes x y z opened) }
{
    number::write_u16(out, 6, x);
    number::write_u16(out, 8, y);
    number::write_u16(out, 10, z);
    number::write_u32(out, 12, opened);
}

pub fn write_blank(mode: u16, out: &mut [u8]) -> usize
    requires { 6 ≤ length out.old }
    ensures { Wrote (encode mode blank) out.old out.new result }
{
    put_front(out, 6, 16, mode);
    6
}

pub fn write_spoilt(mode: u16, s: SpoiltHead, out: &mut [u8]) -> usize
    requires { 16 ≤ length out.old }
    ensures { Wrote (encode mode (spoilt_said mode s)) out.old out.new result }
{
    put_front(out, 16, 17, mode);
    put_levels(out, s.fault.number() as u16, s.start, s.end, s.opened);
    16
}

// The first n numbers of an array, from `at` on.
fn put_numbers(xs: &[i64; 64], n: usize, out: &mut [u8], at: usize)
    requires { (n ≤ 64) × (at + 8 * n ≤ length out.old) }
    ensures { out.new ≡ sets out.old at (numbers_bytes xs.now n) }
{
    for i in 0..n {
        number::write_i64(out, at + 8 * i, xs[i]);
    }
}

// One record, 20 bytes.
fn put_record(out: &mut [u8], at: usize, value: i32, floor: i32, ceiling: i32, held: i64)
    requires { at + 20 ≤ length out.old }
    ensures { out.new ≡ sets out.old at (stored_record value floor ceiling held) }
{
    number::write_i32(out, at, value);
    number::write_i32(out, at + 4, floor);
    number::write_i32(out, at + 8, ceiling);
    number::write_i64(out, at + 12, held);
}

// The first n records, from `at` on.
fn put_records(slopes: &Slopes, n: usize, out: &mut [u8], at: usize)
    requires { (n ≤ 64) × (at + 20 * n ≤ length out.old) }
    ensures { out.new ≡ sets out.old at (records_of (arrays_of slopes.now) n) }
{
    let amounts = &slopes.amounts;
    for k in 0..n {
        put_record(
            out,
            at + 20 * k,
            amounts.values[k],
            amounts.floors[k],
            amounts.ceilings[k],
            slopes.held[k],
        );
    }
}

// The hill of the slopes, with its peak and its opened records.
pub fn write_hill(
    mode: u16,
    peak: u16,
    opened: u32,
    slopes: &Slopes,
    c: Counts,
    out: &mut [u8],
) -> usize
    requires { Writes (mode_of mode) (arrays_of slopes.now) c peak (length out.old) }
    ensures { Wrote (encode mode (part (whole peak opened (slopes_of (mode_of mode) (arrays_of slopes.now) c))))
        out.old out.new result }
{
    let records_at = 24 + 8 * c.nl;
    let total = records_at + 20 * c.n;
    put_front(out, total as u16, 18, mode);
    put_levels(out, peak + (c.nl as u16), peak, peak + (c.n as u16), opened);
    put_numbers(&slopes.left, c.nl, out, 16);
    number::write_i64(out, 16 + 8 * c.nl, c.mid);
    put_records(slopes, c.n, out, records_at);
    total
}
