// The runs of a join: the run of one level, and one run around another.
ghost use Rattle.std.specs.Prelude.{◌≡◌};
ghost use Rattle.figure.specs.Mode.{mode_of};
ghost use Rattle.figure.specs.Stored.{amounts, level_run, run_after, Levels, Composes};

use super::{
    Run, addend_of, clamped_sum, combine_heaviest, combine_stamps, eaten, line, moved_by,
    read_held, store_held, sum_held, through_stamp,
};

fn level_net(value: i32, floor: i32, ceiling: i32, before: i64, behind: i64) -> Run
    requires { Levels (mode_of 1) value before behind }
    ensures { result ≡ level_run (mode_of 1) (amounts value floor ceiling) before behind }
{
    let a = number::sum(i64::from(value), number::sum(before, behind));
    Run {
        first: a,
        second: 0,
        third: 0,
        fourth: 0,
    }
}

fn level_heaviest(value: i32, floor: i32, ceiling: i32, before: i64, behind: i64) -> Run
    requires { Levels (mode_of 2) value before behind }
    ensures { result ≡ level_run (mode_of 2) (amounts value floor ceiling) before behind }
{
    let v = i64::from(value);
    let other = read_held(combine_heaviest(before, behind));
    let z = line(v, other);
    let a = store_held(moved_by(other, v));
    Run {
        first: z,
        second: a,
        third: v,
        fourth: 0,
    }
}

fn level_stamp(value: i32, floor: i32, ceiling: i32, before: i64, behind: i64) -> Run
    requires { Levels (mode_of 4) value before behind }
    ensures { result ≡ level_run (mode_of 4) (amounts value floor ceiling) before behind }
{
    let q = through_stamp(value, floor, ceiling, combine_stamps(before, behind));
    Run {
        first: 31,
        second: q,
        third: 0,
        fourth: 0,
    }
}

fn level_eaten(value: i32, floor: i32, ceiling: i32, before: i64, behind: i64) -> Run
    requires { Levels (mode_of 5) value before behind }
    ensures { result ≡ level_run (mode_of 5) (amounts value floor ceiling) before behind }
{
    let v = i64::from(value);
    let low = i64::from(floor);
    let high = i64::from(ceiling);
    let sides = sum_held(read_held(before), read_held(behind));
    let added = addend_of(sides);
    // Nothing inside: a record with nothing at its sides holds none, and is not bound.
    let z = eaten(v, low, high, sides);
    let a = number::sum(v, added);
    Run {
        first: z,
        second: a,
        third: low,
        fourth: high,
    }
}

// The run of one record, which holds the figures `before` the inner part and `behind` it.
pub fn level(mode: u16, value: i32, floor: i32, ceiling: i32, before: i64, behind: i64) -> Run
    requires { Levels (mode_of mode) value before behind }
    ensures { result ≡ level_run (mode_of mode) (amounts value floor ceiling) before behind }
{
    match mode {
        2 => level_heaviest(value, floor, ceiling, before, behind),
        4 => level_stamp(value, floor, ceiling, before, behind),
        5 => level_eaten(value, floor, ceiling, before, behind),
        _ => level_net(value, floor, ceiling, before, behind),
    }
}

fn compose_net(outer: Run, inner: Run) -> Run
    requires { Composes (mode_of 1) outer inner }
    ensures { result ≡ run_after (mode_of 1) outer inner }
{
    let a = outer.first;
    let b = inner.first;
    let c = number::sum(b, a);
    Run {
        first: c,
        second: 0,
        third: 0,
        fourth: 0,
    }
}

fn compose_heaviest(outer: Run, inner: Run) -> Run
    requires { Composes (mode_of 2) outer inner }
    ensures { result ≡ run_after (mode_of 2) outer inner }
{
    let v = outer.third;
    let a = outer.second;
    let z = inner.first;
    let b = inner.second;
    let w = inner.third;
    // Nothing is the least number: where there is no A, the sum is the greater of the two.
    let first = number::max(a, number::sum(z, v));
    let second = combine_heaviest(a, store_held(moved_by(read_held(b), v)));
    let third = number::sum(w, v);
    Run {
        first,
        second,
        third,
        fourth: 0,
    }
}

fn compose_stamp(outer: Run, inner: Run) -> Run
    requires { Composes (mode_of 4) outer inner }
    ensures { result ≡ run_after (mode_of 4) outer inner }
{
    let m = number::to_u32(outer.first);
    let q = number::to_u32(outer.second);
    let n = number::to_u32(inner.first);
    let p = number::to_u32(inner.second);
    let first = i64::from(number::wrapping_mul(m, n));
    let second = i64::from(number::wrapping_mul(m, p).wrapping_add(q));
    Run {
        first,
        second,
        third: 0,
        fourth: 0,
    }
}

fn compose_eaten(outer: Run, inner: Run) -> Run
    requires { Composes (mode_of 5) outer inner }
    ensures { result ≡ run_after (mode_of 5) outer inner }
{
    let a = outer.second;
    let low = outer.third;
    let high = outer.fourth;
    let empty = inner.first;
    let add = inner.second;
    let l = inner.third;
    let h = inner.fourth;
    let first = clamped_sum(empty, a, low, high);
    let second = number::sum(add, a);
    let third = clamped_sum(l, a, low, high);
    let fourth = clamped_sum(h, a, low, high);
    Run {
        first,
        second,
        third,
        fourth,
    }
}

// The run `outer` around the run `inner`.
pub fn compose(mode: u16, outer: Run, inner: Run) -> Run
    requires { Composes (mode_of mode) outer inner }
    ensures { result ≡ run_after (mode_of mode) outer inner }
{
    match mode {
        2 => compose_heaviest(outer, inner),
        4 => compose_stamp(outer, inner),
        5 => compose_eaten(outer, inner),
        _ => compose_net(outer, inner),
    }
}
