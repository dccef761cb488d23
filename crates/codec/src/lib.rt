// A summary's bytes read: their hill joins the hill under construction in the slopes, in any mode. The caller shows that they are a hill's, and that it fits.
#![tactic(auto)]

ghost use Rattle.std.specs.Prelude.{◌≡◌, ◌+◌, ◌*◌, ◌≤◌, length};
ghost use Rattle.figure.specs.Mode.{mode_of};
ghost use Rattle.hill.specs.Building.{merge};
ghost use Rattle.summary.specs.Judge.{rise_at};
ghost use Rattle.summary.specs.Decode.{hill_in};
ghost use Rattle.slopes.specs.Arrays.{Arrays, slopes_of, weight_of, StandsFor};
ghost use Rattle.slopes.specs.Kept.{arrays_of};
ghost use Rattle.slopes.specs.declared.Counts.{Counts};
ghost use Rattle.codec.specs.Promised.{FallsOf, CarriedOf, Sinks, Sunk, LeavesOn, Stacked, Loads};

use slopes::{Counts, OpenAmounts, Slopes};

// The first k left values of a hill's bytes, each closing one of n records, the deepest first: held so far, the right's value and what came from
// deeper go through the record. The last outcome is answered, for the level below; the slopes stay as they are.
fn close_down(
    mode: u16,
    b: &[u8],
    k: usize,
    amounts: &OpenAmounts,
    held: &[i64; 64],
    n: usize,
) -> i64
    requires { FallsOf (mode_of mode) b.now k amounts.now held.now n }
    ensures { CarriedOf (mode_of mode) b.now k amounts.now held.now n result }
{
    let mut deeper = figure::nothing(mode);
    for i in 0..k {
        let top = n - 1 - i;
        let x = number::read_i64(b, 16 + 8 * i);
        let here = figure::combine(mode, held[top], x);
        let all = figure::combine(mode, here, deeper);
        deeper = figure::through(
            mode,
            amounts.values[top],
            amounts.floors[top],
            amounts.ceilings[top],
            all,
        );
    }
    deeper
}

// The left values from number `first` to k, where no record is open any more: each joins its level, which is then left.
fn leave_rest(
    mode: u16,
    b: &[u8],
    first: usize,
    k: usize,
    slopes: &mut Slopes,
    start: Counts,
) -> Counts
    requires { LeavesOn (mode_of mode) b.now first k (arrays_of slopes.old) start }
    ensures { (A : Arrays) (c : Counts) → Sinks (mode_of mode) b.now k A c
        → Sunk (mode_of mode) b.now first A c (arrays_of slopes.old) start
        → Sunk (mode_of mode) b.now k A c (arrays_of slopes.new) result }
{
    let mut nl = start.nl;
    let mut mid = start.mid;
    for i in first..k {
        let x = number::read_i64(b, 16 + 8 * i);
        slopes.left[nl] = figure::combine(mode, mid, x);
        mid = figure::nothing(mode);
        nl += 1;
    }
    Counts { nl, mid, ..start }
}

// The first k left values of a hill's bytes, from the start level down: each joins its level, which is then closed. As long as there are records
// to close, what came from deeper is carried along; after that each level is left.
fn sink_all(mode: u16, b: &[u8], k: usize, slopes: &mut Slopes, start: Counts) -> Counts
    requires { Sinks (mode_of mode) b.now k (arrays_of slopes.old) start }
    ensures { Sunk (mode_of mode) b.now k (arrays_of slopes.old) start (arrays_of slopes.new) result }
{
    let both = k.min(start.n);
    let n = start.n - both;
    let deeper = close_down(mode, b, both, &slopes.amounts, &slopes.held, start.n);
    let mid = slopes::add(mode, &mut slopes.held, n, start.mid, deeper);
    leave_rest(mode, b, both, k, slopes, Counts { n, mid, ..start })
}

// The k records of a hill's bytes, which stand from `first` on, are put on top of n others.
fn push_all(b: &[u8], first: usize, k: usize, slopes: &mut Slopes, n: usize)
    requires { (first ≡ 24 + 8 * rise_at b.now) × (first + 20 * k ≤ length b.now) × (n + k ≤ 64) }
    ensures { Stacked b.now k k n (arrays_of slopes.old) (arrays_of slopes.new) }
{
    for j in 0..k {
        let at = first + 20 * j;
        let value = number::read_i32(b, at);
        let floor = number::read_i32(b, at + 4);
        let ceiling = number::read_i32(b, at + 8);
        let h = number::read_i64(b, at + 12);
        slopes.push(n + j, value, floor, ceiling, h);
    }
}

// The hill of a summary's bytes joins the hill in the slopes, on its right.
pub fn load(mode: u16, b: &[u8], slopes: &mut Slopes, c: Counts) -> Counts
    requires { Loads mode b.now (arrays_of slopes.old) c }
    ensures { StandsFor (mode_of mode) (arrays_of slopes.new) result
        (merge (mode_of mode).algebra (slopes_of (mode_of mode) (arrays_of slopes.old) c) (hill_in (mode_of mode).read b.now))
        (weight_of (mode_of mode) (slopes_of (mode_of mode) (arrays_of slopes.old) c)
        + weight_of (mode_of mode) (hill_in (mode_of mode).read b.now)) }
{
    let peak = number::read_u16(b, 8) as usize;
    let rise = (number::read_u16(b, 6) as usize) - peak;
    let fall = (number::read_u16(b, 10) as usize) - peak;
    let sunk = sink_all(mode, b, rise, slopes, c);
    let x = number::read_i64(b, 16 + 8 * rise);
    let mid = slopes::add(mode, &mut slopes.held, sunk.n, sunk.mid, x);
    push_all(b, 24 + 8 * rise, fall, slopes, sunk.n);
    Counts {
        n: sunk.n + fall,
        mid,
        ..sunk
    }
}
