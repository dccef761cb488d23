// Figures in the four modes, on the numbers as they are stored. Each caller shows that a sum fits.
#![tactic(auto)]

ghost use Rattle.std.specs.Prelude.{◌≡◌, ◌+◌, ◌*◌, ◌^◌, ◌<◌, pos, ◌+ℤ◌, unsigned_abs};
ghost use Rattle.number.specs.Integer.{clamp, wrap};
ghost use Rattle.modes.specs.FourModes.{lift, line_of, eaten_of, read_held, store_held};
ghost use Rattle.modes.specs.Run.{addend};
ghost use Rattle.modes.specs.Runs.{moved, bound_of};
ghost use Rattle.modes.specs.Bound.{size_held};
ghost use Rattle.figure.specs.Mode.{mode_in_use, stores_nothing, mode_of};
ghost use Rattle.figure.specs.Stored.{size_of, none, combined, passed, amounts, Combines, Passes};

pub mod runs;

// The types of the figures and of the numbers of a run.
pub use modes::{Held, Run};

// ---- what a record holds

// How "nothing held" is stored where it is no number.
const NOTHING: i64 = -9223372036854775808;

pub fn read_held(x: i64) -> Held
    ensures { result ≡ read_held x }
{
    if x == NOTHING {
        Held::Nothing
    } else {
        Held::Figure(x)
    }
}

pub fn store_held(h: Held) -> i64
    ensures { result ≡ store_held h }
{
    match h {
        Held::Nothing => NOTHING,
        Held::Figure(x) => x,
    }
}

fn sum_held(a: Held, b: Held) -> Held
    requires { size_held a + size_held b < 2 ^ 63 }
    ensures { result ≡ lift ◌+ℤ◌ a b }
{
    match (a, b) {
        (Held::Nothing, _) => b,
        (_, Held::Nothing) => a,
        (Held::Figure(x), Held::Figure(y)) => Held::Figure(number::sum(x, y)),
    }
}

// What a figure adds to a sum.
fn addend_of(h: Held) -> i64
    ensures { result ≡ addend h }
{
    match h {
        Held::Nothing => 0,
        Held::Figure(x) => x,
    }
}

fn line(value: i64, h: Held) -> i64
    requires { unsigned_abs value + size_held h < 2 ^ 63 }
    ensures { result ≡ line_of value h }
{
    match h {
        Held::Nothing => value,
        Held::Figure(x) => number::sum(value, x),
    }
}

fn moved_by(h: Held, v: i64) -> Held
    requires { size_held h + unsigned_abs v < 2 ^ 63 }
    ensures { result ≡ moved h v }
{
    match h {
        Held::Nothing => Held::Nothing,
        Held::Figure(a) => Held::Figure(number::sum(a, v)),
    }
}

// ---- questions about a mode and its numbers

#[tactic(auto, unfolding(crate::specs::Mode::mode_in_use))]
pub fn in_use(mode: u32) -> bool
    ensures { result ≡ mode_in_use mode }
{
    matches!(mode, 1 | 2 | 4 | 5)
}

// Whether "nothing held" is no number in the mode.
pub fn stores_nothing(mode: u16) -> bool
    ensures { result ≡ stores_nothing mode }
{
    matches!(mode, 2 | 5)
}

// Whether x stands for a figure.
pub fn is_figure(mode: u16, x: i64) -> bool
    ensures { result ≡ (mode_of mode).is_figure x }
{
    match mode {
        4 => (0 <= x) & (x <= 4294967295),
        _ => true,
    }
}

fn size_held(h: Held) -> u64
    ensures { result ≡ size_held h }
{
    match h {
        Held::Nothing => 0,
        Held::Figure(x) => x.unsigned_abs(),
    }
}

// What x counts in the bound on a summary's values.
pub fn size(mode: u16, x: i64) -> u64
    ensures { result ≡ size_of (mode_of mode) x }
{
    if stores_nothing(mode) {
        return size_held(read_held(x));
    }
    match mode {
        4 => 0,
        _ => x.unsigned_abs(),
    }
}

// ---- figures combined

// Nothing held, as it is stored.
pub fn nothing(mode: u16) -> i64
    ensures { result ≡ none (mode_of mode) }
{
    if stores_nothing(mode) { NOTHING } else { 0 }
}

// Nothing is stored as the least number that there is, so that no test for it is needed.
fn combine_heaviest(a: i64, b: i64) -> i64
    ensures { result ≡ combined (mode_of 2) a b }
{
    number::max(a, b)
}

fn combine_stamps(a: i64, b: i64) -> i64
    requires { Combines (mode_of 4) a b }
    ensures { result ≡ combined (mode_of 4) a b }
{
    i64::from(number::to_u32(a).wrapping_add(number::to_u32(b)))
}

fn combine_eaten(a: i64, b: i64) -> i64
    requires { Combines (mode_of 5) a b }
    ensures { result ≡ combined (mode_of 5) a b }
{
    store_held(sum_held(read_held(a), read_held(b)))
}

pub fn combine(mode: u16, a: i64, b: i64) -> i64
    requires { Combines (mode_of mode) a b }
    ensures { result ≡ combined (mode_of mode) a b }
{
    match mode {
        2 => combine_heaviest(a, b),
        4 => combine_stamps(a, b),
        5 => combine_eaten(a, b),
        _ => number::sum(a, b),
    }
}

// ---- a record's figure

fn clamped_sum(a: i64, b: i64, low: i64, high: i64) -> i64
    requires { unsigned_abs a + unsigned_abs b < 2 ^ 63 }
    ensures { result ≡ clamp (a +ℤ b) low high }
{
    number::sum(a, b).max(low).min(high)
}

fn stamp(value: i32, held: u32) -> u32
    ensures { result ≡ wrap (value +ℤ pos (31 * held)) }
{
    number::bits_32(value).wrapping_add(number::wrapping_mul(31, held))
}

fn through_net(value: i32, held: i64) -> i64
    requires { Passes (mode_of 1) value held }
    ensures { result ≡ value +ℤ held }
{
    number::sum(i64::from(value), held)
}

fn through_heaviest(value: i32, held: i64) -> i64
    requires { Passes (mode_of 2) value held }
    ensures { result ≡ line_of value (read_held held) }
{
    line(i64::from(value), read_held(held))
}

fn through_stamp(value: i32, floor: i32, ceiling: i32, held: i64) -> i64
    requires { Passes (mode_of 4) value held }
    ensures { result ≡ passed (mode_of 4) (amounts value floor ceiling) held }
{
    i64::from(stamp(value, number::to_u32(held)))
}

// A bound of a record that holds h. One that holds nothing is not bound: its value stands for both bounds, and no branch is needed.
fn bound_of(h: Held, v: i64, bound: i64) -> i64
    ensures { result ≡ bound_of h v bound }
{
    match h {
        Held::Nothing => v,
        Held::Figure(_) => bound,
    }
}

// Floor and ceiling bind only a record that holds others.
fn eaten(v: i64, floor: i64, ceiling: i64, h: Held) -> i64
    requires { unsigned_abs v + size_held h < 2 ^ 63 }
    ensures { result ≡ eaten_of (amounts v floor ceiling) h }
{
    let low = bound_of(h, v, floor);
    let high = bound_of(h, v, ceiling);
    clamped_sum(v, addend_of(h), low, high)
}

fn through_eaten(value: i32, floor: i32, ceiling: i32, held: i64) -> i64
    requires { Passes (mode_of 5) value held }
    ensures { result ≡ eaten_of (amounts value floor ceiling) (read_held held) }
{
    eaten(
        i64::from(value),
        i64::from(floor),
        i64::from(ceiling),
        read_held(held),
    )
}

// The figure of a record that holds `held`.
pub fn through(mode: u16, value: i32, floor: i32, ceiling: i32, held: i64) -> i64
    requires { Passes (mode_of mode) value held }
    ensures { result ≡ passed (mode_of mode) (amounts value floor ceiling) held }
{
    match mode {
        2 => through_heaviest(value, held),
        4 => through_stamp(value, floor, ceiling, held),
        5 => through_eaten(value, floor, ceiling, held),
        _ => through_net(value, held),
    }
}
