// The call that goes backwards through a run: from an outer figure to the one inner figure that leads to it. Document 02, L6, questions 15 to 17.
#![tactic(auto)]

ghost use Rattle.std.specs.Prelude.{◌≡◌, length};
ghost use Rattle.gate.specs.Outcome.{question, granted};
ghost use Rattle.gate.specs.Answers.{answered};
ghost use Rattle.modes.specs.FourModes.{is_stamp};
ghost use Rattle.outcome.specs.Outcomes.{run_length};
ghost use Rattle.run_back.specs.Judge.{run_at, RunNumbers};
ghost use Rattle.run_back.specs.Decide.{near, is_odd, net_fits, heaviest_fits, stamp_fits, eaten_fits, numbers_fit, is_run_bytes};
ghost use Rattle.run_back.specs.Inverse.{newton, inverse};
ghost use Rattle.run_back.specs.Backwards.{inner_of, backwards_outcome};

use figure::Run;
use gate::Refusal;

// ---- question 15: the numbers of a run

fn is_near(x: i64) -> bool
    ensures { result ≡ near x }
{
    x.unsigned_abs() <= 100_000_000_000_000
}

fn is_odd(x: i64) -> bool
    ensures { result ≡ is_odd x }
{
    x.unsigned_abs() % 2 == 1
}

#[tactic(auto, unfolding(run_back::specs::Decide::net_fits))]
fn net_fits(k: Run) -> bool
    ensures { result ≡ net_fits k }
{
    is_near(k.first) & (k.second == 0) & (k.third == 0)
}

// Only A may be no number.
#[tactic(auto, unfolding(run_back::specs::Decide::heaviest_fits, figure::specs::Stored::none, figure::specs::Mode::mode_of, modes::specs::FourModes::store_held))]
fn heaviest_fits(k: Run) -> bool
    ensures { result ≡ heaviest_fits k }
{
    is_near(k.first) & (is_near(k.second) | (k.second == figure::nothing(2))) & is_near(k.third)
}

#[tactic(auto, unfolding(run_back::specs::Decide::stamp_fits, figure::specs::Mode::mode_of))]
fn stamp_fits(k: Run) -> bool
    ensures { result ≡ stamp_fits k }
{
    figure::is_figure(4, k.first)
        & figure::is_figure(4, k.second)
        & (k.third == 0)
        & is_odd(k.first)
}

#[tactic(auto, unfolding(run_back::specs::Decide::eaten_fits))]
fn eaten_fits(k: Run) -> bool
    ensures { result ≡ eaten_fits k }
{
    is_near(k.first)
        & is_near(k.second)
        & is_near(k.third)
        & is_near(k.fourth)
        & (k.third <= k.fourth)
}

#[tactic(auto, unfolding(run_back::specs::Decide::numbers_fit))]
fn numbers_fit(mode: u16, k: Run) -> bool
    ensures { result ≡ numbers_fit mode k }
{
    match mode {
        1 => net_fits(k),
        2 => heaviest_fits(k),
        4 => stamp_fits(k),
        5 => eaten_fits(k),
        _ => false,
    }
}

// ---- question 15: the bytes

// The numbers of a run that has as many bytes as its mode asks for.
#[tactic(auto, unfolding(outcome::specs::Outcomes::run_length))]
fn read_run(b: &[u8], mode: u16) -> Run
    requires { length b.now ≡ run_length mode }
    ensures { result ≡ run_at b.now }
{
    let first = number::read_i64(b, 6);
    let second = number::read_i64(b, 14);
    let third = number::read_i64(b, 22);
    let fourth = if outcome::has_fourth(mode) {
        number::read_i64(b, 30)
    } else {
        0
    };
    Run {
        first,
        second,
        third,
        fourth,
    }
}

fn is_run(b: &[u8]) -> bool
    ensures { result ≡ is_run_bytes b.now }
{
    if b.len() < 6 {
        return false;
    }
    let mode = number::read_u16(b, 4);
    if !judge::layout_fits(b, 20, outcome::run_length(mode)) {
        return false;
    }
    numbers_fit(mode, read_run(b, mode))
}

// ---- the way back

// One step of Newton's iteration, x (2 - m x): twice as many bits are right.
fn newton_step(m: u32, x: u32) -> u32
    ensures { result ≡ newton m x }
{
    x.wrapping_mul(2u32.wrapping_sub(m.wrapping_mul(x)))
}

// The inverse of an odd number modulo 2^32: 1 is right in one bit, and after five steps in 32.
#[tactic(auto, unfolding(run_back::specs::Inverse::inverse))]
fn inverse_of(m: u32) -> u32
    ensures { result ≡ inverse m }
{
    let two = newton_step(m, 1);
    let four = newton_step(m, two);
    let eight = newton_step(m, four);
    let sixteen = newton_step(m, eight);
    newton_step(m, sixteen)
}

// Back through x + a. Both numbers are within ±10^14, so the difference fits.
fn back_net(k: Run, y: i64) -> Result<i64, Refusal>
    requires { RunNumbers 1 k }
    ensures { answered result ≡ question 17 (near y) (granted (inner_of 1 k y)) }
{
    if !is_near(y) {
        return Err(Refusal::OuterFigure);
    }
    Ok(y - k.first)
}

// Back through m x + q modulo 2^32: the inverse of m, times y - q.
#[tactic(auto, unfolding(figure::specs::Mode::mode_of))]
fn back_stamp(k: Run, y: i64) -> Result<i64, Refusal>
    requires { RunNumbers 4 k }
    ensures { answered result ≡ question 17 (is_stamp y) (granted (inner_of 4 k y)) }
{
    if !figure::is_figure(4, y) {
        return Err(Refusal::OuterFigure);
    }
    let m = number::to_u32(k.first);
    let q = number::to_u32(k.second);
    let difference = number::to_u32(y).wrapping_sub(q);
    let inner = inverse_of(m).wrapping_mul(difference);
    Ok(i64::from(inner))
}

// The one inner figure that leads to y through a run, or the first of questions 15 to 17 that gets a "no".
pub fn backwards(run: &[u8], y: i64) -> Result<i64, Refusal>
    ensures { answered result ≡ backwards_outcome run.now y }
{
    if !is_run(run) {
        return Err(Refusal::NotARun);
    }
    let mode = number::read_u16(run, 4);
    let k = read_run(run, mode);
    match mode {
        1 => back_net(k, y),
        4 => back_stamp(k, y),
        _ => Err(Refusal::NoWayBack),
    }
}
