// The day's figures: net, heaviest, eaten and stamp of one log, in one pass over its records.
#![tactic(auto)]

ghost use Rattle.std.specs.Prelude.{◌≡◌, ◌<◌};
ghost use Rattle.gate.specs.Answers.{answered};
ghost use Rattle.outcome.specs.Day.{day_outcome};
ghost use Rattle.hill.specs.Finish.{outcome};
ghost use Rattle.whole_log.specs.Tallies.{log_verdict};
ghost use Rattle.day.specs.Pass.{no_figures, Opened, Ready, Applied};

use gate::Refusal;
use outcome::Figures;
use record::{Fields, Kind};
use slopes::OpenAmounts;
use whole_log::Tally;

// What each open record holds so far, in each mode, by its depth.
#[derive(Clone, Copy, Debug, PartialEq, Eq)]
struct Holding {
    net: [i64; 64],
    heaviest: [i64; 64],
    eaten: [i64; 64],
    stamp: [i64; 64],
}

// Where the pass begins.
const NO_HOLDING: Holding = Holding {
    net: [0; 64],
    heaviest: [0; 64],
    eaten: [0; 64],
    stamp: [0; 64],
};

// No figure yet, in each mode.
fn no_figures() -> Figures
    ensures { result ≡ no_figures }
{
    Figures {
        net: figure::nothing(1),
        heaviest: figure::nothing(2),
        eaten: figure::nothing(5),
        stamp: figure::nothing(4),
    }
}

// An open: the record stands at its depth, and holds nothing yet in each mode.
fn open(f: Fields, amounts: &mut OpenAmounts, held: &mut Holding)
    requires { f.depth < 64 }
    ensures { Opened f amounts.old held.old amounts.new held.new }
{
    let depth = f.depth as usize;
    amounts.put(depth, f.value, f.floor, f.ceiling);
    held.net[depth] = figure::nothing(1);
    held.heaviest[depth] = figure::nothing(2);
    held.eaten[depth] = figure::nothing(5);
    held.stamp[depth] = figure::nothing(4);
}

// One record in all four modes, as long as there is no fault. It answers the middle values.
fn apply(
    fault: Option<Refusal>,
    f: Fields,
    mid: Figures,
    amounts: &mut OpenAmounts,
    held: &mut Holding,
) -> Figures
    requires { Ready fault f mid amounts.old held.old }
    ensures { Applied fault f mid amounts.old held.old result amounts.new held.new }
{
    if fault.is_some() {
        return mid;
    }
    match f.kind {
        Kind::Open => {
            open(f, amounts, held);
            mid
        }
        Kind::Close => {
            let depth = f.depth as usize;
            let net = amounts.close_top(1, depth, &mut held.net, mid.net);
            let heaviest = amounts.close_top(2, depth, &mut held.heaviest, mid.heaviest);
            let eaten = amounts.close_top(5, depth, &mut held.eaten, mid.eaten);
            let stamp = amounts.close_top(4, depth, &mut held.stamp, mid.stamp);
            Figures {
                net,
                heaviest,
                eaten,
                stamp,
            }
        }
    }
}

// Once all records are read: the middle values, unless a question has a "no".
fn conclude(t: Tally, mid: Figures) -> Result<Figures, Refusal>
    ensures { answered result ≡ outcome (log_verdict t) mid }
{
    match whole_log::log_fault(t) {
        Some(fault) => Err(fault),
        None => Ok(mid),
    }
}

// The day's four figures, or the first question that gets a "no".
pub fn figures(log: &[u8]) -> Result<Figures, Refusal>
    ensures { answered result ≡ day_outcome log.now }
{
    if 65536 < log.len() {
        return Err(Refusal::TooLong);
    }
    let mut amounts = slopes::NO_AMOUNTS;
    let mut held = NO_HOLDING;
    let mut mid = no_figures();
    let mut t = whole_log::fresh();
    let mut rest = log;
    // The rest is handed on as a chunk of its own, the form that document 01 asks for, so no iterator goes over the records.
    while 0 < rest.len() {
        let Some(f) = record::read_first(rest) else {
            return Err(Refusal::Unreadable);
        };
        t = whole_log::note(t, f);
        mid = apply(whole_log::fault_so_far(t), f, mid, &mut amounts, &mut held);
        rest = &rest[f.length as usize..];
    }
    conclude(t, mid)
}
