// What each call on a row, and the day's figures and its line, come to, as definitions over bytes: theory. It all stands in specs/, but for what more than one crate
// gives or asks.
#![tactic(auto)]

ghost use Rattle.std.specs.Prelude.{◌≡◌};
ghost use Rattle.outcome.specs.Outcomes.{has_fourth, run_length};

// The four figures of a log, in the order in which the day program prints them.
#[derive(Clone, Copy, Debug, PartialEq, Eq)]
pub struct Figures {
    pub net: i64,
    pub heaviest: i64,
    pub eaten: i64,
    pub stamp: i64,
}

// Whether a run has a fourth number.
pub fn has_fourth(mode: u16) -> bool
    ensures { result ≡ has_fourth mode }
{
    mode == 5
}

// How many bytes a run has.
pub fn run_length(mode: u16) -> usize
    ensures { result ≡ run_length mode }
{
    if has_fourth(mode) { 38 } else { 30 }
}
