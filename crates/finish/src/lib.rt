// The call that finishes one summary, "answering the figure as a signed 64-bit number": document 01, questions 5 and 7 to 11.
#![tactic(auto)]

ghost use Rattle.std.specs.Prelude.{◌≡◌};
ghost use Rattle.hill.specs.Verdict.{ends};
ghost use Rattle.hill.specs.Finish.{outcome};
ghost use Rattle.modes.specs.FourModes.{store_held};
ghost use Rattle.gate.specs.Answers.{answered};
ghost use Rattle.summary.specs.Outcomes.{finish_outcome};

use gate::Refusal;
use judge::{Head, HillHead};

// Question 11 of a hill, and its middle value.
fn finish_hill(h: HillHead) -> Result<i64, Refusal>
    ensures { answered result ≡ outcome (ends h.start h.end) (store_held h.middle) }
{
    match fault::ends(h.start, h.end) {
        Some(fault) => Err(fault),
        None => Ok(figure::store_held(h.middle)),
    }
}

// The figure of the log whose summary this is, or the lowest of questions 5 and 7 to 11 that gets a "no".
pub fn finish(summary: &[u8]) -> Result<i64, Refusal>
    ensures { answered result ≡ finish_outcome summary.now }
{
    let p = judge::judge(summary)?;
    match p.head {
        Head::Blank => Err(Refusal::NoRecord),
        Head::Spoilt(s) => Err(s.fault),
        Head::Hill(h) => finish_hill(h),
    }
}
