// Merging summaries piece by piece: what a side says, the faults of a join, and what was merged so far. Each caller shows that the pieces are accepted.
#![tactic(auto)]

ghost use Rattle.std.specs.Prelude.{◌≡◌, ℕ, ◌+◌, length};
ghost use Rattle.gate.specs.Outcome.{written};
ghost use Rattle.gate.specs.Promises.{Answers};
ghost use Rattle.figure.specs.Mode.{mode_of};
ghost use Rattle.hill.specs.Verdict.{low, joint, count};
ghost use Rattle.hill.specs.Summary.{blank};
ghost use Rattle.hill.specs.Merge.{merge_summary};
ghost use Rattle.summary.specs.Judge.{IsSummary};
ghost use Rattle.summary.specs.Layout.{SummaryIn, encode};
ghost use Rattle.summary.specs.Decode.{decode};
ghost use Rattle.summary.specs.Accepted.{IsSummaryIn};
ghost use Rattle.slopes.specs.Arrays.{Arrays64};
ghost use Rattle.slopes.specs.Kept.{arrays_of};
ghost use Rattle.emit.specs.Emitted.{Said};
ghost use Rattle.fault.specs.Fault.{verdict_of};
ghost use Rattle.judge.specs.Numbers.{InBounds, AllInBounds};
ghost use Rattle.merging.specs.Side.{SaysPart, SaysOf};
ghost use Rattle.merging.specs.Asks.{Kept, Keeps};

use gate::Refusal;
use judge::{Head, HillHead, Numbers, SpoiltHead};
use slopes::{Counts, Slopes};

// Pieces merged so far: the numbers that they say together before the slopes, or none where they are blank, and their hill. `Kept` says what that
// means. A spoilt side and a hill are one case here, since one rule joins them: levels and opened records are put together in the same way, and only
// then is it known whether there is a fault.
#[derive(Clone, Copy, Debug, PartialEq, Eq)]
pub struct Merged {
    side: Option<Numbers>,
    counts: Counts,
    slopes: Slopes,
}

// "The lowest of these faults": the left's, the right's and those of the join.
fn merge_fault(a: Numbers, b: Numbers) -> Option<Refusal>
    requires { InBounds a × InBounds b }
    ensures { verdict_of result ≡ low (verdict_of a.fault) (low (verdict_of b.fault) (low (joint a.end b.start) (count (a.opened + b.opened)))) }
{
    let join = fault::lower(
        fault::joint(a.end as u16, b.start as u16),
        fault::count(a.opened + b.opened),
    );
    fault::lower(a.fault, fault::lower(b.fault, join))
}

// What merging needs of an accepted summary.
fn side_of(b: &[u8]) -> Option<Numbers>
    requires { IsSummary b.now }
    ensures { (m : ℕ) → SaysOf m result (decode m b.now) }
{
    judge::numbers_of(judge::head_of(b))
}

// A side and one that is not blank after it, as one. Opened records are cut to 100,001, which means "more".
fn follow(before: Option<Numbers>, p: Numbers) -> Numbers
    requires { AllInBounds before × InBounds p }
    ensures { (m : ℕ) (s t : SummaryIn m) → SaysOf m before s → SaysPart m p t → SaysPart m result (merge_summary (mode_of m).algebra s t) }
{
    let Some(q) = before else {
        return p;
    };
    Numbers {
        fault: merge_fault(q, p),
        start: q.start,
        peak: q.peak.min(p.peak),
        end: p.end,
        opened: (q.opened + p.opened).min(100_001),
    }
}

// Nothing merged yet.
pub fn none_merged(mode: u16) -> Merged
    ensures { Kept mode result blank }
{
    Merged {
        side: None,
        counts: Counts {
            nl: 0,
            n: 0,
            mid: figure::nothing(mode),
        },
        slopes: slopes::NO_SLOPES,
    }
}

impl Merged {
    // Nothing merged any more. What the slopes hold counts for nothing then, so it stays.
    pub fn clear(&mut self, mode: u16)
        requires { Arrays64 (arrays_of self.old.slopes) }
        ensures { Kept mode self.new blank }
    {
        self.side = None;
        self.counts = Counts {
            nl: 0,
            n: 0,
            mid: figure::nothing(mode),
        };
    }

    // One more piece. Its hill joins the one that was merged, unless there is a fault; a blank adds nothing.
    pub fn add_piece(&mut self, mode: u16, piece: &[u8])
        requires summary_in { IsSummaryIn mode piece.now }
        requires keeps { Keeps mode self.old }
        ensures { (s : SummaryIn mode) → Kept mode self.old s → Kept mode self.new (merge_summary (mode_of mode).algebra s (decode mode piece.now)) }
    {
        let Some(p) = side_of(piece) else {
            return;
        };
        let both = follow(self.side, p);
        self.side = Some(both);
        if both.fault.is_some() {
            return;
        }
        self.counts = codec::load(mode, piece, &mut self.slopes, self.counts);
    }

    // The case of what was merged: blank, spoilt where there is a fault, else a hill.
    fn head(&self, mode: u16) -> Head
        ensures { (s : SummaryIn mode) → Kept mode self.now s → Said mode result (arrays_of self.now.slopes) s }
    {
        let Some(p) = self.side else {
            return Head::Blank;
        };
        if let Some(fault) = p.fault {
            return Head::Spoilt(SpoiltHead {
                fault,
                start: p.start as u16,
                end: p.end as u16,
                opened: p.opened,
            });
        }
        Head::Hill(HillHead {
            start: p.start as u16,
            peak: p.peak as u16,
            end: p.end as u16,
            opened: p.opened,
            middle: judge::held_in(mode, self.counts.mid),
        })
    }

    // The summary that was merged. Question 12 is asked here, before any byte is written.
    pub fn put(&self, mode: u16, out: &mut [u8]) -> Result<usize, Refusal>
        requires { Keeps mode self.now }
        ensures { (s : SummaryIn mode) → Kept mode self.now s → Answers (written (length out.old) (encode mode s)) out.old out.new result }
    {
        emit::put(mode, self.head(mode), &self.slopes, out)
    }
}
