// The call that merges two summaries: document 01, "Summaries" and questions 5, 6 and 12.
#![tactic(auto)]

ghost use Rattle.std.specs.Prelude.{◌≡◌, length};
ghost use Rattle.gate.specs.Outcome.{written, buffer_after};
ghost use Rattle.gate.specs.Answers.{answered, length_answered};
ghost use Rattle.gate.specs.Promises.{Answers};
ghost use Rattle.summary.specs.Accepted.{IsSummaryIn};
ghost use Rattle.summary.specs.Outcomes.{merge_bytes, merge_outcome};

use gate::Refusal;

// Two accepted summaries of one mode, one after the other.
fn join(mode: u16, left: &[u8], right: &[u8], out: &mut [u8]) -> Result<usize, Refusal>
    requires { IsSummaryIn mode left.now × IsSummaryIn mode right.now }
    ensures { Answers (written (length out.old) (merge_bytes mode left.now right.now)) out.old out.new result }
{
    let mut both = merging::none_merged(mode);
    both.add_piece(mode, left);
    both.add_piece(mode, right);
    both.put(mode, out)
}

// Merging two summaries: questions 5, 6 and 12.
pub fn merge(left: &[u8], right: &[u8], out: &mut [u8]) -> Result<usize, Refusal>
    ensures answer { answered result ≡ length_answered (merge_outcome left.now right.now (length out.old)) }
    ensures buffer { out.new ≡ buffer_after (merge_outcome left.now right.now (length out.old)) out.old }
{
    let a = judge::judge(left)?;
    let b = judge::judge(right)?;
    if a.mode != b.mode {
        return Err(Refusal::MixedModes);
    }
    join(a.mode, left, right, out)
}
