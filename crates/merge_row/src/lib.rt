// The call that merges a row of summaries, half with half: document 01, "Plan and runs" and questions 4, 5, 6 and 12.
#![tactic(auto)]

ghost use Rattle.std.specs.Prelude.{◌≡◌, ◌≤◌, ◌<◌, length};
ghost use Rattle.gate.specs.Outcome.{written, buffer_after};
ghost use Rattle.gate.specs.Answers.{answered, length_answered};
ghost use Rattle.gate.specs.Promises.{Answers};
ghost use Rattle.row.specs.Row.{row_pieces};
ghost use Rattle.summary.specs.Layout.{SummaryIn, encode};
ghost use Rattle.slopes.specs.Arrays.{Arrays64};
ghost use Rattle.slopes.specs.Kept.{arrays_of};
ghost use Rattle.outcome.specs.Outcomes.{mode_of_all, merge_row_outcome};
ghost use Rattle.merging.specs.Asks.{Kept, Keeps};
ghost use Rattle.merge_row.specs.RowAsks.{Front, Row, Room, row_summary, row_merged};

use gate::Refusal;
use merging::Merged;

// Questions 5 and 6 of a row that has a piece: each piece is judged once.
fn mode_of_all(pieces: &[u8]) -> Result<u16, Refusal>
    requires { 0 < length pieces.now }
    ensures { answered result ≡ mode_of_all (row_pieces pieces.now) }
{
    let first = row::first_length(pieces);
    let p = judge::judge(&pieces[..first])?;
    let mode = p.mode;
    let mut same = true;
    let mut rest = &pieces[first..];
    // How long a piece is stands in it, so the rest of the row is handed on.
    while 0 < rest.len() {
        let n = row::first_length(rest);
        let q = judge::judge(&rest[..n])?;
        same = same & (mode == q.mode);
        rest = &rest[n..];
    }
    if same {
        Ok(mode)
    } else {
        Err(Refusal::MixedModes)
    }
}

// What was merged is put aside as a summary's bytes, and how many they are. There is room for any summary, so question 12 has no part here.
fn put_aside(mode: u16, a: &Merged, aside: &mut [u8]) -> usize
    requires keeps { Keeps mode a.now }
    requires in_bounds { 1788 ≤ length aside.old }
    ensures { (s : SummaryIn mode) → Kept mode a.now s → Front (encode mode s) aside.new result }
{
    let Ok(n) = a.put(mode, aside) else {
        return 0;
    };
    n
}

// Accepted pieces of one mode: half with half and each half likewise, the left half having the odd one. Of the two halves the right one is merged
// first and put aside, unless it is one piece; the left one stays in `all`, and the right one is added to it.
fn merge_pieces(mode: u16, pieces: &[u8], count: usize, aside: &mut [u8], all: &mut Merged)
    requires row { Row mode pieces.now count }
    requires room { Room count (length aside.old) }
    requires arrays64 { Arrays64 (arrays_of all.old.slopes) }
    ensures { Kept mode all.new (row_summary mode pieces.now) }
{
    if count < 2 {
        all.clear(mode);
        all.add_piece(mode, pieces);
        return;
    }
    let half = (count + 1) / 2;
    let rest = count - half;
    let at = row::end_of(pieces, half);
    let front = &pieces[..at];
    let back = &pieces[at..];
    if rest < 2 {
        merge_pieces(mode, front, half, aside, all);
        all.add_piece(mode, back);
        return;
    }
    merge_pieces(mode, back, rest, aside, all);
    let n = put_aside(mode, &*all, aside);
    merge_pieces(mode, front, half, &mut aside[n..], all);
    all.add_piece(mode, &aside[..n]);
}

// Accepted pieces of one mode, at least one, as one summary.
fn merge_accepted(mode: u16, pieces: &[u8], count: usize, out: &mut [u8]) -> Result<usize, Refusal>
    requires { Row mode pieces.now count }
    ensures { Answers (written (length out.old) (row_merged mode pieces.now)) out.old out.new result }
{
    let mut all = merging::none_merged(mode);
    let mut aside = [0u8; 8940];
    merge_pieces(mode, pieces, count, &mut aside, &mut all);
    all.put(mode, out)
}

// Merging a row: questions 4, 5, 6 and 12.
pub fn merge_row(pieces: &[u8], out: &mut [u8]) -> Result<usize, Refusal>
    ensures answer { answered result ≡ length_answered (merge_row_outcome pieces.now (length out.old)) }
    ensures buffer { out.new ≡ buffer_after (merge_row_outcome pieces.now (length out.old)) out.old }
{
    let count = row::count_pieces(pieces);
    if count < 2 {
        return Err(Refusal::PieceCount);
    }
    if 64 < count {
        return Err(Refusal::PieceCount);
    }
    let mode = mode_of_all(pieces)?;
    merge_accepted(mode, pieces, count, out)
}
