// Questions 5 and 6 of a row's pieces, and what is noted of them.
ghost use Rattle.std.specs.Prelude.{◌≡◌, cond, ◌≤◌, ◌<◌, eqb, length};
ghost use Rattle.gate.specs.Answers.{answered};
ghost use Rattle.row.specs.Row.{row_pieces};
ghost use Rattle.outcome.specs.Outcomes.{mode_of_all};
ghost use Rattle.row_gate.specs.Notes.{NotedAll};

use gate::Refusal;
use judge::Numbers;

// The first piece says which mode is meant.
fn first_mode(k: usize, mode: u16, m: u16) -> u16
    ensures { result ≡ cond (eqb k 0) m mode }
{
    if k == 0 { m } else { mode }
}

// Each piece is judged and noted.
pub fn judge_pieces(
    row: &[u8],
    count: usize,
    notes: &mut [Option<Numbers>; 64],
) -> Result<u16, Refusal>
    requires { (length (row_pieces row.now) ≡ count) × (0 < count) × (count ≤ 64) }
    ensures answer { answered result ≡ mode_of_all (row_pieces row.now) }
    ensures notes { NotedAll (row_pieces row.now) notes.old notes.new }
{
    let mut rest = row;
    let mut mode = 0;
    let mut same = true;
    for k in 0..count {
        let first = row::first_length(rest);
        let piece = judge::judge(&rest[..first])?;
        notes[k] = judge::numbers_of(piece.head);
        mode = first_mode(k, mode, piece.mode);
        same = same & (mode == piece.mode);
        rest = &rest[first..];
    }
    if same {
        Ok(mode)
    } else {
        Err(Refusal::MixedModes)
    }
}
