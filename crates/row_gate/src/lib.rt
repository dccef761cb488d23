// Questions 4 to 11 of a row, and what is noted of its pieces then.
#![tactic(auto)]

ghost use Rattle.row_gate.specs.Notes.{Noted};
ghost use Rattle.row_gate.specs.Asks.{Finds};

use gate::Refusal;
use judge::Numbers;

mod faults;
mod pieces;

// The peak of a piece that is no hill: above all levels, so that it has no line and lowers no minimum of the peaks passed.
pub const NO_PEAK: u8 = 255;

// A row that is let through: the number of its pieces, and their mode.
#[derive(Clone, Copy, Debug, PartialEq, Eq)]
pub struct Row {
    pub count: usize,
    pub mode: u16,
}

// The numbers of the pieces are noted in order, from the first note on; a blank has none.
pub fn open_row(row: &[u8], notes: &mut [Option<Numbers>; 64]) -> Result<Row, Refusal>
    ensures found { Finds result row.now notes.new }
    ensures bounds { Noted notes.old → Noted notes.new }
{
    let count = row::count_pieces(row);
    if count < 2 || 64 < count {
        return Err(Refusal::PieceCount);
    }
    let mode = pieces::judge_pieces(row, count, notes)?;
    if let Some(fault) = faults::row_fault(&notes[..count]) {
        return Err(fault);
    }
    Ok(Row { count, mode })
}
