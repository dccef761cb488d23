// A page of the sheet with a figure for every record: questions 1, 2, 3, 7 to 11, 18 and 12, and then one pass over the log that prints each line where its
// record is closed.
#![tactic(auto)]

ghost use Rattle.std.specs.Prelude.{◌≡◌, true, List, ◌-◌, ◌<◌, min, length};
ghost use Rattle.gate.specs.Outcome.{buffer_after};
ghost use Rattle.gate.specs.Answers.{answered, length_answered};
ghost use Rattle.gate.specs.Promises.{Answers};
ghost use Rattle.modes.specs.FourModes.{Amounts};
ghost use Rattle.figure.specs.Mode.{mode_in_use};
ghost use Rattle.hill.specs.Log.{Record};
ghost use Rattle.whole_log.specs.AskLaws.{Opens};
ghost use Rattle.chunk.specs.Laws.{IsLog};
ghost use Rattle.day_sheet.specs.Sheet.{page_outcome, sheet_outcome};

use gate::Refusal;
use page::Page;

mod line;
mod page;

// How many lines a page has that begins with record `first`: 60, or as many as are left.
fn lines_from(first: u32, opened: u32) -> u32
    requires { first < opened }
    ensures { result ≡ min 60 (opened - first) }
{
    (opened - first).min(60)
}

// The page of a log that was let through: 18 and 12, and then its lines. 60 × page does not fit 32 bits for every page.
fn put_page(log: &[u8], mode: u16, opened: u32, page: u32, out: &mut [u8]) -> Result<usize, Refusal>
    requires mode_value { mode_in_use mode ≡ true }
    requires opens { Opens log.now opened }
    ensures { (xs : List (Record Amounts)) → IsLog log.now xs → Answers (page_outcome mode page (length out.old) xs) out.old out.new result }
{
    let starts = 60 * (page as u64);
    if (opened as u64) <= starts {
        return Err(Refusal::NoSuchPage);
    }
    let first = starts as u32;
    let lines = lines_from(first, opened);
    let total = 27 * (lines as usize);
    if out.len() < total {
        return Err(Refusal::BufferTooShort);
    }
    page::print(log, Page { mode, first, lines }, out);
    Ok(total)
}

// A page of the sheet of a whole log, in a mode, or the first question that gets a "no".
pub fn sheet(log: &[u8], mode: u32, page: u32, out: &mut [u8]) -> Result<usize, Refusal>
    ensures answer { answered result ≡ length_answered (sheet_outcome log.now mode page (length out.old)) }
    ensures buffer { out.new ≡ buffer_after (sheet_outcome log.now mode page (length out.old)) out.old }
{
    if !figure::in_use(mode) {
        return Err(Refusal::Mode);
    }
    let opened = match whole_log::ask(log) {
        Ok(opened) => opened,
        // An arm, and no `?`: a wrong answer of it alone is tried (must-fail).
        Err(no) => return Err(no),
    };
    put_page(log, mode as u16, opened, page, out)
}
