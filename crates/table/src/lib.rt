// The day table: the log written from it, and the table of a log.
#![tactic(auto)]

ghost use Rattle.std.specs.Prelude.{◌≡◌, List, length};
ghost use Rattle.gate.specs.Outcome.{written, buffer_after};
ghost use Rattle.gate.specs.Answers.{answered, length_answered};
ghost use Rattle.gate.specs.Promises.{Answers};
ghost use Rattle.modes.specs.FourModes.{Amounts};
ghost use Rattle.hill.specs.Log.{Record};
ghost use Rattle.chunk.specs.Chunk.{IsWellFormed};
ghost use Rattle.day_table.specs.Table.{table_of, log_of};
ghost use Rattle.day_table.specs.Outcomes.{table_lines, table_bytes, log_bytes, write_log_outcome, read_table_outcome};
ghost use Rattle.day_table.specs.CallLaws.{Taken};
ghost use Rattle.whole_log.specs.AskLaws.{Opens};
ghost use Rattle.table.specs.Promised.{first_no};

use gate::Refusal;

mod lines;
mod records;

// The log of a table that is taken, where it fits.
fn put_log(table: &[u8], out: &mut [u8]) -> Result<usize, Refusal>
    requires { Taken table.now }
    ensures { Answers (written (length out.old) (log_bytes (log_of (table_lines table.now)))) out.old out.new result }
{
    let total = table.len() / 14 * 24;
    if out.len() < total {
        return Err(Refusal::BufferTooShort);
    }
    records::write_records(table, out);
    Ok(total)
}

// Questions 3, 13 and 10 of a table: the first that gets a "no". Their order stands here alone, so that another order can be tried.
fn first_no(readable: bool, nested: bool, some: bool) -> Option<Refusal>
    ensures { result ≡ first_no readable nested some }
{
    if !readable {
        return Some(Refusal::Unreadable);
    }
    if !nested {
        return Some(Refusal::NotNested);
    }
    if !some {
        return Some(Refusal::NoRecord);
    }
    None
}

// The log of a table, or the first question that gets a "no".
pub fn write_log(table: &[u8], out: &mut [u8]) -> Result<usize, Refusal>
    ensures answer { answered result ≡ length_answered (write_log_outcome table.now (length out.old)) }
    ensures buffer { out.new ≡ buffer_after (write_log_outcome table.now (length out.old)) out.old }
{
    if 38220 < table.len() {
        return Err(Refusal::TooLong);
    }
    let readable = (table.len() % 14 == 0) & lines::all_could_hold(table);
    if let Some(no) = first_no(readable, lines::all_nested(table), 14 <= table.len()) {
        return Err(no);
    }
    put_log(table, out)
}

// The table of a log that was let through, where it fits.
fn put_table(log: &[u8], opened: u32, out: &mut [u8]) -> Result<usize, Refusal>
    requires { Opens log.now opened }
    ensures { (xs : List (Record Amounts)) → IsWellFormed log.now xs → Answers (written (length out.old) (table_bytes (table_of xs))) out.old out.new result }
{
    let total = 14 * (opened as usize);
    if out.len() < total {
        return Err(Refusal::BufferTooShort);
    }
    lines::write_table(log, out);
    Ok(total)
}

// The table of a whole log, or the first question that gets a "no".
pub fn read_table(log: &[u8], out: &mut [u8]) -> Result<usize, Refusal>
    ensures answer { answered result ≡ length_answered (read_table_outcome log.now (length out.old)) }
    ensures buffer { out.new ≡ buffer_after (read_table_outcome log.now (length out.old)) out.old }
{
    let opened = match whole_log::ask(log) {
        Ok(opened) => opened,
        // An arm, and no `?`: a wrong answer of it alone is tried (must-fail).
        Err(no) => return Err(no),
    };
    put_table(log, opened, out)
}
