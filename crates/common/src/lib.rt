// The record that two records of a whole log have in common: questions 2, 3, 7 to 11 and 19, and then one pass that goes up to the later of the two.
#![tactic(auto)]

ghost use Rattle.std.specs.Prelude.{◌≡◌, List};
ghost use Rattle.gate.specs.Answers.{answered};
ghost use Rattle.modes.specs.FourModes.{Amounts};
ghost use Rattle.hill.specs.Log.{Record};
ghost use Rattle.chunk.specs.Chunk.{IsWellFormed};
ghost use Rattle.chunk.specs.Laws.{IsLog};
ghost use Rattle.whole_log.specs.AskLaws.{Opens};
ghost use Rattle.common_record.specs.Common.{common_number, numbers_outcome, common_outcome};
ghost use Rattle.common.specs.Walk.{BothThere};

use gate::Refusal;

mod walk;

// The number of the record that two records of a log that was let through have in common. The walk takes the earlier one first.
fn number_in_common(log: &[u8], a: u32, b: u32) -> u32
    requires { BothThere log.now a b }
    ensures { (xs : List (Record Amounts)) → IsWellFormed log.now xs → result ≡ common_number xs a b }
{
    if b < a {
        return walk::find(log, b, a);
    }
    walk::find(log, a, b)
}

// Question 19, of a log that was let through, and then the number.
fn name_record(log: &[u8], opened: u32, a: u32, b: u32) -> Result<u32, Refusal>
    requires { Opens log.now opened }
    ensures { (xs : List (Record Amounts)) → IsLog log.now xs → answered result ≡ numbers_outcome a b xs }
{
    if (a < opened) & (b < opened) {
        return Ok(number_in_common(log, a, b));
    }
    Err(Refusal::NoSuchRecord)
}

// The number of the record that records a and b of a whole log have in common, or the first question that gets a "no".
pub fn common(log: &[u8], a: u32, b: u32) -> Result<u32, Refusal>
    ensures { answered result ≡ common_outcome log.now a b }
{
    let opened = match whole_log::ask(log) {
        Ok(opened) => opened,
        // An arm, and no `?`: a wrong answer of it alone is tried (must-fail).
        Err(no) => return Err(no),
    };
    name_record(log, opened, a, b)
}
