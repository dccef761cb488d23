// Faults: the questions 7, 8, 9 and 11, and the lower of two. A fault is the question that gets a "no", where one does.
#![tactic(auto)]

ghost use Rattle.std.specs.Prelude.{◌≡◌, eqb};
ghost use Rattle.hill.specs.Verdict.{low, ask, joint as jointOf, count as count_of, ends as endsOf};
ghost use Rattle.fault.specs.Fault.{verdict_of};

use gate::Refusal;

// "Several faults: the lowest."
pub fn lower(a: Option<Refusal>, b: Option<Refusal>) -> Option<Refusal>
    ensures { verdict_of result ≡ low (verdict_of a) (verdict_of b) }
{
    match (a, b) {
        (None, _) => b,
        (_, None) => a,
        (Some(x), Some(y)) => if x.number() <= y.number() { a } else { b },
    }
}

// Questions 7 and 8 between a record that ends at one level and the next, which starts at another.
pub fn joint(end: u16, start: u16) -> Option<Refusal>
    ensures { verdict_of result ≡ jointOf end start }
{
    if end != start {
        return Some(Refusal::LevelGap);
    }
    if end == 0 {
        Some(Refusal::LevelZero)
    } else {
        None
    }
}

// Question 9 of so many opened records.
pub fn count(opened: u32) -> Option<Refusal>
    ensures { verdict_of result ≡ count_of opened }
{
    if opened <= 100_000 {
        None
    } else {
        Some(Refusal::TooManyOpened)
    }
}

// Question 11 of one level.
fn ground(level: u16) -> Option<Refusal>
    ensures { verdict_of result ≡ ask 11 (eqb level 0) }
{
    if level == 0 {
        None
    } else {
        Some(Refusal::NotWhole)
    }
}

// Question 11 of a log that begins at one level and ends at another.
pub fn ends(start: u16, end: u16) -> Option<Refusal>
    ensures { verdict_of result ≡ endsOf start end }
{
    lower(ground(start), ground(end))
}
