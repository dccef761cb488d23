// A pass over records: the one tally that every pass keeps that judges them, of levels, faults and opened records, and the gate on a whole log.
#![tactic(auto)]

ghost use Rattle.std.specs.Prelude.{◌≡◌, List, [], ◌∷◌, ◌++◌, ◌≤◌, eqb};
ghost use Rattle.hill.specs.Verdict.{low, joint, ask as asking};
ghost use Rattle.hill.specs.Log.{Record, start_level, end_level, opens as opened_by};
ghost use Rattle.modes.specs.FourModes.{Amounts};
ghost use Rattle.fault.specs.Fault.{verdict_of};
ghost use Rattle.chunk.specs.Chunk.{record_of};
ghost use Rattle.gate.specs.Answers.{answered};
ghost use Rattle.whole_log.specs.Gate.{ask_outcome};
ghost use Rattle.whole_log.specs.Tallies.{Tallied, Fresh, log_verdict};

use gate::Refusal;
use record::{Fields, Kind};

// What a pass over records keeps beside what it computes: whether there was one, the start level, the level reached, the lowest of faults 7 and 8, and
// the opened records.
#[derive(Clone, Copy, Debug, PartialEq, Eq)]
pub struct Tally {
    pub begun: bool,
    pub start: u16,
    pub level: u16,
    pub fault: Option<Refusal>,
    pub opened: u32,
}

// No record yet.
pub fn fresh() -> Tally
    ensures { Fresh result }
{
    Tally {
        begun: false,
        start: 0,
        level: 0,
        fault: None,
        opened: 0,
    }
}

// The lowest fault, one joint more. Nearly all records meet, so that case comes first, and no fault is compared there.
fn with_joint(fault: Option<Refusal>, end: u16, start: u16) -> Option<Refusal>
    ensures { verdict_of result ≡ low (verdict_of fault) (joint end start) }
{
    match fault::joint(end, start) {
        None => fault,
        found => fault::lower(fault, found),
    }
}

// One record more, which goes from one level to another.
fn passed(t: Tally, from: u16, to: u16, opens: u32) -> Tally
    requires { (t.opened ≤ 65536) × (opens ≤ 1) }
    ensures { (xs : List (Record Amounts)) (y : Record Amounts) → Tallied xs t → start_level y ≡ from → end_level y ≡ to → opened_by y ≡ opens → Tallied (xs ++ (y ∷ [])) result }
{
    if !t.begun {
        return Tally {
            begun: true,
            start: from,
            level: to,
            fault: None,
            opened: opens,
        };
    }
    Tally {
        level: to,
        fault: with_joint(t.fault, t.level, from),
        opened: t.opened + opens,
        ..t
    }
}

// One record more: an open goes from its depth to the level above, a close the other way.
pub fn note(t: Tally, f: Fields) -> Tally
    requires { (t.opened ≤ 65536) × (f.depth ≤ 63) }
    ensures { (xs : List (Record Amounts)) → Tallied xs t → Tallied (xs ++ (record_of f ∷ [])) result }
{
    let depth = f.depth;
    match f.kind {
        Kind::Open => passed(t, depth, depth + 1, 1),
        Kind::Close => passed(t, depth + 1, depth, 0),
    }
}

// The lowest fault so far of a log: 11 too, where its first record does not start at level 0. It is asked for each record, so the usual case comes
// first.
pub fn fault_so_far(t: Tally) -> Option<Refusal>
    ensures { verdict_of result ≡ low (verdict_of t.fault) (asking 11 (eqb t.start 0)) }
{
    if t.start == 0 {
        return t.fault;
    }
    fault::lower(t.fault, Some(Refusal::NotWhole))
}

// The lowest fault of a log, once all its records are noted. Question 9 cannot get a "no": 65,536 bytes have too few records.
pub fn log_fault(t: Tally) -> Option<Refusal>
    ensures { verdict_of result ≡ log_verdict t }
{
    if !t.begun {
        return Some(Refusal::NoRecord);
    }
    fault::lower(t.fault, fault::ends(t.start, t.level))
}

// How many records a log opens, or the first question that gets a "no".
pub fn ask(log: &[u8]) -> Result<u32, Refusal>
    ensures { answered result ≡ ask_outcome log.now }
{
    if 65536 < log.len() {
        return Err(Refusal::TooLong);
    }
    let mut t = fresh();
    let mut rest = log;
    // The rest is handed on as a chunk of its own, the form that document 01 asks for, so no iterator goes over the records.
    while 0 < rest.len() {
        let Some(f) = record::read_first(rest) else {
            return Err(Refusal::Unreadable);
        };
        t = note(t, f);
        rest = &rest[f.length as usize..];
    }
    match log_fault(t) {
        Some(fault) => Err(fault),
        None => Ok(t.opened),
    }
}
