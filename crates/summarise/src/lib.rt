// Summarising a chunk in a mode: questions 1, 2, 3 and 12. Document 01, "Summaries".
#![tactic(auto)]

ghost use Rattle.std.specs.Prelude.{◌≡◌, List, ◌≤◌, length};
ghost use Rattle.hill.specs.Log.{Record};
ghost use Rattle.hill.specs.Summary.{summary_of};
ghost use Rattle.modes.specs.FourModes.{Amounts};
ghost use Rattle.figure.specs.Mode.{mode_of};
ghost use Rattle.gate.specs.Outcome.{buffer_after, written};
ghost use Rattle.gate.specs.Answers.{answered, length_answered};
ghost use Rattle.gate.specs.Promises.{Answers};
ghost use Rattle.summary.specs.Outcomes.{summarise_outcome, summary_bytes};
ghost use Rattle.slopes.specs.Arrays.{Arrays, Arrays64};
ghost use Rattle.slopes.specs.Kept.{arrays_of};
ghost use Rattle.summarise.specs.Scans.{Grows, Grown, Summed, Scanned, Concludes};
ghost use Rattle.emit.specs.Emitted.{Said};

use gate::Refusal;
use judge::{Head, HillHead, SpoiltHead};
use record::{Fields, Kind};
use slopes::{Counts, Slopes};
use whole_log::Tally;

// The hill takes a record as long as there is no fault: a chunk with one has no hill.
fn grow(mode: u16, fault: Option<Refusal>, f: Fields, slopes: &mut Slopes, c: Counts) -> Counts
    requires { Grows (mode_of mode) fault f (arrays_of slopes.old) c }
    ensures { Grown (mode_of mode) fault f (arrays_of slopes.old) c (arrays_of slopes.new) result }
{
    if fault.is_some() {
        return c;
    }
    slopes.apply(mode, f.kind == Kind::Open, f.value, f.floor, f.ceiling, c)
}

// Reads a chunk to its end: what is kept of its records, and how much of the slopes their hill takes.
fn read_chunk(mode: u16, chunk: &[u8], slopes: &mut Slopes) -> Result<(Tally, Counts), Refusal>
    requires chunk_len_bound { length chunk.now ≤ 65536 }
    requires arrays64 { Arrays64 (arrays_of slopes.old) }
    ensures { Scanned (mode_of mode) chunk.now (arrays_of slopes.new) result }
{
    let mut t = whole_log::fresh();
    let mut c = Counts {
        nl: 0,
        n: 0,
        mid: figure::nothing(mode),
    };
    let mut rest = chunk;
    // The rest is handed on as a chunk of its own, the form that document 01 asks for, so no iterator goes over the records.
    while 0 < rest.len() {
        let Some(f) = record::read_first(rest) else {
            return Err(Refusal::Unreadable);
        };
        t = whole_log::note(t, f);
        c = grow(mode, t.fault, f, slopes, c);
        rest = &rest[f.length as usize..];
    }
    Ok((t, c))
}

// The case of the summary: blank where no record was read, spoilt where there is a fault, else a hill, whose peak is as many levels below the start
// as it has left values.
fn chunk_head(mode: u16, total: Tally, c: Counts) -> Head
    requires { (A : Arrays) × Concludes (mode_of mode) A c total }
    ensures { (A : Arrays) (xs : List (Record Amounts)) → Summed (mode_of mode) A c total xs → Said mode result A (summary_of (mode_of mode).algebra xs) }
{
    if !total.begun {
        return Head::Blank;
    }
    if let Some(fault) = total.fault {
        return Head::Spoilt(SpoiltHead {
            fault,
            start: total.start,
            end: total.level,
            opened: total.opened,
        });
    }
    let middle = judge::held_in(mode, c.mid);
    Head::Hill(HillHead {
        start: total.start,
        peak: total.start - (c.nl as u16),
        end: total.level,
        opened: total.opened,
        middle,
    })
}

// What was read of the chunk is written as its summary.
fn conclude(
    mode: u16,
    t: Tally,
    slopes: &Slopes,
    c: Counts,
    out: &mut [u8],
) -> Result<usize, Refusal>
    requires { Concludes (mode_of mode) (arrays_of slopes.now) c t }
    ensures { (xs : List (Record Amounts)) → Summed (mode_of mode) (arrays_of slopes.now) c t xs
        → Answers (written (length out.old) (summary_bytes mode xs)) out.old out.new result }
{
    let head = chunk_head(mode, t, c);
    emit::put(mode, head, slopes, out)
}

// The summary of a chunk in a mode, written into `out`.
pub fn summarise(chunk: &[u8], mode: u32, out: &mut [u8]) -> Result<usize, Refusal>
    ensures answer { answered result ≡ length_answered (summarise_outcome chunk.now mode (length out.old)) }
    ensures buffer { out.new ≡ buffer_after (summarise_outcome chunk.now mode (length out.old)) out.old }
{
    if !figure::in_use(mode) {
        return Err(Refusal::Mode);
    }
    if 65536 < chunk.len() {
        return Err(Refusal::TooLong);
    }
    let m = mode as u16;
    let mut slopes = slopes::NO_SLOPES;
    let (t, c) = read_chunk(m, chunk, &mut slopes)?;
    conclude(m, t, &slopes, c, out)
}
