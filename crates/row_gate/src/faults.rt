// Questions 7 to 11 of a row, from what is noted of its pieces.
ghost use Rattle.std.specs.Prelude.{◌≡◌, [], ◌+◌, ◌≤◌, map, length};
ghost use Rattle.fault.specs.Fault.{verdict_of};
ghost use Rattle.row_gate.specs.Notes.{Few};
ghost use Rattle.row_gate.specs.Told.{told_of_note, told_fault, opened_by, onward_from, Passed};

use gate::Refusal;
use judge::Numbers;

// The pieces passed, where one of them is not blank: where the first starts and the last ends, the lowest fault so far and the records opened.
#[derive(Clone, Copy, Debug, PartialEq, Eq)]
struct Span {
    first: u8,
    last: u8,
    fault: Option<Refusal>,
    opened: u32,
}

// One piece more, which is not blank.
fn pass(s: Option<Span>, n: Numbers) -> Span
    requires { opened_by s + n.opened ≤ 10_000_000 }
    ensures { Passed s n result }
{
    let Some(s) = s else {
        return Span {
            first: n.start,
            last: n.end,
            fault: n.fault,
            opened: n.opened,
        };
    };
    let joint = fault::joint(u16::from(s.last), u16::from(n.start));
    Span {
        first: s.first,
        last: n.end,
        fault: fault::lower(s.fault, fault::lower(n.fault, joint)),
        opened: s.opened + n.opened,
    }
}

// The lowest fault, once all pieces are passed.
fn lowest(s: Option<Span>) -> Option<Refusal>
    ensures { verdict_of result ≡ onward_from s [] }
{
    let Some(s) = s else {
        return Some(Refusal::NoRecord);
    };
    let so_far = fault::lower(s.fault, fault::count(s.opened));
    fault::lower(so_far, fault::ends(u16::from(s.first), u16::from(s.last)))
}

// The lowest fault of a row.
pub fn row_fault(notes: &[Option<Numbers>]) -> Option<Refusal>
    requires count_bound { length notes.now ≤ 64 }
    requires few { Few notes.now }
    ensures { verdict_of result ≡ told_fault (map told_of_note notes.now) }
{
    let mut s = None;
    for note in notes {
        let Some(n) = note else {
            continue;
        };
        s = Some(pass(s, *n));
    }
    lowest(s)
}
