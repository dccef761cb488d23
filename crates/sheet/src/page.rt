// The lines of a page. A record's figure is known when the record is closed, which may be long after the last record of the page is opened; where its line
// stands is known by its number. So each line is written at the close of its record. Beside a count and the middle value only the open records are kept: no line,
// and no figure of a closed record.
ghost use Rattle.std.specs.Prelude.{◌≡◌, List, ◌*◌, ◌≤◌, ◌<◌, length};
ghost use Rattle.gate.specs.Outcome.{granted, buffer_after};
ghost use Rattle.modes.specs.FourModes.{Amounts};
ghost use Rattle.hill.specs.Log.{Record};
ghost use Rattle.hill.specs.Row.{joined};
ghost use Rattle.chunk.specs.Chunk.{IsWellFormed};
ghost use Rattle.day_sheet.specs.Claims.{InColumns};
ghost use Rattle.sheet.specs.Promised.{lines_at, line_put, Opened, Closes, Closed, PageFits};
ghost use Rattle.sheet.specs.Printing.{Ready, Noted};

use super::line;
use record::{Fields, Kind};
use slopes::OpenAmounts;

// So many lines of the sheet in a mode, from record `first` on.
#[derive(Clone, Copy, Debug, PartialEq, Eq)]
pub struct Page {
    pub mode: u16,
    pub first: u32,
    pub lines: u32,
}

// What the pass keeps beside the open records: how many records are opened so far, and the middle value, which `slopes::add` asks for and no line shows.
#[derive(Clone, Copy, Debug, PartialEq, Eq)]
struct Progress {
    opened: u32,
    middle: i64,
}

// The open records, by depth: their amounts, what each holds so far, and their numbers.
#[derive(Clone, Copy, Debug, PartialEq, Eq)]
struct Open {
    amounts: OpenAmounts,
    held: [i64; 64],
    numbers: [u32; 64],
}

// Where the pass begins.
const NONE_OPEN: Open = Open {
    amounts: slopes::NO_AMOUNTS,
    held: [0; 64],
    numbers: [0; 64],
};

// A line of the page, at its place; that of a record on another page is left out.
fn put_line(out: &mut [u8], page: Page, number: u32, depth: u16, figure: i64)
    requires in_columns { InColumns number depth figure }
    requires lines_in_bounds { 27 * page.lines ≤ length out.old }
    ensures { out.new ≡ line_put page number depth figure out.old }
{
    if number < page.first {
        return;
    }
    let i = number - page.first;
    if page.lines <= i {
        return;
    }
    line::write_line(out, 27 * (i as usize), number, depth, figure);
}

impl Open {
    // An open: the record stands at its depth, with its number, and holds nothing yet.
    fn open(&mut self, mode: u16, f: Fields, s: Progress) -> Progress
        requires { (f.depth < 64) × (s.opened ≤ 100000) }
        ensures { Opened mode f s self.old result self.new }
    {
        let depth = f.depth as usize;
        self.amounts.put(depth, f.value, f.floor, f.ceiling);
        self.held[depth] = figure::nothing(mode);
        self.numbers[depth] = s.opened;
        Progress {
            opened: s.opened + 1,
            ..s
        }
    }

    // A close: the record's figure joins the level below, and is printed where its line is on the page.
    fn close(&mut self, page: Page, depth: u16, s: Progress, out: &mut [u8]) -> Progress
        requires { Closes page depth s self.old out.old }
        ensures { Closed page depth s self.old out.old result self.new out.new }
    {
        let top = depth as usize;
        let figure = self.amounts.top_figure(page.mode, top, &self.held);
        let middle = slopes::add(page.mode, &mut self.held, top, s.middle, figure);
        put_line(out, page, self.numbers[top], depth, figure);
        Progress { middle, ..s }
    }

    // One record more.
    fn note(&mut self, page: Page, f: Fields, s: Progress, out: &mut [u8]) -> Progress
        requires { Ready page f s self.old out.old }
        ensures { Noted page f s self.old out.old result self.new out.new }
    {
        match f.kind {
            Kind::Open => self.open(page.mode, f, s),
            Kind::Close => self.close(page, f.depth, s, out),
        }
    }
}

// The lines of a page of a log that was let through, so that the reader cannot refuse.
pub fn print(log: &[u8], page: Page, out: &mut [u8])
    requires { PageFits log.now page (length out.old) }
    ensures { ((xs : List (Record Amounts)) → IsWellFormed log.now xs → out.new ≡ buffer_after (granted (joined (lines_at page xs))) out.old) }
{
    let mut kept = NONE_OPEN;
    let mut s = Progress {
        opened: 0,
        middle: figure::nothing(page.mode),
    };
    let mut rest = log;
    // The rest is handed on as a chunk of its own, the form that document 01 asks for, so no iterator goes over the records.
    while 0 < rest.len() {
        let Some(f) = record::read_first(rest) else {
            return;
        };
        s = kept.note(page, f, s, out);
        rest = &rest[f.length as usize..];
    }
}
