// The pass that finds the record in common. The records that are open when the later of the two is opened are it and those that hold it. The first so many of
// them, from the root down, are or hold the earlier one too, and the last of these is the record in common. So beside the numbers of the open records it is enough
// to count these: all that are open when the earlier one is opened, and after each close no more than are left open.
ghost use Rattle.std.specs.Prelude.{◌≡◌, cond, List, ℕ, suc, ◌+◌, ◌≤◌, ◌<◌, eqb, length};
ghost use Rattle.modes.specs.FourModes.{Amounts};
ghost use Rattle.hill.specs.Log.{Record};
ghost use Rattle.hill.specs.Closing.{at};
ghost use Rattle.chunk.specs.Chunk.{record_of, IsWellFormed};
ghost use Rattle.common_record.specs.Common.{common_number};
ghost use Rattle.common.specs.Walk.{Walked, InOrder};

use record::{Fields, Kind};

// What the pass keeps beside the numbers of the open records: how many are opened so far; and how many of the open ones are or hold the earlier of the two, once
// that is opened.
#[derive(Clone, Copy, Debug, PartialEq, Eq)]
pub struct Progress {
    pub opened: u32,
    pub shared: u16,
}

// How many are shared after an open: all that are open then, where it is the earlier of the two.
fn shared_after_open(earlier: u32, number: u32, shared: u16, depth: u16) -> u16
    requires { depth ≤ 63 }
    ensures { result ≡ cond (eqb number earlier) (depth + 1) shared }
{
    if number == earlier { depth + 1 } else { shared }
}

// One record more. After a close no more are shared than are open then.
fn note(earlier: u32, f: Fields, s: Progress, numbers: &mut [u32; 64]) -> Progress
    requires { (f.depth ≤ 63) × (s.opened ≤ 100000) }
    ensures { (xs : List (Record Amounts)) (k : ℕ) → Walked xs earlier k s numbers.old → k < length xs → at xs k ≡ record_of f → Walked xs earlier (suc k) result numbers.new }
{
    match f.kind {
        Kind::Open => {
            numbers[f.depth as usize] = s.opened;
            Progress {
                opened: s.opened + 1,
                shared: shared_after_open(earlier, s.opened, s.shared, f.depth),
            }
        }
        Kind::Close => Progress {
            shared: s.shared.min(f.depth),
            ..s
        },
    }
}

// The number of the record that two have in common, the earlier given before the later, in a log that was let through, so that the reader cannot refuse.
pub fn find(log: &[u8], earlier: u32, later: u32) -> u32
    requires { InOrder log.now earlier later }
    ensures { (xs : List (Record Amounts)) → IsWellFormed log.now xs → result ≡ common_number xs earlier later }
{
    let mut numbers = [0u32; 64];
    let mut s = Progress {
        opened: 0,
        shared: 0,
    };
    let mut rest = log;
    // The rest is handed on as a chunk of its own, the form that document 01 asks for, so no iterator goes over the records.
    while s.opened <= later {
        let Some(f) = record::read_first(rest) else {
            return 0;
        };
        s = note(earlier, f, s, &mut numbers);
        rest = &rest[f.length as usize..];
    }
    let deepest = s.shared - 1;
    numbers[deepest as usize]
}
