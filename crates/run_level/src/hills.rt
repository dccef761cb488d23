// The pieces of a row that is let through.
ghost use Rattle.std.specs.Prelude.{◌≡◌, ◌<◌};
ghost use Rattle.run_level.specs.Levels.{place_in};

use super::Place;
use judge::Numbers;
use row_gate::NO_PEAK;

// The row, the number of its pieces and their mode, where each piece begins, and what is noted of it.
#[derive(Clone, Copy)]
pub struct Hills<'a> {
    pub row: &'a [u8],
    pub count: usize,
    pub mode: u16,
    pub ats: &'a [usize; 64],
    pub notes: &'a [Option<Numbers>; 64],
}

// The place of piece k. A blank starts at 0, and a piece that is no hill has no peak.
pub fn place_of(hills: Hills, k: usize) -> Place
    requires { k < 64 }
    ensures { result ≡ place_in hills.entry.ats.now hills.entry.notes.now k }
{
    let note = hills.notes[k];
    let (start, peak) = match note {
        None => (0, NO_PEAK),
        Some(n) if n.fault.is_some() => (n.start, NO_PEAK),
        Some(n) => (n.start, n.peak),
    };
    Place {
        piece: k,
        at: hills.ats[k],
        start,
        peak,
    }
}
