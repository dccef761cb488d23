// The lines of a plan, from the levels of a row: a scan that keeps a running minimum of the peaks passed.
ghost use Rattle.std.specs.Prelude.{◌≡◌, ◌+◌, ◌≤◌, ◌<◌, length};
ghost use Rattle.join_plan.specs.Scan.{plan as scanned};
ghost use Rattle.row_plan.specs.Arrays.{levels_at, hill_levels, open_depths, DepthsNoted, Kept, line_within, lines_to_at};

use super::Line;
use judge::Numbers;
use row_gate::NO_PEAK;

// The depths that a chunk leaves open: from its peak to below its end. One that is no hill leaves none, and has its peak above all levels.
#[derive(Clone, Copy, Debug, PartialEq, Eq)]
struct OpenDepths {
    peak: u8,
    end: u8,
}

const NO_DEPTHS: OpenDepths = OpenDepths {
    peak: NO_PEAK,
    end: 0,
};

// The line of chunks i and j is put behind n others, if there is a depth from `low` to below `top`.
fn keep(lines: &mut [Line; 128], n: usize, i: usize, j: usize, low: u8, top: u8) -> usize
    requires i_bound { (i < 64) × (j < 64) }
    requires top_bound { n + length (line_within i j low top) ≤ 128 }
    ensures { Kept (line_within i j low top) n lines.old result lines.new }
{
    if low < top {
        lines[n] = Line {
            i: i as u8,
            j: j as u8,
            low,
            high: top - 1,
        };
        return n + 1;
    }
    n
}

// The numbers of a chunk that is a hill.
fn hill_at(notes: &[Option<Numbers>; 64], k: usize) -> Option<Numbers>
    requires { k < 64 }
    ensures { levels_at notes.now k ≡ hill_levels result }
{
    let note = notes[k]?;
    match note.fault {
        None => Some(note),
        Some(_) => None,
    }
}

// The depths that a chunk of these numbers leaves open.
fn open_depths(hill: Option<Numbers>) -> OpenDepths
    ensures { result ≡ open_depths (hill_levels hill) }
{
    let Some(hill) = hill else {
        return NO_DEPTHS;
    };
    OpenDepths {
        peak: hill.peak,
        end: hill.end,
    }
}

// The lines to chunk j, the nearest chunk first. A chunk that is no hill has none, and lowers no minimum.
fn lines_to(
    notes: &[Option<Numbers>; 64],
    depths: &[OpenDepths; 64],
    j: usize,
    lines: &mut [Line; 128],
    n: usize,
) -> usize
    requires noted { DepthsNoted notes.now depths.now j }
    requires j_bound { j < 64 }
    requires n_bound { n + length (lines_to_at notes.now j) ≤ 128 }
    ensures { Kept (lines_to_at notes.now j) n lines.old result lines.new }
{
    let Some(hill) = hill_at(notes, j) else {
        return n;
    };
    let mut m = hill.start;
    let mut k = n;
    for i in (0..j).rev() {
        let passed = depths[i];
        // Its depths lie above those still open.
        if m < passed.peak {
            continue;
        }
        k = keep(
            lines,
            k,
            i,
            j,
            passed.peak.max(hill.peak),
            passed.end.min(m),
        );
        // No depth is left: the chunks passed close each one from the peak of chunk j on.
        if passed.peak <= hill.peak {
            return k;
        }
        m = passed.peak;
    }
    k
}

// The plan of a row of `count` chunks; the answer is the number of its lines.
pub fn scan(notes: &[Option<Numbers>; 64], count: usize, lines: &mut [Line; 128]) -> usize
    requires count_bound { count ≤ 64 }
    requires count_len_bound { length (scanned (levels_at notes.now) count) ≤ 128 }
    ensures { Kept (scanned (levels_at notes.now) count) 0 lines.old result lines.new }
{
    let mut depths = [NO_DEPTHS; 64];
    let mut n: usize = 0;
    for j in 0..count {
        n = lines_to(notes, &depths, j, lines, n);
        depths[j] = open_depths(hill_at(notes, j));
    }
    n
}
