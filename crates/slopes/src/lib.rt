// A hill under construction, its slopes in arrays and three numbers beside them, in any mode: what summarising, merging, the day's figures and the sheet share.
#![tactic(auto)]

ghost use Rattle.std.specs.Prelude.{◌≡◌, ℕ, ◌+◌, ◌<◌, ℤ};
ghost use Rattle.hill.specs.Building.{close as closeHill, step};
ghost use Rattle.figure.specs.Mode.{mode_of};
ghost use Rattle.figure.specs.Stored.{amounts};
ghost use Rattle.slopes.specs.Arrays.{slopes_of, weight_of, Able, StandsFor};
ghost use Rattle.slopes.specs.Kept.{arrays_of};
ghost use Rattle.slopes.specs.Actions.{Adds, Added, CanClose, Room, entry, cost};
ghost use Rattle.slopes.specs.Steps.{Pushed, TopOf, figure_at, ClosedAt, put_at};

// The amounts of the open records, by how many others are open below each.
#[derive(Clone, Copy, Debug, PartialEq, Eq)]
pub struct OpenAmounts {
    pub values: [i32; 64],
    pub floors: [i32; 64],
    pub ceilings: [i32; 64],
}

// The slopes of a hill: its left values, and of each unclosed record its amounts and held figures so far.
#[derive(Clone, Copy, Debug, PartialEq, Eq)]
pub struct Slopes {
    pub left: [i64; 64],
    pub amounts: OpenAmounts,
    pub held: [i64; 64],
}

// How many left values and unclosed records the slopes hold, and the middle value. They stand beside the arrays, so that a pass keeps them in registers.
#[derive(Clone, Copy, Debug, PartialEq, Eq)]
pub struct Counts {
    pub nl: usize,
    pub n: usize,
    pub mid: i64,
}

// Where a pass begins.
pub const NO_AMOUNTS: OpenAmounts = OpenAmounts {
    values: [0; 64],
    floors: [0; 64],
    ceilings: [0; 64],
};

pub const NO_SLOPES: Slopes = Slopes {
    left: [0; 64],
    amounts: NO_AMOUNTS,
    held: [0; 64],
};

impl OpenAmounts {
    // The amounts of the record on top of n others.
    pub fn put(&mut self, n: usize, value: i32, floor: i32, ceiling: i32)
        requires { n < 64 }
        ensures { self.new ≡ put_at self.old n value floor ceiling }
    {
        self.values[n] = value;
        self.floors[n] = floor;
        self.ceilings[n] = ceiling;
    }

    // The figure of the deepest record, at index `top`.
    pub fn top_figure(&self, mode: u16, top: usize, held: &[i64; 64]) -> i64
        requires { (mid : ℤ) × TopOf (mode_of mode) self.now held.now top mid }
        ensures { result ≡ figure_at (mode_of mode) self.now held.now top }
    {
        figure::through(
            mode,
            self.values[top],
            self.floors[top],
            self.ceilings[top],
            held[top],
        )
    }

    // The deepest record, at index `top`, is closed: its figure joins the level below. The middle value is answered.
    pub fn close_top(&self, mode: u16, top: usize, held: &mut [i64; 64], mid: i64) -> i64
        requires { TopOf (mode_of mode) self.now held.old top mid }
        ensures { ClosedAt (mode_of mode) self.now held.old top mid held.new result }
    {
        let figure = self.top_figure(mode, top, &*held);
        add(mode, held, top, mid, figure)
    }
}

// A figure joins the current level: the deepest record's, or else the middle, which is answered.
pub fn add(mode: u16, held: &mut [i64; 64], n: usize, mid: i64, x: i64) -> i64
    requires { Adds (mode_of mode) held.old n mid x }
    ensures { Added (mode_of mode) held.old n mid x held.new result }
{
    if n == 0 {
        return figure::combine(mode, mid, x);
    }
    let top = n - 1;
    held[top] = figure::combine(mode, held[top], x);
    mid
}

impl Slopes {
    // A record is put on top of n others, with what it holds so far.
    pub fn push(&mut self, n: usize, value: i32, floor: i32, ceiling: i32, h: i64)
        requires { n < 64 }
        ensures { Pushed n value floor ceiling h self.old self.new }
    {
        self.amounts.put(n, value, floor, ceiling);
        self.held[n] = h;
    }

    // The deepest record is closed; where none is open, the level is left and its value with it.
    fn close(&mut self, mode: u16, c: Counts) -> Counts
        requires able { Able (mode_of mode) (arrays_of self.old) c }
        requires can_close { CanClose c }
        ensures { StandsFor (mode_of mode) (arrays_of self.new) result
            (closeHill (mode_of mode).algebra (slopes_of (mode_of mode) (arrays_of self.old) c))
            (weight_of (mode_of mode) (slopes_of (mode_of mode) (arrays_of self.old) c)) }
    {
        if c.n == 0 {
            self.left[c.nl] = c.mid;
            return Counts {
                nl: c.nl + 1,
                n: c.n,
                mid: figure::nothing(mode),
            };
        }
        let top = c.n - 1;
        let mid = self.amounts.close_top(mode, top, &mut self.held, c.mid);
        Counts { n: top, mid, ..c }
    }

    // One record of a chunk, an open with its numbers or a close.
    pub fn apply(
        &mut self,
        mode: u16,
        opens: bool,
        value: i32,
        floor: i32,
        ceiling: i32,
        c: Counts,
    ) -> Counts
        requires able { Able (mode_of mode) (arrays_of self.old) c }
        requires room { Room opens (amounts value floor ceiling) c }
        ensures { (depth : ℕ) → StandsFor (mode_of mode) (arrays_of self.new) result
            (step (mode_of mode).algebra (slopes_of (mode_of mode) (arrays_of self.old) c)
            (entry opens depth (amounts value floor ceiling)))
            (weight_of (mode_of mode) (slopes_of (mode_of mode) (arrays_of self.old) c) + cost (mode_of mode) opens) }
    {
        if opens {
            self.push(c.n, value, floor, ceiling, figure::nothing(mode));
            return Counts { n: c.n + 1, ..c };
        }
        self.close(mode, c)
    }
}
