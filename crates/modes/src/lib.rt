// What a record holds and the numbers of a run, as they are stored; the operations of the four modes and their laws.
#![tactic(auto)]

// What a record holds, in a mode where "nothing held" is no number: an enum of its own, and no Option, since document 01 names the form.
#[derive(Clone, Copy, Debug, PartialEq, Eq)]
pub enum Held {
    Nothing,
    Figure(i64),
}

// The numbers of a run, as they are stored; the fourth is 0 but in mode 5.
#[derive(Clone, Copy, Debug, PartialEq, Eq)]
pub struct Run {
    pub first: i64,
    pub second: i64,
    pub third: i64,
    pub fourth: i64,
}
