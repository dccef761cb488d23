// The join plan of a row, in an array, and the levels that it folds.
#![tactic(auto)]

pub mod levels;
pub mod scan;

// A line of the plan: chunks i and j, and the lowest and highest depth that they join at.
#[derive(Clone, Copy, Debug, Default, PartialEq, Eq)]
pub struct Line {
    pub i: u8,
    pub j: u8,
    pub low: u8,
    pub high: u8,
}
