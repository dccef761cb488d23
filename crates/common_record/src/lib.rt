#![tactic(auto)]

// The record that two records of a whole log have in common: theory. It all stands in specs/.
