#![tactic(auto)]

// The sheet with a figure for every record, sixty lines to the page: definitions and laws only.
