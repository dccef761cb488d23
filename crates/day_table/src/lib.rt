#![tactic(auto)]

// The day table and the log that it stands for: theory. It all stands in specs/.
