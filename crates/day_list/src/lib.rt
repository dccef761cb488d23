#![tactic(auto)]

// All small days, the list of their logs: theory. It all stands in specs/.
