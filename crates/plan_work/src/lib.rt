#![tactic(auto)]

// The work along a join plan, and that it gives the figure of the merged row: pure theory. It all stands in specs/.
