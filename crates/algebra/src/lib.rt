#![tactic(auto)]

// The operation that a tree is folded by, and runs of nested levels: pure theory. It all stands in specs/.
