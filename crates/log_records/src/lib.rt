#![tactic(auto)]

// Records of a whole log by their numbers, and those behind the heaviest line: theory. It all stands in specs/.
