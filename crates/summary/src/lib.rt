#![tactic(auto)]

// The bytes of a summary, question 5 on them, and what summarise, merge and finish come to: theory. It all stands in specs/.
