#![tactic(auto)]

// Demand 3 and the table of proved cases: theorems about what the calls come to. It all stands in specs/.
