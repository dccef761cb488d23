#![tactic(auto)]

// What the bytes of a chunk say: its records, and the gate on a whole log: theory. It all stands in specs/.
