#![tactic(auto)]

// Which bytes are a run, and the way back through it: theory. It all stands in specs/.
