#![tactic(auto)]

// The join plan of a row of chunks, from their levels and by their records: pure theory. It all stands in specs/.
