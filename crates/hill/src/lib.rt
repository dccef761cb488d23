#![tactic(auto)]

// Hills, logs, trees and summaries: pure theory, generic over the operation. It all stands in specs/.
