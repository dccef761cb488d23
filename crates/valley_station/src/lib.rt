#![tactic(auto)]

// A valley station that serves eight farms: document 02, L11. The definitions and what is claimed of them stand in specs/.
