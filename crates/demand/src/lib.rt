// Demand 3, and what one job keeps: the definitions are in specs/, the laws in proofs/. Nothing here runs.
#![tactic(auto)]
