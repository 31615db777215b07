// One pass: the definitions are in specs/, the laws in proofs/. Nothing here runs.
#![tactic(auto)]
