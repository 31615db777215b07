// A phase on the free columns: the definitions are in specs/, the laws in proofs/. Nothing here runs.
#![tactic(auto)]
