// The form of a sheet: the definitions are in specs/, the laws in proofs/. Nothing here runs.
#![tactic(auto)]
