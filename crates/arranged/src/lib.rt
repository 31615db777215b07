// Lists in order: what that means is in specs/, and the laws are in proofs/. Nothing here runs.
#![tactic(auto)]
