// Every step gets somewhere: the laws of a single step are in proofs/. Nothing here runs.
#![tactic(auto)]
