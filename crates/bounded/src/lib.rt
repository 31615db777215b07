// No projection makes a vector longer but for rounding: the laws are in proofs/. Nothing here runs.
#![tactic(auto)]
