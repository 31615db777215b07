// No answer turns on the sign of a row or on the zero that a sum starts from: the laws are in proofs/. Nothing here runs.
#![tactic(auto)]
