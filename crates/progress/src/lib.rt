// Every step gets somewhere: the laws of the walk, of colourings and of passes are in proofs/. Nothing here runs.
#![tactic(auto)]
