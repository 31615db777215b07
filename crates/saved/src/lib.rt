// What is saved of a damaged sheet: that it is of the form, stands in what was read, and is all of a good sheet; the laws are in proofs/.
// Nothing here runs.
#![tactic(auto)]
