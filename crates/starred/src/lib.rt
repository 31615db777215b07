// The starred cases of document 01, each for every seed and edition: the table is in specs/, that it holds in proofs/.
// Nothing here runs.
#![tactic(auto)]
