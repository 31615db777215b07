// The sequence of stages and where a job stops in it: the record of a path; the definitions are in specs/, the laws in proofs/.
#![tactic(auto)]

// The stage that a job has reached, the directions and the sweeps of all its passes, and the nonzero entries and the change of each stage
// from 0 to it; zeros after it.
#[derive(Drop)]
pub struct Path {
    pub stage: usize,
    pub directions: usize,
    pub sweeps: usize,
    pub nonzeros: [u64; 9],
    pub change: [f64; 9],
}
