// What one phase of the walk is: its records; the definitions are in specs/, the laws in proofs/.
#![tactic(auto)]

use draw::SplitMix64;

// Where a walk stands: how many vectors the basis has, how many coordinates froze in this phase, and the generator.
#[derive(Clone, Copy)]
pub struct Stand {
    pub count: usize,
    pub frozen: usize,
    pub rng: SplitMix64,
}

// Where the walk stands after a phase, and how many directions the phase drew.
#[derive(Clone, Copy)]
pub struct Phased {
    pub at: Stand,
    pub directions: usize,
}
