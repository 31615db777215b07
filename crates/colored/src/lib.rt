// What a colouring is: the record of what it counts; the definitions are in specs/, the laws in proofs/.
#![tactic(auto)]

use draw::SplitMix64;

// What a colouring leaves beside the colours: how many directions were drawn, how many sweeps made, and the generator after it.
#[derive(Clone, Copy)]
pub struct Counted {
    pub directions: usize,
    pub sweeps: usize,
    pub rng: SplitMix64,
}
