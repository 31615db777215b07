// One more pass, tried: the record of what it answers; the definitions are in specs/, the laws in proofs/.
#![tactic(auto)]

use colored::Counted;

// How a try of one more pass ended: its weights were discarded, or taken as the last ones, or taken with another pass to be tried.
#[derive(Clone, Copy, PartialEq, Eq, Debug)]
pub enum Outcome {
    Discarded,
    Last,
    Onward,
}

// A try of one more pass: the tally with it, what it measured, and how it ended.
#[derive(Clone, Copy)]
pub struct Tried {
    pub tally: Counted,
    pub change: f64,
    pub outcome: Outcome,
}
