// What several jobs on one matrix answer: Answers, and that of a call that is refused.
#![tactic(auto)]

ghost use Rattle.std.specs.Prelude.{◌≡◌};
ghost use Rattle.seq.specs.Lists.{repeated};
ghost use Rattle.answers.specs.Answers.{refusal};

use answers::{Answer, refused};

// The refusal number of the call as a whole or 0, and the answer of each item; zeros past the last.
#[repr(C)]
#[derive(Drop)]
pub struct Answers {
    pub number: u64,
    pub items: [Answer; 64],
}

// No answers: zeros.
pub fn no_answers(number: u64) -> Answers
    ensures { (result.number ≡ number) × (result.items ≡ repeated (refusal 0) 64) }
{
    let none = refused(0);
    Answers {
        number,
        items: [none; 64],
    }
}
