// What a job answers: Answer, the answer at the end of a path, and a refusal.
#![tactic(auto)]

ghost use Rattle.std.specs.Prelude.{◌≡◌, ◌≤◌};
ghost use Rattle.answers.specs.Answers.{refusal};
ghost use Rattle.answers.specs.Thinning.{answer_for};

use stages::Path;

// The refusal number or 0, the stage that is returned, its nonzero entries, and its change from the normalized input; the directions drawn
// and the sweeps made in all passes, in one that was tried and discarded too; then the entries and the change of each stage from 0 to the
// one returned, and zeros after it.
#[repr(C)]
#[derive(Clone, Copy)]
pub struct Answer {
    pub number: u64,
    pub stage: u64,
    pub nonzeros: u64,
    pub change: f64,
    pub directions: u64,
    pub sweeps: u64,
    pub path_nonzeros: [u64; 9],
    pub path_change: [f64; 9],
}

// A refusal: its number, and zeros.
pub fn refused(number: u64) -> Answer
    ensures { result ≡ refusal number }
{
    Answer {
        number,
        stage: 0,
        nonzeros: 0,
        change: 0.0,
        directions: 0,
        sweeps: 0,
        path_nonzeros: [0; 9],
        path_change: [0.0; 9],
    }
}

// The answer for the end of a path.
pub fn answer_for(p: Path) -> Answer
    requires { p.stage ≤ 8 }
    ensures { result ≡ answer_for p }
{
    let last = p.stage;
    Answer {
        number: 0,
        stage: last as u64,
        nonzeros: p.nonzeros[last],
        change: p.change[last],
        directions: p.directions as u64,
        sweeps: p.sweeps as u64,
        path_nonzeros: p.nonzeros,
        path_change: p.change,
    }
}
