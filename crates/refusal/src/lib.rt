// Why a call is refused, and the number by which the documents name each reason. It is the error of every test of a call's arguments: the
// first test that fails ends the call by `?`, so the order of the tests is the order of the refusals.
#![tactic(auto)]

ghost use Rattle.std.specs.Prelude.{◌≡◌};
ghost use Rattle.refusal.specs.Refusals.{number_of, number_in};

// The reasons, in the order of the tests.
#[derive(Clone, Copy, Debug, PartialEq, Eq)]
pub enum Refusal {
    // The allowance is negative or a NaN.
    Allowance,
    // The allowance is infinite.
    InfiniteAllowance,
    // The target or the cap is 0.
    Zero,
    // The edition is neither 1 nor 2.
    Edition,
    // More than 256 columns or 4096 rows, or more than 64 items.
    Size,
    // A list has another length than the sizes say.
    Length,
    // No column or no row.
    Empty,
    // A scratch is too short.
    Scratch,
    // A label is neither 1 nor -1.
    Label,
    // A spare bit is set.
    SpareBit,
    // An entry is not in [-1, 1].
    Entry,
    // A weight or a threshold is not finite.
    Weight,
    // The sum of the weights' magnitudes is 0 or infinite.
    Sum,
    // An entry of a colouring is not finite or above 2^32 in magnitude.
    ColoringEntry,
    // A buffer is shorter than the text that is to be written to it.
    Buffer,
}

impl Refusal {
    // The number of the documents.
    pub fn number(self) -> u64
        ensures { result ≡ number_of self }
    {
        match self {
            Refusal::Allowance => 1,
            Refusal::InfiniteAllowance => 12,
            Refusal::Zero => 2,
            Refusal::Edition => 13,
            Refusal::Size => 3,
            Refusal::Length => 4,
            Refusal::Empty => 5,
            Refusal::Scratch => 6,
            Refusal::Label => 14,
            Refusal::SpareBit => 15,
            Refusal::Entry => 7,
            Refusal::Weight => 8,
            Refusal::Sum => 9,
            Refusal::ColoringEntry => 11,
            Refusal::Buffer => 16,
        }
    }
}

// The number that a test answers over the C interface: 0 where nothing is refused.
pub fn number_in(tested: Result<(), Refusal>) -> u64
    ensures { result ≡ number_in tested }
{
    match tested {
        Ok(()) => 0,
        Err(refusal) => refusal.number(),
    }
}
