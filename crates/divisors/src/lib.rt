// The divisors of the two series, in one table that both read, and so in a crate below both.
#![tactic(auto)]

ghost use Rattle.std.specs.Prelude.{◌≡◌, ◌<◌};
ghost use Rattle.divisors.specs.Divisors.{divisor_at};

// The series' divisors: (2k + 1)(2k + 2) for k below 20, by which the cosine's terms are divided, and then the odd numbers
// to 33, by which the logarithm's powers are: those by 35 to 41 are below their divisors, and add nothing.
// Each is read at a constant index, so that the compiler knows it.
pub const DIVISORS: [u64; 37] = [
    2, 12, 30, 56, 90, 132, 182, 240, 306, 380, 462, 552, 650, 756, 870, 992, 1122, 1260, 1406,
    1560, 1, 3, 5, 7, 9, 11, 13, 15, 17, 19, 21, 23, 25, 27, 29, 31, 33,
];

// The table's entry k. The series read the table itself; this says of the table, at each index, that it follows the rule.
pub fn divisor_at(k: usize) -> u64
    requires { k < 37 }
    ensures { result ≡ divisor_at k }
{
    DIVISORS[k]
}
