// Replays an archive of 37 jobs: number, stage, nonzero entries, change, directions, sweeps, path and weights of each, doubles in
// hexadecimal. The file stdout holds what the original answers for them, but for the last, whose allowance is infinite and which is
// refused. Entries and weights are made by the generator from the job's seed.
#![tactic(auto)]

ghost use Rattle.std.specs.Prelude.{◌≤◌};

use answers::Answer;
use draw::SplitMix64;
use report::{print_answer, print_path, print_totals, print_weights, put};
use rules::Rule;
use sparsification::{sparsify, sparsify_within};
use std::io;
use std::io::Write;

// How the entries of a job are made.
#[derive(Clone, Copy)]
enum Entries {
    Signs,
    Between,
    Sparse,
    Ones,
    Quarters,
}

impl Entries {
    // An entry, from a uniform: one or minus one, in [-1, 1], mostly 0, always 1, or a multiple of 1/4.
    fn made_of(self, u: f64) -> f64 {
        match self {
            Entries::Signs => if u < 0.5 { 1.0 } else { -1.0 },
            Entries::Between => 2.0 * u - 1.0,
            Entries::Sparse => if u < 0.05 {
                1.0
            } else if u < 0.1 {
                -1.0
            } else {
                0.0
            },
            Entries::Ones => 1.0,
            Entries::Quarters => if u < 0.25 {
                0.25
            } else if u < 0.5 {
                -0.75
            } else {
                1.0
            },
        }
    }
}

// How the weights of a job are made.
#[derive(Clone, Copy)]
enum Weights {
    Equal,
    Positive,
    Signed,
    FarApart,
    ManySizes,
    OftenZero,
}

impl Weights {
    // A weight, from a uniform: always 1, in [0, 1], of either sign, 4 or the smallest subnormal, spread over many sizes, or often 0.
    fn made_of(self, u: f64) -> f64 {
        match self {
            Weights::Equal => 1.0,
            Weights::Positive => u,
            Weights::Signed => u - 0.4,
            Weights::FarApart => if u < 0.5 { 4.0 } else { 5e-324 },
            Weights::ManySizes => u * u * u * u * u * u,
            Weights::OftenZero => if u < 0.5 { 0.0 } else { u },
        }
    }
}

// A job of the archive: its sizes, its entries and weights, and its rule.
#[derive(Clone, Copy)]
struct Kept {
    m: usize,
    n: usize,
    entries: Entries,
    weights: Weights,
    rule: Rule,
}

// A job that thins to a target.
fn to(target: usize, m: usize, n: usize, entries: Entries, weights: Weights) -> Kept {
    Kept {
        m,
        n,
        entries,
        weights,
        rule: Rule::Target(target),
    }
}

// A job that thins within an allowance, with a cap or without.
fn within(
    allowance: f64,
    cap: Option<usize>,
    m: usize,
    n: usize,
    entries: Entries,
    weights: Weights,
) -> Kept {
    Kept {
        m,
        n,
        entries,
        weights,
        rule: Rule::Within { allowance, cap },
    }
}

// The jobs, in the order of their seeds.
fn archive() -> [Kept; 37] {
    [
        to(1, 2, 2, Entries::Signs, Weights::Equal),
        to(1, 3, 5, Entries::Signs, Weights::Positive),
        to(2, 4, 3, Entries::Between, Weights::Equal),
        to(2, 5, 1, Entries::Between, Weights::Signed),
        to(4, 8, 16, Entries::Signs, Weights::Equal),
        to(3, 8, 16, Entries::Between, Weights::Positive),
        to(4, 9, 40, Entries::Sparse, Weights::Equal),
        to(5, 12, 7, Entries::Ones, Weights::ManySizes),
        to(4, 16, 64, Entries::Quarters, Weights::Positive),
        to(6, 24, 30, Entries::Signs, Weights::Signed),
        to(4, 32, 64, Entries::Signs, Weights::Equal),
        to(4, 32, 64, Entries::Between, Weights::Signed),
        to(1, 40, 50, Entries::Sparse, Weights::Positive),
        to(4, 60, 100, Entries::Signs, Weights::Equal),
        to(4, 60, 120, Entries::Between, Weights::Positive),
        to(10, 60, 80, Entries::Quarters, Weights::Signed),
        to(2, 7, 9, Entries::Signs, Weights::FarApart),
        to(3, 20, 20, Entries::Between, Weights::OftenZero),
        within(0.5, None, 2, 2, Entries::Signs, Weights::Equal),
        within(0.0, None, 6, 6, Entries::Signs, Weights::Equal),
        within(0.25, None, 8, 16, Entries::Signs, Weights::Positive),
        within(
            1.7976931348623157e308,
            None,
            8,
            16,
            Entries::Between,
            Weights::Signed,
        ),
        within(0.3, None, 16, 20, Entries::Signs, Weights::Equal),
        within(0.1, Some(5), 16, 20, Entries::Between, Weights::Positive),
        within(0.2, None, 24, 30, Entries::Sparse, Weights::Equal),
        within(0.05, Some(3), 24, 30, Entries::Signs, Weights::Signed),
        within(0.3, None, 32, 64, Entries::Signs, Weights::Equal),
        within(0.25, Some(8), 32, 64, Entries::Between, Weights::Positive),
        within(0.4, Some(1), 32, 10, Entries::Quarters, Weights::Signed),
        within(0.15, None, 40, 50, Entries::Signs, Weights::ManySizes),
        within(0.3, None, 60, 100, Entries::Signs, Weights::Equal),
        within(0.2, None, 60, 120, Entries::Between, Weights::Signed),
        within(0.0, Some(2), 60, 60, Entries::Sparse, Weights::Positive),
        within(0.0, None, 12, 12, Entries::Ones, Weights::Equal),
        within(0.1, None, 7, 9, Entries::Signs, Weights::FarApart),
        within(-0.0, Some(40), 20, 20, Entries::Between, Weights::OftenZero),
        within(
            f64::INFINITY,
            None,
            8,
            16,
            Entries::Between,
            Weights::Signed,
        ),
    ]
}

// An answer, its totals, its path and its weights.
fn show<W: Write>(out: &mut W, a: &Answer, output: &[f64]) -> io::Result<()> {
    print_answer(out, a)?;
    print_totals(out, a)?;
    print_path(out, a)?;
    print_weights(out, output)?;
    put(out, b"\n")
}

// One job of the archive: makes its entries and its weights, and answers it.
fn replay<W: Write>(out: &mut W, job: Kept, seed: u64) -> io::Result<()> {
    if job.m > 64 {
        return Ok(());
    }
    if job.n > 128 {
        return Ok(());
    }
    let size = job.m * job.n;
    let mut matrix = [0.0f64; 8192];
    let mut weights = [0.0f64; 64];
    let mut rng = SplitMix64::new(seed, 1);
    for x in matrix[..size].iter_mut() {
        *x = job.entries.made_of(rng.uniform());
    }
    for x in weights[..job.m].iter_mut() {
        *x = job.weights.made_of(rng.uniform());
    }
    answer(out, &matrix[..size], &weights[..job.m], job, seed)
}

// Thins by a target or within an allowance, and shows what comes of it.
fn answer<W: Write>(
    out: &mut W,
    matrix: &[f64],
    weights: &[f64],
    job: Kept,
    seed: u64,
) -> io::Result<()>
    requires { job.m ≤ 64 }
{
    let mut output = [0.0f64; 64];
    let mut numbers = [0.0f64; 14000];
    let mut indices = [0u32; 2048];
    let kept = &mut output[..job.m];
    let a = match job.rule {
        Rule::Target(target) => sparsify(
            matrix,
            job.m,
            job.n,
            weights,
            seed,
            1,
            target,
            &mut kept[..],
            &mut numbers[..],
            &mut indices[..],
        ),
        Rule::Within { allowance, cap } => sparsify_within(
            matrix,
            job.m,
            job.n,
            weights,
            seed,
            1,
            allowance,
            cap,
            &mut kept[..],
            &mut numbers[..],
            &mut indices[..],
        ),
    };
    show(out, &a, &kept[..])
}

fn main(rt: HostRuntime) -> io::Result<()> {
    let mut out = rt.stdout();
    for (k, job) in archive().iter().enumerate() {
        replay(&mut out, *job, k as u64)?;
    }
    Ok(())
}
