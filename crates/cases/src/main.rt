// Runs the worked cases of document 01 that are not proved in one table, and some jobs that the generator makes. A line holds the case,
// what is asked, then of a thinning the number, the stage, the nonzero entries and the change, and at its end what document 01 expects.
#![tactic(auto)]

ghost use Rattle.std.specs.Prelude.{◌≤◌, ◌*◌, length};

use discrepancy::discrepancy_coloring;
use draw::SplitMix64;
use report::{print_answer, print_bits, print_count, print_weights, put, tab};
use sparsification::{sparsify, sparsify_within};
use std::io;
use std::io::Write;

// The end of a line: what document 01 expects.
fn expect<W: Write>(out: &mut W, text: &[u8]) -> io::Result<()> {
    put(out, b"\texpected ")?;
    put(out, text)?;
    put(out, b"\n")
}

// Thins to a target, and prints the answer.
fn thin_to<W: Write>(
    out: &mut W,
    matrix: &[f64],
    m: usize,
    n: usize,
    weights: &[f64],
    seed: u64,
    target: usize,
    output: &mut [f64],
) -> io::Result<()> {
    let mut numbers = [0.0f64; 14000];
    let mut indices = [0u32; 1024];
    let a = sparsify(
        matrix,
        m,
        n,
        weights,
        seed,
        1,
        target,
        output,
        &mut numbers[..],
        &mut indices[..],
    );
    print_answer(out, &a)
}

// Thins within an allowance, and prints the answer.
fn thin_within<W: Write>(
    out: &mut W,
    matrix: &[f64],
    m: usize,
    n: usize,
    weights: &[f64],
    seed: u64,
    allowance: f64,
    output: &mut [f64],
) -> io::Result<()> {
    let mut numbers = [0.0f64; 14000];
    let mut indices = [0u32; 1024];
    let a = sparsify_within(
        matrix,
        m,
        n,
        weights,
        seed,
        1,
        allowance,
        None,
        output,
        &mut numbers[..],
        &mut indices[..],
    );
    print_answer(out, &a)
}

// C8: a support of 2, 3 or 4 after one pass, with the weights that are left.
fn alone<W: Write>(out: &mut W, weights: &[f64], support: u64, expected: &[u8]) -> io::Result<()>
    requires { length weights.now ≤ 6 }
{
    let matrix = [
        1.0f64, 1.0, 1.0, -1.0, -0.5, 0.25, 0.75, 0.0, 1.0, -0.25, -1.0, -1.0,
    ];
    let mut output = [0.0f64; 6];
    let m = weights.len();
    alone_on(
        out,
        &matrix[..2 * m],
        weights,
        support,
        expected,
        &mut output[..m],
    )
}

fn alone_on<W: Write>(
    out: &mut W,
    matrix: &[f64],
    weights: &[f64],
    support: u64,
    expected: &[u8],
    output: &mut [f64],
) -> io::Result<()> {
    put(out, b"C8\tsupport ")?;
    print_count(out, support)?;
    put(out, b", one pass\t")?;
    thin_to(
        out,
        matrix,
        weights.len(),
        2,
        weights,
        support,
        1,
        &mut output[..],
    )?;
    print_weights(out, &output[..])?;
    expect(out, expected)
}

fn supports_of_2<W: Write>(out: &mut W) -> io::Result<()> {
    alone(out, &[1.0f64, 3.0][..], 2, b"0 1 of 1 3")?;
    alone(out, &[-3.0f64, 1.0][..], 2, b"-1 0 of -3 1")?;
    alone(
        out,
        &[0.0f64, 2.0, -2.0][..],
        2,
        b"0 1 0 of 0 2 -2, the first of equal ones",
    )
}

fn supports_of_3<W: Write>(out: &mut W) -> io::Result<()> {
    alone(out, &[0.5f64, 0.25, -4.0][..], 3, b"0 0 -1 of 0.5 0.25 -4")?;
    alone(
        out,
        &[1.0f64, -2.0, 2.0][..],
        3,
        b"0 -1 0 of 1 -2 2, the first of equal ones",
    )
}

fn supports_of_4<W: Write>(out: &mut W) -> io::Result<()> {
    alone(
        out,
        &[1.0f64, 1.0, 1.0, 1.0][..],
        4,
        b"1 0 0 0 of 1 1 1 1, the first of equal ones",
    )?;
    alone(
        out,
        &[-5.0f64, 2.0, 3.0, -1.0][..],
        4,
        b"-1 0 0 0 of -5 2 3 -1",
    )?;
    alone(
        out,
        &[0.0f64, 0.125, 0.0, -7.0, 7.0, 2.0][..],
        4,
        b"0 0 0 -1 0 0 of 0 0.125 0 -7 7 2, the first of equal ones",
    )
}

// Entries or weights in [-1, 1].
fn fill(a: &mut [f64], rng: &mut SplitMix64) {
    for x in a.iter_mut() {
        *x = 2.0 * rng.uniform() - 1.0;
    }
}

// C9: a support of 100 and target 99.
fn hundred<W: Write>(out: &mut W, seed: u64) -> io::Result<()> {
    let mut matrix = [0.0f64; 400];
    let mut weights = [0.0f64; 100];
    let mut output = [0.0f64; 100];
    let mut rng = SplitMix64::new(seed, 1);
    fill(&mut matrix[..], &mut rng);
    fill(&mut weights[..], &mut rng);
    put(out, b"C9\tsupport 100, target 99, seed ")?;
    print_count(out, seed)?;
    tab(out)?;
    thin_to(
        out,
        &matrix[..],
        100,
        4,
        &weights[..],
        seed,
        99,
        &mut output[..],
    )?;
    expect(out, b"at most 49 nonzeros")
}

// A colour, by its sign.
fn put_colour<W: Write>(out: &mut W, c: i8) -> io::Result<()> {
    if c > 0 {
        put(out, b"+")
    } else {
        put(out, b"-")
    }
}

// C13: the columns (1, -0.5, 0.25) twice; the number, and the two colours.
fn equal_columns<W: Write>(out: &mut W, seed: u64) -> io::Result<()> {
    let matrix = [1.0f64, -0.5, 0.25, 1.0, -0.5, 0.25];
    let mut colours = [0i8; 2];
    let mut numbers = [0.0f64; 76];
    let mut indices = [0u32; 48];
    let answer = discrepancy_coloring(
        &matrix[..],
        2,
        3,
        seed,
        &mut colours[..],
        &mut numbers[..],
        &mut indices[..],
    );
    put(out, b"C13\ttwo equal columns, seed ")?;
    print_count(out, seed)?;
    tab(out)?;
    print_count(out, answer.number)?;
    tab(out)?;
    put_colour(out, colours[0])?;
    put_colour(out, colours[1])?;
    expect(out, b"opposite colours")
}

// R-10: one column, and a seed whose first output is all ones, so that the first Gaussian is a zero and its direction is broken off; the
// number, the directions and the sweeps.
fn broken_off<W: Write>(out: &mut W) -> io::Result<()> {
    let matrix = [1.0f64, -0.5, 0.25];
    let mut colours = [0i8; 1];
    let mut numbers = [0.0f64; 53];
    let mut indices = [0u32; 40];
    let answer = discrepancy_coloring(
        &matrix[..],
        1,
        3,
        0x3162_8AF6_7B21_31AB,
        &mut colours[..],
        &mut numbers[..],
        &mut indices[..],
    );
    put(out, b"R-10\tone column, a first Gaussian of 0\t")?;
    print_count(out, answer.number)?;
    tab(out)?;
    print_count(out, answer.directions)?;
    tab(out)?;
    print_count(out, answer.sweeps)?;
    expect(out, b"one direction, broken off, and one sweep")
}

// C15: one column too many.
fn too_many_columns<W: Write>(out: &mut W) -> io::Result<()> {
    let matrix = [1.0f64; 257];
    let weights = [1.0f64; 257];
    let mut output = [0.0f64; 257];
    put(out, b"C15\t257 columns\t")?;
    thin_to(
        out,
        &matrix[..],
        257,
        1,
        &weights[..],
        0,
        1,
        &mut output[..],
    )?;
    expect(out, b"number 3")
}

// C15: as many columns as there may be, with room for them; two weights are not 0.
fn most_columns<W: Write>(out: &mut W) -> io::Result<()> {
    let matrix = [1.0f64; 256];
    let mut weights = [0.0f64; 256];
    let mut output = [0.0f64; 256];
    let mut numbers = [0.0f64; 70160];
    let mut indices = [0u32; 2064];
    weights[3] = 1.0;
    weights[200] = -2.0;
    put(out, b"C15\t256 columns with room\t")?;
    let a = sparsify(
        &matrix[..],
        256,
        1,
        &weights[..],
        0,
        1,
        1,
        &mut output[..],
        &mut numbers[..],
        &mut indices[..],
    );
    print_answer(out, &a)?;
    expect(out, b"another number than 3")
}

// A job that the generator makes from a seed, by a target and within an allowance.
fn random<W: Write>(
    out: &mut W,
    m: usize,
    n: usize,
    seed: u64,
    target: usize,
    allowance: f64,
) -> io::Result<()>
    requires { (m ≤ 16) × (m * n ≤ 256) }
{
    let mut matrix = [0.0f64; 256];
    let mut weights = [0.0f64; 16];
    let size = m * n;
    random_by(
        out,
        &mut matrix[..size],
        m,
        n,
        &mut weights[..m],
        seed,
        target,
        allowance,
    )
}

fn random_by<W: Write>(
    out: &mut W,
    matrix: &mut [f64],
    m: usize,
    n: usize,
    weights: &mut [f64],
    seed: u64,
    target: usize,
    allowance: f64,
) -> io::Result<()>
    requires { m ≤ 16 }
{
    let mut rng = SplitMix64::new(seed, 1);
    fill(&mut matrix[..], &mut rng);
    fill(&mut weights[..], &mut rng);
    by_target(out, &matrix[..], m, n, &weights[..], seed, target)?;
    by_allowance(out, &matrix[..], m, n, &weights[..], seed, allowance)
}

fn by_target<W: Write>(
    out: &mut W,
    matrix: &[f64],
    m: usize,
    n: usize,
    weights: &[f64],
    seed: u64,
    target: usize,
) -> io::Result<()>
    requires { m ≤ 16 }
{
    let mut output = [0.0f64; 16];
    random_heading(out, m, n, seed)?;
    put(out, b"target ")?;
    print_count(out, target as u64)?;
    tab(out)?;
    thin_to(out, matrix, m, n, weights, seed, target, &mut output[..m])?;
    expect(out, b"no more nonzeros than the target")
}

fn by_allowance<W: Write>(
    out: &mut W,
    matrix: &[f64],
    m: usize,
    n: usize,
    weights: &[f64],
    seed: u64,
    allowance: f64,
) -> io::Result<()>
    requires { m ≤ 16 }
{
    let mut output = [0.0f64; 16];
    random_heading(out, m, n, seed)?;
    put(out, b"within ")?;
    print_bits(out, allowance)?;
    tab(out)?;
    thin_within(
        out,
        matrix,
        m,
        n,
        weights,
        seed,
        allowance,
        &mut output[..m],
    )?;
    expect(out, b"no more change than the allowance")
}

fn random_heading<W: Write>(out: &mut W, m: usize, n: usize, seed: u64) -> io::Result<()> {
    put(out, b"random\t")?;
    print_count(out, m as u64)?;
    put(out, b"x")?;
    print_count(out, n as u64)?;
    put(out, b", seed ")?;
    print_count(out, seed)?;
    put(out, b", ")
}

fn random_jobs<W: Write>(out: &mut W) -> io::Result<()> {
    random(out, 3, 5, 1, 1, 0.5)?;
    random(out, 8, 16, 2, 3, 0.25)?;
    random(out, 12, 7, 3, 4, 0.75)?;
    random(out, 16, 16, 4, 2, 0.3125)?;
    random(out, 16, 1, 5, 8, 0.0)
}

fn hundreds<W: Write>(out: &mut W) -> io::Result<()> {
    hundred(out, 0)?;
    hundred(out, 1)?;
    hundred(out, 2)
}

fn seeded<W: Write>(out: &mut W) -> io::Result<()> {
    for seed in 0..8u64 {
        equal_columns(out, seed)?;
    }
    Ok(())
}

fn main(rt: HostRuntime) -> io::Result<()> {
    let mut out = rt.stdout();
    let out = &mut out;
    put(out, b"case\tasked\tnumber\tstage\tnonzeros\tchange\n")?;
    supports_of_2(out)?;
    supports_of_3(out)?;
    supports_of_4(out)?;
    hundreds(out)?;
    seeded(out)?;
    broken_off(out)?;
    too_many_columns(out)?;
    most_columns(out)?;
    random_jobs(out)
}
