// The calls of another right side, in the plain and the shared form: questions 1, 2, 5 and 6, then 15 and 13. They write x and scratch only.
#![tactic(auto)]

ghost use Rattle.std.specs.Prelude.{◌≡◌, [], length};
ghost use Rattle.base.specs.All.{all};
ghost use Rattle.matrix.specs.Input.{input_of};
ghost use Rattle.outcome.specs.Buffers.{side_buffers, right_tests};
ghost use Rattle.outcome.specs.Calls.{ResolvesPlain, ResolvesShared};
ghost use Rattle.stages.specs.Shaped.{side_of};
ghost use Rattle.resolve.specs.Again.{again_shape, AgainAsking, AgainReady, Again};

use base::{Form, Index, Refusal, SideSizes, Sizes};
use matrix::Matrix;

// ---- questions 1, 2, 5 and 6

// Gives the lengths of what a side is lent.
fn side_sizes(starts: &[u32], runs: usize, index: &[Index], values: &[f64]) -> SideSizes
    ensures { result ≡ side_of (length starts.now) runs (length index.now) (length values.now) }
{
    SideSizes {
        starts: starts.len(),
        runs,
        index: index.len(),
        values: values.len(),
    }
}

// Tells whether the orders and b are as long as stated.
fn right_fits(n: usize, r: &[Index], c: &[Index], b: &[f64]) -> bool
    ensures { result ≡ all (right_tests (input_of n [] [] [] r.now c.now b.now)) }
{
    (r.len() == n) & (c.len() == n) & (b.len() == n)
}

// Asks 1 and 2, with `sizes` for all other buffers.
fn ask_shape(
    form: Form,
    n: usize,
    r: &[Index],
    c: &[Index],
    b: &[f64],
    sizes: Sizes,
) -> Result<(), Refusal>
    ensures { result ≡ again_shape form (input_of n [] [] [] r.now c.now b.now) sizes }
{
    if Matrix::rows_within(n) {
        let right = right_fits(n, r, c, b);
        let lists = stages::sides_fit(form, n, sizes);
        let vectors = stages::vectors_fit(n, sizes);
        let slots = stages::scratch_fits(n, sizes);
        if right & (lists & vectors & slots) {
            return Ok(());
        }
        return Err(Refusal::Lengths);
    }
    Err(Refusal::Rows)
}

// Asks 1, 2, 5 and 6. 1 and 2 write nothing; where 5 or 6 stops the call, scratch is cleared.
fn ask_right(
    form: Form,
    n: usize,
    r: &[Index],
    c: &[Index],
    b: &[f64],
    sizes: Sizes,
    work: &mut [f64],
    marks: &mut [u32],
) -> Result<(), Refusal>
    requires { sizes.marks ≡ length marks.old }
    ensures { AgainAsking form (input_of n [] [] [] r.now c.now b.now) sizes work.old marks.old work.new marks.new result }
{
    ask_shape(form, n, r, c, b, sizes)?;
    let a = questions::ask_right(n, r, c, b, marks);
    if a.is_err() {
        stages::clear_scratch(work, marks);
    }
    a
}

// ---- questions 15 and 13, and x

// Judges the presented factors, solves with them, and writes x where nothing stops it. The plain form passes its list starts as run starts.
fn solve_again(
    form: Form,
    n: usize,
    r: &[Index],
    c: &[Index],
    b: &[f64],
    lower_starts: &[u32],
    lower_runs: &[u32],
    lower_index: &[Index],
    lower_values: &[f64],
    upper_starts: &[u32],
    upper_runs: &[u32],
    upper_index: &[Index],
    upper_values: &[f64],
    d: &[f64],
    x: &mut [f64],
    work: &mut [f64],
) -> Result<(), Refusal>
    requires { AgainReady form (input_of n [] [] [] r.now c.now b.now) lower_starts.now lower_runs.now upper_starts.now upper_runs.now (length d.now) (length x.old) (length work.old) }
    ensures { Again form (input_of n [] [] [] r.now c.now b.now)
        (side_buffers lower_starts.now lower_runs.now lower_index.now lower_values.now)
        (side_buffers upper_starts.now upper_runs.now upper_index.now upper_values.now) d.now x.old result x.new }
{
    factors::ask_factors(
        form,
        n,
        lower_starts,
        lower_runs,
        lower_index,
        lower_values,
        upper_starts,
        upper_runs,
        upper_index,
        upper_values,
        d,
    )?;
    let solved = substitution::substitute(
        form,
        n,
        r,
        b,
        lower_starts,
        lower_runs,
        lower_index,
        lower_values,
        upper_starts,
        upper_runs,
        upper_index,
        upper_values,
        d,
        work,
    );
    solved?;
    stages::write_x(n, c, work, x);
    Ok(())
}

// ---- the calls

// Solves M·x = b for a new b with the factors of a plain solve.
pub fn resolve_plain(
    n: usize,
    r: &[Index],
    c: &[Index],
    b: &[f64],
    lower_starts: &[u32],
    lower_index: &[Index],
    lower_values: &[f64],
    upper_starts: &[u32],
    upper_index: &[Index],
    upper_values: &[f64],
    d: &[f64],
    x: &mut [f64],
    work: &mut [f64],
    marks: &mut [u32],
) -> Result<(), Refusal>
    ensures { ResolvesPlain (input_of n [] [] [] r.now c.now b.now)
        lower_starts.now lower_index.now lower_values.now upper_starts.now upper_index.now upper_values.now d.now x.old work.old marks.old result
        x.new work.new marks.new }
{
    let lower = side_sizes(lower_starts, 0, lower_index, lower_values);
    let upper = side_sizes(upper_starts, 0, upper_index, upper_values);
    let sizes = Sizes {
        lower,
        upper,
        d: d.len(),
        x: x.len(),
        work: work.len(),
        marks: marks.len(),
    };
    ask_right(Form::Plain, n, r, c, b, sizes, work, marks)?;
    let a = solve_again(
        Form::Plain,
        n,
        r,
        c,
        b,
        lower_starts,
        lower_starts,
        lower_index,
        lower_values,
        upper_starts,
        upper_starts,
        upper_index,
        upper_values,
        d,
        x,
        work,
    );
    stages::clear_scratch(work, marks);
    a
}

// Solves M·x = b for a new b with the factors of a shared solve.
pub fn resolve_shared(
    n: usize,
    r: &[Index],
    c: &[Index],
    b: &[f64],
    lower_starts: &[u32],
    lower_runs: &[u32],
    lower_index: &[Index],
    lower_values: &[f64],
    upper_starts: &[u32],
    upper_runs: &[u32],
    upper_index: &[Index],
    upper_values: &[f64],
    d: &[f64],
    x: &mut [f64],
    work: &mut [f64],
    marks: &mut [u32],
) -> Result<(), Refusal>
    ensures { ResolvesShared (input_of n [] [] [] r.now c.now b.now)
        lower_starts.now lower_runs.now lower_index.now lower_values.now upper_starts.now upper_runs.now upper_index.now upper_values.now d.now x.old work.old marks.old result
        x.new work.new marks.new }
{
    let lower = side_sizes(lower_starts, lower_runs.len(), lower_index, lower_values);
    let upper = side_sizes(upper_starts, upper_runs.len(), upper_index, upper_values);
    let sizes = Sizes {
        lower,
        upper,
        d: d.len(),
        x: x.len(),
        work: work.len(),
        marks: marks.len(),
    };
    ask_right(Form::Shared, n, r, c, b, sizes, work, marks)?;
    let a = solve_again(
        Form::Shared,
        n,
        r,
        c,
        b,
        lower_starts,
        lower_runs,
        lower_index,
        lower_values,
        upper_starts,
        upper_runs,
        upper_index,
        upper_values,
        d,
        x,
        work,
    );
    stages::clear_scratch(work, marks);
    a
}
