// Another right side: forward substitution with stored L and d, then the back steps. Scratch has the sums s in its first n slots, y in the next n and
// z in the last n. In the plain form L stands by rows, and a row's products are subtracted when its turn comes; in the shared form it stands by columns,
// and column k is subtracted from the sums below it once y(k) is known. The plain form passes its list starts as run starts.
#![tactic(auto)]

ghost use Rattle.std.specs.Prelude.{◌≡◌, [], ◌*◌, ◌<◌, ◌≤◌, length, drop};
ghost use Rattle.base.specs.Limits.{max_rows};
ghost use Rattle.base.specs.Lists.{table};
ghost use Rattle.base.specs.Scratch.{z_from};
ghost use Rattle.matrix.specs.Input.{input_of, right_at};
ghost use Rattle.outcome.specs.Buffers.{side_buffers};
ghost use Rattle.outcome.specs.Resolve.{factors_of};
ghost use Rattle.arithmetic.specs.Again.{Factors};
ghost use Rattle.arithmetic.specs.Stopping.{solved_again};
ghost use Rattle.numeric.specs.Stores.{StoreShape, numbered_back};
ghost use Rattle.factors.specs.Presented.{presented};
ghost use Rattle.substitution.specs.Sweep.{by_columns, RightLent, SumAt, Spread, Ready, Tied, Sweep, RowSwept, Swept, Solvable, StoppedBelow, back_asked, Solved};

use base::{Form, Index, Place, Refusal, is_finite};

// Writes b(r(k)) into the sums.
fn load_right(n: usize, r: &[Index], b: &[f64], sums: &mut [f64])
    requires { RightLent n r.now (length b.now) × (length sums.old ≡ n) }
    ensures { sums.new ≡ table (right_at (input_of n [] [] [] r.now [] b.now)) n }
{
    for k in 0..n {
        let i = lent::own_row(r, Place(k as u32));
        sums[k] = lent::row_right(b, i);
    }
}

// Tells whether L stands by columns.
fn by_columns(form: Form) -> bool
    ensures { result ≡ by_columns form }
{
    match form {
        Form::Plain => false,
        Form::Shared | Form::ByRow => true,
    }
}

// Gives place k's sum: in the plain form less the products along row k, in the shared form as the columns before k left it.
fn sum_at(
    form: Form,
    n: usize,
    k: usize,
    starts: &[u32],
    runs: &[u32],
    index: &[Index],
    values: &[f64],
    work: &[f64],
) -> f64
    requires { (k < n) × (length work.now ≡ 3 * n) × StoreShape n starts.now runs.now index.now (length values.now) }
    ensures { SumAt form n k (side_buffers starts.now runs.now index.now values.now) work.now result }
{
    let s = work[k];
    if by_columns(form) {
        return s;
    }
    let row = lent::list_at(starts, runs, index, k);
    let l = lent::values_at(starts, values, k);
    numeric::subtract_products(s, row, l, &work[n..])
}

// Subtracts y times column k from the sums, where L stands by columns.
fn spread(
    form: Form,
    n: usize,
    k: usize,
    y: f64,
    starts: &[u32],
    runs: &[u32],
    index: &[Index],
    values: &[f64],
    work: &mut [f64],
)
    requires { (k < n) × (length work.old ≡ 3 * n) × StoreShape n starts.now runs.now index.now (length values.now) }
    ensures { Spread form n k (side_buffers starts.now runs.now index.now values.now) y work.old work.new }
{
    if by_columns(form) {
        let column = lent::list_at(starts, runs, index, k);
        let l = lent::values_at(starts, values, k);
        numeric::axpy(&mut work[..n], column, l, y);
    }
}

// Writes y(k) and hands it on to the sums below; tells whether every result at k is finite. (A product or a sum that is not leaves the last sum so.)
fn substitute_row(
    form: Form,
    n: usize,
    k: usize,
    starts: &[u32],
    runs: &[u32],
    index: &[Index],
    values: &[f64],
    d: &[f64],
    work: &mut [f64],
) -> bool
    requires { (k < n) × Ready form n starts.now runs.now index.now (length values.now) (length d.now) (length work.old) }
    ensures { (F : Factors) → Tied form n F (side_buffers starts.now runs.now index.now values.now) d.now
        → Sweep form n F (side_buffers starts.now runs.now index.now values.now) k work.old
        → RowSwept form n F (side_buffers starts.now runs.now index.now values.now) k result work.new }
{
    let s = sum_at(form, n, k, starts, runs, index, values, work);
    if is_finite(s) {
        let y = s * d[k];
        if is_finite(y) {
            work[n + k] = y;
            spread(form, n, k, y, starts, runs, index, values, work);
            return true;
        }
    }
    false
}

// Forward substitution: y(0) to y(n - 1) into their slots, up to the first place at which a result is not finite.
fn substitute_rows(
    form: Form,
    n: usize,
    starts: &[u32],
    runs: &[u32],
    index: &[Index],
    values: &[f64],
    d: &[f64],
    work: &mut [f64],
) -> Result<(), usize>
    requires { Ready form n starts.now runs.now index.now (length values.now) (length d.now) (length work.old) }
    ensures { (F : Factors) → Tied form n F (side_buffers starts.now runs.now index.now values.now) d.now
        → Sweep form n F (side_buffers starts.now runs.now index.now values.now) 0 work.old
        → Swept form n F (side_buffers starts.now runs.now index.now values.now) result work.new }
{
    for k in 0..n {
        if !substitute_row(form, n, k, starts, runs, index, values, d, work) {
            return Err(k);
        }
    }
    Ok(())
}

// Solves with presented factors: z into the last n slots of scratch, or the place at which a result is not finite.
fn solve_rows(
    form: Form,
    n: usize,
    r: &[Index],
    b: &[f64],
    lower_starts: &[u32],
    lower_runs: &[u32],
    lower_index: &[Index],
    lower_values: &[f64],
    upper_starts: &[u32],
    upper_runs: &[u32],
    upper_index: &[Index],
    upper_values: &[f64],
    d: &[f64],
    work: &mut [f64],
) -> Result<(), usize>
    requires { Solvable form n r.now b.now (side_buffers lower_starts.now lower_runs.now lower_index.now lower_values.now) (side_buffers upper_starts.now upper_runs.now upper_index.now upper_values.now) (length d.now) (length work.old) }
    ensures { (numbered_back (drop (z_from n) work.new) result ≡ solved_again (factors_of form (input_of n [] [] [] r.now [] b.now)
        (presented (side_buffers lower_starts.now lower_runs.now lower_index.now lower_values.now)
        (side_buffers upper_starts.now upper_runs.now upper_index.now upper_values.now) d.now)))
        × StoppedBelow n result }
{
    base::clear(work);
    load_right(n, r, b, &mut work[..n]);
    substitute_rows(
        form,
        n,
        lower_starts,
        lower_runs,
        lower_index,
        lower_values,
        d,
        work,
    )?;
    numeric::back_steps(work, n, upper_starts, upper_runs, upper_index, upper_values)
}

// Asks 13 of what the steps came to.
fn overflow_of(n: usize, a: Result<(), usize>) -> Result<(), Refusal>
    requires { (n ≤ max_rows) × StoppedBelow n a }
    ensures { result ≡ back_asked a }
{
    a.map_err(|k| Refusal::Overflow(Place(k as u32)))
}

// Solves with presented factors and a new right side, and asks 13: z into the last n slots of scratch.
pub fn substitute(
    form: Form,
    n: usize,
    r: &[Index],
    b: &[f64],
    lower_starts: &[u32],
    lower_runs: &[u32],
    lower_index: &[Index],
    lower_values: &[f64],
    upper_starts: &[u32],
    upper_runs: &[u32],
    upper_index: &[Index],
    upper_values: &[f64],
    d: &[f64],
    work: &mut [f64],
) -> Result<(), Refusal>
    requires { Solvable form n r.now b.now (side_buffers lower_starts.now lower_runs.now lower_index.now lower_values.now) (side_buffers upper_starts.now upper_runs.now upper_index.now upper_values.now) (length d.now) (length work.old) }
    ensures { Solved (solved_again (factors_of form (input_of n [] [] [] r.now [] b.now)
        (presented (side_buffers lower_starts.now lower_runs.now lower_index.now lower_values.now)
        (side_buffers upper_starts.now upper_runs.now upper_index.now upper_values.now) d.now))) result (drop (z_from n) work.new) }
{
    let a = solve_rows(
        form,
        n,
        r,
        b,
        lower_starts,
        lower_runs,
        lower_index,
        lower_values,
        upper_starts,
        upper_runs,
        upper_index,
        upper_values,
        d,
        work,
    );
    overflow_of(n, a)
}
