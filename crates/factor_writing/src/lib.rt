// The factor file of the plain form: its writing.
#![tactic(auto)]

ghost use Rattle.std.specs.Prelude.{◌≡◌, ◌++◌, ◌+◌, ◌*◌, ◌≤◌, length, eqb, Err};
ghost use Rattle.base.specs.Answers.{left, or_untouched, Pass};
ghost use Rattle.base.specs.Limits.{max_rows, max_slots};
ghost use Rattle.fields.specs.Numbers.{stream};
ghost use Rattle.fields.specs.Payload.{room, payloads};
ghost use Rattle.factor_contents.specs.FactorFile.{head_parts, list_parts, value_parts, file_length, factor_lists, written, lengths_fit, ask_contents, ask_lengths, write_outcome};
ghost use Rattle.factor_contents.specs.Judging.{Whole, Lent};
ghost use Rattle.factor_writing.specs.Writing.{WriteLent};

use base::{Counts, Index, Refusal};
use matrix::Matrix;

// ---- laid down

// Lays n and the counts down from the first payload byte on, and answers where they end.
fn lay_head(n: usize, counts: Counts, file: &mut [u8]) -> usize
    requires { 20 ≤ room file.old }
    ensures { (result ≡ 20) × (payloads file.new result ≡ stream (head_parts n counts)) }
{
    let at = fields::put_number(file, 0, 4, n as u64);
    let at = fields::put_number(file, at, 4, counts.lower);
    let at = fields::put_number(file, at, 4, counts.upper);
    fields::put_number(file, at, 8, counts.products)
}

// Lays starts and indices down from payload byte `at` on, and answers where they end.
fn lay_lists(
    at: usize,
    lower_starts: &[u32],
    upper_starts: &[u32],
    lower_index: &[Index],
    upper_index: &[Index],
    file: &mut [u8],
) -> usize
    requires { at + 4 * length lower_starts.now + 4 * length upper_starts.now + 2 * length lower_index.now + 2 * length upper_index.now ≤ room file.old }
    ensures { (result ≡ at + 4 * length lower_starts.now + 4 * length upper_starts.now + 2 * length lower_index.now + 2 * length upper_index.now)
        × (payloads file.new result ≡ payloads file.old at ++ stream (list_parts lower_starts.now upper_starts.now lower_index.now upper_index.now)) }
{
    let at = fields::write_as::<4, _>(file, at, lower_starts);
    let at = fields::write_as::<4, _>(file, at, upper_starts);
    let at = fields::write_as::<2, _>(file, at, lower_index);
    fields::write_as::<2, _>(file, at, upper_index)
}

// Lays L, d, u and the orders down from payload byte `at` on, and answers where they end.
fn lay_values(
    at: usize,
    lower_values: &[f64],
    d: &[f64],
    upper_values: &[f64],
    r: &[Index],
    c: &[Index],
    file: &mut [u8],
) -> usize
    requires { at + 8 * length lower_values.now + 8 * length d.now + 8 * length upper_values.now + 2 * length r.now + 2 * length c.now ≤ room file.old }
    ensures { (result ≡ at + 8 * length lower_values.now + 8 * length d.now + 8 * length upper_values.now + 2 * length r.now + 2 * length c.now)
        × (payloads file.new result ≡ payloads file.old at ++ stream (value_parts lower_values.now d.now upper_values.now r.now c.now)) }
{
    let at = fields::write_as::<8, _>(file, at, lower_values);
    let at = fields::write_as::<8, _>(file, at, d);
    let at = fields::write_as::<8, _>(file, at, upper_values);
    let at = fields::write_as::<2, _>(file, at, r);
    fields::write_as::<2, _>(file, at, c)
}

// Writes the file of lists without unused slots over a buffer of its length.
fn store(
    n: usize,
    counts: Counts,
    r: &[Index],
    c: &[Index],
    lower_starts: &[u32],
    lower_index: &[Index],
    lower_values: &[f64],
    upper_starts: &[u32],
    upper_index: &[Index],
    upper_values: &[f64],
    d: &[f64],
    file: &mut [u8],
)
    requires { (length file.old ≡ file_length n counts.lower counts.upper) × Lent Whole n counts.lower counts.upper (factor_lists r.now c.now lower_starts.now lower_index.now lower_values.now upper_starts.now upper_index.now upper_values.now d.now) }
    ensures { file.new ≡ written n counts (factor_lists r.now c.now lower_starts.now lower_index.now lower_values.now upper_starts.now upper_index.now upper_values.now d.now) }
{
    let at = lay_head(n, counts, file);
    let at = lay_lists(
        at,
        lower_starts,
        upper_starts,
        lower_index,
        upper_index,
        file,
    );
    let at = lay_values(at, lower_values, d, upper_values, r, c, file);
    blocks::finish(file, at);
}

// ---- the questions

// Asks 5, 15 and 21 of lists without unused slots, and writes their file.
fn write_lists(
    n: usize,
    counts: Counts,
    r: &[Index],
    c: &[Index],
    lower_starts: &[u32],
    lower_index: &[Index],
    lower_values: &[f64],
    upper_starts: &[u32],
    upper_index: &[Index],
    upper_values: &[f64],
    d: &[f64],
    file: &mut [u8],
) -> Result<(), Refusal>
    requires { WriteLent n counts (factor_lists r.now c.now lower_starts.now lower_index.now lower_values.now upper_starts.now upper_index.now upper_values.now d.now) (length file.old) }
    ensures { left result file.new ≡ or_untouched Err (ask_contents n counts (factor_lists r.now c.now lower_starts.now lower_index.now lower_values.now upper_starts.now upper_index.now upper_values.now d.now)) Pass (written n counts (factor_lists r.now c.now lower_starts.now lower_index.now lower_values.now upper_starts.now upper_index.now upper_values.now d.now)) file.old }
{
    factor_contents::ask_contents(
        n,
        counts.products,
        r,
        c,
        lower_starts,
        lower_index,
        lower_values,
        upper_starts,
        upper_index,
        upper_values,
        d,
    )?;
    store(
        n,
        counts,
        r,
        c,
        lower_starts,
        lower_index,
        lower_values,
        upper_starts,
        upper_index,
        upper_values,
        d,
        file,
    );
    Ok(())
}

// Tells whether a file has the length that n, lower and upper demand.
fn file_fits(n: usize, lower: usize, upper: usize, len: usize) -> bool
    requires { (n ≤ max_rows) × (lower ≤ max_slots) × (upper ≤ max_slots) }
    ensures { result ≡ eqb len (file_length n lower upper) }
{
    len == 512 * ((28 + 20 * n + 10 * lower + 10 * upper + 503) / 504)
}

// The writer's 1 and 2, of the lengths of what is lent.
fn ask_lengths(
    n: usize,
    lower: usize,
    upper: usize,
    r: usize,
    c: usize,
    lower_starts: usize,
    lower_index: usize,
    lower_values: usize,
    upper_starts: usize,
    upper_index: usize,
    upper_values: usize,
    d: usize,
    len: usize,
) -> Result<(), Refusal>
    ensures { result ≡ ask_lengths n lower upper len (lengths_fit n lower upper r c lower_starts lower_index lower_values upper_starts upper_index upper_values d) }
{
    if !Matrix::rows_within(n) {
        return Err(Refusal::Rows);
    }
    if !factor_contents::lengths_fit(
        n,
        lower,
        upper,
        r,
        c,
        lower_starts,
        lower_index,
        lower_values,
        upper_starts,
        upper_index,
        upper_values,
        d,
    ) {
        return Err(Refusal::Lengths);
    }
    if !file_fits(n, lower, upper, len) {
        return Err(Refusal::Lengths);
    }
    Ok(())
}

// Writes the file of factors in the plain form over the lent buffer: questions 1, 2, 5, 15 and 21. A refusal leaves it as it was.
pub fn write_factors(
    n: usize,
    counts: Counts,
    r: &[Index],
    c: &[Index],
    lower_starts: &[u32],
    lower_index: &[Index],
    lower_values: &[f64],
    upper_starts: &[u32],
    upper_index: &[Index],
    upper_values: &[f64],
    d: &[f64],
    file: &mut [u8],
) -> Result<(), Refusal>
    ensures { left result file.new ≡ write_outcome n counts (factor_lists r.now c.now lower_starts.now lower_index.now lower_values.now upper_starts.now upper_index.now upper_values.now d.now) file.old }
{
    let lower = counts.lower as usize;
    let upper = counts.upper as usize;
    ask_lengths(
        n,
        lower,
        upper,
        r.len(),
        c.len(),
        lower_starts.len(),
        lower_index.len(),
        lower_values.len(),
        upper_starts.len(),
        upper_index.len(),
        upper_values.len(),
        d.len(),
        file.len(),
    )?;
    write_lists(
        n,
        counts,
        r,
        c,
        lower_starts,
        &lower_index[..lower],
        &lower_values[..lower],
        upper_starts,
        &upper_index[..upper],
        &upper_values[..upper],
        d,
        file,
    )
}
