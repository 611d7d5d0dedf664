// The factor file of the plain form: its shape, and its reading.
#![tactic(auto)]

ghost use Rattle.std.specs.Prelude.{◌≡◌, ◌+◌, ◌*◌, ◌≤◌, ◌<◌, length};
ghost use Rattle.base.specs.Answers.{left};
ghost use Rattle.base.specs.Lists.{padded, nought};
ghost use Rattle.base.specs.Limits.{max_rows};
ghost use Rattle.fields.specs.Payload.{room, fields_at, floats_at};
ghost use Rattle.blocks.specs.Blocks.{ends_at};
ghost use Rattle.factor_contents.specs.FactorFile.{size_of, factor_lists, held, n_of, counts_in, sizes_in, lists_at, ask_head, lengths_fit, ask_contents, ask_through, shaped, counted, opened, read_outcome};
ghost use Rattle.factor_contents.specs.Judging.{Stands, Enough, Lent};

use base::{Counts, FactorSizes, Index, Refusal, Zero};
use fields::FieldAs;
use matrix::Matrix;

// ---- the shape

// Reads n, lower and upper.
fn sizes_of(file: &[u8]) -> FactorSizes
    requires { 20 ≤ room file.now }
    ensures { (result.n ≡ n_of file.now) × (result.lower ≡ (counts_in file.now).lower) × (result.upper ≡ (counts_in file.now).upper) × (result.lower < 4294967296) × (result.upper < 4294967296) }
{
    let n = fields::number_at(file, 0, 4) as usize;
    let lower = fields::number_at(file, 4, 4) as usize;
    let upper = fields::number_at(file, 8, 4) as usize;
    FactorSizes { n, lower, upper }
}

// Question 20.
fn ends_right(file: &[u8], n: usize, lower: usize, upper: usize) -> bool
    requires { (n ≤ max_rows) × (lower < 4294967296) × (upper < 4294967296) }
    ensures { result ≡ ends_at file.now (size_of n lower upper) }
{
    blocks::ends_at(file, 28 + 20 * n + 10 * lower + 10 * upper)
}

// Questions 1 and 20 of n, lower and upper as the file has them.
fn ask_head(file: &[u8], n: usize, lower: usize, upper: usize) -> Result<(), Refusal>
    requires { (lower < 4294967296) × (upper < 4294967296) }
    ensures { result ≡ ask_head file.now n lower upper }
{
    if !Matrix::rows_within(n) {
        return Err(Refusal::Rows);
    }
    if !ends_right(file, n, lower, upper) {
        return Err(Refusal::FactorShape);
    }
    Ok(())
}

// The shape of the factors in a file of whole blocks.
fn head_shape(file: &[u8]) -> Result<FactorSizes, Refusal>
    requires { 20 ≤ room file.now }
    ensures { result ≡ shaped (ask_head file.now (n_of file.now) (counts_in file.now).lower (counts_in file.now).upper) (sizes_in file.now) }
{
    let sizes = sizes_of(file);
    ask_head(file, sizes.n, sizes.lower, sizes.upper)?;
    Ok(sizes)
}

// Gives n, lower and upper of the factors in a file: questions 16, 17, 1 and 20.
pub fn factor_file_shape(file: &[u8]) -> Result<FactorSizes, Refusal>
    ensures { result ≡ opened file.now }
{
    blocks::ask_blocks(file)?;
    head_shape(file)
}

// ---- reading

// Asks 5, 15 and 21 of what the file holds, and gives the counts.
fn judge_contents(file: &[u8], n: usize, lower: usize, upper: usize) -> Result<Counts, Refusal>
    requires { (20 ≤ room file.now) × Stands file.now n lower upper }
    ensures { result ≡ counted (ask_contents n (record { lower = lower; upper = upper; products = (counts_in file.now).products }) (lists_at file.now n lower upper)) (record { lower = lower; upper = upper; products = (counts_in file.now).products }) }
{
    let products = fields::number_at(file, 12, 8);
    factor_contents::ask_contents_in(file, n, lower, upper, products)?;
    Ok(Counts {
        lower: lower as u64,
        upper: upper as u64,
        products,
    })
}

// Asks all that a reader asks, of the file and the lengths of what is lent, and gives the counts.
fn judge(
    file: &[u8],
    r: usize,
    c: usize,
    lower_starts: usize,
    lower_index: usize,
    lower_values: usize,
    upper_starts: usize,
    upper_index: usize,
    upper_values: usize,
    d: usize,
) -> Result<Counts, Refusal>
    ensures { result ≡ counted (ask_through file.now (lengths_fit (n_of file.now) (counts_in file.now).lower (counts_in file.now).upper r c lower_starts lower_index lower_values upper_starts upper_index upper_values d)) (counts_in file.now) }
{
    let s = factor_file_shape(file)?;
    let n = s.n;
    let lower = s.lower;
    let upper = s.upper;
    if !factor_contents::lengths_fit(
        n,
        lower,
        upper,
        r,
        c,
        lower_starts,
        lower_index,
        lower_values,
        upper_starts,
        upper_index,
        upper_values,
        d,
    ) {
        return Err(Refusal::Lengths);
    }
    judge_contents(file, n, lower, upper)
}

// Fills the first `count` slots with the values from `at` on, and the others with zero.
fn fill<const WIDTH: usize, T: FieldAs<WIDTH> + Zero>(
    file: &[u8],
    at: usize,
    count: usize,
    store: &mut [T],
)
    requires { (at + WIDTH * count ≤ room file.now) × (count ≤ length store.old) }
    ensures { store.new ≡ padded T.nil (length store.old) (T.values_at file.now at count) }
{
    base::clear(store);
    fields::read_as::<WIDTH, _>(file, at, &mut store[..count]);
}

// Fills the starts, the index store and the value store of a side of `entries` entries from where they stand.
fn load_side(
    file: &[u8],
    starts_at: usize,
    index_at: usize,
    values_at: usize,
    entries: usize,
    starts: &mut [u32],
    index: &mut [Index],
    values: &mut [f64],
)
    requires { (starts_at + 4 * length starts.old ≤ room file.now) × (index_at + 2 * entries ≤ room file.now) × (values_at + 8 * entries ≤ room file.now) × (entries ≤ length index.old) × (entries ≤ length values.old) }
    ensures { (starts.new ≡ fields_at 4 file.now starts_at (length starts.old))
        × (index.new ≡ padded 0 (length index.old) (fields_at 2 file.now index_at entries))
        × (values.new ≡ padded nought (length values.old) (floats_at file.now values_at entries)) }
{
    fields::read_as::<4, _>(file, starts_at, starts);
    fill::<2, _>(file, index_at, entries, index);
    fill::<8, _>(file, values_at, entries, values);
}

// Fills d and the orders from where they stand.
fn load_rest(
    file: &[u8],
    d_at: usize,
    r_at: usize,
    c_at: usize,
    r: &mut [Index],
    c: &mut [Index],
    d: &mut [f64],
)
    requires { (d_at + 8 * length d.old ≤ room file.now) × (r_at + 2 * length r.old ≤ room file.now) × (c_at + 2 * length c.old ≤ room file.now) }
    ensures { (r.new ≡ fields_at 2 file.now r_at (length r.old))
        × (c.new ≡ fields_at 2 file.now c_at (length c.old))
        × (d.new ≡ floats_at file.now d_at (length d.old)) }
{
    fields::read_as::<2, _>(file, r_at, r);
    fields::read_as::<2, _>(file, c_at, c);
    fields::read_as::<8, _>(file, d_at, d);
}

// Fills all buffers with what the file holds, and unused slots with zeros.
fn load(
    file: &[u8],
    n: usize,
    lower: usize,
    upper: usize,
    r: &mut [Index],
    c: &mut [Index],
    lower_starts: &mut [u32],
    lower_index: &mut [Index],
    lower_values: &mut [f64],
    upper_starts: &mut [u32],
    upper_index: &mut [Index],
    upper_values: &mut [f64],
    d: &mut [f64],
)
    requires { Stands file.now n lower upper × Lent Enough n lower upper (factor_lists r.old c.old lower_starts.old lower_index.old lower_values.old upper_starts.old upper_index.old upper_values.old d.old) }
    ensures { factor_lists r.new c.new lower_starts.new lower_index.new lower_values.new upper_starts.new upper_index.new upper_values.new d.new
        ≡ held (factor_lists r.old c.old lower_starts.old lower_index.old lower_values.old upper_starts.old upper_index.old upper_values.old d.old)
        (lists_at file.now n lower upper) }
{
    let at = factor_contents::offsets_of(n, lower, upper);
    load_side(
        file,
        20,
        at.lower,
        at.l,
        lower,
        lower_starts,
        lower_index,
        lower_values,
    );
    load_side(
        file,
        at.starts,
        at.upper,
        at.u,
        upper,
        upper_starts,
        upper_index,
        upper_values,
    );
    load_rest(file, at.d, at.r, at.c, r, c, d);
}

// Reads the factors of a file into the lent buffers, and gives the counts: questions 16, 17, 1, 20, 2, 5, 15 and 21. A refusal leaves the buffers as they were.
pub fn read_factors(
    file: &[u8],
    r: &mut [Index],
    c: &mut [Index],
    lower_starts: &mut [u32],
    lower_index: &mut [Index],
    lower_values: &mut [f64],
    upper_starts: &mut [u32],
    upper_index: &mut [Index],
    upper_values: &mut [f64],
    d: &mut [f64],
) -> Result<Counts, Refusal>
    ensures { left result (factor_lists r.new c.new lower_starts.new lower_index.new lower_values.new upper_starts.new upper_index.new upper_values.new d.new)
        ≡ read_outcome file.now (factor_lists r.old c.old lower_starts.old lower_index.old lower_values.old upper_starts.old upper_index.old upper_values.old d.old) }
{
    let counts = judge(
        file,
        r.len(),
        c.len(),
        lower_starts.len(),
        lower_index.len(),
        lower_values.len(),
        upper_starts.len(),
        upper_index.len(),
        upper_values.len(),
        d.len(),
    )?;
    load(
        file,
        d.len(),
        counts.lower as usize,
        counts.upper as usize,
        r,
        c,
        lower_starts,
        lower_index,
        lower_values,
        upper_starts,
        upper_index,
        upper_values,
        d,
    );
    Ok(counts)
}
