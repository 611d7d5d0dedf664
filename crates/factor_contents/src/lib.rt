// The contents of factors in the plain form: where they stand in a file, question 2 of the lengths of buffers for them, and questions 5, 15 and 21 of what a file holds, judged where it stands, and of lent lists.
#![tactic(auto)]

ghost use Rattle.std.specs.Prelude.{◌≡◌, not, [], ◌+◌, ◌*◌, ◌≤◌, ◌<◌, length, replicate, sum_by};
ghost use Rattle.base.specs.declared.Form.TheVariants.{Plain};
ghost use Rattle.base.specs.Limits.{max_rows, max_slots};
ghost use Rattle.arithmetic.specs.RowEnd.{finite_all};
ghost use Rattle.lent.specs.Reading.{length_in};
ghost use Rattle.matrix.specs.Questions.{ask5};
ghost use Rattle.outcome.specs.Resolve.{rises_in, right_side, bad_list, bad_at, ask_factors};
ghost use Rattle.fields.specs.Numbers.{le};
ghost use Rattle.fields.specs.Payload.{room, payload, fields_at, floats_at};
ghost use Rattle.factor_contents.specs.FactorFile.{factor_lists, upper_starts_at, lower_index_at, upper_index_at, lower_values_at, d_at, upper_values_at, r_at, c_at, lists_at, lengths_fit, side_fits, ask15, products_of, ask_contents};
ghost use Rattle.factor_contents.specs.Judging.{side_at, SideStands, Stands, ListsLent, presented_lists};

use base::{Form, Index, Place, Refusal, Side};
use matrix::Matrix;

// ---- where the parts stand

// The payload bytes at which the upper starts, the lower and upper indices, L, d, u, r and c begin.
#[derive(Clone, Copy)]
pub struct Offsets {
    pub starts: usize,
    pub lower: usize,
    pub upper: usize,
    pub l: usize,
    pub d: usize,
    pub u: usize,
    pub r: usize,
    pub c: usize,
}

// Gives the offsets in a file of n places with `lower` and `upper` entries. The lower starts begin at 20.
pub fn offsets_of(n: usize, lower: usize, upper: usize) -> Offsets
    requires { (n ≤ max_rows) × (lower ≤ max_slots) × (upper ≤ max_slots) }
    ensures { (result.starts ≡ upper_starts_at n) × (result.lower ≡ lower_index_at n) × (result.upper ≡ upper_index_at n lower) × (result.l ≡ lower_values_at n lower upper)
        × (result.d ≡ d_at n lower upper) × (result.u ≡ upper_values_at n lower upper) × (result.r ≡ r_at n lower upper) × (result.c ≡ c_at n lower upper) }
{
    let index = 28 + 8 * n;
    let above = index + 2 * lower;
    let l = above + 2 * upper;
    let d = l + 8 * lower;
    let u = d + 8 * n;
    let r = u + 8 * upper;
    Offsets {
        starts: 24 + 4 * n,
        lower: index,
        upper: above,
        l,
        d,
        u,
        r,
        c: r + 2 * n,
    }
}

// ---- question 2

// Tells whether a side has its starts, and slots for its entries.
fn side_fits(n: usize, entries: usize, starts: usize, index: usize, values: usize) -> bool
    requires { n ≤ max_rows }
    ensures { result ≡ side_fits n entries starts index values }
{
    (starts == n + 1)
        & (entries <= index)
        & (index <= Matrix::MAX_SLOTS)
        & (entries <= values)
        & (values <= Matrix::MAX_SLOTS)
}

// Tells whether all lengths fit.
pub fn lengths_fit(
    n: usize,
    lower: usize,
    upper: usize,
    r: usize,
    c: usize,
    lower_starts: usize,
    lower_index: usize,
    lower_values: usize,
    upper_starts: usize,
    upper_index: usize,
    upper_values: usize,
    d: usize,
) -> bool
    requires { n ≤ max_rows }
    ensures { result ≡ lengths_fit n lower upper r c lower_starts lower_index lower_values upper_starts upper_index upper_values d }
{
    let below = side_fits(n, lower, lower_starts, lower_index, lower_values);
    let above = side_fits(n, upper, upper_starts, upper_index, upper_values);
    (r == n) & (c == n) & (d == n) & below & above
}

// ---- one list in a file

// Tells whether `count` numbers of 2 bytes ascend strictly, from `from` on and below `to`.
fn rises_at(file: &[u8], at: usize, count: usize, from: usize, to: usize) -> bool
    requires { at + 2 * count ≤ room file.now }
    ensures { result ≡ rises_in from to (fields_at 2 file.now at count) }
{
    let mut least = from;
    for i in 0..count {
        let j = fields::number_at(file, at + 2 * i, 2) as usize;
        if !((least <= j) & (j < to)) {
            return false;
        }
        least = j + 1;
    }
    true
}

// Tells whether `count` floats are finite.
fn finite_at(file: &[u8], at: usize, count: usize) -> bool
    requires { at + 8 * count ≤ room file.now }
    ensures { result ≡ finite_all (floats_at file.now at count) }
{
    (0..count).all(|i| base::is_finite(fields::float_of(fields::number_at(file, at + 8 * i, 8))))
}

// Tells whether a list lies on its side of place k: a lower row below k, T(k) above it and below n.
fn on_side(file: &[u8], at: usize, count: usize, side: Side, n: usize, k: usize) -> bool
    requires { (at + 2 * count ≤ room file.now) × (k < max_rows) }
    ensures { result ≡ right_side Plain side n k (fields_at 2 file.now at count) }
{
    match side {
        Side::Lower => rises_at(file, at, count, 0, k),
        Side::Upper => rises_at(file, at, count, k + 1, n),
    }
}

// Reads start k of those that stand from `at` on.
fn start_at(file: &[u8], at: usize, k: usize) -> usize
    requires { at + 4 * k + 4 ≤ room file.now }
    ensures { (result ≡ le 4 (payload file.now) (at + 4 * k)) × (result < 4294967296) }
{
    fields::number_at(file, at + 4 * k, 4) as usize
}

// ---- one place in a file

// Tells whether the list of a side at place k is well shaped and its values are finite.
fn side_good(
    file: &[u8],
    side: Side,
    n: usize,
    k: usize,
    starts: usize,
    index: usize,
    values: usize,
    entries: usize,
) -> bool
    requires { (k < n) × SideStands file.now n starts index values entries }
    ensures { result ≡ not (bad_list Plain side n (side_at file.now n starts index values entries) k) }
{
    let begin = start_at(file, starts, 0);
    let lo = start_at(file, starts, k);
    let hi = start_at(file, starts, k + 1);
    if hi < lo {
        return false;
    }
    if ((k == 0) & (begin != 0)) | (entries < hi) {
        return false;
    }
    let count = hi - lo;
    if on_side(file, index + 2 * lo, count, side, n, k) {
        return finite_at(file, values + 8 * lo, count);
    }
    false
}

// Tells whether both lists of place k are good, and d(k) is finite.
fn place_good(file: &[u8], n: usize, lower: usize, upper: usize, k: usize) -> bool
    requires { (k < n) × Stands file.now n lower upper }
    ensures { result ≡ not (bad_at Plain n (presented_lists (lists_at file.now n lower upper)) k) }
{
    let at = offsets_of(n, lower, upper);
    let below = side_good(file, Side::Lower, n, k, 20, at.lower, at.l, lower);
    let above = side_good(file, Side::Upper, n, k, at.starts, at.upper, at.u, upper);
    let x = fields::float_of(fields::number_at(file, at.d + 8 * k, 8));
    let pivot = base::is_finite(x);
    below & above & pivot
}

// ---- question 15 in a file

// Asks 15 of stores that end at `lower` and `upper`, wherever the starts end.
fn ask_lists_in(file: &[u8], n: usize, lower: usize, upper: usize) -> Result<(), Refusal>
    requires { Stands file.now n lower upper }
    ensures { result ≡ ask_factors Plain n (presented_lists (lists_at file.now n lower upper)) }
{
    for k in 0..n {
        if !place_good(file, n, lower, upper, k) {
            return Err(Refusal::BadFactors(Place(k as u32)));
        }
    }
    Ok(())
}

// Asks 15: starts that end elsewhere than the stores are the last place's fault.
fn ask_15_in(file: &[u8], n: usize, lower: usize, upper: usize) -> Result<(), Refusal>
    requires { Stands file.now n lower upper }
    ensures { result ≡ ask15 n lower upper (lists_at file.now n lower upper) }
{
    ask_lists_in(file, n, lower, upper)?;
    let at = offsets_of(n, lower, upper);
    let lower_end = start_at(file, 20, n);
    let upper_end = start_at(file, at.starts, n);
    if !((lower_end == lower) & (upper_end == upper)) {
        return Err(Refusal::BadFactors(Place((n - 1) as u32)));
    }
    Ok(())
}

// ---- question 21 in a file

// Gives the length of list j, 0 from n on.
fn length_at(file: &[u8], starts: usize, n: usize, j: usize) -> usize
    requires { (starts + 4 * (n + 1) ≤ room file.now) × (n ≤ max_rows) }
    ensures { (result ≡ length_in (fields_at 4 file.now starts (n + 1)) j) × (result < 4294967296) }
{
    if n <= j {
        return 0;
    }
    let lo = start_at(file, starts, j);
    let hi = start_at(file, starts, j + 1);
    if hi < lo {
        return 0;
    }
    hi - lo
}

// Adds up the lengths of the lists that `count` numbers of 2 bytes name.
fn products_in(file: &[u8], index: usize, count: usize, starts: usize, n: usize) -> u64
    requires { (index + 2 * count ≤ room file.now) × (count ≤ max_slots) × (starts + 4 * (n + 1) ≤ room file.now) × (n ≤ max_rows) }
    ensures { result ≡ products_of (fields_at 2 file.now index count) (fields_at 4 file.now starts (n + 1)) }
{
    (0..count)
        .map(|i| {
            let j = fields::number_at(file, index + 2 * i, 2) as usize;
            length_at(file, starts, n, j) as u64
        })
        .sum()
}

// ---- question 5 in a file

// Zeros for marks. A function of its own, so that proofs see the list's name and not its slots.
fn marks() -> [u32; 4096]
    ensures long { 4096 ≡ length result }
    ensures zeros { result ≡ replicate 4096 0 }
{
    [0; 4096]
}

// Room for an order.
fn order() -> [Index; 4096]
    ensures { 4096 ≡ length result }
{
    [0; 4096]
}

// Copies the orders that stand at `r` and at `c`, and asks 5 of the copies.
fn ask_copies(
    file: &[u8],
    n: usize,
    r: usize,
    c: usize,
    rows: &mut [Index],
    columns: &mut [Index],
    marks: &mut [u32],
) -> Result<(), Refusal>
    requires { (n ≤ max_rows) × (r + 2 * n ≤ room file.now) × (c + 2 * n ≤ room file.now) × (length rows.old ≡ n) × (length columns.old ≡ n) × (n ≤ length marks.old) }
    ensures { result ≡ ask5 n (fields_at 2 file.now r n) (fields_at 2 file.now c n) }
{
    fields::read_as::<2, _>(file, r, rows);
    fields::read_as::<2, _>(file, c, columns);
    questions::ask_orders(n, rows, columns, marks)
}

// Asks 5 of the orders that stand at `r` and at `c`. It takes 32 kB of the stack.
fn ask_orders_in(file: &[u8], n: usize, r: usize, c: usize) -> Result<(), Refusal>
    requires { (n ≤ max_rows) × (r + 2 * n ≤ room file.now) × (c + 2 * n ≤ room file.now) }
    ensures { result ≡ ask5 n (fields_at 2 file.now r n) (fields_at 2 file.now c n) }
{
    let mut rows = order();
    let mut columns = order();
    let mut marks = marks();
    ask_copies(file, n, r, c, &mut rows[..n], &mut columns[..n], &mut marks)
}

// ---- the contents of a file

// Asks 5, 15 and 21 of what a file holds of `lower` and `upper` entries.
pub fn ask_contents_in(
    file: &[u8],
    n: usize,
    lower: usize,
    upper: usize,
    products: u64,
) -> Result<(), Refusal>
    requires { Stands file.now n lower upper }
    ensures { result ≡ ask_contents n (record { lower = lower; upper = upper; products = products }) (lists_at file.now n lower upper) }
{
    let at = offsets_of(n, lower, upper);
    ask_orders_in(file, n, at.r, at.c)?;
    ask_15_in(file, n, lower, upper)?;
    let sum = products_in(file, at.lower, lower, at.starts, n);
    if !(products == sum) {
        return Err(Refusal::Products);
    }
    Ok(())
}

// ---- the contents of lent lists

// Gives the length of list j, 0 where there is no such list.
fn length_of(starts: &[u32], j: usize) -> usize
    requires { j < 4294967296 }
    ensures { (result ≡ length_in starts.now j) × (result < 4294967296) }
{
    if starts.len() <= j + 1 {
        return 0;
    }
    let lo = base::slot(starts[j]);
    let hi = base::slot(starts[j + 1]);
    if hi < lo {
        return 0;
    }
    hi - lo
}

// Adds up the lengths of the lists that the index numbers name.
fn products_of(index: &[Index], starts: &[u32]) -> u64
    requires { length index.now ≤ max_slots }
    ensures { result ≡ sum_by (length_in starts.now) index.now }
{
    index
        .iter()
        .map(|&j| length_of(starts, base::wide(j)) as u64)
        .sum()
}

// Asks 15 of lent lists without unused slots.
fn ask_15(
    n: usize,
    lower_starts: &[u32],
    lower_index: &[Index],
    lower_values: &[f64],
    upper_starts: &[u32],
    upper_index: &[Index],
    upper_values: &[f64],
    d: &[f64],
) -> Result<(), Refusal>
    requires { ListsLent n (length lower_index.now) (length upper_index.now) lower_starts.now upper_starts.now (length d.now) }
    ensures { result ≡ ask15 n (length lower_index.now) (length upper_index.now) (factor_lists [] [] lower_starts.now lower_index.now lower_values.now upper_starts.now upper_index.now upper_values.now d.now) }
{
    factors::ask_factors(
        Form::Plain,
        n,
        lower_starts,
        lower_starts,
        lower_index,
        lower_values,
        upper_starts,
        upper_starts,
        upper_index,
        upper_values,
        d,
    )?;
    let lower_end = base::slot(lower_starts[n]);
    let upper_end = base::slot(upper_starts[n]);
    if !((lower_end == lower_index.len()) & (upper_end == upper_index.len())) {
        return Err(Refusal::BadFactors(Place((n - 1) as u32)));
    }
    Ok(())
}

// Asks 5 of lent orders. It takes 16 kB of the stack.
fn ask_orders(n: usize, r: &[Index], c: &[Index]) -> Result<(), Refusal>
    requires { (n ≤ max_rows) × (length r.now ≡ n) × (length c.now ≡ n) }
    ensures { result ≡ ask5 n r.now c.now }
{
    let mut marks = marks();
    questions::ask_orders(n, r, c, &mut marks)
}

// Asks 5, 15 and 21 of lent lists without unused slots.
pub fn ask_contents(
    n: usize,
    products: u64,
    r: &[Index],
    c: &[Index],
    lower_starts: &[u32],
    lower_index: &[Index],
    lower_values: &[f64],
    upper_starts: &[u32],
    upper_index: &[Index],
    upper_values: &[f64],
    d: &[f64],
) -> Result<(), Refusal>
    requires { (length r.now ≡ n) × (length c.now ≡ n) × ListsLent n (length lower_index.now) (length upper_index.now) lower_starts.now upper_starts.now (length d.now) }
    ensures { result ≡ ask_contents n (record { lower = length lower_index.now; upper = length upper_index.now; products = products })
        (factor_lists r.now c.now lower_starts.now lower_index.now lower_values.now upper_starts.now upper_index.now upper_values.now d.now) }
{
    ask_orders(n, r, c)?;
    ask_15(
        n,
        lower_starts,
        lower_index,
        lower_values,
        upper_starts,
        upper_index,
        upper_values,
        d,
    )?;
    let sum = products_of(lower_index, upper_starts);
    if !(products == sum) {
        return Err(Refusal::Products);
    }
    Ok(())
}
