// The arithmetic of the elimination, row by row, and the back steps. The scratch f has the working row w in its first n slots, y in the next n
// and z in the last n. T(i) is list i of an upper store (list starts, run starts, index), its u stand in a value store from list start i on.
// Lower row k is lent, so that no step knows where it is kept.
#![tactic(auto)]

ghost use Rattle.std.specs.Prelude.{◌≡◌, true, ◌&&◌, List, ◌∷◌, ℕ, ◌+◌, ◌-◌, ◌*◌, ◌<◌, ◌≤◌, length, get_or, take, drop};
ghost use Rattle.std.proofs.lemmas.List.Edits.{sets};
ghost use Rattle.std.specs.Float.{nan};
ghost use Rattle.std.specs.Float.Ieee.Scale.{finite};
ghost use Rattle.base.specs.Lists.{list_at, row_of, pairs};
ghost use Rattle.arithmetic.specs.Arith.{ok, System, Row};
ghost use Rattle.arithmetic.specs.Stopping.{any, subtract, rest, back};
ghost use Rattle.arithmetic.specs.RowEnd.{finite_on, finite_all, products};
ghost use Rattle.numeric.specs.Stores.{StoreShape, Placeable, Loadable, set_all, with_value, entering, Reducible, Closable, Stepped, Eliminated, Finished, store_given, gathered, zeroed, numbered_back};
ghost use Rattle.numeric.specs.Rows.{RowsHeld, RowLent, Closed, Reduced, Shut};
ghost use Rattle.base.specs.Scratch.{z_from};
ghost use Rattle.lent.specs.Reading.{Below, order_of, placed};

use base::{Index, RowSums, is_finite, scratch};

// The number that stands for no value: no sum of finite values is NaN.
fn no_value() -> f64
    ensures { result ≡ nan }
{
    let zero = 0.0;
    zero / zero
}

// The sum at a place with one value more: the first value as it is, each further one added.
fn with_value(sum: f64, v: f64) -> f64
    ensures { result ≡ with_value sum v }
{
    if sum == sum {
        return sum + v;
    }
    v
}

// Leaves the places of a row's entries without a value.
fn unset_row(w: &mut [f64], n: usize, marks: &[u32], columns: &[Index])
    requires { (length w.old ≡ n) × Placeable n marks.now columns.now }
    ensures { w.new ≡ set_all nan (placed (order_of n marks.now) columns.now) w.old }
{
    let none = no_value();
    for p in 0..columns.len() {
        let j = lent::entry_place(n, marks, columns, p);
        w[j] = none;
    }
}

// Enters the values of a row at their places, in stored order.
fn enter_row(w: &mut [f64], n: usize, marks: &[u32], columns: &[Index], values: &[f64])
    requires { (length w.old ≡ n) × Loadable n marks.now columns.now values.now }
    ensures { w.new ≡ entering (pairs (placed (order_of n marks.now) columns.now) values.now) w.old }
{
    for (p, &v) in values.iter().enumerate() {
        let j = lent::entry_place(n, marks, columns, p);
        w[j] = with_value(w[j], v);
    }
}

// Does step 1: the entries of a row, own columns and values, over w at their places, the values of one column added in stored order. That this is
// step 1 where all values are finite, specs/LoadLaws.loads says.
pub fn load_row(w: &mut [f64], n: usize, marks: &[u32], columns: &[Index], values: &[f64])
    requires { (length w.old ≡ n) × Loadable n marks.now columns.now values.now }
    ensures { w.new ≡ entering (pairs (placed (order_of n marks.now) columns.now) values.now) (set_all nan (placed (order_of n marks.now) columns.now) w.old) }
{
    unset_row(w, n, marks, columns);
    enter_row(w, n, marks, columns, values);
}

// Does w[j] = w[j] - m * u for the listed j: a product and a difference, each rounded once.
pub fn axpy(w: &mut [f64], columns: &[Index], u: &[f64], m: f64)
    requires { (length columns.now ≡ length u.now) × Below (length w.old) columns.now }
    ensures { subtract any m columns.now u.now w.old ≡ ok w.new }
{
    for (p, &column) in columns.iter().enumerate() {
        let j = base::wide(column);
        w[j] -= m * u[p];
    }
}

// Step 2 at i: the sum and the working row less row i times its multiplier w(i).
fn subtract_row(
    f: &mut [f64],
    n: usize,
    i: usize,
    starts: &[u32],
    runs: &[u32],
    upper: &[Index],
    u: &[f64],
    row: RowSums,
) -> RowSums
    requires { (i < n) × (z_from n ≤ length f.old) × StoreShape n starts.now runs.now upper.now (length u.now) }
    ensures { Stepped n i (store_given n f.old starts.now runs.now upper.now u.now)
        f.old f.new row result }
{
    let m = f[i];
    let y = f[n + i];
    let above = lent::list_at(starts, runs, upper, i);
    let us = lent::values_at(starts, u, i);
    axpy(&mut f[..n], above, us, m);
    RowSums {
        sum: row.sum - m * y,
        reciprocal: row.reciprocal,
        y: row.y,
    }
}

// Does step 2 for every i of the lower row, ascending. The multipliers stay in the working row, at the places of the lower row.
pub fn eliminate(
    f: &mut [f64],
    n: usize,
    lower: &[u32],
    starts: &[u32],
    runs: &[u32],
    upper: &[Index],
    u: &[f64],
    row: RowSums,
) -> RowSums
    requires { (z_from n ≤ length f.old) × StoreShape n starts.now runs.now upper.now (length u.now) × Below n lower.now }
    ensures { Eliminated n lower.now (store_given n f.old starts.now runs.now upper.now u.now)
        f.old f.new row result }
{
    let mut s = row;
    for &i in lower {
        s = subtract_row(f, n, base::slot(i), starts, runs, upper, u, s);
    }
    s
}

// Whether w is finite at each listed place.
fn all_finite(w: &[f64], columns: &[Index]) -> bool
    requires { Below (length w.now) columns.now }
    ensures { result ≡ finite_on columns.now w.now }
{
    columns.iter().all(|j| is_finite(w[base::wide(*j)]))
}

// Whether row k's sum, its pivot and its working row above the diagonal are finite. (A multiplier that is not makes the sum not finite.)
fn row_finite(w: &[f64], k: usize, above: &[Index], sum: f64) -> bool
    requires { (k < length w.now) × Below (length w.now) above.now }
    ensures { result ≡ (finite sum && finite_on (k ∷ above.now) w.now) }
{
    is_finite(sum) && is_finite(w[k]) && all_finite(w, above)
}

// u = w at the listed places times d, from slot `from` on, up to the first that is not finite; whether all are.
fn scale(w: &[f64], columns: &[Index], u: &mut [f64], from: usize, d: f64) -> bool
    requires { (from + length columns.now ≤ length u.old) × Below (length w.now) columns.now }
    ensures { (result ≡ finite_all (products d w.now columns.now))
        × (result ≡ true → u.new ≡ sets u.old from (products d w.now columns.now)) }
{
    for (p, &column) in columns.iter().enumerate() {
        let j = base::wide(column);
        let x = w[j] * d;
        if !is_finite(x) {
            return false;
        }
        u[from + p] = x;
    }
    true
}

// What stops a row: Zero is 12, a pivot of at most the floor, and Overflow 13, a result that is not finite.
#[derive(Clone, Copy, PartialEq, Eq)]
pub enum RowFault {
    Zero,
    Overflow,
}

// Does step 3: one test of the row, the pivot under the floor, its reciprocal, y, and u into its slots. Gives the row's sums.
pub fn finish_row(
    w: &[f64],
    k: usize,
    floor: f64,
    above: &[Index],
    u: &mut [f64],
    from: usize,
    row: RowSums,
) -> Result<RowSums, RowFault>
    requires { (k < length w.now) × Below (length w.now) above.now × (from + length above.now ≤ length u.old) }
    ensures { Finished k floor above.now from w.now u.old u.new row.sum result }
{
    let sum = row.sum;
    if !row_finite(w, k, above, sum) {
        return Err(RowFault::Overflow);
    }
    let p = w[k];
    if base::at_most(p, floor) {
        return Err(RowFault::Zero);
    }
    let reciprocal = 1.0 / p;
    let y = sum * reciprocal;
    if is_finite(reciprocal) && is_finite(y) && scale(w, above, u, from, reciprocal) {
        return Ok(RowSums { sum, reciprocal, y });
    }
    Err(RowFault::Overflow)
}

// Does steps 1 to 3 of row k: its own columns and values, its right side, its lower row. A kept row's multipliers stand in the working row until
// `close_row`, so that the caller keeps them where its form does.
pub fn reduce_row(
    f: &mut [f64],
    n: usize,
    k: usize,
    marks: &[u32],
    columns: &[Index],
    values: &[f64],
    b: f64,
    floor: f64,
    lower: &[u32],
    starts: &[u32],
    runs: &[u32],
    upper: &[Index],
    u: &mut [f64],
) -> Result<RowSums, RowFault>
    requires { Reducible n k (length f.old) marks.now columns.now values.now lower.now starts.now runs.now upper.now (length u.old) }
    ensures { (S : System) (rows : List Row)
        → RowsHeld S rows n k f.old starts.now runs.now upper.now u.old
        → RowLent S k lower.now (placed (order_of n marks.now) columns.now) values.now b floor
        → Closed S k
        → Reduced S rows n k starts.now f.old f.new u.old u.new result }
{
    load_row(&mut f[..n], n, marks, columns, values);
    let sums = RowSums {
        sum: b,
        reciprocal: 0.0,
        y: 0.0,
    };
    let row = eliminate(f, n, lower, starts, runs, upper, u, sums);
    let above = lent::list_at(starts, runs, upper, k);
    let from = base::slot(starts[k]);
    finish_row(&f[..n], k, floor, above, u, from, row)
}

// +0 at the listed places.
fn clear_lower(w: &mut [f64], places: &[u32])
    requires { Below (length w.old) places.now }
    ensures { w.new ≡ zeroed places.now w.old }
{
    for &i in places {
        w[base::slot(i)] = 0.0;
    }
}

// The same of a list in its store. One function for both would cast an index outside of base, or by a trait for two types that are one
// where an index has 32 bits.
fn clear_upper(w: &mut [f64], places: &[Index])
    requires { Below (length w.old) places.now }
    ensures { w.new ≡ zeroed places.now w.old }
{
    for &i in places {
        w[base::wide(i)] = 0.0;
    }
}

// Writes y(k) and d(k) into their slots, and +0 at the filled places of row k, so that the working row is +0 again.
pub fn close_row(
    f: &mut [f64],
    n: usize,
    k: usize,
    lower: &[u32],
    starts: &[u32],
    runs: &[u32],
    upper: &[Index],
    d: &mut [f64],
    row: RowSums,
)
    requires { Closable n k (length f.old) lower.now starts.now runs.now upper.now (length d.old) }
    ensures { Shut n k lower.now (list_at starts.now runs.now upper.now k)
        f.old f.new d.old d.new row }
{
    let above = lent::list_at(starts, runs, upper, k);
    f[k] = 0.0;
    clear_lower(f, lower);
    clear_upper(f, above);
    f[n + k] = row.y;
    d[k] = row.reciprocal;
}

// Writes row k's multipliers from slot `from` on.
pub fn keep_by_rows(w: &[f64], lower: &[u32], l: &mut [f64], from: usize)
    requires { (from + length lower.now ≤ length l.old) × Below (length w.now) lower.now }
    ensures { l.new ≡ sets l.old from (gathered lower.now w.now) }
{
    for (p, &i) in lower.iter().enumerate() {
        l[from + p] = w[base::slot(i)];
    }
}

// Gives t less the products of the factors and z at the listed places, one after the other: the back steps take u and z so, another right side L and y.
pub fn subtract_products(t: f64, places: &[Index], factors: &[f64], z: &[f64]) -> f64
    requires { (length places.now ≡ length factors.now) × Below (length z.now) places.now }
    ensures { rest any t places.now factors.now z.now ≡ ok result }
{
    let mut s = t;
    for (p, &place) in places.iter().enumerate() {
        let j = base::wide(place);
        s -= factors[p] * z[j];
    }
    s
}

// The back step at k: y(k) less u(k, j) times z(j).
fn back_at(
    f: &[f64],
    n: usize,
    k: usize,
    starts: &[u32],
    runs: &[u32],
    upper: &[Index],
    u: &[f64],
) -> f64
    requires { (k < n) × (length f.now ≡ 3 * n) × StoreShape n starts.now runs.now upper.now (length u.now) }
    ensures { rest any (get_or f.now (n + k) nan) (list_at starts.now runs.now upper.now k)
        (row_of starts.now u.now k) (drop (z_from n) f.now) ≡ ok result }
{
    let t = f[n + k];
    let above = lent::list_at(starts, runs, upper, k);
    let us = lent::values_at(starts, u, k);
    let z = scratch::Z * n;
    subtract_products(t, above, us, &f[z..])
}

// Does the back steps, from n - 1 down to 0, and writes z(k) into its slot; the error is the place at which a result is not finite.
pub fn back_steps(
    f: &mut [f64],
    n: usize,
    starts: &[u32],
    runs: &[u32],
    upper: &[Index],
    u: &[f64],
) -> Result<(), usize>
    requires { (length f.old ≡ 3 * n) × StoreShape n starts.now runs.now upper.now (length u.now)
        × ((k : ℕ) → k < n → finite (get_or f.old (n + k) nan) ≡ true) }
    ensures { (numbered_back (drop (z_from n) f.new) result
        ≡ back (store_given n f.old starts.now runs.now upper.now u.now) n (drop (z_from n) f.old))
        × (take (z_from n) f.new ≡ take (z_from n) f.old) }
{
    let z = scratch::Z * n;
    for k in (0..n).rev() {
        let t = back_at(f, n, k, starts, runs, upper, u);
        if !is_finite(t) {
            return Err(k);
        }
        f[z + k] = t;
    }
    Ok(())
}
