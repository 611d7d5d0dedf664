// The test load that every office can make: a matrix, orders and a right side from n and a 16-bit seed.
#![tactic(auto)]

ghost use Rattle.std.specs.Prelude.{◌≡◌, ◌==◌, ℕ, ◌<◌, ◌≤◌, length};
ghost use Rattle.std.specs.List.{list_any};
ghost use Rattle.base.specs.Lists.{table};
ghost use Rattle.load.specs.Load.{drawn, column_of, one, load_outcome};
ghost use Rattle.matrix.specs.Lists.{matrix_lists};
ghost use Rattle.base.specs.Answers.{left};
ghost use Rattle.base.specs.Limits.{max_rows};
ghost use Rattle.load.specs.Stores.{Drawable, Drew, RowDrawable, RowDrew, RowsLent, RowsDrawn};

use base::{Index, Refusal};
use matrix::Matrix;

// Gives the seed that a draw sets.
fn next(seed: u32) -> u32
    requires { seed < 65536 }
    ensures { (result ≡ drawn seed) × (result < 65536) }
{
    (seed * 25173 + 13849) % 65536
}

// Gives the column of a draw.
fn column_of(n: u32, seed: u32) -> u32
    requires { 0 < n }
    ensures { (result ≡ column_of n seed) × (result < n) }
{
    seed / 16 % n
}

// Tells whether a column stands in the row, which has four entries at most.
fn stands(row: &[Index], column: Index) -> bool
    ensures { result ≡ list_any (λ x. x == column) row.now }
{
    row.iter().any(|&x| x == column)
}

// The value of entry (k, k).
const DIAGONAL: f64 = 4.0;

// The value of a drawn entry.
const SHARE: f64 = -1.0;

// How far the stores are filled, and the seed of the next draw.
#[derive(Clone, Copy)]
pub struct Drawn {
    pub end: usize,
    pub seed: u32,
}

impl Drawn {
    // Draws once for the row from `from` on.
    fn draw(self, n: u32, columns: &mut [Index], values: &mut [f64], from: usize) -> Drawn
        requires { Drawable n (length columns.old) (length values.old) from self }
        ensures { Drew n from self columns.old values.old result columns.new values.new }
    {
        let end = self.end;
        let seed = next(self.seed);
        let column = base::narrow(column_of(n, seed));
        if stands(&columns[from..end], column) {
            return Drawn { end, seed };
        }
        columns[end] = column;
        values[end] = SHARE;
        Drawn { end: end + 1, seed }
    }

    // Draws own row k: the diagonal, then three draws.
    fn draw_row(self, n: u32, k: u32, columns: &mut [Index], values: &mut [f64]) -> Drawn
        requires { RowDrawable n k (length columns.old) (length values.old) self }
        ensures { RowDrew n k self columns.old values.old result columns.new values.new }
    {
        let from = self.end;
        columns[from] = base::narrow(k);
        values[from] = DIAGONAL;
        let first = Drawn {
            end: from + 1,
            seed: self.seed,
        };
        let a = first.draw(n, columns, values, from);
        let b = a.draw(n, columns, values, from);
        b.draw(n, columns, values, from)
    }
}

// Draws the rows one after another and answers how many entries they have.
fn draw_rows(
    n: usize,
    seed: u32,
    starts: &mut [u32],
    columns: &mut [Index],
    values: &mut [f64],
) -> usize
    requires { RowsLent n seed starts.old columns.old values.old }
    ensures { RowsDrawn n seed result starts.new columns.new values.new }
{
    starts[0] = 0;
    let mut d = Drawn { end: 0, seed };
    for k in 0..n {
        d = d.draw_row(n as u32, k as u32, columns, values);
        starts[k + 1] = d.end as u32;
    }
    d.end
}

// Writes the order 0, 1, .. .
fn natural(order: &mut [Index])
    requires { length order.old ≤ max_rows }
    ensures { order.new ≡ table (λ (k : ℕ). k) (length order.old) }
{
    for (k, place) in order.iter_mut().enumerate() {
        *place = base::narrow(k as u32);
    }
}

// Writes a right side of ones.
fn ones(b: &mut [f64])
    ensures { b.new ≡ table (λ (k : ℕ). one) (length b.old) }
{
    b.fill(1.0);
}

// Makes the test load of n rows from a seed: its rows, the orders 0, 1, .., and a right side of ones. Answers how many
// entries it has; an n out of its limits is refused with 1, a buffer of wrong length with 2, and nothing is written then.
pub fn test_load(
    n: usize,
    seed: u16,
    starts: &mut [u32],
    columns: &mut [Index],
    values: &mut [f64],
    r: &mut [Index],
    c: &mut [Index],
    b: &mut [f64],
) -> Result<usize, Refusal>
    ensures { left result (matrix_lists starts.new columns.new values.new r.new c.new b.new)
        ≡ load_outcome n seed (matrix_lists starts.old columns.old values.old r.old c.old b.old) }
{
    if !Matrix::rows_within(n) {
        return Err(Refusal::Rows);
    }
    if !Matrix::lengths_right(
        n,
        4 * n,
        starts.len(),
        columns.len(),
        values.len(),
        r.len(),
        c.len(),
        b.len(),
    ) {
        return Err(Refusal::Lengths);
    }
    base::clear(columns);
    base::clear(values);
    let entries = draw_rows(n, seed as u32, starts, columns, values);
    natural(r);
    natural(c);
    ones(b);
    Ok(entries)
}
