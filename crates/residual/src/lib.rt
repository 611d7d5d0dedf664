// How far off a score is: for one own row, the residual of its equation at x, and a width that the exact residual keeps within.
#![tactic(auto)]

ghost use Rattle.std.specs.Prelude.{◌≡◌, ◌+◌, ◌≤◌};
ghost use Rattle.base.specs.Lists.{pairs};
ghost use Rattle.residual.specs.Residual.{longest_row, number, residual_from, total_of, width_from};
ghost use Rattle.residual.specs.Answer.{number_of_checked, place_of_checked, residual_in, width_in, ask_sizes, ask_entries, ask_row, scores, entries_of, right_of, row_answer};
ghost use Rattle.residual.specs.Promise.{Promised};
ghost use Rattle.residual.specs.Lent.{lent_matrix, RowFits, RowLent, Sized, Readable};

use base::{Index, Numbered, OwnNumber, Refusal};
use matrix::{Matrix, System};

// The residual and the width, or the number and place of a refusal: the paper names this enum and its two cases.
#[derive(Clone, Copy)]
pub enum Checked {
    Pair(f64, f64),
    Refused(u32, u32),
}

impl Numbered for Checked {
    ghost number_in = { number_of_checked };

    ghost place_in = { place_of_checked };

    fn number(self) -> u32 {
        match self {
            Checked::Pair(_, _) => 0,
            Checked::Refused(q, _) => q,
        }
    }

    fn place(self) -> u32 {
        match self {
            Checked::Pair(_, _) => 0,
            Checked::Refused(_, p) => p,
        }
    }
}

impl Checked {
    // Gives the residual, +0 after a refusal.
    pub fn residual(self) -> f64
        ensures { result ≡ residual_in self }
    {
        match self {
            Checked::Pair(r, _) => r,
            Checked::Refused(_, _) => 0.0,
        }
    }

    // Gives the width, +0 after a refusal.
    pub fn width(self) -> f64
        ensures { result ≡ width_in self }
    {
        match self {
            Checked::Pair(_, w) => w,
            Checked::Refused(_, _) => 0.0,
        }
    }
}

// ---- one row

// The residual and T, as far as they have come.
#[derive(Clone, Copy)]
pub struct Sums {
    pub residual: f64,
    pub total: f64,
}

// Takes each product from b, and adds its magnitude to that of b. Product, difference and sum are each rounded once.
fn sum_up(columns: &[Index], values: &[f64], x: &[f64], b: f64) -> Sums
    requires { RowLent columns.now values.now x.now }
    ensures { (result.residual ≡ residual_from b (pairs values.now (scores x.now columns.now))) × (result.total ≡ total_of b (pairs values.now (scores x.now columns.now))) }
{
    let mut residual = b;
    let mut total = base::magnitude(b);
    for (p, &column) in columns.iter().enumerate() {
        let j = base::wide(column);
        let m = values[p] * x[j];
        residual -= m;
        total += base::magnitude(m);
    }
    Sums { residual, total }
}

// A number of entries in binary64, where it is exact.
fn number_of(m: usize) -> f64
    requires { m ≤ longest_row + 2 }
    ensures { result ≡ number m }
{
    m as f64
}

// T·((q + 2)·2^−52) + q·2^−1074.
fn width_of(t: f64, q: usize) -> f64
    requires { q ≤ longest_row }
    ensures { result ≡ width_from t q }
{
    let share = number_of(q + 2) * 2.220446049250313e-16;
    let least = number_of(q) * 5e-324;
    t * share + least
}

// The residual and the width of a row, or 22. What is read is of the format, on which the statements on both rest.
fn check_row(input: System<'_>, x: &[f64], row: OwnNumber) -> Checked
    requires { Readable (lent_matrix input) x.now row }
    ensures { (result ≡ row_answer (right_of (lent_matrix input.entry) row) (entries_of (lent_matrix input.entry) x.now row) row)
        × RowFits (lent_matrix input.entry) row }
{
    let own = lent::row_columns(input.starts, input.columns, row);
    let entries = lent::row_values(input.starts, input.values, row);
    let right = lent::row_right(input.b, row);
    let s = sum_up(own, entries, x, right);
    let w = width_of(s.total, own.len());
    if base::is_finite(s.residual) & base::is_finite(w) {
        return Checked::Pair(s.residual, w);
    }
    Checked::Refused(22, row.0)
}

// ---- the questions

// Asks 1 and 2, from the lengths of what is lent.
fn ask_sizes(
    n: usize,
    starts: usize,
    columns: usize,
    values: usize,
    b: usize,
    x: usize,
) -> Result<(), Refusal>
    ensures { result ≡ ask_sizes n starts columns values b x }
{
    Matrix::new(n, columns)?;
    if (starts == n + 1) & (values == columns) & (b == n) & (x == n) {
        return Ok(());
    }
    Err(Refusal::Lengths)
}

// Asks 3 to 7.
fn ask_entries(input: System<'_>, x: &[f64], row: OwnNumber) -> Result<(), Refusal>
    requires { Sized (lent_matrix input) x.now }
    ensures { result ≡ ask_entries (lent_matrix input.entry) x.now row }
{
    questions::ask_starts(input.n, input.columns.len(), input.starts)?;
    questions::ask_columns(input.n, input.columns)?;
    if row.0 as usize >= input.n {
        return Err(Refusal::Order(row.0));
    }
    questions::ask_values(input.values, input.b)?;
    questions::ask_finite(x, input.columns.len() + input.n)?;
    if questions::row_empty(input.starts, row) {
        return Err(Refusal::EmptyRow(row));
    }
    Ok(())
}

// Asks 1 to 7.
fn ask_row(input: System<'_>, x: &[f64], row: OwnNumber) -> Result<(), Refusal>
    ensures { result ≡ ask_row (lent_matrix input.entry) x.now row }
{
    ask_sizes(
        input.n,
        input.starts.len(),
        input.columns.len(),
        input.values.len(),
        input.b.len(),
        x.len(),
    )?;
    ask_entries(input, x, row)
}

// ---- the call

// Gives the residual and the width of an own row at x. What it answers is settled for every input, and both statements on the residual and the width
// hold of every pair that it gives.
pub fn residual(input: System<'_>, x: &[f64], row: OwnNumber) -> Checked
    ensures { Promised (lent_matrix input.entry) x.now row result }
{
    let a = ask_row(input, x, row);
    if let Err(q) = a {
        return Checked::Refused(q.number(), q.place());
    }
    check_row(input, x, row)
}
