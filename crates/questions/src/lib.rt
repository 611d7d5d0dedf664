// Questions 3 to 7 and 19 on a lent matrix, its orders and its numbers, and what goes by an order: the inverse, the solution.
#![tactic(auto)]

ghost use Rattle.std.specs.Prelude.{◌≡◌, [], ◌+◌, ◌-◌, ◌<◌, ◌≤◌, length, get_or, set, eqb, leb, not};
ghost use Rattle.std.specs.List.{position};
ghost use Rattle.std.specs.Float.Ieee.Scale.{finite};
ghost use Rattle.base.specs.First.{first};
ghost use Rattle.matrix.specs.Input.{own_order, lent, lent_pattern};
ghost use Rattle.matrix.specs.Questions.{bad_start, bad_index, no_entry, ask3, ask4, ask5, ask_finite, ask6, ask_floor, ask_numbers, ask7, ask_pattern, ask_structure, ask_solve, ask_right};
ghost use Rattle.questions.specs.Lent.{Lent, SolveLent, RightLent, OrdersLent, OrderLent, PlacesLent, Unmarked, ask_order, InverseLent, SolutionLent, inverted, inverted_at};

use base::{Index, OwnNumber, Place, Refusal};
use matrix::System;

// ---- the orders

// Writes the inverse of an order into the first n slots, and leaves the others.
pub fn invert(n: usize, order: &[Index], inverse: &mut [u32])
    requires { InverseLent n order.now (length inverse.old) }
    ensures { inverse.new ≡ inverted order.now n inverse.old }
{
    for (k, j) in order.iter().enumerate() {
        inverse[base::wide(*j)] = k as u32;
    }
}

// Writes the inverse of an order into slots n to 2n - 1, and leaves the others.
pub fn invert_at(n: usize, order: &[Index], scratch: &mut [u32])
    requires { InverseLent n order.now (length scratch.old - n) }
    ensures { scratch.new ≡ inverted_at order.now n scratch.old }
{
    invert(n, order, &mut scratch[n..]);
}

// Writes the solution by own column: "x(c(k)) = t".
pub fn write_solution(n: usize, c: &[Index], z: &[f64], x: &mut [f64])
    requires { SolutionLent n c.now (length z.now) (length x.old) }
    ensures { x.new ≡ own_order c.now n z.now }
{
    for (k, j) in c.iter().enumerate() {
        let at = base::wide(*j);
        x[at] = z[k];
    }
}

// ---- marks: a slot for each number below n, which holds 1 once its number was met

// Whether a slot is marked; it is from now on.
fn mark_slot(j: usize, marks: &mut [u32]) -> bool
    requires { j < length marks.old }
    ensures { (result ≡ eqb (get_or marks.old j 0) 1) × (marks.new ≡ set marks.old j 1) }
{
    let seen = marks[j] == 1;
    marks[j] = 1;
    seen
}

// Gives the first index whose number is out of range or stands before it too. No slot is marked yet.
fn first_fault(n: usize, list: &[Index], marks: &mut [u32]) -> Option<usize>
    requires { Unmarked n marks.old }
    ensures { result ≡ first (bad_index list.now n) (length list.now) }
{
    for (p, j) in list.iter().enumerate() {
        let j = base::wide(*j);
        if j >= n || mark_slot(j, marks) {
            return Some(p);
        }
    }
    None
}

// ---- the questions

// Whether own row i's starts are at fault.
fn start_bad(n: usize, e: usize, starts: &[u32], i: OwnNumber) -> bool
    requires { (i.0 < n) × (length starts.now ≡ n + 1) }
    ensures { result ≡ bad_start starts.now n e i.0 }
{
    let at = i.0 as usize;
    let a = starts[at];
    let b = starts[at + 1];
    (b < a) | ((at == 0) & (a != 0)) | ((at + 1 == n) & (b as usize != e))
}

// Asks 3: do the starts begin at 0, never fall, and end at e?
pub fn ask_starts(n: usize, e: usize, starts: &[u32]) -> Result<(), Refusal>
    requires { (length starts.now ≡ n + 1) × (n ≤ 4294967296) }
    ensures { result ≡ ask3 n e starts.now }
{
    for i in 0..n {
        let row = OwnNumber(i as u32);
        if start_bad(n, e, starts, row) {
            return Err(Refusal::Starts(row));
        }
    }
    Ok(())
}

// Gives the first entry whose column is not below n.
fn first_outside(n: usize, columns: &[Index]) -> Option<usize>
    ensures { result ≡ position (λ j. leb n j) columns.now }
{
    columns.iter().position(|j| base::wide(*j) >= n)
}

// Asks 4: is each column below n?
pub fn ask_columns(n: usize, columns: &[Index]) -> Result<(), Refusal>
    requires { length columns.now ≤ 4294967296 }
    ensures { result ≡ ask4 n columns.now }
{
    match first_outside(n, columns) {
        Some(p) => Err(Refusal::Column(p as u32)),
        None => Ok(()),
    }
}

// Asks 5 of one order, and adds `from` to the index.
fn ask_order(n: usize, order: &[Index], from: usize, marks: &mut [u32]) -> Result<(), Refusal>
    requires { OrderLent n order.now from (length marks.old) }
    ensures { result ≡ ask_order order.now n from }
{
    base::clear(marks);
    match first_fault(n, order, marks) {
        Some(k) => Err(Refusal::Order((k + from) as u32)),
        None => Ok(()),
    }
}

// 5: are r and then c orders? Overwrites the marks.
pub fn ask_orders(n: usize, r: &[Index], c: &[Index], marks: &mut [u32]) -> Result<(), Refusal>
    requires { OrdersLent n r.now c.now (length marks.old) }
    ensures { result ≡ ask5 n r.now c.now }
{
    ask_order(n, r, 0, marks)?;
    ask_order(n, c, n, marks)
}

// Gives the first place of a number that is not finite.
fn first_not_finite(v: &[f64]) -> Option<usize>
    ensures { result ≡ position (λ x. not (finite x)) v.now }
{
    v.iter().position(|x| !base::is_finite(*x))
}

// Asks 6 of one slice, and adds `from` to the index.
pub fn ask_finite(v: &[f64], from: usize) -> Result<(), Refusal>
    requires { length v.now + from ≤ 4294967296 }
    ensures { result ≡ ask_finite v.now from }
{
    match first_not_finite(v) {
        Some(p) => Err(Refusal::NotFinite((p + from) as u32)),
        None => Ok(()),
    }
}

// Asks 6: are the values, then b, finite?
pub fn ask_values(values: &[f64], b: &[f64]) -> Result<(), Refusal>
    requires { length values.now + length b.now ≤ 4294967296 }
    ensures { result ≡ ask6 values.now b.now }
{
    ask_finite(values, 0)?;
    ask_finite(b, values.len())
}

// 19: is the floor a finite number, and not below zero?
fn ask_floor(floor: f64) -> Result<(), Refusal>
    ensures { result ≡ ask_floor floor }
{
    if !base::is_finite(floor) || floor < 0.0 {
        return Err(Refusal::Floor);
    }
    Ok(())
}

// 6, then 19.
fn ask_numbers(values: &[f64], b: &[f64], floor: f64) -> Result<(), Refusal>
    requires { length values.now + length b.now ≤ 4294967296 }
    ensures { result ≡ ask_numbers values.now b.now floor }
{
    ask_values(values, b)?;
    ask_floor(floor)
}

// Tells whether own row i has no entry.
pub fn row_empty(starts: &[u32], i: OwnNumber) -> bool
    requires { i.0 + 1 < length starts.now }
    ensures { result ≡ no_entry starts.now i.0 }
{
    let at = i.0 as usize;
    starts[at + 1] <= starts[at]
}

// 7: has each row an entry?
fn ask_entries(input: System<'_>) -> Result<(), Refusal>
    requires { PlacesLent input.n input.starts.now input.r.now }
    ensures { result ≡ ask7 input.entry.n input.entry.starts.now input.entry.r.now }
{
    for k in 0..input.n {
        let i = lent::own_row(input.r, Place(k as u32));
        if row_empty(input.starts, i) {
            return Err(Refusal::EmptyRow(i));
        }
    }
    Ok(())
}

// ---- the questions of a call, one after another

// Asks 3, 4 and 5.
fn ask_pattern(input: System<'_>, marks: &mut [u32]) -> Result<(), Refusal>
    requires { Lent input.n input.starts.now input.columns.now input.r.now input.c.now (length marks.old) }
    ensures { result ≡ ask_pattern (lent_pattern input.entry) }
{
    ask_starts(input.n, input.columns.len(), input.starts)?;
    ask_columns(input.n, input.columns)?;
    ask_orders(input.n, input.r, input.c, marks)
}

// Asks a structure call's 3, 4, 5 and 7, and overwrites the marks.
pub fn ask_structure(input: System<'_>, marks: &mut [u32]) -> Result<(), Refusal>
    requires { Lent input.n input.starts.now input.columns.now input.r.now input.c.now (length marks.old) }
    ensures { result ≡ ask_structure (lent_pattern input.entry) }
{
    ask_pattern(input, marks)?;
    ask_entries(input)
}

// Asks a solve's 3 to 6, 19 and 7, and overwrites the marks.
pub fn ask_solve(input: System<'_>, marks: &mut [u32]) -> Result<(), Refusal>
    requires { SolveLent (lent input) (length marks.old) }
    ensures { result ≡ ask_solve (lent input.entry) }
{
    ask_pattern(input, marks)?;
    ask_numbers(input.values, input.b, input.floor)?;
    ask_entries(input)
}

// Asks another right side's 5, and 6 of b, and overwrites the marks.
pub fn ask_right(
    n: usize,
    r: &[Index],
    c: &[Index],
    b: &[f64],
    marks: &mut [u32],
) -> Result<(), Refusal>
    requires { RightLent n r.now c.now (length b.now) (length marks.old) }
    ensures { result ≡ ask_right n r.now c.now b.now }
{
    ask_orders(n, r, c, marks)?;
    ask_finite(b, 0)
}
