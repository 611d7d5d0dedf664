// What is lent and only read. Lists are read by their starts and runs; own numbers and places are turned into each other by the orders.
#![tactic(auto)]

ghost use Rattle.std.specs.Prelude.{◌≡◌, ◌+◌, ◌<◌, ◌≤◌, length, get_or};
ghost use Rattle.std.specs.Float.{nan};
ghost use Rattle.base.specs.Lists.{list_at, row_of};
ghost use Rattle.base.specs.Limits.{max_rows};
ghost use Rattle.base.specs.Scratch.{blocks_from};
ghost use Rattle.lent.specs.Reading.{length_in, ListIn, own_at, place_at, order_of};

use base::{Index, OwnNumber, Place, scratch};

// ---- lists

// Gives how many entries list i has.
pub fn list_length(starts: &[u32], i: usize) -> usize
    requires { (i + 1 < length starts.now) × (get_or starts.now i 0 ≤ get_or starts.now (i + 1) 0) }
    ensures { (result ≡ length_in starts.now i) × (result < 4294967296) }
{
    base::slot(starts[i + 1]) - base::slot(starts[i])
}

// Hands back list i of a store.
pub fn list_at<'a, T>(starts: &[u32], runs: &[u32], store: &'a [T], i: usize) -> &'a [T]
    requires { ListIn starts.now runs.now (length store.now) i }
    ensures { result.now ≡ list_at starts.now runs.now store.now i }
{
    let a = base::slot(runs[i]);
    let e = a + list_length(starts, i);
    &store[a..e]
}

// Hands back the values along list i, which stand one list after another.
pub fn values_at<'a>(starts: &[u32], values: &'a [f64], i: usize) -> &'a [f64]
    requires { ListIn starts.now starts.now (length values.now) i }
    ensures { result.now ≡ row_of starts.now values.now i }
{
    list_at(starts, starts, values, i)
}

// ---- orders

// Gives the own row at a place, by the row order.
pub fn own_row(r: &[Index], k: Place) -> OwnNumber
    requires { k.0 < length r.now }
    ensures { result ≡ own_at r.now k }
{
    let at = k.0 as usize;
    OwnNumber(base::number(r[at]))
}

// Gives the place of an own column, by the inverse column order in scratch.
pub fn place_of(n: usize, marks: &[u32], j: OwnNumber) -> Place
    requires { (j.0 < n) × (n ≤ max_rows) × (blocks_from n ≤ length marks.now) }
    ensures { result ≡ place_at (order_of n marks.now) j }
{
    let at = j.0 as usize;
    Place(marks[scratch::INVERSE * n + at])
}

// Gives the place of entry q of a row, by its own column.
pub fn entry_place(n: usize, marks: &[u32], columns: &[Index], q: usize) -> usize
    requires { (q < length columns.now) × (get_or columns.now q 0 < n) × (n ≤ max_rows) × (blocks_from n ≤ length marks.now) }
    ensures { result ≡ get_or (order_of n marks.now) (get_or columns.now q 0) 0 }
{
    let own = OwnNumber(base::number(columns[q]));
    let place = place_of(n, marks, own);
    place.0 as usize
}

// ---- own rows

// Hands back the own columns of an own row, as stored.
pub fn row_columns<'a>(starts: &[u32], columns: &'a [Index], i: OwnNumber) -> &'a [Index]
    requires { ListIn starts.now starts.now (length columns.now) i.0 }
    ensures { result.now ≡ row_of starts.now columns.now i.0 }
{
    list_at(starts, starts, columns, i.0 as usize)
}

// Hands back the values of an own row, as stored.
pub fn row_values<'a>(starts: &[u32], values: &'a [f64], i: OwnNumber) -> &'a [f64]
    requires { ListIn starts.now starts.now (length values.now) i.0 }
    ensures { result.now ≡ row_of starts.now values.now i.0 }
{
    list_at(starts, starts, values, i.0 as usize)
}

// Gives the right side's value in an own row.
pub fn row_right(b: &[f64], i: OwnNumber) -> f64
    requires { i.0 < length b.now }
    ensures { result ≡ get_or b.now i.0 nan }
{
    b[i.0 as usize]
}
