// The columns of M', which is lent by rows, handed out for k = 0, 1, .. in turn as stamps.
// A window of columns is a set of linked lists in scratch, made by one scan of the rows; the next window begins where it ends.
#![tactic(auto)]

ghost use Rattle.std.specs.Prelude.{◌≡◌, List, [], ◌∷◌, ℕ, ◌+◌, ◌*◌, ◌≤◌, ◌<◌, length, get_or};
ghost use Rattle.base.specs.Lists.{row_of};
ghost use Rattle.lent.specs.Reading.{ListIn, Below, order_of, placed};
ghost use Rattle.matrix.specs.Input.{lent_pattern};
ghost use Rattle.marks.specs.Marks.{Room, Order, stamped};
ghost use Rattle.columns.specs.Columns.{bare, column, Counting, Countable, Counted, Tally, Started, Emptied, Roomy, Offered, push_at, held, Filled, Ready, Windowed, Chain, HasChain, Leading, Loaded};
ghost use Rattle.columns.specs.Sides.{SideReady, SideLoaded, Readable, rows_in};
ghost use Rattle.base.specs.Scratch.{heads_from};
ghost use Rattle.base.specs.Limits.{max_rows};

use base::{Index, OwnNumber, Place, Side, scratch};
use matrix::System;

// The own columns of the row at place k.
fn row_of<'a>(input: System<'a>, k: usize) -> &'a [Index]
    requires place { (k < length input.r.now) × (k < max_rows) }
    requires list_in { ListIn input.starts.now input.starts.now (length input.columns.now) (get_or input.r.now k 0) }
    ensures { result.now ≡ row_of input.entry.starts.now input.entry.columns.now (get_or input.entry.r.now k 0) }
{
    let i = lent::own_row(input.r, Place(k as u32));
    lent::row_columns(input.starts, input.columns, i)
}

// ---- counts

// Empties all heads, and the last rows.
fn clear_counts(marks: &mut [u32], n: usize)
    requires { Room n marks.old }
    ensures { Tally n bare marks.old marks.new }
{
    marks[scratch::HEADS * n..scratch::HEADS * n + n].fill(0);
    marks[scratch::LASTS * n..scratch::LASTS * n + n].fill(0);
}

// Counts row i for column j, unless it is counted there.
fn count_one(marks: &mut [u32], n: usize, i: usize, j: usize)
    requires room { Room n marks.old }
    requires bounds { (i < n) × (j < n) × (get_or marks.old (heads_from n + j) 0 ≤ n) }
    ensures { Counted n i (j ∷ []) marks.old marks.new }
{
    let last = (i + 1) as u32;
    if marks[scratch::LASTS * n + j] == last {
        return;
    }
    let count = marks[scratch::HEADS * n + j];
    marks[scratch::HEADS * n + j] = count + 1;
    marks[scratch::LASTS * n + j] = last;
}

// Counts row i for each column that it names.
fn count_row(marks: &mut [u32], n: usize, i: usize, cols: &[Index])
    requires room { Room n marks.old }
    requires order { Order n marks.old }
    requires below { Below n cols.now }
    requires countable { (i < n) × Countable n i marks.old }
    ensures { Counted n i (placed (order_of n marks.old) cols.now) marks.old marks.new }
{
    for &column in cols {
        let place = lent::place_of(n, marks, OwnNumber(base::number(column)));
        count_one(marks, n, i, place.0 as usize);
    }
}

// Counts the rows of each column in heads that are empty.
fn count_columns(marks: &mut [u32], input: System<'_>)
    requires given { Readable (lent_pattern input) marks.old }
    requires counting { Counting input.n marks.old bare }
    ensures { Tally input.entry.n (column (rows_in (lent_pattern input.entry) marks.old) input.entry.n) marks.old marks.new }
{
    for k in 0..input.n {
        let cols = row_of(input, k);
        count_row(marks, input.n, k, cols);
    }
}

// Makes ready for the first column: no window is open.
pub fn start_columns(marks: &mut [u32], input: System<'_>)
    requires { Readable (lent_pattern input) marks.old }
    ensures { Started input.entry.n (rows_in (lent_pattern input.entry) marks.old) marks.old marks.new }
{
    clear_counts(marks, input.n);
    count_columns(marks, input);
}

// ---- windows

// Empties the heads from lo on, as long as what they count fits the nodes, and answers where it stops.
fn open_window(marks: &mut [u32], n: usize, lo: usize) -> usize
    requires room { Room n marks.old }
    requires first { lo ≤ n }
    ensures { Emptied n lo result marks.old marks.new }
{
    let mut left = n;
    for hi in lo..n {
        let count = base::slot(marks[scratch::HEADS * n + hi]);
        if left < count {
            return hi;
        }
        left -= count;
        marks[scratch::HEADS * n + hi] = 0;
    }
    n
}

// Puts node p, with row i, in front of column j's list.
fn push_node(marks: &mut [u32], n: usize, p: usize, i: usize, j: usize)
    requires room { Room n marks.old }
    requires bounds { (p < n) × (i < n) × (j < n) }
    ensures { marks.new ≡ push_at n p i j marks.old }
{
    let rest = marks[scratch::HEADS * n + j];
    let b = scratch::NODES * n + (p + p);
    marks[b] = i as u32;
    marks[b + 1] = rest;
    marks[scratch::HEADS * n + j] = (p + 1) as u32;
}

// Whether row i stands in front of column j's list.
fn leads_with(marks: &[u32], n: usize, i: usize, j: usize) -> bool
    requires room { Room n marks.now }
    requires chain { (j < n) × HasChain n marks.now (get_or marks.now (heads_from n + j) 0) }
    ensures { Leading n i j marks.now result }
{
    let head = base::slot(marks[scratch::HEADS * n + j]);
    if head == 0 {
        return false;
    }
    base::slot(marks[scratch::NODES * n + (head - 1 + (head - 1))]) == i
}

// Row i goes into column j's list, once, where that is one of lo to hi; answers how many nodes are used.
fn offer(
    marks: &mut [u32],
    n: usize,
    lo: usize,
    hi: usize,
    i: usize,
    j: usize,
    used: usize,
) -> usize
    requires room { Room n marks.old }
    requires bounds { (hi ≤ n) × (i < n) }
    requires roomy { Roomy n lo hi i (j ∷ []) marks.old used }
    ensures { Offered n lo hi i (j ∷ []) marks.old marks.new used result }
{
    if j < lo {
        return used;
    }
    if hi <= j {
        return used;
    }
    if leads_with(marks, n, i, j) {
        return used;
    }
    push_node(marks, n, used, i, j);
    used + 1
}

// The entries of row i go into the lists of lo to hi.
fn offer_row(
    marks: &mut [u32],
    n: usize,
    lo: usize,
    hi: usize,
    i: usize,
    cols: &[Index],
    used: usize,
) -> usize
    requires room { Room n marks.old }
    requires below { Below n cols.now }
    requires bounds { (hi ≤ n) × (i < n) }
    requires roomy { Roomy n lo hi i (placed (order_of n marks.old) cols.now) marks.old used }
    ensures { Offered n lo hi i (placed (order_of n marks.old) cols.now) marks.old marks.new used result }
{
    let mut p = used;
    for &column in cols {
        let place = lent::place_of(n, marks, OwnNumber(base::number(column)));
        p = offer(marks, n, lo, hi, i, place.0 as usize, p);
    }
    p
}

// The lists of the columns lo to hi, whose heads are empty.
fn fill_window(marks: &mut [u32], input: System<'_>, lo: usize, hi: usize)
    requires given { Readable (lent_pattern input) marks.old }
    requires fits { (hi ≤ input.n) × (held lo hi (column (rows_in (lent_pattern input) marks.old) input.n) ≤ input.n) }
    requires empty { (j : ℕ) → lo ≤ j → j < hi → get_or marks.old (heads_from input.n + j) 0 ≡ 0 }
    ensures { Filled input.entry.n lo hi (column (rows_in (lent_pattern input.entry) marks.old) input.entry.n) marks.old marks.new }
{
    let mut p = 0;
    for k in 0..input.n {
        let cols = row_of(input, k);
        p = offer_row(marks, input.n, lo, hi, k, cols, p);
    }
}

// A window from k on, unless column k is in the one at hand.
fn window_at(marks: &mut [u32], input: System<'_>, k: usize, hi: usize) -> usize
    requires given { Readable (lent_pattern input) marks.old }
    requires ready { Ready input.n k hi (rows_in (lent_pattern input) marks.old) marks.old }
    requires place { k < input.n }
    ensures { Windowed input.entry.n k result (rows_in (lent_pattern input.entry) marks.old) marks.old marks.new }
{
    if k < hi {
        return hi;
    }
    let end = open_window(marks, input.n, k);
    fill_window(marks, input, k, end);
    end
}

// ---- loading

// Stamps the list at a head. A chain of nodes has no index to count, so its loop goes on while there is a node.
fn stamp_list(marks: &mut [u32], n: usize, stamp: u32, head: usize)
    requires room { Room n marks.old }
    requires has_chain { HasChain n marks.old head }
    ensures { (l : List ℕ) → Chain n marks.old head l → marks.new ≡ stamped n stamp marks.old l }
{
    let mut h = head;
    while 0 < h {
        let b = scratch::NODES * n + (h - 1 + (h - 1));
        let i = base::slot(marks[b]);
        let rest = base::slot(marks[b + 1]);
        marks::mark(marks, n, stamp, i);
        h = rest;
    }
}

// Hands out column k as stamps, and answers the end of the window at hand.
pub fn load_column(marks: &mut [u32], input: System<'_>, stamp: u32, k: usize, hi: usize) -> usize
    requires given { Readable (lent_pattern input) marks.old }
    requires ready { Ready input.n k hi (rows_in (lent_pattern input) marks.old) marks.old }
    requires place { k < input.n }
    ensures { Loaded input.entry.n stamp k result (rows_in (lent_pattern input.entry) marks.old) marks.old marks.new }
{
    let end = window_at(marks, input, k, hi);
    let head = base::slot(marks[scratch::HEADS * input.n + k]);
    stamp_list(marks, input.n, stamp, head);
    end
}

// Hands out place k of a side as stamps, row k of M' above, column k below, and answers the end of the window at hand.
pub fn load(
    side: Side,
    marks: &mut [u32],
    input: System<'_>,
    stamp: u32,
    k: usize,
    hi: usize,
) -> usize
    requires given { Readable (lent_pattern input) marks.old }
    requires side_ready { SideReady side input.n k hi (rows_in (lent_pattern input) marks.old) marks.old }
    requires place { k < input.n }
    ensures { SideLoaded side input.entry.n stamp k hi result (rows_in (lent_pattern input.entry) marks.old) marks.old marks.new }
{
    match side {
        Side::Lower => load_column(marks, input, stamp, k, hi),
        Side::Upper => {
            let cols = row_of(input, k);
            marks::load_row(marks, input.n, stamp, cols);
            hi
        }
    }
}
