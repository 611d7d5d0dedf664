// One place of one side of the symbolic elimination: its working set, kept as marks with block stamps, and the cuts of the lists it merges.
#![tactic(auto)]

ghost use Rattle.std.specs.Prelude.{◌≡◌, map, ℕ, ◌+◌, ◌-◌, ◌*◌, ◌/◌, ◌≤◌, ◌<◌, length, get_or, take, drop, set};
ghost use Rattle.std.proofs.lemmas.List.Edits.{sets};
ghost use Rattle.base.specs.Lists.{list_at, row_of, total};
ghost use Rattle.lent.specs.Reading.{length_in, ListIn, Below, order_of, placed};
ghost use Rattle.fill.specs.Fill.{Pattern, filled};
ghost use Rattle.marks.specs.Marks.{Room, Order, mark_at, stamped, Blocks, Bare, Holds, marked, members, visited, Merged, Base, part_at, PartIn, Parts, Walk, upto, cut_one};
ghost use Rattle.marks.specs.MergeLaws.{GoesOn};
ghost use Rattle.marks.specs.Rows.{Loaded, Closing, UpperListed, Renewed, Countable};
ghost use Rattle.base.specs.Scratch.{blocks_from, upper_cuts, list_from};
ghost use Rattle.base.specs.Limits.{max_rows};

use base::{Index, OwnNumber, Place, scratch};

// Adds place j to the set.
pub fn mark(marks: &mut [u32], n: usize, stamp: u32, j: usize)
    requires { (j < n) × Room n marks.old }
    ensures { marks.new ≡ mark_at n stamp marks.old j }
{
    marks[j] = stamp;
    marks[scratch::BLOCKS * n + j / 64] = stamp;
}

// Unites the set with a list of places.
fn merge_list(marks: &mut [u32], n: usize, stamp: u32, list: &[Index])
    requires below { Below n list.now }
    requires room { Room n marks.old }
    ensures { marks.new ≡ stamped n stamp marks.old list.now }
{
    for &j in list {
        mark(marks, n, stamp, base::wide(j));
    }
}

// Where the block of j ends, or `end` if that is before.
fn block_end(j: usize, end: usize) -> usize
    requires { (j < end) × (end ≤ max_rows) }
    ensures { (j < result) × (result ≤ end) × (result ≤ (j / 64 + 1) * 64) }
{
    let stop = (j / 64 + 1) * 64;
    end.min(stop)
}

// Where the next stamped block behind that of j begins, or `end` if that is before. The block of j is not stamped.
fn next_block(marks: &[u32], n: usize, stamp: u32, j: usize, end: usize) -> usize
    requires room { (j < end) × (end ≤ n) × Room n marks.now }
    requires bare { get_or marks.now (blocks_from n + j / 64) 0 ≡ stamp → ⊥ }
    ensures { Bare n stamp marks.now j end result }
{
    for b in j / 64 + 1..end.div_ceil(64) {
        if marks[scratch::BLOCKS * n + b] == stamp {
            return b * 64;
        }
    }
    end
}

// Writes the members of one block, from `from` up to `end`, behind the `had` written before, and answers how many are written then.
fn gather_block(
    marks: &mut [u32],
    stamp: u32,
    from: usize,
    end: usize,
    at: usize,
    had: usize,
) -> usize
    requires { (from ≤ end) × (end ≤ at) × (end ≤ max_rows) × (at + had + (end - from) ≤ length marks.old) }
    ensures { (result ≡ had + length (members stamp marks.old from end)) × (marks.new ≡ sets marks.old (at + had) (members stamp marks.old from end)) }
{
    let mut count = had;
    for q in from..end {
        if marks[q] == stamp {
            marks[at + count] = q as u32;
            count += 1;
        }
    }
    count
}

// Writes the members from `from` up to `end`, ascending, from slot `at` on and answers how many they are.
fn gather(marks: &mut [u32], n: usize, stamp: u32, from: usize, end: usize, at: usize) -> usize
    requires bounds { (from ≤ end) × (end ≤ n) × Room n marks.old }
    requires space { (upper_cuts n ≤ at) × (at + (end - from) ≤ length marks.old) }
    requires blocks { Blocks n stamp marks.old }
    ensures { (result ≡ length (members stamp marks.old from end)) × (marks.new ≡ sets marks.old at (members stamp marks.old from end)) }
{
    // A `for` over the blocks makes each bare one three times as dear: both ends of a block are computed before its stamp is read.
    let mut count = 0;
    let mut j = from;
    while j < end {
        if marks[scratch::BLOCKS * n + j / 64] == stamp {
            let stop = block_end(j, end);
            count = gather_block(marks, stamp, j, stop, at, count);
            j = stop;
        } else {
            j = next_block(marks, n, stamp, j, end);
        }
    }
    count
}

// Adds the columns of a row of M at their places.
pub fn load_row(marks: &mut [u32], n: usize, stamp: u32, cols: &[Index])
    requires below { Below n cols.now }
    requires room { Room n marks.old }
    requires order { Order n marks.old }
    ensures { marks.new ≡ stamped n stamp marks.old (placed (order_of n marks.old) cols.now) }
{
    for &column in cols {
        let place = lent::place_of(n, marks, OwnNumber(base::number(column)));
        mark(marks, n, stamp, place.0 as usize);
    }
}

// The entries of list i that a later place merges.
fn cut_part<'a>(
    marks: &[u32],
    cuts: usize,
    runs: &[u32],
    index: &'a [Index],
    i: usize,
) -> &'a [Index]
    requires { (cuts + i < length marks.now) × (i < length runs.now) × (get_or runs.now i 0 + get_or marks.now (cuts + i) 0 ≤ length index.now) }
    ensures { result.now ≡ part_at marks.now cuts runs.now index.now i }
{
    let a = base::slot(runs[i]);
    let e = a + base::slot(marks[cuts + i]);
    &index[a..e]
}

// Unites the set with list i of a store, as far as its cut.
fn merge_run(
    marks: &mut [u32],
    n: usize,
    stamp: u32,
    i: usize,
    cuts: usize,
    runs: &[u32],
    index: &[Index],
)
    requires room { Room n marks.old × Base n cuts × PartIn n marks.old cuts runs.now index.now i }
    requires below { Below n (part_at marks.old cuts runs.now index.now i) }
    ensures { marks.new ≡ stamped n stamp marks.old (part_at marks.old cuts runs.now index.now i) }
{
    let list = cut_part(marks, cuts, runs, index, i);
    merge_list(marks, n, stamp, list);
}

// The members from `from` up to `end`: each is written behind the `had` before, and the set is united with its list as far as its cut.
fn merge_block(
    marks: &mut [u32],
    n: usize,
    stamp: u32,
    from: usize,
    end: usize,
    had: usize,
    cuts: usize,
    runs: &[u32],
    index: &[Index],
) -> usize
    requires parts { Parts n end marks.old cuts runs.now index.now }
    requires bounds { (had ≤ from) × (from ≤ end) × (end ≤ n) × Base n cuts × Room n marks.old }
    ensures { GoesOn n stamp cuts runs.now index.now marks.old from had marks.new end result }
{
    let mut count = had;
    for i in from..end {
        if marks[i] == stamp {
            marks[scratch::LIST * n + count] = i as u32;
            count += 1;
            merge_run(marks, n, stamp, i, cuts, runs, index);
        }
    }
    count
}

// Unites the set with the list of each member below k, as far as its cut, in ascending order.
// Writes these members to the list region and answers how many they are.
fn merge_lower(
    marks: &mut [u32],
    n: usize,
    stamp: u32,
    k: usize,
    cuts: usize,
    runs: &[u32],
    index: &[Index],
) -> usize
    requires parts { Parts n k marks.old cuts runs.now index.now }
    requires bounds { (k ≤ n) × Base n cuts × Room n marks.old }
    requires blocks { Blocks n stamp marks.old }
    ensures { Merged n stamp k (part_at marks.old cuts runs.now index.now) marks.old marks.new result }
{
    let mut count = 0;
    for b in 0..k.div_ceil(64) {
        if marks[scratch::BLOCKS * n + b] == stamp {
            let end = k.min(b * 64 + 64);
            count = merge_block(marks, n, stamp, b * 64, end, count, cuts, runs, index);
        }
    }
    count
}

// How many entries of a list go as far as place k; all, if it has no k.
fn reach_of(list: &[Index], k: usize) -> usize
    ensures { (result ≡ upto k list.now) × (result ≤ length list.now) }
{
    for (p, &x) in list.iter().enumerate() {
        if base::wide(x) == k {
            return p + 1;
        }
    }
    list.len()
}

// Place k meets list i: if it is not yet cut and has k, it is cut behind k.
fn cut_list(
    marks: &mut [u32],
    k: usize,
    i: usize,
    cuts: usize,
    starts: &[u32],
    runs: &[u32],
    index: &[Index],
)
    requires { (cuts + i < length marks.old) × ListIn starts.now runs.now (length index.now) i }
    ensures { marks.new ≡ cut_one cuts k (list_at starts.now runs.now index.now) i marks.old }
{
    let list = lent::list_at(starts, runs, index, i);
    let at = cuts + i;
    if base::slot(marks[at]) == list.len() {
        let c = reach_of(list, k);
        marks[at] = c as u32;
    }
}

// Cuts the lists of the members below k that have k; these members, `below` of them, stand in the list region.
fn close_cuts(
    marks: &mut [u32],
    n: usize,
    k: usize,
    below: usize,
    cuts: usize,
    starts: &[u32],
    runs: &[u32],
    index: &[Index],
)
    requires lists { (i : ℕ) → i < k → ListIn starts.now runs.now (length index.now) i }
    requires bounds { (k < n) × Base n cuts × Room n marks.old }
    requires walk { Walk n k below marks.old }
    ensures { (stamp : ℕ) → take below (drop (list_from n) marks.old) ≡ members stamp marks.old 0 k
        → marks.new ≡ visited stamp (cut_one cuts k (list_at starts.now runs.now index.now)) 0 k marks.old }
{
    for p in 0..below {
        let i = base::slot(marks[scratch::LIST * n + p]);
        cut_list(marks, k, i, cuts, starts, runs, index);
    }
}

// List k is not cut: the slot of its cut holds its length.
fn open_cut(marks: &mut [u32], k: usize, cuts: usize, starts: &[u32])
    requires { (cuts + k < length marks.old) × (k + 1 < length starts.now) × (get_or starts.now k 0 ≤ get_or starts.now (k + 1) 0) }
    ensures { marks.new ≡ set marks.old (cuts + k) (get_or starts.now (k + 1) 0 - get_or starts.now k 0) }
{
    marks[cuts + k] = starts[k + 1] - starts[k];
}

// ---- one place of one side

// Adds the entries of row k of M' to the marks.
pub fn load_row_place(
    marks: &mut [u32],
    n: usize,
    stamp: u32,
    k: Place,
    starts: &[u32],
    columns: &[Index],
    r: &[Index],
)
    requires bounds { (k.0 < length r.now) × Room n marks.old }
    requires list_in { ListIn starts.now starts.now (length columns.now) (get_or r.now k.0 0) }
    requires below { Below n (row_of starts.now columns.now (get_or r.now k.0 0)) }
    requires order { Order n marks.old }
    ensures { Loaded n stamp (get_or r.now k.0 0) starts.now columns.now marks.old marks.new }
{
    let i = lent::own_row(r, k);
    let cols = lent::row_columns(starts, columns, i);
    load_row(marks, n, stamp, cols);
}

// Unites the entries of place k, already marked, with the lists of the members below k: the marks are then row k of the fill,
// and lower row k stands in the list region. Answers how long that is.
pub fn close_place(
    marks: &mut [u32],
    n: usize,
    stamp: u32,
    k: Place,
    cuts: usize,
    runs: &[u32],
    index: &[Index],
) -> usize
    requires parts { Parts n k.0 marks.old cuts runs.now index.now }
    requires bounds { (k.0 < n) × Base n cuts × Room n marks.old }
    requires blocks { Blocks n stamp marks.old }
    ensures { Closing n stamp k.0 cuts runs.now index.now marks.old marks.new result }
{
    let end = k.0 as usize;
    merge_lower(marks, n, stamp, end, cuts, runs, index)
}

// Tells whether (k, k) is filled, by the marks of place k.
pub fn has_diagonal(marks: &[u32], stamp: u32, k: Place) -> bool
    requires { k.0 < length marks.now }
    ensures value { result ≡ marked stamp marks.now k.0 }
    ensures filled { (n : ℕ) (P : Pattern) → k.0 < n → Holds n stamp marks.now (filled P k.0) → result ≡ filled P k.0 k.0 }
{
    let i = k.0 as usize;
    marks[i] == stamp
}

// Writes T(k) behind lower row k, which has `below` entries.
pub fn list_upper(marks: &mut [u32], n: usize, stamp: u32, k: Place, below: usize) -> usize
    requires bounds { (k.0 < n) × (below ≤ k.0) × Room n marks.old }
    requires blocks { Blocks n stamp marks.old }
    ensures { (P : Pattern) → Holds n stamp marks.old (filled P k.0) → UpperListed P n k.0 below marks.old marks.new result }
{
    let i = k.0 as usize;
    gather(marks, n, stamp, i + 1, n, scratch::LIST * n + below)
}

// Makes the cuts for place k + 1, once T(k) is in the store. The members below k, `below` of them, stand in the list region.
pub fn renew_cuts(
    marks: &mut [u32],
    n: usize,
    k: Place,
    below: usize,
    cuts: usize,
    starts: &[u32],
    runs: &[u32],
    index: &[Index],
)
    requires lists { (i : ℕ) → i < k.0 + 1 → ListIn starts.now runs.now (length index.now) i }
    requires bounds { (k.0 < n) × Base n cuts × Room n marks.old }
    requires walk { Walk n k.0 below marks.old }
    ensures { (stamp : ℕ) → take below (drop (list_from n) marks.old) ≡ members stamp marks.old 0 k.0
        → Renewed n stamp k.0 cuts starts.now runs.now index.now marks.old marks.new }
{
    let i = k.0 as usize;
    close_cuts(marks, n, i, below, cuts, starts, runs, index);
    open_cut(marks, i, cuts, starts);
}

// Counts the products of row k: the entries of T(i) for each i of its lower row, taken together.
pub fn row_products(list: &[u32], starts: &[u32]) -> u64
    requires { Countable list.now starts.now }
    ensures { result ≡ total (map (length_in starts.now) list.now) }
{
    let mut sum: u64 = 0;
    for &i in list {
        let at = base::slot(i);
        sum += lent::list_length(starts, at) as u64;
    }
    sum
}
