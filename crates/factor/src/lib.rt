// The arithmetic of a solve over lists that stand in their stores: the factors row by row, then the back steps.
// Scratch of 32-bit slots has marks, the inverse column order from slot n on, block stamps from 2n, cuts from 3n, the cursors of L from 4n
// and lower row k from 5n.
#![tactic(auto)]

ghost use Rattle.std.specs.Prelude.{◌≡◌, List, ℕ, ◌+◌, ◌*◌, ◌-◌, ◌<◌, ◌≤◌, length, get_or, take, drop};
ghost use Rattle.std.proofs.lemmas.List.Edits.{sets};
ghost use Rattle.base.specs.Lists.{nought, blank, list_at, row_of};
ghost use Rattle.base.specs.declared.Form.TheVariants.{Shared};
ghost use Rattle.matrix.specs.Input.{lent_by};
ghost use Rattle.arithmetic.specs.Arith.{Row};
ghost use Rattle.arithmetic.specs.Stopping.{back};
ghost use Rattle.outcome.specs.Solve.{system};
ghost use Rattle.numeric.specs.Stores.{Closable, gathered, store_given};
ghost use Rattle.numeric.specs.Rows.{RowsHeld, Reduced, Shut};
ghost use Rattle.factor.specs.Factoring.{FactoredAs, refused_by, lent_lists, written, Factorable, zeroed, fresh_marks, Going, CameTo, lower_in, LowerAt, Findable, LowerFound, reads_lower, LowerAsked, LowerGiven, RowReady, Keepable, Spread, KeepAsked, KeepGiven, BackReady, back_as};
ghost use Rattle.base.specs.Scratch.{list_from, z_from};
ghost use Rattle.fill.specs.Fill.{Pattern};
ghost use Rattle.lent.specs.Reading.{ListIn};
ghost use Rattle.marks.specs.Marks.{Room};

use base::{Form, Index, Place, Refusal, RowSums, scratch};
use matrix::System;
use numeric::RowFault;

// What the arithmetic meets first, and at which place.
#[derive(Clone, Copy)]
pub enum Fault {
    Zero(Place),
    Overflow(Place),
}

// The lists of both sides as they stand in their stores, which the arithmetic only reads. A form passes [] for what it lacks, and its list starts
// as run starts where it has none.
#[derive(Clone, Copy)]
pub struct Lists<'a> {
    pub lower_starts: &'a [u32],
    pub lower_index: &'a [Index],
    pub upper_starts: &'a [u32],
    pub upper_runs: &'a [u32],
    pub upper_index: &'a [Index],
}

// 12 and 13.
impl From<Fault> for Refusal {
    ghost from_gives = { λ fault q. q ≡ refused_by fault };

    fn from(fault: Fault) -> Refusal {
        match fault {
            Fault::Zero(k) => Refusal::ZeroPivot(k),
            Fault::Overflow(k) => Refusal::Overflow(k),
        }
    }
}

// A list of places, from slot `at` on.
fn copy_list(list: &[Index], marks: &mut [u32], at: usize)
    requires { at + length list.now ≤ length marks.old }
    ensures { marks.new ≡ sets marks.old at list.now }
{
    for (p, &i) in list.iter().enumerate() {
        marks[at + p] = base::number(i);
    }
}

// Lower row k, so long, as a part of the marks.
fn lower_part(marks: &[u32], n: usize, below: usize) -> &[u32]
    requires { LowerAt n below (length marks.now) }
    ensures { result.now ≡ lower_in n below marks.now }
{
    let from = scratch::LIST * n;
    let end = from + below;
    &marks[from..end]
}

// y(k) and d(k) into their slots, and the working row +0 again.
fn close_at(
    n: usize,
    k: Place,
    lists: Lists<'_>,
    d: &mut [f64],
    work: &mut [f64],
    marks: &[u32],
    below: usize,
    t: RowSums,
)
    requires { LowerAt n below (length marks.now) × Closable n k.0 (length work.old) (lower_in n below marks.now) lists.upper_starts.now lists.upper_runs.now lists.upper_index.now (length d.old) }
    ensures { Shut n k.0 (lower_in n below marks.now) (list_at lists.entry.upper_starts.now lists.entry.upper_runs.now lists.entry.upper_index.now k.0)
        work.old work.new d.old d.new t }
{
    let place = k.0 as usize;
    let lower = lower_part(marks, n, below);
    numeric::close_row(
        work,
        n,
        place,
        lower,
        lists.upper_starts,
        lists.upper_runs,
        lists.upper_index,
        d,
        t,
    );
}

// The back steps over the rows done.
fn solve_back(
    n: usize,
    lists: Lists<'_>,
    upper_values: &[f64],
    work: &mut [f64],
) -> Result<(), Fault>
    requires { BackReady n lists.upper_starts.now lists.upper_runs.now lists.upper_index.now (length upper_values.now) work.old }
    ensures { back_as (drop (z_from n) work.new) result
        ≡ back (store_given n work.old lists.entry.upper_starts.now lists.entry.upper_runs.now lists.entry.upper_index.now upper_values.now) n (drop (z_from n) work.old) }
{
    numeric::back_steps(
        work,
        n,
        lists.upper_starts,
        lists.upper_runs,
        lists.upper_index,
        upper_values,
    )
    .map_err(|k| Fault::Overflow(Place(k as u32)))
}

// ---- lower row k in the marks, by form

// Lower row k from its store into the marks, and its length.
fn lower_plain(
    n: usize,
    k: Place,
    lower_starts: &[u32],
    lower_index: &[Index],
    marks: &mut [u32],
) -> usize
    requires { ListIn lower_starts.now lower_starts.now (length lower_index.now) k.0 × LowerAt n (length (row_of lower_starts.now lower_index.now k.0)) (length marks.old) }
    ensures { (result ≡ length (row_of lower_starts.now lower_index.now k.0))
        × (marks.new ≡ sets marks.old (list_from n) (row_of lower_starts.now lower_index.now k.0)) }
{
    let place = k.0 as usize;
    let list = lent::list_at(lower_starts, lower_starts, lower_index, place);
    copy_list(list, marks, scratch::LIST * n);
    list.len()
}

// Lower row k into the marks, and its length: the entries of row k united with the lists before it, as far as their cuts.
fn find_lower(input: System<'_>, k: Place, lists: Lists<'_>, marks: &mut [u32]) -> usize
    requires { (P : Pattern) × Findable P input.n k.0 input.starts.now input.columns.now input.r.now lists.upper_starts.now lists.upper_runs.now lists.upper_index.now marks.old }
    ensures { (P : Pattern)
        → Findable P input.entry.n k.0 input.entry.starts.now input.entry.columns.now input.entry.r.now lists.entry.upper_starts.now lists.entry.upper_runs.now lists.entry.upper_index.now marks.old
        → LowerFound P input.entry.n k.0 result lists.entry.upper_starts.now lists.entry.upper_runs.now lists.entry.upper_index.now marks.old marks.new }
{
    let stamp = k.0 + 1;
    let cuts = scratch::UPPER_CUTS * input.n;
    marks::load_row_place(
        marks,
        input.n,
        stamp,
        k,
        input.starts,
        input.columns,
        input.r,
    );
    let below = marks::close_place(
        marks,
        input.n,
        stamp,
        k,
        cuts,
        lists.upper_runs,
        lists.upper_index,
    );
    marks::renew_cuts(
        marks,
        input.n,
        k,
        below,
        cuts,
        lists.upper_starts,
        lists.upper_runs,
        lists.upper_index,
    );
    below
}

fn reads_lower(form: Form) -> bool
    ensures { result ≡ reads_lower form }
{
    match form {
        Form::Plain => true,
        Form::Shared => false,
        Form::ByRow => false,
    }
}

// The plain form reads lower row k, the others find it anew.
fn lower_at(form: Form, input: System<'_>, k: Place, lists: Lists<'_>, marks: &mut [u32]) -> usize
    requires { LowerAsked (reads_lower form) input.n k.0 input.starts.now input.columns.now input.r.now (lent_lists lists) marks.old }
    ensures { LowerGiven (reads_lower form) input.entry.n k.0 result input.entry.starts.now input.entry.columns.now input.entry.r.now
        (lent_lists lists.entry) marks.old marks.new }
{
    if reads_lower(form) {
        return lower_plain(input.n, k, lists.lower_starts, lists.lower_index, marks);
    }
    find_lower(input, k, lists, marks)
}

// ---- L of row k, by form

// L of row k, from its list start on.
fn keep_plain(
    n: usize,
    k: Place,
    lower_starts: &[u32],
    lower_values: &mut [f64],
    work: &[f64],
    marks: &[u32],
    below: usize,
)
    requires { LowerAt n below (length marks.now) × Keepable n k.0 below lower_starts.now (length lower_values.old) (length work.now) (lower_in n below marks.now) }
    ensures { lower_values.new ≡ sets lower_values.old (get_or lower_starts.now k.0 0)
        (gathered (lower_in n below marks.now) (take n work.now)) }
{
    let place = k.0 as usize;
    let lower = lower_part(marks, n, below);
    let from = base::slot(lower_starts[place]);
    numeric::keep_by_rows(&work[..n], lower, lower_values, from);
}

// L of row k, each value in the next slot of its column. The cursors count the slots used.
fn keep_shared(
    n: usize,
    lower_starts: &[u32],
    lower_values: &mut [f64],
    w: &[f64],
    marks: &mut [u32],
    below: usize,
)
    requires { (length w.now ≡ n) × Spread n below lower_starts.now (length lower_values.old) marks.old }
    ensures { KeepGiven Shared n 0 below lower_starts.now w.now lower_values.old lower_values.new marks.old marks.new }
{
    let cursors = scratch::CURSORS * n;
    let lower = scratch::LIST * n;
    for p in 0..below {
        let i = base::slot(marks[lower + p]);
        let used = marks[cursors + i];
        let start = base::slot(lower_starts[i]);
        lower_values[start + base::slot(used)] = w[i];
        marks[cursors + i] = used + 1;
    }
}

// The plain form keeps L by rows, the shared form by columns, the row form not at all.
fn keep_at(
    form: Form,
    n: usize,
    k: Place,
    lower_starts: &[u32],
    lower_values: &mut [f64],
    work: &[f64],
    marks: &mut [u32],
    below: usize,
)
    requires { KeepAsked form n k.0 below lower_starts.now (length lower_values.old) (length work.now) marks.old }
    ensures { KeepGiven form n k.0 below lower_starts.now (take n work.now) lower_values.old lower_values.new marks.old marks.new }
{
    match form {
        Form::Plain => keep_plain(n, k, lower_starts, lower_values, work, marks, below),
        Form::Shared => keep_shared(n, lower_starts, lower_values, &work[..n], marks, below),
        Form::ByRow => {}
    }
}

// ---- the rows

// How long lower row k is, and what the row comes to.
#[derive(Clone, Copy)]
struct RowReduced {
    below: usize,
    sums: Result<RowSums, RowFault>,
}

// Row k's lower row in the marks, and steps 1 to 3 over it. The contract holds of each column order c that fits the marks.
fn reduce_at(
    form: Form,
    input: System<'_>,
    k: Place,
    lists: Lists<'_>,
    upper_values: &mut [f64],
    work: &mut [f64],
    marks: &mut [u32],
) -> RowReduced
    requires { (c : List ℕ) × RowReady form (lent_by input c) (lent_lists lists) k.0 (length upper_values.old) (length work.old) marks.old }
    ensures { LowerGiven (reads_lower form) input.entry.n k.0 result.below input.entry.starts.now input.entry.columns.now input.entry.r.now
        (lent_lists lists.entry) marks.old marks.new
        × ((c : List ℕ) (rows : List Row)
        → RowReady form (lent_by input.entry c)
        (lent_lists lists.entry) k.0 (length upper_values.old) (length work.old) marks.old
        → RowsHeld (system (lent_by input.entry c)) rows input.entry.n k.0
        work.old lists.entry.upper_starts.now lists.entry.upper_runs.now lists.entry.upper_index.now upper_values.old
        → Reduced (system (lent_by input.entry c)) rows input.entry.n k.0
        lists.entry.upper_starts.now work.old work.new upper_values.old upper_values.new result.sums) }
{
    let below = lower_at(form, input, k, lists, marks);
    let place = k.0 as usize;
    let lower = lower_part(marks, input.n, below);
    let row = lent::own_row(input.r, k);
    let own = lent::row_columns(input.starts, input.columns, row);
    let entries = lent::row_values(input.starts, input.values, row);
    let right = lent::row_right(input.b, row);
    let sums = numeric::reduce_row(
        work,
        input.n,
        place,
        marks,
        own,
        entries,
        right,
        input.floor,
        lower,
        lists.upper_starts,
        lists.upper_runs,
        lists.upper_index,
        upper_values,
    );
    RowReduced { below, sums }
}

// Row k, and what is kept of it.
fn eliminate_row(
    form: Form,
    input: System<'_>,
    k: Place,
    lists: Lists<'_>,
    lower_values: &mut [f64],
    upper_values: &mut [f64],
    d: &mut [f64],
    work: &mut [f64],
    marks: &mut [u32],
) -> Result<(), Fault>
    requires { (k.0 < input.n) × ((c : List ℕ) × Going form (lent_by input c) (lent_lists lists) k.0 (written lower_values.old upper_values.old d.old work.old marks.old)) }
    ensures { (c : List ℕ)
        → Going form (lent_by input.entry c) (lent_lists lists.entry) k.0 (written lower_values.old upper_values.old d.old work.old marks.old)
        → CameTo form (lent_by input.entry c) (lent_lists lists.entry) (k.0 + 1) result (written lower_values.new upper_values.new d.new work.new marks.new) }
{
    let row = reduce_at(form, input, k, lists, upper_values, work, marks);
    let below = row.below;
    match row.sums {
        Ok(t) => {
            keep_at(
                form,
                input.n,
                k,
                lists.lower_starts,
                lower_values,
                work,
                marks,
                below,
            );
            close_at(input.n, k, lists, d, work, marks, below, t);
            Ok(())
        }
        Err(RowFault::Zero) => Err(Fault::Zero(k)),
        Err(RowFault::Overflow) => Err(Fault::Overflow(k)),
    }
}

// The rows, up to the first fault.
fn eliminate_rows(
    form: Form,
    input: System<'_>,
    lists: Lists<'_>,
    lower_values: &mut [f64],
    upper_values: &mut [f64],
    d: &mut [f64],
    work: &mut [f64],
    marks: &mut [u32],
) -> Result<(), Fault>
    requires { (c : List ℕ) × Going form (lent_by input c) (lent_lists lists) 0 (written lower_values.old upper_values.old d.old work.old marks.old) }
    ensures { (c : List ℕ)
        → Going form (lent_by input.entry c) (lent_lists lists.entry) 0 (written lower_values.old upper_values.old d.old work.old marks.old)
        → CameTo form (lent_by input.entry c) (lent_lists lists.entry) input.entry.n result (written lower_values.new upper_values.new d.new work.new marks.new) }
{
    for k in 0..input.n {
        eliminate_row(
            form,
            input,
            Place(k as u32),
            lists,
            lower_values,
            upper_values,
            d,
            work,
            marks,
        )?;
    }
    Ok(())
}

// Clears the n slots from `from` on.
fn clear_region(n: usize, from: usize, marks: &mut [u32])
    requires { from + n ≤ length marks.old }
    ensures { marks.new ≡ zeroed n from marks.old }
{
    let end = from + n;
    base::clear(&mut marks[from..end]);
}

// Clears what the rows find zero: the value stores, the working row, the marks and the cursors of L. The inverse order stays.
fn clear_for_rows(
    n: usize,
    lower_values: &mut [f64],
    upper_values: &mut [f64],
    work: &mut [f64],
    marks: &mut [u32],
)
    requires { Room n marks.old }
    ensures { (lower_values.new ≡ blank nought lower_values.old) × (upper_values.new ≡ blank nought upper_values.old)
        × (work.new ≡ blank nought work.old) × (marks.new ≡ fresh_marks n marks.old) }
{
    base::clear(lower_values);
    base::clear(upper_values);
    base::clear(work);
    clear_region(n, 0, marks);
    clear_region(n, scratch::CURSORS * n, marks);
}

// Gives the factors and z in a form. The column order c is the one whose inverse scratch holds. Another call clears scratch, and after a fault all
// that this writes.
pub fn factor(
    form: Form,
    input: System<'_>,
    lists: Lists<'_>,
    lower_values: &mut [f64],
    upper_values: &mut [f64],
    d: &mut [f64],
    work: &mut [f64],
    marks: &mut [u32],
) -> Result<(), Fault>
    requires { (c : List ℕ) × Factorable form (lent_by input c) (lent_lists lists) (written lower_values.old upper_values.old d.old work.old marks.old) }
    ensures { (c : List ℕ)
        → Factorable form (lent_by input.entry c) (lent_lists lists.entry) (written lower_values.old upper_values.old d.old work.old marks.old)
        → FactoredAs form (lent_by input.entry c) result
        lower_values.new upper_values.new d.new (drop (z_from input.entry.n) work.new) }
{
    clear_for_rows(input.n, lower_values, upper_values, work, marks);
    eliminate_rows(
        form,
        input,
        lists,
        lower_values,
        upper_values,
        d,
        work,
        marks,
    )?;
    solve_back(input.n, lists, upper_values, work)
}
