// The structure pass of the three forms: the lists of every place are found and placed, and 9, 10 and 11 are asked at each.
// Scratch: marks, inverse column order, block stamps, cuts of the upper lists, cuts of the lower lists and heads of columns,
// the list at work (lower row k and then T(k)), and two regions of nodes; n slots each.
#![tactic(auto)]

ghost use Rattle.std.specs.Prelude.{◌≡◌, List, [], ℕ, ◌+◌, ◌-◌, ◌≤◌, length};
ghost use Rattle.matrix.specs.Input.{lent_pattern, pattern_by};
ghost use Rattle.fill.specs.Fill.{Pattern};
ghost use Rattle.marks.specs.Rows.{row_steps};
ghost use Rattle.base.specs.Lists.{blank, sum};
ghost use Rattle.base.specs.declared.Form.{Form};
ghost use Rattle.storing.specs.declared.Way.{Way};
ghost use Rattle.questions.specs.Lent.{inverted_at, InverseLent};
ghost use Rattle.symbolic.specs.Pass.{At, Due, TurnEnds, counts_at, slots_of, Analyzed, AnalyzedBoth, MatrixLent, PlainLent, RowLent, SharedLent, ColumnsBegun};
ghost use Rattle.symbolic.specs.Places.{cuts_of, Open, Opening, OpenEnds, Keep, Keeping, KeepEnds, KeepLower, KeepingLower, LowerEnds, Adding, Addable, SideAt, SideDue, SideEnds, refusal_of};
ghost use Rattle.base.specs.Scratch.{upper_cuts};
ghost use Rattle.base.specs.Limits.{max_rows};

use base::{Counts, Index, Place, Refusal, Side, scratch};
use matrix::System;
use storing::{Extent, Way};

// A place's lists in scratch: how long its lower row and its T(k) are, and the end of the window of columns at hand.
#[derive(Clone, Copy)]
pub struct OpenRow {
    pub below: usize,
    pub above: usize,
    pub window: usize,
}

// A side's list is in its stores: how long the place's lower row is, the end of the window, and how much is placed.
#[derive(Clone, Copy)]
pub struct SidePlace {
    pub below: usize,
    pub window: usize,
    pub extent: Extent,
}

// Why a side's list is not placed: (k, k) is not filled, or the stores are short of slots.
#[derive(Clone, Copy)]
pub enum SideError {
    NoDiagonal,
    NoRoom,
}

impl SideError {
    // The refusal of a side's place k: 9, or 10 for the lower side and 11 for the upper one.
    fn refusal(self, side: Side, k: Place) -> Refusal
        ensures { result ≡ refusal_of self side k }
    {
        match self {
            SideError::NoDiagonal => Refusal::NullPivot(k),
            SideError::NoRoom => match side {
                Side::Lower => Refusal::LowerSlots(k),
                Side::Upper => Refusal::UpperSlots(k),
            },
        }
    }
}

// How far the pass is: how much is placed on each side, the products so far, and the end of the window of columns.
// In the row form, which keeps no lower lists, the entries of `lower` count those that they would have.
#[derive(Clone, Copy, Default)]
pub struct Progress {
    pub lower: Extent,
    pub upper: Extent,
    pub products: u64,
    pub window: usize,
}

// Tells where the cuts of a side's lists stand in scratch.
pub fn cuts_of(side: Side, n: usize) -> usize
    requires { n ≤ max_rows }
    ensures { result ≡ cuts_of side n }
{
    match side {
        Side::Upper => scratch::UPPER_CUTS * n,
        Side::Lower => scratch::LOWER_CUTS * n,
    }
}

// Finds lower row k and T(k) of a side, if (k, k) is filled: row k of M' above the diagonal, column k below, closed over the lists
// before it.
pub fn open_place(
    side: Side,
    input: System<'_>,
    runs: &[u32],
    index: &[Index],
    marks: &mut [u32],
    stamp: u32,
    k: Place,
    window: usize,
) -> Option<OpenRow>
    requires { Opening side input k.0 stamp window runs.now index.now marks.old }
    ensures { (c lists : List ℕ) → Open side (pattern_by input.entry c) k.0 stamp window lists runs.now index.now marks.old → OpenEnds side (pattern_by input.entry c) k.0 stamp marks.old marks.new result }
{
    let p = k.0 as usize;
    let end = columns::load(side, marks, input, stamp, p, window);
    let cuts = cuts_of(side, input.n);
    let below = marks::close_place(marks, input.n, stamp, k, cuts, runs, index);
    if marks::has_diagonal(marks, stamp, k) {
        let above = marks::list_upper(marks, input.n, stamp, k, below);
        return Some(OpenRow {
            below,
            above,
            window: end,
        });
    }
    None
}

// T(k) goes into the stores in the sharing way, and the cuts for place k + 1 are made.
fn share_list(
    n: usize,
    starts: &mut [u32],
    runs: &mut [u32],
    index: &mut [Index],
    values: usize,
    marks: &mut [u32],
    k: Place,
    cuts: usize,
    row: OpenRow,
    e: Extent,
) -> Option<Extent>
    requires { Keeping Way.Sharing n k.0 cuts values starts.old runs.old index.old marks.old row e }
    ensures { (P : Pattern) (store : List ℕ) (stamp : ℕ) → Keep Way.Sharing P n k.0 stamp cuts store values starts.old runs.old index.old marks.old row e → KeepEnds Way.Sharing P n k.0 cuts store values starts.new runs.new index.new marks.old marks.new result }
{
    let at = scratch::LIST * n;
    let mid = at + row.below;
    let end = mid + row.above;
    let next = storing::place_list(
        Way::Sharing,
        starts,
        runs,
        index,
        values,
        &marks[at..mid],
        &marks[mid..end],
        k,
        e,
    )?;
    marks::renew_cuts(marks, n, k, row.below, cuts, starts, runs, index);
    Some(next)
}

// The same in the plain form.
fn append_upper(
    n: usize,
    starts: &mut [u32],
    index: &mut [Index],
    values: usize,
    marks: &mut [u32],
    k: Place,
    row: OpenRow,
    e: Extent,
) -> Option<Extent>
    requires { Keeping Way.OneAfterAnother n k.0 (upper_cuts n) values starts.old starts.old index.old marks.old row e }
    ensures { (P : Pattern) (store : List ℕ) (stamp : ℕ) → Keep Way.OneAfterAnother P n k.0 stamp (upper_cuts n) store values starts.old starts.old index.old marks.old row e → KeepEnds Way.OneAfterAnother P n k.0 (upper_cuts n) store values starts.new starts.new index.new marks.old marks.new result }
{
    let mid = scratch::LIST * n + row.below;
    let end = mid + row.above;
    let next = storing::append_list(starts, index, values, &marks[mid..end], k, e)?;
    marks::renew_cuts(
        marks,
        n,
        k,
        row.below,
        scratch::UPPER_CUTS * n,
        starts,
        starts,
        index,
    );
    Some(next)
}

// Lower row k goes into the stores of the plain form.
fn append_lower(
    n: usize,
    starts: &mut [u32],
    index: &mut [Index],
    values: usize,
    marks: &[u32],
    k: Place,
    below: usize,
    e: Extent,
) -> Option<Extent>
    requires { KeepingLower n k.0 values starts.old index.old marks.now below e }
    ensures { (P : Pattern) (store : List ℕ) → KeepLower P n k.0 store values starts.old index.old marks.now below e → LowerEnds P k.0 store values starts.new index.new result }
{
    let at = scratch::LIST * n;
    let mid = at + below;
    storing::append_list(starts, index, values, &marks[at..mid], k, e)
}

// The products of place k, added to those before it: its lower row stands in scratch.
fn add_products(n: usize, starts: &[u32], marks: &[u32], below: usize, before: u64) -> u64
    requires { Addable n starts.now marks.now below before }
    ensures { (P : Pattern) (k : ℕ) (runs index : List ℕ) → Adding P n k starts.now runs index marks.now below before → result ≡ sum (k + 1) (row_steps P n) }
{
    let at = scratch::LIST * n;
    let end = at + below;
    before + marks::row_products(&marks[at..end], starts)
}

// One side of a sharing form at place k: its lists are found, and T(k) goes into the stores.
fn place_side(
    side: Side,
    input: System<'_>,
    side_starts: &mut [u32],
    side_runs: &mut [u32],
    side_index: &mut [Index],
    side_values: usize,
    marks: &mut [u32],
    stamp: u32,
    k: Place,
    window: usize,
    e: Extent,
) -> Result<SidePlace, SideError>
    requires { SideDue Way.Sharing side input side_values k.0 stamp window side_starts.old side_runs.old side_index.old marks.old e }
    ensures { (c store : List ℕ) → SideAt Way.Sharing side (pattern_by input.entry c) store side_values k.0 stamp window side_starts.old side_runs.old side_index.old marks.old e → SideEnds Way.Sharing side (pattern_by input.entry c) store side_values k.0 stamp side_starts.new side_runs.new side_index.new marks.old marks.new result }
{
    let opened = open_place(side, input, side_runs, side_index, marks, stamp, k, window);
    let Some(row) = opened else {
        return Err(SideError::NoDiagonal);
    };
    let cuts = cuts_of(side, input.n);
    let put = share_list(
        input.n,
        side_starts,
        side_runs,
        side_index,
        side_values,
        marks,
        k,
        cuts,
        row,
        e,
    );
    let Some(extent) = put else {
        return Err(SideError::NoRoom);
    };
    Ok(SidePlace {
        below: row.below,
        window: row.window,
        extent,
    })
}

// ---- the ends of the pass

// Clears scratch but for the inverse column order, which it writes there.
pub fn begin_marks(n: usize, c: &[Index], marks: &mut [u32])
    requires { InverseLent n c.now (length marks.old - n) }
    ensures { marks.new ≡ inverted_at c.now n (blank 0 marks.old) }
{
    base::clear(marks);
    questions::invert_at(n, c, marks);
}

// Does the same, and lets the columns of M' be handed out.
pub fn begin_columns(input: System<'_>, marks: &mut [u32])
    requires { MatrixLent (lent_pattern input) (length marks.old) }
    ensures { ColumnsBegun (lent_pattern input.entry) marks.new }
{
    begin_marks(input.n, input.c, marks);
    columns::start_columns(marks, input);
}

fn counts_at(g: Progress) -> Counts
    ensures { result ≡ counts_at g }
{
    Counts {
        lower: g.lower.entries as u64,
        upper: g.upper.entries as u64,
        products: g.products,
    }
}

// ---- the plain form

// Place k: 9, 10 and 11 are asked, and its lists are placed.
fn analyze_place_plain(
    input: System<'_>,
    lower_starts: &mut [u32],
    lower_index: &mut [Index],
    lower_values: usize,
    upper_starts: &mut [u32],
    upper_index: &mut [Index],
    upper_values: usize,
    marks: &mut [u32],
    k: Place,
    g: Progress,
) -> Result<Progress, Refusal>
    requires { Due Form.Plain input lower_values upper_values k.0 lower_starts.old lower_starts.old lower_index.old upper_starts.old upper_starts.old upper_index.old marks.old g }
    ensures { (c low up : List ℕ) → At Form.Plain (pattern_by input.entry c) low lower_values up upper_values k.0 lower_starts.old lower_starts.old lower_index.old upper_starts.old upper_starts.old upper_index.old marks.old g → TurnEnds Form.Plain (pattern_by input.entry c) low lower_values up upper_values k.0 lower_starts.new lower_starts.new lower_index.new upper_starts.new upper_starts.new upper_index.new marks.new result }
{
    let stamp = k.0 + 1;
    let opened = open_place(
        Side::Upper,
        input,
        upper_starts,
        upper_index,
        marks,
        stamp,
        k,
        0,
    );
    let Some(row) = opened else {
        return Err(Refusal::NullPivot(k));
    };
    let low = append_lower(
        input.n,
        lower_starts,
        lower_index,
        lower_values,
        marks,
        k,
        row.below,
        g.lower,
    );
    let Some(lower) = low else {
        return Err(Refusal::LowerSlots(k));
    };
    let products = add_products(input.n, upper_starts, marks, row.below, g.products);
    let up = append_upper(
        input.n,
        upper_starts,
        upper_index,
        upper_values,
        marks,
        k,
        row,
        g.upper,
    );
    let Some(upper) = up else {
        return Err(Refusal::UpperSlots(k));
    };
    Ok(Progress {
        lower,
        upper,
        products,
        window: 0,
    })
}

// Finds the plain form's structure: lower rows and T(k) one after another, and the counts.
pub fn analyze_plain(
    input: System<'_>,
    lower_starts: &mut [u32],
    lower_index: &mut [Index],
    lower_values: usize,
    upper_starts: &mut [u32],
    upper_index: &mut [Index],
    upper_values: usize,
    marks: &mut [u32],
) -> Result<Counts, Refusal>
    requires { PlainLent (lent_pattern input) lower_starts.old lower_index.old lower_values upper_starts.old upper_index.old upper_values (length marks.old) }
    ensures { AnalyzedBoth Form.Plain (lent_pattern input.entry) (slots_of (length lower_index.old) lower_values (length upper_index.old) upper_values) lower_starts.new lower_starts.new lower_index.new lower_values upper_starts.new upper_starts.new upper_index.new upper_values marks.new result }
{
    base::clear(lower_starts);
    base::clear(lower_index);
    base::clear(upper_starts);
    base::clear(upper_index);
    begin_marks(input.n, input.c, marks);
    let mut g = Progress::default();
    for k in 0..input.n {
        let place = Place(k as u32);
        g = analyze_place_plain(
            input,
            lower_starts,
            lower_index,
            lower_values,
            upper_starts,
            upper_index,
            upper_values,
            marks,
            place,
            g,
        )?;
    }
    Ok(counts_at(g))
}

// ---- the row form

// Place k: 9 and 11 are asked, T(k) is placed, and the entries of lower row k are counted.
fn analyze_place_by_row(
    input: System<'_>,
    upper_starts: &mut [u32],
    upper_runs: &mut [u32],
    upper_index: &mut [Index],
    upper_values: usize,
    marks: &mut [u32],
    k: Place,
    g: Progress,
) -> Result<Progress, Refusal>
    requires { Due Form.ByRow input 0 upper_values k.0 [] [] [] upper_starts.old upper_runs.old upper_index.old marks.old g }
    ensures { (c low up : List ℕ) → At Form.ByRow (pattern_by input.entry c) low 0 up upper_values k.0 [] [] [] upper_starts.old upper_runs.old upper_index.old marks.old g → TurnEnds Form.ByRow (pattern_by input.entry c) low 0 up upper_values k.0 [] [] [] upper_starts.new upper_runs.new upper_index.new marks.new result }
{
    let side = place_side(
        Side::Upper,
        input,
        upper_starts,
        upper_runs,
        upper_index,
        upper_values,
        marks,
        k.0 + 1,
        k,
        0,
        g.upper,
    );
    let p = match side {
        Ok(p) => p,
        Err(e) => return Err(e.refusal(Side::Upper, k)),
    };
    let products = add_products(input.n, upper_starts, marks, p.below, g.products);
    let lower = Extent {
        entries: g.lower.entries + p.below,
        ..Extent::default()
    };
    Ok(Progress {
        lower,
        upper: p.extent,
        products,
        window: 0,
    })
}

// Finds the row form's structure: T(k) sharing runs, and the counts.
pub fn analyze_by_row(
    input: System<'_>,
    upper_starts: &mut [u32],
    upper_runs: &mut [u32],
    upper_index: &mut [Index],
    upper_values: usize,
    marks: &mut [u32],
) -> Result<Counts, Refusal>
    requires { RowLent (lent_pattern input) upper_starts.old upper_runs.old upper_index.old upper_values (length marks.old) }
    ensures { Analyzed Form.ByRow (lent_pattern input.entry) (slots_of 0 0 (length upper_index.old) upper_values) upper_starts.new upper_runs.new upper_index.new upper_values marks.new result }
{
    base::clear(upper_starts);
    base::clear(upper_index);
    begin_marks(input.n, input.c, marks);
    let mut g = Progress::default();
    for k in 0..input.n {
        let place = Place(k as u32);
        g = analyze_place_by_row(
            input,
            upper_starts,
            upper_runs,
            upper_index,
            upper_values,
            marks,
            place,
            g,
        )?;
    }
    Ok(counts_at(g))
}

// ---- the shared form

// Place k: 9, 10 and 11 are asked, and the lists of both sides are placed, the lower side's first.
fn analyze_place_shared(
    input: System<'_>,
    lower_starts: &mut [u32],
    lower_runs: &mut [u32],
    lower_index: &mut [Index],
    lower_values: usize,
    upper_starts: &mut [u32],
    upper_runs: &mut [u32],
    upper_index: &mut [Index],
    upper_values: usize,
    marks: &mut [u32],
    k: Place,
    g: Progress,
) -> Result<Progress, Refusal>
    requires { Due Form.Shared input lower_values upper_values k.0 lower_starts.old lower_runs.old lower_index.old upper_starts.old upper_runs.old upper_index.old marks.old g }
    ensures { (c low up : List ℕ) → At Form.Shared (pattern_by input.entry c) low lower_values up upper_values k.0 lower_starts.old lower_runs.old lower_index.old upper_starts.old upper_runs.old upper_index.old marks.old g → TurnEnds Form.Shared (pattern_by input.entry c) low lower_values up upper_values k.0 lower_starts.new lower_runs.new lower_index.new upper_starts.new upper_runs.new upper_index.new marks.new result }
{
    let stamp = k.0 + k.0 + 1;
    let low = place_side(
        Side::Lower,
        input,
        lower_starts,
        lower_runs,
        lower_index,
        lower_values,
        marks,
        stamp,
        k,
        g.window,
        g.lower,
    );
    let l = match low {
        Ok(l) => l,
        Err(e) => return Err(e.refusal(Side::Lower, k)),
    };
    let up = place_side(
        Side::Upper,
        input,
        upper_starts,
        upper_runs,
        upper_index,
        upper_values,
        marks,
        stamp + 1,
        k,
        0,
        g.upper,
    );
    let u = match up {
        Ok(u) => u,
        Err(e) => return Err(e.refusal(Side::Upper, k)),
    };
    let products = add_products(input.n, upper_starts, marks, u.below, g.products);
    Ok(Progress {
        lower: l.extent,
        upper: u.extent,
        products,
        window: l.window,
    })
}

// Finds the shared form's structure: columns of L and T(k), each side's sharing runs, and the counts.
pub fn analyze_shared(
    input: System<'_>,
    lower_starts: &mut [u32],
    lower_runs: &mut [u32],
    lower_index: &mut [Index],
    lower_values: usize,
    upper_starts: &mut [u32],
    upper_runs: &mut [u32],
    upper_index: &mut [Index],
    upper_values: usize,
    marks: &mut [u32],
) -> Result<Counts, Refusal>
    requires { SharedLent (lent_pattern input) lower_starts.old lower_runs.old lower_index.old lower_values upper_starts.old upper_runs.old upper_index.old upper_values (length marks.old) }
    ensures { AnalyzedBoth Form.Shared (lent_pattern input.entry) (slots_of (length lower_index.old) lower_values (length upper_index.old) upper_values) lower_starts.new lower_runs.new lower_index.new lower_values upper_starts.new upper_runs.new upper_index.new upper_values marks.new result }
{
    base::clear(lower_starts);
    base::clear(lower_index);
    base::clear(upper_starts);
    base::clear(upper_index);
    begin_columns(input, marks);
    let mut g = Progress::default();
    for k in 0..input.n {
        let place = Place(k as u32);
        g = analyze_place_shared(
            input,
            lower_starts,
            lower_runs,
            lower_index,
            lower_values,
            upper_starts,
            upper_runs,
            upper_index,
            upper_values,
            marks,
            place,
            g,
        )?;
    }
    Ok(counts_at(g))
}
