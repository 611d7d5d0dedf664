// Question 14: the structure is found again within the lent scratch, and compared place by place with the one that is presented.
// Nothing but scratch is written, and no presented number is followed before it is known to be the one that is placed.
#![tactic(auto)]

ghost use Rattle.std.specs.Prelude.{◌≡◌, List, [], ◌&&◌, ℕ, ◌<◌, length, get_or, eqb};
ghost use Rattle.matrix.specs.Input.{lent_pattern};
ghost use Rattle.fill.specs.Fill.{Pattern};
ghost use Rattle.storing.specs.declared.Way.{Way};
ghost use Rattle.symbolic.specs.Pass.{MatrixLent};
ghost use Rattle.comparison.specs.Comparing.{Comparable, KeepIn, ListEndsIn, LowerComparable, KeepLowerIn, LowerEndsIn, SideComparable, SideAtIn, SideEndsIn, Due, MetIn, PlaceEndsIn, BegunBy, Presenting, Compared};

use base::{Index, Place, Refusal, Side, scratch};
use matrix::System;
use storing::{Extent, Way};
use symbolic::{OpenRow, SidePlace};

// How far the comparison is: how much stands on each side, and the end of the window of columns.
#[derive(Clone, Copy, Default)]
pub struct Reached {
    pub lower: Extent,
    pub upper: Extent,
    pub window: usize,
}

// The lists of one side as they are presented, and how many slots its values have. The plain form's list starts are its run starts.
#[derive(Clone, Copy)]
pub struct Presented<'a> {
    pub starts: &'a [u32],
    pub runs: &'a [u32],
    pub index: &'a [Index],
    pub values: usize,
}

impl Presented<'_> {
    // T(k) stands where placing it would put it, and the cuts for place k + 1 are made.
    fn compare_list(
        self,
        way: Way,
        n: usize,
        marks: &mut [u32],
        k: Place,
        cuts: usize,
        row: OpenRow,
        e: Extent,
    ) -> Option<Extent>
        requires { Comparable way n k.0 cuts self marks.old row e }
        ensures { (P : Pattern) (stamp : ℕ) → KeepIn way P n k.0 stamp cuts self.entry marks.old row e → ListEndsIn way P n k.0 cuts self.entry marks.old marks.new result }
    {
        let below = row.below;
        let at = scratch::LIST * n;
        let mid = at + below;
        let end = mid + row.above;
        let next = storing::check_list(
            way,
            self.starts,
            self.runs,
            self.index,
            self.values,
            &marks[at..mid],
            &marks[mid..end],
            k,
            e,
        )?;
        marks::renew_cuts(marks, n, k, below, cuts, self.starts, self.runs, self.index);
        Some(next)
    }

    // Lower row k of the plain form stands where placing it would put it.
    fn compare_lower(
        self,
        n: usize,
        marks: &[u32],
        k: Place,
        below: usize,
        e: Extent,
    ) -> Option<Extent>
        requires { LowerComparable n k.0 self marks.now below e }
        ensures { (P : Pattern) → KeepLowerIn P n k.0 self.entry marks.now below e → LowerEndsIn P k.0 self.entry result }
    {
        let at = scratch::LIST * n;
        let mid = at + below;
        let row = &marks[at..mid];
        storing::check_list(
            Way::OneAfterAnother,
            self.starts,
            self.starts,
            self.index,
            self.values,
            row,
            row,
            k,
            e,
        )
    }

    // The side at place k: its lists are found, and T(k) is compared.
    fn compare_side(
        self,
        way: Way,
        side: Side,
        input: System<'_>,
        marks: &mut [u32],
        stamp: u32,
        k: Place,
        window: usize,
        e: Extent,
    ) -> Option<SidePlace>
        requires { SideComparable way side input self k.0 stamp window marks.old e }
        ensures { (c : List ℕ) → SideAtIn way side input.entry c self.entry k.0 stamp window marks.old e → SideEndsIn way side input.entry c self.entry k.0 stamp marks.old marks.new result }
    {
        let row = symbolic::open_place(
            side, input, self.runs, self.index, marks, stamp, k, window,
        )?;
        let cuts = symbolic::cuts_of(side, input.n);
        let extent = self.compare_list(way, input.n, marks, k, cuts, row, e)?;
        Some(SidePlace {
            below: row.below,
            window: row.window,
            extent,
        })
    }
}

// Place k of the form that places its lists so. The plain form finds its lower row with the upper side; the shared form's lower side goes first.
fn compare_place(
    way: Way,
    input: System<'_>,
    lower: Presented<'_>,
    upper: Presented<'_>,
    marks: &mut [u32],
    k: Place,
    g: Reached,
) -> Option<Reached>
    requires { Due way input lower upper k.0 marks.old g }
    ensures { (c : List ℕ) → MetIn way input.entry c lower.entry upper.entry k.0 marks.old g → PlaceEndsIn way input.entry c lower.entry upper.entry k.0 marks.new result }
{
    match way {
        Way::OneAfterAnother => {
            let u = upper.compare_side(way, Side::Upper, input, marks, k.0 + 1, k, 0, g.upper)?;
            let below = lower.compare_lower(input.n, marks, k, u.below, g.lower)?;
            Some(Reached {
                lower: below,
                upper: u.extent,
                window: 0,
            })
        }
        Way::Sharing => {
            let t = k.0 + k.0 + 1;
            let l = lower.compare_side(way, Side::Lower, input, marks, t, k, g.window, g.lower)?;
            let u = upper.compare_side(way, Side::Upper, input, marks, t + 1, k, 0, g.upper)?;
            Some(Reached {
                lower: l.extent,
                upper: u.extent,
                window: l.window,
            })
        }
    }
}

// ---- the ends of the pass

// Scratch as the places of the form find it.
fn begin(way: Way, input: System<'_>, marks: &mut [u32])
    requires { MatrixLent (lent_pattern input) (length marks.old) }
    ensures { BegunBy way (lent_pattern input.entry) marks.new }
{
    match way {
        Way::OneAfterAnother => symbolic::begin_marks(input.n, input.c, marks),
        Way::Sharing => symbolic::begin_columns(input, marks),
    }
}

// List start 0 of both sides is 0: it belongs to place 0, and is asked before that place reads it.
fn start_right(lower_starts: &[u32], upper_starts: &[u32]) -> bool
    requires { (0 < length lower_starts.now) × (0 < length upper_starts.now) }
    ensures { result ≡ (eqb (get_or lower_starts.now 0 0) 0 && eqb (get_or upper_starts.now 0 0) 0) }
{
    (lower_starts[0] == 0) & (upper_starts[0] == 0)
}

// Asks question 14 of the lists presented by the plain form (one after another, its list starts lent as run starts) or by the shared form.
pub fn compare(
    way: Way,
    input: System<'_>,
    lower: Presented<'_>,
    upper: Presented<'_>,
    marks: &mut [u32],
) -> Result<(), Refusal>
    requires { Presenting way (lent_pattern input) lower.starts.now lower.runs.now lower.index.now lower.values upper.starts.now upper.runs.now upper.index.now upper.values (length marks.old) }
    ensures { Compared way (lent_pattern input.entry) lower.entry.starts.now lower.entry.runs.now lower.entry.index.now lower.entry.values upper.entry.starts.now upper.entry.runs.now upper.entry.index.now upper.entry.values marks.new result }
{
    if !start_right(lower.starts, upper.starts) {
        return Err(Refusal::OtherStructure(Place(0)));
    }
    begin(way, input, marks);
    let mut g = Reached::default();
    for k in 0..input.n {
        let place = Place(k as u32);
        let found = compare_place(way, input, lower, upper, marks, place, g);
        let Some(next) = found else {
            return Err(Refusal::OtherStructure(place));
        };
        g = next;
    }
    Ok(())
}
