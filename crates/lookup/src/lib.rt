// A stored list by side and place, handed back as a part of the index store that holds it.
#![tactic(auto)]

ghost use Rattle.std.specs.Prelude.{◌≡◌, ◌<◌, ◌≤◌, length};
ghost use Rattle.base.specs.Limits.{max_rows};
ghost use Rattle.base.specs.declared.Form as forms;
ghost use Rattle.lookup.specs.Lookup.{SideLent, side_lists, of_side, lists_of, run_starts, sized, run_span, span_of, span_in, Inside, PartOf, lookup};

use base::{Form, Index, Place, Side, slot};
use matrix::Matrix;

// The slots of a store from one to before another.
#[derive(Clone, Copy)]
pub struct Span {
    pub from: usize,
    pub to: usize,
}

impl Span {
    // No slot, at a store's start.
    const NONE: Span = Span { from: 0, to: 0 };

    // A run of b - a slots, where the list starts do not fall and the run stands in its store; else none.
    fn of_run(a: usize, b: usize, run: usize, slots: usize) -> Span
        requires { (b < 4294967296) × (run < 4294967296) }
        ensures { result ≡ run_span a b run slots }
    {
        if a <= b && run + (b - a) <= slots {
            return Span {
                from: run,
                to: run + (b - a),
            };
        }
        Span::NONE
    }

    // Hands back the slots of a store.
    fn part(self, store: &[Index]) -> &[Index]
        requires { Inside self (length store.now) }
        ensures { PartOf store.entry self result }
    {
        &store[self.from..self.to]
    }
}

// How many run starts a form has; the plain form's are its list starts.
fn run_starts(form: Form, n: usize) -> usize
    requires { n ≤ max_rows }
    ensures { result ≡ run_starts form n }
{
    match form {
        Form::Plain => n + 1,
        Form::Shared => n,
        Form::ByRow => n,
    }
}

// What is lent of one side.
#[derive(Clone, Copy)]
struct StoredLists<'s, 'a> {
    starts: &'s [u32],
    runs: &'s [u32],
    index: &'a [Index],
}

impl<'s, 'a> StoredLists<'s, 'a> {
    // Tells whether n is within its limits and the side's lengths are as stated.
    fn fits(self, form: Form, n: usize) -> bool
        ensures { result ≡ sized form n (lists_of self.entry) }
    {
        Matrix::rows_within(n)
            && self.starts.len() == n + 1
            && self.runs.len() == run_starts(form, n)
            && self.index.len() <= Matrix::MAX_SLOTS
    }

    // The span of the list at a place; none where the lengths do not fit or the place is not below n.
    fn span(self, fit: bool, k: Place, n: usize) -> Span
        requires { SideLent fit n self.starts.now self.runs.now }
        ensures { result ≡ span_of fit k n (lists_of self.entry) }
    {
        let at = slot(k.0);
        if fit && at < n {
            return Span::of_run(
                slot(self.starts[at]),
                slot(self.starts[at + 1]),
                slot(self.runs[at]),
                self.index.len(),
            );
        }
        Span::NONE
    }
}

// Both sides of a structure in a form.
#[derive(Clone, Copy)]
struct Stored<'s, 'a> {
    form: Form,
    n: usize,
    lower: StoredLists<'s, 'a>,
    upper: StoredLists<'s, 'a>,
}

impl<'s, 'a> Stored<'s, 'a> {
    // The plain form, whose runs start where its lists do.
    fn plain(
        n: usize,
        lower_starts: &'s [u32],
        lower_index: &'a [Index],
        upper_starts: &'s [u32],
        upper_index: &'a [Index],
    ) -> Stored<'s, 'a>
        ensures { result ≡ record {
          form = forms.Form.Plain;
          n = n;
          lower = record { starts = lower_starts.entry; runs = lower_starts.entry; index = lower_index.entry };
          upper = record { starts = upper_starts.entry; runs = upper_starts.entry; index = upper_index.entry };
        } }
    {
        Stored {
            form: Form::Plain,
            n,
            lower: StoredLists {
                starts: lower_starts,
                runs: lower_starts,
                index: lower_index,
            },
            upper: StoredLists {
                starts: upper_starts,
                runs: upper_starts,
                index: upper_index,
            },
        }
    }

    // The lists of a side.
    fn named(self, side: Side) -> StoredLists<'s, 'a>
        ensures { result ≡ of_side side self.entry.lower self.entry.upper }
    {
        match side {
            Side::Lower => self.lower,
            Side::Upper => self.upper,
        }
    }

    // Where the list of a side at a place stands in that side's index store.
    fn span(self, side: Side, k: Place) -> Span
        ensures { result ≡ span_in self.entry.form side k self.entry.n (lists_of self.entry.lower) (lists_of self.entry.upper) }
    {
        let fit = self.lower.fits(self.form, self.n) & self.upper.fits(self.form, self.n);
        let lists = self.named(side);
        lists.span(fit, k, self.n)
    }

    // Hands back that list, as the part of its store that holds it.
    fn list(self, side: Side, k: Place) -> &'a [Index]
        ensures listed { result.now ≡ lookup self.entry.form side k self.entry.n (lists_of self.entry.lower) (lists_of self.entry.upper) }
        ensures part_of { PartOf (of_side side self.entry.lower.index self.entry.upper.index) (span_in self.entry.form side k self.entry.n (lists_of self.entry.lower) (lists_of self.entry.upper)) result }
    {
        let lists = self.named(side);
        self.span(side, k).part(lists.index)
    }
}

// Tells where the list of a side at a place stands in that side's index store, in the plain form: the runs start where the lists do.
pub fn span_plain(
    side: Side,
    k: Place,
    n: usize,
    lower_starts: &[u32],
    lower_index: &[Index],
    upper_starts: &[u32],
    upper_index: &[Index],
) -> Span
    ensures { result ≡ span_in forms.Form.Plain side k n (side_lists lower_starts.now lower_starts.now lower_index.now) (side_lists upper_starts.now upper_starts.now upper_index.now) }
{
    let stored = Stored::plain(n, lower_starts, lower_index, upper_starts, upper_index);
    stored.span(side, k)
}

// Tells the same in the shared form.
pub fn span_shared(
    side: Side,
    k: Place,
    n: usize,
    lower_starts: &[u32],
    lower_runs: &[u32],
    lower_index: &[Index],
    upper_starts: &[u32],
    upper_runs: &[u32],
    upper_index: &[Index],
) -> Span
    ensures { result ≡ span_in forms.Form.Shared side k n (side_lists lower_starts.now lower_runs.now lower_index.now) (side_lists upper_starts.now upper_runs.now upper_index.now) }
{
    let stored = Stored {
        form: Form::Shared,
        n,
        lower: StoredLists {
            starts: lower_starts,
            runs: lower_runs,
            index: lower_index,
        },
        upper: StoredLists {
            starts: upper_starts,
            runs: upper_runs,
            index: upper_index,
        },
    };
    stored.span(side, k)
}

// Hands back the list of a side at a place in the plain form, as the part of its store that holds it.
pub fn list_plain<'a>(
    side: Side,
    k: Place,
    n: usize,
    lower_starts: &[u32],
    lower_index: &'a [Index],
    upper_starts: &[u32],
    upper_index: &'a [Index],
) -> &'a [Index]
    ensures listed { result.now ≡ lookup forms.Form.Plain side k n (side_lists lower_starts.now lower_starts.now lower_index.now) (side_lists upper_starts.now upper_starts.now upper_index.now) }
    ensures part_of { PartOf (of_side side lower_index.entry upper_index.entry) (span_in forms.Form.Plain side k n (side_lists lower_starts.now lower_starts.now lower_index.now) (side_lists upper_starts.now upper_starts.now upper_index.now)) result }
{
    let stored = Stored::plain(n, lower_starts, lower_index, upper_starts, upper_index);
    stored.list(side, k)
}

// Hands back the same in the shared form.
pub fn list_shared<'a>(
    side: Side,
    k: Place,
    n: usize,
    lower_starts: &[u32],
    lower_runs: &[u32],
    lower_index: &'a [Index],
    upper_starts: &[u32],
    upper_runs: &[u32],
    upper_index: &'a [Index],
) -> &'a [Index]
    ensures listed { result.now ≡ lookup forms.Form.Shared side k n (side_lists lower_starts.now lower_runs.now lower_index.now) (side_lists upper_starts.now upper_runs.now upper_index.now) }
    ensures part_of { PartOf (of_side side lower_index.entry upper_index.entry) (span_in forms.Form.Shared side k n (side_lists lower_starts.now lower_runs.now lower_index.now) (side_lists upper_starts.now upper_runs.now upper_index.now)) result }
{
    let stored = Stored {
        form: Form::Shared,
        n,
        lower: StoredLists {
            starts: lower_starts,
            runs: lower_runs,
            index: lower_index,
        },
        upper: StoredLists {
            starts: upper_starts,
            runs: upper_runs,
            index: upper_index,
        },
    };
    stored.list(side, k)
}
