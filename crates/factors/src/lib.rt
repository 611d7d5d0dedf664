// Question 15: are presented lists well shaped, and presented factors finite? The plain form passes its list starts as run starts.
#![tactic(auto)]

ghost use Rattle.std.specs.Prelude.{◌≡◌, not, ◌+◌, ◌<◌, length};
ghost use Rattle.arithmetic.specs.RowEnd.{finite_all};
ghost use Rattle.base.specs.Limits.{max_rows};
ghost use Rattle.base.specs.declared.Form.TheVariants.{Shared};
ghost use Rattle.outcome.specs.Buffers.{side_buffers};
ghost use Rattle.outcome.specs.Resolve.{rises_in, right_side, misplaced, bad_list, bad_at, ask_factors};
ghost use Rattle.factors.specs.Presented.{SideLent, FactorsLent, presented};

use base::{Form, Index, Place, Refusal, Side};

// ---- one list

// Tells whether a list ascends strictly, from `from` on and below `to`.
fn rises_in(from: usize, to: usize, list: &[Index]) -> bool
    ensures { result ≡ rises_in from to list.now }
{
    let mut least = from;
    for &place in list {
        let j = base::wide(place);
        if !((least <= j) & (j < to)) {
            return false;
        }
        least = j + 1;
    }
    true
}

// Tells whether every value is finite.
fn all_finite(values: &[f64]) -> bool
    ensures { result ≡ finite_all values.now }
{
    values.iter().all(|v| base::is_finite(*v))
}

// Tells whether a list lies on its side of place k: a plain lower row below k, a column or T(k) above it and below n.
fn on_side(form: Form, side: Side, n: usize, k: usize, list: &[Index]) -> bool
    requires { k < max_rows }
    ensures { result ≡ right_side form side n k list.now }
{
    match side {
        Side::Upper => rises_in(k + 1, n, list),
        Side::Lower => match form {
            Form::Plain => rises_in(0, k, list),
            Form::Shared | Form::ByRow => rises_in(k + 1, n, list),
        },
    }
}

// ---- one place

// Tells whether list starts k and k + 1 or the run of place k are at fault: they begin elsewhere than at 0, fall, or leave a store.
fn outside(k: usize, starts: &[u32], runs: &[u32], index: &[Index], values: &[f64]) -> bool
    requires { (k < length runs.now) × (k + 1 < length starts.now) × (k < max_rows) }
    ensures { result ≡ misplaced Shared (side_buffers starts.now runs.now index.now values.now) k }
{
    let begin = starts[0];
    let lo = base::slot(starts[k]);
    let hi = base::slot(starts[k + 1]);
    let run = base::slot(runs[k]);
    if hi < lo {
        return true;
    }
    ((k == 0) & (begin != 0)) | (index.len() < run + (hi - lo)) | (values.len() < hi)
}

// Tells whether the list of a side at place k is well shaped and its values are finite.
fn side_good(
    form: Form,
    side: Side,
    n: usize,
    k: usize,
    starts: &[u32],
    runs: &[u32],
    index: &[Index],
    values: &[f64],
) -> bool
    requires { (k < n) × SideLent form n starts.now runs.now }
    ensures { result ≡ not (bad_list form side n (side_buffers starts.now runs.now index.now values.now) k) }
{
    if outside(k, starts, runs, index, values) {
        return false;
    }
    let list = lent::list_at(starts, runs, index, k);
    on_side(form, side, n, k, list) && all_finite(lent::values_at(starts, values, k))
}

// Tells whether both lists of place k are good, and d(k) is finite.
fn place_good(
    form: Form,
    n: usize,
    k: usize,
    lower_starts: &[u32],
    lower_runs: &[u32],
    lower_index: &[Index],
    lower_values: &[f64],
    upper_starts: &[u32],
    upper_runs: &[u32],
    upper_index: &[Index],
    upper_values: &[f64],
    d: &[f64],
) -> bool
    requires { (k < n) × FactorsLent form n lower_starts.now lower_runs.now upper_starts.now upper_runs.now (length d.now) }
    ensures { result ≡ not (bad_at form n (presented (side_buffers lower_starts.now lower_runs.now lower_index.now lower_values.now)
        (side_buffers upper_starts.now upper_runs.now upper_index.now upper_values.now) d.now) k) }
{
    let below = side_good(
        form,
        Side::Lower,
        n,
        k,
        lower_starts,
        lower_runs,
        lower_index,
        lower_values,
    );
    let above = side_good(
        form,
        Side::Upper,
        n,
        k,
        upper_starts,
        upper_runs,
        upper_index,
        upper_values,
    );
    let pivot = base::is_finite(d[k]);
    below & above & pivot
}

// ---- question 15

// Asks 15: the first place whose lists are misshapen or whose factors are not finite.
pub fn ask_factors(
    form: Form,
    n: usize,
    lower_starts: &[u32],
    lower_runs: &[u32],
    lower_index: &[Index],
    lower_values: &[f64],
    upper_starts: &[u32],
    upper_runs: &[u32],
    upper_index: &[Index],
    upper_values: &[f64],
    d: &[f64],
) -> Result<(), Refusal>
    requires { FactorsLent form n lower_starts.now lower_runs.now upper_starts.now upper_runs.now (length d.now) }
    ensures { result ≡ ask_factors form n (presented (side_buffers lower_starts.now lower_runs.now lower_index.now lower_values.now)
        (side_buffers upper_starts.now upper_runs.now upper_index.now upper_values.now) d.now) }
{
    for k in 0..n {
        if !place_good(
            form,
            n,
            k,
            lower_starts,
            lower_runs,
            lower_index,
            lower_values,
            upper_starts,
            upper_runs,
            upper_index,
            upper_values,
            d,
        ) {
            return Err(Refusal::BadFactors(Place(k as u32)));
        }
    }
    Ok(())
}
