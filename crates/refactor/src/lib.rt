// Refactor: new values over a structure found before, in the plain and the shared form. The questions before 9 and 14 come first and write nothing but
// scratch; then 12 and 13, and x. The two forms are one code path over the way of placing: the plain form lends its list starts as run starts.
#![tactic(auto)]

ghost use Rattle.std.specs.Prelude.{◌≡◌, length};
ghost use Rattle.matrix.specs.Input.{lent};
ghost use Rattle.outcome.specs.Again.{RefactorsPlain, RefactorsShared};
ghost use Rattle.comparison.specs.Comparing.{form_of, RunsBy, runs_lent};
ghost use Rattle.refactor.specs.Presented.{PresentedAsking, RefactorsBy};

use base::{Form, Index, Refusal, SideSizes, Sizes};
use comparison::Presented;
use matrix::System;
use storing::Way;

// Gives the form that places its lists so.
fn form_of(way: Way) -> Form
    ensures { result ≡ form_of way }
{
    match way {
        Way::OneAfterAnother => Form::Plain,
        Way::Sharing => Form::Shared,
    }
}

// Gives how many run starts the form is lent.
fn runs_lent(way: Way, runs: &[u32]) -> usize
    ensures { result ≡ length (runs_lent way runs.now) }
{
    match way {
        Way::OneAfterAnother => 0,
        Way::Sharing => runs.len(),
    }
}

// Asks the questions before 9, then 14. Where they are passed, scratch holds what the arithmetic needs; where one behind 2 stops the call, it is cleared.
fn ask(
    way: Way,
    input: System<'_>,
    lower_starts: &[u32],
    lower_runs: &[u32],
    lower_index: &[Index],
    lower_values: &[f64],
    upper_starts: &[u32],
    upper_runs: &[u32],
    upper_index: &[Index],
    upper_values: &[f64],
    d: &[f64],
    x: &[f64],
    work: &mut [f64],
    marks: &mut [u32],
) -> Result<(), Refusal>
    requires { RunsBy way lower_starts.now lower_runs.now × RunsBy way upper_starts.now upper_runs.now }
    ensures { PresentedAsking way (lent input.entry)
        lower_starts.now lower_runs.now lower_index.now lower_values.now upper_starts.now upper_runs.now upper_index.now upper_values.now d.now x.now work.old marks.old
        work.new marks.new result }
{
    let form = form_of(way);
    let below = runs_lent(way, lower_runs);
    let above = runs_lent(way, upper_runs);
    let lower = SideSizes {
        starts: lower_starts.len(),
        runs: below,
        index: lower_index.len(),
        values: lower_values.len(),
    };
    let upper = SideSizes {
        starts: upper_starts.len(),
        runs: above,
        index: upper_index.len(),
        values: upper_values.len(),
    };
    let sizes = Sizes {
        lower,
        upper,
        d: d.len(),
        x: x.len(),
        work: work.len(),
        marks: marks.len(),
    };
    stages::ask_solve(form, input, sizes, work, marks)?;
    let lower_lists = Presented {
        starts: lower_starts,
        runs: lower_runs,
        index: lower_index,
        values: lower_values.len(),
    };
    let upper_lists = Presented {
        starts: upper_starts,
        runs: upper_runs,
        index: upper_index,
        values: upper_values.len(),
    };
    let same = comparison::compare(way, input, lower_lists, upper_lists, marks);
    if same.is_err() {
        stages::clear_scratch(work, marks);
    }
    same
}

// Refactors: asks, computes, and clears what a fault leaves.
fn refactor_in(
    way: Way,
    input: System<'_>,
    lower_starts: &[u32],
    lower_runs: &[u32],
    lower_index: &[Index],
    lower_values: &mut [f64],
    upper_starts: &[u32],
    upper_runs: &[u32],
    upper_index: &[Index],
    upper_values: &mut [f64],
    d: &mut [f64],
    x: &mut [f64],
    work: &mut [f64],
    marks: &mut [u32],
) -> Result<(), Refusal>
    requires { RunsBy way lower_starts.now lower_runs.now × RunsBy way upper_starts.now upper_runs.now }
    ensures { RefactorsBy way (lent input.entry)
        lower_starts.now lower_runs.now lower_index.now lower_values.old upper_starts.now upper_runs.now upper_index.now upper_values.old d.old x.old work.old marks.old result
        lower_values.new upper_values.new d.new x.new work.new marks.new }
{
    ask(
        way,
        input,
        lower_starts,
        lower_runs,
        lower_index,
        lower_values,
        upper_starts,
        upper_runs,
        upper_index,
        upper_values,
        d,
        x,
        work,
        marks,
    )?;
    let form = form_of(way);
    let fault = stages::factor_and_solve(
        form,
        input,
        lower_starts,
        lower_index,
        lower_values,
        upper_starts,
        upper_runs,
        upper_index,
        upper_values,
        d,
        x,
        work,
        marks,
    );
    let refused = fault.is_err();
    stages::clear_numbers_if(refused, lower_values, upper_values, d);
    stages::clear_scratch(work, marks);
    fault
}

// Computes factors and x of new values over a structure that the plain form's structure call or solve has left.
pub fn refactor_plain(
    input: System<'_>,
    lower_starts: &[u32],
    lower_index: &[Index],
    lower_values: &mut [f64],
    upper_starts: &[u32],
    upper_index: &[Index],
    upper_values: &mut [f64],
    d: &mut [f64],
    x: &mut [f64],
    work: &mut [f64],
    marks: &mut [u32],
) -> Result<(), Refusal>
    ensures { RefactorsPlain (lent input.entry)
        lower_starts.now lower_index.now lower_values.old upper_starts.now upper_index.now upper_values.old d.old x.old work.old marks.old result
        lower_values.new upper_values.new d.new x.new work.new marks.new }
{
    refactor_in(
        Way::OneAfterAnother,
        input,
        lower_starts,
        lower_starts,
        lower_index,
        lower_values,
        upper_starts,
        upper_starts,
        upper_index,
        upper_values,
        d,
        x,
        work,
        marks,
    )
}

// Computes factors and x of new values over a structure that the shared form's structure call or solve has left.
pub fn refactor_shared(
    input: System<'_>,
    lower_starts: &[u32],
    lower_runs: &[u32],
    lower_index: &[Index],
    lower_values: &mut [f64],
    upper_starts: &[u32],
    upper_runs: &[u32],
    upper_index: &[Index],
    upper_values: &mut [f64],
    d: &mut [f64],
    x: &mut [f64],
    work: &mut [f64],
    marks: &mut [u32],
) -> Result<(), Refusal>
    ensures { RefactorsShared (lent input.entry)
        lower_starts.now lower_runs.now lower_index.now lower_values.old upper_starts.now upper_runs.now upper_index.now upper_values.old d.old x.old work.old marks.old result
        lower_values.new upper_values.new d.new x.new work.new marks.new }
{
    refactor_in(
        Way::Sharing,
        input,
        lower_starts,
        lower_runs,
        lower_index,
        lower_values,
        upper_starts,
        upper_runs,
        upper_index,
        upper_values,
        d,
        x,
        work,
        marks,
    )
}
