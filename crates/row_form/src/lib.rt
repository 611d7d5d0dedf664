// The solve in the row form. Its stages are in stages/specs: Asking for the questions before 9, Stages and Ends for what is left of a call after them.
#![tactic(auto)]

ghost use Rattle.base.specs.declared.Form.TheVariants.{ByRow};
ghost use Rattle.matrix.specs.Input.{lent};
ghost use Rattle.outcome.specs.Buffers.{row_buffers, sizes};
ghost use Rattle.outcome.specs.Calls.{SolvesByRow};
ghost use Rattle.stages.specs.Stages.{Leaves};
ghost use Rattle.stages.specs.Shaped.{SolveDue};

use base::{Counts, Form, Index, Refusal, SideSizes, Sizes};
use matrix::System;

// Finds the structure, factors, and writes x: what is left of the solve after the questions before 9, but for clearing.
fn analyze_and_solve(
    input: System<'_>,
    upper_starts: &mut [u32],
    upper_runs: &mut [u32],
    upper_index: &mut [Index],
    upper_values: &mut [f64],
    d: &mut [f64],
    x: &mut [f64],
    work: &mut [f64],
    marks: &mut [u32],
) -> Result<Counts, Refusal>
    requires { SolveDue ByRow (lent input) (sizes (row_buffers upper_starts.old upper_runs.old upper_index.old upper_values.old d.old x.old work.old marks.old)) }
    ensures { Leaves ByRow (lent input.entry)
        (row_buffers upper_starts.old upper_runs.old upper_index.old upper_values.old d.old x.old work.old marks.old) result
        (row_buffers upper_starts.new upper_runs.new upper_index.new upper_values.new d.new x.new work.new marks.new) }
{
    let counts = symbolic::analyze_by_row(
        input,
        upper_starts,
        upper_runs,
        upper_index,
        upper_values.len(),
        marks,
    )?;
    // The row form keeps no L.
    let mut none = [0.0; 1];
    stages::factor_and_solve(
        Form::ByRow,
        input,
        &input.starts[..0],
        &input.columns[..0],
        &mut none[..0],
        upper_starts,
        upper_runs,
        upper_index,
        upper_values,
        d,
        x,
        work,
        marks,
    )?;
    Ok(counts)
}

// Solves M·x = b in the row form: only the upper side is kept, and zeroed at the end.
pub fn solve_row(
    input: System<'_>,
    upper_starts: &mut [u32],
    upper_runs: &mut [u32],
    upper_index: &mut [Index],
    upper_values: &mut [f64],
    d: &mut [f64],
    x: &mut [f64],
    work: &mut [f64],
    marks: &mut [u32],
) -> Result<Counts, Refusal>
    ensures { SolvesByRow (lent input.entry)
        upper_starts.old upper_runs.old upper_index.old upper_values.old d.old x.old work.old marks.old result
        upper_starts.new upper_runs.new upper_index.new upper_values.new d.new x.new work.new marks.new }
{
    let lower = SideSizes {
        starts: 0,
        runs: 0,
        index: 0,
        values: 0,
    };
    let upper = SideSizes {
        starts: upper_starts.len(),
        runs: upper_runs.len(),
        index: upper_index.len(),
        values: upper_values.len(),
    };
    let sizes = Sizes {
        lower,
        upper,
        d: d.len(),
        x: x.len(),
        work: work.len(),
        marks: marks.len(),
    };
    stages::ask_solve(Form::ByRow, input, sizes, work, marks)?;
    let a = analyze_and_solve(
        input,
        upper_starts,
        upper_runs,
        upper_index,
        upper_values,
        d,
        x,
        work,
        marks,
    );
    base::clear(upper_starts);
    base::clear(upper_runs);
    base::clear(upper_index);
    base::clear(upper_values);
    base::clear(d);
    stages::clear_scratch(work, marks);
    a
}
