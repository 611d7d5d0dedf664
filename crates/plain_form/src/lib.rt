// The calls of the plain form. Their stages are in stages/specs: Asking for the questions before 9, Stages and Ends for what is left of a call after them.
#![tactic(auto)]

ghost use Rattle.std.specs.Prelude.{[]};
ghost use Rattle.base.specs.declared.Form.TheVariants.{Plain};
ghost use Rattle.matrix.specs.Input.{lent, lent_pattern};
ghost use Rattle.outcome.specs.Buffers.{plain_buffers, sizes};
ghost use Rattle.outcome.specs.Calls.{StructuresPlain, SolvesPlain};
ghost use Rattle.stages.specs.Stages.{Leaves};
ghost use Rattle.stages.specs.Shaped.{SolveDue};

use base::{Counts, Form, Index, Refusal, SideSizes, Sizes};
use matrix::System;

// Finds the fill of M' and places it in the plain form: lower rows and T(k) one after another.
pub fn structure_plain(
    input: System<'_>,
    lower_starts: &mut [u32],
    lower_index: &mut [Index],
    lower_values: &mut [f64],
    upper_starts: &mut [u32],
    upper_index: &mut [Index],
    upper_values: &mut [f64],
    work: &mut [f64],
    marks: &mut [u32],
) -> Result<Counts, Refusal>
    ensures { StructuresPlain (lent_pattern input.entry)
        lower_starts.old lower_index.old lower_values.old upper_starts.old upper_index.old upper_values.old work.old marks.old result
        lower_starts.new lower_index.new lower_values.new upper_starts.new upper_index.new upper_values.new work.new marks.new }
{
    let lower = SideSizes {
        starts: lower_starts.len(),
        runs: 0,
        index: lower_index.len(),
        values: lower_values.len(),
    };
    let upper = SideSizes {
        starts: upper_starts.len(),
        runs: 0,
        index: upper_index.len(),
        values: upper_values.len(),
    };
    let sizes = Sizes {
        lower,
        upper,
        d: 0,
        x: 0,
        work: work.len(),
        marks: marks.len(),
    };
    stages::ask_structure(Form::Plain, input, sizes, work, marks)?;
    let a = symbolic::analyze_plain(
        input,
        lower_starts,
        lower_index,
        lower_values.len(),
        upper_starts,
        upper_index,
        upper_values.len(),
        marks,
    );
    let refused = a.is_err();
    stages::clear_lists_if(refused, lower_starts, lower_index);
    stages::clear_lists_if(refused, upper_starts, upper_index);
    base::clear(lower_values);
    base::clear(upper_values);
    stages::clear_scratch(work, marks);
    a
}

// Finds the structure, factors, and writes x: what is left of the solve after the questions before 9, but for clearing.
fn analyze_and_solve(
    input: System<'_>,
    lower_starts: &mut [u32],
    lower_index: &mut [Index],
    lower_values: &mut [f64],
    upper_starts: &mut [u32],
    upper_index: &mut [Index],
    upper_values: &mut [f64],
    d: &mut [f64],
    x: &mut [f64],
    work: &mut [f64],
    marks: &mut [u32],
) -> Result<Counts, Refusal>
    requires { SolveDue Plain (lent input) (sizes (plain_buffers lower_starts.old lower_index.old lower_values.old upper_starts.old upper_index.old upper_values.old d.old x.old work.old marks.old)) }
    ensures { Leaves Plain (lent input.entry)
        (plain_buffers lower_starts.old lower_index.old lower_values.old upper_starts.old upper_index.old upper_values.old d.old x.old work.old marks.old) result
        (plain_buffers lower_starts.new lower_index.new lower_values.new upper_starts.new upper_index.new upper_values.new d.new x.new work.new marks.new) }
{
    let counts = symbolic::analyze_plain(
        input,
        lower_starts,
        lower_index,
        lower_values.len(),
        upper_starts,
        upper_index,
        upper_values.len(),
        marks,
    )?;
    stages::factor_and_solve(
        Form::Plain,
        input,
        lower_starts,
        lower_index,
        lower_values,
        upper_starts,
        upper_starts,
        upper_index,
        upper_values,
        d,
        x,
        work,
        marks,
    )?;
    Ok(counts)
}

// Solves M·x = b in the plain form: structure, factors and x.
pub fn solve_plain(
    input: System<'_>,
    lower_starts: &mut [u32],
    lower_index: &mut [Index],
    lower_values: &mut [f64],
    upper_starts: &mut [u32],
    upper_index: &mut [Index],
    upper_values: &mut [f64],
    d: &mut [f64],
    x: &mut [f64],
    work: &mut [f64],
    marks: &mut [u32],
) -> Result<Counts, Refusal>
    ensures { SolvesPlain (lent input.entry)
        lower_starts.old lower_index.old lower_values.old upper_starts.old upper_index.old upper_values.old d.old x.old work.old marks.old result
        lower_starts.new lower_index.new lower_values.new upper_starts.new upper_index.new upper_values.new d.new x.new work.new marks.new }
{
    let lower = SideSizes {
        starts: lower_starts.len(),
        runs: 0,
        index: lower_index.len(),
        values: lower_values.len(),
    };
    let upper = SideSizes {
        starts: upper_starts.len(),
        runs: 0,
        index: upper_index.len(),
        values: upper_values.len(),
    };
    let sizes = Sizes {
        lower,
        upper,
        d: d.len(),
        x: x.len(),
        work: work.len(),
        marks: marks.len(),
    };
    stages::ask_solve(Form::Plain, input, sizes, work, marks)?;
    let a = analyze_and_solve(
        input,
        lower_starts,
        lower_index,
        lower_values,
        upper_starts,
        upper_index,
        upper_values,
        d,
        x,
        work,
        marks,
    );
    let refused = a.is_err();
    stages::clear_lists_if(refused, lower_starts, lower_index);
    stages::clear_lists_if(refused, upper_starts, upper_index);
    stages::clear_numbers_if(refused, lower_values, upper_values, d);
    stages::clear_scratch(work, marks);
    a
}
