// The fill sheet: the shared structure call, and its structure printed.
#![tactic(auto)]

ghost use Rattle.std.specs.Prelude.{◌≡◌, not, ◌&&◌, [], eqb};
ghost use Rattle.base.specs.Answers.{left};
ghost use Rattle.base.specs.Limits.{rows_within};
ghost use Rattle.matrix.specs.Input.{lent_pattern};
ghost use Rattle.outcome.specs.Buffers.{shared_buffers};
ghost use Rattle.sheet.specs.Sheet.{sheet_bytes};
ghost use Rattle.fill_sheet.specs.FillSheet.{sheet_buffers, sheet_outcome};

use base::{Counts, Index, Refusal};
use matrix::{Matrix, System};

// Asks 2 of the sheet: tells whether n is within its limits and the length is not that of n places. Of another n structure_shared asks 1.
fn wrong_length(n: usize, len: usize) -> bool
    ensures { result ≡ (rows_within n && not (eqb len (sheet_bytes n))) }
{
    if !Matrix::rows_within(n) {
        return false;
    }
    len != 2050 * sheet::pages(n)
}

// Finds the fill of M' and places it in the shared form, as structure_shared does, and prints the fill sheet of it.
pub fn fill_sheet(
    input: System<'_>,
    lower_starts: &mut [u32],
    lower_runs: &mut [u32],
    lower_index: &mut [Index],
    lower_values: &mut [f64],
    upper_starts: &mut [u32],
    upper_runs: &mut [u32],
    upper_index: &mut [Index],
    upper_values: &mut [f64],
    work: &mut [f64],
    marks: &mut [u32],
    sheet: &mut [u8],
) -> Result<Counts, Refusal>
    ensures { left result (sheet_buffers (shared_buffers lower_starts.new lower_runs.new lower_index.new lower_values.new upper_starts.new upper_runs.new upper_index.new upper_values.new [] [] work.new marks.new) sheet.new)
        ≡ sheet_outcome (lent_pattern input.entry)
        (sheet_buffers (shared_buffers lower_starts.old lower_runs.old lower_index.old lower_values.old upper_starts.old upper_runs.old upper_index.old upper_values.old [] [] work.old marks.old) sheet.old) }
{
    if wrong_length(input.n, sheet.len()) {
        return Err(Refusal::Lengths);
    }
    let counts = shared_form::structure_shared(
        input,
        lower_starts,
        lower_runs,
        lower_index,
        lower_values,
        upper_starts,
        upper_runs,
        upper_index,
        upper_values,
        work,
        marks,
    )?;
    sheet::print(
        input.n,
        input.r,
        lower_starts,
        lower_runs,
        lower_index,
        upper_starts,
        upper_runs,
        marks,
        sheet,
    );
    Ok(counts)
}
