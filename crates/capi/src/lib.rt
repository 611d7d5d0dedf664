// The C interface. Slices pass as pointer and length; a call answers its number and fills the report as far as it goes.
// Each function passes on to the call that it names.
#![tactic(auto)]

ghost use Rattle.std.specs.Prelude.{◌≡◌, []};
ghost use Rattle.std.proofs.lemmas.List.Edits.{sets};
ghost use Rattle.base.specs.Answers.{number_of_answer, own};
ghost use Rattle.base.specs.declared.Form.{Form};
ghost use Rattle.matrix.specs.Input.{input_of, with_floor};
ghost use Rattle.outcome.specs.Buffers.{plain_buffers, shared_buffers, row_buffers};
ghost use Rattle.outcome.specs.Structure.{structure};
ghost use Rattle.outcome.specs.Solve.{solve};
ghost use Rattle.outcome.specs.Refactor.{refactor};
ghost use Rattle.outcome.specs.Resolve.{resolve};
ghost use Rattle.lookup.specs.Lookup.{side_lists};
ghost use Rattle.fill_sheet.specs.FillSheet.{sheet_buffers, sheet_outcome};
ghost use Rattle.load.specs.Load.{load_outcome};
ghost use Rattle.matrix.specs.Lists.{matrix_lists};
ghost use Rattle.matrix_file.specs.MatrixFile.{opened, read_outcome, write_outcome};
ghost use Rattle.factor_contents.specs.FactorFile.{factor_lists};
ghost use Rattle.factor_contents.specs.FactorFile as factors;
ghost use Rattle.report.specs.Report.{Told, ToldEnd, ToldMade, ToldRead, ToldRow, as_left, kept_slots, number_of_shape, shape_slots, list_slots};

use base::{Counts, Index};
use matrix::System;

// Finds the fill and its lists, lower rows and T(k) one after another.
#[unsafe(no_mangle)]
pub extern "C" fn lp_structure_plain(
    n: usize,
    starts: &[u32],
    columns: &[Index],
    r: &[Index],
    c: &[Index],
    lower_starts: &mut [u32],
    lower_index: &mut [Index],
    lower_values: &mut [f64],
    upper_starts: &mut [u32],
    upper_index: &mut [Index],
    upper_values: &mut [f64],
    scratch_f64: &mut [f64],
    scratch_u32: &mut [u32],
    report: &mut [u64],
) -> u32
    ensures { Told (structure Form.Plain (input_of n starts.now columns.now [] r.now c.now [])
        (plain_buffers lower_starts.old lower_index.old lower_values.old upper_starts.old upper_index.old upper_values.old [] [] scratch_f64.old scratch_u32.old))
        report.old report.new
        (plain_buffers lower_starts.new lower_index.new lower_values.new upper_starts.new upper_index.new upper_values.new [] [] scratch_f64.new scratch_u32.new) result }
{
    let a = plain_form::structure_plain(
        System {
            n,
            starts,
            columns,
            values: &[],
            r,
            c,
            b: &[],
            floor: 0.0,
        },
        lower_starts,
        lower_index,
        lower_values,
        upper_starts,
        upper_index,
        upper_values,
        scratch_f64,
        scratch_u32,
    );
    report::put_answer(report, a)
}

// Finds structure, factors and one solution in the plain form.
#[unsafe(no_mangle)]
pub extern "C" fn lp_solve_plain(
    n: usize,
    starts: &[u32],
    columns: &[Index],
    values: &[f64],
    r: &[Index],
    c: &[Index],
    b: &[f64],
    floor: f64,
    lower_starts: &mut [u32],
    lower_index: &mut [Index],
    lower_values: &mut [f64],
    upper_starts: &mut [u32],
    upper_index: &mut [Index],
    upper_values: &mut [f64],
    d: &mut [f64],
    x: &mut [f64],
    scratch_f64: &mut [f64],
    scratch_u32: &mut [u32],
    report: &mut [u64],
) -> u32
    ensures { Told (solve Form.Plain (with_floor floor (input_of n starts.now columns.now values.now r.now c.now b.now))
        (plain_buffers lower_starts.old lower_index.old lower_values.old upper_starts.old upper_index.old upper_values.old d.old x.old scratch_f64.old scratch_u32.old))
        report.old report.new
        (plain_buffers lower_starts.new lower_index.new lower_values.new upper_starts.new upper_index.new upper_values.new d.new x.new scratch_f64.new scratch_u32.new) result }
{
    let a = plain_form::solve_plain(
        System {
            n,
            starts,
            columns,
            values,
            r,
            c,
            b,
            floor,
        },
        lower_starts,
        lower_index,
        lower_values,
        upper_starts,
        upper_index,
        upper_values,
        d,
        x,
        scratch_f64,
        scratch_u32,
    );
    report::put_answer(report, a)
}

// Finds the fill and its lists, lower columns and T(k) sharing index slots.
#[unsafe(no_mangle)]
pub extern "C" fn lp_structure_shared(
    n: usize,
    starts: &[u32],
    columns: &[Index],
    r: &[Index],
    c: &[Index],
    lower_starts: &mut [u32],
    lower_runs: &mut [u32],
    lower_index: &mut [Index],
    lower_values: &mut [f64],
    upper_starts: &mut [u32],
    upper_runs: &mut [u32],
    upper_index: &mut [Index],
    upper_values: &mut [f64],
    scratch_f64: &mut [f64],
    scratch_u32: &mut [u32],
    report: &mut [u64],
) -> u32
    ensures { Told (structure Form.Shared (input_of n starts.now columns.now [] r.now c.now [])
        (shared_buffers lower_starts.old lower_runs.old lower_index.old lower_values.old upper_starts.old upper_runs.old upper_index.old upper_values.old [] [] scratch_f64.old scratch_u32.old))
        report.old report.new
        (shared_buffers lower_starts.new lower_runs.new lower_index.new lower_values.new upper_starts.new upper_runs.new upper_index.new upper_values.new [] [] scratch_f64.new scratch_u32.new) result }
{
    let a = shared_form::structure_shared(
        System {
            n,
            starts,
            columns,
            values: &[],
            r,
            c,
            b: &[],
            floor: 0.0,
        },
        lower_starts,
        lower_runs,
        lower_index,
        lower_values,
        upper_starts,
        upper_runs,
        upper_index,
        upper_values,
        scratch_f64,
        scratch_u32,
    );
    report::put_answer(report, a)
}

// Finds the fill and its lists as lp_structure_shared does, and prints the fill sheet.
#[unsafe(no_mangle)]
pub extern "C" fn lp_fill_sheet(
    n: usize,
    starts: &[u32],
    columns: &[Index],
    r: &[Index],
    c: &[Index],
    lower_starts: &mut [u32],
    lower_runs: &mut [u32],
    lower_index: &mut [Index],
    lower_values: &mut [f64],
    upper_starts: &mut [u32],
    upper_runs: &mut [u32],
    upper_index: &mut [Index],
    upper_values: &mut [f64],
    scratch_f64: &mut [f64],
    scratch_u32: &mut [u32],
    sheet: &mut [u8],
    report: &mut [u64],
) -> u32
    ensures { ToldRead (sheet_outcome (input_of n starts.now columns.now [] r.now c.now [])
        (sheet_buffers (shared_buffers lower_starts.old lower_runs.old lower_index.old lower_values.old upper_starts.old upper_runs.old upper_index.old upper_values.old [] [] scratch_f64.old scratch_u32.old) sheet.old))
        report.old report.new
        (sheet_buffers (shared_buffers lower_starts.new lower_runs.new lower_index.new lower_values.new upper_starts.new upper_runs.new upper_index.new upper_values.new [] [] scratch_f64.new scratch_u32.new) sheet.new) result }
{
    let a = fill_sheet::fill_sheet(
        System {
            n,
            starts,
            columns,
            values: &[],
            r,
            c,
            b: &[],
            floor: 0.0,
        },
        lower_starts,
        lower_runs,
        lower_index,
        lower_values,
        upper_starts,
        upper_runs,
        upper_index,
        upper_values,
        scratch_f64,
        scratch_u32,
        sheet,
    );
    report::put_answer(report, a)
}

// Finds structure, factors and one solution in the shared form.
#[unsafe(no_mangle)]
pub extern "C" fn lp_solve_shared(
    n: usize,
    starts: &[u32],
    columns: &[Index],
    values: &[f64],
    r: &[Index],
    c: &[Index],
    b: &[f64],
    floor: f64,
    lower_starts: &mut [u32],
    lower_runs: &mut [u32],
    lower_index: &mut [Index],
    lower_values: &mut [f64],
    upper_starts: &mut [u32],
    upper_runs: &mut [u32],
    upper_index: &mut [Index],
    upper_values: &mut [f64],
    d: &mut [f64],
    x: &mut [f64],
    scratch_f64: &mut [f64],
    scratch_u32: &mut [u32],
    report: &mut [u64],
) -> u32
    ensures { Told (solve Form.Shared (with_floor floor (input_of n starts.now columns.now values.now r.now c.now b.now))
        (shared_buffers lower_starts.old lower_runs.old lower_index.old lower_values.old upper_starts.old upper_runs.old upper_index.old upper_values.old d.old x.old scratch_f64.old scratch_u32.old))
        report.old report.new
        (shared_buffers lower_starts.new lower_runs.new lower_index.new lower_values.new upper_starts.new upper_runs.new upper_index.new upper_values.new d.new x.new scratch_f64.new scratch_u32.new) result }
{
    let a = shared_form::solve_shared(
        System {
            n,
            starts,
            columns,
            values,
            r,
            c,
            b,
            floor,
        },
        lower_starts,
        lower_runs,
        lower_index,
        lower_values,
        upper_starts,
        upper_runs,
        upper_index,
        upper_values,
        d,
        x,
        scratch_f64,
        scratch_u32,
    );
    report::put_answer(report, a)
}

// Finds one solution by rows, L not kept.
#[unsafe(no_mangle)]
pub extern "C" fn lp_solve_row(
    n: usize,
    starts: &[u32],
    columns: &[Index],
    values: &[f64],
    r: &[Index],
    c: &[Index],
    b: &[f64],
    floor: f64,
    upper_starts: &mut [u32],
    upper_runs: &mut [u32],
    upper_index: &mut [Index],
    upper_values: &mut [f64],
    d: &mut [f64],
    x: &mut [f64],
    scratch_f64: &mut [f64],
    scratch_u32: &mut [u32],
    report: &mut [u64],
) -> u32
    ensures { Told (solve Form.ByRow (with_floor floor (input_of n starts.now columns.now values.now r.now c.now b.now))
        (row_buffers upper_starts.old upper_runs.old upper_index.old upper_values.old d.old x.old scratch_f64.old scratch_u32.old))
        report.old report.new
        (row_buffers upper_starts.new upper_runs.new upper_index.new upper_values.new d.new x.new scratch_f64.new scratch_u32.new) result }
{
    let a = row_form::solve_row(
        System {
            n,
            starts,
            columns,
            values,
            r,
            c,
            b,
            floor,
        },
        upper_starts,
        upper_runs,
        upper_index,
        upper_values,
        d,
        x,
        scratch_f64,
        scratch_u32,
    );
    report::put_answer(report, a)
}

// Factors new values over lists found before, in the plain form, and finds one solution.
#[unsafe(no_mangle)]
pub extern "C" fn lp_refactor_plain(
    n: usize,
    starts: &[u32],
    columns: &[Index],
    values: &[f64],
    r: &[Index],
    c: &[Index],
    b: &[f64],
    floor: f64,
    lower_starts: &[u32],
    lower_index: &[Index],
    lower_values: &mut [f64],
    upper_starts: &[u32],
    upper_index: &[Index],
    upper_values: &mut [f64],
    d: &mut [f64],
    x: &mut [f64],
    scratch_f64: &mut [f64],
    scratch_u32: &mut [u32],
    report: &mut [u64],
) -> u32
    ensures { ToldEnd (as_left (refactor Form.Plain (with_floor floor (input_of n starts.now columns.now values.now r.now c.now b.now))
        (plain_buffers lower_starts.now lower_index.now lower_values.old upper_starts.now upper_index.now upper_values.old d.old x.old scratch_f64.old scratch_u32.old)))
        report.old report.new
        (plain_buffers lower_starts.now lower_index.now lower_values.new upper_starts.now upper_index.now upper_values.new d.new x.new scratch_f64.new scratch_u32.new) result }
{
    let a = refactor::refactor_plain(
        System {
            n,
            starts,
            columns,
            values,
            r,
            c,
            b,
            floor,
        },
        lower_starts,
        lower_index,
        lower_values,
        upper_starts,
        upper_index,
        upper_values,
        d,
        x,
        scratch_f64,
        scratch_u32,
    );
    report::put_end(report, a)
}

// Factors new values over lists found before, in the shared form, and finds one solution.
#[unsafe(no_mangle)]
pub extern "C" fn lp_refactor_shared(
    n: usize,
    starts: &[u32],
    columns: &[Index],
    values: &[f64],
    r: &[Index],
    c: &[Index],
    b: &[f64],
    floor: f64,
    lower_starts: &[u32],
    lower_runs: &[u32],
    lower_index: &[Index],
    lower_values: &mut [f64],
    upper_starts: &[u32],
    upper_runs: &[u32],
    upper_index: &[Index],
    upper_values: &mut [f64],
    d: &mut [f64],
    x: &mut [f64],
    scratch_f64: &mut [f64],
    scratch_u32: &mut [u32],
    report: &mut [u64],
) -> u32
    ensures { ToldEnd (as_left (refactor Form.Shared (with_floor floor (input_of n starts.now columns.now values.now r.now c.now b.now))
        (shared_buffers lower_starts.now lower_runs.now lower_index.now lower_values.old upper_starts.now upper_runs.now upper_index.now upper_values.old d.old x.old scratch_f64.old scratch_u32.old)))
        report.old report.new
        (shared_buffers lower_starts.now lower_runs.now lower_index.now lower_values.new upper_starts.now upper_runs.now upper_index.now upper_values.new d.new x.new scratch_f64.new scratch_u32.new) result }
{
    let a = refactor::refactor_shared(
        System {
            n,
            starts,
            columns,
            values,
            r,
            c,
            b,
            floor,
        },
        lower_starts,
        lower_runs,
        lower_index,
        lower_values,
        upper_starts,
        upper_runs,
        upper_index,
        upper_values,
        d,
        x,
        scratch_f64,
        scratch_u32,
    );
    report::put_end(report, a)
}

// Solves for another right side with factors of the plain form.
#[unsafe(no_mangle)]
pub extern "C" fn lp_resolve_plain(
    n: usize,
    r: &[Index],
    c: &[Index],
    b: &[f64],
    lower_starts: &[u32],
    lower_index: &[Index],
    lower_values: &[f64],
    upper_starts: &[u32],
    upper_index: &[Index],
    upper_values: &[f64],
    d: &[f64],
    x: &mut [f64],
    scratch_f64: &mut [f64],
    scratch_u32: &mut [u32],
    report: &mut [u64],
) -> u32
    ensures { ToldEnd (as_left (resolve Form.Plain (input_of n [] [] [] r.now c.now b.now)
        (plain_buffers lower_starts.now lower_index.now lower_values.now upper_starts.now upper_index.now upper_values.now d.now x.old scratch_f64.old scratch_u32.old)))
        report.old report.new
        (plain_buffers lower_starts.now lower_index.now lower_values.now upper_starts.now upper_index.now upper_values.now d.now x.new scratch_f64.new scratch_u32.new) result }
{
    let a = resolve::resolve_plain(
        n,
        r,
        c,
        b,
        lower_starts,
        lower_index,
        lower_values,
        upper_starts,
        upper_index,
        upper_values,
        d,
        x,
        scratch_f64,
        scratch_u32,
    );
    report::put_end(report, a)
}

// Solves for another right side with factors of the shared form.
#[unsafe(no_mangle)]
pub extern "C" fn lp_resolve_shared(
    n: usize,
    r: &[Index],
    c: &[Index],
    b: &[f64],
    lower_starts: &[u32],
    lower_runs: &[u32],
    lower_index: &[Index],
    lower_values: &[f64],
    upper_starts: &[u32],
    upper_runs: &[u32],
    upper_index: &[Index],
    upper_values: &[f64],
    d: &[f64],
    x: &mut [f64],
    scratch_f64: &mut [f64],
    scratch_u32: &mut [u32],
    report: &mut [u64],
) -> u32
    ensures { ToldEnd (as_left (resolve Form.Shared (input_of n [] [] [] r.now c.now b.now)
        (shared_buffers lower_starts.now lower_runs.now lower_index.now lower_values.now upper_starts.now upper_runs.now upper_index.now upper_values.now d.now x.old scratch_f64.old scratch_u32.old)))
        report.old report.new
        (shared_buffers lower_starts.now lower_runs.now lower_index.now lower_values.now upper_starts.now upper_runs.now upper_index.now upper_values.now d.now x.new scratch_f64.new scratch_u32.new) result }
{
    let a = resolve::resolve_shared(
        n,
        r,
        c,
        b,
        lower_starts,
        lower_runs,
        lower_index,
        lower_values,
        upper_starts,
        upper_runs,
        upper_index,
        upper_values,
        d,
        x,
        scratch_f64,
        scratch_u32,
    );
    report::put_end(report, a)
}

// Gives the list of a side at a place in the plain form: offset in its index store and length.
#[unsafe(no_mangle)]
pub extern "C" fn lp_list_plain(
    side: u32,
    place: usize,
    n: usize,
    lower_starts: &[u32],
    lower_index: &[Index],
    upper_starts: &[u32],
    upper_index: &[Index],
    report: &mut [u64],
) -> u32
    ensures value { result ≡ 0 }
    ensures report_after { report.new ≡ sets report.old 0 (list_slots Form.Plain side place n (side_lists lower_starts.now lower_starts.now lower_index.now) (side_lists upper_starts.now upper_starts.now upper_index.now)) }
{
    report::list_plain(
        side,
        place,
        n,
        lower_starts,
        lower_index,
        upper_starts,
        upper_index,
        report,
    )
}

// Gives the same in the shared form.
#[unsafe(no_mangle)]
pub extern "C" fn lp_list_shared(
    side: u32,
    place: usize,
    n: usize,
    lower_starts: &[u32],
    lower_runs: &[u32],
    lower_index: &[Index],
    upper_starts: &[u32],
    upper_runs: &[u32],
    upper_index: &[Index],
    report: &mut [u64],
) -> u32
    ensures value { result ≡ 0 }
    ensures report_after { report.new ≡ sets report.old 0 (list_slots Form.Shared side place n (side_lists lower_starts.now lower_runs.now lower_index.now) (side_lists upper_starts.now upper_runs.now upper_index.now)) }
{
    report::list_shared(
        side,
        place,
        n,
        lower_starts,
        lower_runs,
        lower_index,
        upper_starts,
        upper_runs,
        upper_index,
        report,
    )
}

// Gives n and e of a matrix file.
#[unsafe(no_mangle)]
pub extern "C" fn lp_file_shape(file: &[u8], report: &mut [u64]) -> u32
    ensures value { result ≡ number_of_shape (opened file.now) }
    ensures report_after { report.new ≡ sets report.old 0 (shape_slots (opened file.now)) }
{
    report::file_shape(file, report)
}

// Reads a matrix file into lent buffers.
#[unsafe(no_mangle)]
pub extern "C" fn lp_read_matrix(
    file: &[u8],
    starts: &mut [u32],
    columns: &mut [Index],
    values: &mut [f64],
    r: &mut [Index],
    c: &mut [Index],
    b: &mut [f64],
    report: &mut [u64],
) -> u32
    ensures { ToldEnd (read_outcome file.now (matrix_lists starts.old columns.old values.old r.old c.old b.old))
        report.old report.new (matrix_lists starts.new columns.new values.new r.new c.new b.new) result }
{
    report::read_matrix(file, starts, columns, values, r, c, b, report)
}

// Writes a matrix as a file.
#[unsafe(no_mangle)]
pub extern "C" fn lp_write_matrix(
    n: usize,
    starts: &[u32],
    columns: &[Index],
    values: &[f64],
    r: &[Index],
    c: &[Index],
    b: &[f64],
    file: &mut [u8],
    report: &mut [u64],
) -> u32
    ensures { ToldEnd (write_outcome (input_of n starts.now columns.now values.now r.now c.now b.now) file.old)
        report.old report.new file.new result }
{
    report::write_matrix(n, starts, columns, values, r, c, b, file, report)
}

// Gives n, lower and upper of a factor file.
#[unsafe(no_mangle)]
pub extern "C" fn lp_factor_shape(file: &[u8], report: &mut [u64]) -> u32
    ensures value { result ≡ number_of_answer (factors.opened file.now) }
    ensures report_after { report.new ≡ sets report.old 0 (kept_slots (factors.opened file.now)) }
{
    let a = factor_reading::factor_file_shape(file);
    report::put_kept(report, a)
}

// Reads a factor file into lent buffers.
#[unsafe(no_mangle)]
pub extern "C" fn lp_read_factors(
    file: &[u8],
    r: &mut [Index],
    c: &mut [Index],
    lower_starts: &mut [u32],
    lower_index: &mut [Index],
    lower_values: &mut [f64],
    upper_starts: &mut [u32],
    upper_index: &mut [Index],
    upper_values: &mut [f64],
    d: &mut [f64],
    report: &mut [u64],
) -> u32
    ensures { ToldRead (factors.read_outcome file.now (factor_lists r.old c.old lower_starts.old lower_index.old lower_values.old upper_starts.old upper_index.old upper_values.old d.old))
        report.old report.new (factor_lists r.new c.new lower_starts.new lower_index.new lower_values.new upper_starts.new upper_index.new upper_values.new d.new) result }
{
    let a = factor_reading::read_factors(
        file,
        r,
        c,
        lower_starts,
        lower_index,
        lower_values,
        upper_starts,
        upper_index,
        upper_values,
        d,
    );
    report::put_answer(report, a)
}

// Writes factors of the plain form as a file.
#[unsafe(no_mangle)]
pub extern "C" fn lp_write_factors(
    n: usize,
    lower: u64,
    upper: u64,
    products: u64,
    r: &[Index],
    c: &[Index],
    lower_starts: &[u32],
    lower_index: &[Index],
    lower_values: &[f64],
    upper_starts: &[u32],
    upper_index: &[Index],
    upper_values: &[f64],
    d: &[f64],
    file: &mut [u8],
    report: &mut [u64],
) -> u32
    ensures { ToldEnd (factors.write_outcome n (record { lower = lower; upper = upper; products = products }) (factor_lists r.now c.now lower_starts.now lower_index.now lower_values.now upper_starts.now upper_index.now upper_values.now d.now) file.old)
        report.old report.new file.new result }
{
    let counts = Counts {
        lower,
        upper,
        products,
    };
    let a = factor_writing::write_factors(
        n,
        counts,
        r,
        c,
        lower_starts,
        lower_index,
        lower_values,
        upper_starts,
        upper_index,
        upper_values,
        d,
        file,
    );
    report::put_end(report, a)
}

// Makes the test load of n rows from a seed.
#[unsafe(no_mangle)]
pub extern "C" fn lp_test_load(
    n: usize,
    seed: u16,
    starts: &mut [u32],
    columns: &mut [Index],
    values: &mut [f64],
    r: &mut [Index],
    c: &mut [Index],
    b: &mut [f64],
    report: &mut [u64],
) -> u32
    ensures { ToldMade (load_outcome n seed (matrix_lists starts.old columns.old values.old r.old c.old b.old))
        report.old report.new (matrix_lists starts.new columns.new values.new r.new c.new b.new) result }
{
    report::test_load(n, seed, starts, columns, values, r, c, b, report)
}

// Gives the residual and the width of an own row at x.
#[unsafe(no_mangle)]
pub extern "C" fn lp_residual(
    n: usize,
    starts: &[u32],
    columns: &[Index],
    values: &[f64],
    b: &[f64],
    x: &[f64],
    row: u32,
    pair: &mut [f64],
    report: &mut [u64],
) -> u32
    ensures { ToldRow (input_of n starts.now columns.now values.now [] [] b.now) x.now (own row)
        pair.old pair.new report.old report.new result }
{
    report::residual(n, starts, columns, values, b, x, row, pair, report)
}
