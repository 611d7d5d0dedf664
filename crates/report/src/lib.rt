// What the C interface adds to a call: the report's slots filled as far as they go, and numbers that stand for a side and a place.
#![tactic(auto)]

ghost use Rattle.std.specs.Prelude.{◌≡◌, ◌≤◌, [], ◌∷◌};
ghost use Rattle.std.proofs.lemmas.List.Edits.{sets};
ghost use Rattle.base.specs.Answers.{number_of_answer, own};
ghost use Rattle.base.specs.declared.Form.{Form};
ghost use Rattle.matrix.specs.Input.{input_of};
ghost use Rattle.lookup.specs.Lookup.{side_lists};
ghost use Rattle.load.specs.Load.{load_outcome};
ghost use Rattle.matrix.specs.Lists.{matrix_lists};
ghost use Rattle.matrix_file.specs.MatrixFile.{opened, read_outcome, write_outcome};
ghost use Rattle.report.specs.Report.{answer_slots, end_slots, kept_slots, pair_after, ToldEnd, ToldMade, ToldRow, number_of_shape, shape_slots, span_slots, side_numbered, place_in, list_slots};

use base::{Counts, FactorSizes, Index, Numbered, OwnNumber, Place, Refusal, Side};
use lookup::Span;
use matrix::{Matrix, System};
use residual::Checked;

// ---- the slots

// Puts the place of how a call ends and the slots behind it into the report, as far as this goes, and gives its number.
fn put_told<A: Numbered + Copy>(report: &mut [u64], a: A, rest: &[u64]) -> u32
    ensures value { result ≡ A.number_in a }
    ensures report_after { report.new ≡ sets report.old 0 (A.place_in a ∷ rest.now) }
{
    base::put(report, 0, a.place() as u64);
    for (i, v) in rest.iter().enumerate() {
        base::put(report, i + 1, *v);
    }
    a.number()
}

// Writes place and counts of a structure call or a solve, and returns its number.
pub fn put_answer(report: &mut [u64], a: Result<Counts, Refusal>) -> u32
    ensures value { result ≡ number_of_answer a }
    ensures report_after { report.new ≡ sets report.old 0 (answer_slots a) }
{
    let counts = base::counts_of(a);
    put_told(report, a, &[counts.lower, counts.upper, counts.products])
}

// Puts the place of a call without counts into the report, and gives its number.
pub fn put_end(report: &mut [u64], a: Result<(), Refusal>) -> u32
    ensures value { result ≡ number_of_answer a }
    ensures report_after { report.new ≡ sets report.old 0 (end_slots a) }
{
    put_told(report, a, &[])
}

// Writes place and sizes of what a factor file holds, and returns the number.
pub fn put_kept(report: &mut [u64], a: Result<FactorSizes, Refusal>) -> u32
    ensures value { result ≡ number_of_answer a }
    ensures report_after { report.new ≡ sets report.old 0 (kept_slots a) }
{
    let sizes = base::sizes_of(a);
    put_told(
        report,
        a,
        &[sizes.n as u64, sizes.lower as u64, sizes.upper as u64],
    )
}

// Offset and length of a list.
fn put_span(report: &mut [u64], s: Span) -> u32
    requires { s.from ≤ s.to }
    ensures value { result ≡ 0 }
    ensures report_after { report.new ≡ sets report.old 0 (span_slots s) }
{
    base::put(report, 0, s.from as u64);
    base::put(report, 1, (s.to - s.from) as u64);
    0
}

// Residual and width, where there are such.
fn put_pair(pair: &mut [f64], a: Checked)
    ensures { pair.new ≡ pair_after a pair.old }
{
    if let Checked::Pair(r, w) = a {
        base::put(pair, 0, r);
        base::put(pair, 1, w);
    }
}

// ---- lists

// 0 is the lower side, every other number the upper one.
fn side_of(side: u32) -> Side
    ensures { result ≡ side_numbered side }
{
    if side == 0 { Side::Lower } else { Side::Upper }
}

// A place in 32 bits: none from the greatest n on is below n.
fn place_of(place: usize) -> Place
    ensures { result ≡ place_in place }
{
    Place(place.min(Matrix::MAX_ROWS) as u32)
}

// Writes the list of a side at a place in the plain form, as an offset in its store and a length.
pub fn list_plain(
    side: u32,
    place: usize,
    n: usize,
    lower_starts: &[u32],
    lower_index: &[Index],
    upper_starts: &[u32],
    upper_index: &[Index],
    report: &mut [u64],
) -> u32
    ensures value { result ≡ 0 }
    ensures report_after { report.new ≡ sets report.old 0 (list_slots Form.Plain side place n (side_lists lower_starts.now lower_starts.now lower_index.now) (side_lists upper_starts.now upper_starts.now upper_index.now)) }
{
    let s = lookup::span_plain(
        side_of(side),
        place_of(place),
        n,
        lower_starts,
        lower_index,
        upper_starts,
        upper_index,
    );
    put_span(report, s)
}

// Writes the same in the shared form.
pub fn list_shared(
    side: u32,
    place: usize,
    n: usize,
    lower_starts: &[u32],
    lower_runs: &[u32],
    lower_index: &[Index],
    upper_starts: &[u32],
    upper_runs: &[u32],
    upper_index: &[Index],
    report: &mut [u64],
) -> u32
    ensures value { result ≡ 0 }
    ensures report_after { report.new ≡ sets report.old 0 (list_slots Form.Shared side place n (side_lists lower_starts.now lower_runs.now lower_index.now) (side_lists upper_starts.now upper_runs.now upper_index.now)) }
{
    let s = lookup::span_shared(
        side_of(side),
        place_of(place),
        n,
        lower_starts,
        lower_runs,
        lower_index,
        upper_starts,
        upper_runs,
        upper_index,
    );
    put_span(report, s)
}

// ---- files

// Writes n and e of a file.
pub fn file_shape(file: &[u8], report: &mut [u64]) -> u32
    ensures value { result ≡ number_of_shape (opened file.now) }
    ensures report_after { report.new ≡ sets report.old 0 (shape_slots (opened file.now)) }
{
    let found = matrix_file::matrix_file_shape(file);
    let m = found.unwrap_or(Matrix {
        rows: 0,
        entries: 0,
    });
    put_told(report, found, &[m.rows as u64, m.entries as u64])
}

// Reads a file into lent buffers.
pub fn read_matrix(
    file: &[u8],
    starts: &mut [u32],
    columns: &mut [Index],
    values: &mut [f64],
    r: &mut [Index],
    c: &mut [Index],
    b: &mut [f64],
    report: &mut [u64],
) -> u32
    ensures { ToldEnd (read_outcome file.now (matrix_lists starts.old columns.old values.old r.old c.old b.old))
        report.old report.new (matrix_lists starts.new columns.new values.new r.new c.new b.new) result }
{
    let a = matrix_file::read_matrix(file, starts, columns, values, r, c, b);
    put_end(report, a)
}

// Writes a matrix as a file.
pub fn write_matrix(
    n: usize,
    starts: &[u32],
    columns: &[Index],
    values: &[f64],
    r: &[Index],
    c: &[Index],
    b: &[f64],
    file: &mut [u8],
    report: &mut [u64],
) -> u32
    ensures { ToldEnd (write_outcome (input_of n starts.now columns.now values.now r.now c.now b.now) file.old)
        report.old report.new file.new result }
{
    let a = matrix_file::write_matrix(n, starts, columns, values, r, c, b, file);
    put_end(report, a)
}

// ---- the test load

// Makes the test load of n rows from a seed.
pub fn test_load(
    n: usize,
    seed: u16,
    starts: &mut [u32],
    columns: &mut [Index],
    values: &mut [f64],
    r: &mut [Index],
    c: &mut [Index],
    b: &mut [f64],
    report: &mut [u64],
) -> u32
    ensures { ToldMade (load_outcome n seed (matrix_lists starts.old columns.old values.old r.old c.old b.old))
        report.old report.new (matrix_lists starts.new columns.new values.new r.new c.new b.new) result }
{
    let a = load::test_load(n, seed, starts, columns, values, r, c, b);
    let entries = base::entries_of(a);
    put_told(report, a, &[entries as u64])
}

// ---- residuals

// Gives the residual and the width of an own row at x.
pub fn residual(
    n: usize,
    starts: &[u32],
    columns: &[Index],
    values: &[f64],
    b: &[f64],
    x: &[f64],
    row: u32,
    pair: &mut [f64],
    report: &mut [u64],
) -> u32
    ensures { ToldRow (input_of n starts.now columns.now values.now [] [] b.now) x.now (own row)
        pair.old pair.new report.old report.new result }
{
    let a = residual::residual(
        System {
            n,
            starts,
            columns,
            values,
            r: &[],
            c: &[],
            b,
            floor: 0.0,
        },
        x,
        OwnNumber(row),
    );
    put_pair(pair, a);
    put_told(report, a, &[])
}
