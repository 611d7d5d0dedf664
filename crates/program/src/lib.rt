// The program's answer to a matrix file: the lines that it prints, written into a lent buffer.
#![tactic(auto)]

ghost use Rattle.std.specs.Prelude.{◌≡◌, ◌+◌, ◌*◌, ◌≤◌, length, replicate, Ok};
ghost use Rattle.base.specs.declared.Form.TheVariants.{Plain};
ghost use Rattle.matrix.specs.Input.{input_of};
ghost use Rattle.outcome.specs.Buffers.{plain_buffers};
ghost use Rattle.outcome.specs.Solve.{solve};
ghost use Rattle.printing.specs.Written.{Written};
ghost use Rattle.printing.specs.Prints.{Prints};
ghost use Rattle.program.specs.Program.{value_lines, answer_lines, outcome_lines, solved_lines, Fitting, printed};
ghost use Rattle.matrix.specs.Lists.{matrix_lists};
ghost use Rattle.matrix_file.specs.MatrixFile.{matrix_at, opened};

use base::{Counts, Index, Numbered, Refusal, Zero};
use matrix::{Matrix, System};
use printing::Printer;

// A line for each own column.
fn put_values(printer: &mut Printer<'_>, x: &[f64])
    requires { (printer.old.at ≤ 1000) × (length x.now ≤ 64) }
    ensures prints { Prints (value_lines 0 x.now) printer.old printer.new }
    ensures most { printer.new.at ≤ printer.old.at + 48 * length x.now }
{
    for (j, v) in x.iter().enumerate() {
        printer.value(j as u64, fields::bits_of(*v));
    }
}

// The lines of an answer.
fn put_answer(printer: &mut Printer<'_>, n: usize, answer: Result<Counts, Refusal>, x: &[f64])
    requires { (printer.old.at ≡ 0) × (n ≤ 64) × (length x.now ≤ 64) }
    ensures prints { Prints (answer_lines n answer x.now) printer.old printer.new }
    ensures most { printer.new.at ≤ 4096 }
{
    match answer {
        Ok(counts) => {
            printer.counts(n as u64, counts);
            put_values(printer, x);
        }
        Err(q) => printer.refused(q.number(), q.place()),
    }
}

// Solves over lent buffers, and writes the lines of the answer.
fn solve_into(
    n: usize,
    starts: &[u32],
    columns: &[Index],
    values: &[f64],
    r: &[Index],
    c: &[Index],
    b: &[f64],
    lower_starts: &mut [u32],
    lower_index: &mut [Index],
    lower_values: &mut [f64],
    upper_starts: &mut [u32],
    upper_index: &mut [Index],
    upper_values: &mut [f64],
    d: &mut [f64],
    x: &mut [f64],
    work: &mut [f64],
    marks: &mut [u32],
    printer: &mut Printer<'_>,
)
    requires { (printer.old.at ≡ 0) × (n ≤ 64) × (length x.old ≤ 64) }
    ensures prints { Prints (outcome_lines n (solve Plain (input_of n starts.now columns.now values.now r.now c.now b.now)
        (plain_buffers lower_starts.old lower_index.old lower_values.old upper_starts.old upper_index.old upper_values.old d.old x.old work.old marks.old)))
        printer.old printer.new }
    ensures most { printer.new.at ≤ 4096 }
{
    let a = plain_form::solve_plain(
        System {
            n,
            starts,
            columns,
            values,
            r,
            c,
            b,
            floor: 0.0,
        },
        lower_starts,
        lower_index,
        lower_values,
        upper_starts,
        upper_index,
        upper_values,
        d,
        x,
        work,
        marks,
    );
    put_answer(printer, n, a, x);
}

// Zeros to lend, in a function of its own, so that proofs see the list's name and not its slots.
fn zeroed<T: Zero, const N: usize>() -> [T; N]
    ensures long { N ≡ length result }
    ensures zero { result ≡ replicate N T.nil }
{
    [T::zero(); N]
}

// Stores of 2,016 slots, and the lines of the answer.
fn solve_lines(
    n: usize,
    starts: &[u32],
    columns: &[Index],
    values: &[f64],
    r: &[Index],
    c: &[Index],
    b: &[f64],
    printer: &mut Printer<'_>,
)
    requires { (printer.old.at ≡ 0) × (n ≤ 64) }
    ensures prints { Prints (solved_lines (input_of n starts.now columns.now values.now r.now c.now b.now)) printer.old printer.new }
    ensures most { printer.new.at ≤ 4096 }
{
    let mut lower_starts = zeroed::<u32, 520>();
    let mut lower_index = zeroed::<Index, 2016>();
    let mut lower_values = zeroed::<f64, 2016>();
    let mut upper_starts = zeroed::<u32, 520>();
    let mut upper_index = zeroed::<Index, 2016>();
    let mut upper_values = zeroed::<f64, 2016>();
    let mut d = zeroed::<f64, 2016>();
    let mut x = zeroed::<f64, 2016>();
    let mut work = zeroed::<f64, 2016>();
    let mut marks = zeroed::<u32, 520>();
    solve_into(
        n,
        starts,
        columns,
        values,
        r,
        c,
        b,
        &mut lower_starts[..n + 1],
        &mut lower_index,
        &mut lower_values,
        &mut upper_starts[..n + 1],
        &mut upper_index,
        &mut upper_values,
        &mut d[..n],
        &mut x[..n],
        &mut work[..3 * n],
        &mut marks[..8 * n + 8],
        printer,
    );
}

// Reads the matrix of a file, whose shape is known, into lent buffers, solves it, and writes the lines of the answer.
fn read_lines(
    file: &[u8],
    n: usize,
    starts: &mut [u32],
    columns: &mut [Index],
    values: &mut [f64],
    r: &mut [Index],
    c: &mut [Index],
    b: &mut [f64],
    printer: &mut Printer<'_>,
)
    requires { (printer.old.at ≡ 0) × (n ≤ 64) × Fitting file.now n (matrix_lists starts.old columns.old values.old r.old c.old b.old) }
    ensures prints { Prints (solved_lines (matrix_at file.now)) printer.old printer.new }
    ensures most { printer.new.at ≤ 4096 }
{
    // A matrix of this shape is read.
    let _ = matrix_file::read_matrix(file, starts, columns, values, r, c, b);
    solve_lines(n, starts, columns, values, r, c, b, printer);
}

// The same over buffers of its own.
fn shaped_lines(file: &[u8], m: Matrix, printer: &mut Printer<'_>)
    requires { (printer.old.at ≡ 0) × (m.rows ≤ 64) × (m.entries ≤ 1024) × (opened file.now ≡ Ok m) }
    ensures prints { Prints (solved_lines (matrix_at file.now)) printer.old printer.new }
    ensures most { printer.new.at ≤ 4096 }
{
    let n = m.rows;
    let e = m.entries;
    let mut starts = zeroed::<u32, 520>();
    let mut columns = zeroed::<Index, 2016>();
    let mut values = zeroed::<f64, 2016>();
    let mut r = zeroed::<Index, 2016>();
    let mut c = zeroed::<Index, 2016>();
    let mut b = zeroed::<f64, 2016>();
    read_lines(
        file,
        n,
        &mut starts[..n + 1],
        &mut columns[..e],
        &mut values[..e],
        &mut r[..n],
        &mut c[..n],
        &mut b[..n],
        printer,
    );
}

// The lines that the program prints for a file.
fn put_file(file: &[u8], printer: &mut Printer<'_>)
    requires { printer.old.at ≡ 0 }
    ensures prints { Prints (printed file.now) printer.old printer.new }
    ensures most { printer.new.at ≤ 4096 }
{
    if 11776 < file.len() {
        return printer.too_large();
    }
    let found = matrix_file::matrix_file_shape(file);
    match found {
        Err(q) => printer.refused(q.number(), q.place()),
        Ok(m) => {
            if (m.rows <= 64) & (m.entries <= 1024) {
                return shaped_lines(file, m, printer);
            }
            printer.too_large();
        }
    }
}

// Writes the lines that the program prints for a file. A buffer of 4,096 bytes holds them all.
pub fn solve_file(file: &[u8], out: &mut [u8]) -> usize
    ensures { Written (printed file.now) out.old 0 out.new result × (result ≤ 4096) }
{
    let mut printer = Printer::new(out);
    put_file(file, &mut printer);
    printer.at
}
