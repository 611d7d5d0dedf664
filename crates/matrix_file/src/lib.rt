// The matrix file: its shape, its reading and its writing.
#![tactic(auto)]

ghost use Rattle.std.specs.Prelude.{◌≡◌, ◌++◌, ◌+◌, ◌*◌, ◌≤◌, ◌<◌, length};
ghost use Rattle.base.specs.Answers.{left, Pass};
ghost use Rattle.base.specs.Limits.{max_rows};
ghost use Rattle.matrix.specs.Input.{input_of};
ghost use Rattle.fields.specs.Numbers.{stream};
ghost use Rattle.fields.specs.Payload.{room, payloads};
ghost use Rattle.matrix.specs.Lists.{matrix_lists};
ghost use Rattle.matrix_file.specs.MatrixFile.{n_of, e_of, shape_in, shaped, fits_shape, ask_head, opened, lists_at, matrix_parts, order_parts, written, ask_lengths, ask_write, read_outcome, write_outcome};

use base::{Index, Refusal};
use fields::Reader;
use matrix::Matrix;

// The two numbers that a matrix file begins with.
#[derive(Clone, Copy)]
pub struct Sizes {
    pub n: u64,
    pub e: u64,
}

// Reads the two numbers that the file begins with.
pub fn sizes_of(file: &[u8]) -> Sizes
    requires { 8 ≤ room file.now }
    ensures { (result.n ≡ n_of file.now) × (result.e ≡ e_of file.now) }
{
    let r = Reader::new(file);
    Sizes {
        n: r.number(4),
        e: r.past(4).number(4),
    }
}

// Question 18.
fn fits_shape(file: &[u8], n: usize, e: usize) -> bool
    requires { n ≤ max_rows }
    ensures { result ≡ fits_shape file.now n e }
{
    if Matrix::MAX_ENTRIES < e {
        return false;
    }
    blocks::ends_at(file, 12 + 16 * n + 10 * e)
}

// Questions 1 and 18 of n and e as the file has them.
fn ask_head(file: &[u8], n: usize, e: usize) -> Result<(), Refusal>
    ensures { result ≡ ask_head file.now n e }
{
    if !Matrix::rows_within(n) {
        return Err(Refusal::Rows);
    }
    if !fits_shape(file, n, e) {
        return Err(Refusal::FileShape);
    }
    Ok(())
}

// The shape of the matrix in a file of whole blocks.
fn head_shape(file: &[u8]) -> Result<Matrix, Refusal>
    requires { 8 ≤ room file.now }
    ensures { result ≡ shaped (ask_head file.now (n_of file.now) (e_of file.now)) (shape_in file.now) }
{
    let sizes = sizes_of(file);
    let n = sizes.n as usize;
    let e = sizes.e as usize;
    ask_head(file, n, e)?;
    Ok(Matrix {
        rows: n,
        entries: e,
    })
}

// Gives the shape of the matrix in a file: questions 16, 17, 1 and 18.
pub fn matrix_file_shape(file: &[u8]) -> Result<Matrix, Refusal>
    ensures { result ≡ opened file.now }
{
    blocks::ask_blocks(file)?;
    head_shape(file)
}

// Fills the lists with what stands in the file from payload byte 8 on.
fn load(
    file: &[u8],
    starts: &mut [u32],
    columns: &mut [Index],
    values: &mut [f64],
    r: &mut [Index],
    c: &mut [Index],
    b: &mut [f64],
)
    requires { 8 + 4 * length starts.old + 2 * length columns.old + 8 * length values.old + 2 * length r.old + 2 * length c.old + 8 * length b.old ≤ room file.now }
    ensures { matrix_lists starts.new columns.new values.new r.new c.new b.new ≡ lists_at file.now (length starts.old) (length columns.old) (length values.old) (length r.old) (length c.old) (length b.old) }
{
    let at = fields::read_as::<4, _>(file, 8, starts);
    let at = fields::read_as::<2, _>(file, at, columns);
    let at = fields::read_as::<8, _>(file, at, values);
    let at = fields::read_as::<2, _>(file, at, r);
    let at = fields::read_as::<2, _>(file, at, c);
    fields::read_as::<8, _>(file, at, b);
}

// Reads the matrix of a file into the lent buffers: questions 16, 17, 1, 18 and 2. A refusal leaves them as they were.
pub fn read_matrix(
    file: &[u8],
    starts: &mut [u32],
    columns: &mut [Index],
    values: &mut [f64],
    r: &mut [Index],
    c: &mut [Index],
    b: &mut [f64],
) -> Result<(), Refusal>
    ensures { left result (matrix_lists starts.new columns.new values.new r.new c.new b.new) ≡ read_outcome file.now (matrix_lists starts.old columns.old values.old r.old c.old b.old) }
{
    let m = matrix_file_shape(file)?;
    if !Matrix::lengths_right(
        m.rows,
        m.entries,
        starts.len(),
        columns.len(),
        values.len(),
        r.len(),
        c.len(),
        b.len(),
    ) {
        return Err(Refusal::Lengths);
    }
    load(file, starts, columns, values, r, c, b);
    Ok(())
}

// Lays n, e, starts, columns and values down from the first payload byte on, and answers where they end.
fn lay_matrix(n: usize, starts: &[u32], columns: &[Index], values: &[f64], file: &mut [u8]) -> usize
    requires { 8 + 4 * length starts.now + 2 * length columns.now + 8 * length values.now ≤ room file.old }
    ensures { (result ≡ 8 + 4 * length starts.now + 2 * length columns.now + 8 * length values.now) × (payloads file.new result ≡ stream (matrix_parts n starts.now columns.now values.now)) }
{
    let at = fields::put_number(file, 0, 4, n as u64);
    let at = fields::put_number(file, at, 4, columns.len() as u64);
    let at = fields::write_as::<4, _>(file, at, starts);
    let at = fields::write_as::<2, _>(file, at, columns);
    fields::write_as::<8, _>(file, at, values)
}

// Lays r, c and b down from payload byte `at` on, and answers where they end.
fn lay_orders(at: usize, r: &[Index], c: &[Index], b: &[f64], file: &mut [u8]) -> usize
    requires { at + 2 * length r.now + 2 * length c.now + 8 * length b.now ≤ room file.old }
    ensures { (result ≡ at + 2 * length r.now + 2 * length c.now + 8 * length b.now) × (payloads file.new result ≡ payloads file.old at ++ stream (order_parts r.now c.now b.now)) }
{
    let at = fields::write_as::<2, _>(file, at, r);
    let at = fields::write_as::<2, _>(file, at, c);
    fields::write_as::<8, _>(file, at, b)
}

// Writes the file of a matrix over a buffer of its length.
fn store(
    n: usize,
    starts: &[u32],
    columns: &[Index],
    values: &[f64],
    r: &[Index],
    c: &[Index],
    b: &[f64],
    file: &mut [u8],
)
    requires { ask_write (input_of n starts.now columns.now values.now r.now c.now b.now) (length file.old) ≡ Pass }
    ensures { file.new ≡ written (input_of n starts.now columns.now values.now r.now c.now b.now) }
{
    let at = lay_matrix(n, starts, columns, values, file);
    let at = lay_orders(at, r, c, b, file);
    blocks::finish(file, at);
}

// The writer's questions, of the lengths of what is lent.
fn ask_write(
    n: usize,
    e: usize,
    starts: usize,
    values: usize,
    r: usize,
    c: usize,
    b: usize,
    len: usize,
) -> Result<(), Refusal>
    ensures { result ≡ ask_lengths n e starts values r c b len }
{
    if !Matrix::rows_within(n) {
        return Err(Refusal::Rows);
    }
    if Matrix::MAX_ENTRIES < e {
        return Err(Refusal::FileShape);
    }
    if Matrix::lengths_right(n, e, starts, e, values, r, c, b)
        & (len == 512 * ((12 + 16 * n + 10 * e + 503) / 504))
    {
        return Ok(());
    }
    Err(Refusal::Lengths)
}

// Writes the file of a matrix over the lent buffer: questions 1, 18 and 2. A refusal leaves it as it was.
pub fn write_matrix(
    n: usize,
    starts: &[u32],
    columns: &[Index],
    values: &[f64],
    r: &[Index],
    c: &[Index],
    b: &[f64],
    file: &mut [u8],
) -> Result<(), Refusal>
    ensures { left result file.new ≡ write_outcome (input_of n starts.now columns.now values.now r.now c.now b.now) file.old }
{
    ask_write(
        n,
        columns.len(),
        starts.len(),
        values.len(),
        r.len(),
        c.len(),
        b.len(),
        file.len(),
    )?;
    store(n, starts, columns, values, r, c, b, file);
    Ok(())
}
