// What the calls share: the questions before 9 (19 among a solve's), zeros, 12 and 13, and the solution. The stages of a call, and what its questions settle for them, are in specs/.
#![tactic(auto)]

ghost use Rattle.std.specs.Prelude.{◌≡◌, [], ◌∷◌, ◌+◌, ◌≤◌, length, drop, eqb};
ghost use Rattle.base.specs.All.{all};
ghost use Rattle.base.specs.Lists.{blank, nought};
ghost use Rattle.base.specs.Limits.{max_rows};
ghost use Rattle.matrix.specs.Input.{input_of, own_order, lent, lent_pattern};
ghost use Rattle.outcome.specs.Buffers.{side_tests, lower_tests, list_tests, vector_tests, scratch_tests};
ghost use Rattle.outcome.specs.Solve.{shape};
ghost use Rattle.factor.specs.Factoring.{lists, written};
ghost use Rattle.stages.specs.Shaped.{structure_shape, FactorDue, SolutionDue};
ghost use Rattle.stages.specs.Stages.{blank_if, Concluded};
ghost use Rattle.stages.specs.Asking.{StructureAsking, SolveAsking};
ghost use Rattle.base.specs.Scratch.{z_from};

use base::{Form, Index, Refusal, SideSizes, Sizes, scratch};
use factor::Lists;
use matrix::{Matrix, System};

// ---- questions 1 and 2, from the lengths of what a call is lent

// Tells whether starts and orders are as long as stated. The maker of the matrix type has asked e.
fn pattern_fits(n: usize, starts: usize, r: usize, c: usize) -> bool
    requires { n ≤ max_rows }
    ensures { result ≡ all (eqb starts (n + 1) ∷ eqb r n ∷ eqb c n ∷ []) }
{
    (starts == n + 1) & (r == n) & (c == n)
}

// Tells whether values and b are as long as stated.
fn numbers_fit(n: usize, columns: usize, values: usize, b: usize) -> bool
    ensures { result ≡ all (eqb values columns ∷ eqb b n ∷ []) }
{
    (values == columns) & (b == n)
}

// Tells whether a side is as long as stated, with run starts where the form has them.
fn side_fits(form: Form, n: usize, side: SideSizes) -> bool
    requires { n ≤ max_rows }
    ensures { result ≡ all (side_tests form n side) }
{
    let stores = (side.starts == n + 1)
        & (side.index <= Matrix::MAX_SLOTS)
        & (side.values <= Matrix::MAX_SLOTS);
    match form {
        Form::Plain => stores,
        Form::Shared => stores & (side.runs == n),
        Form::ByRow => stores & (side.runs == n),
    }
}

// Tells the same of the lower side, which the row form is not lent.
fn lower_fits(form: Form, n: usize, side: SideSizes) -> bool
    requires { n ≤ max_rows }
    ensures { result ≡ all (lower_tests form n side) }
{
    match form {
        Form::Plain => side_fits(form, n, side),
        Form::Shared => side_fits(form, n, side),
        Form::ByRow => true,
    }
}

// Tells whether both sides are as long as stated.
pub fn sides_fit(form: Form, n: usize, sizes: Sizes) -> bool
    requires { n ≤ max_rows }
    ensures { result ≡ all (list_tests form n sizes) }
{
    let lower = sizes.lower;
    let upper = sizes.upper;
    let below = lower_fits(form, n, lower);
    let above = side_fits(form, n, upper);
    below & above
}

// Tells whether d and x are as long as stated.
pub fn vectors_fit(n: usize, sizes: Sizes) -> bool
    ensures { result ≡ all (vector_tests n sizes) }
{
    (sizes.d == n) & (sizes.x == n)
}

// Tells whether scratch is as long as stated: "3n binary64 and 8n + 8 32-bit slots".
pub fn scratch_fits(n: usize, sizes: Sizes) -> bool
    requires { n ≤ max_rows }
    ensures { result ≡ all (scratch_tests n sizes) }
{
    (sizes.work == 3 * n) & (sizes.marks == 8 * n + 8)
}

// Asks a structure call's 1 and 2.
fn shape_structure(form: Form, input: System<'_>, sizes: Sizes) -> Result<(), Refusal>
    ensures { result ≡ structure_shape form (lent_pattern input.entry) sizes }
{
    Matrix::new(input.n, input.columns.len())?;
    let pattern = pattern_fits(input.n, input.starts.len(), input.r.len(), input.c.len());
    let lists = sides_fit(form, input.n, sizes);
    let slots = scratch_fits(input.n, sizes);
    if pattern & (lists & slots) {
        return Ok(());
    }
    Err(Refusal::Lengths)
}

// Asks a solve's 1 and 2.
fn shape_solve(form: Form, input: System<'_>, sizes: Sizes) -> Result<(), Refusal>
    ensures { result ≡ shape form (input_of input.entry.n input.entry.starts.now input.entry.columns.now input.entry.values.now input.entry.r.now input.entry.c.now input.entry.b.now) sizes }
{
    Matrix::new(input.n, input.columns.len())?;
    let pattern = pattern_fits(input.n, input.starts.len(), input.r.len(), input.c.len());
    let numbers = numbers_fit(
        input.n,
        input.columns.len(),
        input.values.len(),
        input.b.len(),
    );
    let lists = sides_fit(form, input.n, sizes);
    let vectors = vectors_fit(input.n, sizes);
    let slots = scratch_fits(input.n, sizes);
    if (pattern & numbers) & (lists & vectors & slots) {
        return Ok(());
    }
    Err(Refusal::Lengths)
}

// ---- the questions before 9. 1 and 2 write nothing; where another stops a call, scratch is cleared.

// Asks a structure call's questions, with `sizes` for what it writes.
pub fn ask_structure(
    form: Form,
    input: System<'_>,
    sizes: Sizes,
    work: &mut [f64],
    marks: &mut [u32],
) -> Result<(), Refusal>
    requires { sizes.marks ≡ length marks.old }
    ensures { StructureAsking form (lent_pattern input.entry) sizes work.old marks.old work.new marks.new result }
{
    shape_structure(form, input, sizes)?;
    let a = questions::ask_structure(input, marks);
    if a.is_err() {
        clear_scratch(work, marks);
    }
    a
}

// Asks a solve's questions, with `sizes` for what it writes.
pub fn ask_solve(
    form: Form,
    input: System<'_>,
    sizes: Sizes,
    work: &mut [f64],
    marks: &mut [u32],
) -> Result<(), Refusal>
    requires { sizes.marks ≡ length marks.old }
    ensures { SolveAsking form (lent input.entry) sizes work.old marks.old work.new marks.new result }
{
    shape_solve(form, input, sizes)?;
    let a = questions::ask_solve(input, marks);
    if a.is_err() {
        clear_scratch(work, marks);
    }
    a
}

// ---- zeros

// Clears scratch.
pub fn clear_scratch(work: &mut [f64], marks: &mut [u32])
    ensures { (work.new ≡ blank nought work.old) × (marks.new ≡ blank 0 marks.old) }
{
    base::clear(work);
    base::clear(marks);
}

// Clears the list starts and the index store of a side where a call is refused.
pub fn clear_lists_if(refused: bool, starts: &mut [u32], index: &mut [Index])
    ensures { (starts.new ≡ blank_if refused 0 starts.old) × (index.new ≡ blank_if refused 0 index.old) }
{
    if refused {
        base::clear(starts);
        base::clear(index);
    }
}

// Clears the run starts of both sides where a call is refused.
pub fn clear_runs_if(refused: bool, lower: &mut [u32], upper: &mut [u32])
    ensures { (lower.new ≡ blank_if refused 0 lower.old) × (upper.new ≡ blank_if refused 0 upper.old) }
{
    if refused {
        base::clear(lower);
        base::clear(upper);
    }
}

// Clears the values of both sides and d where a call is refused.
pub fn clear_numbers_if(refused: bool, lower: &mut [f64], upper: &mut [f64], d: &mut [f64])
    ensures { (lower.new ≡ blank_if refused nought lower.old) × (upper.new ≡ blank_if refused nought upper.old) × (d.new ≡ blank_if refused nought d.old) }
{
    if refused {
        base::clear(lower);
        base::clear(upper);
        base::clear(d);
    }
}

// ---- 12 and 13, and the solution

// Writes x from z, which stands in the last n slots of scratch.
pub fn write_x(n: usize, c: &[Index], work: &[f64], x: &mut [f64])
    requires { SolutionDue n c.now (length work.now) (length x.old) }
    ensures { x.new ≡ own_order c.now n (drop (z_from n) work.now) }
{
    let from = scratch::Z * n;
    questions::write_solution(n, c, &work[from..], x);
}

// Factors the matrix whose lists stand in their stores, and writes x: 12 and 13. The form passes [] for what it lacks, and its list starts as
// run starts where it has none. Another call clears.
pub fn factor_and_solve(
    form: Form,
    input: System<'_>,
    lower_starts: &[u32],
    lower_index: &[Index],
    lower_values: &mut [f64],
    upper_starts: &[u32],
    upper_runs: &[u32],
    upper_index: &[Index],
    upper_values: &mut [f64],
    d: &mut [f64],
    x: &mut [f64],
    work: &mut [f64],
    marks: &mut [u32],
) -> Result<(), Refusal>
    requires { FactorDue form (lent input) (lists lower_starts.now lower_index.now upper_starts.now upper_runs.now upper_index.now) (written lower_values.old upper_values.old d.old work.old marks.old) (length x.old) }
    ensures { Concluded form (lent input.entry) result lower_values.new upper_values.new d.new x.old x.new }
{
    let lists = Lists {
        lower_starts,
        lower_index,
        upper_starts,
        upper_runs,
        upper_index,
    };
    factor::factor(
        form,
        input,
        lists,
        lower_values,
        upper_values,
        d,
        work,
        marks,
    )?;
    write_x(input.n, input.c, work, x);
    Ok(())
}
