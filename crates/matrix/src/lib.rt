// The matrix type: its limits, the shape of a matrix within them, and the lengths of its lists.
#![tactic(auto)]

ghost use Rattle.std.specs.Prelude.{◌≡◌, ◌≤◌};
ghost use Rattle.base.specs.Limits.{max_rows, max_entries, max_slots, rows_within};
ghost use Rattle.matrix.specs.Lists.{lengths_right};
ghost use Rattle.matrix.specs.Shape.{shape_of};

use base::{Index, Refusal};

// A matrix, its orders, a right side and a floor under pivots, as they are lent: row i has the own columns and the values
// from starts[i] to starts[i + 1], r and c are the orders of rows and columns. What a call doesn't read may be empty.
#[derive(Clone, Copy)]
pub struct System<'a> {
    pub n: usize,
    pub starts: &'a [u32],
    pub columns: &'a [Index],
    pub values: &'a [f64],
    pub r: &'a [Index],
    pub c: &'a [Index],
    pub b: &'a [f64],
    pub floor: f64,
}

// The shape of a matrix: its rows and its entries.
#[derive(Clone, Copy)]
pub struct Matrix {
    pub rows: usize,
    pub entries: usize,
}

// The greatest n, e and number of slots of a store.
#[derive(Clone, Copy)]
pub struct Limits(pub usize, pub usize, pub usize);

impl Matrix {
    // The greatest n.
    pub const MAX_ROWS: usize = 4096;

    // The greatest e.
    pub const MAX_ENTRIES: usize = 65536;

    // The greatest number of slots of a store.
    pub const MAX_SLOTS: usize = 1048576;

    // Asks 1: tells whether n is within its limits.
    pub fn rows_within(n: usize) -> bool
        ensures { result ≡ rows_within n }
    {
        (1 <= n) & (n <= Self::MAX_ROWS)
    }

    // Asks 2, of the lengths of a matrix's lists: tells whether they are those of n rows and e slots for its entries.
    pub fn lengths_right(
        n: usize,
        e: usize,
        starts: usize,
        columns: usize,
        values: usize,
        r: usize,
        c: usize,
        b: usize,
    ) -> bool
        requires { n ≤ max_rows }
        ensures { result ≡ lengths_right n e starts columns values r c b }
    {
        (starts == n + 1) & (columns == e) & (values == e) & (r == n) & (c == n) & (b == n)
    }

    // Makes the shape of n rows and e entries: refusal 1 for n, 2 for e.
    pub fn new(n: usize, e: usize) -> Result<Matrix, Refusal>
        ensures { result ≡ shape_of n e }
    {
        if Self::rows_within(n) {
            if e <= Self::MAX_ENTRIES {
                return Ok(Matrix {
                    rows: n,
                    entries: e,
                });
            }
            return Err(Refusal::Lengths);
        }
        Err(Refusal::Rows)
    }

    // Gives the constants, which are those that the definitions name.
    pub fn limits() -> Limits
        ensures { (result.0 ≡ max_rows) × (result.1 ≡ max_entries) × (result.2 ≡ max_slots) }
    {
        Limits(Self::MAX_ROWS, Self::MAX_ENTRIES, Self::MAX_SLOTS)
    }
}
