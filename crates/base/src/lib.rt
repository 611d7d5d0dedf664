// The words in which every call answers, index numbers and lengths, and the clearing of lent buffers.
#![tactic(auto)]

ghost use Rattle.std.specs.Prelude.{◌≡◌, ℕ, ◌<◌, set};
ghost use Rattle.std.specs.Float.Ieee.Scale.{finite};
ghost use Rattle.base.specs.Lists.{blank, nought};
ghost use Rattle.base.specs.Magnitude.{magnitude, at_most};
ghost use Rattle.base.specs.Index.{index_bound};
ghost use Rattle.base.specs.Answers.{number_of, place_of, number_of_answer, place_of_answer, counts_of, entries_of, sizes_of_kept};

pub mod scratch;

// ---- index numbers

// A number of the columns, the orders and the index stores. specs/Index has its bound; every cast from or to it stands below.
pub type Index = u16;

// Widens an index number to a slot's number.
pub fn wide(x: Index) -> usize
    ensures { (result ≡ x) × (result < index_bound) }
{
    x as usize
}

// Widens an index number to 32 bits.
pub fn number(x: Index) -> u32
    ensures { (result ≡ x) × (result < index_bound) }
{
    x as u32
}

// Narrows a number below the index's bound to an index number.
pub fn narrow(x: u32) -> Index
    requires { x < index_bound }
    ensures { result ≡ x }
{
    x as Index
}

// Widens a 32-bit number to a slot's number.
pub fn slot(x: u32) -> usize
    ensures { (result ≡ x) × (result < 4294967296) }
{
    x as usize
}

// ---- answers

// A row or a column by its own number in the matrix.
#[derive(Clone, Copy)]
pub struct OwnNumber(pub u32);

// A place in the elimination's order.
#[derive(Clone, Copy)]
pub struct Place(pub u32);

// Filled positions below and above the diagonal, and products.
#[derive(Clone, Copy)]
pub struct Counts {
    pub lower: u64,
    pub upper: u64,
    pub products: u64,
}

// The two sides of the diagonal.
#[derive(Clone, Copy)]
pub enum Side {
    Lower,
    Upper,
}

// The three ways to store structure and factors.
#[derive(Clone, Copy)]
pub enum Form {
    Plain,
    Shared,
    ByRow,
}

// The lengths of what a side is lent, 0 for what it is not.
#[derive(Clone, Copy)]
pub struct SideSizes {
    pub starts: usize,
    pub runs: usize,
    pub index: usize,
    pub values: usize,
}

// The lengths of all that a call writes.
#[derive(Clone, Copy)]
pub struct Sizes {
    pub lower: SideSizes,
    pub upper: SideSizes,
    pub d: usize,
    pub x: usize,
    pub work: usize,
    pub marks: usize,
}

// Row k's sum, reciprocal pivot and y, which go from step to step of its elimination.
#[derive(Clone, Copy)]
pub struct RowSums {
    pub sum: f64,
    pub reciprocal: f64,
    pub y: f64,
}

// A question answered with no, in the order of the numbers, and where.
#[derive(Clone, Copy)]
pub enum Refusal {
    Rows,
    Lengths,
    Starts(OwnNumber),
    Column(u32),
    Order(u32),
    NotFinite(u32),
    EmptyRow(OwnNumber),
    // 8 is reserved: a row may have a column several times.
    NullPivot(Place),
    LowerSlots(Place),
    UpperSlots(Place),
    ZeroPivot(Place),
    Overflow(Place),
    OtherStructure(Place),
    BadFactors(Place),
    FileLength,
    Block(u32),
    FileShape,
    Floor,
    FactorShape,
    Products,
}

// The rows of factors in the plain form, and the entries of their two sides.
#[derive(Clone, Copy)]
pub struct FactorSizes {
    pub n: usize,
    pub lower: usize,
    pub upper: usize,
}

// What is told of how a call ends: the paper's number and place, of a refusal as of the call that it ends.
pub trait Numbered {
    ghost number_in: { Self → ℕ };

    ghost place_in: { Self → ℕ };

    // Gives the paper's number, 0 for done.
    fn number(self) -> u32
        ensures { result ≡ number_in self };

    // Gives the paper's place, 0 for done and where it names none.
    fn place(self) -> u32
        ensures { result ≡ place_in self };
}

impl Numbered for Refusal {
    ghost number_in = { number_of };

    ghost place_in = { place_of };

    fn number(self) -> u32 {
        match self {
            Refusal::Rows => 1,
            Refusal::Lengths => 2,
            Refusal::Starts(_) => 3,
            Refusal::Column(_) => 4,
            Refusal::Order(_) => 5,
            Refusal::NotFinite(_) => 6,
            Refusal::EmptyRow(_) => 7,
            Refusal::NullPivot(_) => 9,
            Refusal::LowerSlots(_) => 10,
            Refusal::UpperSlots(_) => 11,
            Refusal::ZeroPivot(_) => 12,
            Refusal::Overflow(_) => 13,
            Refusal::OtherStructure(_) => 14,
            Refusal::BadFactors(_) => 15,
            Refusal::FileLength => 16,
            Refusal::Block(_) => 17,
            Refusal::FileShape => 18,
            Refusal::Floor => 19,
            Refusal::FactorShape => 20,
            Refusal::Products => 21,
        }
    }

    fn place(self) -> u32 {
        match self {
            Refusal::Starts(i) | Refusal::EmptyRow(i) => i.0,
            Refusal::Column(p) | Refusal::Order(p) | Refusal::NotFinite(p) | Refusal::Block(p) => p,
            Refusal::NullPivot(k)
            | Refusal::LowerSlots(k)
            | Refusal::UpperSlots(k)
            | Refusal::ZeroPivot(k)
            | Refusal::Overflow(k)
            | Refusal::OtherStructure(k)
            | Refusal::BadFactors(k) => k.0,
            Refusal::Rows => 0,
            Refusal::Lengths => 0,
            Refusal::FileLength => 0,
            Refusal::FileShape => 0,
            Refusal::Floor => 0,
            Refusal::FactorShape => 0,
            Refusal::Products => 0,
        }
    }
}

impl<T: Copy> Numbered for Result<T, Refusal> {
    ghost number_in = { number_of_answer };

    ghost place_in = { place_of_answer };

    fn number(self) -> u32 {
        match self {
            Ok(_) => 0,
            Err(q) => q.number(),
        }
    }

    fn place(self) -> u32 {
        match self {
            Ok(_) => 0,
            Err(q) => q.place(),
        }
    }
}

// Gives the counts of a structure call or a solve, 0 after a refusal.
pub fn counts_of(answer: Result<Counts, Refusal>) -> Counts
    ensures { result ≡ counts_of answer }
{
    answer.unwrap_or(Counts {
        lower: 0,
        upper: 0,
        products: 0,
    })
}

// Gives the entries of a matrix that was made, 0 after a refusal.
pub fn entries_of(made: Result<usize, Refusal>) -> usize
    ensures { result ≡ entries_of made }
{
    made.unwrap_or(0)
}

// Gives the sizes of the factors in a file, 0 after a refusal.
pub fn sizes_of(kept: Result<FactorSizes, Refusal>) -> FactorSizes
    ensures { result ≡ sizes_of_kept kept }
{
    kept.unwrap_or(FactorSizes {
        n: 0,
        lower: 0,
        upper: 0,
    })
}

// Tells whether x is neither a NaN nor an infinity: the difference of these with themselves is a NaN.
pub fn is_finite(x: f64) -> bool
    ensures { result ≡ finite x }
{
    x - x == 0.0
}

// Gives a number without its sign: +0 for a zero of either.
pub fn magnitude(x: f64) -> f64
    ensures { result ≡ magnitude x }
{
    if x < 0.0 {
        return -x;
    }
    if x == 0.0 {
        return 0.0;
    }
    x
}

// Tells whether the magnitude of p is at most f.
pub fn at_most(p: f64, f: f64) -> bool
    ensures { result ≡ at_most p f }
{
    if p < 0.0 {
        return -p <= f;
    }
    p <= f
}

// A slot's zero: 0, or +0. The integers stand for themselves, so that an index of either width has one.
pub trait Zero: Copy {
    ghost nil: { Self };

    fn zero() -> Self
        ensures { result ≡ nil };
}

impl Zero for u16 {
    ghost nil = { 0 };

    fn zero() -> u16 {
        0
    }
}

impl Zero for u32 {
    ghost nil = { 0 };

    fn zero() -> u32 {
        0
    }
}

impl Zero for f64 {
    ghost nil = { nought };

    fn zero() -> f64 {
        0.0
    }
}

// Writes zero into every slot.
pub fn clear<T: Zero>(s: &mut [T])
    ensures { s.new ≡ blank T.nil s.old }
{
    for x in s.iter_mut() {
        *x = T::zero();
    }
}

// Writes v at a place, if s has it: a text or a report goes as far as its buffer does.
pub fn put<T: Copy>(s: &mut [T], at: usize, v: T)
    ensures { s.new ≡ set s.old at v }
{
    if at < s.len() {
        s[at] = v;
    }
}
