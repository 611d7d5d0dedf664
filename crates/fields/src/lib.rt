// Numbers of any width in the joined payloads of a file of blocks: read one by one and in lists, and written.
#![tactic(auto)]

ghost use Rattle.std.specs.Prelude.{◌≡◌, ℕ, List, map, refl, ◌++◌, ◌+◌, ◌*◌, ◌^◌, ◌≤◌, ◌<◌, length};
ghost use Rattle.std.specs.Float.{binary64};
ghost use Rattle.std.specs.Float.Ieee.{of_bits, to_bits};
ghost use Rattle.std.proofs.Common.{lit≤};
ghost use Rattle.base.specs.Lists.{padded, table};
ghost use Rattle.fields.specs.Numbers.{le, bytes, fields};
ghost use Rattle.fields.specs.Payload.{room, payload, payloads, field_at, fields_at, floats_at, bits_of, zero_from};
ghost use Rattle.fields.specs.PayloadLaws.{fields-each, floats-each, numbers-each};

use base::Index;

// "A reader over the lent file holds its bytes and the next payload byte."
#[derive(Clone, Copy)]
pub struct Reader<'a> {
    pub bytes: &'a [u8],
    pub at: usize,
}

// Reads payload byte `at`.
pub fn payload_byte(file: &[u8], at: usize) -> u64
    requires { at < room file.now }
    ensures { (result ≡ payload file.now at) × (result < 256) }
{
    file[at / 504 * 512 + at % 504] as u64
}

// Reads the number in the `width` payload bytes from `at`, least first.
pub fn number_at(file: &[u8], at: usize, width: usize) -> u64
    requires { (width ≤ 8) × (at + width ≤ room file.now) }
    ensures { (result ≡ le width (payload file.now) at) × (result < 256 ^ width) }
{
    let mut n: u64 = 0;
    for i in (0..width).rev() {
        n = n * 256 + payload_byte(file, at + i);
    }
    n
}

impl<'a> Reader<'a> {
    // Makes a reader at the first payload byte.
    pub fn new(bytes: &'a [u8]) -> Reader<'a>
        ensures { (result.bytes ≡ bytes.entry) × (result.at ≡ 0) }
    {
        Reader { bytes, at: 0 }
    }

    // Reads the number in the next `width` payload bytes.
    pub fn number(self, width: usize) -> u64
        requires { (width ≤ 8) × (self.at + width ≤ room self.bytes.now) }
        ensures { result ≡ le width (payload self.entry.bytes.now) self.entry.at }
    {
        number_at(self.bytes, self.at, width)
    }

    // Moves the reader past the next `width` payload bytes.
    pub fn past(self, width: usize) -> Reader<'a>
        requires { self.at + width < 2 ^ 64 }
        ensures { (result.bytes ≡ self.entry.bytes) × (result.at ≡ self.entry.at + width) }
    {
        Reader {
            bytes: self.bytes,
            at: self.at + width,
        }
    }
}

// Gives the float of a bit pattern. Every pattern of a NaN is the one NaN.
pub fn float_of(n: u64) -> f64
    ensures { result ≡ of_bits binary64 n }
{
    if 0x7FF0_0000_0000_0000 < n % 0x8000_0000_0000_0000 {
        0.0 / 0.0
    } else {
        f64::from_bits(n)
    }
}

// Gives the bit pattern of a float, 7FF8000000000000 for the NaN.
pub fn bits_of(x: f64) -> u64
    ensures { result ≡ to_bits binary64 x }
{
    if x != x {
        0x7FF8_0000_0000_0000
    } else {
        f64::to_bits(x)
    }
}

// A value that a file holds as a number of so many bytes, a width that its type has.
pub trait Field: Copy {
    const WIDTH: usize;

    ghost WIDTH: { ℕ };

    // The value of a number, and the number that a value is written as.
    ghost value_of: { ℕ → Self };

    ghost number_of: { Self → ℕ };

    // The values that stand in a file from a place on, and the numbers that a list is written as.
    ghost values_at: { List ℕ → ℕ → ℕ → List Self };

    ghost numbers_of: { List Self → List ℕ };

    // Gives the value of a number.
    fn from_number(n: u64) -> Self
        requires { n < 256 ^ WIDTH }
        ensures { result ≡ value_of n };

    // Gives the number that the value is written as.
    fn to_number(self) -> u64
        ensures { result ≡ number_of self };

    ghost narrow: { WIDTH ≤ 8 };

    ghost reads_each: { (file : List ℕ) (at n : ℕ) → values_at file at n ≡ table (λ k. value_of (field_at WIDTH file at k)) n };

    ghost writes_each: { (xs : List Self) → numbers_of xs ≡ map number_of xs };
}

impl Field for u16 {
    const WIDTH: usize = 2;

    ghost WIDTH = { 2 };

    ghost value_of = { λ n. n };

    ghost number_of = { λ x. x };

    ghost values_at = { fields_at 2 };

    ghost numbers_of = { λ xs. xs };

    ghost narrow = { lit≤ tt };

    ghost reads_each = { fields-each 2 };

    ghost writes_each = { numbers-each };

    fn from_number(n: u64) -> u16 {
        n as u16
    }

    fn to_number(self) -> u64 {
        self as u64
    }
}

impl Field for u32 {
    const WIDTH: usize = 4;

    ghost WIDTH = { 4 };

    ghost value_of = { λ n. n };

    ghost number_of = { λ x. x };

    ghost values_at = { fields_at 4 };

    ghost numbers_of = { λ xs. xs };

    ghost narrow = { lit≤ tt };

    ghost reads_each = { fields-each 4 };

    ghost writes_each = { numbers-each };

    fn from_number(n: u64) -> u32 {
        n as u32
    }

    fn to_number(self) -> u64 {
        self as u64
    }
}

impl Field for f64 {
    const WIDTH: usize = 8;

    ghost WIDTH = { 8 };

    ghost value_of = { of_bits binary64 };

    ghost number_of = { to_bits binary64 };

    ghost values_at = { floats_at };

    ghost numbers_of = { bits_of };

    ghost narrow = { lit≤ tt };

    ghost reads_each = { floats-each };

    ghost writes_each = { λ _. refl };

    fn from_number(n: u64) -> f64 {
        float_of(n)
    }

    fn to_number(self) -> u64 {
        bits_of(self)
    }
}

// A value that a file holds as a number of WIDTH bytes. The width is the file's: an index of 32 bits would still have 2 bytes in it.
pub trait FieldAs<const WIDTH: usize>: Copy {
    // The value of a number, and the number that a value is written as.
    ghost value_of: { ℕ → Self };

    ghost number_of: { Self → ℕ };

    // The values that stand in a file from a place on, and the numbers that a list is written as.
    ghost values_at: { List ℕ → ℕ → ℕ → List Self };

    ghost numbers_of: { List Self → List ℕ };

    // Gives the value of a number.
    fn from_number(n: u64) -> Self
        requires { n < 256 ^ WIDTH }
        ensures { result ≡ value_of n };

    // Gives the number that the value is written as.
    fn to_number(self) -> u64
        ensures { result ≡ number_of self };

    ghost narrow: { WIDTH ≤ 8 };

    ghost reads_each: { (file : List ℕ) (at n : ℕ) → values_at file at n ≡ table (λ k. value_of (field_at WIDTH file at k)) n };

    ghost writes_each: { (xs : List Self) → numbers_of xs ≡ map number_of xs };
}

impl FieldAs<2> for Index {
    ghost value_of = { λ n. n };

    ghost number_of = { λ x. x };

    ghost values_at = { fields_at 2 };

    ghost numbers_of = { λ xs. xs };

    ghost narrow = { lit≤ tt };

    ghost reads_each = { fields-each 2 };

    ghost writes_each = { numbers-each };

    fn from_number(n: u64) -> Index {
        n as Index
    }

    fn to_number(self) -> u64 {
        self as u64
    }
}

impl FieldAs<4> for u32 {
    ghost value_of = { λ n. n };

    ghost number_of = { λ x. x };

    ghost values_at = { fields_at 4 };

    ghost numbers_of = { λ xs. xs };

    ghost narrow = { lit≤ tt };

    ghost reads_each = { fields-each 4 };

    ghost writes_each = { numbers-each };

    fn from_number(n: u64) -> u32 {
        n as u32
    }

    fn to_number(self) -> u64 {
        self as u64
    }
}

impl FieldAs<8> for f64 {
    ghost value_of = { of_bits binary64 };

    ghost number_of = { to_bits binary64 };

    ghost values_at = { floats_at };

    ghost numbers_of = { bits_of };

    ghost narrow = { lit≤ tt };

    ghost reads_each = { floats-each };

    ghost writes_each = { λ _. refl };

    fn from_number(n: u64) -> f64 {
        float_of(n)
    }

    fn to_number(self) -> u64 {
        bits_of(self)
    }
}

// Fills `out` with the values from payload byte `at` on, and answers where they end.
pub fn read<T: Field>(file: &[u8], at: usize, out: &mut [T]) -> usize
    requires { at + T.WIDTH * length out.old ≤ room file.now }
    ensures { (result ≡ at + T.WIDTH * length out.old) × (out.new ≡ T.values_at file.now at (length out.old)) }
{
    let mut p = at;
    for x in out.iter_mut() {
        *x = T::from_number(number_at(file, p, T::WIDTH));
        p += T::WIDTH;
    }
    p
}

// The same, each value in WIDTH bytes.
pub fn read_as<const WIDTH: usize, T: FieldAs<WIDTH>>(
    file: &[u8],
    at: usize,
    out: &mut [T],
) -> usize
    requires { at + WIDTH * length out.old ≤ room file.now }
    ensures { (result ≡ at + WIDTH * length out.old) × (out.new ≡ T.values_at file.now at (length out.old)) }
{
    let mut p = at;
    for x in out.iter_mut() {
        *x = T::from_number(number_at(file, p, WIDTH));
        p += WIDTH;
    }
    p
}

// Tells whether every payload byte from `from` on is zero.
pub fn zero_from(file: &[u8], from: usize) -> bool
    requires { from ≤ room file.now }
    ensures { result ≡ zero_from file.now from }
{
    let end = file.len() / 512 * 504;
    (from..end).all(|p| payload_byte(file, p) == 0)
}

// Lays the `width` bytes of `v` down, least first, as the payload bytes from `at`, and answers where they end.
pub fn put_number(file: &mut [u8], at: usize, width: usize, v: u64) -> usize
    requires { at + width ≤ room file.old }
    ensures { (result ≡ at + width) × (payloads file.new result ≡ payloads file.old at ++ bytes width v) }
{
    let mut rest = v;
    for p in at..at + width {
        file[p / 504 * 512 + p % 504] = (rest % 256) as u8;
        rest /= 256;
    }
    at + width
}

// Lays the values of a list down from payload byte `at` on, and answers where they end.
pub fn write<T: Field>(file: &mut [u8], at: usize, src: &[T]) -> usize
    requires { at + T.WIDTH * length src.now ≤ room file.old }
    ensures { (result ≡ at + T.WIDTH * length src.now) × (payloads file.new result ≡ payloads file.old at ++ fields T.WIDTH (T.numbers_of src.now)) }
{
    let mut p = at;
    for x in src {
        p = put_number(file, p, T::WIDTH, x.to_number());
    }
    p
}

// The same, each value in WIDTH bytes.
pub fn write_as<const WIDTH: usize, T: FieldAs<WIDTH>>(
    file: &mut [u8],
    at: usize,
    src: &[T],
) -> usize
    requires { at + WIDTH * length src.now ≤ room file.old }
    ensures { (result ≡ at + WIDTH * length src.now) × (payloads file.new result ≡ payloads file.old at ++ fields WIDTH (T.numbers_of src.now)) }
{
    let mut p = at;
    for x in src {
        p = put_number(file, p, WIDTH, x.to_number());
    }
    p
}

// Writes zeros from payload byte `from` to the last block's end.
pub fn put_zeros(file: &mut [u8], from: usize)
    requires { from ≤ room file.old }
    ensures { payloads file.new (room file.old) ≡ padded 0 (room file.old) (payloads file.old from) }
{
    let end = file.len() / 512 * 504;
    for p in from..end {
        put_number(file, p, 1, 0);
    }
}

#[cfg(test)]
mod tests;
