// Numbers, texts and the program's lines, written into a lent buffer as far as it goes.
#![tactic(auto)]

ghost use Rattle.std.specs.Prelude.{◌≡◌, [], ◌∷◌, ◌+◌, ◌≤◌, ◌<◌, length, replicate};
ghost use Rattle.printing.specs.Print.{digit, digits, width_in, decimal, column, labelled, bits_end, counts_line, value_line, refused_line, too_large_line};
ghost use Rattle.printing.specs.Written.{farthest};
ghost use Rattle.printing.specs.Prints.{Prints};

use base::Counts;

// A lent buffer, and the place after what stands in it. What does not fit is counted, but not written.
#[derive(Drop)]
pub struct Printer<'a> {
    pub out: &'a mut [u8],
    pub at: usize,
}

// The character of a digit below 16, by arithmetic alone: (d + 6) / 16 is 1 from 10 on, and the capital letters stand 7 behind the digits.
fn digit_of(d: u64) -> u8
    requires { d < 16 }
    ensures { result ≡ digit d }
{
    (48 + d + 7 * ((d + 6) / 16)) as u8
}

// How many decimal digits x has: one for 0.
fn width_of(x: u64) -> usize
    ensures { (result ≡ width_in 20 x) × (result ≤ 20) }
{
    x.max(1).ilog10() as usize + 1
}

impl<'a> Printer<'a> {
    // A printer at the start of a buffer.
    pub fn new(out: &'a mut [u8]) -> Printer<'a>
        ensures same { result.out.ghost_name ≡ out.entry.ghost_name }
        ensures start { (result.out.now ≡ out.old) × (result.at ≡ 0) }
    {
        Printer { out, at: 0 }
    }

    // The last `width` digits of x.
    fn digits(&mut self, base: u64, width: usize, x: u64)
        requires { (2 ≤ base) × (base ≤ 16) × (width ≤ 20) × (self.old.at ≤ farthest) }
        ensures { Prints (digits base width x) self.old self.new }
    {
        let at = self.at;
        let out = &mut *self.out;
        let mut rest = x;
        for i in (0..width).rev() {
            base::put(out, at + i, digit_of(rest % base));
            rest /= base;
        }
        self.at = at + width;
    }

    // Writes a byte.
    fn byte(&mut self, b: u8)
        requires { self.old.at ≤ farthest + farthest }
        ensures { Prints (b ∷ []) self.old self.new }
    {
        base::put(self.out, self.at, b);
        self.at += 1;
    }

    // Writes the bytes of a text.
    pub fn text(&mut self, text: &[u8])
        requires { (self.old.at ≤ farthest) × (length text.now ≤ farthest) }
        ensures { Prints text.now self.old self.new }
    {
        for b in text {
            self.byte(*b);
        }
    }

    // x in decimal.
    fn decimal(&mut self, x: u64)
        requires { self.old.at ≤ farthest }
        ensures prints { Prints (decimal x) self.old self.new }
        ensures most { self.new.at ≤ self.old.at + 20 }
    {
        self.digits(10, width_of(x), x);
    }

    // Writes so many blanks.
    pub fn blanks(&mut self, count: usize)
        requires { (self.old.at ≤ farthest) × (count ≤ farthest) }
        ensures prints { Prints (replicate count 32) self.old self.new }
        ensures next { self.new.at ≡ self.old.at + count }
    {
        for _ in 0..count {
            self.byte(b' ');
        }
    }

    // Writes x at the right end of a column, in which it fits.
    pub fn column(&mut self, width: usize, x: u64)
        requires { (self.old.at + 20 ≤ farthest) × (width_in 20 x ≤ width) × (width ≤ 20) }
        ensures prints { Prints (column width x) self.old self.new }
        ensures next { self.new.at ≡ self.old.at + width }
    {
        let digits = width_of(x);
        self.blanks(width - digits);
        self.digits(10, digits, x);
    }

    // A text and a number.
    fn labelled(&mut self, text: &[u8], x: u64)
        requires { (self.old.at ≤ 66000) × (length text.now ≤ 10) }
        ensures prints { Prints (labelled text.now x) self.old self.new }
        ensures most { self.new.at ≤ self.old.at + 30 }
    {
        self.text(text);
        self.decimal(x);
    }

    // Writes a line such as `n 2 lower 1 upper 1 products 1`.
    pub fn counts(&mut self, n: u64, counts: Counts)
        requires { self.old.at ≤ 65536 }
        ensures prints { Prints (counts_line n counts) self.old self.new }
        ensures most { self.new.at ≤ self.old.at + 121 }
    {
        self.labelled(b"n ", n);
        self.labelled(b" lower ", counts.lower);
        self.labelled(b" upper ", counts.upper);
        self.labelled(b" products ", counts.products);
        self.text(b"\n");
    }

    // The end of a value's line: a blank, 16 capital hexadecimal digits, and the line's end.
    fn bits(&mut self, bits: u64)
        requires { self.old.at ≤ 66000 }
        ensures { Prints (bits_end bits) self.old self.new }
    {
        self.text(b" ");
        self.digits(16, 16, bits);
        self.text(b"\n");
    }

    // Writes a line such as `x 0 3FF0000000000000`.
    pub fn value(&mut self, column: u64, bits: u64)
        requires { self.old.at ≤ 65536 }
        ensures prints { Prints (value_line column bits) self.old self.new }
        ensures most { self.new.at ≤ self.old.at + 48 }
    {
        self.labelled(b"x ", column);
        self.bits(bits);
    }

    // Writes a line such as `refused 12 0`.
    pub fn refused(&mut self, number: u32, place: u32)
        requires { self.old.at ≤ 65536 }
        ensures prints { Prints (refused_line number place) self.old self.new }
        ensures most { self.new.at ≤ self.old.at + 61 }
    {
        self.labelled(b"refused ", u64::from(number));
        self.labelled(b" ", u64::from(place));
        self.text(b"\n");
    }

    // Writes the line `too large`.
    pub fn too_large(&mut self)
        requires { self.old.at ≤ 65536 }
        ensures prints { Prints too_large_line self.old self.new }
        ensures most { self.new.at ≤ self.old.at + 10 }
    {
        self.text(b"too large\n");
    }
}
