// Blocks of 512 bytes: a payload of 504, the block's number and two checks. Questions 16 and 17, and the sealing of a file.
#![tactic(auto)]

ghost use Rattle.std.specs.Prelude.{◌≡◌, ◌++◌, ◌+◌, ◌*◌, ◌/◌, ◌^◌, ◌≤◌, ◌<◌, length, take, drop};
ghost use Rattle.std.proofs.lemmas.List.Edits.{sets};
ghost use Rattle.fields.specs.Numbers.{le, bytes};
ghost use Rattle.fields.specs.Payload.{payloads};
ghost use Rattle.blocks.specs.Blocks.{byte_from, check_a, check_b, right_block, first_wrong, ask_blocks, payload_of, seal_block, sealed, blocks_for, file_of, ends_at};

use base::Refusal;

// Check A and check B of a block.
#[derive(Clone, Copy)]
pub struct Checks {
    pub a: u32,
    pub b: u32,
}

// Gives the checks of the block that starts at `from`. B adds up the sums so far; neither passes 65,806,320 before the division.
pub fn checks_of(file: &[u8], from: usize) -> Checks
    requires { from + 508 ≤ length file.now }
    ensures { (result.a ≡ check_a (byte_from file.now from)) × (result.b ≡ check_b (byte_from file.now from)) }
{
    let mut a: u32 = 0;
    let mut b: u32 = 0;
    for x in &file[from..from + 508] {
        a += u32::from(*x);
        b += a;
    }
    Checks {
        a: a % 65521,
        b: b % 65521,
    }
}

// Reads the number in `width` bytes of the block that starts at `from`, from its byte `at` on, least first.
pub fn number_in(file: &[u8], from: usize, at: usize, width: usize) -> u64
    requires { (width ≤ 8) × (from + (at + width) ≤ length file.now) }
    ensures { (result ≡ le width (byte_from file.now from) at) × (result < 256 ^ width) }
{
    let mut n: u64 = 0;
    for i in (0..width).rev() {
        n = n * 256 + u64::from(file[from + (at + i)]);
    }
    n
}

// Tells whether number and both checks of block `k` are right.
pub fn right_block(file: &[u8], k: usize) -> bool
    requires { 512 * k + 512 ≤ length file.now }
    ensures { result ≡ right_block file.now k }
{
    let from = 512 * k;
    let c = checks_of(file, from);
    let number = number_in(file, from, 504, 4);
    let a = number_in(file, from, 508, 2);
    let b = number_in(file, from, 510, 2);
    (number == k as u64) & (a == c.a as u64) & (b == c.b as u64)
}

// Finds the first block at fault.
pub fn first_wrong(file: &[u8]) -> Option<usize>
    ensures { result ≡ first_wrong file.now }
{
    for k in 0..file.len() / 512 {
        if !right_block(file, k) {
            return Some(k);
        }
    }
    None
}

// Asks 16 and 17.
pub fn ask_blocks(file: &[u8]) -> Result<(), Refusal>
    ensures { result ≡ ask_blocks file.now }
{
    let n = file.len();
    if !((0 < n) & (n % 512 == 0) & (n <= 2199023255552)) {
        return Err(Refusal::FileLength);
    }
    let wrong = first_wrong(file);
    match wrong {
        Some(k) => Err(Refusal::Block(k as u32)),
        None => Ok(()),
    }
}

// Tells whether the file has as many blocks as `size` payload bytes demand, and zeros after these.
pub fn ends_at(file: &[u8], size: usize) -> bool
    requires { size < 2 ^ 63 }
    ensures { result ≡ ends_at file.now size }
{
    if file.len() / 512 != (size + 503) / 504 {
        return false;
    }
    fields::zero_from(file, size)
}

// Stores the `width` bytes of `v`, least first, from byte `at` on.
pub fn put_bytes(file: &mut [u8], at: usize, width: usize, v: u64)
    requires { at + width ≤ length file.old }
    ensures { file.new ≡ sets file.old at (bytes width v) }
{
    let mut rest = v;
    for p in at..at + width {
        file[p] = (rest % 256) as u8;
        rest /= 256;
    }
}

// Gives block `k` its number and its checks.
pub fn seal_block(file: &mut [u8], k: usize)
    requires { 512 * k + 512 ≤ length file.old }
    ensures { file.new ≡ take (512 * k) file.old ++ (seal_block k (payload_of file.old k) ++ drop (512 * k + 512) file.old) }
{
    let from = 512 * k;
    put_bytes(file, from + 504, 4, k as u64);
    let c = checks_of(file, from);
    put_bytes(file, from + 508, 2, c.a as u64);
    put_bytes(file, from + 510, 2, c.b as u64);
}

// Seals every block.
pub fn seal_all(file: &mut [u8])
    ensures { file.new ≡ sealed file.old }
{
    let n = file.len() / 512;
    for k in 0..n {
        seal_block(file, k);
    }
}

// Makes the file of the first `size` payload bytes: zeros to the last block's end, then numbers and checks.
pub fn finish(file: &mut [u8], size: usize)
    requires { length file.old ≡ 512 * blocks_for size }
    ensures { file.new ≡ file_of (payloads file.old size) }
{
    fields::put_zeros(file, size);
    seal_all(file);
}
