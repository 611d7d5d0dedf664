// Writes the file of a matrix of 8 rows and 40 entries, reads it back and writes it again, and prints a digest of each file.
// The two are the same. Then a byte of the second block is damaged. data/expected.py works out by itself what is to be printed.
#![tactic(auto)]

use base::{Index, Numbered, Refusal};
use std::io;

// The bytes as a number to the base 257, modulo a prime.
fn digest(bytes: &[u8]) -> u64 {
    let mut h: u64 = 1;
    for b in bytes {
        h = (h % 4294967291 * 257 + u64::from(*b)) % 4294967291;
    }
    h
}

// Zeros of both signs, subnormals, infinities, the largest number, NaNs of four patterns, and one that differs in every byte.
fn odd_values() -> [f64; 40] {
    let mut values = [0.1f64; 40];
    values[0] = fields::float_of(0x8000_0000_0000_0000);
    values[1] = fields::float_of(0x0000_0000_0000_0001);
    values[2] = fields::float_of(0x800F_FFFF_FFFF_FFFF);
    values[3] = fields::float_of(0x7FF0_0000_0000_0000);
    values[4] = fields::float_of(0xFFF0_0000_0000_0000);
    values[5] = fields::float_of(0x7FEF_FFFF_FFFF_FFFF);
    values[6] = fields::float_of(0x7FF0_0000_0000_0001);
    values[7] = fields::float_of(0xFFFF_FFFF_FFFF_FFFF);
    values[8] = fields::float_of(0xFFF8_0000_0000_0000);
    values[38] = fields::float_of(0x7FF8_0000_0000_0000);
    values[39] = fields::float_of(0x0123_4567_89AB_CDEF);
    values
}

fn columns() -> [Index; 40] {
    let mut out: [Index; 40] = [0; 40];
    for i in 0..40 {
        out[base::wide(i)] = (i * 5 + 3) % 8;
    }
    out
}

// Another byte.
fn other(x: u8) -> u8 {
    if x == 0 { 1 } else { 0 }
}

// The number and the place of an answer.
fn print_end(rt: &impl Print, a: Result<(), Refusal>) -> io::Result<()> {
    println!(rt; "{} {}", a.number(), a.place())
}

fn print_digest(rt: &impl Print, bytes: &[u8]) -> io::Result<()> {
    println!(rt; "{:08x}", digest(bytes))
}

// Reads the file of the matrix below into dirty buffers, and writes what was read over `again`.
fn copy(rt: &impl Print, file: &[u8], again: &mut [u8]) -> io::Result<()> {
    let mut starts = [9u32; 9];
    let mut columns: [Index; 40] = [9; 40];
    let mut values = [9.0f64; 40];
    let mut r: [Index; 8] = [9; 8];
    let mut c: [Index; 8] = [9; 8];
    let mut b = [9.0f64; 8];
    let read = matrix_file::read_matrix(
        file,
        &mut starts,
        &mut columns,
        &mut values,
        &mut r,
        &mut c,
        &mut b,
    );
    print_end(rt, read)?;
    let written = matrix_file::write_matrix(8, &starts, &columns, &values, &r, &c, &b, again);
    print_end(rt, written)
}

fn main(rt: HostRuntime) -> io::Result<()> {
    let starts: [u32; 9] = [0, 5, 10, 15, 20, 25, 30, 35, 40];
    let columns = columns();
    let values = odd_values();
    let r: [Index; 8] = [3, 1, 7, 0, 5, 2, 6, 4];
    let c: [Index; 8] = [6, 0, 2, 5, 1, 7, 4, 3];
    let b: [f64; 8] = [1.0, -2.5, 1e300, 0.0, -0.0, 3e-310, 7.0, 0.3];
    let mut file = [7u8; 1024];
    let written = matrix_file::write_matrix(8, &starts, &columns, &values, &r, &c, &b, &mut file);
    print_end(&rt, written)?;
    let mut again = [5u8; 1024];
    copy(&rt, &file, &mut again)?;
    print_digest(&rt, &file)?;
    print_digest(&rt, &again)?;
    again[700] = other(again[700]);
    let shape = matrix_file::matrix_file_shape(&again);
    match shape {
        Ok(_) => print_end(&rt, Ok(())),
        Err(q) => print_end(&rt, Err(q)),
    }
}
