// Reads a matrix file from standard input and prints its solution, or why there is none.
#![tactic(auto)]

ghost use Rattle.std.specs.Prelude.{◌≡◌, ◌≤◌, ℕ, List, OnOk, length, take};
ghost use Rattle.std.specs.Io.KnownBytes.{Appends, Consumes};
ghost use Rattle.program.specs.Program.{printed};

use std::io;
use std::io::{Read, Write};

// Zeros for the input. A file that fills them is too large for the program.
fn input_buffer() -> [u8; 65536]
    ensures { 65536 ≡ length result }
{
    [0; 65536]
}

// Zeros for the lines of the answer.
fn output_buffer() -> [u8; 4096]
    ensures { 4096 ≡ length result }
{
    [0; 4096]
}

// Reads until the buffer is full, the input ends or a read fails, and answers how many bytes it put at the buffer's start.
fn read_full<R: Read>(reader: &mut R, buf: &mut [u8]) -> usize
    ensures in_bounds { result ≤ length buf.new }
    ensures bytes { Consumes (R.remaining reader.old) (R.remaining reader.new) (take result buf.new) }
{
    let mut done = 0;
    while done < buf.len() {
        match reader.read(&mut buf[done..]) {
            Ok(0) | Err(_) => break,
            Ok(n) => done += n,
        }
    }
    done
}

// Writes what is printed for the bytes that it reads.
fn answer<R: Read, W: Write>(reader: &mut R, writer: &mut W) -> io::Result<()>
    ensures { OnOk result ((file : List ℕ) × Consumes (R.remaining reader.old) (R.remaining reader.new) file
        × Appends (W.contents writer.old) (W.contents writer.new) (printed file)) }
{
    let mut file = input_buffer();
    let n = read_full(reader, &mut file);
    let mut out = output_buffer();
    let k = program::solve_file(&file[..n], &mut out);
    writer.write_all(&out[..k])
}

fn main(rt: HostRuntime) -> io::Result<()> {
    answer(&mut rt.stdin(), &mut rt.stdout())
}
